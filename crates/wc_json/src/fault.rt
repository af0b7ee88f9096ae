//! Faults of JSON texts: the reasons why a text is refused.

ghost use Rattle.std.specs.Prelude.{◌≡◌, ◌≤◌};
ghost use Rattle.wc_json.specs.Fault.{json_fault_number, json_fault_text, problem_number, problem_text};
ghost use Rattle.wc_json.specs.declared.fault.JsonFault.TheVariants.{Memory};

use std::alloc::{AllocError, AllocFailed};
use thiserror::Error;
use wc_texts::{CARRIED, FaultText, OUT_OF_MEMORY, Pieces, PutFailed, put_carried};

/// The problem with a JSON value, or with a member that isn't there.
#[derive(Clone, Copy, Debug, PartialEq, Eq, Error)]
pub enum Problem {
    /// An object has no member of a name that has to be there.
    #[error("missing")]
    Missing,
    /// The value is not an object.
    #[error("not an object")]
    NotAnObject,
    /// The value is an object that should have exactly one member, and has none or several.
    #[error("not an object of one member")]
    NotOneMember,
    /// The value is not a list.
    #[error("not a list")]
    NotAList,
    /// The value is not a text.
    #[error("not a text")]
    NotAText,
    /// The value is not a number of decimal digits alone, below 2^32.
    #[error("not an index")]
    NotAnIndex,
    /// The text, or the name of an object's only member, is none that the format has here.
    #[error("unknown")]
    Unknown,
    /// A kind of type that the format has and this layer leaves out: `fixed-length-list`,
    /// `fixed-size-list`, `map` or `unknown`.
    #[error("kind of type that is left out")]
    LeftOut,
    /// A member of an older form of the format, which means something that would be lost: `results`.
    #[error("member of an older form")]
    Outdated,
    /// The text is neither `namespace:name` nor `namespace:name@version`.
    #[error("not a package name")]
    NotAPackageName,
    /// The value is neither true nor false.
    #[error("not a truth value")]
    NotABool,
}

impl Problem {
    /// The number of the problem, its position in the enum. It never changes.
    pub fn number(self) -> u32
        ensures number { result ≡ problem_number self }
        ensures bounded { result ≤ 10 }
    {
        match self {
            Problem::Missing => 0,
            Problem::NotAnObject => 1,
            Problem::NotOneMember => 2,
            Problem::NotAList => 3,
            Problem::NotAText => 4,
            Problem::NotAnIndex => 5,
            Problem::Unknown => 6,
            Problem::LeftOut => 7,
            Problem::Outdated => 8,
            Problem::NotAPackageName => 9,
            Problem::NotABool => 10,
        }
    }
}

impl FaultText for Problem {
    ghost text = { problem_text };

    fn put_pieces<P: Pieces>(&self, out: &mut P) -> Result<(), PutFailed> {
        match self {
            Problem::Missing => out.put_piece("missing"),
            Problem::NotAnObject => out.put_piece("not an object"),
            Problem::NotOneMember => out.put_piece("not an object of one member"),
            Problem::NotAList => out.put_piece("not a list"),
            Problem::NotAText => out.put_piece("not a text"),
            Problem::NotAnIndex => out.put_piece("not an index"),
            Problem::Unknown => out.put_piece("unknown"),
            Problem::LeftOut => out.put_piece("kind of type that is left out"),
            Problem::Outdated => out.put_piece("member of an older form"),
            Problem::NotAPackageName => out.put_piece("not a package name"),
            Problem::NotABool => out.put_piece("not a truth value"),
        }
    }
}

/// Why a text is refused. `Memory` may come in place of any other. Before a value is looked at, the
/// text has to be JSON, and then no object may have a member twice.
#[derive(Debug, Drop, Error)]
pub enum JsonFault {
    /// An allocation failed.
    #[error("out of memory")]
    Memory,
    /// The text is not JSON, or it nests deeper than 128 arrays and objects.
    #[error("not JSON")]
    NotJson,
    /// An object has two members of one name.
    #[error("repeated member")]
    RepeatedMember,
    /// A value isn't what it has to be. The path leads to it from the whole text: members by their
    /// names after a dot, items of lists by their indices, entries of maps by their keys, as
    /// `interfaces[0].functions["f"].kind`. Of the whole text the path is empty.
    #[error("{path}{separator}{problem}", separator = separator(.path))]
    Wrong { path: String, problem: Problem },
}

/// The separator between a path and a problem.
fn separator(path: &String) -> &'static str {
    if path.is_empty() { "" } else { ": " }
}

impl JsonFault {
    /// The number of the fault: its position in the enum, and of `Wrong` 256 times the number of the problem. The
    /// path is no part of it. It never changes.
    pub fn number(&self) -> u32
        ensures number { result ≡ json_fault_number self.now }
        ensures bounded { result ≤ 2563 }
    {
        match self {
            JsonFault::Memory => 0,
            JsonFault::NotJson => 1,
            JsonFault::RepeatedMember => 2,
            JsonFault::Wrong { problem, .. } => 3 + CARRIED * problem.number(),
        }
    }
}

impl FaultText for JsonFault {
    ghost text = { json_fault_text };

    fn put_pieces<P: Pieces>(&self, out: &mut P) -> Result<(), PutFailed> {
        match self {
            JsonFault::Memory => out.put_piece(OUT_OF_MEMORY),
            JsonFault::NotJson => out.put_piece("not JSON"),
            JsonFault::RepeatedMember => out.put_piece("repeated member"),
            JsonFault::Wrong { path, problem } => {
                if path.is_empty() {
                    problem.put_pieces(out)
                } else {
                    put_carried(out, path, problem)
                }
            }
        }
    }
}

impl From<AllocError> for JsonFault {
    ghost from_gives = { λ _ e. e ≡ Memory };

    fn from(_e: AllocError) -> JsonFault {
        JsonFault::Memory
    }
}

impl<T: Drop> From<AllocFailed<T>> for JsonFault {
    ghost from_gives = { λ _ e. e ≡ Memory };

    fn from(_e: AllocFailed<T>) -> JsonFault {
        JsonFault::Memory
    }
}

impl From<json::Error> for JsonFault {
    ghost use Rattle.wc_json.specs.Fault.{of_json};

    ghost from_gives = { λ e f. f ≡ of_json e };

    fn from(error: json::Error) -> JsonFault {
        match error {
            json::Error::Invalid | json::Error::TooLong => JsonFault::NotJson,
            json::Error::DuplicateKey => JsonFault::RepeatedMember,
            json::Error::OutOfMemory => JsonFault::Memory,
        }
    }
}
