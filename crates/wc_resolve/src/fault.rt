//! Faults of parts: the reasons why they are not well-formed.

ghost use Rattle.std.specs.Prelude.{◌≡◌, ◌≤◌};
ghost use Rattle.wc_resolve.specs.declared.fault.ResolveFault.TheVariants.{Memory};
ghost use Rattle.wc_resolve.specs.Fault.{resolve_fault_number, resolve_fault_text};

use std::alloc::{AllocError, AllocFailed};
use thiserror::Error;
use wc_texts::{FaultText, OUT_OF_MEMORY, Pieces, PutFailed};

/// Why `Resolve::build` refused parts. Of several causes, the first in this order is named; `Memory` may come in place
/// of any.
#[derive(Clone, Copy, Debug, PartialEq, Eq, Error)]
pub enum ResolveFault {
    /// An allocation failed.
    #[error("out of memory")]
    Memory,
    /// An id is not in range: it is no index of its list.
    #[error("IdRange")]
    IdRange,
    /// A type refers to itself, directly or through others. Handles refer to their resources, aliases to their targets.
    #[error("Cycle")]
    Cycle,
    /// A resource has no name; or an interface that is a key of a world, or is listed in a package, has no name or no
    /// package.
    #[error("Unnamed")]
    Unnamed,
    /// The key of an item of a world is another interface than the item, or an interface where the item is a function
    /// or a type; or a function, a type, or an interface of a package is listed under another name than its own.
    #[error("KeyMismatch")]
    KeyMismatch,
    /// Two packages have the same namespace, name and version, build included. Keys of a map are never equal.
    #[error("NameClash")]
    NameClash,
    /// A name is empty, or has a character that is no ASCII letter, no digit and no `-`, and in the name of a function
    /// none of `[`, `]` and `.` either. Checked are plain keys, names of interfaces, functions, types and packages, and
    /// namespaces; names of worlds, parameters, fields, cases and labels, and external ids, are not.
    #[error("BadCharacter")]
    BadCharacter,
    /// A parameter, a result, or a type that a type contains by value (a field, item, element or payload) is a
    /// resource or an alias of one.
    #[error("ByValueResource")]
    ByValueResource,
    /// A variant or an enum has no cases, or flags have no labels.
    #[error("Empty")]
    Empty,
}

impl ResolveFault {
    /// All faults, each at its number.
    pub const ALL: [ResolveFault; 9] = [
        ResolveFault::Memory,
        ResolveFault::IdRange,
        ResolveFault::Cycle,
        ResolveFault::Unnamed,
        ResolveFault::KeyMismatch,
        ResolveFault::NameClash,
        ResolveFault::BadCharacter,
        ResolveFault::ByValueResource,
        ResolveFault::Empty,
    ];

    /// The number of the fault, its position in the enum. It never changes.
    pub fn number(self) -> u32
        ensures number { result ≡ resolve_fault_number self }
        ensures bounded { result ≤ 8 }
    {
        match self {
            ResolveFault::Memory => 0,
            ResolveFault::IdRange => 1,
            ResolveFault::Cycle => 2,
            ResolveFault::Unnamed => 3,
            ResolveFault::KeyMismatch => 4,
            ResolveFault::NameClash => 5,
            ResolveFault::BadCharacter => 6,
            ResolveFault::ByValueResource => 7,
            ResolveFault::Empty => 8,
        }
    }
}

impl FaultText for ResolveFault {
    ghost text = { resolve_fault_text };

    fn put_pieces<P: Pieces>(&self, out: &mut P) -> Result<(), PutFailed> {
        match self {
            ResolveFault::Memory => out.put_piece(OUT_OF_MEMORY),
            ResolveFault::IdRange => out.put_piece("IdRange"),
            ResolveFault::Cycle => out.put_piece("Cycle"),
            ResolveFault::Unnamed => out.put_piece("Unnamed"),
            ResolveFault::KeyMismatch => out.put_piece("KeyMismatch"),
            ResolveFault::NameClash => out.put_piece("NameClash"),
            ResolveFault::BadCharacter => out.put_piece("BadCharacter"),
            ResolveFault::ByValueResource => out.put_piece("ByValueResource"),
            ResolveFault::Empty => out.put_piece("Empty"),
        }
    }
}

impl From<AllocError> for ResolveFault {
    ghost from_gives = { λ _ e. e ≡ Memory };

    fn from(_e: AllocError) -> ResolveFault {
        ResolveFault::Memory
    }
}

impl<T: Drop> From<AllocFailed<T>> for ResolveFault {
    ghost from_gives = { λ _ e. e ≡ Memory };

    fn from(_e: AllocFailed<T>) -> ResolveFault {
        ResolveFault::Memory
    }
}
