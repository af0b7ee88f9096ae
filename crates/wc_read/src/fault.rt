//! Faults of reading: the reasons why bytes are refused.

ghost use Rattle.std.specs.Prelude.{◌≡◌, ◌≤◌};
ghost use Rattle.wc_read.specs.declared.fault.ReadFault.TheVariants.{Memory};
ghost use Rattle.wc_read.specs.Fault.{read_fault_number, read_fault_text};

use std::alloc::{AllocError, AllocFailed};
use thiserror::Error;
use wc_texts::{FaultText, OUT_OF_MEMORY, Pieces, PutFailed};

/// Why bytes were refused. All but `Memory` come only where the bytes spell nothing.
#[derive(Clone, Copy, Debug, PartialEq, Eq, Error)]
pub enum ReadFault {
    /// An allocation failed.
    #[error("out of memory")]
    Memory,
    /// The bytes begin with the header neither of a module nor of a component.
    #[error("NotWasm")]
    NotWasm,
    /// The bytes begin with a component's header.
    #[error("Component")]
    Component,
    /// The bytes end inside an item.
    #[error("Truncated")]
    Truncated,
    /// A number has more bytes than its type allows, or bits past its type; flags of a memory argument are 128 or
    /// more; a block's type is a negative index.
    #[error("BadNumber")]
    BadNumber,
    /// A name is not UTF-8.
    #[error("BadName")]
    BadName,
    /// A section is after one that it belongs before, or twice.
    #[error("SectionOrder")]
    SectionOrder,
    /// A section holds more bytes than its items.
    #[error("SectionSize")]
    SectionSize,
    /// A section's id is none of the format.
    #[error("UnknownSection")]
    UnknownSection,
    /// A byte stands for no type, for none that may occur there, or for no mutability or kind of item.
    #[error("BadType")]
    BadType,
    /// Flags, bounds or a page size that no table or memory may have.
    #[error("BadLimits")]
    BadLimits,
    /// An index of a type, an item or a start function is out of range.
    #[error("BadIndex")]
    BadIndex,
    /// Two exports have one name.
    #[error("DuplicateExport")]
    DuplicateExport,
    /// An initialiser has an operator that is not constant, or bytes after its end, or does not leave one value of
    /// its global's type.
    #[error("BadInitialiser")]
    BadInitialiser,
    /// There are not as many bodies as local functions.
    #[error("CountMismatch")]
    CountMismatch,
    /// A code is no operator's, or a fence lacks its byte 0.
    #[error("UnknownOperator")]
    UnknownOperator,
    /// Blocks of a body do not nest.
    #[error("BadNesting")]
    BadNesting,
    /// The start function takes or gives values. One that is not there is `BadIndex`.
    #[error("BadStart")]
    BadStart,
    /// An index space, or the locals of a body, pass 2^32 - 1.
    #[error("TooLarge")]
    TooLarge,
}

impl ReadFault {
    /// All faults, each at its number.
    pub const ALL: [ReadFault; 19] = [
        ReadFault::Memory,
        ReadFault::NotWasm,
        ReadFault::Component,
        ReadFault::Truncated,
        ReadFault::BadNumber,
        ReadFault::BadName,
        ReadFault::SectionOrder,
        ReadFault::SectionSize,
        ReadFault::UnknownSection,
        ReadFault::BadType,
        ReadFault::BadLimits,
        ReadFault::BadIndex,
        ReadFault::DuplicateExport,
        ReadFault::BadInitialiser,
        ReadFault::CountMismatch,
        ReadFault::UnknownOperator,
        ReadFault::BadNesting,
        ReadFault::BadStart,
        ReadFault::TooLarge,
    ];

    /// The number of the fault, its position in the enum. It never changes.
    pub fn number(self) -> u32
        ensures number { result ≡ read_fault_number self }
        ensures bounded { result ≤ 18 }
    {
        match self {
            ReadFault::Memory => 0,
            ReadFault::NotWasm => 1,
            ReadFault::Component => 2,
            ReadFault::Truncated => 3,
            ReadFault::BadNumber => 4,
            ReadFault::BadName => 5,
            ReadFault::SectionOrder => 6,
            ReadFault::SectionSize => 7,
            ReadFault::UnknownSection => 8,
            ReadFault::BadType => 9,
            ReadFault::BadLimits => 10,
            ReadFault::BadIndex => 11,
            ReadFault::DuplicateExport => 12,
            ReadFault::BadInitialiser => 13,
            ReadFault::CountMismatch => 14,
            ReadFault::UnknownOperator => 15,
            ReadFault::BadNesting => 16,
            ReadFault::BadStart => 17,
            ReadFault::TooLarge => 18,
        }
    }
}

impl FaultText for ReadFault {
    ghost text = { read_fault_text };

    fn put_pieces<P: Pieces>(&self, out: &mut P) -> Result<(), PutFailed> {
        match self {
            ReadFault::Memory => out.put_piece(OUT_OF_MEMORY),
            ReadFault::NotWasm => out.put_piece("NotWasm"),
            ReadFault::Component => out.put_piece("Component"),
            ReadFault::Truncated => out.put_piece("Truncated"),
            ReadFault::BadNumber => out.put_piece("BadNumber"),
            ReadFault::BadName => out.put_piece("BadName"),
            ReadFault::SectionOrder => out.put_piece("SectionOrder"),
            ReadFault::SectionSize => out.put_piece("SectionSize"),
            ReadFault::UnknownSection => out.put_piece("UnknownSection"),
            ReadFault::BadType => out.put_piece("BadType"),
            ReadFault::BadLimits => out.put_piece("BadLimits"),
            ReadFault::BadIndex => out.put_piece("BadIndex"),
            ReadFault::DuplicateExport => out.put_piece("DuplicateExport"),
            ReadFault::BadInitialiser => out.put_piece("BadInitialiser"),
            ReadFault::CountMismatch => out.put_piece("CountMismatch"),
            ReadFault::UnknownOperator => out.put_piece("UnknownOperator"),
            ReadFault::BadNesting => out.put_piece("BadNesting"),
            ReadFault::BadStart => out.put_piece("BadStart"),
            ReadFault::TooLarge => out.put_piece("TooLarge"),
        }
    }
}

impl From<AllocError> for ReadFault {
    ghost from_gives = { λ _ e. e ≡ Memory };

    fn from(_e: AllocError) -> ReadFault {
        ReadFault::Memory
    }
}

impl<T: Drop> From<AllocFailed<T>> for ReadFault {
    ghost from_gives = { λ _ e. e ≡ Memory };

    fn from(_e: AllocFailed<T>) -> ReadFault {
        ReadFault::Memory
    }
}
