//! Faults of trimming: the reasons why an adapter is not trimmed.

ghost use Rattle.std.specs.Prelude.{◌≡◌, ◌≤◌};
ghost use Rattle.wc_gc.specs.declared.fault.GcFault.TheVariants.{Memory};
ghost use Rattle.wc_gc.specs.Fault.{gc_fault_number, gc_fault_text};

use std::alloc::{AllocError, AllocFailed};
use thiserror::Error;
use wc_read::ReadFault;
use wc_texts::{CARRIED, FaultText, OUT_OF_MEMORY, Pieces, PutFailed, put_carried, put_quoted};
use wc_write::WriteFault;

/// Why an adapter is not trimmed. Of several causes the first in this order is named; `Memory` may come in place of
/// any.
#[derive(Debug, Drop, Error)]
pub enum GcFault {
    /// An allocation failed.
    #[error("out of memory")]
    Memory,
    /// The bytes are no module.
    #[error("Read: {0}")]
    Read(ReadFault),
    /// The first of the required names that the adapter does not export.
    #[error("adapter module does not have export `{0}`")]
    MissingExport(String),
    /// The adapter has a start function, or a section of elements, data or a data count.
    #[error("UnsupportedSection")]
    UnsupportedSection,
    /// A body that is reached is no code, or names a segment or an index that is out of range.
    #[error("LiveBody")]
    LiveBody,
    /// Two live globals are named as the stack pointer, or two as the state of its allocation.
    #[error("SeveralNamed")]
    SeveralNamed,
    /// A table is live.
    #[error("LiveTable")]
    LiveTable,
    /// Two memories are live.
    #[error("SeveralMemories")]
    SeveralMemories,
    /// A live memory is the adapter's own.
    #[error("LocalMemory")]
    LocalMemory,
    /// An imported realloc that becomes a growing realloc, or that lazy code calls, is of another type.
    #[error("ReallocType")]
    ReallocType,
    /// A realloc grows memory, and no live memory is of 32 bits and has pages of the required size.
    #[error("ReallocMemory")]
    ReallocMemory,
    /// A count or a size of the trimmed module is no number of 32 bits.
    #[error("TooLarge")]
    TooLarge,
}

impl GcFault {
    /// The number of the fault: its position in the enum, and 256 times the number of a fault that it carries. The
    /// name of a missing export is no part of it. It never changes.
    pub fn number(&self) -> u32
        ensures number { result ≡ gc_fault_number self.now }
        ensures bounded { result ≤ 4609 }
    {
        match self {
            GcFault::Memory => 0,
            GcFault::Read(fault) => 1 + CARRIED * fault.number(),
            GcFault::MissingExport(_) => 2,
            GcFault::UnsupportedSection => 3,
            GcFault::LiveBody => 4,
            GcFault::SeveralNamed => 5,
            GcFault::LiveTable => 6,
            GcFault::SeveralMemories => 7,
            GcFault::LocalMemory => 8,
            GcFault::ReallocType => 9,
            GcFault::ReallocMemory => 10,
            GcFault::TooLarge => 11,
        }
    }
}

impl FaultText for GcFault {
    ghost text = { gc_fault_text };

    fn put_pieces<P: Pieces>(&self, out: &mut P) -> Result<(), PutFailed> {
        match self {
            GcFault::Memory => out.put_piece(OUT_OF_MEMORY),
            GcFault::Read(fault) => put_carried(out, "Read", fault),
            GcFault::MissingExport(name) => put_quoted(
                out,
                "adapter module does not have export",
                name,
            ),
            GcFault::UnsupportedSection => out.put_piece("UnsupportedSection"),
            GcFault::LiveBody => out.put_piece("LiveBody"),
            GcFault::SeveralNamed => out.put_piece("SeveralNamed"),
            GcFault::LiveTable => out.put_piece("LiveTable"),
            GcFault::SeveralMemories => out.put_piece("SeveralMemories"),
            GcFault::LocalMemory => out.put_piece("LocalMemory"),
            GcFault::ReallocType => out.put_piece("ReallocType"),
            GcFault::ReallocMemory => out.put_piece("ReallocMemory"),
            GcFault::TooLarge => out.put_piece("TooLarge"),
        }
    }
}

impl From<AllocError> for GcFault {
    ghost from_gives = { λ _ e. e ≡ Memory };

    fn from(_e: AllocError) -> GcFault {
        GcFault::Memory
    }
}

impl<T: Drop> From<AllocFailed<T>> for GcFault {
    ghost from_gives = { λ _ e. e ≡ Memory };

    fn from(_e: AllocFailed<T>) -> GcFault {
        GcFault::Memory
    }
}

impl From<ReadFault> for GcFault {
    ghost use Rattle.wc_gc.specs.Fault.{of_read};

    ghost from_gives = { λ f e. e ≡ of_read f };

    fn from(e: ReadFault) -> GcFault {
        match e {
            ReadFault::Memory => GcFault::Memory,
            _ => GcFault::Read(e),
        }
    }
}

impl From<WriteFault> for GcFault {
    ghost use Rattle.wc_gc.specs.Fault.{of_write};

    ghost from_gives = { λ f e. e ≡ of_write f };

    fn from(e: WriteFault) -> GcFault {
        match e {
            WriteFault::Memory => GcFault::Memory,
            WriteFault::TooLarge => GcFault::TooLarge,
        }
    }
}
