//! Faults of dedupe: the reasons why it refuses bytes.

ghost use Rattle.std.specs.Prelude.{◌≡◌, ◌≤◌};
ghost use Rattle.wc_dedupe.specs.declared.fault.DedupeFault.TheVariants.{Memory, TooLarge};
ghost use Rattle.wc_dedupe.specs.Fault.{dedupe_fault_number, dedupe_fault_text};

use std::alloc::{AllocError, AllocFailed};
use thiserror::Error;
use wc_read::ReadFault;
use wc_texts::{CARRIED, FaultText, OUT_OF_MEMORY, Pieces, PutFailed, put_carried};
use wc_write::WriteFault;

/// Why the imports of a module could not be renamed.
#[derive(Clone, Copy, Debug, PartialEq, Eq, Error)]
pub enum DedupeFault {
    /// An allocation failed.
    #[error("out of memory")]
    Memory,
    /// The bytes are no component, and can't be cut into sections or have a malformed import section.
    #[error("Read: {0}")]
    Read(ReadFault),
    /// A section of the renamed module has a content of 2^32 bytes or more.
    #[error("TooLarge")]
    TooLarge,
}

impl DedupeFault {
    /// The number of the fault: its position in the enum, and 256 times the number of a fault that it carries. It
    /// never changes.
    pub fn number(self) -> u32
        ensures number { result ≡ dedupe_fault_number self }
        ensures bounded { result ≤ 4609 }
    {
        match self {
            DedupeFault::Memory => 0,
            DedupeFault::Read(fault) => 1 + CARRIED * fault.number(),
            DedupeFault::TooLarge => 2,
        }
    }
}

impl FaultText for DedupeFault {
    ghost text = { dedupe_fault_text };

    fn put_pieces<P: Pieces>(&self, out: &mut P) -> Result<(), PutFailed> {
        match self {
            DedupeFault::Memory => out.put_piece(OUT_OF_MEMORY),
            DedupeFault::Read(fault) => put_carried(out, "Read", fault),
            DedupeFault::TooLarge => out.put_piece("TooLarge"),
        }
    }
}

impl From<AllocError> for DedupeFault {
    ghost from_gives = { λ _ e. e ≡ Memory };

    fn from(_e: AllocError) -> DedupeFault {
        DedupeFault::Memory
    }
}

impl<T: Drop> From<AllocFailed<T>> for DedupeFault {
    ghost from_gives = { λ _ e. e ≡ Memory };

    fn from(_e: AllocFailed<T>) -> DedupeFault {
        DedupeFault::Memory
    }
}

impl From<ReadFault> for DedupeFault {
    ghost use Rattle.wc_dedupe.specs.Fault.{of_read};

    ghost from_gives = { λ f e. e ≡ of_read f };

    fn from(e: ReadFault) -> DedupeFault {
        match e {
            ReadFault::Memory => DedupeFault::Memory,
            _ => DedupeFault::Read(e),
        }
    }
}

impl From<WriteFault> for DedupeFault {
    ghost use Rattle.wc_dedupe.specs.Fault.{of_write};

    ghost from_gives = { λ f e. e ≡ of_write f };

    fn from(e: WriteFault) -> DedupeFault {
        match e {
            WriteFault::Memory => DedupeFault::Memory,
            WriteFault::TooLarge => DedupeFault::TooLarge,
        }
    }
}
