//! Faults of writing: the reasons why nothing was written.

ghost use Rattle.std.specs.Prelude.{◌≡◌};
ghost use Rattle.wc_write.specs.declared.fault.WriteFault.TheVariants.{Memory};
ghost use Rattle.wc_write.specs.Fault.{write_fault_text};

use std::alloc::{AllocError, AllocFailed};
use thiserror::Error;
use wc_texts::{FaultText, OUT_OF_MEMORY, Pieces, PutFailed};

/// Why a section, a body or a module was not written.
#[derive(Clone, Copy, Debug, PartialEq, Eq, Error)]
pub enum WriteFault {
    /// An allocation failed.
    #[error("out of memory")]
    Memory,
    /// The content of a section, or a body, has 2^32 bytes or more: its size is no number of 32 bits (WebAssembly core
    /// specification, 5.5.2 and 5.5.13).
    #[error("TooLarge")]
    TooLarge,
}

impl WriteFault {
    /// All faults.
    pub const ALL: [WriteFault; 2] = [WriteFault::Memory, WriteFault::TooLarge];
}

impl FaultText for WriteFault {
    ghost text = { write_fault_text };

    fn put_pieces<P: Pieces>(&self, out: &mut P) -> Result<(), PutFailed> {
        match self {
            WriteFault::Memory => out.put_piece(OUT_OF_MEMORY),
            WriteFault::TooLarge => out.put_piece("TooLarge"),
        }
    }
}

impl From<AllocError> for WriteFault {
    ghost from_gives = { λ _ e. e ≡ Memory };

    fn from(_e: AllocError) -> WriteFault {
        WriteFault::Memory
    }
}

impl<T: Drop> From<AllocFailed<T>> for WriteFault {
    ghost from_gives = { λ _ e. e ≡ Memory };

    fn from(_e: AllocFailed<T>) -> WriteFault {
        WriteFault::Memory
    }
}
