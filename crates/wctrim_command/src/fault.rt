//! Faults of the program: the reasons why a command could not be executed.

ghost use Rattle.std.specs.Prelude.{◌≡◌};
ghost use Rattle.wctrim_command.specs.declared.fault.ToolFault.TheVariants.{Memory, Output};
ghost use Rattle.wctrim_command.specs.Fault.{command_fault_text};

use std::alloc::AllocError;
use thiserror::Error;
use wc_dedupe::DedupeFault;
use wc_gc::GcFault;
use wc_read::ReadFault;
use wc_texts::{FaultText, OUT_OF_MEMORY, Pieces, PutFailed, put_carried};

/// Why a command could not be executed.
#[derive(Debug, Drop, Error)]
pub enum ToolFault {
    /// An allocation failed.
    #[error("out of memory")]
    Memory,
    /// The imports of the module could not be renamed. It carries why, never `Memory`.
    #[error("Dedupe: {0}")]
    Dedupe(DedupeFault),
    /// The adapter could not be trimmed. It carries why, never `Memory`.
    #[error("Trim: {0}")]
    Trim(GcFault),
    /// The bytes are no module. It carries why, never `Memory`.
    #[error("Read: {0}")]
    Read(ReadFault),
    /// The lines could not be written.
    #[error("Output")]
    Output,
}

impl From<AllocError> for ToolFault {
    ghost from_gives = { λ _ e. e ≡ Memory };

    fn from(_e: AllocError) -> ToolFault {
        ToolFault::Memory
    }
}

impl From<DedupeFault> for ToolFault {
    ghost use Rattle.wctrim_command.specs.Fault.{of_dedupe};

    ghost from_gives = { λ f e. e ≡ of_dedupe f };

    fn from(e: DedupeFault) -> ToolFault {
        match e {
            DedupeFault::Memory => ToolFault::Memory,
            _ => ToolFault::Dedupe(e),
        }
    }
}

impl From<GcFault> for ToolFault {
    ghost use Rattle.wctrim_command.specs.Fault.{of_trim};

    ghost from_gives = { λ f e. e ≡ of_trim f };

    fn from(e: GcFault) -> ToolFault {
        match e {
            GcFault::Memory => ToolFault::Memory,
            _ => ToolFault::Trim(e),
        }
    }
}

impl From<ReadFault> for ToolFault {
    ghost use Rattle.wctrim_command.specs.Fault.{of_read};

    ghost from_gives = { λ f e. e ≡ of_read f };

    fn from(e: ReadFault) -> ToolFault {
        match e {
            ReadFault::Memory => ToolFault::Memory,
            _ => ToolFault::Read(e),
        }
    }
}

impl From<PutFailed> for ToolFault {
    ghost from_gives = { λ _ e. e ≡ Output };

    fn from(_e: PutFailed) -> ToolFault {
        ToolFault::Output
    }
}

impl FaultText for ToolFault {
    ghost text = { command_fault_text };

    fn put_pieces<P: Pieces>(&self, out: &mut P) -> Result<(), PutFailed> {
        match self {
            ToolFault::Memory => out.put_piece(OUT_OF_MEMORY),
            ToolFault::Dedupe(fault) => put_carried(out, "Dedupe", fault),
            ToolFault::Trim(fault) => put_carried(out, "Trim", fault),
            ToolFault::Read(fault) => put_carried(out, "Read", fault),
            ToolFault::Output => out.put_piece("Output"),
        }
    }
}
