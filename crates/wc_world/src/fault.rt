//! Faults of worlds: the reasons why a component has no world.

ghost use Rattle.std.specs.Prelude.{◌≡◌, ◌≤◌};
ghost use Rattle.wc_world.specs.declared.fault.WorldFault.TheVariants.{Memory};
ghost use Rattle.wc_world.specs.Fault.{world_fault_number, world_fault_text};

use std::alloc::{AllocError, AllocFailed};
use thiserror::Error;
use wc_gc::GcFault;
use wc_texts::{CARRIED, FaultText, OUT_OF_MEMORY, Pieces, PutFailed, put_about, put_carried};
use wc_validate::ValidateFault;

/// Why a component has no world. Of several causes the first is named: that of the main module, and then adapter by
/// adapter in this order. `Memory` may come in place of any; another fault carries it only at its own step.
#[derive(Debug, Drop, Error)]
pub enum WorldFault {
    /// An allocation failed.
    #[error("out of memory")]
    Memory,
    /// The main module is not valid.
    #[error("Main: {0}")]
    Main(ValidateFault),
    /// The adapter, or the library, of this name is not valid.
    #[error("Adapter `{0}`: {1}")]
    Adapter(String, ValidateFault),
    /// The adapter of this name can't be trimmed.
    #[error("Trim `{0}`: {1}")]
    Trim(String, GcFault),
    /// The adapter of this name is not valid once it is trimmed.
    #[error("Minimized `{0}`: {1}")]
    Minimized(String, ValidateFault),
    /// The bytes in a page of the memory that the adapter of this name imports, and in one of the main module's memory,
    /// which are others.
    #[error("PageSize")]
    PageSize(String, u64, u64),
}

impl WorldFault {
    /// The number of the fault: its position in the enum, and 256 times the number of a fault that it carries. The
    /// name of an adapter, and sizes of pages, are no part of it. It never changes.
    pub fn number(&self) -> u32
        ensures number { result ≡ world_fault_number self.now }
        ensures bounded { result ≤ 1179908 }
    {
        match self {
            WorldFault::Memory => 0,
            WorldFault::Main(fault) => 1 + CARRIED * fault.number(),
            WorldFault::Adapter(_, fault) => 2 + CARRIED * fault.number(),
            WorldFault::Trim(_, fault) => 3 + CARRIED * fault.number(),
            WorldFault::Minimized(_, fault) => 4 + CARRIED * fault.number(),
            WorldFault::PageSize(_, _, _) => 5,
        }
    }
}

impl FaultText for WorldFault {
    ghost text = { world_fault_text };

    fn put_pieces<P: Pieces>(&self, out: &mut P) -> Result<(), PutFailed> {
        match self {
            WorldFault::Memory => out.put_piece(OUT_OF_MEMORY),
            WorldFault::Main(fault) => put_carried(out, "Main", fault),
            WorldFault::Adapter(name, fault) => put_about(out, "Adapter", name, fault),
            WorldFault::Trim(name, fault) => put_about(out, "Trim", name, fault),
            WorldFault::Minimized(name, fault) => put_about(out, "Minimized", name, fault),
            WorldFault::PageSize(_, _, _) => out.put_piece("PageSize"),
        }
    }
}

impl From<AllocError> for WorldFault {
    ghost from_gives = { λ _ e. e ≡ Memory };

    fn from(_e: AllocError) -> WorldFault {
        WorldFault::Memory
    }
}

impl<T: Drop> From<AllocFailed<T>> for WorldFault {
    ghost from_gives = { λ _ e. e ≡ Memory };

    fn from(_e: AllocFailed<T>) -> WorldFault {
        WorldFault::Memory
    }
}
