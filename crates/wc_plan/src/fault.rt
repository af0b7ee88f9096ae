//! Faults of plans: the reasons why a component's world has no plan.

ghost use Rattle.std.specs.Prelude.{◌≡◌, ◌≤◌};
ghost use Rattle.wc_plan.specs.declared.fault.PlanFault.TheVariants.{Memory, Output};
ghost use Rattle.wc_plan.specs.Fault.{plan_fault_number, plan_fault_text};

use std::alloc::{AllocError, AllocFailed};
use thiserror::Error;
use wc_resolve::AbiVariant;
use wc_texts::{FaultText, OUT_OF_MEMORY, Pieces, PutFailed, put_carried};
use wc_world::WorldFault;

/// Why an encoder or a component's world has no plan, or a plan can't be printed. Of an encoder `World` is before all
/// others. Of a world that function counts which comes first in its plan; it has the first of the faults `NoLowering`,
/// `NoMemory` and `NoRealloc`, in this order, and this fault carries its name. `Memory` may come in place of any.
#[derive(Debug, Drop, Error)]
pub enum PlanFault {
    /// An allocation failed.
    #[error("out of memory")]
    Memory,
    /// The options of the function of this name have a memory, and the main module neither imports nor exports one.
    #[error("NoMemory")]
    NoMemory(String),
    /// The options of the function of this name have a realloc, and its module exports none for the results of imports.
    #[error("NoRealloc")]
    NoRealloc(String),
    /// The world has no lowering for the function of this name.
    #[error("NoLowering")]
    NoLowering(String),
    /// The component of the encoder has no world. It carries why, never `Memory`.
    #[error("World: {0}")]
    World(WorldFault),
    /// The lines could not be written.
    #[error("Output")]
    Output,
}

/// The function that a fault of a plan is about: which module imports it, and how.
#[derive(Debug, Drop)]
pub struct PlanPlace {
    /// The name of the adapter, or of the library, that imports it; `None` for the main module.
    pub adapter: Option<String>,
    /// The name of the interface (`Resolve::name_world_key`); `None` for a function of the world itself.
    pub interface: Option<String>,
    /// The function's name.
    pub name: String,
    /// How it is called.
    pub abi: AbiVariant,
}

impl PlanFault {
    /// The number of the fault, its position in the enum. What it carries is no part of it. It never changes.
    pub fn number(&self) -> u32
        ensures number { result ≡ plan_fault_number self.now }
        ensures bounded { result ≤ 5 }
    {
        match self {
            PlanFault::Memory => 0,
            PlanFault::NoMemory(_) => 1,
            PlanFault::NoRealloc(_) => 2,
            PlanFault::NoLowering(_) => 3,
            PlanFault::World(_) => 4,
            PlanFault::Output => 5,
        }
    }
}

impl FaultText for PlanFault {
    ghost text = { plan_fault_text };

    fn put_pieces<P: Pieces>(&self, out: &mut P) -> Result<(), PutFailed> {
        match self {
            PlanFault::Memory => out.put_piece(OUT_OF_MEMORY),
            PlanFault::NoMemory(_) => out.put_piece("NoMemory"),
            PlanFault::NoRealloc(_) => out.put_piece("NoRealloc"),
            PlanFault::NoLowering(_) => out.put_piece("NoLowering"),
            PlanFault::World(fault) => put_carried(out, "World", fault),
            PlanFault::Output => out.put_piece("Output"),
        }
    }
}

impl From<AllocError> for PlanFault {
    ghost from_gives = { λ _ e. e ≡ Memory };

    fn from(_e: AllocError) -> PlanFault {
        PlanFault::Memory
    }
}

impl<T: Drop> From<AllocFailed<T>> for PlanFault {
    ghost from_gives = { λ _ e. e ≡ Memory };

    fn from(_e: AllocFailed<T>) -> PlanFault {
        PlanFault::Memory
    }
}

impl From<WorldFault> for PlanFault {
    ghost use Rattle.wc_plan.specs.Encoder.{of_world};

    ghost from_gives = { λ f e. e ≡ of_world f };

    fn from(e: WorldFault) -> PlanFault {
        match e {
            WorldFault::Memory => PlanFault::Memory,
            _ => PlanFault::World(e),
        }
    }
}

impl From<PutFailed> for PlanFault {
    ghost from_gives = { λ _ e. e ≡ Output };

    fn from(_e: PutFailed) -> PlanFault {
        PlanFault::Output
    }
}
