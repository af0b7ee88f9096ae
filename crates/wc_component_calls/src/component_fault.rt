//! The faults of the calls that are not faults of messages.

ghost use Rattle.std.specs.Prelude.{◌≡◌};
ghost use Rattle.wc_component_calls.specs.ComponentFault.{component_fault_number, component_fault_text, is_memory};
ghost use Rattle.wc_component_calls.specs.declared.component_fault.ComponentFault.TheVariants.{Memory};

use std::alloc::{AllocError, AllocFailed};
use wc_calls::gc_is_memory;
use wc_gc::GcFault;
use wc_texts::{CARRIED, FaultText, OUT_OF_MEMORY, Pieces, PutFailed, put_carried, put_quoted};

/// Why a component that has a world has no answer to a request for paths. No call answers `Memory`: its status is
/// `MEMORY` then.
#[derive(Debug, Drop)]
pub enum ComponentFault {
    /// An allocation failed.
    Memory,
    /// The world has no import that this key requests. It carries the key, and the texts of all imports of the world.
    UnknownImport(String, Vec<String>),
    /// An adapter, as the encoder has it, can't be searched. It carries why, and neither is nor carries a `Memory`.
    Ways(GcFault),
}

impl ComponentFault {
    /// The number of the fault. The numbers of this enum continue the numbers of `MessageFault`; if the fault carries
    /// another, 256 times the other's number is added. The key is no part of it. It never changes.
    pub fn number(&self) -> u32
        ensures { result ≡ component_fault_number self.now }
    {
        match self {
            ComponentFault::Memory => 0,
            ComponentFault::UnknownImport(_, _) => 16,
            ComponentFault::Ways(fault) => 17 + CARRIED * fault.number(),
        }
    }
}

impl FaultText for ComponentFault {
    ghost text = { component_fault_text };

    fn put_pieces<P: Pieces>(&self, out: &mut P) -> Result<(), PutFailed> {
        match self {
            ComponentFault::Memory => out.put_piece(OUT_OF_MEMORY),
            ComponentFault::UnknownImport(key, _) => put_quoted(out, "UnknownImport", key),
            ComponentFault::Ways(fault) => put_carried(out, "Ways", fault),
        }
    }
}

impl From<AllocError> for ComponentFault {
    ghost from_gives = { λ _ e. e ≡ Memory };

    fn from(_e: AllocError) -> ComponentFault {
        ComponentFault::Memory
    }
}

impl<T: Drop> From<AllocFailed<T>> for ComponentFault {
    ghost from_gives = { λ _ e. e ≡ Memory };

    fn from(_e: AllocFailed<T>) -> ComponentFault {
        ComponentFault::Memory
    }
}

impl From<GcFault> for ComponentFault {
    ghost use Rattle.wc_component_calls.specs.ComponentFault.{of_gc};

    ghost from_gives = { λ f e. e ≡ of_gc f };

    fn from(e: GcFault) -> ComponentFault {
        if gc_is_memory(&e) {
            return ComponentFault::Memory;
        }
        ComponentFault::Ways(e)
    }
}

/// Whether a fault is that an allocation failed, or carries such a fault.
pub(crate) fn is_memory(fault: &ComponentFault) -> bool
    ensures { result ≡ is_memory fault.now }
{
    match fault {
        ComponentFault::Memory => true,
        ComponentFault::UnknownImport(_, _) => false,
        ComponentFault::Ways(fault) => gc_is_memory(fault),
    }
}
