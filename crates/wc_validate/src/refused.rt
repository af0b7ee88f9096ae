//! Refusals of core modules: the fault, and its place.

ghost use Rattle.std.specs.Prelude.{◌≡◌, ◌↔◌, IsTrue, None};
ghost use Rattle.wc_validate.specs.Refused.{IsReadRefusal};

use crate::ValidateFault;
use crate::name_fault::NameFault;
use crate::place::{Place, Subject, TypeDifference};
use std::alloc::AllocError;
use wc_read::{ReadFault, ReadPlace};
use wc_texts::Refused;

/// The refusal of a core module: the fault, and its place.
pub(crate) type RefusedModule = Refused<ValidateFault, Place>;

/// Why an import is refused, and the types that differ, where that compares types.
#[derive(Drop)]
pub(crate) struct ImportFault {
    pub(crate) fault: ValidateFault,
    pub(crate) types: Option<TypeDifference>,
}

/// The index of an import that is refused, and why it is.
#[derive(Drop)]
pub(crate) struct RefusedImport {
    pub(crate) index: usize,
    pub(crate) cause: ImportFault,
}

/// The index of an export that is refused, and why its name is.
#[derive(Drop)]
pub(crate) struct RefusedExport {
    pub(crate) index: usize,
    pub(crate) fault: NameFault,
}

impl From<ValidateFault> for ImportFault {
    ghost from_gives = { λ f e. (e.fault ≡ f) × (e.types ≡ None) };

    fn from(fault: ValidateFault) -> ImportFault {
        ImportFault { fault, types: None }
    }
}

impl From<AllocError> for ImportFault {
    ghost use Rattle.wc_validate.specs.declared.fault.ValidateFault.TheVariants.{Memory};

    ghost from_gives = { λ _ e. (e.fault ≡ Memory) × (e.types ≡ None) };

    fn from(_e: AllocError) -> ImportFault {
        ImportFault {
            fault: ValidateFault::Memory,
            types: None,
        }
    }
}

/// Whether a fault is that an allocation failed.
pub(crate) fn is_memory(fault: &ValidateFault) -> bool
    ensures { IsTrue result ↔ (fault.now ≡ ValidateFault.Memory) }
{
    matches!(fault, ValidateFault::Memory)
}

/// A module whose bytes are not read, with where they stop to be right.
pub(crate) fn read_refusal(refused: Refused<ReadFault, ReadPlace>) -> RefusedModule
    ensures { IsReadRefusal refused result }
{
    let fault = ValidateFault::from(refused.fault);
    match refused.place {
        Some(place) => Refused {
            fault,
            place: Some(Place {
                subject: Subject::Bytes(place),
                types: None,
            }),
        },
        None => Refused::without_place(fault),
    }
}
