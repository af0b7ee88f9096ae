//! Faults of names: the reasons why the name of an import or an export is refused.

use crate::ValidateFault;
use std::alloc::{AllocError, AllocFailed};
use wc_read::FuncType;

/// Why the name of an import or an export is refused; of a type that is not the one that the name fixes, with that
/// type.
#[derive(Drop)]
pub(crate) enum NameFault {
    Memory,
    NotAFunction,
    SignatureMismatch(FuncType),
    NoRootImport,
    RootNotFunction,
    BadSyntax,
    UnknownInterface,
    UnknownIntrinsic,
    MissingFunction,
    NoSuchExport,
    TypedReference,
}

impl From<AllocError> for NameFault {
    ghost use Rattle.std.specs.Prelude.{◌≡◌};
    ghost use Rattle.wc_validate.specs.declared.name_fault.NameFault.TheVariants.{Memory};

    ghost from_gives = { λ _ e. e ≡ Memory };

    fn from(_e: AllocError) -> NameFault {
        NameFault::Memory
    }
}

impl<T: Drop> From<AllocFailed<T>> for NameFault {
    ghost use Rattle.std.specs.Prelude.{◌≡◌};
    ghost use Rattle.wc_validate.specs.declared.name_fault.NameFault.TheVariants.{Memory};

    ghost from_gives = { λ _ e. e ≡ Memory };

    fn from(_e: AllocFailed<T>) -> NameFault {
        NameFault::Memory
    }
}

impl From<NameFault> for ValidateFault {
    ghost use Rattle.std.specs.Prelude.{◌≡◌};
    ghost use Rattle.wc_validate.specs.Fault.{of_name};

    ghost from_gives = { λ f e. e ≡ of_name f };

    fn from(e: NameFault) -> ValidateFault {
        match e {
            NameFault::Memory => ValidateFault::Memory,
            NameFault::NotAFunction => ValidateFault::NotAFunction,
            NameFault::SignatureMismatch(_) => ValidateFault::SignatureMismatch,
            NameFault::NoRootImport => ValidateFault::NoRootImport,
            NameFault::RootNotFunction => ValidateFault::RootNotFunction,
            NameFault::BadSyntax => ValidateFault::BadSyntax,
            NameFault::UnknownInterface => ValidateFault::UnknownInterface,
            NameFault::UnknownIntrinsic => ValidateFault::UnknownIntrinsic,
            NameFault::MissingFunction => ValidateFault::MissingFunction,
            NameFault::NoSuchExport => ValidateFault::NoSuchExport,
            NameFault::TypedReference => ValidateFault::TypedReference,
        }
    }
}
