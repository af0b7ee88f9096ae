//! Roles of the core modules of a component, and why they can't be told.

use std::alloc::{AllocError, AllocFailed};
use wc_read::{ReadFault, ReadPlace};

/// The role of a core module in its component.
#[derive(Clone, Copy, Debug, PartialEq, Eq)]
pub enum Role<'a> {
    /// The main module.
    Main,
    /// The adapter for a name: the main module imports functions from it.
    Adapter(&'a str),
    /// A library of this name, which is linked to the main module.
    Library(&'a str),
    /// It calls functions that are there only later, through a table.
    Shim,
    /// It fills the table of a shim.
    Fixup,
    /// A module that serves no name.
    Other,
}

/// Why it can't be told which core module is which.
#[derive(Clone, Copy, Debug, PartialEq, Eq)]
pub enum RolesRefusal {
    /// An allocation failed.
    Memory,
    /// There is no core module.
    NoModule,
    /// The main module that was chosen is past the last core module.
    NoSuchModule,
    /// A core module has to be read, and its bytes are no module.
    Unread {
        /// Its position.
        module: usize,
        /// The fault of reading it.
        fault: ReadFault,
        /// The place of that fault, counted in the module.
        place: Option<ReadPlace>,
    },
    /// Several modules are named `main`, serve one name, or are adapters for one name; or one serves several names; or
    /// more than a hundred modules could serve one.
    Unclear,
}

impl From<AllocError> for RolesRefusal {
    ghost use Rattle.std.specs.Prelude.{◌≡◌};
    ghost use Rattle.wc_component_file.specs.declared.role.RolesRefusal.TheVariants.{Memory};

    ghost from_gives = { λ _ e. e ≡ Memory };

    fn from(_e: AllocError) -> RolesRefusal {
        RolesRefusal::Memory
    }
}

impl<T: Drop> From<AllocFailed<T>> for RolesRefusal {
    ghost use Rattle.std.specs.Prelude.{◌≡◌};
    ghost use Rattle.wc_component_file.specs.declared.role.RolesRefusal.TheVariants.{Memory};

    ghost from_gives = { λ _ e. e ≡ Memory };

    fn from(_e: AllocFailed<T>) -> RolesRefusal {
        RolesRefusal::Memory
    }
}
