//! Places of faults of a component's world: in the main module, and in adapters.

use wc_gc::TrimPlace;
use wc_validate::Place;

/// The place of a fault in a module.
#[derive(Debug, PartialEq, Eq, Drop)]
pub enum ModulePlace {
    /// An import or an export, by its names; or where the module's bytes stop being right.
    Validation(Place),
    /// A section, or the body of a function; or where the module's bytes stop being right.
    Trim(TrimPlace),
    /// How many bytes the pages of two memories have.
    PageSizes {
        /// Those of the memory that this module imports.
        own: u64,
        /// Those of the main module's memory.
        main: u64,
    },
}

/// The place of a fault of a component's world: in its main module, or in one of its adapters or libraries.
#[derive(Debug, PartialEq, Eq, Drop)]
pub struct WorldPlace {
    /// The name of the adapter, or of the library; `None` for the main module.
    pub adapter: Option<String>,
    /// The place in it.
    pub place: ModulePlace,
}
