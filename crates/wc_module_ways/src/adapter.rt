//! An adapter of a component, as it is read.

ghost use Rattle.wc_read.specs.Modules.{module_value};
ghost use Rattle.wc_import_paths.specs.Rows.{AreRowsFor, bare_graph};

use wc_import_paths::ModuleRows;
use wc_maps::Set;
use wc_read::Module;

/// An adapter of a component.
#[derive(Drop)]
pub struct AdapterModule<'r> {
    /// Its name.
    pub name: &'r str,
    /// The bytes of its module.
    pub bytes: &'r [u8],
    /// Its module.
    pub code: Module<'r>,
    /// Its rows: the items that each item names.
    pub rows: ModuleRows,
    /// The names of the exports that are required of it.
    pub required: Set<String>,
    /// The names of the exports that it has to have whatever the main module imports, in the order in which they are
    /// required.
    pub always: Vec<&'r str>,
    ghost has_rows: { AreRowsFor (bare_graph (module_value code)) rows },
}
