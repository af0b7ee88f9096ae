//! Adapters and libraries: modules beside the main one.

ghost use Rattle.std.specs.Prelude.{◌≡◌, IfOk};

use std::alloc::{AllocError, Global};
use wc_maps::Set;
use wc_read::ExportKind;
use wc_resolve::WorldKey;

/// The main module, or the adapter of this name.
#[derive(Debug, PartialEq, Eq, Drop)]
pub enum MainOrAdapter {
    Main,
    Adapter(String),
}

impl MainOrAdapter {
    ghost use Rattle.wc_adapters.specs.Adapters.{which_view};

    /// A copy of this `MainOrAdapter`.
    ///
    /// # Errors
    ///
    /// `AllocError`: an allocation failed.
    pub fn clone(&self, alloc: Global) -> Result<MainOrAdapter, AllocError>
        ensures { IfOk result (λ which. which_view which ≡ which_view self.now) }
    {
        match self {
            MainOrAdapter::Main => Ok(MainOrAdapter::Main),
            MainOrAdapter::Adapter(name) => {
                Ok(MainOrAdapter::Adapter(String::from_str(alloc, name)?))
            }
        }
    }
}

/// An export of a module, as it is passed to a library: `alias` is the name by which the library
/// imports it, `name` the one under which `which` exports it.
#[derive(Debug, Drop)]
pub struct Item {
    pub alias: String,
    pub kind: ExportKind,
    pub which: MainOrAdapter,
    pub name: String,
}

impl Item {
    ghost use Rattle.wc_adapters.specs.Adapters.{library_item_view};

    /// A copy of this item.
    ///
    /// # Errors
    ///
    /// `AllocError`: an allocation failed.
    pub fn clone(&self, alloc: Global) -> Result<Item, AllocError>
        ensures { IfOk result (λ item. library_item_view item ≡ library_item_view self.now) }
    {
        Ok(Item {
            alias: String::from_str(alloc, &self.alias)?,
            kind: self.kind,
            which: self.which.clone(alloc)?,
            name: String::from_str(alloc, &self.name)?,
        })
    }
}

/// An instance that a library is passed under a module's name: all exports of another module, or items.
#[derive(Drop)]
pub enum Instance {
    MainOrAdapter(MainOrAdapter),
    Items(Vec<Item>),
}

/// How a library is instantiated: with which arguments, each under the name of the module that it
/// imports from, and whether after the shims.
#[derive(Drop)]
pub struct LibraryInfo {
    pub arguments: Vec<(String, Instance)>,
    pub instantiate_after_shims: bool,
}

/// A module beside the main one: its bytes, which exports of the world it has to export, and how it
/// is instantiated, where it is a library.
#[derive(Drop)]
pub struct Adapter {
    pub wasm: Vec<u8>,
    pub required_exports: Set<WorldKey>,
    pub library_info: Option<LibraryInfo>,
}
