//! Lowerings of imports, interface by interface.

use crate::options::RequiredOptions;
use std::rc::Rc;
use wc_maps::Map;
use wc_resolve::{AbiVariant, InterfaceId, TypeId, WasmSignature};

/// How an import of a core module is met (component model, Canonical ABI, "canon lower" and "canon resource.drop").
#[derive(Debug, Drop)]
pub enum Lowering {
    /// The function is lowered before the core module is instantiated: its options need nothing of that.
    Direct {
        options: RequiredOptions,
    },
    /// A *shim*, a function of this signature, stands in for the lowered one until there is the memory that its options
    /// need: the main module makes it.
    Indirect {
        sig: WasmSignature,
        options: RequiredOptions,
    },
    /// The function drops a resource of this type.
    ResourceDrop(TypeId),
}

/// The imports that core modules have of an interface, or of the functions and types that the world itself imports.
#[derive(Debug, Drop)]
pub struct ImportedInterface {
    /// The lowering of each import, by its name and by how it is called: drops of resources, named `NAME_drop`, and
    /// functions. Entries of one interface share them.
    pub lowerings: Rc<Map<(String, AbiVariant), Lowering>>,
    /// The interface; `None` for the world itself.
    pub interface: Option<InterfaceId>,
    /// The interface that the import implements (`Resolve::implements_interface`).
    pub implements: Option<InterfaceId>,
    /// The name that the import has outside of the world (`Resolve::external_id_value`).
    pub external_id: Option<String>,
}
