//! Worlds and interfaces.

ghost use Rattle.std.specs.Prelude.{◌≡◌, IfOk};

use crate::{Function, InterfaceId, PackageId, TypeId};
use std::alloc::{AllocError, Global};
use wc_maps::Map;

/// The key of an item of a world: a plain name, or an interface by its id. Keys are equal where these are.
#[derive(Debug, PartialEq, Eq, Hash, Drop)]
pub enum WorldKey {
    Name(String),
    Interface(InterfaceId),
}

impl WorldKey {
    ghost use Rattle.wc_resolve.specs.Views.{key_view};

    /// A copy of this key: the same name, or the same interface.
    ///
    /// # Errors
    ///
    /// `AllocError`: an allocation failed.
    pub fn clone(&self, alloc: Global) -> Result<WorldKey, AllocError>
        ensures { IfOk result (λ k. key_view k ≡ key_view self.now) }
    {
        match self {
            WorldKey::Name(name) => Ok(WorldKey::Name(String::from_str(alloc, name)?)),
            WorldKey::Interface(id) => Ok(WorldKey::Interface(*id)),
        }
    }
}

/// An item that a world imports or exports: an interface, a function or a type.
#[derive(Debug, Drop)]
pub enum WorldItem {
    Interface {
        id: InterfaceId,
        /// The name that it has outside of the world, if it has one of its own there.
        external_id: Option<String>,
    },
    Function(Function),
    TypeItem {
        id: TypeId,
    },
}

/// A world: its name, and the items that it imports and exports by their keys, in order.
#[derive(Drop)]
pub struct World {
    pub name: String,
    pub imports: Map<WorldKey, WorldItem>,
    pub exports: Map<WorldKey, WorldItem>,
}

/// An interface: its name, if it has one, and its types and functions by their names, in order. `package` is where it
/// is defined, `clone_of` the interface that it is a clone of, if it is one.
#[derive(Drop)]
pub struct Interface {
    pub name: Option<String>,
    pub types: Map<String, TypeId>,
    pub functions: Map<String, Function>,
    pub package: Option<PackageId>,
    pub clone_of: Option<InterfaceId>,
}
