//! The rule that names have only the characters that they can have.

ghost use Rattle.std.specs.Prelude.{◌↔◌, All, IsTrue, Option, map, string_bytes};
ghost use Rattle.std.specs.Option.{IfSome, option_map};
ghost use Rattle.wc_resolve.specs.Views.{function_entry, interface_view, item_view, key_view, package_view, type_view, world_entry, world_view};
ghost use Rattle.wc_resolve.specs.Names.{IsFunctionName, IsName};
ghost use Rattle.wc_resolve.specs.WellFormed.{IsInterfaceSpelled, IsKeySpelled, IsPackageSpelled, IsTypeSpelled, IsWorldSpelled};

use crate::names::{is_function_name, is_name};
use crate::{Function, Interface, Package, TypeDef, World, WorldItem, WorldKey};
use wc_maps::Map;

fn is_optional_name(name: &Option<String>) -> bool
    ensures { IsTrue result ↔ IfSome (option_map string_bytes name.now) IsName }
{
    match name {
        Some(name) => is_name(name),
        None => true,
    }
}

fn is_key_spelled(key: &WorldKey, item: &WorldItem) -> bool
    ensures { IsTrue result ↔ IsKeySpelled (key_view key.now) (item_view item.now) }
{
    match key {
        WorldKey::Name(name) => match item {
            WorldItem::Interface { .. } => is_name(name),
            WorldItem::Function(_) => is_function_name(name),
            WorldItem::TypeItem { .. } => is_name(name),
        },
        WorldKey::Interface(_) => true,
    }
}

fn are_keys_spelled(entries: &Map<WorldKey, WorldItem>) -> bool
    ensures { IsTrue result ↔
        All (λ e. IsKeySpelled e.0 e.1) (map world_entry entries.now.entries) }
{
    entries.iter().all(|(key, item)| is_key_spelled(key, item))
}

#[tactic(auto, unfolding(crate::specs::WellFormed::IsWorldSpelled))]
pub(crate) fn is_world_spelled(world: &World) -> bool
    ensures { IsTrue result ↔ IsWorldSpelled (world_view world.now) }
{
    are_keys_spelled(&world.imports) && are_keys_spelled(&world.exports)
}

fn are_functions_spelled(functions: &Map<String, Function>) -> bool
    ensures { IsTrue result ↔
        All (λ e. IsFunctionName e.0) (map function_entry functions.now.entries) }
{
    functions
        .iter()
        .all(|(name, _function)| is_function_name(name))
}

#[tactic(auto, unfolding(crate::specs::WellFormed::IsInterfaceSpelled))]
pub(crate) fn is_interface_spelled(interface: &Interface) -> bool
    ensures { IsTrue result ↔ IsInterfaceSpelled (interface_view interface.now) }
{
    is_optional_name(&interface.name) && are_functions_spelled(&interface.functions)
}

#[tactic(auto, unfolding(crate::specs::WellFormed::IsTypeSpelled))]
pub(crate) fn is_type_spelled(def: &TypeDef) -> bool
    ensures { IsTrue result ↔ IsTypeSpelled (type_view def.now) }
{
    is_optional_name(&def.name)
}

#[tactic(auto, unfolding(crate::specs::WellFormed::IsPackageSpelled))]
pub(crate) fn is_package_spelled(package: &Package) -> bool
    ensures { IsTrue result ↔ IsPackageSpelled (package_view «package».now) }
{
    is_name(&package.name.namespace) && is_name(&package.name.name)
}
