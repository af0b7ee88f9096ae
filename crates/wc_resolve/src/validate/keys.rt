//! The rule that items, functions, types and interfaces of packages are listed under their own names or keys.

ghost use Rattle.std.specs.Prelude.{◌≡◌, ◌↔◌, All, IsTrue, Option, Some, map, string_bytes};
ghost use Rattle.std.specs.Option.{option_map};
ghost use Rattle.wc_resolve.specs.Views.{function_entry, interface_entry, interface_view, item_view, key_view, package_view, type_entry, world_entry, world_view};
ghost use Rattle.wc_resolve.specs.ResolveParts.{parts_view};
ghost use Rattle.wc_resolve.specs.WellFormed.{HasMatchingKeys, HasMatchingMembers, HasMatchingNames, IsMatchingKey, interface_name, type_name};

use crate::{Function, Interface, InterfaceId, Package, Parts, TypeId, World, WorldItem, WorldKey};
use wc_maps::Map;

/// Whether there is a name, and it is the text.
fn is_text(name: &Option<String>, text: &str) -> bool
    ensures { IsTrue result ↔ (option_map string_bytes name.now ≡ Some text.now) }
{
    match name {
        Some(name) => name.as_str() == text,
        None => false,
    }
}

fn is_interface_called(parts: &Parts, index: usize, text: &str) -> bool
    ensures { IsTrue result ↔ (interface_name (parts_view parts.now) index ≡ Some text.now) }
{
    if index < parts.interfaces.len() {
        is_text(&parts.interfaces[index].name, text)
    } else {
        false
    }
}

fn is_type_called(parts: &Parts, index: usize, text: &str) -> bool
    ensures { IsTrue result ↔ (type_name (parts_view parts.now) index ≡ Some text.now) }
{
    if index < parts.types.len() {
        is_text(&parts.types[index].name, text)
    } else {
        false
    }
}

fn is_matching_key(parts: &Parts, key: &WorldKey, item: &WorldItem) -> bool
    ensures { IsTrue result ↔
        IsMatchingKey (parts_view parts.now) (key_view key.now) (item_view item.now) }
{
    match key {
        WorldKey::Name(name) => match item {
            WorldItem::Interface { .. } => true,
            WorldItem::Function(function) => function.name.as_str() == name.as_str(),
            WorldItem::TypeItem { id } => is_type_called(parts, id.0 as usize, name),
        },
        WorldKey::Interface(key) => match item {
            WorldItem::Interface { id, .. } => id.0 == key.0,
            WorldItem::Function(_) => false,
            WorldItem::TypeItem { .. } => false,
        },
    }
}

fn are_matching_keys(parts: &Parts, entries: &Map<WorldKey, WorldItem>) -> bool
    ensures { IsTrue result ↔
        All (λ e. IsMatchingKey (parts_view parts.now) e.0 e.1)
        (map world_entry entries.now.entries) }
{
    entries
        .iter()
        .all(|(key, item)| is_matching_key(parts, key, item))
}

#[tactic(auto, unfolding(crate::specs::WellFormed::HasMatchingKeys))]
pub(crate) fn has_matching_keys(parts: &Parts, world: &World) -> bool
    ensures { IsTrue result ↔ HasMatchingKeys (parts_view parts.now) (world_view world.now) }
{
    are_matching_keys(parts, &world.imports) && are_matching_keys(parts, &world.exports)
}

fn are_types_called(parts: &Parts, types: &Map<String, TypeId>) -> bool
    ensures { IsTrue result ↔
        All (λ e. type_name (parts_view parts.now) e.1 ≡ Some e.0)
        (map type_entry types.now.entries) }
{
    types
        .iter()
        .all(|(name, id)| is_type_called(parts, id.0 as usize, name))
}

fn are_functions_called(functions: &Map<String, Function>) -> bool
    ensures { IsTrue result
        ↔ All (λ e. e.1.name ≡ e.0) (map function_entry functions.now.entries) }
{
    functions
        .iter()
        .all(|(name, function)| function.name.as_str() == name.as_str())
}

#[tactic(auto, unfolding(crate::specs::WellFormed::HasMatchingNames))]
pub(crate) fn has_matching_names(parts: &Parts, interface: &Interface) -> bool
    ensures { IsTrue result ↔ HasMatchingNames (parts_view parts.now)
        (interface_view interface.now) }
{
    are_types_called(parts, &interface.types) && are_functions_called(&interface.functions)
}

fn are_interfaces_called(parts: &Parts, interfaces: &Map<String, InterfaceId>) -> bool
    ensures { IsTrue result ↔
        All (λ e. interface_name (parts_view parts.now) e.1 ≡ Some e.0)
        (map interface_entry interfaces.now.entries) }
{
    interfaces.iter().all(|(name, id)| is_interface_called(parts, id.0 as usize, name))
}

#[tactic(auto, unfolding(crate::specs::WellFormed::HasMatchingMembers))]
pub(crate) fn has_matching_members(parts: &Parts, package: &Package) -> bool
    ensures { IsTrue result ↔ HasMatchingMembers (parts_view parts.now)
        (package_view «package».now) }
{
    are_interfaces_called(parts, &package.interfaces)
}
