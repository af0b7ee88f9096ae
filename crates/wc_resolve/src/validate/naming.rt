//! The rule that resources have names, and interfaces in keys and in packages have a name and a package.

ghost use Rattle.std.specs.Prelude.{◌↔◌, All, IsTrue, map, string_bytes};
ghost use Rattle.std.specs.Option.{IsSome, option_map};
ghost use Rattle.wc_resolve.specs.Views.{interface_entry, key_view, kind_view, package_view, world_entry, world_view};
ghost use Rattle.wc_resolve.specs.ResolveParts.{parts_view};
ghost use Rattle.wc_resolve.specs.WellFormed.{AreKeysIdentified, AreMembersIdentified, HasNeededName, IsIdentified, IsKeyIdentified, interface_name, interface_package};

use crate::{InterfaceId, Package, Parts, TypeDef, TypeDefKind, World, WorldItem, WorldKey};
use wc_maps::Map;

fn is_interface_named(parts: &Parts, index: usize) -> bool
    ensures { IsTrue result ↔ IsSome (interface_name (parts_view parts.now) index) }
{
    if index < parts.interfaces.len() {
        parts.interfaces[index].name.is_some()
    } else {
        false
    }
}

fn is_interface_packaged(parts: &Parts, index: usize) -> bool
    ensures { IsTrue result ↔ IsSome (interface_package (parts_view parts.now) index) }
{
    if index < parts.interfaces.len() {
        parts.interfaces[index].package.is_some()
    } else {
        false
    }
}

#[tactic(auto, unfolding(crate::specs::WellFormed::IsIdentified))]
fn is_identified(parts: &Parts, index: usize) -> bool
    ensures { IsTrue result ↔ IsIdentified (parts_view parts.now) index }
{
    is_interface_named(parts, index) && is_interface_packaged(parts, index)
}

fn is_key_identified(parts: &Parts, key: &WorldKey) -> bool
    ensures { IsTrue result ↔ IsKeyIdentified (parts_view parts.now) (key_view key.now) }
{
    match key {
        WorldKey::Name(_) => true,
        WorldKey::Interface(id) => is_identified(parts, id.0 as usize),
    }
}

fn are_entries_identified(parts: &Parts, entries: &Map<WorldKey, WorldItem>) -> bool
    ensures { IsTrue result ↔
        All (λ e. IsKeyIdentified (parts_view parts.now) e.0)
        (map world_entry entries.now.entries) }
{
    entries
        .iter()
        .all(|(key, _item)| is_key_identified(parts, key))
}

#[tactic(auto, unfolding(crate::specs::WellFormed::AreKeysIdentified))]
pub(crate) fn are_keys_identified(parts: &Parts, world: &World) -> bool
    ensures { IsTrue result ↔ AreKeysIdentified (parts_view parts.now) (world_view world.now) }
{
    are_entries_identified(parts, &world.imports) && are_entries_identified(parts, &world.exports)
}

fn are_listed_identified(parts: &Parts, interfaces: &Map<String, InterfaceId>) -> bool
    ensures { IsTrue result ↔
        All (λ e. IsIdentified (parts_view parts.now) e.1)
        (map interface_entry interfaces.now.entries) }
{
    interfaces
        .iter()
        .all(|(_name, id)| is_identified(parts, id.0 as usize))
}

#[tactic(auto, unfolding(crate::specs::WellFormed::AreMembersIdentified))]
pub(crate) fn are_members_identified(parts: &Parts, package: &Package) -> bool
    ensures { IsTrue result ↔
        AreMembersIdentified (parts_view parts.now) (package_view «package».now) }
{
    are_listed_identified(parts, &package.interfaces)
}

pub(crate) fn has_needed_name(def: &TypeDef) -> bool
    ensures { IsTrue result ↔
        HasNeededName (kind_view def.now.kind) (option_map string_bytes def.now.name) }
{
    match def.kind {
        TypeDefKind::Resource => def.name.is_some(),
        _ => true,
    }
}
