//! The rule that ids are in range: indices of their lists.

ghost use Rattle.std.specs.Prelude.{◌↔◌, ◌<◌, All, IsTrue, IfOk, map};
ghost use Rattle.wc_resolve.specs.Views.{function_entry, function_view, interface_entry, interface_view, item_view, key_view, package_view, type_entry, type_view, world_entry, world_view};
ghost use Rattle.wc_resolve.specs.ResolveParts.{parts_view};
ghost use Rattle.wc_resolve.specs.Ranges.{AreLinksIn, AreNamesIn, IsEntryIn, IsFunctionIn, IsInterfaceIn, IsKindIn, IsOwnerIn, IsPackageIn, IsTypeDefIn, IsTypeIn, IsWorldIn};

use crate::kinds::referenced_types;
use crate::validate::type_test::{TypeTest, function_passes};
use crate::{
    Function, FunctionKind, Interface, InterfaceId, Package, Parts, TypeDef, TypeId, TypeOwner,
    WitType, World, WorldItem, WorldKey,
};
use std::alloc::{AllocError, Global};
use wc_maps::Map;

/// Whether a type is primitive, or a defined one with an index below `count`.
pub(crate) fn is_type_in(count: usize, ty: WitType) -> bool
    ensures { IsTrue result ↔ IsTypeIn count ty }
{
    match ty {
        WitType::Id(id) => (id.0 as usize) < count,
        _ => true,
    }
}

fn is_kind_in(count: usize, kind: FunctionKind) -> bool
    ensures { IsTrue result ↔ IsKindIn count kind }
{
    match kind {
        FunctionKind::Freestanding | FunctionKind::AsyncFreestanding => true,
        FunctionKind::Method(id)
        | FunctionKind::AsyncMethod(id)
        | FunctionKind::Static(id)
        | FunctionKind::AsyncStatic(id)
        | FunctionKind::Constructor(id) => (id.0 as usize) < count,
    }
}

/// The test that a type is primitive, or a defined one with an index below `count`.
#[derive(Drop)]
struct Among {
    count: usize,
}

impl TypeTest for Among {
    ghost use Rattle.wc_resolve.specs.Ranges.{IsTypeIn};

    ghost Passes = { λ test. IsTypeIn test.count };

    fn passes(&self, ty: WitType) -> bool {
        is_type_in(self.count, ty)
    }
}

/// Whether the types that a function names, the resource of its kind too, have indices below `count`.
#[tactic(auto, unfolding(crate::specs::Ranges::IsFunctionIn))]
pub(crate) fn is_function_in(count: usize, function: &Function) -> bool
    ensures { IsTrue result ↔ IsFunctionIn count (function_view function.now) }
{
    is_kind_in(count, function.kind) && function_passes(&Among { count }, function)
}

#[tactic(auto, unfolding(crate::specs::Ranges::IsEntryIn))]
fn is_entry_in(parts: &Parts, key: &WorldKey, item: &WorldItem) -> bool
    ensures { IsTrue result ↔
        IsEntryIn (parts_view parts.now) (key_view key.now, item_view item.now) }
{
    let is_key_in = match key {
        WorldKey::Name(_) => true,
        WorldKey::Interface(id) => (id.0 as usize) < parts.interfaces.len(),
    };
    is_key_in
        && match item {
            WorldItem::Interface { id, .. } => (id.0 as usize) < parts.interfaces.len(),
            WorldItem::Function(function) => is_function_in(parts.types.len(), function),
            WorldItem::TypeItem { id } => (id.0 as usize) < parts.types.len(),
        }
}

fn are_entries_in(parts: &Parts, entries: &Map<WorldKey, WorldItem>) -> bool
    ensures { IsTrue result ↔
        All (IsEntryIn (parts_view parts.now)) (map world_entry entries.now.entries) }
{
    entries
        .iter()
        .all(|(key, item)| is_entry_in(parts, key, item))
}

#[tactic(auto, unfolding(crate::specs::Ranges::IsWorldIn))]
pub(crate) fn is_world_in(parts: &Parts, world: &World) -> bool
    ensures { IsTrue result ↔ IsWorldIn (parts_view parts.now) (world_view world.now) }
{
    are_entries_in(parts, &world.imports) && are_entries_in(parts, &world.exports)
}

fn are_type_names_in(count: usize, types: &Map<String, TypeId>) -> bool
    ensures { IsTrue result ↔ All (λ e. e.1 < count) (map type_entry types.now.entries) }
{
    types.iter().all(|(_name, id)| (id.0 as usize) < count)
}

fn are_functions_in(count: usize, functions: &Map<String, Function>) -> bool
    ensures { IsTrue result ↔
        All (λ e. IsFunctionIn count e.1) (map function_entry functions.now.entries) }
{
    functions
        .iter()
        .all(|(_name, function)| is_function_in(count, function))
}

#[tactic(auto, unfolding(crate::specs::Ranges::AreNamesIn))]
fn are_names_in(parts: &Parts, interface: &Interface) -> bool
    ensures { IsTrue result ↔ AreNamesIn (parts_view parts.now) (interface_view interface.now) }
{
    let count = parts.types.len();
    are_type_names_in(count, &interface.types) && are_functions_in(count, &interface.functions)
}

#[tactic(auto, unfolding(crate::specs::Ranges::AreLinksIn))]
fn are_links_in(parts: &Parts, interface: &Interface) -> bool
    ensures { IsTrue result ↔ AreLinksIn (parts_view parts.now) (interface_view interface.now) }
{
    let is_package_in = match interface.package {
        Some(id) => (id.0 as usize) < parts.packages.len(),
        None => true,
    };
    is_package_in
        && match interface.clone_of {
            Some(id) => (id.0 as usize) < parts.interfaces.len(),
            None => true,
        }
}

#[tactic(auto, unfolding(crate::specs::Ranges::IsInterfaceIn))]
pub(crate) fn is_interface_in(parts: &Parts, interface: &Interface) -> bool
    ensures { IsTrue result
        ↔ IsInterfaceIn (parts_view parts.now) (interface_view interface.now) }
{
    are_names_in(parts, interface) && are_links_in(parts, interface)
}

fn are_interface_names_in(count: usize, interfaces: &Map<String, InterfaceId>) -> bool
    ensures { IsTrue result
        ↔ All (λ e. e.1 < count) (map interface_entry interfaces.now.entries) }
{
    interfaces.iter().all(|(_name, id)| (id.0 as usize) < count)
}

#[tactic(auto, unfolding(crate::specs::Ranges::IsPackageIn))]
pub(crate) fn is_package_in(parts: &Parts, package: &Package) -> bool
    ensures { IsTrue result ↔ IsPackageIn (parts_view parts.now) (package_view «package».now) }
{
    are_interface_names_in(parts.interfaces.len(), &package.interfaces)
}

fn is_owner_in(parts: &Parts, owner: TypeOwner) -> bool
    ensures { IsTrue result ↔ IsOwnerIn (parts_view parts.now) owner }
{
    match owner {
        TypeOwner::World(id) => (id.0 as usize) < parts.worlds.len(),
        TypeOwner::Interface(id) => (id.0 as usize) < parts.interfaces.len(),
        TypeOwner::None => true,
    }
}

#[tactic(auto, unfolding(crate::specs::Ranges::IsTypeDefIn))]
pub(crate) fn is_type_def_in(
    alloc: Global,
    parts: &Parts,
    def: &TypeDef,
) -> Result<bool, AllocError>
    ensures { IfOk result (λ b. IsTrue b
        ↔ IsTypeDefIn (parts_view parts.now) (type_view def.now)) }
{
    let count = parts.types.len();
    let types = referenced_types(alloc, &def.kind)?;
    let are_types_in = types.iter().all(|ty| is_type_in(count, *ty));
    Ok(are_types_in && is_owner_in(parts, def.owner))
}
