//! The roots of live types of a component's world, one after another, and which of them is the first that needs a type.

ghost use Rattle.std.specs.Prelude.{◌≡◌, ◌<◌, ◌∷◌, [], IfOk, OnOk, filter, length};
ghost use Rattle.std.specs.List.{flat_map};
ghost use Rattle.std.specs.Option.{option_map};
ghost use Rattle.wc_adapters.specs.Entries.{entries_of};
ghost use Rattle.wc_encoder.specs.EncoderParts.{world_exports, world_imports};
ghost use Rattle.wc_resolve.specs.Dependencies.{id_of_interface, interface_owning};
ghost use Rattle.wc_resolve.specs.Views.{item_view, key_view};
ghost use Rattle.wc_validate.specs.Imports.Iter.{import_shown};
ghost use Rattle.wc_why.specs.Texts.{text_of};
ghost use Rattle.wc_world.specs.Live.{elsewhere_from, export_roots, is_from_elsewhere, is_used};
ghost use Rattle.wc_world.specs.Used.{used_view};
ghost use Rattle.wc_world.specs.WorldViews.{adapters_view, world_view};
ghost use Rattle.wc_ways.specs.TypeRoots.{adapter_needs, export_needs, import_needs, module_needs, modules_needs, needs, own_needs};
ghost use Rattle.wc_ways.specs.Private.Needs.{AddsNeeds, AreNeeded, Finds, interface_types, noted_in};

use crate::needs::{
    Found, NeededTypes, Needing, TypeRoot, WorldSide, note_import, note_item, note_type,
};
use std::alloc::{AllocError, Global};
use wc_encoder::ComponentEncoder;
use wc_maps::{Map, Set};
use wc_names::Import;
use wc_resolve::{InterfaceId, LiveTypes, Resolve, TypeId, TypeOwner, WorldItem, WorldKey};
use wc_validate::ImportMap;
use wc_world::{ComponentWorld, WorldAdapter};

/// The types and functions that a world names, and where they are.
#[derive(Clone, Copy)]
struct Lists<'a> {
    resolve: &'a Resolve,
    /// The world's imports.
    imports: &'a Map<WorldKey, WorldItem>,
}

/// The live types of a world, each with the first root that needs it. It takes time linear in the recorded imports and
/// in the types, and for each exported interface time linear in the types to which it refers.
pub(crate) fn needed_types<'a>(
    alloc: Global,
    world: &'a ComponentWorld<'_>,
) -> Result<Found<'a>, AllocError>
    ensures { IfOk result (λ f. AreNeeded (needs (world_view world.now)) (noted_in f)) }
{
    let mut found = Found {
        needed: NeededTypes {
            roots: Map::with_hasher(alloc, *world.adapters.hasher()),
        },
        listed: LiveTypes::new(alloc),
    };
    let metadata = world.encoder.metadata();
    let lists = Lists {
        resolve: &metadata.resolve,
        imports: imports_of(world.encoder),
    };
    note_own_types(lists, &mut found)?;
    note_modules(lists, world, &mut found)?;
    let exports = exports_of(world.encoder);
    note_exports(
        alloc,
        lists.resolve,
        &world.exports_used,
        exports,
        &mut found,
    )?;
    Ok(found)
}

/// The imports of an encoder's world.
pub(crate) fn imports_of(encoder: &ComponentEncoder) -> &Map<WorldKey, WorldItem>
    ensures { entries_of result.now ≡ world_imports encoder.now }
{
    encoder.well_formedness();
    let metadata = encoder.metadata();
    &metadata.resolve.world(metadata.world).imports
}

/// The exports of an encoder's world.
fn exports_of(encoder: &ComponentEncoder) -> &Map<WorldKey, WorldItem>
    ensures { entries_of result.now ≡ world_exports encoder.now }
{
    encoder.well_formedness();
    let metadata = encoder.metadata();
    &metadata.resolve.world(metadata.world).exports
}

/// Notes what the types need that the world itself imports.
fn note_own_types<'a>(lists: Lists<'a>, found: &mut Found<'a>) -> Result<(), AllocError>
    ensures { let r = lists.entry.resolve.now in OnOk result (AddsNeeds r
        (noted_in found.old) (noted_in found.new)
        (flat_map (own_needs r) (entries_of lists.entry.imports.now))) }
{
    for (key, item) in lists.imports.iter() {
        note_own_type(lists.resolve, (key, item), found)?;
    }
    Ok(())
}

/// Notes what an item needs that the world itself imports, if it is a type.
fn note_own_type<'a>(
    resolve: &'a Resolve,
    imported: (&'a WorldKey, &'a WorldItem),
    found: &mut Found<'a>,
) -> Result<(), AllocError>
    ensures { OnOk result (AddsNeeds resolve.now (noted_in found.old) (noted_in found.new)
        (own_needs resolve.now (key_view imported.entry.0.now, item_view imported.entry.1.now))) }
{
    match imported.1 {
        WorldItem::TypeItem { id } => {
            let root = TypeRoot::Item {
                side: WorldSide::Imports,
                key: imported.0,
            };
            note_type(&Needing { resolve, root }, *id, found)
        }
        WorldItem::Interface { .. } => Ok(()),
        WorldItem::Function(_) => Ok(()),
    }
}

/// Notes what the imports of the main module need, and those of each adapter.
fn note_modules<'a>(
    lists: Lists<'a>,
    world: &'a ComponentWorld<'_>,
    found: &mut Found<'a>,
) -> Result<(), AllocError>
    ensures { let l = lists.entry in let w = world_view world.now in OnOk result
        (AddsNeeds l.resolve.now (noted_in found.old) (noted_in found.new)
        (modules_needs l.resolve.now (entries_of l.imports.now) w)) }
{
    note_imports(lists, None, &world.info.imports, found)?;
    note_adapters(lists, &world.adapters, found)
}

/// Notes what the imports of each adapter need.
fn note_adapters<'a, 'w>(
    lists: Lists<'a>,
    adapters: &'a Map<&'w str, WorldAdapter<'w>>,
    found: &mut Found<'a>,
) -> Result<(), AllocError>
    ensures { let l = lists.entry in OnOk result (AddsNeeds l.resolve.now
        (noted_in found.old) (noted_in found.new) (flat_map (adapter_needs l.resolve.now
        (entries_of l.imports.now)) (adapters_view adapters.now))) }
{
    for (name, adapter) in adapters.iter() {
        note_imports(lists, Some(*name), &adapter.info.imports, found)?;
    }
    Ok(())
}

/// Notes what the imports of a module need.
fn note_imports<'a>(
    lists: Lists<'a>,
    adapter: Option<&'a str>,
    imports: &'a ImportMap,
    found: &mut Found<'a>,
) -> Result<(), AllocError>
    ensures { let l = lists.entry in OnOk result (AddsNeeds l.resolve.now
        (noted_in found.old) (noted_in found.new) (module_needs l.resolve.now
        (entries_of l.imports.now) (option_map text_of adapter.entry) imports.now)) }
{
    for (module, name, import) in imports.imports() {
        note_recorded(lists, adapter, (module, name, import), found)?;
    }
    Ok(())
}

/// Notes what a recorded import needs.
fn note_recorded<'a>(
    lists: Lists<'a>,
    adapter: Option<&'a str>,
    recorded: (&'a str, &'a str, &'a Import),
    found: &mut Found<'a>,
) -> Result<(), AllocError>
    ensures { let l = lists.entry in OnOk result (AddsNeeds l.resolve.now
        (noted_in found.old) (noted_in found.new) (import_needs l.resolve.now
        (entries_of l.imports.now) (option_map text_of adapter.entry)
        (import_shown recorded.entry))) }
{
    let (module, name, import) = recorded;
    let needing = Needing {
        resolve: lists.resolve,
        root: TypeRoot::Import {
            adapter,
            module,
            name,
        },
    };
    note_import(&needing, lists.imports, import, found)
}

/// Notes what exports need.
fn note_exports<'a>(
    alloc: Global,
    resolve: &'a Resolve,
    used: &Map<InterfaceId, Set<InterfaceId>>,
    exports: &'a Map<WorldKey, WorldItem>,
    found: &mut Found<'a>,
) -> Result<(), AllocError>
    ensures { OnOk result (AddsNeeds resolve.now (noted_in found.old) (noted_in found.new)
        (flat_map (export_needs resolve.now (used_view used.now)) (entries_of exports.now))) }
{
    let mut types = LiveTypes::new(alloc);
    for (key, item) in exports.iter() {
        let needing = Needing {
            resolve,
            root: TypeRoot::Item {
                side: WorldSide::Exports,
                key,
            },
        };
        note_export(&needing, used, item, &mut types, found)?;
    }
    Ok(())
}

/// Notes the types that an export needs; for an interface these are its live types that are from elsewhere. `types` is
/// a list that is used again for each interface, for its memory alone.
fn note_export<'a>(
    needing: &Needing<'a>,
    used: &Map<InterfaceId, Set<InterfaceId>>,
    item: &WorldItem,
    types: &mut LiveTypes,
    found: &mut Found<'a>,
) -> Result<(), AllocError>
    ensures { OnOk result (Finds needing.now found.old found.new
        (export_roots needing.now.resolve.now (used_view used.now) (item_view item.now))) }
{
    match item {
        WorldItem::Interface { id, .. } => note_exported(needing, used, *id, types, found),
        WorldItem::Function(_) => note_item(needing, item, found),
        WorldItem::TypeItem { .. } => note_item(needing, item, found),
    }
}

/// Notes those of the live types of an exported interface that are from elsewhere.
fn note_exported<'a>(
    needing: &Needing<'a>,
    used: &Map<InterfaceId, Set<InterfaceId>>,
    id: InterfaceId,
    types: &mut LiveTypes,
    found: &mut Found<'a>,
) -> Result<(), AllocError>
    ensures { let r = needing.now.resolve.now in OnOk result (Finds needing.now found.old found.new
        (elsewhere_from r (used_view used.now) id.0 (interface_types r id.0))) }
{
    if needing.resolve.has_interface(id) {
        note_exported_there(needing, used, id, types, found)
    } else {
        Ok(())
    }
}

/// Notes the same of an interface that is there.
fn note_exported_there<'a>(
    needing: &Needing<'a>,
    used: &Map<InterfaceId, Set<InterfaceId>>,
    id: InterfaceId,
    types: &mut LiveTypes,
    found: &mut Found<'a>,
) -> Result<(), AllocError>
    requires { id.0 < length needing.now.resolve.now.interfaces }
    ensures { let r = needing.now.resolve.now in OnOk result (Finds needing.now found.old found.new
        (elsewhere_from r (used_view used.now) id.0 (interface_types r id.0))) }
{
    types.clear();
    let item = WorldItem::Interface {
        id,
        external_id: None,
    };
    types.add_world_item(needing.resolve, &item)?;
    note_from_elsewhere(needing, used, id, types, found)
}

/// Notes those of some types that are from elsewhere.
fn note_from_elsewhere<'a>(
    needing: &Needing<'a>,
    used: &Map<InterfaceId, Set<InterfaceId>>,
    id: InterfaceId,
    types: &LiveTypes,
    found: &mut Found<'a>,
) -> Result<(), AllocError>
    ensures { OnOk result (Finds needing.now found.old found.new (filter (is_from_elsewhere
        needing.now.resolve.now (used_view used.now) id.0) types.now)) }
{
    for ty in types.iter() {
        note_if_elsewhere(needing, used, id, ty, found)?;
    }
    Ok(())
}

/// Notes a type, if it is from elsewhere.
fn note_if_elsewhere<'a>(
    needing: &Needing<'a>,
    used: &Map<InterfaceId, Set<InterfaceId>>,
    id: InterfaceId,
    ty: TypeId,
    found: &mut Found<'a>,
) -> Result<(), AllocError>
    ensures { OnOk result (Finds needing.now found.old found.new (filter (is_from_elsewhere
        needing.now.resolve.now (used_view used.now) id.0) (ty.0 ∷ []))) }
{
    if is_from_elsewhere(needing.resolve, used, id, ty) {
        return note_type(needing, ty, found);
    }
    Ok(())
}

/// Whether a type is owned by an interface that is neither an exported one nor one that it uses.
fn is_from_elsewhere(
    resolve: &Resolve,
    used: &Map<InterfaceId, Set<InterfaceId>>,
    id: InterfaceId,
    ty: TypeId,
) -> bool
    ensures { result ≡ is_from_elsewhere resolve.now (used_view used.now) id.0 ty.0 }
{
    match owner_of(resolve, ty) {
        Some(owner) => owner != id && !is_used(used, id, owner),
        None => false,
    }
}

/// The interface that owns a type.
fn owner_of(resolve: &Resolve, ty: TypeId) -> Option<InterfaceId>
    ensures { option_map id_of_interface result ≡ interface_owning resolve.now ty.0 }
{
    if !resolve.has_type(ty) {
        return None;
    }
    match resolve.type_def(ty).owner {
        TypeOwner::Interface(owner) => Some(owner),
        TypeOwner::World(_) => None,
        TypeOwner::None => None,
    }
}

/// Whether an exported interface uses another one.
fn is_used(used: &Map<InterfaceId, Set<InterfaceId>>, id: InterfaceId, other: InterfaceId) -> bool
    ensures { result ≡ is_used (used_view used.now) id.0 other.0 }
{
    match used.get(&id) {
        Some(set) => set.contains(&other),
        None => false,
    }
}
