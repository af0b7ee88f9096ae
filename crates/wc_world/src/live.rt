//! The types that the imports and exports of a component's world need.

ghost use Rattle.std.specs.Prelude.{◌≡◌, ◌<◌, ◌∷◌, [], ℕ, All, Contains, IfOk, IfSome, OnOk, Some, filter, length};
ghost use Rattle.std.specs.Option.{option_map, option_to_list};
ghost use Rattle.wc_resolve.specs.Dependencies.{id_of_interface, interface_owning};
ghost use Rattle.wc_resolve.specs.Live.{AddsListings, IsComplete};
ghost use Rattle.wc_resolve.specs.Ranges.{IsFunctionIn, IsItemIn, IsTypeIn};
ghost use Rattle.wc_resolve.specs.Roots.{id_index};
ghost use Rattle.wc_resolve.specs.Views.{function_view, item_view, key_view, world_view};
ghost use Rattle.wc_resolve.specs.Kinds.{ResolveView};
ghost use Rattle.wc_encoder.specs.Dependencies.{AreItemsIn};
ghost use Rattle.wc_encoder.specs.EncoderParts.{world_exports};
ghost use Rattle.wc_adapters.specs.Entries.{entries_of};
ghost use Rattle.wc_names.specs.Keys.{as_type, item_under};
ghost use Rattle.wc_texts.specs.Names.{under_name};
ghost use Rattle.wc_names.specs.Laws.{IsImportIn};
ghost use Rattle.wc_names.specs.Payloads.{HasPayload};
ghost use Rattle.wc_names.specs.Views.{import_view, payload_type_view, payload_view};
ghost use Rattle.wc_validate.specs.Requirements.{functions_of};
ghost use Rattle.wc_validate.specs.Validate.{module_record};
ghost use Rattle.wc_world.specs.Live.{AddsTypeOnOk, AreImportsIn, AreImportsOf, AreListed, AreLive, AreRootsIn, adapter_roots, builtin_roots, by_owner, export_roots, exports_roots, import_payload, import_resource, import_roots, imported_types, is_from_elsewhere, is_used, live_types_of, module_roots, named_function_roots, payload_roots, result_roots, roots_under};
ghost use Rattle.wc_world.specs.Private.LiveAdditions.{AddsAfterOnOk, HaveListings, imports_roots};
ghost use Rattle.wc_world.specs.Private.Marks.{UseFurther};
ghost use Rattle.wc_world.specs.Private.Settled.{AreSettled};
ghost use Rattle.wc_world.specs.Used.{AreUsed, used_view};
ghost use Rattle.wc_world.specs.WorldViews.{adapters_view, live_view};

use crate::adapter::WorldAdapter;
use crate::marks::{KnownTo, Mark};
use crate::settled::settle_all;
use crate::used::UsedInterfaces;
use std::alloc::{AllocError, Global};
use wc_encoder::ComponentEncoder;
use wc_maps::{Map, Seed, Set};
use wc_names::{Import, PayloadInfo, PayloadType};
use wc_resolve::{
    Function, InterfaceId, LiveTypes, Resolve, TypeId, TypeOwner, World, WorldItem, WorldKey,
};
use wc_validate::{ImportMap, ValidatedModule};

/// Types by the interfaces that own them.
type LiveGroups = Map<InterfaceId, Set<TypeId>>;

/// Names of functions, each with the interface that it is of.
type FunctionNames = Set<(Option<InterfaceId>, String)>;

/// A `Resolve`, and the exported interfaces that exported interfaces of its world use.
#[derive(Clone, Copy)]
pub(crate) struct LiveContext<'a> {
    pub(crate) resolve: &'a Resolve,
    pub(crate) used: &'a UsedInterfaces,
}

/// The interface that owns a type.
pub(crate) fn interface_owning(resolve: &Resolve, ty: TypeId) -> Option<InterfaceId>
    requires { ty.0 < length resolve.now.types }
    ensures { option_map id_of_interface result ≡ interface_owning resolve.now ty.0 }
{
    match resolve.type_def(ty).owner {
        TypeOwner::Interface(owner) => Some(owner),
        TypeOwner::World(_) => None,
        TypeOwner::None => None,
    }
}

/// Whether an exported interface uses another one.
pub(crate) fn is_used(used: &UsedInterfaces, id: InterfaceId, other: InterfaceId) -> bool
    ensures { result ≡ is_used (used_view used.now) id.0 other.0 }
{
    match used.get(&id) {
        Some(set) => set.contains(&other),
        None => false,
    }
}

/// Whether a type is owned by an interface that is neither an exported one nor one that it uses.
pub(crate) fn is_from_elsewhere(
    resolve: &Resolve,
    used: &UsedInterfaces,
    id: InterfaceId,
    ty: TypeId,
) -> bool
    requires { ty.0 < length resolve.now.types }
    ensures { result ≡ is_from_elsewhere resolve.now (used_view used.now) id.0 ty.0 }
{
    match interface_owning(resolve, ty) {
        Some(owner) => owner != id && !is_used(used, id, owner),
        None => false,
    }
}

/// Adds the type of a future or stream, if it has one, after the types to which that refers.
fn add_payload(resolve: &Resolve, ty: &PayloadType, live: &mut LiveTypes) -> Result<(), AllocError>
    requires { HasPayload resolve.now (payload_type_view ty.now) }
    ensures { OnOk result (AddsListings resolve.now live.old live.new
        (payload_roots (payload_type_view ty.now))) }
{
    match ty {
        PayloadType::Typed { id, .. } => live.add_type_id(resolve, *id),
        PayloadType::UnitFuture => Ok(()),
        PayloadType::UnitStream => Ok(()),
    }
}

/// The resource that an import drops, makes or represents; `None` for any other import.
pub fn import_resource(import: &Import) -> Option<TypeId>
    ensures { option_map id_index result ≡ import_resource (import_view import.now) }
{
    match import {
        Import::ImportedResourceDrop(_, _, id) => Some(*id),
        Import::ExportedResourceDrop(_, id) => Some(*id),
        Import::ExportedResourceNew(_, id) => Some(*id),
        Import::ExportedResourceRep(_, id) => Some(*id),
        _ => None,
    }
}

/// The future or stream that a built-in is for; `None` for any other import.
pub fn import_payload(import: &Import) -> Option<&PayloadInfo>
    ensures { option_map (λ p. payload_view p.now) result
        ≡ import_payload (import_view import.now) }
{
    match import {
        Import::StreamNew(info) | Import::FutureNew(info) => Some(info),
        Import::StreamRead { info, .. } | Import::FutureRead { info, .. } => Some(info),
        Import::StreamWrite { info, .. } | Import::FutureWrite { info, .. } => Some(info),
        Import::StreamForward(info) | Import::FutureForward(info) => Some(info),
        Import::StreamCancelRead { info, .. } => Some(info),
        Import::FutureCancelRead { info, .. } => Some(info),
        Import::StreamCancelWrite { info, .. } => Some(info),
        Import::FutureCancelWrite { info, .. } => Some(info),
        Import::StreamDropReadable(info) | Import::FutureDropReadable(info) => Some(info),
        Import::StreamDropWritable(info) | Import::FutureDropWritable(info) => Some(info),
        _ => None,
    }
}

/// Adds the types of an import that is no function: its resource, or its future or stream.
pub(crate) fn add_builtin(
    resolve: &Resolve,
    import: &Import,
    live: &mut LiveTypes,
) -> Result<(), AllocError>
    requires resource { IfSome (import_resource (import_view import.now))
        (λ t. t < length resolve.now.types) }
    requires payload { IfSome (import_payload (import_view import.now))
        (λ p. HasPayload resolve.now p.ty) }
    ensures { OnOk result (AddsListings resolve.now live.old live.new
        (builtin_roots (import_view import.now))) }
{
    match import_resource(import) {
        Some(id) => live.add_type_id(resolve, id),
        None => match import_payload(import) {
            Some(info) => add_payload(resolve, &info.ty, live),
            None => Ok(()),
        },
    }
}

/// Adds the types of what the world imports under a key.
pub(crate) fn add_item(
    resolve: &Resolve,
    imports: &Map<WorldKey, WorldItem>,
    key: &WorldKey,
    live: &mut LiveTypes,
) -> Result<(), AllocError>
    requires { IfSome (item_under (entries_of imports.now) (key_view key.now))
        (IsItemIn resolve.now) }
    ensures { OnOk result (AddsListings resolve.now live.old live.new
        (roots_under resolve.now (entries_of imports.now) (key_view key.now))) }
{
    match imports.get(key) {
        Some(item) => live.add_world_item(resolve, item),
        None => Ok(()),
    }
}

/// Adds the types of what a function returns.
pub(crate) fn add_result(
    resolve: &Resolve,
    function: &Function,
    live: &mut LiveTypes,
) -> Result<(), AllocError>
    requires { IfSome (function_view function.now).outcome (IsTypeIn (length resolve.now.types)) }
    ensures { OnOk result (AddsListings resolve.now live.old live.new
        (result_roots (function_view function.now))) }
{
    match function.result {
        Some(ty) => live.add_type(resolve, ty),
        None => Ok(()),
    }
}

/// Adds the types of a function of an interface.
pub(crate) fn add_function(
    resolve: &Resolve,
    id: InterfaceId,
    name: &str,
    live: &mut LiveTypes,
) -> Result<(), AllocError>
    requires there { id.0 < length resolve.now.interfaces }
    requires function { IfSome (under_name (functions_of resolve.now id.0) name.now)
        (IsFunctionIn (length resolve.now.types)) }
    ensures { OnOk result (AddsListings resolve.now live.old live.new
        (named_function_roots resolve.now id.0 name.now)) }
{
    match resolve.interface(id).functions.get(name) {
        Some(function) => live.add_func(resolve, function),
        None => Ok(()),
    }
}

/// Adds the types of a function of an interface, unless they were added before.
fn add_function_once(
    resolve: &Resolve,
    id: InterfaceId,
    name: &str,
    added: &mut FunctionNames,
    live: &mut LiveTypes,
) -> Result<(), AllocError>
    requires there { id.0 < length resolve.now.interfaces }
    requires function { IfSome (under_name (functions_of resolve.now id.0) name.now)
        (IsFunctionIn (length resolve.now.types)) }
    requires complete { IsComplete resolve.now.types live.old }
    requires have { HaveListings resolve.now added.old.keys live.old }
    ensures adds { OnOk result (AddsListings resolve.now live.old live.new
        (named_function_roots resolve.now id.0 name.now)) }
    ensures have { OnOk result (HaveListings resolve.now added.new.keys live.new) }
{
    let key = (Some(id), String::from_str(*added.allocator(), name)?);
    let (_place, is_new) = added.insert_full(key)?;
    if is_new {
        return add_function(resolve, id, name, live);
    }
    Ok(())
}

/// Adds the types of what an import is.
fn add_import(
    resolve: &Resolve,
    world: &World,
    import: &Import,
    added: &mut FunctionNames,
    live: &mut LiveTypes,
) -> Result<(), AllocError>
    requires there { IsImportIn resolve.now (world_view world.now) (import_view import.now) }
    requires complete { IsComplete resolve.now.types live.old }
    requires have { HaveListings resolve.now added.old.keys live.old }
    ensures adds { OnOk result (AddsListings resolve.now live.old live.new
        (import_roots resolve.now (world_view world.now).imports (import_view import.now))) }
    ensures have { OnOk result (HaveListings resolve.now added.new.keys live.new) }
{
    match import {
        Import::WorldFunc(key, _, _) => add_item(resolve, &world.imports, key, live),
        Import::InterfaceFunc(_, id, name, _) => {
            add_function_once(resolve, *id, name, added, live)
        }
        Import::ExportedTaskReturn(_, _, function) => add_result(resolve, function, live),
        _ => add_builtin(resolve, import, live),
    }
}

/// Adds an item that a world imports, if it is a type.
fn add_type_item(
    resolve: &Resolve,
    item: &WorldItem,
    live: &mut LiveTypes,
) -> Result<(), AllocError>
    requires { IsItemIn resolve.now (item_view item.now) }
    ensures { OnOk result (AddsListings resolve.now live.old live.new
        (option_to_list (as_type (item_view item.now)))) }
{
    match item {
        WorldItem::TypeItem { id } => live.add_type_id(resolve, *id),
        WorldItem::Interface { .. } => Ok(()),
        WorldItem::Function(_) => Ok(()),
    }
}

/// Adds the types that a world imports.
fn add_world_types(
    resolve: &Resolve,
    imports: &Map<WorldKey, WorldItem>,
    live: &mut LiveTypes,
) -> Result<(), AllocError>
    requires { AreItemsIn resolve.now (entries_of imports.now) }
    ensures { OnOk result (AddsListings resolve.now live.old live.new
        (imported_types (entries_of imports.now))) }
{
    for (_key, item) in imports.iter() {
        add_type_item(resolve, item, live)?;
    }
    Ok(())
}

/// Adds the types of the imports of a module.
fn add_imports(
    resolve: &Resolve,
    world: &World,
    imports: &ImportMap,
    added: &mut FunctionNames,
    live: &mut LiveTypes,
) -> Result<(), AllocError>
    requires imports { AreImportsIn resolve.now (world_view world.now) imports.now }
    requires complete { IsComplete resolve.now.types live.old }
    requires have { HaveListings resolve.now added.old.keys live.old }
    ensures adds { OnOk result (AddsListings resolve.now live.old live.new
        (imports_roots resolve.now (world_view world.now).imports imports.now)) }
    ensures have { OnOk result (HaveListings resolve.now added.new.keys live.new) }
{
    for (_module, _name, import) in imports.imports() {
        add_import(resolve, world, import, added, live)?;
    }
    Ok(())
}

/// Adds the types of a module: those that the world imports, and then those of its imports.
fn add_module(
    resolve: &Resolve,
    world: &World,
    imports: &ImportMap,
    added: &mut FunctionNames,
    live: &mut LiveTypes,
) -> Result<(), AllocError>
    requires items { AreItemsIn resolve.now (world_view world.now).imports }
    requires imports { AreImportsIn resolve.now (world_view world.now) imports.now }
    requires complete { IsComplete resolve.now.types live.old }
    requires have { HaveListings resolve.now added.old.keys live.old }
    ensures adds { OnOk result (AddsListings resolve.now live.old live.new
        (module_roots resolve.now (world_view world.now).imports imports.now)) }
    ensures have { OnOk result (HaveListings resolve.now added.new.keys live.new) }
{
    add_world_types(resolve, &world.imports, live)?;
    add_imports(resolve, world, imports, added, live)
}

/// Adds the types of adapters, after those that the world imports: each adapter needs these too, so they are there.
fn add_adapters<'a>(
    resolve: &Resolve,
    world: &World,
    adapters: &Map<&'a str, WorldAdapter<'a>>,
    added: &mut FunctionNames,
    live: &mut LiveTypes,
) -> Result<(), AllocError>
    requires imports { All (λ a. AreImportsIn resolve.now (world_view world.now) a.1.info.imports)
        (adapters_view adapters.now) }
    requires complete { IsComplete resolve.now.types live.old }
    requires have { HaveListings resolve.now added.old.keys live.old }
    ensures { AddsAfterOnOk result resolve.now (imported_types (world_view world.now).imports)
        live.old live.new
        (adapter_roots resolve.now (world_view world.now).imports (adapters_view adapters.now)) }
{
    for (_name, adapter) in adapters.iter() {
        add_imports(resolve, world, &adapter.info.imports, added, live)?;
    }
    Ok(())
}

/// Adds a type, if it is from elsewhere.
fn add_if_elsewhere(
    resolve: &Resolve,
    used: &UsedInterfaces,
    id: InterfaceId,
    ty: TypeId,
    live: &mut LiveTypes,
) -> Result<(), AllocError>
    requires { ty.0 < length resolve.now.types }
    ensures { OnOk result (AddsListings resolve.now live.old live.new
        (filter (is_from_elsewhere resolve.now (used_view used.now) id.0) (ty.0 ∷ []))) }
{
    if is_from_elsewhere(resolve, used, id, ty) {
        return live.add_type_id(resolve, ty);
    }
    Ok(())
}

/// Adds those of some types that are from elsewhere.
fn add_from_elsewhere(
    resolve: &Resolve,
    used: &UsedInterfaces,
    id: InterfaceId,
    types: &LiveTypes,
    live: &mut LiveTypes,
) -> Result<(), AllocError>
    requires { (t : ℕ) → Contains types.now t → t < length resolve.now.types }
    ensures { OnOk result (AddsListings resolve.now live.old live.new
        (filter (is_from_elsewhere resolve.now (used_view used.now) id.0) types.now)) }
{
    for ty in types.iter() {
        add_if_elsewhere(resolve, used, id, ty, live)?;
    }
    Ok(())
}

/// Adds the types of an export; of an interface its live types that are from elsewhere. Types that are live, or settled
/// for the interface, are not visited, and those that are visited are settled then where they can be. `types` is a list
/// that is used again for each interface: for its memory alone.
fn add_export(
    context: &LiveContext<'_>,
    item: &WorldItem,
    settled: &mut Vec<Mark>,
    types: &mut LiveTypes,
    live: &mut LiveTypes,
) -> Result<(), AllocError>
    requires there { IsItemIn context.now.resolve.now (item_view item.now) }
    requires used { UseFurther (used_view context.now.used.now) }
    requires complete { IsComplete context.now.resolve.now.types live.old }
    requires settled { AreSettled context.now.resolve.now (used_view context.now.used.now)
        live.old settled.old.items }
    ensures adds { let r = context.now.resolve.now in OnOk result (AddsListings r live.old live.new
        (export_roots r (used_view context.now.used.now) (item_view item.now))) }
    ensures settled { OnOk result (AreSettled context.now.resolve.now
        (used_view context.now.used.now) live.new settled.new.items) }
{
    let resolve = context.resolve;
    match item {
        WorldItem::Interface { id, .. } => {
            resolve.well_formedness();
            types.clear();
            let known = KnownTo {
                used: context.used,
                live,
                settled,
                reach: Some(*id),
            };
            types.add_world_item_beside(&known, resolve, item)?;
            add_from_elsewhere(resolve, context.used, *id, types, live)?;
            settle_all(context, live, *id, types, settled)
        }
        WorldItem::Function(_) => live.add_world_item(resolve, item),
        WorldItem::TypeItem { .. } => live.add_world_item(resolve, item),
    }
}

/// Adds the types of exports.
fn add_exports(
    alloc: Global,
    context: &LiveContext<'_>,
    exports: &Map<WorldKey, WorldItem>,
    live: &mut LiveTypes,
) -> Result<(), AllocError>
    requires there { AreItemsIn context.now.resolve.now (entries_of exports.now) }
    requires used { UseFurther (used_view context.now.used.now) }
    requires complete { IsComplete context.now.resolve.now.types live.old }
    ensures { let r = context.now.resolve.now in OnOk result (AddsListings r live.old live.new
        (exports_roots r (used_view context.now.used.now) (entries_of exports.now))) }
{
    let mut settled = Vec::new(alloc);
    let mut types = LiveTypes::new(alloc);
    for (_key, item) in exports.iter() {
        add_export(context, item, &mut settled, &mut types, live)?;
    }
    Ok(())
}

/// The live types of a world: those of the main module, of adapters, and of exports.
fn live_types<'a>(
    alloc: Global,
    context: &LiveContext<'_>,
    world: &World,
    main: &ValidatedModule,
    adapters: &Map<&'a str, WorldAdapter<'a>>,
) -> Result<LiveTypes, AllocError>
    requires roots { AreRootsIn context.now.resolve.now (world_view world.now)
        (module_record main.now) (adapters_view adapters.now) }
    requires used { UseFurther (used_view context.now.used.now) }
    ensures live { IfOk result (λ live. live
        ≡ live_types_of context.now.resolve.now (used_view context.now.used.now)
        (world_view world.now) (module_record main.now) (adapters_view adapters.now)) }
    ensures listed { IfOk result (AreListed context.now.resolve.now) }
{
    let resolve = context.resolve;
    resolve.well_formedness();
    let mut live = LiveTypes::new(alloc);
    let mut added = Set::with_hasher(alloc, *adapters.hasher());
    add_module(resolve, world, &main.imports, &mut added, &mut live)?;
    add_adapters(resolve, world, adapters, &mut added, &mut live)?;
    add_exports(alloc, context, &world.exports, &mut live)?;
    Ok(live)
}

/// Adds a type to the group of its owner, which is new if it is not there.
fn add_to_owner(
    alloc: Global,
    groups: &mut LiveGroups,
    owner: InterfaceId,
    ty: TypeId,
) -> Result<(), AllocError>
    ensures { (r : ResolveView) → interface_owning r ty.0 ≡ Some owner.0
        → AddsTypeOnOk result r groups.old groups.new ty.0 }
{
    if let Some(group) = groups.get_mut(&owner) {
        group.insert(ty)?;
        return Ok(());
    }
    let mut group = Set::with_hasher(alloc, *groups.hasher());
    group.insert(ty)?;
    groups.insert(owner, group)?;
    Ok(())
}

/// Adds a type to the group of the interface that owns it, if one does.
fn add_owned(
    alloc: Global,
    resolve: &Resolve,
    groups: &mut LiveGroups,
    ty: TypeId,
) -> Result<(), AllocError>
    requires { ty.0 < length resolve.now.types }
    ensures { AddsTypeOnOk result resolve.now groups.old groups.new ty.0 }
{
    match interface_owning(resolve, ty) {
        Some(owner) => add_to_owner(alloc, groups, owner, ty),
        None => Ok(()),
    }
}

/// Types by the interfaces that own them, each in the order of its first type. `seed` is that of the map and its sets.
fn by_owner(
    alloc: Global,
    seed: Seed,
    resolve: &Resolve,
    live: &LiveTypes,
) -> Result<LiveGroups, AllocError>
    requires { AreListed resolve.now live.now }
    ensures { IfOk result (λ groups. live_view groups ≡ by_owner resolve.now live.now) }
{
    let mut groups = Map::with_hasher(alloc, seed);
    for ty in live.iter() {
        add_owned(alloc, resolve, &mut groups, ty)?;
    }
    Ok(groups)
}

/// The live types of an encoder's world: those of the main module, of adapters, and of exports, by the interfaces that
/// own them.
pub(crate) fn live_type_imports<'a>(
    alloc: Global,
    encoder: &ComponentEncoder,
    used: &UsedInterfaces,
    main: &ValidatedModule,
    adapters: &Map<&'a str, WorldAdapter<'a>>,
) -> Result<LiveGroups, AllocError>
    requires main { AreImportsOf encoder.now (module_record main.now) }
    requires adapters { All (λ a. AreImportsOf encoder.now a.1.info) (adapters_view adapters.now) }
    requires used { AreUsed encoder.now.resolve (world_exports encoder.now) (used_view used.now) }
    ensures { IfOk result (λ groups. AreLive encoder.now (used_view used.now)
        (module_record main.now) (adapters_view adapters.now) (live_view groups)) }
{
    encoder.well_formedness();
    let metadata = encoder.metadata();
    let resolve = &metadata.resolve;
    resolve.well_formedness();
    let world = resolve.world(metadata.world);
    let context = LiveContext { resolve, used };
    let live = live_types(alloc, &context, world, main, adapters)?;
    by_owner(alloc, *adapters.hasher(), resolve, &live)
}
