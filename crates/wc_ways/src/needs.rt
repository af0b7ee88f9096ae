//! Which types a root of live types needs: those that it names, each with all to which it refers.

ghost use Rattle.std.specs.Prelude.{◌≡◌, ◌<◌, ◌∷◌, [], OnOk, length};
ghost use Rattle.std.specs.Option.{option_map, option_map_or};
ghost use Rattle.wc_adapters.specs.Entries.{entries_of};
ghost use Rattle.wc_names.specs.Views.{import_view, payload_type_view};
ghost use Rattle.wc_resolve.specs.Roots.{function_roots, interface_roots, item_roots, named_function_roots as functions_roots, named_type_roots, param_roots, static_roots, type_roots};
ghost use Rattle.wc_resolve.specs.Views.{function_view, interface_view, item_view, key_view};
ghost use Rattle.wc_world.specs.Live.{builtin_roots, import_payload, import_resource, import_roots, named_function_roots, payload_roots, roots_under};
ghost use Rattle.wc_ways.specs.TypeRoots.{all_needed, first_root};
ghost use Rattle.wc_ways.specs.Private.Needs.{AddsFirst, Finds, function_types_in, interface_types, noted_needs, root_view};

use std::alloc::AllocError;
use wc_maps::Map;
use wc_names::{Import, PayloadInfo, PayloadType};
use wc_resolve::{
    Function, FunctionKind, Interface, InterfaceId, KnownTypes, LiveTypes, Resolve, TypeId,
    WitType, WorldItem, WorldKey,
};
use wc_world::{import_payload, import_resource};

/// The two lists of a world.
#[derive(Clone, Copy, Debug, PartialEq, Eq)]
pub(crate) enum WorldSide {
    /// Its imports.
    Imports,
    /// Its exports.
    Exports,
}

/// A root of live types.
#[derive(Clone, Copy)]
pub(crate) enum TypeRoot<'a> {
    /// An import of a module.
    Import {
        /// The adapter that imports it; `None` for the main module.
        adapter: Option<&'a str>,
        /// The module from which it is imported.
        module: &'a str,
        /// Its name there.
        name: &'a str,
    },
    /// An import or export of the world itself, by its key.
    Item {
        side: WorldSide,
        key: &'a WorldKey,
    },
}

/// Types, each with the first root that needs it.
#[derive(Drop)]
pub(crate) struct NeededTypes<'a> {
    pub(crate) roots: Map<TypeId, TypeRoot<'a>>,
}

impl KnownTypes for NeededTypes<'_> {
    ghost use Rattle.wc_ways.specs.Private.Needs.{noted_types};

    ghost known_of = { λ n. noted_types n.roots.entries };

    fn has(&self, id: TypeId) -> bool {
        self.roots.contains_key(&id)
    }
}

/// The types that are found, and a list that is used again for the types of each root: for its memory alone.
#[derive(Drop)]
pub(crate) struct Found<'a> {
    pub(crate) needed: NeededTypes<'a>,
    pub(crate) listed: LiveTypes,
}

/// A root, and where the types are that it names.
#[derive(Clone, Copy)]
pub(crate) struct Needing<'a> {
    pub(crate) resolve: &'a Resolve,
    pub(crate) root: TypeRoot<'a>,
}

/// Notes the types that an import needs: its function, or what its task returns, or its resource, future or stream.
/// `imports`: what the world imports.
pub(crate) fn note_import<'a>(
    needing: &Needing<'a>,
    imports: &Map<WorldKey, WorldItem>,
    import: &Import,
    found: &mut Found<'a>,
) -> Result<(), AllocError>
    ensures { OnOk result (Finds needing.now found.old found.new
        (import_roots needing.now.resolve.now (entries_of imports.now) (import_view import.now))) }
{
    match import {
        Import::WorldFunc(key, _, _) => note_under(needing, imports, key, found),
        Import::InterfaceFunc(_, id, name, _) => note_function_named(needing, *id, name, found),
        Import::ExportedTaskReturn(_, _, function) => note_result(needing, function.result, found),
        _ => note_builtin(needing, import, found),
    }
}

/// Notes the types of what the world imports under a key.
fn note_under<'a>(
    needing: &Needing<'a>,
    imports: &Map<WorldKey, WorldItem>,
    key: &WorldKey,
    found: &mut Found<'a>,
) -> Result<(), AllocError>
    ensures { OnOk result (Finds needing.now found.old found.new
        (roots_under needing.now.resolve.now (entries_of imports.now) (key_view key.now))) }
{
    match imports.get(key) {
        Some(item) => note_item(needing, item, found),
        None => Ok(()),
    }
}

/// Notes the types of the function of a name of an interface.
fn note_function_named<'a>(
    needing: &Needing<'a>,
    id: InterfaceId,
    name: &str,
    found: &mut Found<'a>,
) -> Result<(), AllocError>
    ensures { OnOk result (Finds needing.now found.old found.new
        (named_function_roots needing.now.resolve.now id.0 name.now)) }
{
    if needing.resolve.has_interface(id) {
        note_function_in(needing, needing.resolve.interface(id), name, found)
    } else {
        Ok(())
    }
}

/// Notes the types of the function of a name of this interface.
fn note_function_in<'a>(
    needing: &Needing<'a>,
    interface: &Interface,
    name: &str,
    found: &mut Found<'a>,
) -> Result<(), AllocError>
    ensures { OnOk result (Finds needing.now found.old found.new
        (function_types_in (interface_view interface.now) name.now)) }
{
    match interface.functions.get(name) {
        Some(function) => note_function(needing, function, found),
        None => Ok(()),
    }
}

/// Notes the types of a built-in: its resource, or its future or stream.
fn note_builtin<'a>(
    needing: &Needing<'a>,
    import: &Import,
    found: &mut Found<'a>,
) -> Result<(), AllocError>
    ensures { OnOk result (Finds needing.now found.old found.new
        (builtin_roots (import_view import.now))) }
{
    match import_resource(import) {
        Some(id) => note_type(needing, id, found),
        None => match import_payload(import) {
            Some(info) => note_payload(needing, &info.ty, found),
            None => Ok(()),
        },
    }
}

/// Notes the type of a future or stream, if it has one.
fn note_payload<'a>(
    needing: &Needing<'a>,
    ty: &PayloadType,
    found: &mut Found<'a>,
) -> Result<(), AllocError>
    ensures { OnOk result (Finds needing.now found.old found.new
        (payload_roots (payload_type_view ty.now))) }
{
    match ty {
        PayloadType::Typed { id, .. } => note_type(needing, *id, found),
        PayloadType::UnitFuture => Ok(()),
        PayloadType::UnitStream => Ok(()),
    }
}

/// Notes the types of an item of a world.
pub(crate) fn note_item<'a>(
    needing: &Needing<'a>,
    item: &WorldItem,
    found: &mut Found<'a>,
) -> Result<(), AllocError>
    ensures { OnOk result (Finds needing.now found.old found.new
        (item_roots needing.now.resolve.now (item_view item.now))) }
{
    match item {
        WorldItem::Interface { id, .. } => note_interface(needing, *id, found),
        WorldItem::Function(function) => note_function(needing, function, found),
        WorldItem::TypeItem { id } => note_type(needing, *id, found),
    }
}

/// Notes the types of an interface, and then those of its functions.
fn note_interface<'a>(
    needing: &Needing<'a>,
    id: InterfaceId,
    found: &mut Found<'a>,
) -> Result<(), AllocError>
    ensures { OnOk result (Finds needing.now found.old found.new
        (interface_types needing.now.resolve.now id.0)) }
{
    if needing.resolve.has_interface(id) {
        note_contents(needing, needing.resolve.interface(id), found)
    } else {
        Ok(())
    }
}

/// Notes the types of this interface, and then those of its functions.
fn note_contents<'a>(
    needing: &Needing<'a>,
    interface: &Interface,
    found: &mut Found<'a>,
) -> Result<(), AllocError>
    ensures { OnOk result (Finds needing.now found.old found.new
        (interface_roots (interface_view interface.now))) }
{
    note_types(needing, &interface.types, found)?;
    note_functions(needing, &interface.functions, found)
}

/// Notes types that have names.
fn note_types<'a>(
    needing: &Needing<'a>,
    types: &Map<String, TypeId>,
    found: &mut Found<'a>,
) -> Result<(), AllocError>
    ensures { OnOk result (Finds needing.now found.old found.new
        (named_type_roots types.now.entries)) }
{
    for (_name, id) in types.iter() {
        note_type(needing, *id, found)?;
    }
    Ok(())
}

/// Notes the types of functions that have names.
fn note_functions<'a>(
    needing: &Needing<'a>,
    functions: &Map<String, Function>,
    found: &mut Found<'a>,
) -> Result<(), AllocError>
    ensures { OnOk result (Finds needing.now found.old found.new
        (functions_roots functions.now.entries)) }
{
    for (_name, function) in functions.iter() {
        note_function(needing, function, found)?;
    }
    Ok(())
}

/// Notes the types of a function: its resource where it is static, its parameters, its result.
fn note_function<'a>(
    needing: &Needing<'a>,
    function: &Function,
    found: &mut Found<'a>,
) -> Result<(), AllocError>
    ensures { OnOk result (Finds needing.now found.old found.new
        (function_roots (function_view function.now))) }
{
    note_static(needing, function.kind, found)?;
    note_params(needing, &function.params, found)?;
    note_result(needing, function.result, found)
}

/// Notes the resource of a static function.
fn note_static<'a>(
    needing: &Needing<'a>,
    kind: FunctionKind,
    found: &mut Found<'a>,
) -> Result<(), AllocError>
    ensures { OnOk result (Finds needing.now found.old found.new (static_roots kind)) }
{
    match kind {
        FunctionKind::Static(id) => note_type(needing, id, found),
        FunctionKind::AsyncStatic(id) => note_type(needing, id, found),
        FunctionKind::Freestanding => Ok(()),
        FunctionKind::AsyncFreestanding => Ok(()),
        FunctionKind::Method(_) => Ok(()),
        FunctionKind::AsyncMethod(_) => Ok(()),
        FunctionKind::Constructor(_) => Ok(()),
    }
}

/// Notes the types of parameters.
fn note_params<'a>(
    needing: &Needing<'a>,
    params: &[(String, WitType)],
    found: &mut Found<'a>,
) -> Result<(), AllocError>
    ensures { OnOk result (Finds needing.now found.old found.new (param_roots params.now)) }
{
    for position in 0..params.len() {
        let param = &params[position];
        note_wit_type(needing, param.1, found)?;
    }
    Ok(())
}

/// Notes the type of a result, if there is one.
fn note_result<'a>(
    needing: &Needing<'a>,
    outcome: Option<WitType>,
    found: &mut Found<'a>,
) -> Result<(), AllocError>
    ensures { OnOk result (Finds needing.now found.old found.new
        (option_map_or type_roots outcome [])) }
{
    match outcome {
        Some(ty) => note_wit_type(needing, ty, found),
        None => Ok(()),
    }
}

/// Notes a type, if it is a defined one.
fn note_wit_type<'a>(
    needing: &Needing<'a>,
    ty: WitType,
    found: &mut Found<'a>,
) -> Result<(), AllocError>
    ensures { OnOk result (Finds needing.now found.old found.new (type_roots ty)) }
{
    if let WitType::Id(id) = ty {
        note_type(needing, id, found)?;
    }
    Ok(())
}

/// Notes a type that a root names, if it is there, with all to which it refers.
pub(crate) fn note_type<'a>(
    needing: &Needing<'a>,
    id: TypeId,
    found: &mut Found<'a>,
) -> Result<(), AllocError>
    ensures { OnOk result (Finds needing.now found.old found.new (id.0 ∷ [])) }
{
    if needing.resolve.has_type(id) {
        note_there(needing, id, found)
    } else {
        Ok(())
    }
}

/// Notes a type that is there, with all to which it refers.
fn note_there<'a>(
    needing: &Needing<'a>,
    id: TypeId,
    found: &mut Found<'a>,
) -> Result<(), AllocError>
    requires { id.0 < length needing.now.resolve.now.types }
    ensures { OnOk result (Finds needing.now found.old found.new (id.0 ∷ [])) }
{
    found.listed.clear();
    let item = WorldItem::TypeItem { id };
    found
        .listed
        .add_world_item_beside(&found.needed, needing.resolve, &item)?;
    note_all(needing.root, &found.listed, &mut found.needed)
}

/// Notes that a root needs some types, each unless it is noted.
fn note_all<'a>(
    root: TypeRoot<'a>,
    types: &LiveTypes,
    needed: &mut NeededTypes<'a>,
) -> Result<(), AllocError>
    ensures { OnOk result (AddsFirst needed.old.roots.entries needed.new.roots.entries
        (all_needed (root_view root.entry) types.now)) }
{
    for id in types.iter() {
        note_one(root, id, needed)?;
    }
    Ok(())
}

/// Notes that a root needs a type, unless it is noted.
fn note_one<'a>(
    root: TypeRoot<'a>,
    id: TypeId,
    needed: &mut NeededTypes<'a>,
) -> Result<(), AllocError>
    ensures { OnOk result (AddsFirst needed.old.roots.entries needed.new.roots.entries
        (all_needed (root_view root.entry) (id.0 ∷ []))) }
{
    if needed.roots.contains_key(&id) {
        return Ok(());
    }
    needed.roots.insert(id, root)?;
    Ok(())
}

/// The first root that needs a type.
pub(crate) fn root_of<'a>(needed: &NeededTypes<'a>, id: TypeId) -> Option<TypeRoot<'a>>
    ensures { option_map root_view result
        ≡ first_root (noted_needs needed.now.roots.entries) id.0 }
{
    needed.roots.get(&id).copied()
}
