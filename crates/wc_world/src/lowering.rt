//! The lowerings of functions, and the drops of resources, that core modules import.

ghost use Rattle.std.specs.Prelude.{◌≡◌, ◌<◌, All, IfOk, OnOk, Some, length, map, option_copied};
ghost use Rattle.wc_resolve.specs.Views.{function_entry, function_view, item_view, type_entry};
ghost use Rattle.wc_resolve.specs.WellFormed.{IsUsable};
ghost use Rattle.wc_adapters.specs.Entries.{entries_of};
ghost use Rattle.wc_names.specs.Imports.{import_abi};
ghost use Rattle.wc_world.specs.Lowering.{AreKeysDistinct, IsLowerable, Lowerer, called_lowering, function_lowerings, item_lowerings, lowerings_of_functions, lowerings_of_interface, lowerings_of_types, needs_main_memory, own_lowerings, resource_name, type_lowerings};
ghost use Rattle.wc_world.specs.Private.ImportedItems.{interface_index};
ghost use Rattle.wc_world.specs.WorldViews.{lowering_entry, lowering_view};
ghost use Rattle.wc_world.specs.Private.LoweringContext.{AddsLowerings, ForLowerer, lowered_in};

use crate::imported::Lowering;
use crate::imported_items::ImportedItems;
use crate::options::{ImportOptions, RequiredOptions};
use bitflags::Flags;
use std::alloc::{AllocError, Global};
use wc_maps::{Map, Seed};
use wc_resolve::{
    AbiVariant, Function, InterfaceId, Resolve, TypeDefKind, TypeId, WorldItem, WorldKey,
};

/// The context in which functions are lowered.
#[derive(Drop)]
pub(crate) struct Lowerings<'a, O: ImportOptions> {
    pub(crate) resolve: &'a Resolve,
    pub(crate) options: &'a O,
    /// The functions and drops that are imported.
    pub(crate) imported: &'a ImportedItems,
    /// Whether the main module imports its memory, which is then there before the main module is.
    pub(crate) has_memory: bool,
    /// The seed of the maps that are made.
    pub(crate) seed: Seed,
}

/// A function that may be imported, and the interface that it is of; without one it is of the world.
#[derive(Clone, Copy)]
struct Callee<'a> {
    interface: Option<InterfaceId>,
    function: &'a Function,
}

/// A lowering, by its name and by how the function is called.
pub(crate) type KeyedLowering = ((String, AbiVariant), Lowering);

/// Whether options need the main module's memory.
fn needs_main_memory(options: RequiredOptions) -> bool
    ensures { result ≡ needs_main_memory options.0 }
{
    options.contains(RequiredOptions::MEMORY) || options.contains(RequiredOptions::REALLOC)
}

/// How a function is called that is imported asynchronously, or else synchronously.
fn import_abi(is_async: bool) -> AbiVariant
    ensures { result ≡ import_abi is_async }
{
    if is_async {
        AbiVariant::GuestImportAsync
    } else {
        AbiVariant::GuestImport
    }
}

/// The name of a type, if it is a resource and has one.
fn resource_name(resolve: &Resolve, id: TypeId) -> Option<&str>
    requires { id.0 < length resolve.now.types }
    ensures { option_copied result ≡ resource_name resolve.now id.0 }
{
    let def = resolve.type_def(id);
    match def.kind {
        TypeDefKind::Resource => def.name.as_deref(),
        _ => None,
    }
}

/// A function, lowered to be called in this way.
fn lower_function<O: ImportOptions>(
    alloc: Global,
    context: &Lowerings<'_, O>,
    function: &Function,
    abi: AbiVariant,
) -> Result<Lowering, AllocError>
    requires { IsUsable context.now.resolve.now (function_view function.now) }
    ensures { IfOk result (λ l. lowering_view l
        ≡ lowered_in O.options_of context.now (function_view function.now) abi) }
{
    let options = context
        .options
        .for_import(alloc, context.resolve, function, abi)?;
    if context.has_memory || !needs_main_memory(options) {
        return Ok(Lowering::Direct { options });
    }
    let sig = context.resolve.wasm_signature(alloc, abi, function)?;
    Ok(Lowering::Indirect { sig, options })
}

/// Adds a function, if it is imported to be called in one way.
fn push_call<O: ImportOptions>(
    alloc: Global,
    context: &Lowerings<'_, O>,
    lowerings: &mut Vec<KeyedLowering>,
    callee: Callee<'_>,
    is_async: bool,
) -> Result<(), AllocError>
    requires { IsUsable context.now.resolve.now (function_view callee.function.now) }
    ensures { ForLowerer O.options_of context.now (λ l.
        OnOk result (AddsLowerings lowerings.old lowerings.new
        (called_lowering l (interface_index callee.entry.interface)
        (function_view callee.entry.function.now) (import_abi is_async)))) }
{
    let function = callee.function;
    let imported = context.imported;
    if !imported.has_function(callee.interface, &function.name, is_async) {
        return Ok(());
    }
    let abi = import_abi(is_async);
    let lowering = lower_function(alloc, context, function, abi)?;
    let name = String::from_str(alloc, &function.name)?;
    lowerings.push(((name, abi), lowering))?;
    Ok(())
}

/// Adds a function as it is imported: called synchronously, and then asynchronously.
pub(crate) fn push_function<O: ImportOptions>(
    alloc: Global,
    context: &Lowerings<'_, O>,
    lowerings: &mut Vec<KeyedLowering>,
    interface: Option<InterfaceId>,
    function: &Function,
) -> Result<(), AllocError>
    requires { IsUsable context.now.resolve.now (function_view function.now) }
    ensures { ForLowerer O.options_of context.now (λ l.
        OnOk result (AddsLowerings lowerings.old lowerings.new
        (function_lowerings l (interface_index interface) (function_view function.now)))) }
{
    let callee = Callee {
        interface,
        function,
    };
    push_call(alloc, context, lowerings, callee, false)?;
    push_call(alloc, context, lowerings, callee, true)
}

/// Adds a type, if it is a resource whose drop is imported.
pub(crate) fn push_type<O: ImportOptions>(
    alloc: Global,
    context: &Lowerings<'_, O>,
    lowerings: &mut Vec<KeyedLowering>,
    id: TypeId,
) -> Result<(), AllocError>
    requires { id.0 < length context.now.resolve.now.types }
    ensures { ForLowerer O.options_of context.now (λ l.
        OnOk result (AddsLowerings lowerings.old lowerings.new
        (type_lowerings l id.0))) }
{
    let Some(name) = resource_name(context.resolve, id) else {
        return Ok(());
    };
    if !context.imported.has_drop(id) {
        return Ok(());
    }
    let key = (format!(in alloc; "{name}_drop")?, AbiVariant::GuestImport);
    lowerings.push((key, Lowering::ResourceDrop(id)))?;
    Ok(())
}

/// Adds the types that are resources whose drops are imported, in their order.
fn push_types<O: ImportOptions>(
    alloc: Global,
    context: &Lowerings<'_, O>,
    lowerings: &mut Vec<KeyedLowering>,
    types: &Map<String, TypeId>,
) -> Result<(), AllocError>
    requires { All (λ e. e.1.0 < length context.now.resolve.now.types) types.now.entries }
    ensures { ForLowerer O.options_of context.now (λ l.
        OnOk result (AddsLowerings lowerings.old lowerings.new
        (lowerings_of_types l (map type_entry types.now.entries)))) }
{
    for (_name, id) in types.iter() {
        push_type(alloc, context, lowerings, *id)?;
    }
    Ok(())
}

/// Adds the functions of an interface as they are imported, in their order.
fn push_functions<O: ImportOptions>(
    alloc: Global,
    context: &Lowerings<'_, O>,
    lowerings: &mut Vec<KeyedLowering>,
    interface: InterfaceId,
    functions: &Map<String, Function>,
) -> Result<(), AllocError>
    requires { All (λ e. IsUsable context.now.resolve.now (function_view e.1))
        functions.now.entries }
    ensures { ForLowerer O.options_of context.now (λ l.
        OnOk result (AddsLowerings lowerings.old lowerings.new
        (lowerings_of_functions l (Some interface.0) (map function_entry functions.now.entries)))) }
{
    if !context.imported.has_functions_of(Some(interface)) {
        return Ok(());
    }
    for (_name, function) in functions.iter() {
        push_function(alloc, context, lowerings, Some(interface), function)?;
    }
    Ok(())
}

/// A law, which does nothing when it runs: the lowerings of an interface have distinct keys.
pub(crate) fn distinct_keys(resolve: &Resolve, id: InterfaceId)
    requires { id.0 < length resolve.now.interfaces }
    ensures { (l : Lowerer) → l.resolve ≡ resolve.now
        → AreKeysDistinct (lowerings_of_interface l id.0) }
{
    resolve.well_formedness();
    let interface = resolve.interface(id);
    let _ = interface.types.len();
    let _ = interface.functions.len();
}

/// Adds the lowerings of an interface: drops in the order of its types, and then its functions.
pub(crate) fn push_interface<O: ImportOptions>(
    alloc: Global,
    context: &Lowerings<'_, O>,
    lowerings: &mut Vec<KeyedLowering>,
    id: InterfaceId,
) -> Result<(), AllocError>
    requires { id.0 < length context.now.resolve.now.interfaces }
    ensures { ForLowerer O.options_of context.now (λ l.
        OnOk result (AddsLowerings lowerings.old lowerings.new
        (lowerings_of_interface l id.0))) }
{
    context.resolve.well_formedness();
    let interface = context.resolve.interface(id);
    push_types(alloc, context, lowerings, &interface.types)?;
    push_functions(alloc, context, lowerings, id, &interface.functions)
}

/// Adds the lowerings of an item of the world itself: a function, or the drop of a resource. An interface has
/// lowerings of its own.
fn push_item<O: ImportOptions>(
    alloc: Global,
    context: &Lowerings<'_, O>,
    lowerings: &mut Vec<KeyedLowering>,
    item: &WorldItem,
) -> Result<(), AllocError>
    requires { IsLowerable context.now.resolve.now (item_view item.now) }
    ensures { ForLowerer O.options_of context.now (λ l.
        OnOk result (AddsLowerings lowerings.old lowerings.new
        (item_lowerings l (item_view item.now)))) }
{
    match item {
        WorldItem::Interface { .. } => Ok(()),
        WorldItem::Function(function) => push_function(alloc, context, lowerings, None, function),
        WorldItem::TypeItem { id } => push_type(alloc, context, lowerings, *id),
    }
}

/// The lowerings of the functions and types that the world itself imports, in its order.
pub(crate) fn world_lowerings<O: ImportOptions>(
    alloc: Global,
    context: &Lowerings<'_, O>,
    items: &Map<WorldKey, WorldItem>,
) -> Result<Vec<KeyedLowering>, AllocError>
    requires { All (λ e. IsLowerable context.now.resolve.now (item_view e.1)) items.now.entries }
    ensures { ForLowerer O.options_of context.now (λ l. IfOk result (λ found.
        map lowering_entry found.items ≡ own_lowerings l (entries_of items.now))) }
{
    let mut lowerings = Vec::new(alloc);
    for (_key, item) in items.iter() {
        push_item(alloc, context, &mut lowerings, item)?;
    }
    Ok(lowerings)
}
