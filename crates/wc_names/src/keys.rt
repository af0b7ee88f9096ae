//! Look-ups of the items of a world by their keys, and of the functions and types of an interface by their names. Each
//! answers what is under the key or the name, or `None` where nothing is.

ghost use Rattle.std.specs.Prelude.{◌≡◌, ◌<◌, ◌↔◌, IfOk, IfSome, IsTrue, Some, length, map};
ghost use Rattle.std.specs.Option.{IsSome, option_and_then, option_map};
ghost use Rattle.wc_resolve.specs.Dependencies.{id_of_interface};
ghost use Rattle.wc_resolve.specs.LongFunctions.{function_of_interface, function_of_items};
ghost use Rattle.wc_resolve.specs.Roots.{id_index};
ghost use Rattle.wc_resolve.specs.Views.{function_entry, function_view, interface_entry, interface_key, item_view, key_view, plain_key, type_entry, world_entry};
ghost use Rattle.wc_names.specs.Keys.{as_function, as_interface, as_type, item_under, resource_at};
ghost use Rattle.wc_texts.specs.Names.{under_name};

use std::alloc::{AllocError, Global};
use wc_maps::Map;
use wc_resolve::{Function, InterfaceId, Resolve, TypeDefKind, TypeId, WorldItem, WorldKey};

/// The item under a key.
pub fn item<'a>(items: &'a Map<WorldKey, WorldItem>, key: &WorldKey) -> Option<&'a WorldItem>
    ensures { option_map (λ i. item_view i.now) result ≡
        item_under (map world_entry items.now.entries) (key_view key.now) }
{
    items.get(key)
}

/// Whether an interface is a key.
pub(crate) fn is_key(items: &Map<WorldKey, WorldItem>, id: InterfaceId) -> bool
    ensures { IsTrue result ↔
        IsSome (item_under (map world_entry items.now.entries) (interface_key id.0)) }
{
    item(items, &WorldKey::Interface(id)).is_some()
}

/// The item under a plain key.
///
/// # Errors
///
/// `AllocError`: an allocation failed.
pub fn plain_item<'a>(
    alloc: Global,
    items: &'a Map<WorldKey, WorldItem>,
    name: &str,
) -> Result<Option<&'a WorldItem>, AllocError>
    ensures { IfOk result (λ found. option_map (λ i. item_view i.now) found ≡
        item_under (map world_entry items.now.entries) (plain_key name.now)) }
{
    let key = WorldKey::Name(String::from_str(alloc, name)?);
    Ok(item(items, &key))
}

/// The interface under a plain key; `None` where the item is no interface.
pub(crate) fn plain_interface(
    alloc: Global,
    items: &Map<WorldKey, WorldItem>,
    name: &str,
) -> Result<Option<InterfaceId>, AllocError>
    ensures { IfOk result (λ found. option_map id_of_interface found ≡
        option_and_then as_interface
        (item_under (map world_entry items.now.entries) (plain_key name.now))) }
{
    match plain_item(alloc, items, name)? {
        Some(item) => match item {
            WorldItem::Interface { id, .. } => Ok(Some(*id)),
            WorldItem::Function(_) | WorldItem::TypeItem { .. } => Ok(None),
        },
        None => Ok(None),
    }
}

/// The function under a plain key; `None` where the item is no function.
///
/// # Errors
///
/// `AllocError`: an allocation failed.
pub fn plain_function<'a>(
    alloc: Global,
    items: &'a Map<WorldKey, WorldItem>,
    name: &str,
) -> Result<Option<&'a Function>, AllocError>
    ensures { IfOk result (λ found. option_map (λ f. function_view f.now) found ≡
        option_and_then as_function
        (item_under (map world_entry items.now.entries) (plain_key name.now))) }
{
    match plain_item(alloc, items, name)? {
        Some(item) => match item {
            WorldItem::Function(function) => Ok(Some(function)),
            WorldItem::Interface { .. } | WorldItem::TypeItem { .. } => Ok(None),
        },
        None => Ok(None),
    }
}

/// The function under a key, and its index among the items; `None` where the item is no function.
fn function_at<'a>(
    items: &'a Map<WorldKey, WorldItem>,
    key: &WorldKey,
) -> Option<(usize, &'a Function)>
    ensures function { option_map (λ p. function_view p.1.now) result ≡ option_and_then as_function
        (item_under (map world_entry items.now.entries) (key_view key.now)) }
    ensures index { IfSome result (λ p. function_of_items (map world_entry items.now.entries) p.0
        ≡ Some (function_view p.1.now)) }
{
    match items.get_full(key) {
        Some((index, _key, item)) => match item {
            WorldItem::Function(function) => Some((index, function)),
            WorldItem::Interface { .. } | WorldItem::TypeItem { .. } => None,
        },
        None => None,
    }
}

/// The function under a plain key, as `plain_function` has it, and its index among the items.
pub(crate) fn plain_function_at<'a>(
    alloc: Global,
    items: &'a Map<WorldKey, WorldItem>,
    name: &str,
) -> Result<Option<(usize, &'a Function)>, AllocError>
    ensures function { IfOk result (λ found. option_map (λ p. function_view p.1.now) found ≡
        option_and_then as_function
        (item_under (map world_entry items.now.entries) (plain_key name.now))) }
    ensures index { IfOk result (λ found. IfSome found
        (λ p. function_of_items (map world_entry items.now.entries) p.0
        ≡ Some (function_view p.1.now))) }
{
    let key = WorldKey::Name(String::from_str(alloc, name)?);
    Ok(function_at(items, &key))
}

/// The type under a plain key; `None` where the item is no type.
///
/// # Errors
///
/// `AllocError`: an allocation failed.
pub fn plain_type(
    alloc: Global,
    items: &Map<WorldKey, WorldItem>,
    name: &str,
) -> Result<Option<TypeId>, AllocError>
    ensures { IfOk result (λ found. option_map id_index found ≡ option_and_then as_type
        (item_under (map world_entry items.now.entries) (plain_key name.now))) }
{
    match plain_item(alloc, items, name)? {
        Some(item) => match item {
            WorldItem::TypeItem { id } => Ok(Some(*id)),
            WorldItem::Interface { .. } | WorldItem::Function(_) => Ok(None),
        },
        None => Ok(None),
    }
}

/// The type of a name.
pub fn type_under(types: &Map<String, TypeId>, name: &str) -> Option<TypeId>
    ensures { option_map id_index result ≡
        under_name (map type_entry types.now.entries) name.now }
{
    types.get(name).copied()
}

/// The interface of a name.
pub(crate) fn interface_under(
    interfaces: &Map<String, InterfaceId>,
    name: &str,
) -> Option<InterfaceId>
    ensures { option_map id_of_interface result ≡
        under_name (map interface_entry interfaces.now.entries) name.now }
{
    interfaces.get(name).copied()
}

/// The function of a name.
pub fn function_under<'a>(functions: &'a Map<String, Function>, name: &str) -> Option<&'a Function>
    ensures { option_map (λ f. function_view f.now) result ≡
        under_name (map function_entry functions.now.entries) name.now }
{
    functions.get(name)
}

/// The function of a name, and its index.
pub(crate) fn function_under_at<'a>(
    functions: &'a Map<String, Function>,
    name: &str,
) -> Option<(usize, &'a Function)>
    ensures function { option_map (λ p. function_view p.1.now) result ≡
        under_name (map function_entry functions.now.entries) name.now }
    ensures index { IfSome result (λ p.
        function_of_interface (map function_entry functions.now.entries) p.0
        ≡ Some (function_view p.1.now)) }
{
    match functions.get_full(name) {
        Some((index, _name, function)) => Some((index, function)),
        None => None,
    }
}

/// The type, if its kind is a resource. An alias of a resource is none.
///
/// The type must be in range (`has_type`).
pub fn if_resource(resolve: &Resolve, id: TypeId) -> Option<TypeId>
    requires { id.0 < length resolve.now.types }
    ensures { option_map id_index result ≡ resource_at resolve.now id.0 }
{
    match resolve.type_def(id).kind {
        TypeDefKind::Resource => Some(id),
        _ => None,
    }
}
