//! Exports that are missing for the keys of an export set.

ghost use Rattle.std.specs.Prelude.{◌≡◌, ◌<◌, All, IfErr, IfOk, MatchOption, length, map};
ghost use Rattle.wc_resolve.specs.Ranges.{IsItemIn};
ghost use Rattle.wc_resolve.specs.Views.{key_view, world_entry};
ghost use Rattle.wc_validate.specs.NameScope.{name_scope_of};
ghost use Rattle.wc_validate.specs.Private.Explain.{AreAllNamed, IsKeyPlaced, IsKeyStop, IsLackIn, IsLackNamed, IsLackOf, IsLackingFunction};
ghost use Rattle.wc_validate.specs.Private.Requirements.{AreKeysNamed, HasItemsInRange, HasKeysNamed, IsKeyNamed, MeetsByNames, requirements_of_keys};
ghost use Rattle.wc_validate.specs.Requirements.{interface_functions};

use crate::ValidateFault;
use crate::names::Names;
use crate::place::{Place, Subject};
use crate::refused::{RefusedModule, is_memory};
use crate::requirements::check_key;
use crate::requirements::exported_functions::{FunctionNames, is_recorded};
use std::alloc::{AllocError, Global};
use wc_maps::{Map, Set};
use wc_resolve::{InterfaceId, Resolve, WorldItem, WorldKey};
use wc_texts::Refused;

/// A key of an export set for which something is missing, and why it is refused.
#[derive(Drop)]
pub(crate) struct LackingKey<'k> {
    pub(crate) key: &'k WorldKey,
    pub(crate) fault: ValidateFault,
}

/// The first key of an export set for which something is missing, if there is one.
pub(crate) fn first_lacking<'k>(
    alloc: Global,
    functions: &FunctionNames,
    resolve: &Resolve,
    exports: &Map<WorldKey, WorldItem>,
    keys: &'k Set<WorldKey>,
) -> Result<(), LackingKey<'k>>
    requires { All (λ x. IsItemIn resolve.now x.1) (map world_entry exports.now.entries) }
    ensures met { MeetsByNames resolve.now functions.now.keys
        (requirements_of_keys exports.now.entries keys.now.keys) result }
    ensures lacking { IfErr result (IsLackIn resolve.now functions.now.keys exports.now.entries
        keys.now.keys) }
{
    for key in keys.iter() {
        if let Err(fault) = check_key(alloc, functions, resolve, exports, key) {
            return Err(LackingKey { key, fault });
        }
    }
    Ok(())
}

/// The first function of an interface that is not recorded, if one isn't.
fn lacking_function<'r>(
    alloc: Global,
    functions: &FunctionNames,
    resolve: &'r Resolve,
    id: InterfaceId,
) -> Result<Option<&'r str>, AllocError>
    requires { id.0 < length resolve.now.interfaces }
    ensures { IfOk result (λ name. MatchOption name
        (AreAllNamed resolve.now functions.now.keys id.0)
        (IsLackingFunction resolve.now functions.now.keys id.0)) }
{
    for (name, _function) in resolve.interface(id).functions.iter() {
        if !is_recorded(alloc, functions, Some(id), name.as_str())? {
            return Ok(Some(name.as_str()));
        }
    }
    Ok(None)
}

/// The first function of an interface that is missing, under the text of the interface's key.
fn interface_lack(
    alloc: Global,
    functions: &FunctionNames,
    resolve: &Resolve,
    key: &WorldKey,
    id: InterfaceId,
) -> Result<Option<Subject>, AllocError>
    requires there { id.0 < length resolve.now.interfaces }
    requires named { IsKeyNamed resolve.now (key_view key.now) }
    ensures { IfOk result (IsLackOf resolve.now functions.now.keys (key_view key.now)
        (interface_functions id.0)) }
{
    let Some(function) = lacking_function(alloc, functions, resolve, id)? else {
        return Ok(None);
    };
    let module_name = resolve.name_world_key(alloc, key)?;
    let name = String::from_str(alloc, function)?;
    Ok(Some(Subject::MissingFunction { module_name, name }))
}

/// The export that is missing for a key.
fn key_lack(
    alloc: Global,
    functions: &FunctionNames,
    resolve: &Resolve,
    exports: &Map<WorldKey, WorldItem>,
    key: &WorldKey,
) -> Result<Option<Subject>, AllocError>
    requires items { All (λ x. IsItemIn resolve.now x.1) (map world_entry exports.now.entries) }
    requires named { AreKeysNamed resolve.now exports.now.entries }
    ensures { IfOk result (IsLackNamed resolve.now functions.now.keys exports.now.entries
        key.now) }
{
    let Some(item) = exports.get(key) else {
        return Ok(None);
    };
    match item {
        WorldItem::Interface { id, .. } => interface_lack(alloc, functions, resolve, key, *id),
        WorldItem::Function(function) => {
            let name = String::from_str(alloc, &function.name)?;
            Ok(Some(Subject::MissingExport(name)))
        }
        WorldItem::TypeItem { .. } => Ok(None),
    }
}

/// The place of a refused key: the export that is missing for it.
fn key_place(
    alloc: Global,
    functions: &FunctionNames,
    names: &Names<'_>,
    lacking: &LackingKey<'_>,
) -> Result<Option<Place>, AllocError>
    requires items { HasItemsInRange (name_scope_of names.now) }
    requires named { HasKeysNamed (name_scope_of names.now) }
    requires stopped { IsKeyStop names.now functions.now.keys lacking.now }
    ensures { IfOk result (IsKeyPlaced names.now functions.now.keys lacking.now) }
{
    if is_memory(&lacking.fault) {
        return Ok(None);
    }
    let exports = &names.world.exports;
    // Something is missing, since no allocation failed.
    match key_lack(alloc, functions, names.resolve, exports, lacking.key)? {
        Some(subject) => Ok(Some(Place {
            subject,
            types: None,
        })),
        None => unreachable!(),
    }
}

/// A module that lacks something for a key, with that.
pub(crate) fn key_refusal(
    alloc: Global,
    functions: &FunctionNames,
    names: &Names<'_>,
    lacking: LackingKey<'_>,
) -> Result<RefusedModule, AllocError>
    requires items { HasItemsInRange (name_scope_of names.now) }
    requires named { HasKeysNamed (name_scope_of names.now) }
    requires stopped { IsKeyStop names.now functions.now.keys lacking }
    ensures fault { IfOk result (λ x. x.fault ≡ lacking.entry.fault) }
    ensures place { IfOk result
        (λ x. IsKeyPlaced names.now functions.now.keys lacking.entry x.place) }
{
    let place = key_place(alloc, functions, names, &lacking)?;
    Ok(Refused {
        fault: lacking.fault,
        place,
    })
}
