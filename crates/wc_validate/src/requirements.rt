//! Requirements on the exports of a core module.

ghost use Rattle.std.specs.Prelude.{◌≡◌, ◌≤◌, All, IfErr, IfOk, MatchOption, OnOk, map};
ghost use Rattle.wc_read.specs.Modules.{HaveTypes, module_value};
ghost use Rattle.wc_resolve.specs.Ranges.{IsItemIn};
ghost use Rattle.wc_resolve.specs.Views.{world_entry};
ghost use Rattle.wc_names.specs.ExportViews.{export_view};
ghost use Rattle.wc_validate.specs.Exports.Map.{ExportRecord, export_entry, is_memory};
ghost use Rattle.wc_validate.specs.Requirements.{is_called_back, is_callback_for, memory_count, needs_callback};
ghost use Rattle.wc_validate.specs.Private.Explain.{IsMissingIn, IsRefusedForCallbacks, IsRefusedForMemories, IsSecondNamed, IsUncalled, RefusesKeys};
ghost use Rattle.wc_validate.specs.Private.ExportedFunctions.{AreNamesOf};
ghost use Rattle.wc_validate.specs.Private.Requirements.{AreMetBy, HasItemsInRange, HasKeysNamed, IsUnmetBy, requirement_of_key, requirements_of_keys, AreCalledBack, FailsByNames, MeetsByNames};
ghost use Rattle.wc_validate.specs.Refused.{IsRefusedAt};
ghost use Rattle.wc_validate.specs.NameScope.{name_scope_of};
ghost use Rattle.wc_validate.specs.Exports.Record.{AreExportsIn};

pub(crate) mod exported_functions;

use crate::ValidateFault;
use crate::explain::functions::check_functions;
use crate::explain::keys::{first_lacking, key_refusal};
use crate::explain::missing::{callback_refusal, memory_refusal};
use crate::names::Names;
use crate::refused::RefusedModule;
use crate::requirements::exported_functions::{
    FunctionNames, is_interface_recorded, is_recorded, names_of_functions,
};
use std::alloc::{AllocError, Global};
use wc_maps::{Map, Set};
use wc_names::Export;
use wc_read::{FuncType, Module};
use wc_resolve::{AbiVariant, Resolve, WorldItem, WorldKey};

/// The exports that a module has to have: those that the keys of an export set are for, and functions that other
/// modules import from it, with their types.
#[derive(Clone, Copy)]
pub(crate) struct RequiredExports<'a> {
    pub(crate) keys: &'a Set<WorldKey>,
    pub(crate) functions: &'a Map<String, FuncType>,
}

/// A module, and the records of its exports.
#[derive(Clone, Copy)]
pub(crate) struct RecordedModule<'m> {
    pub(crate) module: &'m Module<'m>,
    pub(crate) recorded: &'m Map<String, Export>,
}

/// Whether an export is a memory.
fn is_memory(export: &Export) -> bool
    ensures { result ≡ is_memory (export_view export.now) }
{
    matches!(export, Export::Memory(_))
}

/// The name of the second memory that is recorded, if there are two.
fn second_memory<'n>(names: &'n Map<String, Export>) -> Option<&'n str>
    ensures { MatchOption result (memory_count (map export_entry names.now.entries) ≤ 1)
        (IsSecondNamed names.now.entries) }
{
    let mut found = false;
    for (name, export) in names.iter() {
        if !is_memory(export) {
            continue;
        }
        if found {
            return Some(name.as_str());
        }
        found = true;
    }
    None
}

/// Checks that at most one memory is recorded.
///
/// # Errors
///
/// `SeveralMemoryExports`: two memories are recorded. It is about the second.
fn check_memories(alloc: Global, names: &Map<String, Export>) -> Result<(), RefusedModule>
    ensures met { OnOk result (memory_count (map export_entry names.now.entries) ≤ 1) }
    ensures refused { IfErr result (IsRefusedForMemories names.now.entries) }
{
    match second_memory(names) {
        Some(name) => Err(memory_refusal(alloc, name)?),
        None => Ok(()),
    }
}

/// Whether a function is lifted with a callback.
fn needs_callback(export: &Export) -> bool
    ensures { result ≡ needs_callback (export_view export.now) }
{
    match export {
        Export::WorldFunc(_, _, AbiVariant::GuestExportAsync) => true,
        Export::InterfaceFunc(_, _, _, AbiVariant::GuestExportAsync) => true,
        _ => false,
    }
}

/// Whether an export is a callback for such functions as another one.
fn is_callback_for(export: &Export, callback: &Export) -> bool
    ensures { result ≡ is_callback_for (export_view export.now) (export_view callback.now) }
{
    match export {
        Export::WorldFunc(_, _, _) => matches!(callback, Export::WorldFuncCallback(_)),
        Export::InterfaceFunc(_, _, _, _) => {
            matches!(callback, Export::InterfaceFuncCallback(_, _))
        }
        _ => false,
    }
}

/// Whether an export has its callback among those recorded, if it needs one.
fn is_called_back(
    alloc: Global,
    names: &Map<String, Export>,
    name: &str,
    export: &Export,
) -> Result<bool, AllocError>
    ensures { IfOk result (λ b. b ≡ is_called_back (map export_entry names.now.entries)
        (name.now, export_view export.now)) }
{
    if !needs_callback(export) {
        return Ok(true);
    }
    let mut callback = String::from_str(alloc, "[callback]")?;
    callback.push_str(name)?;
    match names.get(callback.as_str()) {
        Some(found) => Ok(is_callback_for(export, found)),
        None => Ok(false),
    }
}

/// The name of the first recorded export whose callback is missing, if one is.
fn uncalled<'n>(
    alloc: Global,
    names: &'n Map<String, Export>,
) -> Result<Option<&'n str>, AllocError>
    ensures { IfOk result (λ name. MatchOption name (AreCalledBack names.now.entries)
        (IsUncalled names.now.entries)) }
{
    for (name, export) in names.iter() {
        if !is_called_back(alloc, names, name.as_str(), export)? {
            return Ok(Some(name.as_str()));
        }
    }
    Ok(None)
}

/// Checks that callbacks are recorded.
///
/// # Errors
///
/// - `MissingCallback`: an export needs a callback that is not recorded. It is about the callback of the first.
/// - `Memory`: an allocation failed.
fn check_callbacks(alloc: Global, names: &Map<String, Export>) -> Result<(), RefusedModule>
    ensures met { OnOk result (AreCalledBack names.now.entries) }
    ensures refused { IfErr result (IsRefusedForCallbacks names.now.entries) }
{
    let found = uncalled(alloc, names)?;
    match found {
        Some(name) => Err(callback_refusal(alloc, name)?),
        None => Ok(()),
    }
}

/// Checks that what a key of an export set is for is recorded.
///
/// # Errors
///
/// - `MissingInterfaceExport`: a function of the interface is not recorded.
/// - `MissingWorldExport`: the function is not.
/// - `Memory`: an allocation failed.
pub(crate) fn check_key(
    alloc: Global,
    functions: &FunctionNames,
    resolve: &Resolve,
    exports: &Map<WorldKey, WorldItem>,
    key: &WorldKey,
) -> Result<(), ValidateFault>
    requires { All (λ x. IsItemIn resolve.now x.1) (map world_entry exports.now.entries) }
    ensures met { MeetsByNames resolve.now functions.now.keys
        (requirement_of_key exports.now.entries key.now) result }
    ensures fault { FailsByNames resolve.now functions.now.keys
        (requirement_of_key exports.now.entries key.now) result }
{
    let Some(item) = exports.get(key) else {
        return Ok(());
    };
    match item {
        WorldItem::Interface { id, .. } => {
            if is_interface_recorded(alloc, functions, resolve, *id)? {
                return Ok(());
            }
            Err(ValidateFault::MissingInterfaceExport)
        }
        WorldItem::Function(function) => {
            if is_recorded(alloc, functions, None, &function.name)? {
                return Ok(());
            }
            Err(ValidateFault::MissingWorldExport)
        }
        WorldItem::TypeItem { .. } => Ok(()),
    }
}

/// Checks that what the keys of an export set are for is recorded.
///
/// # Errors
///
/// Those of the first key for which something is missing. They are about the first function that is missing for it.
fn check_keys(
    alloc: Global,
    functions: &FunctionNames,
    names: &Names<'_>,
    keys: &Set<WorldKey>,
) -> Result<(), RefusedModule>
    requires world { HasItemsInRange (name_scope_of names.now) }
    requires named { HasKeysNamed (name_scope_of names.now) }
    requires recorded { (recorded : ExportRecord) × AreNamesOf functions.now.keys recorded }
    ensures met { MeetsByNames names.now.resolve.now functions.now.keys
        (requirements_of_keys names.now.world.now.exports.entries keys.now.keys) result }
    ensures refused { RefusesKeys names.now functions.now.keys keys.now.keys result }
{
    let exports = &names.world.exports;
    match first_lacking(alloc, functions, names.resolve, exports, keys) {
        Ok(()) => Ok(()),
        Err(lacking) => Err(key_refusal(alloc, functions, names, lacking)?),
    }
}

/// Checks that what has to be exported is.
///
/// # Errors
///
/// Of several causes the first in this order is named.
///
/// - `SeveralMemoryExports`: two memories are recorded.
/// - `MissingCallback`: an export needs a callback that is not recorded.
/// - `MissingInterfaceExport`, `MissingWorldExport`: a function that the export set has is not recorded; of the first
///   key for which one isn't.
/// - `AdapterModuleDidNotExport`, `AdapterExportType`: a required function is not exported, or with another type; of
///   the first such function.
/// - `Memory`: an allocation failed.
pub(crate) fn check_exports(
    alloc: Global,
    exports: RecordedModule<'_>,
    names: &Names<'_>,
    required: RequiredExports<'_>,
) -> Result<(), RefusedModule>
    requires items { AreExportsIn exports.«module».now exports.«module».now.exports.items }
    requires typed { HaveTypes (module_value exports.«module».now) }
    requires world { HasItemsInRange (name_scope_of names.now) }
    requires named { HasKeysNamed (name_scope_of names.now) }
    ensures met { OnOk result (AreMetBy names.now required.entry exports.entry.«module».now
        exports.entry.recorded.now.entries) }
    ensures fault { IfErr result (λ x. IsUnmetBy names.now required.entry exports.entry.«module».now
        exports.entry.recorded.now.entries x.fault) }
    ensures place { IfErr result (IsRefusedAt
        (IsMissingIn names.now required.entry exports.entry)) }
{
    check_memories(alloc, exports.recorded)?;
    check_callbacks(alloc, exports.recorded)?;
    let functions = names_of_functions(alloc, exports.recorded)?;
    check_keys(alloc, &functions, names, required.keys)?;
    check_functions(alloc, exports.module, required.functions)
}
