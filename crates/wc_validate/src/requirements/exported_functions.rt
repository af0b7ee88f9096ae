//! The functions that a core module exports: those that are recorded, by what they are of; and all, by their names.

ghost use Rattle.std.specs.Prelude.{◌≡◌, ◌<◌, IfOk, List, length, map, ℕ};
ghost use Rattle.std.specs.Option.{option_map};
ghost use Rattle.wc_read.specs.Modules.{HaveTypes, module_value};
ghost use Rattle.wc_names.specs.ExportViews.{export_view};
ghost use Rattle.wc_validate.specs.Exports.Map.{export_entry};
ghost use Rattle.wc_validate.specs.Private.ExportedFunctions.{AreNamesOf, IsExportIndexOf, function_shown, HasFunction, HasFunctionsOf, IsNameAdded, IsTypedAdded, TellsByNames};
ghost use Rattle.wc_validate.specs.Requirements.{function_name};
ghost use Rattle.wc_validate.specs.Exports.Record.{exports_in, AreExportsIn};
ghost use Rattle.wc_validate.specs.Private.Requirements.{requirement_of_function, FailsByIndex, MeetsByIndex};

use crate::ValidateFault;
use crate::exports::record::exported_type;
use crate::externs::Extern;
use crate::fault::not_exported;
use crate::signatures::{has_type, names_types};
use std::alloc::{AllocError, Global};
use wc_maps::{Map, Seed, Set};
use wc_names::Export;
use wc_read::{FuncType, Module};
use wc_resolve::{InterfaceId, Resolve};

/// Names of functions, each with the interface that it is of; without one it is of the world.
pub(crate) type FunctionNames = Set<(Option<InterfaceId>, String)>;

/// The function that an export is: the interface, if it is of one, and its name.
fn function_name(export: &Export) -> Option<(Option<InterfaceId>, &str)>
    ensures { (name : List ℕ) → option_map function_shown result
        ≡ function_name (name, export_view export.now) }
{
    match export {
        Export::WorldFunc(_, name, _) => Some((None, name.as_str())),
        Export::InterfaceFunc(_, id, name, _) => Some((Some(*id), name.as_str())),
        _ => None,
    }
}

/// Adds the function that an export is, if it is one.
fn add_name(alloc: Global, functions: &mut FunctionNames, export: &Export) -> Result<(), AllocError>
    ensures { IsNameAdded functions.old.keys functions.new.keys export.now result }
{
    let Some((interface, name)) = function_name(export) else {
        return Ok(());
    };
    functions.insert_full((interface, String::from_str(alloc, name)?))?;
    Ok(())
}

/// The functions among recorded exports.
pub(crate) fn names_of_functions(
    alloc: Global,
    names: &Map<String, Export>,
) -> Result<FunctionNames, AllocError>
    ensures { IfOk result (λ functions. AreNamesOf functions.keys
        (map export_entry names.now.entries)) }
{
    let mut functions = Set::with_hasher(alloc, *names.hasher());
    for (_name, export) in names.iter() {
        add_name(alloc, &mut functions, export)?;
    }
    Ok(functions)
}

/// Whether a function of an interface, or of the world, is recorded.
pub(crate) fn is_recorded(
    alloc: Global,
    functions: &FunctionNames,
    interface: Option<InterfaceId>,
    name: &str,
) -> Result<bool, AllocError>
    ensures { TellsByNames functions.now.keys (HasFunction interface name.now) result }
{
    let sought = (interface, String::from_str(alloc, name)?);
    Ok(functions.contains(&sought))
}

/// Whether all functions of an interface are recorded.
pub(crate) fn is_interface_recorded(
    alloc: Global,
    functions: &FunctionNames,
    resolve: &Resolve,
    id: InterfaceId,
) -> Result<bool, AllocError>
    requires { id.0 < length resolve.now.interfaces }
    ensures { TellsByNames functions.now.keys (HasFunctionsOf resolve.now id.0) result }
{
    for (name, _function) in resolve.interface(id).functions.iter() {
        if !is_recorded(alloc, functions, Some(id), name.as_str())? {
            return Ok(false);
        }
    }
    Ok(true)
}

/// Adds what is exported by a name with its type, if it is a function and none of the name is there.
fn add_typed<'m>(
    index: &mut Map<&'m str, &'m FuncType>,
    name: &'m str,
    ty: Extern<'m>,
) -> Result<(), AllocError>
    ensures { IsTypedAdded index.old.entries index.new.entries name.now ty.entry result }
{
    let Extern::Func(own) = ty else {
        return Ok(());
    };
    if index.contains_key(name) {
        return Ok(());
    }
    index.insert(name, own)?;
    Ok(())
}

/// The types of the functions that a module exports, by their names.
pub(crate) fn typed_functions<'m>(
    alloc: Global,
    seed: Seed,
    module: &'m Module<'m>,
    exports: &'m [wc_read::Export<'m>],
) -> Result<Map<&'m str, &'m FuncType>, AllocError>
    requires items { AreExportsIn «module».now exports.now }
    requires typed { HaveTypes (module_value «module».now) }
    ensures { IfOk result (λ index. IsExportIndexOf index.entries
        (exports_in «module».now exports.now)) }
{
    let mut index = Map::with_hasher(alloc, seed);
    for export in exports {
        let ty = exported_type(module, export.kind, export.index);
        add_typed(&mut index, export.name, ty)?;
    }
    Ok(index)
}

/// Checks that a function of a name is exported, with this type.
///
/// # Errors
///
/// - `TypedReference`: the type names another by its index, which means nothing in this module.
/// - `AdapterModuleDidNotExport`: no function of the name is exported.
/// - `AdapterExportType`: it is exported with another type.
/// - `Memory`: an allocation failed.
pub(crate) fn check_function(
    alloc: Global,
    index: &Map<&str, &FuncType>,
    name: &str,
    ty: &FuncType,
) -> Result<(), ValidateFault>
    ensures met { MeetsByIndex index.now.entries (requirement_of_function name.now ty.now) result }
    ensures fault { FailsByIndex index.now.entries
        (requirement_of_function name.now ty.now) result }
{
    if names_types(ty) {
        return Err(ValidateFault::TypedReference);
    }
    let Some(own) = index.get(name) else {
        return Err(not_exported(alloc, name)?);
    };
    if has_type(own, ty.params(), ty.results()) {
        Ok(())
    } else {
        Err(ValidateFault::AdapterExportType)
    }
}
