//! The classification of core modules' imports: the main module's, an adapter's, or functions by their names.

ghost use Rattle.std.specs.Prelude.{◌≡◌, ◌↔◌, IfOk, IsTrue, codes};
ghost use Rattle.wc_names.specs.Environment.{environment_module};
ghost use Rattle.wc_names.specs.Imports.{NameScope, memory_type};
ghost use Rattle.wc_names.specs.Views.{import_view, main_module_export};
ghost use Rattle.wc_validate.specs.Private.Externs.{item_view};
ghost use Rattle.wc_validate.specs.Private.Imports.Functions.{function_item_view};
ghost use Rattle.wc_validate.specs.Imports.Classify.{IsAdapterMeaning, IsClassified, IsSomeFunctionClassification, core_import, IsOtherItem};
ghost use Rattle.wc_validate.specs.NameScope.{AreInterfacesOf, HasItsWorld, name_scope_of};

use crate::externs::Extern;
use crate::imports::environment::ENVIRONMENT;
use crate::imports::items::{ImportedFunction, ImportedItem};
use crate::imports::scheme::scheme_import;
use crate::name_fault::NameFault;
use crate::name_scope::Interfaces;
use crate::names::Names;
use crate::signatures::names_types;
use std::alloc::{AllocError, Global};
use wc_names::Import;
use wc_read::{ExportKind, FuncType, MemoryType};

/// The name of the main module's memory in the environment.
const MEMORY: &str = "memory";

/// The module of the main module's other exports.
const MAIN_MODULE: &str = "__main_module__";

/// Whether an import is named as the main module's memory.
fn is_main_memory(module_name: &str, name: &str) -> bool
    ensures { IsTrue result
        ↔ ((module_name.now ≡ environment_module) × (name.now ≡ codes "memory")) }
{
    if module_name == ENVIRONMENT {
        name == MEMORY
    } else {
        false
    }
}

/// Whether a module's name is that of the main module's exports.
fn is_main_module(module_name: &str) -> bool
    ensures { IsTrue result ↔ (module_name.now ≡ codes "__main_module__") }
{
    module_name == MAIN_MODULE
}

/// An export of the main module.
fn main_item(alloc: Global, name: &str, kind: ExportKind) -> Result<Import, AllocError>
    ensures { IfOk result (λ i. import_view i ≡ main_module_export name.now kind) }
{
    let own = String::from_str(alloc, name)?;
    Ok(Import::MainModuleExport { name: own, kind })
}

/// A function that an adapter exports. Types that its type names mean nothing in the adapter.
fn adapter_item(
    alloc: Global,
    adapter: &str,
    name: &str,
    ty: &FuncType,
) -> Result<Import, NameFault>
    ensures { IsSomeFunctionClassification (IsAdapterMeaning adapter.now name.now) ty.now result }
{
    if names_types(ty) {
        return Err(NameFault::TypedReference);
    }
    let adapter = String::from_str(alloc, adapter)?;
    let func = String::from_str(alloc, name)?;
    let own_ty = ty.clone(alloc)?;
    Ok(Import::AdapterExport {
        adapter,
        func,
        ty: own_ty,
    })
}

/// Classifies an import that is no function.
fn other_item(
    alloc: Global,
    module_name: &str,
    name: &str,
    kind: ExportKind,
) -> Result<Import, NameFault>
    ensures { IsOtherItem module_name.now name.now kind result }
{
    if is_main_module(module_name) {
        return Ok(main_item(alloc, name, kind)?);
    }
    Err(NameFault::NotAFunction)
}

/// Classifies an import that is a memory.
fn memory_item(
    alloc: Global,
    module_name: &str,
    name: &str,
    ty: MemoryType,
) -> Result<Import, NameFault>
    ensures { (e : NameScope)
        → IsClassified e (core_import module_name.now name.now (memory_type ty)) result }
{
    if is_main_memory(module_name, name) {
        return Ok(Import::MainModuleMemory(ty));
    }
    other_item(alloc, module_name, name, ExportKind::Memory)
}

/// Classifies an import that is a function.
fn function_item(
    alloc: Global,
    names: &Names<'_>,
    interfaces: &Interfaces<'_>,
    function: ImportedFunction<'_>,
) -> Result<Import, NameFault>
    requires world { HasItsWorld (name_scope_of names.now) }
    requires interfaces { AreInterfacesOf (name_scope_of names.now) interfaces.now }
    ensures { IsClassified (name_scope_of names.now) (function_item_view function.entry) result }
{
    if is_main_module(function.module_name) {
        return Ok(main_item(alloc, function.name, ExportKind::Func)?);
    }
    if names.adapters.contains_key(function.module_name) {
        return adapter_item(alloc, function.module_name, function.name, function.ty);
    }
    scheme_import(alloc, names, interfaces, function)
}

/// Classifies an import of a core module.
pub(crate) fn classify(
    alloc: Global,
    names: &Names<'_>,
    interfaces: &Interfaces<'_>,
    item: ImportedItem<'_>,
) -> Result<Import, NameFault>
    requires world { HasItsWorld (name_scope_of names.now) }
    requires interfaces { AreInterfacesOf (name_scope_of names.now) interfaces.now }
    ensures { IsClassified (name_scope_of names.now) (item_view item.entry) result }
{
    let (module_name, name) = (item.module_name, item.name);
    match item.ty {
        Extern::Func(ty) => {
            let function = ImportedFunction {
                module_name,
                name,
                ty,
            };
            function_item(alloc, names, interfaces, function)
        }
        Extern::Memory(ty) => memory_item(alloc, module_name, name, ty),
        Extern::Table(_) => other_item(alloc, module_name, name, ExportKind::Table),
        Extern::Global(_) => other_item(alloc, module_name, name, ExportKind::Global),
    }
}
