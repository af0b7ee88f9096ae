//! The classification of core modules' exports, by their names and types.

ghost use Rattle.std.specs.Prelude.{◌≡◌, IfOk};
ghost use Rattle.wc_names.specs.Exports.{IsLifted, callback, callback_export, destructor, export_kinds, function, function_export, post_return, post_return_export};
ghost use Rattle.wc_names.specs.ExportViews.{export_target, export_view};
ghost use Rattle.wc_validate.specs.Private.Externs.{extern_view};
ghost use Rattle.wc_validate.specs.Exports.Contexts.{HasNamesBy, IsExportContext, MeansExportBy, IsExportBy, IsFunctionBy, IsFunctionOfKind};
ghost use Rattle.wc_validate.specs.Private.Exports.Classify.{IsTypedExport, fixed_kinds, named_kinds, IsAnyTypeExport, IsFixedExport, IsMemoryExport, IsNamedExport, IsTableExport};
ghost use Rattle.wc_validate.specs.NameScope.{HasItsWorld, name_scope_of};

use crate::externs::Extern;
use crate::name_fault::NameFault;
use crate::names::Names;
use crate::prefixes::STANDARD_MARKER;
use crate::signatures::{
    checked, function_mismatch, has_function_type, has_post_return_type, post_return_mismatch,
};
use std::alloc::{AllocError, Global};
use wc_names::{Export, ExportNames, Legacy, NameMangling, Standard};
use wc_read::{FuncType, MemoryType, ValType};
use wc_resolve::{AbiVariant, Function, InterfaceId, WorldKey};
use wc_texts::strip_prefix;

/// The function that an export is named for: its key, its interface if it is of one, and itself.
type Target<'a> = (&'a WorldKey, Option<InterfaceId>, &'a Function);

/// The scope of the names of exports: that of the names of imports, and an export set by both schemes.
#[derive(Drop)]
pub(crate) struct ExportContext<'a> {
    pub(crate) names: Names<'a>,
    pub(crate) standard: ExportNames<'a>,
    pub(crate) legacy: ExportNames<'a>,
}

/// The scope of the names of exports in one scheme.
#[derive(Clone, Copy)]
pub(crate) struct ExportLookup<'a> {
    pub(crate) names: &'a Names<'a>,
    pub(crate) exports: &'a ExportNames<'a>,
}

/// The realloc that an export of this name is, whatever is exported.
fn any_type_export(name: &str) -> Option<Export>
    ensures { IsAnyTypeExport name.now result }
{
    if name == "canonical_abi_realloc" {
        return Some(Export::GeneralPurposeRealloc);
    }
    if name == "cabi_import_realloc" {
        return Some(Export::GeneralPurposeImportRealloc);
    }
    if name == "cabi_export_realloc" {
        return Some(Export::GeneralPurposeExportRealloc);
    }
    if name == "cabi_realloc_adapter" {
        return Some(Export::ReallocForAdapter);
    }
    None
}

/// How the function that an export of this name is for is lifted, and the name without what says so.
fn lifted<'n, N: NameMangling>(scheme: &N, name: &'n str) -> (AbiVariant, &'n str)
    ensures { IsLifted (N.scheme scheme.now) name.now result.0 result.1.now }
{
    if let Some(rest) = scheme.async_lift_name(name) {
        return (AbiVariant::GuestExportAsync, rest);
    }
    if let Some(rest) = scheme.async_lift_stackful_name(name) {
        return (AbiVariant::GuestExportAsyncStackful, rest);
    }
    (AbiVariant::GuestExport, name)
}

/// The realloc, the function that is called before all others, or the task hook.
fn fixed_export<N: NameMangling>(
    scheme: &N,
    alloc: Global,
    name: &str,
    ty: &FuncType,
) -> Result<Option<Export>, NameFault>
    ensures { IsFixedExport (N.scheme scheme.now) fixed_kinds name.now ty.now result }
{
    if name == scheme.export_realloc() {
        let four = [ValType::I32, ValType::I32, ValType::I32, ValType::I32];
        return checked(
            alloc,
            Export::GeneralPurposeRealloc,
            ty,
            &four,
            &[ValType::I32],
        );
    }
    if name == scheme.export_initialize() {
        return checked(alloc, Export::Initialize, ty, &[], &[]);
    }
    let Some(hook) = scheme.export_wasm_task_hook() else {
        return Ok(None);
    };
    if name != hook {
        return Ok(None);
    }
    checked(alloc, Export::WasmTaskHook, ty, &[ValType::I32], &[])
}

/// The export of a function, lifted so.
fn function_of(alloc: Global, abi: AbiVariant, target: Target<'_>) -> Result<Export, AllocError>
    ensures { IfOk result (λ x. export_view x
        ≡ function_export abi (export_target target.entry)) }
{
    let key = target.0.clone(alloc)?;
    let name = String::from_str(alloc, &target.2.name)?;
    match target.1 {
        Some(id) => Ok(Export::InterfaceFunc(key, id, name, abi)),
        None => Ok(Export::WorldFunc(key, name, abi)),
    }
}

/// The export that runs after a function has returned.
fn post_return_of(alloc: Global, target: Target<'_>) -> Result<Export, AllocError>
    ensures { IfOk result (λ x. export_view x
        ≡ post_return_export (export_target target.entry)) }
{
    let key = target.0.clone(alloc)?;
    if target.1.is_none() {
        return Ok(Export::WorldFuncPostReturn(key));
    }
    let name = String::from_str(alloc, &target.2.name)?;
    Ok(Export::InterfaceFuncPostReturn(key, name))
}

/// The callback of a function.
fn callback_of(alloc: Global, target: Target<'_>) -> Result<Export, AllocError>
    ensures { IfOk result (λ x. export_view x
        ≡ callback_export (export_target target.entry)) }
{
    let key = target.0.clone(alloc)?;
    if target.1.is_none() {
        return Ok(Export::WorldFuncCallback(key));
    }
    let name = String::from_str(alloc, &target.2.name)?;
    Ok(Export::InterfaceFuncCallback(key, name))
}

/// The function that an export is.
fn named_function<N: NameMangling>(
    scheme: &N,
    alloc: Global,
    lookup: ExportLookup<'_>,
    name: &str,
    ty: &FuncType,
) -> Result<Option<Export>, NameFault>
    requires world { HasItsWorld (name_scope_of lookup.names.now) }
    requires named { HasNamesBy (N.scheme scheme.now) lookup }
    ensures { IsFunctionOfKind (N.scheme scheme.now) lookup.entry function name.now ty.now result }
{
    let resolve = lookup.names.resolve;
    resolve.well_formedness();
    let (abi, rest) = lifted(scheme, name);
    let Some(target) = lookup.exports.function(alloc, rest)? else {
        return Ok(None);
    };
    if !has_function_type(alloc, resolve, abi, target.2, ty)? {
        return Err(function_mismatch(alloc, resolve, abi, target.2)?);
    }
    Ok(Some(function_of(alloc, abi, target)?))
}

/// The post-return function of a function, if an export is one.
fn named_post_return<N: NameMangling>(
    scheme: &N,
    alloc: Global,
    lookup: ExportLookup<'_>,
    name: &str,
    ty: &FuncType,
) -> Result<Option<Export>, NameFault>
    requires world { HasItsWorld (name_scope_of lookup.names.now) }
    requires named { HasNamesBy (N.scheme scheme.now) lookup }
    ensures { IsFunctionOfKind (N.scheme scheme.now) lookup.entry post_return name.now ty.now
        result }
{
    let resolve = lookup.names.resolve;
    resolve.well_formedness();
    let (_abi, rest) = lifted(scheme, name);
    let Some(returned) = scheme.strip_post_return(rest) else {
        return Ok(None);
    };
    let Some(target) = lookup.exports.function(alloc, returned)? else {
        return Ok(None);
    };
    if !has_post_return_type(alloc, resolve, target.2, ty)? {
        return Err(post_return_mismatch(alloc, resolve, target.2)?);
    }
    Ok(Some(post_return_of(alloc, target)?))
}

/// The callback of a function, if an export is one.
fn named_callback<N: NameMangling>(
    scheme: &N,
    alloc: Global,
    exports: &ExportNames<'_>,
    name: &str,
    ty: &FuncType,
) -> Result<Option<Export>, NameFault>
    ensures { IsNamedExport (N.scheme scheme.now) exports.now callback name.now ty.now result }
{
    let Some(called) = scheme.async_lift_callback_name(name) else {
        return Ok(None);
    };
    let Some(target) = exports.function(alloc, called)? else {
        return Ok(None);
    };
    let own = callback_of(alloc, target)?;
    let three = [ValType::I32, ValType::I32, ValType::I32];
    checked(alloc, own, ty, &three, &[ValType::I32])
}

/// The destructor of a resource, if an export is one.
fn named_destructor<N: NameMangling>(
    scheme: &N,
    alloc: Global,
    exports: &ExportNames<'_>,
    name: &str,
    ty: &FuncType,
) -> Result<Option<Export>, NameFault>
    ensures { IsNamedExport (N.scheme scheme.now) exports.now destructor name.now ty.now result }
{
    let (_abi, rest) = lifted(scheme, name);
    let Some(resource) = exports.destructed(rest) else {
        return Ok(None);
    };
    checked(
        alloc,
        Export::ResourceDtor(resource),
        ty,
        &[ValType::I32],
        &[],
    )
}

/// The export of a function that is named for what the world exports.
fn named_export<N: NameMangling>(
    scheme: &N,
    alloc: Global,
    lookup: ExportLookup<'_>,
    name: &str,
    ty: &FuncType,
) -> Result<Option<Export>, NameFault>
    requires world { HasItsWorld (name_scope_of lookup.names.now) }
    requires named { HasNamesBy (N.scheme scheme.now) lookup }
    ensures { IsFunctionBy (N.scheme scheme.now) lookup.entry named_kinds name.now ty.now result }
{
    let function = named_function(scheme, alloc, lookup, name, ty)?;
    if function.is_some() {
        return Ok(function);
    }
    let post_return = named_post_return(scheme, alloc, lookup, name, ty)?;
    if post_return.is_some() {
        return Ok(post_return);
    }
    let callback = named_callback(scheme, alloc, lookup.exports, name, ty)?;
    if callback.is_some() {
        return Ok(callback);
    }
    named_destructor(scheme, alloc, lookup.exports, name, ty)
}

/// The export of a function, by a scheme.
fn function_by<N: NameMangling>(
    scheme: &N,
    alloc: Global,
    lookup: ExportLookup<'_>,
    name: &str,
    ty: &FuncType,
) -> Result<Option<Export>, NameFault>
    requires world { HasItsWorld (name_scope_of lookup.names.now) }
    requires named { HasNamesBy (N.scheme scheme.now) lookup }
    ensures { IsFunctionBy (N.scheme scheme.now) lookup.entry export_kinds name.now ty.now result }
{
    let fixed = fixed_export(scheme, alloc, name, ty)?;
    if fixed.is_some() {
        return Ok(fixed);
    }
    named_export(scheme, alloc, lookup, name, ty)
}

/// The memory, if an export is it.
fn memory_by<N: NameMangling>(scheme: &N, name: &str, ty: MemoryType) -> Option<Export>
    ensures { IsMemoryExport (N.scheme scheme.now) name.now ty result }
{
    if name == scheme.export_memory() {
        Some(Export::Memory(ty))
    } else {
        None
    }
}

/// The table of functions, if an export is it.
fn table_by<N: NameMangling>(scheme: &N, name: &str) -> Option<Export>
    ensures { IsTableExport (N.scheme scheme.now) name.now result }
{
    let Some(table) = scheme.export_indirect_function_table() else {
        return None;
    };
    if name == table {
        Some(Export::IndirectFunctionTable)
    } else {
        None
    }
}

/// Classifies an export by a scheme; `None` if its name means nothing.
fn export_by<N: NameMangling>(
    scheme: &N,
    alloc: Global,
    lookup: ExportLookup<'_>,
    name: &str,
    ty: Extern<'_>,
) -> Result<Option<Export>, NameFault>
    requires world { HasItsWorld (name_scope_of lookup.names.now) }
    requires named { HasNamesBy (N.scheme scheme.now) lookup }
    ensures { IsExportBy (N.scheme scheme.now) lookup.entry export_kinds name.now ty.entry result }
{
    match ty {
        Extern::Func(ty) => function_by(scheme, alloc, lookup, name, ty),
        Extern::Memory(ty) => Ok(memory_by(scheme, name, ty)),
        Extern::Table(_) => Ok(table_by(scheme, name)),
        Extern::Global(_) => Ok(None),
    }
}

/// Classifies an export of a core module; `None` if its name means nothing.
pub(crate) fn classify_export(
    alloc: Global,
    context: &ExportContext<'_>,
    name: &str,
    ty: Extern<'_>,
) -> Result<Option<Export>, NameFault>
    requires { IsExportContext context.now }
    ensures { IsTypedExport (MeansExportBy context.now name.now)
        (extern_view ty.entry) result }
{
    if let Some(export) = any_type_export(name) {
        return Ok(Some(export));
    }
    let names = &context.names;
    if let Some(rest) = strip_prefix(name, STANDARD_MARKER) {
        let standard = ExportLookup {
            names,
            exports: &context.standard,
        };
        return export_by(&Standard, alloc, standard, rest, ty);
    }
    if names.reject_legacy_names {
        return Ok(None);
    }
    let scheme = Legacy {
        task_hook: names.task_hook,
    };
    let legacy = ExportLookup {
        names,
        exports: &context.legacy,
    };
    export_by(&scheme, alloc, legacy, name, ty)
}
