//! Imports of functions, resources, futures and streams of a world or of one of its interfaces.

ghost use Rattle.std.specs.Prelude.{◌≡◌, IfOk, false, true};
ghost use Rattle.wc_names.specs.Mangling.{resource_drop, resource_new, resource_rep};
ghost use Rattle.wc_names.specs.Views.{import_view};
ghost use Rattle.wc_names.specs.WitIntrinsics.{of_async_value, of_resource, task_cancel, wit_intrinsics};
ghost use Rattle.wc_validate.specs.Fault.{IsClassifiedBy};
ghost use Rattle.wc_validate.specs.Private.Imports.Kinds.{IsContextFormed, IsIntrinsic, MeansFunction, task_intrinsics, task_returns};
ghost use Rattle.wc_validate.specs.Private.Imports.Lookups.{LookupScope, lookup_scope};
ghost use Rattle.wc_validate.specs.Private.Imports.Intrinsics.{has_result, operation_of, IsIntrinsicAmong, IsIntrinsicOf, IsOnResource, import_of_function, import_on_resource};

use crate::imports::lookups::{function_named, resource_named, scope_key};
use crate::name_fault::NameFault;
use crate::names::ContextInWorld;
use crate::signatures::{checked, checked_async_value, function_mismatch, has_named_type};
use std::alloc::{AllocError, Global};
use wc_names::{Import, NameMangling, PayloadLookupContext};
use wc_read::{FuncType, ValType};
use wc_resolve::{AbiVariant, Function, TypeId};

/// An operation on a resource.
#[derive(Clone, Copy)]
pub(crate) enum ResourceOperation {
    Drop,
    New,
    Rep,
}

/// The import of a function: of the context's interface, or of its world.
fn function_import(
    alloc: Global,
    context: &PayloadLookupContext<'_>,
    name: &str,
    function: &Function,
    abi: AbiVariant,
) -> Result<Import, AllocError>
    ensures { IfOk result (λ i. import_view i
        ≡ import_of_function context.now name.now function.now abi) }
{
    let key = scope_key(alloc, context, name)?;
    let own_name = String::from_str(alloc, &function.name)?;
    match context.id {
        Some(id) => Ok(Import::InterfaceFunc(key, id, own_name, abi)),
        None => Ok(Import::WorldFunc(key, own_name, abi)),
    }
}

/// The function that a name is of, lowered so.
pub(crate) fn lowered_function(
    alloc: Global,
    context: &ContextInWorld<'_>,
    name: &str,
    abi: AbiVariant,
    ty: &FuncType,
) -> Result<Option<Import>, NameFault>
    requires { IsContextFormed context.now.lookup }
    ensures { IsClassifiedBy (MeansFunction (lookup_scope context.now.lookup) name.now abi) ty.now
        result }
{
    let lookup = &context.lookup;
    lookup.resolve.well_formedness();
    let Some(named) = lookup.named_function(alloc, Some(context.world_id), name)? else {
        return Ok(None);
    };
    if !has_named_type(alloc, lookup.resolve, abi, named, ty)? {
        return Err(function_mismatch(alloc, lookup.resolve, abi, named.function)?);
    }
    Ok(Some(function_import(alloc, lookup, name, named.function, abi)?))
}

/// The import of an operation on a resource.
fn resource_import(
    alloc: Global,
    context: &PayloadLookupContext<'_>,
    operation: ResourceOperation,
    resource: &str,
    id: TypeId,
) -> Result<Import, AllocError>
    ensures { IfOk result (λ i. import_view i
        ≡ import_on_resource context.now operation resource.now id.0) }
{
    let key = scope_key(alloc, context, resource)?;
    if context.imported {
        return Ok(Import::ImportedResourceDrop(key, context.id, id));
    }
    match operation {
        ResourceOperation::Drop => Ok(Import::ExportedResourceDrop(key, id)),
        ResourceOperation::New => Ok(Import::ExportedResourceNew(key, id)),
        ResourceOperation::Rep => Ok(Import::ExportedResourceRep(key, id)),
    }
}

/// Whether an operation has a result, which is a resource's handle or its representation.
fn has_result(imported: bool, operation: ResourceOperation) -> bool
    ensures { result ≡ has_result imported (operation_of operation) }
{
    if imported {
        return false;
    }
    match operation {
        ResourceOperation::Drop => false,
        ResourceOperation::New | ResourceOperation::Rep => true,
    }
}

/// The import of an operation on the resource of a name, if there is one.
fn on_resource(
    alloc: Global,
    context: &PayloadLookupContext<'_>,
    operation: ResourceOperation,
    resource: &str,
    ty: &FuncType,
) -> Result<Option<Import>, NameFault>
    requires { IsContextFormed context.now }
    ensures { IsOnResource context.now operation resource.now ty.now result }
{
    let Some(id) = resource_named(alloc, context, resource)? else {
        return Ok(None);
    };
    let import = resource_import(alloc, context, operation, resource, id)?;
    if has_result(context.imported, operation) {
        checked(alloc, import, ty, &[ValType::I32], &[ValType::I32])
    } else {
        checked(alloc, import, ty, &[ValType::I32], &[])
    }
}

/// `resource.drop`, if a name is of it.
fn resource_drop<N: NameMangling>(
    scheme: &N,
    alloc: Global,
    context: &PayloadLookupContext<'_>,
    name: &str,
    ty: &FuncType,
) -> Result<Option<Import>, NameFault>
    requires { IsContextFormed context.now }
    ensures { IsIntrinsicOf (N.scheme scheme.now) context.now
        (of_resource resource_drop) name.now ty.now result }
{
    match scheme.resource_drop_name(name) {
        Some(resource) => on_resource(alloc, context, ResourceOperation::Drop, resource, ty),
        None => Ok(None),
    }
}

/// `resource.new`, if a name is of it.
fn resource_new<N: NameMangling>(
    scheme: &N,
    alloc: Global,
    context: &PayloadLookupContext<'_>,
    name: &str,
    ty: &FuncType,
) -> Result<Option<Import>, NameFault>
    requires { IsContextFormed context.now }
    ensures { IsIntrinsicOf (N.scheme scheme.now) context.now
        (of_resource resource_new) name.now ty.now result }
{
    match scheme.resource_new_name(name) {
        Some(resource) => on_resource(alloc, context, ResourceOperation::New, resource, ty),
        None => Ok(None),
    }
}

/// `resource.rep`, if a name is of it.
fn resource_rep<N: NameMangling>(
    scheme: &N,
    alloc: Global,
    context: &PayloadLookupContext<'_>,
    name: &str,
    ty: &FuncType,
) -> Result<Option<Import>, NameFault>
    requires { IsContextFormed context.now }
    ensures { IsIntrinsicOf (N.scheme scheme.now) context.now
        (of_resource resource_rep) name.now ty.now result }
{
    match scheme.resource_rep_name(name) {
        Some(resource) => on_resource(alloc, context, ResourceOperation::Rep, resource, ty),
        None => Ok(None),
    }
}

/// `task.return`, if a name is of it.
fn task_return<N: NameMangling>(
    scheme: &N,
    alloc: Global,
    context: &PayloadLookupContext<'_>,
    name: &str,
    ty: &FuncType,
) -> Result<Option<Import>, NameFault>
    requires { IsContextFormed context.now }
    ensures { IsIntrinsicAmong (N.scheme scheme.now) context.now task_returns name.now ty.now
        result }
{
    let Some(function_name) = scheme.task_return_name(name) else {
        return Ok(None);
    };
    let Some(function) = function_named(alloc, context, function_name)? else {
        return Err(NameFault::NoSuchExport);
    };
    let key = scope_key(alloc, context, function_name)?;
    let own = function.clone(alloc)?;
    Ok(Some(Import::ExportedTaskReturn(key, context.id, own)))
}

/// `task.cancel`, if a name is of it.
fn task_cancel<N: NameMangling>(
    scheme: &N,
    alloc: Global,
    name: &str,
    ty: &FuncType,
) -> Result<Option<Import>, NameFault>
    ensures { (l : LookupScope) → IsClassifiedBy
        (IsIntrinsic (N.scheme scheme.now) l name.now task_cancel) ty.now result }
{
    if scheme.task_cancel(name) {
        return checked(alloc, Import::ExportedTaskCancel, ty, &[], &[]);
    }
    Ok(None)
}

/// A built-in of a future or stream, if a name is of one.
fn async_value<N: NameMangling>(
    scheme: &N,
    alloc: Global,
    context: &ContextInWorld<'_>,
    name: &str,
    ty: &FuncType,
) -> Result<Option<Import>, NameFault>
    requires { IsContextFormed context.now.lookup }
    ensures { IsIntrinsicOf (N.scheme scheme.now) context.now.lookup of_async_value name.now ty.now
        result }
{
    context.lookup.resolve.well_formedness();
    match scheme.payload_intrinsic_in_world(alloc, &context.lookup, context.world_id, name)? {
        Some(import) => checked_async_value(alloc, import, ty),
        None => Ok(None),
    }
}

/// The built-in that a name is of, for what is imported.
pub(crate) fn imported_intrinsic<N: NameMangling>(
    scheme: &N,
    alloc: Global,
    context: &ContextInWorld<'_>,
    name: &str,
    ty: &FuncType,
) -> Result<Option<Import>, NameFault>
    requires { IsContextFormed context.now.lookup }
    ensures { IsIntrinsicAmong (N.scheme scheme.now) context.now.lookup
        (wit_intrinsics true) name.now ty.now result }
{
    match resource_drop(scheme, alloc, &context.lookup, name, ty)? {
        Some(dropped) => Ok(Some(dropped)),
        None => async_value(scheme, alloc, context, name, ty),
    }
}

/// The built-in of a task, a future or a stream that a name is of, for what is exported.
fn task_intrinsic<N: NameMangling>(
    scheme: &N,
    alloc: Global,
    context: &ContextInWorld<'_>,
    name: &str,
    ty: &FuncType,
) -> Result<Option<Import>, NameFault>
    requires { IsContextFormed context.now.lookup }
    ensures { IsIntrinsicAmong (N.scheme scheme.now) context.now.lookup task_intrinsics name.now
        ty.now result }
{
    match task_return(scheme, alloc, &context.lookup, name, ty)? {
        Some(returned) => Ok(Some(returned)),
        None => match task_cancel(scheme, alloc, name, ty)? {
            Some(cancelled) => Ok(Some(cancelled)),
            None => async_value(scheme, alloc, context, name, ty),
        },
    }
}

/// The built-in that a name is of, for what is exported.
pub(crate) fn exported_intrinsic<N: NameMangling>(
    scheme: &N,
    alloc: Global,
    context: &ContextInWorld<'_>,
    name: &str,
    ty: &FuncType,
) -> Result<Option<Import>, NameFault>
    requires { IsContextFormed context.now.lookup }
    ensures { IsIntrinsicAmong (N.scheme scheme.now) context.now.lookup
        (wit_intrinsics false) name.now ty.now result }
{
    match resource_drop(scheme, alloc, &context.lookup, name, ty)? {
        Some(dropped) => Ok(Some(dropped)),
        None => match resource_new(scheme, alloc, &context.lookup, name, ty)? {
            Some(made) => Ok(Some(made)),
            None => match resource_rep(scheme, alloc, &context.lookup, name, ty)? {
                Some(represented) => Ok(Some(represented)),
                None => task_intrinsic(scheme, alloc, context, name, ty),
            },
        },
    }
}
