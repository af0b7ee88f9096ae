//! Core types of imported functions, and the signatures that names fix.

ghost use Rattle.std.specs.Prelude.{◌≡◌, ◌↔◌, Err, IfOk, IsTrue, Ok, Option, Some, false, map};
ghost use Rattle.std.specs.List.{list_any};
ghost use Rattle.wc_read.specs.Types.{FuncTypeValue, func_type_value, names_type, names_types};
ghost use Rattle.wc_resolve.specs.Flat.{flat_of};
ghost use Rattle.wc_resolve.specs.Signature.{flatten_functype, signature_view};
ghost use Rattle.wc_resolve.specs.Views.{function_view};
ghost use Rattle.wc_resolve.specs.WellFormed.{IsUsable};
ghost use Rattle.wc_names.specs.Builtins.{signature};
ghost use Rattle.wc_names.specs.Exports.{post_return_type};
ghost use Rattle.wc_names.specs.Imports.{function_type, signature_type, val_type};
ghost use Rattle.wc_names.specs.Places.{IsPlaced, named_view};
ghost use Rattle.wc_names.specs.Views.{import_view};
ghost use Rattle.wc_validate.specs.Private.Imports.Builtins.{async_value_type, thread_type, IsCheckedAs, IsCheckedBy, IsMismatch, IsMismatchBy, IsTypeMismatch};
ghost use Rattle.wc_validate.specs.Classifications.{IsTypeChecked};
ghost use Rattle.wc_validate.specs.Fault.{fault_kind};

use crate::name_fault::NameFault;
use std::alloc::{AllocError, Global};
use wc_names::{Import, NamedFunction};
use wc_read::{FuncType, ValType};
use wc_resolve::{AbiVariant, Function, Resolve, WasmSignature, WasmType};

/// Whether a function has these parameters and results.
pub(crate) fn has_type(ty: &FuncType, params: &[ValType], results: &[ValType]) -> bool
    ensures { IsTrue result ↔ (func_type_value ty.now ≡ signature params.now results.now) }
{
    ty.params() == params && ty.results() == results
}

/// Whether a value type names a type of the module by its index.
pub(crate) fn names_type(ty: ValType) -> bool
    ensures { result ≡ names_type ty }
{
    matches!(ty, ValType::TypeRef { .. })
}

/// Whether one of these value types does.
fn any_names_type(types: &[ValType]) -> bool
    ensures { result ≡ list_any names_type types.now }
{
    types.iter().any(|ty| names_type(*ty))
}

/// Whether a parameter or a result names a type of the module by its index.
pub(crate) fn names_types(ty: &FuncType) -> bool
    ensures { result ≡ names_types (func_type_value ty.now) }
{
    any_names_type(ty.params()) || any_names_type(ty.results())
}

/// The fault of a type that is not this one.
fn mismatch(alloc: Global, params: &[ValType], results: &[ValType]) -> Result<NameFault, AllocError>
    ensures { IfOk result (IsMismatch (signature params.now results.now)) }
{
    let own_params = Vec::from_slice(alloc, params)?;
    let own_results = Vec::from_slice(alloc, results)?;
    Ok(NameFault::SignatureMismatch(FuncType::new(own_params, own_results)))
}

/// The import or the export, if its type is the signature that its name fixes.
pub(crate) fn checked<T: Drop>(
    alloc: Global,
    item: T,
    ty: &FuncType,
    params: &[ValType],
    results: &[ValType],
) -> Result<Option<T>, NameFault>
    ensures { IsTypeChecked fault_kind result item
        (func_type_value ty.now) (signature params.now results.now) }
{
    if has_type(ty, params, results) {
        return Ok(Some(item));
    }
    Err(mismatch(alloc, params, results)?)
}

/// A value, if it is kept; else a fault.
pub(crate) fn kept<T: Drop, F: Drop>(is_kept: bool, item: T, fault: F) -> Result<Option<T>, F>
    ensures kept { IsTrue is_kept → result ≡ Ok (Some item) }
    ensures refused { is_kept ≡ false → result ≡ Err fault }
{
    if is_kept { Ok(Some(item)) } else { Err(fault) }
}

/// The type that each value of one kind has to have.
trait TypeRule<T> {
    // The type that a value has to have, if it is of the kind.
    ghost type_of: { T → Option FuncTypeValue };

    /// Whether the type of a value is the one that it has to have.
    fn has_its_type(&self, value: &T, ty: &FuncType) -> bool
        ensures { IsTrue result ↔ (type_of value.now ≡ Some (func_type_value ty.now)) };

    /// The fault of a value whose type is another than it has to have.
    fn type_fault(&self, alloc: Global, value: &T) -> Result<NameFault, AllocError>
        ensures { IfOk result (IsTypeMismatch (type_of value.now)) };
}

/// The value, if its type is the one that it has to have.
fn checked_by<T: Drop, R: TypeRule<T>>(
    alloc: Global,
    rule: &R,
    value: T,
    ty: &FuncType,
) -> Result<Option<T>, NameFault>
    ensures { IsCheckedAs R.type_of value ty.now result }
{
    if rule.has_its_type(&value, ty) {
        return Ok(Some(value));
    }
    Err(rule.type_fault(alloc, &value)?)
}

/// Whether the type of a built-in for threads is the one that it has to have.
fn has_thread_type(import: &Import, ty: &FuncType) -> bool
    ensures { IsTrue result
        ↔ (thread_type (import_view import.now) ≡ Some (func_type_value ty.now)) }
{
    match import {
        Import::ThreadIndex | Import::ThreadSuspend | Import::ThreadYield => {
            has_type(ty, &[], &[ValType::I32])
        }
        Import::ThreadNewIndirect => has_type(ty, &[ValType::I32, ValType::I32], &[ValType::I32]),
        Import::ThreadResumeLater => has_type(ty, &[ValType::I32], &[]),
        Import::ThreadSuspendThenResume
        | Import::ThreadYieldThenResume
        | Import::ThreadSuspendThenPromote
        | Import::ThreadYieldThenPromote => has_type(ty, &[ValType::I32], &[ValType::I32]),
        _ => false,
    }
}

/// The fault of a built-in for threads whose type is another than it has to have.
fn thread_mismatch(alloc: Global, import: &Import) -> Result<NameFault, AllocError>
    ensures { IfOk result (IsMismatchBy thread_type import.now) }
{
    match import {
        Import::ThreadIndex | Import::ThreadSuspend | Import::ThreadYield => {
            mismatch(alloc, &[], &[ValType::I32])
        }
        Import::ThreadNewIndirect => {
            mismatch(alloc, &[ValType::I32, ValType::I32], &[ValType::I32])
        }
        Import::ThreadResumeLater => mismatch(alloc, &[ValType::I32], &[]),
        _ => mismatch(alloc, &[ValType::I32], &[ValType::I32]),
    }
}

/// The types of built-ins for threads.
#[derive(Clone, Copy)]
struct ThreadTypes;

impl TypeRule<Import> for ThreadTypes {
    ghost type_of = { λ import. thread_type (import_view import) };

    fn has_its_type(&self, value: &Import, ty: &FuncType) -> bool {
        has_thread_type(value, ty)
    }

    fn type_fault(&self, alloc: Global, value: &Import) -> Result<NameFault, AllocError> {
        thread_mismatch(alloc, value)
    }
}

/// The built-in for threads, if its type is the one that it has to have.
pub(crate) fn checked_thread(
    alloc: Global,
    import: Import,
    ty: &FuncType,
) -> Result<Option<Import>, NameFault>
    ensures { IsCheckedBy thread_type import ty.now result }
{
    checked_by(alloc, &ThreadTypes, import, ty)
}

/// Whether the type of a built-in of a future or stream is the one that it has to have.
fn has_async_value_type(import: &Import, ty: &FuncType) -> bool
    ensures { IsTrue result
        ↔ (async_value_type (import_view import.now) ≡ Some (func_type_value ty.now)) }
{
    match import {
        Import::FutureNew(_) | Import::StreamNew(_) => has_type(ty, &[], &[ValType::I64]),
        Import::FutureRead { .. } | Import::FutureWrite { .. } => {
            has_type(ty, &[ValType::I32, ValType::I32], &[ValType::I32])
        }
        Import::StreamRead { .. } | Import::StreamWrite { .. } => {
            has_type(
                ty,
                &[ValType::I32, ValType::I32, ValType::I32],
                &[ValType::I32],
            )
        }
        Import::FutureCancelRead { .. }
        | Import::FutureCancelWrite { .. }
        | Import::StreamCancelRead { .. }
        | Import::StreamCancelWrite { .. } => has_type(ty, &[ValType::I32], &[ValType::I32]),
        Import::FutureForward(_) | Import::StreamForward(_) => {
            has_type(ty, &[ValType::I32, ValType::I32], &[])
        }
        Import::FutureDropReadable(_)
        | Import::FutureDropWritable(_)
        | Import::StreamDropReadable(_)
        | Import::StreamDropWritable(_) => has_type(ty, &[ValType::I32], &[]),
        _ => false,
    }
}

/// The fault of a built-in of a future or stream whose type is another than it has to have.
fn async_value_mismatch(alloc: Global, import: &Import) -> Result<NameFault, AllocError>
    ensures { IfOk result (IsMismatchBy async_value_type import.now) }
{
    match import {
        Import::FutureNew(_) | Import::StreamNew(_) => mismatch(alloc, &[], &[ValType::I64]),
        Import::FutureRead { .. } | Import::FutureWrite { .. } => {
            mismatch(alloc, &[ValType::I32, ValType::I32], &[ValType::I32])
        }
        Import::StreamRead { .. } | Import::StreamWrite { .. } => mismatch(
            alloc,
            &[ValType::I32, ValType::I32, ValType::I32],
            &[ValType::I32],
        ),
        Import::FutureForward(_) | Import::StreamForward(_) => {
            mismatch(alloc, &[ValType::I32, ValType::I32], &[])
        }
        Import::FutureDropReadable(_)
        | Import::FutureDropWritable(_)
        | Import::StreamDropReadable(_)
        | Import::StreamDropWritable(_) => mismatch(alloc, &[ValType::I32], &[]),
        _ => mismatch(alloc, &[ValType::I32], &[ValType::I32]),
    }
}

/// The types of built-ins of futures and streams.
#[derive(Clone, Copy)]
struct AsyncValueTypes;

impl TypeRule<Import> for AsyncValueTypes {
    ghost type_of = { λ import. async_value_type (import_view import) };

    fn has_its_type(&self, value: &Import, ty: &FuncType) -> bool {
        has_async_value_type(value, ty)
    }

    fn type_fault(&self, alloc: Global, value: &Import) -> Result<NameFault, AllocError> {
        async_value_mismatch(alloc, value)
    }
}

/// The built-in of a future or stream, if its type is the one that it has to have.
pub(crate) fn checked_async_value(
    alloc: Global,
    import: Import,
    ty: &FuncType,
) -> Result<Option<Import>, NameFault>
    ensures { IsCheckedBy async_value_type import ty.now result }
{
    checked_by(alloc, &AsyncValueTypes, import, ty)
}

/// The value type of a core type: pointers and lengths are 32 bits.
fn val_type(core: WasmType) -> ValType
    ensures { result ≡ val_type core }
{
    match core {
        WasmType::I32 | WasmType::Pointer | WasmType::Length => ValType::I32,
        WasmType::I64 | WasmType::PointerOrI64 => ValType::I64,
        WasmType::F32 => ValType::F32,
        WasmType::F64 => ValType::F64,
    }
}

/// Whether value types are those of these core types.
fn are_val_types(core: &[WasmType], types: &[ValType]) -> bool
    ensures { IsTrue result ↔ (types.now ≡ map val_type core.now) }
{
    if core.len() != types.len() {
        return false;
    }
    for index in 0..core.len() {
        if val_type(core[index]) != types[index] {
            return false;
        }
    }
    true
}

/// Whether a function has this core signature.
fn has_signature(ty: &FuncType, core: &WasmSignature) -> bool
    ensures { IsTrue result
        ↔ (func_type_value ty.now ≡ signature_type (signature_view core.now)) }
{
    are_val_types(&core.params, ty.params()) && are_val_types(&core.results, ty.results())
}

/// Whether the type of an export is the core type of a function, lifted so.
pub(crate) fn has_function_type(
    alloc: Global,
    resolve: &Resolve,
    abi: AbiVariant,
    function: &Function,
    ty: &FuncType,
) -> Result<bool, AllocError>
    requires { IsUsable resolve.now (function_view function.now) }
    ensures { IfOk result (λ b. IsTrue b ↔ (func_type_value ty.now
        ≡ function_type resolve.now abi (function_view function.now))) }
{
    let core = resolve.wasm_signature(alloc, abi, function)?;
    Ok(has_signature(ty, &core))
}

/// The core signature of the function that a name is of, lowered so.
fn named_signature(
    alloc: Global,
    resolve: &Resolve,
    abi: AbiVariant,
    named: NamedFunction<'_>,
) -> Result<WasmSignature, AllocError>
    requires usable { IsUsable resolve.now (named_view named) }
    requires place { IsPlaced resolve.now named }
    ensures { IfOk result (λ s. signature_view s ≡
        flatten_functype (flat_of resolve.now.types) abi (named_view named.entry)) }
{
    match named.place {
        Some(place) => match resolve.wasm_signature_at(alloc, abi, place)? {
            Some(core) => Ok(core),
            None => unreachable!(),
        },
        None => resolve.wasm_signature(alloc, abi, named.function),
    }
}

/// Whether the type of an import is the core type of the function that its name is of, lowered so.
pub(crate) fn has_named_type(
    alloc: Global,
    resolve: &Resolve,
    abi: AbiVariant,
    named: NamedFunction<'_>,
    ty: &FuncType,
) -> Result<bool, AllocError>
    requires usable { IsUsable resolve.now (named_view named) }
    requires place { IsPlaced resolve.now named }
    ensures { IfOk result (λ b. IsTrue b ↔ (func_type_value ty.now
        ≡ function_type resolve.now abi (named_view named.entry))) }
{
    let core = named_signature(alloc, resolve, abi, named)?;
    Ok(has_signature(ty, &core))
}

/// The value types of these core types.
fn val_types(alloc: Global, core: &[WasmType]) -> Result<Vec<ValType>, AllocError>
    ensures { IfOk result (λ types. types.items ≡ map val_type core.now) }
{
    let mut types = Vec::new(alloc);
    for index in 0..core.len() {
        types.push(val_type(core[index]))?;
    }
    Ok(types)
}

/// The fault of a function whose type is not this core signature.
fn signature_mismatch(
    alloc: Global,
    params: &[WasmType],
    results: &[WasmType],
) -> Result<NameFault, AllocError>
    ensures { IfOk result (IsMismatch
        (signature (map val_type params.now) (map val_type results.now))) }
{
    let own_params = val_types(alloc, params)?;
    let own_results = val_types(alloc, results)?;
    Ok(NameFault::SignatureMismatch(FuncType::new(own_params, own_results)))
}

/// The fault of an import whose type is not the core type of a function, lowered so.
pub(crate) fn function_mismatch(
    alloc: Global,
    resolve: &Resolve,
    abi: AbiVariant,
    function: &Function,
) -> Result<NameFault, AllocError>
    requires { IsUsable resolve.now (function_view function.now) }
    ensures { IfOk result (IsMismatch
        (function_type resolve.now abi (function_view function.now))) }
{
    let core = resolve.wasm_signature(alloc, abi, function)?;
    signature_mismatch(alloc, &core.params, &core.results)
}

/// The fault of an export that runs after a function has returned and whose type is not the results of the function.
pub(crate) fn post_return_mismatch(
    alloc: Global,
    resolve: &Resolve,
    function: &Function,
) -> Result<NameFault, AllocError>
    requires { IsUsable resolve.now (function_view function.now) }
    ensures { IfOk result (IsMismatch (post_return_type resolve.now (function_view function.now))) }
{
    let returned = resolve.wasm_signature(alloc, AbiVariant::GuestExport, function)?;
    signature_mismatch(alloc, &returned.results, &[])
}

/// Whether the type of an export is that of what runs after a function has returned: its parameters are the results of
/// the function, as it is exported synchronously.
pub(crate) fn has_post_return_type(
    alloc: Global,
    resolve: &Resolve,
    function: &Function,
    ty: &FuncType,
) -> Result<bool, AllocError>
    requires { IsUsable resolve.now (function_view function.now) }
    ensures { IfOk result (λ b. IsTrue b ↔ (func_type_value ty.now
        ≡ post_return_type resolve.now (function_view function.now))) }
{
    let core = resolve.wasm_signature(alloc, AbiVariant::GuestExport, function)?;
    Ok(are_val_types(&core.results, ty.params()) && ty.results().is_empty())
}
