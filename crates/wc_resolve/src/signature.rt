//! Core signatures: the core function type of a function (component model, Canonical ABI, "Flattening",
//! `flatten_functype`).

ghost use Rattle.std.specs.Prelude.{◌≡◌, ◌<◌, IfOk, is_some};
ghost use Rattle.wc_resolve.specs.Flat.{flat_payload, flats_in};
ghost use Rattle.wc_resolve.specs.Signature.{flatten_functype, core_of, first_as_pointer, has_indirect_result, is_export, max_flat_params_of, passed_types, returned_types, result_pointer, signature_view, is_exported_method};
ghost use Rattle.wc_resolve.specs.Views.{function_view};

use crate::flat::{MAX_FLAT_ASYNC_PARAMS, MAX_FLAT_PARAMS, MAX_FLAT_RESULTS, flat_payload};
use crate::flattening::flat_fields;
use crate::{AbiVariant, Function, FunctionKind, WasmType};
use std::alloc::{AllocError, Global};

/// The core function type of a function, as `Resolve::wasm_signature` makes it.
#[derive(Debug, Drop)]
pub struct WasmSignature {
    /// The core parameters, a pointer to the result among them.
    pub params: Vec<WasmType>,
    /// The core results, of which there is at most one.
    pub results: Vec<WasmType>,
    /// Whether all parameters are passed indirectly: in memory, by one pointer.
    pub indirect_params: bool,
    /// Whether the result is passed indirectly: in memory, by a pointer, which is the last core parameter of an import
    /// and the core result of an export.
    pub retptr: bool,
}

/// The most flat parameters that are passed one by one.
fn max_flat_params_of(abi: AbiVariant) -> usize
    ensures { result ≡ max_flat_params_of abi }
{
    match abi {
        AbiVariant::GuestImportAsync => MAX_FLAT_ASYNC_PARAMS,
        AbiVariant::GuestImport
        | AbiVariant::GuestExport
        | AbiVariant::GuestExportAsync
        | AbiVariant::GuestExportAsyncStackful => MAX_FLAT_PARAMS,
    }
}

fn is_export(abi: AbiVariant) -> bool
    ensures { result ≡ is_export abi }
{
    match abi {
        AbiVariant::GuestExport
        | AbiVariant::GuestExportAsync
        | AbiVariant::GuestExportAsyncStackful => true,
        AbiVariant::GuestImport | AbiVariant::GuestImportAsync => false,
    }
}

/// Whether the first parameter is the representation of a resource that the guest itself implements.
fn is_exported_method(kind: FunctionKind, abi: AbiVariant) -> bool
    ensures { result ≡ is_exported_method kind abi }
{
    match kind {
        FunctionKind::Method(_) | FunctionKind::AsyncMethod(_) => is_export(abi),
        FunctionKind::Freestanding
        | FunctionKind::AsyncFreestanding
        | FunctionKind::Static(_)
        | FunctionKind::AsyncStatic(_)
        | FunctionKind::Constructor(_) => false,
    }
}

/// Makes the first type a pointer, where it is an `I32`.
fn make_first_pointer(params: &mut [WasmType])
    ensures { params.new ≡ first_as_pointer params.old }
{
    if !params.is_empty() && params[0] == WasmType::I32 {
        params[0] = WasmType::Pointer;
    }
}

/// The core parameters, but for a pointer to the result, by the flat types of all parameters.
fn passed_types(
    abi: AbiVariant,
    kind: FunctionKind,
    mut params: Vec<WasmType>,
) -> Result<Vec<WasmType>, AllocError>
    ensures { IfOk result (λ p. p.items ≡ passed_types abi kind params.items) }
{
    if params.len() > max_flat_params_of(abi) {
        params.clear();
        params.push(WasmType::Pointer)?;
    } else if is_exported_method(kind, abi) {
        make_first_pointer(&mut params);
    }
    Ok(params)
}

/// Whether the result is passed indirectly.
fn has_indirect_result(abi: AbiVariant, results: &[WasmType], has_result: bool) -> bool
    ensures { result ≡ has_indirect_result abi results.now has_result }
{
    match abi {
        AbiVariant::GuestImport | AbiVariant::GuestExport => results.len() > MAX_FLAT_RESULTS,
        AbiVariant::GuestImportAsync => has_result,
        AbiVariant::GuestExportAsync | AbiVariant::GuestExportAsyncStackful => false,
    }
}

/// The pointer to the result that is a parameter of an import.
fn result_pointer(abi: AbiVariant, indirect_result: bool) -> &'static [WasmType]
    ensures { result.now ≡ result_pointer abi indirect_result }
{
    match abi {
        AbiVariant::GuestImport | AbiVariant::GuestImportAsync if indirect_result => &[
            WasmType::Pointer,
        ],
        _ => &[],
    }
}

/// The core results.
fn returned_types(abi: AbiVariant, indirect_result: bool, results: &[WasmType]) -> &[WasmType]
    ensures { result.now ≡ returned_types abi indirect_result results.now }
{
    match abi {
        AbiVariant::GuestImport => if indirect_result { &[] } else { results },
        AbiVariant::GuestExport => if indirect_result {
            &[WasmType::Pointer]
        } else {
            results
        },
        AbiVariant::GuestImportAsync | AbiVariant::GuestExportAsync => &[WasmType::I32],
        AbiVariant::GuestExportAsyncStackful => &[],
    }
}

/// The core signature of a function, by the flat types of its parameters and of its result.
fn core_of(
    alloc: Global,
    abi: AbiVariant,
    function: &Function,
    params: Vec<WasmType>,
    results: &[WasmType],
) -> Result<WasmSignature, AllocError>
    ensures { IfOk result (λ s. signature_view s ≡ core_of abi function.now.kind params.items
        results.now (is_some function.now.result)) }
{
    let indirect_params = params.len() > max_flat_params_of(abi);
    let retptr = has_indirect_result(abi, results, function.result.is_some());
    let mut params = passed_types(abi, function.kind, params)?;
    params.extend_from_slice(result_pointer(abi, retptr))?;
    let results = Vec::from_slice(alloc, returned_types(abi, retptr, results))?;
    Ok(WasmSignature {
        params,
        results,
        indirect_params,
        retptr,
    })
}

/// The core signature of a function, by the flat types of all defined types and those of the function's parameters, as
/// many as are kept.
pub(crate) fn signature_by(
    alloc: Global,
    flats: &[Vec<WasmType>],
    abi: AbiVariant,
    function: &Function,
    params: &[WasmType],
) -> Result<WasmSignature, AllocError>
    ensures { IfOk result (λ s. signature_view s ≡ core_of abi function.now.kind params.now
        (flat_payload (flats_in flats.now) function.now.result) (is_some function.now.result)) }
{
    let own_params = Vec::from_slice(alloc, params)?;
    let results = flat_payload(flats, function.result);
    core_of(alloc, abi, function, own_params, results)
}

/// The core signature of a function, by the flat types of all defined types.
pub(crate) fn signature_of(
    alloc: Global,
    flats: &[Vec<WasmType>],
    abi: AbiVariant,
    function: &Function,
) -> Result<WasmSignature, AllocError>
    ensures { IfOk result (λ s. signature_view s ≡
        flatten_functype (flats_in flats.now) abi (function_view function.now)) }
{
    let params = flat_fields(alloc, flats, &function.params)?;
    let results = flat_payload(flats, function.result);
    core_of(alloc, abi, function, params, results)
}
