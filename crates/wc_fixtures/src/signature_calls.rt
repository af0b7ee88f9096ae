//! Core signatures.

use wc_lines::input::{Stop, bad_row};
use wc_lines::lines::Lines;
use wc_lines::table::named;
use wc_resolve::{AbiVariant, WasmSignature, WasmType};

/// The words of the variants.
const VARIANTS: [(&str, AbiVariant); 5] = [
    ("GuestImport", AbiVariant::GuestImport),
    ("GuestExport", AbiVariant::GuestExport),
    ("GuestImportAsync", AbiVariant::GuestImportAsync),
    ("GuestExportAsync", AbiVariant::GuestExportAsync),
    (
        "GuestExportAsyncStackful",
        AbiVariant::GuestExportAsyncStackful,
    ),
];

/// The variant of the ABI that a word names.
pub fn abi_of(word: &str, out: &mut Lines) -> Result<AbiVariant, Stop> {
    match named(&VARIANTS, word) {
        Some(abi) => Ok(abi),
        None => Err(bad_row(out, "no AbiVariant", word)),
    }
}

fn core_word(ty: WasmType) -> &'static str {
    match ty {
        WasmType::I32 => " i32",
        WasmType::I64 => " i64",
        WasmType::F32 => " f32",
        WasmType::F64 => " f64",
        WasmType::Pointer => " pointer",
        WasmType::PointerOrI64 => " pointer-or-i64",
        WasmType::Length => " length",
    }
}

/// A line: a word, and the core types after it.
fn put_core(out: &mut Lines, word: &str, types: &[WasmType]) {
    out.push_str(word);
    for ty in types {
        out.push_str(core_word(*ty));
    }
    out.push('\n');
}

/// The parameters and the results, a line each, and a line for each flag that is set.
pub(crate) fn put_signature(out: &mut Lines, signature: &WasmSignature) {
    put_core(out, "params", &signature.params);
    put_core(out, "results", &signature.results);
    if signature.indirect_params {
        out.push_str("indirect_params\n");
    }
    if signature.retptr {
        out.push_str("retptr\n");
    }
}
