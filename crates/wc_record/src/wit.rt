//! Ids, keys of worlds, ways to call functions, and core signatures.

ghost use Rattle.std.specs.Prelude.{◌≡◌, OnOk, ◌∷◌, []};
ghost use Rattle.wc_texts.specs.Shapes.{object_of};
ghost use Rattle.wc_record.specs.Objects.{PutsJson};
ghost use Rattle.wc_record.specs.Wit.{abi_text, encoding_text, wasm_type_text};

use crate::objects::{begin_object, end_object, put_list_member, put_member};
use crate::to_json::ToJson;
use json::Writer;
use std::alloc::AllocError;
use wc_encoder::StringEncoding;
use wc_resolve::{AbiVariant, InterfaceId, TypeId, WasmSignature, WasmType, WorldKey};

impl ToJson for InterfaceId {
    ghost use Rattle.std.specs.Prelude.{ℕ};
    ghost use Rattle.wc_texts.specs.Shapes.{number_json};

    ghost View = { ℕ };

    ghost view = { λ id. id.0 };

    ghost json = { number_json };

    fn write(&self, out: &mut Writer) -> Result<(), AllocError> {
        self.0.write(out)
    }
}

impl ToJson for TypeId {
    ghost use Rattle.std.specs.Prelude.{ℕ};
    ghost use Rattle.wc_texts.specs.Shapes.{number_json};

    ghost View = { ℕ };

    ghost view = { λ id. id.0 };

    ghost json = { number_json };

    fn write(&self, out: &mut Writer) -> Result<(), AllocError> {
        self.0.write(out)
    }
}

/// Writes an object of one member.
fn put_only_member<T: ToJson>(out: &mut Writer, name: &str, value: &T) -> Result<(), AllocError>
    ensures { OnOk result (PutsJson out.old out.new
        (object_of ((name.now, T.json (T.view value.now)) ∷ []))) }
{
    begin_object(out)?;
    put_member(out, name, value)?;
    end_object(out)
}

impl ToJson for WorldKey {
    ghost use Rattle.wc_resolve.specs.Views.{KeyView, key_view};
    ghost use Rattle.wc_record.specs.Wit.{key_json};

    ghost View = { KeyView };

    ghost view = { key_view };

    ghost json = { key_json };

    fn write(&self, out: &mut Writer) -> Result<(), AllocError> {
        match self {
            WorldKey::Name(name) => put_only_member(out, "name", name),
            WorldKey::Interface(id) => put_only_member(out, "interface", id),
        }
    }
}

/// The name of a way to import or export a function.
fn abi_text(abi: AbiVariant) -> &'static str
    ensures { result.now ≡ abi_text abi }
{
    match abi {
        AbiVariant::GuestImport => "guest-import",
        AbiVariant::GuestExport => "guest-export",
        AbiVariant::GuestImportAsync => "guest-import-async",
        AbiVariant::GuestExportAsync => "guest-export-async",
        AbiVariant::GuestExportAsyncStackful => "guest-export-async-stackful",
    }
}

impl ToJson for AbiVariant {
    ghost use Rattle.wc_resolve.specs.declared.functions.AbiVariant.{AbiVariant as abi_variant};
    ghost use Rattle.wc_record.specs.Wit.{abi_json};

    ghost View = { abi_variant };

    ghost view = { λ abi. abi };

    ghost json = { abi_json };

    fn write(&self, out: &mut Writer) -> Result<(), AllocError> {
        out.string(abi_text(*self))
    }
}

/// The name of a type of core parameters and results.
fn wasm_type_text(ty: WasmType) -> &'static str
    ensures { result.now ≡ wasm_type_text ty }
{
    match ty {
        WasmType::I32 => "i32",
        WasmType::I64 => "i64",
        WasmType::F32 => "f32",
        WasmType::F64 => "f64",
        WasmType::Pointer => "pointer",
        WasmType::PointerOrI64 => "pointer-or-i64",
        WasmType::Length => "length",
    }
}

impl ToJson for WasmType {
    ghost use Rattle.wc_resolve.specs.declared.flat.WasmType.{WasmType as wasm_type};
    ghost use Rattle.wc_record.specs.Wit.{wasm_type_json};

    ghost View = { wasm_type };

    ghost view = { λ t. t };

    ghost json = { wasm_type_json };

    fn write(&self, out: &mut Writer) -> Result<(), AllocError> {
        out.string(wasm_type_text(*self))
    }
}

impl ToJson for WasmSignature {
    ghost use Rattle.wc_resolve.specs.Signature.{SignatureView, signature_view};
    ghost use Rattle.wc_record.specs.Wit.{signature_json};

    ghost View = { SignatureView };

    ghost view = { signature_view };

    ghost json = { signature_json };

    fn write(&self, out: &mut Writer) -> Result<(), AllocError> {
        begin_object(out)?;
        put_list_member(out, "params", &self.params)?;
        put_list_member(out, "results", &self.results)?;
        put_member(out, "indirect_params", &self.indirect_params)?;
        put_member(out, "retptr", &self.retptr)?;
        end_object(out)
    }
}

/// `utf8`, `utf16` or `compact-utf16`.
fn encoding_text(encoding: StringEncoding) -> &'static str
    ensures { result.now ≡ encoding_text encoding }
{
    match encoding {
        StringEncoding::UTF8 => "utf8",
        StringEncoding::UTF16 => "utf16",
        StringEncoding::CompactUTF16 => "compact-utf16",
    }
}

impl ToJson for StringEncoding {
    ghost use Rattle.wc_adapters.specs.declared.encoding.StringEncoding.{StringEncoding as string_encoding};
    ghost use Rattle.wc_record.specs.Wit.{encoding_json};

    ghost View = { string_encoding };

    ghost view = { λ e. e };

    ghost json = { encoding_json };

    fn write(&self, out: &mut Writer) -> Result<(), AllocError> {
        out.string(encoding_text(*self))
    }
}
