//! The exports of core modules.

ghost use Rattle.std.specs.Prelude.{OnOk};
ghost use Rattle.wc_resolve.specs.Views.{key_view};
ghost use Rattle.wc_record.specs.Exports.{key_and_name_json};
ghost use Rattle.wc_record.specs.Objects.{PutsJson};

use crate::imports::{put_interface_function, put_world_function};
use crate::objects::{
    begin_object, end_object, put_kind, put_kind_with, put_member, put_plain_kind,
};
use crate::to_json::ToJson;
use json::Writer;
use std::alloc::AllocError;
use wc_names::Export;
use wc_resolve::WorldKey;

/// Writes what belongs to the function of this name of the interface of a key.
fn put_key_and_name(
    out: &mut Writer,
    kind: &str,
    key: &WorldKey,
    name: &str,
) -> Result<(), AllocError>
    ensures { OnOk result (PutsJson out.old out.new
        (key_and_name_json kind.now (key_view key.now) name.now)) }
{
    begin_object(out)?;
    put_kind(out, kind)?;
    put_member(out, "key", key)?;
    put_member(out, "name", &name)?;
    end_object(out)
}

impl ToJson for Export {
    ghost use Rattle.wc_names.specs.ExportViews.{ExportView, export_view};
    ghost use Rattle.wc_record.specs.Exports.{export_json};

    ghost View = { ExportView };

    ghost view = { export_view };

    ghost json = { export_json };

    fn write(&self, out: &mut Writer) -> Result<(), AllocError> {
        match self {
            Export::WorldFunc(key, name, abi) => { put_world_function(out, key, name, *abi) }
            Export::WorldFuncPostReturn(key) => {
                put_kind_with(out, "world-func-post-return", "key", key)
            }
            Export::InterfaceFunc(key, id, name, abi) => {
                put_interface_function(out, key, *id, name, *abi)
            }
            Export::InterfaceFuncPostReturn(key, name) => {
                put_key_and_name(out, "interface-func-post-return", key, name)
            }
            Export::ResourceDtor(id) => put_kind_with(out, "resource-dtor", "type", id),
            Export::Memory(ty) => put_kind_with(out, "memory", "type", ty),
            Export::GeneralPurposeRealloc => put_plain_kind(out, "general-purpose-realloc"),
            Export::GeneralPurposeExportRealloc => {
                put_plain_kind(out, "general-purpose-export-realloc")
            }
            Export::GeneralPurposeImportRealloc => {
                put_plain_kind(out, "general-purpose-import-realloc")
            }
            Export::Initialize => put_plain_kind(out, "initialize"),
            Export::ReallocForAdapter => put_plain_kind(out, "realloc-for-adapter"),
            Export::WorldFuncCallback(key) => {
                put_kind_with(out, "world-func-callback", "key", key)
            }
            Export::InterfaceFuncCallback(key, name) => {
                put_key_and_name(out, "interface-func-callback", key, name)
            }
            Export::IndirectFunctionTable => put_plain_kind(out, "indirect-function-table"),
            Export::WasmTaskHook => put_plain_kind(out, "wasm-task-hook"),
        }
    }
}
