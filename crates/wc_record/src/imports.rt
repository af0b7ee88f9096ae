//! The imports of core modules.

ghost use Rattle.std.specs.Prelude.{OnOk};
ghost use Rattle.std.specs.Option.{option_map};
ghost use Rattle.wc_read.specs.Types.{func_type_value};
ghost use Rattle.wc_resolve.specs.Dependencies.{id_of_interface};
ghost use Rattle.wc_resolve.specs.Views.{key_view};
ghost use Rattle.wc_names.specs.Views.{adapter_export, main_module_export, payload_view, typed};
ghost use Rattle.wc_record.specs.Imports.{async_value_json, import_json, imported_drop_json, interface_function_json, key_and_type_json, payload_type_json, slot_json, task_return_json, world_function_json};
ghost use Rattle.wc_record.specs.Objects.{PutsJson};

use crate::objects::{
    begin_object, end_object, put_kind, put_kind_with, put_member, put_plain_kind,
};
use crate::to_json::ToJson;
use json::Writer;
use std::alloc::AllocError;
use wc_names::{Import, PayloadInfo, PayloadType};
use wc_read::{ExportKind, FuncType, ValType};
use wc_resolve::{AbiVariant, InterfaceId, TypeId, WorldKey};

/// Writes `{"kind": "world-func", ..}`: a function that the world imports under its own key.
pub(crate) fn put_world_function(
    out: &mut Writer,
    key: &WorldKey,
    name: &str,
    abi: AbiVariant,
) -> Result<(), AllocError>
    ensures { OnOk result (PutsJson out.old out.new
        (world_function_json (key_view key.now) name.now abi)) }
{
    begin_object(out)?;
    put_kind(out, "world-func")?;
    put_member(out, "key", key)?;
    put_member(out, "name", &name)?;
    put_member(out, "abi", &abi)?;
    end_object(out)
}

/// Writes `{"kind": "interface-func", ..}`: a function, under the key and the id of its interface.
pub(crate) fn put_interface_function(
    out: &mut Writer,
    key: &WorldKey,
    id: InterfaceId,
    name: &str,
    abi: AbiVariant,
) -> Result<(), AllocError>
    ensures { OnOk result (PutsJson out.old out.new
        (interface_function_json (key_view key.now) id.0 name.now abi)) }
{
    begin_object(out)?;
    put_kind(out, "interface-func")?;
    put_member(out, "key", key)?;
    put_member(out, "interface", &id)?;
    put_member(out, "name", &name)?;
    put_member(out, "abi", &abi)?;
    end_object(out)
}

/// Writes `resource.drop` of an imported resource.
fn put_imported_drop(
    out: &mut Writer,
    key: &WorldKey,
    interface: Option<InterfaceId>,
    id: TypeId,
) -> Result<(), AllocError>
    ensures { OnOk result (PutsJson out.old out.new
        (imported_drop_json (key_view key.now) (option_map id_of_interface interface) id.0)) }
{
    begin_object(out)?;
    put_kind(out, "imported-resource-drop")?;
    put_member(out, "key", key)?;
    put_member(out, "interface", &interface)?;
    put_member(out, "type", &id)?;
    end_object(out)
}

/// Writes a built-in of an exported resource.
fn put_key_and_type(
    out: &mut Writer,
    kind: &str,
    key: &WorldKey,
    id: TypeId,
) -> Result<(), AllocError>
    ensures { OnOk result (PutsJson out.old out.new
        (key_and_type_json kind.now (key_view key.now) id.0)) }
{
    begin_object(out)?;
    put_kind(out, kind)?;
    put_member(out, "key", key)?;
    put_member(out, "type", &id)?;
    end_object(out)
}

/// Writes a function that an adapter exports.
fn put_adapter_export(
    out: &mut Writer,
    adapter: &str,
    func: &str,
    ty: &FuncType,
) -> Result<(), AllocError>
    ensures { OnOk result (PutsJson out.old out.new
        (import_json (adapter_export adapter.now func.now (func_type_value ty.now)))) }
{
    begin_object(out)?;
    put_kind(out, "adapter-export")?;
    put_member(out, "adapter", &adapter)?;
    put_member(out, "func", &func)?;
    put_member(out, "type", ty)?;
    end_object(out)
}

/// Writes an export of the main module that is no memory.
fn put_main_module_export(out: &mut Writer, name: &str, kind: ExportKind) -> Result<(), AllocError>
    ensures { OnOk result (PutsJson out.old out.new
        (import_json (main_module_export name.now kind))) }
{
    begin_object(out)?;
    put_kind(out, "main-module-export")?;
    put_member(out, "name", &name)?;
    put_member(out, "export_kind", &kind)?;
    end_object(out)
}

/// Writes `task.return` of an exported function.
fn put_task_return(
    out: &mut Writer,
    key: &WorldKey,
    interface: Option<InterfaceId>,
    function: &str,
) -> Result<(), AllocError>
    ensures { OnOk result (PutsJson out.old out.new (task_return_json (key_view key.now)
        (option_map id_of_interface interface) function.now)) }
{
    begin_object(out)?;
    put_kind(out, "exported-task-return")?;
    put_member(out, "key", key)?;
    put_member(out, "interface", &interface)?;
    put_member(out, "function", &function)?;
    end_object(out)
}

/// Writes `context.get` or `context.set`.
fn put_slot(out: &mut Writer, kind: &str, ty: ValType, slot: u32) -> Result<(), AllocError>
    ensures { OnOk result (PutsJson out.old out.new (slot_json kind.now ty slot)) }
{
    begin_object(out)?;
    put_kind(out, kind)?;
    put_member(out, "type", &ty)?;
    put_member(out, "slot", &slot)?;
    end_object(out)
}

/// Writes a future or stream type of the `Resolve`, and the name of a function that has it.
fn put_typed(out: &mut Writer, id: TypeId, function: &str) -> Result<(), AllocError>
    ensures { OnOk result (PutsJson out.old out.new
        (payload_type_json (typed id.0 function.now))) }
{
    begin_object(out)?;
    put_kind(out, "typed")?;
    put_member(out, "type", &id)?;
    put_member(out, "function", &function)?;
    end_object(out)
}

impl ToJson for PayloadType {
    ghost use Rattle.wc_names.specs.Views.{PayloadTypeView, payload_type_view};
    ghost use Rattle.wc_record.specs.Imports.{payload_type_json};

    ghost View = { PayloadTypeView };

    ghost view = { payload_type_view };

    ghost json = { payload_type_json };

    fn write(&self, out: &mut Writer) -> Result<(), AllocError> {
        match self {
            PayloadType::Typed { id, function } => put_typed(out, *id, function),
            PayloadType::UnitFuture => put_plain_kind(out, "unit-future"),
            PayloadType::UnitStream => put_plain_kind(out, "unit-stream"),
        }
    }
}

impl ToJson for PayloadInfo {
    ghost use Rattle.wc_names.specs.Views.{PayloadView, payload_view};
    ghost use Rattle.wc_record.specs.Imports.{payload_json};

    ghost View = { PayloadView };

    ghost view = { payload_view };

    ghost json = { payload_json };

    fn write(&self, out: &mut Writer) -> Result<(), AllocError> {
        begin_object(out)?;
        put_member(out, "name", &self.name)?;
        put_member(out, "type", &self.ty)?;
        put_member(out, "key", &self.key)?;
        put_member(out, "interface", &self.interface)?;
        put_member(out, "imported", &self.imported)?;
        end_object(out)
    }
}

/// Writes a built-in of a future or stream.
fn put_async_value(
    out: &mut Writer,
    kind: &str,
    is_async: bool,
    info: &PayloadInfo,
) -> Result<(), AllocError>
    ensures { OnOk result (PutsJson out.old out.new
        (async_value_json kind.now is_async (payload_view info.now))) }
{
    begin_object(out)?;
    put_kind(out, kind)?;
    put_member(out, "async", &is_async)?;
    put_member(out, "payload", info)?;
    end_object(out)
}

impl ToJson for Import {
    ghost use Rattle.wc_names.specs.Views.{ImportView, import_view};
    ghost use Rattle.wc_record.specs.Imports.{import_json};

    ghost View = { ImportView };

    ghost view = { import_view };

    ghost json = { import_json };

    fn write(&self, out: &mut Writer) -> Result<(), AllocError> {
        match self {
            Import::WorldFunc(key, name, abi) => { put_world_function(out, key, name, *abi) }
            Import::InterfaceFunc(key, id, name, abi) => {
                put_interface_function(out, key, *id, name, *abi)
            }
            Import::ImportedResourceDrop(key, interface, id) => {
                put_imported_drop(out, key, *interface, *id)
            }
            Import::ExportedResourceDrop(key, id) => {
                put_key_and_type(out, "exported-resource-drop", key, *id)
            }
            Import::ExportedResourceNew(key, id) => {
                put_key_and_type(out, "exported-resource-new", key, *id)
            }
            Import::ExportedResourceRep(key, id) => {
                put_key_and_type(out, "exported-resource-rep", key, *id)
            }
            Import::AdapterExport { adapter, func, ty } => {
                put_adapter_export(out, adapter, func, ty)
            }
            Import::MainModuleMemory(ty) => put_kind_with(out, "main-module-memory", "type", ty),
            Import::MainModuleExport { name, kind } => put_main_module_export(out, name, *kind),
            Import::Item(item) => put_kind_with(out, "item", "item", item),
            Import::ExportedTaskReturn(key, interface, function) => {
                put_task_return(out, key, *interface, &function.name)
            }
            Import::ExportedTaskCancel => put_plain_kind(out, "exported-task-cancel"),
            Import::ContextGet { ty, slot } => put_slot(out, "context-get", *ty, *slot),
            Import::ContextSet { ty, slot } => put_slot(out, "context-set", *ty, *slot),
            Import::TlsBaseGet { ty } => put_kind_with(out, "tls-base-get", "type", ty),
            Import::TlsBaseSet { ty } => put_kind_with(out, "tls-base-set", "type", ty),
            Import::ErrorContextNew { encoding } => {
                put_kind_with(out, "error-context-new", "encoding", encoding)
            }
            Import::ErrorContextDebugMessage { encoding } => {
                put_kind_with(out, "error-context-debug-message", "encoding", encoding)
            }
            Import::ErrorContextDrop => put_plain_kind(out, "error-context-drop"),
            Import::BackpressureInc => put_plain_kind(out, "backpressure-inc"),
            Import::BackpressureDec => put_plain_kind(out, "backpressure-dec"),
            Import::WaitableSetNew => put_plain_kind(out, "waitable-set-new"),
            Import::WaitableSetWait => put_plain_kind(out, "waitable-set-wait"),
            Import::WaitableSetPoll => put_plain_kind(out, "waitable-set-poll"),
            Import::WaitableSetDrop => put_plain_kind(out, "waitable-set-drop"),
            Import::WaitableJoin => put_plain_kind(out, "waitable-join"),
            Import::SubtaskDrop => put_plain_kind(out, "subtask-drop"),
            Import::SubtaskCancel { async_ } => {
                put_kind_with(out, "subtask-cancel", "async", async_)
            }
            Import::ThreadIndex => put_plain_kind(out, "thread-index"),
            Import::ThreadNewIndirect => put_plain_kind(out, "thread-new-indirect"),
            Import::ThreadResumeLater => put_plain_kind(out, "thread-resume-later"),
            Import::ThreadSuspend => put_plain_kind(out, "thread-suspend"),
            Import::ThreadYield => put_plain_kind(out, "thread-yield"),
            Import::ThreadSuspendThenResume => put_plain_kind(out, "thread-suspend-then-resume"),
            Import::ThreadYieldThenResume => put_plain_kind(out, "thread-yield-then-resume"),
            Import::ThreadSuspendThenPromote => put_plain_kind(out, "thread-suspend-then-promote"),
            Import::ThreadYieldThenPromote => put_plain_kind(out, "thread-yield-then-promote"),
            Import::StreamNew(info) => put_async_value(out, "stream-new", false, info),
            Import::StreamRead { async_, info } => {
                put_async_value(out, "stream-read", *async_, info)
            }
            Import::StreamWrite { async_, info } => {
                put_async_value(out, "stream-write", *async_, info)
            }
            Import::StreamForward(info) => put_async_value(out, "stream-forward", false, info),
            Import::StreamCancelRead { info, async_ } => {
                put_async_value(out, "stream-cancel-read", *async_, info)
            }
            Import::StreamCancelWrite { info, async_ } => {
                put_async_value(out, "stream-cancel-write", *async_, info)
            }
            Import::StreamDropReadable(info) => {
                put_async_value(out, "stream-drop-readable", false, info)
            }
            Import::StreamDropWritable(info) => {
                put_async_value(out, "stream-drop-writable", false, info)
            }
            Import::FutureNew(info) => put_async_value(out, "future-new", false, info),
            Import::FutureRead { async_, info } => {
                put_async_value(out, "future-read", *async_, info)
            }
            Import::FutureWrite { async_, info } => {
                put_async_value(out, "future-write", *async_, info)
            }
            Import::FutureForward(info) => put_async_value(out, "future-forward", false, info),
            Import::FutureCancelRead { info, async_ } => {
                put_async_value(out, "future-cancel-read", *async_, info)
            }
            Import::FutureCancelWrite { info, async_ } => {
                put_async_value(out, "future-cancel-write", *async_, info)
            }
            Import::FutureDropReadable(info) => {
                put_async_value(out, "future-drop-readable", false, info)
            }
            Import::FutureDropWritable(info) => {
                put_async_value(out, "future-drop-writable", false, info)
            }
        }
    }
}
