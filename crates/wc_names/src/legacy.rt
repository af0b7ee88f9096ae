//! The legacy scheme.

ghost use Rattle.std.specs.Prelude.{[]};
ghost use Rattle.wc_names.specs.Imports.{NamesFunctionAs};
ghost use Rattle.wc_names.specs.Mangling.{legacy};

use crate::environment::environment_import;
use crate::interfaces::legacy_interface;
use crate::payloads::async_value_import;
use crate::texts::{pointer_type, slot};
use crate::{
    ExportNames, ExportSyntax, Import, InterfaceNames, MaybeAsyncLowered, NameIndexes,
    NameMangling, PayloadLookupContext,
};
use std::alloc::{AllocError, Global};
use wc_adapters::StringEncoding;
use wc_maps::{Map, Set};
use wc_read::{FuncType, ValType};
use wc_resolve::{
    AbiVariant, Function, InterfaceId, Resolve, TypeId, WorldId, WorldItem, WorldKey,
};
use wc_texts::strip_prefix;

/// The scheme that is older than the standard one: `my:demo/host@1.2.3` is the module of an interface, and
/// `[resource-drop]file` drops a resource `file`. `task_hook` is the name of the export that is called as tasks begin
/// and end.
#[derive(Drop)]
pub struct Legacy<'a> {
    pub task_hook: &'a str,
}

/// The name of an imported function, and how it is lowered.
fn function_name(name: &str) -> (&str, AbiVariant)
    ensures { NamesFunctionAs (legacy []) result.0.now result.1 name.now }
{
    match strip_prefix(name, "[async-lower]") {
        Some(rest) => (rest, AbiVariant::GuestImportAsync),
        None => (name, AbiVariant::GuestImport),
    }
}

impl<'h> NameMangling for Legacy<'h> {
    ghost use Rattle.wc_names.specs.Mangling.{legacy};

    ghost scheme = { λ l. legacy l.task_hook.now };

    fn import_root(&self) -> &str {
        "$root"
    }

    fn import_non_root_prefix(&self) -> &str {
        ""
    }

    fn import_exported_intrinsic_prefix(&self) -> &str {
        "[export]"
    }

    fn export_memory(&self) -> &str {
        "memory"
    }

    fn export_initialize(&self) -> &str {
        "_initialize"
    }

    fn export_realloc(&self) -> &str {
        "cabi_realloc"
    }

    fn export_indirect_function_table(&self) -> Option<&str> {
        Some("__indirect_function_table")
    }

    fn export_wasm_task_hook(&self) -> Option<&str> {
        Some(self.task_hook)
    }

    fn resource_drop_name<'a>(&self, name: &'a str) -> Option<&'a str> {
        strip_prefix(name, "[resource-drop]")
    }

    fn resource_new_name<'a>(&self, name: &'a str) -> Option<&'a str> {
        strip_prefix(name, "[resource-new]")
    }

    fn resource_rep_name<'a>(&self, name: &'a str) -> Option<&'a str> {
        strip_prefix(name, "[resource-rep]")
    }

    fn task_return_name<'a>(&self, name: &'a str) -> Option<&'a str> {
        strip_prefix(name, "[task-return]")
    }

    fn task_cancel(&self, name: &str) -> bool {
        name == "[task-cancel]"
    }

    fn backpressure_inc(&self, name: &str) -> bool {
        name == "[backpressure-inc]"
    }

    fn backpressure_dec(&self, name: &str) -> bool {
        name == "[backpressure-dec]"
    }

    fn waitable_set_new(&self, name: &str) -> bool {
        name == "[waitable-set-new]"
    }

    fn waitable_set_drop(&self, name: &str) -> bool {
        name == "[waitable-set-drop]"
    }

    fn waitable_join(&self, name: &str) -> bool {
        name == "[waitable-join]"
    }

    fn subtask_drop(&self, name: &str) -> bool {
        name == "[subtask-drop]"
    }

    fn error_context_drop(&self, name: &str) -> bool {
        name == "[error-context-drop]"
    }

    fn waitable_set_wait(&self, name: &str) -> Option<ValType> {
        pointer_type(name, "[waitable-set-wait", "]")
    }

    fn waitable_set_poll(&self, name: &str) -> Option<ValType> {
        pointer_type(name, "[waitable-set-poll", "]")
    }

    fn subtask_cancel(&self, name: &str) -> Option<MaybeAsyncLowered<()>> {
        if name == "[subtask-cancel]" {
            Some(MaybeAsyncLowered {
                inner: (),
                async_lowered: false,
            })
        } else if name == "[async-lower][subtask-cancel]" {
            Some(MaybeAsyncLowered {
                inner: (),
                async_lowered: true,
            })
        } else {
            None
        }
    }

    fn async_lift_callback_name<'a>(&self, name: &'a str) -> Option<&'a str> {
        strip_prefix(name, "[callback][async-lift]")
    }

    fn async_lift_name<'a>(&self, name: &'a str) -> Option<&'a str> {
        strip_prefix(name, "[async-lift]")
    }

    fn async_lift_stackful_name<'a>(&self, name: &'a str) -> Option<&'a str> {
        strip_prefix(name, "[async-lift-stackful]")
    }

    fn error_context_new(&self, name: &str) -> Option<StringEncoding> {
        if name == "[error-context-new-utf8]" {
            Some(StringEncoding::UTF8)
        } else if name == "[error-context-new-utf16]" {
            Some(StringEncoding::UTF16)
        } else if name == "[error-context-new-latin1+utf16]" {
            Some(StringEncoding::CompactUTF16)
        } else {
            None
        }
    }

    fn error_context_debug_message(&self, name: &str) -> Option<StringEncoding> {
        if name == "[error-context-debug-message-utf8]" {
            Some(StringEncoding::UTF8)
        } else if name == "[error-context-debug-message-utf16]" {
            Some(StringEncoding::UTF16)
        } else if name == "[error-context-debug-message-latin1+utf16]" {
            Some(StringEncoding::CompactUTF16)
        } else {
            None
        }
    }

    fn context_get(&self, name: &str) -> Option<(ValType, u32)> {
        slot(name, "[context-get-", "]")
    }

    fn context_set(&self, name: &str) -> Option<(ValType, u32)> {
        slot(name, "[context-set-", "]")
    }

    fn thread_intrinsic(&self, name: &str) -> Option<Import> {
        if name == "[thread-index]" {
            return Some(Import::ThreadIndex);
        }
        if name == "[thread-new-indirect-v0]" {
            return Some(Import::ThreadNewIndirect);
        }
        if name == "[thread-resume-later]" {
            return Some(Import::ThreadResumeLater);
        }
        if name == "[thread-suspend]" {
            return Some(Import::ThreadSuspend);
        }
        if name == "[thread-yield]" {
            return Some(Import::ThreadYield);
        }
        if name == "[thread-suspend-then-resume]" {
            return Some(Import::ThreadSuspendThenResume);
        }
        if name == "[thread-yield-then-resume]" {
            return Some(Import::ThreadYieldThenResume);
        }
        if name == "[thread-suspend-then-promote]" {
            return Some(Import::ThreadSuspendThenPromote);
        }
        if name == "[thread-yield-then-promote]" {
            return Some(Import::ThreadYieldThenPromote);
        }
        None
    }

    fn world_key_name_and_abi<'a>(&self, name: &'a str) -> (&'a str, AbiVariant) {
        function_name(name)
    }

    fn interface_function_name_and_abi<'a>(&self, name: &'a str) -> (&'a str, AbiVariant) {
        function_name(name)
    }

    fn payload_intrinsic(
        &self,
        alloc: Global,
        context: &PayloadLookupContext<'_>,
        name: &str,
    ) -> Result<Option<Import>, AllocError> {
        async_value_import(alloc, context, None, name)
    }

    fn payload_intrinsic_in_world(
        &self,
        alloc: Global,
        context: &PayloadLookupContext<'_>,
        world_id: WorldId,
        name: &str,
    ) -> Result<Option<Import>, AllocError> {
        async_value_import(alloc, context, Some(world_id), name)
    }

    fn module_to_interface(
        &self,
        alloc: Global,
        module: &str,
        resolve: &Resolve,
        items: &Map<WorldKey, WorldItem>,
    ) -> Result<Option<(WorldKey, InterfaceId)>, AllocError> {
        legacy_interface(alloc, resolve, items, module)
    }

    fn env_import(&self, name: &str, ty: &FuncType) -> Option<Import> {
        environment_import(name, ty)
    }

    fn strip_post_return<'a>(&self, name: &'a str) -> Option<&'a str> {
        strip_prefix(name, "cabi_post_")
    }

    fn match_wit_export<'a>(
        &self,
        alloc: Global,
        name: &str,
        resolve: &'a Resolve,
        world: WorldId,
        exports: &'a Set<WorldKey>,
    ) -> Result<Option<(&'a WorldKey, Option<InterfaceId>, &'a Function)>, AllocError> {
        let names = self.export_names(alloc, resolve, world, exports)?;
        names.function(alloc, name)
    }

    fn match_wit_resource_dtor<'a>(
        &self,
        alloc: Global,
        name: &str,
        resolve: &'a Resolve,
        world: WorldId,
        exports: &'a Set<WorldKey>,
    ) -> Result<Option<TypeId>, AllocError> {
        let names = self.export_names(alloc, resolve, world, exports)?;
        Ok(names.destructed(name))
    }
}

impl<'h> NameIndexes for Legacy<'h> {
    fn interface_names<'a>(
        &self,
        alloc: Global,
        resolve: &'a Resolve,
        items: &'a Map<WorldKey, WorldItem>,
    ) -> Result<InterfaceNames<'a>, AllocError> {
        InterfaceNames::by_full_ids(alloc, resolve, items)
    }

    fn export_names<'a>(
        &self,
        alloc: Global,
        resolve: &'a Resolve,
        world: WorldId,
        exports: &'a Set<WorldKey>,
    ) -> Result<ExportNames<'a>, AllocError> {
        ExportNames::new(alloc, ExportSyntax::Legacy, resolve, world, exports)
    }
}
