//! The standard scheme.

use crate::interfaces::standard_interface;
use crate::texts::before;
use crate::{
    ExportNames, ExportSyntax, Import, InterfaceNames, MaybeAsyncLowered, NameIndexes,
    NameMangling, PayloadLookupContext,
};
use std::alloc::{AllocError, Global};
use wc_adapters::StringEncoding;
use wc_maps::{Map, Set};
use wc_read::{FuncType, ValType};
use wc_resolve::{
    AbiVariant, Function, InterfaceId, Resolve, TypeId, WorldId, WorldItem, WorldKey,
};

/// The standard scheme (component model, pull request 378), after `cm32p2`: `|my:demo/host@1` is the module of an
/// interface, and `file_drop` drops a resource `file`. It has no names for asynchronous functions and their built-ins.
#[derive(Drop)]
pub struct Standard;

impl NameMangling for Standard {
    ghost use Rattle.wc_names.specs.Mangling.{standard};

    ghost scheme = { λ _. standard };

    fn import_root(&self) -> &str {
        ""
    }

    fn import_non_root_prefix(&self) -> &str {
        "|"
    }

    fn import_exported_intrinsic_prefix(&self) -> &str {
        "_ex_"
    }

    fn export_memory(&self) -> &str {
        "_memory"
    }

    fn export_initialize(&self) -> &str {
        "_initialize"
    }

    fn export_realloc(&self) -> &str {
        "_realloc"
    }

    fn export_indirect_function_table(&self) -> Option<&str> {
        None
    }

    fn export_wasm_task_hook(&self) -> Option<&str> {
        None
    }

    fn resource_drop_name<'a>(&self, name: &'a str) -> Option<&'a str> {
        before(name, "_drop")
    }

    fn resource_new_name<'a>(&self, name: &'a str) -> Option<&'a str> {
        before(name, "_new")
    }

    fn resource_rep_name<'a>(&self, name: &'a str) -> Option<&'a str> {
        before(name, "_rep")
    }

    fn task_return_name<'a>(&self, _name: &'a str) -> Option<&'a str> {
        None
    }

    fn task_cancel(&self, _name: &str) -> bool {
        false
    }

    fn backpressure_inc(&self, _name: &str) -> bool {
        false
    }

    fn backpressure_dec(&self, _name: &str) -> bool {
        false
    }

    fn waitable_set_new(&self, _name: &str) -> bool {
        false
    }

    fn waitable_set_drop(&self, _name: &str) -> bool {
        false
    }

    fn waitable_join(&self, _name: &str) -> bool {
        false
    }

    fn subtask_drop(&self, _name: &str) -> bool {
        false
    }

    fn error_context_drop(&self, _name: &str) -> bool {
        false
    }

    fn waitable_set_wait(&self, _name: &str) -> Option<ValType> {
        None
    }

    fn waitable_set_poll(&self, _name: &str) -> Option<ValType> {
        None
    }

    fn subtask_cancel(&self, _name: &str) -> Option<MaybeAsyncLowered<()>> {
        None
    }

    fn async_lift_callback_name<'a>(&self, _name: &'a str) -> Option<&'a str> {
        None
    }

    fn async_lift_name<'a>(&self, _name: &'a str) -> Option<&'a str> {
        None
    }

    fn async_lift_stackful_name<'a>(&self, _name: &'a str) -> Option<&'a str> {
        None
    }

    fn error_context_new(&self, _name: &str) -> Option<StringEncoding> {
        None
    }

    fn error_context_debug_message(&self, _name: &str) -> Option<StringEncoding> {
        None
    }

    fn context_get(&self, _name: &str) -> Option<(ValType, u32)> {
        None
    }

    fn context_set(&self, _name: &str) -> Option<(ValType, u32)> {
        None
    }

    fn thread_intrinsic(&self, _name: &str) -> Option<Import> {
        None
    }

    fn world_key_name_and_abi<'a>(&self, name: &'a str) -> (&'a str, AbiVariant) {
        (name, AbiVariant::GuestImport)
    }

    fn interface_function_name_and_abi<'a>(&self, name: &'a str) -> (&'a str, AbiVariant) {
        (name, AbiVariant::GuestImport)
    }

    fn payload_intrinsic(
        &self,
        _alloc: Global,
        _context: &PayloadLookupContext<'_>,
        _name: &str,
    ) -> Result<Option<Import>, AllocError> {
        Ok(None)
    }

    fn payload_intrinsic_in_world(
        &self,
        _alloc: Global,
        _context: &PayloadLookupContext<'_>,
        _world_id: WorldId,
        _name: &str,
    ) -> Result<Option<Import>, AllocError> {
        Ok(None)
    }

    fn module_to_interface(
        &self,
        alloc: Global,
        module: &str,
        resolve: &Resolve,
        items: &Map<WorldKey, WorldItem>,
    ) -> Result<Option<(WorldKey, InterfaceId)>, AllocError> {
        standard_interface(alloc, resolve, items, module)
    }

    fn env_import(&self, _name: &str, _ty: &FuncType) -> Option<Import> {
        None
    }

    fn strip_post_return<'a>(&self, name: &'a str) -> Option<&'a str> {
        before(name, "_post")
    }

    fn match_wit_export<'a>(
        &self,
        alloc: Global,
        name: &str,
        resolve: &'a Resolve,
        world: WorldId,
        exports: &'a Set<WorldKey>,
    ) -> Result<Option<(&'a WorldKey, Option<InterfaceId>, &'a Function)>, AllocError> {
        let names = self.export_names(alloc, resolve, world, exports)?;
        names.function(alloc, name)
    }

    fn match_wit_resource_dtor<'a>(
        &self,
        alloc: Global,
        name: &str,
        resolve: &'a Resolve,
        world: WorldId,
        exports: &'a Set<WorldKey>,
    ) -> Result<Option<TypeId>, AllocError> {
        let names = self.export_names(alloc, resolve, world, exports)?;
        Ok(names.destructed(name))
    }
}

impl NameIndexes for Standard {
    fn interface_names<'a>(
        &self,
        alloc: Global,
        resolve: &'a Resolve,
        items: &'a Map<WorldKey, WorldItem>,
    ) -> Result<InterfaceNames<'a>, AllocError> {
        InterfaceNames::by_canonical_ids(alloc, resolve, items)
    }

    fn export_names<'a>(
        &self,
        alloc: Global,
        resolve: &'a Resolve,
        world: WorldId,
        exports: &'a Set<WorldKey>,
    ) -> Result<ExportNames<'a>, AllocError> {
        ExportNames::new(alloc, ExportSyntax::Standard, resolve, world, exports)
    }
}
