//! Naming schemes, and the indexes that they make.

ghost use Rattle.std.specs.Prelude.{◌≡◌, ◌↔◌, ℕ, Bool, List, All, IfOk, IsTrue, MatchOption, Some, length, map, option_copied, slice_get, ◌<◌};
ghost use Rattle.std.specs.Option.{ForSome, option_map};
ghost use Rattle.wc_read.specs.declared.types.ValType.{ValType};
ghost use Rattle.wc_read.specs.Types.{func_type_value};
ghost use Rattle.wc_adapters.specs.declared.encoding.StringEncoding.{StringEncoding};
ghost use Rattle.wc_resolve.specs.Ranges.{IsKeyIn, IsWorldIn};
ghost use Rattle.wc_resolve.specs.Roots.{id_index};
ghost use Rattle.wc_resolve.specs.Views.{key_view, world_entry, world_view};
ghost use Rattle.wc_names.specs.Builtins.{IsThreadBuiltin, NamesBuiltin, NamesThreadImport};
ghost use Rattle.wc_names.specs.Environment.{NamesEnvironment};
ghost use Rattle.wc_names.specs.ExportIndex.{names_view};
ghost use Rattle.wc_names.specs.ExportNames.{export_syntax, world_exports, NamesWorldDestructor, NamesWorldFunction};
ghost use Rattle.wc_names.specs.ExportViews.{export_target};
ghost use Rattle.wc_names.specs.Finds.{Finds};
ghost use Rattle.wc_names.specs.Imports.{NamesFunctionAs};
ghost use Rattle.wc_names.specs.InterfaceIndex.{interface_names_view};
ghost use Rattle.wc_names.specs.Interfaces.{NamesInterface, found_interface, interface_texts};
ghost use Rattle.wc_names.specs.Mangling.{export_prefix, function_table_name, initialize_name, interface_prefix, memory_name, realloc_name, root_module, task_hook_name, NamesAsyncLift, NamesCallback, NamesPostReturn, NamesResource, NamesStackfulLift, NamesTaskCancel, NamesTaskReturn, resource_drop, resource_new, resource_rep};
ghost use Rattle.wc_names.specs.Contexts.{NamesImportIn};
ghost use Rattle.wc_names.specs.Views.{Builtin, import_view, backpressure_dec, backpressure_inc, context_get, context_set, error_context_debug_message, error_context_drop, error_context_new, subtask_cancel, subtask_drop, waitable_join, waitable_set_drop, waitable_set_new, waitable_set_poll, waitable_set_wait};

use crate::{ExportNames, Import, InterfaceNames, PayloadLookupContext};
use std::alloc::{AllocError, Global};
use wc_adapters::StringEncoding;
use wc_maps::{Map, Set};
use wc_read::{FuncType, ValType};
use wc_resolve::{
    AbiVariant, Function, InterfaceId, Resolve, TypeId, WorldId, WorldItem, WorldKey,
};

/// Something, and whether its name begins with `[async-lower]`.
#[derive(Drop)]
pub struct MaybeAsyncLowered<T> {
    pub inner: T,
    /// Whether the name begins with `[async-lower]`.
    pub async_lowered: bool,
}

/// A naming scheme: the meanings of the names of a core module's imports and exports. Each function knows one kind of
/// names; which of several kinds a name has, is not decided here. If a scheme has no names for a thing, the result is
/// `None` or false.
pub trait NameMangling {
    ghost use Rattle.wc_names.specs.Mangling.{Scheme};

    ghost scheme: { Self → Scheme };

    /// The module of the functions and resources that the world itself imports, and of canonical built-ins that are of
    /// no interface.
    fn import_root(&self) -> &str
        ensures { result.now ≡ root_module (scheme self.now) };

    /// How the names of all other modules begin.
    fn import_non_root_prefix(&self) -> &str
        ensures { result.now ≡ interface_prefix (scheme self.now) };

    /// How the name of a module goes on, after that, whose built-ins are for exports.
    fn import_exported_intrinsic_prefix(&self) -> &str
        ensures { result.now ≡ export_prefix (scheme self.now) };

    /// The name of the exported memory.
    fn export_memory(&self) -> &str
        ensures { result.now ≡ memory_name (scheme self.now) };

    /// The name of the exported function that is called before all others.
    fn export_initialize(&self) -> &str
        ensures { result.now ≡ initialize_name (scheme self.now) };

    /// The name of the exported realloc.
    fn export_realloc(&self) -> &str
        ensures { result.now ≡ realloc_name (scheme self.now) };

    /// The name of the exported table of functions.
    fn export_indirect_function_table(&self) -> Option<&str>
        ensures { option_copied result ≡ function_table_name (scheme self.now) };

    /// The name of the exported function that is called as tasks begin and end.
    fn export_wasm_task_hook(&self) -> Option<&str>
        ensures { option_copied result ≡ task_hook_name (scheme self.now) };

    /// The name of the resource that `resource.drop` is for.
    fn resource_drop_name<'a>(&self, name: &'a str) -> Option<&'a str>
        ensures { Finds (option_copied result)
            (λ (r : List ℕ). NamesResource (scheme self.now) resource_drop r name.now) };

    /// The name of the resource that `resource.new` is for.
    fn resource_new_name<'a>(&self, name: &'a str) -> Option<&'a str>
        ensures { Finds (option_copied result)
            (λ (r : List ℕ). NamesResource (scheme self.now) resource_new r name.now) };

    /// The name of the resource that `resource.rep` is for.
    fn resource_rep_name<'a>(&self, name: &'a str) -> Option<&'a str>
        ensures { Finds (option_copied result)
            (λ (r : List ℕ). NamesResource (scheme self.now) resource_rep r name.now) };

    /// The name of the function that `task.return` is for.
    fn task_return_name<'a>(&self, name: &'a str) -> Option<&'a str>
        ensures { Finds (option_copied result)
            (λ (f : List ℕ). NamesTaskReturn (scheme self.now) f name.now) };

    /// Whether it is `task.cancel`.
    fn task_cancel(&self, name: &str) -> bool
        ensures { IsTrue result ↔ NamesTaskCancel (scheme self.now) name.now };

    /// Whether it is `backpressure.inc`.
    fn backpressure_inc(&self, name: &str) -> bool
        ensures { IsTrue result ↔ NamesBuiltin (scheme self.now) backpressure_inc name.now };

    /// Whether it is `backpressure.dec`.
    fn backpressure_dec(&self, name: &str) -> bool
        ensures { IsTrue result ↔ NamesBuiltin (scheme self.now) backpressure_dec name.now };

    /// Whether it is `waitable-set.new`.
    fn waitable_set_new(&self, name: &str) -> bool
        ensures { IsTrue result ↔ NamesBuiltin (scheme self.now) waitable_set_new name.now };

    /// The type of pointers of `waitable-set.wait`.
    fn waitable_set_wait(&self, name: &str) -> Option<ValType>
        ensures { Finds result
            (λ (t : ValType). NamesBuiltin (scheme self.now) (waitable_set_wait t) name.now) };

    /// The type of pointers of `waitable-set.poll`.
    fn waitable_set_poll(&self, name: &str) -> Option<ValType>
        ensures { Finds result
            (λ (t : ValType). NamesBuiltin (scheme self.now) (waitable_set_poll t) name.now) };

    /// Whether it is `waitable-set.drop`.
    fn waitable_set_drop(&self, name: &str) -> bool
        ensures { IsTrue result ↔ NamesBuiltin (scheme self.now) waitable_set_drop name.now };

    /// Whether it is `waitable.join`.
    fn waitable_join(&self, name: &str) -> bool
        ensures { IsTrue result ↔ NamesBuiltin (scheme self.now) waitable_join name.now };

    /// Whether it is `subtask.drop`.
    fn subtask_drop(&self, name: &str) -> bool
        ensures { IsTrue result ↔ NamesBuiltin (scheme self.now) subtask_drop name.now };

    /// Whether it is `subtask.cancel`, and then whether after `[async-lower]`.
    fn subtask_cancel(&self, name: &str) -> Option<MaybeAsyncLowered<()>>
        ensures { MatchOption result
            ((a : Bool) → ¬ NamesBuiltin (scheme self.now) (subtask_cancel a) name.now)
            (λ m. NamesBuiltin (scheme self.now) (subtask_cancel m.async_lowered) name.now) };

    /// The name of the exported function whose callback an export is.
    fn async_lift_callback_name<'a>(&self, name: &'a str) -> Option<&'a str>
        ensures { Finds (option_copied result)
            (λ (lifted : List ℕ). NamesCallback (scheme self.now) lifted name.now) };

    /// The name of the exported function that an export is, if it is lifted asynchronously with a callback.
    fn async_lift_name<'a>(&self, name: &'a str) -> Option<&'a str>
        ensures { Finds (option_copied result)
            (λ (lifted : List ℕ). NamesAsyncLift (scheme self.now) lifted name.now) };

    /// The name of the exported function that an export is, if it is lifted asynchronously without a callback.
    fn async_lift_stackful_name<'a>(&self, name: &'a str) -> Option<&'a str>
        ensures { Finds (option_copied result)
            (λ (lifted : List ℕ). NamesStackfulLift (scheme self.now) lifted name.now) };

    /// The encoding of `error-context.new`.
    fn error_context_new(&self, name: &str) -> Option<StringEncoding>
        ensures { Finds result (λ (e : StringEncoding).
            NamesBuiltin (scheme self.now) (error_context_new e) name.now) };

    /// The encoding of `error-context.debug-message`.
    fn error_context_debug_message(&self, name: &str) -> Option<StringEncoding>
        ensures { Finds result (λ (e : StringEncoding).
            NamesBuiltin (scheme self.now) (error_context_debug_message e) name.now) };

    /// Whether it is `error-context.drop`.
    fn error_context_drop(&self, name: &str) -> bool
        ensures { IsTrue result ↔ NamesBuiltin (scheme self.now) error_context_drop name.now };

    /// The type and the number of the slot of `context.get`.
    fn context_get(&self, name: &str) -> Option<(ValType, u32)>
        ensures { Finds result (λ (slot : ValType × ℕ).
            NamesBuiltin (scheme self.now) (context_get slot.0 slot.1) name.now) };

    /// The type and the number of the slot of `context.set`.
    fn context_set(&self, name: &str) -> Option<(ValType, u32)>
        ensures { Finds result (λ (slot : ValType × ℕ).
            NamesBuiltin (scheme self.now) (context_set slot.0 slot.1) name.now) };

    /// The built-in for threads that it is: `thread.index`, `thread.new-indirect` and the like.
    fn thread_intrinsic(&self, name: &str) -> Option<Import>
        ensures { MatchOption result
            ((b : Builtin) → IsThreadBuiltin b → ¬ NamesBuiltin (scheme self.now) b name.now)
            (λ i. NamesThreadImport (scheme self.now) name.now (import_view i)) };

    /// The name of the function that the world imports, and how it is lowered.
    fn world_key_name_and_abi<'a>(&self, name: &'a str) -> (&'a str, AbiVariant)
        ensures { NamesFunctionAs (scheme self.now) result.0.now result.1 name.now };

    /// The name of the function of an imported interface, and how it is lowered.
    fn interface_function_name_and_abi<'a>(&self, name: &'a str) -> (&'a str, AbiVariant)
        ensures { NamesFunctionAs (scheme self.now) result.0.now result.1 name.now };

    /// The built-in for futures or streams that it is. With `[async-lower]` before it, the name without that is looked
    /// up: only of operations that can be lowered asynchronously.
    ///
    /// The world must be in range of the `Resolve`, as each of its worlds is (`Resolve::well_formedness`), and the
    /// interface too (`has_interface`).
    ///
    /// # Errors
    ///
    /// `AllocError`: an allocation failed.
    fn payload_intrinsic(
        &self,
        alloc: Global,
        context: &PayloadLookupContext<'_>,
        name: &str,
    ) -> Result<Option<Import>, AllocError>
        requires world { IsWorldIn context.now.resolve.now (world_view context.now.world.now) }
        requires interface { ForSome context.now.id
            (λ id. id.0 < length context.now.resolve.now.interfaces) }
        ensures { IfOk result (λ found. Finds (option_map import_view found)
            (NamesImportIn (scheme self.now) context.now name.now)) };

    /// The built-in of `payload_intrinsic`, by the index of the context's world: the parameters of a function that
    /// the world itself imports or exports are not walked for each of its futures and streams.
    ///
    /// The world must be in range of the `Resolve`, as each of its worlds is (`Resolve::well_formedness`), the
    /// interface too (`has_interface`), and the index must be the world's.
    ///
    /// # Errors
    ///
    /// `AllocError`: an allocation failed.
    fn payload_intrinsic_in_world(
        &self,
        alloc: Global,
        context: &PayloadLookupContext<'_>,
        world_id: WorldId,
        name: &str,
    ) -> Result<Option<Import>, AllocError>
        requires world { IsWorldIn context.now.resolve.now (world_view context.now.world.now) }
        requires interface { ForSome context.now.id
            (λ id. id.0 < length context.now.resolve.now.interfaces) }
        requires listed { slice_get context.now.resolve.now.worlds world_id.0
            ≡ Some (world_view context.now.world.now) }
        ensures { IfOk result (λ found. Finds (option_map import_view found)
            (NamesImportIn (scheme self.now) context.now name.now)) };

    /// The interface that a module's name means among a world's imports or exports, and its key there. The name comes
    /// without its prefix (`import_non_root_prefix`, `import_exported_intrinsic_prefix`). For many names of one
    /// world, use `NameIndexes::interface_names`.
    ///
    /// The keys must be in range of the `Resolve` (`has_interface`).
    ///
    /// # Errors
    ///
    /// `AllocError`: an allocation failed.
    fn module_to_interface(
        &self,
        alloc: Global,
        module: &str,
        resolve: &Resolve,
        items: &Map<WorldKey, WorldItem>,
    ) -> Result<Option<(WorldKey, InterfaceId)>, AllocError>
        requires { All (λ x. IsKeyIn resolve.now x.0) (map world_entry items.now.entries) }
        ensures { IfOk result (λ found. Finds (option_map found_interface found)
            (NamesInterface (scheme self.now) resolve.now (map world_entry items.now.entries)
            «module».now)) };

    /// The import that a function of the module `env` is, by its name and by the first type of its results or
    /// parameters: that of the stack pointer, or of the pointer to a thread's local storage.
    fn env_import(&self, name: &str, ty: &FuncType) -> Option<Import>
        ensures { Finds (option_map import_view result)
            (NamesEnvironment (scheme self.now) name.now (func_type_value ty.now)) };

    /// The name of the export after which an export runs.
    fn strip_post_return<'a>(&self, name: &'a str) -> Option<&'a str>
        ensures { Finds (option_copied result)
            (λ (returned : List ℕ). NamesPostReturn (scheme self.now) returned name.now) };

    /// The function that an export with this name is for, among the exports of a world that are in an export set: the
    /// key in the set, the interface, if the function is in one, and the function. A lift is named by the part after
    /// its own prefix, and a post-return by the part before its own end (`async_lift_name`, `strip_post_return`). For
    /// many names of one set, use `NameIndexes::export_names`.
    ///
    /// The world must be in range (`has_world`). Keys that the world doesn't export have no names.
    ///
    /// # Errors
    ///
    /// `AllocError`: an allocation failed.
    fn match_wit_export<'a>(
        &self,
        alloc: Global,
        name: &str,
        resolve: &'a Resolve,
        world: WorldId,
        exports: &'a Set<WorldKey>,
    ) -> Result<Option<(&'a WorldKey, Option<InterfaceId>, &'a Function)>, AllocError>
        requires { world.0 < length resolve.now.worlds }
        ensures { IfOk result (λ found. Finds (option_map export_target found)
            (NamesWorldFunction (scheme self.now) resolve.now world.0
            (map key_view exports.now.keys) name.now)) };

    /// The resource whose destructor an export of this name is, among the interfaces of an export set that a world
    /// exports. An alias of a resource is none. For many names of one set there is `NameIndexes::export_names`.
    ///
    /// The world must be in range (`has_world`). Keys that the world doesn't export have no names.
    ///
    /// # Errors
    ///
    /// `AllocError`: an allocation failed.
    fn match_wit_resource_dtor<'a>(
        &self,
        alloc: Global,
        name: &str,
        resolve: &'a Resolve,
        world: WorldId,
        exports: &'a Set<WorldKey>,
    ) -> Result<Option<TypeId>, AllocError>
        requires { world.0 < length resolve.now.worlds }
        ensures { IfOk result (λ found. Finds (option_map id_index found)
            (NamesWorldDestructor (scheme self.now) resolve.now world.0
            (map key_view exports.now.keys) name.now)) };
}

/// A naming scheme that makes indexes, to look up many names: of the interfaces that a world imports or exports, and of
/// an export set. Their functions find what `NameMangling::module_to_interface`, `match_wit_export` and
/// `match_wit_resource_dtor` find of one name at a time.
///
/// `InterfaceNames` and `ExportNames` are made in this crate alone; any crate can implement `NameMangling`.
pub trait NameIndexes: NameMangling {
    /// The interfaces of a world's imports or exports by their texts, to look up many of them
    /// (`InterfaceNames::interface`). It is made in a time linear in the keys, and a text is looked up in a time that
    /// doesn't depend on them.
    ///
    /// The keys must be in range of the `Resolve` (`has_interface`).
    ///
    /// # Errors
    ///
    /// `AllocError`: an allocation failed.
    fn interface_names<'a>(
        &self,
        alloc: Global,
        resolve: &'a Resolve,
        items: &'a Map<WorldKey, WorldItem>,
    ) -> Result<InterfaceNames<'a>, AllocError>
        requires { All (λ x. IsKeyIn resolve.now x.0) (map world_entry items.now.entries) }
        ensures { IfOk result (λ names. names ≡ interface_names_view
            (interface_texts (Self.scheme self.now)) resolve.now
            (map world_entry items.now.entries)) };

    /// The names of the exports of a world that are in an export set, to look up many of them. Only keys that the world
    /// exports have names; the first key of the set that fits a name counts. It is made in a time linear in the set,
    /// and a name is looked up in a time that doesn't depend on the set.
    ///
    /// The world must be in range (`has_world`).
    ///
    /// # Errors
    ///
    /// `AllocError`: an allocation failed.
    fn export_names<'a>(
        &self,
        alloc: Global,
        resolve: &'a Resolve,
        world: WorldId,
        exports: &'a Set<WorldKey>,
    ) -> Result<ExportNames<'a>, AllocError>
        requires { world.0 < length resolve.now.worlds }
        ensures { IfOk result (λ names. names ≡ names_view (export_syntax (Self.scheme self.now))
            resolve.now (world_exports resolve.now world.0) (map key_view exports.now.keys)) };
}
