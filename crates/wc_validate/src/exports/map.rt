//! Recorded exports, and what is looked up in them.

ghost use Rattle.std.specs.Prelude.{◌≡◌, [], IfOk, map, option_copied};
ghost use Rattle.std.specs.Option.{option_and_then, option_map};
ghost use Rattle.wc_names.specs.ExportViews.{export_view};
ghost use Rattle.wc_resolve.specs.Views.{function_view, key_view};
ghost use Rattle.wc_validate.specs.Exports.Map.{abi_of, asked, export_entry, first_name, first_that, is_adapter_realloc, is_callback, is_destructor, is_export_realloc, is_function, is_function_table, is_import_realloc, is_initialize, is_memory, is_post_return, is_realloc, is_task_hook, memory_of, own_or_general, realloc_names};
ghost use Rattle.wc_validate.specs.Exports.Iter.{exports_left, reallocs_left};

use crate::exports::first_exports::FirstExports;
use crate::exports::iter::{Exports, Reallocs};
use std::alloc::{AllocError, Global};
use std::marker::Model;
use wc_maps::{Map, Seed};
use wc_names::Export;
use wc_read::MemoryType;
use wc_resolve::{AbiVariant, Function, InterfaceId, TypeId, WorldKey};

/// A query for an export.
#[derive(Clone, Copy)]
pub(crate) enum Query<'a> {
    /// A function under a key, of this name.
    Function(&'a WorldKey, &'a str),
    PostReturn(&'a WorldKey, &'a str),
    Callback(&'a WorldKey, &'a str),
    Destructor(TypeId),
    Memory,
    FunctionTable,
    TaskHook,
    Initialize,
    Realloc,
    ExportRealloc,
    ImportRealloc,
    AdapterRealloc,
}

/// The exports of a core module, by their names, with the positions of the first ones for all that is looked up.
#[derive(Drop)]
pub struct ExportMap {
    names: Map<String, Export>,
    positions: FirstExports,
}

impl Model for ExportMap {
    ghost use Rattle.wc_validate.specs.Exports.Map.{ExportRecord, export_entry};
    ghost use Rattle.std.specs.Prelude.{map};

    ghost Value = { ExportRecord };

    ghost use Rattle.wc_validate.specs.Exports.FirstExports.{HasFirstPositions};

    ghost view = { λ m. map export_entry m.names.entries };

    ghost invariant = { λ m. HasFirstPositions m.positions (map export_entry m.names.entries) };
}

impl ExportMap {
    /// No exports. `seed`: the seed of the maps that are made.
    pub fn new(alloc: Global, seed: Seed) -> ExportMap
        ensures { result ≡ [] }
    {
        ExportMap {
            names: Map::with_hasher(alloc, seed),
            positions: FirstExports::new(alloc, seed),
        }
    }

    /// The exports that are recorded.
    ///
    /// # Errors
    ///
    /// `AllocError`: an allocation failed.
    pub(crate) fn from_names(
        alloc: Global,
        names: Map<String, Export>,
    ) -> Result<ExportMap, AllocError>
        ensures { IfOk result (λ exports. exports ≡ map export_entry names.entries) }
    {
        let positions = FirstExports::among(alloc, &names)?;
        Ok(ExportMap { names, positions })
    }

    /// The first export that is what is looked up, and its name.
    fn first(&self, query: Query<'_>) -> Option<(&str, &Export)>
        ensures { option_map (λ e. (e.0.now, export_view e.1.now)) result
            ≡ first_that (asked query.entry) self.now }
    {
        let (name, export) = self.names.get_index(self.positions.position(query)?)?;
        Some((name.as_str(), export))
    }

    /// The name of the first export that is what is looked up.
    fn first_name(&self, query: Query<'_>) -> Option<&str>
        ensures { option_copied result ≡ first_name (asked query.entry) self.now }
    {
        let (name, _) = self.first(query)?;
        Some(name)
    }

    /// The name of the first of the kind, else of the first realloc for all purposes.
    fn own_or_general(&self, query: Query<'_>) -> Option<&str>
        ensures { option_copied result
            ≡ own_or_general (first_name (asked query.entry) self.now) self.now }
    {
        match self.first_name(query) {
            Some(name) => Some(name),
            None => self.general_purpose_realloc(),
        }
    }

    /// The name of the first export that runs after a function of the world, of this key, has returned, or after the
    /// function of this name of the interface of the key.
    pub fn post_return(&self, key: &WorldKey, func: &Function) -> Option<&str>
        ensures { option_copied result
            ≡ first_name (is_post_return (key_view key.now) (function_view func.now).name)
            self.now }
    {
        self.first_name(Query::PostReturn(key, &func.name))
    }

    /// The name of the first export that is the callback of a function: of the world, of this key, or of this name of
    /// the interface of the key.
    pub fn callback(&self, key: &WorldKey, func: &Function) -> Option<&str>
        ensures { option_copied result
            ≡ first_name (is_callback (key_view key.now) (function_view func.now).name) self.now }
    {
        self.first_name(Query::Callback(key, &func.name))
    }

    /// How the first export for a function of this name, under this key, is lifted.
    pub fn abi(&self, key: &WorldKey, func: &Function) -> Option<AbiVariant>
        ensures { result ≡ option_and_then (λ e. abi_of e.1)
            (first_that (is_function (key_view key.now) (function_view func.now).name) self.now) }
    {
        match self.first(Query::Function(key, &func.name))?.1 {
            Export::WorldFunc(_, _, abi) => Some(*abi),
            Export::InterfaceFunc(_, _, _, abi) => Some(*abi),
            _ => None,
        }
    }

    /// The name of the first realloc for all purposes that have none of their own.
    pub fn general_purpose_realloc(&self) -> Option<&str>
        ensures { option_copied result ≡ first_name is_realloc self.now }
    {
        self.first_name(Query::Realloc)
    }

    /// The name of the first realloc for the parameters of exports, else of the first for all purposes. The function
    /// makes no difference.
    pub fn export_realloc_for(&self, _key: &WorldKey, _func: &str) -> Option<&str>
        ensures { option_copied result
            ≡ own_or_general (first_name is_export_realloc self.now) self.now }
    {
        self.own_or_general(Query::ExportRealloc)
    }

    /// The name of the first realloc for the results of imports, else of the first for all purposes.
    pub fn import_realloc_fallback(&self) -> Option<&str>
        ensures { option_copied result
            ≡ own_or_general (first_name is_import_realloc self.now) self.now }
    {
        self.own_or_general(Query::ImportRealloc)
    }

    /// The name of the first realloc for the results of imports, else of the first for all purposes. The function makes
    /// no difference.
    pub fn import_realloc_for(&self, _interface: Option<InterfaceId>, _func: &str) -> Option<&str>
        ensures { option_copied result
            ≡ own_or_general (first_name is_import_realloc self.now) self.now }
    {
        self.import_realloc_fallback()
    }

    /// The name of the first realloc for adapters, else of the first for all purposes.
    pub fn realloc_to_import_into_adapter(&self) -> Option<&str>
        ensures { option_copied result
            ≡ own_or_general (first_name is_adapter_realloc self.now) self.now }
    {
        self.own_or_general(Query::AdapterRealloc)
    }

    /// The name and the type of the first memory.
    pub fn memory(&self) -> Option<(&str, MemoryType)>
        ensures { option_map (λ m. (m.0.now, m.1)) result
            ≡ option_and_then memory_of (first_that is_memory self.now) }
    {
        match self.first(Query::Memory)? {
            (name, Export::Memory(ty)) => Some((name, *ty)),
            _ => None,
        }
    }

    /// The name of the first table of functions.
    pub fn indirect_function_table(&self) -> Option<&str>
        ensures { option_copied result ≡ first_name is_function_table self.now }
    {
        self.first_name(Query::FunctionTable)
    }

    /// The name of the first export that is called as tasks begin and end.
    pub fn wasm_task_hook(&self) -> Option<&str>
        ensures { option_copied result ≡ first_name is_task_hook self.now }
    {
        self.first_name(Query::TaskHook)
    }

    /// The name of the first export that is called before all others.
    pub fn initialize(&self) -> Option<&str>
        ensures { option_copied result ≡ first_name is_initialize self.now }
    {
        self.first_name(Query::Initialize)
    }

    /// The name of the first destructor of a resource.
    pub fn resource_dtor(&self, ty: TypeId) -> Option<&str>
        ensures { option_copied result ≡ first_name (is_destructor ty.0) self.now }
    {
        self.first_name(Query::Destructor(ty))
    }

    /// The names of the reallocs that a canonical option can name, in order. A realloc for adapters is none: it is only
    /// imported by them.
    pub fn reallocs(&self) -> Reallocs<'_>
        ensures { reallocs_left result ≡ realloc_names self.now }
    {
        Reallocs {
            names: self.names.iter(),
        }
    }

    /// All exports with their names, in order.
    pub fn iter(&self) -> Exports<'_>
        ensures { exports_left result ≡ self.now }
    {
        Exports {
            names: self.names.iter(),
        }
    }
}
