//! Recorded imports, and what is looked up in them.

ghost use Rattle.std.specs.Prelude.{◌≡◌, [], IfOk, List, map, ℕ};
ghost use Rattle.std.specs.Option.{option_map};
ghost use Rattle.wc_read.specs.Types.{func_type_value};
ghost use Rattle.wc_names.specs.Views.{import_view};
ghost use Rattle.wc_validate.specs.Imports.Map.{function_of, imports_in, memory_in, required_entry, required_in};
ghost use Rattle.wc_validate.specs.Imports.Instances.{instance_entry};
ghost use Rattle.wc_validate.specs.Private.Imports.AdapterFunctions.{IsFunctionAdded, IsRequiredAdded, required_at};
ghost use Rattle.wc_validate.specs.Imports.Iter.{imports_left};

use crate::imports::first_functions::FirstFunctions;
use crate::imports::instances::ImportInstance;
use crate::imports::iter::Imports;
use crate::imports::recorder::Recorder;
use std::alloc::{AllocError, Global};
use std::marker::Model;
use wc_maps::{Map, Seed};
use wc_names::Import;
use wc_read::{FuncType, MemoryType};

/// The imports of a core module, by the names of the modules that they are imported from, with the memory's type and
/// the positions of the first imports of functions of adapters.
#[derive(Drop)]
pub struct ImportMap {
    instances: Map<String, ImportInstance>,
    memory: Option<MemoryType>,
    functions: FirstFunctions,
}

impl Model for ImportMap {
    ghost use Rattle.std.specs.Prelude.{List, ℕ};
    ghost use Rattle.wc_validate.specs.Imports.Entries.{InstanceRecord};

    ghost Value = { List (List ℕ × InstanceRecord) };

    ghost use Rattle.std.specs.Prelude.{◌≡◌, map};
    ghost use Rattle.wc_validate.specs.Imports.FirstFunctions.{HasFirstFunctions};
    ghost use Rattle.wc_validate.specs.Imports.Map.{memory_in};
    ghost use Rattle.wc_validate.specs.Imports.Instances.{instance_entry};

    ghost view = { λ m. map instance_entry m.instances.entries };

    ghost invariant = { λ m. (memory_in (map instance_entry m.instances.entries) ≡ m.memory)
        × HasFirstFunctions m.functions (map instance_entry m.instances.entries) };
}

/// Adds a function with its type, if none of its name is there.
fn add_function(
    alloc: Global,
    functions: &mut Map<String, FuncType>,
    name: &str,
    ty: &FuncType,
) -> Result<(), AllocError>
    ensures { IsFunctionAdded functions.old.entries functions.new.entries name.now ty.now result }
{
    if functions.contains_key(name) {
        return Ok(());
    }
    functions.insert(String::from_str(alloc, name)?, ty.clone(alloc)?)?;
    Ok(())
}

/// The function and its type, if an import is a function of an adapter.
pub(crate) fn adapter_function(import: &Import) -> Option<(&str, &FuncType)>
    ensures { option_map (λ f. (f.0.now, func_type_value f.1.now)) result
        ≡ function_of ([], import_view import.now) }
{
    match import {
        Import::AdapterExport { func, ty, .. } => Some((func.as_str(), ty)),
        _ => None,
    }
}

/// Adds the function of an adapter that an import is, if it is one and none of its name is there.
fn add_required(
    alloc: Global,
    functions: &mut Map<String, FuncType>,
    import: &Import,
) -> Result<(), AllocError>
    ensures { IsRequiredAdded functions.old.entries functions.new.entries import.now result }
{
    match adapter_function(import) {
        Some((name, ty)) => add_function(alloc, functions, name, ty),
        None => Ok(()),
    }
}

/// The functions of adapters that are imported at these positions, among imports of one module: of each name the first.
fn required_among(
    alloc: Global,
    names: &Map<String, Import>,
    positions: &Map<String, usize>,
) -> Result<Map<String, FuncType>, AllocError>
    ensures { IfOk result (λ f. map required_entry f.entries
        ≡ required_at names.now.entries positions.now.entries) }
{
    let mut functions = Map::with_hasher(alloc, *names.hasher());
    for (_name, position) in positions.iter() {
        if let Some((_, import)) = names.get_index(*position) {
            add_required(alloc, &mut functions, import)?;
        }
    }
    Ok(functions)
}

impl ImportMap {
    /// A map of no imports. `seed`: the seed of the maps that are made.
    pub fn new(alloc: Global, seed: Seed) -> ImportMap
        ensures { result ≡ [] }
    {
        ImportMap {
            instances: Map::with_hasher(alloc, seed),
            memory: None,
            functions: FirstFunctions::new(alloc, seed),
        }
    }

    /// The imports that a recorder has.
    ///
    /// # Errors
    ///
    /// `AllocError`: an allocation failed.
    pub(crate) fn from_recorder(alloc: Global, recorder: Recorder) -> Result<ImportMap, AllocError>
        requires { memory_in (map instance_entry recorder.instances.entries) ≡ recorder.memory }
        ensures { IfOk result (λ imports. imports ≡ map instance_entry recorder.instances.entries) }
    {
        let functions = FirstFunctions::among(alloc, &recorder.instances)?;
        Ok(ImportMap {
            instances: recorder.instances,
            memory: recorder.memory,
            functions,
        })
    }

    /// The functions that are imported from the adapter of this name, with their types, in the order of the first
    /// import of each. Other imports from a module of this name are passed over.
    ///
    /// # Errors
    ///
    /// `AllocError`: an allocation failed.
    pub fn required_from_adapter(
        &self,
        alloc: Global,
        name: &str,
    ) -> Result<Map<String, FuncType>, AllocError>
        ensures { IfOk result (λ functions. map required_entry functions.entries
            ≡ required_in self.now name.now) }
    {
        let seed = *self.instances.hasher();
        match self.instances.get(name) {
            Some(ImportInstance::Names(names)) => match self.functions.modules.get(name) {
                Some(positions) => required_among(alloc, names, positions),
                None => Ok(Map::with_hasher(alloc, seed)),
            },
            Some(ImportInstance::Whole(_)) => Ok(Map::with_hasher(alloc, seed)),
            None => Ok(Map::with_hasher(alloc, seed)),
        }
    }

    /// The single imports, each by its module and its name: module by module, and of each module in order. Modules that
    /// stand for another one are passed over.
    pub fn imports(&self) -> Imports<'_>
        ensures { imports_left result ≡ imports_in self.now }
    {
        Imports {
            modules: self.instances.iter(),
            module_name: "",
            names: None,
        }
    }

    /// The record of each module, by the modules' names in the order of their first imports.
    pub fn modules(&self) -> &Map<String, ImportInstance>
        ensures { map instance_entry result.now.entries ≡ self.now }
    {
        &self.instances
    }

    /// The type of the memory, if the main module's memory is imported (as `memory` from `env`).
    pub fn imported_memory(&self) -> Option<MemoryType>
        ensures { result ≡ memory_in self.now }
    {
        self.memory
    }
}
