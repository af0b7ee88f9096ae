//! The functions, and the drops of resources, that core modules import.

ghost use Rattle.std.specs.Prelude.{◌≡◌, ◌++◌, ◌∷◌, [], ℕ, Bool, List, IfOk, OnOk, Some, false};
ghost use Rattle.std.specs.List.{list_any};
ghost use Rattle.std.specs.Option.{option_map};
ghost use Rattle.wc_resolve.specs.Roots.{id_index};
ghost use Rattle.wc_names.specs.Imports.{import_abi};
ghost use Rattle.wc_names.specs.Views.{ImportView, function_import, function_import_view, import_view};
ghost use Rattle.wc_validate.specs.Imports.Map.{imports_in};
ghost use Rattle.wc_validate.specs.Validate.{module_record};
ghost use Rattle.wc_world.specs.Lowering.{is_drop_of, is_imported};
ghost use Rattle.wc_world.specs.Slots.{all_imports, imports_of};
ghost use Rattle.wc_world.specs.WorldViews.{adapters_view};
ghost use Rattle.wc_world.specs.Private.ImportedItems.{AddsImportsOnOk, AreCalled, AreImported, ForCalled, ForImported, IsCall, dropped_resource, interface_index, interface_of};

use crate::adapter::WorldAdapter;
use std::alloc::{AllocError, Global};
use wc_maps::{Map, Seed, Set};
use wc_names::{FunctionImport, Import};
use wc_resolve::{AbiVariant, InterfaceId, TypeId};
use wc_validate::{ImportMap, ValidatedModule};

/// Names of functions, by the interface that they are of; without one they are of the world.
type NamesOfInterfaces = Map<Option<InterfaceId>, Set<String>>;

/// The functions that are called synchronously and asynchronously, and the resources that are dropped.
#[derive(Drop)]
pub(crate) struct ImportedItems {
    functions: NamesOfInterfaces,
    async_functions: NamesOfInterfaces,
    drops: Set<TypeId>,
}

/// Adds a function.
fn add_name(
    alloc: Global,
    names: &mut NamesOfInterfaces,
    interface: Option<InterfaceId>,
    name: &str,
) -> Result<(), AllocError>
    ensures { ForCalled names.old.entries (λ abi imports. (i : ImportView)
        → IsCall abi (interface_index interface, name.now) i
        → OnOk result (AreCalled abi (imports ++ i ∷ []) names.new.entries)) }
{
    let owned = String::from_str(alloc, name)?;
    if let Some(others) = names.get_mut(&interface) {
        others.insert(owned)?;
        return Ok(());
    }
    let mut first = Set::with_hasher(alloc, *names.hasher());
    first.insert(owned)?;
    names.insert(interface, first)?;
    Ok(())
}

/// Whether a function is among others.
fn has_name(names: &NamesOfInterfaces, interface: Option<InterfaceId>, name: &str) -> bool
    ensures { ForCalled names.now.entries (λ abi imports.
        result ≡ is_imported (interface_index interface) name.now abi imports) }
{
    match names.get(&interface) {
        Some(others) => others.contains(name),
        None => false,
    }
}

/// Whether there may be functions of an interface among others.
fn has_names(names: &NamesOfInterfaces, interface: Option<InterfaceId>) -> bool
    ensures { ForCalled names.now.entries (λ abi imports. result ≡ false → (name : List ℕ)
        → is_imported (interface_index interface) name abi imports ≡ false) }
{
    names.contains_key(&interface)
}

/// The interface of a function that is imported, if it is of one.
fn interface_of(function: FunctionImport<'_>) -> Option<InterfaceId>
    ensures { interface_index result ≡ interface_of (function_import_view function.entry) }
{
    match function.interface {
        Some((_key, id)) => Some(id),
        None => None,
    }
}

/// The resource of which an import is the drop.
fn dropped_resource(import: &Import) -> Option<TypeId>
    ensures { option_map id_index result ≡ dropped_resource (import_view import.now) }
{
    match import {
        Import::ImportedResourceDrop(_, _, id) => Some(*id),
        _ => None,
    }
}

impl ImportedItems {
    /// No functions, and no drops. `seed` is that of the sets.
    fn new(alloc: Global, seed: Seed) -> ImportedItems
        ensures { AreImported [] result }
    {
        ImportedItems {
            functions: Map::with_hasher(alloc, seed),
            async_functions: Map::with_hasher(alloc, seed),
            drops: Set::with_hasher(alloc, seed),
        }
    }

    /// Adds a function that is called in one way.
    fn add_function(
        &mut self,
        alloc: Global,
        function: FunctionImport<'_>,
    ) -> Result<(), AllocError>
        ensures { (i : ImportView) → function_import i ≡ Some (function_import_view function.entry)
            → AddsImportsOnOk result self.old self.new (i ∷ []) }
    {
        let interface = interface_of(function);
        let name = function.name;
        match function.abi {
            AbiVariant::GuestImport => add_name(alloc, &mut self.functions, interface, name),
            AbiVariant::GuestImportAsync => {
                add_name(alloc, &mut self.async_functions, interface, name)
            }
            AbiVariant::GuestExport => Ok(()),
            AbiVariant::GuestExportAsync => Ok(()),
            AbiVariant::GuestExportAsyncStackful => Ok(()),
        }
    }

    /// Adds a resource that is dropped.
    fn add_drop(&mut self, id: TypeId) -> Result<(), AllocError>
        ensures { (i : ImportView) → dropped_resource i ≡ Some id.0
            → AddsImportsOnOk result self.old self.new (i ∷ []) }
    {
        self.drops.insert(id)?;
        Ok(())
    }

    /// Adds an import, if it is a function or a drop.
    fn add_import(&mut self, alloc: Global, import: &Import) -> Result<(), AllocError>
        ensures { AddsImportsOnOk result self.old self.new (import_view import.now ∷ []) }
    {
        if let Some(function) = import.function() {
            return self.add_function(alloc, function);
        }
        if let Some(id) = dropped_resource(import) {
            return self.add_drop(id);
        }
        Ok(())
    }

    /// Whether a function is imported, to be called synchronously or asynchronously.
    pub(crate) fn has_function(
        &self,
        interface: Option<InterfaceId>,
        name: &str,
        is_async: bool,
    ) -> bool
        ensures { ForImported self.now (λ imports. result ≡ is_imported
            (interface_index interface) name.now (import_abi is_async) imports) }
    {
        if is_async {
            has_name(&self.async_functions, interface, name)
        } else {
            has_name(&self.functions, interface, name)
        }
    }

    /// Whether functions of an interface may be imported. Where not, no name has to be looked up.
    pub(crate) fn has_functions_of(&self, interface: Option<InterfaceId>) -> bool
        ensures { ForImported self.now (λ imports. result ≡ false → (is_async : Bool)
            (name : List ℕ) → is_imported (interface_index interface) name
            (import_abi is_async) imports ≡ false) }
    {
        has_names(&self.functions, interface) || has_names(&self.async_functions, interface)
    }

    /// Whether the drop of a resource is imported.
    pub(crate) fn has_drop(&self, id: TypeId) -> bool
        ensures { ForImported self.now (λ imports. result ≡ list_any (is_drop_of id.0) imports) }
    {
        self.drops.contains(&id)
    }
}

/// Adds the functions and drops that a module imports.
fn add_module(
    alloc: Global,
    imported: &mut ImportedItems,
    imports: &ImportMap,
) -> Result<(), AllocError>
    ensures { AddsImportsOnOk result imported.old imported.new
        (imports_of (imports_in imports.now)) }
{
    for (_module, _name, import) in imports.imports() {
        imported.add_import(alloc, import)?;
    }
    Ok(())
}

/// The functions and drops that a main module and adapters import.
pub(crate) fn imported_by<'a>(
    alloc: Global,
    main: &ValidatedModule,
    adapters: &Map<&'a str, WorldAdapter<'a>>,
) -> Result<ImportedItems, AllocError>
    ensures { IfOk result (AreImported (imports_of (all_imports (module_record main.now)
        (adapters_view adapters.now)))) }
{
    let mut imported = ImportedItems::new(alloc, *adapters.hasher());
    add_module(alloc, &mut imported, &main.imports)?;
    for (_name, adapter) in adapters.iter() {
        add_module(alloc, &mut imported, &adapter.info.imports)?;
    }
    Ok(imported)
}
