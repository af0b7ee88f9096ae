//! The imports of a core module, recorded one after another.

ghost use Rattle.std.specs.Prelude.{◌≡◌, [], IfErr, IfOk, IsTrue, OnOk, false, map};
ghost use Rattle.wc_adapters.specs.Adapters.{which_view};
ghost use Rattle.wc_names.specs.declared.imports.Import.{Import as named_import};
ghost use Rattle.wc_names.specs.Views.{import_view};
ghost use Rattle.wc_validate.specs.Imports.AdapterTypes.{IsNotedAfter, first_some, noted_type, type_entry};
ghost use Rattle.wc_validate.specs.Imports.Entries.{adapter_type_in, memory_type_of, single, whole};
ghost use Rattle.wc_validate.specs.Imports.Instances.{IsFree, IsPutFault, IsRecordedAs, instance_entry};
ghost use Rattle.wc_validate.specs.Private.Imports.Recorder.{IsDifferenceIn, IsNoteFault, IsOneMemory, IsRecorderOf, IsSecondMemory, types_in, AreTypesNoted, IsEntryRecorded, IsEntryRefused};

use crate::ValidateFault;
use crate::imports::adapter_types::note_type;
use crate::imports::instances::{ImportInstance, put_whole, record_import};
use crate::place::TypeDifference;
use crate::refused::ImportFault;
use std::alloc::{AllocError, Global};
use wc_encoder::MainOrAdapter;
use wc_maps::{Map, Seed};
use wc_names::Import;
use wc_read::{FuncType, MemoryType};

/// The imports that are recorded so far: by modules; the memory, if it is one of them; and of each function of an
/// adapter the type with which it was imported first.
#[derive(Drop)]
pub(crate) struct Recorder {
    pub(crate) instances: Map<String, ImportInstance>,
    pub(crate) memory: Option<MemoryType>,
    adapter_types: Map<(String, String), FuncType>,
}

/// The type of the memory, if an import is the main module's memory.
fn memory_type(import: &Import) -> Option<MemoryType>
    ensures { result ≡ memory_type_of (import_view import.now) }
{
    match import {
        Import::MainModuleMemory(ty) => Some(*ty),
        _ => None,
    }
}

/// Whether an import is no second memory; the memory is noted.
fn note_memory(memory: &mut Option<MemoryType>, import: &Import) -> bool
    ensures noted { IsTrue result
        → memory.new ≡ first_some memory.old (memory_type_of (import_view import.now)) }
    ensures one { IsTrue result → IsOneMemory memory.old (import_view import.now) }
    ensures second { result ≡ false → IsSecondMemory memory.old (import_view import.now) }
{
    let Some(ty) = memory_type(import) else {
        return true;
    };
    if memory.is_some() {
        return false;
    }
    *memory = Some(ty);
    true
}

/// The types that differ of an import that is a function of an adapter, if its type is not the one with which that was
/// imported first; the first type is noted.
fn note_adapter_type(
    alloc: Global,
    types: &mut Map<(String, String), FuncType>,
    import: &Import,
) -> Result<Option<TypeDifference>, AllocError>
    ensures differs { IfOk result (IsDifferenceIn (noted_type (map type_entry types.old.entries))
        (import_view import.now)) }
    ensures noted { OnOk result (IsNotedAfter types.old.entries
        (λ adapter function. adapter_type_in adapter function (import_view import.now))
        types.new.entries) }
{
    match import {
        Import::AdapterExport { adapter, func, ty } => note_type(alloc, types, adapter, func, ty),
        _ => Ok(None),
    }
}

/// A single import to be recorded. The recorder is generic over it, and so sees none of its variants.
pub(crate) trait SingleImport: Drop {
    // The import.
    ghost import: { Self → named_import };

    /// The types that differ, if it is a function of an adapter, and not of the type with which that was imported
    /// first. The type and the memory are noted.
    fn note_in(
        &self,
        alloc: Global,
        recorder: &mut Recorder,
    ) -> Result<Option<TypeDifference>, ValidateFault>
        ensures instances { recorder.new.instances ≡ recorder.old.instances }
        ensures memory { OnOk result (recorder.new.memory ≡ first_some recorder.old.memory
            (memory_type_of (import_view (import self.now)))) }
        ensures one { OnOk result (IsOneMemory recorder.old.memory
            (import_view (import self.now))) }
        ensures differs { IfOk result (IsDifferenceIn (types_in recorder.old)
            (import_view (import self.now))) }
        ensures types { OnOk result (AreTypesNoted recorder.old recorder.new
            (import_view (import self.now))) }
        ensures fault { IfErr result (IsNoteFault recorder.old.memory
            (import_view (import self.now))) };

    /// Records it under its name, after the others of its module.
    fn put_in(
        self,
        alloc: Global,
        instances: &mut Map<String, ImportInstance>,
        module_name: &str,
        name: &str,
    ) -> Result<(), ValidateFault>
        ensures recorded { IsRecordedAs instances.old.entries instances.new.entries module_name.now
            name.now (import self) result }
        ensures free { OnOk result (IsFree (map instance_entry instances.old.entries)
            module_name.now name.now) }
        ensures fault { IfErr result (IsPutFault (map instance_entry instances.old.entries)
            module_name.now name.now) };
}

impl SingleImport for Import {
    ghost import = { λ import. import };

    fn note_in(
        &self,
        alloc: Global,
        recorder: &mut Recorder,
    ) -> Result<Option<TypeDifference>, ValidateFault> {
        recorder.note(alloc, self)
    }

    fn put_in(
        self,
        alloc: Global,
        instances: &mut Map<String, ImportInstance>,
        module_name: &str,
        name: &str,
    ) -> Result<(), ValidateFault> {
        record_import(alloc, instances, module_name, name, self)
    }
}

impl Recorder {
    /// A recorder of no imports.
    pub(crate) fn new(alloc: Global, seed: Seed) -> Recorder
        ensures { IsRecorderOf result [] }
    {
        Recorder {
            instances: Map::with_hasher(alloc, seed),
            memory: None,
            adapter_types: Map::with_hasher(alloc, seed),
        }
    }

    /// The types that differ of an import that is a function of an adapter, if its type is not the one with which that
    /// was imported first. The type and the memory are noted.
    fn note(
        &mut self,
        alloc: Global,
        import: &Import,
    ) -> Result<Option<TypeDifference>, ValidateFault>
        ensures instances { self.new.instances ≡ self.old.instances }
        ensures memory { OnOk result (self.new.memory
            ≡ first_some self.old.memory (memory_type_of (import_view import.now))) }
        ensures one { OnOk result (IsOneMemory self.old.memory (import_view import.now)) }
        ensures differs { IfOk result (IsDifferenceIn (types_in self.old)
            (import_view import.now)) }
        ensures types { OnOk result (AreTypesNoted self.old self.new (import_view import.now)) }
        ensures fault { IfErr result (IsNoteFault self.old.memory (import_view import.now)) }
    {
        if !note_memory(&mut self.memory, import) {
            return Err(ValidateFault::SeveralMemoryImports);
        }
        let difference = note_adapter_type(alloc, &mut self.adapter_types, import)?;
        Ok(difference)
    }

    /// Records an import of a module under a name.
    ///
    /// # Errors
    ///
    /// - `SeveralMemoryImports`: it is a second memory of the main module.
    /// - `Mixed`: all of another module is recorded for its module.
    /// - `DuplicateImport`: its name is recorded already.
    /// - `AdapterTypesDiffer`: it is a function of an adapter that was imported with another type. It has both types,
    ///   and the others have none.
    /// - `Memory`: an allocation failed.
    pub(crate) fn record_single<I: SingleImport>(
        &mut self,
        alloc: Global,
        module_name: &str,
        name: &str,
        import: I,
    ) -> Result<(), ImportFault>
        ensures recorded { IsEntryRecorded self.old self.new
            (single module_name.now name.now (import_view (I.import import))) result }
        ensures fault { IsEntryRefused self.old (single module_name.now name.now
            (import_view (I.import import))) result }
    {
        let difference = import.note_in(alloc, self)?;
        import.put_in(alloc, &mut self.instances, module_name, name)?;
        match difference {
            None => Ok(()),
            Some(types) => Err(ImportFault {
                fault: ValidateFault::AdapterTypesDiffer,
                types: Some(types),
            }),
        }
    }

    /// Records that all of a module of the component is imported.
    ///
    /// # Errors
    ///
    /// - `WholeDiffers`: all of another one is recorded for the module.
    /// - `Mixed`: single imports are recorded of the module.
    /// - `Memory`: an allocation failed.
    pub(crate) fn record_whole(
        &mut self,
        alloc: Global,
        module_name: &str,
        which: &MainOrAdapter,
    ) -> Result<(), ImportFault>
        ensures recorded { IsEntryRecorded self.old self.new
            (whole module_name.now (which_view which.now)) result }
        ensures fault { IsEntryRefused self.old (whole module_name.now (which_view which.now))
            result }
    {
        put_whole(alloc, &mut self.instances, module_name, which)?;
        Ok(())
    }
}
