//! The world of a component.

ghost use Rattle.std.specs.Prelude.{◌≡◌, ◌↔◌, ◌⊎◌, IfErr, IfOk, IsTrue, OnOk};
ghost use Rattle.std.specs.List.{list_any};
ghost use Rattle.wc_encoder.specs.EncoderParts.{world_exports};
ghost use Rattle.wc_names.specs.Views.{import_view};
ghost use Rattle.wc_validate.specs.Validate.{module_record};
ghost use Rattle.wc_world.specs.Causes.{HasNoCause, IsComponentWorldCause, IsMemory};
ghost use Rattle.wc_world.specs.Live.{AreLive};
ghost use Rattle.wc_world.specs.Lowering.{lowered};
ghost use Rattle.wc_world.specs.Refused.{IsRefusedAt};
ghost use Rattle.wc_world.specs.Slots.{IsSlot1Used, module_uses_slot_1, uses_slot_1};
ghost use Rattle.wc_world.specs.Used.{AreUsed, used_view};
ghost use Rattle.wc_world.specs.World.{AreAdapters, IsMainRecord, IsWorldOf};
ghost use Rattle.wc_world.specs.WorldViews.{adapters_view, import_map_view, live_view, world_view};

use crate::adapter::WorldAdapter;
use crate::adapters::adapters_of;
use crate::fault::WorldFault;
use crate::import_map::import_map_of;
use crate::imported::ImportedInterface;
use crate::laws::worlds_exclude_faults;
use crate::live::live_type_imports;
use crate::options::ImportOptions;
use crate::places::WorldPlace;
use crate::refused::{as_given, main_refusal};
use crate::used::exports_used;
use std::alloc::{AllocError, Global};
use wc_encoder::ComponentEncoder;
use wc_maps::{Map, Set};
use wc_names::Import;
use wc_resolve::{InterfaceId, TypeId};
use wc_texts::Refused;
use wc_validate::laws::records_in_range;
use wc_validate::{ImportMap, ValidatedModule, validate_module_explained};

/// The world of a component: the facts about modules that an encoder needs before it encodes them. These are the
/// imports and exports of the main module and of the adapters, how their imports are met, and the types that they need.
#[derive(Drop)]
pub struct ComponentWorld<'a> {
    /// The parts that the component is encoded from.
    pub encoder: &'a ComponentEncoder,
    /// The record of the main module's imports and exports.
    pub info: ValidatedModule,
    /// The adapters that are needed, and the libraries, by their names.
    pub adapters: Map<&'a str, WorldAdapter<'a>>,
    /// How imports are met: the imports of each interface that the world imports, under its name; and under `None`
    /// the functions and types that the world itself imports.
    pub import_map: Map<Option<String>, ImportedInterface>,
    /// The live types of imports, by the interfaces that own them.
    pub live_type_imports: Map<InterfaceId, Set<TypeId>>,
    /// For each interface that the world exports, the exported interfaces that it uses.
    pub exports_used: Map<InterfaceId, Set<InterfaceId>>,
}

/// Whether an import starts a thread, or reads or writes slot 1 of a task's context.
fn uses_slot_1(import: &Import) -> bool
    ensures { result ≡ uses_slot_1 (import_view import.now) }
{
    match import {
        Import::ThreadNewIndirect => true,
        Import::ContextGet { slot, .. } => *slot == 1,
        Import::ContextSet { slot, .. } => *slot == 1,
        _ => false,
    }
}

/// Whether one of these imports does.
fn one_uses_slot_1(imports: &ImportMap) -> bool
    ensures { result ≡ module_uses_slot_1 imports.now }
{
    for (_module, _name, import) in imports.imports() {
        if uses_slot_1(import) {
            return true;
        }
    }
    false
}

/// Whether an import of one of these adapters does.
fn adapter_uses_slot_1<'a>(adapters: &Map<&'a str, WorldAdapter<'a>>) -> bool
    ensures { result ≡ list_any (λ a. module_uses_slot_1 a.1.info.imports)
        (adapters_view adapters.now) }
{
    for (_name, adapter) in adapters.iter() {
        if one_uses_slot_1(&adapter.info.imports) {
            return true;
        }
    }
    false
}

/// Validates the main module of an encoder, and returns its record.
fn main_record(
    alloc: Global,
    encoder: &ComponentEncoder,
) -> Result<ValidatedModule, Refused<WorldFault, WorldPlace>>
    ensures recorded { IfOk result (λ v. IsMainRecord encoder.now (module_record v)) }
    ensures fault { IfErr result
        (λ x. IsMemory encoder.now x.fault ⊎ IsComponentWorldCause encoder.now x.fault) }
    ensures place { IfErr result (IsRefusedAt encoder.now) }
{
    let bytes = encoder.module();
    let import_map = encoder.module_import_map();
    match validate_module_explained(alloc, encoder, bytes, import_map) {
        Ok(info) => Ok(info),
        Err(refused) => Err(main_refusal(as_given(alloc, encoder, refused))),
    }
}

/// The maps of a component's world: how imports are met, the live types of imports, and which exported interfaces use
/// which.
#[derive(Drop)]
struct WorldMaps {
    import_map: Map<Option<String>, ImportedInterface>,
    live_type_imports: Map<InterfaceId, Set<TypeId>>,
    exports_used: Map<InterfaceId, Set<InterfaceId>>,
}

/// Makes the maps for this main module and these adapters.
fn world_maps<'a, O: ImportOptions>(
    alloc: Global,
    encoder: &ComponentEncoder,
    options: &O,
    info: &ValidatedModule,
    adapters: &Map<&'a str, WorldAdapter<'a>>,
) -> Result<WorldMaps, AllocError>
    requires recorded { IsMainRecord encoder.now (module_record info.now) }
    requires is_adapter { AreAdapters encoder.now (module_record info.now)
        (adapters_view adapters.now) }
    ensures lowerings { IfOk result (λ m. import_map_view m.import_map ≡ lowered encoder.now
        (O.options_of options.now) (module_record info.now) (adapters_view adapters.now)) }
    ensures used { IfOk result (λ m. AreUsed encoder.now.resolve (world_exports encoder.now)
        (used_view m.exports_used)) }
    ensures live { IfOk result (λ m. AreLive encoder.now (used_view m.exports_used)
        (module_record info.now) (adapters_view adapters.now) (live_view m.live_type_imports)) }
{
    let import_map = import_map_of(alloc, encoder, options, info, adapters)?;
    let exports_used = exports_used(alloc, encoder)?;
    // So what the imports name is there.
    records_in_range(encoder);
    let live_type_imports = live_type_imports(alloc, encoder, &exports_used, info, adapters)?;
    Ok(WorldMaps {
        import_map,
        live_type_imports,
        exports_used,
    })
}

/// The world of a component that has this main module and these adapters.
fn world_with<'a, O: ImportOptions>(
    alloc: Global,
    encoder: &'a ComponentEncoder,
    options: &O,
    info: ValidatedModule,
    adapters: Map<&'a str, WorldAdapter<'a>>,
) -> Result<ComponentWorld<'a>, AllocError>
    requires recorded { IsMainRecord encoder.now (module_record info) }
    requires is_adapter { AreAdapters encoder.now (module_record info)
        (adapters_view adapters) }
    ensures { IfOk result (λ w. IsWorldOf (O.options_of options.now) encoder.now (world_view w)) }
{
    let WorldMaps {
        import_map,
        live_type_imports,
        exports_used,
    } = world_maps(alloc, encoder, options, &info, &adapters)?;
    Ok(ComponentWorld {
        encoder,
        info,
        adapters,
        import_map,
        live_type_imports,
        exports_used,
    })
}

impl<'a> ComponentWorld<'a> {
    /// Makes the world of a component from the parts of an encoder. The main module is validated. An adapter is
    /// needed if the main module imports functions from it, or if it must export functions. Needed adapters are
    /// validated, trimmed to their required exports, and validated again. Libraries are only validated, and their
    /// bytes borrowed. Other adapters are not read. `options` says which canonical options lowered functions need.
    ///
    /// # Errors
    ///
    /// The main module comes before adapters, and these come in their order. `Memory` may come instead of any. As a
    /// fault that another fault carries, it comes at the step of that fault: for an adapter only if the main module
    /// is valid and nothing is wrong with the needed adapters before it.
    ///
    /// - `Main`: the main module is not valid (`wc_validate::validate_module`).
    /// - `Adapter`: an adapter, or a library, is not valid (`wc_validate::validate_adapter_module`).
    /// - `Trim`: an adapter can't be trimmed (`wc_gc::run`).
    /// - `Minimized`: an adapter, which could be trimmed, is not valid after that: it imports one name of
    ///   `__main_module__` twice.
    /// - `PageSize`: the memory that an adapter, or a library, imports has other pages than the main module's memory.
    /// - `Memory`: an allocation failed.
    pub fn new<O: ImportOptions>(
        alloc: Global,
        encoder: &'a ComponentEncoder,
        options: &O,
    ) -> Result<ComponentWorld<'a>, WorldFault>
        ensures world { IfOk result (λ w.
            IsWorldOf (O.options_of options.now) encoder.now (world_view w)) }
        ensures fault { IfErr result
            (λ f. IsMemory encoder.now f ⊎ IsComponentWorldCause encoder.now f) }
        // Without a fault there is no cause.
        ensures no_cause { OnOk result (HasNoCause encoder.now) }
    {
        match ComponentWorld::new_explained(alloc, encoder, options) {
            Ok(world) => Ok(world),
            Err(refused) => Err(refused.fault),
        }
    }

    /// Like [`ComponentWorld::new`]; if the call fails, the result also says what its fault is about. This may be an
    /// import or an export of the main module, or of the adapter or the library that the fault names. For an adapter
    /// that can't be trimmed, it may be a section or a body of a function. It may be the offset at which a module is
    /// malformed, counted in the main module as it was passed (`ComponentEncoder::given_module`). Or it is the sizes
    /// of pages. No module is validated again for it.
    ///
    /// # Errors
    ///
    /// The faults of `new`. If an allocation for the place of a fault fails, the fault is `Memory`.
    pub fn new_explained<O: ImportOptions>(
        alloc: Global,
        encoder: &'a ComponentEncoder,
        options: &O,
    ) -> Result<ComponentWorld<'a>, Refused<WorldFault, WorldPlace>>
        ensures world { IfOk result (λ w.
            IsWorldOf (O.options_of options.now) encoder.now (world_view w)) }
        ensures fault { IfErr result
            (λ x. IsMemory encoder.now x.fault ⊎ IsComponentWorldCause encoder.now x.fault) }
        ensures place { IfErr result (IsRefusedAt encoder.now) }
        // Without a fault there is no cause.
        ensures no_cause { OnOk result (HasNoCause encoder.now) }
    {
        worlds_exclude_faults(encoder);
        let info = main_record(alloc, encoder)?;
        let adapters = adapters_of(alloc, encoder, &info)?;
        Ok(world_with(alloc, encoder, options, info, adapters)?)
    }

    /// Whether tasks can use slot 1 of their context (component model, "canon context.get"): whether the main module
    /// or an adapter imports what starts a thread, or reads or writes that slot.
    pub fn can_use_context_slot_1(&self) -> bool
        ensures { IsTrue result ↔ IsSlot1Used (world_view self.now) }
    {
        one_uses_slot_1(&self.info.imports) || adapter_uses_slot_1(&self.adapters)
    }
}
