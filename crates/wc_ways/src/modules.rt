//! The modules of a component's world.

ghost use Rattle.std.specs.Prelude.{◌≡◌, ◌⊎◌, ◌++◌, ◌+◌, ◌∷◌, [], ℕ, IfErr, IfOk, List, OnOk, map};
ghost use Rattle.wc_gc.specs.LiveItems.{IsFault, trim_input};
ghost use Rattle.wc_import_paths.specs.MainModules.{HasMain, main_graph, main_view};
ghost use Rattle.wc_import_paths.specs.Rows.{AreRowsFor};
ghost use Rattle.wc_read.specs.Exports.{ExportValue, export_value};
ghost use Rattle.wc_read.specs.Imports.{ImportValue, import_value, import_values};
ghost use Rattle.wc_validate.specs.Validate.{module_record};
ghost use Rattle.wc_world.specs.WorldViews.{adapter_view, world_view};
ghost use Rattle.wc_ways.specs.WaysFaults.{IsAdapterFault, IsWaysFault, search_input};
ghost use Rattle.wc_ways.specs.Private.Modules.{AreAdapterModules, AreByName, AreFirstPlaces, AreModulesOf, ArePlaces, IsAdapterModule, IsImportAt, IsModuleWith};

use std::alloc::{AllocError, Global};
use wc_gc::{GcFault, why_imports};
use wc_import_paths::{MainModule, ModuleRows};
use wc_maps::{Map, Seed, Set};
use wc_paths::{PathItem, import_items};
use wc_read::{Export, Import, Module, read_module};
use wc_validate::ValidatedModule;
use wc_world::{ComponentWorld, WorldAdapter, required_exports};

/// The modules of a component's world: the main module, and each adapter and library, in order.
#[derive(Drop)]
pub(crate) struct Modules<'a> {
    pub(crate) main: MainModule<'a>,
    /// The items of the main module's imports.
    pub(crate) places: ImportPlaces<'a>,
    pub(crate) adapters: Vec<AdapterModule<'a>>,
}

/// An adapter as the encoder has it, before it is trimmed; or a library.
#[derive(Drop)]
pub(crate) struct AdapterModule<'a> {
    pub(crate) name: &'a str,
    pub(crate) is_library: bool,
    /// Its record in the component's world.
    pub(crate) info: &'a ValidatedModule,
    pub(crate) bytes: &'a [u8],
    pub(crate) code: Module<'a>,
    /// Its exports, by their names.
    pub(crate) exports: ExportsByName<'a>,
    /// The items of its imports.
    pub(crate) places: ImportPlaces<'a>,
    /// Its rows: the items that each item names.
    pub(crate) rows: ModuleRows,
}

/// The exports of a module, by their names.
pub(crate) type ExportsByName<'a> = Map<&'a str, Export<'a>>;

/// The items of a module's imports, by the imports' modules and names.
pub(crate) type ImportPlaces<'a> = Map<(&'a str, &'a str), PathItem>;

impl<'a> Modules<'a> {
    /// The modules of a component's world, of which each adapter that was trimmed can be.
    pub(crate) fn read(alloc: Global, world: &'a ComponentWorld<'a>) -> Result<Modules<'a>, GcFault>
        ensures modules { IfOk result (AreModulesOf (world_view world.now)) }
        ensures fault { IfErr result (IsWaysFault (world_view world.now)) }
    {
        let seed = *world.adapters.hasher();
        // The bytes are those of a module, and no export is named: there is no fault but that memory runs out.
        let Ok(main) = MainModule::read(alloc, seed, world.encoder.module(), &[]) else {
            return Err(GcFault::Memory);
        };
        let places = import_places(alloc, seed, &main.code().imports)?;
        let adapters = read_adapters(alloc, world)?;
        Ok(Modules {
            main,
            places,
            adapters,
        })
    }
}

/// The rows of the main module: the items that each item names.
pub(crate) fn main_rows<'m>(main: &'m MainModule<'_>) -> &'m ModuleRows
    requires { HasMain main.now }
    ensures { AreRowsFor (main_graph (main_view main.now)) result.now }
{
    match main {
        MainModule::Whole(followed) => &followed.rows,
        MainModule::Unread { rows, .. } => rows,
    }
}

/// The adapters and libraries, in order.
fn read_adapters<'a>(
    alloc: Global,
    world: &'a ComponentWorld<'a>,
) -> Result<Vec<AdapterModule<'a>>, GcFault>
    ensures modules { let w = world_view world.now in IfOk result
        (λ v. AreAdapterModules w w.adapters v.items) }
    ensures fault { IfErr result (IsWaysFault (world_view world.now)) }
{
    let mut adapters = Vec::new(alloc);
    for (name, adapter) in world.adapters.iter() {
        let read = read_adapter(alloc, world, *name, adapter)?;
        adapters.push(read)?;
    }
    Ok(adapters)
}

/// An adapter or a library.
fn read_adapter<'a>(
    alloc: Global,
    world: &'a ComponentWorld<'a>,
    name: &'a str,
    adapter: &'a WorldAdapter<'a>,
) -> Result<AdapterModule<'a>, GcFault>
    ensures module { IfOk result (IsAdapterModule (world_view world.now)
        (name.now, adapter_view adapter.now)) }
    ensures fault { IfErr result (λ f. (f ≡ GcFault.Memory) ⊎ IsAdapterFault
        (world_view world.now) (name.now, adapter_view adapter.now) f) }
{
    match adapter.library_info {
        Some(_) => Ok(module_with(alloc, world, name, adapter, &adapter.wasm)?),
        None => match world.encoder.adapters().get(name) {
            Some(input) => {
                check_trimmed(alloc, world, name, adapter, &input.wasm)?;
                Ok(module_with(alloc, world, name, adapter, &input.wasm)?)
            }
            // The encoder has each adapter of a world.
            None => Ok(module_with(alloc, world, name, adapter, &adapter.wasm)?),
        },
    }
}

/// Checks that an adapter can be trimmed for what is required of it.
fn check_trimmed(
    alloc: Global,
    world: &ComponentWorld<'_>,
    name: &str,
    adapter: &WorldAdapter<'_>,
    wasm: &[u8],
) -> Result<(), GcFault>
    ensures { IfErr result (λ f. (f ≡ GcFault.Memory) ⊎ IsFault (search_input
        (world_view world.now) name.now (module_record adapter.now.info) wasm.now) f) }
{
    match required_exports(alloc, &world.info, name, &adapter.info) {
        Ok(required) => check_for(alloc, wasm, &required),
        Err(AllocError) => Err(GcFault::Memory),
    }
}

/// Checks that an adapter can be trimmed for these exports.
fn check_for(alloc: Global, wasm: &[u8], required: &Set<String>) -> Result<(), GcFault>
    ensures { IfErr result (IsFault (trim_input wasm.now required.now.keys)) }
{
    match why_imports(alloc, wasm, required) {
        Ok(_chains) => Ok(()),
        Err(fault) => Err(fault),
    }
}

/// An adapter or a library with these bytes.
fn module_with<'a>(
    alloc: Global,
    world: &ComponentWorld<'_>,
    name: &'a str,
    adapter: &'a WorldAdapter<'a>,
    bytes: &'a [u8],
) -> Result<AdapterModule<'a>, AllocError>
    ensures { IfOk result (IsModuleWith (name.now, adapter_view adapter.now) bytes.now) }
{
    // The bytes are those of a module: there is no fault but that memory runs out.
    let Ok(code) = read_module(alloc, bytes) else {
        return Err(AllocError);
    };
    let seed = *world.adapters.hasher();
    let exports = exports_by_name(alloc, seed, &code.exports)?;
    let places = import_places(alloc, seed, &code.imports)?;
    let rows = ModuleRows::bare(alloc, &code)?;
    Ok(AdapterModule {
        name,
        is_library: adapter.library_info.is_some(),
        info: &adapter.info,
        bytes,
        code,
        exports,
        places,
        rows,
    })
}

/// Exports by their names: of several with one name the first.
fn exports_by_name<'a>(
    alloc: Global,
    seed: Seed,
    exports: &[Export<'a>],
) -> Result<ExportsByName<'a>, AllocError>
    ensures { IfOk result (λ m. AreByName (map export_value exports.now) m.entries) }
{
    let mut named = Map::with_hasher(alloc, seed);
    for export in exports {
        put_export(export, &mut named)?;
    }
    Ok(named)
}

/// Puts an export under its name, if none is there.
fn put_export<'a>(export: &Export<'a>, named: &mut ExportsByName<'a>) -> Result<(), AllocError>
    ensures { (front : List ExportValue) → AreByName front named.old.entries
        → OnOk result (AreByName (front ++ export_value export.now ∷ []) named.new.entries) }
{
    if named.contains_key(export.name) {
        return Ok(());
    }
    named.insert(export.name, *export)?;
    Ok(())
}

/// The items of imports, by the imports' modules and names: of several with the same the first.
fn import_places<'a>(
    alloc: Global,
    seed: Seed,
    imports: &[Import<'a>],
) -> Result<ImportPlaces<'a>, AllocError>
    ensures { IfOk result (λ m. ArePlaces (import_values imports.now) m.entries) }
{
    let items = import_items(alloc, imports)?;
    let mut places = Map::with_hasher(alloc, seed);
    for position in 0..imports.len() {
        put_place(&imports[position], items[position], &mut places)?;
    }
    Ok(places)
}

/// Puts the item of an import under its module and its name, if none is there.
fn put_place<'a>(
    import: &Import<'a>,
    item: PathItem,
    places: &mut ImportPlaces<'a>,
) -> Result<(), AllocError>
    ensures { (is : List ImportValue) (n : ℕ) → IsImportAt is n (import_value import.now) item
        → AreFirstPlaces is n places.old.entries
        → OnOk result (AreFirstPlaces is (n + 1) places.new.entries) }
{
    let place = (import.module, import.name);
    if places.contains_key(&place) {
        return Ok(());
    }
    places.insert(place, item)?;
    Ok(())
}
