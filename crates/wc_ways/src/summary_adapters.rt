//! The imports of each interface by the adapters of a component.

ghost use Rattle.std.specs.Prelude.{◌≡◌, ◌⊎◌, ℕ, IfErr, IfOk, List, OnOk, is_some, map};
ghost use Rattle.std.specs.Map.{lookup};
ghost use Rattle.std.specs.Str.{bytes_eq};
ghost use Rattle.wc_why.specs.Texts.{text_of};
ghost use Rattle.wc_maps.specs.Texts.{is_in};
ghost use Rattle.wc_gc.specs.LiveItems.{IsFault, names_of};
ghost use Rattle.wc_read.specs.Modules.{module_value};
ghost use Rattle.wc_validate.specs.Imports.Map.{required_entry};
ghost use Rattle.wc_summary.specs.Entries.{entries_view};
ghost use Rattle.wc_world.specs.WorldViews.{world_view};
ghost use Rattle.wc_ways.specs.Originals.{required_exports};
ghost use Rattle.wc_ways.specs.Tags.{all_key};
ghost use Rattle.wc_ways.specs.Private.AskedKeys.{IsAskedOf};
ghost use Rattle.wc_ways.specs.Private.Notes.{NotesAdapters};
ghost use Rattle.wc_ways.specs.Private.SummaryAdapters.{AreWanted, IsAskedIn, IsWantedBy, NotesAdapter, NotesLibrary, NotesOriginal, NotesWanted, NotesWasm, entry_of, info_of, original_in, world_of};
ghost use Rattle.wc_ways.specs.WaysFaults.{IsAdapterFault, IsWaysFault, search_input};

use crate::asked_keys::AskedKeys;
use crate::tags::{library_tags, tags_of};
use std::alloc::{AllocError, Global};
use wc_gc::{GcFault, why_imports};
use wc_maps::{Map, Seed, Set, is_in_set};
use wc_read::{FuncType, Module, read_module};
use wc_summary::{AdapterImports, Entries, Required, note_adapter_module};
use wc_validate::ExportMap;
use wc_world::{ComponentWorld, WorldAdapter, required_exports};

/// An adapter of a component's world.
#[derive(Clone, Copy)]
struct Adapter<'a, 'k, 'w> {
    world: &'a ComponentWorld<'w>,
    /// All interfaces that the world imports.
    keys: &'k AskedKeys<'k>,
    name: &'a str,
    adapter: &'a WorldAdapter<'w>,
}

/// Notes what each adapter imports, in order.
pub(crate) fn note_adapters<'a>(
    alloc: Global,
    world: &'a ComponentWorld<'_>,
    keys: &AskedKeys<'_>,
    entries: &mut Entries<'a>,
) -> Result<(), GcFault>
    requires { IsAskedOf (world_view world.now) all_key keys.now }
    ensures notes { OnOk result (NotesAdapters (world_view world.now)
        (entries_view entries.old.entries) (entries_view entries.new.entries)) }
    ensures fault { IfErr result (IsWaysFault (world_view world.now)) }
{
    for (name, adapter) in world.adapters.iter() {
        let named = Adapter {
            world,
            keys: &*keys,
            name: *name,
            adapter,
        };
        note_adapter(alloc, &named, entries)?;
    }
    Ok(())
}

/// Notes what an adapter imports.
fn note_adapter<'a>(
    alloc: Global,
    named: &Adapter<'a, '_, '_>,
    entries: &mut Entries<'a>,
) -> Result<(), GcFault>
    requires { IsAskedIn named.now }
    ensures notes { OnOk result (NotesAdapter named.now
        (entries_view entries.old.entries) (entries_view entries.new.entries)) }
    ensures fault { IfErr result (λ f. (f ≡ GcFault.Memory) ⊎ IsAdapterFault (world_of named.now)
        (entry_of named.now) f) }
{
    match named.adapter.library_info {
        Some(_) => match note_library(alloc, named, entries) {
            Ok(()) => Ok(()),
            Err(AllocError) => Err(GcFault::Memory),
        },
        None => match named.world.encoder.adapters().get(named.name) {
            Some(input) => note_trimmed(alloc, named, &input.wasm, entries),
            None => Ok(()),
        },
    }
}

/// Notes what a library imports, of which only its imports are known.
fn note_library<'a>(
    alloc: Global,
    named: &Adapter<'a, '_, '_>,
    entries: &mut Entries<'a>,
) -> Result<(), AllocError>
    requires { IsAskedIn named.now }
    ensures { OnOk result (NotesLibrary named.now
        (entries_view entries.old.entries) (entries_view entries.new.entries)) }
{
    let tags = library_tags(alloc, named.keys, &named.adapter.info.imports)?;
    wc_summary::note_library(alloc, named.name, &tags, entries)
}

/// Notes what an adapter that was trimmed imports, by these bytes that the encoder has of it.
fn note_trimmed<'a>(
    alloc: Global,
    named: &Adapter<'a, '_, '_>,
    wasm: &[u8],
    entries: &mut Entries<'a>,
) -> Result<(), GcFault>
    requires { IsAskedIn named.now }
    ensures notes { OnOk result (NotesWasm named.now wasm.now
        (entries_view entries.old.entries) (entries_view entries.new.entries)) }
    ensures fault { IfErr result (IsFault (search_input (world_of named.now) named.now.name.now
        (info_of named.now) wasm.now)) }
{
    let info = &named.adapter.info;
    match required_exports(alloc, &named.world.info, named.name, info) {
        Ok(required) => match why_imports(alloc, wasm, &required) {
            Ok(_) => match note_read(alloc, named, wasm, &required, entries) {
                Ok(()) => Ok(()),
                Err(AllocError) => Err(GcFault::Memory),
            },
            Err(fault) => Err(fault),
        },
        Err(AllocError) => Err(GcFault::Memory),
    }
}

/// Notes what an adapter imports that has no fault, and of which these exports are required.
fn note_read<'a>(
    alloc: Global,
    named: &Adapter<'a, '_, '_>,
    wasm: &[u8],
    required: &Set<String>,
    entries: &mut Entries<'a>,
) -> Result<(), AllocError>
    requires asked { IsAskedIn named.now }
    requires required { names_of required.now.keys ≡ required_exports (world_of named.now)
        named.now.name.now (info_of named.now) }
    ensures { OnOk result (NotesWasm named.now wasm.now
        (entries_view entries.old.entries) (entries_view entries.new.entries)) }
{
    // The bytes are those of a module: there is no fault but that memory runs out.
    let Ok(original) = read_module(alloc, wasm) else {
        return Err(AllocError);
    };
    let wanted = wanted_of(alloc, named)?;
    let required = Required {
        names: required,
        wanted: &wanted,
    };
    note_original(alloc, named, &original, required, entries)
}

/// The functions that the main module imports from an adapter, but those that the adapter has to export whatever it imports.
fn wanted_of(alloc: Global, named: &Adapter<'_, '_, '_>) -> Result<Map<String, ()>, AllocError>
    ensures { IfOk result (λ m. IsWantedBy named.now m.entries) }
{
    let seed = *named.world.adapters.hasher();
    let always = always_in(alloc, seed, &named.adapter.info.exports)?;
    let imports = &named.world.info.imports;
    let imported = imports.required_from_adapter(alloc, named.name)?;
    wanted_among(alloc, &imported, &always)
}

/// The names of these functions but those that are always needed.
fn wanted_among(
    alloc: Global,
    imported: &Map<String, FuncType>,
    always: &Set<&str>,
) -> Result<Map<String, ()>, AllocError>
    ensures { IfOk result (λ m. AreWanted (map text_of always.now.keys)
        (map required_entry imported.now.entries) m.entries) }
{
    let mut wanted = Map::with_hasher(alloc, *imported.hasher());
    for (name, _ty) in imported.iter() {
        note_wanted(alloc, always, name, &mut wanted)?;
    }
    Ok(wanted)
}

/// Notes the name of a function, if it isn't always needed.
fn note_wanted(
    alloc: Global,
    always: &Set<&str>,
    name: &str,
    wanted: &mut Map<String, ()>,
) -> Result<(), AllocError>
    ensures { OnOk result (NotesWanted (map text_of always.now.keys) name.now
        wanted.old.entries wanted.new.entries) }
{
    if is_in_set(always, name) {
        return Ok(());
    }
    let own = String::from_str(alloc, name)?;
    wanted.insert(own, ())?;
    Ok(())
}

/// The names of exports, as a set.
fn always_in<'a>(
    alloc: Global,
    seed: Seed,
    exports: &'a ExportMap,
) -> Result<Set<&'a str>, AllocError>
    ensures { IfOk result (λ s. (e : List ℕ) → is_in (map text_of s.keys) e
        ≡ is_some (lookup (bytes_eq e) exports.now)) }
{
    let mut names = Set::with_hasher(alloc, seed);
    for (name, _export) in exports.iter() {
        names.insert(name)?;
    }
    Ok(names)
}

/// Notes what an adapter imports that is this module before it is trimmed.
fn note_original<'a>(
    alloc: Global,
    named: &Adapter<'a, '_, '_>,
    original: &Module<'_>,
    required: Required<'_, ()>,
    entries: &mut Entries<'a>,
) -> Result<(), AllocError>
    requires asked { IsAskedIn named.now }
    requires required { names_of required.names.now.keys ≡ required_exports (world_of named.now)
        named.now.name.now (info_of named.now) }
    requires wanted { IsWantedBy named.now required.wanted.now.entries }
    ensures { OnOk result (NotesOriginal (original_in named.now (module_value original.now))
        (entries_view entries.old.entries) (entries_view entries.new.entries)) }
{
    let records = &named.adapter.info.imports;
    let tags = tags_of(alloc, named.keys, records, &original.imports)?;
    let adapter = AdapterImports {
        name: named.name,
        code: original,
        tags: &tags,
        required,
    };
    note_adapter_module(alloc, &adapter, entries)
}
