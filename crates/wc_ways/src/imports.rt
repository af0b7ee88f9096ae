//! The imports of a component, by interfaces.

ghost use Rattle.std.specs.Prelude.{IfErr, IfOk, map, string_bytes};
ghost use Rattle.wc_world.specs.Nameable.{AreNameable};
ghost use Rattle.wc_world.specs.WorldViews.{world_view};
ghost use Rattle.wc_ways.specs.Imports.{AreEntries, IsImportsJson, IsImportsText};
ghost use Rattle.wc_summary.specs.Summary.{entry_view};
ghost use Rattle.wc_ways.specs.Tags.{all_key};
ghost use Rattle.wc_ways.specs.WaysFaults.{IsWaysFault};
ghost use Rattle.wc_ways.specs.Private.AskedKeys.{IsAskedOf};

use crate::asked::ALL;
use crate::asked_keys::AskedKeys;
use crate::summary_adapters::note_adapters;
use crate::summary_main::note_main;
use crate::summary_shared::share_entries;
use crate::types::note_typed;
use std::alloc::{AllocError, Global};
use wc_gc::GcFault;
use wc_maps::Map;
use wc_read::function_names;
use wc_summary::{Entries, lines_of, sort_entries};
use wc_world::ComponentWorld;

/// The imports of a component's modules by interface, as lines. Each interface has a line, `INTERFACE: ` and then its
/// parts with `; ` between them. INTERFACE is `$root` for the world's own imports. The parts are
///
/// - `N imports of main by func I NAME, ..`: how many of the main module's imports are of the interface, and the functions that
///   are reached there and name one, at most three, with `and N more`;
/// - `N imports of adapter ADAPTER, B bytes, needed only for EXPORT ..`: how many of an adapter's, the exports that lead to one of them, of
///   those for which the adapter was trimmed, and how many bytes the bodies have that are live and aren't live for
///   the other exports: where the main module imports none of these exports, the adapter's imports of the interface go, and these
///   bytes. B of two interfaces with the same exports are the same bytes;
/// - `N imports of adapter ADAPTER, always needed for EXPORT ..`, where exports lead to them that are required whatever the main
///   module imports: these;
/// - `types, used by USER`: the interface is imported for its types, which an import from the module USER needs first, or what the world
///   itself imports or exports under that name (`ways_text`).
///
/// First come the interfaces from which the main module itself imports, then the interfaces that go with exports of
/// adapters. After these come the interfaces that are imported for their types alone, and last the interfaces that
/// stay. In each group the interfaces with which more bytes go come first. Otherwise the order is the order of the
/// imports: of the main module, of each adapter, and for types alone.
///
/// It takes time linear in the modules for each 64 interfaces and each 64 required exports (`wc_graph::spread`), and
/// time linear in the text.
///
/// # Errors
///
/// Those of `ways_text`.
pub fn imports_text(alloc: Global, world: &ComponentWorld<'_>) -> Result<String, GcFault>
    requires { AreNameable (world_view world.now) }
    ensures text { IfOk result (λ s. IsImportsText (world_view world.now) (string_bytes s)) }
    ensures fault { IfErr result (IsWaysFault (world_view world.now)) }
{
    let entries = entries_of(alloc, world)?;
    Ok(text_of(alloc, world, &entries)?)
}

/// The imports of a component's modules by interface, as JSON in one line: an object whose member `imports` is a list
/// of objects, in the order of `imports_text`. Each has `interface`; `kind`, which is `main`, `goes`, `types` or
/// `stays`; and `modules`, a list of objects.
///
/// - The main module has `adapter`, which is null; `imports`, the number of its imports of the interface; and `by`, the
///   functions that name one, with `index` and `name`, which is null for a function without a name.
/// - An adapter has `adapter`, its name; `imports`; `exports` and `stays`, the exports that lead there; `functions`,
///   the number of functions that are live for these exports alone; and `bytes`, the length of their bodies.
///
/// # Errors
///
/// Those of `ways_text`.
pub fn imports_json(alloc: Global, world: &ComponentWorld<'_>) -> Result<Vec<u8>, GcFault>
    requires { AreNameable (world_view world.now) }
    ensures json { IfOk result (λ v. IsImportsJson (world_view world.now) v.items) }
    ensures fault { IfErr result (IsWaysFault (world_view world.now)) }
{
    let entries = entries_of(alloc, world)?;
    Ok(json_of(alloc, world, &entries)?)
}

/// The lines of these interfaces.
fn text_of(
    alloc: Global,
    world: &ComponentWorld<'_>,
    entries: &Entries<'_>,
) -> Result<String, AllocError>
    requires { AreEntries (world_view world.now) (map entry_view entries.now.entries) }
    ensures { IfOk result (λ s. IsImportsText (world_view world.now) (string_bytes s)) }
{
    // The bytes are those of a module: there is no fault but that memory runs out.
    match function_names(alloc, world.encoder.module()) {
        Ok(names) => lines_of(alloc, &names, entries),
        Err(_) => Err(AllocError),
    }
}

/// The JSON of these interfaces.
fn json_of(
    alloc: Global,
    world: &ComponentWorld<'_>,
    entries: &Entries<'_>,
) -> Result<Vec<u8>, AllocError>
    requires { AreEntries (world_view world.now) (map entry_view entries.now.entries) }
    ensures { IfOk result (λ v. IsImportsJson (world_view world.now) v.items) }
{
    // The bytes are those of a module: there is no fault but that memory runs out.
    match function_names(alloc, world.encoder.module()) {
        Ok(names) => wc_summary::json_of(alloc, &names, entries),
        Err(_) => Err(AllocError),
    }
}

/// The interfaces of which a component imports something, with what, in the order in which they are listed.
fn entries_of<'a>(alloc: Global, world: &'a ComponentWorld<'_>) -> Result<Entries<'a>, GcFault>
    ensures entries { IfOk result (λ m. AreEntries (world_view world.now)
        (map entry_view m.entries)) }
    ensures fault { IfErr result (IsWaysFault (world_view world.now)) }
{
    let keys = AskedKeys::new(alloc, world, ALL)?;
    entries_by(alloc, world, &keys)
}

/// These interfaces, by all that the world imports.
fn entries_by<'a>(
    alloc: Global,
    world: &'a ComponentWorld<'_>,
    keys: &AskedKeys<'_>,
) -> Result<Entries<'a>, GcFault>
    requires { IsAskedOf (world_view world.now) all_key keys.now }
    ensures entries { IfOk result (λ m. AreEntries (world_view world.now)
        (map entry_view m.entries)) }
    ensures fault { IfErr result (IsWaysFault (world_view world.now)) }
{
    let mut entries = Map::with_hasher(alloc, *world.adapters.hasher());
    note_main(alloc, world, keys, &mut entries)?;
    note_adapters(alloc, world, keys, &mut entries)?;
    note_typed(alloc, world, &mut entries)?;
    share_entries(alloc, world, keys, &mut entries)?;
    sort_entries(&mut entries)?;
    Ok(entries)
}
