//! The imports of each interface by the main module of a component, and the functions that name them.

ghost use Rattle.std.specs.Prelude.{◌≡◌, ◌<◌, ◌^◌, All, IfOk, OnOk, length};
ghost use Rattle.std.specs.Option.{option_map};
ghost use Rattle.wc_paths.specs.Counts.{counts_value};
ghost use Rattle.wc_paths.specs.Graph.{graph_value};
ghost use Rattle.wc_paths.specs.Items.{counts_of};
ghost use Rattle.wc_paths.specs.Numbers.{item_count};
ghost use Rattle.wc_paths.specs.Roots.{first_roots, second_roots};
ghost use Rattle.wc_read.specs.Modules.{module_value};
ghost use Rattle.wc_segments.specs.Segments.{segments_value};
ghost use Rattle.wc_graph.specs.Positions.{AreBelow};
ghost use Rattle.wc_summary.specs.Entries.{entries_view, interfaces_of};
ghost use Rattle.wc_summary.specs.Leads.{AreReached, tags_view};
ghost use Rattle.wc_summary.specs.Notes.{NotesMainModule};
ghost use Rattle.wc_summary.specs.Private.SummaryMain.{AreMarked, CountsEach, NotesNamed, NotesNamers, NotesOf, is_reached_at, named_at};

use crate::entries::{count_main, push_namer};
use crate::leads::owners_of;
use crate::summary::Entries;
use crate::tags::place_tags;
use std::alloc::{AllocError, Global};
use wc_graph::{Graph, spread};
use wc_paths::{Counts, ModuleGraph, PathItem, first_roots, has_item, number_of, second_roots};
use wc_read::{Module, Space};
use wc_segments::Segments;

/// Notes the imports of the main module: for each interface the number of its imports, and the reachable functions that
/// name one of them, by their indices. `tags`: for each import, in order, the interface to which it belongs, if it
/// belongs to one. Interfaces that weren't listed are added at the end, in the order of the imports.
///
/// A function is reachable if a path leads to it from an export, the start function or an active segment. `segments`:
/// the segments of the module; `None` if it can't be followed, and then no function is noted.
///
/// It takes time and memory linear in the module.
///
/// # Errors
///
/// `AllocError`: an allocation failed. How much was noted is left open.
pub fn note_main_module(
    alloc: Global,
    code: &Module<'_>,
    segments: Option<&Segments<'_>>,
    tags: &[Option<String>],
    entries: &mut Entries<'_>,
) -> Result<(), AllocError>
    requires { length tags.now ≡ length (module_value code.now).imports }
    ensures { OnOk result (NotesMainModule (module_value code.now)
        (option_map (λ s. segments_value s.now) segments.entry) (tags_view tags.now)
        (entries_view entries.old.entries) (entries_view entries.new.entries)) }
{
    let places = place_tags(alloc, tags, entries)?;
    count_each(&places, entries);
    match segments {
        Some(segments) => note_followed(alloc, code, segments, &places, entries),
        None => Ok(()),
    }
}

/// Counts the imports at places of interfaces.
fn count_each(places: &[Option<usize>], entries: &mut Entries<'_>)
    requires below { AreBelow (length (interfaces_of (entries_view entries.old.entries)))
        places.now }
    requires fits { length places.now < 2 ^ 64 }
    ensures { CountsEach places.now
        (entries_view entries.old.entries) (entries_view entries.new.entries) }
{
    for place in places {
        let Some(place) = *place else {
            continue;
        };
        count_main(entries, place);
    }
}

/// Notes the functions that are reached and name an import.
fn note_followed(
    alloc: Global,
    code: &Module<'_>,
    segments: &Segments<'_>,
    places: &[Option<usize>],
    entries: &mut Entries<'_>,
) -> Result<(), AllocError>
    requires sized { length places.now ≡ length (module_value code.now).imports }
    requires below { AreBelow (length (interfaces_of (entries_view entries.old.entries)))
        places.now }
    ensures { OnOk result (NotesOf (module_value code.now) (segments_value segments.now)
        places.now (entries_view entries.old.entries) (entries_view entries.new.entries)) }
{
    let graph = ModuleGraph::new(code, segments)?;
    let owners = owners_of(alloc, &code.imports, &graph, places)?;
    let reached = reached_in(alloc, code, segments, &graph)?;
    note_namers(alloc, &graph, &owners, &reached, entries)
}

/// For each item of a module a word whose first bit says whether a root leads to the item: an export, the start
/// function, or an active segment.
///
/// # Errors
///
/// An allocation failed.
fn reached_in(
    alloc: Global,
    code: &Module<'_>,
    segments: &Segments<'_>,
    graph: &ModuleGraph<'_, '_>,
) -> Result<Vec<u64>, AllocError>
    ensures { IfOk result (λ v. AreReached (graph_value graph.now)
        (first_roots (module_value code.now)) (second_roots (segments_value segments.now))
        v.items) }
{
    let mut labels = vec![in alloc; 0; graph.len()]?;
    mark_roots(&graph.counts, &first_roots(alloc, code)?, &mut labels);
    mark_roots(&graph.counts, &second_roots(alloc, segments)?, &mut labels);
    spread(alloc, graph, labels)
}

/// Marks the items of some roots that are there.
fn mark_roots(counts: &Counts, roots: &[PathItem], labels: &mut Vec<u64>)
    requires fits { item_count (counts_value counts.now) < 2 ^ 64 }
    requires sized { length labels.old.items ≡ item_count (counts_value counts.now) }
    ensures { AreMarked (counts_value counts.now) roots.now labels.old.items labels.new.items }
{
    for root in roots {
        if !has_item(counts, *root) {
            continue;
        }
        let number = number_of(counts, *root);
        labels[number] = 1;
    }
}

/// Notes the functions that are reached and name an import, in the order of their indices.
fn note_namers(
    alloc: Global,
    graph: &ModuleGraph<'_, '_>,
    owners: &[Option<usize>],
    reached: &[u64],
    entries: &mut Entries<'_>,
) -> Result<(), AllocError>
    requires below { AreBelow (length (interfaces_of (entries_view entries.old.entries)))
        owners.now }
    requires owners { length owners.now ≡ item_count (counts_of (graph_value graph.now)) }
    requires words { length reached.now ≡ item_count (counts_of (graph_value graph.now)) }
    ensures { OnOk result (NotesNamers (graph_value graph.now) owners.now reached.now
        (entries_view entries.old.entries) (entries_view entries.new.entries)) }
{
    for index in 0..graph.counts.funcs {
        if !is_reached(graph, reached, index) {
            continue;
        }
        note_function(alloc, graph, owners, index, entries)?;
    }
    Ok(())
}

/// Whether a root leads to a function.
fn is_reached(graph: &ModuleGraph<'_, '_>, reached: &[u64], index: usize) -> bool
    requires there { index < (counts_of (graph_value graph.now)).funcs }
    requires words { length reached.now ≡ item_count (counts_of (graph_value graph.now)) }
    ensures { result ≡ is_reached_at (graph_value graph.now) reached.now index }
{
    let number = number_of(&graph.counts, PathItem::Item(Space::Funcs, index));
    reached[number] % 2 == 1
}

/// Notes a function, for each interface of which it names an import.
fn note_function(
    alloc: Global,
    graph: &ModuleGraph<'_, '_>,
    owners: &[Option<usize>],
    index: usize,
    entries: &mut Entries<'_>,
) -> Result<(), AllocError>
    requires below { AreBelow (length (interfaces_of (entries_view entries.old.entries)))
        owners.now }
    requires owners { length owners.now ≡ item_count (counts_of (graph_value graph.now)) }
    requires there { index < (counts_of (graph_value graph.now)).funcs }
    ensures { OnOk result (NotesNamed owners.now index (named_at (graph_value graph.now) index)
        (entries_view entries.old.entries) (entries_view entries.new.entries)) }
{
    // A module has as many functions as 32 bits count.
    let Ok(function) = u32::try_from(index) else {
        return Err(AllocError);
    };
    let number = number_of(&graph.counts, PathItem::Item(Space::Funcs, index));
    let mut named = Vec::new(alloc);
    graph.put_names(alloc, number, &mut named)?;
    note_named(owners, function, &named, entries)
}

/// Notes a function that names these items for each interface of which one is an import.
fn note_named(
    owners: &[Option<usize>],
    function: u32,
    named: &[usize],
    entries: &mut Entries<'_>,
) -> Result<(), AllocError>
    requires below { AreBelow (length (interfaces_of (entries_view entries.old.entries)))
        owners.now }
    requires there { All (λ n. n < length owners.now) named.now }
    ensures { OnOk result (NotesNamed owners.now function named.now
        (entries_view entries.old.entries) (entries_view entries.new.entries)) }
{
    for number in named {
        let Some(place) = owners[*number] else {
            continue;
        };
        push_namer(entries, place, function)?;
    }
    Ok(())
}
