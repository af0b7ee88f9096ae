//! The exports, the imports and the functions of a module as items of its graph.

ghost use Rattle.std.specs.Prelude.{◌≡◌, ◌+◌, ◌++◌, ◌<◌, ◌^◌, ℕ, IfOk, List, OnOk, Some, length, map};
ghost use Rattle.wc_gc.specs.LiveItems.{names_of};
ghost use Rattle.wc_paths.specs.Counts.{counts_value};
ghost use Rattle.wc_paths.specs.Graph.{graph_value};
ghost use Rattle.wc_paths.specs.Items.{counts_of};
ghost use Rattle.wc_paths.specs.Numbers.{item_count};
ghost use Rattle.wc_read.specs.Exports.{ExportValue, export_value};
ghost use Rattle.wc_read.specs.Imports.{import_values};
ghost use Rattle.wc_read.specs.Items.{def_value, func_value};
ghost use Rattle.wc_summary.specs.Leads.{as_number, own_bodies, source_by};
ghost use Rattle.wc_summary.specs.Private.SummaryMain.{AreOwnersOf};
ghost use Rattle.wc_summary.specs.Private.Leads.{AddsNamed, HasNamed, IsOwned, sized_in};

use std::alloc::{AllocError, Global};
use wc_graph::Graph;
use wc_maps::{Map, Seed, Set};
use wc_paths::{Counts, ModuleGraph, PathItem, export_item, has_item, import_items, number_of};
use wc_read::{Def, Export, Func, Import, Space};

/// Of each item the place that its import has, if it is an import.
pub(crate) fn owners_of(
    alloc: Global,
    imports: &[Import<'_>],
    graph: &ModuleGraph<'_, '_>,
    places: &[Option<usize>],
) -> Result<Vec<Option<usize>>, AllocError>
    requires { length places.now ≡ length (import_values imports.now) }
    ensures { IfOk result (λ v. AreOwnersOf (counts_of (graph_value graph.now))
        (import_values imports.now) places.now v.items) }
{
    let items = import_items(alloc, imports)?;
    let mut owners = vec![in alloc; None; graph.len()]?;
    for position in 0..places.len() {
        own(
            &mut owners,
            number_if(&graph.counts, items[position]),
            places[position],
        );
    }
    Ok(owners)
}

/// Notes the place of an item, if it is there and has one.
fn own(owners: &mut Vec<Option<usize>>, item: Option<usize>, place: Option<usize>)
    requires { (n : ℕ) → item ≡ Some n → n < length owners.old.items }
    ensures { IsOwned item place owners.old.items owners.new.items }
{
    match (item, place) {
        (Some(item), Some(_)) => {
            owners[item] = place;
        }
        _ => {}
    }
}

/// The number of an item in a module's graph, if it is there.
pub(crate) fn number_if(counts: &Counts, item: PathItem) -> Option<usize>
    requires { item_count (counts_value counts.now) < 2 ^ 64 }
    ensures { result ≡ as_number (counts_value counts.now) item }
{
    if has_item(counts, item) {
        Some(number_of(counts, item))
    } else {
        None
    }
}

/// The numbers of the items that these names export, in the order of the names; `None` for a name that the module does
/// not export, or whose item is out of range.
///
/// # Errors
///
/// An allocation failed.
pub(crate) fn sources_of(
    alloc: Global,
    exports: &[Export<'_>],
    graph: &ModuleGraph<'_, '_>,
    required: &Set<String>,
) -> Result<Vec<Option<usize>>, AllocError>
    ensures { IfOk result (λ v. v.items ≡ map
        (source_by (counts_of (graph_value graph.now)) (map export_value exports.now))
        (names_of required.now.keys)) }
{
    let named = items_by_name(alloc, *required.hasher(), exports)?;
    sources_in(alloc, &graph.counts, &named, required.as_slice())
}

/// The numbers of the items of these names, each where it is there.
fn sources_in(
    alloc: Global,
    counts: &Counts,
    named: &Map<&str, PathItem>,
    names: &[String],
) -> Result<Vec<Option<usize>>, AllocError>
    requires { item_count (counts_value counts.now) < 2 ^ 64 }
    ensures { IfOk result (λ v. (exports : List ExportValue) → HasNamed exports named.now.entries
        → v.items ≡ map (source_by (counts_value counts.now) exports) (names_of names.now)) }
{
    let mut sources = Vec::new(alloc);
    for name in names {
        sources.push(source_of(named, counts, name))?;
    }
    Ok(sources)
}

/// The number of the item that is exported by a name, if it is there.
fn source_of(named: &Map<&str, PathItem>, counts: &Counts, name: &str) -> Option<usize>
    requires { item_count (counts_value counts.now) < 2 ^ 64 }
    ensures { (exports : List ExportValue) → HasNamed exports named.now.entries
        → result ≡ source_by (counts_value counts.now) exports name.now }
{
    match named.get(name) {
        Some(item) => number_if(counts, *item),
        None => None,
    }
}

/// The items of exports by their names: of each name that of the first.
fn items_by_name<'a>(
    alloc: Global,
    seed: Seed,
    exports: &[Export<'a>],
) -> Result<Map<&'a str, PathItem>, AllocError>
    ensures { IfOk result (λ m. HasNamed (map export_value exports.now) m.entries) }
{
    let mut named = Map::with_hasher(alloc, seed);
    for export in exports {
        note_named(&mut named, export)?;
    }
    Ok(named)
}

/// Notes the item of an export, if none of its name is noted.
fn note_named<'a>(named: &mut Map<&'a str, PathItem>, export: &Export<'a>) -> Result<(), AllocError>
    ensures { OnOk result (AddsNamed (export_value export.now)
        named.old.entries named.new.entries) }
{
    if named.contains_key(export.name) {
        return Ok(());
    }
    named.insert(export.name, export_item(export))?;
    Ok(())
}

/// The functions of the module's own as items, each with the length of its body.
pub(crate) fn bodies_of(
    alloc: Global,
    funcs: &[Func<'_>],
    graph: &ModuleGraph<'_, '_>,
) -> Result<Vec<(usize, usize)>, AllocError>
    requires { length funcs.now ≡ (counts_of (graph_value graph.now)).funcs }
    ensures { IfOk result (λ v. v.items
        ≡ map (λ b. ((counts_of (graph_value graph.now)).types + b.0, b.1))
        (own_bodies (map func_value funcs.now))) }
{
    let mut bodies = Vec::new(alloc);
    for index in 0..funcs.len() {
        let number = number_of(&graph.counts, PathItem::Item(Space::Funcs, index));
        note_body(&mut bodies, number, funcs[index].def)?;
    }
    Ok(bodies)
}

/// Notes a function as this item, with the length of its body, if it is the module's own.
fn note_body(
    bodies: &mut Vec<(usize, usize)>,
    number: usize,
    def: Def<&[u8]>,
) -> Result<(), AllocError>
    ensures { OnOk result (bodies.new.items ≡ bodies.old.items
        ++ sized_in number (def_value (λ b. b.now) def.entry)) }
{
    match def {
        Def::Local(body) => {
            bodies.push((number, body.len()))?;
            Ok(())
        }
        Def::Import(_, _) => Ok(()),
    }
}
