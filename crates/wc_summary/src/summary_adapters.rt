//! The imports of each interface by the adapters of a component, and what has to go for the interface to go.

ghost use Rattle.std.specs.Prelude.{◌≡◌, IfOk, OnOk, length};
ghost use Rattle.wc_gc.specs.LiveItems.{names_of};
ghost use Rattle.wc_paths.specs.Graph.{graph_value};
ghost use Rattle.wc_read.specs.Modules.{module_value};
ghost use Rattle.wc_graph.specs.Positions.{AreBelow};
ghost use Rattle.wc_summary.specs.Entries.{entries_view};
ghost use Rattle.wc_summary.specs.Leads.{tags_view};
ghost use Rattle.wc_summary.specs.Notes.{NotesAdapterModule, NotesLibraryModule};
ghost use Rattle.wc_summary.specs.Parts.{adapter_value};
ghost use Rattle.wc_summary.specs.Private.SummaryAdapters.{AreUses, UsesGraph};

use crate::leads::{bodies_of, owners_of, sources_of};
use crate::summary::Entries;
use crate::tags::{counts_of, place_tags};
use crate::uses::{Required, Uses, push_uses};
use std::alloc::{AllocError, Global};
use wc_graph::{leading, reached_alone};
use wc_maps::{Map, Set};
use wc_paths::ModuleGraph;
use wc_read::Module;
use wc_segments::Segments;

/// An adapter that is trimmed, as it is before.
#[derive(Drop)]
pub struct AdapterImports<'a, 'm, 'c, T> {
    /// Its name.
    pub name: &'a str,
    /// Its module, which has no segments that are followed.
    pub code: &'m Module<'c>,
    /// Of each import, in order, the interface to which it belongs, if there is one.
    pub tags: &'m [Option<String>],
    /// The exports for which it is trimmed.
    pub required: Required<'m, T>,
}

/// Notes the imports of a trimmed adapter. For each interface it notes the number of its imports, and the required
/// exports that lead to one of them. It also notes how many functions are live for these exports alone, and the bytes
/// of their bodies, at most 2^64 - 1. An export leads to an import if a path leads there from the export's item. A
/// function is live if a path leads to it from the item of a required export. Interfaces that weren't listed are added
/// at the end, in the order of the imports.
///
/// It takes time linear in the module for each 64 interfaces and each 64 required exports (`wc_graph::spread`).
///
/// # Errors
///
/// `AllocError`: an allocation failed. How much was noted is left open.
pub fn note_adapter_module<'a, T>(
    alloc: Global,
    adapter: &AdapterImports<'a, '_, '_, T>,
    entries: &mut Entries<'a>,
) -> Result<(), AllocError>
    requires { length adapter.now.tags.now ≡ length (module_value adapter.now.code.now).imports }
    ensures { OnOk result (NotesAdapterModule (adapter_value adapter.now)
        (entries_view entries.old.entries) (entries_view entries.new.entries)) }
{
    let required = &adapter.required;
    let mut found = Map::with_hasher(alloc, *entries.hasher());
    let places = place_tags(alloc, adapter.tags, &mut found)?;
    let uses = uses_of(alloc, adapter.code, required.names, &places, found.len())?;
    push_uses(
        alloc,
        adapter.name,
        required,
        &uses,
        found.keys().as_slice(),
        entries,
    )
}

/// Notes the imports of a library, of which nothing else is known: for each interface the number of its imports. They
/// stay, whatever the main module imports. `tags`: for each import, in order, the interface to which it belongs, if it
/// belongs to one. Interfaces that weren't listed are added at the end, in the order of the imports.
///
/// It takes time linear in the imports.
///
/// # Errors
///
/// `AllocError`: an allocation failed. How much was noted is left open.
pub fn note_library<'a>(
    alloc: Global,
    name: &'a str,
    tags: &[Option<String>],
    entries: &mut Entries<'a>,
) -> Result<(), AllocError>
    ensures { OnOk result (NotesLibraryModule name.now (tags_view tags.now)
        (entries_view entries.old.entries) (entries_view entries.new.entries)) }
{
    let seed = *entries.hasher();
    let mut found = Map::with_hasher(alloc, seed);
    let places = place_tags(alloc, tags, &mut found)?;
    let uses = Uses {
        is_library: true,
        counts: counts_of(alloc, &places, found.len())?,
        led: Vec::new(alloc),
        alone: Vec::new(alloc),
    };
    let names = Set::with_hasher(alloc, seed);
    let wanted: Map<String, ()> = Map::with_hasher(alloc, seed);
    let required = Required {
        names: &names,
        wanted: &wanted,
    };
    push_uses(
        alloc,
        name,
        &required,
        &uses,
        found.keys().as_slice(),
        entries,
    )
}

/// The uses of so many interfaces by a module, which are at these places for its imports.
fn uses_of(
    alloc: Global,
    original: &Module<'_>,
    required: &Set<String>,
    places: &[Option<usize>],
    count: usize,
) -> Result<Uses, AllocError>
    requires sized { length places.now ≡ length (module_value original.now).imports }
    requires below { AreBelow count places.now }
    ensures { IfOk result (AreUses (module_value original.now) (names_of required.now.keys)
        places.now count) }
{
    // An adapter that was trimmed has no segments.
    let segments = Segments {
        elements: Vec::new(alloc),
        data: Vec::new(alloc),
    };
    let graph = ModuleGraph::new(original, &segments)?;
    let sources = sources_of(alloc, &original.exports, &graph, required)?;
    let owners = owners_of(alloc, &original.imports, &graph, places)?;
    let bodies = bodies_of(alloc, &original.funcs, &graph)?;
    let counts = counts_of(alloc, places, count)?;
    uses_in(alloc, &graph, (&sources, &owners), &bodies, counts)
}

/// The uses of as many interfaces as are counted: by the items of exports and of imports, and by the functions.
pub(crate) fn uses_in(
    alloc: Global,
    graph: &ModuleGraph<'_, '_>,
    items: (&[Option<usize>], &[Option<usize>]),
    bodies: &[(usize, usize)],
    counts: Vec<usize>,
) -> Result<Uses, AllocError>
    requires sources { AreBelow graph.now.total items.0.now }
    requires sized { length items.1.now ≡ graph.now.total }
    requires owners { AreBelow (length counts.items) items.1.now }
    ensures { IfOk result (UsesGraph (graph_value graph.now) (items.entry.0.now, items.entry.1.now)
        bodies.now counts.items) }
{
    let led = leading(alloc, graph, items.0, items.1, counts.len())?;
    let alone = reached_alone(alloc, graph, items.0, bodies, &led)?;
    Ok(Uses {
        is_library: false,
        counts,
        led,
        alone,
    })
}
