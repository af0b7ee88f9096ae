//! The imports of each interface by a core module of a component, which is followed with its segments, and what has to
//! go for the interface to go.

ghost use Rattle.std.specs.Prelude.{◌≡◌, ◌≢◌, ◌<◌, ◌^◌, ◌++◌, AllPairs, IfOk, OnOk, length, map, string_bytes};
ghost use Rattle.wc_gc.specs.LiveItems.{names_of};
ghost use Rattle.wc_read.specs.Modules.{module_value};
ghost use Rattle.wc_graph.specs.Positions.{AreBelow};
ghost use Rattle.wc_paths.specs.Counts.{counts_value};
ghost use Rattle.wc_paths.specs.Numbers.{item_count};
ghost use Rattle.wc_summary.specs.Summary.{part_view};
ghost use Rattle.wc_summary.specs.Entries.{entries_view};
ghost use Rattle.wc_summary.specs.CoreModules.{NotesCoreModule, core_value, is_kind, label_value, listed_texts};
ghost use Rattle.wc_summary.specs.Private.CoreModules.{AreCoreUses, core_part_at, label_number, text_at, texts_at};
ghost use Rattle.wc_summary.specs.Private.Uses.{ArePushed};

use crate::leads::{bodies_of, number_if, owners_of};
use crate::summary::{AdapterPart, Entries};
use crate::summary_adapters::uses_in;
use crate::tags::{counts_of, place_tags};
use crate::uses::{Uses, alone_at, count_at, led_at, note_if, push_one};
use std::alloc::{AllocError, Global};
use wc_maps::Map;
use wc_paths::{Counts, ModuleGraph, PathItem};
use wc_read::Module;
use wc_segments::Segments;

/// The kinds of sources of a core module.
#[derive(Clone, Copy)]
pub enum LabelKind {
    /// An export that the main module imports.
    Wanted,
    /// Another export.
    Other,
    /// The start function, or an active segment.
    Root,
}

/// A source of a core module: an item at which paths may begin.
#[derive(Clone, Copy)]
pub struct Label<'l> {
    /// How it is listed: by the export's name, `start`, or what a segment fills.
    pub text: &'l str,
    /// Its item.
    pub item: PathItem,
    /// Its kind.
    pub kind: LabelKind,
}

/// A core module of a component that is followed and is not its main module.
#[derive(Drop)]
pub struct CoreImports<'a, 'm, 'c> {
    /// Its name.
    pub name: &'a str,
    /// Its module.
    pub code: &'m Module<'c>,
    /// Its segments.
    pub segments: &'m Segments<'c>,
    /// Of each import, in order, the interface to which it belongs, if there is one.
    pub tags: &'m [Option<String>],
    /// Its sources, in the order in which they are listed.
    pub labels: &'m [Label<'m>],
}

/// Notes the imports of a core module. For each interface it notes the number of its imports, and the sources of each
/// kind that lead to one of them, of equal texts in a row the first. It also notes how many functions are live for
/// these sources alone, and the bytes of their bodies, at most 2^64 - 1. A source leads to an import if a path leads
/// there from the source's item. A function is live if a path leads to it from the item of a source. Interfaces that
/// weren't listed are added at the end, in the order of the imports.
///
/// It takes time linear in the module for each 64 interfaces and each 64 sources (`wc_graph::spread`).
///
/// # Errors
///
/// `AllocError`: an allocation failed. How much was noted is left open.
pub fn note_core_module<'a>(
    alloc: Global,
    core: &CoreImports<'a, '_, '_>,
    entries: &mut Entries<'a>,
) -> Result<(), AllocError>
    requires { length core.now.tags.now ≡ length (module_value core.now.code.now).imports }
    ensures { OnOk result (NotesCoreModule (core_value core.now)
        (entries_view entries.old.entries) (entries_view entries.new.entries)) }
{
    let mut found = Map::with_hasher(alloc, *entries.hasher());
    let places = place_tags(alloc, core.tags, &mut found)?;
    let uses = core_uses(alloc, core, &places, found.len())?;
    push_core_uses(alloc, core, &uses, found.keys().as_slice(), entries)
}

/// The uses of so many interfaces by a core module, which are at these places for its imports.
fn core_uses(
    alloc: Global,
    core: &CoreImports<'_, '_, '_>,
    places: &[Option<usize>],
    count: usize,
) -> Result<Uses, AllocError>
    requires sized { length places.now ≡ length (module_value core.now.code.now).imports }
    requires below { AreBelow count places.now }
    ensures { IfOk result (AreCoreUses (core_value core.now) places.now count) }
{
    let graph = ModuleGraph::new(core.code, core.segments)?;
    let sources = label_numbers(alloc, &graph.counts, core.labels)?;
    let owners = owners_of(alloc, &core.code.imports, &graph, places)?;
    let bodies = bodies_of(alloc, &core.code.funcs, &graph)?;
    let counts = counts_of(alloc, places, count)?;
    uses_in(alloc, &graph, (&sources, &owners), &bodies, counts)
}

/// The numbers of the items of labels, each where it is there.
fn label_numbers(
    alloc: Global,
    counts: &Counts,
    labels: &[Label<'_>],
) -> Result<Vec<Option<usize>>, AllocError>
    requires { item_count (counts_value counts.now) < 2 ^ 64 }
    ensures { IfOk result (λ v. v.items ≡ map (label_number (counts_value counts.now))
        (map label_value labels.now)) }
{
    let mut numbers = Vec::new(alloc);
    for label in labels {
        numbers.push(number_if(counts, label.item))?;
    }
    Ok(numbers)
}

/// Notes what a core module imports of each of some interfaces.
fn push_core_uses<'a>(
    alloc: Global,
    core: &CoreImports<'a, '_, '_>,
    uses: &Uses,
    interfaces: &[String],
    entries: &mut Entries<'a>,
) -> Result<(), AllocError>
    requires { AllPairs (λ x y. x ≢ y) (names_of interfaces.now) }
    ensures { OnOk result (ArePushed (core_part_at (core_value core.now) uses.now)
        (names_of interfaces.now)
        (entries_view entries.old.entries) (entries_view entries.new.entries)) }
{
    for position in 0..interfaces.len() {
        let part = core_part_of(alloc, core, uses, position)?;
        push_one(alloc, &interfaces[position], part, entries)?;
    }
    Ok(())
}

/// The part of a core module of the interface at a position.
fn core_part_of<'a>(
    alloc: Global,
    core: &CoreImports<'a, '_, '_>,
    uses: &Uses,
    position: usize,
) -> Result<AdapterPart<'a>, AllocError>
    ensures { IfOk result (λ p. part_view p
        ≡ core_part_at (core_value core.now) uses.now position) }
{
    let led = led_at(uses, position);
    let exports = listed_texts(alloc, core.labels, led, LabelKind::Wanted)?;
    let stays = listed_texts(alloc, core.labels, led, LabelKind::Other)?;
    let roots = listed_texts(alloc, core.labels, led, LabelKind::Root)?;
    let alone = alone_at(uses, position);
    Ok(AdapterPart {
        adapter: core.name,
        is_library: uses.is_library,
        imports: count_at(uses, position),
        exports,
        stays,
        roots,
        functions: alone.items,
        bytes: alone.size,
    })
}

/// The texts of the labels of a kind at some positions, of equal ones in a row the first.
fn listed_texts(
    alloc: Global,
    labels: &[Label<'_>],
    positions: &[usize],
    kind: LabelKind,
) -> Result<Vec<String>, AllocError>
    ensures { IfOk result (λ v. map string_bytes v.items
        ≡ listed_texts kind (map label_value labels.now) positions.now) }
{
    let mut texts = texts_at(alloc, labels, positions, kind)?;
    texts.dedup();
    Ok(texts)
}

/// The texts of the labels of a kind at some positions.
fn texts_at(
    alloc: Global,
    labels: &[Label<'_>],
    positions: &[usize],
    kind: LabelKind,
) -> Result<Vec<String>, AllocError>
    ensures { IfOk result (λ v. map string_bytes v.items
        ≡ texts_at kind labels.now positions.now) }
{
    let mut texts = Vec::new(alloc);
    for position in positions {
        note_text(alloc, labels, *position, kind, &mut texts)?;
    }
    Ok(texts)
}

/// Notes the text of the label at a position, if it is of a kind.
fn note_text(
    alloc: Global,
    labels: &[Label<'_>],
    position: usize,
    kind: LabelKind,
    texts: &mut Vec<String>,
) -> Result<(), AllocError>
    ensures { OnOk result (map string_bytes texts.new.items ≡ map string_bytes texts.old.items
        ++ text_at kind labels.now position) }
{
    match labels.get(position) {
        Some(label) => note_if(alloc, is_kind(label.kind, kind), label.text, texts),
        None => Ok(()),
    }
}

/// Whether a kind is the same as another one.
fn is_kind(kind: LabelKind, other: LabelKind) -> bool
    ensures { result ≡ is_kind other kind }
{
    match (kind, other) {
        (LabelKind::Wanted, LabelKind::Wanted)
        | (LabelKind::Other, LabelKind::Other)
        | (LabelKind::Root, LabelKind::Root) => true,
        (LabelKind::Wanted, LabelKind::Other | LabelKind::Root)
        | (LabelKind::Other, LabelKind::Wanted | LabelKind::Root)
        | (LabelKind::Root, LabelKind::Wanted | LabelKind::Other) => false,
    }
}
