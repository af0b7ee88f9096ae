//! The number of items of each kind, and the numbering of all items in one row.

ghost use Rattle.std.specs.Prelude.{◌≡◌, ◌<◌, ◌≤◌, ◌^◌, [], ◌∷◌, ◌++◌, IfOk, IfSome, OnOk, map, filter, true, None};
ghost use Rattle.std.specs.List.{list_all};
ghost use Rattle.wc_read.specs.Decoded.{decoded_module};
ghost use Rattle.wc_segments.specs.Segments.{segments_value};
ghost use Rattle.wc_paths.specs.Counts.{counts_value};
ghost use Rattle.wc_paths.specs.Items.{counts_of, has_item};
ghost use Rattle.wc_paths.specs.Numbers.{item_at, item_count, number_of};

use crate::items::PathItem;
use std::alloc::{AllocError, Global};
use wc_read::{Module, Space};
use wc_segments::Segments;

/// How many items there are of each kind (WebAssembly core specification, 2.5.1).
#[derive(Clone, Copy, Debug, PartialEq, Eq)]
pub struct Counts {
    pub types: usize,
    pub funcs: usize,
    pub tables: usize,
    pub memories: usize,
    pub globals: usize,
    pub elements: usize,
    pub data_segments: usize,
}

/// How many items a module has, its segments among them.
#[tactic(auto, unfolding(wc_read::specs::Decoded::decoded_module))]
pub fn counts_of(module: &Module<'_>, segments: &Segments<'_>) -> Counts
    ensures { counts_value result ≡ counts_of
        (record { code = decoded_module «module».now; segments = segments_value segments.now }) }
{
    Counts {
        types: module.types.len(),
        funcs: module.funcs.len(),
        tables: module.tables.len(),
        memories: module.memories.len(),
        globals: module.globals.len(),
        elements: segments.elements.len(),
        data_segments: segments.data.len(),
    }
}

/// How many items there are in all; `None` where that is no number of 64 bits.
pub fn item_count(counts: &Counts) -> Option<usize>
    ensures some { IfSome result (λ n. n ≡ item_count (counts_value counts.now)) }
    ensures none { result ≡ None → 2 ^ 64 ≤ item_count (counts_value counts.now) }
{
    let segments = counts.elements.checked_add(counts.data_segments)?;
    let globals = counts.globals.checked_add(segments)?;
    let memories = counts.memories.checked_add(globals)?;
    let tables = counts.tables.checked_add(memories)?;
    let funcs = counts.funcs.checked_add(tables)?;
    counts.types.checked_add(funcs)
}

/// Whether there is an item.
pub fn has_item(counts: &Counts, item: PathItem) -> bool
    ensures { result ≡ has_item (counts_value counts.now) item }
{
    match item {
        PathItem::Item(Space::Types, index) => index < counts.types,
        PathItem::Item(Space::Funcs, index) => index < counts.funcs,
        PathItem::Item(Space::Tables, index) => index < counts.tables,
        PathItem::Item(Space::Memories, index) => index < counts.memories,
        PathItem::Item(Space::Globals, index) => index < counts.globals,
        PathItem::Elements(index) => index < counts.elements,
        PathItem::Data(index) => index < counts.data_segments,
    }
}

/// The number of an item in the row of all: how many are of kinds before its own, and its index.
pub fn number_of(counts: &Counts, item: PathItem) -> usize
    requires fits { item_count (counts_value counts.now) < 2 ^ 64 }
    requires there { has_item (counts_value counts.now) item ≡ true }
    ensures { result ≡ number_of (counts_value counts.now) item }
{
    match item {
        PathItem::Item(Space::Types, index) => index,
        PathItem::Item(Space::Funcs, index) => counts.types + index,
        PathItem::Item(Space::Tables, index) => counts.types + (counts.funcs + index),
        PathItem::Item(Space::Memories, index) => {
            counts.types + (counts.funcs + (counts.tables + index))
        }
        PathItem::Item(Space::Globals, index) => {
            counts.types + (counts.funcs + (counts.tables + (counts.memories + index)))
        }
        PathItem::Elements(index) => {
            counts.types
                + (counts.funcs + (counts.tables + (counts.memories + (counts.globals + index))))
        }
        PathItem::Data(index) => {
            counts.types
                + (counts.funcs
                    + (counts.tables
                        + (counts.memories + (counts.globals + (counts.elements + index)))))
        }
    }
}

/// The item of a number in the row of all.
#[tactic(auto, unfolding(crate::specs::Numbers::item_at))]
pub fn item_at(counts: &Counts, number: usize) -> PathItem
    ensures { result ≡ item_at (counts_value counts.now) number }
{
    if number < counts.types {
        return PathItem::Item(Space::Types, number);
    }
    let funcs = number - counts.types;
    if funcs < counts.funcs {
        return PathItem::Item(Space::Funcs, funcs);
    }
    let tables = funcs - counts.funcs;
    if tables < counts.tables {
        return PathItem::Item(Space::Tables, tables);
    }
    let memories = tables - counts.tables;
    if memories < counts.memories {
        return PathItem::Item(Space::Memories, memories);
    }
    let globals = memories - counts.memories;
    if globals < counts.globals {
        return PathItem::Item(Space::Globals, globals);
    }
    let elements = globals - counts.globals;
    if elements < counts.elements {
        return PathItem::Elements(elements);
    }
    PathItem::Data(elements - counts.elements)
}

/// Appends the number of an item that is there, and answers whether it is.
fn put_number(counts: &Counts, item: PathItem, out: &mut Vec<usize>) -> Result<bool, AllocError>
    requires { item_count (counts_value counts.now) < 2 ^ 64 }
    ensures numbers { OnOk result (out.new.items ≡ out.old.items ++ map
        (number_of (counts_value counts.now))
        (filter (has_item (counts_value counts.now)) (item ∷ []))) }
    ensures there { IfOk result (λ there. there ≡ has_item (counts_value counts.now) item) }
{
    if !has_item(counts, item) {
        return Ok(false);
    }
    out.push(number_of(counts, item))?;
    Ok(true)
}

/// Appends the numbers of items that are there, and answers whether all are.
pub fn put_numbers(
    counts: &Counts,
    items: &[PathItem],
    out: &mut Vec<usize>,
) -> Result<bool, AllocError>
    requires { item_count (counts_value counts.now) < 2 ^ 64 }
    ensures numbers { OnOk result (out.new.items ≡ out.old.items ++ map
        (number_of (counts_value counts.now))
        (filter (has_item (counts_value counts.now)) items.now)) }
    ensures there { IfOk result
        (λ there. there ≡ list_all (has_item (counts_value counts.now)) items.now) }
{
    let mut there = true;
    for item in items {
        there &= put_number(counts, *item, out)?;
    }
    Ok(there)
}

/// The numbers of items that are there.
pub fn numbers_of(
    alloc: Global,
    counts: &Counts,
    items: &[PathItem],
) -> Result<Vec<usize>, AllocError>
    requires { item_count (counts_value counts.now) < 2 ^ 64 }
    ensures { IfOk result (λ v. v.items ≡ map (number_of (counts_value counts.now))
        (filter (has_item (counts_value counts.now)) items.now)) }
{
    let mut numbers = Vec::new(alloc);
    put_numbers(counts, items, &mut numbers)?;
    Ok(numbers)
}
