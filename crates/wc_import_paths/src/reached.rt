//! The functions of a module to which roots lead.

ghost use Rattle.std.specs.Prelude.{◌≡◌, IfErr, IfOk, IsOk, length};
ghost use Rattle.wc_paths.specs.Callers.{AreReached};
ghost use Rattle.wc_paths.specs.Counts.{counts_value};
ghost use Rattle.wc_paths.specs.Items.{GraphValue};
ghost use Rattle.wc_paths.specs.Paths.{AreClosed, IsFaultFrom, IsPathFault, IsReachedIn, IsReachedInAny};
ghost use Rattle.wc_import_paths.specs.Rows.{AreRowsFor};
ghost use Rattle.wc_import_paths.specs.Private.Reached.{AreMarked, IsFaultOf, IsFound, Marks, marks};

use crate::rows::ModuleRows;
use std::alloc::{AllocError, Global};
use wc_graph::{SearchFault, find_all};
use wc_paths::{Counts, PathFault, PathItem, item_at, numbers_of};
use wc_read::Space;

/// For each function of a module, whose rows these are, whether a root of either list leads to it.
///
/// # Errors
///
/// - `LiveBody`: a body that a root of either list reaches is no code, or names what is not there.
/// - `Memory`: an allocation failed.
pub(crate) fn reached_functions(
    alloc: Global,
    rows: &ModuleRows,
    first: &[PathItem],
    second: &[PathItem],
) -> Result<Vec<bool>, PathFault>
    ensures reached { (g : GraphValue) → AreRowsFor g rows.now
        → IfOk result (λ v. AreReached g first.now second.now v.items) }
    ensures fault { (g : GraphValue) → AreRowsFor g rows.now
        → IfErr result (IsPathFault g first.now second.now) }
    ensures closed { (g : GraphValue) → AreRowsFor g rows.now
        → IsOk result → AreClosed g (IsReachedInAny g first.now second.now) }
{
    let found = found_from(alloc, rows, first)?;
    let others = found_from(alloc, rows, second)?;
    Ok(marked(alloc, &rows.counts, &found, &others)?)
}

/// The numbers of the items that a list of roots reaches.
fn found_from(alloc: Global, rows: &ModuleRows, roots: &[PathItem]) -> Result<Vec<usize>, PathFault>
    ensures found { (g : GraphValue) → AreRowsFor g rows.now
        → IfOk result (λ v. IsFound g roots.now v.items) }
    ensures fault { (g : GraphValue) → AreRowsFor g rows.now
        → IfErr result (IsFaultFrom g (IsReachedIn g roots.now)) }
    ensures closed { (g : GraphValue) → AreRowsFor g rows.now
        → IsOk result → AreClosed g (IsReachedIn g roots.now) }
{
    let numbers = numbers_of(alloc, &rows.counts, roots)?;
    match find_all(alloc, &rows.rows, &numbers) {
        Ok(tree) => Ok(tree.order),
        Err(SearchFault::Memory) => Err(PathFault::Memory),
        Err(SearchFault::NotClosed(number)) => Err(live_body(item_at(&rows.counts, number))),
    }
}

/// The fault for an item that names what is not there.
fn live_body(item: PathItem) -> PathFault
    ensures { IsFaultOf item result }
{
    match item {
        PathItem::Item(Space::Funcs, index) => PathFault::LiveBody(index),
        // Other items name what is there: an allocation failed.
        _ => PathFault::Memory,
    }
}

/// For each function whether its number is in one of two lists.
fn marked(
    alloc: Global,
    counts: &Counts,
    first: &[usize],
    second: &[usize],
) -> Result<Vec<bool>, AllocError>
    ensures { IfOk result (λ v. AreMarked (counts_value counts.now) first.now second.now v.items) }
{
    let mut reached = vec![in alloc; false; counts.funcs]?;
    mark_all(counts, first, &mut reached);
    mark_all(counts, second, &mut reached);
    Ok(reached)
}

/// Marks the functions of these numbers.
fn mark_all(counts: &Counts, numbers: &[usize], reached: &mut Vec<bool>)
    ensures sized { length reached.new.items ≡ length reached.old.items }
    ensures marks { Marks (counts_value counts.now) numbers.now reached.old.items
        reached.new.items }
{
    for number in numbers {
        mark(item_at(counts, *number), reached);
    }
}

/// Marks a function.
fn mark(item: PathItem, reached: &mut Vec<bool>)
    ensures sized { length reached.new.items ≡ length reached.old.items }
    ensures marks { marks item reached.old.items reached.new.items }
{
    match item {
        PathItem::Item(Space::Funcs, index) => {
            if index < reached.len() {
                reached[index] = true;
            }
        }
        _ => {}
    }
}
