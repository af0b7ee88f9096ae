//! Positions of items that were found, and marks of items by marks of positions.

ghost use Rattle.std.specs.Prelude.{◌≡◌, ◌||◌, IfOk, length, map, filter};
ghost use Rattle.std.specs.List.{filter_map, range_with_len};
ghost use Rattle.wc_graph.specs.ChainMarks.{is_set};
ghost use Rattle.wc_graph.specs.Private.Places.{is_missing_at, is_set_in, mark_by, place_at};

use std::alloc::{AllocError, Global};

/// The position of an item; `None` where it was not found.
pub(crate) fn place_at(places: &[Option<usize>], item: usize) -> Option<usize>
    ensures { result ≡ place_at places.now item }
{
    match places.get(item) {
        Some(place) => *place,
        None => None,
    }
}

/// Whether an item was not found.
pub(crate) fn is_missing_at(places: &[Option<usize>], item: usize) -> bool
    ensures { result ≡ is_missing_at places.now item }
{
    match place_at(places, item) {
        Some(_) => false,
        None => true,
    }
}

/// The positions of those of some items that were found, in order.
pub(crate) fn positions_at(
    alloc: Global,
    places: &[Option<usize>],
    items: &[usize],
) -> Result<Vec<usize>, AllocError>
    ensures { IfOk result (λ v. v.items ≡ filter_map (place_at places.now) items.now) }
{
    items
        .iter()
        .filter_map(|item| place_at(places, *item))
        .collect(alloc)
}

/// Those of some items that were not found, in order.
pub(crate) fn missing_of(
    alloc: Global,
    places: &[Option<usize>],
    items: &[usize],
) -> Result<Vec<usize>, AllocError>
    ensures { IfOk result (λ v. v.items ≡ filter (is_missing_at places.now) items.now) }
{
    items
        .iter()
        .copied()
        .filter(|item| is_missing_at(places, *item))
        .collect(alloc)
}

/// Whether a mark is set.
pub fn is_set(marks: &[bool], index: usize) -> bool
    ensures { result ≡ is_set marks.now index }
{
    match marks.get(index) {
        Some(mark) => *mark,
        None => false,
    }
}

/// The mark of an item, by those of positions.
fn mark_by(marks: &[bool], place: Option<usize>) -> bool
    ensures { result ≡ mark_by marks.now place }
{
    match place {
        Some(position) => is_set(marks, position),
        None => false,
    }
}

/// For each item the mark of its position.
pub(crate) fn marks_by(
    alloc: Global,
    places: &[Option<usize>],
    marks: &[bool],
) -> Result<Vec<bool>, AllocError>
    ensures { IfOk result (λ v. v.items ≡ map (mark_by marks.now) places.now) }
{
    places
        .iter()
        .map(|place| mark_by(marks, *place))
        .collect(alloc)
}

/// Whether a mark is set in one of two lists.
fn is_set_in(first: &[bool], second: &[bool], index: usize) -> bool
    ensures { result ≡ is_set_in first.now second.now index }
{
    is_set(first, index) || is_set(second, index)
}

/// Marks of what is marked in one of two lists.
pub fn either(alloc: Global, first: &[bool], second: &[bool]) -> Result<Vec<bool>, AllocError>
    ensures { IfOk result (λ v. v.items
        ≡ map (is_set_in first.now second.now) (range_with_len 0 (length first.now))) }
{
    (0..first.len())
        .map(|index| is_set_in(first, second, index))
        .collect(alloc)
}
