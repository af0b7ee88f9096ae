//! Items that are reached from some sources alone, 63 sets of sources at a time.

ghost use Rattle.std.specs.Prelude.{◌≡◌, ◌<◌, ◌-◌, ◌^◌, ◌+◌, ◌++◌, ◌∷◌, [], IfOk, OnOk, if◌then◌else◌, length, map, min};
ghost use Rattle.std.specs.List.{sum_by};
ghost use Rattle.wc_graph.specs.Alone.{AreAlone};
ghost use Rattle.wc_graph.specs.Positions.{AreBelow, sets_view};
ghost use Rattle.wc_graph.specs.Private.Alone.{AreAppended, IsAloneBy, alone_among, is_alone};

use crate::labels::spread;
use crate::marks::{end_of, has_label, others, set_labels};
use crate::search::Graph;
use std::alloc::{AllocError, Global};

/// How many items are reached from some sources alone, and how large they are together.
#[derive(Clone, Copy, Debug, PartialEq, Eq)]
pub struct Alone {
    pub items: usize,
    /// The sum of their sizes, or the largest number if the sum is larger.
    pub size: usize,
}

/// For each set of sources, given by their positions: how many items are reached from it alone, and their size.
/// `items` has the items that may count, each with its size. Such an item is reached from sources, but not from an
/// item all of whose sources are outside the set.
///
/// It takes the time of one `spread` for each 63 sets, and visits the items once for each set.
///
/// # Errors
///
/// `AllocError`: an allocation failed.
pub fn reached_alone<G: Graph>(
    alloc: Global,
    graph: &G,
    sources: &[Option<usize>],
    items: &[(usize, usize)],
    sets: &[Vec<usize>],
) -> Result<Vec<Alone>, AllocError>
    requires { AreBelow (G.size graph.now) sources.now }
    ensures { IfOk result (λ v. AreAlone (G.names graph.now) sources.now items.now
        (sets_view sets.now) v.items) }
{
    let mut found = Vec::new(alloc);
    while found.len() < sets.len() {
        let labels = set_labels(alloc, graph.len(), sources, sets, found.len())?;
        let missing = others(alloc, sources, &labels)?;
        let words = spread(alloc, graph, missing)?;
        push_alone(alloc, &words, items, sets.len(), &mut found)?;
    }
    Ok(found)
}

/// Appends what is reached from the next sets alone: from 63 sets, or from fewer if `count` is reached.
fn push_alone(
    alloc: Global,
    words: &[u64],
    items: &[(usize, usize)],
    count: usize,
    found: &mut Vec<Alone>,
) -> Result<(), AllocError>
    requires { length found.old.items < count }
    ensures { OnOk result (AreAppended words.now items.now
        (min (length found.old.items + 63) count) found.old.items found.new.items) }
{
    let start = found.len();
    let end = end_of(start, 63, count);
    for position in start..end {
        let one = alone_by(alloc, words, items, position - start)?;
        found.push(one)?;
    }
    Ok(())
}

/// The items that are reached from a set alone, by its label: how many, and how large.
fn alone_by(
    alloc: Global,
    words: &[u64],
    items: &[(usize, usize)],
    bit: usize,
) -> Result<Alone, AllocError>
    requires { bit < 63 }
    ensures { IfOk result (IsAloneBy words.now items.now bit) }
{
    let sizes = sizes_of(alloc, words, items, bit)?;
    Ok(Alone {
        items: sizes.len(),
        size: sum_of(&sizes),
    })
}

/// The sizes of the items that are reached from a set alone.
fn sizes_of(
    alloc: Global,
    words: &[u64],
    items: &[(usize, usize)],
    bit: usize,
) -> Result<Vec<usize>, AllocError>
    requires { bit < 63 }
    ensures { IfOk result (λ v. v.items
        ≡ map (λ i. i.1) (alone_among words.now bit items.now)) }
{
    let mut sizes = Vec::new(alloc);
    for item in items {
        note_size(&mut sizes, is_alone(words, bit, item.0), item.1)?;
    }
    Ok(sizes)
}

/// Appends a size, if requested.
fn note_size(sizes: &mut Vec<usize>, is_asked: bool, size: usize) -> Result<(), AllocError>
    ensures { OnOk result (sizes.new.items
        ≡ sizes.old.items ++ (if is_asked then size ∷ [] else [])) }
{
    if is_asked {
        sizes.push(size)?;
    }
    Ok(())
}

/// Whether an item is reached from a set alone.
fn is_alone(words: &[u64], bit: usize, item: usize) -> bool
    requires { bit < 63 }
    ensures { result ≡ is_alone words.now bit item }
{
    match words.get(item) {
        Some(word) => has_label(*word, 63) && !has_label(*word, bit),
        None => false,
    }
}

/// The sum of some numbers, or the largest number if the sum is larger.
fn sum_of(sizes: &[usize]) -> usize
    ensures { result ≡ min (sum_by (λ n. n) sizes.now) (2 ^ 64 - 1) }
{
    let mut sum: usize = 0;
    for size in sizes {
        sum = sum.saturating_add(*size);
    }
    sum
}
