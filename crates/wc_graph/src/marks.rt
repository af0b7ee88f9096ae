//! Words of labels: a bit of an item's word says whether the item has that label.

ghost use Rattle.std.specs.Prelude.{◌≡◌, ◌↔◌, ◌<◌, ◌≤◌, ◌^◌, ◌+◌, ◌-◌, ◌==◌, ℕ, IfOk, Some, length, min};
ghost use Rattle.std.specs.Int.{bit_at};
ghost use Rattle.std.specs.Int.Bits.{bit_xor};
ghost use Rattle.std.specs.List.{slice_get};
ghost use Rattle.wc_graph.specs.Positions.{AreBelow, IsAt, sets_view};
ghost use Rattle.wc_graph.specs.Private.Marks.{AreGathered, AreLabelsAt, AreLabelsOf, AreOthers, AreSetLabels, IsJoined};

use std::alloc::{AllocError, Global};

/// Adds the labels of a word to the labels of an item, unless it is `None`.
fn join(words: &mut Vec<u64>, item: Option<usize>, word: u64)
    requires { (x : ℕ) → item ≡ Some x → x < length words.old.items }
    ensures { IsJoined item word words.old.items words.new.items }
{
    match item {
        Some(item) => {
            words[item] = words[item] | word;
        }
        None => {}
    }
}

/// The word that has one label.
fn label(bit: usize) -> u64
    requires { bit < 64 }
    ensures { result ≡ 2 ^ bit }
{
    1 << bit
}

/// Whether a word has a label.
pub(crate) fn has_label(word: u64, bit: usize) -> bool
    requires { bit < 64 }
    ensures { result ≡ bit_at word bit == 1 }
{
    (word >> bit) & 1 == 1
}

/// The end of at most `most` elements from a position on, in a list of `count`.
pub(crate) fn end_of(start: usize, most: usize, count: usize) -> usize
    requires { start ≤ count }
    ensures { result ≡ min (start + most) count }
{
    if count - start < most {
        count
    } else {
        start + most
    }
}

/// The labels of up to 64 sources from a position on, each at its item.
pub(crate) fn labels_at(
    alloc: Global,
    size: usize,
    sources: &[Option<usize>],
    start: usize,
) -> Result<Vec<u64>, AllocError>
    requires below { AreBelow size sources.now }
    requires start { start ≤ length sources.now }
    ensures { IfOk result (λ v. AreLabelsAt sources.now start size v.items) }
{
    let mut labels = vec![in alloc; 0; size]?;
    let end = end_of(start, 64, sources.len());
    for position in start..end {
        join(&mut labels, sources[position], label(position - start));
    }
    Ok(labels)
}

/// The labels that the items of each owner have together.
pub(crate) fn gather(
    alloc: Global,
    words: &[u64],
    owners: &[Option<usize>],
    count: usize,
) -> Result<Vec<u64>, AllocError>
    requires sized { length owners.now ≡ length words.now }
    requires below { AreBelow count owners.now }
    ensures { IfOk result (λ v. AreGathered words.now owners.now count v.items) }
{
    let mut gathered = vec![in alloc; 0; count]?;
    for item in 0..owners.len() {
        join(&mut gathered, owners[item], words[item]);
    }
    Ok(gathered)
}

/// Labels the items of some sources, which are named by their positions.
fn mark_each(labels: &mut Vec<u64>, sources: &[Option<usize>], positions: &[usize], bit: usize)
    requires bit { bit < 64 }
    requires below { AreBelow (length labels.old.items) sources.now }
    ensures { AreLabelsOf sources.now positions.now bit labels.old.items labels.new.items }
{
    for position in positions {
        join(labels, source_at(sources, *position), label(bit));
    }
}

/// The item of the source at a position, if there is one.
fn source_at(sources: &[Option<usize>], position: usize) -> Option<usize>
    ensures { (x : ℕ) → (result ≡ Some x) ↔ IsAt sources.now position x }
{
    match sources.get(position) {
        Some(source) => *source,
        None => None,
    }
}

/// The labels of up to 63 sets of sources from a position on, each at the items of its sources. A set has positions
/// of sources.
pub(crate) fn set_labels(
    alloc: Global,
    size: usize,
    sources: &[Option<usize>],
    sets: &[Vec<usize>],
    start: usize,
) -> Result<Vec<u64>, AllocError>
    requires below { AreBelow size sources.now }
    requires start { start ≤ length sets.now }
    ensures { IfOk result (λ v. AreSetLabels sources.now (sets_view sets.now) start size v.items) }
{
    let mut labels = vec![in alloc; 0; size]?;
    let end = end_of(start, 63, sets.len());
    for position in start..end {
        mark_each(&mut labels, sources, &sets[position], position - start);
    }
    Ok(labels)
}

/// For each item of a source the labels that it has not.
pub(crate) fn others(
    alloc: Global,
    sources: &[Option<usize>],
    labels: &[u64],
) -> Result<Vec<u64>, AllocError>
    requires { AreBelow (length labels.now) sources.now }
    ensures { IfOk result (λ v. AreOthers sources.now labels.now v.items) }
{
    let mut others = vec![in alloc; 0; labels.len()]?;
    for position in 0..sources.len() {
        join(
            &mut others,
            sources[position],
            missing(labels, sources[position]),
        );
    }
    Ok(others)
}

/// The labels that an item has not.
fn missing(labels: &[u64], item: Option<usize>) -> u64
    ensures { (x w : ℕ) → item ≡ Some x → slice_get labels.now x ≡ Some w
        → result ≡ bit_xor w (2 ^ 64 - 1) }
{
    match item {
        Some(item) => match labels.get(item) {
            Some(word) => *word ^ u64::MAX,
            None => 0,
        },
        None => 0,
    }
}
