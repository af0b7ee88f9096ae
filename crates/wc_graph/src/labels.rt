//! Labels that are spread along a graph, 64 at a time: the bits of a word for each item.

ghost use Rattle.std.specs.Prelude.{◌≡◌, ◌<◌, [], ◌∷◌, All, IfOk, OnOk, MatchOption, bit_or, length, slice_index, vec_len};
ghost use Rattle.wc_graph.specs.Labels.{IsSpread};
ghost use Rattle.wc_graph.specs.Private.Labels.{AreNoted, Comes, IsJoined, IsNoted};

use crate::search::Graph;
use std::alloc::{AllocError, Global};

/// Labels while they spread: the labels that have come to each item, and the items that have yet to pass theirs on.
#[derive(Drop)]
struct Spreading {
    words: Vec<u64>,
    waiting: Vec<usize>,
}

impl Spreading {
    /// Adds labels to the labels of an item. The item waits if it lacked one of them.
    fn add(&mut self, item: usize, word: u64) -> Result<(), AllocError>
        requires { item < vec_len self.old.words }
        ensures come { OnOk result (Comes word (item ∷ []) self.old self.new) }
        ensures size { vec_len self.new.words ≡ vec_len self.old.words }
    {
        match joined(self.words[item], word) {
            Some(all) => {
                self.waiting.push(item)?;
                self.words[item] = all;
                Ok(())
            }
            None => Ok(()),
        }
    }

    /// Adds labels to the labels of some items.
    fn add_each(&mut self, items: &[usize], word: u64) -> Result<(), AllocError>
        requires { All (λ x. x < vec_len self.old.words) items.now }
        ensures come { OnOk result (Comes word items.now self.old self.new) }
        ensures size { vec_len self.new.words ≡ vec_len self.old.words }
    {
        for item in items {
            self.add(*item, word)?;
        }
        Ok(())
    }

    /// Passes the labels of an item on to the items that it names.
    fn pass_on<G: Graph>(&mut self, alloc: Global, graph: &G, item: usize) -> Result<(), AllocError>
        requires size { vec_len self.old.words ≡ G.size graph.now }
        requires there { item < G.size graph.now }
        ensures come { OnOk result (Comes (slice_index self.old.words.items item)
            (G.names graph.now item) self.old self.new) }
        ensures size { vec_len self.new.words ≡ vec_len self.old.words }
        ensures below { OnOk result (All (λ x. x < G.size graph.now) (G.names graph.now item)) }
    {
        let word = self.words[item];
        let mut named = Vec::new(alloc);
        graph.put_names(alloc, item, &mut named)?;
        self.add_each(&named, word)
    }
}

/// The labels of two words, if the first lacks one of them.
fn joined(old: u64, word: u64) -> Option<u64>
    ensures { MatchOption result (bit_or old word ≡ old) (IsJoined old word) }
{
    let all = old | word;
    if all == old { None } else { Some(all) }
}

/// The items that have labels.
fn labelled(alloc: Global, labels: &[u64]) -> Result<Vec<usize>, AllocError>
    ensures { IfOk result (λ v. AreNoted labels.now (length labels.now) v.items) }
{
    let mut waiting = Vec::new(alloc);
    for item in 0..labels.len() {
        note(&mut waiting, item, labels[item])?;
    }
    Ok(waiting)
}

/// Notes an item, if it has labels.
fn note(waiting: &mut Vec<usize>, item: usize, word: u64) -> Result<(), AllocError>
    ensures { OnOk result (IsNoted item word waiting.old.items waiting.new.items) }
{
    if word == 0 {
        return Ok(());
    }
    waiting.push(item)?;
    Ok(())
}

/// For each item the labels of all items from which a path leads to it. The labels of an item are the bits of its
/// word, and a path of no steps leads from an item to itself. So one call says for 64 sets of items which items each
/// set reaches.
///
/// An item passes its labels on at most 65 times, so the time is at most 65 times the number of all items'
/// references.
///
/// # Errors
///
/// `AllocError`: an allocation failed.
pub fn spread<G: Graph>(alloc: Global, graph: &G, labels: Vec<u64>) -> Result<Vec<u64>, AllocError>
    requires { vec_len labels ≡ G.size graph.now }
    ensures { IfOk result (λ words. IsSpread (G.names graph.now) labels.items words.items) }
{
    let waiting = labelled(alloc, &labels)?;
    let mut spread = Spreading {
        words: labels,
        waiting,
    };
    while let Some(item) = spread.waiting.pop() {
        spread.pass_on(alloc, graph, item)?;
    }
    Ok(spread.words)
}
