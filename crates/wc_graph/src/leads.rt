//! Which of some sources lead to which items, 64 sources at a time.

ghost use Rattle.std.specs.Prelude.{◌≡◌, IfOk, filter, length};
ghost use Rattle.std.specs.List.{range_with_len};
ghost use Rattle.wc_graph.specs.Leads.{AreLeads};
ghost use Rattle.wc_graph.specs.Positions.{AreBelow, sets_view};
ghost use Rattle.wc_graph.specs.Private.Leads.{AreBlocks, is_led};

use crate::labels::spread;
use crate::marks::{gather, has_label, labels_at};
use crate::search::Graph;
use std::alloc::{AllocError, Global};

/// For each of `count` owners the positions of the sources that lead to one of its items, in ascending order.
/// `sources` has the item of each source, and `owners` the owner of each item, if it has one. An item leads to
/// itself.
///
/// It takes the time of one `spread` for each 64 sources.
///
/// # Errors
///
/// `AllocError`: an allocation failed.
pub fn leading<G: Graph>(
    alloc: Global,
    graph: &G,
    sources: &[Option<usize>],
    owners: &[Option<usize>],
    count: usize,
) -> Result<Vec<Vec<usize>>, AllocError>
    requires sources { AreBelow (G.size graph.now) sources.now }
    requires sized { length owners.now ≡ G.size graph.now }
    requires owners { AreBelow count owners.now }
    ensures { IfOk result (λ v. AreLeads (G.names graph.now) sources.now owners.now count
        (sets_view v.items)) }
{
    let blocks = blocks_of(alloc, graph, sources, owners, count)?;
    let mut leads = Vec::new(alloc);
    for owner in 0..count {
        let positions = led_to(alloc, &blocks, owner, sources.len())?;
        leads.push(positions)?;
    }
    Ok(leads)
}

/// The words of owners, a list for each 64 sources.
fn blocks_of<G: Graph>(
    alloc: Global,
    graph: &G,
    sources: &[Option<usize>],
    owners: &[Option<usize>],
    count: usize,
) -> Result<Vec<Vec<u64>>, AllocError>
    requires sources { AreBelow (G.size graph.now) sources.now }
    requires sized { length owners.now ≡ G.size graph.now }
    requires owners { AreBelow count owners.now }
    ensures { IfOk result (λ v. AreBlocks (G.names graph.now) sources.now owners.now count
        (sets_view v.items)) }
{
    let mut blocks = Vec::new(alloc);
    for block in 0..sources.len() / 64 + 1 {
        let labels = labels_at(alloc, graph.len(), sources, block * 64)?;
        let words = spread(alloc, graph, labels)?;
        let gathered = gather(alloc, &words, owners, count)?;
        blocks.push(gathered)?;
    }
    Ok(blocks)
}

/// The positions of the sources that lead to an owner.
fn led_to(
    alloc: Global,
    blocks: &[Vec<u64>],
    owner: usize,
    count: usize,
) -> Result<Vec<usize>, AllocError>
    ensures { IfOk result (λ v. v.items
        ≡ filter (is_led (sets_view blocks.now) owner) (range_with_len 0 count)) }
{
    (0..count)
        .filter(|position| is_led(blocks, owner, *position))
        .collect(alloc)
}

/// Whether the source at a position leads to an owner.
fn is_led(blocks: &[Vec<u64>], owner: usize, position: usize) -> bool
    ensures { result ≡ is_led (sets_view blocks.now) owner position }
{
    match blocks.get(position / 64) {
        Some(words) => match words.get(owner) {
            Some(word) => has_label(*word, position % 64),
            None => false,
        },
        None => false,
    }
}
