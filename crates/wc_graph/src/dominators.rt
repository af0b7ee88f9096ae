//! Dominators in any graph: the items without which no path is left from roots to any of some targets.

ghost use Rattle.std.specs.Prelude.{◌≡◌, ◌<◌, All, IfErr, IfOk, false, replicate};
ghost use Rattle.wc_graph.specs.Dominators.{AreGraphDominators};
ghost use Rattle.wc_graph.specs.Search.{IsSearchFault, IsTreeOf};
ghost use Rattle.wc_graph.specs.Private.Dominators.{IsTreeAnswer};
ghost use Rattle.wc_graph.specs.Private.Ways.{IsChainTo, IsWay};

use crate::fronts::{find_dominators, up_to_first};
use crate::places::{marks_by, positions_at};
use crate::search::{Graph, SearchFault, find_all};
use crate::tree::{Tree, positions_of};
use std::alloc::{AllocError, Global};

/// For each item of a graph whether it is a dominator of targets: each path from a root to any target goes through
/// it, and it is no target itself. If no path leads to a target, there are no dominators.
///
/// It takes time linear in the part of the graph that the roots reach, and memory linear in the graph.
///
/// # Errors
///
/// - `NotClosed`: a reached item names an item that does not exist.
/// - `Memory`: an allocation failed.
pub fn dominators_in<G: Graph>(
    alloc: Global,
    graph: &G,
    roots: &[usize],
    targets: &[usize],
) -> Result<Vec<bool>, SearchFault>
    requires roots { All (λ x. x < G.size graph.now) roots.now }
    requires targets { All (λ x. x < G.size graph.now) targets.now }
    ensures dominators { IfOk result (λ v. AreGraphDominators (G.names graph.now)
        (G.size graph.now) roots.now targets.now v.items) }
    ensures fault { IfErr result
        (IsSearchFault (G.names graph.now) (G.is_closed graph.now) roots.now) }
{
    let tree = find_all(alloc, graph, roots)?;
    match dominators_by(alloc, graph, &tree, roots, targets) {
        Ok(marks) => Ok(marks),
        Err(AllocError) => Err(SearchFault::Memory),
    }
}

/// The dominators of targets, by the items that the roots reach.
fn dominators_by<G: Graph>(
    alloc: Global,
    graph: &G,
    tree: &Tree,
    roots: &[usize],
    targets: &[usize],
) -> Result<Vec<bool>, AllocError>
    requires roots { All (λ x. x < G.size graph.now) roots.now }
    requires targets { All (λ x. x < G.size graph.now) targets.now }
    requires tree { IsTreeOf (G.names graph.now) roots.now tree.now }
    requires there { All (λ x. x < G.size graph.now) tree.now.order.items }
    ensures { IfOk result (λ v. AreGraphDominators (G.names graph.now) (G.size graph.now)
        roots.now targets.now v.items) }
{
    let size = graph.len();
    match chain_to_first(alloc, tree, size, targets)? {
        Some(chain) => dominators_on(alloc, graph, roots, targets, &chain),
        None => no_dominators(alloc, size),
    }
}

/// The shortest chain to the first of some targets to which one leads; `None` where none leads to any.
fn chain_to_first(
    alloc: Global,
    tree: &Tree,
    size: usize,
    targets: &[usize],
) -> Result<Option<Vec<usize>>, AllocError>
    requires there { All (λ x. x < size) tree.now.order.items }
    requires targets { All (λ x. x < size) targets.now }
    ensures { IfOk result (IsTreeAnswer tree.now size targets.now) }
{
    let places = tree.places(alloc, size)?;
    let found = positions_at(alloc, &places, targets)?;
    match found.get(0) {
        Some(position) => {
            let chain = tree.chain(alloc, *position)?;
            Ok(Some(chain))
        }
        None => Ok(None),
    }
}

/// The marks of a number of items, none of which is a dominator.
fn no_dominators(alloc: Global, size: usize) -> Result<Vec<bool>, AllocError>
    ensures { IfOk result (λ v. v.items ≡ replicate size false) }
{
    let marks = vec![in alloc; false; size]?;
    Ok(marks)
}

/// The dominators of targets, by a path to one of them that has each item once.
fn dominators_on<G: Graph>(
    alloc: Global,
    graph: &G,
    roots: &[usize],
    targets: &[usize],
    chain: &[usize],
) -> Result<Vec<bool>, AllocError>
    requires roots { All (λ x. x < G.size graph.now) roots.now }
    requires targets { All (λ x. x < G.size graph.now) targets.now }
    requires there { All (λ x. x < G.size graph.now) chain.now }
    requires leads { IsChainTo (G.names graph.now) roots.now targets.now chain.now }
    ensures { IfOk result (λ v. AreGraphDominators (G.names graph.now) (G.size graph.now)
        roots.now targets.now v.items) }
{
    let places = positions_of(alloc, targets, graph.len())?;
    let count = up_to_first(&places, chain);
    dominators_on_way(alloc, graph, roots, targets, &chain[..count])
}

/// The dominators of targets, by a way to one of them.
fn dominators_on_way<G: Graph>(
    alloc: Global,
    graph: &G,
    roots: &[usize],
    targets: &[usize],
    way: &[usize],
) -> Result<Vec<bool>, AllocError>
    requires roots { All (λ x. x < G.size graph.now) roots.now }
    requires targets { All (λ x. x < G.size graph.now) targets.now }
    requires there { All (λ x. x < G.size graph.now) way.now }
    requires way { IsWay (G.names graph.now) roots.now targets.now way.now }
    ensures { IfOk result (λ v. AreGraphDominators (G.names graph.now) (G.size graph.now)
        roots.now targets.now v.items) }
{
    let marks = find_dominators(alloc, graph, roots, targets, way)?;
    let places = positions_of(alloc, way, graph.len())?;
    marks_by(alloc, &places, &marks)
}
