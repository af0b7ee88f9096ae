//! Which items of one path, the way, are on all paths from roots to targets.
//!
//! One search finds them all. It begins at the roots, and stops at each item of the way and at each target. `last` is
//! the last position of the way that it has met; a target counts as the last of all. For each position k in turn,
//! once the search is exhausted: if `last` is k, no path avoids the item at k, and the item is marked. Then the
//! search goes on from that item.

ghost use Rattle.std.specs.Prelude.{◌≡◌, List, ℕ, ◌+◌, ◌-◌, ◌<◌, ◌≤◌, ◌⊎◌, All, IfOk, OnOk, length};
ghost use Rattle.wc_graph.specs.Private.Fronts.{BeginsFront, IsReady, KeepsFront};
ghost use Rattle.wc_graph.specs.Tree.{ArePlaces};
ghost use Rattle.wc_graph.specs.Private.Ways.{AreDominators, ArePositions, IsCut, IsStopped, IsWay};

use crate::search::{Graph, Search};
use crate::tree::positions_of;
use std::alloc::{AllocError, Global};

/// A search that stops at the items of a way, and at targets.
#[derive(Drop)]
pub(crate) struct Front {
    search: Search,
    /// For each item its position in the way, if it is on it; a target has the last position.
    positions: Vec<Option<usize>>,
    /// How many of the items that were found were passed.
    next: usize,
    /// The last position in the way that was passed.
    last: usize,
}

impl Front {
    /// A search that has found the roots.
    fn new<G: Graph>(
        alloc: Global,
        graph: &G,
        roots: &[usize],
        positions: Vec<Option<usize>>,
    ) -> Result<Front, AllocError>
        requires roots { All (λ x. x < G.size graph.now) roots.now }
        requires each { length positions.items ≡ G.size graph.now }
        ensures ready { IfOk result (λ f. IsReady f (G.size graph.now)) }
        ensures begins { IfOk result
            (BeginsFront (G.names graph.now) roots.now positions.items) }
    {
        let mut search = Search::new(alloc, graph.len())?;
        search.reach_each(roots)?;
        Ok(Front {
            search,
            positions,
            next: 0,
            last: 0,
        })
    }

    /// Passes the next item: notes its position in the way, or goes on from it.
    fn pass<G: Graph>(&mut self, alloc: Global, graph: &G) -> Result<(), AllocError>
        requires ready { IsReady self.old (G.size graph.now) }
        requires there { self.old.next < length self.old.search.order.items }
        ensures ready { OnOk result (IsReady self.new (G.size graph.now)) }
        ensures next { OnOk result (self.new.next ≡ self.old.next + 1) }
        ensures kept { OnOk result (KeepsFront (G.names graph.now) self.old self.new) }
    {
        let item = self.search.order[self.next];
        match self.positions[item] {
            Some(position) => {
                self.last = later(self.last, position);
                self.next += 1;
                Ok(())
            }
            None => {
                self.search.reach_names(alloc, graph, item)?;
                self.next += 1;
                Ok(())
            }
        }
    }

    /// Passes all items that are found.
    fn go_round<G: Graph>(&mut self, alloc: Global, graph: &G) -> Result<(), AllocError>
        requires { IsReady self.old (G.size graph.now) }
        ensures ready { OnOk result (IsReady self.new (G.size graph.now)) }
        ensures all { OnOk result (length self.new.search.order.items ≤ self.new.next) }
        ensures kept { OnOk result (KeepsFront (G.names graph.now) self.old self.new) }
    {
        while self.next < self.search.order.len() {
            self.pass(alloc, graph)?;
        }
        Ok(())
    }
}

/// Which items of a way are marked: those on all paths from roots to targets that are no targets themselves. It takes
/// time linear in the part of the graph that the roots reach, and memory linear in the graph.
///
/// # Errors
///
/// `AllocError`: an allocation failed.
pub fn find_dominators<G: Graph>(
    alloc: Global,
    graph: &G,
    roots: &[usize],
    targets: &[usize],
    way: &[usize],
) -> Result<Vec<bool>, AllocError>
    requires roots { All (λ x. x < G.size graph.now) roots.now }
    requires targets { All (λ x. x < G.size graph.now) targets.now }
    requires there { All (λ x. x < G.size graph.now) way.now }
    requires way { IsWay (G.names graph.now) roots.now targets.now way.now }
    ensures { IfOk result (λ v.
        AreDominators (G.names graph.now) roots.now targets.now way.now v.items) }
{
    let positions = way_positions(alloc, graph, targets, way)?;
    let mut front = Front::new(alloc, graph, roots, positions)?;
    let mut marks = Vec::new(alloc);
    for index in 0..way.len() - 1 {
        front.go_round(alloc, graph)?;
        marks.push(front.last == index)?;
        front.search.reach_names(alloc, graph, way[index])?;
    }
    marks.push(false)?;
    Ok(marks)
}

/// For each item its position in a way, if it is on it; for each target the last position.
fn way_positions<G: Graph>(
    alloc: Global,
    graph: &G,
    targets: &[usize],
    way: &[usize],
) -> Result<Vec<Option<usize>>, AllocError>
    requires targets { All (λ x. x < G.size graph.now) targets.now }
    requires there { All (λ x. x < G.size graph.now) way.now }
    requires some { 0 < length way.now }
    ensures { IfOk result (λ v. (roots : List ℕ)
        → IsWay (G.names graph.now) roots targets.now way.now
        → ArePositions targets.now way.now (G.size graph.now) v.items) }
{
    let last = way.len() - 1;
    let mut positions = positions_of(alloc, &way[..last], graph.len())?;
    stop_at(&mut positions, targets, last);
    Ok(positions)
}

/// Notes this position for each of some items.
fn stop_at(positions: &mut Vec<Option<usize>>, items: &[usize], position: usize)
    requires { All (λ x. x < length positions.old.items) items.now }
    ensures { IsStopped items.now position positions.old.items positions.new.items }
{
    for item in items {
        positions[*item] = Some(position);
    }
}

/// The later of two positions.
fn later(last: usize, position: usize) -> usize
    ensures one { (result ≡ last) ⊎ (result ≡ position) }
    ensures last { last ≤ result }
    ensures position { position ≤ result }
{
    if position > last { position } else { last }
}

/// How many items a chain has up to and with its first target; all, if it has no target. `places`: the positions of
/// targets.
pub fn up_to_first(places: &[Option<usize>], chain: &[usize]) -> usize
    requires { All (λ x. x < length places.now) chain.now }
    ensures { (targets : List ℕ) (size : ℕ) → ArePlaces targets size places.now
        → IsCut targets chain.now result }
{
    for position in 0..chain.len() {
        let item = chain[position];
        match places[item] {
            Some(_) => return position + 1,
            None => {}
        }
    }
    chain.len()
}
