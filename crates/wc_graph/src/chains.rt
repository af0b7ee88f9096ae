//! The shortest chain to each item that roots reach.

ghost use Rattle.std.specs.Prelude.{◌≡◌, ◌<◌, ℕ, All, IfErr, IfOk, IsOk, length, Some, true};
ghost use Rattle.std.specs.List.{slice_get};
ghost use Rattle.wc_graph.specs.Reached.{IsReachedFrom};
ghost use Rattle.wc_graph.specs.Search.{IsSearchFault};

use crate::chain_marks::on_chains;
use crate::places::{is_missing_at, marks_by, missing_of, place_at, positions_at};
use crate::search::{Graph, SearchFault, find_all};
use crate::tree::Tree;
use std::alloc::{AllocError, Global};

/// The items of a graph that roots reach, and the position of each item among them.
#[derive(Drop)]
pub struct Chains {
    tree: Tree,
    places: Vec<Option<usize>>,
    ghost within: { (x k : ℕ) → slice_get places.items x ≡ Some (Some k)
        → k < length tree.order.items },
}

impl Chains {
    ghost use Rattle.std.specs.Prelude.{filter, not};
    ghost use Rattle.wc_graph.specs.Chains.{AreChains, IsChainAnswer};
    ghost use Rattle.wc_graph.specs.OnChains.{AreMarkedTo};
    ghost use Rattle.wc_graph.specs.Private.Places.{is_missing_at, place_at};

    /// The shortest chain from a root to an item; `None` if no chain leads there. If several are shortest, it is the
    /// first in the order of the roots, and then in the order in which each item names others. It takes time and
    /// memory linear in the length of this chain.
    ///
    /// # Errors
    ///
    /// `AllocError`: an allocation failed.
    pub fn chain(&self, alloc: Global, item: usize) -> Result<Option<Vec<usize>>, AllocError>
        requires { item < length self.now.places.items }
        ensures { IfOk result (IsChainAnswer self.now item) }
    {
        match self.places[item] {
            Some(position) => {
                let chain = self.tree.chain(alloc, position)?;
                Ok(Some(chain))
            }
            None => Ok(None),
        }
    }

    /// For each item whether it is on the shortest chain to one of some items. It takes time and memory linear in the
    /// graph and in these items, however long their chains are.
    ///
    /// # Errors
    ///
    /// `AllocError`: an allocation failed.
    pub fn on_chains(&self, alloc: Global, items: &[usize]) -> Result<Vec<bool>, AllocError>
        requires { All (λ x. x < length self.now.places.items) items.now }
        ensures { IfOk result (λ v. AreMarkedTo self.now items.now v.items) }
    {
        let targets = positions_at(alloc, &self.places, items)?;
        let marks = on_chains(alloc, &self.tree.finder, &targets)?;
        marks_by(alloc, &self.places, &marks)
    }

    /// Whether a chain leads to an item.
    pub fn has(&self, item: usize) -> bool
        ensures { result ≡ not (is_missing_at self.now.places.items item) }
    {
        !is_missing_at(&self.places, item)
    }

    /// The items that roots reach, in the order in which they were found.
    pub fn found(&self) -> &[usize]
        ensures { result.now ≡ self.now.tree.order.items }
    {
        &self.tree.order
    }

    /// For each of them the position of its finder among them; that of a root is its own.
    pub fn finders(&self) -> &[usize]
        ensures { result.now ≡ self.now.tree.finder.items }
    {
        &self.tree.finder
    }

    /// The position of an item among the found items; `None` if no root reaches it.
    pub fn place(&self, item: usize) -> Option<usize>
        ensures { result ≡ place_at self.now.places.items item }
    {
        place_at(&self.places, item)
    }

    /// The items among these to which no chain leads, in order.
    pub fn missing_of(&self, alloc: Global, items: &[usize]) -> Result<Vec<usize>, AllocError>
        ensures { IfOk result (λ v. v.items
            ≡ filter (is_missing_at self.now.places.items) items.now) }
    {
        missing_of(alloc, &self.places, items)
    }

    /// Finds the items that roots reach, with the chains that lead there. It takes time and memory linear in the
    /// reached part of the graph, and memory linear in the graph.
    ///
    /// # Errors
    ///
    /// - `NotClosed`: a reached item names an item that does not exist.
    /// - `Memory`: an allocation failed.
    pub fn find<G: Graph>(alloc: Global, graph: &G, roots: &[usize]) -> Result<Chains, SearchFault>
        requires { All (λ x. x < G.size graph.now) roots.now }
        ensures chains { IfOk result
            (AreChains (G.names graph.now) roots.now (G.size graph.now)) }
        ensures closed { IsOk result → (x : ℕ) → IsReachedFrom (G.names graph.now) roots.now x
            → G.is_closed graph.now x ≡ true }
        ensures fault { IfErr result
            (IsSearchFault (G.names graph.now) (G.is_closed graph.now) roots.now) }
    {
        let tree = find_all(alloc, graph, roots)?;
        let places = tree.places(alloc, graph.len())?;
        Ok(Chains { tree, places })
    }
}
