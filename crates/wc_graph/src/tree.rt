//! The tree of a search: the items that it finds, with the chains that lead there.

ghost use Rattle.std.specs.Prelude.{◌<◌, All, IfOk, length};
ghost use Rattle.wc_graph.specs.ShortestChains.{AreFinders, IsFinderChain};
ghost use Rattle.wc_graph.specs.Tree.{ArePlaces};

use std::alloc::{AllocError, Global};

/// The items that roots reach, in the order in which they were found, and for each the position there of its finder. A
/// root is its own.
#[derive(Debug, Drop)]
pub struct Tree {
    pub order: Vec<usize>,
    pub finder: Vec<usize>,
    ghost finders: { AreFinders order.items finder.items },
}

impl Tree {
    /// The items from a root to the one at a position in `order`, each named by the one before it. It takes time and
    /// memory for these items alone.
    ///
    /// # Errors
    ///
    /// `AllocError`: an allocation failed.
    pub fn chain(&self, alloc: Global, position: usize) -> Result<Vec<usize>, AllocError>
        requires { position < length self.now.order.items }
        ensures { IfOk result (λ c.
            IsFinderChain self.now.order.items self.now.finder.items position c.items) }
    {
        let mut chain = Vec::new(alloc);
        let mut at = position;
        chain.push(self.order[at])?;
        while self.finder[at] != at {
            at = self.finder[at];
            chain.push(self.order[at])?;
        }
        chain.reverse();
        Ok(chain)
    }

    /// For each of so many items its position in `order`; `None` where it was not found.
    ///
    /// # Errors
    ///
    /// `AllocError`: an allocation failed.
    pub fn places(&self, alloc: Global, size: usize) -> Result<Vec<Option<usize>>, AllocError>
        requires { All (λ x. x < size) self.now.order.items }
        ensures { IfOk result (λ v. ArePlaces self.now.order.items size v.items) }
    {
        positions_of(alloc, &self.order, size)
    }
}

/// For each of so many items its position among some items; `None` where it is none of them.
pub fn positions_of(
    alloc: Global,
    items: &[usize],
    size: usize,
) -> Result<Vec<Option<usize>>, AllocError>
    requires { All (λ x. x < size) items.now }
    ensures { IfOk result (λ v. ArePlaces items.now size v.items) }
{
    let mut places = vec![in alloc; None; size]?;
    for position in 0..items.len() {
        let item = items[position];
        places[item] = Some(position);
    }
    Ok(places)
}
