//! Chains from required exports to the items that they reach.

ghost use Rattle.std.specs.Prelude.{◌≡◌, ◌≤◌, ◌<◌, ℕ, length, slice_index, IfOk};
ghost use Rattle.wc_graph.specs.ShortestChains.{AreFinders, IsFinderChain};

use std::alloc::{AllocError, Global};
use wc_read::Space;

/// A chain of items of an adapter from a required export to one of them.
#[derive(Debug, Drop)]
pub struct Chain<'a> {
    /// The required export that names the first item: of several the first.
    pub export: &'a str,
    /// The items, each named by the one before it; there is at least one. The last is the one that was asked for.
    pub items: Vec<(Space, u32)>,
}

/// The chains to all items that required exports reach, as a tree, and where the imports are in it.
#[derive(Debug, Drop)]
pub struct ImportChains<'a> {
    /// The items, each once, in the order in which they were found: first those that the exports name, in the order of
    /// the required names.
    pub order: Vec<(Space, u32)>,
    /// For each of them the position in `order` of its finder, which is before it: the item that first names it. An
    /// item that an export names has its own position.
    pub finder: Vec<usize>,
    /// For each item that an export names, which are the first in `order`, the first required name that does.
    pub exports: Vec<&'a str>,
    /// For each import of the module, in the order of the file, the position of its item in `order`; `None` where it is
    /// not reached.
    pub imports: Vec<Option<usize>>,
    ghost finders: { AreFinders order.items finder.items },
    ghost named: { length exports.items ≤ length order.items },
    ghost roots: { (k : ℕ) → k < length order.items → slice_index finder.items k ≡ k
        → k < length exports.items },
}

impl<'a> ImportChains<'a> {
    ghost use Rattle.wc_gc.specs.LiveChains.{IsChainAt};

    /// The chain to the item at a position in `order`. It takes time and memory for the items of this chain alone.
    ///
    /// # Errors
    ///
    /// `AllocError`: an allocation failed.
    pub fn chain(&self, alloc: Global, position: usize) -> Result<Chain<'a>, AllocError>
        requires { position < length self.now.order.items }
        // It goes from finder to finder.
        ensures found { IfOk result (λ c.
            IsFinderChain self.now.order.items self.now.finder.items position c.items.items) }
        // In what `why_imports` answers it is the chain that `why` answers for this item.
        ensures chain { IfOk result (IsChainAt self.now position) }
    {
        let mut items = Vec::new(alloc);
        let mut at = position;
        items.push(self.order[at])?;
        while self.finder[at] != at {
            at = self.finder[at];
            items.push(self.order[at])?;
        }
        items.reverse();
        Ok(Chain {
            export: self.exports[at],
            items,
        })
    }
}
