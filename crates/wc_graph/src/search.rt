//! Searches over items that are numbered from 0, and name one another.

ghost use Rattle.std.specs.Prelude.{◌≡◌, ℕ, Bool, ◌<◌, List, [], ◌∷◌, ◌++◌, All, true, IfOk, IfErr, IsOk, OnOk, length, vec_len, slice_index};
ghost use Rattle.wc_graph.specs.Reached.{IsReachedFrom};
ghost use Rattle.wc_graph.specs.Search.{IsSearchFault, IsTreeOf};
ghost use Rattle.wc_graph.specs.Private.Search.{FindsItems, IsConsistent};

use crate::tree::Tree;
use std::alloc::{AllocError, AllocFailed, Global};

/// Items, numbered from 0, that name items.
pub trait Graph {
    /// How many items there are.
    ghost size: { Self → ℕ };

    /// The items that an item names, in its order.
    ghost names: { Self → ℕ → List ℕ };

    /// Whether an item names items alone that are there.
    ghost is_closed: { Self → ℕ → Bool };

    /// How many items there are.
    fn len(&self) -> usize
        ensures { result ≡ size self.now };

    /// Appends the items that an item names, and answers whether it names items alone that are there.
    ///
    /// # Errors
    ///
    /// `AllocError`: an allocation failed.
    fn put_names(
        &self,
        alloc: Global,
        item: usize,
        out: &mut Vec<usize>,
    ) -> Result<bool, AllocError>
        requires { item < size self.now }
        ensures names { OnOk result (out.new.items ≡ out.old.items ++ names self.now item) }
        ensures closed { IfOk result (λ closed. closed ≡ is_closed self.now item) }
        ensures below { IsOk result → All (λ x. x < size self.now) (names self.now item) };
}

/// Why a search has no end.
#[derive(Clone, Copy, Debug, PartialEq, Eq)]
pub enum SearchFault {
    /// An allocation failed.
    Memory,
    /// This item is reached, and names items that are not there.
    NotClosed(usize),
}

impl From<AllocError> for SearchFault {
    ghost use Rattle.wc_graph.specs.declared.search.SearchFault.TheVariants.{Memory};

    ghost from_gives = { λ _ e. e ≡ Memory };

    fn from(_e: AllocError) -> SearchFault {
        SearchFault::Memory
    }
}

impl<T: Drop> From<AllocFailed<T>> for SearchFault {
    ghost use Rattle.wc_graph.specs.declared.search.SearchFault.TheVariants.{Memory};

    ghost from_gives = { λ _ e. e ≡ Memory };

    fn from(_e: AllocFailed<T>) -> SearchFault {
        SearchFault::Memory
    }
}

/// The items found so far: as marks, and in the order in which they were found.
#[derive(Drop)]
pub struct Search {
    pub seen: Vec<bool>,
    pub order: Vec<usize>,
}

impl Search {
    /// A search that has found nothing.
    pub fn new(alloc: Global, size: usize) -> Result<Search, AllocError>
        ensures size { IfOk result (λ s. vec_len s.seen ≡ size) }
        ensures consistent { IfOk result IsConsistent }
        ensures none { IfOk result (λ s. s.order.items ≡ []) }
    {
        let seen = vec![in alloc; false; size]?;
        Ok(Search {
            seen,
            order: Vec::new(alloc),
        })
    }

    /// Finds an item.
    fn reach(&mut self, item: usize) -> Result<(), AllocError>
        requires { item < vec_len self.old.seen }
        ensures found { OnOk result (FindsItems self.old self.new (item ∷ [])) }
        ensures size { vec_len self.new.seen ≡ vec_len self.old.seen }
    {
        if self.seen[item] {
            return Ok(());
        }
        self.order.push(item)?;
        self.seen[item] = true;
        Ok(())
    }

    /// Finds some items.
    pub fn reach_each(&mut self, items: &[usize]) -> Result<(), AllocError>
        requires { All (λ x. x < vec_len self.old.seen) items.now }
        ensures found { OnOk result (FindsItems self.old self.new items.now) }
        ensures size { vec_len self.new.seen ≡ vec_len self.old.seen }
    {
        for item in items {
            self.reach(*item)?;
        }
        Ok(())
    }

    /// Finds the items that an item names, and answers whether it names items alone that are there.
    pub fn reach_names<G: Graph>(
        &mut self,
        alloc: Global,
        graph: &G,
        item: usize,
    ) -> Result<bool, AllocError>
        requires size { vec_len self.old.seen ≡ G.size graph.now }
        requires there { item < G.size graph.now }
        ensures found { OnOk result (FindsItems self.old self.new (G.names graph.now item)) }
        ensures size { vec_len self.new.seen ≡ vec_len self.old.seen }
        ensures closed { IfOk result (λ closed. closed ≡ G.is_closed graph.now item) }
    {
        let mut named = Vec::new(alloc);
        let closed = graph.put_names(alloc, item, &mut named)?;
        self.reach_each(&named)?;
        Ok(closed)
    }
}

/// Finds what roots reach.
///
/// # Errors
///
/// - `NotClosed`: an item that is reached names items that are not there.
/// - `Memory`: an allocation failed.
pub fn find_all<G: Graph>(alloc: Global, graph: &G, roots: &[usize]) -> Result<Tree, SearchFault>
    requires { All (λ x. x < G.size graph.now) roots.now }
    ensures tree { IfOk result (λ t. IsTreeOf (G.names graph.now) roots.now t) }
    ensures there { IfOk result (λ t. All (λ x. x < G.size graph.now) t.order.items) }
    ensures closed { IsOk result → (x : ℕ) → IsReachedFrom (G.names graph.now) roots.now x
        → G.is_closed graph.now x ≡ true }
    ensures fault { IfErr result
        (IsSearchFault (G.names graph.now) (G.is_closed graph.now) roots.now) }
{
    let mut search = Search::new(alloc, graph.len())?;
    search.reach_each(roots)?;
    let mut finder = own_positions(alloc, search.order.len())?;
    let mut next: usize = 0;
    while next < search.order.len() {
        let item = search.order[next];
        if !search.reach_names(alloc, graph, item)? {
            return Err(SearchFault::NotClosed(item));
        }
        finder.resize(search.order.len(), next)?;
        next += 1;
    }
    Ok(Tree {
        order: search.order,
        finder,
    })
}

/// For each of so many items its own position.
fn own_positions(alloc: Global, count: usize) -> Result<Vec<usize>, AllocError>
    ensures each { IfOk result (λ v. length v.items ≡ count) }
    ensures own { IfOk result (λ v. (k : ℕ) → k < count → slice_index v.items k ≡ k) }
{
    let mut positions = Vec::new(alloc);
    for position in 0..count {
        positions.push(position)?;
    }
    Ok(positions)
}
