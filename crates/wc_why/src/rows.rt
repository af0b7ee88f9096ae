//! The items that each item of a graph names, as one list.

ghost use Rattle.std.specs.Prelude.{◌≡◌, ◌<◌, IfOk, length, slice_index_or};
ghost use Rattle.wc_why.specs.Rows.{AreRowsOf, row_in};
ghost use Rattle.wc_why.specs.Private.Rows.{AreStarts, HasRowsBelow};

use std::alloc::{AllocError, Global};
use wc_graph::Graph;

/// The items that each item of a graph names, as one list.
#[derive(Drop)]
pub struct Rows {
    /// For each item the position of the first that it names, and then the number of all.
    starts: Vec<usize>,
    /// The named items, one item after another.
    names: Vec<usize>,
    /// For each item whether it names items alone that are there.
    closed: Vec<bool>,
    ghost in_order: { AreStarts starts.items (length names.items) (length closed.items) },
    ghost below: { HasRowsBelow starts.items names.items (length closed.items) },
}

impl Rows {
    /// The rows of a graph. It takes time and memory linear in the graph.
    ///
    /// # Errors
    ///
    /// `AllocError`: an allocation failed.
    pub fn of<G: Graph>(alloc: Global, graph: &G) -> Result<Rows, AllocError>
        ensures { IfOk result (λ r. AreRowsOf (G.size graph.now) (G.names graph.now)
            (G.is_closed graph.now) r.starts.items r.names.items r.closed.items) }
    {
        let mut starts = Vec::with_capacity(alloc, graph.len().saturating_add(1))?;
        let mut names = Vec::new(alloc);
        let mut closed = Vec::with_capacity(alloc, graph.len())?;
        starts.push(0)?;
        for item in 0..graph.len() {
            let is_closed = graph.put_names(alloc, item, &mut names)?;
            starts.push(names.len())?;
            closed.push(is_closed)?;
        }
        Ok(Rows {
            starts,
            names,
            closed,
        })
    }

    /// The items that an item names.
    pub fn row(&self, item: usize) -> &[usize]
        requires { item < length self.now.closed.items }
        ensures { result.now ≡ row_in self.now.starts.items self.now.names.items item }
    {
        let start = self.starts[item];
        let end = self.starts[item + 1];
        &self.names[start..end]
    }
}

impl Graph for Rows {
    ghost use Rattle.std.specs.Prelude.{length, slice_index_or, false};
    ghost use Rattle.wc_why.specs.Rows.{row_in};

    ghost size = { λ r. length r.closed.items };

    ghost names = { λ r. row_in r.starts.items r.names.items };

    ghost is_closed = { λ r n. slice_index_or r.closed.items n false };

    fn len(&self) -> usize {
        self.closed.len()
    }

    fn put_names(
        &self,
        _alloc: Global,
        item: usize,
        out: &mut Vec<usize>,
    ) -> Result<bool, AllocError> {
        out.extend_from_slice(self.row(item))?;
        Ok(self.closed[item])
    }
}
