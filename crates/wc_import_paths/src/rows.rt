//! The rows of a module: the items that each of its items names.

ghost use Rattle.std.specs.Prelude.{◌≡◌, ◌<◌, ◌^◌, [], IfOk, length};
ghost use Rattle.wc_read.specs.Modules.{module_value};
ghost use Rattle.wc_segments.specs.Segments.{segments_value};
ghost use Rattle.wc_paths.specs.Counts.{counts_value};
ghost use Rattle.wc_paths.specs.Items.{graph_of};
ghost use Rattle.wc_paths.specs.Numbers.{item_count};

use std::alloc::{AllocError, Global};
use wc_paths::{Counts, ModuleGraph};
use wc_read::Module;
use wc_segments::Segments;
use wc_why::Rows;

/// The rows of a module: the items that each of its items names, segments among them.
#[derive(Drop)]
pub struct ModuleRows {
    /// How many items it has of each kind.
    pub counts: Counts,
    /// The items that each of them names.
    pub rows: Rows,
    ghost fits: { item_count (counts_value counts) < 2 ^ 64 },
    ghost sized: { length rows.closed.items ≡ item_count (counts_value counts) },
}

impl ModuleRows {
    ghost use Rattle.wc_import_paths.specs.Rows.{AreRowsFor, bare_graph};

    /// The rows of a module with these segments. It takes time and memory linear in the module: each body is read once.
    ///
    /// # Errors
    ///
    /// `AllocError`: an allocation failed, or there are more items than a number of 64 bits counts.
    pub fn of(
        alloc: Global,
        code: &Module<'_>,
        segments: &Segments<'_>,
    ) -> Result<ModuleRows, AllocError>
        ensures { IfOk result (AreRowsFor
            (graph_of (module_value code.now) (segments_value segments.now))) }
    {
        let graph = ModuleGraph::new(code, segments)?;
        let rows = Rows::of(alloc, &graph)?;
        Ok(ModuleRows {
            counts: graph.counts,
            rows,
        })
    }

    /// The rows of a module without its segments.
    ///
    /// # Errors
    ///
    /// `AllocError`: an allocation failed, or there are more items than a number of 64 bits counts.
    pub fn bare(alloc: Global, code: &Module<'_>) -> Result<ModuleRows, AllocError>
        ensures { IfOk result (AreRowsFor (bare_graph (module_value code.now))) }
    {
        let segments = no_segments(alloc);
        ModuleRows::of(alloc, code, &segments)
    }
}

/// No segments.
fn no_segments<'a>(alloc: Global) -> Segments<'a>
    ensures { segments_value result ≡ record { elements = []; data_segments = [] } }
{
    Segments {
        elements: Vec::new(alloc),
        data: Vec::new(alloc),
    }
}
