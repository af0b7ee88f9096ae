//! The graph of a module: its items in one row, its segments among them, and what each names.

ghost use Rattle.std.specs.Prelude.{◌≡◌, ◌<◌, ◌≤◌, ◌^◌, ◌++◌, IfOk, IsErr, OnOk};
ghost use Rattle.wc_read.specs.Decoded.{decoded_module};
ghost use Rattle.wc_read.specs.Entries.{entry_at};
ghost use Rattle.wc_segments.specs.Segments.{segments_value};
ghost use Rattle.wc_paths.specs.Counts.{counts_value};
ghost use Rattle.wc_paths.specs.Items.{counts_of, entry_items, is_closed_item, is_entry_code, is_item_code, items_of};
ghost use Rattle.wc_paths.specs.Numbers.{item_count};

use crate::counts::{Counts, counts_of, item_at, item_count, put_numbers};
use crate::items::{PathItem, put_type};
use crate::names::{put_data, put_element, put_func, put_func_type, put_global};
use std::alloc::{AllocError, Global};
use wc_graph::Graph;
use wc_read::{Module, Space};
use wc_segments::Segments;

/// A module with its segments, as a graph: its items in one row, by `number_of`.
#[derive(Drop)]
pub struct ModuleGraph<'a, 'b> {
    pub module: &'a Module<'b>,
    pub segments: &'a Segments<'b>,
    pub counts: Counts,
    pub total: usize,
    ghost counted: { counts_value counts ≡ counts_of
        (record { code = decoded_module «module».now; segments = segments_value segments.now }) },
    ghost summed: { total ≡ item_count (counts_value counts) },
    ghost fits: { total < 2 ^ 64 },
}

impl<'a, 'b> ModuleGraph<'a, 'b> {
    ghost use Rattle.wc_paths.specs.Graph.{graph_value};

    /// The graph of a module with its segments.
    ///
    /// # Errors
    ///
    /// `AllocError`: there are more items than a number of 64 bits counts.
    pub fn new(
        module: &'a Module<'b>,
        segments: &'a Segments<'b>,
    ) -> Result<ModuleGraph<'a, 'b>, AllocError>
        ensures graph { IfOk result (λ g. graph_value g ≡
            record { code = decoded_module «module».now; segments = segments_value segments.now }) }
        ensures too_many { IsErr result → 2 ^ 64 ≤ item_count (counts_of
            (record { code = decoded_module «module».now; segments = segments_value segments.now })) }
    {
        let counts = counts_of(module, segments);
        match item_count(&counts) {
            Some(total) => Ok(ModuleGraph {
                module,
                segments,
                counts,
                total,
            }),
            None => Err(AllocError),
        }
    }
}

impl<'a, 'b> Graph for ModuleGraph<'a, 'b> {
    ghost use Rattle.wc_paths.specs.Graph.{graph_value};
    ghost use Rattle.wc_paths.specs.Items.{is_closed};
    ghost use Rattle.wc_paths.specs.Numbers.{item_at, numbers_in};

    ghost size = { λ g. g.total };

    ghost names = { λ g. numbers_in (graph_value g) };

    ghost is_closed = { λ g n. is_closed (graph_value g) (item_at (counts_of (graph_value g)) n) };

    fn len(&self) -> usize {
        self.total
    }

    fn put_names(
        &self,
        alloc: Global,
        item: usize,
        out: &mut Vec<usize>,
    ) -> Result<bool, AllocError> {
        let item = item_at(&self.counts, item);
        let mut named = Vec::new(alloc);
        let code = put_items(&mut named, alloc, self.module, self.segments, item)?;
        let there = put_numbers(&self.counts, &named, out)?;
        Ok(is_closed_item(item, code, there))
    }
}

/// Whether an item is closed: a function where its body is code, and all items that it names are there.
fn is_closed_item(item: PathItem, code: bool, there: bool) -> bool
    ensures { result ≡ is_closed_item item code there }
{
    match item {
        PathItem::Item(Space::Funcs, _) => code && there,
        _ => true,
    }
}

/// Appends the items that an item names, and returns whether it is code, if it is a function.
fn put_items(
    names: &mut Vec<PathItem>,
    alloc: Global,
    module: &Module<'_>,
    segments: &Segments<'_>,
    item: PathItem,
) -> Result<bool, AllocError>
    ensures names { OnOk result (names.new.items ≡ names.old.items ++ items_of
        (record { code = decoded_module «module».now; segments = segments_value segments.now })
        item) }
    ensures code { IfOk result (λ code. code ≡ is_item_code (decoded_module «module».now) item) }
{
    match item {
        PathItem::Item(space, index) => put_space_item(names, alloc, module, space, index),
        PathItem::Elements(index) => match segments.elements.get(index) {
            Some(element) => {
                put_element(names, alloc, element)?;
                Ok(true)
            }
            None => Ok(true),
        },
        PathItem::Data(index) => match segments.data.get(index) {
            Some(data) => {
                put_data(names, alloc, data)?;
                Ok(true)
            }
            None => Ok(true),
        },
    }
}

/// Appends the items that an item of a space names, and returns whether it is code, if it is a function.
fn put_space_item(
    names: &mut Vec<PathItem>,
    alloc: Global,
    module: &Module<'_>,
    space: Space,
    index: usize,
) -> Result<bool, AllocError>
    ensures names { OnOk result (names.new.items
        ≡ names.old.items ++ entry_items (entry_at (decoded_module «module».now) (space, index))) }
    ensures code { IfOk result (λ code. code
        ≡ is_entry_code (entry_at (decoded_module «module».now) (space, index))) }
{
    match space {
        Space::Types => match module.types.get(index) {
            Some(ty) => {
                put_func_type(names, ty)?;
                Ok(true)
            }
            None => Ok(true),
        },
        Space::Funcs => match module.funcs.get(index) {
            Some(func) => put_func(names, alloc, *func),
            None => Ok(true),
        },
        Space::Tables => match module.tables.get(index) {
            Some(table) => {
                put_type(names, table.ty.element_type)?;
                Ok(true)
            }
            None => Ok(true),
        },
        Space::Globals => match module.globals.get(index) {
            Some(global) => {
                put_global(names, alloc, *global)?;
                Ok(true)
            }
            None => Ok(true),
        },
        Space::Memories => Ok(true),
    }
}
