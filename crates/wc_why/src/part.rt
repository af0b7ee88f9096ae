//! Modules as parts of a component.

use crate::rows::Rows;
use crate::tree::TreeRoot;
use wc_paths::{Callers as TableCallers, Counts};

/// A module as a part of a component. An item that is past its rows leads nowhere, and nothing leads there.
#[derive(Drop)]
pub struct Part<'a> {
    /// The name of an adapter or of a library; `None` for the main module of a component, and for a module that stands alone.
    pub name: Option<&'a str>,
    /// How many items it has of each kind.
    pub counts: Counts,
    /// Its rows: the items that each item names.
    pub rows: &'a Rows,
    /// Where paths may begin, in order.
    pub begins: Vec<Begin<'a>>,
    /// The links of its items: of several links of one item the first. Only links of the first part count.
    pub links: Vec<Link<'a>>,
    /// Its bytes, of which names of functions are read. Where they are no module, functions have no names.
    pub bytes: &'a [u8],
    /// The functions that may call through its tables.
    pub callers: Option<&'a TableCallers>,
}

/// An item at which paths may begin.
#[derive(Clone, Copy)]
pub struct Begin<'a> {
    /// The list of roots to which it belongs: 0, 1, 2 or 3. Paths begin at roots of the first list that leads to their target.
    /// Roots of the last list to which another list leads do not count.
    pub list: usize,
    /// The number of the item in its part.
    pub item: usize,
    /// Where the path begins; `None` where nothing is to be said of it.
    pub root: Option<TreeRoot<'a>>,
}

/// An item of the first part that also names an item of another part: the main module's import of what an adapter exports.
#[derive(Clone, Copy)]
pub struct Link<'a> {
    /// The number of the item in the first part.
    pub item: usize,
    /// The position of the other part.
    pub part: usize,
    /// The number of the other item there.
    pub linked: usize,
    /// The name by which the other part exports it.
    pub export: &'a str,
}
