//! A tree, and what is said of its items.

use crate::graph::ComponentGraph;
use crate::path_tree::PathTree;

/// Where the items of a tree are by modules.
#[derive(Drop)]
pub(crate) struct Positions {
    /// For each module the positions of its items in the tree.
    pub(crate) groups: Vec<Vec<usize>>,
    /// For each item of the tree its position among the items of its module.
    pub(crate) own: Vec<usize>,
}

/// A tree, and what is said of its items.
#[derive(Clone, Copy)]
pub(crate) struct Shown<'c, 'a> {
    /// The component.
    pub(crate) graph: ComponentGraph<'c, 'a>,
    /// For each number the position of the root at which paths begin that begin with its item.
    pub(crate) firsts: &'c [Option<usize>],
    /// For each number whether its item is marked; `None` where nothing is.
    pub(crate) marks: &'c Option<Vec<bool>>,
    /// The tree.
    pub(crate) tree: &'c PathTree,
    /// Where its items are by modules.
    pub(crate) positions: &'c Positions,
}
