//! Why a component imports something: the paths through its modules, as one tree.
//!
//! A component is one graph. Its parts are modules: the main module, adapters, and libraries. Paths begin at the roots of four lists,
//! and lead to targets. The path to a target is a shortest one from the first list that leads there. `tree_of_parts` returns all
//! these paths as a tree, which has each item once.
#![tactic(auto)]

mod component;
mod found;
mod graph;
mod keys;
mod layout;
mod links;
mod lists;
mod marks;
mod modules;
mod numbers;
mod part;
mod path_tree;
mod roots;
mod rows;
mod shown;
mod tree;

pub use component::{ComponentTree, End, Target, tree_of_parts};
pub use keys::{asks_about, package_of, package_text, unversioned, version_of};
pub use part::{Begin, Link, Part};
pub use rows::Rows;
pub use tree::{
    Callers, Tree, TreeCaller, TreeImport, TreeItem, TreeModule, TreeRoot, TreeWay, Unfollowed,
};
