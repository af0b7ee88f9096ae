//! The paths to imports as a tree: the items on them, each once, and where each path ends.

use wc_paths::{PathItem, PathRoot};
use wc_segments::SegmentSection;

/// Why no path through the main module is shown.
#[derive(Clone, Copy, Debug, PartialEq, Eq)]
pub enum Unfollowed {
    /// Nothing in it leads to the import.
    Unreached,
    /// The body of the function of this index is reached, and can't be read.
    Body(usize),
    /// This section can't be read.
    Section(SegmentSection),
}

/// The paths to what a component, or a module that stands alone, imports, as a tree.
#[derive(Drop)]
pub struct Tree<'a> {
    /// The modules: the main module of a component, or a module that stands alone; and then adapters.
    pub modules: Vec<TreeModule<'a>>,
    /// The paths, by what they lead to.
    pub ways: Vec<TreeWay<'a>>,
}

/// A module of a tree: where paths begin in it, and its items that are on them.
#[derive(Drop)]
pub struct TreeModule<'a> {
    /// The name of an adapter; `None` for the main module of a component, and for a module that stands alone.
    pub adapter: Option<&'a str>,
    /// Where paths begin in it.
    pub roots: Vec<TreeRoot<'a>>,
    /// The items of it that are on paths, each once, in the order of their first use.
    pub items: Vec<TreeItem<'a>>,
    /// Functions that may call items, which the items name by their positions here.
    pub callers: Vec<TreeCaller<'a>>,
}

/// Where paths begin in a module.
#[derive(Clone, Copy, Debug, PartialEq, Eq)]
pub enum TreeRoot<'a> {
    /// In the main module, or in a module that stands alone: at an export, at the start function, or at a segment.
    Begin(PathRoot<'a>),
    /// At an export of an adapter.
    Adapter {
        /// Its name.
        name: &'a str,
        /// The position of the main module's import of it among the items of the first module, if that leads there.
        main: Option<usize>,
    },
    /// In the main module, where the path to the import is not known.
    Unfollowed(Unfollowed),
}

/// An item on a path.
#[derive(Clone, Copy, Debug, PartialEq, Eq)]
pub struct TreeItem<'a> {
    /// The item.
    pub item: PathItem,
    /// The name of a function that has one.
    pub name: Option<&'a str>,
    /// If the path to it begins at it, the position of where it begins, among the module's roots.
    pub root: Option<usize>,
    /// The position of the item before it on the path to it, if there is one.
    pub from: Option<usize>,
    /// Which functions may call it, where the item before it is a segment that fills a table.
    pub callers: Option<Callers>,
    /// Whether it is marked: each path to what is asked for goes through it. `None` where nothing is asked for.
    pub only: Option<bool>,
}

/// Functions that may call an item.
#[derive(Clone, Copy, Debug, PartialEq, Eq)]
pub struct Callers {
    /// The position of the first of them among the module's callers.
    pub start: usize,
    /// How many of them are there, from that position on.
    pub shown: usize,
    /// How many there are in all.
    pub count: usize,
}

/// A function of a module: one that may call an item, or one that was asked for by itself.
#[derive(Clone, Copy, Debug, PartialEq, Eq)]
pub struct TreeCaller<'a> {
    /// Its index.
    pub index: usize,
    /// Its name, if it has one.
    pub name: Option<&'a str>,
}

/// A path to an import, or to a function that was asked for by itself, by its end.
#[derive(Clone, Copy, Debug, PartialEq, Eq)]
pub struct TreeWay<'a> {
    /// The interface, or the module, that is imported from; `None` for a path to a function that was asked for by itself.
    pub interface: Option<&'a str>,
    /// That function, if the path leads to one; then interface, name, import and type are `None`.
    pub function: Option<TreeCaller<'a>>,
    /// The name of the import; `None` where the interface is imported for its types alone.
    pub name: Option<&'a str>,
    /// The position of the module in which the path ends, if it ends in one.
    pub module: Option<usize>,
    /// The position of its last item there, if an item leads to its end.
    pub item: Option<usize>,
    /// The import at the end of the path, if it ends at one: an import of a module. If the path ends in no module, it
    /// is an import from `world imports` or `world exports`: an item that the world itself imports or exports.
    pub import: Option<TreeImport<'a>>,
    /// The first type of the interface that is needed there, if the path is for types alone.
    pub ty: Option<&'a str>,
}

/// An import, by the names that the module has for it.
#[derive(Clone, Copy, Debug, PartialEq, Eq)]
pub struct TreeImport<'a> {
    /// The module that is imported from.
    pub module: &'a str,
    /// The name there.
    pub name: &'a str,
}
