//! A component of parts, from which comes the marked tree.

ghost use Rattle.std.specs.Prelude.{◌≡◌, IfOk, map};
ghost use Rattle.wc_why.specs.Component.{IsComponentTree};
ghost use Rattle.wc_why.specs.Part.{part_view};
ghost use Rattle.wc_why.specs.Private.Ends.{end_of};

use crate::graph::ComponentGraph;
use crate::links::links_of;
use crate::lists::{Lists, find_lists};
use crate::marks::marks_of;
use crate::modules::{positions_in, tree_modules};
use crate::numbers::Numbers;
use crate::part::Part;
use crate::path_tree::paths_to;
use crate::roots::first_begins;
use crate::shown::Shown;
use crate::tree::TreeModule;
use std::alloc::{AllocError, Global};

/// An item to which a path is wanted.
#[derive(Clone, Copy)]
pub struct Target {
    /// The position of its part.
    pub part: usize,
    /// Its number there.
    pub item: usize,
    /// Whether it was asked for. Marks are for the targets that were asked for.
    pub is_asked: bool,
}

/// The paths to targets as a tree.
#[derive(Drop)]
pub struct ComponentTree<'a> {
    /// A module for each part, with its items on the paths.
    pub modules: Vec<TreeModule<'a>>,
    /// For each target where it is; `None` where no path leads there.
    pub ends: Vec<Option<End>>,
}

/// An item of a tree.
#[derive(Clone, Copy)]
pub struct End {
    /// The position of its module.
    pub module: usize,
    /// Its position among the items of the module.
    pub item: usize,
}

/// The paths to targets in a component of these parts, as a tree. `marked`: whether items are marked that are on all paths to the
/// targets that were asked for.
///
/// The path to a target is the shortest one from the first list of roots that leads there; and of several the first, by the order of
/// the roots, and then by that in which each item names others. It takes time and memory linear in the parts and the targets.
///
/// # Errors
///
/// `AllocError`: an allocation failed.
pub fn tree_of_parts<'a>(
    alloc: Global,
    parts: &[Part<'a>],
    targets: &[Target],
    marked: bool,
) -> Result<ComponentTree<'a>, AllocError>
    ensures { IfOk result (IsComponentTree (map part_view parts.now) targets.now marked) }
{
    let numbers = Numbers::of(alloc, parts)?;
    let links = links_of(alloc, parts, &numbers)?;
    let graph = ComponentGraph {
        parts,
        numbers: &numbers,
        links: &links,
    };
    let Lists { found, roots } = find_lists(alloc, &graph)?;
    let tree = paths_to(alloc, &graph, found, targets)?;
    let marks = marks_of(alloc, &graph, &roots, targets, marked)?;
    let firsts = first_begins(alloc, parts, &numbers)?;
    let positions = positions_in(alloc, parts.len(), &tree.items)?;
    let shown = Shown {
        graph,
        firsts: &firsts,
        marks: &marks,
        tree: &tree,
        positions: &positions,
    };
    let modules = tree_modules(alloc, shown)?;
    let ends = ends_of(alloc, &tree.items, &positions.own, &tree.ends)?;
    Ok(ComponentTree { modules, ends })
}

/// Where items are, by the positions of their modules.
fn ends_of(
    alloc: Global,
    items: &[(usize, usize)],
    own: &[usize],
    ends: &[Option<usize>],
) -> Result<Vec<Option<End>>, AllocError>
    ensures { IfOk result (λ v. v.items ≡ map (end_of items.now own.now) ends.now) }
{
    ends.iter()
        .map(|end| end_of(items, own, *end))
        .collect(alloc)
}

/// Where an item is, by the position of its module.
fn end_of(items: &[(usize, usize)], own: &[usize], end: Option<usize>) -> Option<End>
    ensures { result ≡ end_of items.now own.now end }
{
    let place = end?;
    let (module, _) = *items.get(place)?;
    let item = *own.get(place)?;
    Some(End { module, item })
}
