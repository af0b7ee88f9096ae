//! The paths through a component as one tree.

ghost use Rattle.std.specs.Prelude.{◌≡◌, IfOk, map};
ghost use Rattle.std.specs.Option.{option_map};
ghost use Rattle.wc_why.specs.Part.{part_view};
ghost use Rattle.wc_why.specs.Tree.{tree_view, tree_way_view};
ghost use Rattle.wc_world.specs.WorldViews.{world_view};
ghost use Rattle.wc_ways.specs.WaysTree.{IsTreeTo, end_at, targets_of, way_at, ways_of};
ghost use Rattle.wc_ways.specs.Private.Modules.{AreModulesOf};
ghost use Rattle.wc_ways.specs.Private.Shown.{IsShown};
ghost use Rattle.wc_ways.specs.Private.Wanted.{wanted_view};

use crate::asked::ALL;
use crate::asked_keys::AskedKeys;
use crate::found::found_in;
use crate::modules::Modules;
use crate::parts::{parts_of, push_some};
use crate::typed_found::put_typed;
use crate::wanted::{Wanted, way_of};
use std::alloc::{AllocError, Global};
use wc_why::{ComponentTree, End, Part, Target, Tree, TreeWay, tree_of_parts};
use wc_world::ComponentWorld;

/// The parts of a component, and the things that are asked about.
#[derive(Drop)]
pub(crate) struct Shown<'a> {
    pub(crate) parts: Vec<Part<'a>>,
    pub(crate) wanted: Vec<Wanted<'a>>,
    /// Whether items are marked: they are, unless all is asked about.
    pub(crate) marked: bool,
}

/// The things that a key asks about, in a component of these modules.
pub(crate) fn shown_in<'a>(
    alloc: Global,
    world: &'a ComponentWorld<'a>,
    key: &'a str,
    modules: &'a Modules<'a>,
) -> Result<Shown<'a>, AllocError>
    requires { AreModulesOf (world_view world.now) modules.now }
    ensures { IfOk result (IsShown (world_view world.now) key.now) }
{
    let parts = parts_of(alloc, world, modules)?;
    let keys = AskedKeys::new(alloc, world, key)?;
    let mut wanted = found_in(alloc, world, &keys, modules)?;
    put_typed(alloc, world, key, modules, &mut wanted)?;
    let marked = key != ALL;
    Ok(Shown {
        parts,
        wanted,
        marked,
    })
}

/// The tree of the paths to what is asked about.
pub(crate) fn tree_of<'a>(alloc: Global, shown: &'a Shown<'a>) -> Result<Tree<'a>, AllocError>
    ensures { IfOk result (λ t. IsTreeTo (map part_view shown.now.parts.items)
        (map wanted_view shown.now.wanted.items) shown.now.marked (tree_view t)) }
{
    let targets = targets_of(alloc, &shown.wanted)?;
    let found = tree_of_parts(alloc, &shown.parts, &targets, shown.marked)?;
    let ComponentTree { modules, ends } = found;
    let ways = ways_of(alloc, &shown.wanted, &ends)?;
    Ok(Tree { modules, ways })
}

/// The items at the ends of paths.
fn targets_of(alloc: Global, wanted: &[Wanted<'_>]) -> Result<Vec<Target>, AllocError>
    ensures { IfOk result (λ v. v.items ≡ targets_of (map wanted_view wanted.now)) }
{
    let mut targets = Vec::new(alloc);
    for one in wanted {
        targets.push(one.target)?;
    }
    Ok(targets)
}

/// The paths, by where they end.
fn ways_of<'a>(
    alloc: Global,
    wanted: &'a [Wanted<'a>],
    ends: &[Option<End>],
) -> Result<Vec<TreeWay<'a>>, AllocError>
    ensures { IfOk result (λ v. map tree_way_view v.items
        ≡ ways_of (map wanted_view wanted.now) ends.now) }
{
    let mut ways = Vec::new(alloc);
    for position in 0..wanted.len() {
        push_some(way_at(wanted, ends, position), &mut ways)?;
    }
    Ok(ways)
}

/// The path at a position, if there is one.
fn way_at<'a>(
    wanted: &'a [Wanted<'a>],
    ends: &[Option<End>],
    position: usize,
) -> Option<TreeWay<'a>>
    ensures { option_map tree_way_view result
        ≡ way_at (map wanted_view wanted.now) ends.now position }
{
    match wanted.get(position) {
        Some(wanted) => way_of(wanted, end_at(ends, position)),
        None => None,
    }
}

/// Where the path at a position ends.
fn end_at(ends: &[Option<End>], position: usize) -> Option<End>
    ensures { result ≡ end_at ends.now position }
{
    match ends.get(position) {
        Some(end) => *end,
        None => None,
    }
}
