//! Runs: items of which each but the last leads to the next alone. A graph has a box for each.

ghost use Rattle.std.specs.Prelude.{◌≡◌, ◌++◌, ◌<◌, IfOk, OnOk, cond, map};
ghost use Rattle.std.specs.List.{enumerate_from, flat_map};
ghost use Rattle.wc_why_text.specs.Runs.{Place, first_in, follows, is_among, is_before, is_joined, item_end, item_ends, main_import, main_of, module_ends, module_firsts, runs_of, runs_under, runs_view, source, tree_ends, way_places};
ghost use Rattle.wc_why.specs.Tree.{tree_item_view, tree_module_view, tree_root_view, tree_view, tree_way_view};

use std::alloc::{AllocError, Global};
use wc_maps::{Seed, Set};
use wc_why::{Tree, TreeItem, TreeModule, TreeRoot, TreeWay};

/// For each module, and each of its items, the position of the first item of its run.
#[derive(Drop)]
pub(crate) struct Runs {
    firsts: Vec<Vec<usize>>,
}

/// Finds the runs of a tree. It takes time and memory linear in the tree.
pub(crate) fn find_runs(alloc: Global, seed: Seed, tree: &Tree<'_>) -> Result<Runs, AllocError>
    ensures { IfOk result (λ r. runs_view r ≡ runs_of (tree_view tree.now)) }
{
    let list = tree_ends(alloc, tree)?;
    let ends = set_of(alloc, seed, &list)?;
    runs_under(alloc, &ends, &tree.modules)
}

/// The position of the first item of the run that an item of a module is in.
pub(crate) fn first_in(runs: &Runs, module: usize, item: usize) -> usize
    ensures { result ≡ first_in (runs_view runs.now) «module» item }
{
    match runs.firsts.get(module) {
        Some(firsts) => match firsts.get(item) {
            Some(first) => *first,
            None => item,
        },
        None => item,
    }
}

/// The items at which a run ends even if another item follows, by the positions of their modules and their own. They
/// are the items at which paths end, and the items that lead to an item other than the next.
fn tree_ends(alloc: Global, tree: &Tree<'_>) -> Result<Vec<(usize, usize)>, AllocError>
    ensures { IfOk result (λ v. v.items ≡ tree_ends (tree_view tree.now)) }
{
    let mut ends = way_ends(alloc, &tree.ways)?;
    put_ends(&tree.modules, &mut ends)?;
    Ok(ends)
}

/// The items at which paths end.
fn way_ends(alloc: Global, ways: &[TreeWay<'_>]) -> Result<Vec<(usize, usize)>, AllocError>
    ensures { IfOk result (λ v. v.items ≡ flat_map way_places (map tree_way_view ways.now)) }
{
    let mut ends = Vec::new(alloc);
    for way in ways {
        put_way_end(way, &mut ends)?;
    }
    Ok(ends)
}

/// Appends the item at which a path ends, if it ends at one.
fn put_way_end(way: &TreeWay<'_>, ends: &mut Vec<(usize, usize)>) -> Result<(), AllocError>
    ensures { OnOk result (ends.new.items
        ≡ ends.old.items ++ way_places (tree_way_view way.now)) }
{
    match (way.module, way.item) {
        (Some(module), Some(item)) => {
            ends.push((module, item))?;
            Ok(())
        }
        (Some(_), None) | (None, _) => Ok(()),
    }
}

/// Appends the items that lead to another item than the next.
fn put_ends(modules: &[TreeModule<'_>], ends: &mut Vec<(usize, usize)>) -> Result<(), AllocError>
    ensures { OnOk result (ends.new.items ≡ ends.old.items
        ++ flat_map (λ e. module_ends e.0 e.1)
        (enumerate_from 0 (map tree_module_view modules.now))) }
{
    for index in 0..modules.len() {
        put_module_ends(index, &modules[index], ends)?;
    }
    Ok(())
}

/// Appends those that lead to another item of a module than the next.
fn put_module_ends(
    index: usize,
    module: &TreeModule<'_>,
    ends: &mut Vec<(usize, usize)>,
) -> Result<(), AllocError>
    ensures { OnOk result (ends.new.items
        ≡ ends.old.items ++ module_ends index (tree_module_view «module».now)) }
{
    put_item_ends(index, &module.roots, &module.items, ends)
}

/// Appends those that lead to another of these items of a module than the next.
fn put_item_ends(
    index: usize,
    roots: &[TreeRoot<'_>],
    items: &[TreeItem<'_>],
    ends: &mut Vec<(usize, usize)>,
) -> Result<(), AllocError>
    ensures { OnOk result (ends.new.items ≡ ends.old.items
        ++ item_ends index (map tree_root_view roots.now) (map tree_item_view items.now)) }
{
    for position in 0..items.len() {
        let from = source(index, roots, &items[position]);
        put_end(from, (index, position), ends)?;
    }
    Ok(())
}

/// Appends the item that leads to another, unless that is the next.
fn put_end(
    source: Option<(usize, usize)>,
    item: (usize, usize),
    ends: &mut Vec<(usize, usize)>,
) -> Result<(), AllocError>
    ensures { OnOk result (ends.new.items ≡ ends.old.items ++ item_end item source) }
{
    match source {
        Some(from) => {
            if !is_before(from, item) {
                ends.push(from)?;
            }
            Ok(())
        }
        None => Ok(()),
    }
}

/// Whether an item is the one before another, in its module.
fn is_before(from: (usize, usize), item: (usize, usize)) -> bool
    ensures { result ≡ is_before from item }
{
    item.1 > 0 && from.0 == item.0 && from.1 == item.1 - 1
}

/// The item that leads to an item of a module: the item before it on its path; or the import of the main module from
/// which a path goes on in an adapter.
pub(crate) fn source(
    index: usize,
    roots: &[TreeRoot<'_>],
    item: &TreeItem<'_>,
) -> Option<(usize, usize)>
    ensures { result ≡ source index (map tree_root_view roots.now) (tree_item_view item.now) }
{
    match item.from {
        Some(from) => Some((index, from)),
        None => match main_import(roots, item.root) {
            Some(main) => Some((0, main)),
            None => None,
        },
    }
}

/// The import of the main module from which a path comes that begins at a root.
fn main_import(roots: &[TreeRoot<'_>], root: Option<usize>) -> Option<usize>
    ensures { result ≡ main_import (map tree_root_view roots.now) root }
{
    match root {
        Some(index) => match roots.get(index) {
            Some(root) => main_of(*root),
            None => None,
        },
        None => None,
    }
}

/// The import of the main module from which an adapter's root comes.
fn main_of(root: TreeRoot<'_>) -> Option<usize>
    ensures { result ≡ main_of (tree_root_view root.entry) }
{
    match root {
        TreeRoot::Begin(_) => None,
        TreeRoot::Adapter { main, .. } => main,
        TreeRoot::Unfollowed(_) => None,
    }
}

/// The set of these items.
fn set_of(
    alloc: Global,
    seed: Seed,
    ends: &[(usize, usize)],
) -> Result<Set<(usize, usize)>, AllocError>
    ensures { IfOk result (λ s. (p : Place) → is_among s.keys p ≡ is_among ends.now p) }
{
    let mut set = Set::with_hasher(alloc, seed);
    for position in 0..ends.len() {
        set.insert(ends[position])?;
    }
    Ok(set)
}

/// For each module, and each of its items, the position of the first item of its run, where runs end with these items.
fn runs_under(
    alloc: Global,
    ends: &Set<(usize, usize)>,
    modules: &[TreeModule<'_>],
) -> Result<Runs, AllocError>
    ensures { IfOk result (λ r. runs_view r
        ≡ runs_under (is_among ends.now.keys) (map tree_module_view modules.now)) }
{
    let mut firsts = Vec::new(alloc);
    for index in 0..modules.len() {
        let of_module = module_firsts(alloc, ends, index, &modules[index])?;
        firsts.push(of_module)?;
    }
    Ok(Runs { firsts })
}

/// For each of the items of a module the position of the first item of its run.
fn module_firsts(
    alloc: Global,
    ends: &Set<(usize, usize)>,
    index: usize,
    module: &TreeModule<'_>,
) -> Result<Vec<usize>, AllocError>
    ensures { IfOk result (λ v. v.items
        ≡ module_firsts (is_among ends.now.keys) index (tree_module_view «module».now)) }
{
    let mut firsts = Vec::new(alloc);
    let mut first = 0;
    for position in 0..module.items.len() {
        let joined = is_joined(ends, index, module, position);
        first = first_at(joined, first, position);
        firsts.push(first)?;
    }
    Ok(firsts)
}

/// The first item of the run of an item: that of the item before it, if it is joined to that.
fn first_at(joined: bool, before: usize, position: usize) -> usize
    ensures { result ≡ cond joined before position }
{
    if joined { before } else { position }
}

/// Whether an item of a module is in the run of the one before it.
fn is_joined(
    ends: &Set<(usize, usize)>,
    index: usize,
    module: &TreeModule<'_>,
    position: usize,
) -> bool
    ensures { result ≡ is_joined (is_among ends.now.keys) index
        (tree_module_view «module».now) position }
{
    match module.items.get(position) {
        Some(item) => follows(ends, source(index, &module.roots, item), (index, position)),
        None => false,
    }
}

/// Whether the item that leads to another is the one before it, and no run ends with it.
fn follows(ends: &Set<(usize, usize)>, source: Option<(usize, usize)>, item: (usize, usize)) -> bool
    ensures { result ≡ follows (is_among ends.now.keys) source item }
{
    match source {
        Some(from) => is_before(from, item) && !ends.contains(&from),
        None => false,
    }
}
