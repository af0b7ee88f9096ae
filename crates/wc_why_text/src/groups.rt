//! The paths of a tree by interfaces.

ghost use Rattle.std.specs.Prelude.{◌≡◌, ◌<◌, IfOk, OnOk, Some, map, slice_get};
ghost use Rattle.indexmap.specs.IndexMap.{index_map_len};
ghost use Rattle.wc_why_text.specs.Groups.{IsGrouped, IsOneMore, group_names, group_ways, interface_of};
ghost use Rattle.wc_why.specs.Tree.{tree_way_view};

use std::alloc::{AllocError, Global};
use wc_maps::{Map, Seed};
use wc_why::TreeWay;

/// The paths by interfaces: under each interface those to what is imported from it, in their order.
pub(crate) type Groups<'a> = Map<&'a str, Vec<TreeWay<'a>>>;

/// The interfaces of these paths, in the order in which they occur, each with its paths. It takes time and memory
/// linear in the paths.
pub(crate) fn groups_of<'a>(
    alloc: Global,
    seed: Seed,
    ways: &[TreeWay<'a>],
) -> Result<Groups<'a>, AllocError>
    ensures { IfOk result (λ m. IsGrouped (map tree_way_view ways.now) m.entries) }
{
    let mut groups: Map<&str, Vec<TreeWay<'_>>> = Map::with_hasher(alloc, seed);
    for position in 0..ways.len() {
        put_way(alloc, &mut groups, &ways[position])?;
    }
    Ok(groups)
}

/// The interface of this number, and the paths to what is imported from it.
pub(crate) fn group_at<'g, 'a>(
    groups: &'g Groups<'a>,
    number: usize,
) -> (&'a str, &'g [TreeWay<'a>])
    requires { number < index_map_len groups.now }
    ensures name { slice_get (group_names groups.now.entries) number ≡ Some result.0.now }
    ensures ways { map tree_way_view result.1.now
        ≡ group_ways groups.now.entries result.0.now }
{
    match groups.get_index(number) {
        Some((interface, ways)) => (*interface, ways),
        None => unreachable!(),
    }
}

/// Puts a path under its interface, after the others of that interface.
fn put_way<'a>(alloc: Global, groups: &mut Groups<'a>, way: &TreeWay<'a>) -> Result<(), AllocError>
    ensures { OnOk result (IsOneMore groups.old.entries groups.new.entries
        (interface_of (tree_way_view way.now)) way.now) }
{
    put_under(alloc, groups, interface_of(way), *way)
}

/// The interface to which a path leads; of a path to a function, nothing.
fn interface_of<'a>(way: &TreeWay<'a>) -> &'a str
    ensures { result.now ≡ interface_of (tree_way_view way.now) }
{
    match way.interface {
        Some(interface) => interface,
        None => "",
    }
}

/// Puts a value under a name, after the others of that name; a new name goes last.
fn put_under<'k, V: Drop>(
    alloc: Global,
    groups: &mut Map<&'k str, Vec<V>>,
    name: &'k str,
    value: V,
) -> Result<(), AllocError>
    ensures { OnOk result (IsOneMore groups.old.entries groups.new.entries name.now value) }
{
    if let Some(others) = groups.get_mut(name) {
        others.push(value)?;
        return Ok(());
    }
    let mut first = Vec::new(alloc);
    first.push(value)?;
    groups.insert(name, first)?;
    Ok(())
}
