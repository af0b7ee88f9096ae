//! The paths to targets as a tree, whose items are those of parts.

ghost use Rattle.std.specs.Prelude.{◌≡◌, ◌<◌, ℕ, All, IfOk, List, true, length, map};
ghost use Rattle.wc_why.specs.Graph.{has_item};
ghost use Rattle.wc_why.specs.Part.{part_view};
ghost use Rattle.wc_why.specs.Private.Components.{IsComponent};
ghost use Rattle.wc_why.specs.Private.Found.{IsFound};
ghost use Rattle.wc_why.specs.Private.Numbers.{total};
ghost use Rattle.wc_why.specs.Private.PathTree.{IsPathTree, item_in, position_of};

use crate::component::Target;
use crate::found::Found;
use crate::graph::ComponentGraph;
use crate::lists::place_at;
use crate::numbers::Numbers;
use std::alloc::{AllocError, Global};
use wc_graph::tree_to;

/// The paths to targets as a tree.
#[derive(Drop)]
pub(crate) struct PathTree {
    /// The items on the paths, each once, in the order of first use: the position of the part, and the item's number there.
    pub(crate) items: Vec<(usize, usize)>,
    /// For each of them the position of the one before it on its path; `None` where a path begins with it.
    pub(crate) from: Vec<Option<usize>>,
    /// For each target its position among the items; `None` where no path leads there.
    pub(crate) ends: Vec<Option<usize>>,
}

/// The paths to targets. What was found is given away, since it is not needed after them.
pub(crate) fn paths_to(
    alloc: Global,
    graph: &ComponentGraph<'_, '_>,
    found: Found,
    targets: &[Target],
) -> Result<PathTree, AllocError>
    requires component { IsComponent graph.now }
    requires found { (lists : List (List (ℕ × ℕ))) × IsFound (map part_view graph.now.parts.now)
        graph.now.numbers.now lists found }
    ensures paths { IfOk result (IsPathTree (map part_view graph.now.parts.now)
        graph.now.numbers.now found targets.now) }
    ensures there { IfOk result (λ t. All (λ y. has_item (map part_view graph.now.parts.now) y
        ≡ true) t.items.items) }
{
    let positions = positions_of(alloc, graph.numbers, &found.places, targets)?;
    let tree = tree_to(alloc, &found.finder, &positions)?;
    let items = items_of(alloc, graph.numbers, &found.order, &tree.order)?;
    Ok(PathTree {
        items,
        from: tree.from,
        ends: tree.ends,
    })
}

/// For each target its position among what was found; `None` where it was not found.
fn positions_of(
    alloc: Global,
    numbers: &Numbers,
    places: &[Option<usize>],
    targets: &[Target],
) -> Result<Vec<Option<usize>>, AllocError>
    ensures { IfOk result (λ v. v.items ≡ map (position_of numbers.now places.now) targets.now) }
{
    targets
        .iter()
        .map(|target| position_of(numbers, places, *target))
        .collect(alloc)
}

/// The position of a target among what was found; `None` where it was not found.
fn position_of(numbers: &Numbers, places: &[Option<usize>], target: Target) -> Option<usize>
    ensures { result ≡ position_of numbers.now places.now target }
{
    match numbers.number(target.part, target.item) {
        Some(number) => place_at(places, number),
        None => None,
    }
}

/// The items at some positions of what was found, by their parts.
fn items_of(
    alloc: Global,
    numbers: &Numbers,
    order: &[usize],
    positions: &[usize],
) -> Result<Vec<(usize, usize)>, AllocError>
    requires inside { All (λ x. x < total numbers.now) order.now }
    requires there { All (λ k. k < length order.now) positions.now }
    ensures { IfOk result (λ v. v.items ≡ map (item_in numbers.now order.now) positions.now) }
{
    let mut items = Vec::new(alloc);
    for position in positions {
        items.push(numbers.place(order[*position]))?;
    }
    Ok(items)
}
