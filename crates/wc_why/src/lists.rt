//! The four lists of roots of a component, and what they reach.

ghost use Rattle.std.specs.Prelude.{◌≡◌, ◌<◌, ◌∷◌, [], IfOk, OnOk, filter, map};
ghost use Rattle.wc_graph.specs.Private.Places.{is_missing_at, place_at};
ghost use Rattle.wc_why.specs.Lists.{roots_in};
ghost use Rattle.wc_why.specs.Part.{begin_view, part_view};
ghost use Rattle.wc_why.specs.Private.Components.{IsComponent};
ghost use Rattle.wc_why.specs.Private.Lists.{AreListsFound, AreNumbersOf, PutsOf, PutsRootsOf, begins_of, root_at};
ghost use Rattle.wc_why.specs.Private.Numbers.{AreNumbers};

use crate::found::Found;
use crate::graph::ComponentGraph;
use crate::numbers::Numbers;
use crate::part::{Begin, Part};
use std::alloc::{AllocError, Global};
use wc_graph::Graph;

/// The items that the four lists of roots reach, and all their roots.
#[derive(Drop)]
pub(crate) struct Lists {
    pub(crate) found: Found,
    pub(crate) roots: Vec<usize>,
}

/// The roots of the four lists, and what they reach.
pub(crate) fn find_lists(alloc: Global, graph: &ComponentGraph<'_, '_>) -> Result<Lists, AllocError>
    requires { IsComponent graph.now }
    ensures { IfOk result (AreListsFound (map part_view graph.now.parts.now)
        graph.now.numbers.now) }
{
    let mut found = Found::none(alloc, graph.len())?;
    let first = roots_of(alloc, graph.parts, graph.numbers, 0)?;
    let second = roots_of(alloc, graph.parts, graph.numbers, 1)?;
    let third = roots_of(alloc, graph.parts, graph.numbers, 2)?;
    let others = roots_of(alloc, graph.parts, graph.numbers, 3)?;
    found.add(alloc, graph, &first)?;
    found.add(alloc, graph, &second)?;
    found.add(alloc, graph, &third)?;
    let fourth = unreached_of(alloc, &found.places, &others)?;
    found.add(alloc, graph, &fourth)?;
    let mut roots = first;
    roots.extend_from_slice(&second)?;
    roots.extend_from_slice(&third)?;
    roots.extend_from_slice(&fourth)?;
    Ok(Lists { found, roots })
}

/// The roots of a list: those of the first part, then of the next, and so on.
fn roots_of(
    alloc: Global,
    parts: &[Part<'_>],
    numbers: &Numbers,
    list: usize,
) -> Result<Vec<usize>, AllocError>
    requires { AreNumbers (map part_view parts.now) numbers.now }
    ensures { IfOk result (λ v. AreNumbersOf numbers.now
        (roots_in list (map part_view parts.now)) v.items) }
{
    let mut roots = Vec::new(alloc);
    for position in 0..parts.len() {
        put_roots(numbers, position, &parts[position].begins, list, &mut roots)?;
    }
    Ok(roots)
}

/// Appends the roots of a part that belong to a list.
fn put_roots(
    numbers: &Numbers,
    part: usize,
    begins: &[Begin<'_>],
    list: usize,
    out: &mut Vec<usize>,
) -> Result<(), AllocError>
    ensures { OnOk result (PutsRootsOf numbers.now part (map begin_view begins.now) list
        out.old.items out.new.items) }
{
    for begin in begins {
        put_begin(numbers, part, *begin, list, out)?;
    }
    Ok(())
}

/// Appends a root of a part, if it belongs to a list.
fn put_begin(
    numbers: &Numbers,
    part: usize,
    begin: Begin<'_>,
    list: usize,
    out: &mut Vec<usize>,
) -> Result<(), AllocError>
    ensures { OnOk result (PutsOf numbers.now part (λ v. begins_of part v list
        (begin_view begin.entry ∷ [])) out.old.items out.new.items) }
{
    if begin.list == list {
        put_root(numbers, part, begin.item, out)
    } else {
        Ok(())
    }
}

/// Appends the number of an item, if it is there.
fn put_root(
    numbers: &Numbers,
    part: usize,
    item: usize,
    out: &mut Vec<usize>,
) -> Result<(), AllocError>
    ensures { OnOk result (PutsOf numbers.now part (λ v. root_at part v item) out.old.items
        out.new.items) }
{
    match numbers.number(part, item) {
        Some(number) => {
            out.push(number)?;
            Ok(())
        }
        None => Ok(()),
    }
}

/// Those of some items that were not reached, in order.
fn unreached_of(
    alloc: Global,
    places: &[Option<usize>],
    items: &[usize],
) -> Result<Vec<usize>, AllocError>
    ensures { IfOk result (λ v. v.items ≡ filter (is_missing_at places.now) items.now) }
{
    items
        .iter()
        .copied()
        .filter(|item| is_unreached(places, *item))
        .collect(alloc)
}

/// Whether an item was not reached.
fn is_unreached(places: &[Option<usize>], item: usize) -> bool
    ensures { result ≡ is_missing_at places.now item }
{
    match place_at(places, item) {
        Some(_) => false,
        None => true,
    }
}

/// The position of an item; `None` where it was not reached.
pub(crate) fn place_at(places: &[Option<usize>], item: usize) -> Option<usize>
    ensures { result ≡ place_at places.now item }
{
    match places.get(item) {
        Some(place) => *place,
        None => None,
    }
}
