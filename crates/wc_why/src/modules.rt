//! The items of a tree by modules.

ghost use Rattle.std.specs.Prelude.{◌≡◌, ◌<◌, ◌∷◌, ◌++◌, ℕ, [], All, IfOk, OnOk, Some, true, length, map, replicate};
ghost use Rattle.std.specs.List.{slice_get};
ghost use Rattle.std.specs.Option.{option_map, option_map_or};
ghost use Rattle.wc_paths.specs.Numbers.{item_at};
ghost use Rattle.wc_why.specs.Lists.{IsRootOf};
ghost use Rattle.wc_why.specs.Graph.{has_item, link_at};
ghost use Rattle.wc_why.specs.Part.{PartView, begin_view, calling_by, calls_none, part_view};
ghost use Rattle.wc_why.specs.Private.Marks.{mark_in, mark_of};
ghost use Rattle.wc_why.specs.Private.Modules.{AreModulesBy, AreShownBy, IsAfterBy, IsShown, IsShownBy, linked_root, root_by, root_in, shown_view};
ghost use Rattle.wc_why.specs.Private.Positions.{ArePositions, IsPutUnder, groups_view};
ghost use Rattle.wc_why.specs.Tree.{tree_module_view, tree_root_view};

use crate::layout::{ShownItem, module_of};
use crate::links::{Linked, linked_at};
use crate::numbers::Numbers;
use crate::part::Begin;
use crate::shown::{Positions, Shown};
use crate::tree::{TreeModule, TreeRoot};
use std::alloc::{AllocError, Global};
use wc_graph::is_set;
use wc_paths::{Callers as TableCallers, PathItem, item_at};

/// Where items are by so many modules.
pub(crate) fn positions_in(
    alloc: Global,
    count: usize,
    items: &[(usize, usize)],
) -> Result<Positions, AllocError>
    requires { All (λ y. y.0 < count) items.now }
    ensures { IfOk result (ArePositions items.now count) }
{
    let mut groups = no_groups(alloc, count)?;
    let mut own = Vec::new(alloc);
    for position in 0..items.len() {
        let (part, _) = items[position];
        let place = put_under(&mut groups, part, position)?;
        own.push(place)?;
    }
    Ok(Positions { groups, own })
}

/// So many empty lists.
fn no_groups(alloc: Global, count: usize) -> Result<Vec<Vec<usize>>, AllocError>
    ensures { IfOk result (λ v. groups_view v.items ≡ replicate count []) }
{
    let mut groups = Vec::new(alloc);
    for _ in 0..count {
        groups.push(Vec::new(alloc))?;
    }
    Ok(groups)
}

/// Appends a position to the list of a module, and returns how many it had.
fn put_under(
    groups: &mut Vec<Vec<usize>>,
    module: usize,
    position: usize,
) -> Result<usize, AllocError>
    requires { «module» < length groups.old.items }
    ensures { IfOk result (IsPutUnder «module» position (groups_view groups.old.items)
        (groups_view groups.new.items)) }
{
    push_position(&mut groups[module], position)
}

/// Appends a position, and returns how many there were.
fn push_position(group: &mut Vec<usize>, position: usize) -> Result<usize, AllocError>
    ensures count { IfOk result (λ place. place ≡ length group.old.items) }
    ensures put { OnOk result (group.new.items ≡ group.old.items ++ position ∷ []) }
{
    let place = group.len();
    group.push(position)?;
    Ok(place)
}

/// The modules of a tree.
pub(crate) fn tree_modules<'a>(
    alloc: Global,
    shown: Shown<'_, 'a>,
) -> Result<Vec<TreeModule<'a>>, AllocError>
    requires { IsShown shown }
    ensures { IfOk result (λ v. AreModulesBy shown.entry (map tree_module_view v.items)) }
{
    let mut modules = Vec::new(alloc);
    for position in 0..shown.graph.parts.len() {
        let items = shown_items(alloc, shown, &shown.positions.groups[position])?;
        let module = module_of(alloc, &shown.graph.parts[position], &items)?;
        modules.push(module)?;
    }
    Ok(modules)
}

/// The items at some positions of a tree.
fn shown_items<'c, 'a>(
    alloc: Global,
    shown: Shown<'c, 'a>,
    positions: &[usize],
) -> Result<Vec<ShownItem<'c, 'a>>, AllocError>
    requires shown { IsShown shown }
    requires there { All (λ k. k < length shown.tree.now.items.items) positions.now }
    ensures { IfOk result (λ v. AreShownBy shown.entry positions.now (map shown_view v.items)) }
{
    let mut items = Vec::new(alloc);
    for position in positions {
        items.push(shown_item(shown, *position))?;
    }
    Ok(items)
}

/// The item at a position of a tree.
fn shown_item<'c, 'a>(shown: Shown<'c, 'a>, position: usize) -> ShownItem<'c, 'a>
    requires shown { IsShown shown }
    requires there { position < length shown.tree.now.items.items }
    ensures { IsShownBy shown.entry position (shown_view result) }
{
    let (part, own) = shown.tree.items[position];
    let item = item_of(shown, part, own);
    let only = mark_of(shown, part, own);
    match shown.tree.from[position] {
        Some(before) => after(shown, before, part, item, only),
        None => ShownItem {
            item,
            root: begin_of(shown, part, own),
            from: None,
            called: &[],
            only,
        },
    }
}

/// An item that comes after the one at a position of a tree: in the same module, or by a link.
fn after<'c, 'a>(
    shown: Shown<'c, 'a>,
    before: usize,
    part: usize,
    item: PathItem,
    only: Option<bool>,
) -> ShownItem<'c, 'a>
    requires shown { IsShown shown }
    requires there { before < length shown.tree.now.items.items }
    ensures { IsAfterBy (map part_view shown.entry.graph.parts.now)
        shown.entry.tree.now.items.items before part item only (shown_view result) }
{
    let (other, own) = shown.tree.items[before];
    let position = shown.positions.own[before];
    if other == part {
        let called = callers_between(
            shown.graph.parts[part].callers,
            item_of(shown, other, own),
            item,
        );
        return ShownItem {
            item,
            root: None,
            from: Some(position),
            called,
            only,
        };
    }
    ShownItem {
        item,
        root: linked_root(shown, other, own, position),
        from: None,
        called: &[],
        only,
    }
}

/// The item of a part by its number there.
fn item_of(shown: Shown<'_, '_>, part: usize, own: usize) -> PathItem
    requires { part < length shown.graph.parts.now }
    ensures { (view : PartView)
        → slice_get (map part_view shown.entry.graph.parts.now) part ≡ Some view
        → result ≡ item_at view.counts own }
{
    item_at(&shown.graph.parts[part].counts, own)
}

/// The mark of an item; `None` where nothing is marked.
fn mark_of(shown: Shown<'_, '_>, part: usize, own: usize) -> Option<bool>
    ensures { result
        ≡ mark_of shown.entry.graph.numbers.now shown.entry.marks.now (part, own) }
{
    match shown.marks {
        Some(marks) => Some(mark_in(shown.graph.numbers, marks, part, own)),
        None => None,
    }
}

/// Whether an item is marked.
fn mark_in(numbers: &Numbers, marks: &Vec<bool>, part: usize, own: usize) -> bool
    ensures { result ≡ mark_in numbers.now (part, own) marks.now }
{
    match numbers.number(part, own) {
        Some(number) => is_set(marks, number),
        None => false,
    }
}

/// Where a path begins that begins with an item.
fn begin_of<'a>(shown: Shown<'_, 'a>, part: usize, own: usize) -> Option<TreeRoot<'a>>
    requires shown { IsShown shown }
    requires there { has_item (map part_view shown.graph.parts.now) (part, own) ≡ true }
    ensures { (view : PartView)
        → slice_get (map part_view shown.entry.graph.parts.now) part ≡ Some view
        → IsRootOf view.begins own (option_map tree_root_view result) }
{
    match shown.graph.numbers.number(part, own) {
        Some(number) => match shown.firsts[number] {
            Some(position) => root_at(&shown.graph.parts[part].begins, position),
            None => None,
        },
        None => None,
    }
}

/// Where paths begin that begin at a root of a part.
fn root_at<'a>(begins: &[Begin<'a>], position: usize) -> Option<TreeRoot<'a>>
    ensures { option_map tree_root_view result
        ≡ root_in (map begin_view begins.now) position }
{
    match begins.get(position) {
        Some(begin) => begin.root,
        None => None,
    }
}

/// Where a path goes on that comes from an item of the first part, at a position of its module, by a link.
fn linked_root<'a>(
    shown: Shown<'_, 'a>,
    part: usize,
    own: usize,
    position: usize,
) -> Option<TreeRoot<'a>>
    requires shown { IsShown shown }
    requires there { has_item (map part_view shown.graph.parts.now) (part, own) ≡ true }
    ensures { option_map tree_root_view result ≡ option_map (linked_root position)
        (link_at (map part_view shown.entry.graph.parts.now) (part, own)) }
{
    match shown.graph.numbers.number(part, own) {
        Some(number) => root_by(linked_at(shown.graph.links, number), position),
        None => None,
    }
}

/// Where a path goes on by what an item, at a position of its module, is linked to.
fn root_by<'a>(linked: Option<Linked<'a>>, position: usize) -> Option<TreeRoot<'a>>
    ensures { option_map tree_root_view result
        ≡ option_map (root_by position) linked.entry }
{
    match linked {
        Some(linked) => Some(TreeRoot::Adapter {
            name: linked.export,
            main: Some(position),
        }),
        None => None,
    }
}

/// The functions that may call an item after another one.
fn callers_between(callers: Option<&TableCallers>, item: PathItem, next: PathItem) -> &[usize]
    ensures { result.now ≡ option_map_or calling_by callers.entry calls_none item next }
{
    match callers {
        Some(callers) => callers.between(item, next),
        None => &[],
    }
}
