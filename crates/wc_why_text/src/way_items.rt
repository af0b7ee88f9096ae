//! The items of a path that have no line yet.

ghost use Rattle.std.specs.Prelude.{◌≡◌, IfOk, OnOk, Some, map};
ghost use Rattle.std.specs.Option.{option_map};
ghost use Rattle.wc_why.specs.Tree.{tree_item_view, tree_module_view, tree_root_view, tree_way_view};
ghost use Rattle.wc_why_text.specs.TreeLines.{before, has_line, has_line_at, is_on_path, items_after, items_of, most_items, new_items, path_back, root_at, shared_item, way_path, with_line, with_lines};

use crate::runs::source;
use std::alloc::{AllocError, Global};
use wc_maps::Set;
use wc_why::{TreeItem, TreeModule, TreeRoot, TreeWay};

/// The items of a path that have no line above, in order, and the item before them, if there is one.
#[derive(Drop)]
pub(crate) struct WayItems {
    /// The items, each by the position of its module and its own.
    pub(crate) items: Vec<(usize, usize)>,
    /// The last item of the path that has a line above.
    pub(crate) shared: Option<(usize, usize)>,
}

/// Finds the items of the path of a way that have no line above, where these items have one.
pub(crate) fn way_items(
    alloc: Global,
    modules: &[TreeModule<'_>],
    way: &TreeWay<'_>,
    above: &Set<(usize, usize)>,
) -> Result<WayItems, AllocError>
    ensures items { IfOk result (λ i. i.items.items ≡ items_after
        (map tree_module_view modules.now) above.now.keys (tree_way_view way.now)) }
    ensures shared { IfOk result (λ i. i.shared ≡ shared_item above.now.keys
        (way_path (map tree_module_view modules.now) (tree_way_view way.now))) }
{
    match (way.module, way.item) {
        (Some(module), Some(item)) => {
            let mut found = walk_back(alloc, modules, (module, item), above)?;
            found.items.reverse();
            Ok(found)
        }
        (Some(_), None) | (None, _) => Ok(WayItems {
            items: Vec::new(alloc),
            shared: None,
        }),
    }
}

/// The items of the path to one that have no line above, back from it.
fn walk_back(
    alloc: Global,
    modules: &[TreeModule<'_>],
    end: (usize, usize),
    above: &Set<(usize, usize)>,
) -> Result<WayItems, AllocError>
    ensures items { IfOk result (λ i. i.items.items ≡ new_items above.now.keys
        (path_back (map tree_module_view modules.now)
        (most_items (map tree_module_view modules.now) end.0) (Some end))) }
    ensures shared { IfOk result (λ i. i.shared ≡ shared_item above.now.keys
        (path_back (map tree_module_view modules.now)
        (most_items (map tree_module_view modules.now) end.0) (Some end))) }
{
    let mut items = Vec::new(alloc);
    let mut next = Some(end);
    let most = most_items(modules, end.0);
    for _ in 0..most {
        match next {
            Some(item) => {
                if above.contains(&item) {
                    return Ok(WayItems {
                        items,
                        shared: Some(item),
                    });
                }
                items.push(item)?;
                next = before(modules, item);
            }
            None => return Ok(WayItems {
                items,
                shared: None,
            }),
        }
    }
    Ok(WayItems {
        items,
        shared: None,
    })
}

/// How many items a path that ends in a module has at most: those of this module and of the main module.
fn most_items(modules: &[TreeModule<'_>], module: usize) -> usize
    ensures { result ≡ most_items (map tree_module_view modules.now) «module» }
{
    items_of(modules, 0).saturating_add(items_of(modules, module))
}

/// How many items a module has.
fn items_of(modules: &[TreeModule<'_>], module: usize) -> usize
    ensures { result ≡ items_of (map tree_module_view modules.now) «module» }
{
    match modules.get(module) {
        Some(module) => module.items.len(),
        None => 0,
    }
}

/// The item before another on its path.
fn before(modules: &[TreeModule<'_>], item: (usize, usize)) -> Option<(usize, usize)>
    ensures { result ≡ before (map tree_module_view modules.now) item }
{
    match modules.get(item.0) {
        Some(module) => match module.items.get(item.1) {
            Some(at) => source(item.0, &module.roots, at),
            None => None,
        },
        None => None,
    }
}

/// Adds the items that have lines of their own.
pub(crate) fn put_items(
    modules: &[TreeModule<'_>],
    items: &[(usize, usize)],
    above: &mut Set<(usize, usize)>,
) -> Result<(), AllocError>
    ensures { OnOk result (above.new.keys
        ≡ with_lines (map tree_module_view modules.now) above.old.keys items.now) }
{
    for item in items {
        put_item(modules, *item, above)?;
    }
    Ok(())
}

/// Adds an item, if it has a line of its own.
fn put_item(
    modules: &[TreeModule<'_>],
    item: (usize, usize),
    above: &mut Set<(usize, usize)>,
) -> Result<(), AllocError>
    ensures { OnOk result (above.new.keys
        ≡ with_line (map tree_module_view modules.now) above.old.keys item) }
{
    if has_line_at(modules, item) {
        above.insert(item)?;
    }
    Ok(())
}

/// Whether an item has a line of its own.
fn has_line_at(modules: &[TreeModule<'_>], item: (usize, usize)) -> bool
    ensures { result ≡ has_line_at (map tree_module_view modules.now) item }
{
    match modules.get(item.0) {
        Some(module) => match module.items.get(item.1) {
            Some(at) => has_line(&module.roots, at),
            None => false,
        },
        None => false,
    }
}

/// Whether an item of a module with these roots has a line of its own: all have, but an import that is its own path.
pub(crate) fn has_line(roots: &[TreeRoot<'_>], item: &TreeItem<'_>) -> bool
    ensures { result ≡ has_line (map tree_root_view roots.now) (tree_item_view item.now) }
{
    match item.from {
        Some(_) => true,
        None => match root_at(roots, item.root) {
            Some(root) => is_on_path(root),
            None => false,
        },
    }
}

/// Where the path to an item begins, if it begins at it.
pub(crate) fn root_at<'r, 'a>(
    roots: &'r [TreeRoot<'a>],
    root: Option<usize>,
) -> Option<TreeRoot<'a>>
    ensures { option_map tree_root_view result ≡ root_at (map tree_root_view roots.now) root }
{
    match root {
        Some(root) => match roots.get(root) {
            Some(root) => Some(*root),
            None => None,
        },
        None => None,
    }
}

/// Whether a path that begins there has the item in its lines.
fn is_on_path(root: TreeRoot<'_>) -> bool
    ensures { result ≡ is_on_path (tree_root_view root.entry) }
{
    match root {
        TreeRoot::Begin(_) => true,
        TreeRoot::Adapter { .. } => true,
        TreeRoot::Unfollowed(_) => false,
    }
}
