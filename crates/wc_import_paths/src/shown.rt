//! The ends of the paths that are shown: imports, and functions that were asked for by themselves.

ghost use Rattle.std.specs.Prelude.{◌≡◌, ◌<◌, ◌^◌, ◌++◌, ◌||◌, [], IfOk, OnOk, cond, length, map, not};
ghost use Rattle.std.specs.Option.{option_map};
ghost use Rattle.wc_read.specs.Imports.{import_value};
ghost use Rattle.wc_paths.specs.Callers.{is_reached};
ghost use Rattle.wc_paths.specs.Counts.{counts_value};
ghost use Rattle.wc_paths.specs.Numbers.{item_count};
ghost use Rattle.wc_why.specs.Part.{part_view};
ghost use Rattle.wc_why.specs.Texts.{text_of};
ghost use Rattle.wc_why.specs.Tree.{tree_caller_view, tree_import_view, tree_view, tree_way_view};
ghost use Rattle.wc_import_paths.specs.Followed.{HasPaths, followed_view};
ghost use Rattle.wc_import_paths.specs.Patterns.{are_asked, is_shown};
ghost use Rattle.wc_import_paths.specs.Shown.{IsFollowedTree, IsTreeTo, are_functions, end_at, end_view, function_end, function_ends, has_way, import_end, import_end_at, import_ends, item_if, item_of, module_at, module_of, name_of, number_in, shown_ends, target_of, way_at, way_of, ways_in};

use crate::asked::Asked;
use crate::followed::Followed;
use crate::part::followed_part;
use std::alloc::{AllocError, Global};
use wc_paths::{Counts, PathItem, has_item, number_of};
use wc_read::{Import, Space};
use wc_why::{
    ComponentTree, End, Part, Target, Tree, TreeCaller, TreeImport, TreeWay, tree_of_parts,
};

/// An item of a part of a component to which a path is shown: that of an import, or a function that was asked for by
/// itself.
#[derive(Clone, Copy)]
pub struct ShownEnd<'a> {
    /// The position of the part.
    pub part: usize,
    /// The number of the item there; `None` where no path to it is to be shown.
    pub item: Option<usize>,
    /// The import, if it is one that is shown.
    pub import: Option<TreeImport<'a>>,
    /// The function, if it was asked for by itself.
    pub function: Option<TreeCaller<'a>>,
}

/// Appends an import of a part, if it is wanted, and its item is there: the part has so many items, and this position.
///
/// # Errors
///
/// `AllocError`: an allocation failed.
pub fn push_shown<'a>(
    part: (&Counts, usize),
    import: &Import<'a>,
    item: PathItem,
    is_wanted: bool,
    shown: &mut Vec<ShownEnd<'a>>,
) -> Result<(), AllocError>
    requires { item_count (counts_value part.0.now) < 2 ^ 64 }
    ensures { OnOk result (map end_view shown.new.items ≡ map end_view shown.old.items
        ++ cond is_wanted (import_end part.entry.1 (counts_value part.entry.0.now)
        (import_value import.now) item) []) }
{
    if is_wanted {
        push_import(part, import, item, shown)
    } else {
        Ok(())
    }
}

/// Appends an import of a part, if its item is there.
fn push_import<'a>(
    part: (&Counts, usize),
    import: &Import<'a>,
    item: PathItem,
    shown: &mut Vec<ShownEnd<'a>>,
) -> Result<(), AllocError>
    requires { item_count (counts_value part.0.now) < 2 ^ 64 }
    ensures { OnOk result (map end_view shown.new.items ≡ map end_view shown.old.items
        ++ import_end part.entry.1 (counts_value part.entry.0.now) (import_value import.now)
        item) }
{
    let (counts, position) = part;
    if has_item(counts, item) {
        shown.push(ShownEnd {
            part: position,
            item: Some(number_of(counts, item)),
            import: Some(TreeImport {
                module: import.module,
                name: import.name,
            }),
            function: None,
        })?;
    }
    Ok(())
}

/// Appends functions of the first part, those that are there. `reached` says of each function of the part whether it is
/// reached: one that isn't has no item.
///
/// # Errors
///
/// `AllocError`: an allocation failed.
pub fn push_functions<'a>(
    counts: &Counts,
    reached: &[bool],
    functions: &[TreeCaller<'a>],
    shown: &mut Vec<ShownEnd<'a>>,
) -> Result<(), AllocError>
    requires { item_count (counts_value counts.now) < 2 ^ 64 }
    ensures { OnOk result (map end_view shown.new.items ≡ map end_view shown.old.items
        ++ function_ends (counts_value counts.now) reached.now
        (map tree_caller_view functions.now)) }
{
    for function in functions {
        push_function(counts, reached, *function, shown)?;
    }
    Ok(())
}

/// Appends a function of the first part, if it is there.
fn push_function<'a>(
    counts: &Counts,
    reached: &[bool],
    function: TreeCaller<'a>,
    shown: &mut Vec<ShownEnd<'a>>,
) -> Result<(), AllocError>
    requires { item_count (counts_value counts.now) < 2 ^ 64 }
    ensures { OnOk result (map end_view shown.new.items ≡ map end_view shown.old.items
        ++ function_end (counts_value counts.now) reached.now (tree_caller_view function.entry)) }
{
    let item = PathItem::Item(Space::Funcs, function.index);
    if has_item(counts, item) {
        let number = number_of(counts, item);
        shown.push(ShownEnd {
            part: 0,
            item: item_if(is_reached(reached, function.index), number),
            import: None,
            function: Some(function),
        })?;
    }
    Ok(())
}

/// The item of a number, if a path to it is to be shown.
fn item_if(is_reached: bool, number: usize) -> Option<usize>
    ensures { result ≡ item_if is_reached number }
{
    if is_reached { Some(number) } else { None }
}

/// Whether the function of an index is reached.
fn is_reached(reached: &[bool], index: usize) -> bool
    ensures { result ≡ is_reached reached.now index }
{
    match reached.get(index) {
        Some(is_reached) => *is_reached,
        None => false,
    }
}

/// The tree of the paths through these parts to these items, in order. Where something is asked for, items have marks.
/// To an item to which no path leads there is a way without an end, if it is a function, or if `with_unreached` says
/// so; another is left out.
///
/// # Errors
///
/// `AllocError`: an allocation failed.
pub fn tree_to_ends<'a>(
    alloc: Global,
    parts: &[Part<'a>],
    shown: &[ShownEnd<'a>],
    is_asked: bool,
    with_unreached: bool,
) -> Result<Tree<'a>, AllocError>
    ensures { IfOk result (λ t. IsTreeTo (map part_view parts.now) (map end_view shown.now)
        is_asked with_unreached (tree_view t)) }
{
    let targets = targets_of(alloc, shown)?;
    let found = tree_of_parts(alloc, parts, &targets, is_asked)?;
    let ComponentTree { modules, ends } = found;
    let ways = ways_of(alloc, shown, &ends, with_unreached)?;
    Ok(Tree { modules, ways })
}

/// Items as targets.
fn targets_of(alloc: Global, shown: &[ShownEnd<'_>]) -> Result<Vec<Target>, AllocError>
    ensures { IfOk result (λ v. v.items ≡ map target_of (map end_view shown.now)) }
{
    let mut targets = Vec::new(alloc);
    for end in shown {
        targets.push(target_of(*end))?;
    }
    Ok(targets)
}

/// An item as a target.
fn target_of(end: ShownEnd<'_>) -> Target
    ensures { result ≡ target_of (end_view end.entry) }
{
    Target {
        part: end.part,
        item: number_in(end.item),
        is_asked: true,
    }
}

/// The number of an item; where there is none, one that no item has.
fn number_in(item: Option<usize>) -> usize
    ensures { result ≡ number_in item }
{
    match item {
        Some(number) => number,
        None => usize::MAX,
    }
}

/// The ways to items, by where they are in the tree.
fn ways_of<'a>(
    alloc: Global,
    shown: &[ShownEnd<'a>],
    ends: &[Option<End>],
    with_unreached: bool,
) -> Result<Vec<TreeWay<'a>>, AllocError>
    ensures { IfOk result (λ v. map tree_way_view v.items
        ≡ ways_in with_unreached (map end_view shown.now) ends.now) }
{
    let mut ways = Vec::new(alloc);
    for position in 0..shown.len() {
        push_way(shown, ends, position, with_unreached, &mut ways)?;
    }
    Ok(ways)
}

/// Appends the way to the item at a position, if there is one.
fn push_way<'a>(
    shown: &[ShownEnd<'a>],
    ends: &[Option<End>],
    position: usize,
    with_unreached: bool,
    ways: &mut Vec<TreeWay<'a>>,
) -> Result<(), AllocError>
    requires { position < length shown.now }
    ensures { OnOk result (map tree_way_view ways.new.items ≡ map tree_way_view ways.old.items
        ++ way_at with_unreached (map end_view shown.now) ends.now position) }
{
    let end = end_at(ends, position);
    let item = shown[position];
    if has_way(with_unreached, item, end) {
        ways.push(way_to(item, end))?;
    }
    Ok(())
}

/// Where the item at a position is in the tree.
fn end_at(ends: &[Option<End>], position: usize) -> Option<End>
    ensures { result ≡ end_at ends.now position }
{
    match ends.get(position) {
        Some(end) => *end,
        None => None,
    }
}

/// Whether there is a way to an item, with where it is in the tree.
fn has_way(with_unreached: bool, shown: ShownEnd<'_>, end: Option<End>) -> bool
    ensures { result ≡ has_way with_unreached (end_view shown.entry) end }
{
    end.is_some() || (with_unreached || shown.function.is_some())
}

/// The way to an item, with where it is in the tree.
fn way_to<'a>(shown: ShownEnd<'a>, end: Option<End>) -> TreeWay<'a>
    ensures { tree_way_view result ≡ way_of (end_view shown.entry) end }
{
    TreeWay {
        interface: module_of(shown.import),
        function: shown.function,
        name: name_of(shown.import),
        module: Some(end_module(shown.part, end)),
        item: end_item(end),
        import: shown.import,
        ty: None,
    }
}

/// The module in which a way ends; that of the part, where no path leads there.
fn end_module(part: usize, end: Option<End>) -> usize
    ensures { result ≡ module_at part end }
{
    match end {
        Some(end) => end.module,
        None => part,
    }
}

/// The position of the item at which a way ends.
fn end_item(end: Option<End>) -> Option<usize>
    ensures { result ≡ item_of end }
{
    match end {
        Some(end) => Some(end.item),
        None => None,
    }
}

/// The module that is imported from.
fn module_of<'a>(import: Option<TreeImport<'a>>) -> Option<&'a str>
    ensures { option_map text_of result ≡ module_of (option_map tree_import_view import.entry) }
{
    match import {
        Some(import) => Some(import.module),
        None => None,
    }
}

/// The name of an import.
fn name_of<'a>(import: Option<TreeImport<'a>>) -> Option<&'a str>
    ensures { option_map text_of result ≡ name_of (option_map tree_import_view import.entry) }
{
    match import {
        Some(import) => Some(import.name),
        None => None,
    }
}

/// The tree of the paths in a module that stands alone to the imports that are asked for, and then to these functions.
/// Where only functions are asked for, no import is shown.
///
/// # Errors
///
/// `AllocError`: an allocation failed.
pub fn tree_of_followed<'a>(
    alloc: Global,
    asked: &Asked<'_, '_>,
    functions: &[TreeCaller<'a>],
    followed: &'a Followed<'a>,
) -> Result<Tree<'a>, AllocError>
    requires { HasPaths followed.now }
    ensures { IfOk result (λ t. IsFollowedTree (followed_view followed.now) followed.now.bytes.now
        asked.now (map tree_caller_view functions.now) (tree_view t)) }
{
    let part = followed_part(alloc, followed, false)?;
    let shown = shown_in(alloc, asked, functions, followed, &part.counts)?;
    let mut parts = Vec::new(alloc);
    parts.push(part)?;
    let is_asked = is_any_asked(asked, functions);
    tree_to_ends(alloc, &parts, &shown, is_asked, asked.are_there())
}

/// Whether imports or functions are asked for.
pub fn is_any_asked(asked: &Asked<'_, '_>, functions: &[TreeCaller<'_>]) -> bool
    ensures { result ≡ (are_asked asked.now || are_functions (map tree_caller_view functions.now)) }
{
    asked.are_there() || are_functions(functions)
}

/// Whether imports are shown: where functions alone are asked for, none is.
pub fn shows_imports(asked: &Asked<'_, '_>, functions: &[TreeCaller<'_>]) -> bool
    ensures { result ≡ (are_asked asked.now
        || not (are_functions (map tree_caller_view functions.now))) }
{
    asked.are_there() || !are_functions(functions)
}

/// Whether there are any functions.
fn are_functions(functions: &[TreeCaller<'_>]) -> bool
    ensures { result ≡ are_functions (map tree_caller_view functions.now) }
{
    !functions.is_empty()
}

/// The ends that are shown of a module that stands alone, which has so many items.
fn shown_in<'a>(
    alloc: Global,
    asked: &Asked<'_, '_>,
    functions: &[TreeCaller<'a>],
    followed: &'a Followed<'a>,
    counts: &Counts,
) -> Result<Vec<ShownEnd<'a>>, AllocError>
    requires paths { HasPaths followed.now }
    requires fits { item_count (counts_value counts.now) < 2 ^ 64 }
    ensures { IfOk result (λ v. map end_view v.items ≡ shown_ends asked.now
        followed.now.reached.items (map tree_caller_view functions.now) (counts_value counts.now)
        (followed_view followed.now).code.imports) }
{
    let has_imports = shows_imports(asked, functions);
    let mut shown = asked_if(alloc, asked, has_imports, followed, counts)?;
    push_functions(counts, &followed.reached, functions, &mut shown)?;
    Ok(shown)
}

/// The imports that are asked for; none, if they are not to be shown.
fn asked_if<'a>(
    alloc: Global,
    asked: &Asked<'_, '_>,
    is_wanted: bool,
    followed: &Followed<'a>,
    counts: &Counts,
) -> Result<Vec<ShownEnd<'a>>, AllocError>
    requires paths { HasPaths followed.now }
    requires fits { item_count (counts_value counts.now) < 2 ^ 64 }
    ensures { IfOk result (λ v. map end_view v.items ≡ cond is_wanted
        (import_ends 0 (counts_value counts.now) (is_shown asked.now)
        (followed_view followed.now).code.imports) []) }
{
    let mut shown = Vec::new(alloc);
    if is_wanted {
        push_asked(asked, followed, counts, &mut shown)?;
        Ok(shown)
    } else {
        Ok(shown)
    }
}

/// Appends the imports of a module that stands alone that are asked for.
fn push_asked<'a>(
    asked: &Asked<'_, '_>,
    followed: &Followed<'a>,
    counts: &Counts,
    shown: &mut Vec<ShownEnd<'a>>,
) -> Result<(), AllocError>
    requires paths { HasPaths followed.now }
    requires fits { item_count (counts_value counts.now) < 2 ^ 64 }
    ensures { OnOk result (map end_view shown.new.items ≡ map end_view shown.old.items
        ++ import_ends 0 (counts_value counts.now) (is_shown asked.now)
        (followed_view followed.now).code.imports) }
{
    for position in 0..followed.code.imports.len() {
        push_asked_at(asked, followed, position, counts, shown)?;
    }
    Ok(())
}

/// Appends the import at a position, if it is asked for.
fn push_asked_at<'a>(
    asked: &Asked<'_, '_>,
    followed: &Followed<'a>,
    position: usize,
    counts: &Counts,
    shown: &mut Vec<ShownEnd<'a>>,
) -> Result<(), AllocError>
    requires paths { HasPaths followed.now }
    requires fits { item_count (counts_value counts.now) < 2 ^ 64 }
    requires there { position < length followed.now.code.imports.items }
    ensures { OnOk result (map end_view shown.new.items ≡ map end_view shown.old.items
        ++ import_end_at 0 (counts_value counts.now) (is_shown asked.now)
        (followed_view followed.now).code.imports position) }
{
    let import = &followed.code.imports[position];
    let item = followed.items[position];
    push_shown((counts, 0), import, item, asked.is_shown(import), shown)
}
