//! The tree of paths as a graph.

ghost use Rattle.std.specs.Prelude.{◌≡◌, ◌+◌, ◌^◌, ◌<◌, IfOk, map, string_bytes, take};
ghost use Rattle.std.specs.List.{flat_map};
ghost use Rattle.std.specs.Option.{option_map};
ghost use Rattle.wc_paths.specs.PathRoots.{root_view};
ghost use Rattle.wc_why.specs.Texts.{text_of};
ghost use Rattle.wc_why_text.specs.Groups.{group_names, group_ways};
ghost use Rattle.wc_why_text.specs.Runs.{runs_view};
ghost use Rattle.wc_why.specs.Tree.{tree_caller_view, tree_item_view, tree_module_view, tree_root_view, tree_view, tree_way_view};
ghost use Rattle.wc_why_text.specs.TreeGraph.{arrow, arrow_from, arrow_style, arrow_text, arrow_to, arrows, begin_text, box_begin, box_end, box_part, boxes, caller_line, caller_lines, cluster, clusters, end_arrow, end_arrows, export_text, group_box, group_boxes, graph_by, item_arrows, label_of, label_text, item_line, item_lines, line, mark_text, module_arrows, more_line, named_text, root_line, short_item, short_root, some_caller_lines, tree_graph, type_text, way_line, way_text};

use crate::groups::{Groups, group_at, groups_of};
use crate::item_texts::{
    data_text, elements_text, importer_text, item_text, root_text, unfollowed_text,
};
use crate::runs::{Runs, find_runs, first_in, source};
use crate::short_names::short_name;
use crate::texts::graph_text;
use crate::tree_json::shown_callers;
use crate::ways::chosen_ways;
use std::alloc::{AllocError, Global};
use std::cmp::min;
use wc_maps::Seed;
use wc_paths::{PathItem, PathRoot};
use wc_read::Space;
use wc_texts::escaped;
use wc_why::{Callers, Tree, TreeCaller, TreeItem, TreeModule, TreeRoot, TreeWay};

/// How many names a box has for an interface.
const NAMES: usize = 6;

/// The tree as a graph in the language of Graphviz, from left to right. Each module is a cluster with a box for each
/// run of items, and each interface is a box.
///
/// An item is in the box of the one before it, if that leads to it and to no other item, and no path ends there. A box has a
/// line for where a path begins, if it begins there, and a line for each item, after those for its callers. A line that begins
/// with `* ` is that of an item that is marked. Names are short: the last two parts of a name that Rust mangled, read
/// (`rust_name`); and then the first 40 characters and `..`.
///
/// The box of an interface has at most six names, and how many there are more. An arrow to it is dashed if it is for types. A
/// function that was asked for by itself has no box of its own. A graph without paths says so.
///
/// # Errors
///
/// `AllocError`: an allocation failed.
pub fn tree_to_graph(alloc: Global, seed: Seed, tree: &Tree<'_>) -> Result<String, AllocError>
    ensures { IfOk result (λ s. string_bytes s ≡ tree_graph (tree_view tree.now)) }
{
    let runs = find_runs(alloc, seed, tree)?;
    let label = label_text(alloc, &tree.ways)?;
    let imports = chosen_ways(alloc, &tree.ways, true)?;
    let groups = groups_of(alloc, seed, &imports)?;
    graph_by(alloc, label, &tree.modules, &runs, &groups)
}

/// The label of a graph of these ways: it has none, but where no path leads to anything.
fn label_text(alloc: Global, ways: &[TreeWay<'_>]) -> Result<&'static str, AllocError>
    ensures { IfOk result (λ s. s.now ≡ label_text (map tree_way_view ways.now)) }
{
    let reached = chosen_ways(alloc, ways, false)?;
    Ok(label_of(&reached))
}

/// The label of a graph of ways to what is reached.
fn label_of(ways: &[TreeWay<'_>]) -> &'static str
    ensures { result.now ≡ label_of (map tree_way_view ways.now) }
{
    match ways {
        [] => "  label=\"no paths\";\n",
        [_, ..] => "",
    }
}

/// The graph of modules, by their runs and by interfaces.
fn graph_by(
    alloc: Global,
    label: &str,
    modules: &[TreeModule<'_>],
    runs: &Runs,
    groups: &Groups<'_>,
) -> Result<String, AllocError>
    ensures { IfOk result (λ s. string_bytes s
        ≡ graph_by label.now (runs_view runs.now) (map tree_module_view modules.now)
        (group_names groups.now.entries) (group_ways groups.now.entries)) }
{
    let clusters = clusters(alloc, runs, modules)?;
    let boxes = group_boxes(alloc, groups)?;
    let arrows = arrows(alloc, runs, modules)?;
    let ends = end_arrows(alloc, runs, groups)?;
    format!(in alloc;
        "digraph why {{\n  rankdir=LR;\n  node [shape=box];\n{label}{clusters}{boxes}{arrows}{ends}}}\n"
    )
}

/// The clusters of the modules.
fn clusters(alloc: Global, runs: &Runs, modules: &[TreeModule<'_>]) -> Result<String, AllocError>
    ensures { IfOk result (λ s. string_bytes s
        ≡ clusters (runs_view runs.now) (map tree_module_view modules.now)) }
{
    let mut text = String::new(alloc);
    for index in 0..modules.len() {
        let part = cluster(alloc, runs, index, &modules[index])?;
        text.push_str(&part)?;
    }
    Ok(text)
}

/// The cluster of a module.
fn cluster(
    alloc: Global,
    runs: &Runs,
    index: usize,
    module: &TreeModule<'_>,
) -> Result<String, AllocError>
    ensures { IfOk result (λ s. string_bytes s
        ≡ cluster (runs_view runs.now) index (tree_module_view «module».now)) }
{
    let importer = importer_text(alloc, module.adapter)?;
    let label = graph_text(alloc, &importer)?;
    let boxes = boxes(alloc, runs, index, module, &module.items)?;
    format!(in alloc; "  subgraph cluster_{index} {{\n    label=\"{label}\";\n{boxes}  }}\n")
}

/// The boxes of items of a module.
fn boxes(
    alloc: Global,
    runs: &Runs,
    index: usize,
    module: &TreeModule<'_>,
    items: &[TreeItem<'_>],
) -> Result<String, AllocError>
    ensures { IfOk result (λ s. string_bytes s ≡ boxes (runs_view runs.now) index
        (tree_module_view «module».now) (map tree_item_view items.now)) }
{
    let mut text = String::new(alloc);
    for position in 0..items.len() {
        let part = box_part(alloc, runs, module, (index, position), &items[position])?;
        text.push_str(&part)?;
    }
    Ok(text)
}

/// The lines of an item in its box, with the begin of the box before them where it is the first item there, and the end
/// of the box after them where it is the last.
fn box_part(
    alloc: Global,
    runs: &Runs,
    module: &TreeModule<'_>,
    at: (usize, usize),
    item: &TreeItem<'_>,
) -> Result<String, AllocError>
    requires { at.1 + 1 < 2 ^ 64 }
    ensures { IfOk result (λ s. string_bytes s ≡ box_part (runs_view runs.now)
        (tree_module_view «module».now) at (tree_item_view item.now)) }
{
    let begin = box_begin(alloc, runs, at)?;
    let lines = item_lines(alloc, module, item)?;
    let end = box_end(runs, at.0, at.1 + 1);
    format!(in alloc; "{begin}{lines}{end}")
}

/// The begin of a box, if an item is the first there.
fn box_begin(alloc: Global, runs: &Runs, at: (usize, usize)) -> Result<String, AllocError>
    ensures { IfOk result (λ s. string_bytes s ≡ box_begin (runs_view runs.now) at) }
{
    let (module, item) = at;
    if first_in(runs, module, item) == item {
        format!(in alloc; "    m{module}_{item} [label=\"")
    } else {
        Ok(String::new(alloc))
    }
}

/// The end of a box, if the next item is the first of another.
fn box_end(runs: &Runs, index: usize, next: usize) -> &'static str
    ensures { result.now ≡ box_end (runs_view runs.now) index next }
{
    if first_in(runs, index, next) == next {
        "\"];\n"
    } else {
        ""
    }
}

/// The lines of an item: where a path begins there, its callers, and the item.
fn item_lines(
    alloc: Global,
    module: &TreeModule<'_>,
    item: &TreeItem<'_>,
) -> Result<String, AllocError>
    ensures { IfOk result (λ s. string_bytes s
        ≡ item_lines (tree_module_view «module».now) (tree_item_view item.now)) }
{
    let root = root_line(alloc, &module.roots, item.root)?;
    let callers = caller_lines(alloc, item.callers, &module.callers)?;
    let line = item_line(alloc, item)?;
    format!(in alloc; "{root}{callers}{line}")
}

/// The line for where a path begins, if one begins there.
fn root_line(
    alloc: Global,
    roots: &[TreeRoot<'_>],
    root: Option<usize>,
) -> Result<String, AllocError>
    ensures { IfOk result (λ s. string_bytes s ≡ root_line (map tree_root_view roots.now) root) }
{
    match root {
        Some(index) => match roots.get(index) {
            Some(root) => {
                let text = short_root(alloc, *root)?;
                line(alloc, "", &text)
            }
            None => Ok(String::new(alloc)),
        },
        None => Ok(String::new(alloc)),
    }
}

/// Where a path begins, with a short name.
fn short_root(alloc: Global, root: TreeRoot<'_>) -> Result<String, AllocError>
    ensures { IfOk result (λ s. string_bytes s ≡ short_root (tree_root_view root.entry)) }
{
    match root {
        TreeRoot::Begin(root) => begin_text(alloc, root),
        TreeRoot::Adapter { name, .. } => export_text(alloc, name),
        TreeRoot::Unfollowed(why) => unfollowed_text(alloc, why),
    }
}

/// Where a path begins in a main module or one that stands alone, with a short name.
fn begin_text(alloc: Global, root: PathRoot<'_>) -> Result<String, AllocError>
    ensures { IfOk result (λ s. string_bytes s ≡ begin_text (root_view root.entry)) }
{
    match root {
        PathRoot::Export(name) => export_text(alloc, name),
        PathRoot::Start => root_text(alloc, PathRoot::Start),
        PathRoot::FillsTable(index) => root_text(alloc, PathRoot::FillsTable(index)),
        PathRoot::FillsMemory(index) => root_text(alloc, PathRoot::FillsMemory(index)),
    }
}

/// An export, by its short name.
fn export_text(alloc: Global, name: &str) -> Result<String, AllocError>
    ensures { IfOk result (λ s. string_bytes s ≡ export_text name.now) }
{
    let name = short_name(alloc, name)?;
    root_text(alloc, PathRoot::Export(&name))
}

/// A line of a box, after some characters.
fn line(alloc: Global, before: &str, text: &str) -> Result<String, AllocError>
    ensures { IfOk result (λ s. string_bytes s ≡ line before.now text.now) }
{
    let text = graph_text(alloc, text)?;
    format!(in alloc; "{before}{text}\\l")
}

/// The lines of the functions that may call an item.
fn caller_lines(
    alloc: Global,
    callers: Option<Callers>,
    list: &[TreeCaller<'_>],
) -> Result<String, AllocError>
    ensures { IfOk result (λ s. string_bytes s
        ≡ caller_lines (map tree_caller_view list.now) callers) }
{
    match callers {
        Some(callers) => { some_caller_lines(alloc, shown_callers(callers, list), callers.count) }
        None => Ok(String::new(alloc)),
    }
}

/// The lines of these functions, of so many.
fn some_caller_lines(
    alloc: Global,
    shown: &[TreeCaller<'_>],
    count: usize,
) -> Result<String, AllocError>
    ensures { IfOk result (λ s. string_bytes s
        ≡ some_caller_lines (map tree_caller_view shown.now) count) }
{
    let lines = shown_lines(alloc, shown)?;
    let more = more_line(alloc, "called by ", count.saturating_sub(shown.len()))?;
    format!(in alloc; "{lines}{more}")
}

/// The lines of these functions.
fn shown_lines(alloc: Global, callers: &[TreeCaller<'_>]) -> Result<String, AllocError>
    ensures { IfOk result (λ s. string_bytes s
        ≡ flat_map caller_line (map tree_caller_view callers.now)) }
{
    let mut lines = String::new(alloc);
    for caller in callers {
        let text = named_text(alloc, Space::Funcs, caller.index, caller.name)?;
        let caller_line = line(alloc, "called by ", &text)?;
        lines.push_str(&caller_line)?;
    }
    Ok(lines)
}

/// A line that says how many more there are, if there are any.
fn more_line(alloc: Global, before: &str, count: usize) -> Result<String, AllocError>
    ensures { IfOk result (λ s. string_bytes s ≡ more_line before.now count) }
{
    if count == 0 {
        Ok(String::new(alloc))
    } else {
        format!(in alloc; "{before}{count} more\\l")
    }
}

/// The line of an item, with its mark.
fn item_line(alloc: Global, item: &TreeItem<'_>) -> Result<String, AllocError>
    ensures { IfOk result (λ s. string_bytes s ≡ item_line (tree_item_view item.now)) }
{
    let text = short_item(alloc, item.item, item.name)?;
    line(alloc, mark_text(item.only), &text)
}

/// The text that the line of a marked item begins with.
fn mark_text(only: Option<bool>) -> &'static str
    ensures { result.now ≡ mark_text only }
{
    match only {
        Some(true) => "* ",
        Some(false) => "",
        None => "",
    }
}

/// An item, with its short name.
fn short_item(alloc: Global, item: PathItem, name: Option<&str>) -> Result<String, AllocError>
    ensures { IfOk result (λ s. string_bytes s ≡ short_item item (option_map text_of name.entry)) }
{
    match item {
        PathItem::Item(space, index) => named_text(alloc, space, index, name),
        PathItem::Elements(index) => elements_text(alloc, index),
        PathItem::Data(index) => data_text(alloc, index),
    }
}

/// An item of a space, with its short name, if it has one.
fn named_text(
    alloc: Global,
    space: Space,
    index: usize,
    name: Option<&str>,
) -> Result<String, AllocError>
    ensures { IfOk result (λ s. string_bytes s
        ≡ named_text space index (option_map text_of name.entry)) }
{
    match name {
        Some(name) => {
            let name = short_name(alloc, name)?;
            item_text(alloc, space, index, Some(&name))
        }
        None => item_text(alloc, space, index, None),
    }
}

/// The boxes of the interfaces.
fn group_boxes(alloc: Global, groups: &Groups<'_>) -> Result<String, AllocError>
    ensures { IfOk result (λ s. string_bytes s
        ≡ group_boxes (group_names groups.now.entries) (group_ways groups.now.entries)) }
{
    let mut text = String::new(alloc);
    for number in 0..groups.len() {
        let (interface, ways) = group_at(groups, number);
        let part = group_box(alloc, number, interface, ways)?;
        text.push_str(&part)?;
    }
    Ok(text)
}

/// The box of an interface.
fn group_box(
    alloc: Global,
    number: usize,
    interface: &str,
    ways: &[TreeWay<'_>],
) -> Result<String, AllocError>
    ensures { IfOk result (λ s. string_bytes s
        ≡ group_box number interface.now (map tree_way_view ways.now)) }
{
    let escaped = escaped(alloc, interface)?;
    let interface = line(alloc, "", &escaped)?;
    let names = way_lines(alloc, first_ways(ways))?;
    let more = more_line(alloc, "  and ", ways.len().saturating_sub(NAMES))?;
    format!(in alloc; "  i{number} [label=\"{interface}{names}{more}\", style=bold];\n")
}

/// The first of these paths, as many as a box has names.
fn first_ways<'s, 'a>(ways: &'s [TreeWay<'a>]) -> &'s [TreeWay<'a>]
    ensures { result.now ≡ take 6 ways.now }
{
    &ways[..min(NAMES, ways.len())]
}

/// The lines of what is imported from an interface.
fn way_lines(alloc: Global, ways: &[TreeWay<'_>]) -> Result<String, AllocError>
    ensures { IfOk result (λ s. string_bytes s ≡ flat_map way_line (map tree_way_view ways.now)) }
{
    let mut lines = String::new(alloc);
    for way in ways {
        let line = way_line(alloc, way)?;
        lines.push_str(&line)?;
    }
    Ok(lines)
}

/// The line of what is imported at the end of a path.
fn way_line(alloc: Global, way: &TreeWay<'_>) -> Result<String, AllocError>
    ensures { IfOk result (λ s. string_bytes s ≡ way_line (tree_way_view way.now)) }
{
    let text = way_text(alloc, way.name, way.ty)?;
    line(alloc, "  ", &text)
}

/// The text of what a path leads to: a name, or a type.
fn way_text(alloc: Global, name: Option<&str>, ty: Option<&str>) -> Result<String, AllocError>
    ensures { IfOk result (λ s. string_bytes s
        ≡ way_text (option_map text_of name.entry) (option_map text_of ty.entry)) }
{
    match name {
        Some(name) => escaped(alloc, name),
        None => type_text(alloc, ty),
    }
}

/// A type that a path leads to.
fn type_text(alloc: Global, ty: Option<&str>) -> Result<String, AllocError>
    ensures { IfOk result (λ s. string_bytes s ≡ type_text (option_map text_of ty.entry)) }
{
    match ty {
        Some(ty) => {
            let name = escaped(alloc, ty)?;
            format!(in alloc; "type {name}")
        }
        None => String::from_str(alloc, "types"),
    }
}

/// The arrows between the boxes of items.
fn arrows(alloc: Global, runs: &Runs, modules: &[TreeModule<'_>]) -> Result<String, AllocError>
    ensures { IfOk result (λ s. string_bytes s
        ≡ arrows (runs_view runs.now) (map tree_module_view modules.now)) }
{
    let mut text = String::new(alloc);
    for index in 0..modules.len() {
        let part = module_arrows(alloc, runs, index, &modules[index])?;
        text.push_str(&part)?;
    }
    Ok(text)
}

/// The arrows to the boxes of a module's items.
fn module_arrows(
    alloc: Global,
    runs: &Runs,
    index: usize,
    module: &TreeModule<'_>,
) -> Result<String, AllocError>
    ensures { IfOk result (λ s. string_bytes s
        ≡ module_arrows (runs_view runs.now) index (tree_module_view «module».now)) }
{
    item_arrows(alloc, runs, index, &module.roots, &module.items)
}

/// The arrows to the boxes of items of a module.
fn item_arrows(
    alloc: Global,
    runs: &Runs,
    index: usize,
    roots: &[TreeRoot<'_>],
    items: &[TreeItem<'_>],
) -> Result<String, AllocError>
    ensures { IfOk result (λ s. string_bytes s ≡ item_arrows (runs_view runs.now) index
        (map tree_root_view roots.now) (map tree_item_view items.now)) }
{
    let mut text = String::new(alloc);
    for position in 0..items.len() {
        let part = arrow(alloc, runs, roots, (index, position), &items[position])?;
        text.push_str(&part)?;
    }
    Ok(text)
}

/// The arrow to an item's box, if the item is the first there, and another leads to it.
fn arrow(
    alloc: Global,
    runs: &Runs,
    roots: &[TreeRoot<'_>],
    at: (usize, usize),
    item: &TreeItem<'_>,
) -> Result<String, AllocError>
    ensures { IfOk result (λ s. string_bytes s
        ≡ arrow (runs_view runs.now) (map tree_root_view roots.now) at (tree_item_view item.now)) }
{
    if first_in(runs, at.0, at.1) == at.1 {
        arrow_from(alloc, runs, source(at.0, roots, item), at)
    } else {
        Ok(String::new(alloc))
    }
}

/// The arrow to an item's box from that of the item that leads there, if one does.
fn arrow_from(
    alloc: Global,
    runs: &Runs,
    source: Option<(usize, usize)>,
    to: (usize, usize),
) -> Result<String, AllocError>
    ensures { IfOk result (λ s. string_bytes s ≡ arrow_from (runs_view runs.now) source to) }
{
    match source {
        Some((module, item)) => arrow_text(alloc, (module, first_in(runs, module, item)), to),
        None => Ok(String::new(alloc)),
    }
}

/// The arrow from the box of one item to that of another.
fn arrow_text(alloc: Global, from: (usize, usize), to: (usize, usize)) -> Result<String, AllocError>
    ensures { IfOk result (λ s. string_bytes s ≡ arrow_text from to) }
{
    let (module, item) = from;
    let (to_module, to_item) = to;
    format!(in alloc; "  m{module}_{item} -> m{to_module}_{to_item};\n")
}

/// The arrows to the boxes of interfaces.
fn end_arrows(alloc: Global, runs: &Runs, groups: &Groups<'_>) -> Result<String, AllocError>
    ensures { IfOk result (λ s. string_bytes s ≡ end_arrows (runs_view runs.now)
        (group_names groups.now.entries) (group_ways groups.now.entries)) }
{
    let mut text = String::new(alloc);
    for number in 0..groups.len() {
        let (_interface, ways) = group_at(groups, number);
        let part = group_arrows(alloc, runs, number, ways)?;
        text.push_str(&part)?;
    }
    Ok(text)
}

/// The arrows to the box of an interface.
fn group_arrows(
    alloc: Global,
    runs: &Runs,
    number: usize,
    ways: &[TreeWay<'_>],
) -> Result<String, AllocError>
    ensures { IfOk result (λ s. string_bytes s
        ≡ flat_map (end_arrow (runs_view runs.now) number) (map tree_way_view ways.now)) }
{
    let mut text = String::new(alloc);
    for way in ways {
        let arrow = end_arrow(alloc, runs, number, way)?;
        text.push_str(&arrow)?;
    }
    Ok(text)
}

/// The arrow to the box of an interface from the one in which a path ends, if it ends in one.
fn end_arrow(
    alloc: Global,
    runs: &Runs,
    number: usize,
    way: &TreeWay<'_>,
) -> Result<String, AllocError>
    ensures { IfOk result (λ s. string_bytes s
        ≡ end_arrow (runs_view runs.now) number (tree_way_view way.now)) }
{
    match (way.module, way.item) {
        (Some(module), Some(item)) => {
            let first = first_in(runs, module, item);
            arrow_to(alloc, (module, first), number, arrow_style(way.name))
        }
        (Some(_), None) | (None, _) => Ok(String::new(alloc)),
    }
}

/// An arrow from the box with this item to that of an interface.
fn arrow_to(
    alloc: Global,
    from: (usize, usize),
    number: usize,
    style: &str,
) -> Result<String, AllocError>
    ensures { IfOk result (λ s. string_bytes s ≡ arrow_to from number style.now) }
{
    let (module, first) = from;
    format!(in alloc; "  m{module}_{first} -> i{number}{style};\n")
}

/// How an arrow is drawn: dashed, if it is for types.
fn arrow_style(name: Option<&str>) -> &'static str
    ensures { result.now ≡ arrow_style (option_map text_of name.entry) }
{
    match name {
        Some(_) => "",
        None => " [style=dashed]",
    }
}
