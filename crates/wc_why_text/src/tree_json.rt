//! The tree of paths as JSON.

ghost use Rattle.std.specs.Prelude.{◌≡◌, ◌++◌, ◌∷◌, [], IfOk, OnOk, codes, decimal, map};
ghost use Rattle.std.specs.Option.{option_map};
ghost use Rattle.json.specs.Lex.{tokens};
ghost use Rattle.json.specs.Print.{print};
ghost use Rattle.json.specs.Token.{boolean, end_object, key, string};
ghost use Rattle.json.specs.Tree.{json_tokens};
ghost use Rattle.wc_texts.specs.Shapes.{array_of, nullable_json, number_json};
ghost use Rattle.wc_paths.specs.PathRoots.{root_view};
ghost use Rattle.wc_why_text.specs.Private.Tokens.{Puts};
ghost use Rattle.wc_why.specs.Tree.{tree_caller_view, tree_import_view, tree_item_view, tree_module_view, tree_root_view, tree_view, tree_way_view};
ghost use Rattle.wc_why_text.specs.TreeJson.{begin_json, caller_json, callers_json, export_json, import_json, index_of, item_json, module_json, named_json, only_tokens, root_json, shown_callers, some_callers_json, space_word, tree_json, unfollowed_json, unread_json, way_json};

use crate::item_texts::space_name;
use crate::json_parts::{
    begin_object, end_object, put_fills, put_kind, put_null, put_number, put_text, put_text_or_null,
};
use crate::ways::chosen_ways;
use json::Writer;
use std::alloc::{AllocError, Global};
use std::cmp::min;
use wc_paths::{PathItem, PathRoot};
use wc_read::Space;
use wc_why::{
    Callers, Tree, TreeCaller, TreeImport, TreeItem, TreeModule, TreeRoot, TreeWay, Unfollowed,
};

/// The tree as JSON in a line: an object with `modules` and `ways`.
///
/// A module has `adapter`, which is null for the main module or a module that stands alone, `roots` and `items`. A root
/// is an object whose first member is `kind`:
///
/// - `export`, with `name`; of an adapter also with `main`, the position of the main module's import of it among the
///   items of the first module, or null;
/// - `start`; `fills`, with `space` (`table` or `memory`) and `index`;
/// - `unreached`; `unread`, with `body`: what can't be read.
///
/// An item has `space` (`type`, `func`, `table`, `memory`, `global`, `elem` or `data`), `index`, and `name` or null.
/// Then come `root`, the position of its root, and `from`, the position of the item before it, each or null. `callers`
/// is null, or an object with `first`, a list of functions by `index` and `name`, and `count`. If imports are
/// requested, `only` says whether the item is marked.
///
/// A way has `interface`, `name`, which is null for types alone, `module` and `item`, where it ends, each or null, `import`: an
/// object with `module` and `name`, or null; and `type`, or null. Of a way to a function that was asked for by itself
/// `interface` is null too. What isn't reached has no way.
///
/// # Errors
///
/// `AllocError`: an allocation failed.
pub fn tree_to_json(alloc: Global, tree: &Tree<'_>) -> Result<Vec<u8>, AllocError>
    ensures text { IfOk result (λ v. v.items
        ≡ print (json_tokens (tree_json (tree_view tree.now))) ++ codes "\n") }
    ensures reads_back { IfOk result (λ _. tokens
        (print (json_tokens (tree_json (tree_view tree.now))))
        ≡ json_tokens (tree_json (tree_view tree.now))) }
{
    let mut out = Writer::new(Vec::new(alloc));
    put_tree(alloc, &mut out, tree)?;
    let mut text = out.into_inner();
    text.push(b'\n')?;
    Ok(text)
}

/// Writes a tree.
fn put_tree(alloc: Global, out: &mut Writer, tree: &Tree<'_>) -> Result<(), AllocError>
    ensures { OnOk result (Puts out.old out.new (json_tokens (tree_json (tree_view tree.now)))) }
{
    begin_object(out)?;
    put_modules(alloc, out, &tree.modules)?;
    let ways = chosen_ways(alloc, &tree.ways, false)?;
    put_ways(out, &ways)?;
    end_object(out)
}

/// Writes the member `modules`.
fn put_modules(
    alloc: Global,
    out: &mut Writer,
    modules: &[TreeModule<'_>],
) -> Result<(), AllocError>
    ensures { OnOk result (Puts out.old out.new (key (codes "modules")
        ∷ json_tokens (array_of (map module_json (map tree_module_view modules.now))))) }
{
    out.key("modules")?;
    out.begin_array()?;
    for module in modules {
        put_module(alloc, out, module)?;
    }
    out.end_array()
}

/// Writes a module.
fn put_module(alloc: Global, out: &mut Writer, module: &TreeModule<'_>) -> Result<(), AllocError>
    ensures { OnOk result (Puts out.old out.new
        (json_tokens (module_json (tree_module_view «module».now)))) }
{
    begin_object(out)?;
    put_text_or_null(out, "adapter", module.adapter)?;
    put_roots(alloc, out, &module.roots)?;
    put_items(out, &module.items, &module.callers)?;
    end_object(out)
}

/// Writes the member `roots`.
fn put_roots(alloc: Global, out: &mut Writer, roots: &[TreeRoot<'_>]) -> Result<(), AllocError>
    ensures { OnOk result (Puts out.old out.new (key (codes "roots")
        ∷ json_tokens (array_of (map root_json (map tree_root_view roots.now))))) }
{
    out.key("roots")?;
    out.begin_array()?;
    for root in roots {
        put_root(alloc, out, *root)?;
    }
    out.end_array()
}

/// Writes where paths begin.
fn put_root(alloc: Global, out: &mut Writer, root: TreeRoot<'_>) -> Result<(), AllocError>
    ensures { OnOk result (Puts out.old out.new
        (json_tokens (root_json (tree_root_view root.entry)))) }
{
    match root {
        TreeRoot::Begin(root) => put_begin(out, root),
        TreeRoot::Adapter { name, main } => put_export(out, name, main),
        TreeRoot::Unfollowed(why) => put_unfollowed(alloc, out, why),
    }
}

/// Writes where paths begin in a module that is not an adapter.
fn put_begin(out: &mut Writer, root: PathRoot<'_>) -> Result<(), AllocError>
    ensures { OnOk result (Puts out.old out.new (json_tokens (begin_json (root_view root.entry)))) }
{
    match root {
        PathRoot::Export(name) => put_named(out, name),
        PathRoot::Start => put_kind(out, "start"),
        PathRoot::FillsTable(index) => put_fills(out, "table", index),
        PathRoot::FillsMemory(index) => put_fills(out, "memory", index),
    }
}

/// Writes an export at which paths begin.
fn put_named(out: &mut Writer, name: &str) -> Result<(), AllocError>
    ensures { OnOk result (Puts out.old out.new (json_tokens (named_json name.now))) }
{
    begin_object(out)?;
    put_text(out, "kind", "export")?;
    put_text(out, "name", name)?;
    end_object(out)
}

/// Writes an export of an adapter at which paths begin.
fn put_export(out: &mut Writer, name: &str, main: Option<usize>) -> Result<(), AllocError>
    ensures { OnOk result (Puts out.old out.new (json_tokens (export_json name.now main))) }
{
    begin_object(out)?;
    put_text(out, "kind", "export")?;
    put_text(out, "name", name)?;
    put_number_or_null(out, "main", main)?;
    end_object(out)
}

/// Writes why no path through the main module is shown.
pub(crate) fn put_unfollowed(
    alloc: Global,
    out: &mut Writer,
    why: Unfollowed,
) -> Result<(), AllocError>
    ensures { OnOk result (Puts out.old out.new (json_tokens (unfollowed_json why))) }
{
    match why {
        Unfollowed::Unreached => put_kind(out, "unreached"),
        Unfollowed::Body(index) => put_unread_body(alloc, out, index),
        Unfollowed::Section(section) => put_unread(out, section.name()),
    }
}

/// Writes the function whose body can't be read.
fn put_unread_body(alloc: Global, out: &mut Writer, index: usize) -> Result<(), AllocError>
    ensures { OnOk result (Puts out.old out.new
        (json_tokens (unread_json (codes "body of function " ++ decimal index)))) }
{
    let body = format!(in alloc; "body of function {index}")?;
    put_unread(out, &body)
}

/// Writes what can't be read.
fn put_unread(out: &mut Writer, body: &str) -> Result<(), AllocError>
    ensures { OnOk result (Puts out.old out.new (json_tokens (unread_json body.now))) }
{
    begin_object(out)?;
    put_text(out, "kind", "unread")?;
    put_text(out, "body", body)?;
    end_object(out)
}

/// Writes the member `items`; `callers` has the functions that may call them.
fn put_items(
    out: &mut Writer,
    items: &[TreeItem<'_>],
    callers: &[TreeCaller<'_>],
) -> Result<(), AllocError>
    ensures { OnOk result (Puts out.old out.new (key (codes "items") ∷ json_tokens (array_of
        (map (item_json (map tree_caller_view callers.now)) (map tree_item_view items.now))))) }
{
    out.key("items")?;
    out.begin_array()?;
    for item in items {
        put_item(out, item, callers)?;
    }
    out.end_array()
}

/// Writes an item.
fn put_item(
    out: &mut Writer,
    item: &TreeItem<'_>,
    callers: &[TreeCaller<'_>],
) -> Result<(), AllocError>
    ensures { OnOk result (Puts out.old out.new (json_tokens
        (item_json (map tree_caller_view callers.now) (tree_item_view item.now)))) }
{
    begin_object(out)?;
    put_place(out, item.item)?;
    put_text_or_null(out, "name", item.name)?;
    put_number_or_null(out, "root", item.root)?;
    put_number_or_null(out, "from", item.from)?;
    put_callers(out, item.callers, callers)?;
    put_only(out, item.only)
}

/// Writes the members `space` and `index`.
pub(crate) fn put_place(out: &mut Writer, item: PathItem) -> Result<(), AllocError>
    ensures { OnOk result (Puts out.old out.new (key (codes "space") ∷ string (space_word item)
        ∷ key (codes "index") ∷ json_tokens (number_json (index_of item)))) }
{
    match item {
        PathItem::Item(space, index) => put_space(out, space_name(space), index),
        PathItem::Elements(index) => put_space(out, "elem", index),
        PathItem::Data(index) => put_space(out, "data", index),
    }
}

/// Writes the members `space` and `index`, by their values.
fn put_space(out: &mut Writer, space: &str, index: usize) -> Result<(), AllocError>
    ensures { OnOk result (Puts out.old out.new (key (codes "space") ∷ string space.now
        ∷ key (codes "index") ∷ json_tokens (number_json index))) }
{
    put_text(out, "space", space)?;
    put_number(out, "index", index)
}

/// Writes the member `callers`; `list` has the module's callers.
fn put_callers(
    out: &mut Writer,
    callers: Option<Callers>,
    list: &[TreeCaller<'_>],
) -> Result<(), AllocError>
    ensures { OnOk result (Puts out.old out.new (key (codes "callers")
        ∷ json_tokens (callers_json (map tree_caller_view list.now) callers))) }
{
    match callers {
        Some(callers) => put_some_callers(out, shown_callers(callers, list), callers.count),
        None => put_null(out, "callers"),
    }
}

/// Writes the member `callers` of an item that has so many, of which these are shown.
fn put_some_callers(
    out: &mut Writer,
    shown: &[TreeCaller<'_>],
    count: usize,
) -> Result<(), AllocError>
    ensures { OnOk result (Puts out.old out.new (key (codes "callers")
        ∷ json_tokens (some_callers_json (map tree_caller_view shown.now) count))) }
{
    out.key("callers")?;
    begin_object(out)?;
    put_caller_list(out, shown)?;
    put_number(out, "count", count)?;
    end_object(out)
}

/// Those callers that are there.
pub(crate) fn shown_callers<'s, 'a>(
    callers: Callers,
    list: &'s [TreeCaller<'a>],
) -> &'s [TreeCaller<'a>]
    ensures { result.now ≡ shown_callers callers list.now }
{
    let start = min(callers.start, list.len());
    let rest = &list[start..];
    &rest[..min(callers.shown, rest.len())]
}

/// Writes the member `first`.
fn put_caller_list(out: &mut Writer, callers: &[TreeCaller<'_>]) -> Result<(), AllocError>
    ensures { OnOk result (Puts out.old out.new (key (codes "first")
        ∷ json_tokens (array_of (map caller_json (map tree_caller_view callers.now))))) }
{
    out.key("first")?;
    out.begin_array()?;
    for caller in callers {
        put_caller(out, *caller)?;
    }
    out.end_array()
}

/// Writes a function that may call an item.
fn put_caller(out: &mut Writer, caller: TreeCaller<'_>) -> Result<(), AllocError>
    ensures { OnOk result (Puts out.old out.new
        (json_tokens (caller_json (tree_caller_view caller.entry)))) }
{
    begin_object(out)?;
    put_number(out, "index", caller.index)?;
    put_text_or_null(out, "name", caller.name)?;
    end_object(out)
}

/// Writes the mark of an item, if it has one, and ends the item's object.
pub(crate) fn put_only(out: &mut Writer, only: Option<bool>) -> Result<(), AllocError>
    ensures { OnOk result (Puts out.old out.new (only_tokens only)) }
{
    match only {
        Some(mark) => put_mark(out, mark),
        None => end_object(out),
    }
}

/// Writes a mark, and ends the item's object.
fn put_mark(out: &mut Writer, mark: bool) -> Result<(), AllocError>
    ensures { OnOk result (Puts out.old out.new
        (key (codes "only") ∷ boolean mark ∷ end_object ∷ [])) }
{
    out.key("only")?;
    out.boolean(mark)?;
    end_object(out)
}

/// Writes the member `ways`.
fn put_ways(out: &mut Writer, ways: &[TreeWay<'_>]) -> Result<(), AllocError>
    ensures { OnOk result (Puts out.old out.new (key (codes "ways")
        ∷ json_tokens (array_of (map way_json (map tree_way_view ways.now))))) }
{
    out.key("ways")?;
    out.begin_array()?;
    for way in ways {
        put_way(out, way)?;
    }
    out.end_array()
}

/// Writes a way.
fn put_way(out: &mut Writer, way: &TreeWay<'_>) -> Result<(), AllocError>
    ensures { OnOk result (Puts out.old out.new (json_tokens (way_json (tree_way_view way.now)))) }
{
    begin_object(out)?;
    put_text_or_null(out, "interface", way.interface)?;
    put_text_or_null(out, "name", way.name)?;
    put_number_or_null(out, "module", way.module)?;
    put_number_or_null(out, "item", way.item)?;
    put_import(out, way.import)?;
    put_text_or_null(out, "type", way.ty)?;
    end_object(out)
}

/// Writes the member `import`.
fn put_import(out: &mut Writer, import: Option<TreeImport<'_>>) -> Result<(), AllocError>
    ensures { OnOk result (Puts out.old out.new (key (codes "import")
        ∷ json_tokens (nullable_json import_json (option_map tree_import_view import.entry)))) }
{
    match import {
        Some(import) => put_some_import(out, import),
        None => put_null(out, "import"),
    }
}

/// Writes the member `import` of a way that ends at one.
fn put_some_import(out: &mut Writer, import: TreeImport<'_>) -> Result<(), AllocError>
    ensures { OnOk result (Puts out.old out.new (key (codes "import")
        ∷ json_tokens (import_json (tree_import_view import.entry)))) }
{
    out.key("import")?;
    begin_object(out)?;
    put_text(out, "module", import.module)?;
    put_text(out, "name", import.name)?;
    end_object(out)
}

/// Writes a member that is a number, or null for none.
fn put_number_or_null(out: &mut Writer, name: &str, number: Option<usize>) -> Result<(), AllocError>
    ensures { OnOk result (Puts out.old out.new
        (key name.now ∷ json_tokens (nullable_json number_json number))) }
{
    match number {
        Some(number) => put_number(out, name, number),
        None => put_null(out, name),
    }
}
