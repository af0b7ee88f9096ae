//! The paths of a module, each by its steps, as JSON.

ghost use Rattle.std.specs.Prelude.{◌≡◌, ◌++◌, ◌∷◌, IfOk, OnOk, codes, map};
ghost use Rattle.std.specs.List.{flat_map};
ghost use Rattle.std.specs.Option.{option_map};
ghost use Rattle.json.specs.Lex.{tokens};
ghost use Rattle.json.specs.Print.{print};
ghost use Rattle.json.specs.Token.{key};
ghost use Rattle.json.specs.Tree.{json_tokens};
ghost use Rattle.wc_texts.specs.Shapes.{array_of};
ghost use Rattle.wc_paths.specs.PathRoots.{root_view};
ghost use Rattle.wc_why.specs.Texts.{text_of};
ghost use Rattle.wc_why.specs.Tree.{tree_item_view, tree_module_view, tree_root_view, tree_view, tree_way_view};
ghost use Rattle.wc_why_text.specs.PathsJson.{begin_step, export_step, item_step, item_steps, path_json, paths_json, root_step, root_steps, steps_at, steps_of};
ghost use Rattle.wc_why_text.specs.Private.Tokens.{Puts};

use crate::json_parts::{
    begin_object, end_object, put_fills, put_kind, put_text, put_text_or_null,
};
use crate::tree_json::{put_only, put_place, put_unfollowed};
use crate::way_items::{root_at, way_items};
use crate::ways::chosen_ways;
use json::Writer;
use std::alloc::{AllocError, Global};
use wc_maps::{Seed, Set};
use wc_paths::PathRoot;
use wc_why::{Tree, TreeItem, TreeModule, TreeRoot, TreeWay};

/// The paths of a tree to imports as JSON in a line: an object whose member `ways` has each path, in order. A path has
/// `interface`, `name` and `steps`. A step is an object whose first member is `kind`:
///
/// - `export`, with `adapter`, which is null for a module that stands alone, and `name`; `start`; `fills`, with `space`
///   (`table` or `memory`) and `index`: where the path begins;
/// - `item`, with `space` (`type`, `func`, `table`, `memory`, `global`, `elem` or `data`), `index`, `name` or null, and `only`,
///   whether it is marked, where something is asked for.
///
/// # Errors
///
/// `AllocError`: an allocation failed.
pub fn paths_to_json(alloc: Global, seed: Seed, tree: &Tree<'_>) -> Result<Vec<u8>, AllocError>
    ensures text { IfOk result (λ v. v.items
        ≡ print (json_tokens (paths_json (tree_view tree.now))) ++ codes "\n") }
    ensures reads_back { IfOk result (λ _. tokens
        (print (json_tokens (paths_json (tree_view tree.now))))
        ≡ json_tokens (paths_json (tree_view tree.now))) }
{
    let mut out = Writer::new(Vec::new(alloc));
    put_paths(alloc, seed, &mut out, tree)?;
    let mut text = out.into_inner();
    text.push(b'\n')?;
    Ok(text)
}

/// Writes the paths of a tree.
fn put_paths(alloc: Global, seed: Seed, out: &mut Writer, tree: &Tree<'_>) -> Result<(), AllocError>
    ensures { OnOk result (Puts out.old out.new (json_tokens (paths_json (tree_view tree.now)))) }
{
    begin_object(out)?;
    let ways = chosen_ways(alloc, &tree.ways, true)?;
    put_path_list(alloc, seed, out, &tree.modules, &ways)?;
    end_object(out)
}

/// Writes the member `ways`.
fn put_path_list(
    alloc: Global,
    seed: Seed,
    out: &mut Writer,
    modules: &[TreeModule<'_>],
    ways: &[TreeWay<'_>],
) -> Result<(), AllocError>
    ensures { OnOk result (Puts out.old out.new (key (codes "ways") ∷ json_tokens (array_of (map
        (path_json (map tree_module_view modules.now)) (map tree_way_view ways.now))))) }
{
    out.key("ways")?;
    out.begin_array()?;
    for way in ways {
        put_path(alloc, seed, out, modules, way)?;
    }
    out.end_array()
}

/// Writes a path.
fn put_path(
    alloc: Global,
    seed: Seed,
    out: &mut Writer,
    modules: &[TreeModule<'_>],
    way: &TreeWay<'_>,
) -> Result<(), AllocError>
    ensures { OnOk result (Puts out.old out.new (json_tokens
        (path_json (map tree_module_view modules.now) (tree_way_view way.now)))) }
{
    let none = Set::with_hasher(alloc, seed);
    let path = way_items(alloc, modules, way, &none)?;
    begin_object(out)?;
    put_text_or_null(out, "interface", way.interface)?;
    put_text_or_null(out, "name", way.name)?;
    put_steps(alloc, out, modules, &path.items)?;
    end_object(out)
}

/// Writes the member `steps`.
fn put_steps(
    alloc: Global,
    out: &mut Writer,
    modules: &[TreeModule<'_>],
    items: &[(usize, usize)],
) -> Result<(), AllocError>
    ensures { OnOk result (Puts out.old out.new (key (codes "steps") ∷ json_tokens (array_of
        (steps_of (map tree_module_view modules.now) items.now)))) }
{
    out.key("steps")?;
    out.begin_array()?;
    for item in items {
        put_steps_at(alloc, out, modules, *item)?;
    }
    out.end_array()
}

/// Writes the steps of an item.
fn put_steps_at(
    alloc: Global,
    out: &mut Writer,
    modules: &[TreeModule<'_>],
    item: (usize, usize),
) -> Result<(), AllocError>
    ensures { OnOk result (Puts out.old out.new (flat_map json_tokens
        (steps_at (map tree_module_view modules.now) item))) }
{
    match modules.get(item.0) {
        Some(module) => match module.items.get(item.1) {
            Some(at) => put_item_steps(alloc, out, module, at),
            None => Ok(()),
        },
        None => Ok(()),
    }
}

/// Writes the steps of an item of a module: where the path begins, if it begins there, and the item.
fn put_item_steps(
    alloc: Global,
    out: &mut Writer,
    module: &TreeModule<'_>,
    item: &TreeItem<'_>,
) -> Result<(), AllocError>
    ensures { OnOk result (Puts out.old out.new (flat_map json_tokens
        (item_steps (tree_module_view «module».now) (tree_item_view item.now)))) }
{
    put_root_steps(
        alloc,
        out,
        module.adapter,
        root_at(&module.roots, item.root),
    )?;
    put_item_step(out, item)
}

/// Writes where a path begins, if it begins there.
fn put_root_steps(
    alloc: Global,
    out: &mut Writer,
    adapter: Option<&str>,
    root: Option<TreeRoot<'_>>,
) -> Result<(), AllocError>
    ensures { OnOk result (Puts out.old out.new (flat_map json_tokens
        (root_steps (option_map text_of adapter.entry) (option_map tree_root_view root.entry)))) }
{
    match root {
        Some(root) => put_root_step(alloc, out, adapter, root),
        None => Ok(()),
    }
}

/// Writes where a path begins.
fn put_root_step(
    alloc: Global,
    out: &mut Writer,
    adapter: Option<&str>,
    root: TreeRoot<'_>,
) -> Result<(), AllocError>
    ensures { OnOk result (Puts out.old out.new (json_tokens
        (root_step (option_map text_of adapter.entry) (tree_root_view root.entry)))) }
{
    match root {
        TreeRoot::Begin(root) => put_begin_step(out, adapter, root),
        TreeRoot::Adapter { name, .. } => put_export_step(out, adapter, name),
        TreeRoot::Unfollowed(why) => put_unfollowed(alloc, out, why),
    }
}

/// Writes where a path begins in a module.
fn put_begin_step(
    out: &mut Writer,
    adapter: Option<&str>,
    root: PathRoot<'_>,
) -> Result<(), AllocError>
    ensures { OnOk result (Puts out.old out.new (json_tokens
        (begin_step (option_map text_of adapter.entry) (root_view root.entry)))) }
{
    match root {
        PathRoot::Export(name) => put_export_step(out, adapter, name),
        PathRoot::Start => put_kind(out, "start"),
        PathRoot::FillsTable(index) => put_fills(out, "table", index),
        PathRoot::FillsMemory(index) => put_fills(out, "memory", index),
    }
}

/// Writes an export at which a path begins.
fn put_export_step(out: &mut Writer, adapter: Option<&str>, name: &str) -> Result<(), AllocError>
    ensures { OnOk result (Puts out.old out.new
        (json_tokens (export_step (option_map text_of adapter.entry) name.now))) }
{
    begin_object(out)?;
    put_text(out, "kind", "export")?;
    put_text_or_null(out, "adapter", adapter)?;
    put_text(out, "name", name)?;
    end_object(out)
}

/// Writes an item.
fn put_item_step(out: &mut Writer, item: &TreeItem<'_>) -> Result<(), AllocError>
    ensures { OnOk result (Puts out.old out.new
        (json_tokens (item_step (tree_item_view item.now)))) }
{
    begin_object(out)?;
    put_text(out, "kind", "item")?;
    put_place(out, item.item)?;
    put_text_or_null(out, "name", item.name)?;
    put_only(out, item.only)
}
