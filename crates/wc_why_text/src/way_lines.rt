//! The lines of a path of a tree.

ghost use Rattle.std.specs.Prelude.{◌≡◌, [], IfOk, map, string_bytes};
ghost use Rattle.std.specs.List.{flat_map};
ghost use Rattle.std.specs.Option.{option_map, option_map_or};
ghost use Rattle.wc_paths.specs.PathRoots.{root_view};
ghost use Rattle.wc_why.specs.Texts.{text_of};
ghost use Rattle.wc_why.specs.Tree.{tree_caller_view, tree_import_view, tree_item_view, tree_module_view, tree_root_view, tree_way_view};
ghost use Rattle.wc_why_text.specs.TreeLines.{above_line, adapter_at, begin_text, begin_lines, caller_line, caller_lines, end_line, end_lines, export_line, function_title, import_end, import_title, item_lines, lines_at, link_line, mark_text, module_end, more_line, name_text, named_text, own_line_of, root_lines, shared_line, some_caller_lines, title_text, type_line, way_text, world_line};

use crate::item_texts::{
    data_text, elements_text, import_line, importer_text, item_text, line_of, module_root_text,
    root_text, unfollowed_text,
};
use crate::rust_names::rust_name;
use crate::texts::{two_words, word};
use crate::tree_json::shown_callers;
use crate::way_items::{WayItems, has_line, root_at};
use crate::ways::{is_typed, is_unreached};
use std::alloc::{AllocError, Global};
use wc_paths::{PathItem, PathRoot};
use wc_read::Space;
use wc_texts::escaped;
use wc_why::{Callers, TreeCaller, TreeImport, TreeItem, TreeModule, TreeRoot, TreeWay};

/// How lines are written.
#[derive(Clone, Copy)]
struct How {
    /// Whether modules are parts of a component, which the lines name.
    of_component: bool,
    /// Whether the path is for types alone, where no line has a mark.
    typed: bool,
}

/// The lines of a way, of whose path these items have no line above.
pub(crate) fn way_text(
    alloc: Global,
    of_component: bool,
    modules: &[TreeModule<'_>],
    way: &TreeWay<'_>,
    items: &WayItems,
) -> Result<String, AllocError>
    ensures { IfOk result (λ s. string_bytes s ≡ way_text of_component
        (map tree_module_view modules.now) (tree_way_view way.now) items.now.shared
        items.now.items.items) }
{
    let title = title_text(alloc, way)?;
    if is_unreached(way) {
        return format!(in alloc; "{title}: not reached\n");
    }
    let how = How {
        of_component,
        typed: is_typed(way),
    };
    let shared = shared_line(alloc, of_component, modules, items.shared)?;
    let lines = items_lines(alloc, how, modules, &items.items)?;
    let end = end_lines(alloc, of_component, modules, way)?;
    format!(in alloc; "{title}\n{shared}{lines}{end}")
}

/// The title of a path: `INTERFACE NAME`, `INTERFACE: only its types are used`, or `func N NAME`.
fn title_text(alloc: Global, way: &TreeWay<'_>) -> Result<String, AllocError>
    ensures { IfOk result (λ s. string_bytes s ≡ title_text (tree_way_view way.now)) }
{
    match way.interface {
        Some(interface) => import_title(alloc, interface, way.name),
        None => function_title(alloc, way.function),
    }
}

/// The import of a name from an interface, or the interface alone.
fn import_title(alloc: Global, interface: &str, name: Option<&str>) -> Result<String, AllocError>
    ensures { IfOk result (λ s. string_bytes s
        ≡ import_title interface.now (option_map text_of name.entry)) }
{
    match name {
        Some(name) => two_words(alloc, interface, name),
        None => {
            let interface = word(alloc, interface)?;
            format!(in alloc; "{interface}: only its types are used")
        }
    }
}

/// A function that was asked for by itself.
fn function_title(alloc: Global, function: Option<TreeCaller<'_>>) -> Result<String, AllocError>
    ensures { IfOk result (λ s. string_bytes s
        ≡ function_title (option_map tree_caller_view function.entry)) }
{
    match function {
        Some(function) => named_text(alloc, Space::Funcs, function.index, function.name),
        None => Ok(String::new(alloc)),
    }
}

/// An item of a space, with its name as its author wrote it.
fn named_text(
    alloc: Global,
    space: Space,
    index: usize,
    name: Option<&str>,
) -> Result<String, AllocError>
    ensures { IfOk result (λ s. string_bytes s
        ≡ named_text space index (option_map text_of name.entry)) }
{
    match name {
        Some(name) => {
            let name = rust_name(alloc, name)?;
            item_text(alloc, space, index, Some(&name))
        }
        None => item_text(alloc, space, index, None),
    }
}

/// An item, with its name as its author wrote it.
fn name_text(alloc: Global, item: PathItem, name: Option<&str>) -> Result<String, AllocError>
    ensures { IfOk result (λ s. string_bytes s ≡ name_text item (option_map text_of name.entry)) }
{
    match item {
        PathItem::Item(space, index) => named_text(alloc, space, index, name),
        PathItem::Elements(index) => elements_text(alloc, index),
        PathItem::Data(index) => data_text(alloc, index),
    }
}

/// The line that names the last item of a path that has a line above, if there is one.
fn shared_line(
    alloc: Global,
    of_component: bool,
    modules: &[TreeModule<'_>],
    item: Option<(usize, usize)>,
) -> Result<String, AllocError>
    ensures { IfOk result (λ s. string_bytes s
        ≡ shared_line of_component (map tree_module_view modules.now) item) }
{
    match item {
        Some((module, item)) => match modules.get(module) {
            Some(module) => match module.items.get(item) {
                Some(item) => above_line(alloc, of_component, module.adapter, item),
                None => Ok(String::new(alloc)),
            },
            None => Ok(String::new(alloc)),
        },
        None => Ok(String::new(alloc)),
    }
}

/// The line that names an item that has a line above.
fn above_line(
    alloc: Global,
    of_component: bool,
    adapter: Option<&str>,
    item: &TreeItem<'_>,
) -> Result<String, AllocError>
    ensures { IfOk result (λ s. string_bytes s ≡ above_line of_component
        (option_map text_of adapter.entry) (tree_item_view item.now)) }
{
    let text = name_text(alloc, item.item, item.name)?;
    let of_module = module_end(alloc, of_component, adapter)?;
    format!(in alloc; "  as above to {text}{of_module}\n")
}

/// The module of an item, where modules are parts of a component.
fn module_end(
    alloc: Global,
    of_component: bool,
    adapter: Option<&str>,
) -> Result<String, AllocError>
    ensures { IfOk result (λ s. string_bytes s
        ≡ module_end of_component (option_map text_of adapter.entry)) }
{
    if !of_component {
        return Ok(String::new(alloc));
    }
    let importer = importer_text(alloc, adapter)?;
    format!(in alloc; " of {importer}")
}

/// The lines of items, in order.
fn items_lines(
    alloc: Global,
    how: How,
    modules: &[TreeModule<'_>],
    items: &[(usize, usize)],
) -> Result<String, AllocError>
    ensures { IfOk result (λ s. string_bytes s ≡ flat_map (lines_at (how.of_component, how.typed)
        (map tree_module_view modules.now)) items.now) }
{
    let mut text = String::new(alloc);
    for item in items {
        let lines = lines_at(alloc, how, modules, *item)?;
        text.push_str(&lines)?;
    }
    Ok(text)
}

/// The lines of an item.
fn lines_at(
    alloc: Global,
    how: How,
    modules: &[TreeModule<'_>],
    item: (usize, usize),
) -> Result<String, AllocError>
    ensures { IfOk result (λ s. string_bytes s ≡ lines_at (how.of_component, how.typed)
        (map tree_module_view modules.now) item) }
{
    match modules.get(item.0) {
        Some(module) => match module.items.get(item.1) {
            Some(at) => item_lines(alloc, how, module, at),
            None => Ok(String::new(alloc)),
        },
        None => Ok(String::new(alloc)),
    }
}

/// The lines of an item of a module: where a path begins there, its callers, and its own.
fn item_lines(
    alloc: Global,
    how: How,
    module: &TreeModule<'_>,
    item: &TreeItem<'_>,
) -> Result<String, AllocError>
    ensures { IfOk result (λ s. string_bytes s ≡ item_lines (how.of_component, how.typed)
        (tree_module_view «module».now) (tree_item_view item.now)) }
{
    let root = root_at(&module.roots, item.root);
    let begin = begin_lines(alloc, how.of_component, module.adapter, root)?;
    let callers = caller_lines(alloc, item.callers, &module.callers)?;
    let own = own_line_of(alloc, how.typed, &module.roots, item)?;
    format!(in alloc; "{begin}{callers}{own}")
}

/// The lines of where a path begins, if one begins there.
fn begin_lines(
    alloc: Global,
    of_component: bool,
    adapter: Option<&str>,
    root: Option<TreeRoot<'_>>,
) -> Result<String, AllocError>
    ensures { IfOk result (λ s. string_bytes s ≡ begin_lines of_component
        (option_map text_of adapter.entry) (option_map tree_root_view root.entry)) }
{
    match root {
        Some(root) => root_lines(alloc, of_component, adapter, root),
        None => Ok(String::new(alloc)),
    }
}

/// The lines of where a path begins.
fn root_lines(
    alloc: Global,
    of_component: bool,
    adapter: Option<&str>,
    root: TreeRoot<'_>,
) -> Result<String, AllocError>
    ensures { IfOk result (λ s. string_bytes s ≡ root_lines of_component
        (option_map text_of adapter.entry) (tree_root_view root.entry)) }
{
    match root {
        TreeRoot::Begin(root) => {
            let text = begin_text(alloc, of_component, adapter, root)?;
            line_of(alloc, &text)
        }
        TreeRoot::Adapter { name, main } => {
            let link = link_line(alloc, adapter, name, main)?;
            let export = export_line(alloc, adapter, name)?;
            format!(in alloc; "{link}{export}")
        }
        TreeRoot::Unfollowed(why) => {
            let text = unfollowed_text(alloc, why)?;
            line_of(alloc, &text)
        }
    }
}

/// Where a path begins in a module that stands alone, or, after the module, in a module of a component.
fn begin_text(
    alloc: Global,
    of_component: bool,
    adapter: Option<&str>,
    root: PathRoot<'_>,
) -> Result<String, AllocError>
    ensures { IfOk result (λ s. string_bytes s ≡ begin_text of_component
        (option_map text_of adapter.entry) (root_view root.entry)) }
{
    if !of_component {
        return root_text(alloc, root);
    }
    let importer = importer_text(alloc, adapter)?;
    let root = module_root_text(alloc, root)?;
    format!(in alloc; "{importer} {root}")
}

/// The line of the main module's import of an adapter's export, where a path goes on there.
fn link_line(
    alloc: Global,
    adapter: Option<&str>,
    name: &str,
    main: Option<usize>,
) -> Result<String, AllocError>
    ensures { IfOk result (λ s. string_bytes s
        ≡ link_line (option_map text_of adapter.entry) name.now main) }
{
    match (adapter, main) {
        (Some(adapter), Some(_)) => import_line(alloc, None, adapter, name),
        (Some(_), None) => Ok(String::new(alloc)),
        (None, _) => Ok(String::new(alloc)),
    }
}

/// The line of an export of an adapter.
fn export_line(alloc: Global, adapter: Option<&str>, name: &str) -> Result<String, AllocError>
    ensures { IfOk result (λ s. string_bytes s
        ≡ export_line (option_map text_of adapter.entry) name.now) }
{
    let importer = importer_text(alloc, adapter)?;
    let name = word(alloc, name)?;
    format!(in alloc; "  {importer} exports {name}\n")
}

/// The lines of the functions that may call an item.
fn caller_lines(
    alloc: Global,
    callers: Option<Callers>,
    list: &[TreeCaller<'_>],
) -> Result<String, AllocError>
    ensures { IfOk result (λ s. string_bytes s
        ≡ caller_lines (map tree_caller_view list.now) callers) }
{
    match callers {
        Some(callers) => { some_caller_lines(alloc, shown_callers(callers, list), callers.count) }
        None => Ok(String::new(alloc)),
    }
}

/// The lines of these functions, of so many.
fn some_caller_lines(
    alloc: Global,
    shown: &[TreeCaller<'_>],
    count: usize,
) -> Result<String, AllocError>
    ensures { IfOk result (λ s. string_bytes s
        ≡ some_caller_lines (map tree_caller_view shown.now) count) }
{
    let lines = shown_lines(alloc, shown)?;
    let more = more_line(alloc, count.saturating_sub(shown.len()))?;
    format!(in alloc; "{lines}{more}")
}

/// The lines of these functions.
fn shown_lines(alloc: Global, callers: &[TreeCaller<'_>]) -> Result<String, AllocError>
    ensures { IfOk result (λ s. string_bytes s
        ≡ flat_map caller_line (map tree_caller_view callers.now)) }
{
    let mut lines = String::new(alloc);
    for caller in callers {
        let line = caller_line(alloc, *caller)?;
        lines.push_str(&line)?;
    }
    Ok(lines)
}

/// The line of a function that may call an item.
fn caller_line(alloc: Global, caller: TreeCaller<'_>) -> Result<String, AllocError>
    ensures { IfOk result (λ s. string_bytes s ≡ caller_line (tree_caller_view caller.entry)) }
{
    let text = named_text(alloc, Space::Funcs, caller.index, caller.name)?;
    format!(in alloc; "  called by {text}\n")
}

/// The line of how many more may call, if there are more.
fn more_line(alloc: Global, more: usize) -> Result<String, AllocError>
    ensures { IfOk result (λ s. string_bytes s ≡ more_line more) }
{
    if more == 0 {
        return Ok(String::new(alloc));
    }
    format!(in alloc; "  called by {more} more\n")
}

/// The line of an item, if it has one of its own.
fn own_line_of(
    alloc: Global,
    typed: bool,
    roots: &[TreeRoot<'_>],
    item: &TreeItem<'_>,
) -> Result<String, AllocError>
    ensures { IfOk result (λ s. string_bytes s ≡ own_line_of typed (map tree_root_view roots.now)
        (tree_item_view item.now)) }
{
    if !has_line(roots, item) {
        return Ok(String::new(alloc));
    }
    let mark = mark_text(typed, item.only);
    let text = name_text(alloc, item.item, item.name)?;
    format!(in alloc; "{mark}{text}\n")
}

/// The characters that an item's line begins with.
fn mark_text(typed: bool, only: Option<bool>) -> &'static str
    ensures { result.now ≡ mark_text typed only }
{
    match only {
        Some(true) => if typed { "  " } else { "* " },
        Some(false) => "  ",
        None => "  ",
    }
}

/// The lines of the end of a path: the import there, and the type for which it is.
fn end_lines(
    alloc: Global,
    of_component: bool,
    modules: &[TreeModule<'_>],
    way: &TreeWay<'_>,
) -> Result<String, AllocError>
    ensures { IfOk result (λ s. string_bytes s ≡ end_lines of_component
        (map tree_module_view modules.now) (tree_way_view way.now)) }
{
    let import = import_end(alloc, of_component, modules, way)?;
    let ty = type_end(alloc, way.ty)?;
    format!(in alloc; "{import}{ty}")
}

/// The line of the import at the end of a path, if it ends at one.
fn import_end(
    alloc: Global,
    of_component: bool,
    modules: &[TreeModule<'_>],
    way: &TreeWay<'_>,
) -> Result<String, AllocError>
    ensures { IfOk result (λ s. string_bytes s ≡ import_end of_component
        (map tree_module_view modules.now) (tree_way_view way.now)) }
{
    match way.import {
        Some(import) => end_line(alloc, of_component, modules, way.module, import),
        None => Ok(String::new(alloc)),
    }
}

/// The line of an import of a module, which is shown of a component, or of what the world itself imports or exports.
fn end_line(
    alloc: Global,
    of_component: bool,
    modules: &[TreeModule<'_>],
    module: Option<usize>,
    import: TreeImport<'_>,
) -> Result<String, AllocError>
    ensures { IfOk result (λ s. string_bytes s ≡ end_line of_component
        (map tree_module_view modules.now) «module» (tree_import_view import.entry)) }
{
    match module {
        Some(module) => {
            if of_component {
                import_line(
                    alloc,
                    adapter_at(modules, module),
                    import.module,
                    import.name,
                )
            } else {
                Ok(String::new(alloc))
            }
        }
        None => world_line(alloc, import),
    }
}

/// The adapter at a position; `None` for a module that is none.
fn adapter_at<'a>(modules: &[TreeModule<'a>], module: usize) -> Option<&'a str>
    ensures { option_map text_of result
        ≡ adapter_at (map tree_module_view modules.now) «module» }
{
    match modules.get(module) {
        Some(module) => module.adapter,
        None => None,
    }
}

/// The line of what the world itself imports or exports.
fn world_line(alloc: Global, import: TreeImport<'_>) -> Result<String, AllocError>
    ensures { IfOk result (λ s. string_bytes s ≡ world_line (tree_import_view import.entry)) }
{
    let side = escaped(alloc, import.module)?;
    let name = word(alloc, import.name)?;
    format!(in alloc; "  {side} {name}\n")
}

/// The line of the type for which a path is, if it is for one.
fn type_end(alloc: Global, ty: Option<&str>) -> Result<String, AllocError>
    ensures { IfOk result (λ s. string_bytes s
        ≡ option_map_or type_line (option_map text_of ty.entry) []) }
{
    match ty {
        Some(name) => type_line(alloc, name),
        None => Ok(String::new(alloc)),
    }
}

/// The line of a type.
fn type_line(alloc: Global, name: &str) -> Result<String, AllocError>
    ensures { IfOk result (λ s. string_bytes s ≡ type_line name.now) }
{
    let name = word(alloc, name)?;
    format!(in alloc; "  type {name}\n")
}
