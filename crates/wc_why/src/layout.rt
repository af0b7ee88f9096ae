//! A module of a tree, by its items.

ghost use Rattle.std.specs.Prelude.{◌≡◌, ◌++◌, ◌∷◌, [], IfOk, OnOk, length, map, nat_eq, take};
ghost use Rattle.std.specs.Option.{option_map, option_to_list};
ghost use Rattle.wc_read.specs.Names.{name_entries};
ghost use Rattle.std.specs.Map.{lookup};
ghost use Rattle.wc_why.specs.Component.{IsLaid, all_functions, caller_named, callers_at, functions_of};
ghost use Rattle.wc_why.specs.Private.Layout.{AreNamesBy, IsItemPut, IsModuleOf, IsNoNames, indices_of};
ghost use Rattle.wc_why.specs.Private.Modules.{shown_view};
ghost use Rattle.wc_why.specs.Texts.{name_at, name_of, text_of};
ghost use Rattle.wc_why.specs.Tree.{tree_caller_view, tree_module_view, tree_root_view};

use crate::part::Part;
use crate::tree::{Callers, TreeCaller, TreeItem, TreeModule, TreeRoot};
use std::alloc::{AllocError, Global};
use std::cmp::min;
use wc_maps::OrderedMap;
use wc_paths::PathItem;
use wc_read::{ReadFault, Space, function_names_at};

/// So many of the functions that may call an item are named.
const SHOWN: usize = 3;

/// An item of a module, and what is said of it.
#[derive(Clone, Copy)]
pub(crate) struct ShownItem<'c, 'a> {
    /// The item.
    pub(crate) item: PathItem,
    /// Where a path begins that begins with it.
    pub(crate) root: Option<TreeRoot<'a>>,
    /// The position in the module of the item before it.
    pub(crate) from: Option<usize>,
    /// The functions that may call it after the item before it.
    pub(crate) called: &'c [usize],
    /// Whether it is marked.
    pub(crate) only: Option<bool>,
}

/// The names of functions.
type Names<'a> = OrderedMap<u32, &'a str>;

/// The module with these items of a part.
pub(crate) fn module_of<'a>(
    alloc: Global,
    part: &Part<'a>,
    items: &[ShownItem<'_, 'a>],
) -> Result<TreeModule<'a>, AllocError>
    ensures { IfOk result (λ m. IsModuleOf part.now.bytes.now (option_map text_of part.now.name)
        (map shown_view items.now) (tree_module_view m)) }
{
    let wanted = wanted_of(alloc, items)?;
    let names = names_at(alloc, part.bytes, &wanted)?;
    laid_out(alloc, part.name, &names, items)
}

/// A module of these items, with these names of functions.
fn laid_out<'a>(
    alloc: Global,
    adapter: Option<&'a str>,
    names: &Names<'a>,
    items: &[ShownItem<'_, 'a>],
) -> Result<TreeModule<'a>, AllocError>
    ensures { IfOk result (λ m. IsLaid (name_entries names.now) (option_map text_of adapter.entry)
        (map shown_view items.now) (tree_module_view m)) }
{
    let mut module = TreeModule {
        adapter,
        roots: Vec::new(alloc),
        items: Vec::new(alloc),
        callers: Vec::new(alloc),
    };
    for item in items {
        put_item(names, *item, &mut module)?;
    }
    Ok(module)
}

/// The names of the functions of these indices, in a module of these bytes; none, where they are no module.
fn names_at<'a>(alloc: Global, bytes: &'a [u8], wanted: &[u32]) -> Result<Names<'a>, AllocError>
    ensures { IfOk result (λ m. AreNamesBy bytes.now wanted.now (name_entries m)) }
{
    match function_names_at(alloc, bytes, wanted) {
        Ok(names) => Ok(names),
        Err(fault) => no_names(alloc, fault),
    }
}

/// No names, unless memory ran out.
fn no_names<'a>(alloc: Global, fault: ReadFault) -> Result<Names<'a>, AllocError>
    ensures { IfOk result (λ m. IsNoNames fault (name_entries m)) }
{
    match fault {
        ReadFault::Memory => Err(AllocError),
        _ => Ok(OrderedMap::new(alloc)),
    }
}

/// The indices of the functions that are shown.
fn wanted_of(alloc: Global, items: &[ShownItem<'_, '_>]) -> Result<Vec<u32>, AllocError>
    ensures { IfOk result (λ v. v.items
        ≡ indices_of (all_functions (map shown_view items.now))) }
{
    let mut wanted = Vec::new(alloc);
    for item in items {
        put_wanted(*item, &mut wanted)?;
    }
    Ok(wanted)
}

/// Appends the indices of the functions that are shown of an item.
fn put_wanted(item: ShownItem<'_, '_>, out: &mut Vec<u32>) -> Result<(), AllocError>
    ensures { OnOk result (out.new.items
        ≡ out.old.items ++ indices_of (functions_of (shown_view item.entry))) }
{
    match item.item {
        PathItem::Item(Space::Funcs, index) => put_index(index, out)?,
        _ => {}
    }
    put_indices(first_of(item.called), out)
}

/// Appends those of some indices that have 32 bits.
fn put_indices(indices: &[usize], out: &mut Vec<u32>) -> Result<(), AllocError>
    ensures { OnOk result (out.new.items ≡ out.old.items ++ indices_of indices.now) }
{
    for index in indices {
        put_index(*index, out)?;
    }
    Ok(())
}

/// Appends an index, if it has 32 bits.
fn put_index(index: usize, out: &mut Vec<u32>) -> Result<(), AllocError>
    ensures { OnOk result (out.new.items ≡ out.old.items ++ indices_of (index ∷ [])) }
{
    match u32::try_from(index) {
        Ok(index) => {
            out.push(index)?;
            Ok(())
        }
        Err(_) => Ok(()),
    }
}

/// Appends an item to a module.
fn put_item<'a>(
    names: &Names<'a>,
    item: ShownItem<'_, 'a>,
    module: &mut TreeModule<'a>,
) -> Result<(), AllocError>
    ensures { OnOk result (IsItemPut (name_entries names.now) (shown_view item.entry)
        (tree_module_view «module».old) (tree_module_view «module».new)) }
{
    let root = put_root(item.root, &mut module.roots)?;
    let callers = put_callers(names, item.called, &mut module.callers)?;
    module.items.push(TreeItem {
        item: item.item,
        name: name_of(names, item.item),
        root,
        from: item.from,
        callers,
        only: item.only,
    })?;
    Ok(())
}

/// Appends where a path begins, if one does, and returns its position.
fn put_root<'a>(
    root: Option<TreeRoot<'a>>,
    roots: &mut Vec<TreeRoot<'a>>,
) -> Result<Option<usize>, AllocError>
    ensures position { IfOk result (λ o. o
        ≡ option_map (λ r. length roots.old.items) (option_map tree_root_view root.entry)) }
    ensures put { OnOk result (map tree_root_view roots.new.items
        ≡ map tree_root_view roots.old.items
        ++ option_to_list (option_map tree_root_view root.entry)) }
{
    match root {
        Some(root) => {
            let position = roots.len();
            roots.push(root)?;
            Ok(Some(position))
        }
        None => Ok(None),
    }
}

/// Appends the first three of these functions, and returns where they are; `None` where there are none.
fn put_callers<'a>(
    names: &Names<'a>,
    functions: &[usize],
    callers: &mut Vec<TreeCaller<'a>>,
) -> Result<Option<Callers>, AllocError>
    ensures position { IfOk result (λ o. o ≡ callers_at (length callers.old.items) functions.now) }
    ensures put { OnOk result (map tree_caller_view callers.new.items
        ≡ map tree_caller_view callers.old.items
        ++ map (caller_named (name_entries names.now)) (take 3 functions.now)) }
{
    if functions.is_empty() {
        return Ok(None);
    }
    let start = callers.len();
    let shown = first_of(functions);
    push_callers(names, shown, callers)?;
    Ok(Some(Callers {
        start,
        shown: shown.len(),
        count: functions.len(),
    }))
}

/// The first three of some functions, or all that there are.
fn first_of(functions: &[usize]) -> &[usize]
    ensures { result.now ≡ take 3 functions.now }
{
    &functions[..min(SHOWN, functions.len())]
}

/// Appends functions with their names.
fn push_callers<'a>(
    names: &Names<'a>,
    functions: &[usize],
    callers: &mut Vec<TreeCaller<'a>>,
) -> Result<(), AllocError>
    ensures { OnOk result (map tree_caller_view callers.new.items
        ≡ map tree_caller_view callers.old.items
        ++ map (caller_named (name_entries names.now)) functions.now) }
{
    for function in functions {
        callers.push(caller_of(names, *function))?;
    }
    Ok(())
}

/// A function with its name.
fn caller_of<'a>(names: &Names<'a>, function: usize) -> TreeCaller<'a>
    ensures { tree_caller_view result ≡ caller_named (name_entries names.now) function }
{
    TreeCaller {
        index: function,
        name: name_at(names, function),
    }
}

/// The name of an item that is a function, if it has one.
fn name_of<'a>(names: &Names<'a>, item: PathItem) -> Option<&'a str>
    ensures { option_map text_of result ≡ name_of (name_entries names.now) item }
{
    match item {
        PathItem::Item(Space::Funcs, index) => name_at(names, index),
        _ => None,
    }
}

/// The name of the function at an index, if it has one.
fn name_at<'a>(names: &Names<'a>, index: usize) -> Option<&'a str>
    ensures { option_map text_of result ≡ name_at (name_entries names.now) index }
{
    match u32::try_from(index) {
        Ok(index) => name_by(names, index),
        Err(_) => None,
    }
}

/// The name of the function at an index of 32 bits, if it has one.
fn name_by<'a>(names: &Names<'a>, index: u32) -> Option<&'a str>
    ensures { option_map text_of result ≡ lookup (nat_eq index) (name_entries names.now) }
{
    names.get(&index).copied()
}
