//! Modules as parts of a component: the main module, or a module that stands alone; and adapters.

ghost use Rattle.std.specs.Prelude.{◌≡◌, ◌<◌, ◌^◌, ◌++◌, [], IfOk, None, OnOk, Some, map};
ghost use Rattle.std.specs.List.{flat_map};
ghost use Rattle.std.specs.Option.{option_map};
ghost use Rattle.wc_read.specs.Exports.{export_value};
ghost use Rattle.wc_read.specs.Modules.{ModuleValue as code_value, module_value};
ghost use Rattle.wc_segments.specs.Segments.{segments_value};
ghost use Rattle.wc_paths.specs.Callers.{calling_of};
ghost use Rattle.wc_paths.specs.Counts.{counts_value};
ghost use Rattle.wc_paths.specs.Numbers.{item_count};
ghost use Rattle.wc_why.specs.Part.{begin_view, part_view};
ghost use Rattle.wc_why.specs.Tree.{tree_root_view, unfollowed};
ghost use Rattle.wc_import_paths.specs.Followed.{HasPaths, followed_view};
ghost use Rattle.wc_import_paths.specs.Rows.{AreRowsFor, bare_graph};
ghost use Rattle.wc_import_paths.specs.Parts.{IsAdapterPart, IsCorePart, IsFollowedPart, IsLibraryPart, IsUnreadPart, active_begins, begin_at, export_begins, import_begins, required_begins, required_start, segment_begins, start_begins, unreached_begins};

use crate::followed::Followed;
use crate::rows::ModuleRows;
use std::alloc::{AllocError, Global};
use wc_paths::{
    Counts, PathItem, PathRoot, export_item, filled_by, has_item, import_items, number_of,
    second_roots,
};
use wc_read::{Export, Module, Space};
use wc_segments::Segments;
use wc_why::{Begin, Part, TreeRoot, Unfollowed};

/// The lists of roots of a component, in the order in which they are asked for a path.
const ALWAYS: usize = 0;

const DIRECT: usize = 1;

const SEGMENTS: usize = 2;

const UNREACHED: usize = 3;

/// The part of a module that is followed. Paths begin at its exports for which it was followed, and at its start
/// function; at its active segments; and, if it is the main module of a component, at its imports to which none of
/// these leads.
///
/// It takes time and memory linear in the module.
///
/// # Errors
///
/// `AllocError`: an allocation failed.
pub(crate) fn followed_part<'a>(
    alloc: Global,
    followed: &'a Followed<'_>,
    is_main: bool,
) -> Result<Part<'a>, AllocError>
    requires { HasPaths followed.now }
    ensures { IfOk result (λ p. IsFollowedPart (followed_view followed.now) followed.now.bytes.now
        (calling_of followed.now.callers) is_main (part_view p)) }
{
    let counts = &followed.rows.counts;
    let mut begins = Vec::new(alloc);
    push_exports(counts, &followed.exports, &mut begins)?;
    push_start(counts, followed.code.start, &mut begins)?;
    push_segments(alloc, counts, &followed.segments, &mut begins)?;
    push_unreached(counts, &followed.items, is_main, &mut begins)?;
    Ok(Part {
        name: None,
        counts: *counts,
        rows: &followed.rows.rows,
        begins,
        links: Vec::new(alloc),
        bytes: followed.bytes,
        callers: Some(&followed.callers),
    })
}

/// The part of a main module that can't be followed, which has these rows: paths begin at its imports.
///
/// # Errors
///
/// `AllocError`: an allocation failed.
pub(crate) fn unread_part<'a>(
    alloc: Global,
    bytes: &'a [u8],
    code: &'a Module<'_>,
    rows: &'a ModuleRows,
    why: Unfollowed,
) -> Result<Part<'a>, AllocError>
    requires { AreRowsFor (bare_graph (module_value code.now)) rows.now }
    ensures { IfOk result (λ p. IsUnreadPart (module_value code.now) bytes.now why (part_view p)) }
{
    let items = import_items(alloc, &code.imports)?;
    let mut begins = Vec::new(alloc);
    let root = TreeRoot::Unfollowed(why);
    push_imports(&rows.counts, &items, Some(root), &mut begins)?;
    Ok(Part {
        name: None,
        counts: rows.counts,
        rows: &rows.rows,
        begins,
        links: Vec::new(alloc),
        bytes,
        callers: None,
    })
}

/// The part of an adapter, which has these rows. Paths begin at those of its exports that it has to have whatever the
/// main module imports, in this order.
///
/// # Errors
///
/// `AllocError`: an allocation failed.
pub fn adapter_part<'a>(
    alloc: Global,
    name: &'a str,
    bytes: &'a [u8],
    rows: &'a ModuleRows,
    always: &[Export<'a>],
) -> Result<Part<'a>, AllocError>
    ensures { (m : code_value) → AreRowsFor (bare_graph m) rows.now
        → IfOk result (λ p. IsAdapterPart name.now m bytes.now (map export_value always.now)
        (part_view p)) }
{
    let begins = required_begins(alloc, &rows.counts, always)?;
    Ok(Part {
        name: Some(name),
        counts: rows.counts,
        rows: &rows.rows,
        begins,
        links: Vec::new(alloc),
        bytes,
        callers: None,
    })
}

/// The part of a core module of a component that is followed and is not its main module. Paths begin at those of its
/// exports that the main module does not import, `always`, in this order; at its start function; and at its active
/// segments.
///
/// It takes time and memory linear in the module.
///
/// # Errors
///
/// `AllocError`: an allocation failed.
pub fn core_part<'a>(
    alloc: Global,
    name: &'a str,
    followed: &'a Followed<'_>,
    always: &[Export<'a>],
) -> Result<Part<'a>, AllocError>
    requires { HasPaths followed.now }
    ensures { IfOk result (λ p. IsCorePart name.now (followed_view followed.now)
        followed.now.bytes.now (calling_of followed.now.callers) (map export_value always.now)
        (part_view p)) }
{
    let counts = &followed.rows.counts;
    let segments = &followed.segments;
    let mut begins = required_begins(alloc, counts, always)?;
    push_required_start(counts, followed.code.start, &mut begins)?;
    push_segments(alloc, counts, segments, &mut begins)?;
    Ok(Part {
        name: Some(name),
        counts: *counts,
        rows: &followed.rows.rows,
        begins,
        links: Vec::new(alloc),
        bytes: followed.bytes,
        callers: Some(&followed.callers),
    })
}

/// The part of a library, of which only its imports are known: nothing leads to them, and they lead nowhere.
///
/// # Errors
///
/// `AllocError`: an allocation failed.
pub fn library_part<'a>(
    alloc: Global,
    name: &'a str,
    bytes: &'a [u8],
    code: &'a Module<'_>,
    rows: &'a ModuleRows,
) -> Result<Part<'a>, AllocError>
    requires { AreRowsFor (bare_graph (module_value code.now)) rows.now }
    ensures { IfOk result (λ p. IsLibraryPart name.now (module_value code.now) bytes.now
        (part_view p)) }
{
    let items = import_items(alloc, &code.imports)?;
    let mut begins = Vec::new(alloc);
    push_imports(&rows.counts, &items, None, &mut begins)?;
    Ok(Part {
        name: Some(name),
        counts: rows.counts,
        rows: &rows.rows,
        begins,
        links: Vec::new(alloc),
        bytes,
        callers: None,
    })
}

/// Appends a root, if its item is there.
fn push_begin<'a>(
    counts: &Counts,
    list: usize,
    root: Option<TreeRoot<'a>>,
    item: PathItem,
    begins: &mut Vec<Begin<'a>>,
) -> Result<(), AllocError>
    requires { item_count (counts_value counts.now) < 2 ^ 64 }
    ensures { OnOk result (map begin_view begins.new.items ≡ map begin_view begins.old.items
        ++ begin_at (counts_value counts.now) list (option_map tree_root_view root.entry) item) }
{
    if has_item(counts, item) {
        let item = number_of(counts, item);
        begins.push(Begin { list, item, root })?;
    }
    Ok(())
}

/// Appends the items of exports, in order.
fn push_exports<'a>(
    counts: &Counts,
    exports: &[Export<'a>],
    begins: &mut Vec<Begin<'a>>,
) -> Result<(), AllocError>
    requires { item_count (counts_value counts.now) < 2 ^ 64 }
    ensures { OnOk result (map begin_view begins.new.items ≡ map begin_view begins.old.items
        ++ export_begins (counts_value counts.now) (map export_value exports.now)) }
{
    for export in exports {
        let root = TreeRoot::Begin(PathRoot::Export(export.name));
        push_begin(counts, DIRECT, Some(root), export_item(export), begins)?;
    }
    Ok(())
}

/// The items of exports that an adapter has to have, in order.
fn required_begins<'a>(
    alloc: Global,
    counts: &Counts,
    exports: &[Export<'a>],
) -> Result<Vec<Begin<'a>>, AllocError>
    requires { item_count (counts_value counts.now) < 2 ^ 64 }
    ensures { IfOk result (λ v. map begin_view v.items
        ≡ required_begins (counts_value counts.now) (map export_value exports.now)) }
{
    let mut begins = Vec::new(alloc);
    for export in exports {
        let root = TreeRoot::Adapter {
            name: export.name,
            main: None,
        };
        push_begin(counts, ALWAYS, Some(root), export_item(export), &mut begins)?;
    }
    Ok(begins)
}

/// Appends the start function, if there is one.
fn push_start<'a>(
    counts: &Counts,
    start: Option<u32>,
    begins: &mut Vec<Begin<'a>>,
) -> Result<(), AllocError>
    requires { item_count (counts_value counts.now) < 2 ^ 64 }
    ensures { OnOk result (map begin_view begins.new.items ≡ map begin_view begins.old.items
        ++ start_begins (counts_value counts.now) start) }
{
    match start {
        Some(start) => {
            let item = PathItem::Item(Space::Funcs, start as usize);
            let root = TreeRoot::Begin(PathRoot::Start);
            push_begin(counts, DIRECT, Some(root), item, begins)
        }
        None => Ok(()),
    }
}

/// Appends the start function of a module that has to have it whatever the main module imports, if there is one.
fn push_required_start<'a>(
    counts: &Counts,
    start: Option<u32>,
    begins: &mut Vec<Begin<'a>>,
) -> Result<(), AllocError>
    requires { item_count (counts_value counts.now) < 2 ^ 64 }
    ensures { OnOk result (map begin_view begins.new.items ≡ map begin_view begins.old.items
        ++ required_start (counts_value counts.now) start) }
{
    match start {
        Some(start) => {
            let item = PathItem::Item(Space::Funcs, start as usize);
            let root = TreeRoot::Begin(PathRoot::Start);
            push_begin(counts, ALWAYS, Some(root), item, begins)
        }
        None => Ok(()),
    }
}

/// Appends active segments.
fn push_segments<'a>(
    alloc: Global,
    counts: &Counts,
    segments: &Segments<'_>,
    begins: &mut Vec<Begin<'a>>,
) -> Result<(), AllocError>
    requires { item_count (counts_value counts.now) < 2 ^ 64 }
    ensures { OnOk result (map begin_view begins.new.items ≡ map begin_view begins.old.items
        ++ segment_begins (counts_value counts.now) (segments_value segments.now)) }
{
    let active = second_roots(alloc, segments)?;
    push_active(counts, segments, &active, begins)
}

/// Appends these active segments.
fn push_active<'a>(
    counts: &Counts,
    segments: &Segments<'_>,
    active: &[PathItem],
    begins: &mut Vec<Begin<'a>>,
) -> Result<(), AllocError>
    requires { item_count (counts_value counts.now) < 2 ^ 64 }
    ensures { OnOk result (map begin_view begins.new.items ≡ map begin_view begins.old.items
        ++ active_begins (counts_value counts.now) (segments_value segments.now) active.now) }
{
    for item in active {
        let root = TreeRoot::Begin(filled_by(segments, *item));
        push_begin(counts, SEGMENTS, Some(root), *item, begins)?;
    }
    Ok(())
}

/// Appends the items of the imports of a main module; none, where the module is no main module.
fn push_unreached<'a>(
    counts: &Counts,
    items: &[PathItem],
    is_main: bool,
    begins: &mut Vec<Begin<'a>>,
) -> Result<(), AllocError>
    requires { item_count (counts_value counts.now) < 2 ^ 64 }
    ensures { OnOk result (map begin_view begins.new.items ≡ map begin_view begins.old.items
        ++ unreached_begins (counts_value counts.now) is_main items.now) }
{
    if is_main {
        let root = TreeRoot::Unfollowed(Unfollowed::Unreached);
        push_imports(counts, items, Some(root), begins)
    } else {
        Ok(())
    }
}

/// Appends the items of imports, in order, at which paths begin as the root says.
fn push_imports<'a>(
    counts: &Counts,
    items: &[PathItem],
    root: Option<TreeRoot<'a>>,
    begins: &mut Vec<Begin<'a>>,
) -> Result<(), AllocError>
    requires { item_count (counts_value counts.now) < 2 ^ 64 }
    ensures { OnOk result (map begin_view begins.new.items ≡ map begin_view begins.old.items
        ++ import_begins (counts_value counts.now) (option_map tree_root_view root.entry)
        items.now) }
{
    for item in items {
        push_begin(counts, UNREACHED, root, *item, begins)?;
    }
    Ok(())
}
