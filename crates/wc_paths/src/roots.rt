//! The two lists of roots of a module, and the items of imports.

ghost use Rattle.std.specs.Prelude.{◌≡◌, ◌<◌, ◌^◌, ◌-◌, ◌+◌, map, ◌++◌, filter, length, if◌then◌else◌, IfOk, OnOk};
ghost use Rattle.std.specs.List.{range_with_len};
ghost use Rattle.std.specs.Option.{option_map, option_to_list};
ghost use Rattle.wc_read.specs.Exports.{export_value};
ghost use Rattle.wc_read.specs.Imports.{import_values};
ghost use Rattle.wc_read.specs.Modules.{module_value};
ghost use Rattle.wc_read.specs.declared.operators.Space.{Space};
ghost use Rattle.wc_read.specs.declared.operators.Space.TheVariants.{Funcs};
ghost use Rattle.wc_read.specs.ImportItems.{is_in_space};
ghost use Rattle.wc_segments.specs.Data.{data_value};
ghost use Rattle.wc_segments.specs.Elements.{element_value};
ghost use Rattle.wc_segments.specs.Modes.{mode_value};
ghost use Rattle.wc_segments.specs.Segments.{segments_value};
ghost use Rattle.wc_paths.specs.Roots.{AreImportItems, export_item, first_roots, is_active, is_active_data, is_active_element, import_space, roots_of, second_roots};
ghost use Rattle.wc_paths.specs.Private.Roots.{count_in};
ghost use Rattle.wc_paths.specs.declared.items.PathItem.TheVariants.{Item, Elements, Data};

use crate::items::PathItem;
use std::alloc::{AllocError, Global};
use wc_read::{Export, ExportKind, Import, ImportType, Module, Space};
use wc_segments::{DataSegment, ElementSegment, SegmentMode, Segments};

/// The item of an export.
pub fn export_item(export: &Export<'_>) -> PathItem
    ensures { result ≡ export_item (export_value export.now) }
{
    let index = export.index as usize;
    match export.kind {
        ExportKind::Func => PathItem::Item(Space::Funcs, index),
        ExportKind::Table => PathItem::Item(Space::Tables, index),
        ExportKind::Memory => PathItem::Item(Space::Memories, index),
        ExportKind::Global => PathItem::Item(Space::Globals, index),
    }
}

/// The first list of roots: the items of all exports, in the order of the file, and then the start function.
///
/// # Errors
///
/// `AllocError`: an allocation failed.
pub fn first_roots(alloc: Global, module: &Module<'_>) -> Result<Vec<PathItem>, AllocError>
    ensures { IfOk result (λ v. v.items ≡ first_roots (module_value «module».now)) }
{
    roots_of(alloc, &module.exports, module.start)
}

/// The items of some exports, in their order, and then the start function: the first list of roots where paths begin at
/// these exports.
///
/// # Errors
///
/// `AllocError`: an allocation failed.
pub fn roots_of(
    alloc: Global,
    exports: &[Export<'_>],
    start: Option<u32>,
) -> Result<Vec<PathItem>, AllocError>
    ensures { IfOk result (λ v. v.items ≡ roots_of (map export_value exports.now) start) }
{
    let mut roots = export_items(alloc, exports)?;
    put_start(&mut roots, start)?;
    Ok(roots)
}

/// Appends the start function, if there is one.
fn put_start(roots: &mut Vec<PathItem>, start: Option<u32>) -> Result<(), AllocError>
    ensures { OnOk result (roots.new.items
        ≡ roots.old.items ++ option_to_list (option_map (λ n. Item Funcs n) start)) }
{
    match start {
        Some(start) => {
            roots.push(PathItem::Item(Space::Funcs, start as usize))?;
            Ok(())
        }
        None => Ok(()),
    }
}

fn export_items(alloc: Global, exports: &[Export<'_>]) -> Result<Vec<PathItem>, AllocError>
    ensures { IfOk result (λ v. v.items ≡ map (λ e. export_item (export_value e)) exports.now) }
{
    exports
        .iter()
        .map(|export| export_item(export))
        .collect(alloc)
}

/// The second list of roots: the active element segments, and then the active data segments, each in their order.
///
/// # Errors
///
/// `AllocError`: an allocation failed.
pub fn second_roots(alloc: Global, segments: &Segments<'_>) -> Result<Vec<PathItem>, AllocError>
    ensures { IfOk result (λ v. v.items ≡ second_roots (segments_value segments.now)) }
{
    let mut roots = active_elements(alloc, &segments.elements)?;
    let data = active_data(alloc, &segments.data)?;
    roots.extend_from_slice(&data)?;
    Ok(roots)
}

/// The element segments that are active.
fn active_elements(
    alloc: Global,
    elements: &[ElementSegment<'_>],
) -> Result<Vec<PathItem>, AllocError>
    ensures { IfOk result (λ v. v.items ≡ map (λ n. Elements n)
        (filter (is_active_element (map element_value elements.now))
        (range_with_len 0 (length elements.now)))) }
{
    (0..elements.len())
        .filter(|index| is_active_element(elements, *index))
        .map(|index| PathItem::Elements(index))
        .collect(alloc)
}

/// The data segments that are active.
fn active_data(alloc: Global, data: &[DataSegment<'_>]) -> Result<Vec<PathItem>, AllocError>
    ensures { IfOk result (λ v. v.items ≡ map (λ n. Data n)
        (filter (is_active_data (map data_value «data».now))
        (range_with_len 0 (length «data».now)))) }
{
    (0..data.len())
        .filter(|index| is_active_data(data, *index))
        .map(|index| PathItem::Data(index))
        .collect(alloc)
}

fn is_active_element(elements: &[ElementSegment<'_>], index: usize) -> bool
    ensures { result ≡ is_active_element (map element_value elements.now) index }
{
    match elements.get(index) {
        Some(element) => is_active(&element.mode),
        None => false,
    }
}

fn is_active_data(data: &[DataSegment<'_>], index: usize) -> bool
    ensures { result ≡ is_active_data (map data_value «data».now) index }
{
    match data.get(index) {
        Some(segment) => is_active(&segment.mode),
        None => false,
    }
}

pub(crate) fn is_active(mode: &SegmentMode<'_>) -> bool
    ensures { result ≡ is_active (mode_value mode.now) }
{
    match mode {
        SegmentMode::Active { .. } => true,
        SegmentMode::Passive => false,
        SegmentMode::Declarative => false,
    }
}

/// How many imports there were of each space.
#[derive(Clone, Copy)]
struct ImportCounts {
    funcs: usize,
    tables: usize,
    memories: usize,
    globals: usize,
}

impl ImportCounts {
    /// Counts an import, and answers its item.
    fn count(&mut self, ty: &ImportType) -> PathItem
        requires { (space : Space) → count_in self.old space < 2 ^ 64 - 1 }
        ensures item { result
            ≡ Item (import_space ty.now) (count_in self.old (import_space ty.now)) }
        ensures counts { (space : Space) → count_in self.new space
            ≡ count_in self.old space + (if is_in_space space ty.now then 1 else 0) }
    {
        match ty {
            ImportType::Func(_) => {
                self.funcs += 1;
                PathItem::Item(Space::Funcs, self.funcs - 1)
            }
            ImportType::Table(_) => {
                self.tables += 1;
                PathItem::Item(Space::Tables, self.tables - 1)
            }
            ImportType::Memory(_) => {
                self.memories += 1;
                PathItem::Item(Space::Memories, self.memories - 1)
            }
            ImportType::Global(_) => {
                self.globals += 1;
                PathItem::Item(Space::Globals, self.globals - 1)
            }
        }
    }
}

/// For each import its item, in the order of the file: the imports of each space are its first items.
///
/// # Errors
///
/// `AllocError`: an allocation failed.
pub fn import_items(alloc: Global, imports: &[Import<'_>]) -> Result<Vec<PathItem>, AllocError>
    ensures { IfOk result (λ v. AreImportItems (import_values imports.now) v.items) }
{
    let mut counts = ImportCounts {
        funcs: 0,
        tables: 0,
        memories: 0,
        globals: 0,
    };
    let mut items = Vec::new(alloc);
    for import in imports {
        items.push(counts.count(&import.ty))?;
    }
    Ok(items)
}
