//! The sections that make a module invalid in which each item is right by itself (WebAssembly core specification, 3.4).

ghost use Rattle.std.specs.Prelude.{◌≡◌, ◌≤◌, length, nat_lt, true, IfOk};
ghost use Rattle.std.specs.List.{filter, list_all};
ghost use Rattle.std.specs.Option.{option_map_or};
ghost use Rattle.wc_read.specs.Types.{has_type_index};
ghost use Rattle.wc_read.specs.Imports.{import_values};
ghost use Rattle.wc_read.specs.Reading.Contents.{section_contents_value};
ghost use Rattle.wc_read.specs.Reading.Globals.{local_global_value};
ghost use Rattle.wc_read.specs.Causes.{import_has_types, global_has_types, is_of_kind, imported_count, counts_of, count_of_kind, is_in_range, is_cause};

use crate::codes::{
    CODE_ID, EXPORT_ID, FUNCTION_ID, GLOBAL_ID, IMPORT_ID, START_ID, TABLE_ID, TYPE_ID,
};
use crate::exports::{Export, ExportKind};
use crate::fault::ReadFault;
use crate::globals::LocalGlobal;
use crate::init_types::{has_type_index, init_has_types};
use crate::section_contents::SectionContents;
use crate::types::{Import, ImportType, TableType};
use crate::validity::types_name_types;
use std::alloc::{AllocError, Global};

/// How many items the index spaces have (2.5.1).
#[derive(Clone, Copy)]
pub struct ItemCounts {
    pub funcs: usize,
    pub tables: usize,
    pub memories: usize,
    pub globals: usize,
}

/// Whether the section with an id is what a fault is about, in a module in which each item is right by itself: it names
/// an index out of range, or its items do not fit the others. The items of a space pass 2^32 by those that are
/// imported.
pub fn is_cause(
    alloc: Global,
    parts: &SectionContents<'_>,
    fault: ReadFault,
    id: u8,
) -> Result<bool, AllocError>
    ensures { IfOk result (λ b. b ≡ is_cause (section_contents_value parts.now) fault id) }
{
    match fault {
        ReadFault::BadIndex => Ok(!is_in_range(alloc, parts, id)?),
        ReadFault::DuplicateExport => Ok(id == EXPORT_ID),
        ReadFault::BadInitialiser => Ok(id == GLOBAL_ID),
        ReadFault::BadStart => Ok(id == START_ID),
        ReadFault::CountMismatch => Ok(id == CODE_ID),
        ReadFault::TooLarge => Ok(id == IMPORT_ID),
        _ => Ok(false),
    }
}

/// Whether each index that the section with an id names is that of a type or of an item.
#[tactic(auto, unfolding(crate::specs::Causes::is_in_range))]
fn is_in_range(alloc: Global, parts: &SectionContents<'_>, id: u8) -> Result<bool, AllocError>
    ensures { IfOk result (λ b. b ≡ is_in_range (section_contents_value parts.now) id) }
{
    let types = parts.types.len();
    match id {
        TYPE_ID => Ok(types_name_types(&parts.types, types)),
        IMPORT_ID => Ok(imports_name_types(&parts.imports, types)),
        FUNCTION_ID => Ok(are_below(&parts.func_types, types)),
        TABLE_ID => Ok(tables_name_types(&parts.tables, types)),
        GLOBAL_ID => globals_name_types(alloc, &parts.globals, types),
        EXPORT_ID => Ok(name_items(&parts.exports, counts(parts))),
        START_ID => Ok(starts_function(parts.start, counts(parts).funcs)),
        _ => Ok(true),
    }
}

fn imports_name_types(imports: &[Import<'_>], types: usize) -> bool
    ensures { result ≡ list_all (λ i. import_has_types types i.ty) imports.now }
{
    imports
        .iter()
        .all(|import| import_has_types(types, import.ty))
}

fn import_has_types(types: usize, ty: ImportType) -> bool
    ensures { result ≡ import_has_types types ty }
{
    match ty {
        ImportType::Func(index) => (index as usize) < types,
        ImportType::Table(table) => has_type_index(types, table.element_type),
        ImportType::Memory(_) => true,
        ImportType::Global(global) => has_type_index(types, global.content_type),
    }
}

fn are_below(indices: &[u32], count: usize) -> bool
    ensures { result ≡ list_all (λ t. nat_lt t count) indices.now }
{
    indices.iter().all(|index| (*index as usize) < count)
}

fn tables_name_types(tables: &[TableType], types: usize) -> bool
    ensures { result ≡ list_all (λ t. has_type_index types t.element_type) tables.now }
{
    tables
        .iter()
        .all(|table| has_type_index(types, table.element_type))
}

fn globals_name_types(
    alloc: Global,
    globals: &[LocalGlobal<'_>],
    types: usize,
) -> Result<bool, AllocError>
    ensures { IfOk result (λ b.
        b ≡ list_all (λ g. global_has_types types (local_global_value g)) globals.now) }
{
    for global in globals {
        if !global_has_types(alloc, global, types)? {
            return Ok(false);
        }
    }
    Ok(true)
}

fn global_has_types(
    alloc: Global,
    global: &LocalGlobal<'_>,
    types: usize,
) -> Result<bool, AllocError>
    ensures { IfOk result (λ b. b ≡ global_has_types types (local_global_value global.now)) }
{
    if has_type_index(types, global.ty.content_type) {
        init_has_types(alloc, types, global.init)
    } else {
        Ok(false)
    }
}

/// Whether exports name items.
fn name_items(exports: &[Export<'_>], counts: ItemCounts) -> bool
    ensures { result ≡ list_all (λ e. nat_lt e.index (count_of_kind counts e.kind)) exports.now }
{
    exports.iter().all(|export| (export.index as usize) < count_of_kind(counts, export.kind))
}

fn starts_function(start: Option<u32>, functions: usize) -> bool
    ensures { result ≡ option_map_or (λ index. nat_lt index functions) start true }
{
    match start {
        Some(index) => (index as usize) < functions,
        None => true,
    }
}

fn count_of_kind(counts: ItemCounts, kind: ExportKind) -> usize
    ensures { result ≡ count_of_kind counts kind }
{
    match kind {
        ExportKind::Func => counts.funcs,
        ExportKind::Table => counts.tables,
        ExportKind::Memory => counts.memories,
        ExportKind::Global => counts.globals,
    }
}

fn counts(parts: &SectionContents<'_>) -> ItemCounts
    ensures { result ≡ counts_of (section_contents_value parts.now) }
{
    let imports = &parts.imports;
    ItemCounts {
        funcs: imported_count(imports, ExportKind::Func) + parts.func_types.len(),
        tables: imported_count(imports, ExportKind::Table) + parts.tables.len(),
        memories: imported_count(imports, ExportKind::Memory) + parts.memories.len(),
        globals: imported_count(imports, ExportKind::Global) + parts.globals.len(),
    }
}

/// How many items of a kind are imported.
fn imported_count(imports: &[Import<'_>], kind: ExportKind) -> usize
    ensures exact { result ≡ imported_count kind (import_values imports.now) }
    ensures bounded { result ≤ length imports.now }
{
    imported(imports, kind)
}

fn imported(imports: &[Import<'_>], kind: ExportKind) -> usize
    ensures exact { result ≡ length (filter (λ i. is_of_kind kind i.ty) imports.now) }
    ensures bounded { result ≤ length imports.now }
{
    imports
        .iter()
        .filter(|import| is_of_kind(kind, import.ty))
        .count()
}

/// Whether what is imported is of a kind.
fn is_of_kind(kind: ExportKind, ty: ImportType) -> bool
    ensures { result ≡ is_of_kind kind ty }
{
    match kind {
        ExportKind::Func => matches!(ty, ImportType::Func(_)),
        ExportKind::Table => matches!(ty, ImportType::Table(_)),
        ExportKind::Memory => matches!(ty, ImportType::Memory(_)),
        ExportKind::Global => matches!(ty, ImportType::Global(_)),
    }
}
