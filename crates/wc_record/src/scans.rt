//! Imports and exports of core modules, with types, and the names of their functions.

ghost use Rattle.std.specs.Prelude.{◌≡◌, IfOk, OnOk, codes, map};
ghost use Rattle.std.specs.List.{slice_get};
ghost use Rattle.std.specs.Option.{option_map};
ghost use Rattle.std.specs.Str.{IsUtf8};
ghost use Rattle.wc_texts.specs.Shapes.{array_of};
ghost use Rattle.wc_read.specs.Exports.{export_value};
ghost use Rattle.wc_read.specs.Imports.{import_value};
ghost use Rattle.wc_read.specs.Modules.{module_value};
ghost use Rattle.wc_read.specs.Names.{name_entries};
ghost use Rattle.wc_read.specs.Types.{func_type_value};
ghost use Rattle.wc_record.specs.Objects.{PutsField, PutsJson};
ghost use Rattle.wc_record.specs.Private.Scans.{item_type_value};
ghost use Rattle.wc_record.specs.Scans.{export_scan_json, func_type_at, import_kind, import_scan_json, import_type_in, item_type_in, scan_json};
ghost use Rattle.wc_record.specs.Texts.{text_of};

use crate::objects::{begin_object, end_object, put_list_member, put_member};
use crate::to_json::{ToJson, begin_array, end_array};
use json::Writer;
use std::alloc::{AllocError, Global};
use wc_maps::OrderedMap;
use wc_read::{
    Export, ExportKind, FuncType, GlobalType, Import, ImportType, Item, MemoryType, Module,
    TableType,
};

/// The type of an item of an index space.
#[derive(Clone, Copy)]
enum ItemType<'a> {
    Func(&'a FuncType),
    Table(TableType),
    Memory(MemoryType),
    Global(GlobalType),
}

impl<'a> ToJson for ItemType<'a> {
    ghost use Rattle.wc_record.specs.Private.Scans.{item_type_value};
    ghost use Rattle.wc_record.specs.Scans.{ItemTypeValue, item_type_json};

    ghost View = { ItemTypeValue };

    ghost view = { item_type_value };

    ghost json = { item_type_json };

    fn write(&self, out: &mut Writer) -> Result<(), AllocError> {
        match self {
            ItemType::Func(ty) => ty.write(out),
            ItemType::Table(ty) => ty.write(out),
            ItemType::Memory(ty) => ty.write(out),
            ItemType::Global(ty) => ty.write(out),
        }
    }
}

/// The type of functions of an index.
fn func_type_at(types: &[FuncType], index: u32) -> Option<ItemType<'_>>
    ensures { option_map item_type_value result
        ≡ func_type_at (map func_type_value types.now) index }
{
    match types.get(index as usize) {
        Some(ty) => Some(ItemType::Func(ty)),
        None => None,
    }
}

/// The type of the item of an index, as its space has it.
fn type_at<T: Copy, C>(items: &[Item<'_, T, C>], index: u32) -> Option<T>
    ensures { result ≡ option_map (λ i. i.ty) (slice_get items.now index) }
{
    match items.get(index as usize) {
        Some(item) => Some(item.ty),
        None => None,
    }
}

/// The kind of an import.
fn import_kind(ty: ImportType) -> ExportKind
    ensures { result ≡ import_kind ty }
{
    match ty {
        ImportType::Func(_) => ExportKind::Func,
        ImportType::Table(_) => ExportKind::Table,
        ImportType::Memory(_) => ExportKind::Memory,
        ImportType::Global(_) => ExportKind::Global,
    }
}

/// The type of an import.
fn import_type(types: &[FuncType], ty: ImportType) -> Option<ItemType<'_>>
    ensures { option_map item_type_value result
        ≡ import_type_in (map func_type_value types.now) ty }
{
    match ty {
        ImportType::Func(index) => func_type_at(types, index),
        ImportType::Table(ty) => Some(ItemType::Table(ty)),
        ImportType::Memory(ty) => Some(ItemType::Memory(ty)),
        ImportType::Global(ty) => Some(ItemType::Global(ty)),
    }
}

/// The type of an item of a module, by its kind and its index.
fn item_type<'a>(module: &'a Module<'_>, kind: ExportKind, index: u32) -> Option<ItemType<'a>>
    ensures { option_map item_type_value result
        ≡ item_type_in (module_value module.now) kind index }
{
    match kind {
        ExportKind::Func => match type_at(&module.funcs, index) {
            Some(ty) => func_type_at(&module.types, ty),
            None => None,
        },
        ExportKind::Table => match type_at(&module.tables, index) {
            Some(ty) => Some(ItemType::Table(ty)),
            None => None,
        },
        ExportKind::Memory => match type_at(&module.memories, index) {
            Some(ty) => Some(ItemType::Memory(ty)),
            None => None,
        },
        ExportKind::Global => match type_at(&module.globals, index) {
            Some(ty) => Some(ItemType::Global(ty)),
            None => None,
        },
    }
}

/// Writes an import.
fn put_import(out: &mut Writer, types: &[FuncType], import: Import<'_>) -> Result<(), AllocError>
    ensures { OnOk result (PutsJson out.old out.new
        (import_scan_json (map func_type_value types.now) (import_value import.entry))) }
{
    let kind = import_kind(import.ty);
    let ty = import_type(types, import.ty);
    begin_object(out)?;
    put_member(out, "module", &import.module)?;
    put_member(out, "name", &import.name)?;
    put_member(out, "kind", &kind)?;
    put_member(out, "type", &ty)?;
    end_object(out)
}

/// Writes an export.
fn put_export(out: &mut Writer, module: &Module<'_>, export: Export<'_>) -> Result<(), AllocError>
    ensures { OnOk result (PutsJson out.old out.new
        (export_scan_json (module_value module.now) (export_value export.entry))) }
{
    let ty = item_type(module, export.kind, export.index);
    begin_object(out)?;
    put_member(out, "name", &export.name)?;
    put_member(out, "kind", &export.kind)?;
    put_member(out, "index", &export.index)?;
    put_member(out, "type", &ty)?;
    end_object(out)
}

/// Writes imports, as a list.
fn put_imports(
    out: &mut Writer,
    types: &[FuncType],
    imports: &[Import<'_>],
) -> Result<(), AllocError>
    ensures { OnOk result (PutsJson out.old out.new (array_of
        (map (import_scan_json (map func_type_value types.now)) (map import_value imports.now)))) }
{
    begin_array(out)?;
    for import in imports {
        put_import(out, types, *import)?;
    }
    end_array(out)
}

/// Writes exports of a module, as a list.
fn put_exports(
    out: &mut Writer,
    module: &Module<'_>,
    exports: &[Export<'_>],
) -> Result<(), AllocError>
    ensures { OnOk result (PutsJson out.old out.new (array_of
        (map (export_scan_json (module_value module.now)) (map export_value exports.now)))) }
{
    begin_array(out)?;
    for export in exports {
        put_export(out, module, *export)?;
    }
    end_array(out)
}

/// Writes `"imports": [..]`, all imports of a module.
fn put_imports_member(out: &mut Writer, module: &Module<'_>) -> Result<(), AllocError>
    ensures { OnOk result (PutsField out.old out.new (codes "imports") (array_of
        (map (import_scan_json (module_value module.now).types)
        (module_value module.now).imports))) }
{
    out.key("imports")?;
    put_imports(out, &module.types, &module.imports)
}

/// Writes `"exports": [..]`, all exports of a module.
fn put_exports_member(out: &mut Writer, module: &Module<'_>) -> Result<(), AllocError>
    ensures { OnOk result (PutsField out.old out.new (codes "exports") (array_of
        (map (export_scan_json (module_value module.now)) (module_value module.now).exports))) }
{
    out.key("exports")?;
    put_exports(out, module, &module.exports)
}

/// The index of a function, and its name.
impl<'a> ToJson for (u32, &'a str) {
    ghost use Rattle.wc_read.specs.Names.{GlobalNameValue};
    ghost use Rattle.wc_record.specs.Scans.{function_name_json};

    ghost View = { GlobalNameValue };

    ghost view = { λ e. (e.0, e.1.now) };

    ghost json = { function_name_json };

    fn write(&self, out: &mut Writer) -> Result<(), AllocError> {
        begin_object(out)?;
        put_member(out, "index", &self.0)?;
        put_member(out, "name", &self.1)?;
        end_object(out)
    }
}

/// Writes the imports and exports of a module, and the names of its functions.
fn put_scan(
    out: &mut Writer,
    module: &Module<'_>,
    names: &OrderedMap<u32, &str>,
) -> Result<(), AllocError>
    ensures { OnOk result (PutsJson out.old out.new
        (scan_json (module_value module.now) (name_entries names.now))) }
{
    begin_object(out)?;
    put_imports_member(out, module)?;
    put_exports_member(out, module)?;
    put_list_member(out, "function_names", names.entries())?;
    end_object(out)
}

/// The imports and exports of a module as JSON, with the names of its functions: an object with three members.
/// `imports` has the imports in the order of the file, each an object with `module`, `name`, `kind` (`func`, `table`,
/// `memory` or `global`) and `type`. `exports` has the exports in the order of the file, each with `name`, `kind`,
/// `index` (the item's index in the space of its kind) and `type`. `function_names` has all entries of `names` in
/// their order, each with `index` and `name`.
///
/// A function type has `params` and `results`; a table type has `element_type`, `table64`, `initial` and `maximum`; a
/// memory type has `memory64`, `shared`, `initial`, `maximum` and `page_size_log2`; and a global type has
/// `content_type` and `mutable`. A type is null only in a module that `read_module` refuses.
///
/// # Errors
///
/// `AllocError`: an allocation failed.
pub fn scan_to_json(
    alloc: Global,
    module: &Module<'_>,
    names: &OrderedMap<u32, &str>,
) -> Result<Vec<u8>, AllocError>
    ensures text { IfOk result (λ bytes. bytes.items ≡ text_of
        (scan_json (module_value module.now) (name_entries names.now))) }
    ensures utf8 { IfOk result (λ bytes. IsUtf8 bytes.items) }
{
    let mut out = Writer::new(Vec::new(alloc));
    put_scan(&mut out, module, names)?;
    Ok(out.into_inner())
}
