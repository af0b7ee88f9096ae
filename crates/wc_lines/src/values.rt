//! Lines for types, imports and the items of modules.

use crate::lines::Lines;
use std::alloc::Global;
use std::fmt::Display;
use wc_read::{
    Def, Export, ExportKind, FuncType, GlobalType, Import, ImportType, MemoryType, TableType,
    ValType,
};
use wc_texts::{FaultText, text_of};

/// A fault's line.
pub fn put_fault(out: &mut Lines, fault: impl Display + Drop) {
    out.push_str("fault ");
    writeln!(out, "{fault}");
}

/// Puts the text of a fault, on a line; after it what its `Display` shows, where that is another text.
pub fn put_fault_text<F: FaultText + Display>(alloc: Global, fault: &F, out: &mut Lines) {
    let mut shown = Lines::new(alloc);
    write!(shown, "{fault}");
    match text_of(alloc, fault) {
        Ok(text) => put_both(out, &text, &shown),
        Err(_) => out.lack_memory(),
    }
}

/// Puts the texts of faults, each on a line.
pub fn put_fault_texts<F: FaultText + Display>(alloc: Global, faults: &[F], out: &mut Lines) {
    for fault in faults {
        put_fault_text(alloc, fault, out);
    }
}

/// Puts a text, and other lines where they differ from it.
fn put_both(out: &mut Lines, text: &str, shown: &Lines) {
    out.push_str(text);
    out.end();
    match shown.text() {
        Ok(shown) if shown == text => {}
        Ok(shown) => writeln!(out, "shown as {shown}"),
        Err(_) => out.lack_memory(),
    }
}

/// Bytes in hex, each with a space at the front.
pub fn put_bytes(out: &mut Lines, bytes: &[u8]) {
    for byte in bytes {
        out.hex(" ", *byte);
    }
}

/// Appends a word, bytes in hex and a line feed.
pub fn put_bytes_line(out: &mut Lines, word: &str, bytes: &[u8]) {
    out.push_str(word);
    put_bytes(out, bytes);
    out.push_str("\n");
}

/// Lines of at most 32 bytes in hex.
pub fn put_bytes_lines(out: &mut Lines, word: &str, bytes: &[u8]) {
    if bytes.is_empty() {
        return put_bytes_line(out, word, bytes);
    }
    for part in bytes.chunks(32) {
        put_bytes_line(out, word, part);
    }
}

/// A value type in one word: of references `funcref`, `externref`, `ref:func`, `ref:extern`, and `ref:3` or, with null,
/// `ref-null:3` for those to functions of type 3.
pub fn put_val_type(out: &mut Lines, ty: ValType) {
    match ty {
        ValType::I32 => out.push_str("i32"),
        ValType::I64 => out.push_str("i64"),
        ValType::F32 => out.push_str("f32"),
        ValType::F64 => out.push_str("f64"),
        ValType::V128 => out.push_str("v128"),
        ValType::FuncRef => out.push_str("funcref"),
        ValType::ExternRef => out.push_str("externref"),
        ValType::FuncRefNonNull => out.push_str("ref:func"),
        ValType::ExternRefNonNull => out.push_str("ref:extern"),
        ValType::TypeRef { nullable, index } => {
            let word = if nullable { "ref-null:" } else { "ref:" };
            out.number(word, index as u64);
        }
    }
}

/// Types, each with a space at the front.
pub fn put_val_types(out: &mut Lines, types: &[ValType]) {
    for ty in types {
        out.push_str(" ");
        put_val_type(out, *ty);
    }
}

/// A function type, as ` i32 i64 -> f32`.
pub fn put_func_type(out: &mut Lines, ty: &FuncType) {
    put_val_types(out, ty.params());
    out.push_str(" ->");
    put_val_types(out, ty.results());
}

fn put_bounds(out: &mut Lines, initial: u64, maximum: Option<u64>) {
    out.number(" min ", initial);
    match maximum {
        Some(maximum) => out.number(" max ", maximum),
        None => {}
    }
}

/// Appends ` TYPE` of a table's elements, and its limits.
pub fn put_table_type(out: &mut Lines, ty: &TableType) {
    out.push_str(" ");
    put_val_type(out, ty.element_type);
    if ty.table64 {
        out.push_str(" 64");
    }
    put_bounds(out, ty.initial, ty.maximum);
}

/// Appends ` 64` and ` shared` of a memory that is so, its limits, and ` page EXPONENT` if it has
/// one.
pub fn put_memory_type(out: &mut Lines, ty: &MemoryType) {
    if ty.memory64 {
        out.push_str(" 64");
    }
    if ty.shared {
        out.push_str(" shared");
    }
    put_bounds(out, ty.initial, ty.maximum);
    match ty.page_size_log2 {
        Some(page_size_log2) => out.number(" page ", page_size_log2 as u64),
        None => {}
    }
}

/// Appends ` TYPE` of a global's value, and whether it is mutable.
pub fn put_global_type(out: &mut Lines, ty: &GlobalType) {
    out.push_str(" ");
    put_val_type(out, ty.content_type);
    if ty.mutable {
        out.push_str(" mut");
    }
}

fn put_import_type(out: &mut Lines, ty: &ImportType) {
    match ty {
        ImportType::Func(index) => out.number("func ", *index as u64),
        ImportType::Table(table) => {
            out.push_str("table");
            put_table_type(out, table);
        }
        ImportType::Memory(memory) => {
            out.push_str("memory");
            put_memory_type(out, memory);
        }
        ImportType::Global(global) => {
            out.push_str("global");
            put_global_type(out, global);
        }
    }
}

/// An import, without the end of its line.
pub fn put_import(out: &mut Lines, import: &Import<'_>) {
    out.quoted("import ", import.module);
    out.quoted(" ", import.name);
    out.push_str(" ");
    put_import_type(out, &import.ty);
}

/// Appends a line for each import.
pub fn put_imports(out: &mut Lines, imports: &[Import<'_>]) {
    for import in imports {
        put_import(out, import);
        out.push_str("\n");
    }
}

/// The word of an export's kind, with a space at the front.
pub fn kind_name(kind: ExportKind) -> &'static str {
    match kind {
        ExportKind::Func => " func",
        ExportKind::Table => " table",
        ExportKind::Memory => " memory",
        ExportKind::Global => " global",
    }
}

/// Appends a line for each export: its name in quotes, its kind and its index.
pub fn put_exports(out: &mut Lines, exports: &[Export<'_>]) {
    for export in exports {
        out.quoted("export ", export.name);
        out.push_str(kind_name(export.kind));
        out.number(" ", export.index as u64);
        out.end();
    }
}

/// The names of an import: the end of an item's line.
fn put_import_names(out: &mut Lines, module: &str, name: &str) {
    out.quoted(" import ", module);
    out.quoted(" ", name);
    out.end();
}

/// Where an item comes from that has no content: the end of its line.
pub fn put_def(out: &mut Lines, def: &Def<'_, ()>) {
    match def {
        Def::Import(module, name) => put_import_names(out, module, name),
        Def::Local(()) => out.push_str(" defined\n"),
    }
}

/// Where an item comes from, or the bytes of its content: the end of its line.
pub fn put_bytes_def(out: &mut Lines, def: &Def<'_, &[u8]>, word: &str) {
    match def {
        Def::Import(module, name) => put_import_names(out, module, name),
        Def::Local(bytes) => put_bytes_line(out, word, bytes),
    }
}
