//! Lines for modules and their frames.

use wc_lines::lines::Lines;
use wc_lines::values::{
    put_bytes_def, put_bytes_line, put_def, put_exports, put_func_type, put_global_type,
    put_imports, put_memory_type, put_table_type,
};
use wc_maps::OrderedMap;
use wc_read::{Frames, Func, FuncType, Global, Memory, Module, Table};

/// A line for each section: its id, and its content in hex.
pub fn put_frames(out: &mut Lines, frames: &Frames<'_>) {
    for section in &frames.sections {
        out.number("section ", section.id as u64);
        put_bytes_line(out, "", section.content);
    }
}

fn put_types(out: &mut Lines, types: &[FuncType]) {
    for (index, ty) in types.iter().enumerate() {
        out.number("type ", index as u64);
        put_func_type(out, ty);
        out.push_str("\n");
    }
}

fn put_funcs(out: &mut Lines, funcs: &[Func<'_>]) {
    for (index, func) in funcs.iter().enumerate() {
        out.number("func ", index as u64);
        out.number(" type ", func.ty as u64);
        put_bytes_def(out, &func.def, " body");
    }
}

fn put_tables(out: &mut Lines, tables: &[Table<'_>]) {
    for (index, table) in tables.iter().enumerate() {
        out.number("table ", index as u64);
        put_table_type(out, &table.ty);
        put_def(out, &table.def);
    }
}

fn put_memories(out: &mut Lines, memories: &[Memory<'_>]) {
    for (index, memory) in memories.iter().enumerate() {
        out.number("memory ", index as u64);
        put_memory_type(out, &memory.ty);
        put_def(out, &memory.def);
    }
}

fn put_globals(out: &mut Lines, globals: &[Global<'_>]) {
    for (index, global) in globals.iter().enumerate() {
        out.number("global ", index as u64);
        put_global_type(out, &global.ty);
        put_bytes_def(out, &global.def, " init");
    }
}

/// The start function, names of globals, producers and ids of the sections of segments, where there are any.
fn put_rest(out: &mut Lines, module: &Module<'_>) {
    if let Some(start) = module.start {
        out.number_line("start ", start as u64);
    }
    put_names(out, "name of global ", &module.global_names);
    if let Some(producers) = module.producers {
        put_bytes_line(out, "producers", producers);
    }
    for id in &module.ids {
        out.number_line("segments ", *id as u64);
    }
}

/// A line for each name: a word, the index that has the name, and the name.
pub fn put_names(out: &mut Lines, word: &str, names: &OrderedMap<u32, &str>) {
    for (index, name) in names.entries() {
        out.number(word, *index as u64);
        out.quoted(" ", name);
        out.end();
    }
}

/// A line for each type, import, item and export of a module, and for the rest of it.
pub fn put_module(out: &mut Lines, module: &Module<'_>) {
    put_types(out, &module.types);
    put_imports(out, &module.imports);
    put_funcs(out, &module.funcs);
    put_tables(out, &module.tables);
    put_memories(out, &module.memories);
    put_globals(out, &module.globals);
    put_exports(out, &module.exports);
    put_rest(out, module);
}
