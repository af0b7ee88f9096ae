//! The sections of a module, each left out where it would be empty (WebAssembly core specification, 5.5.4 to 5.5.13).
//!
//! A section's content is written into a buffer first, since its size comes before it.

ghost use Rattle.std.specs.Prelude.{◌≡◌, ◌++◌, map, Some, IfOk, OnOk};
ghost use Rattle.std.specs.List.{flat_map};
ghost use Rattle.std.specs.Option.{option_map};
ghost use Rattle.wc_read.specs.Types.{func_type_value};
ghost use Rattle.wc_read.specs.Imports.{import_values};
ghost use Rattle.wc_read.specs.Exports.{export_value};
ghost use Rattle.wc_read.specs.Items.{item_value, table_value, memory_value};
ghost use Rattle.wc_write.specs.Modules.{built_value_by, built_imports, code_text, code_text_of, global_text_of, items_content, type_section, import_section, func_section, table_section, memory_section, global_section, export_section, start_section, code_section, producers_section, AppendsSection, AppendsContent};

use crate::bodies::BodyText;
use crate::fault::WriteFault;
use crate::inits::InitText;
use crate::modules::Built;
use crate::numbers::{put_name, put_number};
use crate::sections::append_raw_section;
use crate::spaces::{Defined, defined_items, push_imports};
use crate::types::put_global;
use crate::vectors::{Written, put_vector};
use std::alloc::{AllocError, Global};
use wc_read::codes::{
    CODE_ID, CUSTOM_ID, EXPORT_ID, FUNCTION_ID, GLOBAL_ID, IMPORT_ID, MEMORY_ID, PRODUCERS,
    START_ID, TABLE_ID, TYPE_ID,
};
use wc_read::{Export, FuncType, GlobalType, Import, Item, Memory, Table};

/// A size below it has one byte.
const ONE_BYTE: usize = 128;

/// Appends a section of this content.
fn append_content(out: &mut Vec<u8>, id: u8, content: &[u8]) -> Result<(), WriteFault>
    ensures { AppendsContent result out.old.items out.new.items id (Some content.now) }
{
    append_raw_section(out, id, content)
}

/// Appends a section of items, if there are any.
fn append_items<T: Written>(
    out: &mut Vec<u8>,
    content: &mut Vec<u8>,
    id: u8,
    items: &[T],
) -> Result<(), WriteFault>
    ensures { AppendsContent result out.old.items out.new.items id
        (items_content T.text items.now) }
{
    if items.is_empty() {
        return Ok(());
    }
    content.clear();
    put_vector(content, items)?;
    append_content(out, id, content)
}

/// Appends the section of types, if there are any.
pub(crate) fn append_types(
    out: &mut Vec<u8>,
    content: &mut Vec<u8>,
    types: &[FuncType],
) -> Result<(), WriteFault>
    ensures { AppendsSection result out.old.items out.new.items
        (type_section (map func_type_value types.now)) }
{
    append_items(out, content, TYPE_ID, types)
}

/// Appends the section of imports, if there are any.
pub(crate) fn append_imports<C: BodyText, I: InitText>(
    out: &mut Vec<u8>,
    content: &mut Vec<u8>,
    built: &Built<'_, C, I>,
) -> Result<(), WriteFault>
    ensures { AppendsSection result out.old.items out.new.items
        (import_section (built_imports (built_value_by C.body I.init built.now))) }
{
    let imports = imports(*out.allocator(), built)?;
    append_items(out, content, IMPORT_ID, &imports)
}

/// The imports of a module: memories, tables, globals and functions, each in the order of its index space.
fn imports<'a, C: BodyText, I: InitText>(
    alloc: Global,
    built: &Built<'a, C, I>,
) -> Result<Vec<Import<'a>>, AllocError>
    ensures { IfOk result (λ v. import_values v.items
        ≡ built_imports (built_value_by C.body I.init built.now)) }
{
    let mut imports = Vec::new(alloc);
    push_imports(&mut imports, &built.memories)?;
    push_imports(&mut imports, &built.tables)?;
    push_imports(&mut imports, &built.globals)?;
    push_imports(&mut imports, &built.funcs)?;
    Ok(imports)
}

/// Appends the section of functions, the indices of the types of the defined ones, if there are any.
pub(crate) fn append_func_types<C: BodyText>(
    out: &mut Vec<u8>,
    content: &mut Vec<u8>,
    funcs: &[Item<'_, u32, C>],
) -> Result<(), WriteFault>
    ensures { AppendsSection result out.old.items out.new.items
        (func_section (map (item_value C.body) funcs.now)) }
{
    let alloc = *out.allocator();
    let funcs = defined_items(alloc, funcs)?;
    let types = types_of(alloc, &funcs)?;
    append_items(out, content, FUNCTION_ID, &types)
}

/// The indices of the types of functions.
fn types_of<C>(alloc: Global, funcs: &[Defined<'_, u32, C>]) -> Result<Vec<u32>, AllocError>
    ensures { IfOk result (λ v. v.items ≡ map (λ f. f.ty) funcs.now) }
{
    let mut types = Vec::with_capacity(alloc, funcs.len())?;
    for func in funcs {
        types.push(func.ty)?;
    }
    Ok(types)
}

/// Appends the section of defined tables, if there are any.
pub(crate) fn append_tables(
    out: &mut Vec<u8>,
    content: &mut Vec<u8>,
    tables: &[Table<'_>],
) -> Result<(), WriteFault>
    ensures { AppendsSection result out.old.items out.new.items
        (table_section (map table_value tables.now)) }
{
    let tables = defined_items(*out.allocator(), tables)?;
    append_items(out, content, TABLE_ID, &tables)
}

/// Appends the section of defined memories, if there are any.
pub(crate) fn append_memories(
    out: &mut Vec<u8>,
    content: &mut Vec<u8>,
    memories: &[Memory<'_>],
) -> Result<(), WriteFault>
    ensures { AppendsSection result out.old.items out.new.items
        (memory_section (map memory_value memories.now)) }
{
    let memories = defined_items(*out.allocator(), memories)?;
    append_items(out, content, MEMORY_ID, &memories)
}

/// Appends the section of defined globals, if there are any.
pub(crate) fn append_globals<I: InitText>(
    out: &mut Vec<u8>,
    content: &mut Vec<u8>,
    globals: &[Item<'_, GlobalType, I>],
) -> Result<(), WriteFault>
    ensures { AppendsSection result out.old.items out.new.items
        (global_section (map (item_value I.init) globals.now)) }
{
    let globals = defined_items(*out.allocator(), globals)?;
    append_defined_globals(out, content, &globals)
}

fn append_defined_globals<I: InitText>(
    out: &mut Vec<u8>,
    content: &mut Vec<u8>,
    globals: &[Defined<'_, GlobalType, I>],
) -> Result<(), WriteFault>
    ensures { AppendsContent result out.old.items out.new.items GLOBAL_ID
        (items_content (global_text_of I.init) globals.now) }
{
    if globals.is_empty() {
        return Ok(());
    }
    content.clear();
    put_number(content, globals.len() as u64)?;
    put_globals(content, globals)?;
    append_content(out, GLOBAL_ID, content)
}

/// Appends globals.
fn put_globals<I: InitText>(
    out: &mut Vec<u8>,
    globals: &[Defined<'_, GlobalType, I>],
) -> Result<(), AllocError>
    ensures { OnOk result (out.new.items ≡
        out.old.items ++ flat_map (global_text_of I.init) globals.now) }
{
    for global in globals {
        put_defined_global(out, global)?;
    }
    Ok(())
}

/// Appends a global: its type, and its initialiser.
fn put_defined_global<I: InitText>(
    out: &mut Vec<u8>,
    global: &Defined<'_, GlobalType, I>,
) -> Result<(), AllocError>
    ensures { OnOk result (out.new.items ≡ out.old.items ++ global_text_of I.init global.now) }
{
    put_global(out, &global.ty)?;
    global.content.put(out)
}

/// Appends the section of exports, if there are any.
pub(crate) fn append_exports(
    out: &mut Vec<u8>,
    content: &mut Vec<u8>,
    exports: &[Export<'_>],
) -> Result<(), WriteFault>
    ensures { AppendsSection result out.old.items out.new.items
        (export_section (map export_value exports.now)) }
{
    append_items(out, content, EXPORT_ID, exports)
}

/// Appends the start section, if there is a start function.
pub(crate) fn append_start(
    out: &mut Vec<u8>,
    content: &mut Vec<u8>,
    start: Option<u32>,
) -> Result<(), WriteFault>
    ensures { AppendsSection result out.old.items out.new.items (start_section start) }
{
    let Some(index) = start else {
        return Ok(());
    };
    content.clear();
    put_number(content, u64::from(index))?;
    append_content(out, START_ID, content)
}

/// Appends the section of code, the bodies of defined functions after their sizes, if there are any.
pub(crate) fn append_code<C: BodyText>(
    out: &mut Vec<u8>,
    content: &mut Vec<u8>,
    funcs: &[Item<'_, u32, C>],
) -> Result<(), WriteFault>
    ensures { AppendsSection result out.old.items out.new.items
        (code_section (map (item_value C.body) funcs.now)) }
{
    let funcs = defined_items(*out.allocator(), funcs)?;
    append_bodies(out, content, &funcs)
}

fn append_bodies<C: BodyText>(
    out: &mut Vec<u8>,
    content: &mut Vec<u8>,
    funcs: &[Defined<'_, u32, C>],
) -> Result<(), WriteFault>
    ensures { AppendsContent result out.old.items out.new.items CODE_ID
        (items_content (code_text_of C.body) funcs.now) }
{
    if funcs.is_empty() {
        return Ok(());
    }
    content.clear();
    put_number(content, funcs.len() as u64)?;
    put_code(content, funcs)?;
    append_content(out, CODE_ID, content)
}

/// Appends bodies after their sizes. If the body before had a size of one byte, the next one is written directly;
/// otherwise it goes through a buffer, which serves them all.
fn put_code<C: BodyText>(out: &mut Vec<u8>, funcs: &[Defined<'_, u32, C>]) -> Result<(), AllocError>
    ensures { OnOk result (out.new.items ≡
        out.old.items ++ flat_map (code_text_of C.body) funcs.now) }
{
    let mut text = Vec::new(*out.allocator());
    let mut is_short = false;
    for func in funcs {
        is_short = put_body_after_size(out, &mut text, func.content, is_short)?;
    }
    Ok(())
}

/// Appends a body after its size, and returns whether the size has one byte. If `is_short`, one byte is expected.
fn put_body_after_size<C: BodyText>(
    out: &mut Vec<u8>,
    text: &mut Vec<u8>,
    body: &C,
    is_short: bool,
) -> Result<bool, AllocError>
    ensures { OnOk result (out.new.items ≡ out.old.items ++ code_text (C.body body.now)) }
{
    if is_short {
        return put_in_place(out, text, body);
    }
    text.clear();
    body.put(text)?;
    put_number(out, text.len() as u64)?;
    out.extend_from_slice(text)?;
    Ok(text.len() < ONE_BYTE)
}

/// Appends a body after a byte, which becomes its size; a longer size takes a copy of the body.
fn put_in_place<C: BodyText>(
    out: &mut Vec<u8>,
    text: &mut Vec<u8>,
    body: &C,
) -> Result<bool, AllocError>
    ensures { OnOk result (out.new.items ≡ out.old.items ++ code_text (C.body body.now)) }
{
    let before = out.len();
    out.push(0)?;
    body.put(out)?;
    let size = out.len() - before - 1;
    if size < ONE_BYTE {
        out[before] = size as u8;
        return Ok(true);
    }
    text.clear();
    text.extend_from_slice(&out[before + 1..])?;
    out.truncate(before);
    put_number(out, size as u64)?;
    out.extend_from_slice(text)?;
    Ok(false)
}

/// Appends the custom section of producers, if there are producers.
pub(crate) fn append_producers(
    out: &mut Vec<u8>,
    content: &mut Vec<u8>,
    producers: Option<&[u8]>,
) -> Result<(), WriteFault>
    ensures { AppendsSection result out.old.items out.new.items
        (producers_section (option_map (λ b. b.now) producers.entry)) }
{
    let Some(bytes) = producers else {
        return Ok(());
    };
    content.clear();
    put_name(content, PRODUCERS)?;
    content.extend_from_slice(bytes)?;
    append_content(out, CUSTOM_ID, content)
}
