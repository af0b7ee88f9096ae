//! Calls of `wc_write`, and of it with `wc_read`: what is read is written.

use crate::built::built_of;
use std::alloc::Global;
use wc_lines::input::{Stop, bad_row, bytes_of};
use wc_lines::lines::Lines;
use wc_lines::rows::Row;
use wc_lines::values::{put_bytes_lines, put_fault};
use wc_read::{Def, Func, read_body, read_imports, read_module};
use wc_write::{
    WriteFault, append_import_section, append_raw_section, raw_section, write_body,
    write_import_section, write_module,
};

/// The bytes that were written, or why there are none.
fn put_written(out: &mut Lines, written: &Result<Vec<u8>, WriteFault>) {
    match written {
        Ok(bytes) => put_bytes_lines(out, "bytes", bytes),
        Err(fault) => put_fault(out, *fault),
    }
}

/// The bytes after a call that appends, with its fault before them, if it has one.
fn put_appended(out: &mut Lines, appended: Result<(), WriteFault>, bytes: &[u8]) {
    if let Err(fault) = appended {
        put_fault(out, fault);
    }
    put_bytes_lines(out, "bytes", bytes);
}

/// Appends, to the bytes that the arguments are, the section of imports that are read out of a section's content.
pub(crate) fn answer_appended_imports(
    alloc: Global,
    row: &Row<'_>,
    out: &mut Lines,
) -> Result<(), Stop> {
    let mut bytes = bytes_of(alloc, &row.arguments, out)?;
    let content = bytes_of(alloc, &row.input, out)?;
    match read_imports(alloc, &content) {
        Ok(imports) => {
            let appended = append_import_section(&mut bytes, &imports);
            put_appended(out, appended, &bytes);
        }
        Err(fault) => put_fault(out, fault),
    }
    Ok(())
}

/// The id that the first argument is.
fn section_id(row: &Row<'_>, out: &mut Lines) -> Result<u8, Stop> {
    let first = row.argument(0);
    match first.parse::<u8>() {
        Ok(id) => Ok(id),
        Err(_) => Err(bad_row(out, "no id", first)),
    }
}

pub(crate) fn answer_section(alloc: Global, row: &Row<'_>, out: &mut Lines) -> Result<(), Stop> {
    let id = section_id(row, out)?;
    let content = bytes_of(alloc, &row.input, out)?;
    put_written(out, &raw_section(alloc, id, &content));
    Ok(())
}

/// Appends to the bytes that the arguments after the id are.
pub(crate) fn answer_appended_section(
    alloc: Global,
    row: &Row<'_>,
    out: &mut Lines,
) -> Result<(), Stop> {
    let id = section_id(row, out)?;
    let before = row.arguments.get(1..).unwrap_or(&[]);
    let mut bytes = bytes_of(alloc, before, out)?;
    let content = bytes_of(alloc, &row.input, out)?;
    let appended = append_raw_section(&mut bytes, id, &content);
    put_appended(out, appended, &bytes);
    Ok(())
}

/// Reads a body, and answers with what is written of it.
fn put_body_text(alloc: Global, bytes: &[u8], out: &mut Lines) {
    match read_body(alloc, bytes) {
        Ok(body) => put_written(out, &write_body(alloc, &body)),
        Err(fault) => put_fault(out, fault),
    }
}

fn put_body_texts(alloc: Global, funcs: &[Func<'_>], out: &mut Lines) {
    for func in funcs {
        if let Def::Local(body) = func.def {
            put_body_text(alloc, body, out);
        }
    }
}

/// Reads bytes as what the call names, and answers with what is written of it; or the fault.
pub(crate) fn put_rewritten(alloc: Global, call: &str, bytes: &[u8], out: &mut Lines) {
    match call {
        "write_body" => put_body_text(alloc, bytes, out),
        "write_bodies" => match read_module(alloc, bytes) {
            Ok(module) => put_body_texts(alloc, &module.funcs, out),
            Err(fault) => put_fault(out, fault),
        },
        "write_module" => match built_of(alloc, bytes) {
            Ok(built) => put_written(out, &write_module(alloc, &built)),
            Err(fault) => put_fault(out, fault),
        },
        _ => match read_imports(alloc, bytes) {
            Ok(imports) => put_written(out, &write_import_section(alloc, &imports)),
            Err(fault) => put_fault(out, fault),
        },
    }
}
