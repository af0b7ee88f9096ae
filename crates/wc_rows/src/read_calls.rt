//! Calls of `wc_read`.

use crate::modules::{put_frames, put_module, put_names};
use crate::operators::{put_body, put_form, put_opcode, put_operators, put_refs, put_type_refs};
use std::alloc::Global;
use wc_lines::input::{Stop, bad_row, bytes_of, number_of};
use wc_lines::lines::Lines;
use wc_lines::rows::Row;
use wc_lines::table::named;
use wc_lines::values::{put_fault, put_imports};
use wc_read::{
    Body, Form, MemoryType, Opcode, form_of, frames, function_names_at, read_body, read_imports,
    read_init, read_module, refs, type_refs,
};

/// Reads bytes as the value that the call names, and answers a line for each of its items; or the fault.
pub(crate) fn put_read(alloc: Global, call: &str, bytes: &[u8], out: &mut Lines) {
    match call {
        "frames" => match frames(alloc, bytes) {
            Ok(found) => put_frames(out, &found),
            Err(fault) => put_fault(out, fault),
        },
        "read_imports" => match read_imports(alloc, bytes) {
            Ok(imports) => put_imports(out, &imports),
            Err(fault) => put_fault(out, fault),
        },
        "read_init" => match read_init(alloc, bytes) {
            Ok(init) => put_operators(out, &init.operators),
            Err(fault) => put_fault(out, fault),
        },
        "read_module" => match read_module(alloc, bytes) {
            Ok(module) => put_module(out, &module),
            Err(fault) => put_fault(out, fault),
        },
        _ => match read_body(alloc, bytes) {
            Ok(body) => put_of_body(call, &body, out),
            Err(fault) => put_fault(out, fault),
        },
    }
}

/// `function_names_at INDEX..`: a line for each of these functions that has a name.
pub(crate) fn answer_names_at(alloc: Global, row: &Row<'_>, out: &mut Lines) -> Result<(), Stop> {
    let bytes = bytes_of(alloc, &row.input, out)?;
    let mut wanted = Vec::new(alloc);
    for word in &row.arguments {
        wanted.push(number_of(out, "no index", word)?)?;
    }
    match function_names_at(alloc, &bytes, &wanted) {
        Ok(names) => put_names(out, "name of func ", &names),
        Err(fault) => put_fault(out, fault),
    }
    Ok(())
}

/// `refs`: the items that a body's first operator refers to; `type_refs`: the types that it lists; `count_operators`:
/// the number of operators in a body, and the number of its runs of locals; `read_body`: a line for each.
fn put_of_body(call: &str, body: &Body<'_>, out: &mut Lines) {
    if call == "refs" {
        if let Some(operator) = body.operators.first() {
            put_refs(out, &refs(operator));
        }
    } else if call == "type_refs" {
        if let Some(operator) = body.operators.first() {
            put_type_refs(out, type_refs(operator));
        }
    } else if call == "count_operators" {
        out.number("", body.locals.len() as u64);
        out.number(" runs of locals, ", body.operators.len() as u64);
        out.push_str(" operators\n");
    } else {
        put_body(out, body);
    }
}

/// The families of codes.
#[derive(Clone, Copy)]
enum Family {
    Byte,
    Misc,
    Vector,
    Atomic,
}

const FAMILIES: [(&str, Family); 4] = [
    ("byte", Family::Byte),
    ("fc", Family::Misc),
    ("fd", Family::Vector),
    ("fe", Family::Atomic),
];

fn opcode_of(family: Family, code: u32) -> Opcode {
    match family {
        Family::Misc => Opcode::Misc(code),
        Family::Vector => Opcode::Vector(code),
        Family::Atomic => Opcode::Atomic(code),
        Family::Byte => Opcode::Byte((code & 0xff) as u8),
    }
}

/// The codes below 512 in a family that are operators, in runs of one form; for `forms byte`, codes of one byte.
pub(crate) fn answer_forms(row: &Row<'_>, out: &mut Lines) {
    match named(&FAMILIES, row.argument(0)) {
        Some(Family::Byte) => put_runs(Family::Byte, 0x100, out),
        Some(family) => put_runs(family, 0x200, out),
        None => {
            let _ = bad_row(out, "no prefix", row.argument(0));
        }
    }
}

fn put_runs(family: Family, codes: u32, out: &mut Lines) {
    let mut first = 0;
    let mut form = form_of(opcode_of(family, 0));
    for code in 1..=codes {
        let next = if code < codes {
            form_of(opcode_of(family, code))
        } else {
            None
        };
        if next != form {
            put_forms(
                out,
                opcode_of(family, first),
                opcode_of(family, code - 1),
                form,
            );
            first = code;
            form = next;
        }
    }
}

/// A line for a run of codes, if they are codes of operators.
fn put_forms(out: &mut Lines, first: Opcode, last: Opcode, form: Option<Form>) {
    let Some(form) = form else {
        return;
    };
    put_opcode(out, first);
    if last != first {
        out.push_str(" to ");
        put_opcode(out, last);
    }
    out.push_str(" ");
    put_form(out, form);
    out.end();
}

/// The bytes in a page of the exponent that is the argument, or of none.
pub(crate) fn answer_page_size(row: &Row<'_>, out: &mut Lines) {
    let page_size_log2 = row.argument(0).parse::<u32>().ok();
    if page_size_log2.is_none() && !row.arguments.is_empty() {
        let _ = bad_row(out, "no exponent", row.argument(0));
        return;
    }
    let ty = MemoryType {
        memory64: false,
        shared: false,
        initial: 1,
        maximum: None,
        page_size_log2: page_size_log2,
    };
    out.number_line("", ty.page_size());
}
