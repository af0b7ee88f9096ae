//! A row's answer, from the library whose call it names.

use crate::encoder_calls::{put_item_copy, put_of_encoder, put_which_copy};
use crate::encoders::{Asked, encoder_of};
use crate::examples::answer_example;
use crate::fault_lists::{put_json_faults, put_request_faults, put_selection_faults};
use crate::module_calls::{put_adapter, put_main, put_validate_faults};
use crate::parse_calls::put_parsed;
use crate::plan_calls::{put_plan_faults, put_planned};
use crate::world_calls::{put_options, put_world, put_world_faults};
use std::alloc::Global;
use wc_encoder::EncoderFault;
use wc_fixtures::read::asked_of;
use wc_lines::input::{Stop, bad_row, end_answer};
use wc_lines::lines::Lines;
use wc_lines::rows::{Flaw, Paragraph, Row};
use wc_lines::values::put_fault_texts;

/// Appends the lines of a row's answer.
pub(crate) fn answer(alloc: Global, paragraph: &Paragraph<'_>, out: &mut Lines) {
    match paragraph.flaw {
        Some(Flaw::Line(line)) => {
            let _ = bad_row(out, "no line of a row", line);
        }
        Some(Flaw::Fixture(name)) => {
            let _ = bad_row(out, "no fixture", name);
        }
        None => answer_row(alloc, &paragraph.row, out),
    }
}

fn answer_row(alloc: Global, row: &Row<'_>, out: &mut Lines) {
    if wc_rows::answer(alloc, row, out) || wc_fixtures::answer(alloc, row, out) {
        return;
    }
    let answered = answer_here(alloc, row, out);
    if !end_answer(answered, out) {
        let _ = bad_row(out, "no call", row.call);
    }
}

/// Appends the answer of a call on encoders, modules, worlds and plans, or of one on none of these.
fn answer_here(alloc: Global, row: &Row<'_>, out: &mut Lines) -> Result<bool, Stop> {
    match row.call {
        "example" => answer_example(alloc, row, out)?,
        "parse_wcplan" => put_parsed(alloc, &row.input, out)?,
        "encoder_build" | "encoder" | "encoder_adapters" | "encoder_world" => {
            put_of_encoder(row.call, &encoder_of(alloc, row, out)?, out)?;
        }
        "item_clone" => put_item_copy(alloc, &asked_of(alloc, row, out)?, out)?,
        "which_clone" => put_which_copy(alloc, &asked_of(alloc, row, out)?, out)?,
        "validate_module" | "asked_exports" => {
            put_main(alloc, &encoder_of(alloc, row, out)?, &Asked { row }, out);
        }
        "validate_adapter_module" => put_adapter(alloc, &encoder_of(alloc, row, out)?, row, out)?,
        "component_world" => put_world(alloc, row, out)?,
        "plain_options" | "export_options" => put_options(alloc, row, out)?,
        "plan_failing" | "plan_without_lowerings" => put_planned(alloc, row, out)?,
        _ => return put_faults(alloc, row.call, out),
    }
    Ok(true)
}

/// Appends the answer of a call for the texts of faults, in the order of their enum. False if a row has another call.
fn put_faults(alloc: Global, call: &str, out: &mut Lines) -> Result<bool, Stop> {
    match call {
        "json_faults" => put_json_faults(alloc, out)?,
        "request_faults" => put_request_faults(alloc, out),
        "selection_faults" => put_selection_faults(alloc, out),
        "encoder_faults" => put_fault_texts(alloc, &EncoderFault::ALL, out),
        "validate_faults" => put_validate_faults(alloc, out),
        "world_faults" => put_world_faults(alloc, out)?,
        "plan_faults" => put_plan_faults(alloc, out)?,
        _ => return Ok(false),
    }
    Ok(true)
}

/// Whether the lines of an answer are the lines that a row wants. If memory may fail, an answer may stop at a line
/// that says so.
pub(crate) fn is_wanted(row: &Row<'_>, answer: &str, may_fail: bool) -> bool {
    let mut lines = answer.lines();
    for wanted in &row.answer {
        match lines.next() {
            Some(line) if line == *wanted => {}
            Some(line) => return may_fail && lacks_memory(line),
            None => return false,
        }
    }
    match lines.next() {
        Some(line) => may_fail && lacks_memory(line),
        None => true,
    }
}

/// Whether a line says that memory ran out.
fn lacks_memory(line: &str) -> bool {
    line.ends_with("out of memory")
}
