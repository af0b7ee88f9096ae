//! For rows of tests, the calls of the libraries on bytes, and the values that they take.
#![tactic(auto)]

mod built;
mod chain_calls;
mod command_calls;
mod dedupe_calls;
mod fault_calls;
mod gc_calls;
mod modules;
mod operators;
mod read_calls;
mod seed_calls;
mod segment_calls;
mod set_calls;
mod sink_calls;
mod write_calls;

use crate::chain_calls::answer_call_chain;
use crate::command_calls::answer_parse;
use crate::dedupe_calls::{answer_originals, put_deduped, put_reread};
use crate::fault_calls::{
    put_dedupe_faults, put_gc_faults, put_read_faults, put_wctrim_faults, put_write_faults,
};
use crate::gc_calls::{answer_growing, answer_liveness, answer_stack};
use crate::read_calls::{answer_forms, answer_names_at, answer_page_size, put_read};
use crate::seed_calls::answer_drawn;
use crate::segment_calls::put_segments_of;
use crate::set_calls::{answer_bit_vec, answer_range_set, answer_rank};
use crate::sink_calls::{answer_each_failing, answer_writer};
use crate::write_calls::{
    answer_appended_imports, answer_appended_section, answer_section, put_rewritten,
};
use std::alloc::Global;
use std::borrow::CowSlice;
use wc_dedupe::ModuleImportMap;
use wc_lines::input::{Stop, bytes_of, end_answer};
use wc_lines::lines::Lines;
use wc_lines::rows::Row;

/// Appends the answer of a row. False where its call is none of these.
pub fn answer(alloc: Global, row: &Row<'_>, out: &mut Lines) -> bool {
    let answered = answer_bytes(alloc, row, out);
    if end_answer(answered, out) {
        return true;
    }
    let answered = answer_others(alloc, row, out);
    end_answer(answered, out) || put_faults(alloc, row.call, out)
}

/// Appends the answer of a call on bytes, which are all of its input.
fn answer_bytes(alloc: Global, row: &Row<'_>, out: &mut Lines) -> Result<bool, Stop> {
    let call = row.call;
    match call {
        "frames"
        | "read_imports"
        | "read_init"
        | "read_module"
        | "read_body"
        | "refs"
        | "type_refs"
        | "count_operators" => put_read(alloc, call, &bytes_of(alloc, &row.input, out)?, out),
        "write_import_section"
        | "rewrite_import_section"
        | "write_body"
        | "write_bodies"
        | "write_module" => put_rewritten(alloc, call, &bytes_of(alloc, &row.input, out)?, out),
        "dedupe_imports" | "read_deduped" => {
            put_reread(alloc, call, &bytes_of(alloc, &row.input, out)?, out)
        }
        "dedupe_owned" => {
            let bytes = bytes_of(alloc, &row.input, out)?;
            put_deduped(ModuleImportMap::new(alloc, CowSlice::Owned(bytes)), out);
        }
        "segments" => put_segments_of(alloc, &bytes_of(alloc, &row.input, out)?, out),
        _ => return Ok(false),
    }
    Ok(true)
}

/// Appends the answer of a call that has arguments, or lines of input that are no bytes.
fn answer_others(alloc: Global, row: &Row<'_>, out: &mut Lines) -> Result<bool, Stop> {
    match row.call {
        "forms" => answer_forms(row, out),
        "page_size" => answer_page_size(row, out),
        "function_names_at" => answer_names_at(alloc, row, out)?,
        "append_import_section" => answer_appended_imports(alloc, row, out)?,
        "raw_section" => answer_section(alloc, row, out)?,
        "append_raw_section" => answer_appended_section(alloc, row, out)?,
        "original_names" => answer_originals(alloc, row, out)?,
        "liveness_counted" => answer_liveness(alloc, row, out)?,
        "realloc_via_memory_grow" => answer_growing(alloc, row, out)?,
        "allocate_stack_via_realloc" => answer_stack(alloc, row, out)?,
        "bit_vec" => answer_bit_vec(alloc, row, out)?,
        "range_set" => answer_range_set(alloc, row, out)?,
        "rank" => answer_rank(alloc, row, out)?,
        "drawn_seed" => answer_drawn(alloc, row, out)?,
        "call_chain" => answer_call_chain(alloc, row, out)?,
        "writer_sink" => answer_writer(alloc, row, out),
        "each_put_failing" => answer_each_failing(alloc, row, out)?,
        "parse" => answer_parse(alloc, row, out)?,
        _ => return Ok(false),
    }
    Ok(true)
}

/// Appends the answer of a call for the texts of faults. False where a row has another call.
fn put_faults(alloc: Global, call: &str, out: &mut Lines) -> bool {
    match call {
        "read_faults" => put_read_faults(alloc, out),
        "write_faults" => put_write_faults(alloc, out),
        "dedupe_faults" => put_dedupe_faults(alloc, out),
        "gc_faults" => put_gc_faults(alloc, out),
        "command_faults" => put_wctrim_faults(alloc, out),
        _ => return false,
    }
    true
}
