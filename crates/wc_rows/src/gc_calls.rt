//! Calls of `wc_gc`.

ghost use Rattle.std.specs.Prelude.{◌≤◌, IfOk};

use std::alloc::Global;
use wc_gc::{
    LiveSet, Liveness, RangeSet, allocate_stack_via_realloc, liveness_counted,
    realloc_via_memory_grow,
};
use wc_lines::input::{Stop, bad_row, bytes_of, number_of};
use wc_lines::lines::Lines;
use wc_lines::names::names_from;
use wc_lines::rows::Row;
use wc_lines::values::{put_bytes_lines, put_fault};

/// `liveness_counted NAME..`: what the exports of these names reach.
pub(crate) fn answer_liveness(alloc: Global, row: &Row<'_>, out: &mut Lines) -> Result<(), Stop> {
    let bytes = bytes_of(alloc, &row.input, out)?;
    let names = names_from(alloc, row, 0)?;
    match liveness_counted(alloc, &bytes, &names) {
        Ok(found) => put_liveness(&found, out),
        Err(fault) => put_fault(out, fault),
    }
    Ok(())
}

/// The exponent of a page size that a word is, 16 at most.
fn exponent_of(word: &str, out: &mut Lines) -> Result<u32, Stop>
    ensures { IfOk result (λ page_size_log2. page_size_log2 ≤ 16) }
{
    let page_size_log2 = number_of(out, "no exponent", word)?;
    if page_size_log2 > 16 {
        return Err(bad_row(out, "no exponent", word));
    }
    Ok(page_size_log2)
}

/// The live items below this index are shown.
const SHOWN: u32 = 256;

fn put_liveness(found: &Liveness<RangeSet>, out: &mut Lines) {
    put_set("types", &found.live.types, out);
    put_set("functions", &found.live.funcs, out);
    put_set("tables", &found.live.tables, out);
    put_set("memories", &found.live.memories, out);
    put_set("globals", &found.live.globals, out);
    out.number_line("turns ", found.turns);
}

/// A line for a set that has something: its numbers.
fn put_set(name: &str, set: &RangeSet, out: &mut Lines) {
    let mut is_empty = true;
    for number in 0..SHOWN {
        if set.contains(number) {
            if is_empty {
                out.push_str(name);
            }
            is_empty = false;
            out.number(" ", number as u64);
        }
    }
    if !is_empty {
        out.end();
    }
}

/// `realloc_via_memory_grow EXPONENT`: the body of the realloc that grows a memory with pages of 2^EXPONENT bytes.
pub(crate) fn answer_growing(alloc: Global, row: &Row<'_>, out: &mut Lines) -> Result<(), Stop> {
    let page_size_log2 = exponent_of(row.argument(0), out)?;
    let code = realloc_via_memory_grow(alloc, page_size_log2)?;
    put_bytes_lines(out, "bytes", &code);
    Ok(())
}

/// `allocate_stack_via_realloc REALLOC STACK-POINTER [STATE]`: the body that allocates a stack.
pub(crate) fn answer_stack(alloc: Global, row: &Row<'_>, out: &mut Lines) -> Result<(), Stop> {
    let realloc = number_of(out, "no index", row.argument(0))?;
    let sp = number_of(out, "no index", row.argument(1))?;
    let state = state_of(row, out)?;
    let code = allocate_stack_via_realloc(alloc, realloc, sp, state)?;
    put_bytes_lines(out, "bytes", &code);
    Ok(())
}

/// The index of the global that has the state, where the row has one.
fn state_of(row: &Row<'_>, out: &mut Lines) -> Result<Option<u32>, Stop> {
    if row.arguments.len() < 3 {
        return Ok(None);
    }
    Ok(Some(number_of(out, "no index", row.argument(2))?))
}
