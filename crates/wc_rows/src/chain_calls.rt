//! The call on modules that have long chains of calls.

use std::alloc::{AllocError, Global};
use wc_gc::{LiveSet, Liveness, RangeSet, liveness_counted, why};
use wc_lines::input::{Stop, number_of};
use wc_lines::lines::Lines;
use wc_lines::rows::Row;
use wc_lines::seeds::row_seed;
use wc_lines::values::put_fault;
use wc_maps::Set;
use wc_read::Space;

/// `call_chain COUNT`: of COUNT functions, each of which calls the next, how many are live, and the turns; and the
/// length of the chain to the last one. The first is exported, and the last is empty.
pub(crate) fn answer_call_chain(alloc: Global, row: &Row<'_>, out: &mut Lines) -> Result<(), Stop> {
    let count = number_of(out, "no count", row.argument(0))?;
    let bytes = chain_of(alloc, count)?;
    let names = first_name(alloc)?;
    match liveness_counted(alloc, &bytes, &names) {
        Ok(found) => {
            put_count(&found, count, out);
            put_longest(alloc, &bytes, &names, count, out);
        }
        Err(fault) => put_fault(out, fault),
    }
    Ok(())
}

fn first_name(alloc: Global) -> Result<Set<String>, AllocError> {
    let mut names = Set::with_hasher(alloc, row_seed());
    let name = String::from_str(alloc, "a")?;
    names.insert(name)?;
    Ok(names)
}

/// How many items the chain to the last function has.
fn put_longest(alloc: Global, bytes: &[u8], names: &Set<String>, count: u32, out: &mut Lines) {
    match why(alloc, bytes, names, (Space::Funcs, count.saturating_sub(1))) {
        Ok(Some(chain)) => out.number_line("chain of ", chain.items.len() as u64),
        Ok(None) => out.push_str("no chain\n"),
        Err(fault) => put_fault(out, fault),
    }
}

fn put_count(found: &Liveness<RangeSet>, count: u32, out: &mut Lines) {
    let mut live = 0u32;
    for index in 0..count {
        if found.live.funcs.contains(index) {
            live = live.saturating_add(1);
        }
    }
    out.number("", live as u64);
    out.number(" functions, ", found.turns);
    out.push_str(" turns\n");
}

/// A module of a number of functions, each of which calls the next; the first is exported as `a`, and the last is
/// empty.
fn chain_of(alloc: Global, count: u32) -> Result<Vec<u8>, AllocError> {
    let mut out = Vec::new(alloc);
    out.extend_from_slice(b"\0asm\x01\0\0\0\x01\x04\x01\x60\0\0")?;
    put_section(&mut out, 3, &types_of(alloc, count)?)?;
    put_section(&mut out, 7, b"\x01\x01a\0\0")?;
    put_section(&mut out, 10, &bodies_of(alloc, count)?)?;
    Ok(out)
}

/// A count of functions, and for each the type 0.
fn types_of(alloc: Global, count: u32) -> Result<Vec<u8>, AllocError> {
    let mut out = Vec::new(alloc);
    put_number(&mut out, count as u64)?;
    for _ in 0..count {
        out.push(0)?;
    }
    Ok(out)
}

/// The content of a code section: each function but the last calls the next one.
fn bodies_of(alloc: Global, count: u32) -> Result<Vec<u8>, AllocError> {
    let mut out = Vec::new(alloc);
    put_number(&mut out, count as u64)?;
    for index in 1..count {
        out.extend_from_slice(b"\x08\0\x10")?;
        put_number(&mut out, index as u64)?;
        out.push(0x0b)?;
    }
    if count != 0 {
        out.extend_from_slice(b"\x02\0\x0b")?;
    }
    Ok(out)
}

fn put_section(out: &mut Vec<u8>, id: u8, content: &[u8]) -> Result<(), AllocError> {
    out.push(id)?;
    put_number(out, content.len() as u64)?;
    out.extend_from_slice(content)
}

/// Appends a number below 2^35 as five bytes of LEB128.
fn put_number(out: &mut Vec<u8>, number: u64) -> Result<(), AllocError> {
    let mut rest = number;
    for _ in 0..4 {
        out.push((rest % 128) as u8 | 0x80)?;
        rest /= 128;
    }
    out.push((rest % 128) as u8)?;
    Ok(())
}
