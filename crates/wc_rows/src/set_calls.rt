//! Calls on sets of numbers.

use std::alloc::Global;
use wc_gc::{BitVec, LiveSet, RangeSet, Ranks};
use wc_lines::input::{Stop, bad_row, number_of};
use wc_lines::lines::Lines;
use wc_lines::rows::Row;

/// `bit_vec`, with lines `insert NUMBER`, `contains NUMBER` and `below NUMBER`: a line for what each answers.
pub(crate) fn answer_bit_vec(alloc: Global, row: &Row<'_>, out: &mut Lines) -> Result<(), Stop> {
    let mut set = BitVec::new(alloc);
    for line in &row.input {
        put_step(alloc, &mut set, line, out)?;
    }
    Ok(())
}

/// `range_set`, with the same lines and `extend [NUMBER..]`: what each answers, and then the ranges.
pub(crate) fn answer_range_set(alloc: Global, row: &Row<'_>, out: &mut Lines) -> Result<(), Stop> {
    let mut set = RangeSet::new(alloc);
    for line in &row.input {
        let (step, numbers) = line.split_once(' ').unwrap_or((line, ""));
        if step == "extend" {
            put_extended(alloc, &mut set, numbers, out)?;
        } else {
            put_step(alloc, &mut set, line, out)?;
        }
    }
    put_ranges(set.ranges(), out);
    Ok(())
}

/// Puts numbers into a set at once, and answers `ok`.
fn put_extended(
    alloc: Global,
    set: &mut RangeSet,
    numbers: &str,
    out: &mut Lines,
) -> Result<(), Stop> {
    let mut listed = Vec::new(alloc);
    for word in numbers.split_whitespace() {
        listed.push(number_of(out, "no number", word)?)?;
    }
    set.extend(&listed)?;
    out.push_str("ok\n");
    Ok(())
}

fn put_ranges(ranges: &[(u32, u32)], out: &mut Lines) {
    out.push_str("ranges");
    for (first, last) in ranges {
        out.number(" (", *first as u64);
        out.number(", ", *last as u64);
        out.push_str(")");
    }
    out.end();
}

/// Answers `insert N`, `contains N` or `below N`.
fn put_step<L: LiveSet>(
    alloc: Global,
    set: &mut L,
    line: &str,
    out: &mut Lines,
) -> Result<(), Stop> {
    let (word, number) = line.split_once(' ').unwrap_or((line, ""));
    let Ok(number) = number.parse::<u32>() else {
        return Err(bad_row(out, "no step of a set", line));
    };
    if word == "insert" {
        put_flag(set.insert(number)?, out);
    } else if word == "contains" {
        put_flag(set.contains(number), out);
    } else if word == "below" {
        put_numbers(&set.numbers_below(alloc, number)?, out);
    } else {
        return Err(bad_row(out, "no step of a set", word));
    }
    Ok(())
}

fn put_numbers(numbers: &[u32], out: &mut Lines) {
    out.push_str("numbers");
    for number in numbers {
        out.number(" ", *number as u64);
    }
    out.end();
}

/// `true` or `false`, on a line.
fn put_flag(is_set: bool, out: &mut Lines) {
    out.flag("", is_set);
    out.end();
}

/// `rank SET NUMBER..`, with lines of numbers, which are put into a set: the rank of each argument in it, and the
/// probes. SET is `bits` or `ranges`.
pub(crate) fn answer_rank(alloc: Global, row: &Row<'_>, out: &mut Lines) -> Result<(), Stop> {
    match row.argument(0) {
        "bits" => put_ranks::<BitVec>(alloc, row, out),
        "ranges" => put_ranks::<RangeSet>(alloc, row, out),
        _ => Err(bad_row(out, "no kind of set", row.argument(0))),
    }
}

fn put_ranks<L: LiveSet>(alloc: Global, row: &Row<'_>, out: &mut Lines) -> Result<(), Stop> {
    let ranks = ranks_of::<L>(alloc, &row.input, out)?;
    for word in row.arguments.iter().skip(1) {
        let number = number_of(out, "no number", word)?;
        let (rank, probes) = ranks.rank_counted(number);
        out.number("", rank as u64);
        out.number_line(" by ", probes as u64);
    }
    Ok(())
}

/// Inserts the numbers of these lines into a new set, and ranks them.
fn ranks_of<L: LiveSet>(alloc: Global, lines: &[&str], out: &mut Lines) -> Result<Ranks, Stop> {
    let mut set = L::new(alloc);
    for line in lines {
        set.insert(number_of(out, "no number", line)?)?;
    }
    let ranks = set.ranks(alloc)?;
    Ok(ranks)
}
