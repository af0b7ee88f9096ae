//! Ranges in any order as sorted ranges.

ghost use Rattle.std.specs.Prelude.{◌≡◌, ◌≤◌, ◌<◌, ◌+◌, ◌-◌, ℕ, ◌||◌, IsTrue, false, nat_eq, length, slice_index_or, ◌↔◌, IfOk, OnOk};
ghost use Rattle.std.specs.List.{list_any};
ghost use Rattle.wc_gc.specs.Ranges.{AreRanges, in_ranges, is_within};
ghost use Rattle.wc_gc.specs.Private.Merging.{AreFilled, BeginBy, BeginInOrder, lengthened};

use crate::ranks::{first_of, last_of};
use std::alloc::{AllocError, Global};

/// The numbers that are in ranges or in a list, as sorted ranges.
pub fn with_numbers(
    alloc: Global,
    ranges: &[(u32, u32)],
    numbers: &[u32],
) -> Result<Vec<(u32, u32)>, AllocError>
    requires { AreFilled ranges.now }
    ensures sorted { IfOk result (λ v. AreRanges v.items) }
    ensures has { IfOk result (λ v. (y : ℕ) → in_ranges v.items y
        ≡ (in_ranges ranges.now y || list_any (nat_eq y) numbers.now)) }
{
    let mut pieces = pieces_of(alloc, ranges, numbers)?;
    pieces.sort_unstable_by_key(|piece| piece.0);
    let merged = merge(alloc, &pieces)?;
    Ok(merged)
}

/// Ranges, and each number of a list as a range of its own.
fn pieces_of(
    alloc: Global,
    ranges: &[(u32, u32)],
    numbers: &[u32],
) -> Result<Vec<(u32, u32)>, AllocError>
    requires { AreFilled ranges.now }
    ensures filled { IfOk result (λ v. AreFilled v.items) }
    ensures has { IfOk result (λ v. (y : ℕ) → in_ranges v.items y
        ≡ (in_ranges ranges.now y || list_any (nat_eq y) numbers.now)) }
{
    let mut pieces = Vec::from_slice(alloc, ranges)?;
    for number in numbers {
        pieces.push((*number, *number))?;
    }
    Ok(pieces)
}

/// The numbers of ranges that begin in order, as ranges that neither overlap nor touch.
fn merge(alloc: Global, pieces: &[(u32, u32)]) -> Result<Vec<(u32, u32)>, AllocError>
    requires filled { AreFilled pieces.now }
    requires ordered { BeginInOrder pieces.now }
    ensures sorted { IfOk result (λ v. AreRanges v.items) }
    ensures has { IfOk result (λ v. (y : ℕ) → in_ranges v.items y ≡ in_ranges pieces.now y) }
{
    let mut merged = Vec::new(alloc);
    for piece in pieces {
        append_range(&mut merged, first_of(piece), last_of(piece))?;
    }
    Ok(merged)
}

/// Appends a range, as one with the last if they overlap or touch.
fn append_range(merged: &mut Vec<(u32, u32)>, first: u32, last: u32) -> Result<(), AllocError>
    requires sorted { AreRanges merged.old.items }
    requires filled { first ≤ last }
    requires begun { BeginBy first merged.old.items }
    ensures sorted { OnOk result (AreRanges merged.new.items) }
    ensures begun { OnOk result (BeginBy first merged.new.items) }
    ensures has { OnOk result ((y : ℕ) → in_ranges merged.new.items y
        ≡ (in_ranges merged.old.items y || is_within y (first, last))) }
{
    if reaches(merged, first) {
        lengthen_last(merged, last);
        Ok(())
    } else {
        merged.push((first, last))?;
        Ok(())
    }
}

/// Whether the last range has a number or ends just before it.
fn reaches(ranges: &[(u32, u32)], number: u32) -> bool
    ensures reaches { IsTrue result → (d : ℕ × ℕ) → (0 < length ranges.now)
        × (number ≤ (slice_index_or ranges.now (length ranges.now - 1) d).1 + 1) }
    ensures apart { result ≡ false → (d : ℕ × ℕ) → 0 < length ranges.now
        → (slice_index_or ranges.now (length ranges.now - 1) d).1 + 1 < number }
{
    let count = ranges.len();
    count > 0 && touches(ranges[count - 1].1, number)
}

/// Whether a number is at most one past another.
fn touches(last: u32, number: u32) -> bool
    ensures { IsTrue result ↔ (number ≤ last + 1) }
{
    number <= last || number - last == 1
}

/// Lengthens the last range to a number, if it ends before.
fn lengthen_last(ranges: &mut Vec<(u32, u32)>, last: u32)
    requires { 0 < length ranges.old.items }
    ensures { ranges.new.items ≡ lengthened ranges.old.items last }
{
    let index = ranges.len() - 1;
    if ranges[index].1 < last {
        ranges[index].1 = last;
    }
}
