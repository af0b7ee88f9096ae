//! Sets of numbers as sorted ranges.

ghost use Rattle.std.specs.Prelude.{◌≡◌, ◌≤◌, ◌<◌, ◌+◌, ◌-◌, ◌++◌, ◌||◌, ℕ, IsTrue, nat_eq, false, length, filter, min, slice_index_or, IfOk, OnOk, OnErr};
ghost use Rattle.std.specs.List.{list_any, range_with_len};
ghost use Rattle.wc_gc.specs.Ranges.{AreRanges, in_ranges};
ghost use Rattle.wc_graph.specs.Growth.{Inserts};
ghost use Rattle.wc_gc.specs.Private.RangeSet.{IsCut, joined_at};

use crate::live::LiveSet;
use crate::merging::with_numbers;
use crate::ranks::{Ranks, first_of, last_of};
use std::alloc::{AllocError, Global};

/// A set of numbers as sorted ranges, each from its first number to its last, that neither overlap nor touch.
///
/// The ranges are contiguous in memory. `insert` takes constant time for a number above all others, so `n` numbers in
/// ascending order take time proportional to `n`. For any other number it searches, and moves the ranges after it by
/// one position, or back if two ranges become one. For `n` numbers that do not touch, these are `n * n / 2` moves of
/// eight bytes in descending order, and half as many in random order. `extend` adds many numbers in any order, by
/// sorting: its time grows as `n * log n`, where `n` counts ranges and new numbers together.
#[derive(Debug, Drop)]
pub struct RangeSet {
    ranges: Vec<(u32, u32)>,
    ghost sorted: { AreRanges ranges.items },
}

impl LiveSet for RangeSet {
    ghost has = { λ s. in_ranges s.ranges.items };

    fn new(alloc: Global) -> RangeSet {
        RangeSet {
            ranges: Vec::new(alloc),
        }
    }

    fn insert(&mut self, x: u32) -> Result<bool, AllocError> {
        if all_end_before(&self.ranges, x) {
            append_number(&mut self.ranges, x)?;
            return Ok(true);
        }
        let index = range_from(&self.ranges, x);
        if has_at(&self.ranges, index, x) {
            return Ok(false);
        }
        put_at(&mut self.ranges, index, x)?;
        Ok(true)
    }

    fn contains(&self, x: u32) -> bool {
        let index = range_near(&self.ranges, x);
        has_at(&self.ranges, index, x)
    }

    fn numbers_below(&self, alloc: Global, bound: u32) -> Result<Vec<u32>, AllocError> {
        numbers_in(alloc, &self.ranges, bound)
    }

    fn ranks(&self, alloc: Global) -> Result<Ranks, AllocError> {
        Ranks::of_ranges(alloc, &self.ranges)
    }
}

impl RangeSet {
    /// Puts numbers in, in any order, by one sort of them and of the ranges.
    ///
    /// # Errors
    ///
    /// `AllocError`: an allocation failed. The set is as before.
    pub fn extend(&mut self, numbers: &[u32]) -> Result<(), AllocError>
        ensures extends { OnOk result ((x : ℕ) → ⟦<RangeSet as LiveSet>⟧.has self.new x
            ≡ (⟦<RangeSet as LiveSet>⟧.has self.old x || list_any (nat_eq x) numbers.now)) }
        ensures err { OnErr result ((x : ℕ) → ⟦<RangeSet as LiveSet>⟧.has self.new x
            ≡ ⟦<RangeSet as LiveSet>⟧.has self.old x) }
    {
        let ranges = with_numbers(*self.ranges.allocator(), &self.ranges, numbers)?;
        self.ranges = ranges;
        Ok(())
    }

    /// The ranges, in their order.
    pub fn ranges(&self) -> &[(u32, u32)]
        ensures sorted { AreRanges result.now }
        ensures same { (x : ℕ) → in_ranges result.now x
            ≡ ⟦<RangeSet as LiveSet>⟧.has self.now x }
    {
        &self.ranges
    }
}

/// The index of the first range that does not end before a number; at once where all end before it.
pub(crate) fn range_near(ranges: &[(u32, u32)], x: u32) -> usize
    requires { AreRanges ranges.now }
    ensures cut { IsCut x ranges.now result }
    ensures within { result ≤ length ranges.now }
{
    if all_end_before(ranges, x) {
        ranges.len()
    } else {
        range_from(ranges, x)
    }
}

/// Whether all ranges end before a number.
#[inline(always)]
fn all_end_before(ranges: &[(u32, u32)], x: u32) -> bool
    requires { AreRanges ranges.now }
    ensures { IsTrue result → IsCut x ranges.now (length ranges.now) }
{
    let count = ranges.len();
    count == 0 || ranges[count - 1].1 < x
}

/// The index of the first range that does not end before a number.
pub(crate) fn range_from(ranges: &[(u32, u32)], x: u32) -> usize
    requires { AreRanges ranges.now }
    ensures cut { IsCut x ranges.now result }
    ensures within { result ≤ length ranges.now }
{
    let mut low: usize = 0;
    let mut high = ranges.len();
    while low < high {
        let middle = low + (high - low) / 2;
        if ranges[middle].1 < x {
            low = middle + 1;
        } else {
            high = middle;
        }
    }
    low
}

/// The numbers in ranges that are below a bound, in their order.
fn numbers_in(alloc: Global, ranges: &[(u32, u32)], bound: u32) -> Result<Vec<u32>, AllocError>
    requires { AreRanges ranges.now }
    ensures { IfOk result (λ v. v.items
        ≡ filter (in_ranges ranges.now) (range_with_len 0 bound)) }
{
    let mut numbers = Vec::new(alloc);
    for range in ranges {
        let end = end_below(last_of(range), bound);
        append_numbers(&mut numbers, first_of(range), end)?;
    }
    Ok(numbers)
}

/// One past a number, or a bound, if that is less.
fn end_below(last: u32, bound: u32) -> u32
    ensures { result ≡ min (last + 1) bound }
{
    if last < bound { last + 1 } else { bound }
}

/// Appends the numbers from one on that are before another.
#[inline(always)]
fn append_numbers(numbers: &mut Vec<u32>, first: u32, end: u32) -> Result<(), AllocError>
    ensures { OnOk result (numbers.new.items
        ≡ numbers.old.items ++ range_with_len first (end - first)) }
{
    for x in first..end {
        numbers.push(x)?;
    }
    Ok(())
}

/// Puts in a number that is past all ranges.
#[inline(always)]
fn append_number(ranges: &mut Vec<(u32, u32)>, x: u32) -> Result<(), AllocError>
    requires sorted { AreRanges ranges.old.items }
    requires cut { IsCut x ranges.old.items (length ranges.old.items) }
    ensures absent { in_ranges ranges.old.items x ≡ false }
    ensures sorted { OnOk result (AreRanges ranges.new.items) }
    ensures inserts { OnOk result
        (Inserts (in_ranges ranges.old.items) (in_ranges ranges.new.items) x) }
    ensures err { OnErr result (ranges.new.items ≡ ranges.old.items) }
{
    let count = ranges.len();
    if ends_before(ranges, count, x) {
        ranges[count - 1].1 = x;
        Ok(())
    } else {
        ranges.push((x, x))?;
        Ok(())
    }
}

/// Puts in a number that is in no range, before the ranges that end after it.
fn put_at(ranges: &mut Vec<(u32, u32)>, index: usize, x: u32) -> Result<(), AllocError>
    requires sorted { AreRanges ranges.old.items }
    requires cut { IsCut x ranges.old.items index }
    requires within { index ≤ length ranges.old.items }
    requires absent { in_ranges ranges.old.items x ≡ false }
    ensures sorted { OnOk result (AreRanges ranges.new.items) }
    ensures inserts { OnOk result
        (Inserts (in_ranges ranges.old.items) (in_ranges ranges.new.items) x) }
    ensures err { OnErr result (ranges.new.items ≡ ranges.old.items) }
{
    if ends_before(ranges, index, x) {
        if begins_after(ranges, index, x) {
            join(ranges, index);
            Ok(())
        } else {
            ranges[index - 1].1 = x;
            Ok(())
        }
    } else if begins_after(ranges, index, x) {
        ranges[index].0 = x;
        Ok(())
    } else {
        ranges.insert(index, (x, x))?;
        Ok(())
    }
}

/// Makes one range of the one at an index and the one before it.
fn join(ranges: &mut Vec<(u32, u32)>, index: usize)
    requires after { 0 < index }
    requires within { index < length ranges.old.items }
    ensures { ranges.new.items ≡ joined_at ranges.old.items index }
{
    ranges[index - 1].1 = ranges[index].1;
    ranges.remove(index);
}

/// Whether the range before an index ends just before a number.
fn ends_before(ranges: &[(u32, u32)], index: usize, x: u32) -> bool
    requires cut { IsCut x ranges.now index }
    requires within { index ≤ length ranges.now }
    ensures ends { IsTrue result → (d : ℕ × ℕ)
        → (0 < index) × ((slice_index_or ranges.now (index - 1) d).1 + 1 ≡ x) }
    ensures apart { result ≡ false → (d : ℕ × ℕ)
        → 0 < index → (slice_index_or ranges.now (index - 1) d).1 + 1 < x }
{
    index > 0 && ranges[index - 1].1 + 1 == x
}

/// Whether the range at an index begins just after a number.
fn begins_after(ranges: &[(u32, u32)], index: usize, x: u32) -> bool
    requires sorted { AreRanges ranges.now }
    requires cut { IsCut x ranges.now index }
    requires absent { in_ranges ranges.now x ≡ false }
    ensures begins { IsTrue result → (d : ℕ × ℕ)
        → (index < length ranges.now) × (x + 1 ≡ (slice_index_or ranges.now index d).0) }
    ensures apart { result ≡ false → (d : ℕ × ℕ)
        → index < length ranges.now → x + 1 < (slice_index_or ranges.now index d).0 }
{
    index < ranges.len() && ranges[index].0 - x == 1
}

/// Whether the first range that does not end before a number has it.
pub(crate) fn has_at(ranges: &[(u32, u32)], index: usize, x: u32) -> bool
    requires sorted { AreRanges ranges.now }
    requires cut { IsCut x ranges.now index }
    ensures { result ≡ in_ranges ranges.now x }
{
    match ranges.get(index) {
        Some(range) => range.0 <= x,
        None => false,
    }
}
