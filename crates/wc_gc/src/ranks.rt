//! Ranks of numbers in a set: how many of its numbers are below one.

ghost use Rattle.std.specs.Prelude.{◌≡◌, ◌≤◌, ◌<◌, ◌+◌, ◌-◌, ◌*◌, ◌/◌, ◌^◌, ℕ, All, None, false, true, length, slice_index, slice_index_or, IsSome, IsTrue, IfOk, IfSome, OnOk};
ghost use Rattle.wc_gc.specs.Ranges.{AreRanges, in_ranges};
ghost use Rattle.wc_gc.specs.Counts.{count_below};
ghost use Rattle.wc_gc.specs.Private.RangeSet.{AreStarts, IsCut};

use crate::range_set::{has_at, range_near};
use std::alloc::{AllocError, Global};

/// How many ranges are tried for a number, from its block on, before all are searched.
const NEAR: usize = 9;

/// How many numbers a block has at least. No more than eight ranges end in one that has no more.
const BLOCK: usize = 16;

/// A set of numbers that is not changed any more, as sorted ranges, and how many of its numbers are before each range.
#[derive(Debug, Drop)]
pub struct Ranks {
    ranges: Vec<(u32, u32)>,
    before: Vec<u32>,
    total: u64,
    /// For each block of numbers the index of the first range that ends in it or later: where a number may be.
    starts: Vec<usize>,
    /// How many numbers a block has.
    block: usize,
    ghost sorted: { AreRanges ranges.items },
    ghost long: { length before.items ≡ length ranges.items },
    ghost each: { (i : ℕ) → i < length ranges.items → slice_index before.items i
        ≡ count_below (in_ranges ranges.items) (slice_index_or ranges.items i (0, 0)).0 },
    ghost whole: { (x : ℕ) → All (λ r. r.1 < x) ranges.items
        → total ≡ count_below (in_ranges ranges.items) x },
    ghost filled: { 0 < block },
    ghost begins: { AreStarts block ranges.items starts.items },
}

impl Ranks {
    ghost use Rattle.wc_gc.specs.Ranks.{has_number, rank_of};

    /// The ranks of the numbers in these ranges.
    pub(crate) fn of_ranges(alloc: Global, ranges: &[(u32, u32)]) -> Result<Ranks, AllocError>
        requires { AreRanges ranges.now }
        ensures { IfOk result (λ r. r.ranges.items ≡ ranges.now) }
    {
        let mut before = Vec::with_capacity(alloc, ranges.len())?;
        let mut total: u64 = 0;
        for range in ranges {
            let first = first_of(range);
            before.push(total as u32)?;
            total += u64::from(last_of(range) - first) + 1;
        }
        let block = block_of(ranges);
        let starts = starts_of(alloc, ranges, block)?;
        let ranges = Vec::from_slice(alloc, ranges)?;
        Ok(Ranks {
            ranges,
            before,
            total,
            starts,
            block,
        })
    }

    /// The ranges of the set.
    pub(crate) fn ranges(&self) -> &[(u32, u32)]
        ensures sorted { AreRanges result.now }
        ensures same { result.now ≡ self.now.ranges.items }
    {
        &self.ranges
    }

    /// Whether a number is in the set.
    pub fn contains(&self, x: u32) -> bool
        ensures { result ≡ has_number self.now x }
    {
        has_at(&self.ranges, range_near(&self.ranges, x), x)
    }

    /// How many numbers of the set are less than `x`. The search tries at most ten ranges, from the block of `x` on.
    /// If `x` is in none of them, it searches all ranges, as `rank_counted` does.
    pub fn rank(&self, x: u32) -> u32
        ensures { result ≡ rank_of self.now x }
    {
        self.rank_near(x).0
    }

    /// The rank of a number, if it is in the set. It is looked for as by `rank`.
    pub fn rank_if(&self, x: u32) -> Option<u32>
        ensures some { IfSome result (λ rank. (has_number self.now x ≡ true)
            × (rank ≡ rank_of self.now x)) }
        ensures none { result ≡ None → has_number self.now x ≡ false }
    {
        let (index, _) = self.position(self.start(x), x);
        match self.rank_at(index, x) {
            Some(rank) => Some(rank),
            None => self.searched_rank(x),
        }
    }

    /// The rank of a number, if it is in the set, by a search of all ranges.
    #[inline(never)]
    fn searched_rank(&self, x: u32) -> Option<u32>
        ensures some { IfSome result (λ rank. (has_number self.now x ≡ true)
            × (rank ≡ rank_of self.now x)) }
        ensures none { result ≡ None → has_number self.now x ≡ false }
    {
        if self.contains(x) {
            Some(self.rank_counted(x).0)
        } else {
            None
        }
    }

    /// The rank of a number, and how many comparisons with ranges it took. For a number in the set these are one for
    /// each range that ends before it in its block, and two for its own range, if they are few.
    #[inline(always)]
    fn rank_near(&self, x: u32) -> (u32, u32)
        ensures rank { result.0 ≡ rank_of self.now x }
        ensures near { has_number self.now x ≡ true → (s i : ℕ)
            → IsCut (x / self.now.block * self.now.block) self.now.ranges.items s
            → IsCut x self.now.ranges.items i → i < s + NEAR → result.1 ≤ i - s + 2 }
        ensures most { (digits : ℕ) → length self.now.ranges.items < 2 ^ digits
            → result.1 ≤ NEAR + 1 + digits }
    {
        let (index, probes) = self.position(self.start(x), x);
        match self.rank_at(index, x) {
            Some(rank) => (rank, probes + 1),
            None => {
                let (rank, more) = self.rank_counted(x);
                (rank, probes + 1 + more)
            }
        }
    }

    /// The index of the first range that does not end before a number, if it is one of the next ranges from the start
    /// of the number's block on; and with how many ranges the number was compared.
    #[inline(always)]
    fn position(&self, start: usize, x: u32) -> (usize, u32)
        requires { IsCut (x / self.now.block * self.now.block) self.now.ranges.items start }
        ensures near { (i : ℕ) → IsCut x self.now.ranges.items i → i < start + NEAR
            → (result.0 ≡ i) × (result.1 ≡ i - start + 1) }
        ensures most { result.1 ≤ NEAR }
    {
        let mut index = start;
        for passed in 0..NEAR {
            if ends_before(&self.ranges, index, x) {
                index += 1;
            } else {
                return (index, passed as u32 + 1);
            }
        }
        (index, NEAR as u32)
    }

    /// The first range that ends in the block of a number or later.
    fn start(&self, x: u32) -> usize
        ensures { IsCut (x / self.now.block * self.now.block) self.now.ranges.items result }
    {
        match self.starts.get(x as usize / self.block) {
            Some(start) => *start,
            None => self.ranges.len(),
        }
    }

    /// The rank of a number, if it is in the range at an index.
    fn rank_at(&self, index: usize, x: u32) -> Option<u32>
        ensures rank { IfSome result (λ rank. rank ≡ rank_of self.now x) }
        ensures member { IfSome result (λ _. has_number self.now x ≡ true) }
        ensures found { IsCut x self.now.ranges.items index → has_number self.now x ≡ true
            → IsSome result }
    {
        if index >= self.ranges.len() {
            return None;
        }
        let (first, last) = self.ranges[index];
        if x < first {
            return None;
        }
        if last < x {
            return None;
        }
        Some(self.before[index] + (x - first))
    }

    /// How many numbers of the set are below one, and with how many ranges it was compared.
    pub fn rank_counted(&self, x: u32) -> (u32, u32)
        ensures rank { result.0 ≡ rank_of self.now x }
        // At most the binary digits of the count of ranges.
        ensures most { (digits : ℕ) → length self.now.ranges.items < 2 ^ digits
            → result.1 ≤ digits }
        ensures some { 0 < length self.now.ranges.items → 1 ≤ result.1 }
    {
        let mut low: usize = 0;
        let mut high = self.ranges.len();
        let mut probes: u32 = 0;
        while low < high {
            let middle = low + (high - low) / 2;
            let (first, last) = self.ranges[middle];
            probes += 1;
            if x < first {
                high = middle;
            } else if last < x {
                low = middle + 1;
            } else {
                return (self.before[middle] + (x - first), probes);
            }
        }
        (self.rank_between(low, x), probes)
    }

    /// The rank of a number that is before the range at an index and after the one before it.
    fn rank_between(&self, index: usize, x: u32) -> u32
        requires before { (k : ℕ) (d : ℕ × ℕ) → k < index
            → (slice_index_or self.now.ranges.items k d).1 < x }
        requires after { (k : ℕ) (d : ℕ × ℕ) → index ≤ k
            → k < length self.now.ranges.items
            → x < (slice_index_or self.now.ranges.items k d).0 }
        ensures { result ≡ rank_of self.now x }
    {
        match self.before.get(index) {
            Some(before) => *before,
            None => self.total as u32,
        }
    }
}

/// How many numbers a block has: enough that there are hardly more blocks than ranges.
fn block_of(ranges: &[(u32, u32)]) -> usize
    ensures { 0 < result }
{
    let end = match ranges.last() {
        Some(range) => range.1,
        None => 0,
    };
    let block = end as usize / (ranges.len() + 1);
    if block < BLOCK {
        return BLOCK;
    }
    block
}

/// For each block of numbers the index of the first range that ends in it or later.
fn starts_of(alloc: Global, ranges: &[(u32, u32)], block: usize) -> Result<Vec<usize>, AllocError>
    requires sorted { AreRanges ranges.now }
    requires filled { 0 < block }
    ensures { IfOk result (λ v. AreStarts block ranges.now v.items) }
{
    let mut starts = Vec::new(alloc);
    for index in 0..ranges.len() {
        append_starts(&mut starts, ranges[index].1 as usize / block, index)?;
    }
    Ok(starts)
}

/// Appends an index for each block up to one that has none.
fn append_starts(starts: &mut Vec<usize>, block: usize, index: usize) -> Result<(), AllocError>
    requires { block < 2 ^ 32 }
    ensures kept { OnOk result ((b : ℕ) → b < length starts.old.items
        → slice_index starts.new.items b ≡ slice_index starts.old.items b) }
    ensures added { OnOk result ((b : ℕ) → length starts.old.items ≤ b
        → b < length starts.new.items → (slice_index starts.new.items b ≡ index) × (b ≤ block)) }
    ensures past { OnOk result (block < length starts.new.items) }
{
    for _ in starts.len()..block + 1 {
        starts.push(index)?;
    }
    Ok(())
}

/// Whether there is a range at an index that ends before a number.
fn ends_before(ranges: &[(u32, u32)], index: usize, x: u32) -> bool
    ensures ends { IsTrue result
        → (index < length ranges.now) × ((slice_index_or ranges.now index (0, 0)).1 < x) }
    ensures reaches { result ≡ false → index < length ranges.now
        → x ≤ (slice_index_or ranges.now index (0, 0)).1 }
{
    match ranges.get(index) {
        Some(range) => range.1 < x,
        None => false,
    }
}

/// The first number of a range.
pub(crate) fn first_of(range: &(u32, u32)) -> u32
    ensures { result ≡ range.now.0 }
{
    range.0
}

/// The last number of a range.
pub(crate) fn last_of(range: &(u32, u32)) -> u32
    ensures { result ≡ range.now.1 }
{
    range.1
}
