//! Sets of live items.

ghost use Rattle.std.specs.Prelude.{◌≡◌, ◌≤◌, ◌<◌, ◌+◌, ◌*◌, ◌&&◌, ◌||◌, nat_eq, nat_lt, ◌/◌, ◌%◌, ◌==◌, ◌^◌, ℕ, Bool, not, false, true, length, filter, slice_index, IfOk, IsOk, OnOk, OnErr};
ghost use Rattle.std.specs.Int.{bit_at};
ghost use Rattle.std.specs.List.{range_with_len};
ghost use Rattle.wc_read.specs.Decoded.{ItemIndex};
ghost use Rattle.wc_gc.specs.Bits.{bit_of};
ghost use Rattle.wc_gc.specs.Counts.{count_below};
ghost use Rattle.wc_graph.specs.Growth.{Inserts};
ghost use Rattle.wc_gc.specs.Live.{has_item};
ghost use Rattle.wc_gc.specs.Ranks.{has_number, rank_of};

use crate::range_set::RangeSet;
use crate::ranks::Ranks;
use std::alloc::{AllocError, Global};
use wc_read::Space;

/// A set of numbers.
pub trait LiveSet: Sized + Drop {
    /// Whether a number is in the set.
    ghost has: { Self → ℕ → Bool };

    /// The empty set.
    fn new(alloc: Global) -> Self
        ensures { (x : ℕ) → has result x ≡ false };

    /// Puts a number in, and answers whether it is new. For one that is in the set this takes no memory, and succeeds.
    ///
    /// # Errors
    ///
    /// `AllocError`: an allocation for a new number failed. The set is as before.
    fn insert(&mut self, x: u32) -> Result<bool, AllocError>
        ensures new { IfOk result (λ new. new ≡ not (has self.old x)) }
        ensures inserts { OnOk result (Inserts (has self.old) (has self.new) x) }
        ensures there { has self.old x ≡ true → IsOk result }
        ensures err { OnErr result ((y : ℕ) → has self.new y ≡ has self.old y) };

    /// Whether a number is in the set.
    fn contains(&self, x: u32) -> bool
        ensures { result ≡ has self.now x };

    /// The numbers of the set that are below a bound, in their order.
    ///
    /// # Errors
    ///
    /// `AllocError`: an allocation failed.
    fn numbers_below(&self, alloc: Global, bound: u32) -> Result<Vec<u32>, AllocError>
        ensures { IfOk result (λ v. v.items ≡ filter (has self.now) (range_with_len 0 bound)) };

    /// How many numbers of the set are below each number.
    ///
    /// # Errors
    ///
    /// `AllocError`: an allocation failed.
    fn ranks(&self, alloc: Global) -> Result<Ranks, AllocError>
        ensures same { IfOk result (λ r. (x : ℕ) → has_number r x ≡ has self.now x) }
        ensures ranks { IfOk result (λ r. (x : ℕ)
            → rank_of r x ≡ count_below (has self.now) x) };
}

/// A set of numbers as bits, up to the largest that was put in.
#[derive(Debug, Drop)]
pub struct BitVec {
    words: Vec<u64>,
    ghost bounded: { length words.items ≤ 2 ^ 26 },
}

impl LiveSet for BitVec {
    ghost has = { λ b. bit_of b.words.items };

    fn new(alloc: Global) -> BitVec {
        BitVec {
            words: Vec::new(alloc),
        }
    }

    fn insert(&mut self, x: u32) -> Result<bool, AllocError> {
        self.make_room((x / 64) as usize)?;
        Ok(set_bit(&mut self.words, x))
    }

    fn contains(&self, x: u32) -> bool {
        has_bit(&self.words, x)
    }

    fn numbers_below(&self, alloc: Global, bound: u32) -> Result<Vec<u32>, AllocError> {
        (0..bound).filter(|x| self.contains(*x)).collect(alloc)
    }

    fn ranks(&self, alloc: Global) -> Result<Ranks, AllocError> {
        let ranges = self.in_set::<RangeSet>(alloc)?;
        ranges.ranks(alloc)
    }
}

impl BitVec {
    /// The numbers of the bits in a set of any kind. They are put in in one pass, in ascending order.
    pub(crate) fn in_set<L: LiveSet>(&self, alloc: Global) -> Result<L, AllocError>
        ensures { IfOk result (λ s. (y : ℕ) → L.has s y ≡ bit_of self.now.words.items y) }
    {
        let mut set = L::new(alloc);
        for index in 0..self.words.len() {
            insert_word(&mut set, &self.words, index)?;
        }
        Ok(set)
    }

    /// Makes room for a word. It takes no memory where there is room.
    fn make_room(&mut self, index: usize) -> Result<(), AllocError>
        requires { index < 2 ^ 26 }
        ensures room { OnOk result (index < length self.new.words.items) }
        ensures there { index < length self.old.words.items → IsOk result }
        ensures same { (i : ℕ) →
            slice_index self.new.words.items i ≡ slice_index self.old.words.items i }
    {
        if index >= self.words.len() {
            self.words.resize(index + 1, 0)?;
        }
        Ok(())
    }
}

/// Sets a bit, and answers whether it was not set.
fn set_bit(words: &mut [u64], x: u32) -> bool
    requires { x / 64 < length words.old }
    ensures new { result ≡ not (bit_of words.old x) }
    ensures inserts { Inserts (bit_of words.old) (bit_of words.new) x }
{
    let index = (x / 64) as usize;
    let mask = 1u64 << (x % 64);
    let word = words[index];
    words[index] = word | mask;
    word & mask == 0
}

/// A set for each space.
#[derive(Debug, Drop)]
pub struct LiveSets<L> {
    /// The live function types.
    pub types: L,
    /// The live functions.
    pub funcs: L,
    /// The live tables.
    pub tables: L,
    /// The live memories.
    pub memories: L,
    /// The live globals.
    pub globals: L,
}

impl<L: LiveSet> LiveSets<L> {
    /// No items.
    pub fn new(alloc: Global) -> LiveSets<L>
        ensures { (x : ItemIndex) → has_item L.has result x ≡ false }
    {
        LiveSets {
            types: L::new(alloc),
            funcs: L::new(alloc),
            tables: L::new(alloc),
            memories: L::new(alloc),
            globals: L::new(alloc),
        }
    }

    /// Puts an item in, and answers whether it is new. For one that is in its set this takes no memory, and succeeds.
    ///
    /// # Errors
    ///
    /// `AllocError`: an allocation for a new item failed. The sets are as before.
    pub fn insert(&mut self, item: (Space, u32)) -> Result<bool, AllocError>
        ensures new { IfOk result (λ new. new ≡ not (has_item L.has self.old item)) }
        ensures inserts { OnOk result
            (Inserts (has_item L.has self.old) (has_item L.has self.new) item) }
        ensures there { has_item L.has self.old item ≡ true → IsOk result }
        ensures err { OnErr result ((x : ItemIndex) →
            has_item L.has self.new x ≡ has_item L.has self.old x) }
    {
        match item.0 {
            Space::Types => self.types.insert(item.1),
            Space::Funcs => self.funcs.insert(item.1),
            Space::Tables => self.tables.insert(item.1),
            Space::Memories => self.memories.insert(item.1),
            Space::Globals => self.globals.insert(item.1),
        }
    }

    /// The items of sets of bits, in sets of any kind.
    pub(crate) fn of_bits(
        alloc: Global,
        found: &LiveSets<BitVec>,
    ) -> Result<LiveSets<L>, AllocError>
        ensures { IfOk result (λ s. (x : ItemIndex) → has_item L.has s x
            ≡ has_item (λ b. bit_of b.words.items) found.now x) }
    {
        Ok(LiveSets {
            types: found.types.in_set(alloc)?,
            funcs: found.funcs.in_set(alloc)?,
            tables: found.tables.in_set(alloc)?,
            memories: found.memories.in_set(alloc)?,
            globals: found.globals.in_set(alloc)?,
        })
    }

    /// Whether an item is in the set of its space.
    pub fn contains(&self, item: (Space, u32)) -> bool
        ensures { result ≡ has_item L.has self.now item }
    {
        match item.0 {
            Space::Types => self.types.contains(item.1),
            Space::Funcs => self.funcs.contains(item.1),
            Space::Tables => self.tables.contains(item.1),
            Space::Memories => self.memories.contains(item.1),
            Space::Globals => self.globals.contains(item.1),
        }
    }
}

/// Whether a bit of words is set.
pub fn has_bit(words: &[u64], x: u32) -> bool
    ensures { result ≡ bit_of words.now x }
{
    match words.get((x / 64) as usize) {
        Some(word) => (*word >> (x % 64)) & 1 == 1,
        None => false,
    }
}

/// Puts the numbers of a word into a set that has those of the words before it.
fn insert_word<L: LiveSet>(set: &mut L, words: &[u64], index: usize) -> Result<(), AllocError>
    requires within { index < length words.now }
    requires bounded { length words.now ≤ 2 ^ 26 }
    requires before { (y : ℕ) →
        L.has set.old y ≡ (nat_lt y (index * 64) && bit_of words.now y) }
    ensures { OnOk result ((y : ℕ) →
        L.has set.new y ≡ (nat_lt y (index * 64 + 64) && bit_of words.now y)) }
{
    let word = words[index];
    if word == 0 {
        return Ok(());
    }
    for x in index * 64..index * 64 + 64 {
        insert_if(set, x as u32, is_set(word, x))?;
    }
    Ok(())
}

/// Whether the bit of a number is set, in its word.
#[inline(always)]
fn is_set(word: u64, x: usize) -> bool
    ensures { result ≡ (bit_at word (x % 64) == 1) }
{
    (word >> (x % 64)) & 1 == 1
}

/// Puts a number in, if a condition holds.
#[inline(always)]
pub fn insert_if<L: LiveSet>(set: &mut L, index: u32, condition: bool) -> Result<(), AllocError>
    ensures { OnOk result ((n : ℕ) →
        L.has set.new n ≡ (L.has set.old n || (condition && nat_eq n index))) }
{
    if !condition {
        return Ok(());
    }
    set.insert(index)?;
    Ok(())
}
