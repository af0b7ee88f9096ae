//! The blocks of a body that are open, as bits.

ghost use Rattle.std.specs.Prelude.{◌≡◌, ◌∷◌, [], ◌<◌, ◌^◌, ◌*◌, ◌+◌, ◌==◌, if◌then◌else◌, length, false, OnOk};

use std::alloc::{AllocError, Global};

/// How many blocks a word holds.
const WORD: u32 = 64;

/// The blocks that are open: whether an `else` may occur in each (WebAssembly core specification, 5.4.1). The inmost
/// are bits of one word, so that a body takes memory only where 64 of its blocks are open at once.
#[derive(Debug, Drop)]
pub struct Blocks {
    /// The inmost, the inmost of all as the lowest bit.
    inmost: u64,
    /// How many these are.
    count: u32,
    /// The others, 64 in each word, the inmost in the last.
    others: Vec<u64>,
    ghost count_fits: { count < 64 },
    ghost bits_fit: { inmost < 2 ^ count },
}

impl Blocks {
    ghost use Rattle.wc_read.specs.Blocks.{open_blocks, Pops, Opens, Closes, BeginsElse};

    /// The block that a body is.
    pub fn of_body(alloc: Global) -> Blocks
        ensures { open_blocks result ≡ false ∷ [] }
    {
        Blocks {
            inmost: 0,
            count: 1,
            others: Vec::new(alloc),
        }
    }

    /// Whether no block is open.
    #[inline(always)]
    pub fn is_empty(&self) -> bool
        ensures { result ≡ (length (open_blocks self.now) == 0) }
    {
        self.count == 0 && self.others.is_empty()
    }

    /// Opens a block.
    pub fn open(&mut self, is_if: bool) -> Result<(), AllocError>
        ensures { OnOk result (open_blocks self.new ≡ is_if ∷ open_blocks self.old) }
    {
        let inmost = with_bit(self.inmost, is_if);
        if self.count < WORD - 1 {
            self.inmost = inmost;
            self.count += 1;
            return Ok(());
        }
        self.others.push(inmost)?;
        self.inmost = 0;
        self.count = 0;
        Ok(())
    }

    /// Opens a block, where it is not the last of a word, and answers whether it is open.
    #[inline(always)]
    pub fn open_in_word(&mut self, is_if: bool) -> bool
        ensures { Opens result is_if (open_blocks self.old) (open_blocks self.new) }
    {
        if self.count >= WORD - 1 {
            return false;
        }
        self.inmost = with_bit(self.inmost, is_if);
        self.count += 1;
        true
    }

    /// Closes the inmost block, and answers whether an `else` might have occurred in it; `None` where none is open.
    pub fn close(&mut self) -> Option<bool>
        ensures { Pops result (open_blocks self.old) (open_blocks self.new) }
    {
        if self.count == 0 {
            let word = self.others.pop()?;
            self.count = WORD - 1;
            self.inmost = word / 2;
            return Some(word % 2 == 1);
        }
        let is_if = self.inmost % 2 == 1;
        self.inmost /= 2;
        self.count -= 1;
        Some(is_if)
    }

    /// Closes the inmost block, where another one is in the word, and answers whether it did.
    #[inline(always)]
    pub fn close_in_word(&mut self) -> bool
        ensures { Closes result (open_blocks self.old) (open_blocks self.new) }
    {
        if self.count < 2 {
            return false;
        }
        self.inmost /= 2;
        self.count -= 1;
        true
    }

    /// Goes past the `else` of the inmost block, where that is an `if` in the word, and answers whether it did.
    #[inline(always)]
    pub fn begin_else_in_word(&mut self) -> bool
        ensures { BeginsElse result (open_blocks self.old) (open_blocks self.new) }
    {
        if self.count == 0 || self.inmost % 2 == 0 {
            return false;
        }
        self.inmost -= 1;
        true
    }
}

/// A word with a bit below those that it has.
#[inline(always)]
fn with_bit(word: u64, bit: bool) -> u64
    requires { word < 2 ^ 63 }
    ensures { result ≡ word * 2 + (if bit then 1 else 0) }
{
    word * 2 + u64::from(bit)
}
