//! The sizes of numbers and other immediates in bytes, where these bytes are their text: where no fewer spell them.

ghost use Rattle.std.specs.Prelude.{◌≡◌, ◌<◌, ◌≤◌, true, false, All, IfSome};
ghost use Rattle.wc_read.specs.Reading.Reader.{number_at, bytes_at};
ghost use Rattle.wc_read.specs.Reading.Signed.{signed_at};
ghost use Rattle.wc_read.specs.Text.{number_text, signed_text};
ghost use Rattle.wc_read.specs.Private.TextSizes.{SizesText, SizesMemArg, SizesMemoryIndex, SizesLabels, AreNumbers, IsLonger, IsShortest, IsShortestSigned, without_sign};

use crate::codes::{GROUP_BITS, MORE_BYTES};
use crate::reader::Reader;

/// A number of 64 bits has so many bytes at most (WebAssembly core specification, 5.2.2).
const MOST_BYTES: usize = 10;

/// A memory argument that begins with a number from here on names its memory (5.4.6).
const NAMES_MEMORY: u8 = 64;

/// How many bytes an unsigned number has, where no fewer spell it. Most are of one byte.
#[inline(always)]
pub fn number_size(input: &[u8], bits: u32) -> Option<usize>
    requires some { 7 ≤ bits }
    requires limit { bits ≤ 64 }
    ensures { SizesText (number_at bits) number_text input.now result }
{
    let (first, _) = input.split_first()?;
    if *first < MORE_BYTES {
        return Some(1);
    }
    long_number_size(input, bits)
}

/// How many bytes an unsigned number of any length has, where no fewer spell it.
#[inline(never)]
fn long_number_size(input: &[u8], bits: u32) -> Option<usize>
    requires some { 7 ≤ bits }
    requires limit { bits ≤ 64 }
    ensures { SizesText (number_at bits) number_text input.now result }
{
    are_bytes(input);
    let mut reader = Reader::new(input);
    let Ok(number) = reader.number(bits) else {
        return None;
    };
    let size = input.len() - reader.rest.len();
    if is_shortest(number, size) {
        Some(size)
    } else {
        None
    }
}

/// Whether no fewer bytes than so many spell a number.
#[inline(always)]
pub fn is_shortest(number: u64, size: usize) -> bool
    ensures shortest { result ≡ true → IsShortest number size }
    ensures longer { result ≡ false → IsLonger number size }
{
    if size <= 1 {
        return true;
    }
    size <= MOST_BYTES && number >> (GROUP_BITS * (size as u32 - 1)) != 0
}

/// How many bytes a signed number has, where no fewer spell it. Most are of one byte.
#[inline(always)]
pub fn signed_size(input: &[u8], bits: u32) -> Option<usize>
    requires some { 7 ≤ bits }
    requires limit { bits ≤ 64 }
    ensures { SizesText (signed_at bits) signed_text input.now result }
{
    let (first, _) = input.split_first()?;
    if *first < MORE_BYTES {
        return Some(1);
    }
    long_signed_size(input, bits)
}

/// How many bytes a signed number of any length has, where no fewer spell it.
#[inline(never)]
fn long_signed_size(input: &[u8], bits: u32) -> Option<usize>
    requires some { 7 ≤ bits }
    requires limit { bits ≤ 64 }
    ensures { SizesText (signed_at bits) signed_text input.now result }
{
    are_bytes(input);
    let mut reader = Reader::new(input);
    let Ok(number) = reader.signed(bits) else {
        return None;
    };
    let size = input.len() - reader.rest.len();
    if is_shortest_signed(number, size) {
        Some(size)
    } else {
        None
    }
}

/// Whether no fewer bytes than so many spell a signed number.
fn is_shortest_signed(number: i64, size: usize) -> bool
    ensures { result ≡ true → IsShortestSigned number size }
{
    if size <= 1 {
        return true;
    }
    size <= MOST_BYTES && without_sign(number) >> (GROUP_BITS * (size as u32 - 1) - 1) != 0
}

/// A number, or -1 less a negative number.
fn without_sign(number: i64) -> u64
    ensures { result ≡ without_sign number }
{
    if number < 0 {
        (-1 - number) as u64
    } else {
        number as u64
    }
}

/// So many bytes, where that many are left.
#[inline(always)]
pub fn bytes_size(input: &[u8], count: usize) -> Option<usize>
    ensures { SizesText (bytes_at count) (λ b. b) input.now result }
{
    if input.len() < count {
        return None;
    }
    Some(count)
}

/// How many bytes a memory argument has, where it leaves its memory out, no fewer spell it, and `memory` is true.
#[inline(always)]
pub fn mem_arg_size(input: &[u8], memory: bool) -> Option<usize>
    ensures { SizesMemArg memory input.now result }
{
    if !memory {
        return None;
    }
    let (align, rest) = input.split_first()?;
    if *align >= NAMES_MEMORY {
        return None;
    }
    Some(1 + number_size(rest, 64)?)
}

/// The size of the index of memory 0, where `memory` is true.
#[inline(always)]
pub fn memory_index_size(input: &[u8], memory: bool) -> Option<usize>
    ensures { SizesMemoryIndex memory input.now result }
{
    let (first, _) = input.split_first()?;
    if memory && *first == 0 { Some(1) } else { None }
}

/// How many bytes the labels of a `br_table` have, the one for all other numbers among them, where no fewer spell them.
#[inline(never)]
pub fn labels_size(input: &[u8]) -> Option<usize>
    ensures { SizesLabels input.now result }
{
    number_size(input, 32)?;
    let mut reader = Reader::new(input);
    let Ok(count) = reader.u32() else {
        return None;
    };
    let last = after_labels(reader.rest, count)?;
    let size = number_size(last, 32)?;
    Some(input.len() - last.len() + size)
}

/// The bytes after so many labels, where no fewer spell these.
#[inline(always)]
fn after_labels(input: &[u8], count: u32) -> Option<&[u8]>
    ensures { IfSome result (λ left. AreNumbers count input.now left.now) }
{
    let mut rest = input;
    for _ in 0..count {
        let size = number_size(rest, 32)?;
        let (_, left) = rest.split_at(size);
        rest = left;
    }
    Some(rest)
}

/// The bytes of a slice are below 256. A call does nothing when it runs.
#[inline(always)]
pub fn are_bytes(slice: &[u8])
    ensures { All (λ b. b < 256) slice.now }
{}
