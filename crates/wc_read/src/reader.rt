//! A reader that moves along the bytes: bytes, unsigned numbers, names, vectors.

ghost use Rattle.std.specs.Prelude.{◌≡◌, ◌<◌, ◌≤◌, ◌^◌, ℕ, List, Option, Some, map, IfOk, IfSome};
ghost use Rattle.wc_read.specs.Reading.Reader.{Gives, GivesWithoutMemory, ReadsOption, byte_at, bytes_at, number_at, name_at, vector_at};

use crate::codes::{GROUP_BITS, MORE_BYTES};
use crate::fault::ReadFault;
use std::alloc::Global;
use std::str;

/// How many numbers have four bits. The last of five bytes of a number of 32 bits has as many.
const FOUR_BITS: u8 = 16;

/// A number of two to five bytes, below 2^32, and the bytes after it.
#[inline(always)]
fn few_digits(input: &[u8]) -> Option<(u64, &[u8])>
    ensures read { IfSome result (λ x. (bits : ℕ) → 32 ≤ bits →
        number_at bits input.now ≡ Some (x.0, x.1.now)) }
    ensures bound { IfSome result (λ x. x.0 < 2 ^ 32) }
{
    let (first, after_first) = input.split_first()?;
    let (second, after_second) = after_first.split_first()?;
    if *first < MORE_BYTES {
        return None;
    }
    let one = u64::from(*first - MORE_BYTES);
    if *second < MORE_BYTES {
        return Some((one + (u64::from(*second) << GROUP_BITS), after_second));
    }
    let (third, after_third) = after_second.split_first()?;
    let two = one + (u64::from(*second - MORE_BYTES) << GROUP_BITS);
    if *third < MORE_BYTES {
        return Some((two + (u64::from(*third) << (2 * GROUP_BITS)), after_third));
    }
    let (fourth, after_fourth) = after_third.split_first()?;
    let three = two + (u64::from(*third - MORE_BYTES) << (2 * GROUP_BITS));
    if *fourth < MORE_BYTES {
        return Some((
            three + (u64::from(*fourth) << (3 * GROUP_BITS)),
            after_fourth,
        ));
    }
    let (fifth, after_fifth) = after_fourth.split_first()?;
    if *fifth >= FOUR_BITS {
        return None;
    }
    let four = three + (u64::from(*fourth - MORE_BYTES) << (3 * GROUP_BITS));
    Some((four + (u64::from(*fifth) << (4 * GROUP_BITS)), after_fifth))
}

/// A reader: the bytes that are left to be read. After a fault no clause says which these are; the place of the fault
/// is found by them (`stops`).
#[derive(Drop)]
pub struct Reader<'a> {
    pub rest: &'a [u8],
}

/// An item of which a vector can be read.
pub trait Spelled<'a>: Sized {
    ghost Value: { Type 0 };

    ghost view: { Self → Value };

    ghost read: { List ℕ → Option (Value × List ℕ) };

    /// Reads an item, after those that were read.
    ///
    /// # Errors
    ///
    /// - `Memory`: an allocation failed.
    /// - Any other: what is left does not begin with such an item.
    fn read_from(alloc: Global, reader: &mut Reader<'a>) -> Result<Self, ReadFault>
        ensures { Gives view result reader.new.rest.now (read reader.old.rest.now) };
}

impl<'a> Reader<'a> {
    /// A reader of these bytes, from the first on.
    pub fn new(rest: &'a [u8]) -> Reader<'a>
        ensures { result.rest.now ≡ rest.now }
    {
        Reader { rest }
    }

    /// Reads a byte; the fault is `Truncated` where none is left.
    pub fn byte(&mut self) -> Result<u8, ReadFault>
        ensures { GivesWithoutMemory (λ x. x) result
            self.new.rest.now (byte_at self.old.rest.now) }
    {
        match self.rest.split_first() {
            Some((first, rest)) => {
                self.rest = rest;
                Ok(*first)
            }
            None => Err(ReadFault::Truncated),
        }
    }

    /// Reads so many bytes; the fault is `Truncated` where fewer are left, and then none is read.
    pub fn bytes(&mut self, count: usize) -> Result<&'a [u8], ReadFault>
        ensures { GivesWithoutMemory (λ x. x.now) result self.new.rest.now
            (bytes_at count self.old.rest.now) }
    {
        if self.rest.len() < count {
            return Err(ReadFault::Truncated);
        }
        let (front, rest) = self.rest.split_at(count);
        self.rest = rest;
        Ok(front)
    }

    /// An unsigned number of so many bits. Most are of one byte.
    #[inline(always)]
    pub fn number(&mut self, bits: u32) -> Result<u64, ReadFault>
        requires some { 0 < bits }
        requires limit { bits ≤ 64 }
        ensures read { GivesWithoutMemory (λ x. x) result self.new.rest.now
            (number_at bits self.old.rest.now) }
        ensures bound { IfOk result (λ x. x < 2 ^ bits) }
    {
        if let Some((first, rest)) = self.rest.split_first()
            && *first < MORE_BYTES
            && bits >= GROUP_BITS
        {
            self.rest = rest;
            return Ok(u64::from(*first));
        }
        self.long_number(bits)
    }

    /// An unsigned number of so many bits. Most of those that have more bytes than one have two to five.
    #[inline(never)]
    fn long_number(&mut self, bits: u32) -> Result<u64, ReadFault>
        requires some { 0 < bits }
        requires limit { bits ≤ 64 }
        ensures read { GivesWithoutMemory (λ x. x) result self.new.rest.now
            (number_at bits self.old.rest.now) }
        ensures bound { IfOk result (λ x. x < 2 ^ bits) }
    {
        if bits >= u32::BITS
            && let Some((number, rest)) = few_digits(self.rest)
        {
            self.rest = rest;
            return Ok(number);
        }
        self.digits(bits)
    }

    /// An unsigned number of so many bits, digit by digit.
    #[inline(never)]
    fn digits(&mut self, bits: u32) -> Result<u64, ReadFault>
        requires some { 0 < bits }
        requires limit { bits ≤ 64 }
        ensures read { GivesWithoutMemory (λ x. x) result self.new.rest.now
            (number_at bits self.old.rest.now) }
        ensures bound { IfOk result (λ x. x < 2 ^ bits) }
    {
        let mut value: u64 = 0;
        let mut shift: u32 = 0;
        loop {
            let byte = self.byte()?;
            let left = bits - shift;
            if byte < MORE_BYTES {
                if left < GROUP_BITS && byte >> left != 0 {
                    return Err(ReadFault::BadNumber);
                }
                return Ok(value + (u64::from(byte) << shift));
            }
            if left <= GROUP_BITS {
                return Err(ReadFault::BadNumber);
            }
            value += u64::from(byte - MORE_BYTES) << shift;
            shift += GROUP_BITS;
        }
    }

    /// Reads an unsigned number of 32 bits in LEB128 (WebAssembly core specification, 5.2.2).
    ///
    /// # Errors
    ///
    /// - `Truncated`: the bytes end inside it.
    /// - `BadNumber`: it has more than 32 bits, or more than five bytes.
    #[inline(always)]
    pub fn u32(&mut self) -> Result<u32, ReadFault>
        ensures { GivesWithoutMemory (λ x. x) result self.new.rest.now
            (number_at 32 self.old.rest.now) }
    {
        let number = self.number(32)?;
        Ok(number as u32)
    }

    /// Reads a name (5.2.4): its size, and so many bytes of UTF-8.
    ///
    /// # Errors
    ///
    /// - `Truncated`: the bytes end inside it.
    /// - `BadNumber`: its size is not a u32 in LEB128.
    /// - `BadName`: its bytes are not UTF-8.
    #[inline(always)]
    #[tactic(auto, using(crate::proofs::TextLemmas::text), unfolding(crate::specs::Reading::Reader::name_at))]
    pub fn name(&mut self) -> Result<&'a str, ReadFault>
        ensures { GivesWithoutMemory (λ x. x.now) result self.new.rest.now
            (name_at self.old.rest.now) }
    {
        let size = self.u32()?;
        let start = self.rest;
        let bytes = self.bytes(size as usize)?;
        match str::from_utf8(bytes) {
            Ok(name) => Ok(name),
            Err(_) => {
                // The fault's place is the name's start.
                self.rest = start;
                Err(ReadFault::BadName)
            }
        }
    }

    /// A vector. Memory is taken item by item, and not for a count whose items were not read.
    #[tactic(auto, unfolding(crate::specs::Reading::Reader::vector_at))]
    pub fn vector<T: Spelled<'a> + Drop>(&mut self, alloc: Global) -> Result<Vec<T>, ReadFault>
        ensures { Gives (λ v. map T.view v.items) result self.new.rest.now
            (vector_at T.read self.old.rest.now) }
    {
        let count = self.u32()?;
        let mut items = Vec::new(alloc);
        for _ in 0..count {
            let item = T::read_from(alloc, self)?;
            items.push(item)?;
        }
        Ok(items)
    }

    /// An item, or None where there is none at the front.
    pub fn find<T: Spelled<'a>>(&mut self, alloc: Global) -> Result<Option<T>, ReadFault>
        ensures { ReadsOption T.view result self.new.rest.now (T.read self.old.rest.now) }
    {
        match T::read_from(alloc, self) {
            Ok(item) => Ok(Some(item)),
            Err(fault) => match fault {
                ReadFault::Memory => Err(ReadFault::Memory),
                _ => Ok(None),
            },
        }
    }
}

impl<'a> Spelled<'a> for &'a str {
    ghost Value = { List ℕ };

    ghost view = { λ n. n.now };

    ghost read = { name_at };

    fn read_from(_alloc: Global, reader: &mut Reader<'a>) -> Result<&'a str, ReadFault> {
        reader.name()
    }
}

impl<'a> Spelled<'a> for u32 {
    ghost Value = { ℕ };

    ghost view = { λ n. n };

    ghost read = { number_at 32 };

    fn read_from(_alloc: Global, reader: &mut Reader<'a>) -> Result<u32, ReadFault> {
        reader.u32()
    }
}
