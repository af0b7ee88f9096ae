//! Signed numbers.

ghost use Rattle.std.specs.Prelude.{◌≡◌, ◌<◌, ◌≤◌, ◌^◌, ◌+◌, ◌-◌, ◌*◌, IfOk, IfSome, nat_lt, if◌then◌else◌, option_map};
ghost use Rattle.wc_read.specs.Reading.Reader.{GivesWithoutMemory};
ghost use Rattle.wc_read.specs.Signed.{above, FitsBits};
ghost use Rattle.wc_read.specs.Reading.Signed.{last_of, signed_at};

use crate::codes::{GROUP_BITS, GROUP_MASK, MORE_BYTES};
use crate::fault::ReadFault;
use crate::reader::Reader;

/// The bit that is the sign of a signed number, in its last byte (5.2.2).
const SIGN: u8 = 64;

impl<'a> Reader<'a> {
    /// A signed number of so many bits (WebAssembly core specification, 5.2.2).
    pub fn signed(&mut self, bits: u32) -> Result<i64, ReadFault>
        requires some { 0 < bits }
        requires limit { bits ≤ 64 }
        ensures read { GivesWithoutMemory (λ x. x) result self.new.rest.now
            (signed_at bits self.old.rest.now) }
        ensures bound { IfOk result (λ x. FitsBits bits x) }
    {
        let mut low: u64 = 0;
        let mut shift: u32 = 0;
        loop {
            let byte = self.byte()?;
            let left = bits - shift;
            if byte < MORE_BYTES {
                return completed(low, shift, left, byte).ok_or(ReadFault::BadNumber);
            }
            if left <= GROUP_BITS {
                return Err(ReadFault::BadNumber);
            }
            low += u64::from(byte - MORE_BYTES) << shift;
            shift += GROUP_BITS;
        }
    }

    /// A signed number of 32 bits.
    #[inline(always)]
    pub fn i32(&mut self) -> Result<i32, ReadFault>
        ensures { GivesWithoutMemory (λ x. x) result self.new.rest.now
            (signed_at 32 self.old.rest.now) }
    {
        let number = self.signed(32)?;
        Ok(number as i32)
    }
}

/// A number by its low bits and its last byte, where that fits the bits that are left.
fn completed(low: u64, shift: u32, left: u32, byte: u8) -> Option<i64>
    requires some { 0 < left }
    requires limit { shift + left ≤ 64 }
    requires low { low < 2 ^ shift }
    requires last { byte < MORE_BYTES }
    ensures value { result ≡ option_map (above (2 ^ shift) low) (last_of left byte) }
    ensures bound { IfSome result (λ x. FitsBits (shift + left) x) }
{
    if byte < SIGN {
        let magnitude = magnitude(low, shift, left, byte)?;
        Some(magnitude as i64)
    } else {
        let magnitude = magnitude((1 << shift) - 1 - low, shift, left, GROUP_MASK - byte)?;
        Some(-1 - magnitude as i64)
    }
}

/// Low bits with the last digits, where these leave a bit for the sign.
fn magnitude(low: u64, shift: u32, left: u32, digits: u8) -> Option<u64>
    requires some { 0 < left }
    requires limit { shift + left ≤ 64 }
    requires low { low < 2 ^ shift }
    requires last { digits < SIGN }
    ensures value { result ≡ (if nat_lt digits (2 ^ (left - 1)) then Some
        (low + 2 ^ shift * digits) else None) }
    ensures bound { IfSome result (λ x. x < 2 ^ (shift + left - 1)) }
{
    if left < GROUP_BITS && digits >> (left - 1) != 0 {
        return None;
    }
    Some(low + (u64::from(digits) << shift))
}
