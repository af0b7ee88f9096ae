//! Numbers and names (WebAssembly core specification, 5.2.2 and 5.2.4).

ghost use Rattle.std.specs.Prelude.{◌≡◌, ◌++◌, ◌^◌, ◌<◌, length, take, OnOk, OnErr};
ghost use Rattle.wc_write.specs.Text.{number_text, name_text, signed_digit, signed_digits, signed_text};

use std::alloc::AllocError;
use wc_read::codes::{GROUP_MASK, MORE_BYTES};

/// How many numbers have seven bits.
const SEVEN_BITS: u64 = 128;

/// How many numbers have six bits: the last byte of a signed number has six bits beside its sign.
const SIX_BITS: u64 = 64;

/// Appends an unsigned number as minimal LEB128, the low seven bits first. After an error `out` still begins with the
/// bytes that it had before. Most numbers are of one byte.
#[inline(always)]
pub(crate) fn put_number(out: &mut Vec<u8>, number: u64) -> Result<(), AllocError>
    ensures written { OnOk result (out.new.items ≡ out.old.items ++ number_text number) }
    ensures kept { OnErr result (take (length out.old.items) out.new.items ≡ out.old.items) }
{
    if number < SEVEN_BITS {
        out.push(number as u8)?;
        return Ok(());
    }
    put_digits(out, number)
}

/// Appends an unsigned number of any length, as `put_number` does.
#[inline(never)]
fn put_digits(out: &mut Vec<u8>, number: u64) -> Result<(), AllocError>
    ensures written { OnOk result (out.new.items ≡ out.old.items ++ number_text number) }
    ensures kept { OnErr result (take (length out.old.items) out.new.items ≡ out.old.items) }
{
    let mut rest = number;
    while rest >= SEVEN_BITS {
        out.push(MORE_BYTES + (rest % SEVEN_BITS) as u8)?;
        rest /= SEVEN_BITS;
    }
    out.push(rest as u8)?;
    Ok(())
}

/// Appends a signed number as minimal LEB128, the low seven bits first.
pub(crate) fn put_signed(out: &mut Vec<u8>, number: i64) -> Result<(), AllocError>
    ensures { OnOk result (out.new.items ≡ out.old.items ++ signed_text number) }
{
    if number < 0 {
        put_signed_digits(out, true, (-1 - number) as u64)
    } else {
        put_signed_digits(out, false, number as u64)
    }
}

/// Appends `magnitude`, or where `negative` the number `-1 - magnitude`.
fn put_signed_digits(out: &mut Vec<u8>, negative: bool, magnitude: u64) -> Result<(), AllocError>
    requires { magnitude < 2 ^ 63 }
    ensures { OnOk result (out.new.items ≡ out.old.items ++ signed_digits negative 9 magnitude) }
{
    let mut rest = magnitude;
    while rest >= SIX_BITS {
        out.push(MORE_BYTES + signed_digit(negative, (rest % SEVEN_BITS) as u8))?;
        rest /= SEVEN_BITS;
    }
    out.push(signed_digit(negative, rest as u8))?;
    Ok(())
}

/// Seven bits of a number: of `-1 - n` they are the complement of those of n.
fn signed_digit(negative: bool, low: u8) -> u8
    requires { low < SEVEN_BITS }
    ensures { result ≡ signed_digit negative low }
{
    if negative { GROUP_MASK - low } else { low }
}

/// Appends a name: its length in bytes, and its bytes.
pub(crate) fn put_name(out: &mut Vec<u8>, name: &str) -> Result<(), AllocError>
    ensures { OnOk result (out.new.items ≡ out.old.items ++ name_text name.now) }
{
    put_number(out, name.len() as u64)?;
    out.extend_from_slice(name.as_bytes())?;
    Ok(())
}
