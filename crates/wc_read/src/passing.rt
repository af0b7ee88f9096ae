//! Operators that are passed over: they name no segment and no item but memory 0, and the bytes that spell them are
//! their text.

ghost use Rattle.std.specs.Prelude.{◌≡◌, ◌≢◌, Bool, List, [], length, true, Some, None, if◌then◌else◌};
ghost use Rattle.wc_read.specs.Blocks.{open_blocks};
ghost use Rattle.wc_read.specs.Passing.{IsPlainType, PassesBlockStart, PassesOperator, PassesRun, AreOperatorsPassed, SizesShort};

use crate::blocks::Blocks;
use crate::codes::{EMPTY_BLOCK, MORE_BYTES};
use crate::operators::END;
use crate::pass_kinds::{PassKind, pass_kind, short_size};
use crate::text_sizes::{
    bytes_size, labels_size, mem_arg_size, memory_index_size, number_size, signed_size,
};

/// Goes past operators, as far as it can, and answers the bytes that are left. Operators that name memory 0 are passed
/// over where `memory` is true. A body's last `end` by itself is passed here.
#[inline(always)]
pub fn pass_operators<'a>(blocks: &mut Blocks, input: &'a [u8], memory: bool) -> &'a [u8]
    ensures { AreOperatorsPassed memory
        (open_blocks blocks.old) input.now (open_blocks blocks.new) result.now }
{
    match input.split_first() {
        Some((first, left)) if left.is_empty() && *first == END && !blocks.is_empty() => {
            blocks.close();
            left
        }
        _ => pass_run(blocks, input, memory),
    }
}

/// Goes past operators of any kind, as `pass_operators` does.
#[inline(never)]
fn pass_run<'a>(blocks: &mut Blocks, input: &'a [u8], memory: bool) -> &'a [u8]
    ensures { AreOperatorsPassed memory
        (open_blocks blocks.old) input.now (open_blocks blocks.new) result.now }
{
    if blocks.is_empty() {
        return input;
    }
    let rest = pass_inside(blocks, input, memory);
    match rest.split_first() {
        Some((first, left)) if *first == END => {
            blocks.close();
            left
        }
        _ => rest,
    }
}

/// Goes past operators that leave a block open.
#[inline(always)]
fn pass_inside<'a>(blocks: &mut Blocks, input: &'a [u8], memory: bool) -> &'a [u8]
    requires { open_blocks blocks.old ≢ [] }
    ensures passed { AreOperatorsPassed memory
        (open_blocks blocks.old) input.now (open_blocks blocks.new) result.now }
    ensures inside { open_blocks blocks.new ≢ [] }
{
    let mut rest = pass_short(input);
    while let Some(size) = pass_next(blocks, rest, memory) {
        let (_, left) = rest.split_at(size);
        rest = pass_short(left);
    }
    rest
}

/// Goes past an operator, or past several that open blocks, close them or begin an `else`, and answers how many bytes
/// they have; `None`, and the same blocks, where the first is not passed over. A block is left open.
#[inline(always)]
fn pass_next(blocks: &mut Blocks, input: &[u8], memory: bool) -> Option<usize>
    requires { open_blocks blocks.old ≢ [] }
    ensures passed { PassesRun memory
        (open_blocks blocks.old) input.now (open_blocks blocks.new) result }
    ensures inside { open_blocks blocks.new ≢ [] }
{
    let (first, rest) = input.split_first()?;
    match pass_kind(*first) {
        PassKind::Never => None,
        PassKind::CodeOnly => Some(1),
        PassKind::Index => Some(1 + number_size(rest, 32)?),
        PassKind::I32 => Some(1 + signed_size(rest, 32)?),
        PassKind::I64 => Some(1 + signed_size(rest, 64)?),
        PassKind::FourBytes => Some(1 + bytes_size(rest, 4)?),
        PassKind::EightBytes => Some(1 + bytes_size(rest, 8)?),
        PassKind::MemArg => Some(1 + mem_arg_size(rest, memory)?),
        PassKind::Memory => Some(1 + memory_index_size(rest, memory)?),
        PassKind::Labels => Some(1 + labels_size(rest)?),
        PassKind::Block | PassKind::If | PassKind::Else | PassKind::End => {
            pass_nesting_run(blocks, input)
        }
    }
}

/// Goes past operators that open blocks, close them or begin an `else`, and answers how many bytes they have; `None`,
/// and the same blocks, where the first is not passed over. Often several of them follow each other.
#[inline(always)]
fn pass_nesting_run(blocks: &mut Blocks, input: &[u8]) -> Option<usize>
    requires { open_blocks blocks.old ≢ [] }
    ensures passed { (memory : Bool) → PassesRun memory
        (open_blocks blocks.old) input.now (open_blocks blocks.new) result }
    ensures inside { open_blocks blocks.new ≢ [] }
{
    let rest = pass_nesting(blocks, input);
    let size = input.len() - rest.len();
    if size == 0 { None } else { Some(size) }
}

/// Goes past operators that open blocks, close them or begin an `else`, as far as it can.
#[inline(always)]
fn pass_nesting<'a>(blocks: &mut Blocks, input: &'a [u8]) -> &'a [u8]
    requires { open_blocks blocks.old ≢ [] }
    ensures passed { (memory : Bool) → AreOperatorsPassed memory
        (open_blocks blocks.old) input.now (open_blocks blocks.new) result.now }
    ensures kept { length result.now ≡ length input.now →
        open_blocks blocks.new ≡ open_blocks blocks.old }
    ensures inside { open_blocks blocks.new ≢ [] }
{
    let mut rest = input;
    while let Some(size) = pass_nesting_operator(blocks, rest) {
        let (_, left) = rest.split_at(size);
        rest = left;
    }
    rest
}

/// Goes past an operator that opens a block, closes one and leaves another open, or begins an `else`, and answers how
/// many bytes it has; `None`, and the same blocks, where it is not passed over.
#[inline(always)]
fn pass_nesting_operator(blocks: &mut Blocks, input: &[u8]) -> Option<usize>
    requires { open_blocks blocks.old ≢ [] }
    ensures passed { (memory : Bool) → PassesOperator memory
        (open_blocks blocks.old) input.now (open_blocks blocks.new) result }
    ensures inside { open_blocks blocks.new ≢ [] }
{
    let (first, rest) = input.split_first()?;
    match pass_kind(*first) {
        PassKind::Block => pass_block_start(blocks, rest, false),
        PassKind::If => pass_block_start(blocks, rest, true),
        PassKind::Else => one_byte_if(blocks.begin_else_in_word()),
        PassKind::End => one_byte_if(blocks.close_in_word()),
        _ => None,
    }
}

/// Goes past operators that are their code alone, or have one number of one byte, as far as it can; but not past the
/// last byte.
#[inline(always)]
fn pass_short<'a>(input: &'a [u8]) -> &'a [u8]
    ensures { (memory : Bool) (blocks : List Bool) → blocks ≢ [] →
        AreOperatorsPassed memory blocks input.now blocks result.now }
{
    let mut rest = input;
    while let Some(size) = short_operator_size(rest) {
        let (_, left) = rest.split_at(size);
        rest = left;
    }
    rest
}

/// The size of an operator that is its code alone, or has one number of one byte, where another byte follows its code.
#[inline(always)]
fn short_operator_size(input: &[u8]) -> Option<usize>
    ensures { SizesShort input.now result }
{
    let (code, rest) = input.split_first()?;
    let (number, _) = rest.split_first()?;
    if *number >= MORE_BYTES {
        return None;
    }
    let size = short_size(*code);
    // No size is above 2. Where this is said, the compiler needs no test to split the bytes there.
    if size == 0 || size > 2 {
        return None;
    }
    Some(usize::from(size))
}

/// The size of an operator that is its code alone, where it was passed over.
#[inline(always)]
fn one_byte_if(passed: bool) -> Option<usize>
    ensures { result ≡ (if passed then Some 1 else None) }
{
    if passed { Some(1) } else { None }
}

/// Opens a block whose type is one byte, where it is not the last of a word, and answers the size of the operator that
/// opens it.
#[inline(always)]
fn pass_block_start(blocks: &mut Blocks, input: &[u8], is_if: bool) -> Option<usize>
    ensures { PassesBlockStart is_if
        (open_blocks blocks.old) input.now (open_blocks blocks.new) result }
{
    let (first, _) = input.split_first()?;
    if is_plain_type(*first) && blocks.open_in_word(is_if) {
        Some(2)
    } else {
        None
    }
}

/// Whether a byte is a block's type by itself, one that names no item.
#[inline(always)]
fn is_plain_type(byte: u8) -> bool
    ensures { result ≡ true → IsPlainType byte }
{
    match byte {
        EMPTY_BLOCK => true,
        0x7f => true,
        0x7e => true,
        0x7d => true,
        0x7c => true,
        0x7b => true,
        0x70 => true,
        0x6f => true,
        _ => false,
    }
}
