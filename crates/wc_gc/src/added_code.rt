//! The code that trimming adds: a realloc that grows memory, and the allocation of a stack.

ghost use Rattle.std.specs.Prelude.{◌≡◌, ◌++◌, ◌≤◌, ◌<◌, ◌^◌, IfOk, IfSome, OnOk};
ghost use Rattle.std.specs.List.{flat_map};
ghost use Rattle.wc_write.specs.Bodies.{body_text};
ghost use Rattle.wc_write.specs.Values.{IsU32};
ghost use Rattle.wc_gc.specs.AddedCode.{allocation, allocation_once, growing_body, growth, shifted, stack_body, stack_code, trap_unless};
ghost use Rattle.wc_gc.specs.MachineLaws.{IsGrowingRealloc, IsStackCode, SpellsOnly};
ghost use Rattle.wc_gc.specs.Private.MachineOperators.{operator_text};
ghost use Rattle.wc_write.specs.Modules.{operators_text};

use crate::machine_laws::{added_bodies_are_spellable, growing_body_grows, stack_body_allocates};
use crate::machine_operators::MachineOperator::{
    self, Call, End, GlobalGet, GlobalSet, I32Add, I32Const, I32Eq, I32Ne, I32Shl, If, LocalGet,
    LocalTee, MemoryGrow, Unreachable,
};
use crate::machine_operators::instr_of;
use std::alloc::{AllocError, Global};
use wc_read::{Locals, ValType};
use wc_write::laws::body_text_read;
use wc_write::{append_locals, append_operator};

/// The bytes of a stack, and of the only block that the growing realloc gives out.
const STACK_SIZE: u32 = 65536;

/// The growing realloc's parameter for an old pointer.
const OLD_POINTER: u32 = 0;

/// Its parameter for an old length.
const OLD_LENGTH: u32 = 1;

/// Its parameter for a new length.
const NEW_LENGTH: u32 = 3;

/// Its local for the memory's old size.
const OLD_SIZE: u32 = 4;

/// The state of a stack that is not allocated.
const UNALLOCATED: i32 = 0;

/// The state during the allocation.
const ALLOCATING: i32 = 1;

/// The state of a stack that is allocated.
const ALLOCATED: i32 = 2;

/// The body, without its size, of a realloc that grows memory 0, whose pages have 2^`page_size_log2` bytes. Its
/// parameters are an old pointer, an old length, an alignment and a new length. It traps unless the first two are 0 and
/// the last is 65536, and where the memory cannot grow; else it answers where the new pages begin. The exponent is at
/// most 16.
///
/// # Errors
///
/// `AllocError`: an allocation failed.
pub fn realloc_via_memory_grow(alloc: Global, page_size_log2: u32) -> Result<Vec<u8>, AllocError>
    requires { page_size_log2 ≤ 16 }
    ensures written { IfOk result (λ v. v.items ≡ body_text (growing_body page_size_log2 0)) }
    // What the body does on a small machine.
    ensures grows { IfOk result (λ v. SpellsOnly (IsGrowingRealloc page_size_log2) v.items) }
{
    body_text_read();
    added_bodies_are_spellable();
    growing_body_grows();
    let mut body = Vec::new(alloc);
    append_growing_body(&mut body, page_size_log2)?;
    Ok(body)
}

/// The body, without its size, of a function that allocates a stack of 65536 bytes: it asks `realloc`, a function's
/// index, for a block, and sets the global `sp` to the block's end. With a global `state` it does so only where that is
/// 0, which becomes 1 before the call and 2 after it.
///
/// # Errors
///
/// `AllocError`: an allocation failed.
pub fn allocate_stack_via_realloc(
    alloc: Global,
    realloc: u32,
    sp: u32,
    state: Option<u32>,
) -> Result<Vec<u8>, AllocError>
    ensures written { IfOk result (λ v. v.items ≡ body_text (stack_body realloc sp state)) }
    // What the body does on a small machine.
    ensures allocates { IfOk result (λ v. SpellsOnly (IsStackCode realloc sp state) v.items) }
{
    body_text_read();
    added_bodies_are_spellable();
    stack_body_allocates();
    index_is_u32(state);
    let mut body = Vec::new(alloc);
    append_stack_body(&mut body, realloc, sp, state)?;
    Ok(body)
}

/// An index has 32 bits.
fn index_is_u32(index: Option<u32>)
    ensures { IfSome index IsU32 }
{}

/// Appends the body of the growing realloc.
pub(crate) fn append_growing_body(out: &mut Vec<u8>, page_size_log2: u32) -> Result<(), AllocError>
    requires { page_size_log2 ≤ 16 }
    ensures { OnOk result (out.new.items
        ≡ out.old.items ++ body_text (growing_body page_size_log2 0)) }
{
    append_locals(
        out,
        &[Locals {
            count: 1,
            ty: ValType::I32,
        }],
    )?;
    append_trap_unless(out, OLD_POINTER, 0)?;
    append_trap_unless(out, OLD_LENGTH, 0)?;
    append_trap_unless(out, NEW_LENGTH, STACK_SIZE)?;
    append_growth(out, STACK_SIZE >> page_size_log2)?;
    append_shift(out, page_size_log2)?;
    append_code(out, &[End])
}

/// Appends the body that allocates a stack.
pub(crate) fn append_stack_body(
    out: &mut Vec<u8>,
    realloc: u32,
    sp: u32,
    state: Option<u32>,
) -> Result<(), AllocError>
    ensures { OnOk result (out.new.items
        ≡ out.old.items ++ body_text (stack_body realloc sp state)) }
{
    append_locals(out, &[])?;
    append_stack_code(out, realloc, sp, state)?;
    append_code(out, &[End])
}

/// Appends the allocation of a stack, only where the state is 0 if there is one.
fn append_stack_code(
    out: &mut Vec<u8>,
    realloc: u32,
    sp: u32,
    state: Option<u32>,
) -> Result<(), AllocError>
    ensures { OnOk result (out.new.items
        ≡ out.old.items ++ operators_text (stack_code realloc sp state)) }
{
    match state {
        Some(state) => append_allocation_once(out, realloc, sp, state),
        None => append_allocation(out, realloc, sp),
    }
}

/// Appends the allocation of a stack where a state is 0, which is 1 before the call and 2 after it. So code that runs
/// during the call allocates nothing.
fn append_allocation_once(
    out: &mut Vec<u8>,
    realloc: u32,
    sp: u32,
    state: u32,
) -> Result<(), AllocError>
    ensures { OnOk result (out.new.items
        ≡ out.old.items ++ operators_text (allocation_once realloc sp state)) }
{
    append_code(
        out,
        &[
            GlobalGet(state),
            I32Const(UNALLOCATED),
            I32Eq,
            If,
            I32Const(ALLOCATING),
            GlobalSet(state),
        ],
    )?;
    append_allocation(out, realloc, sp)?;
    append_code(out, &[I32Const(ALLOCATED), GlobalSet(state), End])
}

/// Appends operators, one after another.
fn append_code(out: &mut Vec<u8>, code: &[MachineOperator]) -> Result<(), AllocError>
    ensures { OnOk result (out.new.items ≡ out.old.items ++ flat_map operator_text code.now) }
{
    for operator in code {
        append_operator(out, &instr_of(*operator))?;
    }
    Ok(())
}

/// Appends a trap, taken unless a local is a number.
fn append_trap_unless(out: &mut Vec<u8>, local: u32, number: u32) -> Result<(), AllocError>
    requires { number < 2 ^ 31 }
    ensures { OnOk result (out.new.items
        ≡ out.old.items ++ operators_text (trap_unless local number)) }
{
    append_code(
        out,
        &[
            I32Const(number as i32),
            LocalGet(local),
            I32Ne,
            If,
            Unreachable,
            End,
        ],
    )
}

/// Appends the growth of memory 0 by a number of pages, with a trap where it is refused.
fn append_growth(out: &mut Vec<u8>, pages: u32) -> Result<(), AllocError>
    requires { pages < 2 ^ 31 }
    ensures { OnOk result (out.new.items ≡ out.old.items ++ operators_text (growth pages 0)) }
{
    append_code(
        out,
        &[
            I32Const(pages as i32),
            MemoryGrow(0),
            LocalTee(OLD_SIZE),
            I32Const(-1),
            I32Eq,
            If,
            Unreachable,
            End,
            LocalGet(OLD_SIZE),
        ],
    )
}

/// Appends the call of a realloc for a stack, and sets the stack pointer to the end of the block.
fn append_allocation(out: &mut Vec<u8>, realloc: u32, sp: u32) -> Result<(), AllocError>
    ensures { OnOk result (out.new.items
        ≡ out.old.items ++ operators_text (allocation realloc sp)) }
{
    append_code(
        out,
        &[
            I32Const(0),
            I32Const(0),
            I32Const(8),
            I32Const(STACK_SIZE as i32),
            Call(realloc),
            I32Const(STACK_SIZE as i32),
            I32Add,
            GlobalSet(sp),
        ],
    )
}

/// Appends the index of a byte in place of that of its page.
fn append_shift(out: &mut Vec<u8>, page_size_log2: u32) -> Result<(), AllocError>
    requires { page_size_log2 ≤ 16 }
    ensures { OnOk result (out.new.items
        ≡ out.old.items ++ operators_text (shifted page_size_log2)) }
{
    if page_size_log2 == 0 {
        return Ok(());
    }
    append_code(out, &[I32Const(page_size_log2 as i32), I32Shl])
}
