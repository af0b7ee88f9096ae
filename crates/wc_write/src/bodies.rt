//! Bodies of functions (WebAssembly core specification, 5.5.13).

ghost use Rattle.std.specs.Prelude.{◌≡◌, ◌++◌, IfOk, OnOk, IsOk, IsErrOf};
ghost use Rattle.wc_read.specs.Bodies.{BodyValue, body_value};
ghost use Rattle.wc_read.specs.Operators.{WithIndex, instr_value};
ghost use Rattle.wc_write.specs.Text.{FitsSize, ExceedsSize, vector_text};
ghost use Rattle.wc_write.specs.Operators.{instr_text};
ghost use Rattle.wc_write.specs.Bodies.{locals_text, body_text};

use crate::fault::WriteFault;
use crate::numbers::put_number;
use crate::types::put_val_type;
use crate::vectors::{Written, put_all, put_vector};
use std::alloc::{AllocError, Global};
use wc_read::{Body, Immediates, Index, Instr, Locals, Opcode};

impl Written for Locals {
    ghost text = { locals_text };

    fn put(&self, out: &mut Vec<u8>) -> Result<(), AllocError> {
        put_number(out, u64::from(self.count))?;
        put_val_type(out, self.ty)
    }
}

/// A body of a function that can append its text, without its size (5.5.13).
pub trait BodyText: Sized + Drop {
    /// The body.
    ghost body: { Self → BodyValue };

    /// Appends the text of the body.
    ///
    /// # Errors
    ///
    /// `AllocError`: an allocation failed.
    fn put(&self, out: &mut Vec<u8>) -> Result<(), AllocError>
        ensures { OnOk result (out.new.items ≡ out.old.items ++ body_text (body self.now)) };
}

impl<'a> BodyText for Body<'a> {
    ghost body = { body_value };

    fn put(&self, out: &mut Vec<u8>) -> Result<(), AllocError> {
        put_body(out, self)
    }
}

/// Appends a body without its size.
pub(crate) fn put_body(out: &mut Vec<u8>, body: &Body<'_>) -> Result<(), AllocError>
    ensures { OnOk result (out.new.items ≡ out.old.items ++ body_text (body_value body.now)) }
{
    put_vector(out, &body.locals)?;
    put_all(out, &body.operators)?;
    Ok(())
}

/// Appends the runs of a body's locals, with which its text begins (5.5.13).
///
/// # Errors
///
/// `AllocError`: an allocation failed.
pub fn append_locals(out: &mut Vec<u8>, locals: &[Locals]) -> Result<(), AllocError>
    ensures { OnOk result (out.new.items ≡ out.old.items ++ vector_text locals_text locals.now) }
{
    put_vector(out, locals)
}

/// Appends an operator (5.4).
///
/// # Errors
///
/// `AllocError`: an allocation failed.
pub fn append_operator(out: &mut Vec<u8>, operator: &Instr<'_>) -> Result<(), AllocError>
    ensures { OnOk result (out.new.items
        ≡ out.old.items ++ instr_text (instr_value operator.now)) }
{
    operator.put(out)
}

/// Appends an operator that has one index and no other immediates (5.4), as `append_operator` does.
///
/// # Errors
///
/// `AllocError`: an allocation failed.
#[inline(always)]
#[tactic(auto, unfolding(crate::specs::Operators::instr_text, crate::specs::Operators::immediates_text))]
pub fn append_index_operator(
    out: &mut Vec<u8>,
    opcode: Opcode,
    index: Index,
) -> Result<(), AllocError>
    ensures { OnOk result (out.new.items ≡ out.old.items
        ++ instr_text (record { opcode = opcode; immediates = WithIndex index })) }
{
    match opcode {
        Opcode::Byte(code) => {
            out.push(code)?;
            put_number(out, u64::from(index.number))
        }
        _ => append_operator(
            out,
            &Instr {
                opcode,
                immediates: Immediates::Index(index),
            },
        ),
    }
}

/// A function's body without its size (WebAssembly core specification, 5.4 and 5.5.13): its runs of locals unchanged,
/// and its operators, each number as minimal LEB128. A memory argument names its memory exactly where that is not 0.
///
/// Nothing but the size is checked. `laws::body_text_read` says of which bodies the bytes are an encoding.
///
/// # Errors
///
/// - `TooLarge`: the body has 2^32 bytes or more.
/// - `Memory`: an allocation failed.
pub fn write_body(alloc: Global, body: &Body<'_>) -> Result<Vec<u8>, WriteFault>
    ensures written { IfOk result (λ v. v.items ≡ body_text (body_value body.now)) }
    ensures fits { IsOk result → FitsSize (body_text (body_value body.now)) }
    ensures too_large { IsErrOf result WriteFault.TooLarge →
        ExceedsSize (body_text (body_value body.now)) }
{
    let mut text = Vec::new(alloc);
    put_body(&mut text, body)?;
    if text.len() > u32::MAX as usize {
        return Err(WriteFault::TooLarge);
    }
    Ok(text)
}
