//! Bodies of functions.

ghost use Rattle.std.specs.Prelude.{◌≡◌, ◌≢◌, ◌^◌, nat_lt, IfOk, IfErr};
ghost use Rattle.wc_read.specs.Formats.{SpellsItems};
ghost use Rattle.wc_read.specs.Fault.{IfRefused, SpellsNothing};
ghost use Rattle.wc_read.specs.Operators.{SpellsInstr, instr_values};
ghost use Rattle.wc_read.specs.Bodies.{body_value, local_count, SpellsBody};
ghost use Rattle.wc_read.specs.Reading.Bodies.{locals_at};
ghost use Rattle.wc_read.specs.declared.bodies.Locals.{Locals as locals_run};

use crate::fault::ReadFault;
use crate::nesting::nests;
use crate::operators::Instr;
use crate::reader::{Reader, Spelled};
use crate::types::ValType;
use std::alloc::Global;

/// A run of locals of one type (WebAssembly core specification, 5.5.13).
#[derive(Clone, Copy, Debug, PartialEq, Eq)]
pub struct Locals {
    /// How many locals the run has, 0 included.
    pub count: u32,
    pub ty: ValType,
}

/// A function's body (5.5.13): its locals in runs, and its operators, the end of the body as the last of them. The runs
/// of a body that was read have less than 2^32 locals together.
#[derive(Debug, PartialEq, Eq, Drop)]
pub struct Body<'a> {
    pub locals: Vec<Locals>,
    pub operators: Vec<Instr<'a>>,
}

impl<'a> Spelled<'a> for Locals {
    ghost Value = { locals_run };

    ghost view = { λ l. l };

    ghost read = { locals_at };

    #[tactic(auto, unfolding(crate::specs::Reading::Bodies::locals_at))]
    fn read_from(_alloc: Global, reader: &mut Reader<'a>) -> Result<Locals, ReadFault> {
        let count = reader.u32()?;
        let ty = reader.val_type()?;
        Ok(Locals { count, ty })
    }
}

/// Reads a function's body (WebAssembly core specification, 5.5.13): runs of locals, and operators to the end
/// of the bytes.
///
/// Indices, labels and types of operands are not checked.
///
/// # Errors
///
/// - `Truncated`: the bytes end inside the locals or an operator.
/// - `BadNumber`: a number does not fit its bits in LEB128, flags of a memory argument are 128 or more, or the index of
///   the type of a block is negative.
/// - `BadType`: a byte is no value type, or the index of a type in a reference is negative.
/// - `TooLarge`: there are 2^32 locals or more.
/// - `UnknownOperator`: an opcode is not assigned, or the byte of a fence is not 0.
/// - `BadNesting`: blocks do not nest, an `else` is not the only one of an `if`, or the last operator is not
///   the `end` of the body.
/// - `Memory`: an allocation failed.
pub fn read_body(alloc: Global, slice: &[u8]) -> Result<Body<'_>, ReadFault>
    // What is read is spelled so, by all of the bytes.
    ensures found { IfOk result (λ b. SpellsBody slice.now (body_value b)) }
    // Unless memory runs out, what is spelled is read.
    ensures refused { IfRefused result (SpellsNothing SpellsBody slice.now) }
    ensures no_component { IfErr result (λ f. f ≢ ReadFault.Component) }
{
    let mut reader = Reader::new(slice);
    let locals = reader.vector::<Locals>(alloc)?;
    if !counts_fit_u32(&locals) {
        return Err(ReadFault::TooLarge);
    }
    let operators = operators(alloc, reader.rest)?;
    if !nests(alloc, &operators)? {
        return Err(ReadFault::BadNesting);
    }
    Ok(Body { locals, operators })
}

/// Whether there are less than 2^32 locals.
pub fn counts_fit_u32(locals: &[Locals]) -> bool
    ensures { result ≡ nat_lt (local_count locals.now) (2 ^ 32) }
{
    let mut total: u32 = 0;
    for run in locals {
        match total.checked_add(run.count) {
            Some(sum) => total = sum,
            None => return false,
        }
    }
    true
}

/// Operators to the end of the bytes.
fn operators(alloc: Global, bytes: &[u8]) -> Result<Vec<Instr<'_>>, ReadFault>
    ensures found { IfOk result (λ v. SpellsItems SpellsInstr bytes.now (instr_values v.items)) }
    ensures refused { IfRefused result (SpellsNothing (SpellsItems SpellsInstr) bytes.now) }
    ensures no_component { IfErr result (λ f. f ≢ ReadFault.Component) }
{
    let mut reader = Reader::new(bytes);
    let mut operators = Vec::with_capacity(alloc, room_for(bytes))?;
    while !reader.rest.is_empty() {
        reader.push_operator(alloc, &mut operators)?;
    }
    Ok(operators)
}

/// How many operators to make room for at once. Most are of two bytes, and most bodies are short.
fn room_for(bytes: &[u8]) -> usize {
    (bytes.len() / 2).min(1024)
}
