//! The body at which a search for live items stops.

ghost use Rattle.std.specs.Prelude.{◌≡◌, IfOk, MatchOption, true};
ghost use Rattle.wc_read.specs.BodyOperators.{body_in};
ghost use Rattle.wc_read.specs.Operators.{instr_values};
ghost use Rattle.wc_read.specs.Decoded.{decoded_module};
ghost use Rattle.wc_gc.specs.InRange.{is_code_in_range};
ghost use Rattle.wc_gc.specs.TrimPlace.{IsFirstOutside, IsOperatorPlace, body_at};
ghost use Rattle.wc_gc.specs.Private.TrimPlace.{IsBodyRefusal, IsStopRefusal};

use crate::fault::GcFault;
use crate::live::BitVec;
use crate::search::{Search, Stop};
use crate::trim_place::{Refusal, TrimPlace};
use std::alloc::{AllocError, Global};
use wc_read::{Def, Instr, Module, ReadFault, read_body};
use wc_texts::Refused;

/// A refusal for what stopped a search. The body at which it stopped is read again, for its operator.
pub fn stopped(alloc: Global, adapter: &Module<'_>, stop: Stop) -> Refusal
    ensures { IsStopRefusal (decoded_module adapter.now) stop result }
{
    match stop {
        Stop::Memory => Refused::without_place(GcFault::Memory),
        Stop::Body(function) => refused_body(alloc, adapter, function),
    }
}

/// A refusal for the body of a function.
fn refused_body(alloc: Global, adapter: &Module<'_>, function: u32) -> Refusal
    ensures { IsBodyRefusal (decoded_module adapter.now) function result }
{
    match outside_operator(alloc, adapter, function) {
        Ok(operator) => Refused {
            fault: GcFault::LiveBody,
            place: Some(TrimPlace::Body { function, operator }),
        },
        Err(_) => Refused::without_place(GcFault::Memory),
    }
}

/// The first operator of a function that names what is not there.
fn outside_operator(
    alloc: Global,
    adapter: &Module<'_>,
    function: u32,
) -> Result<Option<usize>, AllocError>
    ensures { IfOk result (IsOperatorPlace (decoded_module adapter.now)
        (body_at (decoded_module adapter.now) function)) }
{
    match adapter.funcs.get(function as usize) {
        Some(func) => match func.def {
            Def::Import(_, _) => Ok(None),
            Def::Local(bytes) => outside_in_body(alloc, adapter, bytes),
        },
        None => Ok(None),
    }
}

/// The first operator of a body that names what is not there.
fn outside_in_body(
    alloc: Global,
    adapter: &Module<'_>,
    bytes: &[u8],
) -> Result<Option<usize>, AllocError>
    ensures { IfOk result
        (IsOperatorPlace (decoded_module adapter.now) (body_in bytes.now)) }
{
    match read_body(alloc, bytes) {
        Ok(body) => first_outside(alloc, adapter, &body.operators),
        Err(refusal) => match refusal {
            ReadFault::Memory => Err(AllocError),
            _ => Ok(None),
        },
    }
}

/// The first of these operators that names what is not there.
fn first_outside(
    alloc: Global,
    adapter: &Module<'_>,
    code: &[Instr<'_>],
) -> Result<Option<usize>, AllocError>
    ensures { IfOk result (λ k. MatchOption k
        (is_code_in_range (decoded_module adapter.now) (instr_values code.now) ≡ true)
        (IsFirstOutside (decoded_module adapter.now) (instr_values code.now))) }
{
    let mut search = Search::<BitVec>::new(alloc);
    for index in 0..code.len() {
        if !search.reach_operator(adapter, &code[index])? {
            return Ok(Some(index));
        }
    }
    Ok(None)
}
