//! Texts and faults as answers. Of a fault that is its number, its text, and after that what it is about.

ghost use Rattle.std.specs.Prelude.{◌≡◌, IfOk};
ghost use Rattle.wc_component_calls.specs.FaultAnswers.{IsFaultAnswer};
ghost use Rattle.wc_component_calls.specs.Private.Answered.{IsAnswered, IsFaultIn, IsSaid, IsTextIn};

use crate::component_fault::{ComponentFault, is_memory};
use crate::places::place_text;
use std::alloc::{AllocError, Global};
use wc_calls::{Answer, MEMORY, answer_without_bytes, put, put_refusal};
use wc_texts::text_of;

/// The text of a fault, which has so many bytes, and then what it is about.
#[derive(Drop)]
pub(crate) struct Said {
    text_length: usize,
    bytes: Vec<u8>,
}

/// Answers a text, or the fault that there is none.
pub(crate) fn answer_text(
    alloc: Global,
    made: Result<Vec<u8>, ComponentFault>,
    out: &mut [u8],
) -> Answer
    ensures { IsAnswered (IsTextIn made) (IsFaultIn made) result out.old out.new }
{
    match made {
        Ok(text) => put_text(&text, out),
        Err(fault) => answer_fault(alloc, &fault, out),
    }
}

/// Answers a text.
fn put_text(text: &[u8], out: &mut [u8]) -> Answer
    ensures { IsAnswered (λ t. t ≡ text.now) (λ f. ⊥) result out.old out.new }
{
    put(&[], text, out)
}

/// Answers a fault; one that is or carries a `Memory` as that an allocation failed.
fn answer_fault(alloc: Global, fault: &ComponentFault, out: &mut [u8]) -> Answer
    ensures { IsAnswered (λ t. ⊥) (λ f. f ≡ fault.now) result out.old out.new }
{
    if is_memory(fault) {
        return answer_without_bytes(MEMORY);
    }
    match said_of(alloc, fault) {
        Ok(said) => put_said(fault, &said, out),
        Err(AllocError) => answer_without_bytes(MEMORY),
    }
}

/// The text of a fault, and after it what it is about.
fn said_of(alloc: Global, fault: &ComponentFault) -> Result<Said, AllocError>
    ensures { IfOk result (IsSaid fault.now) }
{
    let text = text_of(alloc, fault)?;
    let place = place_text(alloc, fault)?;
    let text_length = text.len();
    let mut bytes = text.into_bytes();
    bytes.extend_from_slice(&place)?;
    Ok(Said { text_length, bytes })
}

/// Answers a fault, of which this is said.
fn put_said(fault: &ComponentFault, said: &Said, out: &mut [u8]) -> Answer
    requires { IsSaid fault.now said.now }
    ensures { IsFaultAnswer fault.now result out.old out.new }
{
    put_refusal(fault.number(), said.text_length, &said.bytes, out)
}
