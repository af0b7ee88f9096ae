//! Faults of messages as answers: their numbers, their texts, and after these what they are about.

ghost use Rattle.std.specs.Prelude.{◌≡◌, ◌≢◌, ◌⊎◌, false};
ghost use Rattle.wc_calls.specs.Answers.{AreOthersOfTextZero, failed, out_of_memory};
ghost use Rattle.wc_calls.specs.FaultAnswers.{IsFaultAnswer};
ghost use Rattle.wc_calls.specs.MemoryFaults.{is_memory};
ghost use Rattle.wc_calls.specs.MessageFault.{message_fault_text};

use crate::answers::{Answer, FAULT, MEMORY, answer_without_bytes, put};
use crate::memory_faults::is_memory;
use crate::message_fault::MessageFault;
use std::alloc::Global;
use wc_texts::text_of;

/// Writes the text of a fault, and what it is about, to the front of the buffer, if it has room for both.
fn put_fault(fault: &MessageFault, text: &str, place: &[u8], out: &mut [u8]) -> Answer
    requires { text.now ≡ message_fault_text fault.now }
    ensures { IsFaultAnswer fault.now place.now result out.old out.new }
{
    let answer = put(text.as_bytes(), place, out);
    Answer {
        status: FAULT,
        fault: fault.number(),
        length: answer.length,
        module_length: 0,
        position: text.len(),
    }
}

/// Answers a fault with what it is about (`place`); one that is or carries a `Memory` as that an allocation failed.
pub(crate) fn answer_fault(
    alloc: Global,
    fault: &MessageFault,
    place: &[u8],
    out: &mut [u8],
) -> Answer
    ensures fault { result.status ≡ failed
        → IsFaultAnswer fault.now place.now result out.old out.new }
    ensures memory { result.status ≡ failed → is_memory fault.now ≡ false }
    ensures unchanged { result.status ≢ failed → out.new ≡ out.old }
    ensures statuses { (result.status ≡ failed) ⊎ (result.status ≡ out_of_memory) }
    ensures others { AreOthersOfTextZero result }
{
    if is_memory(fault) {
        return answer_without_bytes(MEMORY);
    }
    match text_of(alloc, fault) {
        Ok(text) => put_fault(fault, &text, place, out),
        Err(_) => answer_without_bytes(MEMORY),
    }
}
