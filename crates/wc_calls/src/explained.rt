//! Faults of messages, of their components' worlds and of plans, with what they are about.

ghost use Rattle.std.specs.Prelude.{◌≡◌, ◌≢◌, ◌⊎◌};
ghost use Rattle.wc_calls.specs.Answers.{AreOthersOfTextZero, failed, out_of_memory};
ghost use Rattle.wc_calls.specs.FaultAnswers.{IsFaultAnswered};
ghost use Rattle.wc_calls.specs.Private.Refusals.{refusal_text};

use crate::answers::{Answer, MEMORY, answer_without_bytes};
use crate::fault_answers::answer_fault;
use crate::places::refusal_text;
use crate::refusals::RefusedMessage;
use std::alloc::Global;

/// Answers why a message is refused, with what this is about.
pub(crate) fn answer_refused(alloc: Global, refused: RefusedMessage, out: &mut [u8]) -> Answer
    ensures fault { result.status ≡ failed → IsFaultAnswered (λ f. f ≡ refused.fault)
        (λ _ text. text ≡ refusal_text refused.fault refused.place)
        result out.old out.new }
    ensures unchanged { result.status ≢ failed → out.new ≡ out.old }
    ensures statuses { (result.status ≡ failed) ⊎ (result.status ≡ out_of_memory) }
    ensures others { AreOthersOfTextZero result }
{
    answer_refusal(alloc, &refused, out)
}

/// Answers a refusal, with what this is about.
fn answer_refusal(alloc: Global, refused: &RefusedMessage, out: &mut [u8]) -> Answer
    ensures fault { result.status ≡ failed → IsFaultAnswered (λ f. f ≡ refused.now.fault)
        (λ _ text. text ≡ refusal_text refused.now.fault refused.now.place)
        result out.old out.new }
    ensures unchanged { result.status ≢ failed → out.new ≡ out.old }
    ensures statuses { (result.status ≡ failed) ⊎ (result.status ≡ out_of_memory) }
    ensures others { AreOthersOfTextZero result }
{
    match refusal_text(alloc, refused) {
        Ok(place) => answer_fault(alloc, &refused.fault, &place, out),
        Err(_) => answer_without_bytes(MEMORY),
    }
}
