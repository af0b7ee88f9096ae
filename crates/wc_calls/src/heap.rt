//! Large values on the heap. Who owns one there owns a pointer alone, and lends the value at little cost for the proof.

ghost use Rattle.std.specs.Prelude.{◌≡◌, IfErr, IfOk};
ghost use Rattle.wc_calls.specs.Private.Refusals.{IsWithoutPlace};
ghost use Rattle.wc_calls.specs.declared.message_fault.MessageFault.TheVariants.{Memory};

use crate::refusals::RefusedMessage;
use std::alloc::Global;

/// A value on the heap.
pub(crate) fn heaped<T: Drop>(alloc: Global, value: T) -> Result<Box<T>, RefusedMessage>
    ensures value { IfOk result (λ b. b.value ≡ value) }
    ensures fault { IfErr result (IsWithoutPlace Memory) }
{
    Ok(Box::new(alloc, value)?)
}
