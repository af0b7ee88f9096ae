//! The common part of calls on the world of a component that other crates define.

ghost use Rattle.std.specs.Prelude.{ℕ, List};
ghost use Rattle.wc_world.specs.Nameable.{AreNameable};
ghost use Rattle.wc_world.specs.Views.{ComponentWorldView};
ghost use Rattle.wc_world.specs.WorldViews.{world_view};
ghost use Rattle.wc_calls.specs.WorldCalls.{IsAnsweredForWorld};
ghost use Rattle.wc_calls.specs.Private.OptionTables.{table_options};
ghost use Rattle.wc_calls.specs.Private.WorldAnswers.{IsAnsweredFor};
ghost use Rattle.wc_calls.specs.declared.answers.Answer.{Answer};

use crate::answers::Answer;
use crate::component_worlds::made_world;
use crate::encoders::{WorldInput, world_input};
use crate::explained::answer_refused;
use std::alloc::Global;
use wc_maps::Seed;
use wc_plan::laws::worlds_nameable;
use wc_world::ComponentWorld;

/// A call on the world of a component: how the request is answered.
pub trait WorldCall {
    // What it answers: of a world, an answer, and the buffer before and after.
    ghost answers: { Self → ComponentWorldView → Answer → List ℕ → List ℕ → Type 0 };

    /// Answers a request about a world in the front of a buffer, as the calls of this crate do.
    fn answer(&self, alloc: Global, world: &ComponentWorld<'_>, out: &mut [u8]) -> Answer
        requires { AreNameable (world_view world.now) }
        ensures { answers self.now (world_view world.now) result out.old out.new };
}

/// Makes the world of a component, and lets a call answer for it. `message`, `modules` and `seed` are as for `world`.
///
/// - If the world exists, the answer and the content of `out` are those of the call.
/// - `FAULT`: no world exists. The answer has the fault's number (`MessageFault::number`), text and details as for
///   `world`. The fault neither is nor carries a `Memory`.
/// - `MEMORY`: an allocation failed before the world was made.
///
/// Without a world, `out` changes only with `FAULT`, and only in its first `length` bytes; numbers of the answer that
/// are not mentioned here are 0.
pub fn answer_for_world<C: WorldCall>(
    alloc: Global,
    seed: Seed,
    message: &[u8],
    modules: &[u8],
    call: &C,
    out: &mut [u8],
) -> Answer
    ensures { IsAnsweredForWorld (C.answers call.now) message.now modules.now
        result out.old out.new }
{
    match world_input(alloc, seed, message, modules) {
        Ok(input) => answer_for_input(alloc, &input, call, out),
        Err(refused) => answer_refused(alloc, refused, out),
    }
}

/// Lets a call answer for the world of an encoder's component.
fn answer_for_input<C: WorldCall>(
    alloc: Global,
    input: &WorldInput,
    call: &C,
    out: &mut [u8],
) -> Answer
    ensures { IsAnsweredFor (C.answers call.now) (table_options input.now.options)
        input.now.encoder result out.old out.new }
{
    worlds_nameable(&input.encoder);
    match made_world(alloc, input) {
        Ok(world) => call.answer(alloc, &world, out),
        Err(refused) => answer_refused(alloc, refused, out),
    }
}
