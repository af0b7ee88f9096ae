//! The call that makes the plan of a component.

ghost use Rattle.std.specs.Prelude.{◌≡◌, ◌≢◌, ◌≤◌, IfErr, IfOk, OnOk};
ghost use Rattle.wc_plan.specs.Fault.{HasNoFault};
ghost use Rattle.wc_world.specs.Nameable.{AreNameable};
ghost use Rattle.wc_plan.specs.Plans.{plan_of};
ghost use Rattle.wc_record.specs.Texts.{plan_text};
ghost use Rattle.wc_world.specs.WorldViews.{world_view};
ghost use Rattle.wc_calls.specs.Answers.{AreOthersOfTextZero, IsPut, IsTextStatus, IsTooLong, bad_argument, done, failed, same, too_small};
ghost use Rattle.wc_calls.specs.ComponentPlans.{IsPlanAnswer};
ghost use Rattle.wc_calls.specs.ComponentWorlds.{IsFaultOf};
ghost use Rattle.wc_calls.specs.FaultAnswers.{IsFaultAnswered};
ghost use Rattle.wc_calls.specs.Private.EncoderAnswers.{IsPlanPlaceFor, IsPlanFaultFor, IsPlanFor};
ghost use Rattle.wc_calls.specs.Private.OptionTables.{table_options};
ghost use Rattle.wc_calls.specs.Private.PlannedAnswers.{IsPlanRefusalOf};
ghost use Rattle.wc_calls.specs.Private.Refusals.{IsPlanPlacedFor};

use crate::answers::{Answer, put};
use crate::component_worlds::made_world;
use crate::encoders::{WorldInput, world_input};
use crate::explained::answer_refused;
use crate::refusals::{RefusedMessage, plan_refusal};
use std::alloc::Global;
use wc_maps::Seed;
use wc_plan::laws::worlds_nameable;
use wc_plan::plan_explained;
use wc_record::plan_to_json;
use wc_world::ComponentWorld;

/// The plan of a component's world, as JSON.
fn answer_of_world(alloc: Global, world: &ComponentWorld<'_>) -> Result<Vec<u8>, RefusedMessage>
    requires { AreNameable (world_view world.now) }
    ensures servable { OnOk result (HasNoFault (world_view world.now)) }
    ensures answer { IfOk result (λ v. v.items ≡ plan_text (plan_of (world_view world.now))) }
    ensures refusal { IfErr result (IsPlanRefusalOf (world_view world.now)) }
{
    match plan_explained(alloc, world) {
        Ok(plan) => Ok(plan_to_json(alloc, &plan)?),
        Err(refused) => Err(plan_refusal(refused)),
    }
}

/// The plan of an encoder and options, as JSON.
fn answer_of_input(alloc: Global, input: &WorldInput) -> Result<Vec<u8>, RefusedMessage>
    ensures answer { IfOk result (λ v. IsPlanFor (table_options input.now.options)
        input.now.encoder v.items) }
    ensures fault { IfErr result (λ x. IsPlanFaultFor (table_options input.now.options)
        input.now.encoder x.fault) }
    ensures place { IfErr result (λ x. IsPlanPlacedFor (table_options input.now.options)
        input.now.encoder x.fault x.place) }
{
    worlds_nameable(&input.encoder);
    match made_world(alloc, input) {
        Ok(world) => answer_of_world(alloc, &world),
        Err(refused) => Err(refused),
    }
}

/// Makes the plan of an encoder's component: `plan`.
fn plan_for(alloc: Global, input: &WorldInput, out: &mut [u8]) -> Answer
    ensures done { result.status ≡ done
        → IsPut (IsPlanFor (table_options input.now.options) input.now.encoder) result.length
        out.old out.new }
    ensures too_small { result.status ≡ too_small
        → IsTooLong (IsPlanFor (table_options input.now.options) input.now.encoder)
        result.length out.old }
    ensures fault { result.status ≡ failed
        → IsFaultAnswered (IsPlanFaultFor (table_options input.now.options) input.now.encoder)
        (IsPlanPlaceFor (table_options input.now.options) input.now.encoder)
        result out.old out.new }
    ensures module_length { result.module_length ≡ 0 }
    ensures unchanged { result.status ≢ done → result.status ≢ failed → out.new ≡ out.old }
    ensures statuses { IsTextStatus result.status }
    ensures others { AreOthersOfTextZero result }
{
    match answer_of_input(alloc, input) {
        Ok(answer) => put(&[], &answer, out),
        Err(refused) => answer_refused(alloc, refused, out),
    }
}

/// Makes the plan of a component: the needs of each function that its core modules import. It is the plan that
/// `plan_encoder` of `wc_plan` makes with the options of the message. `message`, `modules` and `seed` are as for
/// `world`.
///
/// - `DONE`: `out` begins with the plan as JSON, written as `wc_record::plan_to_json` writes it; `length` is its
///   length in bytes.
/// - `TOO_SMALL`: the plan would have `length` bytes, and `out` has fewer.
/// - `FAULT`: no plan exists. The answer has the fault's number (`MessageFault::number`), and its text and details as
///   for `world`. The fault neither is nor carries a `Memory`. The details of a fault of the plan itself are about
///   the imported function that it concerns (`wc_record::plan_place_to_json`).
/// - `MEMORY`: an allocation failed.
///
/// The status is never `SAME` or `BAD_ARGUMENT`. `out` changes only with `DONE` and `FAULT`, and only in its first
/// `length` bytes. Numbers of the answer that are not mentioned here are 0.
pub fn plan(alloc: Global, seed: Seed, message: &[u8], modules: &[u8], out: &mut [u8]) -> Answer
    ensures done { result.status ≡ done
        → IsPut (IsPlanAnswer message.now modules.now) result.length out.old out.new }
    ensures too_small { result.status ≡ too_small
        → IsTooLong (IsPlanAnswer message.now modules.now) result.length out.old }
    ensures fault { result.status ≡ failed → IsFaultOf message.now modules.now
        result out.old out.new }
    ensures module_length { result.module_length ≡ 0 }
    ensures unchanged { result.status ≢ done → result.status ≢ failed → out.new ≡ out.old }
    ensures statuses { (result.status ≤ 5) × (result.status ≢ same)
        × (result.status ≢ bad_argument) }
    ensures others { AreOthersOfTextZero result }
{
    match world_input(alloc, seed, message, modules) {
        Ok(input) => plan_for(alloc, &input, out),
        Err(refused) => answer_refused(alloc, refused, out),
    }
}
