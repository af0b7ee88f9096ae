//! The call that makes a component's world and its plan.

ghost use Rattle.std.specs.Prelude.{◌≡◌, ◌≢◌, ◌++◌, ◌≤◌, IfErr, IfOk, length};
ghost use Rattle.wc_plan.specs.PlanViews.{plan_view};
ghost use Rattle.wc_world.specs.WorldViews.{world_view};
ghost use Rattle.wc_world.specs.Nameable.{AreNameable};
ghost use Rattle.wc_record.specs.Texts.{planned_world_text};
ghost use Rattle.wc_calls.specs.Answers.{AreOthersOfTextZero, IsPut, IsTextStatus, IsTooLong, bad_argument, done, failed, same, too_small};
ghost use Rattle.wc_calls.specs.ComponentWorlds.{IsFaultOf, modules_text};
ghost use Rattle.wc_calls.specs.FaultAnswers.{IsFaultAnswered};
ghost use Rattle.wc_calls.specs.PlannedWorlds.{IsPlannedText, IsPlannedWorldAnswer};
ghost use Rattle.wc_calls.specs.Private.EncoderAnswers.{IsPlanPlaceFor, IsPlanFaultFor};
ghost use Rattle.wc_calls.specs.Private.OptionTables.{table_options};
ghost use Rattle.wc_calls.specs.Private.PlannedAnswers.{IsPlanRefusalOf, IsPlannedFor};
ghost use Rattle.wc_calls.specs.Private.Refusals.{IsPlanPlacedFor, IsWithoutPlace};
ghost use Rattle.wc_calls.specs.declared.message_fault.MessageFault.TheVariants.{Memory};

use crate::answers::{Answer, put};
use crate::component_worlds::{WorldAnswer, made_world, modules_of};
use crate::encoders::{WorldInput, world_input};
use crate::explained::answer_refused;
use crate::refusals::{RefusedMessage, plan_refusal};
use std::alloc::Global;
use wc_maps::Seed;
use wc_plan::laws::worlds_nameable;
use wc_plan::{Plan, plan_explained};
use wc_record::planned_world_to_json;
use wc_world::ComponentWorld;

/// The answer for a component's world and its plan.
fn answer_of_plan(
    alloc: Global,
    world: &ComponentWorld<'_>,
    plan: &Plan,
) -> Result<WorldAnswer, RefusedMessage>
    ensures modules { IfOk result (λ a. a.modules.items ≡ modules_text (world_view world.now)) }
    ensures json { IfOk result (λ a. a.json.items
        ≡ planned_world_text (world_view world.now) (plan_view plan.now)) }
    ensures fault { IfErr result (IsWithoutPlace Memory) }
{
    Ok(WorldAnswer {
        modules: modules_of(alloc, world)?,
        json: planned_world_to_json(alloc, world, plan)?,
    })
}

/// The answer for a component's world.
fn answer_of_world(alloc: Global, world: &ComponentWorld<'_>) -> Result<WorldAnswer, RefusedMessage>
    requires { AreNameable (world_view world.now) }
    ensures answer { IfOk result (λ a. IsPlannedText (world_view world.now)
        (length a.modules.items) (a.modules.items ++ a.json.items)) }
    ensures refusal { IfErr result (IsPlanRefusalOf (world_view world.now)) }
{
    match plan_explained(alloc, world) {
        Ok(plan) => answer_of_plan(alloc, world, &plan),
        Err(refused) => Err(plan_refusal(refused)),
    }
}

/// The answer for an encoder and options.
fn answer_of_input(alloc: Global, input: &WorldInput) -> Result<WorldAnswer, RefusedMessage>
    ensures answer { IfOk result (λ a. IsPlannedFor (table_options input.now.options)
        input.now.encoder (length a.modules.items) (a.modules.items ++ a.json.items)) }
    ensures fault { IfErr result (λ x. IsPlanFaultFor (table_options input.now.options)
        input.now.encoder x.fault) }
    ensures place { IfErr result (λ x. IsPlanPlacedFor (table_options input.now.options)
        input.now.encoder x.fault x.place) }
{
    worlds_nameable(&input.encoder);
    match made_world(alloc, input) {
        Ok(world) => answer_of_world(alloc, &world),
        Err(refused) => Err(refused),
    }
}

/// Makes the world and the plan of an encoder's component: `planned_world`.
fn planned_world_for(alloc: Global, input: &WorldInput, out: &mut [u8]) -> Answer
    ensures done { result.status ≡ done → IsPut (IsPlannedFor (table_options input.now.options)
        input.now.encoder result.module_length) result.length out.old out.new }
    ensures too_small { result.status ≡ too_small
        → IsTooLong (IsPlannedFor (table_options input.now.options) input.now.encoder
        result.module_length) result.length out.old }
    ensures fault { result.status ≡ failed
        → IsFaultAnswered (IsPlanFaultFor (table_options input.now.options) input.now.encoder)
        (IsPlanPlaceFor (table_options input.now.options) input.now.encoder)
        result out.old out.new }
    ensures unchanged { result.status ≢ done → result.status ≢ failed → out.new ≡ out.old }
    ensures statuses { IsTextStatus result.status }
    ensures others { AreOthersOfTextZero result }
{
    match answer_of_input(alloc, input) {
        Ok(answer) => put(&answer.modules, &answer.json, out),
        Err(refused) => answer_refused(alloc, refused, out),
    }
}

/// Makes the world of a component and its plan in one call, as `world` and `plan` do for the same message and
/// modules. The maps that are made hash under `seed`.
///
/// - `DONE`: as for `world`, and the JSON object has one more member, its last: `plan`, the list that `plan` gives
///   (`wc_record::planned_world_to_json`).
/// - `TOO_SMALL`: modules and JSON would have `length` bytes, and `out` has fewer.
/// - `FAULT`: as for `plan`: the component has no world, or no plan.
/// - `MEMORY`: an allocation failed.
///
/// The status is never `SAME` or `BAD_ARGUMENT`. `out` changes only with `DONE` and `FAULT`, and only in its first
/// `length` bytes. Numbers of the answer that are not mentioned here are 0.
pub fn planned_world(
    alloc: Global,
    seed: Seed,
    message: &[u8],
    modules: &[u8],
    out: &mut [u8],
) -> Answer
    ensures done { result.status ≡ done → IsPut (IsPlannedWorldAnswer message.now modules.now
        result.module_length) result.length out.old out.new }
    ensures too_small { result.status ≡ too_small → IsTooLong
        (IsPlannedWorldAnswer message.now modules.now result.module_length)
        result.length out.old }
    ensures fault { result.status ≡ failed → IsFaultOf message.now modules.now
        result out.old out.new }
    ensures unchanged { result.status ≢ done → result.status ≢ failed → out.new ≡ out.old }
    ensures statuses { (result.status ≤ 5) × (result.status ≢ same)
        × (result.status ≢ bad_argument) }
    ensures others { AreOthersOfTextZero result }
{
    match world_input(alloc, seed, message, modules) {
        Ok(input) => planned_world_for(alloc, &input, out),
        Err(refused) => answer_refused(alloc, refused, out),
    }
}
