//! The call that makes a component's world.

ghost use Rattle.std.specs.Prelude.{◌≡◌, ◌≢◌, ◌++◌, ◌≤◌, IfErr, IfOk, length};
ghost use Rattle.wc_world.specs.World.{IsWorldOf};
ghost use Rattle.wc_world.specs.WorldViews.{world_view};
ghost use Rattle.wc_calls.specs.Answers.{AreOthersOfTextZero, IsPut, IsTextStatus, IsTooLong, bad_argument, done, failed, same, too_small};
ghost use Rattle.wc_record.specs.Texts.{world_text};
ghost use Rattle.wc_calls.specs.ComponentWorlds.{IsFaultOf, IsWorldAnswer, modules_text};
ghost use Rattle.wc_calls.specs.FaultAnswers.{IsFaultAnswered};
ghost use Rattle.wc_calls.specs.Private.EncoderAnswers.{IsAnswerFor, IsFaultFor, IsPlaceFor};
ghost use Rattle.wc_calls.specs.Private.OptionTables.{table_options};
ghost use Rattle.wc_calls.specs.Private.Refusals.{IsPlacedFor, IsWithoutPlace};
ghost use Rattle.wc_calls.specs.declared.message_fault.MessageFault.TheVariants.{Memory};

use crate::answers::{Answer, put};
use crate::encoders::{WorldInput, world_input};
use crate::explained::answer_refused;
use crate::heap::heaped;
use crate::refusals::{RefusedMessage, world_refusal};
use std::alloc::{AllocError, Global};
use wc_maps::Seed;
use wc_record::world_to_json;
use wc_world::ComponentWorld;

/// The bytes of a component's modules, and its world as JSON.
#[derive(Drop)]
pub(crate) struct WorldAnswer {
    pub modules: Vec<u8>,
    pub json: Vec<u8>,
}

/// The bytes of the main module and of the adapters, one after another.
pub(crate) fn modules_of(alloc: Global, world: &ComponentWorld<'_>) -> Result<Vec<u8>, AllocError>
    ensures { IfOk result (λ bytes. bytes.items ≡ modules_text (world_view world.now)) }
{
    let mut modules = Vec::from_slice(alloc, world.encoder.module())?;
    for (_name, adapter) in world.adapters.iter() {
        modules.extend_from_slice(adapter.wasm.as_slice())?;
    }
    Ok(modules)
}

/// The component's world of an encoder and options, on the heap.
pub(crate) fn made_world<'a>(
    alloc: Global,
    input: &'a WorldInput,
) -> Result<Box<ComponentWorld<'a>>, RefusedMessage>
    ensures world { IfOk result (λ w. IsWorldOf (table_options input.now.options)
        input.now.encoder (world_view w.value)) }
    ensures fault { IfErr result (λ x. IsFaultFor input.now.encoder x.fault) }
    ensures place { IfErr result (λ x. IsPlacedFor input.now.encoder x.fault x.place) }
{
    match ComponentWorld::new_explained(alloc, &input.encoder, &input.options) {
        Ok(world) => heaped(alloc, world),
        Err(refused) => Err(world_refusal(refused)),
    }
}

/// The answer for an encoder and options.
fn answer_of_input(alloc: Global, input: &WorldInput) -> Result<WorldAnswer, RefusedMessage>
    ensures answer { IfOk result (λ a. IsAnswerFor (table_options input.now.options)
        input.now.encoder (length a.modules.items) (a.modules.items ++ a.json.items)) }
    ensures fault { IfErr result (λ x. IsFaultFor input.now.encoder x.fault) }
    ensures place { IfErr result (λ x. IsPlacedFor input.now.encoder x.fault x.place) }
{
    match made_world(alloc, input) {
        Ok(world) => answer_of_world(alloc, &world),
        Err(refused) => Err(refused),
    }
}

/// The answer for a component's world.
fn answer_of_world(alloc: Global, world: &ComponentWorld<'_>) -> Result<WorldAnswer, RefusedMessage>
    ensures modules { IfOk result (λ a. a.modules.items ≡ modules_text (world_view world.now)) }
    ensures json { IfOk result (λ a. a.json.items ≡ world_text (world_view world.now)) }
    ensures fault { IfErr result (IsWithoutPlace Memory) }
{
    Ok(WorldAnswer {
        modules: modules_of(alloc, world)?,
        json: world_to_json(alloc, world)?,
    })
}

/// Makes the world of an encoder's component: `world`.
fn world_for(alloc: Global, input: &WorldInput, out: &mut [u8]) -> Answer
    ensures done { result.status ≡ done → IsPut (IsAnswerFor (table_options input.now.options)
        input.now.encoder result.module_length) result.length out.old out.new }
    ensures too_small { result.status ≡ too_small
        → IsTooLong (IsAnswerFor (table_options input.now.options) input.now.encoder
        result.module_length) result.length out.old }
    ensures fault { result.status ≡ failed → IsFaultAnswered (IsFaultFor input.now.encoder)
        (IsPlaceFor input.now.encoder) result out.old out.new }
    ensures unchanged { result.status ≢ done → result.status ≢ failed → out.new ≡ out.old }
    ensures statuses { IsTextStatus result.status }
    ensures others { AreOthersOfTextZero result }
{
    match answer_of_input(alloc, input) {
        Ok(answer) => put(&answer.modules, &answer.json, out),
        Err(refused) => answer_refused(alloc, refused, out),
    }
}

/// Makes the world of a component, as `ComponentWorld::new` of `wc_world` does. The message is JSON, as
/// `wc_json::message_from_json` reads it: an object with the members
///
/// - `resolve`: worlds, interfaces, types and packages, as `wc_json` reads them;
/// - `world`: the index of a world, or a name as `select_world` of `wc_selection` takes it;
/// - `reject_legacy_names` and `realloc_via_memory_grow`, true or false, by default false; and `task_hook`, the name
///   of the task hook. Without `task_hook` no export is a task hook (`no_task_hook` of `wc_selection`);
/// - `length`: how many bytes the main module has;
/// - `exports`: the keys of the world's exports that the main module must export, a list of texts. A key is
///   `interface-3`, with the interface's index in `resolve`, for an interface that is exported under its own id. Or
///   it is the text of an export; an interface's text may omit the version if only one export then has this text
///   (`indexed_keys` of `wc_selection`). By default these are all keys that no adapter must export;
/// - `adapters`: a list of objects with `name`, `length` and `exports`, and `library_info`. `library_info` is missing
///   or null for an adapter that is no library; otherwise it is as `wc_record` writes it;
/// - `options`: the canonical options of lowered functions, a list of objects. Each has `name`, a function's name in
///   WIT such as `[method]output-stream.write`, and `memory`, `realloc`, `string_encoding` and `async`, each true or
///   false, by default false. A function has the options of the first object with its name, whatever its interface
///   and however it is imported. For functions without such an object, `PlainOptions` of `wc_world` decides. By
///   default the list is empty.
///
/// A member that may be missing may also be null. Members that are not listed here are skipped.
///
/// `modules` has the bytes of the main module and of the adapters, one after another. Repeated imports of the main
/// module are renamed first, as `dedupe` does. The maps that are made hash under `seed`.
///
/// - `DONE`: `out` begins with `module_length` bytes of modules, one after another: the main module with its renamed
///   imports, then the adapters and libraries of the component's world, in its order. Then comes this world as JSON,
///   written as `wc_record::world_to_json` writes it, with the length of each adapter. `length` is the length of
///   modules and JSON in bytes.
/// - `TOO_SMALL`: modules and JSON would have `length` bytes, and `out` has fewer.
/// - `FAULT`: the component has no world. The answer has the fault's number (`MessageFault::number`). The fault
///   neither is nor carries a `Memory`. The fault's text, as it is printed, has `position` bytes. If the message is
///   malformed, the text has the path to the malformed part, for example `Json: adapters[0].length: not an index`.
///   After the text comes a JSON object with the details of the fault; `NotText`, `Lengths`, `PackageRange` and
///   `Encoder` have none. Text and object have `length` bytes; `out` begins with them, if they fit. The object's
///   member `kind` says which object it is. These functions of `wc_record` list its other members:
///   `json_place_to_json`, `worlds_to_json`, `part_to_json`, `key_to_json`, `adapter_to_json`, `read_place_to_json`
///   for the main module, `world_place_to_json`, and `trim_fault_to_json` for a fault of trimming without a position.
///   Offsets in the main module count in `modules`, before its imports are renamed.
/// - `MEMORY`: an allocation failed, at any step.
///
/// The status is never `SAME` or `BAD_ARGUMENT`. `out` changes only with `DONE` and `FAULT`, and only in its first
/// `length` bytes. Numbers of the answer that are not mentioned here are 0.
pub fn world(alloc: Global, seed: Seed, message: &[u8], modules: &[u8], out: &mut [u8]) -> Answer
    ensures done { result.status ≡ done → IsPut (IsWorldAnswer message.now modules.now
        result.module_length) result.length out.old out.new }
    ensures too_small { result.status ≡ too_small → IsTooLong
        (IsWorldAnswer message.now modules.now result.module_length) result.length out.old }
    ensures fault { result.status ≡ failed → IsFaultOf message.now modules.now
        result out.old out.new }
    ensures unchanged { result.status ≢ done → result.status ≢ failed → out.new ≡ out.old }
    ensures statuses { (result.status ≤ 5) × (result.status ≢ same)
        × (result.status ≢ bad_argument) }
    ensures others { AreOthersOfTextZero result }
{
    match world_input(alloc, seed, message, modules) {
        Ok(input) => world_for(alloc, &input, out),
        Err(refused) => answer_refused(alloc, refused, out),
    }
}
