//! The call that gives what is recorded of one module of a component.

ghost use Rattle.std.specs.Prelude.{◌≡◌, ◌≢◌, ◌≤◌, IfErr, IfOk, List, None, Some, [], map, ℕ};
ghost use Rattle.std.specs.Map.{lookup};
ghost use Rattle.std.specs.Option.{option_map};
ghost use Rattle.std.specs.Str.{bytes_eq};
ghost use Rattle.wc_adapters.specs.Adapters.{adapter_view};
ghost use Rattle.wc_record.specs.Texts.{module_text};
ghost use Rattle.wc_validate.specs.Imports.Map.{required_entry};
ghost use Rattle.wc_validate.specs.Validate.{module_record};
ghost use Rattle.wc_calls.specs.Answers.{AreOthersOfTextZero, IsAskedStatus, IsPut, IsTextStatus, IsTooLong, bad_argument, done, failed, same, too_small};
ghost use Rattle.wc_calls.specs.FaultAnswers.{IsFaultAnswered};
ghost use Rattle.wc_calls.specs.RequiredFunctions.{AreRequired};
ghost use Rattle.wc_calls.specs.ValidatedModules.{IsNoneAsked, IsNoneAskedOf, IsRecordAnswer, IsRecordFaultOf, IsRecordText};
ghost use Rattle.wc_calls.specs.Private.ModuleAnswers.{IsInputFault, IsInputPlaceFor, IsInputRefusal, IsMainCause};
ghost use Rattle.wc_calls.specs.Private.RecordAnswers.{IsInputText, IsRecordFault, IsRecordPlaceFor};
ghost use Rattle.wc_calls.specs.Private.Refusals.{IsPlacedFor, IsWithoutPlace};
ghost use Rattle.wc_calls.specs.declared.message_fault.MessageFault.TheVariants.{Memory};

use crate::answers::{Answer, BAD_ARGUMENT, MEMORY, answer_without_bytes, put};
use crate::encoders::world_input;
use crate::explained::answer_refused;
use crate::refusals::RefusedMessage;
use crate::required_functions::{RequiredFault, required_functions};
use crate::validation::{AdapterInput, input_record, main_record};
use std::alloc::Global;
use std::str;
use wc_encoder::{Adapter, ComponentEncoder};
use wc_maps::Seed;
use wc_record::module_to_json;
use wc_validate::ValidatedModule;

/// The record of a module, as JSON.
fn record_text(alloc: Global, module: &ValidatedModule) -> Result<Vec<u8>, RefusedMessage>
    ensures text { IfOk result (λ v. v.items ≡ module_text (module_record module.now)) }
    ensures fault { IfErr result (IsWithoutPlace Memory) }
{
    Ok(module_to_json(alloc, module)?)
}

/// The record of the main module, as JSON.
fn main_text(alloc: Global, encoder: &ComponentEncoder) -> Result<Vec<u8>, RefusedMessage>
    ensures text { IfOk result (λ v. IsRecordText encoder.now None [] v.items) }
    ensures fault { IfErr result (λ x. IsMainCause encoder.now x.fault) }
    ensures place { IfErr result (λ x. IsPlacedFor encoder.now x.fault x.place) }
{
    match main_record(alloc, encoder) {
        Ok(module) => record_text(alloc, &module),
        Err(refused) => Err(refused),
    }
}

/// Answers with the record of the main module.
fn answer_main(alloc: Global, encoder: &ComponentEncoder, out: &mut [u8]) -> Answer
    ensures done { result.status ≡ done
        → IsPut (IsRecordText encoder.now None []) result.length out.old out.new }
    ensures too_small { result.status ≡ too_small
        → IsTooLong (IsRecordText encoder.now None []) result.length out.old }
    ensures fault { (required : List ℕ) → result.status ≡ failed
        → IsFaultAnswered (IsRecordFault encoder.now None required)
        (IsRecordPlaceFor encoder.now required) result out.old out.new }
    ensures module_length { result.module_length ≡ 0 }
    ensures unchanged { result.status ≢ done → result.status ≢ failed → out.new ≡ out.old }
    ensures statuses { IsTextStatus result.status }
    ensures others { AreOthersOfTextZero result }
{
    match main_text(alloc, encoder) {
        Ok(text) => put(&[], &text, out),
        Err(refused) => answer_refused(alloc, refused, out),
    }
}

/// The record of an adapter or a library, as JSON.
fn input_text(alloc: Global, input: AdapterInput<'_>) -> Result<Vec<u8>, RefusedMessage>
    ensures text { IfOk result (λ v. IsInputText input.entry v.items) }
    ensures fault { IfErr result (IsInputRefusal input.entry) }
{
    match input_record(alloc, input) {
        Ok(module) => record_text(alloc, &module),
        Err(refused) => Err(refused),
    }
}

/// Answers with the record of an adapter or a library.
fn answer_input(alloc: Global, input: AdapterInput<'_>, out: &mut [u8]) -> Answer
    ensures done { result.status ≡ done
        → IsPut (IsInputText input.entry) result.length out.old out.new }
    ensures too_small { result.status ≡ too_small
        → IsTooLong (IsInputText input.entry) result.length out.old }
    ensures fault { result.status ≡ failed → IsFaultAnswered (IsInputFault input.entry)
        (IsInputPlaceFor input.entry) result out.old out.new }
    ensures module_length { result.module_length ≡ 0 }
    ensures unchanged { result.status ≢ done → result.status ≢ failed → out.new ≡ out.old }
    ensures statuses { IsTextStatus result.status }
    ensures others { AreOthersOfTextZero result }
{
    match input_text(alloc, input) {
        Ok(json) => put(&[], &json, out),
        Err(refused) => answer_refused(alloc, refused, out),
    }
}

/// Gives what is recorded of an adapter or a library, which the encoder has under its name. The bytes encode the
/// required functions.
fn answer_with(alloc: Global, required: &[u8], input: AdapterInput<'_>, out: &mut [u8]) -> Answer
    requires there { lookup (bytes_eq input.name.now) input.encoder.now.adapters
        ≡ Some (adapter_view input.adapter.now) }
    requires required { AreRequired required.now
        (map required_entry input.required.now.entries) }
    ensures done { result.status ≡ done
        → IsPut (IsRecordText input.entry.encoder.now (Some input.entry.name.now) required.now)
        result.length out.old out.new }
    ensures too_small { result.status ≡ too_small
        → IsTooLong (IsRecordText input.entry.encoder.now (Some input.entry.name.now) required.now)
        result.length out.old }
    ensures fault { result.status ≡ failed
        → IsFaultAnswered (IsRecordFault input.entry.encoder.now (Some input.entry.name.now)
        required.now)
        (IsRecordPlaceFor input.entry.encoder.now required.now) result out.old out.new }
    ensures module_length { result.module_length ≡ 0 }
    ensures unchanged { result.status ≢ done → result.status ≢ failed → out.new ≡ out.old }
    ensures statuses { IsTextStatus result.status }
    ensures others { AreOthersOfTextZero result }
{
    answer_input(alloc, input, out)
}

/// The name of an adapter or a library of an encoder, and the bytes of the functions that are required of it.
#[derive(Clone, Copy)]
struct AskedAdapter<'a> {
    encoder: &'a ComponentEncoder,
    name: &'a str,
    required: &'a [u8],
}

/// Gives what is recorded of an adapter or a library, if the bytes encode required functions.
fn answer_adapter(
    alloc: Global,
    asked: AskedAdapter<'_>,
    adapter: &Adapter,
    out: &mut [u8],
) -> Answer
    requires { lookup (bytes_eq asked.name.now) asked.encoder.now.adapters
        ≡ Some (adapter_view adapter.now) }
    ensures done { result.status ≡ done
        → IsPut (IsRecordText asked.entry.encoder.now (Some asked.entry.name.now)
        asked.entry.required.now)
        result.length out.old out.new }
    ensures too_small { result.status ≡ too_small
        → IsTooLong (IsRecordText asked.entry.encoder.now (Some asked.entry.name.now)
        asked.entry.required.now)
        result.length out.old }
    ensures bad_argument { result.status ≡ bad_argument
        → IsNoneAsked asked.entry.encoder.now (Some asked.entry.name.now) asked.entry.required.now }
    ensures fault { result.status ≡ failed
        → IsFaultAnswered (IsRecordFault asked.entry.encoder.now (Some asked.entry.name.now)
        asked.entry.required.now)
        (IsRecordPlaceFor asked.entry.encoder.now asked.entry.required.now) result out.old out.new }
    ensures module_length { result.module_length ≡ 0 }
    ensures unchanged { result.status ≢ done → result.status ≢ failed → out.new ≡ out.old }
    ensures statuses { IsAskedStatus result.status }
    ensures others { AreOthersOfTextZero result }
{
    let seed = *asked.encoder.adapters().hasher();
    match required_functions(alloc, seed, asked.required) {
        Ok(functions) => {
            let input = AdapterInput {
                encoder: asked.encoder,
                required: &functions,
                name: asked.name,
                adapter,
            };
            answer_with(alloc, asked.required, input, out)
        }
        Err(RequiredFault::Unread) => answer_without_bytes(BAD_ARGUMENT),
        Err(RequiredFault::Memory) => answer_without_bytes(MEMORY),
    }
}

/// Gives what is recorded of the adapter or the library with this name, if one exists.
fn answer_under(alloc: Global, asked: AskedAdapter<'_>, out: &mut [u8]) -> Answer
    ensures done { result.status ≡ done
        → IsPut (IsRecordText asked.entry.encoder.now (Some asked.entry.name.now)
        asked.entry.required.now)
        result.length out.old out.new }
    ensures too_small { result.status ≡ too_small
        → IsTooLong (IsRecordText asked.entry.encoder.now (Some asked.entry.name.now)
        asked.entry.required.now)
        result.length out.old }
    ensures bad_argument { result.status ≡ bad_argument
        → IsNoneAsked asked.entry.encoder.now (Some asked.entry.name.now) asked.entry.required.now }
    ensures fault { result.status ≡ failed
        → IsFaultAnswered (IsRecordFault asked.entry.encoder.now (Some asked.entry.name.now)
        asked.entry.required.now)
        (IsRecordPlaceFor asked.entry.encoder.now asked.entry.required.now) result out.old out.new }
    ensures module_length { result.module_length ≡ 0 }
    ensures unchanged { result.status ≢ done → result.status ≢ failed → out.new ≡ out.old }
    ensures statuses { IsAskedStatus result.status }
    ensures others { AreOthersOfTextZero result }
{
    match asked.encoder.adapters().get(asked.name) {
        Some(adapter) => answer_adapter(alloc, asked, adapter, out),
        None => answer_without_bytes(BAD_ARGUMENT),
    }
}

/// Gives what is recorded of the adapter or the library with this name, which may not be UTF-8.
fn answer_named(
    alloc: Global,
    encoder: &ComponentEncoder,
    name: &[u8],
    required: &[u8],
    out: &mut [u8],
) -> Answer
    ensures done { result.status ≡ done
        → IsPut (IsRecordText encoder.now (Some name.now) required.now)
        result.length out.old out.new }
    ensures too_small { result.status ≡ too_small
        → IsTooLong (IsRecordText encoder.now (Some name.now) required.now)
        result.length out.old }
    ensures bad_argument { result.status ≡ bad_argument
        → IsNoneAsked encoder.now (Some name.now) required.now }
    ensures fault { result.status ≡ failed
        → IsFaultAnswered (IsRecordFault encoder.now (Some name.now) required.now)
        (IsRecordPlaceFor encoder.now required.now) result out.old out.new }
    ensures module_length { result.module_length ≡ 0 }
    ensures unchanged { result.status ≢ done → result.status ≢ failed → out.new ≡ out.old }
    ensures statuses { IsAskedStatus result.status }
    ensures others { AreOthersOfTextZero result }
{
    match str::from_utf8(name) {
        Ok(name) => {
            let asked = AskedAdapter {
                encoder,
                name,
                required,
            };
            answer_under(alloc, asked, out)
        }
        Err(_) => answer_without_bytes(BAD_ARGUMENT),
    }
}

/// Gives what is recorded of the requested module of an encoder.
fn answer_for(
    alloc: Global,
    encoder: &ComponentEncoder,
    adapter: Option<&[u8]>,
    required: &[u8],
    out: &mut [u8],
) -> Answer
    ensures done { result.status ≡ done
        → IsPut (IsRecordText encoder.now (option_map (λ n. n.now) adapter.entry) required.now)
        result.length out.old out.new }
    ensures too_small { result.status ≡ too_small
        → IsTooLong (IsRecordText encoder.now (option_map (λ n. n.now) adapter.entry) required.now)
        result.length out.old }
    ensures bad_argument { result.status ≡ bad_argument
        → IsNoneAsked encoder.now (option_map (λ n. n.now) adapter.entry) required.now }
    ensures fault { result.status ≡ failed
        → IsFaultAnswered (IsRecordFault encoder.now (option_map (λ n. n.now) adapter.entry)
        required.now)
        (IsRecordPlaceFor encoder.now required.now) result out.old out.new }
    ensures module_length { result.module_length ≡ 0 }
    ensures unchanged { result.status ≢ done → result.status ≢ failed → out.new ≡ out.old }
    ensures statuses { IsAskedStatus result.status }
    ensures others { AreOthersOfTextZero result }
{
    match adapter {
        Some(name) => answer_named(alloc, encoder, name, required, out),
        None => answer_main(alloc, encoder, out),
    }
}

/// Validates one module of a component, and gives what is recorded of it. Without `adapter` this is the main module,
/// validated as by `validate_module` of `wc_validate`. If `adapter` is a name, it is the adapter or the library with
/// this name, validated as by `validate_adapter_module`, for the functions that it must export (`required`), its keys
/// and its library information. This module is validated as it is passed, untrimmed, and the main module is not
/// validated. `message`, `modules` and `seed` are as for `world`. Nothing depends on the `options` of the message,
/// but they must be well-formed as for `world`.
///
/// For the main module, `required` is ignored. For an adapter or a library it is a vector in the binary format
/// (WebAssembly core specification, 5.1.3): the number of functions; then for each its name (5.2.4) and its type
/// (5.3.6), which begins with the byte 60.
///
/// - `DONE`: the module is valid. `out` begins with what is recorded of it as JSON, written as
///   `wc_record::module_to_json` writes it; `length` is its length in bytes.
/// - `TOO_SMALL`: the JSON would have `length` bytes, and `out` has fewer.
/// - `BAD_ARGUMENT`: `adapter` is not UTF-8, or no adapter of the message has this name; or `required` is no such
///   vector, or has two functions with one name.
/// - `FAULT`: the module is refused, or message and modules make no encoder. The answer has the fault's number
///   (`MessageFault::number`), text and details as for `world`. The fault is `World` with `Main`, or with `Adapter`
///   and the name; or one of the others, except `Plan`. It neither is nor carries a `Memory`.
/// - `MEMORY`: an allocation failed.
///
/// The status is never `SAME`. `out` changes only with `DONE` and `FAULT`, and only in its first `length` bytes.
/// Numbers of the answer that are not mentioned here are 0.
pub fn validated_module(
    alloc: Global,
    seed: Seed,
    message: &[u8],
    modules: &[u8],
    adapter: Option<&[u8]>,
    required: &[u8],
    out: &mut [u8],
) -> Answer
    ensures done { result.status ≡ done → IsPut (IsRecordAnswer message.now modules.now
        (option_map (λ n. n.now) adapter.entry) required.now) result.length out.old out.new }
    ensures too_small { result.status ≡ too_small
        → IsTooLong (IsRecordAnswer message.now modules.now
        (option_map (λ n. n.now) adapter.entry) required.now) result.length out.old }
    ensures bad_argument { result.status ≡ bad_argument → IsNoneAskedOf message.now modules.now
        (option_map (λ n. n.now) adapter.entry) required.now }
    ensures fault { result.status ≡ failed → IsRecordFaultOf message.now modules.now
        (option_map (λ n. n.now) adapter.entry) required.now result out.old out.new }
    ensures module_length { result.module_length ≡ 0 }
    ensures unchanged { result.status ≢ done → result.status ≢ failed → out.new ≡ out.old }
    ensures statuses { (result.status ≤ 5) × (result.status ≢ same) }
    ensures others { AreOthersOfTextZero result }
{
    match world_input(alloc, seed, message, modules) {
        Ok(input) => answer_for(alloc, &input.encoder, adapter, required, out),
        Err(refused) => answer_refused(alloc, refused, out),
    }
}
