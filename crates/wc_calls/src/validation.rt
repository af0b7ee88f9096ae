//! The call that validates one module of a component.

ghost use Rattle.std.specs.Prelude.{◌≡◌, ◌≢◌, ◌≤◌, IfErr, IfOk, Some, map};
ghost use Rattle.std.specs.Map.{lookup};
ghost use Rattle.std.specs.Option.{option_map};
ghost use Rattle.std.specs.Str.{bytes_eq};
ghost use Rattle.wc_adapters.specs.Adapters.{adapter_view};
ghost use Rattle.wc_validate.specs.Imports.Map.{required_entry, required_in};
ghost use Rattle.wc_validate.specs.Validate.{module_record};
ghost use Rattle.wc_world.specs.World.{IsMainRecord};
ghost use Rattle.wc_calls.specs.Answers.{AreOthersOfFaultZero, IsCheckStatus, IsModuleStatus, bad_argument, done, failed, same, too_small};
ghost use Rattle.wc_calls.specs.FaultAnswers.{IsFaultAnswered};
ghost use Rattle.wc_calls.specs.Private.ModuleAnswers.{IsInputFault, IsInputPlaceFor, IsInputRefusal, IsInputValid, IsMainCause, IsModuleFault, IsModulePlaceFor};
ghost use Rattle.wc_calls.specs.Private.RecordAnswers.{IsInputRecord};
ghost use Rattle.wc_calls.specs.Private.Refusals.{IsPlacedFor};
ghost use Rattle.wc_calls.specs.Validation.{IsModuleValid, IsNoModule, IsNoModuleOf, IsValidOf, IsValidationFaultOf};

use crate::answers::{Answer, BAD_ARGUMENT, DONE, MEMORY, answer_without_bytes};
use crate::encoders::world_input;
use crate::explained::answer_refused;
use crate::heap::heaped;
use crate::refusals::{RefusedMessage, world_refusal};
use std::alloc::Global;
use std::str;
use wc_encoder::{Adapter, ComponentEncoder};
use wc_maps::{Map, Seed};
use wc_read::FuncType;
use wc_validate::{ValidatedModule, validate_adapter_module_explained, validate_module_explained};
use wc_world::{adapter_refusal, as_given, main_refusal};

/// An adapter or a library, and the functions that it must export.
#[derive(Clone, Copy)]
pub(crate) struct AdapterInput<'a> {
    pub encoder: &'a ComponentEncoder,
    pub required: &'a Map<String, FuncType>,
    pub name: &'a str,
    pub adapter: &'a Adapter,
}

/// An encoder, and the record of its main module, which is valid.
#[derive(Clone, Copy)]
struct ValidMain<'a> {
    encoder: &'a ComponentEncoder,
    validated: &'a ValidatedModule,
}

/// Validates the main module, and returns its record.
fn main_validated(
    alloc: Global,
    encoder: &ComponentEncoder,
) -> Result<ValidatedModule, RefusedMessage>
    ensures recorded { IfOk result (λ v. IsMainRecord encoder.now (module_record v)) }
    ensures fault { IfErr result (λ x. IsMainCause encoder.now x.fault) }
    ensures place { IfErr result (λ x. IsPlacedFor encoder.now x.fault x.place) }
{
    let bytes = encoder.module();
    let import_map = encoder.module_import_map();
    match validate_module_explained(alloc, encoder, bytes, import_map) {
        Ok(module) => Ok(module),
        Err(refused) => Err(world_refusal(main_refusal(as_given(alloc, encoder, refused)))),
    }
}

/// Validates the main module, and returns its record on the heap.
pub(crate) fn main_record(
    alloc: Global,
    encoder: &ComponentEncoder,
) -> Result<Box<ValidatedModule>, RefusedMessage>
    ensures recorded { IfOk result (λ v. IsMainRecord encoder.now (module_record v.value)) }
    ensures fault { IfErr result (λ x. IsMainCause encoder.now x.fault) }
    ensures place { IfErr result (λ x. IsPlacedFor encoder.now x.fault x.place) }
{
    match main_validated(alloc, encoder) {
        Ok(module) => heaped(alloc, module),
        Err(refused) => Err(refused),
    }
}

/// Validates an adapter or a library, and returns its record.
fn input_validated(
    alloc: Global,
    input: AdapterInput<'_>,
) -> Result<ValidatedModule, RefusedMessage>
    ensures recorded { IfOk result (λ v. IsInputRecord input.entry (module_record v)) }
    ensures fault { IfErr result (IsInputRefusal input.entry) }
{
    let adapter = input.adapter;
    match validate_adapter_module_explained(
        alloc,
        input.encoder,
        &adapter.wasm,
        input.required,
        &adapter.required_exports,
        adapter.library_info.as_ref(),
    ) {
        Ok(module) => Ok(module),
        Err(refused) => Err(world_refusal(adapter_refusal(alloc, input.name, refused))),
    }
}

/// Validates an adapter or a library, and returns its record on the heap.
pub(crate) fn input_record(
    alloc: Global,
    input: AdapterInput<'_>,
) -> Result<Box<ValidatedModule>, RefusedMessage>
    ensures recorded { IfOk result (λ v. IsInputRecord input.entry (module_record v.value)) }
    ensures fault { IfErr result (IsInputRefusal input.entry) }
{
    match input_validated(alloc, input) {
        Ok(module) => heaped(alloc, module),
        Err(refused) => Err(refused),
    }
}

/// Answers whether an adapter or a library is valid.
fn validate_input(alloc: Global, input: AdapterInput<'_>, out: &mut [u8]) -> Answer
    ensures done { result.status ≡ done → IsInputValid input.entry }
    ensures fault { result.status ≡ failed → IsFaultAnswered (IsInputFault input.entry)
        (IsInputPlaceFor input.entry) result out.old out.new }
    ensures unchanged { result.status ≢ failed → out.new ≡ out.old }
    ensures statuses { IsCheckStatus result.status }
    ensures others { AreOthersOfFaultZero result }
{
    match input_record(alloc, input) {
        Ok(_record) => answer_without_bytes(DONE),
        Err(refused) => answer_refused(alloc, refused, out),
    }
}

/// Answers whether the adapter or the library that the encoder has under its name is valid.
fn validate_with(
    alloc: Global,
    main: &ValidatedModule,
    input: AdapterInput<'_>,
    out: &mut [u8],
) -> Answer
    requires main { IsMainRecord input.encoder.now (module_record main.now) }
    requires there { lookup (bytes_eq input.name.now) input.encoder.now.adapters
        ≡ Some (adapter_view input.adapter.now) }
    requires required { map required_entry input.required.now.entries
        ≡ required_in main.now.imports input.name.now }
    ensures done { result.status ≡ done
        → IsModuleValid input.entry.encoder.now (Some input.entry.name.now) }
    ensures fault { result.status ≡ failed
        → IsFaultAnswered (IsModuleFault input.entry.encoder.now (Some input.entry.name.now))
        (IsModulePlaceFor input.entry.encoder.now) result out.old out.new }
    ensures unchanged { result.status ≢ failed → out.new ≡ out.old }
    ensures statuses { IsCheckStatus result.status }
    ensures others { AreOthersOfFaultZero result }
{
    validate_input(alloc, input, out)
}

/// Answers whether the adapter or the library with this name is valid.
fn validate_adapter(
    alloc: Global,
    main: ValidMain<'_>,
    name: &str,
    adapter: &Adapter,
    out: &mut [u8],
) -> Answer
    requires main { IsMainRecord main.encoder.now (module_record main.validated.now) }
    requires there { lookup (bytes_eq name.now) main.encoder.now.adapters
        ≡ Some (adapter_view adapter.now) }
    ensures done { result.status ≡ done
        → IsModuleValid main.entry.encoder.now (Some name.now) }
    ensures fault { result.status ≡ failed
        → IsFaultAnswered (IsModuleFault main.entry.encoder.now (Some name.now))
        (IsModulePlaceFor main.entry.encoder.now) result out.old out.new }
    ensures unchanged { result.status ≢ failed → out.new ≡ out.old }
    ensures statuses { IsCheckStatus result.status }
    ensures others { AreOthersOfFaultZero result }
{
    match main.validated.imports.required_from_adapter(alloc, name) {
        Ok(required) => {
            let input = AdapterInput {
                encoder: main.encoder,
                required: &required,
                name,
                adapter,
            };
            validate_with(alloc, main.validated, input, out)
        }
        Err(_) => answer_without_bytes(MEMORY),
    }
}

/// Answers whether the adapter or the library with this name is valid, if one exists.
fn validate_under(alloc: Global, main: ValidMain<'_>, name: &str, out: &mut [u8]) -> Answer
    requires { IsMainRecord main.encoder.now (module_record main.validated.now) }
    ensures done { result.status ≡ done
        → IsModuleValid main.entry.encoder.now (Some name.now) }
    ensures bad_argument { result.status ≡ bad_argument
        → IsNoModule main.entry.encoder.now (Some name.now) }
    ensures fault { result.status ≡ failed
        → IsFaultAnswered (IsModuleFault main.entry.encoder.now (Some name.now))
        (IsModulePlaceFor main.entry.encoder.now) result out.old out.new }
    ensures unchanged { result.status ≢ failed → out.new ≡ out.old }
    ensures statuses { IsModuleStatus result.status }
    ensures others { AreOthersOfFaultZero result }
{
    match main.encoder.adapters().get(name) {
        Some(adapter) => validate_adapter(alloc, main, name, adapter, out),
        None => answer_without_bytes(BAD_ARGUMENT),
    }
}

/// Answers whether the adapter or the library with this name, which may not be UTF-8, is valid.
fn validate_named(alloc: Global, main: ValidMain<'_>, name: &[u8], out: &mut [u8]) -> Answer
    requires { IsMainRecord main.encoder.now (module_record main.validated.now) }
    ensures done { result.status ≡ done
        → IsModuleValid main.entry.encoder.now (Some name.now) }
    ensures bad_argument { result.status ≡ bad_argument
        → IsNoModule main.entry.encoder.now (Some name.now) }
    ensures fault { result.status ≡ failed
        → IsFaultAnswered (IsModuleFault main.entry.encoder.now (Some name.now))
        (IsModulePlaceFor main.entry.encoder.now) result out.old out.new }
    ensures unchanged { result.status ≢ failed → out.new ≡ out.old }
    ensures statuses { IsModuleStatus result.status }
    ensures others { AreOthersOfFaultZero result }
{
    match str::from_utf8(name) {
        Ok(name) => validate_under(alloc, main, name, out),
        Err(_) => answer_without_bytes(BAD_ARGUMENT),
    }
}

/// Answers whether the requested module is valid, if the main module is valid.
fn validate_other(alloc: Global, main: ValidMain<'_>, name: Option<&[u8]>, out: &mut [u8]) -> Answer
    requires { IsMainRecord main.encoder.now (module_record main.validated.now) }
    ensures done { result.status ≡ done
        → IsModuleValid main.entry.encoder.now (option_map (λ n. n.now) name.entry) }
    ensures bad_argument { result.status ≡ bad_argument
        → IsNoModule main.entry.encoder.now (option_map (λ n. n.now) name.entry) }
    ensures fault { result.status ≡ failed
        → IsFaultAnswered
        (IsModuleFault main.entry.encoder.now (option_map (λ n. n.now) name.entry))
        (IsModulePlaceFor main.entry.encoder.now) result out.old out.new }
    ensures unchanged { result.status ≢ failed → out.new ≡ out.old }
    ensures statuses { IsModuleStatus result.status }
    ensures others { AreOthersOfFaultZero result }
{
    match name {
        Some(name) => validate_named(alloc, main, name, out),
        None => answer_without_bytes(DONE),
    }
}

/// Answers whether the requested module of an encoder is valid.
fn validate_for(
    alloc: Global,
    encoder: &ComponentEncoder,
    adapter: Option<&[u8]>,
    out: &mut [u8],
) -> Answer
    ensures done { result.status ≡ done
        → IsModuleValid encoder.now (option_map (λ n. n.now) adapter.entry) }
    ensures bad_argument { result.status ≡ bad_argument
        → IsNoModule encoder.now (option_map (λ n. n.now) adapter.entry) }
    ensures fault { result.status ≡ failed
        → IsFaultAnswered (IsModuleFault encoder.now (option_map (λ n. n.now) adapter.entry))
        (IsModulePlaceFor encoder.now) result out.old out.new }
    ensures unchanged { result.status ≢ failed → out.new ≡ out.old }
    ensures statuses { IsModuleStatus result.status }
    ensures others { AreOthersOfFaultZero result }
{
    match main_record(alloc, encoder) {
        Ok(module) => {
            let validated: &ValidatedModule = &module;
            validate_other(alloc, ValidMain { encoder, validated }, adapter, out)
        }
        Err(refused) => answer_refused(alloc, refused, out),
    }
}

/// Validates one module of a component. The main module is always validated, as by `validate_module` of
/// `wc_validate`. If `adapter` is a name, the adapter or the library with this name is validated next, as by
/// `validate_adapter_module`. That call is passed the functions that the main module imports from it, the keys that
/// it must export, and its library information. It is validated as it is passed, untrimmed, even if the component
/// does not need it. `message`, `modules` and `seed` are as for `world`. Nothing depends on the `options` of the
/// message, but they must be well-formed as for `world`.
///
/// - `DONE`: the module is valid; if it is an adapter or a library, so is the main module.
/// - `BAD_ARGUMENT`: the main module is valid, but `adapter` is not UTF-8, or no adapter of the message has this
///   name.
/// - `FAULT`: the module or the main module is refused, or message and modules make no encoder. The answer has the
///   fault's number (`MessageFault::number`), text and details as for `world`. The fault is `World` with `Main`, or
///   with `Adapter` and the name; or one of the others, except `Plan`. It neither is nor carries a `Memory`.
/// - `MEMORY`: an allocation failed.
///
/// The status is never `SAME` or `TOO_SMALL`. `out` changes only with `FAULT`, and only in its first `length` bytes.
/// Numbers of the answer that are not mentioned here are 0.
pub fn validate(
    alloc: Global,
    seed: Seed,
    message: &[u8],
    modules: &[u8],
    adapter: Option<&[u8]>,
    out: &mut [u8],
) -> Answer
    ensures done { result.status ≡ done → IsValidOf message.now modules.now
        (option_map (λ n. n.now) adapter.entry) }
    ensures bad_argument { result.status ≡ bad_argument → IsNoModuleOf message.now modules.now
        (option_map (λ n. n.now) adapter.entry) }
    ensures fault { result.status ≡ failed → IsValidationFaultOf message.now modules.now
        (option_map (λ n. n.now) adapter.entry) result out.old out.new }
    ensures unchanged { result.status ≢ failed → out.new ≡ out.old }
    ensures statuses { (result.status ≤ 5) × (result.status ≢ same)
        × (result.status ≢ too_small) }
    ensures others { AreOthersOfFaultZero result }
{
    match world_input(alloc, seed, message, modules) {
        Ok(input) => validate_for(alloc, &input.encoder, adapter, out),
        Err(refused) => answer_refused(alloc, refused, out),
    }
}
