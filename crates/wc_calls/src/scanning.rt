//! The call that lists the imports and exports of a module.

ghost use Rattle.std.specs.Prelude.{◌≡◌, ◌≢◌, ◌≤◌, ◌⊎◌, IfOk, None, false};
ghost use Rattle.wc_read.specs.Fault.{read_fault_number};
ghost use Rattle.wc_read.specs.Modules.{SpellsModule, module_value};
ghost use Rattle.wc_record.specs.Places.{bytes_json};
ghost use Rattle.wc_calls.specs.Answers.{AreOthersOfTextZero, IsFaultPut, IsPut, IsTooLong, bad_argument, done, failed, out_of_memory, same, too_small};
ghost use Rattle.wc_calls.specs.MemoryFaults.{read_is_memory};
ghost use Rattle.wc_calls.specs.Places.{place_text};
ghost use Rattle.wc_calls.specs.Scanning.{IsScanFault, IsScanText};

use crate::answers::{Answer, MEMORY, answer_without_bytes, put, put_refusal};
use crate::memory_faults::read_is_memory;
use crate::places::read_place_text;
use std::alloc::{AllocError, Global};
use wc_read::{Module, ReadFault, ReadPlace, function_names, read_module_explained};
use wc_record::scan_to_json;
use wc_texts::Refused;

/// Lists the imports and exports of a module with their types, and the names of functions in its name sections. It
/// does not read bodies of functions, or sections of elements and data.
///
/// - `DONE`: `out` begins with the lists as JSON, written as `wc_record::scan_to_json` writes them; `length` is its
///   length in bytes. `wc_read::function_names` gives the names of functions.
/// - `TOO_SMALL`: the JSON would have `length` bytes, and `out` has fewer.
/// - `FAULT`: the fault of `wc_read::read_module`, by its number (`ReadFault::number`). It is no `Memory`. `length`
///   is the length in bytes of the JSON object that says where the module is malformed, as for `dedupe`; `out` begins
///   with the object, if it fits.
/// - `MEMORY`: an allocation failed.
///
/// The status is never `SAME` or `BAD_ARGUMENT`. `out` changes only with `DONE` and `FAULT`, and only in its first
/// `length` bytes. Numbers of the answer that are not mentioned here are 0.
pub fn scan(alloc: Global, wasm: &[u8], out: &mut [u8]) -> Answer
    ensures done { result.status ≡ done
        → IsPut (IsScanText wasm.now) result.length out.old out.new }
    ensures too_small { result.status ≡ too_small
        → IsTooLong (IsScanText wasm.now) result.length out.old }
    ensures fault { result.status ≡ failed → IsScanFault wasm.now result out.old out.new }
    ensures module_length { result.module_length ≡ 0 }
    ensures unchanged { result.status ≢ done → result.status ≢ failed → out.new ≡ out.old }
    ensures statuses { (result.status ≤ 5) × (result.status ≢ same)
        × (result.status ≢ bad_argument) }
    ensures position { result.position ≡ 0 }
    ensures others { AreOthersOfTextZero result }
{
    match read_module_explained(alloc, wasm) {
        Ok(module) => answer_module(alloc, wasm, &module, out),
        Err(refused) => answer_refused_module(alloc, &refused, out),
    }
}

/// Answers the imports and exports of a module.
fn answer_module(alloc: Global, wasm: &[u8], module: &Module<'_>, out: &mut [u8]) -> Answer
    requires { SpellsModule wasm.now (module_value module.now) }
    ensures done { result.status ≡ done
        → IsPut (IsScanText wasm.now) result.length out.old out.new }
    ensures too_small { result.status ≡ too_small
        → IsTooLong (IsScanText wasm.now) result.length out.old }
    ensures module_length { result.module_length ≡ 0 }
    ensures unchanged { result.status ≢ done → out.new ≡ out.old }
    ensures statuses { (result.status ≡ done) ⊎ (result.status ≡ too_small)
        ⊎ (result.status ≡ out_of_memory) }
    ensures position { result.position ≡ 0 }
    ensures others { AreOthersOfTextZero result }
{
    match module_text(alloc, wasm, module) {
        Ok(text) => put(&[], text.as_slice(), out),
        Err(_) => answer_without_bytes(MEMORY),
    }
}

/// The imports and exports of a module, as JSON. Names can be read of each module, unless memory runs out.
fn module_text(alloc: Global, wasm: &[u8], module: &Module<'_>) -> Result<Vec<u8>, AllocError>
    requires { SpellsModule wasm.now (module_value module.now) }
    ensures { IfOk result (λ v. IsScanText wasm.now v.items) }
{
    match function_names(alloc, wasm) {
        Ok(names) => scan_to_json(alloc, module, &names),
        Err(_) => Err(AllocError),
    }
}

/// Answers a fault of reading with its position. If the fault is a `Memory`, the answer is that an allocation failed.
fn answer_refused_module(
    alloc: Global,
    refused: &Refused<ReadFault, ReadPlace>,
    out: &mut [u8],
) -> Answer
    ensures memory { result.status ≡ failed → read_is_memory refused.now.fault ≡ false }
    ensures fault { result.status ≡ failed
        → IsFaultPut (read_fault_number refused.now.fault) 0
        (place_text (bytes_json None) refused.now.place) result out.old out.new }
    ensures unchanged { result.status ≢ failed → out.new ≡ out.old }
    ensures statuses { (result.status ≡ failed) ⊎ (result.status ≡ out_of_memory) }
    ensures module_length { result.module_length ≡ 0 }
    ensures position { result.position ≡ 0 }
    ensures others { AreOthersOfTextZero result }
{
    if read_is_memory(refused.fault) {
        return answer_without_bytes(MEMORY);
    }
    match read_place_text(alloc, refused.place) {
        Ok(place) => put_refusal(refused.fault.number(), 0, &place, out),
        Err(_) => answer_without_bytes(MEMORY),
    }
}
