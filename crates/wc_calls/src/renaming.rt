//! The call that renames repeated imports.

ghost use Rattle.std.specs.Prelude.{◌≡◌, ◌≢◌, ◌≤◌, ◌⊎◌, ◌<◌, ◌++◌, [], None, false, length};
ghost use Rattle.wc_read.specs.Sections.{IsComponent};
ghost use Rattle.wc_dedupe.specs.Dedupe.{IsDeduped};
ghost use Rattle.wc_calls.specs.Renames.{renames_text};
ghost use Rattle.wc_record.specs.Places.{bytes_json};
ghost use Rattle.wc_calls.specs.Answers.{AreOthersOfTextZero, HasNoBytes, HasNoFault, IsFaultPut, IsFront, IsBytesStatus, IsPut, IsTooLong, done, failed, too_small, same, bad_argument, out_of_memory};
ghost use Rattle.wc_dedupe.specs.Fault.{dedupe_fault_number};
ghost use Rattle.wc_calls.specs.MemoryFaults.{dedupe_is_memory};
ghost use Rattle.wc_calls.specs.Places.{place_text};
ghost use Rattle.wc_calls.specs.Renaming.{IsRenamed, IsRenamingFault};

use crate::answers::{Answer, MEMORY, SAME, answer_without_bytes, put, put_refusal};
use crate::memory_faults::dedupe_is_memory;
use crate::places::read_place_text;
use crate::renames::renames_text;
use std::alloc::Global;
use std::borrow::CowSlice;
use wc_dedupe::{DedupeFault, ModuleImportMap, RenameList};
use wc_read::ReadPlace;
use wc_texts::Refused;

/// Renames the imports of a module so that no two share a module and a name, as `ModuleImportMap::new` does.
///
/// - `DONE`: `out` begins with the bytes of the renamed module, `module_length` of them, then come the renames;
///   `length` is the length of both in bytes. The renames, at least one, are encoded as a vector of the binary format
///   (WebAssembly core specification, 5.1.3), in the order of the module's imports. First comes their number. Each
///   has the name of its module, its original name and its new name. Numbers are minimal LEB128 (5.2.2), a name is
///   its length and its bytes (5.2.4).
/// - `TOO_SMALL`: module and renames would have `length` bytes, and `out` has fewer.
/// - `SAME`: no import repeats, or the bytes are a component. Every component has this status.
/// - `FAULT`: the fault of `ModuleImportMap::new`, by its number (`DedupeFault::number`). It neither is nor carries a
///   `Memory`. `length` is the length in bytes of a JSON object that says where the module is malformed, as for
///   `world`; `out` begins with the object, if it fits. Without an object `length` is 0.
/// - `MEMORY`: an allocation failed.
///
/// The status is never `BAD_ARGUMENT`. `out` changes only with `DONE` and `FAULT`, and only in its first `length`
/// bytes. Numbers of the answer that are not mentioned here are 0.
pub fn dedupe(alloc: Global, wasm: &[u8], out: &mut [u8]) -> Answer
    ensures done { result.status ≡ done
        → IsPut (IsRenamed wasm.now result.module_length) result.length out.old out.new }
    ensures too_small { result.status ≡ too_small
        → IsTooLong (IsRenamed wasm.now result.module_length) result.length out.old }
    ensures same { result.status ≡ same → IsDeduped wasm.now wasm.now [] }
    ensures fault { result.status ≡ failed → IsRenamingFault wasm.now result out.old out.new }
    ensures component { IsComponent wasm.now → result.status ≡ same }
    ensures unchanged { result.status ≢ done → result.status ≢ failed → out.new ≡ out.old }
    ensures statuses { (result.status ≤ 5) × (result.status ≢ bad_argument) }
    ensures position { result.position ≡ 0 }
    ensures others { AreOthersOfTextZero result }
{
    match ModuleImportMap::new_explained(alloc, CowSlice::Borrowed(wasm)) {
        Ok((module, map)) => match map {
            Some(map) => put_renamed(alloc, module.as_slice(), map.renames(), out),
            None => answer_without_bytes(SAME),
        },
        Err(refused) => answer_refused_module(alloc, &refused, out),
    }
}

/// Answers a fault of renaming with its details. If the fault is or carries a `Memory`, the answer is that an
/// allocation failed.
fn answer_refused_module(
    alloc: Global,
    refused: &Refused<DedupeFault, ReadPlace>,
    out: &mut [u8],
) -> Answer
    ensures memory { result.status ≡ failed → dedupe_is_memory refused.now.fault ≡ false }
    ensures fault { result.status ≡ failed
        → IsFaultPut (dedupe_fault_number refused.now.fault) 0
        (place_text (bytes_json None) refused.now.place) result out.old out.new }
    ensures unchanged { result.status ≢ failed → out.new ≡ out.old }
    ensures statuses { (result.status ≡ failed) ⊎ (result.status ≡ out_of_memory) }
    ensures position { result.position ≡ 0 }
    ensures others { AreOthersOfTextZero result }
{
    if dedupe_is_memory(refused.fault) {
        return answer_without_bytes(MEMORY);
    }
    match read_place_text(alloc, refused.place) {
        Ok(place) => put_refusal(refused.fault.number(), 0, &place, out),
        Err(_) => answer_without_bytes(MEMORY),
    }
}

/// Writes a renamed module, and then its renames.
fn put_renamed(alloc: Global, bytes: &[u8], renames: &RenameList, out: &mut [u8]) -> Answer
    ensures length { (result.status ≡ done) ⊎ (result.status ≡ too_small)
        → result.length ≡ length (bytes.now ++ renames_text renames.now) }
    ensures module_length { (result.status ≡ done) ⊎ (result.status ≡ too_small)
        → result.module_length ≡ length bytes.now }
    ensures done { result.status ≡ done
        → IsFront (bytes.now ++ renames_text renames.now) out.old out.new }
    ensures too_small { result.status ≡ too_small → length out.old < result.length }
    ensures unchanged { result.status ≢ done → out.new ≡ out.old }
    ensures statuses { IsBytesStatus result.status }
    ensures no_fault { HasNoFault result }
    ensures no_bytes { result.status ≢ done → result.status ≢ too_small → HasNoBytes result }
{
    match renames_text(alloc, renames) {
        Ok(text) => put(bytes, text.as_slice(), out),
        Err(_) => answer_without_bytes(MEMORY),
    }
}
