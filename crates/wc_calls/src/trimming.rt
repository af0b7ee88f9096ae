//! The call that trims an adapter.

ghost use Rattle.std.specs.Prelude.{◌≡◌, ◌≢◌, ◌<◌, ◌≤◌, ◌⊎◌, [], false, length, IfOk, IfErr};
ghost use Rattle.std.specs.List.{All};
ghost use Rattle.std.specs.Str.{IsUtf8};
ghost use Rattle.wc_gc.specs.LiveItems.{trim_input_for_names};
ghost use Rattle.wc_gc.specs.Parts.{settings};
ghost use Rattle.wc_gc.specs.TrimmedText.{IsTrimmed};
ghost use Rattle.wc_calls.specs.Answers.{AreOthersOfTextZero, IsBytesStatus, IsFront, IsPut, IsTooLong, done, failed, too_small, same, bad_argument, out_of_memory};
ghost use Rattle.wc_calls.specs.ExportNames.{texts};
ghost use Rattle.wc_calls.specs.MemoryFaults.{gc_is_memory};
ghost use Rattle.wc_calls.specs.Private.TrimArguments.{IsTrimAnswered, passed_input};
ghost use Rattle.wc_calls.specs.Trimming.{AreArguments, IsTrimmingFault, position_in};

use crate::answers::{Answer, BAD_ARGUMENT, MEMORY, answer_without_bytes, put, put_refusal};
use crate::export_names::{are_texts, name_set, optional_text, position_of};
use crate::memory_faults::gc_is_memory;
use crate::places::trim_place_text;
use std::alloc::Global;
use wc_gc::{GcFault, TrimPlace, run_explained};
use wc_maps::Seed;
use wc_texts::Refused;

/// The largest exponent of a page size: a page has 2^16 bytes at most.
const MAX_PAGE_SIZE_LOG2: u32 = 16;

/// Trims an adapter to the items that its exports with the names `required` reach, as `wc_gc::run` does. A repeated
/// name counts once. If `realloc` is a name, the main module exports a realloc under it. A page of the main module's
/// memory has 2^`page_size_log2` bytes. The maps that are made hash under `seed`.
///
/// - `DONE`: `out` begins with the bytes of the trimmed adapter, `length` of them, all of them a module.
/// - `TOO_SMALL`: the trimmed adapter has `length` bytes, and `out` has fewer.
/// - `BAD_ARGUMENT`: exactly if `required` is empty, a name is not UTF-8, or `page_size_log2` is more than 16.
/// - `FAULT`: the fault of `run`, by its number (`GcFault::number`). It neither is nor carries a `Memory`. For a
///   missing export, `position` is the first index of its name in `required`. `length` is the length in bytes of the
///   JSON object with the details of the fault (`wc_gc::TrimPlace`), as for `world` without an adapter; `out` begins
///   with the object, if it fits. Without details `length` is 0.
/// - `MEMORY`: an allocation failed.
///
/// The status is never `SAME`. `out` changes only with `DONE` and `FAULT`, and only in its first `length` bytes.
/// `module_length` is `length`, except with `FAULT`. Numbers of the answer that are not mentioned here are 0.
pub fn trim(
    alloc: Global,
    seed: Seed,
    wasm: &[u8],
    required: &[&[u8]],
    realloc: Option<&[u8]>,
    page_size_log2: u32,
    out: &mut [u8],
) -> Answer
    ensures done { result.status ≡ done → IsPut (IsTrimmed (settings realloc.entry page_size_log2)
        (trim_input_for_names wasm.now (texts required.now))) result.length out.old out.new }
    ensures too_small { result.status ≡ too_small
        → IsTooLong (IsTrimmed (settings realloc.entry page_size_log2)
        (trim_input_for_names wasm.now (texts required.now))) result.length out.old }
    ensures fault { result.status ≡ failed
        → IsTrimmingFault (settings realloc.entry page_size_log2) wasm.now (texts required.now)
        result out.old out.new }
    ensures module_length { result.status ≢ failed → result.module_length ≡ result.length }
    ensures bad_argument { result.status ≡ bad_argument
        → ¬ (AreArguments (settings realloc.entry page_size_log2) (texts required.now)) }
    ensures arguments { result.status ≢ bad_argument
        → AreArguments (settings realloc.entry page_size_log2) (texts required.now) }
    ensures unchanged { result.status ≢ done → result.status ≢ failed → out.new ≡ out.old }
    ensures statuses { (result.status ≤ 5) × (result.status ≢ same) }
    ensures others { AreOthersOfTextZero result }
{
    if page_size_log2 > MAX_PAGE_SIZE_LOG2 || required.is_empty() || !are_texts(required) {
        return answer_without_bytes(BAD_ARGUMENT);
    }
    match optional_text(realloc) {
        Ok(realloc) => {
            let passed = Arguments {
                wasm,
                required,
                realloc,
                page_size_log2,
            };
            trim_for_names(alloc, seed, passed, out)
        }
        Err(_) => answer_without_bytes(BAD_ARGUMENT),
    }
}

/// The arguments by which an adapter is trimmed.
#[derive(Clone, Copy)]
struct Arguments<'a> {
    wasm: &'a [u8],
    required: &'a [&'a [u8]],
    realloc: Option<&'a str>,
    page_size_log2: u32,
}

/// Trims an adapter by arguments that `run` takes.
fn trim_for_names(alloc: Global, seed: Seed, passed: Arguments<'_>, out: &mut [u8]) -> Answer
    requires some { passed.required.now ≢ [] }
    requires are_texts { All IsUtf8 (texts passed.required.now) }
    requires paged { passed.page_size_log2 ≤ 16 }
    ensures done { result.status ≡ done
        → IsPut (IsTrimmed (settings passed.entry.realloc passed.entry.page_size_log2)
        (passed_input passed.entry)) result.length out.old out.new }
    ensures too_small { result.status ≡ too_small
        → IsTooLong (IsTrimmed (settings passed.entry.realloc passed.entry.page_size_log2)
        (passed_input passed.entry)) result.length out.old }
    ensures fault { result.status ≡ failed
        → IsTrimmingFault (settings passed.entry.realloc passed.entry.page_size_log2)
        passed.entry.wasm.now (texts passed.entry.required.now) result out.old out.new }
    ensures module_length { result.status ≢ failed → result.module_length ≡ result.length }
    ensures unchanged { result.status ≢ done → result.status ≢ failed → out.new ≡ out.old }
    ensures statuses { (result.status ≤ 5) × (result.status ≢ same)
        × (result.status ≢ bad_argument) }
    ensures others { AreOthersOfTextZero result }
{
    let Ok(names) = name_set(alloc, seed, passed.required) else {
        return answer_without_bytes(MEMORY);
    };
    let trimmed = run_explained(
        alloc,
        passed.wasm,
        &names,
        passed.realloc,
        passed.page_size_log2,
    );
    put_trimmed(alloc, passed.required, &trimmed, out)
}

/// Writes the result of trimming for an adapter and names; for a fault, its details.
fn put_trimmed(
    alloc: Global,
    required: &[&[u8]],
    trimmed: &Result<Vec<u8>, Refused<GcFault, TrimPlace>>,
    out: &mut [u8],
) -> Answer
    ensures module_length { result.status ≢ failed → result.module_length ≡ result.length }
    ensures length { IfOk trimmed.now (λ v. result.length ≡ length v.items) }
    ensures done { IfOk trimmed.now (λ v. result.status ≡ done
        → IsFront v.items out.old out.new) }
    ensures too_small { IfOk trimmed.now (λ v. result.status ≡ too_small
        → length out.old < result.length) }
    ensures ok { IfOk trimmed.now (λ v. IsBytesStatus result.status) }
    ensures refused { IfErr trimmed.now (λ _. (result.status ≢ done)
        × (result.status ≢ too_small)) }
    ensures fault_or_memory { IfErr trimmed.now (λ _. (result.status ≡ failed)
        ⊎ (result.status ≡ out_of_memory)) }
    ensures memory { IfErr trimmed.now (λ x. result.status ≡ failed
        → gc_is_memory x.fault ≡ false) }
    ensures fault { IfErr trimmed.now (λ x. result.status ≡ failed
        → IsTrimAnswered (texts required.now) x result out.old out.new) }
    ensures unchanged { result.status ≢ done → result.status ≢ failed → out.new ≡ out.old }
    ensures others { AreOthersOfTextZero result }
{
    match trimmed {
        Ok(bytes) => put(bytes.as_slice(), &[], out),
        Err(refused) => answer_refused_trim(alloc, required, refused, out),
    }
}

/// Answers a fault of trimming with its details. If the fault is or carries a `Memory`, the answer is that an
/// allocation failed.
pub(crate) fn answer_refused_trim(
    alloc: Global,
    required: &[&[u8]],
    refused: &Refused<GcFault, TrimPlace>,
    out: &mut [u8],
) -> Answer
    ensures memory { result.status ≡ failed → gc_is_memory refused.now.fault ≡ false }
    ensures fault { result.status ≡ failed
        → IsTrimAnswered (texts required.now) refused.now result out.old out.new }
    ensures unchanged { result.status ≢ failed → out.new ≡ out.old }
    ensures statuses { (result.status ≡ failed) ⊎ (result.status ≡ out_of_memory) }
    ensures others { AreOthersOfTextZero result }
{
    let fault = &refused.fault;
    if gc_is_memory(fault) {
        return answer_without_bytes(MEMORY);
    }
    match trim_place_text(alloc, refused.place) {
        Ok(place) => put_refusal(
            fault.number(),
            missing_position(fault, required),
            &place,
            out,
        ),
        Err(_) => answer_without_bytes(MEMORY),
    }
}

/// The first index of the fault's name among the names; 0 for a fault that carries none.
fn missing_position(fault: &GcFault, required: &[&[u8]]) -> usize
    ensures { result ≡ position_in (texts required.now) fault.now }
{
    match fault {
        GcFault::MissingExport(name) => position_of(required, name),
        _ => 0,
    }
}
