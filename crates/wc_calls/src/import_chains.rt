//! The call that says why an adapter has its imports.

ghost use Rattle.std.specs.Prelude.{◌≡◌, ◌≢◌, ◌<◌, ◌≤◌, ◌⊎◌, IfErr, IfOk, false, length};
ghost use Rattle.std.specs.List.{All};
ghost use Rattle.std.specs.Str.{IsUtf8};
ghost use Rattle.wc_gc.specs.LiveItems.{IsFault, trim_input, trim_input_for_names};
ghost use Rattle.wc_gc.specs.TrimPlace.{IsExplained};
ghost use Rattle.wc_calls.specs.Answers.{AreOthersOfTextZero, IsBytesStatus, IsFront, IsPut, IsTooLong, bad_argument, done, failed, out_of_memory, same, too_small};
ghost use Rattle.wc_calls.specs.ExportNames.{texts};
ghost use Rattle.wc_calls.specs.ImportChains.{IsWhyFault, IsWhyText};
ghost use Rattle.wc_calls.specs.MemoryFaults.{gc_is_memory};
ghost use Rattle.wc_calls.specs.Private.TrimArguments.{IsTrimAnswered};

use crate::answers::{Answer, BAD_ARGUMENT, MEMORY, answer_without_bytes, put};
use crate::export_names::{are_texts, name_set};
use crate::trimming::answer_refused_trim;
use std::alloc::Global;
use wc_gc::{GcFault, TrimPlace, why_imports_explained};
use wc_maps::{Seed, Set};
use wc_record::import_chains_to_json;
use wc_texts::Refused;

/// Says why an adapter has its imports, if it must export the names `required`: the shortest chain to each import
/// that these exports reach, as `wc_gc::why_imports` finds it. A repeated name counts once; `required` may be empty.
/// The maps that are made hash under `seed`.
///
/// - `DONE`: `out` begins with the chains as JSON, written as `wc_record::import_chains_to_json` writes them;
///   `length` is its length in bytes. The JSON is a tree, and its length is linear in the size of the adapter.
/// - `TOO_SMALL`: the JSON would have `length` bytes, and `out` has fewer.
/// - `BAD_ARGUMENT`: exactly if a name is not UTF-8.
/// - `FAULT`: the fault of `why_imports`, answered as `trim` answers its fault.
/// - `MEMORY`: an allocation failed.
///
/// The status is never `SAME`. `out` changes only with `DONE` and `FAULT`, and only in its first `length` bytes.
/// Numbers of the answer that are not mentioned here are 0.
pub fn why(alloc: Global, seed: Seed, wasm: &[u8], required: &[&[u8]], out: &mut [u8]) -> Answer
    ensures done { result.status ≡ done
        → IsPut (IsWhyText (trim_input_for_names wasm.now (texts required.now)))
        result.length out.old out.new }
    ensures too_small { result.status ≡ too_small
        → IsTooLong (IsWhyText (trim_input_for_names wasm.now (texts required.now)))
        result.length out.old }
    ensures fault { result.status ≡ failed
        → IsWhyFault wasm.now (texts required.now) result out.old out.new }
    ensures module_length { result.module_length ≡ 0 }
    ensures bad_argument { result.status ≡ bad_argument → ¬ (All IsUtf8 (texts required.now)) }
    ensures arguments { result.status ≢ bad_argument → All IsUtf8 (texts required.now) }
    ensures unchanged { result.status ≢ done → result.status ≢ failed → out.new ≡ out.old }
    ensures statuses { (result.status ≤ 5) × (result.status ≢ same) }
    ensures others { AreOthersOfTextZero result }
{
    if !are_texts(required) {
        return answer_without_bytes(BAD_ARGUMENT);
    }
    why_for_names(alloc, seed, wasm, required, out)
}

/// Says why an adapter has its imports, for names that are UTF-8.
fn why_for_names<'a>(
    alloc: Global,
    seed: Seed,
    wasm: &'a [u8],
    required: &'a [&'a [u8]],
    out: &mut [u8],
) -> Answer
    requires { All IsUtf8 (texts required.now) }
    ensures done { result.status ≡ done
        → IsPut (IsWhyText (trim_input_for_names wasm.now (texts required.now)))
        result.length out.old out.new }
    ensures too_small { result.status ≡ too_small
        → IsTooLong (IsWhyText (trim_input_for_names wasm.now (texts required.now)))
        result.length out.old }
    ensures fault { result.status ≡ failed
        → IsWhyFault wasm.now (texts required.now) result out.old out.new }
    ensures module_length { result.module_length ≡ 0 }
    ensures unchanged { result.status ≢ done → result.status ≢ failed → out.new ≡ out.old }
    ensures statuses { (result.status ≤ 5) × (result.status ≢ same)
        × (result.status ≢ bad_argument) }
    ensures others { AreOthersOfTextZero result }
{
    let Ok(names) = name_set(alloc, seed, required) else {
        return answer_without_bytes(MEMORY);
    };
    let text = why_text(alloc, wasm, &names);
    put_text_or_fault(alloc, required, &text, out)
}

/// The chains to imports of an adapter, as JSON.
fn why_text(
    alloc: Global,
    wasm: &[u8],
    names: &Set<String>,
) -> Result<Vec<u8>, Refused<GcFault, TrimPlace>>
    ensures text { IfOk result (λ v. IsWhyText (trim_input wasm.now names.now.keys) v.items) }
    ensures fault { IfErr result (λ x. IsFault (trim_input wasm.now names.now.keys) x.fault) }
    ensures place { IfErr result (λ x. IsExplained (trim_input wasm.now names.now.keys)
        x.fault x.place) }
{
    let chains = why_imports_explained(alloc, wasm, names)?;
    let text = import_chains_to_json(alloc, &chains)?;
    Ok(text)
}

/// Writes the text that a call answers for a module; for a fault, its details.
pub(crate) fn put_text_or_fault(
    alloc: Global,
    required: &[&[u8]],
    text: &Result<Vec<u8>, Refused<GcFault, TrimPlace>>,
    out: &mut [u8],
) -> Answer
    ensures module_length { result.module_length ≡ 0 }
    ensures length { IfOk text.now (λ v. result.length ≡ length v.items) }
    ensures done { IfOk text.now (λ v. result.status ≡ done → IsFront v.items out.old out.new) }
    ensures too_small { IfOk text.now (λ v. result.status ≡ too_small
        → length out.old < result.length) }
    ensures ok { IfOk text.now (λ v. IsBytesStatus result.status) }
    ensures refused { IfErr text.now (λ _. (result.status ≢ done)
        × (result.status ≢ too_small)) }
    ensures fault_or_memory { IfErr text.now (λ _. (result.status ≡ failed)
        ⊎ (result.status ≡ out_of_memory)) }
    ensures memory { IfErr text.now (λ x. result.status ≡ failed
        → gc_is_memory x.fault ≡ false) }
    ensures fault { IfErr text.now (λ x. result.status ≡ failed
        → IsTrimAnswered (texts required.now) x result out.old out.new) }
    ensures unchanged { result.status ≢ done → result.status ≢ failed → out.new ≡ out.old }
    ensures others { AreOthersOfTextZero result }
{
    match text {
        Ok(bytes) => put(&[], bytes.as_slice(), out),
        Err(refused) => answer_refused_trim(alloc, required, refused, out),
    }
}
