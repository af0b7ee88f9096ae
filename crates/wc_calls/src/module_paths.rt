//! The call that gives the paths to the imports of a module.

ghost use Rattle.std.specs.Prelude.{◌≡◌, ◌≢◌, ◌≤◌, IfErr, IfOk};
ghost use Rattle.wc_import_paths.specs.Following.{IsRefusal};
ghost use Rattle.wc_calls.specs.Answers.{AreOthersOfTextZero, IsPut, IsTooLong, bad_argument, done, failed, same, too_small};
ghost use Rattle.wc_calls.specs.ExportNames.{texts};
ghost use Rattle.wc_calls.specs.ModulePaths.{ArePathArguments, IsPathsAnswer, IsPathsFault};

use crate::answers::{Answer, BAD_ARGUMENT, answer_without_bytes};
use crate::export_names::{are_texts, text_list};
use crate::import_chains::put_text_or_fault;
use std::alloc::Global;
use wc_gc::{GcFault, TrimPlace};
use wc_import_paths::{paths_to_json, patterns_of};
use wc_maps::Seed;
use wc_texts::Refused;

/// Gives the paths to the imports of any module, main modules too. They begin at its exports with the names
/// `exports`, or at all exports if `exports` is empty, and then at the start function. Only if none of these leads to
/// an import, they begin at active segments, as in `wc_import_paths::paths_to_json`. Each text in `imports` requests
/// imports: `KEY` requests all imports from a module or from a package of interfaces, `KEY=NAME` only those with this
/// name (`wc_import_paths::patterns_of`). If `imports` is empty, all imports are requested. The maps that are made
/// hash under `seed`.
///
/// - `DONE`: `out` begins with the paths as JSON in one line, `length` bytes. Imports that no path reaches are left
///   out, and so are requested imports that the module does not have.
/// - `TOO_SMALL`: the JSON would have `length` bytes, and `out` has fewer.
/// - `BAD_ARGUMENT`: exactly if a text in `exports` or in `imports` is not UTF-8.
/// - `FAULT`: the fault of `paths_to_json`, by its number (`GcFault::number`). It neither is nor carries a `Memory`.
///   For a missing export, `position` is the first index of its name in `exports`. `length` is the length in bytes of
///   the JSON object with the details of the fault, as for `trim`; `out` begins with the object, if it fits. Without
///   details `length` is 0.
/// - `MEMORY`: an allocation failed.
///
/// The status is never `SAME`. `out` changes only with `DONE` and `FAULT`, and only in its first `length` bytes.
/// Numbers of the answer that are not mentioned here are 0.
pub fn paths(
    alloc: Global,
    seed: Seed,
    wasm: &[u8],
    exports: &[&[u8]],
    imports: &[&[u8]],
    out: &mut [u8],
) -> Answer
    ensures done { result.status ≡ done
        → IsPut (IsPathsAnswer wasm.now (texts exports.now) (texts imports.now))
        result.length out.old out.new }
    ensures too_small { result.status ≡ too_small
        → IsTooLong (IsPathsAnswer wasm.now (texts exports.now) (texts imports.now))
        result.length out.old }
    ensures fault { result.status ≡ failed
        → IsPathsFault wasm.now (texts exports.now) result out.old out.new }
    ensures module_length { result.module_length ≡ 0 }
    ensures bad_argument { result.status ≡ bad_argument
        → ¬ (ArePathArguments (texts exports.now) (texts imports.now)) }
    ensures arguments { result.status ≢ bad_argument
        → ArePathArguments (texts exports.now) (texts imports.now) }
    ensures unchanged { result.status ≢ done → result.status ≢ failed → out.new ≡ out.old }
    ensures statuses { (result.status ≤ 5) × (result.status ≢ same) }
    ensures others { AreOthersOfTextZero result }
{
    if !are_texts(exports) || !are_texts(imports) {
        return answer_without_bytes(BAD_ARGUMENT);
    }
    let text = paths_text(alloc, seed, wasm, exports, imports);
    put_text_or_fault(alloc, exports, &text, out)
}

/// The paths to imports, as JSON.
fn paths_text(
    alloc: Global,
    seed: Seed,
    wasm: &[u8],
    exports: &[&[u8]],
    imports: &[&[u8]],
) -> Result<Vec<u8>, Refused<GcFault, TrimPlace>>
    requires { ArePathArguments (texts exports.now) (texts imports.now) }
    ensures text { IfOk result (λ v. IsPathsAnswer wasm.now (texts exports.now)
        (texts imports.now) v.items) }
    ensures refused { IfErr result (λ r. IsRefusal wasm.now (texts exports.now) r.fault r.place) }
{
    let names = text_list(alloc, exports)?;
    let asked = text_list(alloc, imports)?;
    let patterns = patterns_of(alloc, &asked)?;
    paths_to_json(alloc, seed, wasm, &names, &patterns)
}
