//! The call that lists the imports of a component from each interface.

ghost use Rattle.std.specs.Prelude.{◌≡◌, ◌≢◌, ◌≤◌, IfErr, IfOk};
ghost use Rattle.wc_calls.specs.Answers.{AreOthersOfTextZero, IsPut, IsTooLong, bad_argument, done, failed, same, too_small};
ghost use Rattle.wc_world.specs.Nameable.{AreNameable};
ghost use Rattle.wc_world.specs.WorldViews.{world_view};
ghost use Rattle.wc_ways.specs.Imports.{IsImportsJson};
ghost use Rattle.wc_component_calls.specs.ImportsCall.{AreComponentImports, IsImportsCause, IsImportsFault};

use crate::component_fault::ComponentFault;
use crate::fault_answers::answer_text;
use std::alloc::Global;
use wc_calls::{Answer, WorldCall, answer_for_world};
use wc_maps::Seed;
use wc_ways::imports_json;
use wc_world::ComponentWorld;

/// The request for the imports of a component from each interface.
struct ImportsCall;

impl WorldCall for ImportsCall {
    ghost use Rattle.wc_ways.specs.Imports.{IsImportsJson};
    ghost use Rattle.wc_component_calls.specs.ImportsCall.{IsImportsCause};
    ghost use Rattle.wc_component_calls.specs.Private.Answered.{IsAnswered};

    ghost answers = { λ call w answer old new.
        IsAnswered (IsImportsJson w) (IsImportsCause w) answer old new };

    fn answer(&self, alloc: Global, world: &ComponentWorld<'_>, out: &mut [u8]) -> Answer {
        answer_text(alloc, imports_of(alloc, world), out)
    }
}

/// The imports of each interface by a component, as JSON.
fn imports_of(alloc: Global, world: &ComponentWorld<'_>) -> Result<Vec<u8>, ComponentFault>
    requires { AreNameable (world_view world.now) }
    ensures text { IfOk result (λ v. IsImportsJson (world_view world.now) v.items) }
    ensures fault { IfErr result (IsImportsCause (world_view world.now)) }
{
    Ok(imports_json(alloc, world)?)
}

/// Lists the imports of a component from each interface, with the modules that import it and the items that must be
/// removed to drop it. The result is JSON, as `imports_json` of `wc_ways` writes it. `message`, `modules` and `seed`
/// are as for `world` of `wc_calls`. No plan is made.
///
/// - `DONE`: `out` begins with the interfaces as JSON, in a line; `length` is its length in bytes.
/// - `TOO_SMALL`: the JSON would have `length` bytes, and `out` has fewer.
/// - `FAULT`: as for `component_paths`, except `UnknownImport`.
/// - `MEMORY`: an allocation failed.
///
/// The status is never `SAME` or `BAD_ARGUMENT`. `out` changes only with `DONE` and `FAULT`, and only in its first
/// `length` bytes. Numbers of the answer that are not mentioned here are 0.
pub fn component_imports(
    alloc: Global,
    seed: Seed,
    message: &[u8],
    modules: &[u8],
    out: &mut [u8],
) -> Answer
    ensures done { result.status ≡ done
        → IsPut (AreComponentImports message.now modules.now) result.length out.old out.new }
    ensures too_small { result.status ≡ too_small
        → IsTooLong (AreComponentImports message.now modules.now) result.length out.old }
    ensures fault { result.status ≡ failed → IsImportsFault message.now modules.now
        result out.old out.new }
    ensures module_length { result.module_length ≡ 0 }
    ensures unchanged { result.status ≢ done → result.status ≢ failed → out.new ≡ out.old }
    ensures statuses { (result.status ≤ 5) × (result.status ≢ same)
        × (result.status ≢ bad_argument) }
    ensures others { AreOthersOfTextZero result }
{
    answer_for_world(alloc, seed, message, modules, &ImportsCall, out)
}
