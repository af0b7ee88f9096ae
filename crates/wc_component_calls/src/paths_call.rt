//! The call that gives the paths to the imports of a component.

ghost use Rattle.std.specs.Prelude.{◌≡◌, ◌≢◌, ◌≤◌, IfErr, IfOk};
ghost use Rattle.std.specs.Str.{IsUtf8};
ghost use Rattle.wc_calls.specs.Answers.{AreOthersOfTextZero, IsPut, IsTooLong, bad_argument, done, failed, same, too_small};
ghost use Rattle.wc_world.specs.Nameable.{AreNameable};
ghost use Rattle.wc_world.specs.WorldViews.{world_view};
ghost use Rattle.wc_component_calls.specs.PathsCall.{IsComponentPaths, IsPathsCause, IsPathsFault, IsPathsText};

use crate::component_fault::ComponentFault;
use crate::fault_answers::answer_text;
use crate::known_imports::check_key;
use std::alloc::Global;
use std::str;
use wc_calls::{Answer, BAD_ARGUMENT, WorldCall, answer_for_world, answer_without_bytes};
use wc_maps::Seed;
use wc_ways::ways_json;
use wc_world::ComponentWorld;

/// The request for the paths to the imports of a key.
#[derive(Clone, Copy)]
struct PathsCall<'a> {
    key: &'a str,
}

impl WorldCall for PathsCall<'_> {
    ghost use Rattle.wc_component_calls.specs.PathsCall.{IsPathsCause, IsPathsText};
    ghost use Rattle.wc_component_calls.specs.Private.Answered.{IsAnswered};

    ghost answers = { λ call w answer old new.
        IsAnswered (IsPathsText w call.key.now) (IsPathsCause call.key.now w) answer old new };

    fn answer(&self, alloc: Global, world: &ComponentWorld<'_>, out: &mut [u8]) -> Answer {
        answer_text(alloc, paths_of(alloc, world, self.key), out)
    }
}

/// The paths to the imports that a key requests, as JSON.
fn paths_of(alloc: Global, world: &ComponentWorld<'_>, key: &str) -> Result<Vec<u8>, ComponentFault>
    requires { AreNameable (world_view world.now) }
    ensures text { IfOk result (λ v. IsPathsText (world_view world.now) key.now v.items) }
    ensures fault { IfErr result (IsPathsCause key.now (world_view world.now)) }
{
    check_key(alloc, world.encoder, key)?;
    Ok(ways_json(alloc, world, key)?)
}

/// Says why a component has the imports that a key requests. It gives the paths through its main module and its
/// adapters to these imports of its world, as JSON, as `ways_json` of `wc_ways` writes them. `message`, `modules` and
/// `seed` are as for `world` of `wc_calls`. No plan is made, so a component without a plan has its paths too.
///
/// The key is `all`; `$root`, for the world's own imports; or it requests imports of the world: an interface or a
/// package, with its version or without, or a function or a type of the world itself (`wc_why::asks_about`).
///
/// - `DONE`: `out` begins with the paths as JSON, in a line; `length` is its length in bytes.
/// - `TOO_SMALL`: the JSON would have `length` bytes, and `out` has fewer.
/// - `BAD_ARGUMENT`: exactly if the key is not UTF-8.
/// - `FAULT`: no paths can be given. The answer has the fault's number, its text, which has `position` bytes, and its
///   details, as for `world`. The fault is the `MessageFault` of a message that has no world, or a `ComponentFault`.
///   `UnknownImport` comes if the world has no import that the key requests. A JSON object then follows the text,
///   with `kind`, which is `imports`; `key`; and `imports`, the list of the texts of all imports of the world. `Ways`
///   comes if an adapter can't be searched, and has no details. A fault neither is nor carries a `Memory`.
/// - `MEMORY`: an allocation failed.
///
/// The status is never `SAME`. `out` changes only with `DONE` and `FAULT`, and only in its first `length` bytes.
/// Numbers of the answer that are not mentioned here are 0.
pub fn component_paths(
    alloc: Global,
    seed: Seed,
    message: &[u8],
    modules: &[u8],
    key: &[u8],
    out: &mut [u8],
) -> Answer
    ensures done { result.status ≡ done
        → IsPut (IsComponentPaths message.now modules.now key.now) result.length
        out.old out.new }
    ensures too_small { result.status ≡ too_small
        → IsTooLong (IsComponentPaths message.now modules.now key.now) result.length out.old }
    ensures fault { result.status ≡ failed → IsPathsFault message.now modules.now key.now
        result out.old out.new }
    ensures module_length { result.module_length ≡ 0 }
    ensures bad_argument { result.status ≡ bad_argument → ¬ (IsUtf8 key.now) }
    ensures arguments { result.status ≢ bad_argument → IsUtf8 key.now }
    ensures unchanged { result.status ≢ done → result.status ≢ failed → out.new ≡ out.old }
    ensures statuses { (result.status ≤ 5) × (result.status ≢ same) }
    ensures others { AreOthersOfTextZero result }
{
    match str::from_utf8(key) {
        Ok(key) => answer_for_world(alloc, seed, message, modules, &PathsCall { key }, out),
        Err(_) => answer_without_bytes(BAD_ARGUMENT),
    }
}
