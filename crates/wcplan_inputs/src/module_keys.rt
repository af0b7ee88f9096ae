//! The adapters and the keys of exports that a command names.

ghost use Rattle.std.specs.Prelude.{◌≡◌, ◌<◌, IfErr, IfOk, OnOk, length, map, string_bytes};
ghost use Rattle.wc_selection.specs.KeyNames.{request_keys};
ghost use Rattle.wc_selection.specs.Keys.{AreKeysApart, named_key, texts_of};
ghost use Rattle.wc_selection.specs.Requests.{given_keys, request_value};
ghost use Rattle.wc_maps.specs.Texts.{text_pair};
ghost use Rattle.wc_selection.specs.ModuleKeys.{AreKeysThere};
ghost use Rattle.wcplan_inputs.specs.Arguments.{command_view};
ghost use Rattle.wcplan_inputs.specs.ModuleKeys.{AreNamesThere, IsGivenCause, IsNamesCause, hook_of, request_of};
ghost use Rattle.wcplan_inputs.specs.Private.SharedKeys.{adapters_request, own_pair};

use crate::arguments::Command;
use crate::fault::SelectionFault;
use crate::file_names::file_fault;
use std::alloc::{AllocError, Global};
use wc_maps::{Seed, first_missing, first_repeated};
use wc_options::first_parts;
use wc_resolve::{Resolve, WorldId, WorldKey};
use wc_selection::{KeyRequest, no_task_hook, request_keys};

/// The keys that a command gives.
pub(crate) fn key_request<'r, 'a>(command: &'r Command<'a>) -> KeyRequest<'r, 'a>
    ensures { request_value result ≡ request_of (command_view command.now) }
{
    KeyRequest {
        exports: &command.exports,
        adapter_exports: &command.adapter_exports,
    }
}

/// The keys of a world's exports, in order, each with the text that the command uses for it (`request_keys`). The
/// sets that are made hash under `seed`.
///
/// The world must be in range (`Resolve::has_world`).
///
/// # Errors
///
/// `AllocError`: an allocation failed.
pub(crate) fn command_keys(
    alloc: Global,
    seed: Seed,
    command: &Command<'_>,
    resolve: &Resolve,
    world: WorldId,
) -> Result<Vec<(WorldKey, String)>, AllocError>
    requires { world.0 < length resolve.now.worlds }
    ensures keys { IfOk result (λ v. map named_key v.items
        ≡ request_keys (request_of (command_view command.now)) resolve.now world.0) }
    ensures differ { IfOk result (λ v. AreKeysApart (map named_key v.items)) }
{
    let request = key_request(command);
    request_keys(alloc, seed, &request, resolve, world)
}

/// Checks the names of adapters and the keys of a command against a world's exports. The sets that are made hash
/// under `seed`.
///
/// # Errors
///
/// If several causes apply, the first in this order is named, and its first occurrence in the arguments; `Memory` may
/// come instead of any. Keys of the main module come before keys of adapters.
///
/// - `RepeatedAdapter`: two adapters have one name.
/// - `UnknownAdapter`: a key is for an adapter whose name no adapter has.
/// - `EmptyDirectory`, `FileName`, `MainFile`: files are to be written, but can't have these names (`file_fault`).
/// - `UnknownKey`, `SeveralKeys`, `RepeatedKey`: a text matches no key. Without versions, it matches no export,
///   several exports, or one export whose text with its version is used too.
/// - `RepeatedKey`: a key is repeated, for one module or for two.
/// - `Memory`: an allocation failed.
pub(crate) fn check_names<'a>(
    alloc: Global,
    seed: Seed,
    command: &Command<'a>,
    keys: &[(WorldKey, String)],
) -> Result<(), SelectionFault<'a>>
    ensures there { OnOk result (AreNamesThere (command_view command.now)
        (map named_key keys.now)) }
    ensures fault { IfErr result (IsNamesCause (command_view command.now)
        (map named_key keys.now)) }
{
    let adapters = first_parts(alloc, &command.adapters)?;
    if let Some(name) = first_repeated(alloc, seed, &adapters)? {
        return Err(SelectionFault::RepeatedAdapter(name));
    }
    let exporters = first_parts(alloc, &command.adapter_exports)?;
    if let Some(name) = first_missing(alloc, seed, &exporters, &adapters)? {
        return Err(SelectionFault::UnknownAdapter(name));
    }
    if let Some(fault) = file_fault(command.out, &adapters) {
        return Err(fault);
    }
    check_keys(alloc, seed, command, keys)
}

/// Checks the keys of a command against a world's exports.
fn check_keys<'a>(
    alloc: Global,
    seed: Seed,
    command: &Command<'a>,
    keys: &[(WorldKey, String)],
) -> Result<(), SelectionFault<'a>>
    ensures there { OnOk result (AreKeysThere (given_keys (request_of (command_view command.now)))
        (texts_of (map named_key keys.now))) }
    ensures fault { IfErr result (IsGivenCause (given_keys (request_of (command_view command.now)))
        (map named_key keys.now)) }
{
    let request = key_request(command);
    match wc_selection::check_keys(alloc, seed, &request, keys, keys) {
        Ok(()) => Ok(()),
        Err(fault) => Err(SelectionFault::from(fault)),
    }
}

/// The texts of some pairs.
///
/// # Errors
///
/// `AllocError`: an allocation failed.
pub(crate) fn text_pairs(
    alloc: Global,
    pairs: &[(String, String)],
) -> Result<Vec<(&str, &str)>, AllocError>
    ensures { IfOk result (λ v. map text_pair v.items ≡ map own_pair pairs.now) }
{
    let mut texts = Vec::new(alloc);
    for (first, second) in pairs {
        texts.push((first.as_str(), second.as_str()))?;
    }
    Ok(texts)
}

/// The request in which adapters export these keys, each after the name of its adapter, and the main module exports
/// all others.
pub(crate) fn adapter_request<'r, 'k>(given: &'r [(&'k str, &'k str)]) -> KeyRequest<'r, 'k>
    ensures { request_value result ≡ adapters_request (map text_pair given.now) }
{
    KeyRequest {
        exports: &[],
        adapter_exports: given,
    }
}

/// The name of the task hook for the encoder: the name in the command, or otherwise a name that makes no export the
/// task hook (`no_task_hook`).
///
/// # Errors
///
/// `AllocError`: an allocation failed.
pub(crate) fn task_hook(alloc: Global, command: &Command<'_>) -> Result<String, AllocError>
    ensures { IfOk result (λ hook. string_bytes hook ≡ hook_of (command_view command.now)) }
{
    match command.task_hook {
        Some(name) => String::from_str(alloc, name),
        None => no_task_hook(alloc),
    }
}
