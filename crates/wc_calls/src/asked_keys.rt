//! The keys of a world's exports that a message asks of its modules.

ghost use Rattle.std.specs.Prelude.{◌≡◌, IfErr, IfOk, OnOk, flat_map, map};
ghost use Rattle.wc_json.specs.Messages.{adapter_message_view, exports_view, key_message_view};
ghost use Rattle.wc_resolve.specs.Views.{key_view};
ghost use Rattle.wc_selection.specs.KeyNames.{indexed_keys};
ghost use Rattle.wc_selection.specs.Keys.{AreKeysApart, export_keys, named_key, texts_of};
ghost use Rattle.wc_selection.specs.ModuleKeys.{AreKeysThere};
ghost use Rattle.wc_selection.specs.Requests.{given_keys, request_value};
ghost use Rattle.wc_maps.specs.Texts.{text_of, text_pair};
ghost use Rattle.wc_calls.specs.AskedKeys.{adapter_keys, adapter_texts, gives_none, key_texts, main_keys, main_texts};
ghost use Rattle.wc_calls.specs.MessageFault.{IsAskedCause};
ghost use Rattle.wc_calls.specs.Private.AskedKeys.{IsAsked, IsAskedCauseFor, IsAskedCauseIn, IsAskedFor, IsKeyFault};

use crate::message_fault::MessageFault;
use std::alloc::{AllocError, Global};
use wc_json::{AdapterMessage, KeyMessage};
use wc_maps::{Seed, Set};
use wc_resolve::{Resolve, WorldId, WorldKey};
use wc_selection::{
    Exporter, KeyIndex, KeyRequest, RequestFault, check_keys, export_keys, indexed_keys,
    required_keys,
};

/// A world, and the keys of its exports that a message gives for the main module.
#[derive(Clone, Copy)]
pub(crate) struct AskedWorld<'a> {
    pub resolve: &'a Resolve,
    pub world: WorldId,
    pub exports: &'a Option<Vec<KeyMessage>>,
}

/// The keys that a message asks of a world's exports.
#[derive(Drop)]
pub(crate) struct AskedKeys {
    /// The keys of the world's exports, in order, each with the text by which the message gives it.
    pub keys: Vec<(WorldKey, String)>,
    /// Those that the main module has to export.
    pub main: Set<WorldKey>,
}

/// The keys of a world's exports with their texts; none where there is no such world.
fn named_exports(
    alloc: Global,
    resolve: &Resolve,
    world: WorldId,
) -> Result<Vec<(WorldKey, String)>, AllocError>
    ensures keys { IfOk result (λ v. map named_key v.items ≡ export_keys resolve.now world.0) }
    ensures differ { IfOk result (λ v. AreKeysApart (map named_key v.items)) }
{
    if resolve.has_world(world) {
        export_keys(alloc, resolve, world)
    } else {
        Ok(Vec::new(alloc))
    }
}

/// The texts of the main module's keys; none, if they are missing.
fn main_texts(alloc: Global, exports: &Option<Vec<KeyMessage>>) -> Result<Vec<&str>, AllocError>
    ensures { IfOk result (λ v. map text_of v.items ≡ main_texts (exports_view exports.now)) }
{
    match exports {
        Some(keys) => key_texts(alloc, keys),
        None => Ok(Vec::new(alloc)),
    }
}

/// The texts of keys.
fn key_texts(alloc: Global, keys: &[KeyMessage]) -> Result<Vec<&str>, AllocError>
    ensures { IfOk result (λ v. map text_of v.items
        ≡ key_texts (map key_message_view keys.now)) }
{
    let mut texts = Vec::with_capacity(alloc, keys.len())?;
    for key in keys {
        texts.push(key.text.as_str())?;
    }
    Ok(texts)
}

/// The texts of an adapter's keys, each after its name.
fn adapter_texts(alloc: Global, adapter: &AdapterMessage) -> Result<Vec<(&str, &str)>, AllocError>
    ensures { IfOk result (λ v. map text_pair v.items
        ≡ adapter_texts (adapter_message_view adapter.now)) }
{
    let name = adapter.name.as_str();
    let mut texts = Vec::with_capacity(alloc, adapter.exports.len())?;
    for key in &adapter.exports {
        texts.push((name, key.text.as_str()))?;
    }
    Ok(texts)
}

/// The texts of the keys of adapters, each after the name of its adapter.
fn texts_of_adapters(
    alloc: Global,
    adapters: &[AdapterMessage],
) -> Result<Vec<(&str, &str)>, AllocError>
    ensures { IfOk result (λ v. map text_pair v.items
        ≡ flat_map adapter_texts (map adapter_message_view adapters.now)) }
{
    let mut texts = Vec::new(alloc);
    for adapter in adapters {
        let more = adapter_texts(alloc, adapter)?;
        texts.extend_from_slice(&more)?;
    }
    Ok(texts)
}

/// Whether the main module is given a list without keys.
fn gives_none(exports: &Option<Vec<KeyMessage>>) -> bool
    ensures { result ≡ gives_none (exports_view exports.now) }
{
    match exports {
        Some(keys) => keys.is_empty(),
        None => false,
    }
}

/// The fault of a message for one of its keys as a request.
fn key_fault(alloc: Global, fault: RequestFault<'_>) -> Result<MessageFault, AllocError>
    ensures { IfOk result (IsKeyFault fault.entry) }
{
    match fault {
        RequestFault::UnknownKey(key) => {
            let unknown = String::from_str(alloc, key)?;
            Ok(MessageFault::UnknownKey(unknown))
        }
        RequestFault::SeveralKeys(key) => {
            let several = String::from_str(alloc, key)?;
            Ok(MessageFault::SeveralKeys(several))
        }
        RequestFault::RepeatedKey(key) => {
            let repeated = String::from_str(alloc, key)?;
            Ok(MessageFault::RepeatedKey(repeated))
        }
        _ => Ok(MessageFault::Memory),
    }
}

/// Checks the keys of a request against those of a world's exports, `own` by their own texts
/// (`wc_selection::check_keys`).
fn check_asked(
    alloc: Global,
    seed: Seed,
    request: &KeyRequest<'_, '_>,
    own: &[(WorldKey, String)],
    keys: &[(WorldKey, String)],
) -> Result<(), MessageFault>
    ensures there { OnOk result (AreKeysThere (given_keys (request_value request.now))
        (texts_of (map named_key keys.now))) }
    ensures fault { IfErr result (IsAskedCause (request_value request.now) (map named_key own.now)
        (map named_key keys.now)) }
{
    match check_keys(alloc, seed, request, own, keys) {
        Ok(()) => Ok(()),
        Err(fault) => Err(key_fault(alloc, fault)?),
    }
}

/// The keys that the main module has to export: none, if it is given none; else those of the request.
fn main_keys(
    alloc: Global,
    seed: Seed,
    request: &KeyRequest<'_, '_>,
    gives_none: bool,
    keys: &[(WorldKey, String)],
) -> Result<Set<WorldKey>, AllocError>
    requires { AreKeysApart (map named_key keys.now) }
    ensures { IfOk result (λ set. map key_view set.keys
        ≡ main_keys gives_none (request_value request.now) (map named_key keys.now)) }
{
    if gives_none {
        return Ok(Set::with_hasher(alloc, seed));
    }
    required_keys(alloc, seed, request, Exporter::Main, keys)
}

/// The keys that an adapter has to export, of exports that are indexed by the texts by which they are given.
pub(crate) fn adapter_keys(
    alloc: Global,
    index: &KeyIndex<'_>,
    adapter: &AdapterMessage,
) -> Result<Set<WorldKey>, AllocError>
    ensures { IfOk result (λ set. map key_view set.keys
        ≡ adapter_keys index.now (adapter_message_view adapter.now)) }
{
    let texts = key_texts(alloc, &adapter.exports)?;
    index.keys_under(alloc, &texts)
}

/// The keys that a request asks of a world's exports, which gives the main module's keys as the message does.
fn asked_by(
    alloc: Global,
    seed: Seed,
    request: &KeyRequest<'_, '_>,
    world: AskedWorld<'_>,
) -> Result<AskedKeys, MessageFault>
    ensures asked { IfOk result (IsAsked (request_value request.now)
        (gives_none (exports_view world.entry.exports.now)) (indexed_keys
        (request_value request.now) world.entry.resolve.now world.entry.world.0)) }
    ensures fault { IfErr result (IsAskedCauseIn (request_value request.now)
        world.entry.resolve.now world.entry.world.0) }
{
    let own = named_exports(alloc, world.resolve, world.world)?;
    let keys = indexed_keys(alloc, seed, request, &own)?;
    check_asked(alloc, seed, request, &own, &keys)?;
    let main = main_keys(alloc, seed, request, gives_none(world.exports), &keys)?;
    Ok(AskedKeys { keys, main })
}

/// The keys of a world's exports that a message gives, and those of the main module.
pub(crate) fn asked_of(
    alloc: Global,
    seed: Seed,
    world: AskedWorld<'_>,
    adapters: &[AdapterMessage],
) -> Result<AskedKeys, MessageFault>
    ensures asked { IfOk result (IsAskedFor (exports_view world.entry.exports.now)
        (map adapter_message_view adapters.now) world.entry.resolve.now world.entry.world.0) }
    ensures fault { IfErr result (IsAskedCauseFor (exports_view world.entry.exports.now)
        (map adapter_message_view adapters.now) world.entry.resolve.now world.entry.world.0) }
{
    let texts = main_texts(alloc, world.exports)?;
    let adapter_texts = texts_of_adapters(alloc, adapters)?;
    let request = KeyRequest {
        exports: &texts,
        adapter_exports: &adapter_texts,
    };
    asked_by(alloc, seed, &request, world)
}
