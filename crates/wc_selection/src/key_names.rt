//! The texts by which a request gives the keys of a world's exports.

ghost use Rattle.std.specs.Prelude.{◌≡◌, ◌<◌, ◌&&◌, IfOk, filter, length, map, not, string_bytes};
ghost use Rattle.std.specs.Str.{bytes_eq};
ghost use Rattle.wc_selection.specs.KeyNames.{count_unversioned, index_or_text, index_text, indexed_exports, keys_as_given, keys_by_index, request_keys, text_or_index, unversioned, unversioned_text};
ghost use Rattle.wc_selection.specs.Keys.{AreKeysApart, named_key};
ghost use Rattle.wc_selection.specs.KeyTexts.{HasSingles, is_single, keys_found, text_found};
ghost use Rattle.wc_selection.specs.Requests.{request_value};
ghost use Rattle.wc_maps.specs.Texts.{is_in, text_of};

use crate::keys::{export_keys, key_text_set};
use crate::requests::{KeyRequest, given_keys};
use std::alloc::{AllocError, Global};
use wc_maps::{Map, Seed, Set, is_in_set, text_set};
use wc_resolve::{Resolve, WorldId, WorldKey};

/// The keys of a world's exports, in order, each with the text that the request uses for it. For an interface this is
/// the text without a version, if the request has that text and not the whole one, and no other key has it. Otherwise
/// it is the key's own text (`Resolve::name_world_key`). The maps that are made hash under `seed`.
///
/// The world must be in range (`Resolve::has_world`).
///
/// # Errors
///
/// `AllocError`: an allocation failed.
pub fn request_keys(
    alloc: Global,
    seed: Seed,
    request: &KeyRequest<'_, '_>,
    resolve: &Resolve,
    world: WorldId,
) -> Result<Vec<(WorldKey, String)>, AllocError>
    requires { world.0 < length resolve.now.worlds }
    ensures keys { IfOk result (λ v. map named_key v.items
        ≡ request_keys (request_value request.now) resolve.now world.0) }
    ensures differ { IfOk result (λ v. AreKeysApart (map named_key v.items)) }
{
    let keys = export_keys(alloc, resolve, world)?;
    let given = given_keys(alloc, request)?;
    keys_as_given(alloc, seed, &given, &keys)
}

/// The keys of a world's exports with the texts of [`request_keys`], except for interfaces that the request names by
/// their index. Such a key has the text `interface-3`, as a document has the key of the interface 3 under its own id.
/// So the same text does not name another export. `own`: the keys with their own texts, as [`export_keys`] gives
/// them. The maps that are made hash under `seed`.
///
/// No key may occur twice, as in the result of `export_keys`.
///
/// # Errors
///
/// `AllocError`: an allocation failed.
pub fn indexed_keys(
    alloc: Global,
    seed: Seed,
    request: &KeyRequest<'_, '_>,
    own: &[(WorldKey, String)],
) -> Result<Vec<(WorldKey, String)>, AllocError>
    requires { AreKeysApart (map named_key own.now) }
    ensures keys { IfOk result (λ v. map named_key v.items
        ≡ indexed_exports (request_value request.now) (map named_key own.now)) }
    ensures differ { IfOk result (λ v. AreKeysApart (map named_key v.items)) }
{
    let given = given_keys(alloc, request)?;
    let keys = keys_as_given(alloc, seed, &given, own)?;
    keys_by_index(alloc, seed, &given, &keys)
}

/// Keys, in order, each with the one of these texts that is its index, or with its own.
fn keys_by_index(
    alloc: Global,
    seed: Seed,
    given: &[&str],
    keys: &[(WorldKey, String)],
) -> Result<Vec<(WorldKey, String)>, AllocError>
    requires { AreKeysApart (map named_key keys.now) }
    ensures keys { IfOk result (λ v. map named_key v.items
        ≡ keys_by_index (map text_of given.now) (map named_key keys.now)) }
    ensures differ { IfOk result (λ v. AreKeysApart (map named_key v.items)) }
{
    let set = text_set(alloc, seed, given)?;
    indexed_in(alloc, &set, keys)
}

/// Keys, in order, each with the text in this set that is its index, or with its own.
fn indexed_in(
    alloc: Global,
    given: &Set<&str>,
    keys: &[(WorldKey, String)],
) -> Result<Vec<(WorldKey, String)>, AllocError>
    requires { AreKeysApart (map named_key keys.now) }
    ensures keys { IfOk result (λ v. map named_key v.items
        ≡ keys_by_index (map text_of given.now.keys) (map named_key keys.now)) }
    ensures differ { IfOk result (λ v. AreKeysApart (map named_key v.items)) }
{
    let mut named = Vec::with_capacity(alloc, keys.len())?;
    for key in keys {
        let text = text_or_index(alloc, given, key)?;
        named.push((key.0.clone(alloc)?, text))?;
    }
    Ok(named)
}

/// The text of a key, or the one of an interface's index, if that is in the set.
fn text_or_index(
    alloc: Global,
    given: &Set<&str>,
    key: &(WorldKey, String),
) -> Result<String, AllocError>
    ensures { IfOk result (λ s. string_bytes s
        ≡ text_or_index (map text_of given.now.keys) (named_key key.now)) }
{
    match &key.0 {
        WorldKey::Interface(id) => index_or_text(alloc, given, id.0, key.1.as_str()),
        WorldKey::Name(_) => String::from_str(alloc, key.1.as_str()),
    }
}

/// The text of an index, if it is in the set; otherwise this text.
fn index_or_text(
    alloc: Global,
    given: &Set<&str>,
    index: u32,
    text: &str,
) -> Result<String, AllocError>
    ensures { IfOk result (λ s. string_bytes s
        ≡ index_or_text (map text_of given.now.keys) index text.now) }
{
    let indexed = index_text(alloc, index)?;
    if is_in_set(given, &indexed) {
        return Ok(indexed);
    }
    String::from_str(alloc, text)
}

/// The text of an index, as `interface-3`.
fn index_text(alloc: Global, index: u32) -> Result<String, AllocError>
    ensures { IfOk result (λ s. string_bytes s ≡ index_text index) }
{
    format!(in alloc; "interface-{index}")
}

/// Keys, in order, each with the one of these texts that names it, or with its own.
fn keys_as_given(
    alloc: Global,
    seed: Seed,
    given: &[&str],
    keys: &[(WorldKey, String)],
) -> Result<Vec<(WorldKey, String)>, AllocError>
    requires { AreKeysApart (map named_key keys.now) }
    ensures keys { IfOk result (λ v. map named_key v.items
        ≡ keys_as_given (map text_of given.now) (map named_key keys.now)) }
    ensures differ { IfOk result (λ v. AreKeysApart (map named_key v.items)) }
{
    let set = text_set(alloc, seed, given)?;
    let own = key_text_set(alloc, seed, keys)?;
    let short = short_texts(alloc, seed, keys)?;
    keys_found(alloc, &set, &own, &short, keys)
}

/// The texts of keys without their versions, each with whether exactly one key has it. The map hashes under `seed`.
fn short_texts<'k>(
    alloc: Global,
    seed: Seed,
    keys: &'k [(WorldKey, String)],
) -> Result<Map<&'k str, bool>, AllocError>
    ensures { IfOk result (λ m. HasSingles (map named_key keys.now) m.entries) }
{
    let mut short: Map<&str, bool> = Map::with_hasher(alloc, seed);
    for key in keys {
        let text = unversioned(key);
        let is_first = !short.contains_key(text);
        short.insert(text, is_first)?;
    }
    Ok(short)
}

/// Keys, in order, each with the text that names it, by the request's texts, the keys' own texts, and these without
/// their versions.
fn keys_found(
    alloc: Global,
    given: &Set<&str>,
    own: &Set<&str>,
    short: &Map<&str, bool>,
    keys: &[(WorldKey, String)],
) -> Result<Vec<(WorldKey, String)>, AllocError>
    requires { AreKeysApart (map named_key keys.now) }
    ensures keys { IfOk result (λ v. map named_key v.items
        ≡ keys_found (map text_of given.now.keys) (map text_of own.now.keys) short.now.entries
        (map named_key keys.now)) }
    ensures differ { IfOk result (λ v. AreKeysApart (map named_key v.items)) }
{
    let mut named = Vec::with_capacity(alloc, keys.len())?;
    for key in keys {
        let text = String::from_str(alloc, text_found(given, own, short, key))?;
        named.push((key.0.clone(alloc)?, text))?;
    }
    Ok(named)
}

/// The text that names a key, by the request's texts, the keys' own texts, and these without their versions.
fn text_found<'k>(
    given: &Set<&str>,
    own: &Set<&str>,
    short: &Map<&str, bool>,
    key: &'k (WorldKey, String),
) -> &'k str
    ensures { result.now ≡ text_found (map text_of given.now.keys) (map text_of own.now.keys)
        short.now.entries (named_key key.now) }
{
    let whole = key.1.as_str();
    let text = unversioned(key);
    if is_given_as(given, text, whole) && is_only(own, short, text) {
        text
    } else {
        whole
    }
}

/// Whether the request has the first of two texts, and not the second.
fn is_given_as(given: &Set<&str>, short: &str, whole: &str) -> bool
    ensures { result ≡ (is_in (map text_of given.now.keys) short.now
        && not (is_in (map text_of given.now.keys) whole.now)) }
{
    is_in_set(given, short) && !is_in_set(given, whole)
}

/// Whether a text is that of one key without its version, and of no key with it.
fn is_only(own: &Set<&str>, short: &Map<&str, bool>, text: &str) -> bool
    ensures { result ≡ (is_single short.now.entries text.now
        && not (is_in (map text_of own.now.keys) text.now)) }
{
    is_single(short, text) && !is_in_set(own, text)
}

/// Whether a text is that of one key alone without its version.
fn is_single(short: &Map<&str, bool>, text: &str) -> bool
    ensures { result ≡ is_single short.now.entries text.now }
{
    short.get(text).copied().unwrap_or(false)
}

/// How many keys have this text without their versions.
pub(crate) fn count_unversioned(keys: &[(WorldKey, String)], text: &str) -> usize
    ensures { result ≡ count_unversioned (map named_key keys.now) text.now }
{
    count_having(keys, text)
}

/// How many of these have this text without their versions.
fn count_having(keys: &[(WorldKey, String)], text: &str) -> usize
    ensures { result
        ≡ length (filter (λ k. bytes_eq (unversioned (named_key k)) text.now) keys.now) }
{
    keys.iter().filter(|key| unversioned(key) == text).count()
}

/// The text of a key without its version: for an interface's key, the part before its first `@`.
fn unversioned(key: &(WorldKey, String)) -> &str
    ensures { result.now ≡ unversioned (named_key key.now) }
{
    match &key.0 {
        WorldKey::Interface(_) => unversioned_text(key.1.as_str()),
        WorldKey::Name(_) => key.1.as_str(),
    }
}

/// The part of a text before its first `@`; without a `@` the whole text.
fn unversioned_text(text: &str) -> &str
    ensures { result.now ≡ unversioned_text text.now }
{
    match text.split_once('@') {
        Some((before, _version)) => before,
        None => text,
    }
}
