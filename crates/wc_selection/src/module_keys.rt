//! The keys that modules must export.

ghost use Rattle.std.specs.Prelude.{◌≡◌, All, Contains, IfErr, IfNone, IfOk, IfSome, None, OnOk, map};
ghost use Rattle.std.specs.Str.{bytes_eq};
ghost use Rattle.wc_resolve.specs.Views.{key_view};
ghost use Rattle.wc_selection.specs.Keys.{AreKeysApart, named_key, texts_of};
ghost use Rattle.wc_selection.specs.KeyTexts.{IsUnknownKey};
ghost use Rattle.wc_selection.specs.Requests.{exporter_name, given_keys, request_value};
ghost use Rattle.wc_selection.specs.ModuleKeys.{AreKeysThere, IsKeysCause, required_keys};
ghost use Rattle.wc_selection.specs.RequiredTexts.{exporter_texts, gives_keys, is_required_in, required_in, texts_under};
ghost use Rattle.wc_maps.specs.Texts.{IsFirstMissing, second_parts, text_of, text_pair};

use crate::fault::RequestFault;
use crate::key_names::count_unversioned;
use crate::keys::{is_export, key_text_set};
use crate::requests::{Exporter, KeyRequest, given_keys};
use std::alloc::{AllocError, Global};
use wc_maps::{Seed, Set, first_outside, first_repeated, is_in_set, text_set};
use wc_resolve::WorldKey;

/// Checks the keys of a request against a world's exports: `keys`, each with the text that the request uses for it.
/// `own`: the same exports with their own texts, or `keys` again if the request names none by its index. The sets
/// that are made hash under `seed`.
///
/// # Errors
///
/// If several causes apply, the first in this order is named, and its first occurrence in the order of the keys;
/// `Memory` may come instead of any. Keys of the main module come before keys of adapters.
///
/// - A text matches none of `keys`. `RepeatedKey`: it matches one of `own` that the request also names by its index,
///   or, without versions, exactly one of `own` that the request also names with its version. `SeveralKeys`: without
///   versions, it matches several of `own`. `UnknownKey`: it matches none.
/// - `RepeatedKey`: a key is repeated, for one module or for two.
/// - `Memory`: an allocation failed.
pub fn check_keys<'a>(
    alloc: Global,
    seed: Seed,
    request: &KeyRequest<'_, 'a>,
    own: &[(WorldKey, String)],
    keys: &[(WorldKey, String)],
) -> Result<(), RequestFault<'a>>
    ensures there { OnOk result (AreKeysThere (given_keys (request_value request.now))
        (texts_of (map named_key keys.now))) }
    ensures fault { IfErr result (IsKeysCause (given_keys (request_value request.now))
        (map named_key own.now) (map named_key keys.now)) }
{
    let given = given_keys(alloc, request)?;
    if let Some(unknown) = first_unknown(alloc, seed, &given, keys)? {
        return Err(unknown_key(own, unknown));
    }
    match first_repeated(alloc, seed, &given)? {
        Some(key) => Err(RequestFault::RepeatedKey(key)),
        None => Ok(()),
    }
}

/// The fault of a text that matches none of these keys. It matches a key that the request also names in another way,
/// by itself or, without versions, as its only match; or several without versions; or none.
fn unknown_key<'a>(own: &[(WorldKey, String)], text: &'a str) -> RequestFault<'a>
    ensures { IsUnknownKey (map named_key own.now) text.now result }
{
    if is_export(own, text) {
        return RequestFault::RepeatedKey(text);
    }
    match count_unversioned(own, text) {
        0 => RequestFault::UnknownKey(text),
        1 => RequestFault::RepeatedKey(text),
        _ => RequestFault::SeveralKeys(text),
    }
}

/// The first text that is the text of none of these keys. The set of their texts hashes under `seed`.
fn first_unknown<'a>(
    alloc: Global,
    seed: Seed,
    texts: &[&'a str],
    keys: &[(WorldKey, String)],
) -> Result<Option<&'a str>, AllocError>
    ensures unknown { IfOk result (λ r. IfSome r (λ text. IsFirstMissing (map text_of texts.now)
        (texts_of (map named_key keys.now)) text.now)) }
    ensures none { IfOk result (λ r. IfNone r (All (Contains (texts_of (map named_key keys.now)))
        (map text_of texts.now))) }
{
    let set = key_text_set(alloc, seed, keys)?;
    Ok(first_outside(texts, &set))
}

/// The keys that a module must export, in the order of the world's exports. For an adapter these are the keys that
/// the request lists for it. So they are for the main module; if the request lists none for it, they are all keys
/// that no adapter must export. The sets that are made hash under `seed`.
///
/// # Errors
///
/// `AllocError`: an allocation failed.
pub fn required_keys(
    alloc: Global,
    seed: Seed,
    request: &KeyRequest<'_, '_>,
    exporter: Exporter<'_>,
    keys: &[(WorldKey, String)],
) -> Result<Set<WorldKey>, AllocError>
    requires { AreKeysApart (map named_key keys.now) }
    ensures { IfOk result (λ set. map key_view set.keys
        ≡ required_keys (request_value request.now) (exporter_name exporter.entry)
        (map named_key keys.now)) }
{
    let texts = exporter_texts(alloc, request, exporter)?;
    let set = text_set(alloc, seed, &texts)?;
    required_in(alloc, seed, &set, gives_keys(request, exporter), keys)
}

/// The texts that decide which keys a module must export: for an adapter, its own texts. For the main module they are
/// its own texts; or, if the request lists none for it, the texts of all adapters, whose keys it doesn't export.
fn exporter_texts<'a>(
    alloc: Global,
    request: &KeyRequest<'_, 'a>,
    exporter: Exporter<'_>,
) -> Result<Vec<&'a str>, AllocError>
    ensures { IfOk result (λ v. map text_of v.items
        ≡ exporter_texts (request_value request.now) (exporter_name exporter.entry)) }
{
    match exporter {
        Exporter::Adapter(name) => texts_under(alloc, request.adapter_exports, name),
        Exporter::Main => main_texts(alloc, request),
    }
}

/// The texts of the main module; of all adapters, if it has none.
fn main_texts<'a>(alloc: Global, request: &KeyRequest<'_, 'a>) -> Result<Vec<&'a str>, AllocError>
    ensures { IfOk result (λ v. map text_of v.items
        ≡ exporter_texts (request_value request.now) None) }
{
    if request.exports.is_empty() {
        second_texts(alloc, request.adapter_exports)
    } else {
        Vec::from_slice(alloc, request.exports)
    }
}

/// The second text of each pair.
fn second_texts<'a>(alloc: Global, pairs: &[(&'a str, &'a str)]) -> Result<Vec<&'a str>, AllocError>
    ensures { IfOk result (λ v. map text_of v.items ≡ second_parts (map text_pair pairs.now)) }
{
    let mut texts = Vec::with_capacity(alloc, pairs.len())?;
    for pair in pairs {
        texts.push(pair.1)?;
    }
    Ok(texts)
}

/// The second text of each pair that has this first one.
fn texts_under<'a>(
    alloc: Global,
    pairs: &[(&'a str, &'a str)],
    first: &str,
) -> Result<Vec<&'a str>, AllocError>
    ensures { IfOk result (λ v. map text_of v.items
        ≡ texts_under first.now (map text_pair pairs.now)) }
{
    let mut texts = Vec::new(alloc);
    for pair in pairs {
        if is_under(pair, first) {
            texts.push(pair.1)?;
        }
    }
    Ok(texts)
}

/// Whether this is the first text of a pair.
fn is_under(pair: &(&str, &str), first: &str) -> bool
    ensures { result ≡ bytes_eq pair.now.0.now first.now }
{
    pair.0 == first
}

/// Whether a module must export the keys with these texts, rather than the keys without them.
fn gives_keys(request: &KeyRequest<'_, '_>, exporter: Exporter<'_>) -> bool
    ensures { result ≡ gives_keys (request_value request.now) (exporter_name exporter.entry) }
{
    match exporter {
        Exporter::Adapter(_) => true,
        Exporter::Main => !request.exports.is_empty(),
    }
}

/// The keys whose texts are in a set; or, if `gives` is false, the keys whose texts are not. Their set hashes under
/// `seed`.
fn required_in(
    alloc: Global,
    seed: Seed,
    texts: &Set<&str>,
    gives: bool,
    keys: &[(WorldKey, String)],
) -> Result<Set<WorldKey>, AllocError>
    requires { AreKeysApart (map named_key keys.now) }
    ensures { IfOk result (λ set. map key_view set.keys
        ≡ required_in (map text_of texts.now.keys) gives (map named_key keys.now)) }
{
    let mut required = Set::with_hasher(alloc, seed);
    for (key, text) in keys {
        if is_required(texts, gives, text) {
            required.insert(key.clone(alloc)?)?;
        }
    }
    Ok(required)
}

/// Whether a text is in a set; or, if `gives` is false, whether it is not.
fn is_required(texts: &Set<&str>, gives: bool, text: &str) -> bool
    ensures { result ≡ is_required_in (map text_of texts.now.keys) gives text.now }
{
    if gives {
        is_in_set(texts, text)
    } else {
        !is_in_set(texts, text)
    }
}
