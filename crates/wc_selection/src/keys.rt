//! The keys of a world's imports and exports, with their texts.

ghost use Rattle.std.specs.Prelude.{◌≡◌, ◌<◌, All, IfOk, length, map, string_bytes};
ghost use Rattle.std.specs.List.{list_any};
ghost use Rattle.std.specs.Str.{bytes_eq};
ghost use Rattle.std.specs.Option.{IsSome};
ghost use Rattle.semver.specs.Identifiers.{parts_text};
ghost use Rattle.wc_resolve.specs.Resolve.{key_text};
ghost use Rattle.wc_resolve.specs.Ranges.{IsKeyIn};
ghost use Rattle.wc_resolve.specs.Views.{world_entry};
ghost use Rattle.wc_selection.specs.Keys.{AreKeysApart, export_keys, import_keys, named_key, named_keys, texts_of};
ghost use Rattle.wc_maps.specs.Texts.{HasTexts, is_in, text_of};

use std::alloc::{AllocError, Global};
use wc_maps::{Map, Seed, Set};
use wc_resolve::{Resolve, WorldId, WorldItem, WorldKey};

/// The keys of a world's exports, in order, each with its text (`Resolve::name_world_key`).
///
/// The world must be in range (`Resolve::has_world`).
///
/// # Errors
///
/// `AllocError`: an allocation failed.
pub fn export_keys(
    alloc: Global,
    resolve: &Resolve,
    world: WorldId,
) -> Result<Vec<(WorldKey, String)>, AllocError>
    requires { world.0 < length resolve.now.worlds }
    ensures keys { IfOk result (λ v. map named_key v.items ≡ export_keys resolve.now world.0) }
    ensures differ { IfOk result (λ v. AreKeysApart (map named_key v.items)) }
{
    resolve.well_formedness();
    named_keys(alloc, resolve, &resolve.world(world).exports)
}

/// The keys of a world's imports, in order, each with its text (`Resolve::name_world_key`).
///
/// The world must be in range (`Resolve::has_world`).
///
/// # Errors
///
/// `AllocError`: an allocation failed.
pub fn import_keys(
    alloc: Global,
    resolve: &Resolve,
    world: WorldId,
) -> Result<Vec<(WorldKey, String)>, AllocError>
    requires { world.0 < length resolve.now.worlds }
    ensures keys { IfOk result (λ v. map named_key v.items ≡ import_keys resolve.now world.0) }
    ensures differ { IfOk result (λ v. AreKeysApart (map named_key v.items)) }
{
    resolve.well_formedness();
    named_keys(alloc, resolve, &resolve.world(world).imports)
}

/// The keys of some imports or exports, in order, each with its text.
fn named_keys(
    alloc: Global,
    resolve: &Resolve,
    exports: &Map<WorldKey, WorldItem>,
) -> Result<Vec<(WorldKey, String)>, AllocError>
    requires there { All (λ x. IsKeyIn resolve.now x.0) (map world_entry exports.now.entries) }
    requires named { All (λ x. IsSome (key_text parts_text resolve.now x.0))
        (map world_entry exports.now.entries) }
    ensures keys { IfOk result (λ v. map named_key v.items
        ≡ named_keys resolve.now (map world_entry exports.now.entries)) }
    ensures differ { IfOk result (λ v. AreKeysApart (map named_key v.items)) }
{
    let mut keys = Vec::with_capacity(alloc, exports.len())?;
    for (key, _item) in exports.iter() {
        let text = resolve.name_world_key(alloc, key)?;
        keys.push((key.clone(alloc)?, text))?;
    }
    Ok(keys)
}

/// Whether a text is that of one of these keys.
pub(crate) fn is_export(keys: &[(WorldKey, String)], text: &str) -> bool
    ensures { result ≡ is_in (texts_of (map named_key keys.now)) text.now }
{
    has_key_text(keys, text)
}

/// Whether one of these has this text.
fn has_key_text(keys: &[(WorldKey, String)], text: &str) -> bool
    ensures { result ≡ list_any (λ k. bytes_eq (string_bytes k.1) text.now) keys.now }
{
    keys.iter().any(|key| key.1.as_str() == text)
}

/// The texts of keys as a set. `seed`: its seed.
pub(crate) fn key_text_set<'k>(
    alloc: Global,
    seed: Seed,
    keys: &'k [(WorldKey, String)],
) -> Result<Set<&'k str>, AllocError>
    ensures { IfOk result (λ s. HasTexts (texts_of (map named_key keys.now))
        (map text_of s.keys)) }
{
    let mut set: Set<&str> = Set::with_hasher(alloc, seed);
    for key in keys {
        set.insert(key.1.as_str())?;
    }
    Ok(set)
}
