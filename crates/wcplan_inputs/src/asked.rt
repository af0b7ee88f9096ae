//! The check that a command requests an import of its world.

ghost use Rattle.std.specs.Prelude.{◌≡◌, ◌<◌, IfErr, IfOk, OnOk, find, length, map, string_bytes};
ghost use Rattle.std.specs.List.{list_any};
ghost use Rattle.std.specs.Option.{option_map};
ghost use Rattle.wc_selection.specs.Keys.{named_key, texts_of};
ghost use Rattle.wc_maps.specs.Texts.{text_of};
ghost use Rattle.wc_why.specs.Keys.{asks_about};
ghost use Rattle.wcplan_inputs.specs.Asked.{IsAskedCause, IsAskedThere, IsNoImport, IsNoImportFault, is_asked_there, nearest_import, nearest_package, package_alike};
ghost use Rattle.wcplan_inputs.specs.Nearest.{is_near};

use crate::fault::ProgramFault;
use crate::listing::listing;
use crate::nearest::{is_alike, is_near};
use std::alloc::{AllocError, Global};
use wc_resolve::{Resolve, WorldId, WorldKey};
use wc_selection::import_keys;
use wc_why::{asks_about, package_of, package_text};

/// Checks that the key of a request, if present, is for an import of a world. The key is `all`, `$root`, the text of
/// an import's key, or the package of an interface; text and package may omit the version (`wc_why::asks_about`). The
/// world must be in range (`Resolve::has_world`).
///
/// # Errors
///
/// - `NoImport`: the key is for no import.
/// - `Memory`: an allocation failed.
pub(crate) fn check_asked<'a>(
    alloc: Global,
    asked: Option<&'a str>,
    resolve: &Resolve,
    world: WorldId,
) -> Result<(), ProgramFault<'a>>
    requires { world.0 < length resolve.now.worlds }
    ensures there { OnOk result (IsAskedThere (option_map text_of asked.entry) resolve.now
        world.0) }
    ensures fault { IfErr result (IsAskedCause (option_map text_of asked.entry) resolve.now
        world.0) }
{
    let Some(key) = asked else {
        return Ok(());
    };
    let keys = import_keys(alloc, resolve, world)?;
    if is_asked_there(key, &keys) {
        return Ok(());
    }
    Err(no_import(alloc, key, &keys))
}

/// Whether a key requests all imports, the world's own imports, or one of these imports.
fn is_asked_there(key: &str, keys: &[(WorldKey, String)]) -> bool
    ensures { result ≡ is_asked_there key.now (map named_key keys.now) }
{
    key == "all" || key == "$root" || asks_about_any(key, keys)
}

/// Whether a key requests one of these imports.
fn asks_about_any(key: &str, keys: &[(WorldKey, String)]) -> bool
    ensures { result ≡ list_any (asks_about key.now) (texts_of (map named_key keys.now)) }
{
    has_asked(key, keys)
}

/// Whether a key requests the import with one of these texts.
fn has_asked(key: &str, keys: &[(WorldKey, String)]) -> bool
    ensures { result ≡ list_any (λ k. asks_about key.now (string_bytes k.1)) keys.now }
{
    keys.iter().any(|one| asks_about(key, &one.1))
}

/// The fault of a key that requests no import, with the list of imports.
fn no_import<'a>(alloc: Global, key: &'a str, keys: &[(WorldKey, String)]) -> ProgramFault<'a>
    ensures { IsNoImportFault (map named_key keys.now) key.entry result }
{
    match no_import_texts(alloc, key, keys) {
        Ok((listing, nearest)) => ProgramFault::NoImport(key, listing, nearest),
        Err(AllocError) => ProgramFault::Memory,
    }
}

/// Lists imports, and finds the first that is near a key, or otherwise the first whose package is near it.
fn no_import_texts(
    alloc: Global,
    key: &str,
    keys: &[(WorldKey, String)],
) -> Result<(String, Option<String>), AllocError>
    ensures { IfOk result (λ t. IsNoImport (texts_of (map named_key keys.now)) key.now t.0 t.1) }
{
    let listing = listing(alloc, keys)?;
    let nearest = near_import(alloc, key, keys)?;
    Ok((listing, nearest))
}

/// The first import that is near a key, or otherwise the first package that is near it.
fn near_import(
    alloc: Global,
    key: &str,
    keys: &[(WorldKey, String)],
) -> Result<Option<String>, AllocError>
    ensures { IfOk result (λ r. option_map string_bytes r
        ≡ nearest_import key.now (texts_of (map named_key keys.now))) }
{
    match near_key(key, keys) {
        Some(one) => Ok(Some(one.1.clone()?)),
        None => near_package(alloc, key, keys),
    }
}

/// The first import that is near a key, with its text.
fn near_key<'k>(key: &str, keys: &'k [(WorldKey, String)]) -> Option<&'k (WorldKey, String)>
    ensures { option_map (λ k. k.now) result
        ≡ find (λ k. is_near key.now (string_bytes k.1)) keys.now }
{
    keys.iter().find(|one| is_near(key, &one.1))
}

/// The first package of an interface that differs from a key only in its version and in the case of letters, with its
/// version.
fn near_package(
    alloc: Global,
    key: &str,
    keys: &[(WorldKey, String)],
) -> Result<Option<String>, AllocError>
    ensures { IfOk result (λ r. option_map string_bytes r
        ≡ nearest_package key.now (texts_of (map named_key keys.now))) }
{
    match alike_key(key, keys) {
        Some(one) => package_text(alloc, &one.1),
        None => Ok(None),
    }
}

/// The first import whose package differs from a key only in its version and in the case of letters, with its text.
fn alike_key<'k>(key: &str, keys: &'k [(WorldKey, String)]) -> Option<&'k (WorldKey, String)>
    ensures { option_map (λ k. k.now) result
        ≡ find (λ k. package_alike key.now (string_bytes k.1)) keys.now }
{
    keys.iter().find(|one| package_alike(key, &one.1))
}

/// Whether the package of an interface differs from a key only in its version and in the case of letters.
fn package_alike(key: &str, text: &str) -> bool
    ensures { result ≡ package_alike key.now text.now }
{
    match package_of(text) {
        Some(package) => is_alike(key, package),
        None => false,
    }
}
