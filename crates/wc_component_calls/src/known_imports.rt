//! The check that a key requests an import of a world.

ghost use Rattle.std.specs.Prelude.{◌≡◌, IfErr, IfOk, OnOk, map, string_bytes, true};
ghost use Rattle.std.specs.List.{list_any};
ghost use Rattle.wc_selection.specs.Keys.{named_key, texts_of};
ghost use Rattle.wc_why.specs.Keys.{asks_about};
ghost use Rattle.wc_component_calls.specs.KnownImports.{asks_about_known, import_texts};
ghost use Rattle.wc_component_calls.specs.Private.Keys.{IsUnknown};

use crate::component_fault::ComponentFault;
use std::alloc::{AllocError, Global};
use wc_encoder::ComponentEncoder;
use wc_resolve::WorldKey;
use wc_selection::import_keys;
use wc_why::asks_about;

/// Checks that a key requests imports of the world of an encoder: `all`, `$root`, or an import or its package
/// (`wc_why::asks_about`), by its text.
///
/// # Errors
///
/// - `UnknownImport`: it requests none.
/// - `Memory`: an allocation failed.
pub(crate) fn check_key(
    alloc: Global,
    encoder: &ComponentEncoder,
    key: &str,
) -> Result<(), ComponentFault>
    ensures known { OnOk result (asks_about_known key.now (import_texts encoder.now) ≡ true) }
    ensures fault { IfErr result (IsUnknown key.now (import_texts encoder.now)) }
{
    let imports = import_texts(alloc, encoder)?;
    check_among(alloc, imports, key)
}

/// Checks that a key requests one of these imports.
fn check_among(alloc: Global, imports: Vec<String>, key: &str) -> Result<(), ComponentFault>
    ensures known { OnOk result
        (asks_about_known key.now (map string_bytes imports.items) ≡ true) }
    ensures fault { IfErr result (IsUnknown key.now (map string_bytes imports.items)) }
{
    if asks_about_known(key, &imports) {
        return Ok(());
    }
    let key = String::from_str(alloc, key)?;
    Err(ComponentFault::UnknownImport(key, imports))
}

/// Whether a key requests all imports, the world's own imports, or one of these imports.
fn asks_about_known(key: &str, imports: &[String]) -> bool
    ensures { result ≡ asks_about_known key.now (map string_bytes imports.now) }
{
    key == "all" || key == "$root" || asks_about_any(key, imports)
}

/// Whether a key requests one of these imports.
fn asks_about_any(key: &str, imports: &[String]) -> bool
    ensures { result ≡ list_any (asks_about key.now) (map string_bytes imports.now) }
{
    has_asked(key, imports)
}

/// Whether a key requests the import with one of these texts.
fn has_asked(key: &str, imports: &[String]) -> bool
    ensures { result ≡ list_any (λ text. asks_about key.now (string_bytes text)) imports.now }
{
    imports.iter().any(|text| asks_about(key, text))
}

/// The texts of the imports of an encoder's world, in order.
fn import_texts(alloc: Global, encoder: &ComponentEncoder) -> Result<Vec<String>, AllocError>
    ensures { IfOk result (λ v. map string_bytes v.items ≡ import_texts encoder.now) }
{
    encoder.well_formedness();
    let metadata = encoder.metadata();
    let keys = import_keys(alloc, &metadata.resolve, metadata.world)?;
    texts_of(alloc, &keys)
}

/// The texts of keys.
fn texts_of(alloc: Global, keys: &[(WorldKey, String)]) -> Result<Vec<String>, AllocError>
    ensures { IfOk result (λ v. map string_bytes v.items ≡ texts_of (map named_key keys.now)) }
{
    let mut texts = Vec::new(alloc);
    for key in keys {
        texts.push(key.1.clone()?)?;
    }
    Ok(texts)
}
