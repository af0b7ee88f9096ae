//! The keys of a world's exports, and the worlds of a document, as a text.

ghost use Rattle.std.specs.Prelude.{◌≡◌, ◌≤◌, IfOk, length, map, string_bytes};
ghost use Rattle.wc_json.specs.Document.{document_view};
ghost use Rattle.wc_selection.specs.Keys.{named_key, texts_of};
ghost use Rattle.wc_maps.specs.Texts.{text_of};
ghost use Rattle.wc_options.specs.Listing.{listing_text};
ghost use Rattle.wcplan_inputs.specs.Listing.{listed_worlds, world_listing};

use std::alloc::{AllocError, Global};
use wc_json::Document;
use wc_options::{MOST_LISTED, more_text, name_listing, push_name};
use wc_resolve::WorldKey;
use wc_selection::world_name;

/// The first eight keys, each in quotes after a blank, and how many more follow; ` none` without keys.
///
/// # Errors
///
/// `AllocError`: an allocation failed.
pub(crate) fn listing(alloc: Global, keys: &[(WorldKey, String)]) -> Result<String, AllocError>
    ensures { IfOk result (λ text. string_bytes text
        ≡ listing_text (texts_of (map named_key keys.now))) }
{
    let names = key_names(alloc, keys)?;
    name_listing(alloc, &names)
}

/// The texts of keys.
fn key_names(alloc: Global, keys: &[(WorldKey, String)]) -> Result<Vec<&str>, AllocError>
    ensures { IfOk result (λ v. map text_of v.items ≡ texts_of (map named_key keys.now)) }
{
    let mut names = Vec::new(alloc);
    for key in keys {
        names.push(key.1.as_str())?;
    }
    Ok(names)
}

/// The full names of the first eight worlds, each in quotes after a blank, and how many more follow; ` none` without
/// worlds.
///
/// # Errors
///
/// `AllocError`: an allocation failed.
pub(crate) fn world_listing(alloc: Global, document: &Document) -> Result<String, AllocError>
    ensures { IfOk result (λ text. string_bytes text
        ≡ world_listing (document_view document.now)) }
{
    let count = document.parts.worlds.len();
    if count == 0 {
        return String::from_str(alloc, " none");
    }
    if count <= MOST_LISTED {
        return listed_worlds(alloc, document, count);
    }
    let text = listed_worlds(alloc, document, MOST_LISTED)?;
    let more = more_text(alloc, count - MOST_LISTED)?;
    format!(in alloc; "{text}{more}")
}

/// The first worlds, up to a number, each in quotes after a blank.
fn listed_worlds(alloc: Global, document: &Document, count: usize) -> Result<String, AllocError>
    requires { count ≤ length (document_view document.now).parts.worlds }
    ensures { IfOk result (λ text. string_bytes text
        ≡ listed_worlds (document_view document.now) count) }
{
    let mut text = String::new(alloc);
    for index in 0..count {
        let name = world_name(alloc, document, index)?;
        push_name(alloc, &mut text, &name)?;
    }
    Ok(text)
}
