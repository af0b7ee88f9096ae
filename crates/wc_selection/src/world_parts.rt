//! The world of which all others are parts.

ghost use Rattle.std.specs.Prelude.{◌≡◌, ◌<◌, ◌↔◌, IfNone, IfSome, IsTrue, ℕ, length, map};
ghost use Rattle.wc_adapters.specs.Entries.{entries_of};
ghost use Rattle.wc_json.specs.Document.{document_view};
ghost use Rattle.wc_resolve.specs.Views.{key_view, world_view};
ghost use Rattle.wc_selection.specs.WorldParts.{AreKeysIn, HasAllParts, IsKeyOf, IsOtherPart, IsPart, IsProperPart, IsWholeWorld};

use wc_json::Document;
use wc_maps::Map;
use wc_resolve::{World, WorldId, WorldItem, WorldKey};

/// The world of a document that includes all its other worlds: by their keys, it imports what each of them imports,
/// and exports what each exports, and none of them includes it in turn. If the document has one world, it is this
/// one. `None` if no world is such.
///
/// It allocates nothing, and takes time linear in the worlds' keys.
pub fn whole_world(document: &Document) -> Option<WorldId>
    ensures whole { IfSome result (λ id. IsWholeWorld (document_view document.now) id.0) }
    ensures none { IfNone result ((index : ℕ)
        → ¬ IsWholeWorld (document_view document.now) index) }
{
    match index_of_whole(&document.parts.worlds) {
        Some(index) => match u32::try_from(index) {
            Ok(index) => Some(WorldId(index)),
            Err(_) => None,
        },
        None => None,
    }
}

/// The index of the world that has all others for proper parts.
fn index_of_whole(worlds: &[World]) -> Option<usize>
    ensures whole { IfSome result (HasAllParts (map world_view worlds.now)) }
    ensures only { IfSome result (λ found. (index : ℕ)
        → HasAllParts (map world_view worlds.now) index → found ≡ index) }
    ensures none { IfNone result ((index : ℕ) → ¬ HasAllParts (map world_view worlds.now) index) }
{
    if worlds.is_empty() {
        return None;
    }
    let index = likely_whole(worlds);
    if are_others_parts(worlds, index) {
        Some(index)
    } else {
        None
    }
}

/// The index of the world that properly includes all others, if one does; otherwise the index of any world.
fn likely_whole(worlds: &[World]) -> usize
    requires { 0 < length worlds.now }
    ensures there { result < length worlds.now }
    ensures found { (index : ℕ) → HasAllParts (map world_view worlds.now) index → result ≡ index }
{
    let mut whole = 0;
    for index in 0..worlds.len() {
        if is_part(&worlds[whole], &worlds[index]) {
            whole = index;
        }
    }
    whole
}

/// Whether all worlds but the one at an index are proper parts of this one.
fn are_others_parts(worlds: &[World], whole: usize) -> bool
    requires { whole < length worlds.now }
    ensures { IsTrue result ↔ HasAllParts (map world_view worlds.now) whole }
{
    for index in 0..worlds.len() {
        if !is_other_part(worlds, index, whole) {
            return false;
        }
    }
    true
}

/// Whether the world at an index is a proper part of the one at another index.
fn is_other_part(worlds: &[World], index: usize, whole: usize) -> bool
    requires there { index < length worlds.now }
    requires whole_there { whole < length worlds.now }
    ensures { IsTrue result ↔ IsOtherPart (map world_view worlds.now) index whole }
{
    if index == whole {
        return true;
    }
    is_proper_part(&worlds[index], &worlds[whole])
}

/// Whether a world is a part of another one, which is no part of it.
fn is_proper_part(part: &World, whole: &World) -> bool
    ensures { IsTrue result ↔ IsProperPart (world_view part.now) (world_view whole.now) }
{
    is_part(part, whole) && !is_part(whole, part)
}

/// Whether a world is a part of another one.
fn is_part(part: &World, whole: &World) -> bool
    ensures { IsTrue result ↔ IsPart (world_view part.now) (world_view whole.now) }
{
    are_keys_in(&part.imports, &whole.imports) && are_keys_in(&part.exports, &whole.exports)
}

/// Whether each key of a map is one of another.
fn are_keys_in(part: &Map<WorldKey, WorldItem>, whole: &Map<WorldKey, WorldItem>) -> bool
    ensures { IsTrue result ↔ AreKeysIn (entries_of part.now) (entries_of whole.now) }
{
    part.iter().all(|(key, _item)| is_key_of(whole, key))
}

/// Whether a map has a key.
fn is_key_of(entries: &Map<WorldKey, WorldItem>, key: &WorldKey) -> bool
    ensures { IsTrue result ↔ IsKeyOf (entries_of entries.now) (key_view key.now) }
{
    entries.contains_key(key)
}
