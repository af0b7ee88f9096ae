//! The keys of a world's imports and exports.

ghost use Rattle.std.specs.Prelude.{◌≡◌, IfOk};
ghost use Rattle.wc_resolve.specs.Views.{item_view, key_view};
ghost use Rattle.wc_json.specs.Keys.{canonical_index, is_id_key, item_key, world_key};

use crate::from_json::FromJson;
use crate::paths::fault_here;
use crate::{JsonFault, Problem};
use json::Value;
use std::alloc::{AllocError, Global};
use wc_maps::Seed;
use wc_resolve::{InterfaceId, WorldItem, WorldKey};
use wc_texts::strip_prefix;

/// The index below 2^32 whose decimal text this is, without leading zeros.
fn canonical_index(text: &str) -> Option<u32>
    ensures { result ≡ canonical_index text.now }
{
    match text.parse::<u32>() {
        Ok(index) => {
            if itoa::Buffer::new().format(index) == text {
                Some(index)
            } else {
                None
            }
        }
        Err(_) => None,
    }
}

/// The key that a text is by itself: `interface-3` that of the interface 3 under its own id, any other
/// text a plain one.
fn world_key(alloc: Global, text: &str) -> Result<WorldKey, AllocError>
    ensures { IfOk result (λ k. key_view k ≡ world_key text.now) }
{
    if let Some(digits) = strip_prefix(text, "interface-") {
        if let Some(index) = canonical_index(digits) {
            return Ok(WorldKey::Interface(InterfaceId(index)));
        }
    }
    Ok(WorldKey::Name(String::from_str(alloc, text)?))
}

/// Whether a text is the key of the interface of this index under its own id, as `interface-3` is.
fn is_id_key(text: &str, index: u32) -> bool
    ensures { result ≡ is_id_key text.now index }
{
    match strip_prefix(text, "interface-") {
        Some(digits) => itoa::Buffer::new().format(index) == digits,
        None => false,
    }
}

/// The key that a text is for an item: `interface-3` that of the interface 3 under its own id, where the
/// item is this interface; any other text a plain one, also `interface-3` of another item.
pub(crate) fn item_key(alloc: Global, text: &str, item: &WorldItem) -> Result<WorldKey, AllocError>
    ensures { IfOk result (λ k. key_view k ≡ item_key text.now (item_view item.now)) }
{
    if let WorldItem::Interface { id, .. } = item {
        if is_id_key(text, id.0) {
            return Ok(WorldKey::Interface(*id));
        }
    }
    Ok(WorldKey::Name(String::from_str(alloc, text)?))
}

impl FromJson for WorldKey {
    ghost use Rattle.wc_resolve.specs.Views.{KeyView, key_view};
    ghost use Rattle.wc_json.specs.Keys.{key};

    ghost View = { KeyView };

    ghost view = { key_view };

    ghost reading = { key };

    fn from_json(alloc: Global, _seed: Seed, value: &Value<'_>) -> Result<WorldKey, JsonFault> {
        match value.as_str() {
            Some(text) => Ok(world_key(alloc, text)?),
            None => Err(fault_here(alloc, Problem::NotAText)),
        }
    }
}
