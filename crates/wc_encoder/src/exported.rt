//! The rules that a world has the exports that modules are required to have, and exports no types.

ghost use Rattle.std.specs.Prelude.{◌↔◌, All, IsTrue, map};
ghost use Rattle.wc_resolve.specs.Views.{item_view, key_view};
ghost use Rattle.wc_adapters.specs.Adapters.{adapter_entry, adapter_view};
ghost use Rattle.wc_encoder.specs.EncoderParts.{parts_view};
ghost use Rattle.wc_adapters.specs.Entries.{entries_of};
ghost use Rattle.wc_encoder.specs.Exported.{AreAllRequiredExported, AreKeysExported, AreNoTypes, AreRequiredExported, IsExported, IsNoType};

use crate::encoder_parts::EncoderParts;
use wc_adapters::Adapter;
use wc_maps::{Map, Set};
use wc_resolve::{WorldItem, WorldKey};

/// Whether a key is one of these exports.
fn is_exported(exports: &Map<WorldKey, WorldItem>, key: &WorldKey) -> bool
    ensures { IsTrue result ↔ IsExported (entries_of exports.now) (key_view key.now) }
{
    exports.contains_key(key)
}

/// Whether all of these keys are among the exports.
fn are_exported(exports: &Map<WorldKey, WorldItem>, keys: &Set<WorldKey>) -> bool
    ensures { IsTrue result ↔
        All (IsExported (entries_of exports.now)) (map key_view keys.now.keys) }
{
    keys.iter().all(|key| is_exported(exports, key))
}

/// Whether all required exports of an adapter are among the exports.
#[tactic(auto, unfolding(crate::specs::Exported::AreRequiredExported))]
fn are_required_exported(exports: &Map<WorldKey, WorldItem>, adapter: &Adapter) -> bool
    ensures { IsTrue result ↔
        AreRequiredExported (entries_of exports.now) (adapter_view adapter.now) }
{
    are_exported(exports, &adapter.required_exports)
}

/// Whether all required exports of all adapters are among the exports.
fn are_all_required_exported(
    exports: &Map<WorldKey, WorldItem>,
    adapters: &Map<String, Adapter>,
) -> bool
    ensures { IsTrue result ↔
        AreAllRequiredExported (entries_of exports.now) (map adapter_entry adapters.now.entries) }
{
    adapters
        .iter()
        .all(|(_name, adapter)| are_required_exported(exports, adapter))
}

/// Whether each key of the main module's exports, and of each adapter's required ones, is one of
/// these exports.
#[tactic(auto, unfolding(crate::specs::Exported::AreKeysExported))]
pub(crate) fn are_keys_exported(parts: &EncoderParts, exports: &Map<WorldKey, WorldItem>) -> bool
    ensures { IsTrue result ↔ AreKeysExported (parts_view parts.now) (entries_of exports.now) }
{
    are_exported(exports, &parts.main_module_exports)
        && are_all_required_exported(exports, &parts.adapters)
}

/// Whether an item is an interface or a function.
fn is_no_type(item: &WorldItem) -> bool
    ensures { IsTrue result ↔ IsNoType (item_view item.now) }
{
    match item {
        WorldItem::Interface { .. } => true,
        WorldItem::Function(_) => true,
        WorldItem::TypeItem { .. } => false,
    }
}

/// Whether all exports are interfaces and functions.
pub(crate) fn are_no_types(exports: &Map<WorldKey, WorldItem>) -> bool
    ensures { IsTrue result ↔ AreNoTypes (entries_of exports.now) }
{
    exports.iter().all(|(_key, item)| is_no_type(item))
}
