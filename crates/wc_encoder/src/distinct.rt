//! The rules that no interface is exported twice, and no two imports have one name.

ghost use Rattle.std.specs.Prelude.{◌↔◌, IfOk, IsTrue};
ghost use Rattle.wc_encoder.specs.Distinct.{AreInterfacesOnce, AreKeysIn, AreNamesDistinct, HaveNames};
ghost use Rattle.wc_adapters.specs.Entries.{entries_of};

use std::alloc::{AllocError, Global};
use wc_maps::{Map, Set};
use wc_resolve::{InterfaceId, Resolve, WorldItem, WorldKey};

/// Whether no interface is exported twice.
///
/// # Errors
///
/// `AllocError`: an allocation failed.
pub(crate) fn are_interfaces_once(
    alloc: Global,
    exports: &Map<WorldKey, WorldItem>,
) -> Result<bool, AllocError>
    ensures { IfOk result (λ b. IsTrue b ↔ AreInterfacesOnce (entries_of exports.now)) }
{
    let mut seen: Set<InterfaceId> = Set::with_hasher(alloc, *exports.hasher());
    for (_key, item) in exports.iter() {
        if let WorldItem::Interface { id, .. } = item {
            let (_index, is_new) = seen.insert_full(*id)?;
            if !is_new {
                return Ok(false);
            }
        }
    }
    Ok(true)
}

/// Whether no two imports have one name.
///
/// # Errors
///
/// `AllocError`: an allocation failed.
pub(crate) fn are_names_distinct(
    alloc: Global,
    resolve: &Resolve,
    imports: &Map<WorldKey, WorldItem>,
) -> Result<bool, AllocError>
    requires there { AreKeysIn resolve.now (entries_of imports.now) }
    requires named { HaveNames resolve.now (entries_of imports.now) }
    ensures { IfOk result
        (λ b. IsTrue b ↔ AreNamesDistinct resolve.now (entries_of imports.now)) }
{
    let mut seen: Set<String> = Set::with_hasher(alloc, *imports.hasher());
    for (key, _item) in imports.iter() {
        let name = resolve.name_world_key(alloc, key)?;
        let (_index, is_new) = seen.insert_full(name)?;
        if !is_new {
            return Ok(false);
        }
    }
    Ok(true)
}
