//! The rule that exports come after the exported interfaces that they depend on.

ghost use Rattle.std.specs.Prelude.{◌↔◌, ◌<◌, IfOk, IsTrue, length};
ghost use Rattle.wc_resolve.specs.Ranges.{IsItemIn};
ghost use Rattle.wc_resolve.specs.Views.{interface_key, item_view};
ghost use Rattle.wc_encoder.specs.Dependencies.{AreDependenciesBefore, AreItemsIn, AreNotExported, IsIndependent};
ghost use Rattle.wc_adapters.specs.Entries.{entries_after, entries_of};
ghost use Rattle.wc_encoder.specs.Exported.{IsExported};

use std::alloc::{AllocError, Global};
use wc_maps::Map;
use wc_resolve::{InterfaceId, Resolve, WorldItem, WorldKey};

/// Whether an interface is exported under its own id after an index.
fn is_exported_after(exports: &Map<WorldKey, WorldItem>, index: usize, id: InterfaceId) -> bool
    ensures { IsTrue result ↔ IsExported (entries_after exports.now index) (interface_key id.0) }
{
    match exports.get_index_of(&WorldKey::Interface(id)) {
        Some(at) => index < at,
        None => false,
    }
}

/// Whether an interface depends directly on none that is exported under its own id after an index.
fn has_none_after(
    alloc: Global,
    resolve: &Resolve,
    exports: &Map<WorldKey, WorldItem>,
    index: usize,
    id: InterfaceId,
) -> Result<bool, AllocError>
    requires { id.0 < length resolve.now.interfaces }
    ensures { IfOk result (λ b. IsTrue b ↔
        AreNotExported resolve.now id.0 (entries_after exports.now index)) }
{
    let owners = resolve.interface_direct_deps(alloc, id)?;
    Ok(
        owners
            .iter()
            .all(|owner| !is_exported_after(exports, index, *owner)),
    )
}

/// Whether an item depends directly on none of the exports after an index.
fn is_independent(
    alloc: Global,
    resolve: &Resolve,
    exports: &Map<WorldKey, WorldItem>,
    index: usize,
    item: &WorldItem,
) -> Result<bool, AllocError>
    requires { IsItemIn resolve.now (item_view item.now) }
    ensures { IfOk result (λ b. IsTrue b ↔
        IsIndependent resolve.now (item_view item.now) (entries_after exports.now index)) }
{
    match item {
        WorldItem::Interface { id, .. } => has_none_after(alloc, resolve, exports, index, *id),
        WorldItem::Function(_) => Ok(true),
        WorldItem::TypeItem { .. } => Ok(true),
    }
}

/// Whether no export depends directly on an interface that is exported after it under its own id.
///
/// # Errors
///
/// `AllocError`: an allocation failed.
pub(crate) fn are_dependencies_before(
    alloc: Global,
    resolve: &Resolve,
    exports: &Map<WorldKey, WorldItem>,
) -> Result<bool, AllocError>
    requires { AreItemsIn resolve.now (entries_of exports.now) }
    ensures { IfOk result (λ b. IsTrue b ↔
        AreDependenciesBefore resolve.now (entries_of exports.now)) }
{
    let mut index: usize = 0;
    for (_key, item) in exports.iter() {
        if !is_independent(alloc, resolve, exports, index, item)? {
            return Ok(false);
        }
        index += 1;
    }
    Ok(true)
}
