//! The exported interfaces on which exported interfaces depend.

ghost use Rattle.std.specs.Prelude.{◌≡◌, ◌<◌, ◌||◌, ◌++◌, ◌∷◌, [], ℕ, All, IfOk, List, OnOk, length};
ghost use Rattle.wc_resolve.specs.WellFormed.{IsMatchingKey};
ghost use Rattle.wc_encoder.specs.Dependencies.{AreDependenciesBefore, AreItemsIn};
ghost use Rattle.wc_encoder.specs.EncoderParts.{world_exports};
ghost use Rattle.wc_adapters.specs.Entries.{entries_of};
ghost use Rattle.wc_resolve.specs.Ranges.{IsItemIn};
ghost use Rattle.wc_resolve.specs.Views.{item_view};
ghost use Rattle.wc_world.specs.Used.{AddsUsedSetOnOk, AreUsed, ForDependent, HasDependencySets, HasUsedPart, IsReady, IsUsedSet, has_interface, is_exported_itself, used_view};

use std::alloc::{AllocError, Global};
use wc_encoder::ComponentEncoder;
use wc_maps::{Map, Set};
use wc_resolve::{InterfaceId, Resolve, WorldItem, WorldKey};

/// For interfaces the interfaces that they use.
pub(crate) type UsedInterfaces = Map<InterfaceId, Set<InterfaceId>>;

/// Adds all interfaces of a set to another one.
fn add_all(set: &mut Set<InterfaceId>, more: &Set<InterfaceId>) -> Result<(), AllocError>
    ensures { OnOk result ((j : ℕ) → has_interface set.new j
        ≡ (has_interface set.old j || has_interface more.now j)) }
{
    for id in more.iter() {
        set.insert(*id)?;
    }
    Ok(())
}

/// Whether an interface is exported under its own id.
fn is_exported_itself(exports: &Map<WorldKey, WorldItem>, id: InterfaceId) -> bool
    ensures { result ≡ is_exported_itself (entries_of exports.now) id.0 }
{
    exports.contains_key(&WorldKey::Interface(id))
}

/// Adds an interface and those that it uses, unless it is there.
fn add_with_used(
    set: &mut Set<InterfaceId>,
    used: &UsedInterfaces,
    id: InterfaceId,
) -> Result<(), AllocError>
    ensures { ForDependent (used_view used.now) id.0 (λ d. (passed : List ℕ)
        → HasUsedPart d passed set.old
        → OnOk result (HasUsedPart d (passed ++ id.0 ∷ []) set.new)) }
{
    if set.contains(&id) {
        return Ok(());
    }
    set.insert(id)?;
    match used.get(&id) {
        Some(more) => add_all(set, more),
        None => Ok(()),
    }
}

/// The interfaces that an interface uses, by the sets of those that it depends on.
fn used_by(
    alloc: Global,
    resolve: &Resolve,
    exports: &Map<WorldKey, WorldItem>,
    used: &UsedInterfaces,
    id: InterfaceId,
) -> Result<Set<InterfaceId>, AllocError>
    requires there { id.0 < length resolve.now.interfaces }
    requires known { HasDependencySets resolve.now (entries_of exports.now)
        (used_view used.now) id.0 }
    ensures { IfOk result (λ set.
        IsUsedSet resolve.now (entries_of exports.now) id.0 (has_interface set)) }
{
    let dependencies = resolve.interface_direct_deps(alloc, id)?;
    let mut set = Set::with_hasher(alloc, *exports.hasher());
    for dependency in &dependencies {
        if is_exported_itself(exports, *dependency) {
            add_with_used(&mut set, used, *dependency)?;
        }
    }
    Ok(set)
}

/// Adds the set of an exported interface; functions and types have none.
fn add_export(
    alloc: Global,
    resolve: &Resolve,
    exports: &Map<WorldKey, WorldItem>,
    used: &mut UsedInterfaces,
    item: &WorldItem,
) -> Result<(), AllocError>
    requires there { IsItemIn resolve.now (item_view item.now) }
    requires ready { IsReady resolve.now (entries_of exports.now) (used_view used.now)
        (item_view item.now) }
    ensures { AddsUsedSetOnOk result resolve.now (entries_of exports.now)
        (item_view item.now) used.old used.new }
{
    match item {
        WorldItem::Interface { id, .. } => {
            let set = used_by(alloc, resolve, exports, used, *id)?;
            used.insert(*id, set)?;
            Ok(())
        }
        WorldItem::Function(_) => Ok(()),
        WorldItem::TypeItem { .. } => Ok(()),
    }
}

/// The sets of all interfaces that are exported; what each depends on is exported before it.
fn sets_of_exports(
    alloc: Global,
    resolve: &Resolve,
    exports: &Map<WorldKey, WorldItem>,
) -> Result<UsedInterfaces, AllocError>
    requires there { AreItemsIn resolve.now (entries_of exports.now) }
    requires before { AreDependenciesBefore resolve.now (entries_of exports.now) }
    requires keyed { All (λ e. IsMatchingKey resolve.now e.0 e.1) (entries_of exports.now) }
    ensures { IfOk result (λ used.
        AreUsed resolve.now (entries_of exports.now) (used_view used)) }
{
    let mut used = Map::with_hasher(alloc, *exports.hasher());
    for (_key, item) in exports.iter() {
        add_export(alloc, resolve, exports, &mut used, item)?;
    }
    Ok(used)
}

/// For each interface that the world of an encoder exports, the exported interfaces that it uses: those on which it
/// depends, directly or through others, by steps each to an interface that is exported under its own id.
///
/// # Errors
///
/// `AllocError`: an allocation failed.
pub(crate) fn exports_used(
    alloc: Global,
    encoder: &ComponentEncoder,
) -> Result<UsedInterfaces, AllocError>
    ensures { IfOk result (λ used.
        AreUsed encoder.now.resolve (world_exports encoder.now) (used_view used)) }
{
    encoder.well_formedness();
    let metadata = encoder.metadata();
    let resolve = &metadata.resolve;
    resolve.well_formedness();
    sets_of_exports(alloc, resolve, &resolve.world(metadata.world).exports)
}
