//! The interfaces of a world's imports or exports, to look up many texts: the first of them under each key by which
//! they are found.

ghost use Rattle.std.specs.Prelude.{◌≡◌, All, IfOk, OnOk, map, string_bytes};
ghost use Rattle.std.specs.Option.{option_map};
ghost use Rattle.wc_resolve.specs.Ranges.{IsKeyIn};
ghost use Rattle.wc_resolve.specs.Views.{ItemView, item_view, key_view, package_name_view, world_entry};
ghost use Rattle.wc_names.specs.Views.{keyed_view};
ghost use Rattle.wc_names.specs.InterfaceIndex.{IsKeyOf, KeepsFirst, with_first, IsCloneEntry, IsTrackEntry, is_text, track_name_in, track_name_view, IsIdIndex, interface_names_view, KeepsClones, KeepsTracks};
ghost use Rattle.wc_names.specs.Interfaces.{IsCanonicalEntry, under_own_key, IsAbout, IsCloneOf, IsEntryOf, IsIdMatch, IsTextMatch, canonical_ids, found_interface, full_ids, id_matches, text_matches, IsFirstOnTrack, FindsOwnKey};
ghost use Rattle.std.specs.Map.{lookup};
ghost use Rattle.wc_resolve.specs.Kinds.{ResolveView};
ghost use Rattle.wc_adapters.specs.Entries.{Entries};
ghost use Rattle.wc_names.specs.Finds.{Finds};
ghost use Rattle.wc_names.specs.First.{FirstOf};

use crate::interfaces::{IdParts, id_parts, member_of};
use crate::keys::{is_key, plain_interface};
use std::alloc::{AllocError, Global};
use std::hash::Hash;
use std::marker::Model;
use wc_maps::Map;
use wc_resolve::{InterfaceId, PackageName, Resolve, WorldItem, WorldKey};

/// The part that ids of interfaces share whose versions are of one track.
#[derive(PartialEq, Eq, Hash, Drop)]
pub struct TrackName {
    pub namespace: String,
    pub package_name: String,
    pub interface: String,
    pub track: String,
}

/// Keeps a value under a key, if there is none yet.
pub(crate) fn keep_first<K: Hash + Eq + Drop, V: Drop>(
    kept: &mut Map<K, V>,
    key: K,
    value: V,
) -> Result<(), AllocError>
    ensures { OnOk result (kept.new.entries ≡ with_first K.eq kept.old.entries key value) }
{
    if kept.contains_key(&key) {
        return Ok(());
    }
    kept.insert(key, value)?;
    Ok(())
}

/// The plain key of an entry that is an interface, or its canonical id, and the interface.
fn canonical_text(
    alloc: Global,
    resolve: &Resolve,
    key: &WorldKey,
    item: &WorldItem,
) -> Result<Option<(String, InterfaceId)>, AllocError>
    requires { IsKeyIn resolve.now (key_view key.now) }
    ensures { IfOk result (λ found. IsKeyOf (IsCanonicalEntry resolve.now)
        (key_view key.now, item_view item.now)
        (option_map (λ f. (string_bytes f.0, (key_view key.now, f.1.0))) found)) }
{
    match key {
        WorldKey::Name(name) => match item {
            WorldItem::Interface { id, .. } => Ok(Some((String::from_str(alloc, name)?, *id))),
            WorldItem::Function(_) | WorldItem::TypeItem { .. } => Ok(None),
        },
        WorldKey::Interface(id) => match resolve.canonicalized_id_of(alloc, *id)? {
            Some(text) => Ok(Some((text, *id))),
            None => Ok(None),
        },
    }
}

/// The first interfaces by plain keys and canonical ids.
pub(crate) fn first_by_canonical_id<'a>(
    alloc: Global,
    resolve: &Resolve,
    items: &'a Map<WorldKey, WorldItem>,
) -> Result<Map<String, (&'a WorldKey, InterfaceId)>, AllocError>
    requires { All (λ x. IsKeyIn resolve.now x.0) (map world_entry items.now.entries) }
    ensures { IfOk result (λ first. KeepsFirst (IsCanonicalEntry resolve.now) is_text keyed_view
        (map world_entry items.now.entries) first.entries) }
{
    let mut first = Map::with_hasher(alloc, *items.hasher());
    for (key, item) in items.iter() {
        if let Some((text, id)) = canonical_text(alloc, resolve, key, item)? {
            keep_first(&mut first, text, (key, id))?;
        }
    }
    Ok(first)
}

/// The interface that the interface of a key is a clone of, and the latter.
fn copied_interface(resolve: &Resolve, key: &WorldKey) -> Option<(InterfaceId, InterfaceId)>
    requires { IsKeyIn resolve.now (key_view key.now) }
    ensures { (item : ItemView) → IsKeyOf (IsCloneEntry resolve.now) (key_view key.now, item)
        (option_map (λ f. (f.0.0, under_own_key f.1)) result) }
{
    let WorldKey::Interface(id) = key else {
        return None;
    };
    match resolve.interface(*id).clone_of {
        Some(source) => Some((source, *id)),
        None => None,
    }
}

/// The first clones that are keys, by the interfaces that they are clones of.
pub(crate) fn first_clones(
    alloc: Global,
    resolve: &Resolve,
    items: &Map<WorldKey, WorldItem>,
) -> Result<Map<InterfaceId, InterfaceId>, AllocError>
    requires { All (λ x. IsKeyIn resolve.now x.0) (map world_entry items.now.entries) }
    ensures { IfOk result (λ first. KeepsClones resolve.now (map world_entry items.now.entries)
        first.entries) }
{
    let mut first = Map::with_hasher(alloc, *items.hasher());
    for (key, _item) in items.iter() {
        if let Some((source, id)) = copied_interface(resolve, key) {
            keep_first(&mut first, source, id)?;
        }
    }
    Ok(first)
}

/// The track of an interface of this name, if its package has a version.
pub(crate) fn track_name(
    alloc: Global,
    package: &PackageName,
    interface: &str,
) -> Result<Option<TrackName>, AllocError>
    ensures { IfOk result (λ name. option_map track_name_view name
        ≡ track_name_in (package_name_view «package».now) interface.now) }
{
    let Some(version) = &package.version else {
        return Ok(None);
    };
    Ok(Some(TrackName {
        namespace: String::from_str(alloc, &package.namespace)?,
        package_name: String::from_str(alloc, &package.name)?,
        interface: String::from_str(alloc, interface)?,
        track: PackageName::version_compat_track(alloc, version)?,
    }))
}

/// The interface of a key, and what it shares with the others on its track.
fn tracked_interface(
    alloc: Global,
    resolve: &Resolve,
    key: &WorldKey,
) -> Result<Option<(TrackName, InterfaceId)>, AllocError>
    requires { IsKeyIn resolve.now (key_view key.now) }
    ensures { IfOk result (λ found. (item : ItemView) →
        IsKeyOf (IsTrackEntry resolve.now) (key_view key.now, item)
        (option_map (λ f. (track_name_view f.0, under_own_key f.1)) found)) }
{
    let WorldKey::Interface(id) = key else {
        return Ok(None);
    };
    let Some((package, interface)) = resolve.qualified_name(*id) else {
        return Ok(None);
    };
    match track_name(alloc, package, interface)? {
        Some(name) => Ok(Some((name, *id))),
        None => Ok(None),
    }
}

/// The first interfaces that are keys, by their tracks.
pub(crate) fn first_on_tracks(
    alloc: Global,
    resolve: &Resolve,
    items: &Map<WorldKey, WorldItem>,
) -> Result<Map<TrackName, InterfaceId>, AllocError>
    requires { All (λ x. IsKeyIn resolve.now x.0) (map world_entry items.now.entries) }
    ensures { IfOk result (λ first. KeepsTracks resolve.now (map world_entry items.now.entries)
        first.entries) }
{
    let mut first = Map::with_hasher(alloc, *items.hasher());
    for (key, _item) in items.iter() {
        if let Some((name, id)) = tracked_interface(alloc, resolve, key)? {
            keep_first(&mut first, name, id)?;
        }
    }
    Ok(first)
}

/// Interfaces by what their ids lead to.
#[derive(Drop)]
pub struct IdIndex {
    /// The first clone of each interface, by that interface.
    pub clones: Map<InterfaceId, InterfaceId>,
    /// The first interface on each track.
    pub tracks: Map<TrackName, InterfaceId>,
}

/// Interfaces by what texts lead to.
#[derive(Drop)]
pub enum InterfaceIndex<'a> {
    /// The first interface of each plain key or canonical id, and its key.
    CanonicalIds(Map<String, (&'a WorldKey, InterfaceId)>),
    /// For ids with whole versions.
    FullIds(IdIndex),
}

/// The interface of a text, by plain keys and canonical ids.
fn canonical_interface(
    alloc: Global,
    first: &Map<String, (&WorldKey, InterfaceId)>,
    text: &str,
) -> Result<Option<(WorldKey, InterfaceId)>, AllocError>
    ensures { IfOk result (λ found. option_map found_interface found
        ≡ option_map keyed_view (lookup (is_text text.now) first.now.entries)) }
{
    match first.get(text) {
        Some(found) => Ok(Some((found.0.clone(alloc)?, found.1))),
        None => Ok(None),
    }
}

/// The first clone of an interface.
fn clone_of_interface(
    clones: &Map<InterfaceId, InterfaceId>,
    source: InterfaceId,
) -> Option<InterfaceId>
    ensures { (r : ResolveView) (entries : Entries) → KeepsClones r entries clones.now.entries
        → Finds (option_map under_own_key result)
        (FirstOf (IsEntryOf (IsCloneOf r source.0)) entries) }
{
    clones.get(&source).copied()
}

/// The first interface on the track of an id.
fn interface_on_track(
    alloc: Global,
    tracks: &Map<TrackName, InterfaceId>,
    id: &IdParts<'_>,
) -> Result<Option<InterfaceId>, AllocError>
    ensures { (r : ResolveView) (entries : Entries) → KeepsTracks r entries tracks.now.entries
        → FindsOwnKey result (IsFirstOnTrack r entries (package_name_view id.now.«package»)
        id.now.interface.now) }
{
    match track_name(alloc, &id.package, id.interface)? {
        Some(name) => Ok(tracks.get(&name).copied()),
        None => Ok(None),
    }
}

/// The interface of an id, which is a key: that of exactly the id, a clone of it, or one on the version's track.
fn interface_of_id(
    alloc: Global,
    resolve: &Resolve,
    items: &Map<WorldKey, WorldItem>,
    index: &IdIndex,
    id: &IdParts<'_>,
) -> Result<Option<InterfaceId>, AllocError>
    requires { IsIdIndex resolve.now (map world_entry items.now.entries) index.now }
    ensures { FindsOwnKey result (FirstOf (IsIdMatch resolve.now (map world_entry items.now.entries)
        (package_name_view id.now.«package») id.now.interface.now) id_matches) }
{
    resolve.well_formedness();
    if let Some(exact) = member_of(resolve, id) {
        if is_key(items, exact) {
            return Ok(Some(exact));
        }
        if let Some(clone) = clone_of_interface(&index.clones, exact) {
            return Ok(Some(clone));
        }
    }
    interface_on_track(alloc, &index.tracks, id)
}

/// The interface of a text, by plain keys and ids.
fn interface_of_text(
    alloc: Global,
    resolve: &Resolve,
    items: &Map<WorldKey, WorldItem>,
    index: &IdIndex,
    text: &str,
) -> Result<Option<(WorldKey, InterfaceId)>, AllocError>
    requires { IsIdIndex resolve.now (map world_entry items.now.entries) index.now }
    ensures { IfOk result (λ found. Finds (option_map found_interface found) (FirstOf
        (IsTextMatch resolve.now (map world_entry items.now.entries) text.now) text_matches)) }
{
    if let Some(id) = plain_interface(alloc, items, text)? {
        return Ok(Some((WorldKey::Name(String::from_str(alloc, text)?), id)));
    }
    let Some(id) = id_parts(alloc, text)? else {
        return Ok(None);
    };
    match interface_of_id(alloc, resolve, items, index, &id)? {
        Some(interface) => Ok(Some((WorldKey::Interface(interface), interface))),
        None => Ok(None),
    }
}

/// The interfaces of a world's imports or exports by the texts of one scheme (`NameIndexes::interface_names`). Each
/// text is looked up by hashes: it is compared with no key of the world.
#[derive(Drop)]
pub struct InterfaceNames<'a> {
    resolve: &'a Resolve,
    items: &'a Map<WorldKey, WorldItem>,
    index: InterfaceIndex<'a>,
}

impl<'a> Model for InterfaceNames<'a> {
    ghost use Rattle.std.specs.Prelude.{map};
    ghost use Rattle.wc_resolve.specs.Views.{world_entry};
    ghost use Rattle.wc_names.specs.InterfaceIndex.{InterfaceNamesView, IsInterfaceIndex, index_texts, interface_names_view};

    ghost Value = { InterfaceNamesView };

    ghost view = { λ n. interface_names_view (index_texts n.index) n.resolve.now
        (map world_entry n.items.now.entries) };

    ghost invariant = { λ n. IsInterfaceIndex n.resolve.now (map world_entry n.items.now.entries)
        n.index };
}

impl<'a> InterfaceNames<'a> {
    /// The interfaces of these entries by plain keys and canonical ids.
    ///
    /// The keys must be in range of the `Resolve` (`has_interface`).
    ///
    /// # Errors
    ///
    /// `AllocError`: an allocation failed.
    pub(crate) fn by_canonical_ids(
        alloc: Global,
        resolve: &'a Resolve,
        items: &'a Map<WorldKey, WorldItem>,
    ) -> Result<InterfaceNames<'a>, AllocError>
        requires { All (λ x. IsKeyIn resolve.now x.0) (map world_entry items.now.entries) }
        ensures { IfOk result (λ names. names ≡ interface_names_view canonical_ids resolve.now
            (map world_entry items.now.entries)) }
    {
        let first = first_by_canonical_id(alloc, resolve, items)?;
        Ok(InterfaceNames {
            resolve,
            items,
            index: InterfaceIndex::CanonicalIds(first),
        })
    }

    /// The interfaces of these entries by plain keys and ids.
    ///
    /// The keys must be in range of the `Resolve` (`has_interface`).
    ///
    /// # Errors
    ///
    /// `AllocError`: an allocation failed.
    pub(crate) fn by_full_ids(
        alloc: Global,
        resolve: &'a Resolve,
        items: &'a Map<WorldKey, WorldItem>,
    ) -> Result<InterfaceNames<'a>, AllocError>
        requires { All (λ x. IsKeyIn resolve.now x.0) (map world_entry items.now.entries) }
        ensures { IfOk result (λ names. names ≡ interface_names_view full_ids resolve.now
            (map world_entry items.now.entries)) }
    {
        let clones = first_clones(alloc, resolve, items)?;
        let tracks = first_on_tracks(alloc, resolve, items)?;
        Ok(InterfaceNames {
            resolve,
            items,
            index: InterfaceIndex::FullIds(IdIndex { clones, tracks }),
        })
    }

    /// The interface that a text is about, and the key that it is under: what `NameMangling::module_to_interface` finds
    /// among the same entries. `None` for all other texts.
    ///
    /// # Errors
    ///
    /// `AllocError`: an allocation failed.
    pub fn interface(
        &self,
        alloc: Global,
        text: &str,
    ) -> Result<Option<(WorldKey, InterfaceId)>, AllocError>
        ensures { IfOk result (λ found. Finds (option_map found_interface found)
            (IsAbout self.now.texts self.now.resolve self.now.entries text.now)) }
    {
        match &self.index {
            InterfaceIndex::CanonicalIds(first) => canonical_interface(alloc, first, text),
            InterfaceIndex::FullIds(index) => {
                interface_of_text(alloc, self.resolve, self.items, index, text)
            }
        }
    }
}
