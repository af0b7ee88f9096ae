//! Ids of interfaces, `namespace:package/name` or `namespace:package/name@version`; and which interface of a world's
//! imports or exports a text is about.

ghost use Rattle.std.specs.Prelude.{ℕ, List, IfOk, MatchOption, ◌↔◌, ◌<◌, All, IsTrue, length, map};
ghost use Rattle.std.specs.Option.{option_map};
ghost use Rattle.semver.specs.Identifiers.{parts_of};
ghost use Rattle.wc_resolve.specs.Resolve.{VersionView};
ghost use Rattle.wc_resolve.specs.Views.{PackageNameView, package_name_view, item_view, key_view, world_entry};
ghost use Rattle.wc_names.specs.Finds.{Finds};
ghost use Rattle.wc_names.specs.Interfaces.{IsIdText, IsVersionText, AreOnSameTrack, IsCanonicalEntry, IsCloneOf, IsEntryOf, IsIdMatch, IsMemberOf, IsOnTrack, IsTextMatch, IsTrackOf, found_interface, id_matches, text_matches, under_own_key, IsFirstOnTrack, FindsOwnKey};
ghost use Rattle.wc_resolve.specs.Dependencies.{id_of_interface};
ghost use Rattle.wc_resolve.specs.declared.ids.InterfaceId.{InterfaceId};
ghost use Rattle.wc_resolve.specs.Ranges.{IsKeyIn};
ghost use Rattle.wc_names.specs.First.{FirstOf};

use crate::keys::{interface_under, is_key, plain_interface};
use crate::texts::split_at_first;
use semver::{Error, Version};
use std::alloc::{AllocError, Global};
use wc_maps::Map;
use wc_resolve::{InterfaceId, PackageName, Resolve, WorldItem, WorldKey};

/// The parts of an id: the name of a package, and of an interface of it.
#[derive(Drop)]
pub(crate) struct IdParts<'a> {
    pub package: PackageName,
    pub interface: &'a str,
}

/// The version that a text is of.
fn version_of(alloc: Global, text: &str) -> Result<Option<Version>, AllocError>
    ensures { IfOk result (λ found. Finds (option_map parts_of found)
        (λ (v : VersionView). IsVersionText text.now v)) }
{
    match Version::parse(alloc, text) {
        Ok(version) => Ok(Some(version)),
        Err(error) => {
            if error == Error::from(AllocError) {
                Err(AllocError)
            } else {
                Ok(None)
            }
        }
    }
}

/// The parts of an id.
pub(crate) fn id_parts(alloc: Global, text: &str) -> Result<Option<IdParts<'_>>, AllocError>
    ensures { IfOk result (λ found. MatchOption found
        ((p : PackageNameView) (n : List ℕ) → ¬ IsIdText text.now p n)
        (λ id. IsIdText text.now (package_name_view id.«package») id.interface.now)) }
{
    let Some((namespace, rest)) = split_at_first(text, ':') else {
        return Ok(None);
    };
    let Some((name, rest)) = split_at_first(rest, '/') else {
        return Ok(None);
    };
    let (interface, version) = match split_at_first(rest, '@') {
        Some((interface, version)) => match version_of(alloc, version)? {
            Some(version) => (interface, Some(version)),
            None => {
                return Ok(None);
            }
        },
        None => (rest, None),
    };
    let package = PackageName {
        namespace: String::from_str(alloc, namespace)?,
        name: String::from_str(alloc, name)?,
        version,
    };
    Ok(Some(IdParts { package, interface }))
}

/// Whether an interface is a clone of another one.
fn is_clone_of(resolve: &Resolve, id: InterfaceId, source: InterfaceId) -> bool
    requires { id.0 < length resolve.now.interfaces }
    ensures { IsTrue result ↔ IsCloneOf resolve.now source.0 id.0 }
{
    match resolve.interface(id).clone_of {
        Some(own_source) => own_source == source,
        None => false,
    }
}

/// The first interface that is a key and a clone of this one.
fn first_clone(
    resolve: &Resolve,
    items: &Map<WorldKey, WorldItem>,
    source: InterfaceId,
) -> Option<InterfaceId>
    requires { All (λ x. IsKeyIn resolve.now x.0) (map world_entry items.now.entries) }
    ensures { Finds (option_map under_own_key result) (FirstOf
        (IsEntryOf (IsCloneOf resolve.now source.0)) (map world_entry items.now.entries)) }
{
    for (key, _item) in items.iter() {
        if let WorldKey::Interface(id) = key {
            if is_clone_of(resolve, *id, source) {
                return Some(*id);
            }
        }
    }
    None
}

/// The interface of exactly this id.
pub(crate) fn member_of(resolve: &Resolve, id: &IdParts<'_>) -> Option<InterfaceId>
    ensures { Finds (option_map id_of_interface result)
        (IsMemberOf resolve.now (package_name_view id.now.«package») id.now.interface.now) }
{
    resolve.well_formedness();
    match resolve.package_named(&id.package) {
        Some(index) => interface_under(&resolve.package(index).interfaces, id.interface),
        None => None,
    }
}

/// Whether there is a version, and this text is its track.
fn has_track(version: &Option<Version>, track: &str) -> bool
    ensures { IsTrue result ↔ IsTrackOf (option_map parts_of version.now) track.now }
{
    match version {
        Some(version) => PackageName::is_version_compat_track(version, track),
        None => false,
    }
}

/// Whether a package has another one's name, but for the version, and a version of this track, which is that of the
/// other one's version.
fn is_on_same_track(package: &PackageName, other: &PackageName, track: &str) -> bool
    requires { IsTrackOf (package_name_view other.now).version track.now }
    ensures { IsTrue result
        ↔ AreOnSameTrack (package_name_view «package».now) (package_name_view other.now) }
{
    if package.namespace.as_str() != other.namespace.as_str() {
        return false;
    }
    if package.name.as_str() != other.name.as_str() {
        return false;
    }
    has_track(&package.version, track)
}

/// Whether an interface has the name of an id, and its package that of the id at a version of this track, which is that
/// of the id's version.
fn is_on_track(resolve: &Resolve, interface: InterfaceId, id: &IdParts<'_>, track: &str) -> bool
    requires in_range { interface.0 < length resolve.now.interfaces }
    requires track { IsTrackOf (package_name_view id.now.«package»).version track.now }
    ensures { IsTrue result ↔ IsOnTrack resolve.now
        (package_name_view id.now.«package») id.now.interface.now interface.0 }
{
    let Some((package, name)) = resolve.qualified_name(interface) else {
        return false;
    };
    if name != id.interface {
        return false;
    }
    is_on_same_track(package, &id.package, track)
}

/// The first interface that is a key and has the name of an id, in a package with that of the id at a version of this
/// track, which is that of the id's version.
fn first_of_track(
    resolve: &Resolve,
    items: &Map<WorldKey, WorldItem>,
    id: &IdParts<'_>,
    track: &str,
) -> Option<InterfaceId>
    requires in_range { All (λ x. IsKeyIn resolve.now x.0) (map world_entry items.now.entries) }
    requires track { IsTrackOf (package_name_view id.now.«package»).version track.now }
    ensures { Finds (option_map under_own_key result)
        (IsFirstOnTrack resolve.now (map world_entry items.now.entries)
        (package_name_view id.now.«package») id.now.interface.now) }
{
    for (key, _item) in items.iter() {
        if let WorldKey::Interface(interface) = key {
            if is_on_track(resolve, *interface, id, track) {
                return Some(*interface);
            }
        }
    }
    None
}

/// The first interface that is a key and has the name of an id, in a package with that of the id at a version of the
/// same track.
fn first_on_track(
    alloc: Global,
    resolve: &Resolve,
    items: &Map<WorldKey, WorldItem>,
    id: &IdParts<'_>,
) -> Result<Option<InterfaceId>, AllocError>
    requires { All (λ x. IsKeyIn resolve.now x.0) (map world_entry items.now.entries) }
    ensures { FindsOwnKey result (IsFirstOnTrack resolve.now (map world_entry items.now.entries)
        (package_name_view id.now.«package») id.now.interface.now) }
{
    match &id.package.version {
        Some(version) => {
            let track = PackageName::version_compat_track(alloc, version)?;
            Ok(first_of_track(resolve, items, id, &track))
        }
        None => Ok(None),
    }
}

/// The interface of an id, which is a key: that of exactly the id, a clone of it, or one on the version's track.
fn interface_of_id(
    alloc: Global,
    resolve: &Resolve,
    items: &Map<WorldKey, WorldItem>,
    id: &IdParts<'_>,
) -> Result<Option<InterfaceId>, AllocError>
    requires { All (λ x. IsKeyIn resolve.now x.0) (map world_entry items.now.entries) }
    ensures { FindsOwnKey result (FirstOf (IsIdMatch resolve.now (map world_entry items.now.entries)
        (package_name_view id.now.«package») id.now.interface.now) id_matches) }
{
    resolve.well_formedness();
    if let Some(exact) = member_of(resolve, id) {
        if is_key(items, exact) {
            return Ok(Some(exact));
        }
        if let Some(clone) = first_clone(resolve, items, exact) {
            return Ok(Some(clone));
        }
    }
    first_on_track(alloc, resolve, items, id)
}

/// The interface that a text of the legacy scheme is about, and its key.
pub(crate) fn legacy_interface(
    alloc: Global,
    resolve: &Resolve,
    items: &Map<WorldKey, WorldItem>,
    text: &str,
) -> Result<Option<(WorldKey, InterfaceId)>, AllocError>
    requires { All (λ x. IsKeyIn resolve.now x.0) (map world_entry items.now.entries) }
    ensures { IfOk result (λ found. Finds (option_map found_interface found) (FirstOf
        (IsTextMatch resolve.now (map world_entry items.now.entries) text.now) text_matches)) }
{
    if let Some(id) = plain_interface(alloc, items, text)? {
        return Ok(Some((WorldKey::Name(String::from_str(alloc, text)?), id)));
    }
    let Some(id) = id_parts(alloc, text)? else {
        return Ok(None);
    };
    match interface_of_id(alloc, resolve, items, &id)? {
        Some(interface) => Ok(Some((WorldKey::Interface(interface), interface))),
        None => Ok(None),
    }
}

/// The interface of an entry, if its plain key, or its canonical id, is the text.
fn canonical_entry(
    resolve: &Resolve,
    text: &str,
    key: &WorldKey,
    item: &WorldItem,
) -> Option<InterfaceId>
    requires { IsKeyIn resolve.now (key_view key.now) }
    ensures { Finds (option_map (λ (id : InterfaceId). (key_view key.now, id.0)) result)
        (IsCanonicalEntry resolve.now text.now (key_view key.now, item_view item.now)) }
{
    match key {
        WorldKey::Name(name) => match item {
            WorldItem::Interface { id, .. } => {
                if name.as_str() == text {
                    Some(*id)
                } else {
                    None
                }
            }
            WorldItem::Function(_) | WorldItem::TypeItem { .. } => None,
        },
        WorldKey::Interface(id) => {
            if resolve.is_canonical_id(*id, text) {
                Some(*id)
            } else {
                None
            }
        }
    }
}

/// The interface that a text of the standard scheme is about, and its key.
pub(crate) fn standard_interface(
    alloc: Global,
    resolve: &Resolve,
    items: &Map<WorldKey, WorldItem>,
    text: &str,
) -> Result<Option<(WorldKey, InterfaceId)>, AllocError>
    requires { All (λ x. IsKeyIn resolve.now x.0) (map world_entry items.now.entries) }
    ensures { IfOk result (λ found. Finds (option_map found_interface found) (FirstOf
        (IsCanonicalEntry resolve.now text.now) (map world_entry items.now.entries))) }
{
    for (key, item) in items.iter() {
        if let Some(id) = canonical_entry(resolve, text, key, item) {
            return Ok(Some((key.clone(alloc)?, id)));
        }
    }
    Ok(None)
}
