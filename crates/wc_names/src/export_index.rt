//! The names of an export set: its interfaces by their texts, and their functions and resources.

ghost use Rattle.std.specs.Prelude.{◌≡◌, ◌<◌, ℕ, All, List, IfOk, OnOk, length, map, string_bytes, take, [], MatchOption};
ghost use Rattle.std.specs.Option.{option_map, option_and_then};
ghost use Rattle.wc_resolve.specs.Ranges.{IsKeyIn};
ghost use Rattle.wc_resolve.specs.Roots.{id_index};
ghost use Rattle.wc_resolve.specs.Views.{key_view, world_entry, function_view};
ghost use Rattle.wc_names.specs.ExportIndex.{exported_interface_view, listed, names_view, FindsPlainKey, ListsMore, searched_in, AreSearched};
ghost use Rattle.wc_names.specs.ExportNames.{HasFunction, HasResource, exported_interface, interface_resource, interface_text, interface_with_text, interfaces_of_text, IsWorldFunction, NamesDestructor, NamesFunctionExport, world_exports};
ghost use Rattle.wc_names.specs.ExportViews.{export_target};
ghost use Rattle.wc_names.specs.Finds.{Finds};
ghost use Rattle.wc_names.specs.First.{FirstOf};
ghost use Rattle.wc_names.specs.Keys.{as_function, item_under};

use crate::export_names::{ExportSyntax, destructed_resource, export_parts};
use crate::first_members::{FirstMembers, interface_function, members_by_text};
use crate::keys::{if_resource, item, type_under};
use std::alloc::{AllocError, Global};
use std::marker::Model;
use wc_maps::{Map, Set};
use wc_resolve::{Function, InterfaceId, Resolve, TypeId, WorldId, WorldItem, WorldKey};

/// An interface of an export set, and its key.
#[derive(Clone, Copy)]
pub struct ExportedInterface<'a> {
    pub key: &'a WorldKey,
    pub id: InterfaceId,
}

/// The text of an interface that is a key, where it has one.
fn text_of(
    alloc: Global,
    syntax: ExportSyntax,
    resolve: &Resolve,
    key: &WorldKey,
) -> Result<Option<String>, AllocError>
    requires { IsKeyIn resolve.now (key_view key.now) }
    ensures { IfOk result (λ text. option_map string_bytes text
        ≡ interface_text syntax resolve.now (key_view key.now)) }
{
    match key {
        WorldKey::Name(name) => Ok(Some(String::from_str(alloc, name)?)),
        WorldKey::Interface(id) => match syntax {
            ExportSyntax::Standard => resolve.canonicalized_id_of(alloc, *id),
            ExportSyntax::Legacy => resolve.id_of(alloc, *id),
        },
    }
}

/// The interface that is exported under a key.
fn interface_under_key(exports: &Map<WorldKey, WorldItem>, key: &WorldKey) -> Option<InterfaceId>
    ensures { option_map (λ id. id.0) result
        ≡ exported_interface (map world_entry exports.now.entries) (key_view key.now) }
{
    match item(exports, key)? {
        WorldItem::Interface { id, .. } => Some(*id),
        WorldItem::Function(_) | WorldItem::TypeItem { .. } => None,
    }
}

/// Lists an interface under a text, after the others of that text.
fn list_interface<'a>(
    alloc: Global,
    interfaces: &mut Map<String, Vec<ExportedInterface<'a>>>,
    text: String,
    interface: ExportedInterface<'a>,
) -> Result<(), AllocError>
    ensures { OnOk result (ListsMore interfaces.old.entries interfaces.new.entries
        (string_bytes text) (exported_interface_view interface.entry)) }
{
    if let Some(others) = interfaces.get_mut(text.as_str()) {
        others.push(interface)?;
        return Ok(());
    }
    let mut first = Vec::new(alloc);
    first.push(interface)?;
    interfaces.insert(text, first)?;
    Ok(())
}

/// The interface that is exported under a key, and its text.
fn text_under_key(
    alloc: Global,
    syntax: ExportSyntax,
    resolve: &Resolve,
    exports: &Map<WorldKey, WorldItem>,
    key: &WorldKey,
) -> Result<Option<(String, InterfaceId)>, AllocError>
    requires { All (λ x. IsKeyIn resolve.now x.0) (map world_entry exports.now.entries) }
    ensures { IfOk result (λ found. option_map (λ p. (string_bytes p.0, p.1.0)) found
        ≡ interface_with_text syntax resolve.now (map world_entry exports.now.entries)
        (key_view key.now)) }
{
    let Some(id) = interface_under_key(exports, key) else {
        return Ok(None);
    };
    match text_of(alloc, syntax, resolve, key)? {
        Some(text) => Ok(Some((text, id))),
        None => Ok(None),
    }
}

/// The interfaces of an export set by their texts.
pub(crate) fn interfaces_by_text<'a>(
    alloc: Global,
    syntax: ExportSyntax,
    resolve: &Resolve,
    exports: &Map<WorldKey, WorldItem>,
    keys: &'a Set<WorldKey>,
) -> Result<Map<String, Vec<ExportedInterface<'a>>>, AllocError>
    requires { All (λ x. IsKeyIn resolve.now x.0) (map world_entry exports.now.entries) }
    ensures { IfOk result (λ interfaces. (text : List ℕ) → listed interfaces.entries text
        ≡ interfaces_of_text syntax resolve.now (map world_entry exports.now.entries)
        (map key_view keys.now.keys) text) }
{
    let mut interfaces = Map::with_hasher(alloc, *keys.hasher());
    for key in keys.iter() {
        if let Some((text, id)) = text_under_key(alloc, syntax, resolve, exports, key)? {
            list_interface(alloc, &mut interfaces, text, ExportedInterface { key, id })?;
        }
    }
    Ok(interfaces)
}

/// The first item alone, or none.
pub(crate) fn first_alone<'s, 'a>(list: &'s [ExportedInterface<'a>]) -> &'s [ExportedInterface<'a>]
    ensures { result.now ≡ take 1 list.now }
{
    if list.len() > 1 { &list[..1] } else { list }
}

/// The function of this name, of the first of these interfaces that has one.
pub(crate) fn function_in<'a>(
    resolve: &'a Resolve,
    interfaces: &[ExportedInterface<'a>],
    name: &str,
) -> Option<(&'a WorldKey, Option<InterfaceId>, &'a Function)>
    requires { All (λ e. e.id.0 < length resolve.now.interfaces) interfaces.now }
    ensures { Finds (option_map export_target result) (FirstOf (HasFunction resolve.now name.now)
        (map exported_interface_view interfaces.now)) }
{
    for exported in interfaces {
        if let Some(function) = interface_function(resolve, exported.id, name) {
            return Some((exported.key, Some(exported.id), function));
        }
    }
    None
}

/// The resource of this name that an interface has.
pub(crate) fn interface_resource(resolve: &Resolve, id: InterfaceId, name: &str) -> Option<TypeId>
    requires { id.0 < length resolve.now.interfaces }
    ensures { option_map id_index result ≡ interface_resource resolve.now id.0 name.now }
{
    resolve.well_formedness();
    let id = type_under(&resolve.interface(id).types, name)?;
    if_resource(resolve, id)
}

/// The resource of this name, of the first of these interfaces that has one.
pub(crate) fn resource_in(
    resolve: &Resolve,
    interfaces: &[ExportedInterface<'_>],
    name: &str,
) -> Option<TypeId>
    requires { All (λ e. e.id.0 < length resolve.now.interfaces) interfaces.now }
    ensures { Finds (option_map id_index result) (FirstOf (HasResource resolve.now name.now)
        (map exported_interface_view interfaces.now)) }
{
    for exported in interfaces {
        if let Some(id) = interface_resource(resolve, exported.id, name) {
            return Some(id);
        }
    }
    None
}

/// The plain key of this name, if an export set has it.
fn plain_key_in<'a>(
    alloc: Global,
    keys: &'a Set<WorldKey>,
    name: &str,
) -> Result<Option<&'a WorldKey>, AllocError>
    ensures { IfOk result (λ found. FindsPlainKey (map key_view keys.now.keys) name.now found) }
{
    let key = WorldKey::Name(String::from_str(alloc, name)?);
    Ok(keys.get(&key))
}

/// The function that is exported under a key.
fn function_under_key<'a>(
    exports: &'a Map<WorldKey, WorldItem>,
    key: &WorldKey,
) -> Option<&'a Function>
    ensures { option_map (λ f. function_view f.now) result ≡ option_and_then as_function
        (item_under (map world_entry exports.now.entries) (key_view key.now)) }
{
    match item(exports, key)? {
        WorldItem::Function(function) => Some(function),
        WorldItem::Interface { .. } | WorldItem::TypeItem { .. } => None,
    }
}

/// The function of this name that the world itself has in an export set.
fn world_function<'a>(
    alloc: Global,
    exports: &'a Map<WorldKey, WorldItem>,
    keys: &'a Set<WorldKey>,
    name: &str,
) -> Result<Option<(&'a WorldKey, Option<InterfaceId>, &'a Function)>, AllocError>
    ensures { IfOk result (λ found. Finds (option_map export_target found)
        (IsWorldFunction (map world_entry exports.now.entries) (map key_view keys.now.keys)
        name.now)) }
{
    let Some(key) = plain_key_in(alloc, keys, name)? else {
        return Ok(None);
    };
    match function_under_key(exports, key) {
        Some(function) => Ok(Some((key, None, function))),
        None => Ok(None),
    }
}

/// The names of the exports of a world that are in an export set, by one scheme (`NameIndexes::export_names`). Each
/// name is looked up by hashes of its parts: it is compared with no key of the set.
#[derive(Drop)]
pub struct ExportNames<'a> {
    syntax: ExportSyntax,
    resolve: &'a Resolve,
    exports: &'a Map<WorldKey, WorldItem>,
    keys: &'a Set<WorldKey>,
    /// The interfaces of the set by their texts.
    interfaces: Map<String, Vec<ExportedInterface<'a>>>,
    /// The functions and resources of the interfaces of a text, where these are more than a few.
    members: Map<String, FirstMembers<'a>>,
}

impl<'a> Model for ExportNames<'a> {
    ghost use Rattle.std.specs.Prelude.{map};
    ghost use Rattle.wc_resolve.specs.Views.{key_view, world_entry};
    ghost use Rattle.wc_names.specs.ExportIndex.{ExportNamesView, IsExportIndex, listed, names_view};
    ghost use Rattle.wc_names.specs.FirstMembers.{AreMembersOf};

    ghost Value = { ExportNamesView };

    ghost view = { λ n. names_view n.syntax n.resolve.now
        (map world_entry n.exports.now.entries) (map key_view n.keys.now.keys) };

    ghost invariant = { λ n. IsExportIndex n.syntax n.resolve.now
        (map world_entry n.exports.now.entries) (map key_view n.keys.now.keys)
        n.interfaces.entries
        × AreMembersOf n.syntax n.resolve.now (listed n.interfaces.entries) n.members.entries };
}

impl<'a> ExportNames<'a> {
    /// The names of the keys of an export set that a world exports; for other keys there are none.
    ///
    /// The world must be in range (`has_world`).
    ///
    /// # Errors
    ///
    /// `AllocError`: an allocation failed.
    pub(crate) fn new(
        alloc: Global,
        syntax: ExportSyntax,
        resolve: &'a Resolve,
        world: WorldId,
        keys: &'a Set<WorldKey>,
    ) -> Result<ExportNames<'a>, AllocError>
        requires { world.0 < length resolve.now.worlds }
        ensures { IfOk result (λ names. names ≡ names_view syntax resolve.now
            (world_exports resolve.now world.0) (map key_view keys.now.keys)) }
    {
        resolve.well_formedness();
        let exports = &resolve.world(world).exports;
        let interfaces = interfaces_by_text(alloc, syntax, resolve, exports, keys)?;
        let members = members_by_text(alloc, syntax, resolve, &interfaces)?;
        Ok(ExportNames {
            syntax,
            resolve,
            exports,
            keys,
            interfaces,
            members,
        })
    }

    /// The interfaces with this text in which members are looked up; `None` where there are none.
    fn searched(&self, text: &str) -> Option<&[ExportedInterface<'a>]>
        ensures { MatchOption result (searched_in self.now text.now ≡ [])
            (λ found. AreSearched self.now text.now found.now) }
    {
        let interfaces = self.interfaces.get(text)?;
        match self.syntax {
            ExportSyntax::Standard => Some(first_alone(interfaces)),
            ExportSyntax::Legacy => Some(interfaces),
        }
    }

    /// The function of this name, of the first interface with this text that has one.
    fn function_of_text(
        &self,
        text: &str,
        name: &str,
    ) -> Option<(&'a WorldKey, Option<InterfaceId>, &'a Function)>
        ensures { Finds (option_map export_target result)
            (FirstOf (HasFunction self.now.resolve name.now) (searched_in self.now text.now)) }
    {
        if let Some(members) = self.members.get(text) {
            return members.functions.get(name).copied();
        }
        match self.searched(text) {
            Some(interfaces) => function_in(self.resolve, interfaces, name),
            None => None,
        }
    }

    /// The resource of this name, of the first interface with this text that has one.
    fn resource_of_text(&self, text: &str, name: &str) -> Option<TypeId>
        ensures { Finds (option_map id_index result)
            (FirstOf (HasResource self.now.resolve name.now) (searched_in self.now text.now)) }
    {
        if let Some(members) = self.members.get(text) {
            return members.resources.get(name).copied();
        }
        match self.searched(text) {
            Some(interfaces) => resource_in(self.resolve, interfaces, name),
            None => None,
        }
    }

    /// The function that an export of this name is for: the key of the export set that it is under, its interface, if
    /// it is of one, and the function. `None` for all other names.
    ///
    /// # Errors
    ///
    /// `AllocError`: an allocation failed.
    pub fn function(
        &self,
        alloc: Global,
        name: &str,
    ) -> Result<Option<(&'a WorldKey, Option<InterfaceId>, &'a Function)>, AllocError>
        ensures { IfOk result (λ found. Finds (option_map export_target found)
            (NamesFunctionExport self.now.syntax self.now.resolve self.now.exports self.now.keys
            name.now)) }
    {
        let Some(parts) = export_parts(self.syntax, name) else {
            return Ok(None);
        };
        match parts.interface {
            Some(text) => Ok(self.function_of_text(text, parts.member)),
            None => world_function(alloc, self.exports, self.keys, parts.member),
        }
    }

    /// The resource whose destructor an export of this name is. `None` for all other names.
    pub fn destructed(&self, name: &str) -> Option<TypeId>
        ensures { Finds (option_map id_index result)
            (NamesDestructor self.now.syntax self.now.resolve self.now.exports self.now.keys
            name.now) }
    {
        let Some(parts) = export_parts(self.syntax, name) else {
            return None;
        };
        let Some(text) = parts.interface else {
            return None;
        };
        let Some(resource) = destructed_resource(self.syntax, parts.member) else {
            return None;
        };
        self.resource_of_text(text, resource)
    }
}
