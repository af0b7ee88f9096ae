//! Functions and resources of interfaces that share a text, by their names: of the first interface that has one.

ghost use Rattle.std.specs.Prelude.{◌≡◌, ◌<◌, All, IfOk, List, OnOk, length, map, ℕ};
ghost use Rattle.std.specs.Option.{IfSome, option_map};
ghost use Rattle.wc_resolve.specs.Roots.{id_index};
ghost use Rattle.wc_resolve.specs.Views.{function_view};
ghost use Rattle.wc_names.specs.ExportIndex.{exported_interface_view, listed};
ghost use Rattle.wc_names.specs.ExportNames.{HasFunction, HasResource, interface_function, interface_resource};
ghost use Rattle.wc_names.specs.ExportViews.{export_target};
ghost use Rattle.wc_names.specs.FirstMembers.{AreFirstMembers, AreMembersOf, KeepsMore, among, own_function};
ghost use Rattle.wc_names.specs.InterfaceIndex.{KeepsFirst, is_text};
ghost use Rattle.wc_names.specs.Interfaces.{FoundInterface};

use crate::export_index::{ExportedInterface, interface_resource};
use crate::export_names::ExportSyntax;
use crate::interface_index::keep_first;
use crate::keys::function_under;
use std::alloc::{AllocError, Global};
use wc_maps::{Map, Seed};
use wc_resolve::{Function, InterfaceId, Resolve, TypeId, WorldKey};

/// How many interfaces of one text are searched one after another.
const FEW_INTERFACES: usize = 8;

/// The functions and resources of interfaces by their names: of the first interface that has one of the name.
#[derive(Drop)]
pub struct FirstMembers<'a> {
    /// Each function with the key and the id of its interface.
    pub functions: Map<String, (&'a WorldKey, Option<InterfaceId>, &'a Function)>,
    pub resources: Map<String, TypeId>,
}

/// The function of this name that an interface has.
pub(crate) fn interface_function<'a>(
    resolve: &'a Resolve,
    id: InterfaceId,
    name: &str,
) -> Option<&'a Function>
    requires { id.0 < length resolve.now.interfaces }
    ensures { option_map (λ f. function_view f.now) result
        ≡ interface_function resolve.now id.0 name.now }
{
    function_under(&resolve.interface(id).functions, name)
}

/// Keeps the functions of an interface that have one of these names, where the name has none yet.
fn keep_functions<'a>(
    alloc: Global,
    kept: &mut Map<String, (&'a WorldKey, Option<InterfaceId>, &'a Function)>,
    resolve: &'a Resolve,
    exported: ExportedInterface<'a>,
    names: &Map<String, Function>,
) -> Result<(), AllocError>
    requires { exported.id.0 < length resolve.now.interfaces }
    ensures { OnOk result (KeepsMore export_target (among names.now.entries
        (own_function resolve.now (exported_interface_view exported.entry)))
        kept.old.entries kept.new.entries) }
{
    for (name, _function) in names.iter() {
        if let Some(function) = interface_function(resolve, exported.id, name) {
            let own_name = String::from_str(alloc, name)?;
            keep_first(kept, own_name, (exported.key, Some(exported.id), function))?;
        }
    }
    Ok(())
}

/// Keeps the resources of an interface that have one of these names, where the name has none yet.
fn keep_resources(
    alloc: Global,
    kept: &mut Map<String, TypeId>,
    resolve: &Resolve,
    id: InterfaceId,
    names: &Map<String, TypeId>,
) -> Result<(), AllocError>
    requires { id.0 < length resolve.now.interfaces }
    ensures { OnOk result (KeepsMore id_index (among names.now.entries
        (interface_resource resolve.now id.0)) kept.old.entries kept.new.entries) }
{
    for (name, _ty) in names.iter() {
        if let Some(resource) = interface_resource(resolve, id, name) {
            let own_name = String::from_str(alloc, name)?;
            keep_first(kept, own_name, resource)?;
        }
    }
    Ok(())
}

/// The functions of interfaces by their names.
fn first_functions<'a>(
    alloc: Global,
    seed: Seed,
    resolve: &'a Resolve,
    interfaces: &[ExportedInterface<'a>],
) -> Result<Map<String, (&'a WorldKey, Option<InterfaceId>, &'a Function)>, AllocError>
    requires { All (λ e. e.id.0 < length resolve.now.interfaces) interfaces.now }
    ensures { IfOk result (λ kept. KeepsFirst (HasFunction resolve.now) is_text export_target
        (map exported_interface_view interfaces.now) kept.entries) }
{
    let mut kept = Map::with_hasher(alloc, seed);
    for exported in interfaces {
        let functions = &resolve.interface(exported.id).functions;
        keep_functions(alloc, &mut kept, resolve, *exported, functions)?;
    }
    Ok(kept)
}

/// The resources of interfaces by their names.
fn first_resources(
    alloc: Global,
    seed: Seed,
    resolve: &Resolve,
    interfaces: &[ExportedInterface<'_>],
) -> Result<Map<String, TypeId>, AllocError>
    requires { All (λ e. e.id.0 < length resolve.now.interfaces) interfaces.now }
    ensures { IfOk result (λ kept. KeepsFirst (HasResource resolve.now) is_text id_index
        (map exported_interface_view interfaces.now) kept.entries) }
{
    let mut kept = Map::with_hasher(alloc, seed);
    for exported in interfaces {
        let types = &resolve.interface(exported.id).types;
        keep_resources(alloc, &mut kept, resolve, exported.id, types)?;
    }
    Ok(kept)
}

/// The functions and resources of interfaces by their names.
fn first_members<'a>(
    alloc: Global,
    seed: Seed,
    resolve: &'a Resolve,
    interfaces: &[ExportedInterface<'a>],
) -> Result<FirstMembers<'a>, AllocError>
    requires { All (λ e. e.id.0 < length resolve.now.interfaces) interfaces.now }
    ensures { IfOk result
        (AreFirstMembers resolve.now (map exported_interface_view interfaces.now)) }
{
    let functions = first_functions(alloc, seed, resolve, interfaces)?;
    let resources = first_resources(alloc, seed, resolve, interfaces)?;
    Ok(FirstMembers {
        functions,
        resources,
    })
}

/// The interfaces that are listed under a text, if they are more than a few.
fn many_of_text<'s, 'a>(
    interfaces: &'s Map<String, Vec<ExportedInterface<'a>>>,
    text: &str,
) -> Option<&'s [ExportedInterface<'a>]>
    ensures { IfSome result (λ found. map exported_interface_view found.now
        ≡ listed interfaces.now.entries text.now) }
{
    let of_text = interfaces.get(text)?;
    if of_text.len() > FEW_INTERFACES {
        Some(of_text)
    } else {
        None
    }
}

/// The functions and resources of the interfaces that share a text, by that text, where they are more than a few and
/// are all searched.
pub(crate) fn members_by_text<'a>(
    alloc: Global,
    syntax: ExportSyntax,
    resolve: &'a Resolve,
    interfaces: &Map<String, Vec<ExportedInterface<'a>>>,
) -> Result<Map<String, FirstMembers<'a>>, AllocError>
    requires { (text : List ℕ) → All (λ (f : FoundInterface). f.1 < length resolve.now.interfaces)
        (listed interfaces.now.entries text) }
    ensures { IfOk result (λ members. AreMembersOf syntax resolve.now
        (listed interfaces.now.entries) members.entries) }
{
    let mut members = Map::with_hasher(alloc, *interfaces.hasher());
    let ExportSyntax::Legacy = syntax else {
        return Ok(members);
    };
    for (text, _interfaces) in interfaces.iter() {
        if let Some(of_text) = many_of_text(interfaces, text) {
            let first = first_members(alloc, *interfaces.hasher(), resolve, of_text)?;
            let own_text = String::from_str(alloc, text)?;
            keep_first(&mut members, own_text, first)?;
        }
    }
    Ok(members)
}
