//! The interfaces that a component imports for their types alone.

ghost use Rattle.std.specs.Prelude.{◌≡◌, IfOk, OnOk, string_bytes};
ghost use Rattle.std.specs.Option.{option_map, option_to_list};
ghost use Rattle.wc_resolve.specs.Roots.{id_index};
ghost use Rattle.wc_why.specs.Texts.{text_of};
ghost use Rattle.wc_world.specs.WorldViews.{imported_view, live_view, world_view};
ghost use Rattle.wc_ways.specs.Tags.{all_key};
ghost use Rattle.wc_resolve.specs.WellFormed.{type_name};
ghost use Rattle.wc_ways.specs.Types.{cite, first_live, has_live_types, root_user, typed_name, user_in};
ghost use Rattle.wc_summary.specs.Entries.{entries_view};
ghost use Rattle.wc_ways.specs.Private.Needs.{AreNeededIn, cite_view, root_view};
ghost use Rattle.wc_ways.specs.Private.AskedKeys.{imported_shown};
ghost use Rattle.wc_ways.specs.Private.Notes.{NotesTyped, NotesTypes};

use crate::asked::{is_asked, key_text};
use crate::needs::{NeededTypes, TypeRoot, root_of};
use crate::type_roots::needed_types;
use std::alloc::{AllocError, Global};
use wc_maps::{Map, Set};
use wc_resolve::{InterfaceId, Resolve, TypeId};
use wc_summary::{Entries, place_of, set_types};
use wc_world::{ComponentWorld, ImportedInterface};

/// Why an interface is imported for its types: the name of its first live type, if this has a name, and the first root
/// that needs it.
#[derive(Clone, Copy)]
pub(crate) struct TypeCite<'a> {
    pub(crate) name: Option<&'a str>,
    pub(crate) root: Option<TypeRoot<'a>>,
}

/// The name and the id of an interface that is asked about, if no function of it is imported and none of its resources is dropped, but
/// types of it are live.
pub(crate) fn typed_name<'a>(
    world: &ComponentWorld<'_>,
    key: &str,
    name: &'a Option<String>,
    imported: &ImportedInterface,
) -> Option<(&'a str, InterfaceId)>
    ensures { option_map (λ t. (t.0.now, t.1.0)) result ≡ typed_name (world_view world.now) key.now
        (option_map string_bytes name.now, imported_view imported.now) }
{
    match (name, imported.interface) {
        (Some(text), Some(id)) => {
            if imported.lowerings.is_empty()
                && has_live_types(&world.live_type_imports, id)
                && is_asked(key, text, text)
            {
                Some((text, id))
            } else {
                None
            }
        }
        _ => None,
    }
}

/// Whether types of an interface are live.
fn has_live_types(live: &Map<InterfaceId, Set<TypeId>>, id: InterfaceId) -> bool
    ensures { result ≡ has_live_types (live_view live.now) id.0 }
{
    live.contains_key(&id)
}

/// Why an interface is imported for its types.
pub(crate) fn cite_of<'a>(
    world: &'a ComponentWorld<'_>,
    needed: &NeededTypes<'a>,
    id: InterfaceId,
) -> TypeCite<'a>
    requires { AreNeededIn (world_view world.now) needed.now }
    ensures { cite_view result ≡ cite (world_view world.now) id.0 }
{
    match first_live(&world.live_type_imports, id) {
        Some(ty) => {
            let metadata = world.encoder.metadata();
            TypeCite {
                name: type_name(&metadata.resolve, ty),
                root: root_of(needed, ty),
            }
        }
        None => TypeCite {
            name: None,
            root: None,
        },
    }
}

/// The first of the live types of an interface.
fn first_live(live: &Map<InterfaceId, Set<TypeId>>, id: InterfaceId) -> Option<TypeId>
    ensures { option_map id_index result ≡ first_live (live_view live.now) id.0 }
{
    match live.get(&id) {
        Some(types) => types.first().copied(),
        None => None,
    }
}

/// The name of a type.
fn type_name(resolve: &Resolve, ty: TypeId) -> Option<&str>
    ensures { option_map text_of result ≡ type_name resolve.now ty.0 }
{
    if !resolve.has_type(ty) {
        return None;
    }
    match &resolve.type_def(ty).name {
        Some(name) => Some(name),
        None => None,
    }
}

/// Notes the interfaces that are imported for their types alone, in the world's order, with what needs them.
pub(crate) fn note_typed(
    alloc: Global,
    world: &ComponentWorld<'_>,
    entries: &mut Entries<'_>,
) -> Result<(), AllocError>
    ensures { OnOk result (NotesTypes (world_view world.now)
        (entries_view entries.old.entries) (entries_view entries.new.entries)) }
{
    let found = needed_types(alloc, world)?;
    note_all_typed(alloc, world, &found.needed, entries)
}

/// Notes all of them.
fn note_all_typed(
    alloc: Global,
    world: &ComponentWorld<'_>,
    needed: &NeededTypes<'_>,
    entries: &mut Entries<'_>,
) -> Result<(), AllocError>
    requires { AreNeededIn (world_view world.now) needed.now }
    ensures { OnOk result (NotesTypes (world_view world.now)
        (entries_view entries.old.entries) (entries_view entries.new.entries)) }
{
    for (name, imported) in world.import_map.iter() {
        note_if_typed(alloc, world, needed, (name, imported), entries)?;
    }
    Ok(())
}

/// Notes an interface, if it is imported for its types alone.
fn note_if_typed(
    alloc: Global,
    world: &ComponentWorld<'_>,
    needed: &NeededTypes<'_>,
    import: (&Option<String>, &ImportedInterface),
    entries: &mut Entries<'_>,
) -> Result<(), AllocError>
    requires { AreNeededIn (world_view world.now) needed.now }
    ensures { let w = world_view world.now in OnOk result (NotesTyped (user_in w)
        (option_to_list (typed_name w all_key (imported_shown import.entry)))
        (entries_view entries.old.entries) (entries_view entries.new.entries)) }
{
    match typed_name(world, "all", import.0, import.1) {
        Some((name, id)) => {
            let place = place_of(alloc, entries, name)?;
            let user = user_in(alloc, world, needed, id)?;
            set_types(entries, place, user);
            Ok(())
        }
        None => Ok(()),
    }
}

/// The user of an interface's types: the module of an import, or what the world itself imports or exports.
fn user_in(
    alloc: Global,
    world: &ComponentWorld<'_>,
    needed: &NeededTypes<'_>,
    id: InterfaceId,
) -> Result<Option<String>, AllocError>
    requires { AreNeededIn (world_view world.now) needed.now }
    ensures { IfOk result (λ t. option_map string_bytes t ≡ user_in (world_view world.now) id.0) }
{
    match cite_of(world, needed, id).root {
        Some(root) => {
            let metadata = world.encoder.metadata();
            root_user(alloc, &metadata.resolve, root)
        }
        None => Ok(None),
    }
}

/// The module of an import, or the text of a key of the world.
fn root_user(
    alloc: Global,
    resolve: &Resolve,
    root: TypeRoot<'_>,
) -> Result<Option<String>, AllocError>
    ensures { IfOk result (λ t. option_map string_bytes t
        ≡ root_user resolve.now (root_view root.entry)) }
{
    match root {
        TypeRoot::Import { module, .. } => Ok(Some(String::from_str(alloc, module)?)),
        TypeRoot::Item { key, .. } => key_text(alloc, resolve, key),
    }
}
