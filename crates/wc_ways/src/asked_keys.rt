//! The interfaces that are asked about, by the names under which the world imports them.

ghost use Rattle.std.specs.Prelude.{◌≡◌, ℕ, List, IfOk, OnOk, slice_get};
ghost use Rattle.std.specs.Option.{option_map};
ghost use Rattle.wc_why.specs.Texts.{text_of};
ghost use Rattle.wc_names.specs.Views.{import_view};
ghost use Rattle.wc_world.specs.Views.{ComponentWorldView};
ghost use Rattle.wc_world.specs.WorldViews.{world_view};
ghost use Rattle.wc_ways.specs.Asked.{asked_by, asked_interfaces, asked_names, of_world};
ghost use Rattle.wc_ways.specs.Private.AskedKeys.{IsAskedOf, Lists, ListsMore, asked_of, asked_under, imported_shown, texts_at};
ghost use Rattle.wc_ways.specs.Private.Imported.{imported_view};

use crate::asked::{Imported, ROOT, is_asked, world_import};
use std::alloc::{AllocError, Global};
use wc_maps::Map;
use wc_names::Import;
use wc_resolve::InterfaceId;
use wc_world::{ComponentWorld, ImportedInterface};

/// Under the ids of interfaces the names under which the world imports them, in its order.
type Names<'a> = Map<InterfaceId, Vec<&'a str>>;

/// The interfaces that are asked about, and what is the world's own.
#[derive(Drop)]
pub(crate) struct AskedKeys<'a> {
    /// The key that asks.
    pub(crate) key: &'a str,
    /// The names of the interfaces that are asked about.
    names: Names<'a>,
    /// The name that stands for the interface of what is the world's own.
    own: Vec<&'a str>,
}

impl<'a> AskedKeys<'a> {
    /// The interfaces that a key asks about.
    pub(crate) fn new(
        alloc: Global,
        world: &'a ComponentWorld<'_>,
        key: &'a str,
    ) -> Result<AskedKeys<'a>, AllocError>
        ensures { IfOk result (IsAskedOf (world_view world.now) key.now) }
    {
        let mut names = Map::with_hasher(alloc, *world.adapters.hasher());
        for (name, imported) in world.import_map.iter() {
            list_if_asked(alloc, key, (name, imported), &mut names)?;
        }
        let mut own = Vec::new(alloc);
        own.push(ROOT)?;
        Ok(AskedKeys { key, names, own })
    }

    /// The names of the interfaces that are asked about to which an import of a module belongs, if there are any.
    pub(crate) fn interfaces(&self, import: &Import) -> Option<&Vec<&'a str>>
        ensures { (w : ComponentWorldView) (key : List ℕ) → IsAskedOf w key self.now
            → texts_at result ≡ asked_interfaces w key (import_view import.now) }
    {
        match world_import(import) {
            Some(imported) => self.interfaces_by(imported),
            None => None,
        }
    }

    /// The first of these names, if there is one.
    pub(crate) fn first_interface(&self, import: &Import) -> Option<&'a str>
        ensures { (w : ComponentWorldView) (key : List ℕ) → IsAskedOf w key self.now
            → option_map text_of result
            ≡ slice_get (asked_interfaces w key (import_view import.now)) 0 }
    {
        first_name(self.interfaces(import))
    }

    /// The first name of an interface, if one of its names is asked about.
    pub(crate) fn first_of(&self, id: InterfaceId) -> Option<&'a str>
        ensures { (w : ComponentWorldView) (key : List ℕ) → IsAskedOf w key self.now
            → option_map text_of result ≡ slice_get (asked_names w key id.0) 0 }
    {
        first_name(self.names.get(&id))
    }

    /// These names, by the import of the world.
    fn interfaces_by(&self, imported: Imported<'_>) -> Option<&Vec<&'a str>>
        ensures { (w : ComponentWorldView) (key : List ℕ) → IsAskedOf w key self.now
            → texts_at result ≡ asked_by w key (imported_view imported.entry) }
    {
        match imported {
            Imported::Interface(id) => self.names.get(&id),
            Imported::Own(own) => self.own_names(own),
        }
    }

    /// The name that stands for the interface of what is the world's own, if that is asked about under this name.
    fn own_names(&self, own: &str) -> Option<&Vec<&'a str>>
        ensures { (w : ComponentWorldView) (key : List ℕ) → IsAskedOf w key self.now
            → texts_at result ≡ asked_by w key (of_world own.now) }
    {
        if is_asked(self.key, ROOT, own) {
            Some(&self.own)
        } else {
            None
        }
    }
}

/// The first of names, if there are any.
fn first_name<'a>(names: Option<&Vec<&'a str>>) -> Option<&'a str>
    ensures { option_map text_of result ≡ slice_get (texts_at names.entry) 0 }
{
    match names {
        Some(names) => names.first().copied(),
        None => None,
    }
}

/// Lists the name of an interface that the world imports, if it is asked about.
fn list_if_asked<'a>(
    alloc: Global,
    key: &str,
    import: (&'a Option<String>, &ImportedInterface),
    names: &mut Names<'a>,
) -> Result<(), AllocError>
    ensures { OnOk result (Lists names.old.entries names.new.entries
        (asked_of key.now (imported_shown import.entry))) }
{
    match import.0 {
        Some(name) => match import.1.interface {
            Some(id) => list_text(alloc, key, (id, name), names),
            None => Ok(()),
        },
        None => Ok(()),
    }
}

/// Lists the name of this interface, if it is asked about.
fn list_text<'a>(
    alloc: Global,
    key: &str,
    named: (InterfaceId, &'a str),
    names: &mut Names<'a>,
) -> Result<(), AllocError>
    ensures { OnOk result (Lists names.old.entries names.new.entries
        (asked_under key.now named.entry.0.0 named.entry.1.now)) }
{
    if is_asked(key, named.1, named.1) {
        list_name(alloc, named.0, named.1, names)
    } else {
        Ok(())
    }
}

/// Lists a name under an interface, after its others.
fn list_name<'a>(
    alloc: Global,
    id: InterfaceId,
    name: &'a str,
    names: &mut Names<'a>,
) -> Result<(), AllocError>
    ensures { OnOk result (ListsMore names.old.entries names.new.entries id.0 name.now) }
{
    if let Some(others) = names.get_mut(&id) {
        others.push(name)?;
        return Ok(());
    }
    let mut first = Vec::new(alloc);
    first.push(name)?;
    names.insert(id, first)?;
    Ok(())
}
