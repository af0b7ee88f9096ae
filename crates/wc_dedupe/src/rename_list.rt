//! Renamed imports, whose names follow one another in one text.

ghost use Rattle.std.specs.Prelude.{◌≡◌, ◌++◌, ◌∷◌, ◌==◌, ◌<◌, [], IfOk, OnOk, length, slice_get, slice_index_or, string_bytes};
ghost use Rattle.std.specs.Option.{option_map};
ghost use Rattle.wc_dedupe.specs.Renames.{rename_view};
ghost use Rattle.wc_dedupe.specs.Renaming.{RenameView};
ghost use Rattle.wc_dedupe.specs.Private.RenameLists.{IsLonger, IsPlaced, rename_in};

use std::alloc::{AllocError, Global};
use std::marker::Model;

/// A renamed import.
#[derive(Clone, Copy, Debug, PartialEq, Eq)]
pub struct Rename<'a> {
    /// The name of its module, which stays the same.
    pub module: &'a str,
    /// Its name before.
    pub original: &'a str,
    /// Its name now.
    pub name: &'a str,
}

/// The offsets at which the texts of a rename begin, one after another: its module, its original name and its new
/// one; and the offset at which they end.
#[derive(Clone, Copy)]
pub(crate) struct Place {
    start: usize,
    original: usize,
    name: usize,
    end: usize,
}

/// Renamed imports, in order. Their names follow one another in one text, so a rename takes no allocation of its own.
#[derive(Drop)]
pub struct RenameList {
    texts: String,
    places: Vec<Place>,
}

impl Model for RenameList {
    ghost use Rattle.std.specs.Prelude.{List, string_bytes};
    ghost use Rattle.wc_dedupe.specs.Renaming.{RenameView};

    ghost Value = { List RenameView };

    ghost use Rattle.wc_dedupe.specs.Private.RenameLists.{HavePlaces, renames_at};

    ghost view = { λ a. renames_at (string_bytes a.texts) a.places.items };

    ghost invariant = { λ a. HavePlaces (string_bytes a.texts) a.places.items };
}

impl RenameList {
    /// No renames.
    pub(crate) fn new(alloc: Global) -> RenameList
        ensures { result ≡ [] }
    {
        RenameList {
            texts: String::new(alloc),
            places: Vec::new(alloc),
        }
    }

    /// How many there are.
    pub fn len(&self) -> usize
        ensures { result ≡ length self.now }
    {
        self.places.len()
    }

    /// Whether the list is empty.
    pub fn is_empty(&self) -> bool
        ensures { result ≡ (length self.now == 0) }
    {
        self.places.is_empty()
    }

    /// The rename at an index.
    pub fn at(&self, index: usize) -> Rename<'_>
        requires { index < length self.now }
        ensures { rename_view result ≡ slice_index_or self.now index (rename_view result) }
    {
        rename_at(&self.texts, self.places[index])
    }

    /// The rename at an index; `None` past the last.
    pub fn get(&self, index: usize) -> Option<Rename<'_>>
        ensures { option_map (λ r. rename_view r) result ≡ slice_get self.now index }
    {
        match self.places.get(index) {
            Some(place) => Some(rename_at(&self.texts, *place)),
            None => None,
        }
    }

    /// Appends a rename.
    pub(crate) fn push(
        &mut self,
        module: &str,
        original: &str,
        name: &str,
    ) -> Result<(), AllocError>
        ensures { OnOk result (self.new ≡ self.old ++ (record {
          module_name = «module».now;
          original = original.now;
          name = name.now;
        }) ∷ []) }
    {
        let place = push_texts(&mut self.texts, module, original, name)?;
        self.places.push(place)?;
        Ok(())
    }
}

/// Appends the texts of a rename, and returns their offsets.
fn push_texts(
    texts: &mut String,
    module: &str,
    original: &str,
    name: &str,
) -> Result<Place, AllocError>
    ensures longer { IsLonger (string_bytes texts.old) (string_bytes texts.new) }
    ensures placed { IfOk result (λ place. IsPlaced (string_bytes texts.new) place
        (record { module_name = «module».now; original = original.now; name = name.now })) }
{
    let start = texts.len();
    texts.push_str(module)?;
    let of_original = texts.len();
    texts.push_str(original)?;
    let of_name = texts.len();
    texts.push_str(name)?;
    Ok(Place {
        start,
        original: of_original,
        name: of_name,
        end: texts.len(),
    })
}

/// The rename at a place.
fn rename_at<'t>(texts: &'t str, place: Place) -> Rename<'t>
    requires { (r : RenameView) × IsPlaced texts.now place r }
    ensures { rename_view result ≡ rename_in texts.now place }
{
    Rename {
        module: &texts[place.start..place.original],
        original: &texts[place.original..place.name],
        name: &texts[place.name..place.end],
    }
}
