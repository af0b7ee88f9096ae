//! Notes on each interface, made while the modules of a component are read, one after another.

ghost use Rattle.std.specs.Prelude.{◌≡◌, IfOk, OnOk, Some};
ghost use Rattle.wc_summary.specs.Summary.{part_view, parts_view, user_view};
ghost use Rattle.wc_summary.specs.Entries.{IsChanged, IsPlace, IsSorted, entries_view, no_parts, with_types};
ghost use Rattle.wc_summary.specs.Private.Entries.{counted, named_by, with_part};

use crate::summary::{AdapterPart, Entries, Entry, MainPart};
use std::alloc::{AllocError, Global};

/// The place of an interface, which is listed last if it wasn't.
pub fn place_of(
    alloc: Global,
    entries: &mut Entries<'_>,
    interface: &str,
) -> Result<usize, AllocError>
    ensures { IfOk result (λ place. IsPlace interface.now place
        (entries_view entries.old.entries) (entries_view entries.new.entries)) }
{
    match entries.get_index_of(interface) {
        Some(place) => Ok(place),
        None => {
            let name = String::from_str(alloc, interface)?;
            let place = entries.len();
            entries.insert(name, empty_entry(alloc))?;
            Ok(place)
        }
    }
}

/// An interface of which nothing is noted.
fn empty_entry<'a>(alloc: Global) -> Entry<'a>
    ensures { parts_view result ≡ no_parts }
{
    Entry {
        main: MainPart {
            imports: 0,
            by: Vec::new(alloc),
        },
        adapters: Vec::new(alloc),
        types: None,
    }
}

/// Counts an import of the main module.
pub(crate) fn count_main(entries: &mut Entries<'_>, place: usize)
    ensures { IsChanged counted place
        (entries_view entries.old.entries) (entries_view entries.new.entries) }
{
    if let Some(entry) = entries.get_index_mut(place) {
        entry.main.imports = entry.main.imports.saturating_add(1);
    }
}

/// Notes a function of the main module, unless it is noted last.
pub(crate) fn push_namer(
    entries: &mut Entries<'_>,
    place: usize,
    index: u32,
) -> Result<(), AllocError>
    ensures { OnOk result (IsChanged (named_by index) place
        (entries_view entries.old.entries) (entries_view entries.new.entries)) }
{
    if let Some(entry) = entries.get_index_mut(place) {
        if entry.main.by.last().copied() != Some(index) {
            entry.main.by.push(index)?;
        }
    }
    Ok(())
}

/// Notes what an adapter imports.
pub(crate) fn push_part<'a>(
    entries: &mut Entries<'a>,
    place: usize,
    part: AdapterPart<'a>,
) -> Result<(), AllocError>
    ensures { OnOk result (IsChanged (with_part (part_view part.entry)) place
        (entries_view entries.old.entries) (entries_view entries.new.entries)) }
{
    if let Some(entry) = entries.get_index_mut(place) {
        entry.adapters.push(part)?;
    }
    Ok(())
}

/// Notes that an interface is imported for its types, and who uses them, unless that is noted.
pub fn set_types(entries: &mut Entries<'_>, place: usize, user: Option<String>)
    ensures { IsChanged (with_types (Some (user_view user))) place
        (entries_view entries.old.entries) (entries_view entries.new.entries) }
{
    if let Some(entry) = entries.get_index_mut(place) {
        if entry.types.is_none() {
            entry.types = Some(user);
        }
    }
}

/// Sorts interfaces by what it takes for them to go; of those that are alike the order stays.
pub fn sort_entries(entries: &mut Entries<'_>) -> Result<(), AllocError>
    ensures { OnOk result (IsSorted
        (entries_view entries.old.entries) (entries_view entries.new.entries)) }
{
    entries.sort_by_key(|_interface, entry| entry.rank())
}
