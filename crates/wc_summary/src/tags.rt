//! The places of interfaces to which imports belong, among others.

ghost use Rattle.std.specs.Prelude.{◌≡◌, ◌<◌, ◌-◌, ◌^◌, ℕ, IfOk, length, slice_index};
ghost use Rattle.wc_graph.specs.Positions.{AreBelow};
ghost use Rattle.wc_summary.specs.Entries.{entries_view};
ghost use Rattle.wc_summary.specs.Leads.{tag_view, tags_view};
ghost use Rattle.wc_summary.specs.Private.Tags.{ArePlacesCounted, AreTagsPlaced, IsCounted, IsTagPlaced};

use crate::entries::place_of;
use crate::summary::Entries;
use std::alloc::{AllocError, Global};

/// The place of each of some interfaces, which are listed last if they weren't.
pub(crate) fn place_tags(
    alloc: Global,
    tags: &[Option<String>],
    entries: &mut Entries<'_>,
) -> Result<Vec<Option<usize>>, AllocError>
    ensures { IfOk result (λ v. AreTagsPlaced (tags_view tags.now) v.items
        (entries_view entries.old.entries) (entries_view entries.new.entries)) }
{
    let mut places = Vec::new(alloc);
    for tag in tags {
        places.push(place_tag(alloc, tag, entries)?)?;
    }
    Ok(places)
}

/// The place of an interface, if it is one.
fn place_tag(
    alloc: Global,
    tag: &Option<String>,
    entries: &mut Entries<'_>,
) -> Result<Option<usize>, AllocError>
    ensures { IfOk result (λ place. IsTagPlaced (tag_view tag.now) place
        (entries_view entries.old.entries) (entries_view entries.new.entries)) }
{
    match tag {
        Some(interface) => Ok(Some(place_of(alloc, entries, interface)?)),
        None => Ok(None),
    }
}

/// How often each of so many places is there.
pub(crate) fn counts_of(
    alloc: Global,
    places: &[Option<usize>],
    count: usize,
) -> Result<Vec<usize>, AllocError>
    requires { AreBelow count places.now }
    ensures { IfOk result (λ v. ArePlacesCounted places.now count v.items) }
{
    let mut counts = vec![in alloc; 0; count]?;
    for position in 0..places.len() {
        count_place(&mut counts, places[position]);
    }
    Ok(counts)
}

/// Counts a place, if it is one.
fn count_place(counts: &mut Vec<usize>, place: Option<usize>)
    requires below { (u : ℕ) → place ≡ Some u → u < length counts.old.items }
    requires fits { (u : ℕ) → place ≡ Some u → slice_index counts.old.items u < 2 ^ 64 - 1 }
    ensures { IsCounted place counts.old.items counts.new.items }
{
    match place {
        Some(place) => {
            counts[place] = counts[place] + 1;
        }
        None => {}
    }
}
