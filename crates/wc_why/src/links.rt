//! The links of items of the first part.

ghost use Rattle.std.specs.Prelude.{◌≡◌, ◌∷◌, ◌++◌, ◌<◌, [], IfOk, List, None, length, map, slice_index_or, take};
ghost use Rattle.wc_why.specs.Graph.{links_in};
ghost use Rattle.wc_why.specs.Part.{LinkView, PartView, link_view, part_view};
ghost use Rattle.wc_why.specs.Private.Graph.{AddsLink, AreLinked, AreLinkedBy, IsLinkNoted};
ghost use Rattle.wc_why.specs.Private.Numbers.{AreNumbers};

use crate::numbers::Numbers;
use crate::part::{Link, Part};
use std::alloc::{AllocError, Global};

/// The item that another item is linked to.
#[derive(Clone, Copy)]
pub(crate) struct Linked<'a> {
    /// Its number.
    pub(crate) number: usize,
    /// The name by which its part exports it.
    pub(crate) export: &'a str,
}

/// For each number what its item is linked to, if it is. There are none where there is no link at all.
pub(crate) fn links_of<'a>(
    alloc: Global,
    parts: &[Part<'a>],
    numbers: &Numbers,
) -> Result<Vec<Option<Linked<'a>>>, AllocError>
    requires { AreNumbers (map part_view parts.now) numbers.now }
    ensures { IfOk result (λ v. AreLinked (map part_view parts.now) numbers.now v.items) }
{
    match parts.first() {
        Some(main) => {
            if main.links.is_empty() {
                return Ok(Vec::new(alloc));
            }
            let mut linked = vec![in alloc; None; numbers.len()]?;
            put_links(numbers, &main.links, &mut linked);
            Ok(linked)
        }
        None => Ok(Vec::new(alloc)),
    }
}

/// Notes what links lead to.
fn put_links<'a>(numbers: &Numbers, links: &[Link<'a>], linked: &mut Vec<Option<Linked<'a>>>)
    requires { length linked.old.items ≡ length numbers.now.owners.items }
    ensures { (parts : List PartView) → AreNumbers parts numbers.now
        → AreLinkedBy parts [] numbers.now linked.old.items
        → AreLinkedBy parts (map link_view links.now) numbers.now linked.new.items }
{
    for link in links {
        put_link(numbers, *link, linked);
    }
}

/// Notes what a link leads to, if both its items are there.
fn put_link<'a>(numbers: &Numbers, link: Link<'a>, linked: &mut Vec<Option<Linked<'a>>>)
    requires { length linked.old.items ≡ length numbers.now.owners.items }
    ensures sized { length linked.new.items ≡ length linked.old.items }
    ensures linked { AddsLink numbers.now (link_view link.entry) linked.old.items linked.new.items }
{
    match numbers.number(0, link.item) {
        Some(item) => match numbers.number(link.part, link.linked) {
            Some(number) => {
                let to = Linked {
                    number,
                    export: link.export,
                };
                note_link(item, to, linked);
            }
            None => {}
        },
        None => {}
    }
}

/// Notes what an item is linked to, unless it has a link.
fn note_link<'a>(item: usize, to: Linked<'a>, linked: &mut Vec<Option<Linked<'a>>>)
    requires { item < length linked.old.items }
    ensures sized { length linked.new.items ≡ length linked.old.items }
    ensures noted { IsLinkNoted item to.entry linked.old.items linked.new.items }
{
    if linked[item].is_none() {
        linked[item] = Some(to);
    }
}

/// The link of the item of a number, if it has one.
pub(crate) fn linked_at<'a>(linked: &[Option<Linked<'a>>], item: usize) -> Option<Linked<'a>>
    ensures { result ≡ slice_index_or linked.now item None }
{
    match linked.get(item) {
        Some(to) => *to,
        None => None,
    }
}
