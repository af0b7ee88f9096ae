//! The items that the roots of lists reach, one list after another.

ghost use Rattle.std.specs.Prelude.{◌≡◌, ◌<◌, ◌∷◌, ◌++◌, ℕ, [], All, IfOk, List, OnOk, length, map};
ghost use Rattle.wc_why.specs.Part.{PartView, part_view};
ghost use Rattle.wc_why.specs.Private.Components.{AddsList, IsComponent};
ghost use Rattle.wc_why.specs.Private.Found.{AreNoted, IsFound, IsNoted};
ghost use Rattle.wc_why.specs.Private.Numbers.{place_of, total};
ghost use Rattle.wc_why.specs.declared.numbers.Numbers.{Numbers as numbers};

use crate::graph::{ComponentGraph, put_after};
use std::alloc::{AllocError, Global};
use wc_graph::{Graph, find_all};

/// The items that the roots of some lists reach, in the order in which they are found, one list after another.
#[derive(Drop)]
pub(crate) struct Found {
    /// The items.
    pub(crate) order: Vec<usize>,
    /// For each of them the position of its finder; that of a root is its own.
    pub(crate) finder: Vec<usize>,
    /// For each item of the component its position, from the first list that reaches it; `None` where none does.
    pub(crate) places: Vec<Option<usize>>,
}

impl Found {
    /// The items that no lists reach: none.
    pub(crate) fn none(alloc: Global, size: usize) -> Result<Found, AllocError>
        ensures { IfOk result (λ f. (parts : List PartView) (n : numbers) → total n ≡ size
            → IsFound parts n [] f) }
    {
        let places = vec![in alloc; None; size]?;
        Ok(Found {
            order: Vec::new(alloc),
            finder: Vec::new(alloc),
            places,
        })
    }

    /// Adds what the roots of one more list reach.
    pub(crate) fn add(
        &mut self,
        alloc: Global,
        graph: &ComponentGraph<'_, '_>,
        roots: &[usize],
    ) -> Result<(), AllocError>
        requires component { IsComponent graph.now }
        requires sized { length self.old.places.items ≡ total graph.now.numbers.now }
        requires roots { All (λ x. x < total graph.now.numbers.now) roots.now }
        ensures sized { length self.new.places.items ≡ length self.old.places.items }
        ensures found { OnOk result (AddsList graph.now roots.now self.old self.new) }
    {
        if roots.is_empty() {
            return Ok(());
        }
        match find_all(alloc, graph, roots) {
            Ok(tree) => {
                let count = self.order.len();
                note_places(count, &tree.order, &mut self.places)?;
                self.order.extend_from_slice(&tree.order)?;
                put_after(count, &tree.finder, &mut self.finder)?;
                Ok(())
            }
            // Items name items alone that are there: an allocation failed.
            Err(_) => Err(AllocError),
        }
    }
}

/// Notes the position of each of these items, which come after so many others, unless it has one.
fn note_places(
    count: usize,
    items: &[usize],
    places: &mut Vec<Option<usize>>,
) -> Result<(), AllocError>
    requires { All (λ x. x < length places.old.items) items.now }
    ensures sized { length places.new.items ≡ length places.old.items }
    ensures noted { OnOk result (AreNoted count items.now places.old.items places.new.items) }
{
    for position in 0..items.len() {
        match count.checked_add(position) {
            Some(place) => note_place(items[position], place, places),
            None => return Err(AllocError),
        }
    }
    Ok(())
}

/// Notes the position of an item, unless it has one.
fn note_place(item: usize, place: usize, places: &mut Vec<Option<usize>>)
    requires { item < length places.old.items }
    ensures sized { length places.new.items ≡ length places.old.items }
    ensures noted { IsNoted item place places.old.items places.new.items }
{
    if places[item].is_none() {
        places[item] = Some(place);
    }
}
