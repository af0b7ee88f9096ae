//! The graph of a component.

ghost use Rattle.std.specs.Prelude.{◌≡◌, ◌++◌, ◌+◌, ◌<◌, ℕ, All, OnOk, true, map};
ghost use Rattle.std.specs.Option.{option_map, option_to_list};
ghost use Rattle.wc_why.specs.Graph.{has_item};
ghost use Rattle.wc_why.specs.Part.{part_view};
ghost use Rattle.wc_why.specs.Private.Graph.{linked_number, names_by};
ghost use Rattle.wc_why.specs.Private.Numbers.{place_of, total};

use crate::links::{Linked, linked_at};
use crate::numbers::Numbers;
use crate::part::Part;
use std::alloc::{AllocError, Global};
use wc_graph::Graph;

/// The items of a component in one row, with what each names.
#[derive(Clone, Copy)]
pub(crate) struct ComponentGraph<'c, 'a> {
    /// The parts.
    pub(crate) parts: &'c [Part<'a>],
    /// The numbers of their items.
    pub(crate) numbers: &'c Numbers,
    /// The link of each item, if it has one; past the end there is none.
    pub(crate) links: &'c [Option<Linked<'a>>],
    ghost owned: { (x : ℕ) → x < total numbers.now
        → has_item (map part_view parts.now) (place_of numbers.now x) ≡ true },
    ghost below: { (x : ℕ) → x < total numbers.now → All (λ n. n < total numbers.now)
        (names_by (map part_view parts.now) numbers.now links.now x) },
}

impl<'c, 'a> Graph for ComponentGraph<'c, 'a> {
    ghost use Rattle.std.specs.Prelude.{length, map, true};
    ghost use Rattle.wc_why.specs.Part.{part_view};
    ghost use Rattle.wc_why.specs.Private.Graph.{names_by};

    ghost size = { λ g. length g.numbers.now.owners.items };

    ghost names = { λ g. names_by (map part_view g.parts.now) g.numbers.now g.links.now };

    ghost is_closed = { λ _ _. true };

    fn len(&self) -> usize {
        self.numbers.len()
    }

    fn put_names(
        &self,
        _alloc: Global,
        item: usize,
        out: &mut Vec<usize>,
    ) -> Result<bool, AllocError> {
        let (part, own) = self.numbers.place(item);
        put_after(item - own, self.parts[part].rows.row(own), out)?;
        put_linked(linked_at(self.links, item), out)?;
        Ok(true)
    }
}

/// Appends numbers after so many others.
pub(crate) fn put_after(
    count: usize,
    numbers: &[usize],
    out: &mut Vec<usize>,
) -> Result<(), AllocError>
    ensures { OnOk result (out.new.items ≡ out.old.items ++ map (λ k. count + k) numbers.now) }
{
    if count == 0 {
        out.extend_from_slice(numbers)?;
        return Ok(());
    }
    for number in numbers {
        match count.checked_add(*number) {
            Some(number) => out.push(number)?,
            None => return Err(AllocError),
        }
    }
    Ok(())
}

/// Appends the number that an item is linked to, if it is.
fn put_linked(linked: Option<Linked<'_>>, out: &mut Vec<usize>) -> Result<(), AllocError>
    ensures { OnOk result (out.new.items ≡ out.old.items
        ++ option_to_list (option_map linked_number linked.entry)) }
{
    match linked {
        Some(linked) => {
            out.push(linked.number)?;
            Ok(())
        }
        None => Ok(()),
    }
}
