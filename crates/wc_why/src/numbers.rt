//! The items of all parts in one row, by numbers.

ghost use Rattle.std.specs.Prelude.{◌≡◌, ◌<◌, ◌≤◌, ℕ, IfOk, IfSome, length, map, slice_index_or};

use crate::part::Part;
use std::alloc::{AllocError, Global};
use wc_graph::Graph;

/// The items of all parts in one row, one part after another.
#[derive(Drop)]
pub(crate) struct Numbers {
    /// For each part the number of its first item.
    pub(crate) starts: Vec<usize>,
    /// For each number the part that has the item.
    pub(crate) owners: Vec<usize>,
    ghost within: { (x : ℕ) → x < length owners.items
        → slice_index_or starts.items (slice_index_or owners.items x 0) 0 ≤ x },
}

impl Numbers {
    ghost use Rattle.wc_why.specs.Part.{part_view};
    ghost use Rattle.wc_why.specs.Private.Numbers.{AreNumbers, number_of, place_of};

    /// The numbers of the items of parts.
    pub(crate) fn of(alloc: Global, parts: &[Part<'_>]) -> Result<Numbers, AllocError>
        ensures { IfOk result (AreNumbers (map part_view parts.now)) }
    {
        let mut starts = Vec::new(alloc);
        let mut owners = Vec::new(alloc);
        for position in 0..parts.len() {
            let start = owners.len();
            starts.push(start)?;
            let own = vec![in alloc; position; parts[position].rows.len()]?;
            owners.extend_from_slice(&own)?;
        }
        Ok(Numbers { starts, owners })
    }

    /// How many items there are.
    pub(crate) fn len(&self) -> usize
        ensures { result ≡ length self.now.owners.items }
    {
        self.owners.len()
    }

    /// The number of an item of a part; `None` where there is none.
    pub(crate) fn number(&self, part: usize, item: usize) -> Option<usize>
        ensures number { result ≡ number_of self.now (part, item) }
        ensures below { IfSome result (λ x. x < length self.now.owners.items) }
    {
        let start = *self.starts.get(part)?;
        let number = start.checked_add(item)?;
        if *self.owners.get(number)? != part {
            return None;
        }
        Some(number)
    }

    /// The part that has the item of a number, and the item's number there.
    pub(crate) fn place(&self, number: usize) -> (usize, usize)
        requires { number < length self.now.owners.items }
        ensures { result ≡ place_of self.now number }
    {
        let part = self.owners[number];
        match self.starts.get(part) {
            Some(start) => (part, number - *start),
            None => (part, number),
        }
    }
}
