//! Numbers in an order, and the position of each.

ghost use Rattle.std.specs.Prelude.{◌≡◌, ◌≢◌, ◌<◌, ℕ, IfOk, length};
ghost use Rattle.std.specs.List.{range_with_len, slice_index, slice_set, swap_remove};
ghost use Rattle.wc_gc.specs.Private.KeptOrder.{HasPosition};

use std::alloc::{AllocError, Global};

/// Numbers in an order, and the position of each that is left.
#[derive(Drop)]
pub struct KeptOrder {
    order: Vec<usize>,
    positions: Vec<usize>,
}

impl KeptOrder {
    /// The numbers below a count, in ascending order.
    pub fn of_all(alloc: Global, count: usize) -> Result<KeptOrder, AllocError>
        ensures order { IfOk result (λ p. p.order.items ≡ range_with_len 0 count) }
        ensures noted { IfOk result (λ p. (n : ℕ) → n < count → HasPosition p n) }
    {
        let order = numbers_below(alloc, count)?;
        let positions = Vec::from_slice(alloc, &order)?;
        Ok(KeptOrder { order, positions })
    }

    /// Takes a number out, and answers its position. The last number takes it.
    pub fn take_out(&mut self, number: usize) -> usize
        requires { HasPosition self.old number }
        ensures within { result < length self.old.order.items }
        ensures there { slice_index self.old.order.items result ≡ number }
        ensures order { self.new.order.items ≡ swap_remove self.old.order.items result number }
        ensures noted { (n : ℕ) → n ≢ number → HasPosition self.old n → HasPosition self.new n }
    {
        let position = self.positions[number];
        self.order.swap_remove(position);
        if position < self.order.len() {
            note(&mut self.positions, self.order[position], position);
        }
        position
    }
}

/// The numbers below a count, in ascending order.
fn numbers_below(alloc: Global, count: usize) -> Result<Vec<usize>, AllocError>
    ensures { IfOk result (λ v. v.items ≡ range_with_len 0 count) }
{
    (0..count).collect(alloc)
}

/// Notes the position of a number, if it has one.
fn note(positions: &mut [usize], number: usize, position: usize)
    ensures { positions.new ≡ slice_set positions.old number position }
{
    if number < positions.len() {
        positions[number] = position;
    }
}
