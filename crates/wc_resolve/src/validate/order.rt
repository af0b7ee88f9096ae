//! An order of all types in which each is after those that it refers to, unless there is a cycle.

ghost use Rattle.std.specs.Prelude.{◌≡◌, ◌<◌, ℕ, ◌++◌, IfOk, IfErr, OnOk, Contains, length, map};
ghost use Rattle.std.specs.List.{range_with_len};
ghost use Rattle.wc_resolve.specs.Fault.{IsOrderCause};
ghost use Rattle.wc_resolve.specs.Views.{type_view};
ghost use Rattle.wc_resolve.specs.Kinds.{IsChildrenFirst, LeadWithin, children};

use crate::kinds::referenced_indices;
use crate::{Part, ResolveFault, TypeDef};
use std::alloc::{AllocError, AllocFailed, Global};
use wc_texts::Refused;

/// Why there is no order.
#[derive(Clone, Copy)]
pub(crate) enum OrderFault {
    /// An allocation failed.
    Memory,
    /// The type at this index refers to itself, directly or through others.
    Cycle(usize),
}

impl From<AllocError> for OrderFault {
    ghost use Rattle.std.specs.Prelude.{◌≡◌};
    ghost use Rattle.wc_resolve.specs.declared.validate.order.OrderFault.TheVariants.{Memory};

    ghost from_gives = { λ _ e. e ≡ Memory };

    fn from(_e: AllocError) -> OrderFault {
        OrderFault::Memory
    }
}

impl<T: Drop> From<AllocFailed<T>> for OrderFault {
    ghost use Rattle.std.specs.Prelude.{◌≡◌};
    ghost use Rattle.wc_resolve.specs.declared.validate.order.OrderFault.TheVariants.{Memory};

    ghost from_gives = { λ _ e. e ≡ Memory };

    fn from(_e: AllocFailed<T>) -> OrderFault {
        OrderFault::Memory
    }
}

impl From<OrderFault> for Refused<ResolveFault, Part> {
    ghost use Rattle.wc_resolve.specs.Refusals.{IsOrderRefusal};

    ghost from_gives = { IsOrderRefusal };

    fn from(fault: OrderFault) -> Self {
        match fault {
            OrderFault::Memory => Refused::without_place(ResolveFault::Memory),
            OrderFault::Cycle(index) => Refused {
                fault: ResolveFault::Cycle,
                place: Some(Part::TypeDef(index)),
            },
        }
    }
}

/// How far the walk is with a type.
#[derive(Clone, Copy)]
enum Progress {
    /// It was not entered.
    New,
    /// The types that it refers to are being visited.
    Open,
    /// It is in the order.
    Done,
}

/// A step that is left to do at the type at an index.
#[derive(Clone, Copy)]
enum IndexStep {
    Enter(usize),
    Leave(usize),
}

/// Steps that enter each type once, in the order of the indices.
fn first_steps(alloc: Global, count: usize) -> Result<Vec<IndexStep>, AllocError>
    ensures { IfOk result (λ v. v.items ≡ map IndexStep.Enter (range_with_len 0 count)) }
{
    (0..count)
        .map(|index| IndexStep::Enter(index))
        .collect(alloc)
}

/// The indices of the types that the type at an index refers to.
pub(crate) fn children(
    alloc: Global,
    types: &[TypeDef],
    index: usize,
) -> Result<Vec<usize>, AllocError>
    requires { index < length types.now }
    ensures { IfOk result (λ v. v.items ≡ children (map type_view types.now) index) }
{
    referenced_indices(alloc, &types[index].kind)
}

/// Appends steps that enter the types that the type at an index refers to.
fn enter_children(
    alloc: Global,
    types: &[TypeDef],
    index: usize,
    steps: &mut Vec<IndexStep>,
) -> Result<(), AllocError>
    requires { index < length types.now }
    ensures { OnOk result (steps.new.items ≡
        steps.old.items ++ map IndexStep.Enter (children (map type_view types.now) index)) }
{
    let indices = children(alloc, types, index)?;
    for child in &indices {
        steps.push(IndexStep::Enter(*child))?;
    }
    Ok(())
}

/// The indices of all types, each after those that it refers to; the fault `Cycle` where there is no such order.
pub(crate) fn children_first(alloc: Global, types: &[TypeDef]) -> Result<Vec<usize>, OrderFault>
    requires { LeadWithin (map type_view types.now) (length types.now) }
    ensures order { IfOk result (λ o.
        IsChildrenFirst (children (map type_view types.now)) o.items) }
    ensures within { IfOk result (λ o. (x : ℕ) → Contains o.items x → x < length types.now) }
    ensures all { IfOk result (λ o. (x : ℕ) → x < length types.now → Contains o.items x) }
    ensures fault { IfErr result (IsOrderCause (map type_view types.now)) }
{
    let mut progress = vec![in alloc; Progress::New; types.len()]?;
    let mut steps = first_steps(alloc, types.len())?;
    let mut order = Vec::new(alloc);
    'steps: while let Some(step) = steps.pop() {
        match step {
            IndexStep::Leave(index) => {
                progress[index] = Progress::Done;
                order.push(index)?;
            }
            IndexStep::Enter(index) => match progress[index] {
                Progress::Done => {}
                Progress::Open => return Err(OrderFault::Cycle(index)),
                Progress::New => {
                    progress[index] = Progress::Open;
                    steps.push(IndexStep::Leave(index))?;
                    enter_children(alloc, types, index, &mut steps)?;
                }
            },
        }
    }
    Ok(order)
}
