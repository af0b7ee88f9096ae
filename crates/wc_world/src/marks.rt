//! For which exports types are settled: nothing is left to add of what they lead to.

ghost use Rattle.std.specs.Prelude.{◌≡◌, ◌<◌, ◌==◌, ℕ, Some, OnOk, cond, length};
ghost use Rattle.wc_world.specs.Private.Marks.{holds, is_within, mark_of};
ghost use Rattle.wc_world.specs.Used.{used_view};

use crate::live::is_used;
use crate::used::UsedInterfaces;
use std::alloc::AllocError;
use wc_resolve::{InterfaceId, KnownTypes, LiveTypes, TypeId};

/// Exported interfaces: one, and those that use it; all, where there is none.
pub(crate) type Reach = Option<InterfaceId>;

/// For which exported interfaces a type is settled, if for any.
pub(crate) type Mark = Option<Reach>;

/// Whether an interface is the one of a reach, or one that it uses.
pub(crate) fn is_within(used: &UsedInterfaces, reach: Reach, other: InterfaceId) -> bool
    ensures { result ≡ is_within (used_view used.now) reach other.0 }
{
    match reach {
        Some(id) => other == id || is_used(used, id, other),
        None => false,
    }
}

/// Whether a type of a mark is settled for all of a reach.
fn holds(used: &UsedInterfaces, reach: Reach, mark: Mark) -> bool
    ensures { result ≡ holds (is_within (used_view used.now) reach) mark }
{
    match mark {
        Some(Some(other)) => is_within(used, reach, other),
        Some(None) => true,
        None => false,
    }
}

/// The mark of a type.
pub(crate) fn mark_of(settled: &[Mark], ty: TypeId) -> Mark
    ensures { result ≡ mark_of settled.now ty.0 }
{
    match settled.get(ty.0 as usize) {
        Some(mark) => *mark,
        None => None,
    }
}

/// Makes room for the mark of a type. No mark changes.
fn make_room(settled: &mut Vec<Mark>, ty: TypeId) -> Result<(), AllocError>
    ensures room { OnOk result (ty.0 < length settled.new.items) }
    ensures same { (t : ℕ) → mark_of settled.new.items t ≡ mark_of settled.old.items t }
{
    let index = ty.0 as usize;
    if index >= settled.len() {
        settled.resize(index + 1, None)?;
    }
    Ok(())
}

/// Marks a type as settled for a reach.
pub(crate) fn mark(settled: &mut Vec<Mark>, ty: TypeId, reach: Reach) -> Result<(), AllocError>
    ensures { OnOk result ((t : ℕ) → mark_of settled.new.items t
        ≡ cond (t == ty.0) (Some reach) (mark_of settled.old.items t)) }
{
    make_room(settled, ty)?;
    settled[ty.0 as usize] = Some(reach);
    Ok(())
}

/// The types that are settled for all of a reach: those that are live, and those whose marks say so.
#[derive(Clone, Copy)]
pub(crate) struct KnownTo<'a> {
    pub(crate) used: &'a UsedInterfaces,
    pub(crate) live: &'a LiveTypes,
    pub(crate) settled: &'a [Mark],
    pub(crate) reach: Reach,
}

impl KnownTypes for KnownTo<'_> {
    ghost use Rattle.wc_world.specs.Private.Marks.{known_to};
    ghost use Rattle.wc_world.specs.Used.{used_view};

    ghost known_of = { λ k. known_to (used_view k.used.now) k.live.now k.settled.now k.reach };

    fn has(&self, id: TypeId) -> bool {
        self.live.contains(id) || holds(self.used, self.reach, mark_of(self.settled, id))
    }
}

/// The reach of two that is within the other one, if one is.
fn joined(used: &UsedInterfaces, reach: Reach, mark: Mark) -> Reach {
    match mark {
        Some(Some(other)) => {
            if is_within(used, reach, other) {
                return reach;
            }
            Some(other)
        }
        Some(None) => reach,
        None => reach,
    }
}

impl KnownTo<'_> {
    /// Goes on from a reach to that of a type, if it is marked, and not live.
    pub(crate) fn joined(&self, reach: Reach, id: TypeId) -> Reach {
        if self.live.contains(id) {
            return reach;
        }
        joined(self.used, reach, mark_of(self.settled, id))
    }
}
