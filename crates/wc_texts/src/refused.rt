//! A fault with its place.

ghost use Rattle.std.specs.Prelude.{◌≡◌, None};

use std::alloc::{AllocError, AllocFailed};

/// A refusal: a fault, and its place.
#[derive(Debug, PartialEq, Eq, Drop)]
pub struct Refused<F, P> {
    /// The fault.
    pub fault: F,
    /// The place of the fault; `None` where it is about nothing that has a place of its own, and where an allocation
    /// failed.
    pub place: Option<P>,
}

impl<F, P> Refused<F, P> {
    /// A refusal without a place.
    pub fn without_place(fault: F) -> Self
        ensures fault { result.fault ≡ fault }
        ensures place { result.place ≡ None }
    {
        Refused { fault, place: None }
    }
}

impl<F: From<AllocError>, P> From<AllocError> for Refused<F, P> {
    ghost from_gives = { λ e r. F.from_gives e r.fault × (r.place ≡ None) };

    fn from(e: AllocError) -> Self {
        Refused::without_place(F::from(e))
    }
}

impl<T: Drop, F: From<AllocFailed<T>>, P> From<AllocFailed<T>> for Refused<F, P> {
    ghost from_gives = { λ e r. F.from_gives e r.fault × (r.place ≡ None) };

    fn from(e: AllocFailed<T>) -> Self {
        Refused::without_place(F::from(e))
    }
}
