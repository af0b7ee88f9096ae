//! Large values on the heap. Who owns one there owns a pointer alone, and lends the value at little cost for the proof.

ghost use Rattle.std.specs.Prelude.{◌≡◌, IfOk};

use std::alloc::{AllocError, Global};

/// A value on the heap.
///
/// # Errors
///
/// `AllocError`: an allocation failed.
pub fn heaped<T: Drop>(alloc: Global, value: T) -> Result<Box<T>, AllocError>
    ensures { IfOk result (λ b. b.value ≡ value) }
{
    Ok(Box::new(alloc, value)?)
}
