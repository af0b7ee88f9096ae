//! Vectors (WebAssembly core specification, 5.1.3).

ghost use Rattle.std.specs.Prelude.{◌≡◌, ◌++◌, ℕ, List, OnOk};
ghost use Rattle.std.specs.List.{flat_map};
ghost use Rattle.wc_write.specs.Text.{vector_text};

use crate::numbers::put_number;
use std::alloc::AllocError;

/// An item that can be written.
pub(crate) trait Written: Sized {
    // The bytes that are written.
    ghost text: { Self → List ℕ };

    /// Appends the item.
    fn put(&self, out: &mut Vec<u8>) -> Result<(), AllocError>
        ensures { OnOk result (out.new.items ≡ out.old.items ++ text self.now) };
}

/// Appends items, one after another.
pub(crate) fn put_all<T: Written>(out: &mut Vec<u8>, items: &[T]) -> Result<(), AllocError>
    ensures { OnOk result (out.new.items ≡ out.old.items ++ flat_map T.text items.now) }
{
    for item in items {
        item.put(out)?;
    }
    Ok(())
}

/// Appends the number of items, and the items.
pub(crate) fn put_vector<T: Written>(out: &mut Vec<u8>, items: &[T]) -> Result<(), AllocError>
    ensures { OnOk result (out.new.items ≡ out.old.items ++ vector_text T.text items.now) }
{
    put_number(out, items.len() as u64)?;
    put_all(out, items)
}
