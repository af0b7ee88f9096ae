//! Marks of types: a truth value for each index, and none past the end.

ghost use Rattle.std.specs.Prelude.{◌≡◌, ◌<◌, ℕ, Contains, IsTrue, OnOk, false, length, slice_set};
ghost use Rattle.wc_resolve.specs.Marks.{is_marked};
ghost use Rattle.wc_resolve.specs.Roots.{indices};

use crate::TypeId;
use std::alloc::AllocError;

/// Whether a type is marked.
pub(crate) fn is_marked(marks: &[bool], id: TypeId) -> bool
    ensures { result ≡ is_marked marks.now id.0 }
{
    match marks.get(id.0 as usize) {
        Some(mark) => *mark,
        None => false,
    }
}

/// Makes room for the mark of a type. No mark changes.
pub(crate) fn make_room(marks: &mut Vec<bool>, id: TypeId) -> Result<(), AllocError>
    ensures room { OnOk result (id.0 < length marks.new.items) }
    ensures same { (x : ℕ) → is_marked marks.new.items x ≡ is_marked marks.old.items x }
{
    let index = id.0 as usize;
    if index >= marks.len() {
        marks.resize(index + 1, false)?;
    }
    Ok(())
}

/// Takes the mark of a type away.
fn unmark_one(marks: &mut [bool], id: TypeId)
    ensures { marks.new ≡ slice_set marks.old id.0 false }
{
    let index = id.0 as usize;
    if index < marks.len() {
        marks[index] = false;
    }
}

/// Takes the marks of some types away.
pub(crate) fn unmark(marks: &mut [bool], ids: &[TypeId])
    ensures { (x : ℕ) → IsTrue (is_marked marks.new x)
        → IsTrue (is_marked marks.old x) × ¬ Contains (indices ids.now) x }
{
    for id in ids {
        unmark_one(marks, *id);
    }
}
