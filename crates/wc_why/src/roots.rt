//! Where the paths begin that begin with an item.

ghost use Rattle.std.specs.Prelude.{◌≡◌, ◌<◌, ℕ, IfOk, IfSome, List, None, length, map};
ghost use Rattle.std.specs.List.{slice_get};
ghost use Rattle.wc_why.specs.Part.{PartView, begin_view, part_view};
ghost use Rattle.wc_why.specs.Private.Numbers.{AreNumbers, place_of, total};
ghost use Rattle.wc_why.specs.Private.Roots.{AreFirsts, AreFirstsOf, IsBeginNoted, IsRootNoted, is_before};

use crate::numbers::Numbers;
use crate::part::{Begin, Part};
use std::alloc::{AllocError, Global};

/// For each number the position of the root at which paths begin that begin with its item, among where paths may begin in its
/// part: the first root of the first list.
pub(crate) fn first_begins(
    alloc: Global,
    parts: &[Part<'_>],
    numbers: &Numbers,
) -> Result<Vec<Option<usize>>, AllocError>
    requires { AreNumbers (map part_view parts.now) numbers.now }
    ensures { IfOk result (λ v. AreFirsts (map part_view parts.now) numbers.now v.items) }
{
    let mut firsts = vec![in alloc; None; numbers.len()]?;
    for position in 0..parts.len() {
        note_begins(numbers, position, &parts[position].begins, &mut firsts);
    }
    Ok(firsts)
}

/// Notes where paths may begin in a part.
fn note_begins(
    numbers: &Numbers,
    part: usize,
    begins: &[Begin<'_>],
    firsts: &mut Vec<Option<usize>>,
)
    requires sized { length firsts.old.items ≡ total numbers.now }
    requires none { (x : ℕ) → (place_of numbers.now x).0 ≡ part
        → IfSome (slice_get firsts.old.items x) (λ first. first ≡ None) }
    ensures { (parts : List PartView) → AreNumbers parts numbers.now → AreFirstsOf numbers.now part
        (map begin_view begins.now) firsts.old.items firsts.new.items }
{
    for position in 0..begins.len() {
        note_root(
            numbers,
            (part, begins[position].item),
            begins,
            position,
            firsts,
        );
    }
}

/// Notes a root at the number of its item, if it has one.
fn note_root(
    numbers: &Numbers,
    item: (usize, usize),
    begins: &[Begin<'_>],
    position: usize,
    firsts: &mut Vec<Option<usize>>,
)
    requires begin { position < length begins.now }
    requires sized { length firsts.old.items ≡ total numbers.now }
    ensures sized { length firsts.new.items ≡ length firsts.old.items }
    ensures noted { IsRootNoted numbers.now item (map begin_view begins.now) position
        firsts.old.items firsts.new.items }
{
    match numbers.number(item.0, item.1) {
        Some(number) => note_begin(begins, position, number, firsts),
        None => {}
    }
}

/// Notes a root at an item's number, if it is of an earlier list than the one that is noted there.
fn note_begin(begins: &[Begin<'_>], position: usize, number: usize, firsts: &mut Vec<Option<usize>>)
    requires begin { position < length begins.now }
    requires there { number < length firsts.old.items }
    ensures sized { length firsts.new.items ≡ length firsts.old.items }
    ensures noted { IsBeginNoted (map begin_view begins.now) position number firsts.old.items
        firsts.new.items }
{
    if is_before(begins, position, firsts[number]) {
        firsts[number] = Some(position);
    }
}

/// Whether a root is of an earlier list than another one, or there is no other.
fn is_before(begins: &[Begin<'_>], position: usize, other: Option<usize>) -> bool
    requires { position < length begins.now }
    ensures { result ≡ is_before (map begin_view begins.now) position other }
{
    match other {
        Some(other) => match begins.get(other) {
            Some(other) => begins[position].list < other.list,
            None => true,
        },
        None => true,
    }
}
