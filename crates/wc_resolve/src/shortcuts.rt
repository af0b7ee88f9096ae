//! Shortcuts from types to others far below them, whose futures and streams are among theirs.

ghost use Rattle.std.specs.Prelude.{◌≡◌, ◌≤◌, ℕ, IfOk, IfSome, List, length, map};
ghost use Rattle.wc_resolve.specs.Futures.{AreFuturesEntries, IsFuturesEntry, entry_view};
ghost use Rattle.wc_resolve.specs.Shortcuts.{AreShortcuts, IsAfter, IsShortcut, shortcut_at};
ghost use Rattle.wc_resolve.specs.Views.{TypeView};

use crate::TypeId;
use crate::futures::{FuturesEntry, count_before, has_any};
use std::alloc::{AllocError, Global};

/// A type below another one, whose futures and streams are among those of that one.
#[derive(Clone, Copy)]
pub(crate) struct Shortcut {
    /// The type below.
    pub(crate) target: TypeId,
    /// How many futures and streams are before its own, at most `u64::MAX`.
    pub(crate) before: u64,
    /// How many steps from a type to one of its parts the shortcut stands for, at most `u32::MAX`.
    steps: u32,
}

/// The index of the part that has the most futures and streams, of several the first, by how many there are up to each
/// part; 0 if there is none.
fn longest_part(ends: &[u64]) -> usize
    ensures { result ≤ length ends.now }
{
    let mut longest = 0;
    let mut most = 0u64;
    let mut before = 0u64;
    for index in 0..ends.len() {
        let count = ends[index].saturating_sub(before);
        if count > most {
            longest = index;
            most = count;
        }
        before = ends[index];
    }
    longest
}

/// The step from a type to the part that has the most futures and streams, if it has parts.
fn longest_step(entry: &FuturesEntry) -> Option<Shortcut>
    ensures { (types : List TypeView) (x : ℕ) →
        IsFuturesEntry types x (entry_view entry.now) → IfSome result (IsShortcut types x) }
{
    let index = longest_part(&entry.ends);
    if index < entry.parts.len() {
        Some(Shortcut {
            target: entry.parts[index],
            before: count_before(&entry.ends, index),
            steps: 1,
        })
    } else {
        None
    }
}

/// The shortcut of a type, if it has one.
pub(crate) fn shortcut_of(shortcuts: &[Option<Shortcut>], id: TypeId) -> Option<Shortcut>
    ensures { result ≡ shortcut_at shortcuts.now id.0 }
{
    match shortcuts.get(id.0 as usize) {
        Some(shortcut) => *shortcut,
        None => None,
    }
}

/// One shortcut after another, as one.
fn joined(first: Shortcut, second: Shortcut) -> Shortcut
    ensures { IsAfter first second result }
{
    Shortcut {
        target: second.target,
        before: first.before.saturating_add(second.before),
        steps: first.steps.saturating_add(second.steps),
    }
}

/// A shortcut, and the two that follow it where these are equally long. So a path of n types is passed by some log n
/// shortcuts, from wherever to wherever.
fn lengthened(shortcuts: &[Option<Shortcut>], first: Shortcut) -> Shortcut
    ensures { (types : List TypeView) (x : ℕ) → AreShortcuts types shortcuts.now →
        IsShortcut types x first → IsShortcut types x result }
{
    let Some(second) = shortcut_of(shortcuts, first.target) else {
        return first;
    };
    let Some(third) = shortcut_of(shortcuts, second.target) else {
        return first;
    };
    if second.steps == third.steps {
        let both = joined(first, second);
        joined(both, third)
    } else {
        first
    }
}

/// The shortcut of the type at an index, by those of the types below it.
fn shortcut_from(
    shortcuts: &[Option<Shortcut>],
    entries: &[FuturesEntry],
    index: usize,
) -> Option<Shortcut>
    ensures { (types : List TypeView) → AreFuturesEntries types (map entry_view entries.now) →
        AreShortcuts types shortcuts.now → IfSome result (IsShortcut types index) }
{
    let entry = entries.get(index)?;
    let first = longest_step(entry)?;
    Some(lengthened(shortcuts, first))
}

/// The shortcuts of all types; none where no type has futures or streams. In `order` each type is after those that it
/// refers to, so each shortcut is made of those below it.
pub(crate) fn shortcuts_along(
    alloc: Global,
    entries: &[FuturesEntry],
    order: &[usize],
) -> Result<Vec<Option<Shortcut>>, AllocError>
    ensures { IfOk result (λ v. (types : List TypeView) →
        AreFuturesEntries types (map entry_view entries.now) → AreShortcuts types v.items) }
{
    if !has_any(entries) {
        return Ok(Vec::new(alloc));
    }
    let mut shortcuts = vec![in alloc; None; entries.len()]?;
    for index in order {
        let shortcut = shortcut_from(&shortcuts, entries, *index);
        if *index < shortcuts.len() {
            shortcuts[*index] = shortcut;
        }
    }
    Ok(shortcuts)
}
