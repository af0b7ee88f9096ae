//! Imports, by the names of the Rust types.

use std::alloc::{AllocError, Global};
use std::fmt::Debug;
use wc_lines::lines::Lines;
use wc_names::Import;

/// A value that nothing else is left of. The function knows no variants, which makes its proof short.
fn put_last<T: Debug + Drop>(out: &mut Lines, value: T) {
    write!(out, "{value:?}");
}

/// A value that lines show.
pub(crate) trait Shown {
    /// Appends the value.
    fn put(&self, alloc: Global, out: &mut Lines);
}

impl Shown for Import {
    fn put(&self, alloc: Global, out: &mut Lines) {
        put_copy(alloc, self, out);
    }
}

impl Shown for Option<Import> {
    fn put(&self, alloc: Global, out: &mut Lines) {
        match self {
            Some(import) => put_copy(alloc, import, out),
            None => out.push_str("none"),
        }
    }
}

/// A value, as lines show it. Here and in the next two functions the value's type is not known, and so neither are its
/// variants, which makes proofs short.
pub(crate) fn put_shown<T: Shown + Drop>(alloc: Global, value: T, out: &mut Lines) {
    value.put(alloc, out);
}

/// A value that was made.
pub(crate) fn put_made<T: Shown + Drop>(
    alloc: Global,
    made: Result<T, AllocError>,
    out: &mut Lines,
) -> Result<(), AllocError> {
    put_shown(alloc, made?, out);
    Ok(())
}

/// A word, and after it a value, where there is one.
pub(crate) fn put_if_found<T: Shown + Drop>(
    alloc: Global,
    word: &str,
    found: Option<T>,
    out: &mut Lines,
) {
    if let Some(value) = found {
        out.push_str(word);
        put_shown(alloc, value, out);
    }
}

/// Appends the clone of an import.
pub fn put_copy(alloc: Global, import: &Import, out: &mut Lines) {
    match import.clone(alloc) {
        Ok(import) => put_last(out, import),
        Err(_) => out.lack_memory(),
    }
}
