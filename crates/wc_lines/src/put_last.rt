//! Answers that own much memory.
//!
//! The function that puts one and drops it doesn't know its type, and so none of its variants, which makes proofs
//! short.

use crate::lines::Lines;
use crate::values::put_fault_text;
use std::alloc::Global;
use std::fmt::Display;
use wc_texts::FaultText;

/// An answer about something, as lines show it.
pub trait PutAbout<A> {
    /// Appends the answer.
    fn put_about(&self, alloc: Global, about: &A, out: &mut Lines);
}

/// Appends an answer, and drops it.
pub fn put_last_about<A, V: PutAbout<A> + Drop>(
    alloc: Global,
    about: &A,
    answer: V,
    out: &mut Lines,
) {
    answer.put_about(alloc, about, out);
}

/// Appends the text of a fault on a line, and drops the fault.
pub fn put_last_fault<F: FaultText + Display + Drop>(alloc: Global, fault: F, out: &mut Lines) {
    put_fault_text(alloc, &fault, out);
}
