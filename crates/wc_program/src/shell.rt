//! The shell that a program runs in.

use std::alloc::Global;
use wc_maps::Seed;

/// The files and the outputs of a program, and the seed of its maps.
#[derive(Drop)]
pub struct Shell<F, O, E> {
    /// The heap that memory is taken from.
    pub alloc: Global,
    /// The seed of the maps that are made.
    pub seed: Seed,
    /// The files that it reads and writes.
    pub files: F,
    /// Where it prints.
    pub out: O,
    /// Where it prints why it failed, if that is elsewhere; else `()`.
    pub err: E,
}
