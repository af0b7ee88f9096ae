//! A module that serves functions to the main module.

ghost use Rattle.std.specs.Prelude.{◌<◌, ◌^◌};
ghost use Rattle.wc_paths.specs.Counts.{counts_value};
ghost use Rattle.wc_paths.specs.Numbers.{item_count};

use wc_paths::Counts;
use wc_read::Export;

/// A module that serves functions to the main module, under its name.
#[derive(Clone, Copy)]
pub(crate) struct Server<'a> {
    /// Its name.
    pub(crate) name: &'a str,
    /// The exports that it serves.
    pub(crate) exports: &'a [Export<'a>],
    /// How many items it has of each kind.
    pub(crate) counts: Counts,
    ghost fits: { item_count (counts_value counts) < 2 ^ 64 },
}
