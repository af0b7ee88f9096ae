//! The seed of the maps of rows.

use wc_maps::Seed;

/// The seed of the maps that rows make, and of those that calls make for them. It is the same in each run, where a
/// program draws its own.
pub fn row_seed() -> Seed {
    Seed::new(1, 2)
}
