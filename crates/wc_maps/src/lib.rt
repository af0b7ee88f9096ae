//! Maps that no choice of keys makes slow: maps that hash under a seed, and a map that goes by the order of its keys.
//!
//! If the hash of a map is known, keys can be chosen that collide, and each look-up takes time in proportion to their
//! number. Here a map either hashes under a [`Seed`], which whoever chooses the keys doesn't know, or it compares
//! keys. Such sets also search lists of texts.
#![tactic(auto)]

mod ordered_map;
mod seed;
mod texts;

use indexmap::{IndexMap, IndexSet};
pub use ordered_map::OrderedMap;
pub use seed::Seed;
pub use texts::{first_missing, first_outside, first_repeated, has_text, is_in_set, text_set};

/// An `IndexMap` that hashes under a seed. `*map.hasher()` is its seed, for other maps of the same keys.
pub type Map<K, V> = IndexMap<K, V, Seed>;

/// An `IndexSet` that hashes under a seed.
pub type Set<T> = IndexSet<T, Seed>;
