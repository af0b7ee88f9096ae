//! Laws of keys: contracts of functions that do nothing when they run.

ghost use Rattle.std.specs.Prelude.{◌≡◌, IsTrue};

use crate::WorldKey;
use std::hash::Hash;

/// Keys that are equal are hashed alike: both write the same input to a hasher. It does nothing when it runs.
pub fn keys_hash_alike(left: &WorldKey, right: &WorldKey)
    ensures { IsTrue (⟦<WorldKey as PartialEq>⟧.eq left.now right.now)
        → ⟦<WorldKey as Hash>⟧.hash_input left.now
        ≡ ⟦<WorldKey as Hash>⟧.hash_input right.now }
{}
