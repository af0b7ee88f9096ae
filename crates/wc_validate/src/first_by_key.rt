//! Positions of first exports by the keys and names of functions.

ghost use Rattle.std.specs.Prelude.{◌≡◌, ◌∷◌, [], List, None, ℕ};
ghost use Rattle.wc_resolve.specs.Views.{KeyView, key_view};
ghost use Rattle.wc_validate.specs.FirstByKey.{position_called, IsKeyKept, IsNameKept, IsPositionKept};
ghost use Rattle.wc_validate.specs.Private.Imports.AdapterFunctions.{ArePositionsAdded};

use crate::imports::instances::one_entry;
use std::alloc::{AllocError, Global};
use wc_maps::{Map, Seed};
use wc_resolve::WorldKey;

/// Positions by a key and a name.
#[derive(Drop)]
pub(crate) struct FirstByKey {
    keys: Map<WorldKey, Map<String, usize>>,
}

/// Keeps a position under a name, if there is none yet.
pub(crate) fn keep_name(
    alloc: Global,
    names: &mut Map<String, usize>,
    name: &str,
    position: usize,
) -> Result<(), AllocError>
    ensures kept { IsNameKept names.old.entries names.new.entries name.now position result }
    ensures firsts { ArePositionsAdded names.old.entries names.new.entries
        ((name.now, position) ∷ []) result }
{
    if names.contains_key(name) {
        return Ok(());
    }
    names.insert(String::from_str(alloc, name)?, position)?;
    Ok(())
}

/// Keeps a position under a key, if there is none yet.
pub(crate) fn keep_key(
    alloc: Global,
    keys: &mut Map<WorldKey, usize>,
    key: &WorldKey,
    position: usize,
) -> Result<(), AllocError>
    ensures { IsKeyKept keys.old.entries keys.new.entries key.now position result }
{
    if keys.contains_key(key) {
        return Ok(());
    }
    keys.insert(key.clone(alloc)?, position)?;
    Ok(())
}

impl FirstByKey {
    /// No positions.
    pub(crate) fn new(alloc: Global, seed: Seed) -> FirstByKey
        ensures { (key : KeyView) (name : List ℕ) → position_called result key name ≡ None }
    {
        FirstByKey {
            keys: Map::with_hasher(alloc, seed),
        }
    }

    /// The position under a key and a name.
    pub(crate) fn position(&self, key: &WorldKey, name: &str) -> Option<usize>
        ensures { result ≡ position_called self.now (key_view key.now) name.now }
    {
        self.keys.get(key)?.get(name).copied()
    }

    /// Keeps a position under a key and a name, if there is none yet.
    pub(crate) fn keep(
        &mut self,
        alloc: Global,
        key: &WorldKey,
        name: &str,
        position: usize,
    ) -> Result<(), AllocError>
        ensures { IsPositionKept self.old self.new key.now name.now position result }
    {
        if let Some(names) = self.keys.get_mut(key) {
            return keep_name(alloc, names, name, position);
        }
        let seed = *self.keys.hasher();
        let names = one_entry(alloc, seed, name, position)?;
        self.keys.insert(key.clone(alloc)?, names)?;
        Ok(())
    }
}
