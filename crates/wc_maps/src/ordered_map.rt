//! A map in the order of insertion that goes by the order of its keys.

ghost use Rattle.std.specs.Prelude.{◌≡◌, [], ◌∷◌, ◌++◌, length, None, OnOk, OnErr};
ghost use Rattle.std.specs.Option.{option_copied};
ghost use Rattle.std.specs.Map.{lookup};
ghost use Rattle.indexmap.specs.IndexMap.{insert_entry};
ghost use Rattle.wc_maps.specs.OrderedMap.{first_position};

use std::alloc::{AllocError, Global};
use std::collections::BTreeMap;
use std::fmt::{self, Debug, Formatter};
use std::marker::Model;

/// Entries in the order of insertion. A look-up among n of them takes some log n comparisons, whatever the keys are.
#[derive(Drop)]
pub struct OrderedMap<K: Ord + Copy, V> {
    positions: BTreeMap<K, usize>,
    entries: Vec<(K, V)>,
}

impl<K: Ord + Copy, V> Model for OrderedMap<K, V> {
    ghost use Rattle.indexmap.specs.Layout.{Rows, rows_code};
    ghost use Rattle.wc_maps.specs.OrderedMap.{ArePositions};

    ghost Value = { Rows K V };

    ghost coded = { rows_code K.code V.code };

    ghost view = { λ m. record { entries = m.entries.items; capacity = 0 } };

    ghost invariant = { λ m. ArePositions K.eq K.cmp m.positions m.entries.items };
}

impl<K: Ord + Copy, V> OrderedMap<K, V> {
    /// No entries.
    pub fn new(alloc: Global) -> OrderedMap<K, V>
        ensures { result.entries ≡ [] }
    {
        OrderedMap {
            positions: BTreeMap::new(alloc),
            entries: Vec::new(alloc),
        }
    }

    /// The number of entries.
    pub fn len(&self) -> usize
        ensures { result ≡ length self.now.entries }
    {
        self.entries.len()
    }

    /// The entries, in the order in which their keys were first put in.
    pub fn entries(&self) -> &[(K, V)]
        ensures { result.now ≡ self.now.entries }
    {
        &self.entries
    }

    /// The value under a key; `None` where there is none.
    pub fn get(&self, key: &K) -> Option<&V>
        ensures { option_copied result ≡ lookup (K.eq key.now) self.now.entries }
    {
        match self.positions.get(key) {
            Some(position) => Some(&self.entries[*position].1),
            None => None,
        }
    }

    /// Puts a value under a key. A key that is there keeps its position; a new one goes last.
    ///
    /// # Errors
    ///
    /// An allocation failed. The map is unchanged.
    pub fn insert(&mut self, key: K, value: V) -> Result<(), AllocError>
    where
        V: Drop,
        ensures entries { OnOk result
            (self.new.entries ≡ insert_entry K.eq self.old.entries key value) }
        ensures err { OnErr result (self.new.entries ≡ self.old.entries) }
    {
        let position = self.positions.get(&key).copied();
        match position {
            Some(position) => {
                self.entries[position].1 = value;
                Ok(())
            }
            None => self.push(key, value),
        }
    }

    /// Puts a value last, under a key that has none.
    fn push(&mut self, key: K, value: V) -> Result<(), AllocError>
    where
        V: Drop,
        requires { first_position (K.eq key) self.old.entries ≡ None }
        ensures entries { OnOk result (self.new.entries ≡ self.old.entries ++ (key, value) ∷ []) }
        ensures err { OnErr result (self.new.entries ≡ self.old.entries) }
    {
        self.entries.reserve(1)?;
        self.positions.insert(key, self.entries.len())?;
        self.entries.push_reserved((key, value));
        Ok(())
    }
}

impl<K: Ord + Copy + Debug, V: Debug> Debug for OrderedMap<K, V> {
    fn fmt<W: fmt::Write>(&self, f: &mut Formatter<W>) -> fmt::Result {
        let mut map = f.debug_map();
        for entry in &self.entries {
            map.entry(&entry.0, &entry.1);
        }
        map.finish()
    }
}
