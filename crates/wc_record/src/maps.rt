//! Maps, as lists of their entries.

ghost use Rattle.std.specs.Prelude.{OnOk};
ghost use Rattle.json.specs.Json.{Json};
ghost use Rattle.wc_record.specs.Objects.{PutsJson};

use crate::to_json::{ToJson, begin_array, end_array};
use indexmap::IndexMap;
use json::Writer;
use std::alloc::AllocError;
use std::hash::{BuildHasher, Hash};

/// A type of values of maps that are written with their keys, of type `K`.
pub(crate) trait EntryToJson<K> {
    // The view that contracts have of an entry.
    ghost EntryView: { Type 0 };

    ghost entry_view: { K → Self → EntryView };

    // The JSON value that it is written as.
    ghost entry_json: { EntryView → Json };

    /// Writes the value, and the key that it is under, after what is written.
    ///
    /// # Errors
    ///
    /// `AllocError`: an allocation failed. How much is written then is left open.
    fn write_entry(&self, key: &K, out: &mut Writer) -> Result<(), AllocError>
        ensures { OnOk result (PutsJson out.old out.new
            (entry_json (entry_view key.now self.now))) };
}

/// The entries in order.
impl<K: Eq + Hash, V: EntryToJson<K>, S: BuildHasher> ToJson for IndexMap<K, V, S> {
    ghost use Rattle.std.specs.Prelude.{List, map};
    ghost use Rattle.wc_texts.specs.Shapes.{array_of};

    ghost View = { List V.EntryView };

    ghost view = { λ m. map (λ e. V.entry_view e.0 e.1) m.entries };

    ghost json = { λ entries. array_of (map V.entry_json entries) };

    fn write(&self, out: &mut Writer) -> Result<(), AllocError> {
        begin_array(out)?;
        for (key, value) in self.iter() {
            value.write_entry(key, out)?;
        }
        end_array(out)
    }
}
