//! Maps from names, of objects.

use crate::from_json::FromJson;
use crate::paths::{at_key, fault_here};
use crate::{JsonFault, Problem};
use json::Value;
use std::alloc::Global;
use wc_maps::{Map, Seed};

/// A map from names, in the order of the object's members.
impl<T: FromJson> FromJson for Map<String, T> {
    ghost use Rattle.std.specs.Prelude.{List, ℕ, map, string_bytes};
    ghost use Rattle.wc_json.specs.Maps.{name_map};

    ghost View = { List (List ℕ × T.View) };

    ghost view = { λ m. map (λ e. (string_bytes e.0, T.view e.1)) m.entries };

    ghost reading = { name_map T.reading };

    fn from_json(
        alloc: Global,
        seed: Seed,
        value: &Value<'_>,
    ) -> Result<Map<String, T>, JsonFault> {
        let Value::Object(members) = value else {
            return Err(fault_here(alloc, Problem::NotAnObject));
        };
        let mut map = Map::with_capacity_and_hasher(alloc, members.len(), seed)?;
        for member in members {
            let entry = at_key(alloc, member.0, T::from_json(alloc, seed, &member.1))?;
            map.insert(String::from_str(alloc, member.0)?, entry)?;
        }
        Ok(map)
    }
}
