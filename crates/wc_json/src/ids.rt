//! Numbers below 2^32, and ids: indices in the lists of the text.

ghost use Rattle.std.specs.Prelude.{ℕ};
ghost use Rattle.json.specs.Value.{value_view};
ghost use Rattle.wc_json.specs.Fault.{NeedsNoMemory, Reads};
ghost use Rattle.wc_json.specs.Ids.{index};

use crate::from_json::FromJson;
use crate::paths::fault_here;
use crate::{JsonFault, Problem};
use json::Value;
use std::alloc::Global;
use wc_maps::Seed;
use wc_resolve::{InterfaceId, PackageId, TypeId, WorldId};

/// A number of decimal digits alone, below 2^32.
fn index(alloc: Global, value: &Value<'_>) -> Result<u32, JsonFault>
    ensures reads { Reads (λ n. n) result (index (value_view value.now)) }
    ensures no_memory { NeedsNoMemory result }
{
    let Some(number) = value.as_u64() else {
        return Err(fault_here(alloc, Problem::NotAnIndex));
    };
    match u32::try_from(number) {
        Ok(index) => Ok(index),
        Err(_) => Err(fault_here(alloc, Problem::NotAnIndex)),
    }
}

impl FromJson for u32 {
    ghost use Rattle.std.specs.Prelude.{ℕ};
    ghost use Rattle.wc_json.specs.Ids.{index};

    ghost View = { ℕ };

    ghost view = { λ n. n };

    ghost reading = { index };

    fn from_json(alloc: Global, _seed: Seed, value: &Value<'_>) -> Result<u32, JsonFault>
        ensures reads { Reads (λ n. n) result (index (value_view value.now)) }
        ensures no_memory { NeedsNoMemory result }
    {
        index(alloc, value)
    }
}

impl FromJson for TypeId {
    ghost use Rattle.std.specs.Prelude.{ℕ};
    ghost use Rattle.wc_json.specs.Ids.{index};

    ghost View = { ℕ };

    ghost view = { λ id. id.0 };

    ghost reading = { index };

    fn from_json(alloc: Global, _seed: Seed, value: &Value<'_>) -> Result<TypeId, JsonFault>
        ensures reads { Reads (λ id. id.0) result (index (value_view value.now)) }
        ensures no_memory { NeedsNoMemory result }
    {
        Ok(TypeId(index(alloc, value)?))
    }
}

impl FromJson for InterfaceId {
    ghost use Rattle.std.specs.Prelude.{ℕ};
    ghost use Rattle.wc_json.specs.Ids.{index};

    ghost View = { ℕ };

    ghost view = { λ id. id.0 };

    ghost reading = { index };

    fn from_json(alloc: Global, _seed: Seed, value: &Value<'_>) -> Result<InterfaceId, JsonFault>
        ensures reads { Reads (λ id. id.0) result (index (value_view value.now)) }
        ensures no_memory { NeedsNoMemory result }
    {
        Ok(InterfaceId(index(alloc, value)?))
    }
}

impl FromJson for WorldId {
    ghost use Rattle.std.specs.Prelude.{ℕ};
    ghost use Rattle.wc_json.specs.Ids.{index};

    ghost View = { ℕ };

    ghost view = { λ id. id.0 };

    ghost reading = { index };

    fn from_json(alloc: Global, _seed: Seed, value: &Value<'_>) -> Result<WorldId, JsonFault>
        ensures reads { Reads (λ id. id.0) result (index (value_view value.now)) }
        ensures no_memory { NeedsNoMemory result }
    {
        Ok(WorldId(index(alloc, value)?))
    }
}

impl FromJson for PackageId {
    ghost use Rattle.std.specs.Prelude.{ℕ};
    ghost use Rattle.wc_json.specs.Ids.{index};

    ghost View = { ℕ };

    ghost view = { λ id. id.0 };

    ghost reading = { index };

    fn from_json(alloc: Global, _seed: Seed, value: &Value<'_>) -> Result<PackageId, JsonFault>
        ensures reads { Reads (λ id. id.0) result (index (value_view value.now)) }
        ensures no_memory { NeedsNoMemory result }
    {
        Ok(PackageId(index(alloc, value)?))
    }
}
