//! Types where they are used: a primitive type by its name, a defined one by its id; and names with
//! types.

ghost use Rattle.json.specs.Value.{value_view};
ghost use Rattle.wc_json.specs.Fault.{NeedsNoMemory, Reads};
ghost use Rattle.wc_json.specs.WitTypes.{primitive, wit_type};

use crate::from_json::FromJson;
use crate::members::{optional_member, required_member};
use crate::paths::fault_here;
use crate::{JsonFault, Problem};
use json::Value;
use std::alloc::Global;
use wc_maps::Seed;
use wc_resolve::{TypeId, WitType};

/// A type that JSON has as its name, without an id. Any other name is Unknown.
fn primitive(alloc: Global, name: &str) -> Result<WitType, JsonFault>
    ensures reads { Reads (λ t. t) result (primitive name.now) }
    ensures no_memory { NeedsNoMemory result }
{
    match name {
        "bool" => Ok(WitType::Bool),
        "u8" => Ok(WitType::U8),
        "u16" => Ok(WitType::U16),
        "u32" => Ok(WitType::U32),
        "u64" => Ok(WitType::U64),
        "s8" => Ok(WitType::S8),
        "s16" => Ok(WitType::S16),
        "s32" => Ok(WitType::S32),
        "s64" => Ok(WitType::S64),
        "f32" => Ok(WitType::F32),
        "f64" => Ok(WitType::F64),
        "char" => Ok(WitType::Char),
        "string" => Ok(WitType::String),
        "error-context" => Ok(WitType::ErrorContext),
        _ => Err(fault_here(alloc, Problem::Unknown)),
    }
}

impl FromJson for WitType {
    ghost use Rattle.wc_resolve.specs.declared.types.WitType.{WitType};
    ghost use Rattle.wc_json.specs.WitTypes.{wit_type};

    ghost View = { WitType };

    ghost view = { λ t. t };

    ghost reading = { wit_type };

    fn from_json(alloc: Global, seed: Seed, value: &Value<'_>) -> Result<WitType, JsonFault>
        ensures reads { Reads (λ t. t) result (wit_type (value_view value.now)) }
        ensures no_memory { NeedsNoMemory result }
    {
        match value.as_str() {
            Some(name) => primitive(alloc, name),
            None => Ok(WitType::Id(TypeId::from_json(alloc, seed, value)?)),
        }
    }
}

/// A parameter or a field: its name and its type.
impl FromJson for (String, WitType) {
    ghost use Rattle.std.specs.Prelude.{List, ℕ};
    ghost use Rattle.wc_resolve.specs.declared.types.WitType.{WitType};
    ghost use Rattle.wc_texts.specs.Names.{named_view};
    ghost use Rattle.wc_json.specs.WitTypes.{named_type};

    ghost View = { List ℕ × WitType };

    ghost view = { named_view };

    ghost reading = { named_type };

    fn from_json(
        alloc: Global,
        seed: Seed,
        value: &Value<'_>,
    ) -> Result<(String, WitType), JsonFault> {
        let name = required_member(alloc, seed, value, "name")?;
        let ty = required_member(alloc, seed, value, "type")?;
        Ok((name, ty))
    }
}

/// A case of a variant: its name, and the type of its payload, if it has one.
impl FromJson for (String, Option<WitType>) {
    ghost use Rattle.std.specs.Prelude.{List, ℕ, Option};
    ghost use Rattle.wc_resolve.specs.declared.types.WitType.{WitType};
    ghost use Rattle.wc_json.specs.WitTypes.{variant_case};
    ghost use Rattle.wc_texts.specs.Names.{named_view};

    ghost View = { List ℕ × Option WitType };

    ghost view = { named_view };

    ghost reading = { variant_case };

    fn from_json(
        alloc: Global,
        seed: Seed,
        value: &Value<'_>,
    ) -> Result<(String, Option<WitType>), JsonFault> {
        let name = required_member(alloc, seed, value, "name")?;
        let payload = optional_member(alloc, seed, value, "type")?;
        Ok((name, payload))
    }
}
