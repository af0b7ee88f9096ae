//! Defined types and their owners.

ghost use Rattle.json.specs.Value.{value_view};
ghost use Rattle.wc_json.specs.Fault.{NeedsMemoryForPaths, NeedsNoMemory, Reads};
ghost use Rattle.wc_json.specs.Types.{owner, owner_of};

use crate::from_json::FromJson;
use crate::members::{only_member, optional_member, required_member};
use crate::paths::{at_variant, fault_here};
use crate::{JsonFault, Problem};
use json::Value;
use std::alloc::Global;
use wc_maps::Seed;
use wc_resolve::{InterfaceId, TypeDef, TypeOwner, WorldId};

impl FromJson for TypeOwner {
    ghost use Rattle.wc_resolve.specs.declared.types.TypeOwner.{TypeOwner};
    ghost use Rattle.wc_json.specs.Types.{owner};

    ghost View = { TypeOwner };

    ghost view = { λ o. o };

    ghost reading = { owner };

    fn from_json(alloc: Global, seed: Seed, value: &Value<'_>) -> Result<TypeOwner, JsonFault>
        ensures reads { Reads (λ o. o) result (owner (value_view value.now)) }
        ensures memory { NeedsMemoryForPaths result (owner (value_view value.now)) }
    {
        let member = only_member(alloc, value)?;
        at_variant(alloc, member.0, owner_of(alloc, seed, member.0, &member.1))
    }
}

/// `world` or `interface`, with its id. Any other kind is Unknown.
fn owner_of(alloc: Global, seed: Seed, kind: &str, id: &Value<'_>) -> Result<TypeOwner, JsonFault>
    ensures reads { Reads (λ o. o) result (owner_of kind.now (value_view id.now)) }
    ensures no_memory { NeedsNoMemory result }
{
    match kind {
        "world" => Ok(TypeOwner::World(WorldId::from_json(alloc, seed, id)?)),
        "interface" => Ok(TypeOwner::Interface(InterfaceId::from_json(alloc, seed, id)?)),
        _ => Err(fault_here(alloc, Problem::Unknown)),
    }
}

impl FromJson for TypeDef {
    ghost use Rattle.wc_resolve.specs.Views.{TypeView, type_view};
    ghost use Rattle.wc_json.specs.Types.{defined_type};

    ghost View = { TypeView };

    ghost view = { type_view };

    ghost reading = { defined_type };

    fn from_json(alloc: Global, seed: Seed, value: &Value<'_>) -> Result<TypeDef, JsonFault> {
        let name = optional_member(alloc, seed, value, "name")?;
        let kind = required_member(alloc, seed, value, "kind")?;
        let owner = optional_member(alloc, seed, value, "owner")?.unwrap_or(TypeOwner::None);
        Ok(TypeDef { name, kind, owner })
    }
}
