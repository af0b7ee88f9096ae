//! Functions and their kinds.

ghost use Rattle.json.specs.Value.{value_view};
ghost use Rattle.wc_json.specs.Fault.{NeedsMemoryForPaths, NeedsNoMemory, Reads};
ghost use Rattle.wc_json.specs.Functions.{function_kind, kind_of_resource, kind_without_resource};

use crate::from_json::FromJson;
use crate::members::{only_member, optional_member, refuse_member, required_member};
use crate::paths::{at_variant, fault_here};
use crate::{JsonFault, Problem};
use json::Value;
use std::alloc::Global;
use wc_maps::Seed;
use wc_resolve::{Function, FunctionKind, TypeId};

/// `freestanding` or `async-freestanding`: a kind that JSON has as its name alone.
fn kind_without_resource(alloc: Global, name: &str) -> Result<FunctionKind, JsonFault>
    ensures reads { Reads (λ k. k) result (kind_without_resource name.now) }
    ensures no_memory { NeedsNoMemory result }
{
    match name {
        "freestanding" => Ok(FunctionKind::Freestanding),
        "async-freestanding" => Ok(FunctionKind::AsyncFreestanding),
        _ => Err(fault_here(alloc, Problem::Unknown)),
    }
}

/// A kind that JSON has as an object with one member, whose name is the kind's and whose value is
/// the resource's id.
fn kind_of_resource(alloc: Global, name: &str, resource: TypeId) -> Result<FunctionKind, JsonFault>
    ensures reads { Reads (λ k. k) result (kind_of_resource name.now resource.0) }
    ensures no_memory { NeedsNoMemory result }
{
    match name {
        "method" => Ok(FunctionKind::Method(resource)),
        "async-method" => Ok(FunctionKind::AsyncMethod(resource)),
        "static" => Ok(FunctionKind::Static(resource)),
        "async-static" => Ok(FunctionKind::AsyncStatic(resource)),
        "constructor" => Ok(FunctionKind::Constructor(resource)),
        _ => Err(fault_here(alloc, Problem::Unknown)),
    }
}

impl FromJson for FunctionKind {
    ghost use Rattle.wc_resolve.specs.declared.functions.FunctionKind.{FunctionKind};
    ghost use Rattle.wc_json.specs.Functions.{function_kind};

    ghost View = { FunctionKind };

    ghost view = { λ k. k };

    ghost reading = { function_kind };

    fn from_json(alloc: Global, seed: Seed, value: &Value<'_>) -> Result<FunctionKind, JsonFault>
        ensures reads { Reads (λ k. k) result (function_kind (value_view value.now)) }
        ensures memory { NeedsMemoryForPaths result (function_kind (value_view value.now)) }
    {
        if let Some(name) = value.as_str() {
            return kind_without_resource(alloc, name);
        }
        let member = only_member(alloc, value)?;
        let resource = at_variant(alloc, member.0, TypeId::from_json(alloc, seed, &member.1))?;
        at_variant(alloc, member.0, kind_of_resource(alloc, member.0, resource))
    }
}

impl FromJson for Function {
    ghost use Rattle.wc_resolve.specs.Views.{FunctionView, function_view};
    ghost use Rattle.wc_json.specs.Functions.{function};

    ghost View = { FunctionView };

    ghost view = { function_view };

    ghost reading = { function };

    fn from_json(alloc: Global, seed: Seed, value: &Value<'_>) -> Result<Function, JsonFault> {
        let name = required_member(alloc, seed, value, "name")?;
        let kind = required_member(alloc, seed, value, "kind")?;
        let params = required_member(alloc, seed, value, "params")?;
        refuse_member(alloc, value, "results")?;
        let result = optional_member(alloc, seed, value, "result")?;
        Ok(Function {
            name,
            kind,
            params,
            result,
        })
    }
}
