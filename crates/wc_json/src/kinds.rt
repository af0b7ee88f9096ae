//! Kinds of defined types: what a type is.

ghost use Rattle.std.specs.Prelude.{map, string_bytes};
ghost use Rattle.json.specs.Value.{value_view};
ghost use Rattle.wc_json.specs.Fault.{NeedsMemoryForPaths, NeedsNoMemory, Reads};
ghost use Rattle.wc_json.specs.FromJson.{list};
ghost use Rattle.wc_json.specs.Kinds.{handle, handle_of, kind_of, label, plain_kind};
ghost use Rattle.wc_json.specs.Members.{required_member};
ghost use Rattle.wc_resolve.specs.Views.{kind_view};

use crate::from_json::FromJson;
use crate::members::{only_member, optional_member, required_member};
use crate::paths::{at_variant, fault_here};
use crate::{JsonFault, Problem};
use json::Value;
use std::alloc::Global;
use wc_maps::Seed;
use wc_resolve::{Handle, TypeDefKind, TypeId, WitType};

/// A flag, or a case of an enum: an object with its name.
#[derive(Drop)]
struct Label(String);

impl FromJson for Label {
    ghost use Rattle.std.specs.Prelude.{List, ℕ, string_bytes};
    ghost use Rattle.wc_json.specs.Kinds.{label};

    ghost View = { List ℕ };

    ghost view = { λ l. string_bytes l.0 };

    ghost reading = { label };

    fn from_json(alloc: Global, seed: Seed, value: &Value<'_>) -> Result<Label, JsonFault> {
        let name = required_member(alloc, seed, value, "name")?;
        Ok(Label(name))
    }
}

/// The names of the labels that the member of this name of an object lists.
fn label_names(
    alloc: Global,
    seed: Seed,
    object: &Value<'_>,
    name: &str,
) -> Result<Vec<String>, JsonFault>
    ensures { Reads (λ v. map string_bytes v.items) result
        (required_member name.now (list label) (value_view object.now)) }
{
    let labels: Vec<Label> = required_member(alloc, seed, object, name)?;
    let mut names = Vec::with_capacity(alloc, labels.len())?;
    for label in labels {
        let Label(name) = label;
        names.push(name)?;
    }
    Ok(names)
}

impl FromJson for Handle {
    ghost use Rattle.wc_resolve.specs.declared.types.Handle.{Handle};
    ghost use Rattle.wc_json.specs.Kinds.{handle};

    ghost View = { Handle };

    ghost view = { λ h. h };

    ghost reading = { handle };

    fn from_json(alloc: Global, seed: Seed, value: &Value<'_>) -> Result<Handle, JsonFault>
        ensures reads { Reads (λ h. h) result (handle (value_view value.now)) }
        ensures memory { NeedsMemoryForPaths result (handle (value_view value.now)) }
    {
        let member = only_member(alloc, value)?;
        at_variant(alloc, member.0, handle_of(alloc, seed, member.0, &member.1))
    }
}

/// `own` or `borrow`, of the resource whose id the value is. Any other kind is Unknown.
fn handle_of(
    alloc: Global,
    seed: Seed,
    kind: &str,
    resource: &Value<'_>,
) -> Result<Handle, JsonFault>
    ensures reads { Reads (λ h. h) result (handle_of kind.now (value_view resource.now)) }
    ensures no_memory { NeedsNoMemory result }
{
    match kind {
        "own" => Ok(Handle::Own(TypeId::from_json(alloc, seed, resource)?)),
        "borrow" => Ok(Handle::Borrow(TypeId::from_json(alloc, seed, resource)?)),
        _ => Err(fault_here(alloc, Problem::Unknown)),
    }
}

/// The kind that is written as this text alone.
fn plain_kind(alloc: Global, name: &str) -> Result<TypeDefKind, JsonFault>
    ensures reads { Reads kind_view result (plain_kind name.now) }
    ensures no_memory { NeedsNoMemory result }
{
    match name {
        "resource" => Ok(TypeDefKind::Resource),
        "unknown" => Err(fault_here(alloc, Problem::LeftOut)),
        _ => Err(fault_here(alloc, Problem::Unknown)),
    }
}

/// A kind that JSON has as an object with one member; `type` is an alias. Lists of fixed length and
/// maps are LeftOut, any other name is Unknown.
fn kind_of(
    alloc: Global,
    seed: Seed,
    name: &str,
    value: &Value<'_>,
) -> Result<TypeDefKind, JsonFault>
    ensures { Reads kind_view result (kind_of name.now (value_view value.now)) }
{
    match name {
        "record" => Ok(TypeDefKind::Record(required_member(alloc, seed, value, "fields")?)),
        "handle" => Ok(TypeDefKind::Handle(Handle::from_json(alloc, seed, value)?)),
        "flags" => Ok(TypeDefKind::Flags(label_names(alloc, seed, value, "flags")?)),
        "tuple" => Ok(TypeDefKind::Tuple(required_member(alloc, seed, value, "types")?)),
        "variant" => Ok(TypeDefKind::Variant(required_member(alloc, seed, value, "cases")?)),
        "enum" => Ok(TypeDefKind::Enum(label_names(alloc, seed, value, "cases")?)),
        "option" => Ok(TypeDefKind::Option(WitType::from_json(alloc, seed, value)?)),
        "result" => Ok(TypeDefKind::Result {
            ok: optional_member(alloc, seed, value, "ok")?,
            err: optional_member(alloc, seed, value, "err")?,
        }),
        "list" => Ok(TypeDefKind::List(WitType::from_json(alloc, seed, value)?)),
        "future" => Ok(TypeDefKind::Future(Option::from_json(alloc, seed, value)?)),
        "stream" => Ok(TypeDefKind::Stream(Option::from_json(alloc, seed, value)?)),
        "type" => Ok(TypeDefKind::Alias(WitType::from_json(alloc, seed, value)?)),
        "fixed-length-list" | "fixed-size-list" | "map" => Err(fault_here(alloc, Problem::LeftOut)),
        _ => Err(fault_here(alloc, Problem::Unknown)),
    }
}

impl FromJson for TypeDefKind {
    ghost use Rattle.wc_resolve.specs.Views.{KindView, kind_view};
    ghost use Rattle.wc_json.specs.Kinds.{kind};

    ghost View = { KindView };

    ghost view = { kind_view };

    ghost reading = { kind };

    fn from_json(alloc: Global, seed: Seed, value: &Value<'_>) -> Result<TypeDefKind, JsonFault> {
        if let Some(name) = value.as_str() {
            return plain_kind(alloc, name);
        }
        let member = only_member(alloc, value)?;
        at_variant(alloc, member.0, kind_of(alloc, seed, member.0, &member.1))
    }
}
