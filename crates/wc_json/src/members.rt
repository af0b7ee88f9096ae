//! The members of objects: required members, optional members, and the only member of a variant.

ghost use Rattle.std.specs.Prelude.{◌≡◌, ◌≢◌, IfErr, IsErr, IsSomeAnd, OnErr};
ghost use Rattle.std.specs.Option.{option_map};
ghost use Rattle.json.specs.Find.{get};
ghost use Rattle.json.specs.Json.{null};
ghost use Rattle.json.specs.Value.{value_view};
ghost use Rattle.wc_json.specs.Fault.{NeedsNoMemory, Reads};
ghost use Rattle.wc_json.specs.FromJson.{IsObject};
ghost use Rattle.wc_json.specs.Members.{absent_member, find_member, only_member, optional_member, required_member};
ghost use Rattle.wc_json.specs.declared.fault.JsonFault.TheVariants.{Memory};

use crate::from_json::FromJson;
use crate::paths::{at_member, fault_at_member, fault_here};
use crate::{JsonFault, Problem};
use json::Value;
use std::alloc::Global;
use wc_maps::Seed;

/// The value under a name; `None` if the object has no such member. A value of another kind is NotAnObject.
pub(crate) fn find_member<'v, 'a>(
    alloc: Global,
    object: &'v Value<'a>,
    name: &str,
) -> Result<Option<&'v Value<'a>>, JsonFault>
    ensures reads { Reads (λ found. option_map (λ v. value_view v.now) found) result
        (find_member name.now (value_view object.now)) }
    ensures no_memory { NeedsNoMemory result }
{
    let Value::Object(_) = object else {
        return Err(fault_here(alloc, Problem::NotAnObject));
    };
    Ok(object.get(name))
}

/// Reads the required member with this name of an object. The maps that are made hash under `seed`.
///
/// # Errors
///
/// - `Wrong`: the value is no object, with the empty path; or it lacks the member, or the member has a fault, with a
///   path that begins with the name.
/// - `Memory`: an allocation failed, for a value that is an object.
pub fn required_member<T: FromJson>(
    alloc: Global,
    seed: Seed,
    object: &Value<'_>,
    name: &str,
) -> Result<T, JsonFault>
    ensures reads { Reads T.view result
        (required_member name.now T.reading (value_view object.now)) }
    ensures memory { IfErr result (λ f. f ≡ Memory → IsObject (value_view object.now)) }
{
    match find_member(alloc, object, name)? {
        Some(value) => at_member(alloc, name, T::from_json(alloc, seed, value)),
        None => Err(fault_at_member(alloc, name, fault_here(alloc, Problem::Missing))),
    }
}

/// Reads the member with this name of an object; `None` if it is missing or null. The maps that are made hash under
/// `seed`.
///
/// # Errors
///
/// - `Wrong`: the value is no object, with the empty path; or the member has a fault, with a path that begins with
///   the name.
/// - `Memory`: an allocation failed, for a member that is present and isn't null.
pub fn optional_member<T: FromJson>(
    alloc: Global,
    seed: Seed,
    object: &Value<'_>,
    name: &str,
) -> Result<Option<T>, JsonFault>
    ensures reads { Reads (option_map T.view) result
        (optional_member name.now T.reading (value_view object.now)) }
    ensures memory { IfErr result (λ f. f ≡ Memory
        → IsSomeAnd (get name.now (value_view object.now)) (λ j. j ≢ null)) }
{
    match find_member(alloc, object, name)? {
        Some(value) => at_member(alloc, name, Option::<T>::from_json(alloc, seed, value)),
        None => Ok(None),
    }
}

/// Refuses an object that has a member of this name, which is one of an older form of the format.
pub(crate) fn refuse_member(alloc: Global, object: &Value<'_>, name: &str) -> Result<(), JsonFault>
    ensures reads { Reads (λ nothing. nothing) result
        (absent_member name.now (value_view object.now)) }
    ensures wrong { OnErr result (IsErr (absent_member name.now (value_view object.now))) }
{
    match find_member(alloc, object, name)? {
        Some(_) => Err(fault_at_member(alloc, name, fault_here(alloc, Problem::Outdated))),
        None => Ok(()),
    }
}

/// The only member of an object: the name of a variant, and its value.
pub(crate) fn only_member<'v, 'a>(
    alloc: Global,
    value: &'v Value<'a>,
) -> Result<&'v (&'a str, Value<'a>), JsonFault>
    ensures reads { Reads (λ m. (m.now.0.now, value_view m.now.1)) result
        (only_member (value_view value.now)) }
    ensures no_memory { NeedsNoMemory result }
{
    let Value::Object(members) = value else {
        return Err(fault_here(alloc, Problem::NotAnObject));
    };
    if members.len() != 1 {
        return Err(fault_here(alloc, Problem::NotOneMember));
    }
    Ok(&members[0])
}
