//! The member of a text whose object has another of its name before. It is looked for after a fault alone.

ghost use Rattle.std.specs.Prelude.{◌≡◌, ◌++◌, IfOk, string_bytes};
ghost use Rattle.std.specs.Option.{option_map};
ghost use Rattle.json.specs.Json.{document};
ghost use Rattle.json.specs.Value.{items_view, members_view, value_view};
ghost use Rattle.wc_json.specs.Paths.{index_step};
ghost use Rattle.wc_json.specs.RepeatedMembers.{IsRepeatedPath, first_path, name_step, repeated_path, repeats, repeats_from, repeats_in, without_dot};

use crate::paths::is_word;
use json::{Scratch, Value};
use std::alloc::{AllocError, Global};
use wc_maps::{Seed, Set};

/// The path of the first member of a text, in the order of the text, whose object has another of its name before, as
/// `worlds[0].name`; of a text that is not JSON the empty one. `seed`: the seed of the sets of names.
///
/// # Errors
///
/// `AllocError`: an allocation failed.
pub fn repeated_member(alloc: Global, seed: Seed, text: &str) -> Result<String, AllocError>
    ensures { IfOk result (λ path. IsRepeatedPath (document text.now) (string_bytes path)) }
{
    let mut scratch = Scratch::new(alloc);
    match Value::parse(alloc, text, &mut scratch) {
        Ok(value) => whole_path(alloc, seed, &value),
        Err(json::Error::OutOfMemory) => Err(AllocError),
        Err(_) => Ok(String::new(alloc)),
    }
}

/// The path in a value, without a dot at its beginning; the empty one where no member is repeated.
fn whole_path(alloc: Global, seed: Seed, value: &Value<'_>) -> Result<String, AllocError>
    ensures { IfOk result (λ path. string_bytes path ≡ repeated_path (value_view value.now)) }
{
    match path_in(alloc, seed, value)? {
        Some(path) => without_dot(alloc, &path),
        None => Ok(String::new(alloc)),
    }
}

/// A path without a dot at its beginning.
fn without_dot(alloc: Global, path: &str) -> Result<String, AllocError>
    ensures { IfOk result (λ s. string_bytes s ≡ without_dot path.now) }
{
    match path.strip_prefix('.') {
        Some(rest) => String::from_str(alloc, rest),
        None => String::from_str(alloc, path),
    }
}

/// The path of the first member that is repeated, from a value on.
#[cycle(path)]
fn path_in(alloc: Global, seed: Seed, value: &Value<'_>) -> Result<Option<String>, AllocError>
    ensures { IfOk result (λ path. option_map string_bytes path
        ≡ first_path (repeats (value_view value.now))) }
{
    match value {
        Value::Array(items) => path_in_items(alloc, seed, items),
        Value::Object(members) => path_in_members(alloc, seed, members),
        Value::Null | Value::Bool(_) | Value::Number(_) | Value::String(_) => Ok(None),
    }
}

/// The path of the first member that is repeated, from a list on.
#[cycle(path)]
fn path_in_items(
    alloc: Global,
    seed: Seed,
    items: &Vec<Value<'_>>,
) -> Result<Option<String>, AllocError>
    ensures { IfOk result (λ path. option_map string_bytes path
        ≡ first_path (repeats_from 0 (items_view items.now.items))) }
{
    for (index, item) in items.iter().enumerate() {
        if let Some(path) = path_in(alloc, seed, item)? {
            return Ok(Some(path_at(alloc, index, &path)?));
        }
    }
    Ok(None)
}

/// The path of the first member that is repeated, from an object on.
#[cycle(path)]
fn path_in_members(
    alloc: Global,
    seed: Seed,
    members: &Vec<(&str, Value<'_>)>,
) -> Result<Option<String>, AllocError>
    ensures { IfOk result (λ path. option_map string_bytes path
        ≡ first_path (repeats_in (members_view members.now.items))) }
{
    let mut seen: Set<&str> = Set::with_hasher(alloc, seed);
    for member in members {
        if !seen.insert(member.0)? {
            return Ok(Some(name_step(alloc, member.0)?));
        }
        if let Some(path) = path_in(alloc, seed, &member.1)? {
            return Ok(Some(path_under(alloc, member.0, &path)?));
        }
    }
    Ok(None)
}

/// A path in the item of this index.
fn path_at(alloc: Global, index: usize, path: &str) -> Result<String, AllocError>
    ensures { IfOk result (λ s. string_bytes s ≡ index_step index ++ path.now) }
{
    let step = index_step(alloc, index)?;
    format!(in alloc; "{step}{path}")
}

/// `[INDEX]`
fn index_step(alloc: Global, index: usize) -> Result<String, AllocError>
    ensures { IfOk result (λ s. string_bytes s ≡ index_step index) }
{
    format!(in alloc; "[{index}]")
}

/// A path under a name.
fn path_under(alloc: Global, name: &str, path: &str) -> Result<String, AllocError>
    ensures { IfOk result (λ s. string_bytes s ≡ name_step name.now ++ path.now) }
{
    let step = name_step(alloc, name)?;
    format!(in alloc; "{step}{path}")
}

/// `.NAME`, or `["NAME"]` where the name is not of letters, digits, `-` and `_` alone.
fn name_step(alloc: Global, name: &str) -> Result<String, AllocError>
    ensures { IfOk result (λ s. string_bytes s ≡ name_step name.now) }
{
    if is_word(name) {
        format!(in alloc; ".{name}")
    } else {
        format!(in alloc; "[\"{name}\"]")
    }
}
