//! Live types: a script, whose lines begin with `do `.

use crate::read::{cut, from_json, id_of, made};
use crate::resolve_calls::{is_usable, put_answer, put_type_ids};
use std::alloc::{AllocError, Global};
use wc_lines::input::{Stop, bad_row};
use wc_lines::lines::Lines;
use wc_resolve::{Function, LiveTypes, Resolve, ResolveFault, TypeId, WitType, WorldItem};

/// `add_type_id TYPE-ID`. If memory runs out, the old list is the beginning of the kept list, and the kept list is
/// the beginning of the whole one.
fn add_type_id(
    alloc: Global,
    resolve: &Resolve,
    live: &mut LiveTypes,
    word: &str,
    out: &mut Lines,
) -> Result<(), Stop> {
    let id = TypeId(id_of(out, 't', word)?);
    if !resolve.has_type(id) {
        return Err(bad_row(out, "no such type", word));
    }
    let old = ids_of(alloc, live)?;
    if live.add_type_id(resolve, id).is_ok() {
        return Ok(());
    }
    let kept = ids_of(alloc, live)?;
    live.add_type_id(resolve, id)?;
    let whole = ids_of(alloc, live)?;
    if begins_with(&kept, &old) && begins_with(&whole, &kept) {
        made(Err(ResolveFault::Memory), out)
    } else {
        Err(bad_row(out, "types were lost", word))
    }
}

fn begins_with(whole: &[TypeId], front: &[TypeId]) -> bool {
    front.len() <= whole.len() && front.iter().zip(whole.iter()).all(|(a, b)| a == b)
}

fn ids_of(alloc: Global, live: &LiveTypes) -> Result<Vec<TypeId>, AllocError> {
    let mut ids = Vec::new(alloc);
    for id in live.iter() {
        ids.push(id)?;
    }
    Ok(ids)
}

/// Adds a type, as JSON.
fn add_type(
    alloc: Global,
    resolve: &Resolve,
    live: &mut LiveTypes,
    text: &str,
    out: &mut Lines,
) -> Result<(), Stop> {
    let ty: WitType = from_json(alloc, text, out)?;
    let is_there = match ty {
        WitType::Id(id) => resolve.has_type(id),
        _ => true,
    };
    if !is_there {
        return Err(bad_row(out, "no such type", text));
    }
    Ok(live.add_type(resolve, ty)?)
}

/// Adds the types of a function, as JSON.
fn add_func(
    alloc: Global,
    resolve: &Resolve,
    live: &mut LiveTypes,
    text: &str,
    out: &mut Lines,
) -> Result<(), Stop> {
    let function: Function = from_json(alloc, text, out)?;
    if !resolve.has_function(&function) {
        return Err(bad_row(out, "a function that is not usable", text));
    }
    Ok(live.add_func(resolve, &function)?)
}

/// The lists of a script: the types that it adds to, and the known types.
#[derive(Drop)]
struct Lists {
    known: LiveTypes,
    live: LiveTypes,
}

/// `add_world_item ITEM`, or `add_world_item_beside ITEM`, beside the known types: adds the types of an item of a
/// world, which is JSON.
fn add_world_item(
    alloc: Global,
    resolve: &Resolve,
    lists: &mut Lists,
    line: &str,
    out: &mut Lines,
) -> Result<(), Stop> {
    let (word, text) = cut(line);
    let item: WorldItem = from_json(alloc, text, out)?;
    if !is_usable(resolve, &item) {
        return Err(bad_row(out, "an item of what is not there", text));
    }
    if word == "add_world_item" {
        lists.live.add_world_item(resolve, &item)?;
    } else {
        lists
            .live
            .add_world_item_beside(&lists.known, resolve, &item)?;
    }
    Ok(())
}

/// A line of the script, after `do`: about the known types after the word `known`, otherwise about the others.
fn step(
    alloc: Global,
    resolve: &Resolve,
    lists: &mut Lists,
    line: &str,
    out: &mut Lines,
) -> Result<(), Stop> {
    let (word, rest) = cut(line);
    match word {
        "known" => put_step(alloc, resolve, &mut lists.known, rest, out),
        "add_world_item" | "add_world_item_beside" => {
            add_world_item(alloc, resolve, lists, line, out)
        }
        _ => put_step(alloc, resolve, &mut lists.live, line, out),
    }
}

/// A line about one list.
fn put_step(
    alloc: Global,
    resolve: &Resolve,
    live: &mut LiveTypes,
    line: &str,
    out: &mut Lines,
) -> Result<(), Stop> {
    let (word, rest) = cut(line);
    match word {
        "add_type_id" => add_type_id(alloc, resolve, live, rest, out)?,
        "add_type" => add_type(alloc, resolve, live, rest, out)?,
        "add_func" => add_func(alloc, resolve, live, rest, out)?,
        "clear" => live.clear(),
        "contains" => {
            let id = TypeId(id_of(out, 't', rest)?);
            put_answer(out, live.contains(id));
        }
        "ids" => put_type_ids(out, &ids_of(alloc, live)?),
        "count" => out.number_line("", live.iter().count() as u64),
        _ => return Err(bad_row(out, "no line of a script", line)),
    }
    Ok(())
}

/// The answers of the script's lines.
pub(crate) fn live_call(
    alloc: Global,
    resolve: &Resolve,
    input: &[&str],
    out: &mut Lines,
) -> Result<(), Stop> {
    let mut lists = Lists {
        known: LiveTypes::new(alloc),
        live: LiveTypes::new(alloc),
    };
    for line in input {
        if let Some(line) = line.strip_prefix("do ") {
            step(alloc, resolve, &mut lists, line, out)?;
        }
    }
    Ok(())
}
