//! The calls on a `Resolve`: building one, the part at an index, and queries.

ghost use Rattle.std.specs.Prelude.{IsTrue};
ghost use Rattle.wc_resolve.specs.Ranges.{IsItemIn};
ghost use Rattle.wc_resolve.specs.Views.{item_view};

use crate::live_calls::live_call;
use crate::read::{asked_of, id_of, json_text, key_of, made, name_of, resolve_of};
use crate::shown_names::{put_id, put_name, put_optional_name, put_package_name};
use crate::shown_worlds::{put_interface, put_package, put_type_def, put_world};
use crate::signature_calls::{abi_of, put_signature};
use std::alloc::Global;
use wc_json::{Document, document_from_json};
use wc_lines::input::{Stop, bad_row, number_of};
use wc_lines::lines::Lines;
use wc_lines::rows::Row;
use wc_lines::seeds::row_seed;
use wc_resolve::{
    Function, InterfaceId, PackageId, PackageName, Resolve, TypeId, WorldId, WorldItem, WorldKey,
};

/// A line `true` or `false`.
pub fn put_answer(out: &mut Lines, holds: bool) {
    out.push_str(if holds { "true\n" } else { "false\n" });
}

/// An id, or `none`, on a line.
pub(crate) fn put_found(out: &mut Lines, letter: char, index: Option<u32>) {
    match index {
        Some(index) => put_id(out, letter, index),
        None => out.push_str("none"),
    }
    out.end();
}

/// A text, or `none`, on a line.
fn put_text(out: &mut Lines, text: &Option<String>) {
    put_optional_name(out, text);
    out.end();
}

/// The ids of types, on a line.
pub(crate) fn put_type_ids(out: &mut Lines, ids: &[TypeId]) {
    out.push_str("ids");
    for id in ids {
        out.push(' ');
        put_id(out, 't', id.0);
    }
    out.end();
}

fn put_built(resolve: &Resolve, out: &mut Lines) {
    resolve.well_formedness();
    resolve.listings_unique();
    resolve.futures_unique();
    resolve.flat_types_unique();
    out.push_str("ok\n");
}

/// The id after a letter, which is the word's first.
fn after(word: &str, letter: char) -> Option<u32> {
    word.strip_prefix(letter)?.parse::<u32>().ok()
}

/// The type, the interface, the package or the world of an id.
fn put_part(resolve: &Resolve, word: &str, out: &mut Lines) -> Result<(), Stop> {
    if let Some(index) = after(word, 'i') {
        if resolve.has_interface(InterfaceId(index)) {
            put_interface(out, index, resolve.interface(InterfaceId(index)));
            return Ok(());
        }
    } else if let Some(index) = after(word, 'p') {
        if resolve.has_package(PackageId(index)) {
            put_package(out, index, resolve.package(PackageId(index)));
            return Ok(());
        }
    } else if let Some(index) = after(word, 'w') {
        if resolve.has_world(WorldId(index)) {
            put_world(out, index, resolve.world(WorldId(index)));
            return Ok(());
        }
    } else {
        let id = TypeId(id_of(out, 't', word)?);
        if resolve.has_type(id) {
            put_type_def(out, id.0, resolve.type_def(id));
            return Ok(());
        }
    }
    Err(bad_row(out, "no such part", word))
}

/// Whether there is something at an index.
fn has(resolve: &Resolve, word: &str, out: &mut Lines) -> Result<bool, Stop> {
    if let Some(index) = after(word, 'i') {
        Ok(resolve.has_interface(InterfaceId(index)))
    } else if let Some(index) = after(word, 'p') {
        Ok(resolve.has_package(PackageId(index)))
    } else if let Some(index) = after(word, 'w') {
        Ok(resolve.has_world(WorldId(index)))
    } else {
        Ok(resolve.has_type(TypeId(id_of(out, 't', word)?)))
    }
}

/// The names of an interface's package and of itself, or `none`.
fn put_qualified(named: Option<(&PackageName, &str)>, out: &mut Lines) {
    match named {
        Some((package, name)) => {
            put_package_name(out, package);
            out.push(' ');
            put_name(out, name);
            out.end();
        }
        None => out.push_str("none\n"),
    }
}

fn put_interface_ids(out: &mut Lines, ids: &[InterfaceId]) {
    out.push_str("ids");
    for id in ids {
        out.push(' ');
        put_id(out, 'i', id.0);
    }
    out.end();
}

/// The calls on an interface, whose id is the first argument.
fn put_of_interface(
    alloc: Global,
    resolve: &Resolve,
    row: &Row<'_>,
    out: &mut Lines,
) -> Result<(), Stop> {
    let id = InterfaceId(id_of(out, 'i', row.argument(0))?);
    if !resolve.has_interface(id) {
        return Err(bad_row(out, "no such interface", row.argument(0)));
    }
    match row.call {
        "id_of" => put_text(out, &resolve.id_of(alloc, id)?),
        "canonicalized_id_of" => put_text(out, &resolve.canonicalized_id_of(alloc, id)?),
        "is_canonical_id" => {
            let text = name_of(alloc, row.argument(1), out)?;
            put_answer(out, resolve.is_canonical_id(id, &text));
        }
        "interface_direct_deps" => {
            put_interface_ids(out, &resolve.interface_direct_deps(alloc, id)?)
        }
        _ => put_qualified(resolve.qualified_name(id), out),
    }
    Ok(())
}

/// The text of a key. A key that is an interface's id needs an interface with a name.
fn put_key_name(
    alloc: Global,
    resolve: &Resolve,
    key: &WorldKey,
    out: &mut Lines,
) -> Result<(), Stop> {
    if let WorldKey::Interface(id) = key {
        if !resolve.has_interface(*id) || resolve.id_of(alloc, *id)?.is_none() {
            return Err(bad_row(out, "an interface without an id", ""));
        }
    }
    put_name(out, &resolve.name_world_key(alloc, key)?);
    out.end();
    Ok(())
}

/// The calls that ask about an item of a world. Its key is the first argument.
fn put_of_item(
    alloc: Global,
    resolve: &Resolve,
    row: &Row<'_>,
    out: &mut Lines,
) -> Result<(), Stop> {
    let key = key_of(alloc, row.argument(0), out)?;
    let item: WorldItem = asked_of(alloc, row, out)?;
    if row.call == "external_id_value" {
        put_text(out, &resolve.external_id_value(alloc, &key, &item)?);
        return Ok(());
    }
    if !is_usable(resolve, &item) {
        return Err(bad_row(out, "an item of what is not there", row.call));
    }
    let found = resolve.implements_interface(&key, &item);
    put_found(out, 'i', found.map(|id| id.0));
    Ok(())
}

/// Whether the part that an item names exists.
pub(crate) fn is_usable(resolve: &Resolve, item: &WorldItem) -> bool
    ensures { IsTrue result → IsItemIn resolve.now (item_view item.now) }
{
    match item {
        WorldItem::Interface { id, .. } => resolve.has_interface(*id),
        WorldItem::Function(function) => resolve.has_function(function),
        WorldItem::TypeItem { id } => resolve.has_type(*id),
    }
}

/// The calls that ask about a function.
fn put_of_function(
    alloc: Global,
    resolve: &Resolve,
    row: &Row<'_>,
    out: &mut Lines,
) -> Result<(), Stop> {
    let function: Function = asked_of(alloc, row, out)?;
    if !resolve.has_function(&function) {
        return Err(bad_row(out, "a function that is not usable", row.call));
    }
    match row.call {
        "find_futures_and_streams" => {
            put_type_ids(out, &function.find_futures_and_streams(alloc, resolve)?);
        }
        "nth_future_or_stream" => {
            let n = number_of(out, "no number", row.argument(0))?;
            let found = function.nth_future_or_stream(resolve, n);
            put_found(out, 't', found.map(|id| id.0));
        }
        _ => {
            let abi = abi_of(row.argument(0), out)?;
            put_signature(out, &resolve.wasm_signature(alloc, abi, &function)?);
        }
    }
    Ok(())
}

/// The answer to a call on a `Resolve`.
fn put_of_resolve(
    alloc: Global,
    resolve: &Resolve,
    row: &Row<'_>,
    out: &mut Lines,
) -> Result<(), Stop> {
    match row.call {
        "resolve_build" => put_built(resolve, out),
        "has" => {
            let holds = has(resolve, row.argument(0), out)?;
            put_answer(out, holds);
        }
        "has_function" => {
            let function: Function = asked_of(alloc, row, out)?;
            put_answer(out, resolve.has_function(&function));
        }
        "type_def" | "interface" | "package" | "world" => {
            put_part(resolve, row.argument(0), out)?;
        }
        "package_named" => {
            let name: PackageName = asked_of(alloc, row, out)?;
            put_found(out, 'p', resolve.package_named(&name).map(|id| id.0));
        }
        "name_world_key" => {
            put_key_name(alloc, resolve, &key_of(alloc, row.argument(0), out)?, out)?;
        }
        "implements_interface" | "external_id_value" => put_of_item(alloc, resolve, row, out)?,
        "find_futures_and_streams" | "nth_future_or_stream" | "wasm_signature" => {
            put_of_function(alloc, resolve, row, out)?;
        }
        "live_types" => live_call(alloc, resolve, &row.input, out)?,
        _ => put_of_interface(alloc, resolve, row, out)?,
    }
    Ok(())
}

/// Builds the `Resolve` of a row, and answers its call on it; or says why there is none.
pub(crate) fn on_resolve(alloc: Global, row: &Row<'_>, out: &mut Lines) -> Result<(), Stop> {
    let resolve = resolve_of(alloc, &row.input, out)?;
    put_of_resolve(alloc, &resolve, row, out)
}

/// `resolve_build_with KEY`: builds the `Resolve` of a row, whose first world imports the item in question under a
/// key.
pub(crate) fn build_with(alloc: Global, row: &Row<'_>, out: &mut Lines) -> Result<(), Stop> {
    let key = key_of(alloc, row.argument(0), out)?;
    let item: WorldItem = asked_of(alloc, row, out)?;
    let text = json_text(alloc, &row.input, out)?;
    let Document { mut parts, .. } = made(document_from_json(alloc, row_seed(), &text), out)?;
    if let Some(world) = parts.worlds.first_mut() {
        world.imports.insert(key, item)?;
    }
    put_built(&made(Resolve::build(alloc, parts), out)?, out);
    Ok(())
}
