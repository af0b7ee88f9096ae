//! Contexts that names of a world or of an interface are looked up in.

ghost use Rattle.std.specs.Prelude.{◌<◌, IfOk, length};
ghost use Rattle.std.specs.Option.{ForSome, IfSome};
ghost use Rattle.wc_resolve.specs.Ranges.{IsWorldIn};
ghost use Rattle.wc_resolve.specs.Views.{world_view};

use crate::read::{cut, id_of, key_of, name_of};
use crate::scheme_calls::Script;
use crate::shown_imports::put_made;
use crate::shown_names::{put_id, put_key, put_name};
use std::alloc::{AllocError, Global};
use wc_lines::input::{Stop, bad_row};
use wc_lines::lines::Lines;
use wc_names::{NameMangling, PayloadLookupContext};
use wc_resolve::{Function, InterfaceId, Resolve, TypeId, World, WorldId, WorldKey};

/// The rest of a line after `imports`, and true, or after `exports`, and false.
pub(crate) fn side_of<'a>(line: &'a str, out: &mut Lines) -> Result<(bool, &'a str), Stop> {
    match cut(line) {
        ("imports", rest) => Ok((true, rest)),
        ("exports", rest) => Ok((false, rest)),
        _ => Err(bad_row(out, "no imports or exports", line)),
    }
}

/// The word after a word, where a text begins with this, and what comes after both.
pub(crate) fn cut_after<'a>(text: &'a str, word: &str) -> (Option<&'a str>, &'a str) {
    match cut(text) {
        (first, rest) if first == word => {
            let (found, rest) = cut(rest);
            (Some(found), rest)
        }
        _ => (None, text),
    }
}

/// The interface of an id, if there is an id. It has to be there.
fn interface_of(
    resolve: &Resolve,
    word: Option<&str>,
    out: &mut Lines,
) -> Result<Option<InterfaceId>, Stop>
    ensures { IfOk result (λ id. ForSome id (λ i. i.0 < length resolve.now.interfaces)) }
{
    let Some(word) = word else {
        return Ok(None);
    };
    let id = InterfaceId(id_of(out, 'i', word)?);
    if resolve.has_interface(id) {
        Ok(Some(id))
    } else {
        Err(bad_row(out, "no such interface", word))
    }
}

/// The key of a word, if there is one.
fn key_under(alloc: Global, word: Option<&str>, out: &mut Lines) -> Result<Option<WorldKey>, Stop> {
    match word {
        Some(word) => Ok(Some(key_of(alloc, word, out)?)),
        None => Ok(None),
    }
}

/// The world of index 0, if there is any.
pub(crate) fn first_world(resolve: &Resolve) -> Option<&World>
    ensures { IfSome result (λ w. IsWorldIn resolve.now (world_view w.now)) }
{
    resolve.well_formedness();
    if resolve.has_world(WorldId(0)) {
        Some(resolve.world(WorldId(0)))
    } else {
        None
    }
}

fn put_function(out: &mut Lines, found: Option<&Function>) {
    match found {
        Some(function) => write!(out, "{function:?}"),
        None => out.push_str("func none"),
    }
}

/// The id of a resource, or `none`.
pub(crate) fn put_resource(out: &mut Lines, found: Option<TypeId>) {
    match found {
        Some(id) => put_id(out, 't', id.0),
        None => out.push_str("none"),
    }
}

/// The function and the resource of a name, and the key that is recorded.
fn put_lookups(
    alloc: Global,
    context: &PayloadLookupContext<'_>,
    name: &str,
    out: &mut Lines,
) -> Result<(), AllocError>
    requires world { IsWorldIn context.now.resolve.now (world_view context.now.world.now) }
    requires interface { ForSome context.now.id
        (λ id. id.0 < length context.now.resolve.now.interfaces) }
{
    put_function(out, context.function(alloc, name)?);
    out.push_str(" resource ");
    put_resource(out, context.resource(alloc, name)?);
    out.push_str(" key ");
    put_key(out, &context.key_of(alloc, name)?);
    Ok(())
}

/// `imports NAME` or `exports NAME`, where before the name may be `of INTERFACE` and `under KEY`.
pub(crate) fn context_line<N: NameMangling>(
    scheme: &N,
    script: &Script<'_>,
    line: &str,
    out: &mut Lines,
) -> Result<(), Stop> {
    let Script {
        alloc,
        call,
        resolve,
    } = *script;
    let (imported, rest) = side_of(line, out)?;
    let (interface, rest) = cut_after(rest, "of");
    let (key, name) = cut_after(rest, "under");
    let id = interface_of(resolve, interface, out)?;
    let key = key_under(alloc, key, out)?;
    let name = name_of(alloc, name, out)?;
    let Some(world) = first_world(resolve) else {
        return Err(bad_row(out, "no world", line));
    };
    let context = PayloadLookupContext {
        resolve,
        world,
        id,
        imported,
        key,
    };
    put_name(out, &name);
    out.push_str(": ");
    if call == "payload_lookup" {
        put_lookups(alloc, &context, &name, out)?;
    } else {
        put_made(alloc, scheme.payload_intrinsic(alloc, &context, &name), out)?;
    }
    out.end();
    Ok(())
}
