//! Scripts on names in a world: of futures, streams and resources, of interfaces, and of exports.

ghost use Rattle.std.specs.Prelude.{All, map};
ghost use Rattle.wc_resolve.specs.Ranges.{IsKeyIn};
ghost use Rattle.wc_resolve.specs.Views.{world_entry};

use crate::contexts::{context_line, first_world, side_of};
use crate::exports_in_worlds::export_line;
use crate::read::name_of;
use crate::scheme_calls::Script;
use crate::shown_names::{put_id, put_key, put_name};
use crate::values::payload_line;
use std::alloc::{AllocError, Global};
use wc_lines::input::{Stop, bad_row};
use wc_lines::lines::Lines;
use wc_maps::Map;
use wc_names::NameIndexes;
use wc_resolve::{InterfaceId, Resolve, WorldItem, WorldKey};

fn put_found(out: &mut Lines, found: &Option<(WorldKey, InterfaceId)>) {
    match found {
        Some((key, id)) => {
            out.push_str(": key ");
            put_key(out, key);
            out.push_str(" interface ");
            put_id(out, 'i', id.0);
            out.push('\n');
        }
        None => out.push_str(": none\n"),
    }
}

/// A text, and the call that asks which interface it is about.
#[derive(Clone, Copy)]
struct Question<'a> {
    call: &'a str,
    text: &'a str,
}

/// The interface that a text is about, by one look-up among items, or by an index of them.
fn find_interface<N: NameIndexes>(
    alloc: Global,
    scheme: &N,
    question: &Question<'_>,
    resolve: &Resolve,
    items: &Map<WorldKey, WorldItem>,
) -> Result<Option<(WorldKey, InterfaceId)>, AllocError>
    requires { All (λ x. IsKeyIn resolve.now x.0) (map world_entry items.now.entries) }
{
    if question.call == "module_to_interface" {
        return scheme.module_to_interface(alloc, question.text, resolve, items);
    }
    scheme
        .interface_names(alloc, resolve, items)?
        .interface(alloc, question.text)
}

/// `imports TEXT` or `exports TEXT`.
fn interface_line<N: NameIndexes>(
    scheme: &N,
    script: &Script<'_>,
    line: &str,
    out: &mut Lines,
) -> Result<(), Stop> {
    let Script {
        alloc,
        call,
        resolve,
    } = *script;
    let (imported, text) = side_of(line, out)?;
    let text = name_of(alloc, text, out)?;
    let Some(world) = first_world(resolve) else {
        return Err(bad_row(out, "no world", line));
    };
    put_name(out, &text);
    let question = Question { call, text: &text };
    let found = if imported {
        find_interface(alloc, scheme, &question, resolve, &world.imports)?
    } else {
        find_interface(alloc, scheme, &question, resolve, &world.exports)?
    };
    put_found(out, &found);
    Ok(())
}

/// The answer to a line of a script, of the call of this name.
pub(crate) fn put_world_line<N: NameIndexes>(
    scheme: &N,
    script: &Script<'_>,
    line: &str,
    out: &mut Lines,
) -> Result<(), Stop> {
    match script.call {
        "module_to_interface" | "interface_names" => interface_line(scheme, script, line, out),
        "payload" => payload_line(script, line, out),
        "match_wit_export" | "match_wit_resource_dtor" => export_line(scheme, script, line, out),
        _ => context_line(scheme, script, line, out),
    }
}
