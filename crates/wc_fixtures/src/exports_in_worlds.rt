//! Scripts on the names of exports: the function, or the resource, that an export is for.

use crate::contexts::put_resource;
use crate::read::{cut_name, key_of, name_of};
use crate::scheme_calls::Script;
use crate::shown_names::{put_id, put_key, put_name};
use wc_lines::input::{Stop, bad_row};
use wc_lines::lines::Lines;
use wc_lines::seeds::row_seed;
use wc_maps::Set;
use wc_names::NameMangling;
use wc_resolve::{Function, InterfaceId, WorldId, WorldKey};

/// The key, the interface if there is one, and the function, or `none`.
fn put_exported(out: &mut Lines, found: Option<(&WorldKey, Option<InterfaceId>, &Function)>) {
    match found {
        Some((key, interface, function)) => {
            out.push_str("key ");
            put_key(out, key);
            out.push(' ');
            if let Some(id) = interface {
                out.push_str("interface ");
                put_id(out, 'i', id.0);
                out.push(' ');
            }
            write!(out, "{function:?}");
        }
        None => out.push_str("none"),
    }
}

/// `NAME KEY..`: the name of an export, and the keys of an export set of the world of index 0.
pub(crate) fn export_line<N: NameMangling>(
    scheme: &N,
    script: &Script<'_>,
    line: &str,
    out: &mut Lines,
) -> Result<(), Stop> {
    let Script {
        alloc,
        call,
        resolve,
    } = *script;
    let (name, rest) = cut_name(line);
    let name = name_of(alloc, name, out)?;
    let mut keys = Set::with_hasher(alloc, row_seed());
    for key in rest.split_whitespace() {
        keys.insert(key_of(alloc, key, out)?)?;
    }
    if !resolve.has_world(WorldId(0)) {
        return Err(bad_row(out, "no world", line));
    }
    put_name(out, &name);
    out.push_str(": ");
    if call == "match_wit_export" {
        let found = scheme.match_wit_export(alloc, &name, resolve, WorldId(0), &keys)?;
        put_exported(out, found);
    } else {
        let found = scheme.match_wit_resource_dtor(alloc, &name, resolve, WorldId(0), &keys)?;
        put_resource(out, found);
    }
    out.end();
    Ok(())
}
