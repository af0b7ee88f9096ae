//! For rows of tests: the calls on worlds, which are JSON, and on the names of core modules.
#![tactic(auto)]

mod contexts;
mod exports_in_worlds;
mod in_worlds;
mod json_calls;
mod key_calls;
mod live_calls;
mod meanings;
pub mod read;
mod resolve_calls;
mod scheme_calls;
mod scheme_texts;
pub mod shown_imports;
pub mod shown_names;
pub mod shown_worlds;
pub mod signature_calls;
mod values;

use crate::json_calls::answer_document;
use crate::key_calls::{answer_function, answer_track, put_key_copy};
use crate::read::{asked_of, key_of};
use crate::resolve_calls::{build_with, on_resolve, put_answer, put_found};
use crate::scheme_calls::answer_by_named;
use crate::shown_names::put_package_name;
use crate::values::put_copies;
use std::alloc::Global;
use wc_lines::input::{Stop, end_answer};
use wc_lines::lines::Lines;
use wc_lines::rows::Row;
use wc_lines::values::put_fault_texts;
use wc_resolve::{Handle, PackageName, ResolveFault};

/// Appends the answer of a row. False where its call is none of these.
pub fn answer(alloc: Global, row: &Row<'_>, out: &mut Lines) -> bool {
    let answered = answered(alloc, row, out);
    end_answer(answered, out)
}

fn answered(alloc: Global, row: &Row<'_>, out: &mut Lines) -> Result<bool, Stop> {
    match row.call {
        "document" => answer_document(alloc, row, out)?,
        "resolve_build"
        | "has"
        | "has_function"
        | "type_def"
        | "interface"
        | "package"
        | "world"
        | "package_named"
        | "wasm_signature"
        | "live_types"
        | "id_of"
        | "canonicalized_id_of"
        | "name_world_key"
        | "qualified_name"
        | "implements_interface"
        | "external_id_value"
        | "interface_direct_deps"
        | "find_futures_and_streams"
        | "nth_future_or_stream"
        | "is_canonical_id" => on_resolve(alloc, row, out)?,
        "resolve_build_with" => build_with(alloc, row, out)?,
        "names"
        | "function_names"
        | "env_import"
        | "scheme_texts"
        | "payload_intrinsic"
        | "payload_lookup"
        | "payload"
        | "module_to_interface"
        | "interface_names"
        | "match_wit_export"
        | "match_wit_resource_dtor" => answer_by_named(alloc, row, out)?,
        "payload_infos" => put_copies(alloc, &row.input, out)?,
        _ => return of_key(alloc, row, out),
    }
    Ok(true)
}

/// Appends the answer of a call that needs no `Resolve`: on keys, versions, handles and functions.
fn of_key(alloc: Global, row: &Row<'_>, out: &mut Lines) -> Result<bool, Stop> {
    match row.call {
        "resolve_faults" => put_fault_texts(alloc, &ResolveFault::ALL, out),
        "key_clone" => put_key_copy(alloc, &key_of(alloc, row.argument(0), out)?, out)?,
        "keys_equal" => {
            let left = key_of(alloc, row.argument(0), out)?;
            let right = key_of(alloc, row.argument(1), out)?;
            put_answer(out, left == right);
        }
        "version_compat_track" | "is_version_compat_track" => answer_track(alloc, row, out)?,
        "package_name_clone" => {
            let name: PackageName = asked_of(alloc, row, out)?;
            put_package_name(out, &name.clone(alloc)?);
            out.end();
        }
        "handle_resource" => {
            let handle: Handle = asked_of(alloc, row, out)?;
            put_found(out, 't', Some(handle.resource().0));
        }
        "function_clone" | "legacy_core_export_name" => answer_function(alloc, row, out)?,
        _ => return Ok(false),
    }
    Ok(true)
}
