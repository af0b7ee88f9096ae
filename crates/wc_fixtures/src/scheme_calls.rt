//! The calls on names.

use crate::in_worlds::put_world_line;
use crate::meanings::put_name_line;
use crate::read::resolve_of;
use crate::scheme_texts::put_scheme;
use std::alloc::Global;
use wc_lines::input::{Stop, bad_row};
use wc_lines::lines::Lines;
use wc_lines::rows::Row;
use wc_names::{Legacy, NameIndexes, NameMangling, Standard};
use wc_resolve::Resolve;

/// Answers a call on the name of each line.
fn put_names<N: NameMangling>(
    alloc: Global,
    scheme: &N,
    row: &Row<'_>,
    out: &mut Lines,
) -> Result<(), Stop> {
    for line in &row.input {
        put_name_line(alloc, scheme, row.call, line, out)?;
    }
    Ok(())
}

/// The question that each line of a script asks, and of what.
#[derive(Clone, Copy)]
pub(crate) struct Script<'a> {
    pub(crate) alloc: Global,
    pub(crate) call: &'a str,
    pub(crate) resolve: &'a Resolve,
}

/// The answers of the lines of a script, which begin with `do `.
fn put_script<N: NameIndexes>(
    alloc: Global,
    scheme: &N,
    row: &Row<'_>,
    out: &mut Lines,
) -> Result<(), Stop> {
    let resolve = resolve_of(alloc, &row.input, out)?;
    let script = Script {
        alloc,
        call: row.call,
        resolve: &resolve,
    };
    for line in &row.input {
        if let Some(line) = line.strip_prefix("do ") {
            put_world_line(scheme, &script, line, out)?;
        }
    }
    Ok(())
}

/// Answers on names, with the texts of the scheme, or in a world.
fn answer_by<N: NameIndexes>(
    alloc: Global,
    scheme: &N,
    row: &Row<'_>,
    out: &mut Lines,
) -> Result<(), Stop> {
    match row.call {
        "names" | "function_names" | "env_import" => put_names(alloc, scheme, row, out),
        "scheme_texts" => {
            put_scheme(scheme, out);
            Ok(())
        }
        _ => put_script(alloc, scheme, row, out),
    }
}

/// The answer by the scheme that the arguments name: `standard`, or `legacy HOOK`. The words of a
/// hook are one name.
pub(crate) fn answer_by_named(alloc: Global, row: &Row<'_>, out: &mut Lines) -> Result<(), Stop> {
    match row.argument(0) {
        "standard" => answer_by(alloc, &Standard, row, out),
        "legacy" => {
            let mut hook = String::new(alloc);
            for word in row.arguments.iter().skip(1) {
                if !hook.is_empty() {
                    hook.push(' ')?;
                }
                hook.push_str(word)?;
            }
            let scheme = Legacy { task_hook: &hook };
            answer_by(alloc, &scheme, row, out)
        }
        _ => Err(bad_row(out, "no scheme", row.argument(0))),
    }
}
