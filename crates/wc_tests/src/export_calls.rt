//! Questions about the exports that are recorded of a module.

use std::alloc::Global;
use wc_fixtures::read::{cut, from_json, id_of, key_of, name_of};
use wc_fixtures::shown_names::{put_key, put_name};
use wc_lines::input::{Stop, bad_row};
use wc_lines::lines::Lines;
use wc_resolve::{Function, TypeId};
use wc_validate::ExportMap;

fn put_reallocs(exports: &ExportMap, out: &mut Lines) {
    for name in exports.reallocs() {
        out.push(' ');
        put_name(out, name);
    }
}

fn put_found(found: Option<&str>, out: &mut Lines) {
    out.push(' ');
    match found {
        Some(name) => put_name(out, name),
        None => out.push_str("none"),
    }
}

fn put_memory(exports: &ExportMap, out: &mut Lines) {
    match exports.memory() {
        Some((name, ty)) => {
            put_found(Some(name), out);
            write!(out, " {ty:?}");
        }
        None => put_found(None, out),
    }
}

/// The answer for a function, `KEY FUNCTION`, after the question.
fn put_of_function(
    alloc: Global,
    exports: &ExportMap,
    question: &str,
    rest: &str,
    out: &mut Lines,
) -> Result<(), Stop> {
    let (key, function) = cut(rest);
    let key = key_of(alloc, key, out)?;
    let function: Function = from_json(alloc, function, out)?;
    out.push_str(question);
    out.push(' ');
    put_key(out, &key);
    out.push(' ');
    put_name(out, &function.name);
    out.push(':');
    match question {
        "post_return" => put_found(exports.post_return(&key, &function), out),
        "callback" => put_found(exports.callback(&key, &function), out),
        _ => write!(out, " {:?}", exports.abi(&key, &function)),
    }
    Ok(())
}

/// The answer for a resource, or for the functions of a key, or of an interface, that have a name.
fn put_of_name(
    alloc: Global,
    exports: &ExportMap,
    question: &str,
    rest: &str,
    out: &mut Lines,
) -> Result<(), Stop> {
    match question {
        "resource_dtor" => put_found(exports.resource_dtor(TypeId(id_of(out, 't', rest)?)), out),
        "import_realloc_for" => {
            let name = name_of(alloc, rest, out)?;
            put_found(exports.import_realloc_for(None, &name), out);
        }
        "export_realloc_for" => {
            let (key, name) = cut(rest);
            let key = key_of(alloc, key, out)?;
            let name = name_of(alloc, name, out)?;
            put_found(exports.export_realloc_for(&key, &name), out);
        }
        _ => return Err(bad_row(out, "no question on exports", question)),
    }
    Ok(())
}

/// A question and its answer: `memory`, `resource_dtor ID`, `abi KEY FUNCTION`, ...
fn put_answer(alloc: Global, exports: &ExportMap, line: &str, out: &mut Lines) -> Result<(), Stop> {
    let (question, rest) = cut(line);
    if matches!(question, "post_return" | "callback" | "abi") {
        return put_of_function(alloc, exports, question, rest, out);
    }
    out.push_str(line);
    out.push(':');
    match question {
        "reallocs" => put_reallocs(exports, out),
        "memory" => put_memory(exports, out),
        "general_purpose_realloc" => put_found(exports.general_purpose_realloc(), out),
        "import_realloc_fallback" => put_found(exports.import_realloc_fallback(), out),
        "realloc_to_import_into_adapter" => {
            put_found(exports.realloc_to_import_into_adapter(), out)
        }
        "indirect_function_table" => put_found(exports.indirect_function_table(), out),
        "wasm_task_hook" => put_found(exports.wasm_task_hook(), out),
        "initialize" => put_found(exports.initialize(), out),
        _ => put_of_name(alloc, exports, question, rest, out)?,
    }
    Ok(())
}

/// The answers to the lines `do ask QUESTION`, each after its question.
pub(crate) fn put_answers(
    alloc: Global,
    exports: &ExportMap,
    input: &[&str],
    out: &mut Lines,
) -> Result<(), Stop> {
    for line in input {
        if let Some(question) = line.strip_prefix("do ask ") {
            put_answer(alloc, exports, question, out)?;
            out.end();
        }
    }
    Ok(())
}
