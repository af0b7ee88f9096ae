//! Meanings of a name by the functions of a scheme.

use crate::read::{cut_name, func_type, name_of};
use crate::shown_imports::{put_if_found, put_shown};
use crate::shown_names::put_name;
use std::alloc::Global;
use std::fmt::Debug;
use wc_lines::input::Stop;
use wc_lines::lines::Lines;
use wc_names::NameMangling;
use wc_resolve::AbiVariant;

/// A word, and the found value, if any.
fn put_found<T: Debug + Drop>(out: &mut Lines, word: &str, found: Option<T>) {
    if let Some(found) = found {
        write!(out, "{word} {found:?}");
    }
}

/// The built-ins that have one name.
fn put_plain<N: NameMangling>(scheme: &N, name: &str, out: &mut Lines) {
    let flags = [
        (" task_cancel", scheme.task_cancel(name)),
        (" backpressure_inc", scheme.backpressure_inc(name)),
        (" backpressure_dec", scheme.backpressure_dec(name)),
        (" waitable_set_new", scheme.waitable_set_new(name)),
        (" waitable_set_drop", scheme.waitable_set_drop(name)),
        (" waitable_join", scheme.waitable_join(name)),
        (" subtask_drop", scheme.subtask_drop(name)),
        (" error_context_drop", scheme.error_context_drop(name)),
    ];
    for (word, holds) in flags {
        if holds {
            out.push_str(word);
        }
    }
}

/// The built-ins whose names say more.
fn put_others<N: NameMangling>(scheme: &N, name: &str, out: &mut Lines) {
    put_found(out, " waitable_set_wait", scheme.waitable_set_wait(name));
    put_found(out, " waitable_set_poll", scheme.waitable_set_poll(name));
    put_found(out, " context_get", scheme.context_get(name));
    put_found(out, " context_set", scheme.context_set(name));
    put_found(out, " error_context_new", scheme.error_context_new(name));
    put_found(
        out,
        " error_context_debug_message",
        scheme.error_context_debug_message(name),
    );
}

/// Whether `subtask.cancel` is lowered asynchronously; the resource or function in the name of a built-in, and the
/// function in the name of a callback, a lift or a post-return.
fn put_subjects<N: NameMangling>(scheme: &N, name: &str, out: &mut Lines) {
    if let Some(cancel) = scheme.subtask_cancel(name) {
        let lowered = cancel.async_lowered;
        write!(out, " subtask_cancel async_lowered {lowered}");
    }
    put_found(out, " resource_drop_name", scheme.resource_drop_name(name));
    put_found(out, " resource_new_name", scheme.resource_new_name(name));
    put_found(out, " resource_rep_name", scheme.resource_rep_name(name));
    put_found(out, " task_return_name", scheme.task_return_name(name));
    put_found(
        out,
        " async_lift_callback_name",
        scheme.async_lift_callback_name(name),
    );
    put_found(out, " async_lift_name", scheme.async_lift_name(name));
    put_found(
        out,
        " async_lift_stackful_name",
        scheme.async_lift_stackful_name(name),
    );
    put_found(out, " strip_post_return", scheme.strip_post_return(name));
}

/// Each function of the scheme that has an answer for the name, and its answer.
fn put_meanings<N: NameMangling>(alloc: Global, scheme: &N, name: &str, out: &mut Lines) {
    put_plain(scheme, name, out);
    put_others(scheme, name, out);
    let found = scheme.thread_intrinsic(name);
    put_if_found(alloc, " thread_intrinsic ", found, out);
    put_subjects(scheme, name, out);
}

/// Puts the meaning of a name, or ` none`.
fn meanings<N: NameMangling>(alloc: Global, scheme: &N, name: &str, out: &mut Lines) {
    let mut found = Lines::new(alloc);
    put_meanings(alloc, scheme, name, &mut found);
    match found.text() {
        Ok("") => out.push_str(" none"),
        Ok(text) => out.push_str(text),
        Err(_) => out.lack_memory(),
    }
}

fn put_function(out: &mut Lines, word: &str, name: &str, abi: AbiVariant) {
    out.push_str(word);
    put_name(out, name);
    write!(out, " {abi:?}");
}

/// The function of the world, and of an interface, that a name is of.
fn functions<N: NameMangling>(scheme: &N, name: &str, out: &mut Lines) {
    let (own, abi) = scheme.world_key_name_and_abi(name);
    put_function(out, " world ", own, abi);
    let (own, abi) = scheme.interface_function_name_and_abi(name);
    put_function(out, " interface ", own, abi);
}

/// Answers a call on the name of a line: `names`, `function_names`, or `env_import`, whose type follows the name.
pub(crate) fn put_name_line<N: NameMangling>(
    alloc: Global,
    scheme: &N,
    call: &str,
    line: &str,
    out: &mut Lines,
) -> Result<(), Stop> {
    let (name, ty) = if call == "env_import" {
        cut_name(line)
    } else {
        (line, "")
    };
    let name = name_of(alloc, name, out)?;
    put_name(out, &name);
    out.push(':');
    match call {
        "names" => meanings(alloc, scheme, &name, out),
        "function_names" => functions(scheme, &name, out),
        _ => {
            let ty = func_type(alloc, ty, out)?;
            out.push(' ');
            put_shown(alloc, scheme.env_import(&name, &ty), out);
        }
    }
    out.end();
    Ok(())
}
