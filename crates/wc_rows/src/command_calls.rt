//! The call that reads the arguments of `wctrim`.

use std::alloc::Global;
use wc_lines::input::{Stop, texts_of};
use wc_lines::lines::Lines;
use wc_lines::rows::Row;
use wctrim_command::{Command, parse};

/// `parse`: what the command of these arguments, one a line, is.
pub(crate) fn answer_parse(alloc: Global, row: &Row<'_>, out: &mut Lines) -> Result<(), Stop> {
    let arguments = texts_of(alloc, &row.input)?;
    match parse(&arguments) {
        Ok(command) => put_command(out, &command),
        Err(_) => out.push_str("usage\n"),
    }
    Ok(())
}

/// A command, the file that it reads and the one that it writes; of a trim its options, and the exports that it keeps.
fn put_command(out: &mut Lines, command: &Command<'_>) {
    let source = command.source();
    let word = match command {
        Command::Dedupe { .. } => "dedupe",
        Command::Trim { .. } => "trim",
        Command::Scan { .. } => "scan",
    };
    writeln!(out, "{word}\nreads {source:?}");
    match command.target() {
        Some(target) => writeln!(out, "writes {target:?}"),
        None => out.push_str("writes nothing\n"),
    }
    put_options(out, command);
}

fn put_options(out: &mut Lines, command: &Command<'_>) {
    let Command::Trim {
        realloc,
        page,
        exports,
        ..
    } = command
    else {
        return;
    };
    match realloc {
        Some(realloc) => writeln!(out, "realloc Some({realloc:?})"),
        None => out.push_str("realloc None\n"),
    }
    writeln!(out, "page {page}");
    for export in *exports {
        writeln!(out, "export {export:?}");
    }
}
