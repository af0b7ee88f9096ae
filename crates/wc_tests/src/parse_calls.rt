//! The call that reads the arguments of `wcplan`.

use std::alloc::{AllocError, Global};
use wc_lines::input::texts_of;
use wc_lines::lines::Lines;
use wcplan_inputs::{NoCommand, parse};

/// `parse_wcplan`: what the command of these arguments, one a line, is.
pub(crate) fn put_parsed(alloc: Global, input: &[&str], out: &mut Lines) -> Result<(), AllocError> {
    let arguments = texts_of(alloc, input)?;
    match parse(alloc, arguments.as_slice()) {
        Ok(command) => writeln!(out, "{command:?}"),
        Err(NoCommand::Memory) => out.push_str("fault out of memory\n"),
        Err(NoCommand::Help) => out.push_str("help\n"),
        Err(NoCommand::Version) => out.push_str("version\n"),
        Err(NoCommand::Wrong(wrong)) => {
            let text = wrong.text(alloc)?;
            writeln!(out, "fault {text}");
        }
    }
    Ok(())
}
