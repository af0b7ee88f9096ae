//! `wcwhy` says why a module imports something: it prints the path of items that leads to the import from an export,
//! the start function or an active segment (`wc_paths`).
//!
//! `parse` gives the command of some arguments. `run_command` does a command's work, over any `FileStore` and any `Output`,
//! and `run` is the program over these and any `Screen` for its faults: its contract says what the program does. `main` gives it
//! the system's arguments and shell, of `wc_program`. The tree of paths is that of `wc_import_paths`, or with adapters of
//! `wc_module_ways`, and is printed by `wc_why_text`.
#![tactic(auto)]

mod adapter_names;
mod allowed;
mod arguments;
mod component;
mod core_file;
mod execution;
mod fault;
mod functions;
mod inputs;
mod json_faults;
mod module_ways;
mod near_exports;
mod patterns;
mod places;
mod program;
mod texts;
mod tree;
mod usage;
mod warnings;

use crate::program::run;
use std::io::BufWriter;
use std::process::ExitCode;
use wc_program::{Printer, exit_code, system_arguments, system_shell};

/// Runs the program. What goes to standard error is written at once. Where the system gives no random bytes for a seed,
/// nothing is run.
fn main(rt: HostRuntime) -> ExitCode {
    let Ok(err) = BufWriter::with_capacity(rt.alloc(), 0, rt.stderr()) else {
        return ExitCode::FAILURE;
    };
    match system_shell(&rt, Printer::new(err)) {
        Ok(mut shell) => exit_code(run(&system_arguments(&rt), &mut shell)),
        Err(_) => ExitCode::FAILURE,
    }
}
