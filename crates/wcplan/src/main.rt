//! `wcplan`: says what a component of a core module and adapters needs for a world, and trims the adapters.
//!
//! `run_command` runs a command over any `DirectoryStore` and any `Screen`. `run` is the program over these: its
//! contract says what the program does. `main` calls it with the system's arguments and the shell of `wc_program`.
//! `wcplan_inputs` has commands, their inputs and faults.
#![tactic(auto)]

mod json_faults;
mod lines;
mod outputs;
mod program;
mod usage;
mod warnings;

use crate::program::run;
use std::io::BufWriter;
use std::process::ExitCode;
use wc_program::{Printer, exit_code, system_arguments, system_shell};

/// Runs the program. Text for standard error is written at once. If the system gives no random bytes for a seed,
/// nothing is run.
fn main(rt: HostRuntime) -> ExitCode {
    let Ok(err) = BufWriter::with_capacity(rt.alloc(), 0, rt.stderr()) else {
        return ExitCode::FAILURE;
    };
    match system_shell(&rt, Printer::new(err)) {
        Ok(mut shell) => exit_code(run(&system_arguments(&rt), &mut shell)),
        Err(_) => ExitCode::FAILURE,
    }
}
