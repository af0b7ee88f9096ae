//! Runs tests that are rows of data: each names a call of a library, its input and the answer that is wanted.
#![tactic(auto)]

mod answers;
mod encoder_calls;
mod encoders;
mod examples;
mod export_calls;
mod fault_lists;
mod module_calls;
mod parse_calls;
mod plan_calls;
mod program;
mod world_calls;

use std::process::ExitCode;

fn main(rt: HostRuntime) -> ExitCode {
    program::run(&rt)
}
