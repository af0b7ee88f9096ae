//! The program `wctrim`, without the opening of its files and its standard output. `parse` gives
//! the command of some arguments, and `execute` does a command's work from bytes to bytes.
//! `run_command` does it from file to file, over any `FileStore` and any `Output`, and `run` is the
//! program over these.
//!
//! ```rust
//! use std::alloc::Global;
//! use wc_maps::Seed;
//! use wctrim_command::{ToolFault, execute, parse};
//! use wc_write::WriterSink;
//!
//! /// The lines that a command prints for the bytes of a module. `None` where the arguments are
//! /// those of no command. A program draws the seed by `Seed::drawn`.
//! pub fn printed_lines(
//!     alloc: Global,
//!     seed: Seed,
//!     arguments: &[String],
//!     input: &[u8],
//! ) -> Result<Option<Vec<u8>>, ToolFault>
//!     ensures lines { IfOk result (λ answer. IfSome answer (λ lines.
//!         (c : CommandView) × (written : Option (List ℕ))
//!         × IsCommandLine (map string_bytes arguments.now) c
//!         × Runs c input.now lines.items written)) }
//!     ensures usage { IfOk result (λ answer. IfNone answer
//!         ((c : CommandView) → ¬ (IsCommandLine (map string_bytes arguments.now) c))) }
//! {
//!     let Ok(command) = parse(arguments) else {
//!         return Ok(None);
//!     };
//!     let mut sink = WriterSink::new(Vec::new(alloc));
//!     execute(alloc, seed, &command, input, &mut sink)?;
//!     Ok(Some(sink.into_inner()))
//! }
//! ```
//!
//! This function is proved in `wc_tests`, as `examples::wctrim::printed_lines`.
#![tactic(auto)]

mod command;
mod execution;
mod fault;
mod lines;
mod program;
mod scan;
mod trim_arguments;

pub use command::{Command, Usage, parse};
pub use execution::{execute, execute_explained};
pub use fault::ToolFault;
pub use program::{RunFault, run, run_command};
