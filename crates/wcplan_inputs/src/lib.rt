//! The inputs of the program `wcplan`: its arguments, and the content of its files.
//!
//! `parse` gives the command of some arguments; `read_encoder` gives an encoder of a command's worlds, main module
//! and adapters, over any `FileStore`.
//!
//! `ProgramFault` is why the program can't do what its arguments say, with its text and the lines under it.
//! `world_fault` and `plan_fault` make one from a fault of a component's world and of its plan. The crate `wcplan`
//! runs commands with these functions.
#![tactic(auto)]

mod adapter_files;
mod adapter_names;
mod arguments;
mod asked;
mod details;
mod documents;
mod explained;
mod explained_part;
mod exporter_fault;
mod exporters;
mod fault;
mod file_names;
mod heap;
mod inputs;
mod listing;
mod module_keys;
mod nearest;
mod shared_keys;

pub use arguments::{Command, NoCommand, OPTIONS, WrongArgument, parse};
pub use explained::{Explained, plan_fault, world_fault};
pub use explained_part::ExplainedPart;
pub use exporter_fault::ExporterFault;
pub use fault::{ProgramFault, SelectionFault, UNPRINTED};
pub use heap::heaped;
pub use inputs::read_encoder;
