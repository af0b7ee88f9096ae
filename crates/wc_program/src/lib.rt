//! The shell of a program of the command line: files, outputs, arguments and exit statuses. `wctrim_command` and
//! `wcplan` are built on it.
//!
//! A `Shell` has files (`FileStore`, `DirectoryStore`) and outputs (`Output`, `Screen`) for a program. `run` runs any
//! `Program` in one, with its arguments or without. `print` ends a program by printing a text, and `system_shell` is
//! the shell of the system.
#![tactic(auto)]

mod files;
mod output;
mod program;
mod screen;
mod shell;
mod system;
mod texts;

pub use files::{DirectoryStore, FileProblem, FileStore, problem_of, problem_text, read_file};
pub use output::{Output, Printer};
pub use program::{FAILURE, NoArguments, Program, SUCCESS, WRONG_ARGUMENTS, print, run};
pub use screen::Screen;
pub use shell::Shell;
pub use system::{SystemFiles, exit_code, system_arguments, system_shell};
pub use texts::{Text, TextBetween};
