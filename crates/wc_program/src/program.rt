//! A run of a program: its arguments, its output, and its exit status.

ghost use Rattle.std.specs.Prelude.{◌≡◌, ℕ, List, IfErr, IfOk, IsErr, map, string_bytes};
ghost use Rattle.std.specs.IoError.{error_kind};
ghost use Rattle.wc_program.specs.Screen.{Becomes};
ghost use Rattle.wc_program.specs.Program.{EndsByReason, Prints, EndsByArguments};
ghost use Rattle.wc_program.specs.declared.program.NoArguments.{NoArguments};
ghost use Rattle.wc_program.specs.declared.shell.Shell.{Shell};

use crate::screen::Screen;
use crate::shell::Shell;
use std::io::{self, ErrorKind};
use wc_texts::{FaultText, PutFailed};

/// The exit status of a program that did what its arguments say.
pub const SUCCESS: u8 = 0;

/// The exit status of a program that failed.
pub const FAILURE: u8 = 1;

/// The exit status of a program whose arguments make no command.
pub const WRONG_ARGUMENTS: u8 = 2;

/// Why a program has no arguments.
#[derive(Clone, Copy, Debug, PartialEq, Eq)]
pub enum NoArguments {
    /// No arguments were passed.
    Empty,
    /// There was no memory for them.
    NoMemory,
    /// One of them is no text.
    NoText,
}

/// A program, which runs in a shell with its arguments.
pub trait Program<F, O, E> {
    // Its run with arguments: of these, the shell before and after, and the exit status.
    ghost ends_with: { List (List ℕ) → Shell F O E → Shell F O E → ℕ → Type 0 };

    // Its run without arguments.
    ghost ends_without: { NoArguments → Shell F O E → Shell F O E → ℕ → Type 0 };

    /// Runs the program with these arguments; the first is the one after its name. The result is the exit status.
    fn run_with(&self, arguments: &[String], shell: &mut Shell<F, O, E>) -> u8
        ensures { ends_with (map string_bytes arguments.now) shell.old shell.new result };

    /// Runs the program without arguments. The result is the exit status.
    fn run_without(&self, why: NoArguments, shell: &mut Shell<F, O, E>) -> u8
        ensures ends { ends_without why shell.old shell.new result }
        ensures files { shell.new.files ≡ shell.old.files };
}

/// Runs a program: with its arguments, if they are known and not empty; otherwise without. The result is its exit
/// status. Without arguments all files stay the same.
pub fn run<F, O, E, P: Program<F, O, E>>(
    program: &P,
    arguments: &io::Result<Vec<String>>,
    shell: &mut Shell<F, O, E>,
) -> u8
    ensures known { IfOk arguments.now (λ v. EndsByArguments v.items
        (P.ends_without NoArguments.Empty shell.old shell.new result)
        (λ texts. P.ends_with texts shell.old shell.new result)) }
    ensures unknown { IfErr arguments.now (λ e. EndsByReason
        (error_kind e ≡ ErrorKind.OutOfMemory)
        (P.ends_without NoArguments.NoMemory shell.old shell.new result)
        (P.ends_without NoArguments.NoText shell.old shell.new result)) }
    ensures kept { IsErr arguments.now → shell.new.files ≡ shell.old.files }
{
    match arguments {
        Ok(arguments) => run_known(program, arguments.as_slice(), shell),
        Err(e) if e.kind() == ErrorKind::OutOfMemory => {
            program.run_without(NoArguments::NoMemory, shell)
        }
        Err(_) => program.run_without(NoArguments::NoText, shell),
    }
}

/// Runs a program on the system's arguments. A list without any is [`NoArguments::Empty`].
fn run_known<F, O, E, P: Program<F, O, E>>(
    program: &P,
    arguments: &[String],
    shell: &mut Shell<F, O, E>,
) -> u8
    ensures { EndsByArguments arguments.now
        (P.ends_without NoArguments.Empty shell.old shell.new result)
        (λ texts. P.ends_with texts shell.old shell.new result) }
{
    if arguments.is_empty() {
        program.run_without(NoArguments::Empty, shell)
    } else {
        program.run_with(arguments, shell)
    }
}

/// Prints a text, as a program does at its end. The result is `status`, or the status of a failure if the output
/// fails.
pub fn print<O: Screen, T: FaultText>(out: &mut O, text: &T, status: u8) -> u8
    ensures { Prints (T.text text.now) status (Becomes O.ends out.old out.new) result }
{
    match out.show(text) {
        Ok(()) => status,
        Err(PutFailed) => FAILURE,
    }
}
