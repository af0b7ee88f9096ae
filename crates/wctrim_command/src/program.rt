//! The program: its arguments, its files, its output, and its exit status.

ghost use Rattle.std.specs.Prelude.{◌≡◌, ◌≢◌, ◌++◌, true, List, ℕ, Some, IfOk, IfErr, IsErr, OnOk};
ghost use Rattle.std.specs.Option.{option_map};
ghost use Rattle.std.specs.IoError.{error_kind};
ghost use Rattle.wc_program.specs.Files.{file_change};
ghost use Rattle.wc_program.specs.Program.{Prints, failure};
ghost use Rattle.wc_program.specs.Screen.{Becomes, output_ends, printed};
ghost use Rattle.wc_texts.specs.Pieces.{IsPut};
ghost use Rattle.wctrim_command.specs.Command.{command_view, IsExecutable};
ghost use Rattle.wctrim_command.specs.Execution.{Runs, IsCommandCause};
ghost use Rattle.wctrim_command.specs.Program.{EndsWell, IsRunFault, CommandEnds, EndsWith, EndsWithout, ProgramEnds, EndsWithoutArguments, fault_line, run_fault_text};

use crate::command::{Command, Usage, parse};
use crate::execution::execute;
use crate::fault::ToolFault;
use std::alloc::Global;
use std::io::{self, ErrorKind};
use wc_maps::Seed;
use wc_program::{
    FAILURE, FileProblem, FileStore, NoArguments, Output, Program, SUCCESS, Shell, Text,
    TextBetween, WRONG_ARGUMENTS, print, problem_of, read_file,
};
use wc_texts::{FaultText, Pieces, PutFailed};

const USAGE: &str = "usage: wctrim dedupe IN OUT
       wctrim trim IN OUT [--realloc NAME] [--page 0|16] EXPORT...
       wctrim scan IN
";

/// Why a command could not be run on its files.
#[derive(Debug, Drop)]
pub enum RunFault<'a> {
    /// The file of this path could not be read, and why: never `Memory`.
    CannotRead(&'a str, FileProblem),
    /// The file of this path could not be written, and why.
    CannotWrite(&'a str, FileProblem),
    /// The command could not be executed, and why.
    Command(ToolFault),
}

impl FaultText for RunFault<'_> {
    ghost text = { run_fault_text };

    fn put_pieces<P: Pieces>(&self, out: &mut P) -> Result<(), PutFailed> {
        match self {
            RunFault::CannotRead(path, _) => put_path(out, "cannot read ", path),
            RunFault::CannotWrite(path, _) => put_path(out, "cannot write ", path),
            RunFault::Command(fault) => fault.put_pieces(out),
        }
    }
}

/// Puts what could not be done with a file, and its path.
fn put_path<P: Pieces>(out: &mut P, undone: &str, path: &str) -> Result<(), PutFailed>
    ensures { IsPut P.puts P.fails out.old out.new (undone.now ++ path.now) result }
{
    out.put_piece(undone)?;
    out.put_piece(path)
}

/// Runs the program with these arguments; the first is the one after the program's name. The result is its exit
/// status:
///
/// | Status | When | Printed |
/// |---|---|---|
/// | 0 | no arguments are passed | the usage text |
/// | 2 | the arguments make no command, or are not UTF-8 | the usage text |
/// | 0 | the command was run | its lines |
/// | 1 | the command could not be run | the lines that it put, and then the line `wctrim: TEXT` |
/// | 1 | an allocation for the arguments failed | the line `wctrim: out of memory` |
/// | 1 | the output failed | unknown |
///
/// TEXT is the text of `run_command`'s fault (`FaultText`): `cannot read IN` or `cannot write OUT` with the path, or
/// the text of the fault of `execute`. All printed text is flushed. Files are as `run_command` leaves them; without a
/// command they are unchanged. The shell's seed has no effect.
pub fn run<F: FileStore, O: Output>(
    arguments: &io::Result<Vec<String>>,
    shell: &mut Shell<F, O, ()>,
) -> u8
    ensures known { IfOk arguments.now (λ v. ProgramEnds v.items
        (file_change F.held F.read_fails F.write_fails shell.old.files shell.new.files)
        (Becomes (output_ends O.written O.sent O.is_failed) shell.old.out shell.new.out)
        result) }
    ensures unknown { IfErr arguments.now (λ e. EndsWithoutArguments
        (error_kind e ≡ ErrorKind.OutOfMemory)
        (Becomes (output_ends O.written O.sent O.is_failed) shell.old.out shell.new.out)
        result) }
    ensures kept { IsErr arguments.now → F.held shell.new.files ≡ F.held shell.old.files }
{
    wc_program::run(&Wctrim, arguments, shell)
}

/// The program, as a type for the shell.
struct Wctrim;

impl<F: FileStore, O: Output> Program<F, O, ()> for Wctrim {
    ghost ends_with = { λ texts before after status. EndsWith texts
        (file_change F.held F.read_fails F.write_fails before.files after.files)
        (Becomes (output_ends O.written O.sent O.is_failed) before.out after.out) status };

    ghost ends_without = { λ why before after status. EndsWithout why
        (file_change F.held F.read_fails F.write_fails before.files after.files)
        (Becomes (output_ends O.written O.sent O.is_failed) before.out after.out) status };

    fn run_with(&self, arguments: &[String], shell: &mut Shell<F, O, ()>) -> u8 {
        match parse(arguments) {
            Ok(command) => run_and_report(&command, shell),
            Err(Usage) => print(&mut shell.out, &Text(USAGE), WRONG_ARGUMENTS),
        }
    }

    fn run_without(&self, why: NoArguments, shell: &mut Shell<F, O, ()>) -> u8 {
        match why {
            NoArguments::Empty => print(&mut shell.out, &Text(USAGE), SUCCESS),
            NoArguments::NoMemory => {
                report(&mut shell.out, &RunFault::Command(ToolFault::Memory))
            }
            NoArguments::NoText => print(&mut shell.out, &Text(USAGE), WRONG_ARGUMENTS),
        }
    }
}

/// Runs a command on its files, and prints why it could not be run. The result is the exit status.
fn run_and_report<F: FileStore, O: Output>(command: &Command<'_>, shell: &mut Shell<F, O, ()>) -> u8
    requires { IsExecutable (command_view command.now) }
    ensures { CommandEnds (command_view command.now)
        (file_change F.held F.read_fails F.write_fails shell.old.files shell.new.files)
        (Becomes (output_ends O.written O.sent O.is_failed) shell.old.out shell.new.out)
        result }
{
    match run_command(
        shell.alloc,
        shell.seed,
        command,
        &mut shell.files,
        &mut shell.out,
    ) {
        Ok(()) => SUCCESS,
        Err(fault) => report(&mut shell.out, &fault),
    }
}

/// Prints why the program failed. The result is the status of a failure, even if `out` fails.
fn report<O: Output>(out: &mut O, fault: &RunFault<'_>) -> u8
    ensures { Prints (fault_line (run_fault_text fault.now)) failure
        (Becomes (output_ends O.written O.sent O.is_failed) out.old out.new) result }
{
    let line = TextBetween {
        before: "wctrim: ",
        text: fault,
        after: "\n",
    };
    print(out, &line, FAILURE)
}

/// Reads the command's input file, executes the command, flushes its lines, and writes its output file, if it has
/// one. Every other file stays the same. After `Ok`, all lines were passed on.
///
/// # Errors
///
/// - `CannotRead`: the input file could not be read. Nothing is put.
/// - `Command`: the fault of `execute`. Nothing is put, except with `Command(Output)`: then `out` has failed, and any
///   part may have been written. `Command(Memory)` also comes if the input file is too large for memory.
/// - `CannotWrite`: the output file could not be written. The lines were put and passed on before, and `out` has not
///   failed. The file may have any bytes.
///
/// With `CannotRead` and `Command` no file is created or changed, so none is if `out` fails.
pub fn run_command<'a, F: FileStore, O: Output>(
    alloc: Global,
    seed: Seed,
    command: &Command<'a>,
    files: &mut F,
    out: &mut O,
) -> Result<(), RunFault<'a>>
    requires { IsExecutable (command_view command.now) }
    ensures done { OnOk result (EndsWell
        (command_view command.now) (F.held files.old) (F.held files.new)
        (Becomes (output_ends O.written O.sent O.is_failed) out.old out.new)) }
    ensures fault { IfErr result (IsRunFault (command_view command.now)
        (file_change F.held F.read_fails F.write_fails files.old files.new)
        (Becomes (output_ends O.written O.sent O.is_failed) out.old out.new)) }
{
    let source = command.source();
    let input = match read_file(&*files, source) {
        Ok(input) => input,
        Err(FileProblem::Memory) => return Err(RunFault::Command(ToolFault::Memory)),
        Err(problem) => return Err(RunFault::CannotRead(source, problem)),
    };
    let answer = match execute_and_flush(alloc, seed, command, input.as_slice(), out) {
        Ok(answer) => answer,
        Err(fault) => return Err(RunFault::Command(fault)),
    };
    let (Some(target), Some(bytes)) = (command.target(), answer) else {
        return Ok(());
    };
    match files.write(target, bytes.as_slice()) {
        Ok(()) => Ok(()),
        Err(e) => Err(RunFault::CannotWrite(target, problem_of(&e))),
    }
}

/// Executes the command, and flushes its lines.
fn execute_and_flush<O: Output>(
    alloc: Global,
    seed: Seed,
    command: &Command<'_>,
    input: &[u8],
    out: &mut O,
) -> Result<Option<Vec<u8>>, ToolFault>
    requires { IsExecutable (command_view command.now) }
    ensures done { IfOk result (λ r. (lines : List ℕ)
        × Runs (command_view command.now) input.now lines (option_map (λ v. v.items) r)
        × Becomes (output_ends O.written O.sent O.is_failed) out.old out.new (printed lines)) }
    ensures fault { IfErr result (IsCommandCause (command_view command.now) input.now) }
    ensures output { IfErr result (λ f. f ≡ ToolFault.Output → O.is_failed out.new ≡ true) }
    ensures quiet { IfErr result (λ f. f ≢ ToolFault.Output → out.new ≡ out.old) }
{
    let answer = execute(alloc, seed, command, input, out)?;
    match out.flush() {
        Ok(()) => Ok(answer),
        Err(PutFailed) => Err(ToolFault::Output),
    }
}
