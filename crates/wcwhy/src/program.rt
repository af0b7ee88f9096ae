//! The program: its arguments, its file, what it prints, and its exit status.

ghost use Rattle.std.specs.Prelude.{◌≡◌, ◌==◌, ◌++◌, IfErr, IfOk, IsErr, length, map, ◌&&◌, not, string_bytes};
ghost use Rattle.std.specs.Option.{option_map};
ghost use Rattle.std.specs.IoError.{error_kind};
ghost use Rattle.wc_program.specs.Files.{file_change};
ghost use Rattle.wc_program.specs.Screen.{Becomes, output_ends};
ghost use Rattle.wc_program.specs.Program.{Prints, failure, success, wrong_arguments};
ghost use Rattle.wcwhy.specs.Arguments.{command_view};
ghost use Rattle.wcwhy.specs.Fault.{NeedsText};
ghost use Rattle.wcwhy.specs.Program.{CommandEnds, EndsWell, EndsWith, EndsWithout, EndsWithoutArguments, IsPrinted, IsPrintingCause, IsReported, IsReportedAs, IsRunCause, IsSaid, IsText, IsTextCause, IsUnallowedSaid, ProgramEnds};
ghost use Rattle.wcwhy.specs.Private.Execution.{AnswersStop, PrintsSome};
ghost use Rattle.wcwhy.specs.Private.Inputs.{allow_view, file_view};
ghost use Rattle.wcwhy.specs.Private.Warnings.{said_view};
ghost use Rattle.wcwhy.specs.Warnings.{AreWarned};
ghost use Rattle.wcwhy.specs.Usage.{fault_and_usage, fault_line, help_text, usage_text};

use crate::arguments::{Command, NoCommand, parse};
use crate::component::print_component;
use crate::core_file::write_core;
use crate::execution::print_reasons;
use crate::fault::WhyFault;
use crate::inputs::{Input, Request, read_input};
use crate::json_faults::report_json;
use crate::module_ways::print_modules;
use crate::usage::{NO_TEXT, VERSION, page};
use crate::warnings::{Said, quiet};
use std::alloc::{AllocError, Global};
use std::io::{self, ErrorKind};
use wc_component_file::is_component;
use wc_maps::Seed;
use wc_options::{Help, Usage, WrongCall};
use wc_program::{
    FAILURE, FileStore, NoArguments, Output, Program, SUCCESS, Screen, Shell, Text, TextBetween,
    WRONG_ARGUMENTS, print,
};
use wc_texts::{OUT_OF_MEMORY, PutFailed};

/// Runs the program with these arguments; the first is the argument after the program's name. It writes the file of
/// `--out`, and no other, and does the same for every seed of the shell. It returns the exit status:
///
/// | Status | Where | Printed |
/// |---|---|---|
/// | 0 | there are no arguments | the usage text, to `out` |
/// | 0 | `parse` answers `Help` or `Version` | the help text or the version, to `out` |
/// | 0 | the command was run | the lines of imports, or the graph or JSON of them, to `out`; warnings, to `err` |
/// | 0 | the command was run, and has `--out` | nothing |
/// | 1 | the command was run, and an import is not allowed | as above, and then the line `wcwhy: TEXT`, to `err` |
/// | 1 | the command could not be run | the line `wcwhy: TEXT`, to `err` |
/// | 1 | as in the last two lines, and the command has `--json` | to `err` only the fault as JSON, in a line |
/// | 1 | there was no memory for the arguments | the line `wcwhy: out of memory`, to `err` |
/// | 2 | an argument is wrong, or no text | the line `wcwhy: TEXT` and the usage text, to `err` |
/// | 1 | `out` or `err` failed | not known there |
///
/// TEXT is the text of `run_command`'s fault (`WhyFault::text`) or of the wrong argument (`WrongArgument::text`), or
/// says from where something is imported that is not allowed. The JSON is an object with `text`, which is TEXT, and
/// `place`, what the fault is about, or null. If there was no memory for these, TEXT is `out of memory`, and the status
/// is 1. `Memory` and `Output` need no memory for them. If warnings can't be printed, the status is 0 all the same. All
/// printed text is flushed, except text that was printed before memory ran out. Nothing is printed to the other output,
/// unless `out` failed or memory ran out before.
pub fn run<F: FileStore, O: Output, E: Screen>(
    arguments: &io::Result<Vec<String>>,
    shell: &mut Shell<F, O, E>,
) -> u8
    ensures known { IfOk arguments.now (λ v. ProgramEnds v.items
        (file_change F.held F.read_fails F.write_fails shell.old.files shell.new.files)
        (Becomes (output_ends O.written O.sent O.is_failed) shell.old.out shell.new.out)
        (Becomes E.ends shell.old.err shell.new.err) result) }
    ensures unknown { IfErr arguments.now (λ e. EndsWithoutArguments
        (error_kind e ≡ ErrorKind.OutOfMemory)
        (Becomes (output_ends O.written O.sent O.is_failed) shell.old.out shell.new.out)
        (Becomes E.ends shell.old.err shell.new.err) result) }
    ensures kept { IsErr arguments.now → F.held shell.new.files ≡ F.held shell.old.files }
{
    wc_program::run(&Wcwhy, arguments, shell)
}

/// The program, by what it does with its arguments.
struct Wcwhy;

impl<F: FileStore, O: Output, E: Screen> Program<F, O, E> for Wcwhy {
    ghost ends_with = { λ texts before after status. EndsWith texts
        (file_change F.held F.read_fails F.write_fails before.files after.files)
        (Becomes (output_ends O.written O.sent O.is_failed) before.out after.out)
        (Becomes E.ends before.err after.err) status };

    ghost ends_without = { λ why before after status. EndsWithout why
        (file_change F.held F.read_fails F.write_fails before.files after.files)
        (Becomes (output_ends O.written O.sent O.is_failed) before.out after.out)
        (Becomes E.ends before.err after.err) status };

    fn run_with(&self, arguments: &[String], shell: &mut Shell<F, O, E>) -> u8 {
        match parse(shell.alloc, arguments) {
            Ok(command) => run_and_report(&command, shell),
            Err(stop) => answer_stop(shell.alloc, &stop, &mut shell.out, &mut shell.err),
        }
    }

    fn run_without(&self, why: NoArguments, shell: &mut Shell<F, O, E>) -> u8 {
        match why {
            NoArguments::Empty => print_usage(&mut shell.out),
            NoArguments::NoMemory => print_fault(&mut shell.err, OUT_OF_MEMORY),
            NoArguments::NoText => print_usage_fault(&mut shell.err, NO_TEXT),
        }
    }
}

/// Prints what is asked for in place of a command, or what is wrong with the arguments. The answer is the exit status.
fn answer_stop<O: Output, E: Screen>(
    alloc: Global,
    stop: &NoCommand<'_>,
    out: &mut O,
    err: &mut E,
) -> u8
    ensures { AnswersStop stop.now
        (Becomes (output_ends O.written O.sent O.is_failed) out.old out.new)
        (Becomes E.ends err.old err.new) result }
{
    match stop {
        NoCommand::Memory => print_fault(err, OUT_OF_MEMORY),
        NoCommand::Help => print_help(out),
        NoCommand::Version => print(out, &Text(VERSION), SUCCESS),
        NoCommand::Wrong(wrong) => match wrong.text(alloc) {
            Ok(text) => print_usage_fault(err, &text),
            Err(AllocError) => print_fault(err, OUT_OF_MEMORY),
        },
    }
}

/// Runs a command on its files, and prints what is said besides, or why it could not be run. The answer is the exit
/// status.
fn run_and_report<F: FileStore, O: Output, E: Screen>(
    command: &Command<'_>,
    shell: &mut Shell<F, O, E>,
) -> u8
    ensures { CommandEnds (command_view command.now)
        (file_change F.held F.read_fails F.write_fails shell.old.files shell.new.files)
        (Becomes (output_ends O.written O.sent O.is_failed) shell.old.out shell.new.out)
        (Becomes E.ends shell.old.err shell.new.err) result }
{
    match run_command(
        shell.alloc,
        shell.seed,
        command,
        &mut shell.files,
        &mut shell.out,
    ) {
        Ok(said) => report_said(shell.alloc, &mut shell.err, said, command.json),
        Err(fault) => report_as(shell.alloc, &mut shell.err, &fault, command.json),
    }
}

/// Reads the module of a command, and its adapters, or its component, and prints why imports stay. The result is what
/// is said besides.
///
/// Of a module that stands alone, without adapters: for each import that is asked for, in the order of the file, the
/// lines of the one path to its item: `MODULE NAME`, where the path begins, as `  export NAME`, `  start`,
/// `  fills table T` or `  fills memory M`, and then a line for each of its items, as `  func 33 write_all`. Where
/// nothing leads there, it is the line `MODULE NAME: not reached` if imports are asked for, and no line if all are
/// shown. Where items at the beginning of a path have lines above, `as above to ITEM` names the last of them in their
/// place.
///
/// After the imports come the functions that are asked for, by index, each as `func N NAME` in place of `MODULE NAME`.
/// Where only functions are asked for, no import is shown.
///
/// Paths begin at the exports that are asked for, in their order, or at all exports in the order of the file if none is
/// asked for; and then at the start function. If none of these leads to an import, the path to it begins at an active
/// segment (`wc_paths`).
///
/// With `--json` it prints the tree of these paths instead, as JSON (`wc_why_text::tree_to_json`), and with `--dot` as
/// a graph (`wc_why_text::tree_to_graph`). An import to which nothing leads is not in the tree.
///
/// With adapters the module is the main module of a component. It prints the tree of `wc_module_ways::tree_of_modules`,
/// of its imports and those of the adapters that it needs, and of its functions that are asked for: so too as lines, as
/// JSON or as a graph.
///
/// Of a component it prints the same of its core modules, which lie in its file, by their roles
/// (`wc_component_file::roles_of`): of the main module, which `--core` may choose, of those that serve it, of libraries
/// by their imports, and of others by the names `core-N`. A warning says how many components directly inside it have
/// core modules: they are not followed.
///
/// With `--imports` it prints the lines of `wc_module_ways::imports_text` instead, or with `--json` the list of
/// `wc_module_ways::imports_json`. It does so for a module that stands alone too.
///
/// With `--allow` it asks for the imports that the entries of a file don't allow (`entries_of`), as if `--import` named
/// the module of each. Where all are allowed it prints no path. A warning names each entry that allows nothing.
///
/// With `--core` and `--out` it prints nothing, and writes the bytes of a component's core module to a file.
///
/// All lines are flushed. The path `-` of a file that is read is that of `/dev/stdin`. `seed`: the seed of the maps
/// that are made.
///
/// It takes time and memory linear in the modules and in the arguments, and time linear in the printed text. With
/// adapters it also takes memory linear in that text.
///
/// # Errors
///
/// Of several causes the first in this order is named; `Memory` may come in place of any.
///
/// - `CannotRead`: the module or component could not be read. It carries why.
/// - `Component`, `NoComponent`: it is a component, and has adapters; or `--core` is given, and it is none.
/// - `RepeatedAdapter`, `NoAdapter`: two adapters have one name; or an export is asked of one that is not given.
/// - `CannotRead`: an adapter could not be read; they are read in order.
/// - `CannotRead`, `AllowNotText`: the file of `--allow` could not be read, or is not UTF-8.
/// - `File`: the component's file can't be cut into sections, or is of another version.
/// - `NoModule`, `NoSuchModule`: the component has no core module, or not the one that `--core` names.
/// - `Core`, `Unclear`: a core module can't be read from which it is to be told which is which; or that can't be told.
/// - `CannotWrite`: the file of `--out` could not be written. It may have any bytes then.
/// - `Source`: the module can't be followed: `Read` of a module that can't be read, and then of segments;
///   `MissingExport`; `LiveBody`, of a body that paths reach. With `MissingExport` it carries the first export that is
///   equal but for its version and for the case of letters. With adapters segments and bodies that can't be read are no
///   faults of the main module, unless functions are asked for.
/// - `Adapter`: the bytes of an adapter are no module.
/// - `Core`: a core module of a component can't be followed. But for a missing export of the main module it is named in
///   place of `Source`. Of the main module, segments and bodies are no faults, as with adapters.
/// - `NoImport`: the module, or with adapters each of the modules, has none of the imports that an option asks for. It
///   carries the first such, and the first import that it would ask for by the module, or else by the package, if
///   versions and the case of letters did not count.
/// - `NoFunction`, `NoNames`: the module has none of the functions that an option asks for. It carries the first such,
///   and the name that may be meant, if there is one; or the module's path, if a name is asked for and the module has
///   no names of functions.
/// - `Adapter`: an adapter that the component needs can't be followed, as one that is trimmed (`wc_gc::why_imports`).
///   With `MissingExport` it carries what `Source` does.
/// - `Output`: a put or the flush failed; `out` is failed, and how much was printed is left open.
/// - `Memory`: an allocation failed, or a file is too large for memory. How much was printed is left open.
///
/// After each fault but `Output` and `Memory` nothing was printed; after each but `CannotWrite` all files are the same.
pub fn run_command<'a, F: FileStore, O: Output>(
    alloc: Global,
    seed: Seed,
    command: &Command<'a>,
    files: &mut F,
    out: &mut O,
) -> Result<Said, WhyFault<'a>>
    ensures done { IfOk result (λ said. EndsWell (command_view command.now)
        (file_change F.held F.read_fails F.write_fails files.old files.new)
        (Becomes (output_ends O.written O.sent O.is_failed) out.old out.new) (said_view said)) }
    ensures fault { IfErr result (IsRunCause (command_view command.now)
        (file_change F.held F.read_fails F.write_fails files.old files.new)
        (Becomes (output_ends O.written O.sent O.is_failed) out.old out.new)) }
{
    match (command.core, command.out) {
        (Some(index), Some(path)) => match write_core(alloc, command, (index, path), files) {
            Ok(()) => Ok(quiet(alloc)),
            Err(fault) => Err(fault),
        },
        (Some(_), None) | (None, _) => print_command(alloc, seed, command, &*files, out),
    }
}

/// Prints what a command asks for. The result is what is said besides.
fn print_command<'a, F: FileStore, O: Output>(
    alloc: Global,
    seed: Seed,
    command: &Command<'a>,
    files: &F,
    out: &mut O,
) -> Result<Said, WhyFault<'a>>
    ensures done { IfOk result (λ said. IsPrinted (command_view command.now) (F.held files.now)
        (Becomes (output_ends O.written O.sent O.is_failed) out.old out.new) (said_view said)) }
    ensures fault { IfErr result (IsPrintingCause (command_view command.now)
        (file_change F.held F.read_fails F.write_fails files.now files.now)
        (Becomes (output_ends O.written O.sent O.is_failed) out.old out.new)) }
{
    match read_input(alloc, seed, command, files) {
        Ok(input) => print_input(alloc, seed, command, &input, out),
        Err(fault) => Err(fault),
    }
}

/// Prints why imports stay of a component, of a module that stands alone, or of a main module and its adapters. The
/// result is what is said besides.
fn print_input<'a, O: Output>(
    alloc: Global,
    seed: Seed,
    command: &Command<'a>,
    input: &Input<'a>,
    out: &mut O,
) -> Result<Said, WhyFault<'a>>
    ensures done { IfOk result (λ said. PrintsSome (IsText (command_view command.now)
        input.now.source.items (map file_view input.now.adapters.items)
        (option_map allow_view input.now.allow) (said_view said))
        (Becomes (output_ends O.written O.sent O.is_failed) out.old out.new)) }
    ensures fault { IfErr result (IsTextCause (command_view command.now)
        input.now.source.items (map file_view input.now.adapters.items)
        (Becomes (output_ends O.written O.sent O.is_failed) out.old out.new)) }
{
    let request = Request {
        seed,
        command,
        allow: &input.allow,
    };
    let source = input.source.as_slice();
    if is_component(source) {
        print_component(alloc, &request, source, out)
    } else if is_alone(command.adapters.as_slice(), command.summary) {
        print_reasons(alloc, &request, source, out)
    } else {
        print_modules(alloc, &request, input, out)
    }
}

/// Whether a module has none of these adapters, and paths in it are asked for.
fn is_alone(adapters: &[(&str, &str)], summary: bool) -> bool
    ensures { result ≡ (length adapters.now == 0 && not summary) }
{
    adapters.is_empty() && !summary
}

/// Prints what is said beside an answer: warnings, and what is not allowed. The result is the exit status.
fn report_said<E: Screen>(alloc: Global, err: &mut E, said: Said, json: bool) -> u8
    ensures { IsSaid json (said_view said) (Becomes E.ends err.old err.new) result }
{
    let Said {
        warnings,
        unallowed,
    } = said;
    match unallowed {
        Some(text) => report_unallowed(alloc, err, &warnings, text, json),
        None => print_warnings(err, &warnings),
    }
}

/// Prints that something is imported which is not allowed, as this text says: after these warnings, or as JSON. The
/// result is the status of a failure.
fn report_unallowed<E: Screen>(
    alloc: Global,
    err: &mut E,
    warnings: &str,
    text: String,
    json: bool,
) -> u8
    ensures { IsUnallowedSaid json warnings.now (string_bytes text)
        (Becomes E.ends err.old err.new) result }
{
    if json {
        report_json(alloc, err, &WhyFault::NotAllowed(text))
    } else {
        print_unallowed(err, warnings, &text)
    }
}

/// Prints warnings, and then the text of a fault in a line. The result is the status of a failure.
fn print_unallowed<E: Screen>(err: &mut E, warnings: &str, text: &str) -> u8
    ensures { Prints (warnings.now ++ fault_line text.now) failure
        (Becomes E.ends err.old err.new) result }
{
    let line = TextBetween {
        before: "wcwhy: ",
        text: &Text(text),
        after: "\n",
    };
    let lines = TextBetween {
        before: warnings,
        text: &line,
        after: "",
    };
    print(err, &lines, FAILURE)
}

/// Prints the lines of warnings, if any. The result is the status of a success, even if they can't be printed.
fn print_warnings<E: Screen>(err: &mut E, warnings: &str) -> u8
    ensures warned { AreWarned warnings.now (Becomes E.ends err.old err.new) }
    ensures status { result ≡ success }
{
    if warnings.is_empty() {
        return SUCCESS;
    }
    match err.show_bytes(warnings.as_bytes()) {
        Ok(()) => SUCCESS,
        Err(PutFailed) => SUCCESS,
    }
}

/// Prints why the program failed, as JSON or in lines. The answer is the status of a failure.
fn report_as<E: Screen>(alloc: Global, err: &mut E, fault: &WhyFault<'_>, json: bool) -> u8
    ensures { IsReportedAs json fault.now (Becomes E.ends err.old err.new) result }
{
    if json {
        report_json(alloc, err, fault)
    } else {
        report(alloc, err, fault)
    }
}

/// Prints why the program failed. The answer is the status of a failure.
fn report<E: Screen>(alloc: Global, err: &mut E, fault: &WhyFault<'_>) -> u8
    ensures { IsReported fault.now (Becomes E.ends err.old err.new) result }
{
    match fault.fixed_text() {
        Some(text) => print_fault(err, text),
        None => report_made(alloc, err, fault),
    }
}

/// Prints why the program failed, where memory is needed for this. The answer is the status of a failure.
fn report_made<E: Screen>(alloc: Global, err: &mut E, fault: &WhyFault<'_>) -> u8
    requires { NeedsText fault.now }
    ensures { IsReported fault.now (Becomes E.ends err.old err.new) result }
{
    match fault.text(alloc) {
        Ok(text) => print_fault(err, &text),
        Err(AllocError) => print_fault(err, OUT_OF_MEMORY),
    }
}

/// Prints the usage text. The answer is the exit status.
fn print_usage<O: Screen>(out: &mut O) -> u8
    ensures { Prints usage_text success (Becomes O.ends out.old out.new) result }
{
    print(out, &Usage(page()), SUCCESS)
}

/// Prints the help text. The answer is the exit status.
fn print_help<O: Screen>(out: &mut O) -> u8
    ensures { Prints help_text success (Becomes O.ends out.old out.new) result }
{
    print(out, &Help(page()), SUCCESS)
}

/// Prints the text of a fault in a line. The answer is the status of a failure.
fn print_fault<E: Screen>(err: &mut E, text: &str) -> u8
    ensures { Prints (fault_line text.now) failure (Becomes E.ends err.old err.new) result }
{
    let line = TextBetween {
        before: "wcwhy: ",
        text: &Text(text),
        after: "\n",
    };
    print(err, &line, FAILURE)
}

/// Prints what is wrong with the arguments in a line, and the usage text. The answer is the exit status.
fn print_usage_fault<E: Screen>(err: &mut E, text: &str) -> u8
    ensures { Prints (fault_and_usage text.now) wrong_arguments
        (Becomes E.ends err.old err.new) result }
{
    let lines = WrongCall {
        start: "wcwhy: ",
        text,
        page: page(),
    };
    print(err, &lines, WRONG_ARGUMENTS)
}
