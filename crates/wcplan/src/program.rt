//! The program: its arguments, its files, its output, and its exit status.

ghost use Rattle.std.specs.Prelude.{◌≡◌, ℕ, Bool, IfErr, IfOk, IsErr, string_bytes};
ghost use Rattle.std.specs.IoError.{error_kind};
ghost use Rattle.wc_world.specs.Nameable.{AreNameable};
ghost use Rattle.wc_plan.specs.PlanViews.{plan_view};
ghost use Rattle.wc_plan.specs.Plans.{plan_of};
ghost use Rattle.wc_world.specs.Options.{plain_options};
ghost use Rattle.wc_world.specs.World.{IsWorldOf};
ghost use Rattle.wc_world.specs.WorldViews.{world_view};
ghost use Rattle.wcplan_inputs.specs.Arguments.{command_view};
ghost use Rattle.wc_program.specs.Files.{store_change};
ghost use Rattle.wc_program.specs.Screen.{Becomes, Printing};
ghost use Rattle.wc_program.specs.Program.{Prints, failure, success, wrong_arguments};
ghost use Rattle.wcplan_inputs.specs.Fault.{NeedsText};
ghost use Rattle.wcplan.specs.Program.{CommandEnds, EndsWell, EndsWith, EndsWithout, EndsWithoutArguments, IsPlanned, IsReported, IsReportedAs, IsRunCause, PrintsAsked, ProgramEnds};
ghost use Rattle.wcplan_inputs.specs.Inputs.{IsEncoderOf};
ghost use Rattle.wcplan.specs.Private.Runs.{AnswersStop, IsMadeFor, IsWorldFault};
ghost use Rattle.wcplan.specs.Usage.{fault_and_usage, fault_line, help_text, usage_text};
ghost use Rattle.wcplan.specs.Warnings.{AreWarned};

use crate::json_faults::report_json;
use crate::outputs::{description_of, outputs_of, write_and_print};
use crate::usage::{NO_TEXT, VERSION, page};
use crate::warnings::warnings_of;
use std::alloc::{AllocError, Global};
use std::io::{self, ErrorKind};
use wc_encoder::ComponentEncoder;
use wc_maps::Seed;
use wc_options::{Help, Usage, WrongCall};
use wc_plan::laws::worlds_nameable;
use wc_plan::{Plan, plan_explained};
use wc_program::{
    DirectoryStore, FAILURE, NoArguments, Program, SUCCESS, Screen, Shell, Text, TextBetween,
    WRONG_ARGUMENTS, print,
};
use wc_texts::{FaultText, OUT_OF_MEMORY, PutFailed};
use wc_world::{ComponentWorld, PlainOptions};
use wcplan_inputs::{
    Command, NoCommand, ProgramFault, UNPRINTED, heaped, parse, plan_fault, read_encoder,
    world_fault,
};

/// Runs the program with these arguments; the first is the one after the program's name. The shell's seed has no
/// effect. The result is the exit status:
///
/// | Status | When | Printed |
/// |---|---|---|
/// | 0 | no arguments are passed | the usage text, to `out` |
/// | 0 | `parse` gives `Help` or `Version` | the help text or the version, to `out` |
/// | 0 | the command was run | the lines of the plan, the record, or the paths, to `out`; warnings to `err` |
/// | 1 | the command could not be run | the line `wcplan: TEXT`, and lines of details, to `err` |
/// | 1 | it could not be run, and has `--json` | the fault as JSON in a line, to `err` |
/// | 1 | an allocation for the arguments failed | the line `wcplan: out of memory`, to `err` |
/// | 2 | an argument is wrong, or not UTF-8 | the line `wcplan: TEXT` and the usage text, to `err` |
/// | 1 | `out` failed | unknown; the line `wcplan: cannot print`, to `err` |
/// | 1 | `err` failed, except for warnings | unknown |
///
/// TEXT is the text of `run_command`'s fault (`ProgramFault::text`) or of the wrong argument (`WrongArgument::text`).
/// The lines under it are the lines of `ProgramFault::details`. If an allocation for text and lines fails, the line
/// is `wcplan: out of memory`, and the status 1. All printed text is flushed. Nothing is printed to the other output,
/// except warnings; and if `out` failed before, the line `wcplan: cannot print`. Warnings are those that
/// `run_command` gives, each in a line. If they can't be printed, the status still is 0. Files are as `run_command`
/// leaves them; without a command they are unchanged.
pub fn run<F: DirectoryStore, O: Screen, E: Screen>(
    arguments: &io::Result<Vec<String>>,
    shell: &mut Shell<F, O, E>,
) -> u8
    ensures known { IfOk arguments.now (λ v. ProgramEnds v.items
        (store_change F.held F.makes F.read_fails F.make_fails F.write_fails
        shell.old.files shell.new.files)
        (Becomes O.ends shell.old.out shell.new.out) (Becomes E.ends shell.old.err shell.new.err)
        result) }
    ensures unknown { IfErr arguments.now (λ e. EndsWithoutArguments
        (error_kind e ≡ ErrorKind.OutOfMemory)
        (Becomes O.ends shell.old.out shell.new.out) (Becomes E.ends shell.old.err shell.new.err)
        result) }
    ensures kept { IsErr arguments.now → F.held shell.new.files ≡ F.held shell.old.files }
{
    wc_program::run(&Wcplan, arguments, shell)
}

/// The program, as a type for the shell.
struct Wcplan;

impl<F: DirectoryStore, O: Screen, E: Screen> Program<F, O, E> for Wcplan {
    ghost ends_with = { λ texts before after status. EndsWith texts
        (store_change F.held F.makes F.read_fails F.make_fails F.write_fails before.files after.files)
        (Becomes O.ends before.out after.out) (Becomes E.ends before.err after.err) status };

    ghost ends_without = { λ why before after status. EndsWithout why
        (F.held before.files) (F.held after.files)
        (Becomes O.ends before.out after.out) (Becomes E.ends before.err after.err) status };

    fn run_with(&self, arguments: &[String], shell: &mut Shell<F, O, E>) -> u8 {
        match parse(shell.alloc, arguments) {
            Ok(command) => run_and_report(&command, shell),
            Err(stop) => answer_stop(shell.alloc, &stop, &mut shell.out, &mut shell.err),
        }
    }

    fn run_without(&self, why: NoArguments, shell: &mut Shell<F, O, E>) -> u8 {
        match why {
            NoArguments::Empty => print_usage(&mut shell.out, &mut shell.err),
            NoArguments::NoMemory => print_fault(&mut shell.err, OUT_OF_MEMORY),
            NoArguments::NoText => print_usage_fault(&mut shell.err, NO_TEXT),
        }
    }
}

/// Prints the help or the version, or what is wrong with the arguments. The result is the exit status.
fn answer_stop<O: Screen, E: Screen>(
    alloc: Global,
    stop: &NoCommand<'_>,
    out: &mut O,
    err: &mut E,
) -> u8
    ensures { AnswersStop stop.now
        (Becomes O.ends out.old out.new) (Becomes E.ends err.old err.new) result }
{
    match stop {
        NoCommand::Memory => print_fault(err, OUT_OF_MEMORY),
        NoCommand::Help => print_help(out, err),
        NoCommand::Version => print_asked(out, err, &Text(VERSION)),
        NoCommand::Wrong(wrong) => match wrong.text(alloc) {
            Ok(text) => print_usage_fault(err, &text),
            Err(AllocError) => print_fault(err, OUT_OF_MEMORY),
        },
    }
}

/// Runs a command on its files, and prints why it could not be run. The result is the exit status.
fn run_and_report<F: DirectoryStore, O: Screen, E: Screen>(
    command: &Command<'_>,
    shell: &mut Shell<F, O, E>,
) -> u8
    ensures { CommandEnds (command_view command.now)
        (store_change F.held F.makes F.read_fails F.make_fails F.write_fails
        shell.old.files shell.new.files)
        (Becomes O.ends shell.old.out shell.new.out) (Becomes E.ends shell.old.err shell.new.err)
        result }
{
    match run_command(
        shell.alloc,
        shell.seed,
        command,
        &mut shell.files,
        &mut shell.out,
    ) {
        Ok(warnings) => print_warnings(&mut shell.err, &warnings),
        Err(fault) => report_last(shell.alloc, &mut shell.err, fault, command.json),
    }
}

/// Why a program failed, as it is printed.
trait Reported {
    // What is printed of it, as JSON or in lines; and the exit status.
    ghost reports: { Self → Bool → (Printing → Type 0) → ℕ → Type 0 };

    /// Prints the fault, in lines or, if requested, as JSON. The result is the exit status.
    fn report_to<E: Screen>(&self, alloc: Global, err: &mut E, asks_json: bool) -> u8
        ensures { reports self.now asks_json (Becomes E.ends err.old err.new) result };
}

impl Reported for ProgramFault<'_> {
    ghost reports = { λ fault asks_json err status. IsReportedAs asks_json fault err status };

    fn report_to<E: Screen>(&self, alloc: Global, err: &mut E, asks_json: bool) -> u8 {
        report_as(alloc, err, self, asks_json)
    }
}

/// Prints why the program failed, and drops the reason. The function doesn't know the reason's type, and so none of
/// its variants, which makes the proof short.
fn report_last<E: Screen, R: Reported + Drop>(
    alloc: Global,
    err: &mut E,
    fault: R,
    asks_json: bool,
) -> u8
    ensures { R.reports fault asks_json (Becomes E.ends err.old err.new) result }
{
    fault.report_to(alloc, err, asks_json)
}

/// Reads the worlds and the modules of a command, renames the main module's repeated imports, and makes the
/// component's world with `PlainOptions`. A command may have adapters and name no keys for any module. Then the main
/// module must export each key of the world's exports for which it has all functions, and the one adapter that has
/// all functions must export any other key. If the command has a directory, this is made, and files are written
/// there: `main.wasm`, the main module with renamed imports, and then `NAME.wasm`, trimmed, for each adapter of the
/// component's world. Each file is replaced as a whole (`DirectoryStore::replace`); all other files are unchanged.
/// Then the lines of the plan are printed, as `wc_plan::write_plan` writes them, but each escaped
/// (`wc_texts::escaped`). With `--json` the record is printed in a line (`wc_record::planned_world_to_json`). With
/// `--why` the program prints why the key is imported, by `wc_ways`: in lines (`ways_text`), with `--json` as JSON
/// (`ways_json`), with `--dot` as a graph (`ways_graph`). For a file that is read, the path `-` means `/dev/stdin`.
/// The result is the warnings, each in a line after `wcplan: warning: `. Adapters of the command come in order: a
/// warning says that an adapter has no name, or otherwise that the component has no adapter with its name. That is so
/// if the main module imports nothing from it, and it must export no function. If the command names a task hook, and
/// no export of the main module is the hook, the last warning says so. The maps that are made hash under `seed`.
///
/// # Errors
///
/// If several causes apply, the first in this order is named; `Memory` may come instead of any before `CannotMake`.
///
/// - `CannotRead`, `NotText`, `NotJson`, `RepeatedMember`, `Json`: the worlds could not be read.
/// - `NoWorld`, `Selection`: no world has the name, or without a name no world includes all others; or the name is
///   ambiguous.
/// - `Resolve`: the worlds are not well-formed.
/// - `Selection`, `NoAdapter`, `NoExport`: names of adapters, or keys, are unknown or repeated; or files can't have
///   these names.
/// - `NoImport`: the key after `--why` is for no import.
/// - `CannotRead`, `Dedupe`: the main module could not be read, or not renamed.
/// - `CannotRead`: an adapter could not be read; they are read in order.
/// - `Exporter`: the command has adapters and names no keys for any module, and for some key the main module lacks a
///   function, and not exactly one adapter has all functions.
/// - `Encoder`, `World`, `Plan`: there is no encoder, no component's world, or no plan.
/// - `Ways`: it can't be said why the key is imported.
/// - `CannotMake`: the directory could not be made.
/// - `CannotWrite`: a file could not be written. The files before it were written; it is unchanged.
/// - `Output`: the result could not be printed. All files were written; `out` has failed, and any part of the result
///   may have been printed.
/// - `Memory`: an allocation failed.
///
/// After each fault but `Output` nothing was printed; after each but `CannotWrite` and `Output` no file was written.
pub fn run_command<'a, F: DirectoryStore, O: Screen>(
    alloc: Global,
    seed: Seed,
    command: &Command<'a>,
    files: &mut F,
    out: &mut O,
) -> Result<String, ProgramFault<'a>>
    ensures done { IfOk result (λ warnings. EndsWell
        (command_view command.now)
        (store_change F.held F.makes F.read_fails F.make_fails F.write_fails files.old files.new)
        (Becomes O.ends out.old out.new) (string_bytes warnings)) }
    ensures fault { IfErr result (IsRunCause
        (command_view command.now)
        (store_change F.held F.makes F.read_fails F.make_fails F.write_fails files.old files.new)
        (Becomes O.ends out.old out.new)) }
{
    let encoder = read_encoder(alloc, seed, command, files)?;
    run_encoder(alloc, command, &encoder, files, out)
}

/// Runs a command whose encoder this is.
fn run_encoder<'a, F: DirectoryStore, O: Screen>(
    alloc: Global,
    command: &Command<'a>,
    encoder: &ComponentEncoder,
    files: &mut F,
    out: &mut O,
) -> Result<String, ProgramFault<'a>>
    requires { IsEncoderOf (command_view command.now) (F.held files.old) encoder.now }
    ensures done { IfOk result (λ warnings. EndsWell
        (command_view command.now)
        (store_change F.held F.makes F.read_fails F.make_fails F.write_fails files.old files.new)
        (Becomes O.ends out.old out.new) (string_bytes warnings)) }
    ensures fault { IfErr result (IsRunCause
        (command_view command.now)
        (store_change F.held F.makes F.read_fails F.make_fails F.write_fails files.old files.new)
        (Becomes O.ends out.old out.new)) }
{
    // So what modules import can be named.
    worlds_nameable(encoder);
    match made_world(alloc, encoder) {
        Ok(world) => run_world(alloc, command, &world, files, out),
        Err(fault) => Err(fault),
    }
}

/// The component's world of an encoder, on the heap.
fn made_world<'a, 'e>(
    alloc: Global,
    encoder: &'e ComponentEncoder,
) -> Result<Box<ComponentWorld<'e>>, ProgramFault<'a>>
    ensures world { IfOk result (λ w. IsWorldOf plain_options encoder.now (world_view w.value)) }
    ensures fault { IfErr result (IsWorldFault encoder.now) }
{
    match ComponentWorld::new_explained(alloc, encoder, &PlainOptions) {
        Ok(world) => Ok(heaped(alloc, world)?),
        Err(refused) => Err(world_fault(alloc, encoder, refused)),
    }
}

/// Runs a command whose component's world this is.
fn run_world<'a, F: DirectoryStore, O: Screen>(
    alloc: Global,
    command: &Command<'a>,
    world: &ComponentWorld<'_>,
    files: &mut F,
    out: &mut O,
) -> Result<String, ProgramFault<'a>>
    requires made { IsMadeFor (command_view command.now) (F.held files.old)
        (world_view world.now) }
    requires nameable { AreNameable (world_view world.now) }
    ensures done { IfOk result (λ warnings. EndsWell
        (command_view command.now)
        (store_change F.held F.makes F.read_fails F.make_fails F.write_fails files.old files.new)
        (Becomes O.ends out.old out.new) (string_bytes warnings)) }
    ensures fault { IfErr result (IsRunCause
        (command_view command.now)
        (store_change F.held F.makes F.read_fails F.make_fails F.write_fails files.old files.new)
        (Becomes O.ends out.old out.new)) }
{
    match plan_explained(alloc, world) {
        Ok(plan) => run_plan(alloc, command, Planned { world, plan: &plan }, files, out),
        Err(refused) => Err(plan_fault(refused)),
    }
}

/// A component's world, and its plan.
#[derive(Clone, Copy)]
struct Planned<'w, 'e> {
    world: &'w ComponentWorld<'e>,
    plan: &'w Plan,
}

/// Runs a command that has this component's world, and its plan.
fn run_plan<'a, F: DirectoryStore, O: Screen>(
    alloc: Global,
    command: &Command<'a>,
    planned: Planned<'_, '_>,
    files: &mut F,
    out: &mut O,
) -> Result<String, ProgramFault<'a>>
    requires planned { IsPlanned (command_view command.now) (F.held files.old)
        (world_view planned.world.now) }
    requires nameable { AreNameable (world_view planned.world.now) }
    requires plan { plan_view planned.plan.now ≡ plan_of (world_view planned.world.now) }
    ensures done { IfOk result (λ warnings. EndsWell
        (command_view command.now)
        (store_change F.held F.makes F.read_fails F.make_fails F.write_fails files.old files.new)
        (Becomes O.ends out.old out.new) (string_bytes warnings)) }
    ensures fault { IfErr result (IsRunCause
        (command_view command.now)
        (store_change F.held F.makes F.read_fails F.make_fails F.write_fails files.old files.new)
        (Becomes O.ends out.old out.new)) }
{
    let outputs = outputs_of(alloc, command.out, planned.world)?;
    let description = description_of(alloc, command, planned.world, planned.plan)?;
    let warnings = warnings_of(alloc, command, planned.world)?;
    match write_and_print(command.out, outputs, &description, files, out) {
        Ok(()) => Ok(warnings),
        Err(fault) => Err(fault),
    }
}

/// Prints the lines of warnings, if any. The result is the status of a success, even if they can't be printed.
fn print_warnings<E: Screen>(err: &mut E, warnings: &str) -> u8
    ensures warned { AreWarned warnings.now (Becomes E.ends err.old err.new) }
    ensures status { result ≡ success }
{
    if warnings.is_empty() {
        return SUCCESS;
    }
    match err.show_bytes(warnings.as_bytes()) {
        Ok(()) => SUCCESS,
        Err(PutFailed) => SUCCESS,
    }
}

/// Prints why a command failed, in lines or, if requested, as JSON. The result is the status of a failure.
fn report_as<E: Screen>(alloc: Global, err: &mut E, fault: &ProgramFault<'_>, asks_json: bool) -> u8
    ensures { IsReportedAs asks_json fault.now (Becomes E.ends err.old err.new) result }
{
    if asks_json {
        report_json(alloc, err, fault)
    } else {
        report(alloc, err, fault)
    }
}

/// Prints why the program failed, with details. The result is the status of a failure.
fn report<E: Screen>(alloc: Global, err: &mut E, fault: &ProgramFault<'_>) -> u8
    ensures { IsReported fault.now (Becomes E.ends err.old err.new) result }
{
    match fault.fixed_text() {
        Some(text) => print_fault(err, text),
        None => report_made(alloc, err, fault),
    }
}

/// Prints why the program failed, which needs memory. The result is the status of a failure.
fn report_made<E: Screen>(alloc: Global, err: &mut E, fault: &ProgramFault<'_>) -> u8
    requires { NeedsText fault.now }
    ensures { IsReported fault.now (Becomes E.ends err.old err.new) result }
{
    match fault.text_and_details(alloc) {
        Ok(text) => print_fault(err, &text),
        Err(AllocError) => print_fault(err, OUT_OF_MEMORY),
    }
}

/// Prints the usage text. The result is the exit status.
fn print_usage<O: Screen, E: Screen>(out: &mut O, err: &mut E) -> u8
    ensures { PrintsAsked usage_text
        (Becomes O.ends out.old out.new) (Becomes E.ends err.old err.new) result }
{
    print_asked(out, err, &Usage(page()))
}

/// Prints the help text. The result is the exit status.
fn print_help<O: Screen, E: Screen>(out: &mut O, err: &mut E) -> u8
    ensures { PrintsAsked help_text
        (Becomes O.ends out.old out.new) (Becomes E.ends err.old err.new) result }
{
    print_asked(out, err, &Help(page()))
}

/// Prints a requested text; if that fails, prints this to `err`. The result is the exit status.
fn print_asked<O: Screen, E: Screen, T: FaultText>(out: &mut O, err: &mut E, text: &T) -> u8
    ensures { PrintsAsked (T.text text.now)
        (Becomes O.ends out.old out.new) (Becomes E.ends err.old err.new) result }
{
    match out.show(text) {
        Ok(_) => SUCCESS,
        Err(PutFailed) => print_fault(err, UNPRINTED),
    }
}

/// Prints the text of a fault in a line. The result is the status of a failure.
fn print_fault<E: Screen>(err: &mut E, text: &str) -> u8
    ensures { Prints (fault_line text.now) failure (Becomes E.ends err.old err.new) result }
{
    print_line(err, &Text(text))
}

/// Prints the line of a fault, whose text is of any kind. The result is the status of a failure.
fn print_line<E: Screen, T: FaultText>(err: &mut E, text: &T) -> u8
    ensures { Prints (fault_line (T.text text.now)) failure
        (Becomes E.ends err.old err.new) result }
{
    let line = TextBetween {
        before: "wcplan: ",
        text,
        after: "\n",
    };
    print(err, &line, FAILURE)
}

/// Prints what is wrong with the arguments in a line, and the usage text. The result is the exit status.
fn print_usage_fault<E: Screen>(err: &mut E, text: &str) -> u8
    ensures { Prints (fault_and_usage text.now) wrong_arguments
        (Becomes E.ends err.old err.new) result }
{
    let lines = WrongCall {
        start: "wcplan: ",
        text,
        page: page(),
    };
    print(err, &lines, WRONG_ARGUMENTS)
}
