//! The outputs of a command: its files, and the text that it prints of its component's world.

ghost use Rattle.std.specs.Prelude.{◌≡◌, IfErr, IfOk, IfSome, OnOk, Some, map, string_bytes};
ghost use Rattle.std.specs.Option.{option_map};
ghost use Rattle.wc_plan.specs.PlanViews.{plan_view};
ghost use Rattle.wc_world.specs.Nameable.{AreNameable};
ghost use Rattle.wc_plan.specs.Plans.{plan_of};
ghost use Rattle.wc_world.specs.WorldViews.{world_view};
ghost use Rattle.wc_maps.specs.Texts.{text_of};
ghost use Rattle.wc_program.specs.Files.{FailsBy, FailsFrom, store_change};
ghost use Rattle.wc_program.specs.Screen.{Becomes};
ghost use Rattle.wc_ways.specs.WaysFaults.{IsWaysFault};
ghost use Rattle.wcplan_inputs.specs.Arguments.{command_view};
ghost use Rattle.wcplan.specs.Program.{IsFileFault, IsPrintedImports, IsPrintedText, IsPrintedWays, WritesAll, file_view, files_of, path_in, printed_text, record_line};
ghost use Rattle.wcplan.specs.Private.Runs.{IsDescriptionFault, IsMakingFault, IsWritingFault};

use crate::lines::plan_lines;
use std::alloc::{AllocError, Global};
use wc_gc::GcFault;
use wc_plan::Plan;
use wc_program::{DirectoryStore, Screen, problem_of};
use wc_record::planned_world_to_json;
use wc_texts::PutFailed;
use wc_ways::{imports_json, imports_text, ways_graph, ways_json, ways_text};
use wc_world::ComponentWorld;
use wcplan_inputs::{Command, ProgramFault};

/// The text that a command prints of its component's world, which has this plan.
pub(crate) fn description_of<'a>(
    alloc: Global,
    command: &Command<'a>,
    world: &ComponentWorld<'_>,
    plan: &Plan,
) -> Result<Vec<u8>, ProgramFault<'a>>
    requires nameable { AreNameable (world_view world.now) }
    requires plan { plan_view plan.now ≡ plan_of (world_view world.now) }
    ensures text { IfOk result (λ text. IsPrintedText (command_view command.now)
        (world_view world.now) text.items) }
    ensures fault { IfErr result (IsDescriptionFault (world_view world.now)) }
{
    match command.why {
        Some(key) => Ok(ways_of(alloc, command.dot, command.json, world, key)?),
        None => {
            if command.imports {
                Ok(imports_of(alloc, command.json, world)?)
            } else {
                Ok(plan_text(alloc, command.json, world, plan)?)
            }
        }
    }
}

/// The lines of the plan of a component's world; or, if JSON is asked for, the record of both.
fn plan_text(
    alloc: Global,
    asks_json: bool,
    world: &ComponentWorld<'_>,
    plan: &Plan,
) -> Result<Vec<u8>, AllocError>
    requires { plan_view plan.now ≡ plan_of (world_view world.now) }
    ensures { IfOk result (λ text. text.items ≡ printed_text asks_json (world_view world.now)) }
{
    if asks_json {
        record_line(alloc, world, plan)
    } else {
        Ok(plan_lines(alloc, plan)?.into_bytes())
    }
}

/// Why a key is imported: as a graph or as JSON, if that is asked for, or in lines.
fn ways_of(
    alloc: Global,
    asks_graph: bool,
    asks_json: bool,
    world: &ComponentWorld<'_>,
    key: &str,
) -> Result<Vec<u8>, GcFault>
    requires { AreNameable (world_view world.now) }
    ensures text { IfOk result (λ text. IsPrintedWays asks_graph asks_json
        (world_view world.now) key.now text.items) }
    ensures fault { IfErr result (IsWaysFault (world_view world.now)) }
{
    if asks_graph {
        Ok(ways_graph(alloc, world, key)?.into_bytes())
    } else if asks_json {
        ways_json(alloc, world, key)
    } else {
        Ok(ways_text(alloc, world, key)?.into_bytes())
    }
}

/// The imports of each interface: as JSON, if that is asked for, or in lines.
fn imports_of(
    alloc: Global,
    asks_json: bool,
    world: &ComponentWorld<'_>,
) -> Result<Vec<u8>, GcFault>
    requires { AreNameable (world_view world.now) }
    ensures text { IfOk result (λ text. IsPrintedImports asks_json
        (world_view world.now) text.items) }
    ensures fault { IfErr result (IsWaysFault (world_view world.now)) }
{
    if asks_json {
        imports_json(alloc, world)
    } else {
        Ok(imports_text(alloc, world)?.into_bytes())
    }
}

/// The record of a component's world and of its plan, in a line.
fn record_line(
    alloc: Global,
    world: &ComponentWorld<'_>,
    plan: &Plan,
) -> Result<Vec<u8>, AllocError>
    requires { plan_view plan.now ≡ plan_of (world_view world.now) }
    ensures { IfOk result (λ text. text.items ≡ record_line (world_view world.now)) }
{
    let mut line = planned_world_to_json(alloc, world, plan)?;
    line.push(b'\n')?;
    Ok(line)
}

/// Makes a directory, if there is one; then writes files, in order; and then prints a text.
pub(crate) fn write_and_print<'a, F: DirectoryStore, O: Screen>(
    directory: Option<&'a str>,
    outputs: Vec<(String, &[u8])>,
    text: &[u8],
    files: &mut F,
    out: &mut O,
) -> Result<(), ProgramFault<'a>>
    ensures made { OnOk result (IfSome (option_map text_of directory.entry) (F.makes files.old)) }
    ensures written { OnOk result (WritesAll (F.held files.old) (F.held files.new)
        (map file_view outputs.entry.items)) }
    ensures printed { OnOk result (O.ends out.old out.new (Some text.now)) }
    ensures fault { IfErr result (IsWritingFault (option_map text_of directory.entry)
        (store_change F.held F.makes F.read_fails F.make_fails F.write_fails files.old files.new)
        outputs.entry.items (Becomes O.ends out.old out.new)) }
{
    make_directory(directory, files)?;
    write_files(outputs, files)?;
    match out.show_bytes(text) {
        Ok(()) => Ok(()),
        Err(PutFailed) => Err(ProgramFault::Output),
    }
}

/// Makes a directory, if there is one.
fn make_directory<'a, F: DirectoryStore>(
    directory: Option<&'a str>,
    files: &mut F,
) -> Result<(), ProgramFault<'a>>
    ensures made { OnOk result (IfSome (option_map text_of directory.entry) (F.makes files.old)) }
    ensures fault { IfErr result (IsMakingFault (option_map text_of directory.entry)
        (λ path. FailsBy (F.make_fails files.old files.new path))) }
    ensures kept { F.held files.new ≡ F.held files.old }
{
    let Some(path) = directory else {
        return Ok(());
    };
    match files.make_directory(path) {
        Ok(()) => Ok(()),
        Err(e) => Err(ProgramFault::CannotMake(path, problem_of(&e))),
    }
}

/// The paths of the files that are written, and their bytes. None, if there is no directory.
pub(crate) fn outputs_of<'w>(
    alloc: Global,
    directory: Option<&str>,
    world: &'w ComponentWorld<'_>,
) -> Result<Vec<(String, &'w [u8])>, AllocError>
    ensures { IfOk result (λ v. map file_view v.items
        ≡ files_of (option_map text_of directory.entry) (world_view world.now)) }
{
    match directory {
        Some(directory) => files_in(alloc, directory, world),
        None => Ok(Vec::new(alloc)),
    }
}

/// The paths of the files that are written to a directory, and their bytes: the main module, and then the adapters.
fn files_in<'w>(
    alloc: Global,
    directory: &str,
    world: &'w ComponentWorld<'_>,
) -> Result<Vec<(String, &'w [u8])>, AllocError>
    ensures { IfOk result (λ v. map file_view v.items
        ≡ files_of (Some directory.now) (world_view world.now)) }
{
    let mut outputs = Vec::new(alloc);
    outputs.push((path_in(alloc, directory, "main")?, world.encoder.module()))?;
    for (name, adapter) in world.adapters.iter() {
        outputs.push((path_in(alloc, directory, name)?, adapter.wasm.as_slice()))?;
    }
    Ok(outputs)
}

/// `DIRECTORY/NAME.wasm`.
fn path_in(alloc: Global, directory: &str, name: &str) -> Result<String, AllocError>
    ensures { IfOk result (λ path. string_bytes path ≡ path_in directory.now name.now) }
{
    format!(in alloc; "{directory}/{name}.wasm")
}

/// Writes files, in order.
fn write_files<'a, F: DirectoryStore>(
    outputs: Vec<(String, &[u8])>,
    files: &mut F,
) -> Result<(), ProgramFault<'a>>
    ensures written { OnOk result (WritesAll (F.held files.old) (F.held files.new)
        (map file_view outputs.entry.items)) }
    ensures fault { IfErr result (IsFileFault (F.held files.old) (F.held files.new)
        (FailsFrom F.held F.write_fails files.new) (map file_view outputs.entry.items)) }
{
    for (path, bytes) in outputs {
        if let Err(e) = files.replace(&path, bytes) {
            return Err(ProgramFault::CannotWrite(path, problem_of(&e)));
        }
    }
    Ok(())
}
