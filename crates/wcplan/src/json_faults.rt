//! Faults as JSON, for programs that call this one.

ghost use Rattle.std.specs.Prelude.{◌≡◌, ◌++◌, IfNone, IfOk, IfSome, OnOk, codes};
ghost use Rattle.json.specs.Json.{string};
ghost use Rattle.wc_program.specs.Program.{Prints, failure};
ghost use Rattle.wc_program.specs.Screen.{Becomes};
ghost use Rattle.wc_record.specs.Objects.{PutsJson};
ghost use Rattle.wc_record.specs.Texts.{text_of};
ghost use Rattle.wcplan_inputs.specs.Details.{fault_lines};
ghost use Rattle.wcplan_inputs.specs.Fault.{NeedsText, program_fault_text};
ghost use Rattle.wcplan.specs.JsonFaults.{IsReportedJson, exporter_place, fault_json, fault_place, members_text, part_place, plan_place, read_place, unplaced, world_place};

use json::Writer;
use std::alloc::{AllocError, Global};
use wc_gc::TrimPlace;
use wc_plan::PlanPlace;
use wc_program::{FAILURE, Screen, Text, TextBetween, print};
use wc_read::ReadPlace;
use wc_record::{
    key_to_json, part_to_json, plan_place_to_json, trim_fault_to_json, trim_place_to_json,
    world_place_to_json,
};
use wc_texts::{PutFailed, Refused};
use wc_world::WorldFault;
use wcplan_inputs::{Explained, ExplainedPart, ExporterFault, ProgramFault};

/// The object that is printed if an allocation failed, either as the fault itself or in writing a fault as JSON.
const MEMORY: &str = "{\"text\":\"out of memory\",\"place\":null}";

/// The object of worlds that are not text, and look like nothing that is known.
const NOT_TEXT: &str = "{\"text\":\"Json: not UTF-8\",\"place\":null}";

/// The object of an output that failed.
const UNPRINTED: &str = "{\"text\":\"cannot print\",\"place\":null}";

/// The missing place of a fault, in JSON.
const NULL: &[u8] = b"null";

/// Prints why the program failed as JSON in a line: an object with `text`, the text of the fault with its lines, and
/// `place`, the thing that the fault is about. `part_to_json` of `wc_record` writes it for worlds that are not
/// well-formed, `trim_place_to_json` for a main module that can't be read, `world_place_to_json` or
/// `trim_fault_to_json` for a component without a world, and `plan_place_to_json` for a component without a plan.
/// `key_to_json` writes a key that no export or import has, or that no module or several modules export. For other
/// faults `place` is null. If an allocation for the JSON fails, the object is that of the fault `Memory`. The result
/// is the exit status of a failure.
pub(crate) fn report_json<E: Screen>(alloc: Global, err: &mut E, fault: &ProgramFault<'_>) -> u8
    ensures { IsReportedJson fault.now (Becomes E.ends err.old err.new) result }
{
    match fixed_json(fault) {
        Some(text) => print_text(err, text),
        None => report_made(alloc, err, fault),
    }
}

/// The object of a fault whose text is always the same.
#[tactic(auto, unfolding(json::specs::Print::print_from, json::specs::Print::escape_byte))]
fn fixed_json(fault: &ProgramFault<'_>) -> Option<&'static str>
    ensures whole { IfSome result (λ text. text.now ≡ fault_json fault.now) }
    ensures none { IfNone result (NeedsText fault.now) }
{
    match fault {
        ProgramFault::Memory => Some(MEMORY),
        ProgramFault::NotText(None) => Some(NOT_TEXT),
        ProgramFault::Output => Some(UNPRINTED),
        ProgramFault::CannotRead(_, _)
        | ProgramFault::NotText(Some(_))
        | ProgramFault::NotJson(_, _)
        | ProgramFault::RepeatedMember(_)
        | ProgramFault::Json(_)
        | ProgramFault::Selection(_)
        | ProgramFault::NoAdapter(_, _, _)
        | ProgramFault::NoWorld(_, _)
        | ProgramFault::NoExport(_, _)
        | ProgramFault::NoImport(_, _, _)
        | ProgramFault::Resolve(_)
        | ProgramFault::Dedupe(_)
        | ProgramFault::Exporter(_)
        | ProgramFault::Encoder(_)
        | ProgramFault::World(_)
        | ProgramFault::Plan(_)
        | ProgramFault::Ways(_)
        | ProgramFault::CannotMake(_, _)
        | ProgramFault::CannotWrite(_, _) => None,
    }
}

/// Prints a fault as JSON, which needs memory. The result is the status of a failure.
fn report_made<E: Screen>(alloc: Global, err: &mut E, fault: &ProgramFault<'_>) -> u8
    requires { NeedsText fault.now }
    ensures { IsReportedJson fault.now (Becomes E.ends err.old err.new) result }
{
    match fault_line(alloc, fault) {
        Ok(line) => print_bytes(err, &line),
        Err(AllocError) => print_text(err, MEMORY),
    }
}

/// A fault as JSON, in a line.
fn fault_line(alloc: Global, fault: &ProgramFault<'_>) -> Result<Vec<u8>, AllocError>
    ensures { IfOk result (λ v. v.items ≡ fault_json fault.now ++ codes "\n") }
{
    let text = text_of(alloc, fault)?;
    let place = place_of(alloc, fault)?;
    members_line(alloc, &text, &place)
}

/// An object with these two members, a text and a place, in a line.
fn members_line(alloc: Global, text: &[u8], place: &[u8]) -> Result<Vec<u8>, AllocError>
    ensures { IfOk result (λ v. v.items ≡ members_text text.now place.now ++ codes "\n") }
{
    let mut line = Vec::from_slice(alloc, b"{\"text\":")?;
    line.extend_from_slice(text)?;
    line.extend_from_slice(b",\"place\":")?;
    line.extend_from_slice(place)?;
    line.extend_from_slice(b"}\n")?;
    Ok(line)
}

/// The text of a fault with its lines, as JSON.
fn text_of(alloc: Global, fault: &ProgramFault<'_>) -> Result<Vec<u8>, AllocError>
    ensures { IfOk result (λ v. v.items
        ≡ text_of (string (program_fault_text fault.now ++ fault_lines fault.now))) }
{
    let text = fault.text_and_details(alloc)?;
    string_to_json(alloc, &text)
}

/// The place of a fault, as JSON.
fn place_of(alloc: Global, fault: &ProgramFault<'_>) -> Result<Vec<u8>, AllocError>
    ensures { IfOk result (λ v. v.items ≡ fault_place fault.now) }
{
    match fault {
        ProgramFault::Resolve(refused) => part_place(alloc, &refused.place),
        ProgramFault::Dedupe(refused) => read_place(alloc, refused.place),
        ProgramFault::World(refused) => world_place(alloc, refused),
        ProgramFault::Plan(refused) => plan_place(alloc, &refused.place),
        ProgramFault::Exporter(fault) => exporter_place(alloc, fault),
        ProgramFault::NoExport(key, _) => key_to_json(alloc, key),
        ProgramFault::NoImport(key, _, _) => key_to_json(alloc, key),
        _ => Vec::from_slice(alloc, NULL),
    }
}

/// The key of a fault about exporters, as JSON.
fn exporter_place(alloc: Global, fault: &ExporterFault) -> Result<Vec<u8>, AllocError>
    ensures { IfOk result (λ v. v.items ≡ exporter_place fault.now) }
{
    match fault {
        ExporterFault::NoExporter(key, _) => key_to_json(alloc, key),
        ExporterFault::SeveralExporters(key, _) => key_to_json(alloc, key),
        ExporterFault::Memory => Vec::from_slice(alloc, NULL),
    }
}

/// The part that a fault of worlds is about, as JSON.
fn part_place(alloc: Global, part: &Option<ExplainedPart>) -> Result<Vec<u8>, AllocError>
    ensures { IfOk result (λ v. v.items ≡ part_place part.now) }
{
    match part {
        Some(part) => part_to_json(alloc, part.part),
        None => Vec::from_slice(alloc, NULL),
    }
}

/// Where reading the main module stopped, as JSON.
fn read_place(alloc: Global, place: Option<ReadPlace>) -> Result<Vec<u8>, AllocError>
    ensures { IfOk result (λ v. v.items ≡ read_place place) }
{
    match place {
        Some(place) => trim_place_to_json(alloc, TrimPlace::Bytes(place)),
        None => Vec::from_slice(alloc, NULL),
    }
}

/// The place of a fault of a component's world, as JSON; if the fault has none, the adapter that it names.
fn world_place(
    alloc: Global,
    refused: &Refused<WorldFault, Explained>,
) -> Result<Vec<u8>, AllocError>
    ensures { IfOk result (λ v. v.items ≡ world_place refused.now) }
{
    match &refused.place {
        Some(explained) => world_place_to_json(alloc, &explained.place),
        None => unplaced(alloc, &refused.fault),
    }
}

/// The adapter that a fault of trimming is about, as JSON.
fn unplaced(alloc: Global, fault: &WorldFault) -> Result<Vec<u8>, AllocError>
    ensures { IfOk result (λ v. v.items ≡ unplaced fault.now) }
{
    match fault {
        WorldFault::Trim(adapter, fault) => trim_fault_to_json(alloc, adapter, fault),
        _ => Vec::from_slice(alloc, NULL),
    }
}

/// The function that a fault of a plan is about, as JSON.
fn plan_place(alloc: Global, place: &Option<PlanPlace>) -> Result<Vec<u8>, AllocError>
    ensures { IfOk result (λ v. v.items ≡ plan_place place.now) }
{
    match place {
        Some(place) => plan_place_to_json(alloc, place),
        None => Vec::from_slice(alloc, NULL),
    }
}

/// A text as JSON.
fn string_to_json(alloc: Global, text: &str) -> Result<Vec<u8>, AllocError>
    ensures { IfOk result (λ v. v.items ≡ text_of (string text.now)) }
{
    let mut out = Writer::new(Vec::new(alloc));
    put_string(&mut out, text)?;
    Ok(out.into_inner())
}

/// Writes a text as JSON.
fn put_string(out: &mut Writer, text: &str) -> Result<(), AllocError>
    ensures { OnOk result (PutsJson out.old out.new (string text.now)) }
{
    out.string(text)
}

/// Prints bytes. The result is the status of a failure.
fn print_bytes<E: Screen>(err: &mut E, bytes: &[u8]) -> u8
    ensures { Prints bytes.now failure (Becomes E.ends err.old err.new) result }
{
    match err.show_bytes(bytes) {
        Ok(()) => FAILURE,
        Err(PutFailed) => FAILURE,
    }
}

/// Prints a text in a line. The result is the status of a failure.
fn print_text<E: Screen>(err: &mut E, text: &str) -> u8
    ensures { Prints (text.now ++ codes "\n") failure (Becomes E.ends err.old err.new) result }
{
    let line = TextBetween {
        before: "",
        text: &Text(text),
        after: "\n",
    };
    print(err, &line, FAILURE)
}
