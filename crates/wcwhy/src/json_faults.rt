//! Faults as JSON, for programs that call this one.

ghost use Rattle.std.specs.Prelude.{◌≡◌, ◌∷◌, [], IfNone, IfOk, IfSome, OnOk};
ghost use Rattle.json.specs.Token.{key};
ghost use Rattle.json.specs.Tree.{json_tokens};
ghost use Rattle.wc_program.specs.Program.{Prints, failure};
ghost use Rattle.wc_program.specs.Screen.{Becomes};
ghost use Rattle.wc_why_text.specs.Private.Tokens.{Puts};
ghost use Rattle.wcwhy.specs.Fault.{NeedsText};
ghost use Rattle.wcwhy.specs.JsonFaults.{IsReportedJson, fault_json_line, members_json};
ghost use Rattle.wcwhy.specs.Places.{place_json};
ghost use Rattle.wcwhy.specs.declared.fault.WhyFault.TheVariants.{Memory};

use crate::fault::WhyFault;
use crate::places::put_place;
use json::Writer;
use std::alloc::{AllocError, Global};
use wc_program::{FAILURE, Screen, Text, print};
use wc_texts::PutFailed;
use wc_why_text::{begin_object, end_object, put_text};

/// The line of the fault `Memory`, which is printed too where there is no memory for another.
const MEMORY: &str = "{\"text\":\"out of memory\",\"place\":null}\n";

/// The line of an output that failed.
const UNPRINTED: &str = "{\"text\":\"cannot print\",\"place\":null}\n";

/// Prints why the program failed as JSON in a line: an object with `text`, the text of the fault, and `place`, what the
/// fault is about, or null. If an allocation for the JSON fails, it is that of the fault `Memory`. The answer is the
/// status of a failure.
pub(crate) fn report_json<E: Screen>(alloc: Global, err: &mut E, fault: &WhyFault<'_>) -> u8
    ensures { IsReportedJson fault.now (Becomes E.ends err.old err.new) result }
{
    match fixed_json(fault) {
        Some(line) => print(err, &Text(line), FAILURE),
        None => report_made(alloc, err, fault),
    }
}

/// The line of a fault that is always the same.
#[tactic(auto, unfolding(json::specs::Print::print_from, json::specs::Print::escape_byte, wc_texts::specs::Shapes::object_of))]
fn fixed_json(fault: &WhyFault<'_>) -> Option<&'static str>
    ensures whole { IfSome result (λ line. line.now ≡ fault_json_line fault.now) }
    ensures none { IfNone result (NeedsText fault.now) }
{
    match fault {
        WhyFault::Memory => Some(MEMORY),
        WhyFault::Output => Some(UNPRINTED),
        _ => None,
    }
}

/// Prints a fault as JSON, where memory is needed for this. The answer is the status of a failure.
fn report_made<E: Screen>(alloc: Global, err: &mut E, fault: &WhyFault<'_>) -> u8
    requires { NeedsText fault.now }
    ensures { IsReportedJson fault.now (Becomes E.ends err.old err.new) result }
{
    match fault_line(alloc, fault) {
        Ok(line) => print_bytes(err, &line),
        Err(AllocError) => print_memory(err),
    }
}

/// Prints that there was no memory. The answer is the status of a failure.
#[tactic(auto, unfolding(json::specs::Print::print_from, json::specs::Print::escape_byte, wc_texts::specs::Shapes::object_of))]
fn print_memory<E: Screen>(err: &mut E) -> u8
    ensures { Prints (fault_json_line Memory) failure (Becomes E.ends err.old err.new) result }
{
    print(err, &Text(MEMORY), FAILURE)
}

/// A fault as JSON, in a line.
fn fault_line(alloc: Global, fault: &WhyFault<'_>) -> Result<Vec<u8>, AllocError>
    ensures { IfOk result (λ v. v.items ≡ fault_json_line fault.now) }
{
    let text = fault.text(alloc)?;
    let mut out = Writer::new(Vec::new(alloc));
    put_fault(&mut out, &text, fault)?;
    let mut line = out.into_inner();
    line.push(b'\n')?;
    Ok(line)
}

/// Writes this text of a fault, and the fault's place.
fn put_fault(out: &mut Writer, text: &str, fault: &WhyFault<'_>) -> Result<(), AllocError>
    ensures { OnOk result (Puts out.old out.new
        (json_tokens (members_json text.now (place_json fault.now)))) }
{
    begin_object(out)?;
    put_text(out, "text", text)?;
    put_key(out, "place")?;
    put_place(out, fault)?;
    end_object(out)
}

/// Writes the name of a member: the writer's call, with a contract in this crate's words.
fn put_key(out: &mut Writer, name: &str) -> Result<(), AllocError>
    ensures { OnOk result (Puts out.old out.new (key name.now ∷ [])) }
{
    out.key(name)
}

/// Prints bytes. The answer is the status of a failure.
fn print_bytes<E: Screen>(err: &mut E, bytes: &[u8]) -> u8
    ensures { Prints bytes.now failure (Becomes E.ends err.old err.new) result }
{
    match err.show_bytes(bytes) {
        Ok(()) => FAILURE,
        Err(PutFailed) => FAILURE,
    }
}
