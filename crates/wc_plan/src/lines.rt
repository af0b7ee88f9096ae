//! Plans as lines.

ghost use Rattle.std.specs.Prelude.{◌≡◌, IfErr, OnErr, OnOk, flat_map, map, string_bytes, true, unwrap_or};
ghost use Rattle.std.specs.Option.{option_map};
ghost use Rattle.std.specs.Io.KnownBytes.{Appends};
ghost use Rattle.wc_texts.specs.Puts.{Puts, PutsAny};
ghost use Rattle.wc_plan.specs.Lines.{call_text, called_text, needs_text, owner_text, plan_text, slot_text, use_line};
ghost use Rattle.wc_plan.specs.PlanViews.{owner_view, plan_view, use_view};

use crate::fault::PlanFault;
use crate::{Owner, Plan, Use};
use itoa::Buffer;
use wc_resolve::AbiVariant;
use wc_texts::{PutFailed, Sink};

/// Between the parts of a line.
const SPACE: &[u8] = b" ";

/// The end of a line.
const LINE_FEED: &[u8] = b"\n";

/// Prints a line for each use: `main` or `adapter NAME`, the interface or `$root`, the function's name, `sync` or
/// `async`, `slot N` or `slot -`, and `realloc NAME` or `realloc -`, with one blank between two of them. `async` is an
/// asynchronous import.
///
/// # Errors
///
/// `Output`: a put failed. The sink is failed, and how much was written is left open.
pub fn write_plan<S: Sink>(plan: &Plan, out: &mut S) -> Result<(), PlanFault>
    ensures done { OnOk result
        (Appends (S.written out.old) (S.written out.new) (plan_text (plan_view plan.now))) }
    ensures works { OnOk result (S.is_failed out.new ≡ S.is_failed out.old) }
    ensures output { OnErr result (S.is_failed out.new ≡ true) }
    ensures fault { IfErr result (λ f. f ≡ PlanFault.Output) }
{
    put_uses(out, &plan.uses)?;
    Ok(())
}

/// Puts a line for each use, in order.
fn put_uses<S: Sink>(out: &mut S, uses: &[Use]) -> Result<(), PutFailed>
    ensures { PutsAny S.written S.is_failed out.old out.new
        (flat_map use_line (map use_view uses.now)) result }
{
    for one in uses {
        put_use(out, one)?;
    }
    Ok(())
}

/// Puts a line: the module, the function that it calls, and what the call needs.
fn put_use<S: Sink>(out: &mut S, one: &Use) -> Result<(), PutFailed>
    ensures { Puts S.written S.is_failed out.old out.new (use_line (use_view one.now)) result }
{
    put_owner(out, &one.module)?;
    out.put(SPACE)?;
    put_called(out, one)?;
    put_needs(out, one)
}

/// Puts `main` or `adapter NAME`.
fn put_owner<S: Sink>(out: &mut S, owner: &Owner) -> Result<(), PutFailed>
    ensures { Puts S.written S.is_failed out.old out.new
        (owner_text (owner_view owner.now)) result }
{
    match owner {
        Owner::Main => out.put(b"main"),
        Owner::Adapter(name) => {
            out.put(b"adapter ")?;
            out.put(name.as_bytes())
        }
    }
}

/// Puts the interface, the name and how the function is called.
fn put_called<S: Sink>(out: &mut S, one: &Use) -> Result<(), PutFailed>
    ensures { Puts S.written S.is_failed out.old out.new
        (called_text (use_view one.now).call) result }
{
    out.put(text_or(&one.interface, "$root").as_bytes())?;
    out.put(SPACE)?;
    out.put(one.name.as_bytes())?;
    out.put(SPACE)?;
    out.put(call_text(one.abi))
}

/// Puts the slot, the realloc, and the end of the line.
fn put_needs<S: Sink>(out: &mut S, one: &Use) -> Result<(), PutFailed>
    ensures { Puts S.written S.is_failed out.old out.new (needs_text (use_view one.now)) result }
{
    out.put(b" slot ")?;
    put_slot(out, one.slot)?;
    out.put(b" realloc ")?;
    out.put(text_or(&one.realloc, "-").as_bytes())?;
    out.put(LINE_FEED)
}

/// Puts the number of a slot in decimal, or `-`.
fn put_slot<S: Sink>(out: &mut S, slot: Option<u64>) -> Result<(), PutFailed>
    ensures { Puts S.written S.is_failed out.old out.new (slot_text slot) result }
{
    match slot {
        Some(slot) => {
            let mut digits = Buffer::new();
            out.put(digits.format(slot).as_bytes())
        }
        None => out.put(b"-"),
    }
}

/// A text, or what a line has where there is none.
fn text_or<'a>(text: &'a Option<String>, none: &'a str) -> &'a str
    ensures { result.now ≡ unwrap_or (option_map string_bytes text.now) none.now }
{
    match text {
        Some(text) => text.as_str(),
        None => none,
    }
}

/// `async` of an asynchronous import, else `sync`.
fn call_text(abi: AbiVariant) -> &'static [u8]
    ensures { result.now ≡ call_text abi }
{
    match abi {
        AbiVariant::GuestImportAsync => b"async",
        _ => b"sync",
    }
}
