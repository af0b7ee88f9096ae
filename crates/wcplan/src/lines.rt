//! The lines that are printed of a component's plan.

ghost use Rattle.std.specs.Prelude.{◌≡◌, IfOk, map, string_bytes, unwrap_or};
ghost use Rattle.std.specs.Option.{option_map};
ghost use Rattle.wc_plan.specs.Lines.{call_text, called_text, owner_text, slot_text};
ghost use Rattle.wc_plan.specs.PlanViews.{owner_view, plan_view, use_view};
ghost use Rattle.wcplan.specs.Lines.{lines_text, needed_text, printed_line, use_text};

use itoa::Buffer;
use std::alloc::{AllocError, Global};
use wc_plan::{Owner, Plan, Use};
use wc_resolve::AbiVariant;
use wc_texts::escaped;

/// The lines of a plan, as `wc_plan::write_plan` writes them, but each escaped (`wc_texts::escaped`): so each is one
/// line, whatever the names in it.
///
/// # Errors
///
/// `AllocError`: an allocation failed.
pub(crate) fn plan_lines(alloc: Global, plan: &Plan) -> Result<String, AllocError>
    ensures { IfOk result (λ text. string_bytes text ≡ lines_text (plan_view plan.now)) }
{
    lines_of(alloc, &plan.uses)
}

/// A line for each use, in order.
fn lines_of(alloc: Global, uses: &[Use]) -> Result<String, AllocError>
    ensures { IfOk result (λ text. string_bytes text ≡ lines_text (map use_view uses.now)) }
{
    let mut lines = String::new(alloc);
    for one in uses {
        let line = printed_line(alloc, one)?;
        lines.push_str(&line)?;
    }
    Ok(lines)
}

/// The line of a use, escaped, and its end.
fn printed_line(alloc: Global, one: &Use) -> Result<String, AllocError>
    ensures { IfOk result (λ line. string_bytes line ≡ printed_line (use_view one.now)) }
{
    let text = use_text(alloc, one)?;
    let text = escaped(alloc, &text)?;
    format!(in alloc; "{text}\n")
}

/// The line of a use, without its end.
fn use_text(alloc: Global, one: &Use) -> Result<String, AllocError>
    ensures { IfOk result (λ text. string_bytes text ≡ use_text (use_view one.now)) }
{
    let owner = owner_text(alloc, &one.module)?;
    let called = called_text(alloc, one)?;
    let needed = needed_text(alloc, one)?;
    format!(in alloc; "{owner} {called}{needed}")
}

/// `main` or `adapter NAME`.
fn owner_text(alloc: Global, owner: &Owner) -> Result<String, AllocError>
    ensures { IfOk result (λ text. string_bytes text ≡ owner_text (owner_view owner.now)) }
{
    match owner {
        Owner::Main => String::from_str(alloc, "main"),
        Owner::Adapter(name) => format!(in alloc; "adapter {name}"),
    }
}

/// The interface, the name, and how the function is called.
fn called_text(alloc: Global, one: &Use) -> Result<String, AllocError>
    ensures { IfOk result (λ text. string_bytes text
        ≡ called_text (use_view one.now).call) }
{
    let interface = text_or(&one.interface, "$root");
    let name = one.name.as_str();
    let call = call_text(one.abi);
    format!(in alloc; "{interface} {name} {call}")
}

/// The slot and the realloc.
fn needed_text(alloc: Global, one: &Use) -> Result<String, AllocError>
    ensures { IfOk result (λ text. string_bytes text ≡ needed_text (use_view one.now)) }
{
    let slot = slot_text(alloc, one.slot)?;
    let realloc = text_or(&one.realloc, "-");
    format!(in alloc; " slot {slot} realloc {realloc}")
}

/// A slot, or `-`.
fn slot_text(alloc: Global, slot: Option<u64>) -> Result<String, AllocError>
    ensures { IfOk result (λ text. string_bytes text ≡ slot_text slot) }
{
    match slot {
        Some(slot) => String::from_str(alloc, Buffer::new().format(slot)),
        None => String::from_str(alloc, "-"),
    }
}

/// The text, or `none` if it is missing.
fn text_or<'a>(text: &'a Option<String>, none: &'a str) -> &'a str
    ensures { result.now ≡ unwrap_or (option_map string_bytes text.now) none.now }
{
    match text {
        Some(text) => text.as_str(),
        None => none,
    }
}

/// `async` for an asynchronous import, otherwise `sync`.
fn call_text(abi: AbiVariant) -> &'static str
    ensures { result.now ≡ call_text abi }
{
    match abi {
        AbiVariant::GuestImportAsync => "async",
        _ => "sync",
    }
}
