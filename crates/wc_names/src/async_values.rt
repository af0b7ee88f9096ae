//! Built-ins of futures and streams: `[W-OPERATION-S]F`.

ghost use Rattle.std.specs.Prelude.{◌≡◌, ℕ, List, MatchOption};
ghost use Rattle.wc_names.specs.declared.async_values.AsyncValue.{AsyncValue};
ghost use Rattle.wc_names.specs.declared.async_values.Operation.{Operation};
ghost use Rattle.wc_names.specs.AsyncValues.{bracketed_text, operation_row, operation_text, HasNoParts, HasParts};

use crate::texts::split_at_first;
use wc_texts::strip_prefix;

/// A future or a stream (component model, "Asynchronous Value Types").
#[derive(Clone, Copy, Debug, PartialEq, Eq)]
pub enum AsyncValue {
    Future,
    Stream,
}

/// A built-in of futures and of streams (component model, "Canonical built-ins").
#[derive(Clone, Copy, Debug, PartialEq, Eq)]
pub enum Operation {
    New,
    Write,
    Read,
    CancelWrite,
    CancelRead,
    Forward,
    DropWritable,
    DropReadable,
}

impl Operation {
    /// Whether `[async-lower]` may precede its names.
    pub(crate) fn may_be_lowered(self) -> bool
        ensures { (v : AsyncValue) → result ≡ (operation_row v self).may_be_lowered }
    {
        match self {
            Operation::Write | Operation::Read | Operation::CancelWrite | Operation::CancelRead =>
                true,
            Operation::New
            | Operation::Forward
            | Operation::DropWritable
            | Operation::DropReadable => false,
        }
    }
}

/// The parts of a name.
#[derive(Clone, Copy)]
pub(crate) struct AsyncValueName<'a> {
    pub value: AsyncValue,
    pub operation: Operation,
    /// `unit`, or the number of a future or stream among those of the function.
    pub which: &'a str,
    /// The name of a function.
    pub function: &'a str,
}

/// An operation, and what comes after it and a hyphen.
fn operation_of(text: &str) -> Option<(Operation, &str)>
    ensures { MatchOption result
        ((op : Operation) (v : AsyncValue) (which : List ℕ)
        → ¬ (text.now ≡ operation_text v op which))
        (λ found. (v : AsyncValue) → text.now ≡ operation_text v found.0 found.1.now) }
{
    if let Some(rest) = strip_prefix(text, "new-") {
        return Some((Operation::New, rest));
    }
    if let Some(rest) = strip_prefix(text, "write-") {
        return Some((Operation::Write, rest));
    }
    if let Some(rest) = strip_prefix(text, "read-") {
        return Some((Operation::Read, rest));
    }
    if let Some(rest) = strip_prefix(text, "cancel-write-") {
        return Some((Operation::CancelWrite, rest));
    }
    if let Some(rest) = strip_prefix(text, "cancel-read-") {
        return Some((Operation::CancelRead, rest));
    }
    if let Some(rest) = strip_prefix(text, "forward-") {
        return Some((Operation::Forward, rest));
    }
    if let Some(rest) = strip_prefix(text, "drop-writable-") {
        return Some((Operation::DropWritable, rest));
    }
    if let Some(rest) = strip_prefix(text, "drop-readable-") {
        return Some((Operation::DropReadable, rest));
    }
    None
}

/// The parts of a name in brackets: a future or stream, an operation, and which future or stream it is for.
fn bracketed(text: &str) -> Option<(AsyncValue, Operation, &str)>
    ensures { MatchOption result
        ((v : AsyncValue) (op : Operation) (which : List ℕ)
        → ¬ (text.now ≡ bracketed_text v op which))
        (λ found. text.now ≡ bracketed_text found.0 found.1 found.2.now) }
{
    if let Some(rest) = strip_prefix(text, "future-") {
        return match operation_of(rest) {
            Some((operation, which)) => Some((AsyncValue::Future, operation, which)),
            None => None,
        };
    }
    if let Some(rest) = strip_prefix(text, "stream-") {
        return match operation_of(rest) {
            Some((operation, which)) => Some((AsyncValue::Stream, operation, which)),
            None => None,
        };
    }
    None
}

/// The parts of a name.
pub(crate) fn name_parts(name: &str) -> Option<AsyncValueName<'_>>
    ensures { MatchOption result (HasNoParts name.now)
        (λ n. HasParts name.now n.value n.operation n.which.now n.function.now) }
{
    let Some(rest) = strip_prefix(name, "[") else {
        return None;
    };
    let Some((inside, function)) = split_at_first(rest, ']') else {
        return None;
    };
    match bracketed(inside) {
        Some((value, operation, which)) => Some(AsyncValueName {
            value,
            operation,
            which,
            function,
        }),
        None => None,
    }
}
