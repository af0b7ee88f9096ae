//! The paths of faults. A value that is wrong answers the empty path, and each value around it puts
//! one step before it: so reading a text without a fault makes no path.

ghost use Rattle.std.specs.Prelude.{◌≡◌, ◌≢◌, IfOk, string_bytes};
ghost use Rattle.std.specs.List.{list_all};
ghost use Rattle.wc_json.specs.Fault.{IsFault, fault_here};
ghost use Rattle.wc_json.specs.declared.fault.JsonFault.TheVariants.{Memory};
ghost use Rattle.wc_json.specs.Paths.{IsFaultAt, IsReadAt, index_step, is_word, is_word_char, join, key_step, variant_step};

use crate::{JsonFault, Problem};
use std::alloc::{AllocError, Global};
use wc_texts::quoted;

/// The fault of a value itself, whose path has no step yet. It needs no memory.
#[cold]
pub fn fault_here(alloc: Global, problem: Problem) -> JsonFault
    ensures fault { IsFault result (fault_here problem) }
    ensures no_memory { result ≢ Memory }
{
    JsonFault::Wrong {
        path: String::new(alloc),
        problem,
    }
}

/// A path with a step before it. A dot is between them, unless the path begins with a bracket.
fn join(alloc: Global, step: &str, path: &str) -> Result<String, AllocError>
    ensures { IfOk result (λ s. string_bytes s ≡ join step.now path.now) }
{
    match path.as_bytes() {
        [] | [b'[', ..] => format!(in alloc; "{step}{path}"),
        _ => format!(in alloc; "{step}.{path}"),
    }
}

/// Puts a step before the path of a fault. Memory has no path, and comes where the longer one can't
/// be allocated.
fn fault_at(alloc: Global, step: &str, fault: JsonFault) -> JsonFault
    ensures { IsFaultAt step.now fault result }
{
    match fault {
        JsonFault::Wrong { path, problem } => match join(alloc, step, &path) {
            Ok(path) => JsonFault::Wrong { path, problem },
            Err(_) => JsonFault::Memory,
        },
        other => other,
    }
}

/// Puts a member's name before the path of a fault.
#[cold]
pub(crate) fn fault_at_member(alloc: Global, name: &str, fault: JsonFault) -> JsonFault
    ensures { IsFaultAt name.now fault result }
{
    fault_at(alloc, name, fault)
}

/// Puts `[INDEX]` before the path of a fault.
#[cold]
fn fault_at_index(alloc: Global, index: usize, fault: JsonFault) -> JsonFault
    ensures { IsFaultAt (index_step index) fault result }
{
    match format!(in alloc; "[{index}]") {
        Ok(step) => fault_at(alloc, &step, fault),
        Err(_) => JsonFault::Memory,
    }
}

/// `["KEY"]`, with the key escaped, its quotes too.
fn key_step(alloc: Global, key: &str) -> Result<String, AllocError>
    ensures { IfOk result (λ s. string_bytes s ≡ key_step key.now) }
{
    let key = quoted(alloc, key)?;
    format!(in alloc; "[{key}]")
}

/// A fault of the entry under this key.
#[cold]
fn fault_at_key(alloc: Global, key: &str, fault: JsonFault) -> JsonFault
    ensures { IsFaultAt (key_step key.now) fault result }
{
    match key_step(alloc, key) {
        Ok(step) => fault_at(alloc, &step, fault),
        Err(_) => JsonFault::Memory,
    }
}

/// Whether a character is a letter or digit of ASCII, `-` or `_`.
fn is_word_char(c: u8) -> bool
    ensures { result ≡ is_word_char c }
{
    c.is_ascii_alphanumeric() || c == b'-' || c == b'_'
}

/// Whether all characters are such ones.
fn are_word_chars(name: &[u8]) -> bool
    ensures { result ≡ list_all is_word_char name.now }
{
    name.iter().all(|c| is_word_char(*c))
}

/// Whether a name has letters, digits, `-` and `_` of ASCII alone, at least one.
#[tactic(auto, unfolding(crate::specs::Paths::is_word))]
pub(crate) fn is_word(name: &str) -> bool
    ensures { result ≡ is_word name.now }
{
    !name.is_empty() && are_word_chars(name.as_bytes())
}

/// A fault of the only member, of this name: under it as a key, where it is no word.
#[cold]
#[tactic(auto, unfolding(crate::specs::Paths::variant_step))]
fn fault_at_variant(alloc: Global, name: &str, fault: JsonFault) -> JsonFault
    ensures { IsFaultAt (variant_step name.now) fault result }
{
    if is_word(name) {
        fault_at(alloc, name, fault)
    } else {
        fault_at_key(alloc, name, fault)
    }
}

/// The result of reading a member. Of a fault, the member's name comes before the path.
#[inline(always)]
pub fn at_member<T>(alloc: Global, name: &str, read: Result<T, JsonFault>) -> Result<T, JsonFault>
    ensures { IsReadAt name.now read result }
{
    match read {
        Ok(value) => Ok(value),
        Err(fault) => Err(fault_at_member(alloc, name, fault)),
    }
}

/// The reading of the only member, of this name, with its name before the path of a fault.
#[inline(always)]
pub(crate) fn at_variant<T>(
    alloc: Global,
    name: &str,
    read: Result<T, JsonFault>,
) -> Result<T, JsonFault>
    ensures { IsReadAt (variant_step name.now) read result }
{
    match read {
        Ok(value) => Ok(value),
        Err(fault) => Err(fault_at_variant(alloc, name, fault)),
    }
}

/// The reading of the item at this index of a list, with the index before the path of a fault.
#[inline(always)]
pub(crate) fn at_index<T>(
    alloc: Global,
    index: usize,
    read: Result<T, JsonFault>,
) -> Result<T, JsonFault>
    ensures { IsReadAt (index_step index) read result }
{
    match read {
        Ok(value) => Ok(value),
        Err(fault) => Err(fault_at_index(alloc, index, fault)),
    }
}

/// The reading of the entry under this key of a map, with the key before the path of a fault.
#[inline(always)]
pub(crate) fn at_key<T>(
    alloc: Global,
    key: &str,
    read: Result<T, JsonFault>,
) -> Result<T, JsonFault>
    ensures { IsReadAt (key_step key.now) read result }
{
    match read {
        Ok(value) => Ok(value),
        Err(fault) => Err(fault_at_key(alloc, key, fault)),
    }
}
