//! Worlds and parts of them as JSON, ids, keys, names and core types, out of the lines and words of rows.

use std::alloc::{AllocError, Global};
use std::fmt::Display;
use wc_json::{FromJson, document_from_json, value_from_json};
use wc_lines::input::{Stop, bad_row, number_of};
use wc_lines::lines::Lines;
use wc_lines::rows::Row;
use wc_lines::seeds::row_seed;
use wc_lines::table::named;
use wc_lines::values::put_fault;
use wc_read::{FuncType, ValType};
use wc_resolve::{InterfaceId, Resolve, WorldKey};

/// The value that was made. Without a value, the fault is the answer.
pub fn made<T: Drop, F: Display + Drop>(made: Result<T, F>, out: &mut Lines) -> Result<T, Stop> {
    match made {
        Ok(value) => Ok(value),
        Err(fault) => {
            put_fault(out, fault);
            Err(Stop::BadRow)
        }
    }
}

/// The value that a text of JSON is.
pub fn from_json<T: FromJson>(alloc: Global, text: &str, out: &mut Lines) -> Result<T, Stop> {
    made(value_from_json(alloc, row_seed(), text), out)
}

/// Appends a text, in which each `@` is a number.
fn put_numbered(text: &mut String, copied: &str, number: u32) -> Result<(), AllocError> {
    let mut is_after = false;
    for piece in copied.split('@') {
        if is_after {
            write!(text, "{number}")?;
        }
        text.push_str(piece)?;
        is_after = true;
    }
    Ok(())
}

/// Appends copies of a text: `FIRST COUNT TEXT`. Each `@` becomes a number: FIRST in the first copy, and one more in
/// each copy after it.
fn put_copies(text: &mut String, line: &str, out: &mut Lines) -> Result<(), Stop> {
    let (first, rest) = line.split_once(' ').unwrap_or((line, ""));
    let (count, copied) = rest.split_once(' ').unwrap_or((rest, ""));
    let first = number_of(out, "no number", first)?;
    let count = number_of(out, "no count", count)?;
    for number in first..first.saturating_add(count) {
        put_numbered(text, copied, number)?;
    }
    Ok(())
}

/// The JSON in lines of input: the lines that begin with no small letter, and copies of texts, as `repeat` says.
pub fn json_text(alloc: Global, input: &[&str], out: &mut Lines) -> Result<String, Stop> {
    let mut text = String::new(alloc);
    for line in input {
        if let Some(copies) = line.strip_prefix("repeat ") {
            put_copies(&mut text, copies, out)?;
        } else if !line.chars().next().is_some_and(|c| c.is_ascii_lowercase()) {
            text.push_str(line)?;
        }
        text.push('\n')?;
    }
    Ok(text)
}

/// Builds the `Resolve` of the worlds in lines of input.
pub fn resolve_of(alloc: Global, input: &[&str], out: &mut Lines) -> Result<Resolve, Stop> {
    let text = json_text(alloc, input, out)?;
    let document = made(document_from_json(alloc, row_seed(), &text), out)?;
    made(Resolve::build(alloc, document.parts), out)
}

/// The value that the line `asked JSON` of a row has.
pub fn asked_of<T: FromJson>(alloc: Global, row: &Row<'_>, out: &mut Lines) -> Result<T, Stop> {
    for line in &row.input {
        if let Some(text) = line.strip_prefix("asked ") {
            return from_json(alloc, text, out);
        }
    }
    Err(bad_row(out, "nothing is asked about", row.call))
}

/// A name: a text, or JSON if it begins with quotes.
pub fn name_of(alloc: Global, text: &str, out: &mut Lines) -> Result<String, Stop> {
    if text.starts_with('"') {
        return from_json(alloc, text, out);
    }
    Ok(String::from_str(alloc, text)?)
}

/// The number after a letter, as in `t0`.
pub fn id_of(out: &mut Lines, letter: char, word: &str) -> Result<u32, Stop> {
    match word.strip_prefix(letter) {
        Some(digits) => number_of(out, "no id", digits),
        None => Err(bad_row(out, "no id", word)),
    }
}

/// A key: the id of an interface, as `i0`, or a name.
pub fn key_of(alloc: Global, word: &str, out: &mut Lines) -> Result<WorldKey, Stop> {
    if let Some(digits) = word.strip_prefix('i') {
        if let Ok(index) = digits.parse::<u32>() {
            return Ok(WorldKey::Interface(InterfaceId(index)));
        }
    }
    Ok(WorldKey::Name(name_of(alloc, word, out)?))
}

/// A text at its first space; without a space, the whole text.
pub fn cut(text: &str) -> (&str, &str) {
    text.split_once(' ').unwrap_or((text, ""))
}

/// A name and what comes after it and a space. The name is a word, or a text in quotes without any.
pub(crate) fn cut_name(text: &str) -> (&str, &str) {
    match text.split_once("\" ") {
        Some((name, rest)) if name.starts_with('"') => (&text[..name.len() + 1], rest),
        _ => cut(text),
    }
}

const VAL_TYPES: [(&str, ValType); 7] = [
    ("i32", ValType::I32),
    ("i64", ValType::I64),
    ("f32", ValType::F32),
    ("f64", ValType::F64),
    ("v128", ValType::V128),
    ("funcref", ValType::FuncRef),
    ("externref", ValType::ExternRef),
];

fn val_types(alloc: Global, text: &str, out: &mut Lines) -> Result<Vec<ValType>, Stop> {
    let mut types = Vec::new(alloc);
    for word in text.split_whitespace() {
        match named(&VAL_TYPES, word) {
            Some(ty) => types.push(ty)?,
            None => return Err(bad_row(out, "no value type", word)),
        }
    }
    Ok(types)
}

/// A type of functions: `PARAM.. -> RESULT..`.
pub(crate) fn func_type(alloc: Global, text: &str, out: &mut Lines) -> Result<FuncType, Stop> {
    let Some((params, results)) = text.split_once("->") else {
        return Err(bad_row(out, "no `->`", text));
    };
    let params = val_types(alloc, params, out)?;
    Ok(FuncType::new(params, val_types(alloc, results, out)?))
}
