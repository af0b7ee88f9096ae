//! Bytes out of the lines of a row's input.
//!
//! A line is bytes in hex, two digits each, with or without spaces between them; a text in double quotes is its
//! bytes. A comment begins at a `#` outside quotes. `repeat N` at the front makes N copies of the line's bytes.

use crate::lines::Lines;
use hex::FromHexError;
use std::alloc::{AllocError, AllocFailed, Global};
use std::fmt::{self, Display, Formatter};

/// Why a row has no answer of its call.
#[derive(Clone, Copy)]
pub enum Stop {
    /// An allocation failed.
    Memory,
    /// The row can't be read, which the answer says already.
    BadRow,
}

impl From<AllocError> for Stop {
    fn from(_e: AllocError) -> Stop {
        Stop::Memory
    }
}

impl<T: Drop> From<AllocFailed<T>> for Stop {
    fn from(_e: AllocFailed<T>) -> Stop {
        Stop::Memory
    }
}

/// The flaw of a row, and the text that has it.
#[derive(Clone, Copy)]
struct Flaw<'a> {
    what: &'a str,
    text: &'a str,
}

impl Display for Flaw<'_> {
    fn fmt<W: fmt::Write>(&self, f: &mut Formatter<W>) -> fmt::Result {
        write!(f, "{} {:?}", self.what, self.text)
    }
}

/// Ends an answer, which is short if memory ran out for the call. False if a row has another call.
pub fn end_answer(answered: Result<bool, Stop>, out: &mut Lines) -> bool {
    match answered {
        Ok(is_answered) => is_answered,
        Err(Stop::Memory) => {
            out.lack_memory();
            true
        }
        Err(Stop::BadRow) => true,
    }
}

/// Answers that `text` is wrong in a row.
pub fn bad_row(out: &mut Lines, what: &str, text: &str) -> Stop {
    out.bad_row(Flaw { what, text });
    Stop::BadRow
}

/// The number that a word encodes. If it encodes none, the answer says so, with `what` and the word.
pub fn number_of(out: &mut Lines, what: &str, word: &str) -> Result<u32, Stop> {
    match word.parse::<u32>() {
        Ok(number) => Ok(number),
        Err(_) => Err(bad_row(out, what, word)),
    }
}

/// The bytes of lines of hex. If there are none, the answer says why, or memory ran out.
pub fn bytes_of(alloc: Global, lines: &[&str], out: &mut Lines) -> Result<Vec<u8>, Stop> {
    let mut bytes = Vec::new(alloc);
    for line in lines {
        put_line(alloc, &mut bytes, line, out)?;
    }
    Ok(bytes)
}

/// The lines that begin with a word and a space, without these.
pub fn lines_after<'a>(
    alloc: Global,
    lines: &[&'a str],
    word: &str,
) -> Result<Vec<&'a str>, AllocError> {
    let mut found = Vec::new(alloc);
    for line in lines {
        if let Some((first, rest)) = line.split_once(' ') {
            if first == word {
                found.push(rest)?;
            }
        }
    }
    Ok(found)
}

/// Copies lines, as the arguments of a program.
pub fn texts_of(alloc: Global, lines: &[&str]) -> Result<Vec<String>, AllocError> {
    let mut texts = Vec::new(alloc);
    for line in lines {
        texts.push(String::from_str(alloc, line)?)?;
    }
    Ok(texts)
}

/// Appends the bytes of a line, or copies of bytes: three for `repeat 3 00`.
fn put_line(alloc: Global, bytes: &mut Vec<u8>, line: &str, out: &mut Lines) -> Result<(), Stop> {
    let Some(rest) = line.strip_prefix("repeat ") else {
        return put_hex(alloc, bytes, line, out);
    };
    let (count, hex) = rest.split_once(' ').unwrap_or((rest, ""));
    let count = number_of(out, "no count", count)?;
    let mut copied = Vec::new(alloc);
    put_hex(alloc, &mut copied, hex, out)?;
    for _ in 0..count {
        bytes.extend_from_slice(&copied)?;
    }
    Ok(())
}

fn put_hex(alloc: Global, bytes: &mut Vec<u8>, line: &str, out: &mut Lines) -> Result<(), Stop> {
    let mut is_quoted = false;
    for piece in line.split('"') {
        if is_quoted {
            bytes.extend_from_slice(piece.as_bytes())?;
        } else if let Some((front, _)) = piece.split_once('#') {
            return put_digits(alloc, bytes, front, out);
        } else {
            put_digits(alloc, bytes, piece, out)?;
        }
        is_quoted = !is_quoted;
    }
    if is_quoted {
        return Ok(());
    }
    Err(bad_row(out, "open quotes", line))
}

fn put_digits(
    alloc: Global,
    bytes: &mut Vec<u8>,
    digits: &str,
    out: &mut Lines,
) -> Result<(), Stop> {
    for word in digits.split_whitespace() {
        match hex::decode(alloc, word) {
            Ok(decoded) => bytes.extend_from_slice(&decoded)?,
            Err(FromHexError::OutOfMemory) => return Err(Stop::Memory),
            Err(_) => return Err(bad_row(out, "no hex", word)),
        }
    }
    Ok(())
}
