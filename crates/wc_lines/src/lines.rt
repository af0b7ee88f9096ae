//! The text of an answer.

use std::alloc::{AllocError, Global};
use std::fmt::Display;

/// Lines that are appended to. If memory runs out, a part is left out, and the whole is no longer available. The
/// answer of a row that can't be read is one line that says so; lines that are appended before and after it are left
/// out.
#[derive(Drop)]
pub struct Lines {
    text: String,
    is_short: bool,
    is_ended: bool,
}

impl Lines {
    /// Lines without text.
    pub fn new(alloc: Global) -> Lines {
        Lines {
            text: String::new(alloc),
            is_short: false,
            is_ended: false,
        }
    }

    /// Appends a text.
    pub fn push_str(&mut self, text: &str) {
        if self.is_ended {
            return;
        }
        let pushed = self.text.push_str(text);
        let _ = self.keep(pushed);
    }

    /// Appends a character.
    pub fn push(&mut self, character: char) {
        if self.is_ended {
            return;
        }
        let pushed = self.text.push(character);
        let _ = self.keep(pushed);
    }

    /// Puts a value's text; `write!` and `writeln!` call it.
    pub fn write_fmt<D: Display + Drop>(&mut self, value: D) {
        if self.is_ended {
            return;
        }
        let written = self.text.write_fmt(value);
        let _ = self.keep(written);
    }

    /// Appends a word and, right after it, a number in decimal.
    pub fn number(&mut self, word: &str, number: u64) {
        self.push_str(word);
        write!(self, "{number}");
    }

    /// Appends a line: a word and, right after it, a number in decimal.
    pub fn number_line(&mut self, word: &str, number: u64) {
        self.number(word, number);
        self.push('\n');
    }

    /// Appends a word and, right after it, a text as `Debug` shows it.
    pub fn quoted(&mut self, word: &str, text: &str) {
        self.push_str(word);
        write!(self, "{text:?}");
    }

    /// A word, and `true` or `false` after it.
    pub fn flag(&mut self, word: &str, is_set: bool) {
        self.push_str(word);
        self.push_str(if is_set { "true" } else { "false" });
    }

    /// A word, and a byte in two hex digits after it.
    pub fn hex(&mut self, word: &str, byte: u8) {
        self.push_str(word);
        write!(self, "{byte:02x}");
    }

    /// Appends a line feed.
    pub fn end(&mut self) {
        self.push('\n');
    }

    /// Makes the answer one line: that the row can't be read, and why. The first such line stays.
    pub fn bad_row<D: Display + Drop>(&mut self, why: D) {
        if !self.is_ended {
            self.text.clear();
            self.push_str("bad row: ");
            self.write_fmt(why);
            self.end();
            self.is_ended = true;
        }
    }

    /// Whether a step succeeded. If not, memory ran out for it, and so for a part of the answer.
    fn keep(&mut self, done: Result<(), AllocError>) -> bool {
        let is_done = done.is_ok();
        if !is_done {
            self.is_short = true;
        }
        is_done
    }

    /// Leaves a part out, for which memory ran out.
    pub fn lack_memory(&mut self) {
        self.is_short = true;
    }

    /// The whole text; Err if memory ran out.
    pub fn text(&self) -> Result<&str, AllocError> {
        if self.is_short {
            return Err(AllocError);
        }
        Ok(self.text.as_str())
    }
}
