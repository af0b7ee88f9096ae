//! Rows of tests, read out of the text of a file.
//!
//! A file is lines. Lines that begin with `#` are comments. The paragraphs of a file are rows and fixtures. A
//! paragraph ends at a blank line, and before a line that begins another. Each line of a paragraph begins with a word
//! that says what the rest of it is:
//!
//! - `row NAME`: a row begins, which shows what its name says;
//! - `fixture NAME`: lines of input begin that later rows use;
//! - `call NAME ARGUMENT..`: the call;
//! - `in TEXT`: a line of input;
//! - `with NAME`: all lines of input of a fixture, instead of this line;
//! - `out TEXT`: a line of the answer.

use crate::table::named;
use std::alloc::{AllocError, Global};
use std::mem;

/// A row: a call, its input, and the wanted answer.
#[derive(Drop)]
pub struct Row<'a> {
    /// The name of the row, which says what it shows.
    pub name: &'a str,
    /// The name of the call.
    pub call: &'a str,
    /// The words after the call's name on its line.
    pub arguments: Vec<&'a str>,
    /// The lines of input, with the lines of fixtures among them.
    pub input: Vec<&'a str>,
    /// The lines of the answer that is wanted.
    pub answer: Vec<&'a str>,
}

impl<'a> Row<'a> {
    fn new(alloc: Global) -> Row<'a> {
        Row {
            name: "",
            call: "",
            arguments: Vec::new(alloc),
            input: Vec::new(alloc),
            answer: Vec::new(alloc),
        }
    }

    /// The argument at an index; the empty text if there are fewer.
    pub fn argument(&self, index: usize) -> &'a str {
        self.arguments.get(index).copied().unwrap_or("")
    }
}

/// The flaw of a paragraph.
#[derive(Clone, Copy)]
pub enum Flaw<'a> {
    /// A line begins with no word of the format.
    Line(&'a str),
    /// No fixture of that name comes before.
    Fixture(&'a str),
}

/// A paragraph. In a fixture, only the name and the lines of input are set.
#[derive(Drop)]
pub struct Paragraph<'a> {
    pub row: Row<'a>,
    /// The first thing that is wrong with it.
    pub flaw: Option<Flaw<'a>>,
    is_fixture: bool,
}

/// The part of a row that a line of a paragraph is.
#[derive(Clone, Copy)]
enum Part {
    Row,
    Fixture,
    Call,
    Input,
    Answer,
    With,
}

const PARTS: [(&str, Part); 6] = [
    ("row", Part::Row),
    ("fixture", Part::Fixture),
    ("call", Part::Call),
    ("in", Part::Input),
    ("out", Part::Answer),
    ("with", Part::With),
];

impl<'a> Paragraph<'a> {
    fn new(alloc: Global) -> Paragraph<'a> {
        Paragraph {
            row: Row::new(alloc),
            flaw: None,
            is_fixture: false,
        }
    }

    /// Adds a line that is no comment and not blank. `fixtures` are the fixtures before it.
    fn add(&mut self, line: &'a str, fixtures: &[Paragraph<'a>]) -> Result<(), AllocError> {
        let (word, rest) = line.split_once(' ').unwrap_or((line, ""));
        match named(&PARTS, word) {
            Some(Part::Row) => self.row.name = rest,
            Some(Part::Fixture) => {
                self.row.name = rest;
                self.is_fixture = true;
            }
            Some(Part::Call) => self.set_call(rest)?,
            Some(Part::Input) => self.row.input.push(rest)?,
            Some(Part::Answer) => self.row.answer.push(rest)?,
            Some(Part::With) => self.add_fixture(rest, fixtures)?,
            None => self.find(Flaw::Line(line)),
        }
        Ok(())
    }

    fn set_call(&mut self, line: &'a str) -> Result<(), AllocError> {
        let (call, rest) = line.split_once(' ').unwrap_or((line, ""));
        self.row.call = call;
        for word in rest.split_whitespace() {
            self.row.arguments.push(word)?;
        }
        Ok(())
    }

    fn add_fixture(&mut self, name: &'a str, fixtures: &[Paragraph<'a>]) -> Result<(), AllocError> {
        for fixture in fixtures {
            if fixture.row.name == name {
                return self.row.input.extend_from_slice(&fixture.row.input);
            }
        }
        self.find(Flaw::Fixture(name));
        Ok(())
    }

    fn find(&mut self, flaw: Flaw<'a>) {
        if self.flaw.is_none() {
            self.flaw = Some(flaw);
        }
    }
}

/// Whether a line begins a row or a fixture.
fn begins_paragraph(line: &str) -> bool {
    let (word, _) = line.split_once(' ').unwrap_or((line, ""));
    word == "row" || word == "fixture"
}

/// The rows of a file, and the fixtures that it defines.
#[derive(Drop)]
pub struct Rows<'a> {
    pub rows: Vec<Paragraph<'a>>,
    fixtures: Vec<Paragraph<'a>>,
    /// The paragraph that the lines so far leave open.
    open: Paragraph<'a>,
    is_open: bool,
}

impl<'a> Rows<'a> {
    /// Splits the text of a file into its rows and fixtures.
    pub fn read(alloc: Global, text: &'a str) -> Result<Rows<'a>, AllocError> {
        let mut rows = Rows {
            rows: Vec::new(alloc),
            fixtures: Vec::new(alloc),
            open: Paragraph::new(alloc),
            is_open: false,
        };
        rows.add_lines(alloc, text)?;
        Ok(rows)
    }

    fn add_lines(&mut self, alloc: Global, text: &'a str) -> Result<(), AllocError> {
        for line in text.lines() {
            self.add(alloc, line.trim_end())?;
        }
        self.end(alloc)
    }

    fn add(&mut self, alloc: Global, line: &'a str) -> Result<(), AllocError> {
        if line.is_empty() {
            self.end(alloc)
        } else if line.starts_with('#') {
            Ok(())
        } else {
            if begins_paragraph(line) {
                self.end(alloc)?;
            }
            self.is_open = true;
            self.open.add(line, &self.fixtures)
        }
    }

    /// Keeps the paragraph that is open.
    fn end(&mut self, alloc: Global) -> Result<(), AllocError> {
        if self.is_open {
            self.is_open = false;
            let ended = mem::replace(&mut self.open, Paragraph::new(alloc));
            self.keep(ended)?;
        }
        Ok(())
    }

    fn keep(&mut self, ended: Paragraph<'a>) -> Result<(), AllocError> {
        if ended.is_fixture && ended.flaw.is_none() {
            self.fixtures.push(ended)?;
        } else {
            self.rows.push(ended)?;
        }
        Ok(())
    }
}
