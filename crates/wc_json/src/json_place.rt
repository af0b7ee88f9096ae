//! The offset at which a text is not JSON. It is searched only after a fault.

ghost use Rattle.std.specs.Prelude.{◌≡◌, ◌++◌, [], None, IfOk, OnOk, Some, get_or, drop};
ghost use Rattle.std.specs.Bool.{MatchBool};
ghost use Rattle.json.specs.Lex.{class};
ghost use Rattle.json.specs.Reads.{token_of};
ghost use Rattle.json.specs.Word.{is_operator, is_space};
ghost use Rattle.wc_json.specs.JsonPlace.{begins, class_of, closing, first_read, innermost, is_begin, is_comma_at, is_inside, is_key, json_end, keyed, lexemes, opening, passed, place, read_view, start_here, starts, stop, take_token, takes_value, valued};

use json::{MAX_DEPTH, Reader, Scratch, Token};
use std::alloc::{AllocError, Global};
use std::collections::VecDeque;

/// The offset in bytes of the first token, or the first comma, that a JSON text can't have there. If the text is
/// JSON, or only the beginning of a JSON text, it is the length of the text.
///
/// # Errors
///
/// `AllocError`: an allocation failed.
pub fn json_end(alloc: Global, text: &str) -> Result<usize, AllocError>
    ensures { IfOk result (λ at. at ≡ json_end text.now) }
{
    let starts = lexeme_starts(alloc, text.as_bytes())?;
    let mut scratch = Scratch::new(alloc);
    let mut reader = Reader::new(text, &mut scratch)?;
    stop_of(alloc, text.as_bytes(), &starts, &mut reader)
}

/// The byte at which the tokens of a reader stop, whose text has lexemes that begin at these bytes.
fn stop_of(
    alloc: Global,
    text: &[u8],
    starts: &[usize],
    reader: &mut Reader<'_>,
) -> Result<usize, AllocError>
    ensures { IfOk result (λ at. at ≡ stop text.now first_read starts.now reader.old) }
{
    let mut read = Read {
        last: Last::Begin,
        opened: VecDeque::new(alloc),
    };
    let mut rest = starts;
    while let Some(token) = reader.next() {
        let at = place(text, rest, is_inside(&read));
        let lexemes = lexemes(read.last, token);
        if !read.take(token)? {
            return Ok(at);
        }
        rest = without_first(rest, lexemes);
    }
    Ok(place(text, rest, is_inside(&read)))
}

/// The offset in bytes of the next lexeme; after a value in a list or an object, of the lexeme after a comma; the
/// length of the text, if no lexeme is left. `starts`: the offsets of the lexemes that are left.
fn place(text: &[u8], starts: &[usize], is_inside: bool) -> usize
    ensures { result ≡ place text.now starts.now is_inside }
{
    let first = start_at(starts, 0, text.len());
    if is_inside && is_comma_at(text, first) {
        start_at(starts, 1, text.len())
    } else {
        first
    }
}

/// The offset with this index among the offsets of lexemes; otherwise `end`.
fn start_at(starts: &[usize], index: usize, end: usize) -> usize
    ensures { result ≡ get_or starts.now index end }
{
    match starts.get(index) {
        Some(at) => *at,
        None => end,
    }
}

/// The list without its first items.
pub(crate) fn without_first<T>(items: &[T], count: usize) -> &[T]
    ensures { result.now ≡ drop count items.now }
{
    match items.get(count..) {
        Some(rest) => rest,
        None => &[],
    }
}

/// Whether this byte of a text is a comma.
fn is_comma_at(text: &[u8], at: usize) -> bool
    ensures { result ≡ is_comma_at text.now at }
{
    match text.get(at) {
        Some(c) => *c == b',',
        None => false,
    }
}

/// The last token that was read.
#[derive(Clone, Copy)]
enum Last {
    /// There is none, or it opened an array or an object.
    Begin,
    /// A key.
    Key,
    /// A value ended with it.
    Value,
}

/// Whether nothing or a bracket was read.
fn is_begin(last: Last) -> bool
    ensures { result ≡ is_begin last }
{
    match last {
        Last::Begin => true,
        Last::Key | Last::Value => false,
    }
}

/// Whether a key was read.
fn is_key(last: Last) -> bool
    ensures { result ≡ is_key last }
{
    match last {
        Last::Key => true,
        Last::Begin | Last::Value => false,
    }
}

/// How many lexemes a token takes after the last one: itself, a comma between values, and the colon of a key.
fn lexemes(last: Last, token: Token<'_>) -> usize
    ensures { result ≡ lexemes last (token_of token.entry) }
{
    match (last, token) {
        (_, Token::EndObject | Token::EndArray) => 1,
        (Last::Value, Token::Key(_)) => 3,
        (Last::Begin | Last::Key, Token::Key(_)) => 2,
        (Last::Value, _) => 2,
        (Last::Begin | Last::Key, _) => 1,
    }
}

/// The state of reading: the kind of the last token, and the arrays and objects that are open.
#[derive(Drop)]
struct Read {
    last: Last,
    /// For each open array or object, from the innermost on, whether it is an object.
    opened: VecDeque<bool>,
}

/// Whether a value ended in an array or an object.
fn is_inside(read: &Read) -> bool
    ensures { result ≡ is_inside (read_view read.now) }
{
    match (read.last, innermost(&read.opened)) {
        (Last::Value, Some(_)) => true,
        (Last::Begin | Last::Key, _) | (Last::Value, None) => false,
    }
}

/// Whether the innermost open array or object is an object.
fn innermost(opened: &VecDeque<bool>) -> Option<bool>
    ensures { result ≡ innermost opened.now.items }
{
    match opened.front() {
        Some(is_object) => Some(*is_object),
        None => None,
    }
}

impl Read {
    /// Takes the next token. The result is whether it may come next.
    fn take(&mut self, token: Token<'_>) -> Result<bool, AllocError>
        ensures { IfOk result (λ b. MatchBool b
            (take_token (read_view self.old) (token_of token.entry) ≡ Some (read_view self.new))
            (take_token (read_view self.old) (token_of token.entry) ≡ None)) }
    {
        match token {
            Token::Bad => Ok(false),
            Token::Key(_) => Ok(self.take_key()),
            Token::EndObject => Ok(self.take_end(true)),
            Token::EndArray => Ok(self.take_end(false)),
            Token::BeginObject => self.take_begin(true),
            Token::BeginArray => self.take_begin(false),
            Token::String(_) | Token::Number(_) | Token::Bool(_) | Token::Null => {
                Ok(self.take_value())
            }
        }
    }

    /// Whether a value may come next.
    fn takes_value(&self) -> bool
        ensures { result ≡ takes_value (read_view self.now) }
    {
        match innermost(&self.opened) {
            Some(true) => is_key(self.last),
            Some(false) => true,
            None => is_begin(self.last),
        }
    }

    /// Takes up a value that is no array and no object.
    fn take_value(&mut self) -> bool
        ensures { MatchBool result (valued (read_view self.old) ≡ Some (read_view self.new))
            (valued (read_view self.old) ≡ None) }
    {
        if !self.takes_value() {
            return false;
        }
        self.last = Last::Value;
        true
    }

    /// Takes up a key, which comes in an object, and not after a key.
    fn take_key(&mut self) -> bool
        ensures { MatchBool result (keyed (read_view self.old) ≡ Some (read_view self.new))
            (keyed (read_view self.old) ≡ None) }
    {
        match (self.last, innermost(&self.opened)) {
            (Last::Begin | Last::Value, Some(true)) => {
                self.last = Last::Key;
                true
            }
            (Last::Key, _) | (_, Some(false)) | (_, None) => false,
        }
    }

    /// Takes up the beginning of an object or an array. No more than 128 may be open.
    fn take_begin(&mut self, is_object: bool) -> Result<bool, AllocError>
        ensures { IfOk result (λ b. MatchBool b
            (opening is_object (read_view self.old) ≡ Some (read_view self.new))
            (opening is_object (read_view self.old) ≡ None)) }
    {
        if !self.takes_value() || self.opened.len() >= MAX_DEPTH {
            return Ok(false);
        }
        self.opened.push_front(is_object)?;
        self.last = Last::Begin;
        Ok(true)
    }

    /// Takes up the end of an object or an array.
    fn take_end(&mut self, is_object: bool) -> bool
        ensures { MatchBool result
            (closing is_object self.old.last self.old.opened.items ≡ Some (read_view self.new))
            (closing is_object self.old.last self.old.opened.items ≡ None) }
    {
        match self.opened.pop_front() {
            Some(innermost) => {
                if is_key(self.last) || innermost != is_object {
                    return false;
                }
                self.last = Last::Value;
                true
            }
            None => false,
        }
    }
}

/// Where a byte is: between lexemes, or in one.
#[derive(Clone, Copy)]
enum Mode {
    Between,
    InWord,
    InString,
    InEscape,
}

/// The class of a byte, by the lexeme that it can begin.
#[derive(Clone, Copy)]
enum Class {
    Quote,
    Backslash,
    Operator,
    Space,
    Other,
}

/// The bytes at which the lexemes of a text begin: brackets, commas, colons, strings, numbers and names.
fn lexeme_starts(alloc: Global, text: &[u8]) -> Result<Vec<usize>, AllocError>
    ensures { IfOk result (λ v. v.items ≡ starts Mode.Between 0 text.now) }
{
    let mut found = Vec::new(alloc);
    let mut mode = Mode::Between;
    for (at, c) in text.iter().enumerate() {
        let class = class_of(*c);
        put_start(&mut found, at, begins(mode, class))?;
        mode = passed(mode, class);
    }
    Ok(found)
}

/// Appends a byte, if a lexeme begins there.
fn put_start(found: &mut Vec<usize>, at: usize, begins: bool) -> Result<(), AllocError>
    ensures { OnOk result (found.new.items ≡ found.old.items ++ start_here begins at []) }
{
    if begins {
        found.push(at)?;
    }
    Ok(())
}

/// Whether a lexeme begins at a byte of this class.
fn begins(mode: Mode, class: Class) -> bool
    ensures { result ≡ begins mode class }
{
    match (mode, class) {
        (Mode::Between, Class::Space) => false,
        (Mode::Between, Class::Quote | Class::Backslash | Class::Operator | Class::Other) => true,
        (Mode::InWord, Class::Operator) => true,
        (Mode::InWord, Class::Quote | Class::Backslash | Class::Space | Class::Other) => false,
        (Mode::InString | Mode::InEscape, _) => false,
    }
}

/// The mode of the next byte, after a byte of this class.
fn passed(mode: Mode, class: Class) -> Mode
    ensures { result ≡ passed mode class }
{
    match (mode, class) {
        (Mode::Between, Class::Quote) => Mode::InString,
        (Mode::Between | Mode::InWord, Class::Operator | Class::Space) => Mode::Between,
        (Mode::Between, Class::Backslash | Class::Other) => Mode::InWord,
        (Mode::InWord, Class::Quote | Class::Backslash | Class::Other) => Mode::InWord,
        (Mode::InString, Class::Quote) => Mode::Between,
        (Mode::InString, Class::Backslash) => Mode::InEscape,
        (Mode::InString, Class::Operator | Class::Space | Class::Other) => Mode::InString,
        (Mode::InEscape, _) => Mode::InString,
    }
}

/// The class of a byte, by the lexeme that it can begin.
fn class_of(c: u8) -> Class
    ensures { result ≡ class_of (class c) }
{
    if c == b'"' {
        Class::Quote
    } else if c == b'\\' {
        Class::Backslash
    } else if is_operator(c) {
        Class::Operator
    } else if is_space(c) {
        Class::Space
    } else {
        Class::Other
    }
}

/// Whether a byte is a bracket, a colon or a comma.
fn is_operator(c: u8) -> bool
    ensures { result ≡ is_operator c }
{
    c == b'{' || c == b'}' || c == b'[' || c == b']' || c == b':' || c == b','
}

/// Whether a byte is a blank between lexemes.
pub(crate) fn is_space(c: u8) -> bool
    ensures { result ≡ is_space c }
{
    c == b' ' || c == b'\t' || c == b'\n' || c == b'\r'
}
