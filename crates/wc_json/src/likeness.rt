//! The likely format of a text that is not JSON, for a message.

ghost use Rattle.std.specs.Prelude.{◌≡◌, drop};
ghost use Rattle.std.specs.List.{list_all};
ghost use Rattle.json.specs.Word.{is_space};
ghost use Rattle.wc_json.specs.Likeness.{begins_with, begins_with_wit, gap_after, kind_of, left, looks_like};

use crate::json_place::{is_space, without_first};

/// The likely format of a text, by its beginning.
#[derive(Clone, Copy, Debug, PartialEq, Eq)]
pub enum Likeness {
    /// A module or a component: it begins with `\0asm` (WebAssembly core specification, binary format, "Modules").
    WebAssembly,
    /// It begins with a byte order mark in UTF-8, which JSON doesn't have (RFC 8259, section 8.1).
    ByteOrderMark,
    /// It has nothing but blanks and ends of lines.
    Empty,
    /// WIT (component model, "WIT"): after blanks and comments it begins with `package`, `world` or `interface`.
    Wit,
}

/// The magic bytes that a module or a component begins with.
const MAGIC: &[u8] = b"\0asm";

/// The byte order mark in UTF-8.
const MARK: &[u8] = b"\xef\xbb\xbf";

/// Recognizes the format of a text that is not JSON by its beginning; `None` if it is none of these. Comments that are
/// nested are not passed. Nothing is allocated.
pub fn looks_like(text: &[u8]) -> Option<Likeness>
    ensures { result ≡ looks_like text.now }
{
    if begins_with(MAGIC, text) {
        return Some(Likeness::WebAssembly);
    }
    if begins_with(MARK, text) {
        return Some(Likeness::ByteOrderMark);
    }
    if is_all_blank(text) {
        return Some(Likeness::Empty);
    }
    if begins_with_wit(without_first(text, gap_end(text))) {
        return Some(Likeness::Wit);
    }
    None
}

/// Whether a text begins with another one.
fn begins_with(prefix: &[u8], text: &[u8]) -> bool
    ensures { result ≡ begins_with prefix.now text.now }
{
    text.starts_with(prefix)
}

/// Whether all bytes are blanks or ends of lines.
fn is_all_blank(text: &[u8]) -> bool
    ensures { result ≡ list_all is_space text.now }
{
    text.iter().all(|c| is_space(*c))
}

/// Whether a text begins with a word with which WIT begins.
fn begins_with_wit(text: &[u8]) -> bool
    ensures { result ≡ begins_with_wit text.now }
{
    begins_with(b"package", text) || begins_with(b"world", text) || begins_with(b"interface", text)
}

/// Where a byte is among blanks and comments.
#[derive(Clone, Copy)]
enum Gap {
    /// Between comments.
    Between,
    /// After a slash that may begin a comment.
    Slash,
    /// In a comment to the end of the line.
    Line,
    /// In a comment between `/*` and `*/`.
    Block,
    /// In such a comment, after an asterisk.
    Star,
    /// After a slash that begins no comment.
    Stray,
}

/// The class of a byte among blanks and comments.
#[derive(Clone, Copy)]
enum Kind {
    Blank,
    LineEnd,
    Slash,
    Asterisk,
    Other,
}

/// Where blanks and comments end with which a text begins: at its end where a slash comes that begins no comment.
fn gap_end(text: &[u8]) -> usize
    ensures { drop result text.now ≡ left Gap.Between text.now }
{
    let mut gap = Gap::Between;
    for (at, c) in text.iter().enumerate() {
        match gap_after(gap, kind_of(*c)) {
            Some(next) => gap = next,
            None => return at,
        }
    }
    text.len()
}

/// The class of a byte.
fn kind_of(c: u8) -> Kind
    ensures { result ≡ kind_of c }
{
    if c == b'\n' {
        Kind::LineEnd
    } else if is_space(c) {
        Kind::Blank
    } else if c == b'/' {
        Kind::Slash
    } else if c == b'*' {
        Kind::Asterisk
    } else {
        Kind::Other
    }
}

/// Where the next byte is; `None` where this one is in no gap.
fn gap_after(gap: Gap, kind: Kind) -> Option<Gap>
    ensures { result ≡ gap_after gap kind }
{
    match (gap, kind) {
        (Gap::Between, Kind::Blank | Kind::LineEnd) => Some(Gap::Between),
        (Gap::Between, Kind::Slash) => Some(Gap::Slash),
        (Gap::Between, Kind::Asterisk | Kind::Other) => None,
        (Gap::Slash, Kind::Slash) => Some(Gap::Line),
        (Gap::Slash, Kind::Asterisk) => Some(Gap::Block),
        (Gap::Slash, Kind::Blank | Kind::LineEnd | Kind::Other) => Some(Gap::Stray),
        (Gap::Line, Kind::LineEnd) => Some(Gap::Between),
        (Gap::Line, Kind::Blank | Kind::Slash | Kind::Asterisk | Kind::Other) => Some(Gap::Line),
        (Gap::Block, Kind::Asterisk) => Some(Gap::Star),
        (Gap::Block, Kind::Blank | Kind::LineEnd | Kind::Slash | Kind::Other) => Some(Gap::Block),
        (Gap::Star, Kind::Slash) => Some(Gap::Between),
        (Gap::Star, Kind::Asterisk) => Some(Gap::Star),
        (Gap::Star, Kind::Blank | Kind::LineEnd | Kind::Other) => Some(Gap::Block),
        (Gap::Stray, _) => Some(Gap::Stray),
    }
}
