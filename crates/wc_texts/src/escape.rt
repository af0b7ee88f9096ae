//! Texts from outside, written so that they stay in their line and can't act on a terminal.

ghost use Rattle.std.specs.Prelude.{◌≡◌, ◌++◌, IfOk, OnOk, string_bytes};
ghost use Rattle.std.specs.List.{flat_map};
ghost use Rattle.wc_texts.specs.Escape.{code_text, escaped, escaped_char, is_escaped_category, is_escaped_char, quoted, quoted_char};

use std::alloc::{AllocError, Global};
use ucd_category::GeneralCategory;

/// The text with some characters escaped, in the form of Rust's `escape_debug`. A backslash is doubled; a line feed,
/// a carriage return, a tab and a zero become `\n`, `\r`, `\t` and `\0`. Each other character whose general category
/// in Unicode 18 is Cc, Cf, Cn, Co, Cs, Zl, Zp or Zs, except the blank U+0020, becomes `\u{..}`. These are controls;
/// formats, which turn the direction of text, join or separate letters, or have no width; code points that are
/// unassigned or for private use; separators of lines and paragraphs; and spaces. All others stay as they are, quotes
/// too.
///
/// # Errors
///
/// `AllocError`: an allocation failed.
pub fn escaped(alloc: Global, text: &str) -> Result<String, AllocError>
    ensures { IfOk result (λ s. string_bytes s ≡ escaped text.now) }
{
    let characters: Vec<char> = text.chars().collect(alloc)?;
    escaped_characters(alloc, &characters)
}

/// The text in double quotes, escaped as by [`escaped`], with each double quote in it as `\"`. So the part between
/// the first quote and the next one that no backslash escapes is one text.
///
/// # Errors
///
/// `AllocError`: an allocation failed.
pub fn quoted(alloc: Global, text: &str) -> Result<String, AllocError>
    ensures { IfOk result (λ s. string_bytes s ≡ quoted text.now) }
{
    let characters: Vec<char> = text.chars().collect(alloc)?;
    let text = quoted_characters(alloc, &characters)?;
    format!(in alloc; "\"{text}\"")
}

/// The text of some characters, escaped.
fn escaped_characters(alloc: Global, characters: &[char]) -> Result<String, AllocError>
    ensures { IfOk result (λ s. string_bytes s ≡ flat_map escaped_char characters.now) }
{
    let mut out = String::new(alloc);
    for c in characters {
        push_escaped(&mut out, *c)?;
    }
    Ok(out)
}

/// The text of some characters, escaped, and each double quote too.
fn quoted_characters(alloc: Global, characters: &[char]) -> Result<String, AllocError>
    ensures { IfOk result (λ s. string_bytes s ≡ flat_map quoted_char characters.now) }
{
    let mut out = String::new(alloc);
    for c in characters {
        push_quoted(&mut out, *c)?;
    }
    Ok(out)
}

/// Appends a character, escaped if need be or if it is a double quote.
fn push_quoted(out: &mut String, c: char) -> Result<(), AllocError>
    ensures { OnOk result (string_bytes out.new ≡ string_bytes out.old ++ quoted_char c) }
{
    if c == '"' {
        out.push_str("\\\"")
    } else {
        push_escaped(out, c)
    }
}

/// Appends a character, escaped if need be.
fn push_escaped(out: &mut String, c: char) -> Result<(), AllocError>
    ensures { OnOk result (string_bytes out.new ≡ string_bytes out.old ++ escaped_char c) }
{
    match c {
        '\\' => out.push_str("\\\\"),
        '\n' => out.push_str("\\n"),
        '\r' => out.push_str("\\r"),
        '\t' => out.push_str("\\t"),
        '\0' => out.push_str("\\0"),
        _ if is_escaped_char(c) => push_code(out, c),
        _ => out.push(c),
    }
}

/// Whether a character is one that can't be seen, and is not the blank.
fn is_escaped_char(c: char) -> bool
    ensures { result ≡ is_escaped_char c }
{
    c != ' ' && is_escaped_category(GeneralCategory::for_char(c))
}

/// Whether characters of a general category can't be seen.
fn is_escaped_category(category: GeneralCategory) -> bool
    ensures { result ≡ is_escaped_category category }
{
    match category {
        GeneralCategory::SpaceSeparator
        | GeneralCategory::LineSeparator
        | GeneralCategory::ParagraphSeparator
        | GeneralCategory::Control
        | GeneralCategory::Format
        | GeneralCategory::Surrogate
        | GeneralCategory::PrivateUse
        | GeneralCategory::Unassigned => true,
        _ => false,
    }
}

/// Appends a character as `\u{..}`, its code in hexadecimal digits.
fn push_code(out: &mut String, c: char) -> Result<(), AllocError>
    ensures { OnOk result (string_bytes out.new ≡ string_bytes out.old ++ code_text c) }
{
    let code = c as u32;
    write!(out, "\\u{{{code:x}}}")
}
