//! Parts of mangled names, as their author wrote them.

ghost use Rattle.std.specs.Prelude.{◌≡◌, ◌<◌, ◌++◌, ◌∷◌, IfOk, IfSome, OnOk, length};
ghost use Rattle.wc_why_text.specs.RustNames.{IsPut, bracket_at, character, code_from, coded_at, first_piece, is_code_digit, part_text, pieces_in, point_piece, sign_at, symbol_at, symbol_by, symbol_piece, symbol_view, with_code_digit};

use std::alloc::AllocError;

/// Appends a part of a name, read.
pub(crate) fn push_part(part: &[char], out: &mut Vec<char>) -> Result<(), AllocError>
    ensures { OnOk result (out.new.items ≡ out.old.items ++ part_text part.now) }
{
    match part.strip_prefix(&['_', '$']) {
        Some(_) => push_pieces(&part[1..], out),
        None => push_pieces(part, out),
    }
}

/// Appends a text, read piece by piece. It has no more pieces than characters.
fn push_pieces(text: &[char], out: &mut Vec<char>) -> Result<(), AllocError>
    ensures { OnOk result (out.new.items
        ≡ out.old.items ++ pieces_in (length text.now) text.now) }
{
    let mut rest = text;
    for _ in 0..text.len() {
        rest = push_piece(rest, out)?;
    }
    Ok(())
}

/// Appends the first piece of a text, if it has one; returns what is after it.
fn push_piece<'c>(text: &'c [char], out: &mut Vec<char>) -> Result<&'c [char], AllocError>
    ensures { IfOk result (λ rest. IsPut out.old.items out.new.items (first_piece text.now)
        rest.now) }
{
    match text {
        [] => Ok(text),
        ['.', rest @ ..] => push_point(rest, out),
        ['$', rest @ ..] => push_symbol(text, rest, out),
        [c, rest @ ..] => {
            out.push(*c)?;
            Ok(rest)
        }
    }
}

/// Appends the piece of a point before this text: `::` for two points.
fn push_point<'c>(rest: &'c [char], out: &mut Vec<char>) -> Result<&'c [char], AllocError>
    ensures { IfOk result (λ after. IsPut out.old.items out.new.items (point_piece rest.now)
        after.now) }
{
    match rest.strip_prefix(&['.']) {
        Some(after) => {
            out.extend_from_slice(&[':', ':'])?;
            Ok(after)
        }
        None => {
            out.push('.')?;
            Ok(rest)
        }
    }
}

/// Appends the piece of a `$` before this text: the character that it begins, or the whole text.
fn push_symbol<'c>(
    text: &'c [char],
    rest: &'c [char],
    out: &mut Vec<char>,
) -> Result<&'c [char], AllocError>
    requires { text.now ≡ 36 ∷ rest.now }
    ensures { IfOk result (λ after. IsPut out.old.items out.new.items (symbol_piece rest.now)
        after.now) }
{
    match symbol_at(rest) {
        Some((c, after)) => {
            out.push(c)?;
            Ok(after)
        }
        None => {
            out.extend_from_slice(text)?;
            Ok(&text[text.len()..])
        }
    }
}

/// The character of the symbol that a text begins with, after a `$`, and what is after its second `$`.
fn symbol_at<'c>(text: &'c [char]) -> Option<(char, &'c [char])>
    ensures { symbol_view result ≡ symbol_at text.now }
{
    match bracket_at(text) {
        Some(found) => Some(found),
        None => match sign_at(text) {
            Some(found) => Some(found),
            None => coded_at(text),
        },
    }
}

/// The bracket that a text begins with, by its name.
fn bracket_at<'c>(text: &'c [char]) -> Option<(char, &'c [char])>
    ensures { symbol_view result ≡ bracket_at text.now }
{
    match symbol_by(&['L', 'T', '$'], '<', text) {
        Some(found) => Some(found),
        None => match symbol_by(&['G', 'T', '$'], '>', text) {
            Some(found) => Some(found),
            None => match symbol_by(&['L', 'P', '$'], '(', text) {
                Some(found) => Some(found),
                None => symbol_by(&['R', 'P', '$'], ')', text),
            },
        },
    }
}

/// Another sign that a text begins with, by its name.
fn sign_at<'c>(text: &'c [char]) -> Option<(char, &'c [char])>
    ensures { symbol_view result ≡ sign_at text.now }
{
    match symbol_by(&['R', 'F', '$'], '&', text) {
        Some(found) => Some(found),
        None => match symbol_by(&['B', 'P', '$'], '*', text) {
            Some(found) => Some(found),
            None => match symbol_by(&['S', 'P', '$'], '@', text) {
                Some(found) => Some(found),
                None => symbol_by(&['C', '$'], ',', text),
            },
        },
    }
}

/// A character, and what is after its name, if a text begins with that.
fn symbol_by<'c>(name: &[char], c: char, text: &'c [char]) -> Option<(char, &'c [char])>
    ensures { symbol_view result ≡ symbol_by name.now c text.now }
{
    match text.strip_prefix(name) {
        Some(rest) => Some((c, rest)),
        None => None,
    }
}

/// The character that a text begins with as `u`, its code and `$`, and what is after that; `None` of a control.
fn coded_at<'c>(text: &'c [char]) -> Option<(char, &'c [char])>
    ensures { symbol_view result ≡ coded_at text.now }
{
    match text.strip_prefix(&['u']) {
        Some(digits) => match code_at(digits) {
            Some((code, rest)) => character(code, rest),
            None => None,
        },
        None => None,
    }
}

/// The code that a text begins with, in lower-case hexadecimal digits up to a `$`, and what is after that; `None` where the
/// text is otherwise, or the code above all characters.
fn code_at<'c>(text: &'c [char]) -> Option<(u32, &'c [char])>
    ensures value { symbol_view result ≡ code_from 0 text.now }
    ensures within { IfSome result (λ found. found.0 < 0x11_0000) }
{
    let mut code = 0;
    for position in 0..text.len() {
        let c = text[position];
        if c == '$' {
            return Some((code, &text[position + 1..]));
        }
        match with_code_digit(code, c) {
            Some(next) => code = next,
            None => return None,
        }
    }
    None
}

/// The code whose last digit is this one, after those of another; `None` where that is no digit, or the code above all
/// characters.
fn with_code_digit(code: u32, digit: char) -> Option<u32>
    requires { code < 0x11_0000 }
    ensures value { result ≡ with_code_digit code digit }
    ensures within { IfSome result (λ next. next < 0x11_0000) }
{
    if !is_code_digit(digit) {
        return None;
    }
    match digit.to_digit(16) {
        Some(unit) => {
            let next = code * 16 + unit;
            if next < 0x11_0000 { Some(next) } else { None }
        }
        None => None,
    }
}

/// Whether this is a lower-case hexadecimal digit.
fn is_code_digit(c: char) -> bool
    ensures { result ≡ is_code_digit c }
{
    c.is_ascii_digit() || ('a' <= c && c <= 'f')
}

/// The character of a code, and what is after it; `None` of a control, and of a code that is no character's.
fn character<'c>(code: u32, rest: &'c [char]) -> Option<(char, &'c [char])>
    requires { code < 0x11_0000 }
    ensures { symbol_view result ≡ character (code, rest.now) }
{
    match char::from_u32(code) {
        Some(c) => {
            if c.is_control() {
                None
            } else {
                Some((c, rest))
            }
        }
        None => None,
    }
}
