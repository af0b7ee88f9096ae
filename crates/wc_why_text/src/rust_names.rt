//! Names of functions as their author wrote them.

ghost use Rattle.std.specs.Prelude.{◌≡◌, ◌<◌, ◌≤◌, ◌+◌, ◌*◌, ◌-◌, ◌++◌, IfNone, IfOk, IfSome, OnOk, SomeIff, length, map, string_bytes};
ghost use Rattle.std.specs.Char.{encode_utf8, is_ascii, is_ascii_graphic, is_ascii_hexdigit};
ghost use Rattle.std.specs.List.{flat_map, list_all};
ghost use Rattle.std.specs.Str.{chars};
ghost use Rattle.wc_why.specs.Texts.{text_of};
ghost use Rattle.wc_why_text.specs.RustNames.{are_hash_digits, first_part, is_end, is_hash, is_llvm, is_llvm_digit, is_pointed, joined_parts, last_two, later_parts, mangled_parts, number_at, part_after, part_view, parts_of, parts_view, plain, prefixed_parts, read_parts, rest_view, rust_name, shown_parts, suffix, with_suffix, without_hash, without_last_hash};

use crate::name_parts::push_part;
use std::alloc::{AllocError, Global};

/// A name as its author wrote it, where Rust mangled it: without its hash, and without what LLVM added.
///
/// A mangled name is `_ZN`, parts with their lengths, and `E`, in ASCII characters. A hash is a last part of `h` and 16
/// hexadecimal digits; it goes unless it is the only part. After the `E`, `.llvm.` goes with the digits after it, and another
/// text that begins with a point stays. The parts are joined by `::`. In a part `..` is `::`, and a symbol between two `$`
/// is a character: `$LT$` is `<`, and `$u20$` a blank. Any other name stays as it is.
///
/// # Errors
///
/// `AllocError`: an allocation failed.
pub fn rust_name(alloc: Global, name: &str) -> Result<String, AllocError>
    ensures { IfOk result (λ s. string_bytes s ≡ rust_name name.now) }
{
    let characters = characters_of(alloc, name)?;
    let plain = plain(alloc, false, &characters)?;
    characters_text(alloc, &plain)
}

/// The characters of a text.
pub(crate) fn characters_of(alloc: Global, text: &str) -> Result<Vec<char>, AllocError>
    ensures { IfOk result (λ v. v.items ≡ chars text.now) }
{
    let characters: Vec<char> = text.chars().collect(alloc)?;
    Ok(characters)
}

/// These characters, one after another.
pub(crate) fn characters_text(alloc: Global, characters: &[char]) -> Result<String, AllocError>
    ensures { IfOk result (λ s. string_bytes s ≡ flat_map encode_utf8 characters.now) }
{
    let mut out = String::new(alloc);
    for c in characters {
        out.push(*c)?;
    }
    Ok(out)
}

/// A mangled name, read: its parts, or the last two; another name as it is.
pub(crate) fn plain(alloc: Global, short: bool, name: &[char]) -> Result<Vec<char>, AllocError>
    ensures { IfOk result (λ v. v.items ≡ plain short name.now) }
{
    match mangled_parts(alloc, name)? {
        Some((parts, rest)) => read_parts(alloc, short, name, &parts, rest),
        None => Vec::from_slice(alloc, name),
    }
}

/// The parts of a mangled name, and the text after them; `None` of another name.
fn mangled_parts<'c>(
    alloc: Global,
    name: &'c [char],
) -> Result<Option<(Vec<&'c [char]>, &'c [char])>, AllocError>
    ensures { IfOk result (λ found. parts_view found ≡ mangled_parts name.now) }
{
    if are_ascii(name) {
        prefixed_parts(alloc, name)
    } else {
        Ok(None)
    }
}

/// The parts of a name that begins as a mangled one, and the text after them; `None` of another name.
fn prefixed_parts<'c>(
    alloc: Global,
    name: &'c [char],
) -> Result<Option<(Vec<&'c [char]>, &'c [char])>, AllocError>
    ensures { IfOk result (λ found. parts_view found ≡ prefixed_parts name.now) }
{
    match name.strip_prefix(&['_', 'Z', 'N']) {
        Some(rest) => parts_of(alloc, rest),
        None => Ok(None),
    }
}

/// Whether these are ASCII characters.
fn are_ascii(characters: &[char]) -> bool
    ensures { result ≡ list_all is_ascii characters.now }
{
    for c in characters {
        if !c.is_ascii() {
            return false;
        }
    }
    true
}

/// The parts of a text, each after its length, up to an `E`, and the text after that; `None` where the text is otherwise.
fn parts_of<'c>(
    alloc: Global,
    text: &'c [char],
) -> Result<Option<(Vec<&'c [char]>, &'c [char])>, AllocError>
    ensures { IfOk result (λ found. parts_view found ≡ parts_of text.now) }
{
    let mut parts = Vec::new(alloc);
    let mut rest = text;
    while !is_end(rest) {
        match first_part(rest) {
            Some((part, after)) => {
                parts.push(part)?;
                rest = after;
            }
            None => return Ok(None),
        }
    }
    Ok(Some((parts, &rest[1..])))
}

/// Whether parts end here.
fn is_end(text: &[char]) -> bool
    ensures { result ≡ is_end text.now }
{
    match text {
        ['E', ..] => true,
        _ => false,
    }
}

/// The part that a text begins with, after its length, and what is after it.
fn first_part<'c>(text: &'c [char]) -> Option<(&'c [char], &'c [char])>
    ensures value { part_view result ≡ first_part text.now }
    ensures shorter { IfSome result (λ p. length p.1.now < length text.now) }
{
    match number_at(text) {
        Some((length, rest)) => part_after(length, rest),
        None => None,
    }
}

/// The part of this length, which is not 0, and what is after it.
fn part_after<'c>(length: usize, rest: &'c [char]) -> Option<(&'c [char], &'c [char])>
    ensures { part_view result ≡ part_after (length, rest.now) }
{
    if length == 0 || rest.len() < length {
        None
    } else {
        Some(rest.split_at(length))
    }
}

/// The number that a text begins with, and what is after its digits; `None` where the number is larger than the text is long.
fn number_at<'c>(text: &'c [char]) -> Option<(usize, &'c [char])>
    ensures found { IfSome result (λ n. (n.0, n.1.now) ≡ number_at 0 text.now) }
    ensures large { IfNone result (length text.now < (number_at 0 text.now).0) }
{
    let limit = text.len();
    let mut number = 0;
    for position in 0..text.len() {
        let c = text[position];
        if !c.is_ascii_digit() {
            return Some((number, &text[position..]));
        }
        match with_digit(number, c, limit) {
            Some(next) => number = next,
            None => return None,
        }
    }
    Some((number, &text[text.len()..]))
}

/// The number whose last digit is this one, after those of another; `None` where it is above a limit.
fn with_digit(number: usize, digit: char, limit: usize) -> Option<usize>
    requires { 48 ≤ digit }
    ensures { SomeIff result (number * 10 + (digit - 48) ≤ limit) (number * 10 + (digit - 48)) }
{
    let unit = (digit as u32 - 48) as usize;
    match number.checked_mul(10) {
        Some(tens) => match tens.checked_add(unit) {
            Some(next) => { if next <= limit { Some(next) } else { None } }
            None => None,
        },
        None => None,
    }
}

/// A name by its parts and the text after them. A name that has no part stays as it is.
fn read_parts(
    alloc: Global,
    short: bool,
    name: &[char],
    parts: &[&[char]],
    rest: &[char],
) -> Result<Vec<char>, AllocError>
    ensures { IfOk result (λ v. v.items
        ≡ read_parts short name.now (map text_of parts.now, rest.now)) }
{
    if parts.is_empty() {
        Vec::from_slice(alloc, name)
    } else {
        with_suffix(alloc, short, name, parts, rest)
    }
}

/// A name by its parts and what is shown of the text after them. A name with another text there stays as it is.
fn with_suffix(
    alloc: Global,
    short: bool,
    name: &[char],
    parts: &[&[char]],
    rest: &[char],
) -> Result<Vec<char>, AllocError>
    ensures { IfOk result (λ v. v.items
        ≡ with_suffix short name.now (map text_of parts.now, rest.now)) }
{
    match suffix(rest) {
        Some(suffix) => joined(alloc, shown_parts(short, parts), suffix),
        None => Vec::from_slice(alloc, name),
    }
}

/// The text that is shown after the parts, of the one that is there; `None` where that is none of a name of Rust.
fn suffix<'c>(rest: &'c [char]) -> Option<&'c [char]>
    ensures { rest_view result ≡ suffix rest.now }
{
    if rest.len() == 0 || is_llvm(rest) {
        Some(&rest[..0])
    } else if is_pointed(rest) {
        Some(rest)
    } else {
        None
    }
}

/// Whether a text is what LLVM adds to names: `.llvm.`, and digits.
fn is_llvm(text: &[char]) -> bool
    ensures { result ≡ is_llvm text.now }
{
    match text.strip_prefix(&['.', 'l', 'l', 'v', 'm', '.']) {
        Some(digits) => are_llvm_digits(digits),
        None => false,
    }
}

/// Whether these are digits, upper-case hexadecimal ones, or `@`.
fn are_llvm_digits(digits: &[char]) -> bool
    ensures { result ≡ list_all is_llvm_digit digits.now }
{
    for c in digits {
        if !is_llvm_digit(*c) {
            return false;
        }
    }
    true
}

/// Whether this is a digit, an upper-case hexadecimal one, or `@`.
fn is_llvm_digit(c: char) -> bool
    ensures { result ≡ is_llvm_digit c }
{
    c.is_ascii_digit() || ('@' <= c && c <= 'F')
}

/// Whether a text begins with a point, and has no blank.
fn is_pointed(text: &[char]) -> bool
    ensures { result ≡ is_pointed text.now }
{
    match text {
        ['.', ..] => are_graphic(text),
        _ => false,
    }
}

/// Whether these are ASCII characters that are shown.
fn are_graphic(characters: &[char]) -> bool
    ensures { result ≡ list_all is_ascii_graphic characters.now }
{
    for c in characters {
        if !c.is_ascii_graphic() {
            return false;
        }
    }
    true
}

/// The parts that are shown, without a hash: all, or the last two.
fn shown_parts<'p, 'c>(short: bool, parts: &'p [&'c [char]]) -> &'p [&'c [char]]
    ensures { map text_of result.now ≡ shown_parts short (map text_of parts.now) }
{
    let parts = without_hash(parts);
    if short { last_two(parts) } else { parts }
}

/// Parts without a last one that is a hash, unless it is the only one.
fn without_hash<'p, 'c>(parts: &'p [&'c [char]]) -> &'p [&'c [char]]
    ensures { map text_of result.now ≡ without_hash (map text_of parts.now) }
{
    if parts.len() < 2 {
        parts
    } else {
        without_last_hash(parts)
    }
}

/// Parts without a last one that is a hash.
fn without_last_hash<'p, 'c>(parts: &'p [&'c [char]]) -> &'p [&'c [char]]
    ensures { map text_of result.now ≡ without_last_hash (map text_of parts.now) }
{
    match parts.last() {
        Some(last) => {
            if is_hash(last) {
                &parts[..parts.len() - 1]
            } else {
                parts
            }
        }
        None => parts,
    }
}

/// Whether a part is a hash: `h` and 16 hexadecimal digits.
fn is_hash(part: &[char]) -> bool
    ensures { result ≡ is_hash part.now }
{
    match part.strip_prefix(&['h']) {
        Some(digits) => are_hash_digits(digits),
        None => false,
    }
}

/// Whether these are the 16 digits of a hash.
fn are_hash_digits(digits: &[char]) -> bool
    ensures { result ≡ are_hash_digits digits.now }
{
    digits.len() == 16 && are_hex(digits)
}

/// Whether these are hexadecimal digits.
fn are_hex(digits: &[char]) -> bool
    ensures { result ≡ list_all is_ascii_hexdigit digits.now }
{
    for c in digits {
        if !c.is_ascii_hexdigit() {
            return false;
        }
    }
    true
}

/// The last two of these parts.
fn last_two<'p, 'c>(parts: &'p [&'c [char]]) -> &'p [&'c [char]]
    ensures { map text_of result.now ≡ last_two (map text_of parts.now) }
{
    &parts[parts.len().saturating_sub(2)..]
}

/// Parts with `::` between them, and a text after them.
fn joined(alloc: Global, parts: &[&[char]], suffix: &[char]) -> Result<Vec<char>, AllocError>
    ensures { IfOk result (λ v. v.items ≡ joined_parts (map text_of parts.now) ++ suffix.now) }
{
    let mut text = Vec::new(alloc);
    push_parts(parts, &mut text)?;
    text.extend_from_slice(suffix)?;
    Ok(text)
}

/// Appends parts, with `::` between them.
fn push_parts(parts: &[&[char]], text: &mut Vec<char>) -> Result<(), AllocError>
    ensures { OnOk result (text.new.items
        ≡ text.old.items ++ joined_parts (map text_of parts.now)) }
{
    match parts {
        [] => Ok(()),
        [first, later @ ..] => {
            push_part(first, text)?;
            push_later_parts(later, text)
        }
    }
}

/// Appends each of these parts after `::`.
fn push_later_parts(parts: &[&[char]], text: &mut Vec<char>) -> Result<(), AllocError>
    ensures { OnOk result (text.new.items
        ≡ text.old.items ++ later_parts (map text_of parts.now)) }
{
    for part in parts {
        text.extend_from_slice(&[':', ':'])?;
        push_part(part, text)?;
    }
    Ok(())
}
