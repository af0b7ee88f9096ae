//! Names, ids and keys, as lines show them.

use wc_lines::lines::Lines;
use wc_resolve::{PackageName, WorldKey};

fn is_plain_character(c: char) -> bool {
    c.is_ascii_alphanumeric()
        || matches!(
            c,
            '-' | '_' | '.' | '[' | ']' | '/' | '@' | '#' | '+' | ':' | '$' | '|'
        )
}

/// Whether a word is a letter and a number, as ids are.
fn is_id(text: &str) -> bool {
    for letter in ['t', 'i', 'p', 'w'] {
        if let Some(number) = text.strip_prefix(letter) {
            if number.parse::<u32>().is_ok() {
                return true;
            }
        }
    }
    false
}

/// Words that fixtures and answers use where names are.
const TAKEN: [&str; 5] = ["in", "of", "clones", "none", "named"];

/// Whether a name can occur without quotes wherever a name can.
fn is_plain(name: &str) -> bool {
    let is_taken = TAKEN.iter().any(|word| *word == name);
    !name.is_empty()
        && !is_taken
        && !is_id(name)
        && !name.starts_with(':')
        && !name.ends_with(':')
        && name.chars().all(|c| is_plain_character(c))
}

/// Appends a name in quotes, with quotes, backslashes and line feeds escaped.
fn put_quoted(out: &mut Lines, name: &str) {
    out.push('"');
    for c in name.chars() {
        match c {
            '"' => out.push_str("\\\""),
            '\\' => out.push_str("\\\\"),
            '\n' => out.push_str("\\n"),
            _ => out.push(c),
        }
    }
    out.push('"');
}

/// Appends a name, in quotes unless it is plain.
pub fn put_name(out: &mut Lines, name: &str) {
    if is_plain(name) {
        out.push_str(name);
    } else {
        put_quoted(out, name);
    }
}

/// Appends a name as `put_name` does, or `none`.
pub fn put_optional_name(out: &mut Lines, name: &Option<String>) {
    match name {
        Some(name) => put_name(out, name),
        None => out.push_str("none"),
    }
}

/// Appends an id, as `t0`.
pub fn put_id(out: &mut Lines, letter: char, index: u32) {
    write!(out, "{letter}{index}");
}

/// Appends a world's key: a name, or the id of an interface.
pub fn put_key(out: &mut Lines, key: &WorldKey) {
    match key {
        WorldKey::Name(name) => put_name(out, name),
        WorldKey::Interface(id) => put_id(out, 'i', id.0),
    }
}

/// A part of a package's name: without quotes where no `:` and no `@` is in it either.
fn put_part(out: &mut Lines, part: &str) {
    if is_plain(part) && !part.contains(':') && !part.contains('@') {
        out.push_str(part);
    } else {
        put_quoted(out, part);
    }
}

/// Appends `NAMESPACE:NAME`, and `@VERSION` if there is one.
pub fn put_package_name(out: &mut Lines, name: &PackageName) {
    put_part(out, &name.namespace);
    out.push(':');
    put_part(out, &name.name);
    match &name.version {
        Some(version) => write!(out, "@{version}"),
        None => {}
    }
}
