//! The names of exports that a call is passed, and of a realloc.

ghost use Rattle.std.specs.Prelude.{◌≡◌, ◌↔◌, IsTrue, IfOk, IfErr, IfSome, Option, map};
ghost use Rattle.std.specs.List.{All};
ghost use Rattle.std.specs.Option.{option_map};
ghost use Rattle.std.specs.Str.{IsUtf8};
ghost use Rattle.wc_gc.specs.LiveItems.{names_of};
ghost use Rattle.wc_texts.specs.Names.{first_occurrences};
ghost use Rattle.wc_why.specs.Texts.{text_of};
ghost use Rattle.wc_calls.specs.ExportNames.{texts, position_of};

use std::alloc::{AllocError, Global};
use std::str::{self, Utf8Error};
use wc_maps::{Seed, Set};

/// Whether these bytes are text, in UTF-8.
fn is_text(bytes: &[u8]) -> bool
    ensures { IsTrue result ↔ IsUtf8 bytes.now }
{
    str::from_utf8(bytes).is_ok()
}

/// Whether each of these is text.
pub(crate) fn are_texts(names: &[&[u8]]) -> bool
    ensures { IsTrue result ↔ All IsUtf8 (texts names.now) }
{
    for name in names {
        if !is_text(name) {
            return false;
        }
    }
    true
}

/// The name as text, where there is one. `Err`: it is no text.
pub(crate) fn optional_text(name: Option<&[u8]>) -> Result<Option<&str>, Utf8Error>
    ensures is { IfOk result (λ text. option_map (λ t. t.now) text
        ≡ option_map (λ n. n.now) name.entry) }
    ensures text { IfOk result (λ _. IfSome (option_map (λ n. n.now) name.entry) IsUtf8) }
    ensures none { IfErr result (λ _. ¬ (IfSome (option_map (λ n. n.now) name.entry) IsUtf8)) }
{
    match name {
        Some(name) => Ok(Some(str::from_utf8(name)?)),
        None => Ok(None),
    }
}

/// The names as a set, in the order of their first occurrences. `seed`: the seed of the set.
pub(crate) fn name_set(
    alloc: Global,
    seed: Seed,
    names: &[&[u8]],
) -> Result<Set<String>, AllocError>
    requires { All IsUtf8 (texts names.now) }
    ensures { IfOk result (λ set. names_of set.keys ≡ first_occurrences (texts names.now)) }
{
    let mut set = Set::with_hasher(alloc, seed);
    for bytes in names {
        let name = str::from_utf8(bytes).unwrap();
        set.insert(String::from_str(alloc, name)?)?;
    }
    Ok(set)
}

/// The texts of slices, in order.
pub(crate) fn text_list<'a>(alloc: Global, slices: &[&'a [u8]]) -> Result<Vec<&'a str>, AllocError>
    requires { All IsUtf8 (texts slices.now) }
    ensures { IfOk result (λ v. map text_of v.items ≡ texts slices.now) }
{
    let mut list = Vec::new(alloc);
    for bytes in slices {
        let text = str::from_utf8(bytes).unwrap();
        list.push(text)?;
    }
    Ok(list)
}

/// The position of the first of the names that is this one; how many names there are where none is.
pub(crate) fn position_of(names: &[&[u8]], name: &str) -> usize
    ensures { result ≡ position_of (texts names.now) name.now }
{
    for (position, bytes) in names.iter().enumerate() {
        if *bytes == name.as_bytes() {
            return position;
        }
    }
    names.len()
}
