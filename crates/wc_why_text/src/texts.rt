//! Texts from outside, as words of a line, and between the quotes of a graph.

ghost use Rattle.std.specs.Prelude.{◌≡◌, ◌++◌, ℕ, List, IfOk, OnOk, string_bytes};
ghost use Rattle.std.specs.List.{flat_map};
ghost use Rattle.std.specs.Str.{chars};
ghost use Rattle.wc_why_text.specs.Texts.{graph_text, two_words, word};

use std::alloc::{AllocError, Global};
use wc_texts::escaped;

/// A mapping from characters to texts.
trait Mapping {
    // The text of a character.
    ghost text: { ℕ → List ℕ };

    /// Appends the text of a character.
    fn push(&self, out: &mut String, c: char) -> Result<(), AllocError>
        ensures { OnOk result (string_bytes out.new ≡ string_bytes out.old ++ text c) };
}

/// Replaces each character of a text by its text.
fn mapped<M: Mapping>(alloc: Global, mapping: &M, text: &str) -> Result<String, AllocError>
    ensures { IfOk result (λ s. string_bytes s ≡ flat_map M.text (chars text.now)) }
{
    let characters: Vec<char> = text.chars().collect(alloc)?;
    mapped_characters(alloc, mapping, &characters)
}

/// The texts of these characters, one after another.
fn mapped_characters<M: Mapping>(
    alloc: Global,
    mapping: &M,
    characters: &[char],
) -> Result<String, AllocError>
    ensures { IfOk result (λ s. string_bytes s ≡ flat_map M.text characters.now) }
{
    let mut out = String::new(alloc);
    for c in characters {
        mapping.push(&mut out, *c)?;
    }
    Ok(out)
}

/// The mapping of a word: a blank becomes `\u{20}`.
struct AsWord;

impl Mapping for AsWord {
    ghost use Rattle.wc_why_text.specs.Texts.{word_char};

    ghost text = { word_char };

    fn push(&self, out: &mut String, c: char) -> Result<(), AllocError> {
        match c {
            ' ' => out.push_str("\\u{20}"),
            _ => out.push(c),
        }
    }
}

/// The mapping of a label: each character that Graphviz would read otherwise between quotes is escaped.
struct AsLabel;

impl Mapping for AsLabel {
    ghost use Rattle.wc_why_text.specs.Texts.{graph_char};

    ghost text = { graph_char };

    fn push(&self, out: &mut String, c: char) -> Result<(), AllocError> {
        match c {
            '\\' => out.push_str("\\\\"),
            '"' => out.push_str("\\\""),
            '&' => out.push_str("&amp;"),
            _ => out.push(c),
        }
    }
}

/// A text, escaped (`wc_texts::escaped`), with each blank as `\u{20}`: so it ends at the next blank.
///
/// # Errors
///
/// `AllocError`: an allocation failed.
pub fn word(alloc: Global, text: &str) -> Result<String, AllocError>
    ensures { IfOk result (λ s. string_bytes s ≡ word text.now) }
{
    let text = escaped(alloc, text)?;
    mapped(alloc, &AsWord, &text)
}

/// Two texts as words, with a blank between them.
///
/// # Errors
///
/// `AllocError`: an allocation failed.
pub(crate) fn two_words(alloc: Global, first: &str, second: &str) -> Result<String, AllocError>
    ensures { IfOk result (λ s. string_bytes s ≡ two_words first.now second.now) }
{
    let first = word(alloc, first)?;
    let second = word(alloc, second)?;
    format!(in alloc; "{first} {second}")
}

/// A text as it is between the quotes of a label: Graphviz shows this text.
///
/// # Errors
///
/// `AllocError`: an allocation failed.
pub(crate) fn graph_text(alloc: Global, text: &str) -> Result<String, AllocError>
    ensures { IfOk result (λ s. string_bytes s ≡ graph_text text.now) }
{
    mapped(alloc, &AsLabel, text)
}
