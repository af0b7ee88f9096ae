//! Patterns, which ask for imports.

ghost use Rattle.std.specs.Prelude.{◌≡◌, IfOk, map};
ghost use Rattle.std.specs.List.{list_any};
ghost use Rattle.std.specs.Option.{option_map};
ghost use Rattle.wc_read.specs.Imports.{import_value};
ghost use Rattle.wc_why.specs.Texts.{text_of};
ghost use Rattle.wc_import_paths.specs.Patterns.{first_unknown, is_known, is_match, is_name, is_shown, pattern_of, pattern_view};

use std::alloc::{AllocError, Global};
use wc_read::Import;
use wc_why::asks_about;

/// A pattern that requests imports: all imports from the modules that its key asks about, or only the imports of one
/// name from these modules.
#[derive(Clone, Copy, Debug, PartialEq, Eq, Hash)]
pub struct ImportPattern<'a> {
    /// The key: the name of a module or a package of interfaces; without a version it asks for each version
    /// (`wc_why::asks_about`).
    pub key: &'a str,
    /// The name of the import; any, if it is `None`.
    pub name: Option<&'a str>,
}

/// The patterns of texts, in order: `KEY` requests all imports from the modules that the key asks about, `KEY=NAME`
/// only the imports of this name from them. KEY ends at the first `=`.
///
/// # Errors
///
/// `AllocError`: an allocation failed.
pub fn patterns_of<'a>(
    alloc: Global,
    texts: &[&'a str],
) -> Result<Vec<ImportPattern<'a>>, AllocError>
    ensures { IfOk result (λ v. map pattern_view v.items
        ≡ map pattern_of (map text_of texts.now)) }
{
    let mut found = Vec::new(alloc);
    for text in texts {
        found.push(pattern_of(text))?;
    }
    Ok(found)
}

/// The pattern of a text.
fn pattern_of(text: &str) -> ImportPattern<'_>
    ensures { pattern_view result ≡ pattern_of text.now }
{
    match text.split_once('=') {
        Some((key, name)) => ImportPattern {
            key,
            name: Some(name),
        },
        None => ImportPattern {
            key: text,
            name: None,
        },
    }
}

/// Whether an import is one of those that a pattern asks for.
fn is_match(pattern: &ImportPattern<'_>, import: &Import<'_>) -> bool
    ensures { result ≡ is_match (pattern_view pattern.now) (import_value import.now) }
{
    asks_about(pattern.key, import.module) && is_name(pattern.name, import.name)
}

/// Whether a name is asked for: this one, or any.
fn is_name(asked: Option<&str>, name: &str) -> bool
    ensures { result ≡ is_name (option_map text_of asked.entry) name.now }
{
    match asked {
        Some(asked) => asked == name,
        None => true,
    }
}

/// Whether an import is asked for: by a pattern, or because there are none.
pub(crate) fn is_shown(patterns: &[ImportPattern<'_>], import: &Import<'_>) -> bool
    ensures { result ≡ is_shown (map pattern_view patterns.now) (import_value import.now) }
{
    patterns.is_empty() || is_asked(patterns, import)
}

/// Whether an import is asked for by a pattern.
fn is_asked(patterns: &[ImportPattern<'_>], import: &Import<'_>) -> bool
    ensures { result ≡ list_any (λ p. is_match p (import_value import.now))
        (map pattern_view patterns.now) }
{
    for pattern in patterns {
        if is_match(pattern, import) {
            return true;
        }
    }
    false
}

/// The first pattern that asks for none of these imports.
pub(crate) fn first_unknown<'a>(
    patterns: &[ImportPattern<'a>],
    imports: &[Import<'_>],
) -> Option<ImportPattern<'a>>
    ensures { option_map pattern_view result ≡ first_unknown (map import_value imports.now)
        (map pattern_view patterns.now) }
{
    for pattern in patterns {
        if !is_known(imports, pattern) {
            return Some(*pattern);
        }
    }
    None
}

/// Whether a pattern asks for any of these imports.
fn is_known(imports: &[Import<'_>], pattern: &ImportPattern<'_>) -> bool
    ensures { result ≡ is_known (map import_value imports.now) (pattern_view pattern.now) }
{
    for import in imports {
        if is_match(pattern, import) {
            return true;
        }
    }
    false
}
