//! Words beside an answer: warnings, and that something is imported which is not allowed.

ghost use Rattle.std.specs.Prelude.{◌≡◌, IfOk, map, string_bytes};
ghost use Rattle.std.specs.List.{flat_map};
ghost use Rattle.std.specs.Option.{option_map};
ghost use Rattle.wc_read.specs.Imports.{import_value};
ghost use Rattle.wc_import_paths.specs.Patterns.{pattern_view};
ghost use Rattle.wc_why.specs.Texts.{text_of};
ghost use Rattle.wcwhy.specs.Allowed.{entry_view, module_names};
ghost use Rattle.wcwhy.specs.Warnings.{inside_warning, quiet, refused_patterns, refused_text, said_by, several_line, unused_warning, with_inside};
ghost use Rattle.wcwhy.specs.Private.Inputs.{allow_view};
ghost use Rattle.wcwhy.specs.Private.Warnings.{said_view};

use crate::allowed::{
    Entry, entries_of, key_patterns, not_allowed_text, unallowed, unused, warning_text,
};
use crate::inputs::AllowFile;
use std::alloc::{AllocError, Global};
use wc_import_paths::ImportPattern;
use wc_maps::Seed;
use wc_read::Import;

/// Words beside an answer.
#[derive(Debug, Drop)]
pub struct Said {
    /// Warnings, each in a line after `wcwhy: warning: `.
    pub warnings: String,
    /// The text that says what is not allowed, if something is imported that is not.
    pub unallowed: Option<String>,
}

/// The verdict of a file of what is allowed on imports.
#[derive(Drop)]
pub(crate) struct Verdict<'i> {
    /// Those that are not allowed.
    pub(crate) patterns: Vec<ImportPattern<'i>>,
    /// Words about them.
    pub(crate) said: Said,
}

/// Nothing that is said.
pub(crate) fn quiet(alloc: Global) -> Said
    ensures { said_view result ≡ quiet }
{
    Said {
        warnings: String::new(alloc),
        unallowed: None,
    }
}

/// The verdict of a file of what is allowed on these imports. `seed`: the seed of the sets that are made.
pub(crate) fn judge<'i>(
    alloc: Global,
    seed: Seed,
    allow: &AllowFile<'_>,
    imports: &[Import<'i>],
) -> Result<Verdict<'i>, AllocError>
    ensures patterns { IfOk result (λ v. map pattern_view v.patterns.items
        ≡ refused_patterns (allow_view allow.now) (module_names (map import_value imports.now))) }
    ensures said { IfOk result (λ v. said_view v.said
        ≡ said_by (allow_view allow.now) (module_names (map import_value imports.now))) }
{
    let entries = entries_of(alloc, &allow.text)?;
    let modules = unallowed(alloc, seed, &entries, imports)?;
    let unused = unused(alloc, seed, &entries, imports)?;
    let patterns = key_patterns(alloc, &modules)?;
    let warnings = unused_warnings(alloc, allow.path, &unused)?;
    let unallowed = unallowed_text(alloc, &modules)?;
    Ok(Verdict {
        patterns,
        said: Said {
            warnings,
            unallowed,
        },
    })
}

/// The text that says that imports from these modules are not allowed, if there are any.
fn unallowed_text(alloc: Global, modules: &[&str]) -> Result<Option<String>, AllocError>
    ensures { IfOk result (λ o. option_map string_bytes o
        ≡ refused_text (map text_of modules.now)) }
{
    if modules.is_empty() {
        return Ok(None);
    }
    Ok(Some(not_allowed_text(alloc, modules)?))
}

/// The warnings of these entries of the file of a path, which allow nothing.
fn unused_warnings(alloc: Global, path: &str, entries: &[Entry<'_>]) -> Result<String, AllocError>
    ensures { IfOk result (λ text. string_bytes text
        ≡ flat_map (unused_warning path.now) (map entry_view entries.now)) }
{
    let mut text = String::new(alloc);
    for entry in entries {
        let warning = unused_warning(alloc, path, entry)?;
        text.push_str(&warning)?;
    }
    Ok(text)
}

/// The warning of an entry of the file of a path, which allows nothing.
fn unused_warning(alloc: Global, path: &str, entry: &Entry<'_>) -> Result<String, AllocError>
    ensures { IfOk result (λ text. string_bytes text
        ≡ unused_warning path.now (entry_view entry.now)) }
{
    let text = warning_text(alloc, path, entry)?;
    format!(in alloc; "wcwhy: warning: {text}\n")
}

/// Puts before these words the warning of so many components inside a component that have core modules, and are not
/// followed.
pub(crate) fn with_inside(alloc: Global, inside: usize, said: Said) -> Result<Said, AllocError>
    ensures { IfOk result (λ s. said_view s ≡ with_inside inside (said_view said)) }
{
    let Said {
        warnings,
        unallowed,
    } = said;
    let mut lines = inside_warning(alloc, inside)?;
    lines.push_str(&warnings)?;
    Ok(Said {
        warnings: lines,
        unallowed,
    })
}

/// The warning of so many components inside a component.
fn inside_warning(alloc: Global, inside: usize) -> Result<String, AllocError>
    ensures { IfOk result (λ text. string_bytes text ≡ inside_warning inside) }
{
    if inside == 0 {
        return Ok(String::new(alloc));
    }
    if inside == 1 {
        return String::from_str(alloc, ONE_INSIDE);
    }
    many_inside(alloc, inside)
}

/// The warning of so many components inside a component, as it is for several.
fn many_inside(alloc: Global, inside: usize) -> Result<String, AllocError>
    ensures { IfOk result (λ text. string_bytes text ≡ several_line inside) }
{
    format!(in alloc;
        "wcwhy: warning: {inside} components inside with core modules are not followed\n"
    )
}

/// The warning of one component inside.
const ONE_INSIDE: &str = "wcwhy: warning: 1 component inside with core modules is not followed\n";
