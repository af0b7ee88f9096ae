//! Lists of what may be imported, and what such a list says of imports.

ghost use Rattle.std.specs.Prelude.{◌≡◌, ◌++◌, ◌↔◌, ℕ, IfOk, List, OnOk, Contains, cond, map, string_bytes, [], ◌∷◌};
ghost use Rattle.wc_maps.specs.Texts.{text_of};
ghost use Rattle.wc_read.specs.Imports.{import_value};
ghost use Rattle.wc_import_paths.specs.Patterns.{pattern_view};
ghost use Rattle.wc_texts.specs.Names.{first_occurrences};
ghost use Rattle.wc_why.specs.Tree.{tree_way_view};
ghost use Rattle.wcwhy.specs.Allowed.{IsUnallowed, before_comment, entries_from, entries_of, entry_on, entry_place, entry_view, is_used, line_key, lines_of, listed_word, listed_words, module_names, not_allowed_text, trimmed, unallowed, unused, warning_text, way_module, way_modules, word_listing};
ghost use Rattle.wcwhy.specs.Private.Allowed.{entry_pattern, is_matched, key_pattern, outside};

use crate::fault::given_word;
use std::alloc::{AllocError, Global};
use wc_import_paths::{Asked, ImportPattern, OfferedImports};
use wc_maps::{Seed, Set};
use wc_options::{MOST_LISTED, more_text};
use wc_read::{Import, ImportType};
use wc_texts::escaped;
use wc_why::{TreeImport, TreeWay};
use wc_why_text::word;

/// An entry of a list of what may be imported.
#[derive(Clone, Copy)]
pub(crate) struct Entry<'t> {
    /// The number of its line, from 1.
    pub(crate) line: usize,
    /// The name of an interface or a package, with its version or without (`wc_why::asks_about`).
    pub(crate) key: &'t str,
}

/// The entries of a list, in order. Each line of the text has at most one: what is before the first `#` of the line,
/// without the white space around it (of ASCII). A line on which nothing is left has none.
///
/// # Errors
///
/// `AllocError`: an allocation failed.
pub(crate) fn entries_of(alloc: Global, text: &str) -> Result<Vec<Entry<'_>>, AllocError>
    ensures { IfOk result (λ v. map entry_view v.items ≡ entries_of text.now) }
{
    let lines = lines_of(alloc, text)?;
    entries_on(alloc, &lines)
}

/// The lines of a text.
fn lines_of(alloc: Global, text: &str) -> Result<Vec<&str>, AllocError>
    ensures { IfOk result (λ v. map text_of v.items ≡ lines_of text.now) }
{
    text.split('\n').collect(alloc)
}

/// The entries of lines, in order.
fn entries_on<'t>(alloc: Global, lines: &[&'t str]) -> Result<Vec<Entry<'t>>, AllocError>
    ensures { IfOk result (λ v. map entry_view v.items
        ≡ entries_from 1 (map text_of lines.now)) }
{
    let mut entries = Vec::new(alloc);
    let mut number = 0;
    for line in lines {
        number += 1;
        push_entry(number, line_key(line), &mut entries)?;
    }
    Ok(entries)
}

/// Appends the entry of a line of this number with this on it, if it has one.
fn push_entry<'t>(line: usize, key: &'t str, entries: &mut Vec<Entry<'t>>) -> Result<(), AllocError>
    ensures { OnOk result (map entry_view entries.new.items
        ≡ map entry_view entries.old.items ++ entry_on line key.now) }
{
    if !key.is_empty() {
        entries.push(Entry { line, key })?;
    }
    Ok(())
}

/// The key on a line; nothing, if the line has none.
fn line_key(line: &str) -> &str
    ensures { result.now ≡ line_key line.now }
{
    trimmed(before_comment(line))
}

/// A text before its first `#`.
fn before_comment(line: &str) -> &str
    ensures { result.now ≡ before_comment line.now }
{
    match line.split_once('#') {
        Some((front, _comment)) => front,
        None => line,
    }
}

/// A text without the white space of ASCII around it.
fn trimmed(text: &str) -> &str
    ensures { result.now ≡ trimmed text.now }
{
    text.trim_ascii_start().trim_ascii_end()
}

/// The imports at which paths end, in order. Their types are not those of the imports.
///
/// # Errors
///
/// `AllocError`: an allocation failed.
pub(crate) fn way_imports<'r>(
    alloc: Global,
    ways: &[TreeWay<'r>],
) -> Result<Vec<Import<'r>>, AllocError>
    ensures { IfOk result (λ v. module_names (map import_value v.items)
        ≡ way_modules (map tree_way_view ways.now)) }
{
    let mut imports = Vec::new(alloc);
    for way in ways {
        push_import(way, &mut imports)?;
    }
    Ok(imports)
}

/// Appends the import at which a path ends, if it ends at one.
fn push_import<'r>(way: &TreeWay<'r>, imports: &mut Vec<Import<'r>>) -> Result<(), AllocError>
    ensures { OnOk result (module_names (map import_value imports.new.items)
        ≡ module_names (map import_value imports.old.items) ++ way_module (tree_way_view way.now)) }
{
    if let Some(import) = &way.import {
        imports.push(import_of(import))?;
    }
    Ok(())
}

/// An import by its names.
fn import_of<'r>(import: &TreeImport<'r>) -> Import<'r>
    ensures { result.«module».now ≡ import.now.«module».now }
{
    Import {
        module: import.module,
        name: import.name,
        ty: ImportType::Func(0),
    }
}

/// The modules from which something is imported and that no entry allows, each once, in the order of their first
/// imports. An entry allows what its key asks about (`wc_why::asks_about`). `seed`: the seed of the sets that are made.
///
/// It takes time linear in the entries and in the imports.
///
/// # Errors
///
/// `AllocError`: an allocation failed.
pub(crate) fn unallowed<'m>(
    alloc: Global,
    seed: Seed,
    entries: &[Entry<'_>],
    imports: &[Import<'m>],
) -> Result<Vec<&'m str>, AllocError>
    ensures listed { IfOk result (λ v. map text_of v.items
        ≡ unallowed (map entry_view entries.now) (module_names (map import_value imports.now))) }
    ensures exact { IfOk result (λ v. (m : List ℕ) → Contains (map text_of v.items) m
        ↔ IsUnallowed (map entry_view entries.now)
        (module_names (map import_value imports.now)) m) }
{
    let patterns = entry_patterns(alloc, entries)?;
    let modules = modules_outside(alloc, seed, &patterns, imports)?;
    let found = each_once(alloc, seed, &modules)?;
    Ok(found)
}

/// The patterns of entries, in order.
fn entry_patterns<'t>(
    alloc: Global,
    entries: &[Entry<'t>],
) -> Result<Vec<ImportPattern<'t>>, AllocError>
    ensures { IfOk result (λ v. map pattern_view v.items
        ≡ map entry_pattern (map entry_view entries.now)) }
{
    let mut patterns = Vec::new(alloc);
    for entry in entries {
        patterns.push(key_pattern(entry.key))?;
    }
    Ok(patterns)
}

/// The pattern that asks for all imports from the modules that a key asks about.
fn key_pattern(key: &str) -> ImportPattern<'_>
    ensures { pattern_view result ≡ key_pattern key.now }
{
    ImportPattern { key, name: None }
}

/// The patterns that ask for all imports from the modules that keys ask about, in order. A key may have a `=`.
///
/// # Errors
///
/// `AllocError`: an allocation failed.
pub(crate) fn key_patterns<'k>(
    alloc: Global,
    keys: &[&'k str],
) -> Result<Vec<ImportPattern<'k>>, AllocError>
    ensures { IfOk result (λ v. map pattern_view v.items
        ≡ map key_pattern (map text_of keys.now)) }
{
    let mut patterns = Vec::new(alloc);
    for key in keys {
        patterns.push(key_pattern(key))?;
    }
    Ok(patterns)
}

/// The modules of the imports for which no pattern asks, in order; some of them repeated.
fn modules_outside<'m>(
    alloc: Global,
    seed: Seed,
    patterns: &[ImportPattern<'_>],
    imports: &[Import<'m>],
) -> Result<Vec<&'m str>, AllocError>
    ensures { IfOk result (λ v. map text_of v.items
        ≡ outside (map pattern_view patterns.now) (map import_value imports.now)) }
{
    let asked = Asked::new(alloc, seed, patterns)?;
    modules_unasked(alloc, &asked, imports)
}

/// The modules of the imports that are not asked for, in order; some of them repeated.
fn modules_unasked<'m>(
    alloc: Global,
    asked: &Asked<'_, '_>,
    imports: &[Import<'m>],
) -> Result<Vec<&'m str>, AllocError>
    ensures { IfOk result (λ v. map text_of v.items
        ≡ outside asked.now (map import_value imports.now)) }
{
    let mut modules = Vec::new(alloc);
    for import in imports {
        push_if(!is_matched(asked, import), &import.module, &mut modules)?;
    }
    Ok(modules)
}

/// Whether a pattern asks for an import.
fn is_matched(asked: &Asked<'_, '_>, import: &Import<'_>) -> bool
    ensures { result ≡ is_matched asked.now (import_value import.now) }
{
    asked.are_there() && asked.is_shown(import)
}

/// Appends an item, if it is to be kept.
fn push_if<T: Copy>(is_kept: bool, item: &T, items: &mut Vec<T>) -> Result<(), AllocError>
    ensures { OnOk result (items.new.items ≡ items.old.items ++ cond is_kept (item.now ∷ []) []) }
{
    if is_kept {
        items.push(*item)?;
    }
    Ok(())
}

/// The texts in the order of their first occurrences, each once. `seed`: the seed of the set that is made.
fn each_once<'t>(alloc: Global, seed: Seed, texts: &[&'t str]) -> Result<Vec<&'t str>, AllocError>
    ensures { IfOk result (λ v. map text_of v.items ≡ first_occurrences (map text_of texts.now)) }
{
    let mut found = Vec::new(alloc);
    let mut seen: Set<&str> = Set::with_hasher(alloc, seed);
    for text in texts {
        push_if(seen.insert(*text)?, text, &mut found)?;
    }
    Ok(found)
}

/// The entries that allow nothing of these imports, in order. `seed`: the seed of the set that is made.
///
/// It takes time linear in the entries and in the imports.
///
/// # Errors
///
/// `AllocError`: an allocation failed.
pub(crate) fn unused<'t>(
    alloc: Global,
    seed: Seed,
    entries: &[Entry<'t>],
    imports: &[Import<'_>],
) -> Result<Vec<Entry<'t>>, AllocError>
    ensures { IfOk result (λ v. map entry_view v.items
        ≡ unused (map entry_view entries.now) (module_names (map import_value imports.now))) }
{
    let offered = OfferedImports::new(alloc, seed, imports)?;
    unused_of(alloc, &offered, entries)
}

/// The entries that allow nothing of imports that are ready to be looked up, in order.
fn unused_of<'t>(
    alloc: Global,
    offered: &OfferedImports<'_, '_>,
    entries: &[Entry<'t>],
) -> Result<Vec<Entry<'t>>, AllocError>
    ensures { IfOk result (λ v. map entry_view v.items
        ≡ unused (map entry_view entries.now) (module_names offered.now)) }
{
    let mut found = Vec::new(alloc);
    for entry in entries {
        push_if(!is_used(offered, entry), entry, &mut found)?;
    }
    Ok(found)
}

/// Whether an entry allows something of imports.
fn is_used(offered: &OfferedImports<'_, '_>, entry: &Entry<'_>) -> bool
    ensures { result ≡ is_used (module_names offered.now) (entry_view entry.now) }
{
    offered.is_known(&key_pattern(entry.key))
}

/// That an entry allows nothing, for a warning. `path`: the file of the list.
///
/// # Errors
///
/// `AllocError`: an allocation failed.
pub(crate) fn warning_text(
    alloc: Global,
    path: &str,
    entry: &Entry<'_>,
) -> Result<String, AllocError>
    ensures { IfOk result (λ text. string_bytes text
        ≡ warning_text path.now (entry_view entry.now)) }
{
    let place = entry_place(alloc, path, entry.line)?;
    let key = word(alloc, entry.key)?;
    format!(in alloc; "{place} allows nothing: {key}")
}

/// The place of a line in the file of this path.
fn entry_place(alloc: Global, path: &str, line: usize) -> Result<String, AllocError>
    ensures { IfOk result (λ text. string_bytes text ≡ entry_place path.now line) }
{
    let path = escaped(alloc, path)?;
    format!(in alloc; "line {line} of {path}")
}

/// That imports from these modules are not allowed, for a fault: the first eight of them, and how many there are more.
///
/// # Errors
///
/// `AllocError`: an allocation failed.
pub(crate) fn not_allowed_text(alloc: Global, modules: &[&str]) -> Result<String, AllocError>
    ensures { IfOk result (λ text. string_bytes text
        ≡ not_allowed_text (map text_of modules.now)) }
{
    let listing = word_listing(alloc, modules)?;
    format!(in alloc; "not allowed:{listing}")
}

/// The first eight names, each as a word after a blank, and how many there are more.
fn word_listing(alloc: Global, names: &[&str]) -> Result<String, AllocError>
    ensures { IfOk result (λ text. string_bytes text ≡ word_listing (map text_of names.now)) }
{
    if names.len() <= MOST_LISTED {
        return listed_words(alloc, names);
    }
    let text = listed_words(alloc, &names[..MOST_LISTED])?;
    let more = more_text(alloc, names.len() - MOST_LISTED)?;
    format!(in alloc; "{text}{more}")
}

/// Names as words, each after a blank.
fn listed_words(alloc: Global, names: &[&str]) -> Result<String, AllocError>
    ensures { IfOk result (λ text. string_bytes text ≡ listed_words (map text_of names.now)) }
{
    let mut text = String::new(alloc);
    for name in names {
        push_word(alloc, &mut text, name)?;
    }
    Ok(text)
}

/// Appends a name as a word, after a blank.
fn push_word(alloc: Global, text: &mut String, name: &str) -> Result<(), AllocError>
    ensures { OnOk result (string_bytes text.new ≡ string_bytes text.old
        ++ listed_word name.now) }
{
    let name = given_word(alloc, name)?;
    let listed = format!(in alloc; " {name}")?;
    text.push_str(&listed)
}
