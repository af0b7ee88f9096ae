//! The imports that patterns ask for.

ghost use Rattle.std.specs.Prelude.{◌≡◌, IfOk, List, OnOk, map};
ghost use Rattle.std.specs.List.{list_any};
ghost use Rattle.std.specs.Option.{option_map};
ghost use Rattle.wc_read.specs.Imports.{ImportValue, import_value};
ghost use Rattle.wc_why.specs.Keys.{version_of};
ghost use Rattle.wc_why.specs.Texts.{text_of};
ghost use Rattle.wc_import_paths.specs.Patterns.{are_asked, first_unknown, is_known, is_match, is_shown, pattern_view};
ghost use Rattle.wc_import_paths.specs.Private.Asked.{AddsKeys, AddsNamed, AddsOffered, HasOffered, HasSame, has_any, has_key, has_named, key_of, key_view, package_keys, version_keys, versioned_keys};

use crate::patterns::{ImportPattern, first_unknown, is_shown};
use std::alloc::{AllocError, Global};
use std::marker::Model;
use wc_maps::{Seed, Set};
use wc_read::Import;
use wc_why::{unversioned, version_of};

/// Up to this number of patterns are tried one after another, since that takes less time than a lookup by hashes.
const FEW: usize = 8;

/// A pattern as it is looked up: its key, cut at the first `@`, and its name. So a package and its version, which are
/// not adjacent in the name of a module, are compared with two parts of that name.
#[derive(Clone, Copy, PartialEq, Eq, Hash)]
struct PatternKey<'a> {
    /// The key without its version.
    text: &'a str,
    /// Its version, if it has one.
    version: Option<&'a str>,
    /// The name of the import; any, if it is `None`.
    name: Option<&'a str>,
}

/// Patterns that ask for imports, ready to be looked up.
#[derive(Drop)]
pub struct Asked<'p, 'a> {
    /// As they are given.
    patterns: &'p [ImportPattern<'a>],
    /// The patterns as a set, for looking them up.
    set: Set<PatternKey<'a>>,
}

impl<'p, 'a> Model for Asked<'p, 'a> {
    ghost use Rattle.std.specs.Prelude.{List, map};
    ghost use Rattle.wc_import_paths.specs.Patterns.{PatternView, pattern_view};
    ghost use Rattle.wc_import_paths.specs.Private.Asked.{HasSame};

    ghost Value = { List PatternView };

    ghost view = { λ a. map pattern_view a.patterns.now };

    ghost invariant = { λ a. HasSame a.set.keys (map pattern_view a.patterns.now) };
}

impl<'p, 'a> Asked<'p, 'a> {
    /// Makes these patterns ready to be looked up. `seed`: the seed of the sets that are made.
    ///
    /// # Errors
    ///
    /// `AllocError`: an allocation failed.
    pub fn new(
        alloc: Global,
        seed: Seed,
        patterns: &'p [ImportPattern<'a>],
    ) -> Result<Asked<'p, 'a>, AllocError>
        ensures { IfOk result (λ a. a ≡ map pattern_view patterns.now) }
    {
        let set = set_of(alloc, seed, patterns)?;
        Ok(Asked { patterns, set })
    }

    /// The seed of the sets.
    pub fn seed(&self) -> Seed {
        *self.set.hasher()
    }

    /// Whether there are any.
    pub fn are_there(&self) -> bool
        ensures { result ≡ are_asked self.now }
    {
        !self.patterns.is_empty()
    }

    /// Whether an import is asked for: by a pattern, or because there are none.
    pub fn is_shown(&self, import: &Import<'_>) -> bool
        ensures { result ≡ is_shown self.now (import_value import.now) }
    {
        if self.patterns.len() <= FEW {
            is_shown(self.patterns, import)
        } else {
            self.is_found(import)
        }
    }

    /// Whether an import is asked for by a pattern.
    fn is_found(&self, import: &Import<'_>) -> bool
        ensures { result ≡ list_any (λ p. is_match p (import_value import.now)) self.now }
    {
        self.has_versions(unversioned(import.module), import.module, import.name)
            || self.has_package(import.module, import.name)
    }

    /// Whether a pattern is for imports of the package of a module, with its version or without.
    fn has_package<'n>(&self, module: &'n str, name: &'n str) -> bool
        ensures { result ≡ has_any self.now (package_keys module.now) name.now }
    {
        match module.split_once('/') {
            Some((front, rest)) => self.has_versions(front, rest, name),
            None => false,
        }
    }

    /// Whether a pattern is for imports under this key, with the version that a text has or without one.
    fn has_versions<'n>(&self, front: &'n str, text: &'n str, name: &'n str) -> bool
        ensures { result ≡ has_any self.now
            (versioned_keys front.now (version_of text.now)) name.now }
    {
        self.has_named(front, None, name) || self.has_version(front, text, name)
    }

    /// Whether a pattern is for imports under this key with the version that a text has.
    fn has_version<'n>(&self, front: &'n str, text: &'n str, name: &'n str) -> bool
        ensures { result ≡ has_any self.now
            (version_keys front.now (version_of text.now)) name.now }
    {
        match version_of(text) {
            Some(version) => self.has_named(front, Some(version), name),
            None => false,
        }
    }

    /// Whether a pattern is for imports under a key, or for those of them that have this name.
    fn has_named<'n>(&self, text: &'n str, version: Option<&'n str>, name: &'n str) -> bool
        ensures { result ≡ has_named self.now
            (text.now, option_map text_of version.entry) name.now }
    {
        self.has_key(PatternKey {
            text,
            version,
            name: Some(name),
        }) || self.has_key(PatternKey {
            text,
            version,
            name: None,
        })
    }

    /// Whether there is a pattern that is looked up so.
    fn has_key(&self, key: PatternKey<'_>) -> bool
        ensures { result ≡ has_key self.now (key_view key.entry) }
    {
        self.set.contains(&key)
    }

    /// The first pattern that asks for none of these imports.
    ///
    /// # Errors
    ///
    /// `AllocError`: an allocation failed.
    pub fn first_unknown(
        &self,
        alloc: Global,
        imports: &[Import<'_>],
    ) -> Result<Option<ImportPattern<'a>>, AllocError>
        ensures { IfOk result (λ r. option_map pattern_view r
            ≡ first_unknown (map import_value imports.now) self.now) }
    {
        if self.patterns.len() <= FEW {
            return Ok(first_unknown(self.patterns, imports));
        }
        let offered = offered(alloc, *self.set.hasher(), imports)?;
        Ok(first_missing(self.patterns, &offered))
    }
}

/// Imports, ready to be looked up by patterns.
#[derive(Drop)]
pub struct OfferedImports<'s, 'i> {
    /// As they are given.
    imports: &'s [Import<'i>],
    /// The patterns that ask for any of them.
    set: Set<PatternKey<'i>>,
}

impl<'s, 'i> Model for OfferedImports<'s, 'i> {
    ghost use Rattle.std.specs.Prelude.{List, map};
    ghost use Rattle.wc_read.specs.Imports.{ImportValue, import_value};
    ghost use Rattle.wc_import_paths.specs.Private.Asked.{HasOffered};

    ghost Value = { List ImportValue };

    ghost view = { λ o. map import_value o.imports.now };

    ghost invariant = { λ o. HasOffered o.set.keys (map import_value o.imports.now) };
}

impl<'s, 'i> OfferedImports<'s, 'i> {
    /// Makes these imports ready to be looked up. `seed`: the seed of the set that is made.
    ///
    /// # Errors
    ///
    /// `AllocError`: an allocation failed.
    pub fn new(
        alloc: Global,
        seed: Seed,
        imports: &'s [Import<'i>],
    ) -> Result<OfferedImports<'s, 'i>, AllocError>
        ensures { IfOk result (λ o. o ≡ map import_value imports.now) }
    {
        let set = offered(alloc, seed, imports)?;
        Ok(OfferedImports { imports, set })
    }

    /// Whether a pattern asks for any of them.
    pub fn is_known(&self, pattern: &ImportPattern<'_>) -> bool
        ensures { result ≡ is_known self.now (pattern_view pattern.now) }
    {
        has_pattern(&self.set, pattern)
    }
}

/// The patterns as a set.
fn set_of<'a>(
    alloc: Global,
    seed: Seed,
    patterns: &[ImportPattern<'a>],
) -> Result<Set<PatternKey<'a>>, AllocError>
    ensures { IfOk result (λ set. HasSame set.keys (map pattern_view patterns.now)) }
{
    let mut set = Set::with_hasher(alloc, seed);
    for pattern in patterns {
        set.insert(key_of(pattern))?;
    }
    Ok(set)
}

/// A pattern as it is looked up.
fn key_of<'a>(pattern: &ImportPattern<'a>) -> PatternKey<'a>
    ensures { key_view result ≡ key_of (pattern_view pattern.now) }
{
    PatternKey {
        text: unversioned(pattern.key),
        version: version_of(pattern.key),
        name: pattern.name,
    }
}

/// All patterns that ask for any of these imports.
fn offered<'i>(
    alloc: Global,
    seed: Seed,
    imports: &[Import<'i>],
) -> Result<Set<PatternKey<'i>>, AllocError>
    ensures { IfOk result (λ set. HasOffered set.keys (map import_value imports.now)) }
{
    let mut set = Set::with_hasher(alloc, seed);
    for import in imports {
        add_offered(&mut set, import)?;
    }
    Ok(set)
}

/// Adds the patterns that ask for an import.
fn add_offered<'i>(set: &mut Set<PatternKey<'i>>, import: &Import<'i>) -> Result<(), AllocError>
    ensures { OnOk result (AddsOffered set.old.keys set.new.keys (import_value import.now)) }
{
    let module = import.module;
    add_versions(set, unversioned(module), module, import.name)?;
    add_package(set, module, import.name)
}

/// Adds the patterns for imports of the package of a module, with its version and without.
fn add_package<'i>(
    set: &mut Set<PatternKey<'i>>,
    module: &'i str,
    name: &'i str,
) -> Result<(), AllocError>
    ensures { OnOk result (AddsKeys set.old.keys set.new.keys (package_keys module.now) name.now) }
{
    match module.split_once('/') {
        Some((front, rest)) => add_versions(set, front, rest, name),
        None => Ok(()),
    }
}

/// Adds the patterns for imports under a key, with the version that a text has and without one.
fn add_versions<'i>(
    set: &mut Set<PatternKey<'i>>,
    front: &'i str,
    text: &'i str,
    name: &'i str,
) -> Result<(), AllocError>
    ensures { OnOk result (AddsKeys set.old.keys set.new.keys
        (versioned_keys front.now (version_of text.now)) name.now) }
{
    add_named(set, front, None, name)?;
    add_version(set, front, text, name)
}

/// Adds the patterns for imports under a key with the version that a text has.
fn add_version<'i>(
    set: &mut Set<PatternKey<'i>>,
    front: &'i str,
    text: &'i str,
    name: &'i str,
) -> Result<(), AllocError>
    ensures { OnOk result (AddsKeys set.old.keys set.new.keys
        (version_keys front.now (version_of text.now)) name.now) }
{
    match version_of(text) {
        Some(version) => add_named(set, front, Some(version), name),
        None => Ok(()),
    }
}

/// Adds the patterns for imports under a key, and for those of them that have this name.
fn add_named<'i>(
    set: &mut Set<PatternKey<'i>>,
    text: &'i str,
    version: Option<&'i str>,
    name: &'i str,
) -> Result<(), AllocError>
    ensures { OnOk result (AddsNamed set.old.keys set.new.keys
        (text.now, option_map text_of version.entry) name.now) }
{
    set.insert(PatternKey {
        text,
        version,
        name: Some(name),
    })?;
    set.insert(PatternKey {
        text,
        version,
        name: None,
    })?;
    Ok(())
}

/// The first pattern that a set lacks.
fn first_missing<'a>(
    patterns: &[ImportPattern<'a>],
    set: &Set<PatternKey<'_>>,
) -> Option<ImportPattern<'a>>
    ensures { (imports : List ImportValue) → HasOffered set.now.keys imports
        → option_map pattern_view result ≡ first_unknown imports (map pattern_view patterns.now) }
{
    for pattern in patterns {
        if !has_pattern(set, pattern) {
            return Some(*pattern);
        }
    }
    None
}

/// Whether a set has this pattern.
fn has_pattern(set: &Set<PatternKey<'_>>, pattern: &ImportPattern<'_>) -> bool
    ensures { (imports : List ImportValue) → HasOffered set.now.keys imports
        → result ≡ is_known imports (pattern_view pattern.now) }
{
    set.contains(&key_of(pattern))
}
