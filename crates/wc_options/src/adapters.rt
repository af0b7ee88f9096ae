//! Adapters as options give them: by their names, with the paths of their modules, or with exports.

ghost use Rattle.std.specs.Prelude.{◌≡◌, IfOk, filter, length, map};
ghost use Rattle.wc_maps.specs.Texts.{first_parts, text_of, text_pair};
ghost use Rattle.wc_options.specs.Adapters.{adapter_file_of, file_name, is_standard, pair_or, stem};

use crate::reading::pair;
use std::alloc::{AllocError, Global};
use std::path::Path;

/// The names of adapters and the paths of their modules, from the values `[NAME=]FILE` of an option, in order. NAME
/// ends at the first `=`. Without a `=` the value is FILE, and NAME defaults to this file's name up to its first `.`.
///
/// # Errors
///
/// `AllocError`: an allocation failed.
pub fn adapters_of<'a>(
    alloc: Global,
    values: &[&'a str],
) -> Result<Vec<(&'a str, &'a str)>, AllocError>
    ensures { IfOk result (λ v. map text_pair v.items
        ≡ map adapter_file_of (map text_of values.now)) }
{
    let mut found = Vec::new(alloc);
    for value in values {
        found.push(adapter_file(value))?;
    }
    Ok(found)
}

/// The texts before and after the first `=` of an option's values, in order; for a value without a `=`, the value and
/// an empty text.
///
/// # Errors
///
/// `AllocError`: an allocation failed.
pub fn pairs_of<'a>(
    alloc: Global,
    values: &[&'a str],
) -> Result<Vec<(&'a str, &'a str)>, AllocError>
    ensures { IfOk result (λ v. map text_pair v.items ≡ map pair_or (map text_of values.now)) }
{
    let mut found = Vec::new(alloc);
    for value in values {
        found.push(pair_or(value))?;
    }
    Ok(found)
}

/// The first of each pair.
///
/// # Errors
///
/// `AllocError`: an allocation failed.
pub fn first_parts<'a>(
    alloc: Global,
    pairs: &[(&'a str, &'a str)],
) -> Result<Vec<&'a str>, AllocError>
    ensures { IfOk result (λ v. map text_of v.items ≡ first_parts (map text_pair pairs.now)) }
{
    let mut names = Vec::new(alloc);
    for (name, _value) in pairs {
        names.push(*name)?;
    }
    Ok(names)
}

/// How many adapters are on standard input, of adapters by their names with their paths.
pub fn count_standard(adapters: &[(&str, &str)]) -> usize
    ensures { result ≡ length (filter (λ a. is_standard a.1.now) adapters.now) }
{
    adapters
        .iter()
        .filter(|adapter| is_standard(adapter.1))
        .count()
}

/// Whether a path means standard input.
pub fn is_standard(path: &str) -> bool
    ensures { result ≡ is_standard path.now }
{
    path == "-"
}

/// The texts before and after the first `=`; without a `=`, the whole text and an empty one.
fn pair_or(value: &str) -> (&str, &str)
    ensures { (result.0.now, result.1.now) ≡ pair_or value.now }
{
    match pair(value) {
        Some((name, key)) => (name, key),
        None => (value, ""),
    }
}

/// The name and the file of an adapter: the texts before and after the first `=`; without a `=`, the name comes from
/// the file's name.
fn adapter_file(value: &str) -> (&str, &str)
    ensures { (result.0.now, result.1.now) ≡ adapter_file_of value.now }
{
    match pair(value) {
        Some((name, file)) => (name, file),
        None => (stem(file_name(value)), value),
    }
}

/// The name of a file: the last component of its path; the path itself, if that has none.
fn file_name(path: &str) -> &str
    ensures { result.now ≡ file_name path.now }
{
    match Path::new(path).file_name() {
        Some(name) => name,
        None => path,
    }
}

/// The text before the first `.`; without one all.
fn stem(name: &str) -> &str
    ensures { result.now ≡ stem name.now }
{
    match name.split_once('.') {
        Some((stem, _rest)) => stem,
        None => name,
    }
}
