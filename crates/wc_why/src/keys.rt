//! Keys that ask about imports, of a world and of a module.

ghost use Rattle.std.specs.Prelude.{◌≡◌, ◌<◌, IfOk, string_bytes};
ghost use Rattle.std.specs.Option.{option_map};
ghost use Rattle.wc_texts.specs.Splits.{split_once};
ghost use Rattle.wc_why.specs.Keys.{asks_about, has_version, is_package, names_package, package_of, package_text, unversioned_text, version_of, versioned_package};

use std::alloc::{AllocError, Global};

/// Whether a key asks about the import with this text. It does if it is the text, or the text before its first `@`; or
/// if it is the package of an interface, with the version or without. The package is the text before the first `/`, and
/// the version is the text after the first `@`. The text of a module's import is the name of the module that it is
/// from. The text of a function or a type that the world itself imports is its name.
pub fn asks_about(key: &str, text: &str) -> bool
    ensures { result ≡ asks_about key.now text.now }
{
    key == text || key == unversioned(text) || names_package(key, text)
}

/// Whether a key is the package of an interface, with its version or without.
fn names_package(key: &str, text: &str) -> bool
    ensures { result ≡ names_package key.now text.now }
{
    match cut(text, '/') {
        Some((front, rest)) => is_package(key, front, rest),
        None => false,
    }
}

/// Whether a key is this package, with the version after it or without one.
fn is_package(key: &str, front: &str, rest: &str) -> bool
    ensures { result ≡ is_package key.now front.now rest.now }
{
    match cut(key, '@') {
        Some((name, version)) => name == front && has_version(rest, version),
        None => key == front,
    }
}

/// Whether this version is after the first `@` of a text.
fn has_version(rest: &str, version: &str) -> bool
    ensures { result ≡ has_version rest.now version.now }
{
    match cut(rest, '@') {
        Some((_name, other)) => version == other,
        None => false,
    }
}

/// A name without its version: what is before the first `@`.
pub fn unversioned(name: &str) -> &str
    ensures { result.now ≡ unversioned_text name.now }
{
    match name.split_once('@') {
        Some((front, _version)) => front,
        None => name,
    }
}

/// The version of a name: what is after the first `@`. `None` for a name without one.
pub fn version_of(name: &str) -> Option<&str>
    ensures { option_map (λ v. v.now) result ≡ version_of name.now }
{
    match cut(name, '@') {
        Some((_front, version)) => Some(version),
        None => None,
    }
}

/// The texts before and after the first such character of ASCII.
fn cut(text: &str, at: char) -> Option<(&str, &str)>
    requires { at < 128 }
    ensures { option_map (λ parts. (parts.0.now, parts.1.now)) result ≡ split_once at text.now }
{
    text.split_once(at)
}

/// The package of the interface of this name, without its version: the text before the first `/`. `None` for a name
/// without a `/`.
pub fn package_of(text: &str) -> Option<&str>
    ensures { option_map (λ p. p.now) result ≡ package_of text.now }
{
    match cut(text, '/') {
        Some((front, _name)) => Some(front),
        None => None,
    }
}

/// The package of an interface of this name, with its version: what is before the first `/`, and what is from the first
/// `@` after that on. `None` for a name without a `/`.
///
/// # Errors
///
/// `AllocError`: an allocation failed.
pub fn package_text(alloc: Global, text: &str) -> Result<Option<String>, AllocError>
    ensures { IfOk result (λ p. option_map string_bytes p ≡ package_text text.now) }
{
    match cut(text, '/') {
        Some((front, rest)) => Ok(Some(versioned_package(alloc, front, rest)?)),
        None => Ok(None),
    }
}

/// A package with the version that is after it, if there is one.
fn versioned_package(alloc: Global, front: &str, rest: &str) -> Result<String, AllocError>
    ensures { IfOk result (λ s. string_bytes s ≡ versioned_package front.now rest.now) }
{
    match cut(rest, '@') {
        Some((_name, version)) => format!(in alloc; "{front}@{version}"),
        None => String::from_str(alloc, front),
    }
}
