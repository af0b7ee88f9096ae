//! Lists of texts.

ghost use Rattle.std.specs.Prelude.{◌≡◌, All, Contains, IfNone, IfOk, IfSome, map};
ghost use Rattle.std.specs.List.{list_any};
ghost use Rattle.std.specs.Str.{bytes_eq};
ghost use Rattle.wc_maps.specs.Texts.{AreDistinct, HasTexts, IsFirstMissing, IsFirstRepeated, is_in, text_of};

use crate::{Seed, Set};
use std::alloc::{AllocError, Global};

/// Whether one of the texts is this one.
pub fn has_text(texts: &[&str], text: &str) -> bool
    ensures { result ≡ list_any (λ t. bytes_eq t.now text.now) texts.now }
{
    texts.iter().any(|one| *one == text)
}

/// The texts as a set. `seed`: its seed.
///
/// # Errors
///
/// `AllocError`: an allocation failed.
pub fn text_set<'a>(
    alloc: Global,
    seed: Seed,
    texts: &[&'a str],
) -> Result<Set<&'a str>, AllocError>
    ensures { IfOk result (λ s. HasTexts (map text_of texts.now) (map text_of s.keys)) }
{
    let mut set: Set<&str> = Set::with_hasher(alloc, seed);
    for text in texts {
        set.insert(*text)?;
    }
    Ok(set)
}

/// Whether a set has this text.
pub fn is_in_set(set: &Set<&str>, text: &str) -> bool
    ensures { result ≡ is_in (map text_of set.now.keys) text.now }
{
    set.contains(text)
}

/// The first text that is not in a set.
pub fn first_outside<'a>(texts: &[&'a str], set: &Set<&str>) -> Option<&'a str>
    ensures missing { IfSome result (λ text.
        IsFirstMissing (map text_of texts.now) (map text_of set.now.keys) text.now) }
    ensures none { IfNone result (All (Contains (map text_of set.now.keys))
        (map text_of texts.now)) }
{
    for text in texts {
        if !is_in_set(set, text) {
            return Some(*text);
        }
    }
    None
}

/// The first text that is none of the others. `seed`: the seed of the set of the others.
///
/// # Errors
///
/// `AllocError`: an allocation failed.
pub fn first_missing<'a>(
    alloc: Global,
    seed: Seed,
    texts: &[&'a str],
    others: &[&str],
) -> Result<Option<&'a str>, AllocError>
    ensures missing { IfOk result (λ r. IfSome r (λ text.
        IsFirstMissing (map text_of texts.now) (map text_of others.now) text.now)) }
    ensures none { IfOk result (λ r. IfNone r (All (Contains (map text_of others.now))
        (map text_of texts.now))) }
{
    let set = text_set(alloc, seed, others)?;
    Ok(first_outside(texts, &set))
}

/// The first text that occurred before. `seed`: the seed of the set of those before.
///
/// # Errors
///
/// `AllocError`: an allocation failed.
pub fn first_repeated<'a>(
    alloc: Global,
    seed: Seed,
    texts: &[&'a str],
) -> Result<Option<&'a str>, AllocError>
    ensures repeated { IfOk result (λ r. IfSome r (λ text.
        IsFirstRepeated (map text_of texts.now) text.now)) }
    ensures none { IfOk result (λ r. IfNone r (AreDistinct (map text_of texts.now))) }
{
    let mut seen: Set<&str> = Set::with_hasher(alloc, seed);
    for text in texts {
        if !seen.insert(*text)? {
            return Ok(Some(*text));
        }
    }
    Ok(None)
}
