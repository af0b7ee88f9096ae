//! The names of imports without repeats, in ascending order, by a sort of numbers before that of texts.
//!
//! Most repeats are removed before any texts are sorted: numbers made from the names are sorted, and only the first
//! of consecutive equal names is kept. Different names may have one number, so some repeats may remain for the sort
//! of texts. No choice of names makes more than n log n comparisons of texts.

ghost use Rattle.std.specs.Prelude.{◌≡◌, ◌<◌, true, IfOk, All, get_or, length, map};
ghost use Rattle.wc_dedupe.specs.Private.NameKeys.{AreKeys, Rise, name_key, number_from, tail_number};
ghost use Rattle.wc_dedupe.specs.Private.NamePositions.{names_of, Ascend, HavePositions};

use crate::name_positions::{NamePositions, name_in, name_positions, push_new};
use std::alloc::{AllocError, Global};

/// The factor for the number of a module: odd, with bits set all over.
const FACTOR: u64 = 0x9e37_79b9_7f4a_7c15;

/// How many bytes of a text count for its number.
const TAIL: usize = 8;

/// The names of a list without repeats, in ascending order, and the position of each. Names are compared by their
/// modules first. `keys`: the keys of the names, in ascending order.
pub(crate) fn known_names<'a>(
    alloc: Global,
    names: &[(&'a str, &'a str)],
    keys: &[(u64, usize)],
) -> Result<NamePositions<'a>, AllocError>
    requires { AreKeys (names_of names.now) (length names.now) keys.now }
    ensures { IfOk result (λ p. Ascend p.names.items
        × HavePositions (names_of names.now) (names_of p.names.items) p.positions.items) }
{
    let few = placed(alloc, names, keys)?;
    let NamePositions {
        names: known,
        positions: further,
    } = name_positions(alloc, &few.names)?;
    let positions = positions_through(alloc, &few.positions, &further)?;
    Ok(NamePositions {
        names: known,
        positions,
    })
}

/// The keys of the names, in ascending order.
pub(crate) fn sorted_keys(
    alloc: Global,
    names: &[(&str, &str)],
) -> Result<Vec<(u64, usize)>, AllocError>
    ensures { IfOk result (λ v. AreKeys (names_of names.now) (length names.now) v.items) }
{
    let mut keys = keys_of(alloc, names)?;
    keys.sort()?;
    Ok(keys)
}

/// Whether each number is below the next. Then no two names are equal.
pub(crate) fn are_different(keys: &[(u64, usize)]) -> bool
    ensures { result ≡ true → Rise keys.now }
{
    for index in 1..keys.len() {
        if number_at(keys, index) <= number_at(keys, index - 1) {
            return false;
        }
    }
    true
}

/// The number of a key.
fn number_at(keys: &[(u64, usize)], index: usize) -> u64
    requires { index < length keys.now }
    ensures { result ≡ (get_or keys.now index (0, 0)).0 }
{
    keys[index].0
}

/// The keys of the names: of each its number and its index.
fn keys_of(alloc: Global, names: &[(&str, &str)]) -> Result<Vec<(u64, usize)>, AllocError>
    ensures { IfOk result (λ v. AreKeys (names_of names.now) (length names.now) v.items) }
{
    let mut keys = Vec::with_capacity(alloc, names.len())?;
    for (index, name) in names.iter().enumerate() {
        keys.push((name_key(name.0, name.1), index))?;
    }
    Ok(keys)
}

/// The number of a name: equal names have equal ones, and most names others.
pub(crate) fn name_key(module: &str, name: &str) -> u64
    ensures { result ≡ name_key (record { module_name = «module».now; name = name.now }) }
{
    let of_module = tail_number(module.as_bytes()).wrapping_mul(FACTOR);
    tail_number(name.as_bytes()).wrapping_add(of_module)
}

/// The last eight bytes of a text, or all of a shorter one, as a number.
fn tail_number(text: &[u8]) -> u64
    ensures { result ≡ tail_number text.now }
{
    number_of(&text[text.len().saturating_sub(TAIL)..])
}

/// The number whose last eight bytes, from the highest, are these.
fn number_of(bytes: &[u8]) -> u64
    ensures { result ≡ number_from 0 bytes.now }
{
    let mut number = 0u64;
    for byte in bytes {
        number = number.wrapping_mul(256).wrapping_add(*byte as u64);
    }
    number
}

/// The names without those that follow an equal name in the order of their keys, and the position of each.
fn placed<'a>(
    alloc: Global,
    names: &[(&'a str, &'a str)],
    keys: &[(u64, usize)],
) -> Result<NamePositions<'a>, AllocError>
    requires { AreKeys (names_of names.now) (length names.now) keys.now }
    ensures { IfOk result (λ p.
        HavePositions (names_of names.now) (names_of p.names.items) p.positions.items) }
{
    let mut few = Vec::new(alloc);
    let mut positions = vec![in alloc; 0; names.len()]?;
    for key in keys {
        push_new(&mut few, name_in(names, key.1))?;
        positions[key.1] = few.len() - 1;
    }
    Ok(NamePositions {
        names: few,
        positions,
    })
}

/// The entries of a list at these positions.
fn positions_through(
    alloc: Global,
    positions: &[usize],
    further: &[usize],
) -> Result<Vec<usize>, AllocError>
    requires { All (λ p. p < length further.now) positions.now }
    ensures { IfOk result (λ v. v.items ≡ map (λ p. get_or further.now p 0) positions.now) }
{
    let mut found = Vec::with_capacity(alloc, positions.len())?;
    for position in positions {
        found.push(further[*position])?;
    }
    Ok(found)
}
