//! The renames in the order of the keys of their new names, and the search for one.

ghost use Rattle.std.specs.Prelude.{◌≡◌, IfOk, length, map};
ghost use Rattle.wc_dedupe.specs.Private.NameKeys.{AreKeys, name_key};
ghost use Rattle.wc_dedupe.specs.Private.RenameOrder.{new_name, name_at, key_cmp, IsNameOrder, Finds};
ghost use Rattle.wc_dedupe.specs.Private.NamePositions.{named};

use crate::name_keys::name_key;
use crate::rename_list::RenameList;
use std::alloc::{AllocError, Global};
use std::cmp::Ordering;

/// The keys of the renames' new names, in ascending order; keys with one number are in the order of their modules and
/// names.
pub(crate) fn rename_order(
    alloc: Global,
    renames: &RenameList,
) -> Result<Vec<(u64, usize)>, AllocError>
    ensures { IfOk result (λ v. IsNameOrder renames.now v.items) }
{
    let mut order = new_keys(alloc, renames)?;
    order.sort_by(|one, other| keys_compared(renames, *one, *other))?;
    Ok(order)
}

/// The keys of the renames' new names: of each its number and the index of the rename.
fn new_keys(alloc: Global, renames: &RenameList) -> Result<Vec<(u64, usize)>, AllocError>
    ensures { IfOk result (λ v.
        AreKeys (map new_name renames.now) (length renames.now) v.items) }
{
    let mut keys = Vec::with_capacity(alloc, renames.len())?;
    for index in 0..renames.len() {
        let name = new_name(renames, index);
        let number = name_key(name.0, name.1);
        keys.push((number, index))?;
    }
    Ok(keys)
}

/// The index of the rename to this name in this module, if it exists. `order` has the keys in their order.
pub(crate) fn find(
    renames: &RenameList,
    order: &[(u64, usize)],
    module: &str,
    name: &str,
) -> Option<usize>
    requires { IsNameOrder renames.now order.now }
    ensures { Finds renames.now
        (record { module_name = «module».now; name = name.now }) result }
{
    let number = name_key(module, name);
    match order.binary_search_by(|key| compared(renames, *key, number, (module, name))) {
        Ok(position) => Some(order[position].1),
        Err(_) => None,
    }
}

/// How the new name with one key compares to the new name with another: by their numbers, and if these are equal, by
/// the names.
fn keys_compared(renames: &RenameList, one: (u64, usize), other: (u64, usize)) -> Ordering
    ensures { result ≡ key_cmp renames.now one other.0
        (name_at renames.now other.1) }
{
    match one.0.cmp(&other.0) {
        Ordering::Less => Ordering::Less,
        Ordering::Equal => new_name(renames, one.1).cmp(&new_name(renames, other.1)),
        Ordering::Greater => Ordering::Greater,
    }
}

/// How the new name that has a key compares to a name with its number: by the numbers, and by the names where these are
/// equal.
fn compared(renames: &RenameList, key: (u64, usize), number: u64, name: (&str, &str)) -> Ordering
    ensures { result ≡ key_cmp renames.now key number (named name.entry) }
{
    match key.0.cmp(&number) {
        Ordering::Less => Ordering::Less,
        Ordering::Equal => new_name(renames, key.1).cmp(&name),
        Ordering::Greater => Ordering::Greater,
    }
}

/// The module and the new name of the rename at `index`, empty texts past the last.
fn new_name(renames: &RenameList, index: usize) -> (&str, &str)
    ensures { named result ≡ name_at renames.now index }
{
    match renames.get(index) {
        Some(rename) => (rename.module, rename.name),
        None => ("", ""),
    }
}
