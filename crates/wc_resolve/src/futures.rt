//! The futures and streams that types contain.

ghost use Rattle.std.specs.Prelude.{◌≡◌, ◌<◌, ◌≤◌, ◌^◌, ◌++◌, ◌∷◌, ℕ, [], All, Contains, IfNone, IfOk, IfSome, OnOk, Option, Some, String, filter_map, if◌then◌else◌, length, map, min, replicate, slice_get, slice_index};
ghost use Rattle.std.specs.Option.{option_map, option_map_or};
ghost use Rattle.std.specs.declared.alloc.Global.{Global};
ghost use Rattle.wc_resolve.specs.declared.types.WitType.{WitType};
ghost use Rattle.wc_resolve.specs.Futures.{AreFuturesEntries, IsEntryFor, IsPartWith, carried_indices, count_of, ends_from, entry_at, entry_from, entry_view, function_futures, futures_from, futures_of, is_carrier, max_count, no_futures, only_part, part_for, with_itself};
ghost use Rattle.wc_resolve.specs.Validate.{IsOrder};
ghost use Rattle.wc_resolve.specs.Ranges.{IsFunctionIn, IsTypeIn};
ghost use Rattle.wc_resolve.specs.Roots.{id_index, indices, param_roots, type_roots};
ghost use Rattle.wc_resolve.specs.Views.{function_view, kind_view, type_view};

use crate::kinds::carried_types;
use crate::roots::push_passed;
use crate::walk::{TypeStep, enter_all, enter_reversed, ids_of};
use crate::{Function, Resolve, TypeDef, TypeDefKind, TypeId, WitType};
use std::alloc::{AllocError, Global};

/// A type's futures and streams, as they are kept.
#[derive(Drop)]
pub(crate) struct FuturesEntry {
    /// The types whose futures and streams these are, one type's after another's; each has some, and is a future or a
    /// stream or has two parts at least.
    pub(crate) parts: Vec<TypeId>,
    /// How many there are up to each of `parts` and with it, at most `u64::MAX`.
    pub(crate) ends: Vec<u64>,
    /// Whether the type is a future or a stream, which comes after the futures and streams of its parts.
    pub(crate) is_carrier: bool,
    /// How many they are, at most `u64::MAX`.
    pub(crate) count: u64,
}

/// Whether a type is a future or a stream.
fn is_carrier(kind: &TypeDefKind) -> bool
    ensures { result ≡ is_carrier (kind_view kind.now) }
{
    matches!(kind, TypeDefKind::Future(_) | TypeDefKind::Stream(_))
}

/// The defined types that a type contains by value, or an alias's target.
fn carried_ids(alloc: Global, kind: &TypeDefKind) -> Result<Vec<TypeId>, AllocError>
    ensures { IfOk result (λ v. indices v.items ≡ carried_indices (kind_view kind.now)) }
{
    let types = carried_types(alloc, kind)?;
    let ids = ids_of(alloc, &types)?;
    Ok(ids)
}

/// The type that has the same futures and streams as a type that has some.
fn only_part(parts: &[TypeId], is_carrier: bool, id: TypeId) -> TypeId
    ensures { result ≡ only_part parts.now is_carrier id }
{
    if is_carrier {
        return id;
    }
    match parts {
        [part] => *part,
        _ => id,
    }
}

/// The type that has the same futures and streams as a type, if this has any.
fn part_for(entries: &[FuturesEntry], id: TypeId) -> Option<TypeId>
    ensures { result ≡ part_for (map entry_view entries.now) id }
{
    match entries.get(id.0 as usize) {
        Some(entry) => {
            if entry.count == 0 {
                None
            } else {
                Some(only_part(&entry.parts, entry.is_carrier, id))
            }
        }
        None => None,
    }
}

/// How many futures and streams a type has, at most `u64::MAX`.
fn count_at(entries: &[FuturesEntry], id: TypeId) -> u64
    ensures { result ≡ (entry_at (map entry_view entries.now) id.0).count }
{
    match entries.get(id.0 as usize) {
        Some(entry) => entry.count,
        None => 0,
    }
}

/// How many futures and streams types have, at most `u64::MAX`.
fn count_of(entries: &[FuturesEntry], ids: &[TypeId]) -> u64
    ensures { result ≡ count_of (map entry_view entries.now) ids.now }
{
    let mut count = 0u64;
    for id in ids {
        count = count.saturating_add(count_at(entries, *id));
    }
    count
}

/// Whether some type has futures or streams.
pub(crate) fn has_any(entries: &[FuturesEntry]) -> bool {
    for entry in entries {
        if entry.count != 0 {
            return true;
        }
    }
    false
}

/// The count, and one more for the type itself, at most `u64::MAX`.
fn with_itself(is_carrier: bool, count: u64) -> u64
    ensures { result ≡ with_itself is_carrier count }
{
    if is_carrier {
        count.saturating_add(1)
    } else {
        count
    }
}

/// The types that have the same futures and streams as these types, type by type.
pub(crate) fn parts_for(
    alloc: Global,
    entries: &[FuturesEntry],
    ids: &[TypeId],
) -> Result<Vec<TypeId>, AllocError>
    ensures { IfOk result
        (λ v. v.items ≡ filter_map (part_for (map entry_view entries.now)) ids.now) }
{
    ids.iter()
        .filter_map(|id| part_for(entries, *id))
        .collect(alloc)
}

/// How many futures and streams there are up to each of the types that have some, and with it, at most `u64::MAX`.
pub(crate) fn ends_for(
    alloc: Global,
    entries: &[FuturesEntry],
    ids: &[TypeId],
) -> Result<Vec<u64>, AllocError>
    ensures { IfOk result
        (λ v. v.items ≡ ends_from (map entry_view entries.now) 0 ids.now) }
{
    let mut ends = Vec::new(alloc);
    let mut end = 0u64;
    for id in ids {
        let count = count_at(entries, *id);
        if count != 0 {
            end = end.saturating_add(count);
            ends.push(end)?;
        }
    }
    Ok(ends)
}

/// The entry of a type that contains these types by value, or is an alias of one.
fn entry_from(
    alloc: Global,
    entries: &[FuturesEntry],
    ids: &[TypeId],
    is_carrier: bool,
) -> Result<FuturesEntry, AllocError>
    ensures { IfOk result
        (λ e. entry_view e ≡ entry_from (map entry_view entries.now) ids.now is_carrier) }
{
    let parts = parts_for(alloc, entries, ids)?;
    let ends = ends_for(alloc, entries, ids)?;
    let count = with_itself(is_carrier, count_of(entries, ids));
    Ok(FuturesEntry {
        parts,
        ends,
        is_carrier,
        count,
    })
}

/// The entry of the type at an index, made from the entries of the types that it contains by value.
fn entry_for(
    alloc: Global,
    entries: &[FuturesEntry],
    types: &[TypeDef],
    index: usize,
) -> Result<FuturesEntry, AllocError>
    requires { index < length types.now }
    ensures { IfOk result (λ e. IsEntryFor (map entry_view entries.now)
        (map type_view types.now) index (entry_view e)) }
{
    let kind = &types[index].kind;
    let ids = carried_ids(alloc, kind)?;
    let entry = entry_from(alloc, entries, &ids, is_carrier(kind))?;
    Ok(entry)
}

/// A list of entries, as many as requested, without futures and streams.
fn empty_entries(alloc: Global, count: usize) -> Result<Vec<FuturesEntry>, AllocError>
    ensures { IfOk result (λ v. map entry_view v.items ≡ replicate count no_futures) }
{
    let mut entries = Vec::with_capacity(alloc, count)?;
    for _ in 0..count {
        entries.push(FuturesEntry {
            parts: Vec::new(alloc),
            ends: Vec::new(alloc),
            is_carrier: false,
            count: 0,
        })?;
    }
    Ok(entries)
}

/// The entries of all types. In `order` each type is after the types that it refers to.
pub(crate) fn futures_entries(
    alloc: Global,
    types: &[TypeDef],
    order: &[usize],
) -> Result<Vec<FuturesEntry>, AllocError>
    requires { IsOrder (map type_view types.now) order.now }
    ensures { IfOk result
        (λ v. AreFuturesEntries (map type_view types.now) (map entry_view v.items)) }
{
    let mut entries = empty_entries(alloc, types.len())?;
    for index in order {
        let entry = entry_for(alloc, &entries, types, *index)?;
        entries[*index] = entry;
    }
    Ok(entries)
}

/// Appends the step that adds the type itself, if it is a future or a stream.
fn leave_carrier(is_carrier: bool, id: TypeId, steps: &mut Vec<TypeStep>) -> Result<(), AllocError>
    ensures { OnOk result (steps.new.items ≡ steps.old.items
        ++ (if is_carrier then TypeStep.Leave id ∷ [] else [])) }
{
    if is_carrier {
        steps.push(TypeStep::Leave(id))?;
    }
    Ok(())
}

/// The futures and streams of types, type by type.
fn list(alloc: Global, resolve: &Resolve, roots: Vec<TypeId>) -> Result<Vec<TypeId>, AllocError>
    requires { (x : ℕ) → Contains (indices roots.items) x → x < length resolve.now.types }
    ensures { IfOk result (λ v. indices v.items ≡
        futures_from resolve.now.types (indices roots.items)) }
{
    let mut found = Vec::new(alloc);
    let mut steps = Vec::new(alloc);
    enter_all(roots, &mut steps)?;
    'steps: while let Some(step) = steps.pop() {
        match step {
            TypeStep::Leave(id) => found.push(id)?,
            TypeStep::Enter(id) => {
                let entry = resolve.futures_entry(id);
                leave_carrier(entry.is_carrier, id, &mut steps)?;
                enter_reversed(&entry.parts, &mut steps)?;
            }
        }
    }
    Ok(found)
}

/// How many of these numbers, in ascending order, are no more than `n`, found by halving.
pub(crate) fn ends_passed(ends: &[u64], n: u64) -> usize
    ensures within { result ≤ length ends.now }
    ensures passed { slice_index (0 ∷ ends.now) result ≤ n }
    ensures next { result < length ends.now → n < slice_index ends.now result }
{
    let mut low = 0;
    let mut high = ends.len();
    while low < high {
        let middle = low + (high - low) / 2;
        if ends[middle] <= n {
            low = middle + 1;
        } else {
            high = middle;
        }
    }
    low
}

/// How many there are before the part at an index, by how many there are up to each part.
pub(crate) fn count_before(ends: &[u64], index: usize) -> u64
    requires { index ≤ length ends.now }
    ensures { result ≡ slice_index (0 ∷ ends.now) index }
{
    if index == 0 { 0 } else { ends[index - 1] }
}

/// The part of a type that has the future or stream at index `n` of the type, and its index in that part; `None` if
/// the parts have no more than `n` together.
fn part_with(resolve: &Resolve, id: TypeId, n: u64) -> Option<(TypeId, u64)>
    requires there { id.0 < length resolve.now.types }
    requires small { n < 2 ^ 32 }
    ensures found { IfSome result (λ p. IsPartWith resolve.now.types id.0 n p.0.0 p.1) }
    ensures itself { IfNone result (n < length (futures_of resolve.now.types id.0)
        → slice_get (futures_of resolve.now.types id.0) n ≡ Some id.0) }
{
    let entry = resolve.futures_entry(id);
    let index = ends_passed(&entry.ends, n);
    if index < entry.parts.len() {
        let left = n - count_before(&entry.ends, index);
        Some((entry.parts[index], left))
    } else {
        None
    }
}

/// The target of a type's shortcut, if it has the future or stream at index `n` of the type, and its index there.
fn target_with(resolve: &Resolve, id: TypeId, n: u64) -> Option<(TypeId, u64)>
    requires there { id.0 < length resolve.now.types }
    requires small { n < 2 ^ 32 }
    ensures { IfSome result (λ p. IsPartWith resolve.now.types id.0 n p.0.0 p.1) }
{
    let shortcut = resolve.shortcut(id)?;
    if n < shortcut.before {
        return None;
    }
    let left = n - shortcut.before;
    if left < resolve.futures_entry(shortcut.target).count {
        Some((shortcut.target, left))
    } else {
        None
    }
}

/// A type inside a type that has the future or stream at index `n` of the outer type, and its index in the inner
/// type; `None` if the parts have no more than `n` together.
fn step_with(resolve: &Resolve, id: TypeId, n: u64) -> Option<(TypeId, u64)>
    requires there { id.0 < length resolve.now.types }
    requires small { n < 2 ^ 32 }
    ensures found { IfSome result (λ p. IsPartWith resolve.now.types id.0 n p.0.0 p.1) }
    ensures itself { IfNone result (n < length (futures_of resolve.now.types id.0)
        → slice_get (futures_of resolve.now.types id.0) n ≡ Some id.0) }
{
    match target_with(resolve, id, n) {
        Some(target) => Some(target),
        None => part_with(resolve, id, n),
    }
}

/// The future or stream at index `n` of a type that has more than `n`.
pub(crate) fn nth(resolve: &Resolve, id: TypeId, n: u64) -> TypeId
    requires there { id.0 < length resolve.now.types }
    requires small { n < 2 ^ 32 }
    requires more { n < length (futures_of resolve.now.types id.0) }
    ensures { slice_get (futures_of resolve.now.types id.0) n ≡ Some result.0 }
{
    let mut found = id;
    let mut left = n;
    'parts: while let Some((part, rest)) = step_with(resolve, found, left) {
        found = part;
        left = rest;
    }
    found
}

/// The future or stream at index `n` of a type, if it has more than `n`.
fn nth_in(resolve: &Resolve, ty: WitType, n: u64) -> Option<TypeId>
    requires there { IsTypeIn (length resolve.now.types) ty }
    requires small { n < 2 ^ 32 }
    ensures { option_map id_index result ≡
        slice_get (futures_from resolve.now.types (type_roots ty)) n }
{
    match ty {
        WitType::Id(id) => {
            if n < resolve.futures_entry(id).count {
                Some(nth(resolve, id, n))
            } else {
                None
            }
        }
        _ => None,
    }
}

/// How many futures and streams a type has, at most `u64::MAX`.
fn count_in(resolve: &Resolve, ty: WitType) -> u64
    requires { IsTypeIn (length resolve.now.types) ty }
    ensures { result ≡ min (length (futures_from resolve.now.types (type_roots ty))) max_count }
{
    match ty {
        WitType::Id(id) => resolve.futures_entry(id).count,
        _ => 0,
    }
}

/// The future or stream at index `n` of parameters followed by a result, if they have more than `n`.
fn nth_passed(
    resolve: &Resolve,
    params: &[(String, WitType)],
    outcome: Option<WitType>,
    n: u64,
) -> Option<TypeId>
    requires params { All (λ (p : String Global × WitType).
        IsTypeIn (length resolve.now.types) p.1) params.now }
    requires outcome { IfSome outcome (IsTypeIn (length resolve.now.types)) }
    requires small { n < 2 ^ 32 }
    ensures { option_map id_index result ≡ slice_get (futures_from resolve.now.types
        (param_roots params.now ++ option_map_or type_roots outcome [])) n }
{
    let mut left = n;
    for param in params {
        let count = count_in(resolve, param.1);
        if left < count {
            return nth_in(resolve, param.1, left);
        }
        left -= count;
    }
    nth_in(resolve, outcome?, left)
}

impl Function {
    /// The futures and streams in this function's parameters, and then in its result, in order. The futures and
    /// streams in the payload of a future or a stream come before it. Each is listed as often as it occurs; aliases
    /// have the futures and streams of their targets, handles have none.
    ///
    /// The ids of the function must be in range (`has_function`).
    ///
    /// # Errors
    ///
    /// `AllocError`: an allocation failed.
    pub fn find_futures_and_streams(
        &self,
        alloc: Global,
        resolve: &Resolve,
    ) -> Result<Vec<TypeId>, AllocError>
        requires { IsFunctionIn (length resolve.now.types) (function_view self.now) }
        ensures { IfOk result (λ v. indices v.items ≡
            function_futures resolve.now (function_view self.now)) }
    {
        let mut roots = Vec::new(alloc);
        push_passed(&mut roots, self)?;
        let found = list(alloc, resolve, roots)?;
        Ok(found)
    }

    /// The future or stream at an index, from 0, in the list of `find_futures_and_streams`; `None` if the list ends
    /// before it. The list, which can be too long to be made, is not made.
    ///
    /// The ids of the function must be in range (`has_function`).
    pub fn nth_future_or_stream(&self, resolve: &Resolve, n: u32) -> Option<TypeId>
        requires { IsFunctionIn (length resolve.now.types) (function_view self.now) }
        ensures { option_map id_index result ≡
            slice_get (function_futures resolve.now (function_view self.now)) n }
    {
        nth_passed(resolve, &self.params, self.result, u64::from(n))
    }
}
