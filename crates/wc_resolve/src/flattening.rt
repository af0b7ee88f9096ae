//! The flat types of defined types, made once for all types, each from those of the types that it refers to.

ghost use Rattle.std.specs.Prelude.{◌≡◌, ◌<◌, ◌≤◌, ◌↔◌, ◌∷◌, [], IfOk, IsTrue, length, map, replicate};
ghost use Rattle.wc_resolve.specs.Flat.{AreFlattened, cut, flat_cases, flat_fields, flat_flags, flat_kind, flat_rule, flat_types_kept, flatten_types, flat_variant, flats_in, lists};
ghost use Rattle.wc_resolve.specs.Validate.{IsOrder};
ghost use Rattle.wc_resolve.specs.Views.{kind_view, type_view};
ghost use Rattle.wc_resolve.specs.Kinds.{kind_at};

use crate::flat::{KEPT_FLAT_TYPES, flat_payload, flatten_type, join_flat, put_flat};
use crate::{TypeDef, TypeDefKind, WasmType, WitType};
use std::alloc::{AllocError, Global};

/// How many labels of flags one core type has bits for.
const LABELS_PER_FLAG_WORD: usize = 32;

/// Whether there are as many core types as are kept.
fn is_full(flat: &[WasmType]) -> bool
    ensures { IsTrue result ↔ (flat_types_kept ≤ length flat.now) }
{
    flat.len() >= KEPT_FLAT_TYPES
}

/// The flat types of named types, in order. Those after the last that is kept are not looked at.
pub(crate) fn flat_fields(
    alloc: Global,
    flats: &[Vec<WasmType>],
    fields: &[(String, WitType)],
) -> Result<Vec<WasmType>, AllocError>
    ensures { IfOk result (λ v. v.items ≡ cut (flat_fields (flats_in flats.now) fields.now)) }
{
    let mut flat = Vec::new(alloc);
    for field in fields {
        if is_full(&flat) {
            return Ok(flat);
        }
        put_flat(&mut flat, flatten_type(flats, field.1))?;
    }
    Ok(flat)
}

/// The flat types of types, in order.
fn flat_tuple(
    alloc: Global,
    flats: &[Vec<WasmType>],
    types: &[WitType],
) -> Result<Vec<WasmType>, AllocError>
    ensures { IfOk result (λ v. v.items ≡ cut (flatten_types (flats_in flats.now) types.now)) }
{
    let mut flat = Vec::new(alloc);
    for ty in types {
        put_flat(&mut flat, flatten_type(flats, *ty))?;
    }
    Ok(flat)
}

/// An `I32` for each `LABELS_PER_FLAG_WORD` labels begun.
fn flat_flags(alloc: Global, labels: usize) -> Result<Vec<WasmType>, AllocError>
    ensures { IfOk result (λ v. v.items ≡ cut (flat_flags labels)) }
{
    let count = labels.div_ceil(LABELS_PER_FLAG_WORD).min(KEPT_FLAT_TYPES);
    let flat = vec![in alloc; WasmType::I32; count]?;
    Ok(flat)
}

/// An `I32` for the case, before the core types that the payloads share.
fn with_case(mut shared: Vec<WasmType>) -> Result<Vec<WasmType>, AllocError>
    ensures { IfOk result (λ v. v.items ≡ cut (WasmType.I32 ∷ shared.items)) }
{
    shared.truncate(KEPT_FLAT_TYPES - 1);
    shared.insert(0, WasmType::I32)?;
    Ok(shared)
}

/// The flat types of a variant of two cases with these payloads.
fn flat_pair(
    alloc: Global,
    flats: &[Vec<WasmType>],
    first: Option<WitType>,
    second: Option<WitType>,
) -> Result<Vec<WasmType>, AllocError>
    ensures { IfOk result (λ v. v.items ≡
        cut (flat_cases (flats_in flats.now) (first ∷ second ∷ []))) }
{
    let mut shared = Vec::new(alloc);
    join_flat(&mut shared, flat_payload(flats, first))?;
    join_flat(&mut shared, flat_payload(flats, second))?;
    with_case(shared)
}

/// The flat types of a variant with these cases.
fn flat_variant(
    alloc: Global,
    flats: &[Vec<WasmType>],
    cases: &[(String, Option<WitType>)],
) -> Result<Vec<WasmType>, AllocError>
    ensures { IfOk result (λ v. v.items ≡ cut (flat_variant (flats_in flats.now) cases.now)) }
{
    let mut shared = Vec::new(alloc);
    for case in cases {
        join_flat(&mut shared, flat_payload(flats, case.1))?;
    }
    with_case(shared)
}

/// The flat types of a defined type, by those of the types that it refers to.
fn flat_kind(
    alloc: Global,
    flats: &[Vec<WasmType>],
    kind: &TypeDefKind,
) -> Result<Vec<WasmType>, AllocError>
    ensures { IfOk result (λ v. v.items ≡
        cut (flat_kind (flats_in flats.now) (kind_view kind.now))) }
{
    match kind {
        TypeDefKind::Record(fields) => flat_fields(alloc, flats, fields),
        TypeDefKind::Tuple(types) => flat_tuple(alloc, flats, types),
        TypeDefKind::Flags(labels) => flat_flags(alloc, labels.len()),
        TypeDefKind::Variant(cases) => flat_variant(alloc, flats, cases),
        TypeDefKind::Option(ty) => flat_pair(alloc, flats, None, Some(*ty)),
        TypeDefKind::Result { ok, err } => flat_pair(alloc, flats, *ok, *err),
        TypeDefKind::List(_) => Vec::from_slice(alloc, &[WasmType::Pointer, WasmType::Length]),
        TypeDefKind::Enum(_)
        | TypeDefKind::Handle(_)
        | TypeDefKind::Future(_)
        | TypeDefKind::Stream(_) => Vec::from_slice(alloc, &[WasmType::I32]),
        TypeDefKind::Alias(ty) => flat_tuple(alloc, flats, &[*ty]),
        TypeDefKind::Resource => Ok(Vec::new(alloc)),
    }
}

/// The flat types of the type at an index, by those of the types that it refers to.
fn flat_at(
    alloc: Global,
    flats: &[Vec<WasmType>],
    types: &[TypeDef],
    index: usize,
) -> Result<Vec<WasmType>, AllocError>
    requires { index < length types.now }
    ensures { IfOk result (λ v. v.items ≡
        cut (flat_rule (flats_in flats.now) index (kind_at (map type_view types.now) index))) }
{
    flat_kind(alloc, flats, &types[index].kind)
}

/// A list of so many empty lists.
fn empty_lists(alloc: Global, count: usize) -> Result<Vec<Vec<WasmType>>, AllocError>
    ensures { IfOk result (λ flats. lists flats.items ≡ replicate count []) }
{
    let mut flats = Vec::with_capacity(alloc, count)?;
    for _ in 0..count {
        flats.push(Vec::new(alloc))?;
    }
    Ok(flats)
}

/// The flat types of all types. In `order` each type is after those that it refers to.
pub(crate) fn flatten_all(
    alloc: Global,
    types: &[TypeDef],
    order: &[usize],
) -> Result<Vec<Vec<WasmType>>, AllocError>
    requires { IsOrder (map type_view types.now) order.now }
    ensures { IfOk result (λ flats. AreFlattened (map type_view types.now) (lists flats.items)) }
{
    let mut flats = empty_lists(alloc, types.len())?;
    for index in order {
        let flat = flat_at(alloc, &flats, types, *index)?;
        flats[*index] = flat;
    }
    Ok(flats)
}
