//! Flat types of a type: the core types that represent a value of it (component model, Canonical ABI, "Flattening").
//!
//! Of each type at most `KEPT_FLAT_TYPES` core types are kept: a function with more than `MAX_FLAT_PARAMS` flat
//! parameters passes all of them indirectly, by one pointer, so the rest makes no difference.

ghost use Rattle.std.specs.Prelude.{◌≡◌, ◌≤◌, ◌++◌, OnOk, length};
ghost use Rattle.wc_resolve.specs.Flat.{cut, flat_payload, flatten_type, flat_types_kept, flats_in, join, join_flats};

use crate::WitType;
use std::alloc::{AllocError, Global};

/// The type of a core parameter or result (component model, Canonical ABI, "Flattening"). A `Pointer` is an address
/// in a memory and a `Length` a number of elements there: both have the core type of the memory's addresses.
#[derive(Clone, Copy, Debug, PartialEq, Eq)]
pub enum WasmType {
    I32,
    I64,
    F32,
    F64,
    Pointer,
    /// Either a `Pointer` or an `I64`: what the two join to.
    PointerOrI64,
    Length,
}

/// The most core parameters that are passed one by one.
pub(crate) const MAX_FLAT_PARAMS: usize = 16;

/// The most core parameters of an asynchronous import that are passed one by one.
pub(crate) const MAX_FLAT_ASYNC_PARAMS: usize = 4;

/// The most core results.
pub(crate) const MAX_FLAT_RESULTS: usize = 1;

/// How many core types are kept of each type: one more than can be passed one by one.
pub(crate) const KEPT_FLAT_TYPES: usize = MAX_FLAT_PARAMS + 1;

/// The core type that can represent a value of either.
fn join(a: WasmType, b: WasmType) -> WasmType
    ensures { result ≡ join a b }
{
    use WasmType::{F32, F64, I32, I64, Length, Pointer, PointerOrI64};
    match a {
        PointerOrI64 => PointerOrI64,
        Pointer => match b {
            I64 | F64 | PointerOrI64 => PointerOrI64,
            I32 | F32 | Pointer | Length => Pointer,
        },
        Length => match b {
            I64 | F64 => I64,
            I32 | F32 | Length => Length,
            Pointer | PointerOrI64 => b,
        },
        I32 => match b {
            I32 | F32 => I32,
            I64 | F64 => I64,
            Pointer | PointerOrI64 | Length => b,
        },
        F32 => match b {
            I64 | F64 => I64,
            I32 | F32 | Pointer | PointerOrI64 | Length => b,
        },
        I64 => match b {
            I32 | I64 | F32 | F64 | Length => I64,
            Pointer | PointerOrI64 => PointerOrI64,
        },
        F64 => match b {
            F64 => F64,
            I32 | I64 | F32 | Length => I64,
            Pointer | PointerOrI64 => PointerOrI64,
        },
    }
}

/// The flat types of a type, by those of the defined types.
pub(crate) fn flatten_type(flats: &[Vec<WasmType>], ty: WitType) -> &[WasmType]
    ensures { result.now ≡ flatten_type (flats_in flats.now) ty }
{
    match ty {
        WitType::Bool
        | WitType::U8
        | WitType::U16
        | WitType::U32
        | WitType::S8
        | WitType::S16
        | WitType::S32
        | WitType::Char
        | WitType::ErrorContext => &[WasmType::I32],
        WitType::U64 | WitType::S64 => &[WasmType::I64],
        WitType::F32 => &[WasmType::F32],
        WitType::F64 => &[WasmType::F64],
        WitType::String => &[WasmType::Pointer, WasmType::Length],
        WitType::Id(id) => match flats.get(id.0 as usize) {
            Some(flat) => flat.as_slice(),
            None => &[],
        },
    }
}

/// The flat types of a type, and no core types where there is no type.
pub(crate) fn flat_payload(flats: &[Vec<WasmType>], ty: Option<WitType>) -> &[WasmType]
    ensures { result.now ≡ flat_payload (flats_in flats.now) ty }
{
    match ty {
        Some(ty) => flatten_type(flats, ty),
        None => &[],
    }
}

/// Appends core types, as many as are kept.
pub(crate) fn put_flat(flat: &mut Vec<WasmType>, more: &[WasmType]) -> Result<(), AllocError>
    requires { length flat.old.items ≤ flat_types_kept }
    ensures { OnOk result (flat.new.items ≡ cut (flat.old.items ++ more.now)) }
{
    let room = KEPT_FLAT_TYPES - flat.len();
    let count = room.min(more.len());
    flat.extend_from_slice(&more[..count])?;
    Ok(())
}

/// Joins core types to others, index by index. Those past the end of the shorter list stay as they are.
pub(crate) fn join_flat(flat: &mut Vec<WasmType>, more: &[WasmType]) -> Result<(), AllocError>
    ensures { OnOk result (flat.new.items ≡ join_flats flat.old.items more.now) }
{
    let shared = flat.len().min(more.len());
    for index in 0..shared {
        flat[index] = join(flat[index], more[index]);
    }
    flat.extend_from_slice(&more[shared..])?;
    Ok(())
}
