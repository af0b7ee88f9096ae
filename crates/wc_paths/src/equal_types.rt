//! Types of a module that are equal.

ghost use Rattle.std.specs.Prelude.{◌≡◌, ◌++◌, IfOk, OnOk, map};
ghost use Rattle.std.specs.List.{flat_map};
ghost use Rattle.wc_read.specs.Types.{func_type_value};
ghost use Rattle.wc_paths.specs.Private.EqualTypes.{AreFirstEqual, IsKeyOf, NotesType, type_numbers};

use std::alloc::{AllocError, Global};
use wc_maps::{Map, Seed};
use wc_read::{FuncType, ValType};

/// A function type as a key of a map: the numbers of its parameters, and those of its results.
type TypeKey = (Vec<u32>, Vec<u32>);

/// For each type the index of the first that is equal to it. `seed`: that of a map. It takes time and memory linear in
/// the types.
pub(crate) fn first_equal(
    alloc: Global,
    seed: Seed,
    types: &[FuncType],
) -> Result<Vec<usize>, AllocError>
    ensures { IfOk result (λ v. AreFirstEqual (map func_type_value types.now) v.items) }
{
    let mut places = Map::with_hasher(alloc, seed);
    let mut firsts = Vec::new(alloc);
    for index in 0..types.len() {
        let first = note_type(alloc, &mut places, &types[index], index)?;
        firsts.push(first)?;
    }
    Ok(firsts)
}

/// The index that a type equal to this one has in the map; where it has none, this one is put there.
fn note_type(
    alloc: Global,
    places: &mut Map<TypeKey, usize>,
    ty: &FuncType,
    index: usize,
) -> Result<usize, AllocError>
    ensures { IfOk result (NotesType (func_type_value ty.now) index places.old.entries
        places.new.entries) }
{
    let key = type_key(alloc, ty)?;
    if let Some(first) = places.get(&key) {
        return Ok(*first);
    }
    places.insert(key, index)?;
    Ok(index)
}

/// The key of a function type.
fn type_key(alloc: Global, ty: &FuncType) -> Result<TypeKey, AllocError>
    ensures { IfOk result (IsKeyOf (func_type_value ty.now)) }
{
    let params = numbers_of(alloc, ty.params())?;
    let results = numbers_of(alloc, ty.results())?;
    Ok((params, results))
}

/// The numbers of some types, one after another.
fn numbers_of(alloc: Global, types: &[ValType]) -> Result<Vec<u32>, AllocError>
    ensures { IfOk result (λ v. v.items ≡ flat_map type_numbers types.now) }
{
    let mut numbers = Vec::new(alloc);
    for ty in types {
        put_numbers(*ty, &mut numbers)?;
    }
    Ok(numbers)
}

/// Appends two numbers for a type: its variant, and the index of a type that it names, or 0.
fn put_numbers(ty: ValType, out: &mut Vec<u32>) -> Result<(), AllocError>
    ensures { OnOk result (out.new.items ≡ out.old.items ++ type_numbers ty) }
{
    let (variant, index) = match ty {
        ValType::I32 => (0, 0),
        ValType::I64 => (1, 0),
        ValType::F32 => (2, 0),
        ValType::F64 => (3, 0),
        ValType::V128 => (4, 0),
        ValType::FuncRef => (5, 0),
        ValType::ExternRef => (6, 0),
        ValType::FuncRefNonNull => (7, 0),
        ValType::ExternRefNonNull => (8, 0),
        ValType::TypeRef {
            nullable: true,
            index,
        } => (9, index),
        ValType::TypeRef {
            nullable: false,
            index,
        } => (10, index),
    };
    out.push(variant)?;
    out.push(index)?;
    Ok(())
}
