//! The types with which functions of adapters are imported.

ghost use Rattle.std.specs.Prelude.{IfOk, OnOk, map};
ghost use Rattle.wc_read.specs.Types.{func_type_value};
ghost use Rattle.wc_validate.specs.Imports.AdapterTypes.{IsNotedAfter, noted_type, one_type, type_entry};
ghost use Rattle.wc_validate.specs.Private.Imports.Recorder.{IsDifference, IsDifferenceFrom};

use crate::place::TypeDifference;
use crate::signatures::has_type;
use std::alloc::{AllocError, Global};
use wc_maps::Map;
use wc_read::FuncType;

/// The types that differ, if a type is not the first one: that, and its own.
fn difference_from(
    alloc: Global,
    first: &FuncType,
    ty: &FuncType,
) -> Result<Option<TypeDifference>, AllocError>
    ensures { IfOk result (IsDifferenceFrom (func_type_value first.now) (func_type_value ty.now)) }
{
    if has_type(ty, first.params(), first.results()) {
        return Ok(None);
    }
    let wanted = first.clone(alloc)?;
    let found = ty.clone(alloc)?;
    Ok(Some(TypeDifference { wanted, found }))
}

/// The types that differ, if an adapter's function is imported with another type than the first time; the first type
/// is noted.
pub(crate) fn note_type(
    alloc: Global,
    types: &mut Map<(String, String), FuncType>,
    adapter: &str,
    function: &str,
    ty: &FuncType,
) -> Result<Option<TypeDifference>, AllocError>
    ensures differs { IfOk result (IsDifference
        (noted_type (map type_entry types.old.entries) adapter.now function.now)
        (func_type_value ty.now)) }
    ensures noted { OnOk result (IsNotedAfter types.old.entries
        (one_type adapter.now function.now (func_type_value ty.now)) types.new.entries) }
{
    let key = (
        String::from_str(alloc, adapter)?,
        String::from_str(alloc, function)?,
    );
    if let Some(first) = types.get(&key) {
        return difference_from(alloc, first, ty);
    }
    types.insert(key, ty.clone(alloc)?)?;
    Ok(None)
}
