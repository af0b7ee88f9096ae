//! Walks over types, by a stack of steps.

ghost use Rattle.std.specs.Prelude.{◌≡◌, ◌++◌, IfOk, OnOk, map, reverse};
ghost use Rattle.std.specs.List.{filter_map};
ghost use Rattle.wc_resolve.specs.Views.{kind_view};
ghost use Rattle.wc_resolve.specs.Kinds.{referenced_indices};
ghost use Rattle.wc_resolve.specs.Roots.{indices, type_id};

use crate::kinds::referenced_types;
use crate::{TypeDefKind, TypeId, WitType};
use std::alloc::{AllocError, Global};

/// A step that is left to do at a type.
#[derive(Clone, Copy)]
pub(crate) enum TypeStep {
    /// To visit the types that it refers to.
    Enter(TypeId),
    /// To add the type itself.
    Leave(TypeId),
}

/// The id of a defined type.
fn type_id(ty: WitType) -> Option<TypeId>
    ensures { result ≡ type_id ty }
{
    match ty {
        WitType::Id(id) => Some(id),
        _ => None,
    }
}

/// The defined types among some types.
pub(crate) fn ids_of(alloc: Global, types: &[WitType]) -> Result<Vec<TypeId>, AllocError>
    ensures { IfOk result (λ v. v.items ≡ filter_map type_id types.now) }
{
    types.iter().filter_map(|ty| type_id(*ty)).collect(alloc)
}

/// The ids of the defined types that a type's definition refers to.
pub(crate) fn referenced_ids(alloc: Global, kind: &TypeDefKind) -> Result<Vec<TypeId>, AllocError>
    ensures { IfOk result (λ v. indices v.items ≡ referenced_indices (kind_view kind.now)) }
{
    let types = referenced_types(alloc, kind)?;
    let ids = ids_of(alloc, &types)?;
    Ok(ids)
}

/// Appends steps that enter these types.
fn enter_each(ids: &[TypeId], steps: &mut Vec<TypeStep>) -> Result<(), AllocError>
    ensures { OnOk result (steps.new.items ≡ steps.old.items ++ map TypeStep.Enter ids.now) }
{
    for id in ids {
        steps.push(TypeStep::Enter(*id))?;
    }
    Ok(())
}

/// Appends steps that enter these types in reverse order: the last step, which is done first, enters the first type.
pub(crate) fn enter_all(mut ids: Vec<TypeId>, steps: &mut Vec<TypeStep>) -> Result<(), AllocError>
    ensures { OnOk result (steps.new.items ≡
        steps.old.items ++ map TypeStep.Enter (reverse ids.items)) }
{
    ids.reverse();
    enter_each(&ids, steps)
}

/// Appends steps that enter these types, the last type first: the last step, which is done first, enters the first
/// type.
pub(crate) fn enter_reversed(ids: &[TypeId], steps: &mut Vec<TypeStep>) -> Result<(), AllocError>
    ensures { OnOk result (steps.new.items ≡
        steps.old.items ++ map TypeStep.Enter (reverse ids.now)) }
{
    let mut left = ids.len();
    while left > 0 {
        left -= 1;
        steps.push(TypeStep::Enter(ids[left]))?;
    }
    Ok(())
}
