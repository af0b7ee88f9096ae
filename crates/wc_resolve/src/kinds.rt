//! The types to which the definition of a type refers.

ghost use Rattle.std.specs.Prelude.{◌≡◌, map, Option, String, IfOk};
ghost use Rattle.std.specs.List.{filter_map};
ghost use Rattle.std.specs.declared.alloc.Global.{Global};
ghost use Rattle.wc_resolve.specs.declared.types.WitType.{WitType};
ghost use Rattle.wc_resolve.specs.Views.{kind_view};
ghost use Rattle.wc_resolve.specs.Futures.{carried_types};
ghost use Rattle.wc_resolve.specs.Kinds.{contained_types, referenced_indices, referenced_types, resource_of, type_index};
ghost use Rattle.std.specs.Option.{option_to_list};

use crate::{Handle, TypeDefKind, TypeId, WitType};
use std::alloc::{AllocError, Global};

impl Handle {
    /// The resource of this handle, owned or borrowed.
    pub fn resource(&self) -> TypeId
        ensures { result ≡ resource_of self.now }
    {
        match self {
            Handle::Own(id) => *id,
            Handle::Borrow(id) => *id,
        }
    }
}

/// The index of a defined type.
fn type_index(ty: WitType) -> Option<usize>
    ensures { result ≡ type_index ty }
{
    match ty {
        WitType::Id(id) => Some(id.0 as usize),
        _ => None,
    }
}

/// The list of the type, or no type.
fn optional(alloc: Global, ty: Option<WitType>) -> Result<Vec<WitType>, AllocError>
    ensures { IfOk result (λ v. v.items ≡ option_to_list ty) }
{
    let mut types = Vec::new(alloc);
    if let Some(ty) = ty {
        types.push(ty)?;
    }
    Ok(types)
}

/// The types of fields.
fn field_types(alloc: Global, fields: &[(String, WitType)]) -> Result<Vec<WitType>, AllocError>
    ensures { IfOk result
        (λ v. v.items ≡ map (λ (f : String Global × WitType). f.1) fields.now) }
{
    fields.iter().map(|field| field.1).collect(alloc)
}

/// The types of the cases that have a payload.
fn payload_types(
    alloc: Global,
    cases: &[(String, Option<WitType>)],
) -> Result<Vec<WitType>, AllocError>
    ensures { IfOk result (λ v. v.items ≡
        filter_map (λ (c : String Global × Option WitType). c.1) cases.now) }
{
    cases.iter().filter_map(|case| case.1).collect(alloc)
}

/// The types that a type contains by value.
pub(crate) fn contained_types(alloc: Global, kind: &TypeDefKind) -> Result<Vec<WitType>, AllocError>
    ensures { IfOk result (λ v. v.items ≡ contained_types (kind_view kind.now)) }
{
    match kind {
        TypeDefKind::Record(fields) => field_types(alloc, fields),
        TypeDefKind::Tuple(types) => Vec::from_slice(alloc, types),
        TypeDefKind::Variant(cases) => payload_types(alloc, cases),
        TypeDefKind::Option(ty) | TypeDefKind::List(ty) => optional(alloc, Some(*ty)),
        TypeDefKind::Result { ok, err } => {
            let mut types = optional(alloc, *ok)?;
            if let Some(err) = err {
                types.push(*err)?;
            }
            Ok(types)
        }
        TypeDefKind::Future(ty) | TypeDefKind::Stream(ty) => optional(alloc, *ty),
        TypeDefKind::Resource
        | TypeDefKind::Handle(_)
        | TypeDefKind::Flags(_)
        | TypeDefKind::Enum(_)
        | TypeDefKind::Alias(_) => Ok(Vec::new(alloc)),
    }
}

/// The types that a type contains by value, or an alias's target.
pub(crate) fn carried_types(alloc: Global, kind: &TypeDefKind) -> Result<Vec<WitType>, AllocError>
    ensures { IfOk result (λ v. v.items ≡ carried_types (kind_view kind.now)) }
{
    match kind {
        TypeDefKind::Alias(ty) => optional(alloc, Some(*ty)),
        _ => contained_types(alloc, kind),
    }
}

/// The types that a type's definition refers to: those that it contains by value, a handle's resource, an alias's
/// target.
pub(crate) fn referenced_types(
    alloc: Global,
    kind: &TypeDefKind,
) -> Result<Vec<WitType>, AllocError>
    ensures { IfOk result (λ v. v.items ≡ referenced_types (kind_view kind.now)) }
{
    match kind {
        TypeDefKind::Handle(handle) => optional(alloc, Some(WitType::Id(handle.resource()))),
        TypeDefKind::Alias(ty) => optional(alloc, Some(*ty)),
        _ => contained_types(alloc, kind),
    }
}

/// The indices of the defined types that a type's definition refers to.
pub(crate) fn referenced_indices(
    alloc: Global,
    kind: &TypeDefKind,
) -> Result<Vec<usize>, AllocError>
    ensures { IfOk result (λ v. v.items ≡ referenced_indices (kind_view kind.now)) }
{
    let types = referenced_types(alloc, kind)?;
    types.iter().filter_map(|ty| type_index(*ty)).collect(alloc)
}
