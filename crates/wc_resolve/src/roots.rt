//! The defined types that functions, interfaces and items of worlds name, in order.

ghost use Rattle.std.specs.Prelude.{◌≡◌, ◌∷◌, [], IfOk, OnOk};
ghost use Rattle.std.specs.Option.{option_map_or};
ghost use Rattle.wc_resolve.specs.Roots.{AddsRoots, function_roots, indices, interface_roots, item_roots, named_function_roots, named_type_roots, param_roots, passed_roots, static_roots, type_roots};
ghost use Rattle.wc_resolve.specs.Ranges.{IsItemIn};
ghost use Rattle.wc_resolve.specs.Views.{function_view, interface_view, item_view};

use crate::{Function, FunctionKind, Interface, Resolve, TypeId, WitType, WorldItem};
use std::alloc::{AllocError, Global};

fn push_type(roots: &mut Vec<TypeId>, ty: WitType) -> Result<(), AllocError>
    ensures { OnOk result (AddsRoots roots.old.items roots.new.items (type_roots ty)) }
{
    if let WitType::Id(id) = ty {
        roots.push(id)?;
    }
    Ok(())
}

/// The resource of a static function.
fn push_static(roots: &mut Vec<TypeId>, kind: FunctionKind) -> Result<(), AllocError>
    ensures { OnOk result (AddsRoots roots.old.items roots.new.items (static_roots kind)) }
{
    if let FunctionKind::Static(id) | FunctionKind::AsyncStatic(id) = kind {
        roots.push(id)?;
    }
    Ok(())
}

fn push_params(roots: &mut Vec<TypeId>, params: &[(String, WitType)]) -> Result<(), AllocError>
    ensures { OnOk result (AddsRoots roots.old.items roots.new.items (param_roots params.now)) }
{
    for param in params {
        push_type(roots, param.1)?;
    }
    Ok(())
}

fn push_result(roots: &mut Vec<TypeId>, outcome: Option<WitType>) -> Result<(), AllocError>
    ensures { OnOk result
        (AddsRoots roots.old.items roots.new.items (option_map_or type_roots outcome [])) }
{
    if let Some(ty) = outcome {
        push_type(roots, ty)?;
    }
    Ok(())
}

/// The types of a function's parameters, then of its result.
pub(crate) fn push_passed(roots: &mut Vec<TypeId>, function: &Function) -> Result<(), AllocError>
    ensures { OnOk result
        (AddsRoots roots.old.items roots.new.items (passed_roots (function_view function.now))) }
{
    push_params(roots, &function.params)?;
    push_result(roots, function.result)?;
    Ok(())
}

/// The types of a function.
pub(crate) fn push_function(roots: &mut Vec<TypeId>, function: &Function) -> Result<(), AllocError>
    ensures { OnOk result
        (AddsRoots roots.old.items roots.new.items (function_roots (function_view function.now))) }
{
    push_static(roots, function.kind)?;
    push_passed(roots, function)?;
    Ok(())
}

/// The types of an interface.
fn push_types(roots: &mut Vec<TypeId>, interface: &Interface) -> Result<(), AllocError>
    ensures { OnOk result
        (AddsRoots roots.old.items roots.new.items (named_type_roots interface.now.types.entries)) }
{
    for (_name, id) in interface.types.iter() {
        roots.push(*id)?;
    }
    Ok(())
}

/// The functions of an interface.
fn push_functions(roots: &mut Vec<TypeId>, interface: &Interface) -> Result<(), AllocError>
    ensures { OnOk result (AddsRoots roots.old.items roots.new.items
        (named_function_roots interface.now.functions.entries)) }
{
    for (_name, function) in interface.functions.iter() {
        push_function(roots, function)?;
    }
    Ok(())
}

/// The types of an interface, then its functions.
fn roots_of_interface(alloc: Global, interface: &Interface) -> Result<Vec<TypeId>, AllocError>
    ensures { IfOk result
        (λ v. indices v.items ≡ interface_roots (interface_view interface.now)) }
{
    let mut roots = Vec::new(alloc);
    push_types(&mut roots, interface)?;
    push_functions(&mut roots, interface)?;
    Ok(roots)
}

/// One type.
pub(crate) fn roots_of_id(alloc: Global, id: TypeId) -> Result<Vec<TypeId>, AllocError>
    ensures { IfOk result (λ v. indices v.items ≡ id.0 ∷ []) }
{
    Ok(vec![in alloc; id]?)
}

/// A defined type; of a primitive one none.
pub(crate) fn roots_of_type(alloc: Global, ty: WitType) -> Result<Vec<TypeId>, AllocError>
    ensures { IfOk result (λ v. indices v.items ≡ type_roots ty) }
{
    let mut roots = Vec::new(alloc);
    push_type(&mut roots, ty)?;
    Ok(roots)
}

/// The types of a function: its resource where it is static, its parameters, its result.
pub(crate) fn roots_of_function(
    alloc: Global,
    function: &Function,
) -> Result<Vec<TypeId>, AllocError>
    ensures { IfOk result (λ v. indices v.items ≡ function_roots (function_view function.now)) }
{
    let mut roots = Vec::new(alloc);
    push_function(&mut roots, function)?;
    Ok(roots)
}

/// The types of an item of a world.
pub(crate) fn roots_of_item(
    alloc: Global,
    resolve: &Resolve,
    item: &WorldItem,
) -> Result<Vec<TypeId>, AllocError>
    requires { IsItemIn resolve.now (item_view item.now) }
    ensures { IfOk result (λ v. indices v.items ≡ item_roots resolve.now (item_view item.now)) }
{
    match item {
        WorldItem::Interface { id, .. } => roots_of_interface(alloc, resolve.interface(*id)),
        WorldItem::Function(function) => roots_of_function(alloc, function),
        WorldItem::TypeItem { id } => roots_of_id(alloc, *id),
    }
}
