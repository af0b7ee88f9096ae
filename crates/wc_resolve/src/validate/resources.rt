//! The types that are resources, and the rule that none occurs by value.

ghost use Rattle.std.specs.Prelude.{◌≡◌, ◌↔◌, ◌<◌, ℕ, Contains, IfOk, IsTrue, length, map};
ghost use Rattle.wc_resolve.specs.Views.{function_view, interface_view, type_view, world_view};
ghost use Rattle.wc_resolve.specs.ResolveParts.{parts_view};
ghost use Rattle.wc_resolve.specs.Ranges.{IsFunctionIn};
ghost use Rattle.wc_resolve.specs.Resources.{AreResourceFlags, is_resource_kind};
ghost use Rattle.wc_resolve.specs.Kinds.{DoesInterfacePass, DoesTypePass, DoesWorldPass, IsChildrenFirst, children, kind_at};
ghost use Rattle.wc_resolve.specs.WellFormed.{IsFree, IsFunctionFree};

use crate::validate::ranges::is_function_in;
use crate::validate::type_test::{
    TypeTest, function_passes, interface_passes, type_def_passes, world_passes,
};
use crate::{Function, Interface, Parts, TypeDef, TypeDefKind, WitType, World};
use std::alloc::{AllocError, Global};

/// Whether the type at an index is a resource, or an alias of a type that is flagged as one.
fn is_resource(types: &[TypeDef], index: usize, resource_flags: &[bool]) -> bool
    requires { index < length types.now }
    ensures { result ≡ is_resource_kind resource_flags.now
        (kind_at (map type_view types.now) index) }
{
    match types[index].kind {
        TypeDefKind::Resource => true,
        TypeDefKind::Alias(WitType::Id(id)) => match resource_flags.get(id.0 as usize) {
            Some(flag) => *flag,
            None => false,
        },
        _ => false,
    }
}

/// For each type whether it is a resource, or an alias of one. In `order` each type is after those that it refers to.
pub(crate) fn find_resources(
    alloc: Global,
    types: &[TypeDef],
    order: &[usize],
) -> Result<Vec<bool>, AllocError>
    requires first { IsChildrenFirst (children (map type_view types.now)) order.now }
    requires within { (x : ℕ) → Contains order.now x → x < length types.now }
    requires all { (x : ℕ) → x < length types.now → Contains order.now x }
    ensures { IfOk result (λ resource_flags. AreResourceFlags (map type_view types.now)
        resource_flags.items) }
{
    let mut resource_flags = vec![in alloc; false; types.len()]?;
    for index in order {
        resource_flags[*index] = is_resource(types, *index, &resource_flags);
    }
    Ok(resource_flags)
}

/// The test that a type is not flagged as a resource.
#[derive(Drop)]
struct NotResource<'a> {
    resource_flags: &'a [bool],
}

impl TypeTest for NotResource<'_> {
    ghost use Rattle.wc_resolve.specs.Ranges.{IsFunctionIn};
    ghost use Rattle.wc_resolve.specs.Resources.{IsNotResource};

    ghost Passes = { λ test. IsNotResource test.resource_flags.now };

    fn passes(&self, ty: WitType) -> bool {
        match ty {
            WitType::Id(id) => match self.resource_flags.get(id.0 as usize) {
                Some(flag) => !*flag,
                None => true,
            },
            _ => true,
        }
    }
}

/// Whether no parameter or result of a function is a resource, by the flags of all types.
fn is_function_free(types: &[TypeDef], resource_flags: &[bool], function: &Function) -> bool
    requires { AreResourceFlags (map type_view types.now) resource_flags.now }
    ensures { IsTrue result ↔
        IsFunctionFree (map type_view types.now) (function_view function.now) }
{
    let _ = types;
    function_passes(&NotResource { resource_flags }, function)
}

/// Whether no parameter or result of the functions of a world is a resource, by the flags of all types.
pub(crate) fn is_world_free(parts: &Parts, resource_flags: &[bool], world: &World) -> bool
    requires { AreResourceFlags (parts_view parts.now).types resource_flags.now }
    ensures { IsTrue result ↔ DoesWorldPass (IsFree (parts_view parts.now).types)
        (world_view world.now) }
{
    let _ = parts;
    world_passes(&NotResource { resource_flags }, world)
}

/// Whether no parameter or result of the functions of an interface is a resource, by the flags of all types.
pub(crate) fn is_interface_free(
    parts: &Parts,
    resource_flags: &[bool],
    interface: &Interface,
) -> bool
    requires { AreResourceFlags (parts_view parts.now).types resource_flags.now }
    ensures { IsTrue result ↔ DoesInterfacePass (IsFree (parts_view parts.now).types)
        (interface_view interface.now) }
{
    let _ = parts;
    interface_passes(&NotResource { resource_flags }, interface)
}

/// Whether a type contains no resource by value, by the flags of all types.
pub(crate) fn is_type_free(
    alloc: Global,
    parts: &Parts,
    resource_flags: &[bool],
    def: &TypeDef,
) -> Result<bool, AllocError>
    requires { AreResourceFlags (parts_view parts.now).types resource_flags.now }
    ensures { IfOk result (λ b. IsTrue b ↔ DoesTypePass (IsFree (parts_view parts.now).types)
        (type_view def.now)) }
{
    let _ = parts;
    type_def_passes(alloc, &NotResource { resource_flags }, def)
}

/// Whether the ids of a function are in range, and no parameter or result is a resource, by the flags of all types.
pub(crate) fn is_usable(types: &[TypeDef], resource_flags: &[bool], function: &Function) -> bool
    requires { AreResourceFlags (map type_view types.now) resource_flags.now }
    ensures { IsTrue result ↔ (IsFunctionIn (length types.now) (function_view function.now)
        × IsFunctionFree (map type_view types.now) (function_view function.now)) }
{
    is_function_in(types.len(), function) && is_function_free(types, resource_flags, function)
}
