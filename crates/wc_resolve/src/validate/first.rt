//! The first world, interface, type or package that breaks the rule of a fault.

ghost use Rattle.std.specs.Prelude.{All, IfOk, MatchOption, map};
ghost use Rattle.wc_resolve.specs.Explain.{AreFlagsFor, DoesInterfaceFollow, DoesPackageFollow, DoesTypeFollow, DoesWorldFollow, IsFirstBreach};
ghost use Rattle.wc_resolve.specs.ResolveParts.{parts_view};
ghost use Rattle.wc_resolve.specs.Views.{interface_view, package_view, type_view, world_view};

use crate::validate::rules::{interface_follows, package_follows, type_follows, world_follows};
use crate::{Interface, Package, Parts, ResolveFault, TypeDef, World};
use std::alloc::{AllocError, Global};

pub(crate) fn first_world(
    parts: &Parts,
    fault: ResolveFault,
    resource_flags: &[bool],
    worlds: &[World],
) -> Option<usize>
    requires { AreFlagsFor (parts_view parts.now) fault resource_flags.now }
    ensures { let views = map world_view worlds.now in
        let P = DoesWorldFollow (parts_view parts.now) fault in
        MatchOption result (All P views) (IsFirstBreach P views) }
{
    for index in 0..worlds.len() {
        if !world_follows(parts, fault, resource_flags, &worlds[index]) {
            return Some(index);
        }
    }
    None
}

pub(crate) fn first_interface(
    parts: &Parts,
    fault: ResolveFault,
    resource_flags: &[bool],
    interfaces: &[Interface],
) -> Option<usize>
    requires { AreFlagsFor (parts_view parts.now) fault resource_flags.now }
    ensures { let views = map interface_view interfaces.now in
        let P = DoesInterfaceFollow (parts_view parts.now) fault in
        MatchOption result (All P views) (IsFirstBreach P views) }
{
    for index in 0..interfaces.len() {
        if !interface_follows(parts, fault, resource_flags, &interfaces[index]) {
            return Some(index);
        }
    }
    None
}

pub(crate) fn first_type(
    alloc: Global,
    parts: &Parts,
    fault: ResolveFault,
    resource_flags: &[bool],
    types: &[TypeDef],
) -> Result<Option<usize>, AllocError>
    requires { AreFlagsFor (parts_view parts.now) fault resource_flags.now }
    ensures { let views = map type_view types.now in
        let P = DoesTypeFollow (parts_view parts.now) fault in
        IfOk result (λ o. MatchOption o (All P views) (IsFirstBreach P views)) }
{
    for index in 0..types.len() {
        if !type_follows(alloc, parts, fault, resource_flags, &types[index])? {
            return Ok(Some(index));
        }
    }
    Ok(None)
}

pub(crate) fn first_package(
    parts: &Parts,
    fault: ResolveFault,
    packages: &[Package],
) -> Option<usize>
    ensures { let views = map package_view «packages».now in
        let P = DoesPackageFollow (parts_view parts.now) fault in
        MatchOption result (All P views) (IsFirstBreach P views) }
{
    for index in 0..packages.len() {
        if !package_follows(parts, fault, &packages[index]) {
            return Some(index);
        }
    }
    None
}
