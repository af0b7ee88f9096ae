//! Tests that a world, an interface, a type or a package follows the rule of a fault. The flags say which types are
//! resources; only the rule of `ByValueResource` reads them.

ghost use Rattle.std.specs.Prelude.{◌↔◌, IfOk, IsTrue};
ghost use Rattle.wc_resolve.specs.Explain.{AreFlagsFor, DoesInterfaceFollow, DoesPackageFollow, DoesTypeFollow, DoesWorldFollow};
ghost use Rattle.wc_resolve.specs.ResolveParts.{parts_view};
ghost use Rattle.wc_resolve.specs.Views.{interface_view, package_view, type_view, world_view};

use crate::validate::cases::has_cases;
use crate::validate::keys::{has_matching_keys, has_matching_members, has_matching_names};
use crate::validate::naming::{are_keys_identified, are_members_identified, has_needed_name};
use crate::validate::ranges::{is_interface_in, is_package_in, is_type_def_in, is_world_in};
use crate::validate::resources::{is_interface_free, is_type_free, is_world_free};
use crate::validate::spelling::{
    is_interface_spelled, is_package_spelled, is_type_spelled, is_world_spelled,
};
use crate::{Interface, Package, Parts, ResolveFault, TypeDef, World};
use std::alloc::{AllocError, Global};

pub(crate) fn world_follows(
    parts: &Parts,
    fault: ResolveFault,
    resource_flags: &[bool],
    world: &World,
) -> bool
    requires { AreFlagsFor (parts_view parts.now) fault resource_flags.now }
    ensures { IsTrue result ↔ DoesWorldFollow (parts_view parts.now) fault
        (world_view world.now) }
{
    match fault {
        ResolveFault::IdRange => is_world_in(parts, world),
        ResolveFault::Unnamed => are_keys_identified(parts, world),
        ResolveFault::KeyMismatch => has_matching_keys(parts, world),
        ResolveFault::BadCharacter => is_world_spelled(world),
        ResolveFault::ByValueResource => is_world_free(parts, resource_flags, world),
        ResolveFault::Memory
        | ResolveFault::Cycle
        | ResolveFault::NameClash
        | ResolveFault::Empty => true,
    }
}

pub(crate) fn interface_follows(
    parts: &Parts,
    fault: ResolveFault,
    resource_flags: &[bool],
    interface: &Interface,
) -> bool
    requires { AreFlagsFor (parts_view parts.now) fault resource_flags.now }
    ensures { IsTrue result ↔ DoesInterfaceFollow (parts_view parts.now) fault
        (interface_view interface.now) }
{
    match fault {
        ResolveFault::IdRange => is_interface_in(parts, interface),
        ResolveFault::KeyMismatch => has_matching_names(parts, interface),
        ResolveFault::BadCharacter => is_interface_spelled(interface),
        ResolveFault::ByValueResource => { is_interface_free(parts, resource_flags, interface) }
        ResolveFault::Memory
        | ResolveFault::Cycle
        | ResolveFault::Unnamed
        | ResolveFault::NameClash
        | ResolveFault::Empty => true,
    }
}

pub(crate) fn type_follows(
    alloc: Global,
    parts: &Parts,
    fault: ResolveFault,
    resource_flags: &[bool],
    def: &TypeDef,
) -> Result<bool, AllocError>
    requires { AreFlagsFor (parts_view parts.now) fault resource_flags.now }
    ensures { IfOk result (λ b. IsTrue b ↔ DoesTypeFollow (parts_view parts.now) fault
        (type_view def.now)) }
{
    match fault {
        ResolveFault::IdRange => is_type_def_in(alloc, parts, def),
        ResolveFault::Unnamed => Ok(has_needed_name(def)),
        ResolveFault::BadCharacter => Ok(is_type_spelled(def)),
        ResolveFault::ByValueResource => is_type_free(alloc, parts, resource_flags, def),
        ResolveFault::Empty => Ok(has_cases(&def.kind)),
        ResolveFault::Memory
        | ResolveFault::Cycle
        | ResolveFault::KeyMismatch
        | ResolveFault::NameClash => Ok(true),
    }
}

pub(crate) fn package_follows(parts: &Parts, fault: ResolveFault, package: &Package) -> bool
    ensures { IsTrue result ↔ DoesPackageFollow (parts_view parts.now) fault
        (package_view «package».now) }
{
    match fault {
        ResolveFault::IdRange => is_package_in(parts, package),
        ResolveFault::Unnamed => are_members_identified(parts, package),
        ResolveFault::KeyMismatch => has_matching_members(parts, package),
        ResolveFault::BadCharacter => is_package_spelled(package),
        ResolveFault::Memory
        | ResolveFault::Cycle
        | ResolveFault::NameClash
        | ResolveFault::ByValueResource
        | ResolveFault::Empty => true,
    }
}
