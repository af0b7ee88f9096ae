//! The check that the parts of an encoder are well-formed.

ghost use Rattle.std.specs.Prelude.{IfErr, IfNone, IfSome, OnOk};
ghost use Rattle.wc_resolve.specs.Views.{world_view};
ghost use Rattle.wc_encoder.specs.EncoderParts.{HasWorld, IsWorldOf, parts_view};
ghost use Rattle.wc_encoder.specs.Fault.{IsEncoderCause};
ghost use Rattle.wc_encoder.specs.WellFormed.{IsWellFormed};

use crate::dependencies::are_dependencies_before;
use crate::distinct::{are_interfaces_once, are_names_distinct};
use crate::encoder_parts::EncoderParts;
use crate::exported::{are_keys_exported, are_no_types};
use crate::fault::EncoderFault;
use std::alloc::Global;
use wc_resolve::World;

/// The world that modules are encoded for; `None` where the `Resolve` has none at the index.
fn world_of(parts: &EncoderParts) -> Option<&World>
    ensures some { IfSome result (λ w. IsWorldOf (parts_view parts.now) (world_view w.now)) }
    ensures none { IfNone result (¬ HasWorld (parts_view parts.now)) }
{
    let id = parts.metadata.world;
    if parts.metadata.resolve.has_world(id) {
        Some(parts.metadata.resolve.world(id))
    } else {
        None
    }
}

/// Checks that the parts are well-formed.
///
/// # Errors
///
/// The faults of `ComponentEncoder::build`.
pub(crate) fn check(alloc: Global, parts: &EncoderParts) -> Result<(), EncoderFault>
    ensures formed { OnOk result (IsWellFormed (parts_view parts.now)) }
    ensures fault { IfErr result (IsEncoderCause (parts_view parts.now)) }
{
    let resolve = &parts.metadata.resolve;
    resolve.well_formedness();
    let Some(world) = world_of(parts) else {
        return Err(EncoderFault::UnknownWorld);
    };
    if !are_keys_exported(parts, &world.exports) {
        return Err(EncoderFault::NotAnExport);
    }
    if !are_no_types(&world.exports) {
        return Err(EncoderFault::TypeExported);
    }
    if !are_interfaces_once(alloc, &world.exports)? {
        return Err(EncoderFault::InterfaceTwice);
    }
    if !are_dependencies_before(alloc, resolve, &world.exports)? {
        return Err(EncoderFault::DependencyLater);
    }
    if !are_names_distinct(alloc, resolve, &world.imports)? {
        return Err(EncoderFault::ImportNameClash);
    }
    Ok(())
}
