//! The scope of the names of a core module's imports.

ghost use Rattle.std.specs.Prelude.{◌≡◌, Some, slice_get};
ghost use Rattle.wc_resolve.specs.Views.{world_view};

use wc_encoder::Adapter;
use wc_maps::Map;
use wc_names::PayloadLookupContext;
use wc_resolve::{Resolve, World, WorldId};

/// The scope of the names of a core module's imports: a world of a `Resolve`, and adapters by their names.
#[derive(Drop)]
pub(crate) struct Names<'a> {
    pub(crate) resolve: &'a Resolve,
    pub(crate) world: &'a World,
    /// The index of the world.
    pub(crate) world_id: WorldId,
    pub(crate) adapters: &'a Map<String, Adapter>,
    pub(crate) reject_legacy_names: bool,
    pub(crate) task_hook: &'a str,
    ghost listed: { slice_get resolve.now.worlds world_id.0 ≡ Some (world_view world.now) },
}

/// The scope of the names of functions, resources and built-ins, and the index of its world.
#[derive(Drop)]
pub(crate) struct ContextInWorld<'a> {
    pub(crate) lookup: PayloadLookupContext<'a>,
    pub(crate) world_id: WorldId,
    ghost listed: { slice_get lookup.resolve.now.worlds world_id.0
        ≡ Some (world_view lookup.world.now) },
}
