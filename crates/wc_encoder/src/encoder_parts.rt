//! The parts that an encoder is made of.

use wc_adapters::Adapter;
use wc_dedupe::ModuleImportMap;
use wc_maps::{Map, Set};
use wc_resolve::{Resolve, WorldId, WorldKey};

/// A `Resolve`, and the index of the world in it for which modules are encoded.
#[derive(Drop)]
pub struct Metadata {
    pub resolve: Resolve,
    pub world: WorldId,
}

/// The parts that [`ComponentEncoder::build`](crate::ComponentEncoder::build) makes an encoder of.
#[derive(Drop)]
pub struct EncoderParts {
    /// The main module's bytes. They are not read.
    pub module: Vec<u8>,
    /// The original names of its renamed imports, where some were renamed.
    pub module_import_map: Option<ModuleImportMap>,
    pub metadata: Metadata,
    /// Which exports of the world the main module has to export.
    pub main_module_exports: Set<WorldKey>,
    /// Adapters and libraries by their names.
    pub adapters: Map<String, Adapter>,
    /// Whether names of the older scheme are refused.
    pub reject_legacy_names: bool,
    /// Whether adapters grow memory for themselves, in place of calling the main module's realloc.
    pub realloc_via_memory_grow: bool,
    /// The name of the export that is the task hook.
    pub task_hook: String,
}
