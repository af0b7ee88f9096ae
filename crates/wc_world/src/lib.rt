//! The world of a component: all that a component encoder must know of modules before it encodes them.
//!
//! A `ComponentWorld` has the imports and exports of the main module, adapters and libraries, how these imports are
//! met, and which types they need.
//!
//! `ImportOptions` decides which canonical options (component model, Canonical ABI, "canonopt") lowered functions
//! need. `PlainOptions` decides it by the values that the functions pass. `RequiredOptions::for_export` has the
//! options of lifted functions.
//!
//! `ComponentWorld::new` makes it from an encoder (`wc_encoder::ComponentEncoder`).
#![tactic(auto)]

mod adapter;
mod adapters;
mod export_options;
mod fault;
mod import_map;
mod imported;
mod imported_items;
mod kept_lowerings;
pub mod laws;
mod live;
mod lowering;
mod marks;
mod options;
mod places;
mod refused;
mod required;
mod restricted;
mod settled;
mod trimming;
mod used;
mod world;

pub use adapter::WorldAdapter;
pub use fault::WorldFault;
pub use imported::{ImportedInterface, Lowering};
pub use live::{import_payload, import_resource};
pub use options::{ImportOptions, PlainOptions, RequiredOptions};
pub use places::{ModulePlace, WorldPlace};
pub use refused::{adapter_refusal, as_given, main_refusal};
pub use required::required_exports;
pub use world::ComponentWorld;
