//! Writes a component's world, a plan, and the places of faults as JSON, for programs that share no types.
//!
//! These are the results of `ComponentWorld::new` of `wc_world` and of `plan` of `wc_plan`, and the explanations of
//! faults by these crates. The texts have no spaces, and the same order for the same input. All maps are lists of
//! objects, so that every reader of JSON keeps their order.
//!
//! Ids are indices, as in the JSON that worlds are read from (`wc_json`).
#![tactic(auto)]

mod chains;
mod core_types;
mod export_options;
mod exports;
mod imports;
pub mod laws;
mod libraries;
mod listed_interfaces;
mod maps;
mod message_places;
mod modules;
mod objects;
mod places;
mod plans;
mod scans;
mod to_json;
mod used;
mod wit;
mod worlds;

pub use chains::import_chains_to_json;
pub use message_places::{
    adapter_to_json, json_place_to_json, key_to_json, part_to_json, plan_place_to_json,
    trim_fault_to_json, worlds_to_json,
};
pub use modules::module_to_json;
pub use places::{read_place_to_json, trim_place_to_json, world_place_to_json};
pub use plans::plan_to_json;
pub use scans::scan_to_json;
pub use worlds::{planned_world_to_json, world_to_json};
