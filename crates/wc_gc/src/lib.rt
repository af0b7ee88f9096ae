//! Trimming of adapter modules: an adapter cut to what its required exports reach, under new indices, with imported
//! reallocs replaced and code added that allocates a stack (`run`); that code alone (`realloc_via_memory_grow`,
//! `allocate_stack_via_realloc`); the items that exports reach (`liveness_counted`), and the sets that these are in
//! (`LiveSet`, `LiveSets`, `RangeSet`, `BitVec`, `Ranks`); and what a fault is about (`run_explained`).
//!
//! An item is a type, function, table, memory or global. An export names an item, a function its type and what the
//! operators of its body name, a global what its initialiser names. What is reached is the end of a list of items that
//! begins at the item of a required export, each of them named by the one before.
//!
//! ```rust
//! use std::alloc::Global;
//! use wc_gc::{GcFault, LiveSet, liveness_counted};
//! use wc_maps::Set;
//! use wc_read::Space;
//!
//! /// Whether the required exports of an adapter reach its first memory.
//! pub fn reaches_memory(
//!     alloc: Global,
//!     adapter: &[u8],
//!     required: &Set<String>,
//! ) -> Result<bool, GcFault>
//!     ensures { IfOk result (λ answer. (m : ModuleValue) × SpellsModule adapter.now m
//!         × (IsTrue answer ↔ IsLive (names_of required.now.keys) m (Space.Memories, 0))) }
//! {
//!     let found = liveness_counted(alloc, adapter, required)?;
//!     Ok(found.live.contains((Space::Memories, 0)))
//! }
//! ```
#![tactic(auto)]

mod added_code;
mod assemble;
mod body_cuts;
mod causes;
mod edit;
mod edited_image;
mod exports;
mod fault;
mod finders;
mod found;
mod func_groups;
mod import_chains;
mod import_positions;
mod kept_order;
pub mod laws;
mod live;
mod live_chains;
mod live_items;
mod machine_laws;
mod machine_operators;
mod merging;
mod new_bodies;
mod new_indices;
mod parts;
mod range_set;
mod ranks;
mod restriction_laws;
mod rewrite;
mod search;
mod settings;
mod trace_laws;
mod trim;
mod trim_place;
mod untouched_laws;

pub use added_code::{allocate_stack_via_realloc, realloc_via_memory_grow};
pub use fault::GcFault;
pub use import_chains::{Chain, ImportChains};
pub use live::{BitVec, LiveSet, LiveSets};
pub use live_chains::{why, why_imports};
pub use live_items::{Liveness, liveness_counted};
pub use range_set::RangeSet;
pub use ranks::Ranks;
pub use trim::run;
pub use trim_place::{TrimPlace, run_explained, why_imports_explained};
