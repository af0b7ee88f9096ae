//! Calls that take slices and return numbers, for callers that share no other types with Rattle. On one module:
//! `dedupe` renames its repeated imports, `trim` cuts an adapter to the items that its exports reach, and `why` says
//! why an adapter has its imports; `scan` lists imports and exports, and `paths` gives the paths to imports. On a
//! component that JSON describes: `world` makes its world, `plan` its plan, `planned_world` both; `validate`
//! validates one of its modules, and `validated_module` gives what is recorded of one. `fault_text` gives the text of
//! a fault of `dedupe`, `trim`, `why`, `scan` or `paths` by its number. Each call writes its result to the front of
//! the caller's buffer, and returns an `Answer`, which has only numbers. No call requires anything of its arguments.
//! All but `dedupe` and `scan` hash under a seed that the caller passes; whoever chooses the names in the inputs
//! shouldn't know the seed.
//!
//! ```rust
//! use std::alloc::Global;
//! use wc_calls::{Answer, trim};
//! use wc_maps::Seed;
//!
//! /// Trims an adapter to what its export `write` reaches, for a main module that exports a realloc as
//! /// `realloc`.
//! pub fn trim_to_write(alloc: Global, seed: Seed, adapter: &[u8], out: &mut [u8]) -> Answer
//!     ensures done { result.status ≡ done → IsPut (IsTrimmed (with_realloc (codes "realloc"))
//!         (trim_input_for_names adapter.now (codes "write" ∷ [])))
//!         result.length out.old out.new }
//!     ensures unchanged { result.status ≢ done → result.status ≢ failed → out.new ≡ out.old }
//! {
//!     trim(alloc, seed, adapter, &[b"write"], Some(b"realloc"), 16, out)
//! }
//! ```
//!
//! This function is proved in `nuigatre`, as `call_example::trim_to_write`.
#![tactic(auto)]

mod answers;
mod asked_keys;
mod component_plans;
mod component_worlds;
mod encoders;
mod explained;
mod export_names;
mod fault_answers;
mod fault_texts;
mod heap;
mod import_chains;
mod import_options;
mod memory_faults;
mod message_fault;
mod module_paths;
mod places;
mod planned_worlds;
mod refusals;
mod renames;
mod renaming;
mod required_functions;
mod scanning;
mod trimming;
mod validated_modules;
mod validation;
mod world_calls;

pub use answers::{
    Answer, BAD_ARGUMENT, DONE, FAULT, MEMORY, NO_SUCH_FAULT, SAME, TOO_SMALL,
    answer_without_bytes, put, put_refusal,
};
pub use component_plans::plan;
pub use component_worlds::world;
pub use fault_texts::{DEDUPE_CALL, PATHS_CALL, SCAN_CALL, TRIM_CALL, WHY_CALL, fault_text};
pub use import_chains::why;
pub use memory_faults::gc_is_memory;
pub use message_fault::MessageFault;
pub use module_paths::paths;
pub use planned_worlds::planned_world;
pub use renaming::dedupe;
pub use scanning::scan;
pub use trimming::trim;
pub use validated_modules::validated_module;
pub use validation::validate;
pub use world_calls::{WorldCall, answer_for_world};
