//! Calls on slices that say why a component has its imports.
//!
//! `component_paths` gives the paths through its modules to the imports that a key requests. `component_imports`
//! lists its imports from each interface, with the items that must be removed to drop them. A message describes the
//! component, as for `world` and `plan` of `wc_calls`. Each call writes its result to the front of the caller's
//! buffer, and returns an `Answer`, which has only numbers. No call requires anything of its arguments.
//!
//! ```rust
//! use std::alloc::Global;
//! use wc_calls::Answer;
//! use wc_component_calls::component_paths;
//! use wc_maps::Seed;
//!
//! /// Why a component imports files, as JSON.
//! pub fn why_files(alloc: Global, seed: Seed, message: &[u8], modules: &[u8], out: &mut [u8]) -> Answer
//!     ensures done { result.status ≡ done → IsPut (IsComponentPaths message.now modules.now
//!         (codes "wasi:filesystem")) result.length out.old out.new }
//! {
//!     component_paths(alloc, seed, message, modules, b"wasi:filesystem", out)
//! }
//! ```
#![tactic(auto)]

mod component_fault;
mod fault_answers;
mod imports_call;
mod known_imports;
mod paths_call;
mod places;

pub use component_fault::ComponentFault;
pub use imports_call::component_imports;
pub use paths_call::component_paths;
