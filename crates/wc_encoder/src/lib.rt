//! The parts that a component is encoded from: a main module, the world that it is encoded for, and adapters
//! and libraries beside it. `ComponentEncoder::build` checks that modules can be encoded for that
//! world. It does not read the modules.
//!
//! ```rust
//! use std::alloc::Global;
//! use wc_encoder::{ComponentEncoder, EncoderFault, EncoderParts, Metadata};
//! use wc_maps::{Map, Seed, Set};
//! use wc_resolve::{Resolve, WorldId};
//!
//! /// An encoder of a main module without adapters, for a world of `resolve`.
//! /// `seed`: the seed of the maps that are made.
//! pub fn encoder_for(
//!     alloc: Global,
//!     seed: Seed,
//!     main_module: Vec<u8>,
//!     resolve: Resolve,
//!     world: WorldId,
//! ) -> Result<ComponentEncoder, EncoderFault>
//!     ensures module { IfOk result (λ e. e.module_bytes ≡ main_module.items) }
//!     ensures world { IfOk result (λ e. (e.resolve ≡ resolve) × (e.world ≡ world.0)) }
//!     ensures well_formed { IfOk result IsWellFormed }
//!     ensures unknown { IsErrOf result EncoderFault.UnknownWorld
//!         → ¬ (world.0 < length resolve.worlds) }
//! {
//!     let parts = EncoderParts {
//!         module: main_module,
//!         module_import_map: None,
//!         metadata: Metadata { resolve, world },
//!         main_module_exports: Set::with_hasher(alloc, seed),
//!         adapters: Map::with_hasher(alloc, seed),
//!         reject_legacy_names: false,
//!         realloc_via_memory_grow: false,
//!         task_hook: String::new(alloc),
//!     };
//!     ComponentEncoder::build(alloc, parts)
//! }
//! ```
//!
//! This function is proved in `wc_tests`, as `examples::encoder::encoder_for`.
#![tactic(auto)]

mod dependencies;
mod distinct;
mod encoder;
mod encoder_parts;
mod exported;
mod fault;
mod well_formed;

pub use encoder::ComponentEncoder;
pub use encoder_parts::{EncoderParts, Metadata};
pub use fault::EncoderFault;
pub use wc_adapters::{Adapter, Instance, Item, LibraryInfo, MainOrAdapter, StringEncoding};
