//! Validates core modules for an encoder by their imports and exports.
//!
//! `validate_module` and `validate_adapter_module` classify each import by its module, its name and its type, and
//! record it after the other imports of its module in an `ImportMap`. Then they classify each export by its name and
//! its type, and record it in an `ExportMap`. At last they check that no required export is missing.
//!
//! ```rust
//! use std::alloc::Global;
//! use wc_encoder::ComponentEncoder;
//! use wc_read::MemoryType;
//! use wc_validate::{ValidateFault, validate_module};
//!
//! /// The type of the memory that a module imports of the main module, if it imports it.
//! pub fn imported_memory(
//!     alloc: Global,
//!     encoder: &ComponentEncoder,
//!     bytes: &[u8],
//! ) -> Result<Option<MemoryType>, ValidateFault>
//!     ensures { IfOk result (λ memory. (r : ModuleRecord)
//!         × IsRecordOf (main_input encoder.now None) bytes.now r
//!         × (memory ≡ memory_in r.imports)) }
//! {
//!     let validated = validate_module(alloc, encoder, bytes, None)?;
//!     Ok(validated.imports.imported_memory())
//! }
//! ```
#![tactic(auto)]

mod explain;
mod exports;
mod externs;
mod fault;
mod first_by_key;
mod imports;
pub mod laws;
mod name_fault;
mod name_scope;
mod names;
mod place;
mod prefixes;
mod refused;
mod requirements;
mod signatures;
mod validate;
mod world_interfaces;

pub use exports::iter::{Exports, Reallocs};
pub use exports::map::ExportMap;
pub use fault::{AdapterModuleDidNotExport, ValidateFault};
pub use imports::instances::ImportInstance;
pub use imports::iter::Imports;
pub use imports::map::ImportMap;
pub use place::{Place, Subject, TypeDifference};
pub use validate::{
    ValidatedModule, validate_adapter_module, validate_adapter_module_explained, validate_module,
    validate_module_explained,
};
pub use world_interfaces::WorldInterfaces;
