//! Renames the repeated imports of a core WebAssembly module, so that no two imports have the same
//! module and name (`ModuleImportMap::new`). The other sections are copied. The map has the
//! original name of each renamed import.
//!
//! ```rust
//! use std::alloc::Global;
//! use std::borrow::CowSlice;
//! use wc_dedupe::{DedupeFault, ModuleImportMap};
//! use wc_read::Import;
//!
//! /// Renames the repeated imports of a module, and gives the original name of one of its imports
//! /// then. `None` where it was not renamed.
//! pub fn original_name(
//!     alloc: Global,
//!     bytes: &[u8],
//!     import: &Import<'_>,
//! ) -> Result<Option<String>, DedupeFault>
//!     ensures { IfOk result (λ name. (out : List ℕ) × (renames : List RenameView)
//!         × IsDeduped bytes.now out renames
//!         × (option_map string_bytes name
//!         ≡ original_in renames import.now.module.now import.now.name.now)) }
//! {
//!     let (_deduped, map) = ModuleImportMap::new(alloc, CowSlice::Borrowed(bytes))?;
//!     let Some(map) = map else {
//!         return Ok(None);
//!     };
//!     match map.original_name(import) {
//!         Some(name) => Ok(Some(String::from_str(alloc, name)?)),
//!         None => Ok(None),
//!     }
//! }
//! ```
//!
//! This function is proved in `wc_tests`, as `examples::dedupe::original_name`.
#![tactic(auto)]

mod dedupe;
mod fault;
pub mod laws;
mod name_keys;
mod name_positions;
mod numbers;
mod parsed_sections;
mod rename_list;
mod rename_order;
mod renaming;

pub use fault::DedupeFault;
pub use rename_list::{Rename, RenameList};
pub use renaming::ModuleImportMap;
