//! Writes core WebAssembly modules: all of a module (`write_module`), or a part of it: an import
//! section (`write_import_section`), a section whose content is there already (`raw_section`), the
//! body of a function (`write_body`). Each number is written in its shortest encoding.
//!
//! A `Sink` takes bytes of output until a write fails, and none from then on.
//!
//! ```rust
//! use std::alloc::Global;
//! use thiserror::Error;
//! use wc_read::{ReadFault, read_module};
//! use wc_write::{WriteFault, write_import_section};
//!
//! /// Why the imports of a module could not be written again.
//! #[derive(Clone, Copy, Debug, Error)]
//! pub enum RewriteFault {
//!     /// The bytes could not be read.
//!     #[error("Read: {0}")]
//!     Read(#[from] ReadFault),
//!     /// The section could not be written.
//!     #[error("Write: {0}")]
//!     Write(#[from] WriteFault),
//! }
//!
//! /// One import section with all imports of the module that the bytes spell.
//! pub fn import_section(alloc: Global, bytes: &[u8]) -> Result<Vec<u8>, RewriteFault>
//!     ensures written { IfOk result (λ section. (m : ModuleValue) × SpellsModule bytes.now m
//!         × (section.items ≡ section_text 2 (imports_text m.imports))) }
//! {
//!     let module = read_module(alloc, bytes)?;
//!     let section = write_import_section(alloc, &module.imports)?;
//!     Ok(section)
//! }
//! ```
//!
//! This function is proved in `wc_tests`, as `examples::write::import_section`.
#![tactic(auto)]

mod bodies;
mod contents;
mod fault;
mod imports;
mod inits;
pub mod laws;
mod module_sections;
mod modules;
mod numbers;
mod operators;
mod sections;
mod spaces;
mod types;
mod vectors;

pub use bodies::{BodyText, append_index_operator, append_locals, append_operator, write_body};
pub use fault::WriteFault;
pub use imports::{append_import_section, write_import_section};
pub use inits::InitText;
pub use modules::{Built, write_module, write_module_of};
pub use sections::{append_raw_section, raw_section};
pub use wc_texts::{Destination, PutFailed, Sink, WriterSink};
