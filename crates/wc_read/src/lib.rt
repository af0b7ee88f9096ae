//! Reads core WebAssembly modules: all of a module (`read_module`), or a part of it: its sections
//! (`frames`), the content of an import section (`read_imports`), the body of a function
//! (`read_body`), an initialiser (`read_init`).
//!
//! A function that reads returns a value that all of the bytes spell; names and contents are slices of the bytes.
//! A `ReadFault` other than `Memory` comes only where the bytes spell no such value.
//!
//! ```rust
//! use std::alloc::Global;
//! use wc_read::{ExportKind, Module, ReadFault, read_module};
//!
//! /// Whether a module exports a memory.
//! fn has_memory(parsed: &Module<'_>) -> bool
//!     ensures { IsTrue result
//!         ↔ Any (λ e. e.kind ≡ ExportKind.Memory) (module_value parsed.now).exports }
//! {
//!     parsed
//!         .exports
//!         .iter()
//!         .any(|export| export.kind == ExportKind::Memory)
//! }
//!
//! /// Whether the module that the bytes spell exports a memory.
//! pub fn exports_memory(alloc: Global, bytes: &[u8]) -> Result<bool, ReadFault>
//!     ensures found { IfOk result (λ answer. (m : ModuleValue) × SpellsModule bytes.now m
//!         × (IsTrue answer ↔ Any (λ e. e.kind ≡ ExportKind.Memory) m.exports)) }
//!     ensures refused { IfRefused result (SpellsNothing SpellsModule bytes.now) }
//! {
//!     let module = read_module(alloc, bytes)?;
//!     Ok(has_memory(&module))
//! }
//! ```
//!
//! This function is proved in `wc_tests`, as `examples::read::exports_memory`.
#![tactic(auto)]

mod blocks;
mod bodies;
mod body_operators;
mod causes;
pub mod codes;
mod contents;
mod core_module;
mod custom;
mod distinct;
mod exports;
mod fault;
mod framing;
mod globals;
mod imports;
mod init_operators;
mod init_types;
mod inits;
mod instructions;
mod items;
pub mod laws;
mod limits;
mod local_runs;
mod modules;
mod names;
mod nesting;
mod operators;
mod order;
mod pass_kinds;
mod passing;
mod place;
mod producers;
mod reader;
mod references;
mod section_contents;
mod sections;
mod short_types;
mod signed;
mod spaces;
mod stops;
mod text_sizes;
mod types;
mod validity;

pub use bodies::{Body, Locals, read_body};
pub use body_operators::Operators;
pub use core_module::Module;
pub use exports::{Export, ExportKind};
pub use fault::ReadFault;
pub use framing::frames;
pub use imports::read_imports;
pub use init_operators::{InitIndex, InitOperators, init_index, is_init};
pub use init_types::{Scope, has_type_index, is_typed_init};
pub use inits::{Init, read_init};
pub use items::{Def, Func, Global, Item, Memory, Table};
pub use modules::read_module;
pub use names::{function_names, function_names_at};
pub use operators::{
    BlockType, Form, Immediates, Index, IndexKind, Instr, MemArg, Opcode, Refs, Space, form_of,
};
pub use order::section_content;
pub use place::{ReadPlace, imports_place, module_place, read_module_explained};
pub use reader::{Reader, Spelled};
pub use references::{TypeRefs, names_segment, refs, type_refs};
pub use section_contents::section_items;
pub use sections::{Frames, MODULE_HEADER, Section};
pub use types::{
    FuncType, GlobalType, Import, ImportType, MemoryType, TableType, ValType, is_reference,
};
