//! Why a component would import something, by its modules alone: the main module and its adapters, without a world. A
//! path leads from its root in the main module to one of the main module's imports, or through its import of an
//! adapter's export to an import of the adapter.
//!
//! `Modules::read` follows the main module (`wc_import_paths`) and reads its adapters, with the exports that a component
//! may need of each. The modules of a component's file are read too: its main module, and its other core modules,
//! which are followed whole. `tree_of_modules` is the tree of the paths to the imports and the functions that are asked
//! for (`wc_why`). `imports_text` and `imports_json` say what the modules import, by interfaces.
#![tactic(auto)]

mod adapter;
mod adapters;
mod component_exports;
mod core_imports;
mod core_module;
mod core_modules;
mod core_parts;
mod core_tree;
mod functions;
mod imports;
mod modules;
mod name_lists;
mod parts;
mod refusals;
mod required;
mod server;
mod servers;
mod shared;
mod tree;

pub use adapter::AdapterModule;
pub use core_module::{CoreInput, CoreKind, CoreLibrary, CoreModule, FollowedCore};
pub use imports::{imports_json, imports_text};
pub use modules::{Modules, ModulesInput};
pub use refusals::ModulesRefusal;
pub use tree::tree_of_modules;
