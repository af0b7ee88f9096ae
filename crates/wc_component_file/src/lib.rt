//! The file of a component, by its core modules.
//!
//! A component's file holds its core modules whole. `read_component` finds them, with their names and with where they
//! begin in the file. It never runs into a module.
#![tactic(auto)]

mod fault;
mod file;
mod frames;
mod headers;
mod inside;
pub mod laws;
mod listing;
mod main_module;
mod names;
mod renamed;
mod role;
mod roles;
mod serving;
mod told;

pub use fault::{FileFault, FileRefusal};
pub use file::{ComponentFile, CoreModule, is_component, read_component};
pub use listing::modules_listing;
pub use renamed::original_import_name;
pub use role::{Role, RolesRefusal};
pub use roles::roles_of;
