//! The parts of a document that a request names.
//!
//! `select_world` finds the world by its name, `whole_world` the world that includes all others. `import_keys` and
//! `export_keys` give the keys of its imports and exports. A request names keys by their texts (`request_keys`,
//! `check_keys`) or by the indices of their interfaces (`indexed_keys`); `required_keys` gives the keys that the main
//! module and each adapter must export. `MainModule` is the main module with its repeated imports renamed, and
//! `no_task_hook` a name that means that there is no task hook.
//!
//! Texts are looked up in sets and maps that hash under the passed seed (`wc_maps::Seed`): names that are chosen
//! without knowing the seed can't make them slow.
#![tactic(auto)]

mod fault;
mod key_index;
mod key_names;
mod keys;
mod main_module;
mod module_keys;
mod requests;
mod task_hook;
mod world_parts;
mod worlds;

pub use fault::RequestFault;
pub use key_index::{AdapterKeys, KeyIndex};
pub use key_names::{indexed_keys, request_keys};
pub use keys::{export_keys, import_keys};
pub use main_module::MainModule;
pub use module_keys::{check_keys, required_keys};
pub use requests::{Exporter, KeyRequest};
pub use task_hook::{no_export_is_hook, no_task_hook};
pub use world_parts::whole_world;
pub use worlds::{select_world, world_name};
