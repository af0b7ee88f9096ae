//! The imports of a component's modules by interface: which modules import from each interface, and which calls must be
//! removed to drop it.
//!
//! `Entries` begin empty, and note one module after another: the main module by `note_main_module`, each trimmed
//! adapter by `note_adapter_module`, each core module of a component that is followed by `note_core_module`, and each
//! library by `note_library`. Callers pass the interface of each import, if
//! it belongs to one. `place_of` and `set_types` note an interface that is imported for its types. `sort_entries` puts
//! the interfaces in the order of the list, and `lines_of` and `json_of` print them.
#![tactic(auto)]

mod core_modules;
mod entries;
mod leads;
mod summary;
mod summary_adapters;
mod summary_json;
mod summary_lines;
mod summary_main;
mod tags;
mod uses;

pub use core_modules::{CoreImports, Label, LabelKind, note_core_module};
pub use entries::{place_of, set_types, sort_entries};
pub use summary::{AdapterPart, Entries, Entry, MainPart};
pub use summary_adapters::{AdapterImports, note_adapter_module, note_library};
pub use summary_json::json_of;
pub use summary_lines::lines_of;
pub use summary_main::note_main_module;
pub use uses::Required;
