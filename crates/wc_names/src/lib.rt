//! The names by which a core module imports from its component, and exports to it: each names a function, a resource or
//! a canonical built-in (component model, "Canonical built-ins"). `NameMangling` has a function for each kind of names,
//! and there are two schemes of them, `Standard` and `Legacy`.
//!
//! | What | `Legacy` | `Standard`, after `cm32p2` |
//! |---|---|---|
//! | the function `run` of the world | `run` of `$root` | `run` of the module without a name |
//! | the function `hello` of an interface | `hello` of `my:demo/host@1.2.3` | `hello` of `\|my:demo/host@1` |
//! | the same, asynchronously | `[async-lower]hello` | none |
//! | drops a resource `file` | `[resource-drop]file` | `file_drop` |
//! | reads the first stream of `hello` | `[stream-read-0]hello` | none |
//! | reads slot 1 of a thread | `[context-get-1]` of `$root` | none |
//! | exports the function `run` of the world | `run` | `\|\|run` |
//! | exports the function `hello` of an interface | `my:demo/host@1.2.3#hello` | `\|my:demo/host@1\|hello` |
//! | destroys a resource `file` of an interface | `my:demo/host@1.2.3#[dtor]file` | `\|my:demo/host@1\|file_dtor` |
//!
//! The text of a module is looked up among the imports or exports of a world (`NameMangling::module_to_interface`).
//! The names of functions and resources are looked up in an interface or in the world itself (`PayloadLookupContext`,
//! and `keys` for each step of it). The caller decides which of several kinds a name has. Laws (`laws`) say that an
//! import means at most one thing, and that this thing exists; and the same for an export.
//!
//! Exports are looked up in an export set, a set of keys of a world: `NameMangling::match_wit_export` and
//! `match_wit_resource_dtor` look up one name.
//!
//! To look up many there are indexes, which both schemes make (`NameIndexes`): `InterfaceNames` of the interfaces of a
//! world, and `ExportNames` of an export set.
//!
//! If an allocation fails, the result is `AllocError`. A call that names a thing by its id requires that the id is in
//! range.
//!
//! ```rust
//! use wc_names::{Legacy, NameMangling};
//!
//! /// The resource that an import of this name drops, by the legacy scheme.
//! pub fn dropped_resource(name: &str) -> Option<&str>
//!     ensures { Finds (option_copied result)
//!         (λ (r : List ℕ). NamesResource (legacy []) resource_drop r name.now) }
//! {
//!     let scheme = Legacy { task_hook: "" };
//!     scheme.resource_drop_name(name)
//! }
//! ```
#![tactic(auto)]

mod async_values;
mod environment;
mod export_index;
mod export_names;
mod exports;
mod first_members;
mod imports;
mod interface_index;
mod interfaces;
pub mod keys;
pub mod laws;
mod legacy;
mod mangling;
mod payloads;
mod standard;
mod texts;

pub use export_index::ExportNames;
pub use export_names::ExportSyntax;
pub use exports::Export;
pub use imports::{FunctionImport, Import, PayloadInfo, PayloadType};
pub use interface_index::InterfaceNames;
pub use legacy::Legacy;
pub use mangling::{MaybeAsyncLowered, NameIndexes, NameMangling};
pub use payloads::{NamedFunction, PayloadLookupContext};
pub use standard::Standard;
