//! A resolved world as JSON, read: the serde form of wit-parser's `Resolve`, as
//! `wasm-tools component wit --json` prints it. `document_from_json` makes of a text the `Parts` of
//! `wc_resolve`, and beside them says which package each world is of.
//!
//! The text is one object with the lists `worlds`, `interfaces`, `types` and `packages`; an id is an
//! index in its list. The order of an object's members is the order of the world's, the interface's
//! or the package's map. Members that the format doesn't name are passed over, as `docs`,
//! `stability` and `span`; they have to be well-formed JSON all the same. A member that is missing or
//! wrong is a fault with its path, as `types[3].kind.record.fields[0].type: missing`.
//!
//! The maps hash under the seed that is handed in (`wc_maps::Seed`): whoever chooses the names of a
//! text and doesn't know the seed can't make them slow.
//!
//! Whether the parts are well-formed is left to `wc_resolve::Resolve::build`; no id is known to be in
//! range before.
//!
//! `message_from_json` reads what a component is encoded from: a resolved world, one of its worlds, keys
//! of its exports and options, but not the bytes of modules.
//!
//! `fault_place` says what a fault of a text is about: the byte at which it stops to be JSON, or the path of a member;
//! `looks_like`, what a text that is not JSON looks like.
//!
//! Other texts that hold a resolved world are read in the same way: `FromJson` is what is read,
//! `value_from_json` reads it from a text, and its members are read by `required_member` and
//! `optional_member`.
#![tactic(auto, using(crate::proofs::FaultLemmas::IsFaultOf_bind, crate::proofs::PathLemmas::Reads_at_step))]

mod document;
mod fault;
mod from_json;
mod functions;
mod ids;
mod interfaces;
mod json_place;
mod keys;
mod kinds;
pub mod laws;
mod libraries;
mod likeness;
mod maps;
mod members;
mod messages;
mod packages;
mod paths;
mod places;
mod repeated_members;
mod types;
mod wit_types;
mod worlds;

pub use document::{Document, document_from_json};
pub use fault::{JsonFault, Problem};
pub use from_json::{FromJson, value_from_json};
pub use json_place::json_end;
pub use likeness::{Likeness, looks_like};
pub use members::{optional_member, required_member};
pub use messages::{
    AdapterMessage, KeyMessage, Message, OptionsMessage, WorldName, message_from_json,
};
pub use paths::{at_member, fault_here};
pub use places::{JsonPlace, fault_place};
pub use repeated_members::repeated_member;
