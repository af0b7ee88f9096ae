//! Adapters and libraries, which stand beside a main module, and how its texts are encoded.
#![tactic(auto)]

mod adapters;
mod encoding;

pub use adapters::{Adapter, Instance, Item, LibraryInfo, MainOrAdapter};
pub use encoding::StringEncoding;
