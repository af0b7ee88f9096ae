//! Texts, for all crates that read or write modules.
//!
//! The crate has outputs (`Sink`, `Pieces`), texts of faults (`FaultText`), faults with their places (`Refused`),
//! prefixes, and escaped texts from outside (`escaped`).
//!
//! A `Sink` takes bytes of output until a write fails, and none from then on. A fault puts its text piece by piece,
//! to a sink or to a formatter, so its crate defines the text once.
#![tactic(auto)]

mod escape;
mod fault_text;
mod pieces;
mod prefixes;
mod refused;
mod sink;

pub use escape::{escaped, quoted};
pub use fault_text::{
    CARRIED, FaultText, OUT_OF_MEMORY, put_about, put_carried, put_quoted, show, text_of,
};
pub use pieces::Pieces;
pub use prefixes::strip_prefix;
pub use refused::Refused;
pub use sink::{Destination, PutFailed, Sink, WriterSink};
