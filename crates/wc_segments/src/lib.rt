//! Reads the segments of a core WebAssembly module that `wc_read` has read (`read_segments`).
//!
//! They are the contents of its sections of elements, data counts and data.
//!
//! `read_module` skips these sections by their sizes. The sections encode the value that is read here; offsets,
//! expressions and data are slices of the bytes.
#![tactic(auto)]

mod data;
mod elements;
mod modes;
mod segments;
mod validity;

pub use data::DataSegment;
pub use elements::{ElementSegment, Elements, Expression};
pub use modes::SegmentMode;
pub use segments::{SegmentSection, Segments, read_segments};
