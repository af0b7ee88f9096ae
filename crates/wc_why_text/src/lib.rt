//! The paths of a tree (`wc_why::Tree`), printed: as lines, as JSON, and as a graph in the language of Graphviz.
//!
//! A path is read by going from the way's item back to the item before it, and so on. All printers read it from the tree, and
//! show the same paths.
#![tactic(auto)]

mod groups;
mod item_texts;
mod json_parts;
mod name_parts;
mod paths_json;
mod runs;
mod rust_names;
mod short_names;
mod texts;
mod tree_graph;
mod tree_json;
mod tree_lines;
mod way_items;
mod way_lines;
mod ways;

pub use item_texts::item_text;
pub use json_parts::{
    begin_object, end_object, put_kind, put_null, put_number, put_text, put_text_or_null,
};
pub use paths_json::paths_to_json;
pub use rust_names::rust_name;
pub use texts::word;
pub use tree_graph::tree_to_graph;
pub use tree_json::tree_to_json;
pub use tree_lines::{LinesFault, push_lines, put_lines};
