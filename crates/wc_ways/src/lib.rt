//! Why a component imports something: the paths through the whole component that lead to the imports of its modules,
//! from its main module and through its adapters; and the interfaces that it imports for their types alone. `ways_text`
//! returns them as lines, `ways_json` as JSON, and `ways_graph` as a graph in the language of Graphviz.
//!
//! It is asked about an interface, a package, something of the world itself (`wc_why::asks_about`), or about all. The main
//! module, each adapter as the encoder has it, and each library are parts of one graph, and a path is a shortest one of it
//! (`wc_why::tree_of_parts`). `wc_why_text` prints the paths.
#![tactic(auto)]

mod asked;
mod asked_keys;
mod found;
mod imports;
mod modules;
mod needs;
mod originals;
mod parts;
mod summary_adapters;
mod summary_main;
mod summary_shared;
mod tags;
mod tree;
mod type_roots;
mod typed_found;
mod types;
mod wanted;
mod ways;

pub use imports::{imports_json, imports_text};
pub use ways::{ways_graph, ways_json, ways_text};
