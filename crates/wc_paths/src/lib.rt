//! Paths through a core WebAssembly module: the shortest path from a root to an item, and of several the first.
#![tactic(auto)]

mod body_names;
mod call_lists;
mod callers;
mod counts;
mod equal_types;
mod graph;
mod items;
mod names;
mod path_roots;
mod paths;
mod roots;

pub use callers::Callers;
pub use counts::{Counts, has_item, item_at, number_of, numbers_of};
pub use graph::ModuleGraph;
pub use items::PathItem;
pub use path_roots::{PathRoot, filled_by};
pub use paths::PathFault;
pub use roots::{export_item, first_roots, import_items, roots_of, second_roots};
