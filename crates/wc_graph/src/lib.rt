//! Graphs of numbered items, and searches of them.
//!
//! They give the items that roots reach, the shortest chain to each item, trees of chains, dominators, and labels
//! that spread from items.
#![tactic(auto)]

mod alone;
mod chain_marks;
mod chain_tree;
mod chains;
mod dominators;
mod fronts;
mod labels;
mod leads;
mod marks;
mod places;
mod search;
mod tree;

pub use alone::{Alone, reached_alone};
pub use chain_marks::on_chains;
pub use chain_tree::{ChainTree, tree_to};
pub use chains::Chains;
pub use dominators::dominators_in;
pub use fronts::{find_dominators, up_to_first};
pub use labels::spread;
pub use leads::leading;
pub use places::{either, is_set};
pub use search::{Graph, SearchFault, find_all};
pub use tree::{Tree, positions_of};
