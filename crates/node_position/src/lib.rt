//! The changes at the nodes of a game tree.
//!
//! Stands on game_tree, capture_board and node_paths. The layer above uses that the changes of
//! [`deltas`], added along the path from the root to a node, give the position at that node.
#![tactic(auto)]

mod building;
mod laws;

pub use building::{deltas, deltas_with};
pub use laws::{
    a_tree_has_changes, a_tree_has_one_list_of_changes, a_tree_has_one_list_of_positions,
    a_tree_has_positions,
};
