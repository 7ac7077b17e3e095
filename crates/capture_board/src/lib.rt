//! Boards that play by the capture rule, the changes at each node of a game, and a walker over
//! them.
//!
//! Stands on kb_geometry, kb_bits and node_paths. The layer above uses that `Board::play` is the
//! capture rule with its net changes, that `Board::undo` restores, and that a `Walker` shows the
//! position at the node where it stands.
#![tactic(auto)]

mod board;
mod cell_sets;
mod change_list;
mod deltas;
mod laws;
mod steps;
mod walker;

pub use board::Board;
pub use change_list::ChangeList;
pub use deltas::NodeDeltas;
pub use laws::{
    a_move_has_an_outcome, a_move_has_one_outcome, net_changes_are_complete,
    net_changes_are_unique, net_changes_exist, net_changes_may_be_undone,
};
pub use steps::Steps;
pub use walker::Walker;
