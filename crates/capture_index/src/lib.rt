//! For each point of a game the runs of nodes, in order of the text, at which it has one cell.
//!
//! Stands on node_paths, kb_geometry, capture_board, pattern_images and ready_images. A search asks
//! runs in place of replaying the positions of a game.
#![tactic(auto)]

mod begins;
mod branches;
mod building;
mod by_lists;
mod by_words;
mod cutting;
mod finding;
mod growing;
mod laws;
mod node_cells;
mod nodes_where;
mod packed_runs;
mod run;
mod run_index;
mod stretch;
mod time;
mod wanted;

pub use laws::nodes_where_the_parent_has_another_cell;
pub use nodes_where::NodesWhere;
pub use run_index::RunIndex;
pub use stretch::Stretch;
