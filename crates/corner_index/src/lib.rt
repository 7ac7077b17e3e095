//! The exact numbers that the corners of a board had in a game.
//!
//! Stands on node_paths, kb_geometry and capture_board. The layer above uses that
//! [`CornerKeys::has`] is exact over all nodes, so that a game in which a wanted corner never
//! stands need not be searched.
#![tactic(auto)]

mod corner_games;
mod corner_index;
mod corner_keys;
mod entry_lists;
mod laws;
mod numbers;

pub use corner_index::CornerIndex;
pub use corner_keys::CornerKeys;
pub use laws::{a_corner_is_known_by_its_number, a_corner_number_has_at_most_36_digits};
