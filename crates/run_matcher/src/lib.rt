//! The occurrences of placements in one game, by the runs of its points.
//!
//! Stands on node_paths, kb_geometry, kb_bits, capture_board, pattern_images, ready_images,
//! pattern_occurrences and capture_index. [`Gathered`] gives the occurrences of whichever placements
//! are asked for, without going over the nodes; [`match_runs`] does so for all, and gives the list
//! that `line_matcher::match_with` gives by a walk.
#![tactic(auto)]

mod begun;
mod buffers;
mod gathered;
mod holding;
mod keys;
mod matching;

pub use begun::{Begun, HoldsTo};
pub use buffers::Buffers;
pub use gathered::Gathered;
pub use holding::holds_to;
pub use matching::match_runs;
