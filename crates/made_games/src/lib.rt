//! Games that are made from a number, for bases of any size without a file.
//!
//! Stands on kb_geometry and game_tree. In `specs/` are the numbers of the generator and the games
//! that they give. The layer above uses that [`made_tree`] gives the game with a number.
#![tactic(auto)]

mod moves;
mod tree;

pub use tree::{MADE_NODES, made_tree};
