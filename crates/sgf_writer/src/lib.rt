//! The canonical SGF text of a game tree.
//!
//! Stands on game_tree, kb_geometry and node_paths, and on sgf_reader for the law that a text which
//! was written is read back. In `specs/` is the written text. The layer above uses that [`write`]
//! appends it.
#![tactic(auto)]

mod laws;
mod nodes;
mod values;
mod walk;
mod writer;

pub use laws::{a_tree_has_one_text, each_tree_has_a_text};
pub use writer::write;
