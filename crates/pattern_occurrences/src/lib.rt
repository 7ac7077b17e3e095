//! What an occurrence is: a node of a game, and a placement that begins to hold there.
//!
//! Stands on node_paths, kb_geometry, kb_bits, capture_board and pattern_images, and holds a type,
//! definitions and laws, no call: in `specs/` are the definitions for where a placement holds and
//! begins to hold, and for the list of the occurrences in a game. The layers above say by them what
//! they find.
#![tactic(auto)]

mod laws;
mod occurrence;

pub use laws::{
    the_occurrences_are_where_placements_begin_to_hold, the_test_tells_whether_a_placement_holds,
};
pub use occurrence::Occurrence;
