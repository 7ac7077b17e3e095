//! The occurrences of placements in one game, by a walk.
//!
//! Stands on kb_geometry, kb_bits, capture_board, pattern_images and pattern_occurrences, which says
//! what an occurrence is. [`match_game`] and the other calls find the list of all by a walk over the
//! nodes. They are library calls that no program makes: a search finds the same list by runs.
#![tactic(auto)]

mod at_nodes;
mod changed;
mod grid_rows;
mod mask;
mod matcher;
mod starts;
mod visit;
mod walk;

pub use at_nodes::match_at;
pub use matcher::Matcher;
pub use pattern_occurrences::{
    Occurrence, the_occurrences_are_where_placements_begin_to_hold,
    the_test_tells_whether_a_placement_holds,
};
pub use walk::{match_along, match_game, match_with};
