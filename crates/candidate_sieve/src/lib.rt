//! Which games of a base, and which nodes of a game, a search for a pattern need look at.
//!
//! Stands on kb_geometry, kb_bits, node_paths, capture_board, pattern_images, ready_images,
//! pattern_occurrences, final_index, capture_index and corner_index. The layer above uses that no
//! game with an occurrence is left out.
#![tactic(auto)]

mod asked;
mod candidates;
mod cells;
mod corner_games;
mod corners;
mod kept_words;
mod laws;
mod nodes;
mod order;
mod sieve;
mod spans;

pub use asked::AskedPoints;
pub use candidates::{BlockPlanes, Candidate, add_candidates};
pub use corners::meets_corners;
pub use kept_words::kept_games;
pub use laws::{
    a_game_with_an_occurrence_is_kept, a_placement_is_kept_by_its_cells_and_corners,
    a_placement_that_holds_meets_the_sets, a_placement_that_holds_stands_in_order,
    an_occurrence_is_at_a_node_candidate, the_node_candidates_have_all_occurrences,
};
pub use nodes::{candidates_under, node_candidates};
pub use sieve::passes;
