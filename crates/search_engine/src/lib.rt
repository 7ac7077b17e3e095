//! The search: the hits of a query in the games of a version.
//!
//! Stands on segment_store and version_publisher for the games and their indexes, on
//! candidate_sieve for which games may have a placement, on run_matcher for where a placement begins
//! to hold in a game, on continuation_table for how it goes on, and on info_filter for which games
//! are asked. The layers above use that [`search`] gives the hits in all games of
//! the version, in order, and their table, in however many pieces it works, that [`search_each`] does
//! so for several searches, and that [`kept`] tells how many games are kept.
#![tactic(auto)]

mod accepted;
mod answer;
mod bits;
mod block_occurrences;
mod game_hits;
mod item;
mod items;
mod kept_games;
mod laws;
mod pieces;
mod ready_query;
mod search_items;
mod searches;
mod several;
mod version_games;
mod work;

pub use answer::Answer;
pub use kept_games::kept;
pub use laws::{
    a_game_with_a_hit_is_kept, games_have_one_count_of_kept, games_have_one_count_of_kept_nodes,
    games_have_one_list_of_hits, hits_of_two_parts_are_those_of_each,
};
pub use searches::{search, search_from, search_segment};
pub use several::{Asked, search_each};
pub use version_games::{find_game, game_count};
