//! An opening tree: positions that games reach by other orders of moves, or turned, are one, with
//! what was played next and who won.
//!
//! Stands on segment_store and what it names, for games and the changes at their nodes, and on
//! version_publisher, for versions. [`opening`] gives the openings of a version. In `specs/` are
//! the definitions for the canonical position, for the entries and the next moves of games, and for
//! the groups of these; the laws say that each list of games has openings, and one list of them.
//! Images of a position are packed in words, changed point by point from node to node and compared
//! with one another; by the words of the canonical one openings are found. Keys, counts and rows stand
//! in a few flat lists.
#![tactic(auto)]

mod answer;
mod groups;
mod image_walker;
mod keys;
mod laws;
mod least;
mod opening_so_far;
mod opening_table;
mod openings;
mod openings_of_games;
mod packed;
mod pieces;
mod row_lists;
mod symmetries;
mod turned;
mod within;

pub use answer::{NextMove, NextMoves, Opening};
pub use laws::{
    a_position_has_one_canonical_position, games_have_one_list_of_openings,
    images_alone_have_one_canonical_position,
};
pub use openings::opening;
pub use pieces::{WantedOpenings, opening_in_pieces};
