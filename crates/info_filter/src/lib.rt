//! Conditions on the information of games, the days of games, and the table of their players.
//!
//! Stands on game_tree for the information, and on libraries: bstr finds bytes in texts, jiff knows
//! the calendar and indexmap keeps players in the order of first sight. In `specs/` are the
//! definitions for the day of a game, for what a condition asks, and for the table of a list of
//! games. The layers above use that [`accepts_known`] is the conjunction of the conditions, that
//! [`written_day`] is the day that a text writes as YYYY-MM-DD, and that [`Players`] is the table
//! of the games that were added.
#![tactic(auto)]

mod condition;
mod day;
mod filter;
mod laws;
mod players;
mod score;
mod seat;

pub use condition::{Condition, ConditionList};
pub use day::{day_of, written_day};
pub use filter::{Filter, accepts, accepts_known};
pub use laws::{
    a_list_of_games_has_one_table, a_row_counts_at_most_two_sides_of_a_game,
    a_text_has_one_day_or_none,
};
pub use players::{PlayerRow, PlayerRows, Players};
