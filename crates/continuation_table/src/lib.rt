//! How games go on where a pattern was found, and a table of that.
//!
//! Stands on the trees of games, the changes of their nodes and the images of a query. In `specs/`
//! are the definitions for the continuation of a placement at a node, and for the table of a list of
//! hits. The layer above uses that [`next_below`] gives the continuation, as [`next_of`] does for the
//! library's callers, and that [`Table::of`] gives the table.
#![tactic(auto)]

mod changes;
mod continuation;
mod known_cells;
mod laws;
mod own_frame;
mod places;
mod rows;
mod table;
mod tally;
mod way_down;

pub use continuation::next_of;
pub use laws::{a_list_of_hits_has_one_table, a_placement_has_one_continuation_or_none};
pub use places::number_of_place;
pub use table::{Row, Table};
pub use tally::Tally;
pub use way_down::next_below;
