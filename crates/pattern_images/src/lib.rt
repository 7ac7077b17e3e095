//! Patterns, queries, and the placements of a query's pattern on a board.
//!
//! Stands on kb_geometry. In `specs/` are the definitions for a query's labels and base places, for
//! the image of a pattern, for the list of placements, and for a placement that holds in a
//! position. The layers above use that [`images`] gives exactly the distinct placements, in order,
//! each under its least label.
#![tactic(auto)]

mod base_places;
mod cell;
mod grids;
mod hit;
mod image_list;
mod laws;
mod listing;
mod making;
mod pattern;
mod query;
mod turn;
mod turning;

pub use cell::{CellList, PatternCell};
pub use hit::{Found, Hit, Next, Place};
pub use image_list::Images;
pub use laws::a_query_has_one_list_of_placements;
pub use making::images;
pub use pattern::Pattern;
pub use query::Query;
