//! The placements of a query, made ready to be looked for.
//!
//! Stands on kb_geometry and pattern_images. [`ReadyImages`] has the images of a query on a board of
//! one shape: what their classes ask of points, their placements in rows, and the corners that these
//! cover. The layers above look for them in the games of a block and in the runs of a game.
#![tactic(auto)]

mod class_wants;
mod corner_number;
mod corners;
mod laws;
mod pair;
mod pairs;
mod prepared;
mod ranks;
mod ready_images;
mod row;
mod rows;
mod want;
mod want_lists;
mod wanted;

pub use class_wants::ClassWants;
pub use corner_number::CornerNumber;
pub use corners::number_of_corner;
pub use laws::a_placement_holds_where_its_wants_are_met;
pub use pair::Pair;
pub use prepared::Prepared;
pub use ready_images::ReadyImages;
pub use row::Row;
pub use want::Want;
