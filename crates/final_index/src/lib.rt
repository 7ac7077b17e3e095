//! The points of a board that were ever black, ever white, and ever empty in a game, and the same
//! of up to 64 games as one word for each cell and point.
//!
//! Stands on node_paths, kb_geometry, kb_bits and capture_board. The layers above use that the
//! sets of [`EverSets`] are exact over all nodes, so that a game in which a wanted cell never
//! stands need not be searched, and that the words of [`Planes`] are exact over the games.
#![tactic(auto)]

mod ever_sets;
mod order_planes;
mod planes;
mod spans;

pub use ever_sets::EverSets;
pub use order_planes::OrderPlanes;
pub use planes::Planes;
