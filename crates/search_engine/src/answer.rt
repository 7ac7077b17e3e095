// What a search gives.
use continuation_table::Table;
use pattern_images::Hit;

/// The hits of a search, and their table.
#[derive(Debug, Drop)]
pub struct Answer {
    /// By game, then by node, then in the order of the placements.
    pub hits: Vec<Hit>,
    /// How they go on.
    pub table: Table,
}
