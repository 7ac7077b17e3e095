// What a box counts.

/// What a box counts.
#[derive(Clone, Copy, Debug, PartialEq, Eq, Hash)]
pub enum Kind {
    /// The hits.
    Total,
    /// The hits by their label.
    Labels,
    /// The hits by the tens of their node's move number; all from 300 on are counted together.
    Phases,
    /// The hits by the result of their game.
    Outcomes,
    /// The hits by how play goes on: at once, later or not at all.
    Nexts,
}
