// The openings as they are answered.
use kb_geometry::{Colour, Items, Point};

/// A move, or a pass where there is no point, that was played next from an opening's position: by
/// how many nodes, and by how many in games that black won, that white won, and in others.
///
/// The point is told in the frame of the canonical position.
#[derive(Clone, Copy, Debug, PartialEq, Eq)]
pub struct NextMove {
    pub colour: Colour,
    pub point: Option<Point>,
    pub count: u64,
    pub black: u64,
    pub white: u64,
    pub other: u64,
}

/// The next moves from one position. Contracts see the list of them.
pub type NextMoves = Items<NextMove>;

/// A canonical position that came up: at how many entries, and at how many in games that black won,
/// that white won, and in others; the first of them, by the number of its game in the version, from
/// 0, and its node; and what was played next.
#[derive(Debug, Drop)]
pub struct Opening {
    pub count: u64,
    pub black: u64,
    pub white: u64,
    pub other: u64,
    pub game: u32,
    pub node: u32,
    pub nexts: NextMoves,
}
