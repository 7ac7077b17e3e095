// What a node of a game tree does.
use kb_geometry::{Cell, Colour, Point, Rect};

/// Sets each point of a rectangle to this cell.
#[derive(Clone, Copy, Debug, PartialEq, Eq)]
pub struct Setup {
    pub cell: Cell,
    pub rect: Rect,
}

/// A move, or a pass where there is no point.
#[derive(Clone, Copy, Debug, PartialEq, Eq)]
pub struct Move {
    pub colour: Colour,
    pub point: Option<Point>,
}
