// Where a pattern was found, as plain data.
use kb_geometry::{Colour, Label, Outcome};

/// A placement of a pattern on a board, without its cells: the upper left point and the size of its
/// rectangle, and the least label that gives it.
#[derive(Clone, Copy, Debug, PartialEq, Eq, Hash)]
pub struct Place {
    pub x: u8,
    pub y: u8,
    pub cols: u8,
    pub rows: u8,
    pub label: Label,
}

/// A place at which a pattern begins to hold, in one game.
#[derive(Clone, Copy, Debug, PartialEq, Eq, Hash)]
pub struct Found {
    /// The node's number.
    pub node: u32,
    pub place: Place,
}

/// How play goes on in the rectangle of a place, in the pattern's own frame and colours.
#[derive(Clone, Copy, Debug, PartialEq, Eq, Hash)]
pub struct Next {
    pub colour: Colour,
    pub x: u8,
    pub y: u8,
    /// It is the next move of the game.
    pub now: bool,
}

/// A place at which a pattern begins to hold, with what is told of its game.
#[derive(Clone, Copy, Debug, PartialEq, Eq, Hash)]
pub struct Hit {
    /// The game's number.
    pub game: u32,
    /// The node's number in its game.
    pub node: u32,
    pub place: Place,
    /// The node's move number.
    pub moves: u32,
    pub outcome: Outcome,
    pub next: Option<Next>,
}
