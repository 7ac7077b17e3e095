// The cells of patterns, and lists of them.
ghost use Rattle.std.specs.Prelude.{◌≡◌, ◌↔◌, IsTrue};

use kb_geometry::{Cell, Items};

/// What a pattern asks of a point.
#[derive(Clone, Copy, Debug, PartialEq, Eq, Hash)]
pub enum PatternCell {
    /// No stone.
    Empty,
    Black,
    White,
    /// A black stone or none.
    NotWhite,
    /// A white stone or none.
    NotBlack,
    /// Nothing: a wildcard.
    Any,
}

impl PatternCell {
    ghost use Rattle.pattern_images.specs.Grid.{exchanged_cell};
    ghost use Rattle.pattern_images.specs.Holds.{Allows};

    /// Black for white and white for black, and the same where no stone may stand too. Empty cells
    /// and wildcards stay.
    pub fn exchanged(self) -> Self
        ensures { result ≡ exchanged_cell self }
    {
        match self {
            PatternCell::Empty => PatternCell::Empty,
            PatternCell::Black => PatternCell::White,
            PatternCell::White => PatternCell::Black,
            PatternCell::NotWhite => PatternCell::NotBlack,
            PatternCell::NotBlack => PatternCell::NotWhite,
            PatternCell::Any => PatternCell::Any,
        }
    }

    /// Whether it allows this cell of a board.
    #[inline]
    pub fn allows(self, cell: Cell) -> bool
        ensures { IsTrue result ↔ Allows self cell }
    {
        match self {
            PatternCell::Any => true,
            PatternCell::Empty => cell == Cell::Empty,
            PatternCell::Black => cell == Cell::Black,
            PatternCell::White => cell == Cell::White,
            PatternCell::NotWhite => cell != Cell::White,
            PatternCell::NotBlack => cell != Cell::Black,
        }
    }
}

/// Pattern cells. Contracts see them as a list.
pub type CellList = Items<PatternCell>;
