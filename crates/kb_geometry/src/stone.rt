// Stones, the changes that a move makes, and who won.
ghost use Rattle.std.specs.Prelude.{◌≡◌};
ghost use Rattle.kb_geometry.specs.Outcomes.{is_black_win, is_no_win, is_white_win};

/// A side of the game.
#[derive(Clone, Copy, Debug, PartialEq, Eq, Hash)]
pub enum Colour {
    Black,
    White,
}

/// What stands on a point.
#[derive(Clone, Copy, Debug, PartialEq, Eq, Hash)]
pub enum Cell {
    Empty,
    Black,
    White,
}

/// One point whose cell changes, by the point's number.
#[derive(Clone, Copy, Debug, PartialEq, Eq, Hash)]
pub struct Change {
    pub point: u16,
    pub old: Cell,
    pub new: Cell,
}

/// The class of a game's result, by the text of its property RE (SGF FF[4], game information).
#[derive(Clone, Copy, Debug, PartialEq, Eq, Hash)]
pub enum Outcome {
    /// Black won: `B+` and what follows.
    Black,
    /// White won: `W+` and what follows.
    White,
    /// `0` or `Draw`.
    Draw,
    /// `Void`.
    Void,
    /// `?`.
    Unknown,
    /// Any other text, the empty one too.
    Other,
}

impl Outcome {
    /// Whether black is told to have won.
    pub fn is_black_win(self) -> bool
        ensures { result ≡ is_black_win self }
    {
        match self {
            Outcome::Black => true,
            Outcome::White => false,
            Outcome::Draw => false,
            Outcome::Void => false,
            Outcome::Unknown => false,
            Outcome::Other => false,
        }
    }

    /// Whether white is told to have won.
    pub fn is_white_win(self) -> bool
        ensures { result ≡ is_white_win self }
    {
        match self {
            Outcome::Black => false,
            Outcome::White => true,
            Outcome::Draw => false,
            Outcome::Void => false,
            Outcome::Unknown => false,
            Outcome::Other => false,
        }
    }

    /// Whether neither side is told to have won.
    pub fn is_no_win(self) -> bool
        ensures { result ≡ is_no_win self }
    {
        !self.is_black_win() && !self.is_white_win()
    }
}
