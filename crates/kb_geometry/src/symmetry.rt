// The eight symmetries of a board by their numbers, and the labels: a symmetry, with or without an
// exchange of the colours.
ghost use Rattle.std.specs.Prelude.{◌≡◌, ◌<◌, ◌↔◌, IsTrue, IsSome, IfSome};

use crate::shape::Shape;

// How many symmetries there are. A label with this much added exchanges the colours.
const SYMMETRIES: u8 = 8;

// The first of the symmetries that exchange columns and rows.
pub(crate) const FIRST_EXCHANGING: u8 = 4;

/// How many labels there are.
pub const LABELS: u8 = 16;

/// A symmetry of a board, by its number from 0 to 7. On a board of c columns and r rows the point
/// (x, y) goes to:
///
/// | Number | Point |
/// |---|---|
/// | 0 | (x, y) |
/// | 1 | (c - 1 - x, y) |
/// | 2 | (x, r - 1 - y) |
/// | 3 | (c - 1 - x, r - 1 - y) |
/// | 4 | (y, x) |
/// | 5 | (y, c - 1 - x) |
/// | 6 | (r - 1 - y, x) |
/// | 7 | (r - 1 - y, c - 1 - x) |
///
/// Symmetries 4 to 7 are symmetries of square boards alone.
#[derive(Clone, Copy, Debug, PartialEq, Eq, Hash)]
pub struct Symmetry {
    pub(crate) number: u8,
    pub ghost in_range: { number < 8 },
}

/// A symmetry, with or without an exchange of black and white. Its number is that of the symmetry,
/// plus 8 where the colours are exchanged.
#[derive(Clone, Copy, Debug, PartialEq, Eq, Hash)]
pub struct Label {
    number: u8,
    pub ghost in_range: { number < 16 },
}

impl Symmetry {
    ghost use Rattle.kb_geometry.specs.Symmetry.{number_of_symmetry, IsAllowed};

    /// The symmetry with this number. `None` exactly where it is above 7.
    pub fn new(number: u8) -> Option<Self>
        ensures below { IsSome result ↔ (number < 8) }
        ensures made { IfSome result (λ s. number_of_symmetry s ≡ number) }
    {
        if number < SYMMETRIES {
            Some(Symmetry { number })
        } else {
            None
        }
    }

    /// Its number, from 0 to 7.
    pub fn number(&self) -> u8
        ensures value { result ≡ number_of_symmetry self.now }
        ensures below { result < 8 }
    {
        self.number
    }

    /// Whether it is a symmetry of a board of this shape.
    pub fn is_allowed_on(&self, shape: Shape) -> bool
        ensures { IsTrue result ↔ IsAllowed (number_of_symmetry self.now) shape }
    {
        self.number < FIRST_EXCHANGING || shape.is_square()
    }
}

impl Label {
    ghost use Rattle.kb_geometry.specs.Symmetry.{
      number_of_symmetry,
      number_of_label,
      symmetry_of,
      IsExchanging,
    };

    /// The label with this number. `None` exactly where it is above 15.
    pub fn new(number: u8) -> Option<Self>
        ensures below { IsSome result ↔ (number < 16) }
        ensures made { IfSome result (λ label. number_of_label label ≡ number) }
    {
        if number < LABELS {
            Some(Label { number })
        } else {
            None
        }
    }

    /// Its number, from 0 to 15.
    pub fn number(&self) -> u8
        ensures value { result ≡ number_of_label self.now }
        ensures below { result < 16 }
    {
        self.number
    }

    /// Its symmetry.
    pub fn symmetry(&self) -> Symmetry
        ensures { number_of_symmetry result ≡ symmetry_of (number_of_label self.now) }
    {
        Symmetry {
            number: self.number % SYMMETRIES,
        }
    }

    /// Whether it exchanges black and white.
    pub fn exchanged(&self) -> bool
        ensures { IsTrue result ↔ IsExchanging (number_of_label self.now) }
    {
        self.number >= SYMMETRIES
    }
}
