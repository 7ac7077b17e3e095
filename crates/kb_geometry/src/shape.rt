// The size of a board, its points, and their numbers row by row.
ghost use Rattle.std.specs.Prelude.{◌≡◌, ◌<◌, ◌≤◌, ◌↔◌, IsTrue, IsSome, IfSome};
ghost use Rattle.kb_geometry.specs.Side.{IsSide};

/// The most columns, and the most rows, that a board may have.
pub const MAX_SIDE: u8 = 52;

/// The most points that a board may have: its sides multiplied.
pub const MAX_POINTS: u16 = 2704;

/// A point of a board: the column from the left and the row from the top, both from 0.
#[derive(Clone, Copy, Debug, PartialEq, Eq, Hash)]
pub struct Point {
    pub x: u8,
    pub y: u8,
}

/// A rectangle of points, by its upper left corner `x0`, `y0` and its lower right corner `x1`,
/// `y1`. Both belong to it. The type doesn't keep their order.
#[derive(Clone, Copy, Debug, PartialEq, Eq, Hash)]
pub struct Rect {
    pub x0: u8,
    pub y0: u8,
    pub x1: u8,
    pub y1: u8,
}

// How many columns and rows the standard board has.
const STANDARD_SIDE: u8 = 19;

impl Rect {
    ghost use Rattle.kb_geometry.specs.Board.{IsInside};

    /// The rectangle that holds this point alone.
    pub const fn of_point(p: Point) -> Rect
        ensures { result ≡ record { x0 = p.x; y0 = p.y; x1 = p.x; y1 = p.y } }
    {
        Rect {
            x0: p.x,
            y0: p.y,
            x1: p.x,
            y1: p.y,
        }
    }

    /// Whether the point lies in the rectangle.
    pub fn contains(&self, p: Point) -> bool
        ensures { IsTrue result ↔ IsInside self.now p }
    {
        self.x0 <= p.x && p.x <= self.x1 && self.y0 <= p.y && p.y <= self.y1
    }
}

/// The size of a board, with 1 to [`MAX_SIDE`] columns and as many rows.
#[derive(Clone, Copy, Debug, PartialEq, Eq, Hash)]
pub struct Shape {
    cols: u8,
    rows: u8,
    pub ghost in_range: { IsSide cols × IsSide rows },
}

impl Shape {
    ghost use Rattle.kb_geometry.specs.declared.shape.Point.{Point};
    ghost use Rattle.kb_geometry.specs.Board.{cols_of, rows_of, IsOnBoard, point_count, number_of};

    /// A shape of this many columns and rows. `None` exactly where one of them is none of 1 to
    /// [`MAX_SIDE`].
    pub fn new(cols: u8, rows: u8) -> Option<Self>
        ensures sides { IsSome result ↔ (IsSide cols × IsSide rows) }
        ensures made { IfSome result (λ s. (cols_of s ≡ cols) × (rows_of s ≡ rows)) }
    {
        if cols >= 1 && cols <= MAX_SIDE && rows >= 1 && rows <= MAX_SIDE {
            Some(Shape { cols, rows })
        } else {
            None
        }
    }

    /// The standard board, 19 by 19.
    pub fn standard() -> Self
        ensures cols { cols_of result ≡ 19 }
        ensures rows { rows_of result ≡ 19 }
    {
        Shape {
            cols: STANDARD_SIDE,
            rows: STANDARD_SIDE,
        }
    }

    /// How many columns.
    pub fn cols(&self) -> u8
        ensures value { result ≡ cols_of self.now }
        ensures side { IsSide result }
    {
        self.cols
    }

    /// How many rows.
    pub fn rows(&self) -> u8
        ensures value { result ≡ rows_of self.now }
        ensures side { IsSide result }
    {
        self.rows
    }

    // The shape with columns and rows exchanged.
    pub(crate) fn exchanged(self) -> Self
        ensures cols { cols_of result ≡ rows_of self }
        ensures rows { rows_of result ≡ cols_of self }
    {
        Shape {
            cols: self.rows,
            rows: self.cols,
        }
    }

    /// Whether there are as many columns as rows.
    pub fn is_square(&self) -> bool
        ensures { IsTrue result ↔ (cols_of self.now ≡ rows_of self.now) }
    {
        self.cols == self.rows
    }

    /// How many points.
    pub fn count(&self) -> u16
        ensures value { result ≡ point_count self.now }
        ensures some { 1 ≤ result }
        ensures most { result ≤ 2704 }
    {
        u16::from(self.cols) * u16::from(self.rows)
    }

    /// The number of a point of the board: row by row from the upper left, from 0.
    pub fn number(&self, p: Point) -> u16
        requires { IsOnBoard self.now p }
        ensures value { result ≡ number_of self.now p }
        ensures in_range { result < point_count self.now }
    {
        u16::from(p.y) * u16::from(self.cols) + u16::from(p.x)
    }

    /// The point with this number.
    pub fn point(&self, number: u16) -> Point
        requires { number < point_count self.now }
        ensures on_board { IsOnBoard self.now result }
        ensures inverse { number_of self.now result ≡ number }
        ensures only { (p : Point) → IsOnBoard self.now p → number_of self.now p ≡ number →
            p ≡ result }
    {
        let cols = u16::from(self.cols);
        Point {
            x: (number % cols) as u8,
            y: (number / cols) as u8,
        }
    }
}
