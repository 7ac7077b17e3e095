// Where the symmetries move points and rectangles of a board, and the symmetries that move them
// back.
ghost use Rattle.std.specs.Prelude.{◌≡◌, ◌<◌, ◌↔◌};
ghost use Rattle.kb_geometry.specs.declared.shape.Shape.{Shape};
ghost use Rattle.kb_geometry.specs.declared.shape.Point.{Point};
ghost use Rattle.kb_geometry.specs.Board.{IsInside, IsOnBoard, IsOrderedRectOnBoard};
ghost use Rattle.kb_geometry.specs.Board.{cols_of, rows_of};
ghost use Rattle.kb_geometry.specs.Symmetry.{
  number_of_symmetry,
  moved,
  inverse_number,
  turned_cols,
  turned_rows,
  IsAllowed,
};

use crate::shape::{Point, Rect, Shape};
use crate::symmetry::{FIRST_EXCHANGING, Symmetry};

/// Where a symmetry moves a point of the board.
pub fn apply(s: Symmetry, shape: Shape, p: Point) -> Point
    requires allowed { IsAllowed (number_of_symmetry s) shape }
    requires on_board { IsOnBoard shape p }
    ensures value { result ≡ moved (number_of_symmetry s) shape p }
    ensures on_board { IsOnBoard shape result }
{
    apply_within(s, shape, p)
}

/// The symmetry that moves each point back: 6 for 5, 5 for 6, and every other one for itself.
pub fn inverse(s: Symmetry) -> Symmetry
    ensures value { number_of_symmetry result ≡ inverse_number (number_of_symmetry s) }
    ensures undoes { (shape : Shape) (p : Point) → IsAllowed (number_of_symmetry s) shape →
        IsOnBoard shape p → moved (number_of_symmetry result) shape
        (moved (number_of_symmetry s) shape p) ≡ p }
    ensures undone { (shape : Shape) (p : Point) → IsAllowed (number_of_symmetry s) shape →
        IsOnBoard shape p → moved (number_of_symmetry s) shape
        (moved (number_of_symmetry result) shape p) ≡ p }
{
    match s.number {
        5 => Symmetry { number: 6 },
        6 => Symmetry { number: 5 },
        _ => s,
    }
}

/// The rectangle of the points to which a symmetry moves the points of a rectangle of the board.
pub fn apply_rect(s: Symmetry, shape: Shape, r: Rect) -> Rect
    requires allowed { IsAllowed (number_of_symmetry s) shape }
    requires on_board { IsOrderedRectOnBoard shape r }
    ensures on_board { IsOrderedRectOnBoard shape result }
    ensures image { (q : Point) → IsInside result q
        ↔ ((p : Point) × IsInside r p × (moved (number_of_symmetry s) shape p ≡ q)) }
{
    let first = apply(s, shape, Point { x: r.x0, y: r.y0 });
    let last = apply(s, shape, Point { x: r.x1, y: r.y1 });
    Rect {
        x0: first.x.min(last.x),
        y0: first.y.min(last.y),
        x1: first.x.max(last.x),
        y1: first.y.max(last.y),
    }
}

/// The size of a rectangle of this size after a symmetry. Symmetries 4 to 7 exchange its columns
/// and rows.
pub fn turned(s: Symmetry, size: Shape) -> Shape
    ensures cols { cols_of result ≡ turned_cols (number_of_symmetry s) size }
    ensures rows { rows_of result ≡ turned_rows (number_of_symmetry s) size }
{
    if s.number < FIRST_EXCHANGING {
        size
    } else {
        size.exchanged()
    }
}

/// Where a symmetry moves a point of a rectangle of this size. Both points are told from the upper
/// left corner of the rectangle, before and after the symmetry. The rectangle needn't be square.
pub fn apply_within(s: Symmetry, size: Shape, p: Point) -> Point
    requires { IsOnBoard size p }
    ensures value { result ≡ moved (number_of_symmetry s) size p }
    ensures column { result.x < turned_cols (number_of_symmetry s) size }
    ensures row { result.y < turned_rows (number_of_symmetry s) size }
{
    let Point { x, y } = p;
    let right = size.cols() - 1;
    let bottom = size.rows() - 1;
    match s.number {
        0 => Point { x, y },
        1 => Point { x: right - x, y },
        2 => Point { x, y: bottom - y },
        3 => Point {
            x: right - x,
            y: bottom - y,
        },
        4 => Point { x: y, y: x },
        5 => Point { x: y, y: right - x },
        6 => Point {
            x: bottom - y,
            y: x,
        },
        _ => Point {
            x: bottom - y,
            y: right - x,
        },
    }
}
