// The neighbours of a point of a board.
ghost use Rattle.std.specs.Prelude.{◌≡◌, ℕ, ◌<◌, ◌↔◌, ◌+◌, ◌-◌, length, Contains};
ghost use Rattle.kb_geometry.specs.Board.{point_count, AreNeighbours};

use kb_geometry::{Point, Shape};

/// The neighbours of the point with this number: left, right, up and down, each where it is on the
/// board.
pub fn neighbours(shape: Shape, number: u16) -> [Option<u16>; 4]
    requires { number < point_count shape }
    ensures four { length result ≡ 4 }
    ensures all { (q : ℕ) → Contains result (Some q) ↔ AreNeighbours shape number q }
{
    let Point { x, y } = shape.point(number);
    let left = if x > 0 {
        Some(shape.number(Point { x: x - 1, y }))
    } else {
        None
    };
    let right = if x + 1 < shape.cols() {
        Some(shape.number(Point { x: x + 1, y }))
    } else {
        None
    };
    let up = if y > 0 {
        Some(shape.number(Point { x, y: y - 1 }))
    } else {
        None
    };
    let down = if y + 1 < shape.rows() {
        Some(shape.number(Point { x, y: y + 1 }))
    } else {
        None
    };
    [left, right, up, down]
}
