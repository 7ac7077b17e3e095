// The six places of a signature, each with the two letters of a point (SGF FF[4], point values) or
// with `??`.
ghost use Rattle.std.specs.Prelude.{◌≡◌, ◌≢◌, ◌<◌, ℕ, Option, Some, IfSome, IfNone, length};
ghost use Rattle.kb_geometry.specs.declared.shape.Point.{Point};
ghost use Rattle.game_tree.specs.Value.{IsCoordinate};
ghost use Rattle.dyer_signature.specs.Signatures.{IsPair, TellsAt};

use crate::Signature;
use kb_geometry::Point;

// How many places there are.
pub(crate) const PLACES: usize = 6;

// The letter of a column or row.
fn letter(coordinate: u8) -> u8
    requires { coordinate < 52 }
    ensures { IsCoordinate result coordinate }
{
    if coordinate < 26 {
        b'a' + coordinate
    } else {
        b'A' + (coordinate - 26)
    }
}

// The column or row that a letter names.
fn coordinate(letter: u8) -> Option<u8>
    ensures some { IfSome result (λ n. IsCoordinate letter n) }
    ensures none { IfNone result ((n : ℕ) → ¬ IsCoordinate letter n) }
{
    match letter {
        b'a'..=b'z' => Some(letter - b'a'),
        b'A'..=b'Z' => Some(letter - b'A' + 26),
        _ => None,
    }
}

// The point that two bytes tell, if they tell one.
fn point_of(column: u8, row: u8) -> Option<Point>
    ensures { (point : Option Point) → IsPair point column row → result ≡ point }
{
    Some(Point {
        x: coordinate(column)?,
        y: coordinate(row)?,
    })
}

// The point at a place, if there is one.
pub(crate) fn point_at(signature: &Signature, place: usize) -> Option<Point>
    requires { place < 6 }
    ensures { (point : Option Point) → TellsAt signature.now.bytes place point → result ≡ point }
{
    point_of(signature.bytes[2 * place], signature.bytes[2 * place + 1])
}

// The signature with a point put at a place.
pub(crate) fn with_point(signature: Signature, place: usize, point: Point) -> Signature
    requires place { place < 6 }
    requires letters { (point.x < 52) × (point.y < 52) }
    ensures twelve { length result.bytes ≡ 12 }
    ensures here { TellsAt result.bytes place (Some point) }
    ensures others { (other : ℕ) (told : Option Point) → other < 6 → other ≢ place →
        TellsAt signature.bytes other told → TellsAt result.bytes other told }
{
    let mut bytes = signature.bytes;
    bytes[2 * place] = letter(point.x);
    bytes[2 * place + 1] = letter(point.y);
    Signature { bytes }
}
