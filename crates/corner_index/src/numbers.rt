// The numbers of the corners at each node, from those at its parent and what the node changes.
ghost use Rattle.std.specs.Prelude.{◌≡◌, ◌<◌, ◌↔◌, ℕ, IfOk, IfSome, IsTrue, Some, slice_set};
ghost use Rattle.kb_geometry.specs.Board.{IsOnBoard, point_count};
ghost use Rattle.kb_geometry.specs.Capture.{Position};
ghost use Rattle.kb_geometry.specs.Symmetry.{moved};
ghost use Rattle.capture_board.specs.Deltas.{node_count, parent_of, position_at, position_where};
ghost use Rattle.corner_index.specs.Corners.{HasCorners, corner_number, digit_of};
ghost use Rattle.corner_index.specs.Keys.{
  AreNumbersOf,
  AreNumbersOn,
  AreNumbersTo,
  StandBefore,
  StandsBefore,
  of_corner,
  point_on,
};

use capture_board::NodeDeltas;
use kb_geometry::{Cell, Change, NoMemory, Point, Shape};
use std::alloc::Global;

// How many columns and rows a corner has.
const SIDE: u8 = 6;

// The numbers of the four corners in a position.
#[derive(Clone, Copy, Debug)]
pub(crate) struct CornerNumbers {
    upper_left: u64,
    upper_right: u64,
    lower_left: u64,
    lower_right: u64,
}

impl CornerNumbers {
    ghost use Rattle.std.specs.Prelude.{◌≡◌};
    ghost use Rattle.corner_index.specs.Keys.{number_in};

    // The number of a corner.
    fn of(self, corner: u8) -> u64
        ensures { result ≡ number_in corner self }
    {
        match corner {
            0 => self.upper_left,
            1 => self.upper_right,
            2 => self.lower_left,
            _ => self.lower_right,
        }
    }
}

// The corners of an empty board.
const NO_STONES: CornerNumbers = CornerNumbers {
    upper_left: 0,
    upper_right: 0,
    lower_left: 0,
    lower_right: 0,
};

// The numbers that a corner had, ascending, each once, from those of all corners at the nodes. The
// only error is `NoMemory`.
pub(crate) fn numbers_of(
    alloc: Global,
    deltas: &NodeDeltas,
    nodes: &[CornerNumbers],
    corner: u8,
) -> Result<Vec<u64>, NoMemory>
    requires corner { corner < 4 }
    requires nodes { HasCorners deltas.now.shape →
        AreNumbersTo deltas.now (node_count deltas.now) nodes.now }
    ensures { IfOk result (λ numbers. AreNumbersOf deltas.now corner numbers.items) }
{
    if !has_corners(deltas.shape()) {
        return Ok(Vec::new(alloc));
    }
    let mut numbers = of_corner(alloc, nodes, corner)?;
    // Most numbers are those of the node before.
    numbers.dedup();
    numbers.sort_unstable();
    numbers.dedup();
    Ok(numbers)
}

// The numbers of one corner at the nodes.
fn of_corner(alloc: Global, nodes: &[CornerNumbers], corner: u8) -> Result<Vec<u64>, NoMemory>
    ensures { IfOk result (λ numbers. numbers.items ≡ of_corner corner nodes.now) }
{
    let mut numbers = Vec::with_capacity(alloc, nodes.len())?;
    for node in nodes {
        numbers.push(node.of(corner))?;
    }
    Ok(numbers)
}

// Whether a board of this shape has corners.
fn has_corners(shape: Shape) -> bool
    ensures { IsTrue result ↔ HasCorners shape }
{
    shape.cols() >= SIDE && shape.rows() >= SIDE
}

// The numbers of the corners at the nodes, in their order. There are none on a board without
// corners.
pub(crate) fn numbers_at_nodes(
    alloc: Global,
    deltas: &NodeDeltas,
) -> Result<Vec<CornerNumbers>, NoMemory>
    ensures { IfOk result (λ nodes. HasCorners deltas.now.shape →
        AreNumbersTo deltas.now (node_count deltas.now) nodes.items) }
{
    if !has_corners(deltas.shape()) {
        return Ok(Vec::new(alloc));
    }
    let count = deltas.node_count();
    let mut nodes = Vec::with_capacity(alloc, count as usize)?;
    for n in 0..count {
        let above = numbers_above(deltas, n, &nodes);
        nodes.push(numbers_at(deltas, n, above))?;
    }
    Ok(nodes)
}

// The numbers at the parent of a node, or above the root, by those of the nodes before it.
fn numbers_above(deltas: &NodeDeltas, n: u32, nodes: &[CornerNumbers]) -> CornerNumbers
    requires in_range { n < node_count deltas.now }
    requires numbers { AreNumbersTo deltas.now n nodes.now }
    ensures { AreNumbersOn deltas.now.shape (position_where deltas.now (parent_of deltas.now n))
        result }
{
    match deltas.parent(n) {
        Some(parent) => nodes[parent as usize],
        None => NO_STONES,
    }
}

// The numbers at a node, from those at its parent.
fn numbers_at(deltas: &NodeDeltas, n: u32, above: CornerNumbers) -> CornerNumbers
    requires in_range { n < node_count deltas.now }
    requires sides { HasCorners deltas.now.shape }
    requires above { AreNumbersOn deltas.now.shape
        (position_where deltas.now (parent_of deltas.now n)) above }
    ensures { AreNumbersOn deltas.now.shape (position_at deltas.now n) result }
{
    let shape = deltas.shape();
    let changes = deltas.changes(n);
    let mut numbers = above;
    for change in changes {
        numbers = all_changed(shape, numbers, *change);
    }
    numbers
}

// The numbers after a change, from those before it.
fn all_changed(shape: Shape, numbers: CornerNumbers, change: Change) -> CornerNumbers
    requires sides { HasCorners shape }
    requires point { change.point < point_count shape }
    requires before { (p : Position) × StandBefore shape numbers change p }
    ensures { (p : Position) → StandBefore shape numbers change p →
        AreNumbersOn shape (slice_set p change.point change.new) result }
{
    CornerNumbers {
        upper_left: changed(shape, 0, numbers.upper_left, change),
        upper_right: changed(shape, 1, numbers.upper_right, change),
        lower_left: changed(shape, 2, numbers.lower_left, change),
        lower_right: changed(shape, 3, numbers.lower_right, change),
    }
}

// The number after a change, from that before it. A change is on one place of the corner's frame at
// most.
fn changed(shape: Shape, corner: u8, number: u64, change: Change) -> u64
    requires corner { corner < 4 }
    requires sides { HasCorners shape }
    requires point { change.point < point_count shape }
    requires before { (p : Position) × StandsBefore corner shape number change p }
    ensures { (p : Position) → StandsBefore corner shape number change p →
        result ≡ corner_number corner shape (slice_set p change.point change.new) }
{
    let Some(place) = place_of(shape, corner, change.point) else {
        return number;
    };
    let weight = 3u64.pow(u32::from(place));
    number - digit(change.old) * weight + digit(change.new) * weight
}

// The place of a point in a corner's frame, row by row from 0, if it is there.
fn place_of(shape: Shape, corner: u8, point: u16) -> Option<u8>
    requires corner { corner < 4 }
    requires sides { HasCorners shape }
    requires point { point < point_count shape }
    ensures below { IfSome result (λ place. place < 36) }
    ensures exact { (k : ℕ) → k < 36 → (result ≡ Some k) ↔ (point_on corner shape k ≡ point) }
{
    let at = in_frame(shape, corner, shape.point(point));
    if at.x < SIDE && at.y < SIDE {
        Some(at.y * SIDE + at.x)
    } else {
        None
    }
}

// Where a point of the board stands in a corner's frame.
fn in_frame(shape: Shape, corner: u8, at: Point) -> Point
    requires corner { corner < 4 }
    requires on_board { IsOnBoard shape at }
    ensures { result ≡ moved corner shape at }
{
    let right = shape.cols() - 1;
    let bottom = shape.rows() - 1;
    let Point { x, y } = at;
    match corner {
        0 => at,
        1 => Point { x: right - x, y },
        2 => Point { x, y: bottom - y },
        _ => Point {
            x: right - x,
            y: bottom - y,
        },
    }
}

// The digit of a cell in a number.
fn digit(cell: Cell) -> u64
    ensures { result ≡ digit_of cell }
{
    match cell {
        Cell::Empty => 0,
        Cell::Black => 1,
        Cell::White => 2,
    }
}
