// Whether a placement still holds after changes.
ghost use Rattle.std.specs.Prelude.{◌≡◌, ℕ, ◌<◌, ◌⊎◌, ◌↔◌, length, All, IsTrue, Some};
ghost use Rattle.kb_geometry.specs.declared.stone.Change.{Change};
ghost use Rattle.kb_geometry.specs.Board.{point_count};
ghost use Rattle.capture_board.specs.Deltas.{node_count, parent_of};
ghost use Rattle.pattern_images.specs.Grid.{cell_in};
ghost use Rattle.pattern_images.specs.Holds.{Allows};
ghost use Rattle.pattern_images.specs.ImageList.{IsPlaceOf, IsPlacedOn, placement_at};
ghost use Rattle.pattern_images.specs.Placements.{Placement};
ghost use Rattle.pattern_occurrences.specs.Occurrences.{HoldsAt};
ghost use Rattle.continuation_table.specs.Descending.{
  AllowsAt,
  AllowsChange,
  AreAllowed,
  IsInPlace,
  IsSpan,
};

use capture_board::NodeDeltas;
use kb_geometry::{Cell, Change, Point, Shape};
use pattern_images::{Images, Place};

// Numbers of points of the board, from the first to the last one.
#[derive(Clone, Copy)]
pub(crate) struct Span {
    pub(crate) first: u16,
    pub(crate) last: u16,
}

// The numbers of the first and the last point in the rectangle of a place. Those of its other points
// lie between them.
pub(crate) fn span_of(shape: Shape, place: Place) -> Span
    requires { (placement : Placement) × IsPlaceOf placement place × IsPlacedOn shape placement }
    ensures { (placement : Placement) → IsPlaceOf placement place →
        IsSpan shape placement result.first result.last }
{
    Span {
        first: shape.number(Point {
            x: place.x,
            y: place.y,
        }),
        last: shape.number(Point {
            x: place.x + (place.cols - 1),
            y: place.y + (place.rows - 1),
        }),
    }
}

// Whether the point lies in the rectangle of a place.
pub(crate) fn covers(place: Place, p: Point) -> bool
    ensures { IsTrue result ↔ IsInPlace place p }
{
    p.x >= place.x && p.x - place.x < place.cols && p.y >= place.y && p.y - place.y < place.rows
}

// Whether a number lies outside a span.
fn is_outside(span: Span, number: u16) -> bool
    ensures { IsTrue result ↔ ((number < span.first) ⊎ (span.last < number)) }
{
    number < span.first || number > span.last
}

// Whether a placement still holds at a node. It is known to hold at the parent, and at the node itself
// if that stands before `held_to`. The place and the span are those of the placement.
pub(crate) fn still_holds(
    deltas: &NodeDeltas,
    images: &Images,
    i: usize,
    place: Place,
    span: Span,
    held_to: u32,
    node: u32,
) -> bool
    requires shape { images.now.shape ≡ deltas.now.shape }
    requires placement { i < length images.now.placements }
    requires place { IsPlaceOf (placement_at images.now.placements i) place }
    requires placed { IsPlacedOn images.now.shape (placement_at images.now.placements i) }
    requires span { IsSpan images.now.shape (placement_at images.now.placements i) span.first
        span.last }
    requires node { node < node_count deltas.now }
    requires held_to { node < held_to →
        HoldsAt deltas.now (placement_at images.now.placements i) node }
    ensures { (above : ℕ) → parent_of deltas.now node ≡ Some above →
        HoldsAt deltas.now (placement_at images.now.placements i) above →
        (IsTrue result ↔ HoldsAt deltas.now (placement_at images.now.placements i) node) }
{
    if node < held_to {
        return true;
    }
    are_allowed(images, i, place, span, deltas.changes(node))
}

// Whether a placement allows the new cells of all changes.
fn are_allowed(images: &Images, i: usize, place: Place, span: Span, changes: &[Change]) -> bool
    requires placement { i < length images.now.placements }
    requires place { IsPlaceOf (placement_at images.now.placements i) place }
    requires span { IsSpan images.now.shape (placement_at images.now.placements i) span.first
        span.last }
    requires on_board { All (λ (c : Change). c.point < point_count images.now.shape) changes.now }
    ensures { IsTrue result ↔
        AreAllowed images.now.shape (placement_at images.now.placements i) changes.now }
{
    for change in changes {
        if !allows_change(images, i, place, span, *change) {
            return false;
        }
    }
    true
}

// Whether a placement allows the new cell of a change. Outside the span the number alone tells that
// it does, and its column and row are not made.
fn allows_change(images: &Images, i: usize, place: Place, span: Span, change: Change) -> bool
    requires placement { i < length images.now.placements }
    requires place { IsPlaceOf (placement_at images.now.placements i) place }
    requires span { IsSpan images.now.shape (placement_at images.now.placements i) span.first
        span.last }
    requires on_board { change.point < point_count images.now.shape }
    ensures { IsTrue result ↔
        AllowsChange images.now.shape (placement_at images.now.placements i) change }
{
    if is_outside(span, change.point) {
        return true;
    }
    let p = images.shape().point(change.point);
    allows_at(images, i, place, p, change.new)
}

// Whether a placement allows this cell of the board at a point.
fn allows_at(images: &Images, i: usize, place: Place, p: Point, cell: Cell) -> bool
    requires placement { i < length images.now.placements }
    requires place { IsPlaceOf (placement_at images.now.placements i) place }
    ensures { IsTrue result ↔ AllowsAt (placement_at images.now.placements i) p cell }
{
    if !covers(place, p) {
        return true;
    }
    allows_inside(images, i, p.x - place.x, p.y - place.y, cell)
}

// Whether the cell in this column and row of a placement allows a cell of the board. It is called
// at few nodes, and stays out of the loop that passes the others.
#[inline(never)]
fn allows_inside(images: &Images, i: usize, dx: u8, dy: u8, cell: Cell) -> bool
    requires placement { i < length images.now.placements }
    requires column { dx < (placement_at images.now.placements i).grid.cols }
    requires row { dy < (placement_at images.now.placements i).grid.rows }
    ensures { IsTrue result ↔ Allows (cell_in (placement_at images.now.placements i).grid dx dy) cell }
{
    images.cell(i, dx, dy).allows(cell)
}
