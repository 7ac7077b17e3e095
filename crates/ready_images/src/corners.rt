// The corners that placements cover, and the numbers that their cells have there.
ghost use Rattle.std.specs.Prelude.{
  ◌≡◌,
  ◌<◌,
  ◌≤◌,
  ◌+◌,
  ◌↔◌,
  ◌⊎◌,
  ℕ,
  IfOk,
  IfSome,
  IsNone,
  IsTrue,
  OnOk,
  length,
};
ghost use Rattle.kb_geometry.specs.Board.{IsOnBoard};
ghost use Rattle.kb_geometry.specs.Symmetry.{number_of_symmetry};
ghost use Rattle.pattern_images.specs.ImageList.{placement_at};
ghost use Rattle.ready_images.specs.Corners.{
  CoversCorner,
  HasCorners,
  IsCornerNumber,
  IsExact,
  cell_over,
  digit_of,
  frame_point,
};
ghost use Rattle.ready_images.specs.StoredCorners.{AreCornersTo, corner_at};
ghost use Rattle.ready_images.specs.declared.corner_number.CornerNumber.{CornerNumber};
ghost use Rattle.std.specs.List.Sorted.{IsNonDecreasingBy};

use crate::corner_number::CornerNumber;
use kb_geometry::{NoMemory, Point, Shape, Symmetry, apply};
use pattern_images::{Images, PatternCell};
use std::alloc::Global;

// How many corners a board has.
const CORNERS: u8 = 4;

// How many columns and rows a corner has.
const SIDE: u8 = 6;

// How many places the frame of a corner has: its columns times its rows.
const PLACES: u8 = 36;

// The corners that the placements cover, in their order.
pub(crate) fn corners_of(alloc: Global, images: &Images) -> Result<Vec<CornerNumber>, NoMemory>
    requires { length images.now.placements ≤ 65536 }
    ensures { IfOk result (λ corners. AreCornersTo images.now (length images.now.placements) 0
        corners.items) }
{
    let mut corners = Vec::new(alloc);
    if !has_corners(images.shape()) {
        return Ok(corners);
    }
    for i in 0..images.len() {
        add_corners(images, i, &mut corners)?;
    }
    Ok(corners)
}

// Adds the corners that a placement covers.
fn add_corners(images: &Images, i: usize, corners: &mut Vec<CornerNumber>) -> Result<(), NoMemory>
    requires sides { HasCorners images.now.shape }
    requires placement { i < length images.now.placements }
    requires few { i < 65536 }
    requires before { AreCornersTo images.now i 0 corners.old.items }
    ensures { OnOk result (AreCornersTo images.now (i + 1) 0 corners.new.items) }
{
    if !reaches_corner(images, i) {
        return Ok(());
    }
    for corner in 0..CORNERS {
        add_corner(images, i, corner, corners)?;
    }
    Ok(())
}

// Adds a corner, if a placement covers it.
fn add_corner(
    images: &Images,
    i: usize,
    corner: u8,
    corners: &mut Vec<CornerNumber>,
) -> Result<(), NoMemory>
    requires sides { HasCorners images.now.shape }
    requires placement { i < length images.now.placements }
    requires few { i < 65536 }
    requires corner { corner < 4 }
    requires before { AreCornersTo images.now i corner corners.old.items }
    ensures { OnOk result (AreCornersTo images.now i (corner + 1) corners.new.items) }
{
    let Some(number) = corner_number(images, i, corner) else {
        return Ok(());
    };
    corners.push(CornerNumber {
        placement: i as u32,
        corner,
        number,
    })?;
    Ok(())
}

// How many of the corners are of placements with lesser numbers than this one.
pub(crate) fn first_of(corners: &[CornerNumber], placement: u32) -> usize
    requires { IsNonDecreasingBy (λ (c : CornerNumber). c.placement) corners.now }
    ensures most { result ≤ length corners.now }
    ensures before { (k : ℕ) → k < result → (corner_at corners.now k).placement < placement }
    ensures from { (k : ℕ) → result ≤ k → k < length corners.now →
        placement ≤ (corner_at corners.now k).placement }
{
    corners.partition_point(|c| c.placement < placement)
}

// Whether a board of this shape has corners.
fn has_corners(shape: Shape) -> bool
    ensures { IsTrue result ↔ HasCorners shape }
{
    shape.cols() >= SIDE && shape.rows() >= SIDE
}

// Whether a placement reaches a corner of the board. Most don't, and then no cell is looked at.
fn reaches_corner(images: &Images, i: usize) -> bool
    requires sides { HasCorners images.now.shape }
    requires placement { i < length images.now.placements }
    ensures { (corner : ℕ) → corner < 4 →
        CoversCorner images.now.shape (placement_at images.now.placements i) corner →
        IsTrue result }
{
    let shape = images.shape();
    let place = images.place(i);
    if !reaches_side(place.x, place.cols, shape.cols()) {
        return false;
    }
    reaches_side(place.y, place.rows, shape.rows())
}

// Whether so many columns from one on reach the first or the last column of a board; or so rows.
fn reaches_side(from: u8, count: u8, side: u8) -> bool
    requires { from + count ≤ side }
    ensures { IsTrue result ↔ ((from ≡ 0) ⊎ (from + count ≡ side)) }
{
    if from == 0 {
        return true;
    }
    from + count == side
}

/// The number that a corner of the board has where it has the cells of a placement, if the placement
/// covers it with empty, black and white cells alone. On a board with a side below 6 there is no
/// corner.
pub fn number_of_corner(images: &Images, i: usize, corner: u8) -> Option<u64>
    requires placement { i < length images.now.placements }
    requires corner { corner < 4 }
    ensures some { IfSome result
        (IsCornerNumber images.now.shape (placement_at images.now.placements i) corner) }
    ensures none { IsNone result → HasCorners images.now.shape →
        ¬ CoversCorner images.now.shape (placement_at images.now.placements i) corner }
{
    if !has_corners(images.shape()) {
        return None;
    }
    corner_number(images, i, corner)
}

// The number that a corner has where it has the cells of a placement, if the placement covers it with
// empty, black and white cells alone.
fn corner_number(images: &Images, i: usize, corner: u8) -> Option<u64>
    requires sides { HasCorners images.now.shape }
    requires placement { i < length images.now.placements }
    requires corner { corner < 4 }
    ensures some { IfSome result
        (IsCornerNumber images.now.shape (placement_at images.now.placements i) corner) }
    ensures none { IsNone result →
        ¬ CoversCorner images.now.shape (placement_at images.now.placements i) corner }
{
    let shape = images.shape();
    let symmetry = Symmetry::new(corner)?;
    let mut number = 0;
    let mut power = 1;
    for place in 0..PLACES {
        let at = point_on(symmetry, shape, place);
        let Some(digit) = digit(cell_over(images, i, at)) else {
            return None;
        };
        number += digit * power;
        power *= 3;
    }
    Some(number)
}

// The point on a place of a corner's frame. The symmetry with the corner's number moves the frame
// of the upper left corner to the corner.
fn point_on(symmetry: Symmetry, shape: Shape, place: u8) -> Point
    requires corner { number_of_symmetry symmetry < 4 }
    requires place { place < 36 }
    requires sides { HasCorners shape }
    ensures value { result ≡ frame_point (number_of_symmetry symmetry) shape place }
    ensures on_board { IsOnBoard shape result }
{
    let p = Point {
        x: place % SIDE,
        y: place / SIDE,
    };
    apply(symmetry, shape, p)
}

// The cell of a placement over a point; a wildcard where the point isn't in its rectangle.
fn cell_over(images: &Images, i: usize, p: Point) -> PatternCell
    requires { i < length images.now.placements }
    ensures { result ≡ cell_over (placement_at images.now.placements i) p }
{
    let place = images.place(i);
    if p.x < place.x || p.y < place.y {
        return PatternCell::Any;
    }
    let dx = p.x - place.x;
    let dy = p.y - place.y;
    if dx < place.cols && dy < place.rows {
        images.cell(i, dx, dy)
    } else {
        PatternCell::Any
    }
}

// The digit of an empty, black or white cell in a corner's number.
fn digit(cell: PatternCell) -> Option<u64>
    ensures some { IfSome result (λ d. IsExact cell × (d ≡ digit_of cell)) }
    ensures none { IsNone result → ¬ IsExact cell }
{
    match cell {
        PatternCell::Empty => Some(0),
        PatternCell::Black => Some(1),
        PatternCell::White => Some(2),
        PatternCell::NotWhite | PatternCell::NotBlack | PatternCell::Any => None,
    }
}
