// The placement that has a place, and whether it holds at a node.
ghost use Rattle.std.specs.Prelude.{◌≡◌, ℕ, ◌+◌, ◌<◌, ◌↔◌, length, IsTrue};
ghost use Rattle.capture_board.specs.Deltas.{node_count};
ghost use Rattle.pattern_images.specs.Grid.{cell_in};
ghost use Rattle.pattern_images.specs.Holds.{Allows, number_under};
ghost use Rattle.pattern_images.specs.ImageList.{IsPlaceOf, placement_at};
ghost use Rattle.pattern_occurrences.specs.Occurrences.{HoldsAt};
ghost use Rattle.continuation_table.specs.Places.{AreBeforePlace, IsPlaceBefore};
ghost use Rattle.continuation_table.specs.Rebuilding.{known_cell};

use crate::known_cells::KnownCells;
use capture_board::NodeDeltas;
use kb_geometry::Point;
use pattern_images::{Images, Place};

/// The number of the placement with this place, where there is one. In each case it is how many
/// placements have a place before this one, by row, then by column, then by label. So where no
/// placement has the place, the number is that of another one, or the count of placements. It takes
/// as many comparisons as the logarithm of that count.
pub fn number_of_place(images: &Images, place: Place) -> usize
    ensures value { (i : ℕ) → i < length images.now.placements →
        IsPlaceOf (placement_at images.now.placements i) place → result ≡ i }
    ensures before { AreBeforePlace images.now.placements place result }
{
    let mut from = 0;
    let mut to = images.len();
    while from < to {
        let middle = from + (to - from) / 2;
        if is_before(images.place(middle), place) {
            from = middle + 1;
        } else {
            to = middle;
        }
    }
    from
}

// Whether a place comes before another one: by row, then by column, then by label.
fn is_before(a: Place, b: Place) -> bool
    ensures { IsTrue result ↔ IsPlaceBefore a b }
{
    if a.y != b.y {
        return a.y < b.y;
    }
    if a.x != b.x {
        return a.x < b.x;
    }
    a.label.number() < b.label.number()
}

// Whether a placement holds at a node.
pub(crate) fn holds_at(deltas: &NodeDeltas, images: &Images, i: usize, node: u32) -> bool
    requires shape { images.now.shape ≡ deltas.now.shape }
    requires placement { i < length images.now.placements }
    requires node { node < node_count deltas.now }
    ensures { IsTrue result ↔ HoldsAt deltas.now (placement_at images.now.placements i) node }
{
    let known = KnownCells::at(deltas, node);
    let place = images.place(i);
    for dy in 0..place.rows {
        if !row_holds(images, i, &known, dy) {
            return false;
        }
    }
    true
}

// Whether the cells in a row of a placement allow those that are known.
fn row_holds(images: &Images, i: usize, known: &KnownCells, dy: u8) -> bool
    requires placement { i < length images.now.placements }
    requires row { dy < (placement_at images.now.placements i).grid.rows }
    ensures { IsTrue result ↔ ((dx : ℕ) → dx < (placement_at images.now.placements i).grid.cols →
        Allows (cell_in (placement_at images.now.placements i).grid dx dy)
        (known_cell known.now.cells
        (number_under images.now.shape (placement_at images.now.placements i) dx dy))) }
{
    let shape = images.shape();
    let place = images.place(i);
    for dx in 0..place.cols {
        let point = shape.number(Point {
            x: place.x + dx,
            y: place.y + dy,
        });
        if !images.cell(i, dx, dy).allows(known.cell(point)) {
            return false;
        }
    }
    true
}
