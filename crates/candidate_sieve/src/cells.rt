// The cells of a placement against the sets of a game.
ghost use Rattle.std.specs.Prelude.{◌≡◌, ◌≢◌, ◌+◌, ◌<◌, ◌↔◌, ℕ, IsTrue, length, slice_index_or};
ghost use Rattle.pattern_images.specs.declared.cell.PatternCell.TheVariants as pattern;
ghost use Rattle.pattern_images.specs.Grid.{cell_in};
ghost use Rattle.pattern_images.specs.ImageList.{grid_at, placement_at};
ghost use Rattle.candidate_sieve.specs.Candidates.{HasAllowed, MeetsCells};

use final_index::EverSets;
use pattern_images::{Images, PatternCell, Place};

// Whether the sets meet the cells of a placement. The first cell that they don't meet is the last
// one that is looked at.
pub(crate) fn meets_cells(ever: &EverSets, images: &Images, i: usize) -> bool
    requires { i < length images.now.placements }
    ensures { IsTrue result
        ↔ MeetsCells images.now.shape ever.now (placement_at images.now.placements i) }
{
    let class = images.class_of(i);
    let Place { x, y, rows, .. } = images.place(i);
    let cols = u16::from(images.shape().cols());
    let first = u16::from(y) * cols + u16::from(x);
    for dy in 0..rows {
        if !meets_row(
            ever,
            row_of(images, class, dy),
            first + u16::from(dy) * cols,
        ) {
            return false;
        }
    }
    true
}

// Whether the sets meet a row of cells, of which the first lies on the point `start`.
fn meets_row(ever: &EverSets, cells: &[PatternCell], start: u16) -> bool
    requires { start + length cells.now < 65536 }
    ensures { IsTrue result ↔ ((k : ℕ) → k < length cells.now →
        slice_index_or cells.now k pattern.Any ≢ pattern.Any →
        HasAllowed ever.now (start + k) (slice_index_or cells.now k pattern.Any)) }
{
    let mut point = start;
    for cell in cells {
        if !meets_cell(ever, *cell, point) {
            return false;
        }
        point += 1;
    }
    true
}

// Whether the sets have a point with a cell that the pattern's cell allows. A wildcard asks for
// nothing.
fn meets_cell(ever: &EverSets, cell: PatternCell, point: u16) -> bool
    ensures { IsTrue result ↔ (cell ≢ pattern.Any → HasAllowed ever.now point cell) }
{
    match cell {
        PatternCell::Empty => ever.empty.contains(point),
        PatternCell::Black => ever.black.contains(point),
        PatternCell::White => ever.white.contains(point),
        PatternCell::NotWhite => ever.black.contains(point) || ever.empty.contains(point),
        PatternCell::NotBlack => ever.white.contains(point) || ever.empty.contains(point),
        PatternCell::Any => true,
    }
}

// The cells of a row of a class.
pub(crate) fn row_of(images: &Images, class: usize, dy: u8) -> &[PatternCell]
    requires in_range { class < length images.now.grids }
    requires row { dy < (grid_at images.now.grids class).rows }
    ensures count { length result.now ≡ (grid_at images.now.grids class).cols }
    ensures cells { (dx : ℕ) → dx < (grid_at images.now.grids class).cols →
        slice_index_or result.now dx pattern.Any ≡ cell_in (grid_at images.now.grids class) dx dy }
{
    let cols = usize::from(images.class_size(class).cols());
    let start = usize::from(dy) * cols;
    &images.class_cells(class)[start..start + cols]
}
