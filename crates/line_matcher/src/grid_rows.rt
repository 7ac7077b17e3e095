// The rectangles of cells of the placements, row by row as words.
ghost use Rattle.std.specs.Prelude.{◌≡◌, ◌<◌, [], length, slice_index_or, IfOk, OnOk};
ghost use Rattle.pattern_images.specs.Grid.{cell_in};
ghost use Rattle.pattern_images.specs.ImageList.{grid_at};
ghost use Rattle.line_matcher.specs.Masks.{IsRowTo};
ghost use Rattle.line_matcher.specs.GridRows.{AreGridRows, HaveRowsOf};

use crate::mask::RowMask;
use kb_geometry::NoMemory;
use pattern_images::{Images, PatternCell};
use std::alloc::Global;
use std::marker::Model;

// Where the rows of a rectangle stand in the list of all rows.
#[derive(Clone, Copy, Debug)]
struct RowRange {
    start: usize,
    end: usize,
}

// The rows of rectangles of cells, by the numbers of the rectangles. Contracts see a list of rows
// for each.
#[derive(Debug, Drop)]
pub(crate) struct GridRows {
    ranges: Vec<RowRange>,
    rows: Vec<RowMask>,
}

impl Model for GridRows {
    ghost use Rattle.std.specs.Prelude.{List, map, All, length};
    ghost use Rattle.line_matcher.specs.declared.mask.RowMask.{RowMask};

    ghost Value = { List (List RowMask) };

    ghost use Rattle.line_matcher.specs.StoredRows.{rows_in, IsRangeOf};

    ghost view = { λ g. map (rows_in g.rows.items) g.ranges.items };

    ghost invariant = { λ g. All (IsRangeOf g.rows.items) g.ranges.items };
}

impl GridRows {
    // The rows of all rectangles of cells of these images. The only error is `NoMemory`.
    pub(crate) fn of(alloc: Global, images: &Images) -> Result<Self, NoMemory>
        ensures { IfOk result (AreGridRows images.now.grids) }
    {
        let mut ranges = Vec::new(alloc);
        let mut rows = Vec::new(alloc);
        for class in 0..images.class_count() {
            let start = rows.len();
            add_rows(images, class, &mut rows)?;
            ranges.push(RowRange {
                start,
                end: rows.len(),
            })?;
        }
        Ok(GridRows { ranges, rows })
    }

    // The rows of a rectangle.
    pub(crate) fn rows(&self, class: usize) -> &[RowMask]
        requires { class < length self.now }
        ensures { result.now ≡ slice_index_or self.now class [] }
    {
        let RowRange { start, end } = self.ranges[class];
        &self.rows[start..end]
    }
}

// Adds the rows of a rectangle.
fn add_rows(images: &Images, class: usize, rows: &mut Vec<RowMask>) -> Result<(), NoMemory>
    requires { class < length images.now.grids }
    ensures { OnOk result (HaveRowsOf (grid_at images.now.grids class)
        rows.old.items rows.new.items) }
{
    for dy in 0..images.class_size(class).rows() {
        rows.push(row_mask(images, class, dy))?;
    }
    Ok(())
}

// The row of a rectangle with this number.
fn row_mask(images: &Images, class: usize, dy: u8) -> RowMask
    requires in_range { class < length images.now.grids }
    requires row { dy < (grid_at images.now.grids class).rows }
    ensures { IsRowTo (grid_at images.now.grids class) dy
        (grid_at images.now.grids class).cols result }
{
    let mut row = RowMask::empty();
    for dx in 0..images.class_size(class).cols() {
        row = row.with_cell(dx, cell_of(images, class, dx, dy));
    }
    row
}

// The cell of a rectangle in column dx and row dy.
fn cell_of(images: &Images, class: usize, dx: u8, dy: u8) -> PatternCell
    requires in_range { class < length images.now.grids }
    requires column { dx < (grid_at images.now.grids class).cols }
    requires row { dy < (grid_at images.now.grids class).rows }
    ensures { result ≡ cell_in (grid_at images.now.grids class) dx dy }
{
    let cols = usize::from(images.class_size(class).cols());
    images.class_cells(class)[usize::from(dy) * cols + usize::from(dx)]
}
