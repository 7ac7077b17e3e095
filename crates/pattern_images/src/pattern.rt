// Patterns: rectangles of cells.
ghost use Rattle.std.specs.Prelude.{◌≡◌, ◌<◌, ◌*◌, ◌↔◌, length, IfOk, IsSome, IfSome};
ghost use Rattle.kb_geometry.specs.Side.{IsSide};

use crate::{CellList, PatternCell};
use kb_geometry::{MAX_SIDE, NoMemory, Shape};
use std::alloc::Global;

/// A pattern: a rectangle of cells, row by row from the upper left, with 1 to [`MAX_SIDE`] columns
/// and as many rows.
#[derive(Debug, Drop)]
pub struct Pattern {
    cols: u8,
    rows: u8,
    cells: CellList,
    pub ghost in_range: { IsSide cols × IsSide rows },
    pub ghost filled: { length cells ≡ cols * rows },
}

impl Pattern {
    ghost use Rattle.kb_geometry.specs.Board.{cols_of, rows_of};
    ghost use Rattle.pattern_images.specs.Grid.{cell_in};
    ghost use Rattle.pattern_images.specs.Pattern.{grid_of};

    /// The pattern of these cells. `None` exactly where a side is none of 1 to [`MAX_SIDE`], or
    /// where there are not `cols * rows` cells.
    pub fn new(cols: u8, rows: u8, cells: Vec<PatternCell>) -> Option<Self>
        ensures fits { IsSome result
            ↔ (IsSide cols × IsSide rows × (length cells.items ≡ cols * rows)) }
        ensures made { IfSome result (λ pattern. grid_of pattern
            ≡ record { cols = cols; rows = rows; cells = cells.items }) }
    {
        let sides = 1..=MAX_SIDE;
        if !sides.contains(&cols) || !sides.contains(&rows) {
            return None;
        }
        if cells.len() != usize::from(cols) * usize::from(rows) {
            return None;
        }
        Some(Pattern {
            cols,
            rows,
            cells: CellList::new(cells),
        })
    }

    /// How many columns.
    pub fn cols(&self) -> u8
        ensures value { result ≡ (grid_of self.now).cols }
        ensures side { IsSide result }
    {
        self.cols
    }

    /// How many rows.
    pub fn rows(&self) -> u8
        ensures value { result ≡ (grid_of self.now).rows }
        ensures side { IsSide result }
    {
        self.rows
    }

    /// Its columns and rows.
    pub fn size(&self) -> Shape
        ensures cols { cols_of result ≡ (grid_of self.now).cols }
        ensures rows { rows_of result ≡ (grid_of self.now).rows }
    {
        let Some(size) = Shape::new(self.cols, self.rows) else {
            unreachable!()
        };
        size
    }

    /// The cell in column x and row y, both from 0.
    pub fn cell(&self, x: u8, y: u8) -> PatternCell
        requires column { x < (grid_of self.now).cols }
        requires row { y < (grid_of self.now).rows }
        ensures { result ≡ cell_in (grid_of self.now) x y }
    {
        let at = usize::from(y) * usize::from(self.cols) + usize::from(x);
        self.cells.as_slice()[at]
    }

    // Its cells, row by row.
    pub(crate) fn cells(&self) -> &[PatternCell]
        ensures value { result.now ≡ (grid_of self.now).cells }
        ensures count { length result.now ≡ (grid_of self.now).cols * (grid_of self.now).rows }
    {
        self.cells.as_slice()
    }

    /// An equal pattern. The only error is `NoMemory`.
    pub fn copy(&self, alloc: Global) -> Result<Pattern, NoMemory>
        ensures { IfOk result (λ copied. copied ≡ self.now) }
    {
        let cells = self.cells.copy(alloc)?;
        Ok(Pattern {
            cols: self.cols,
            rows: self.rows,
            cells,
        })
    }
}
