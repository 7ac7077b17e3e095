// Rectangles of pattern cells, all in one list.
ghost use Rattle.std.specs.Prelude.{
  ◌≡◌,
  ◌↔◌,
  IsTrue,
  ◌<◌,
  ◌*◌,
  ◌++◌,
  ◌∷◌,
  [],
  length,
  map,
  All,
  IfOk,
  IfSome,
  IsNone,
  Contains,
};
ghost use Rattle.kb_geometry.specs.Board.{cols_of, rows_of, point_count};

use crate::PatternCell;
use kb_geometry::Shape;
use std::alloc::{AllocError, Global};
use std::marker::Model;

// A rectangle of cells: its size, and where its cells begin in the list of all cells.
#[derive(Clone, Copy, Debug)]
pub(crate) struct StoredGrid {
    size: Shape,
    start: usize,
}

// Rectangles of pattern cells by their numbers. Contracts see them as a list.
#[derive(Debug, Drop)]
pub(crate) struct Grids {
    stored: Vec<StoredGrid>,
    cells: Vec<PatternCell>,
}

impl Model for Grids {
    ghost use Rattle.std.specs.Prelude.{◌≤◌, List, length, map, All};
    ghost use Rattle.pattern_images.specs.Grid.{Grid};

    ghost Value = { List Grid };

    ghost use Rattle.pattern_images.specs.Stored.{end_of, stored_grid};

    ghost view = { λ g. map (stored_grid g.cells.items) g.stored.items };

    ghost invariant = { λ g. All (λ s. end_of s ≤ length g.cells.items) g.stored.items };
}

impl Grids {
    ghost use Rattle.pattern_images.specs.Grid.{Grid};
    ghost use Rattle.pattern_images.specs.ImageList.{grid_at};
    ghost use Rattle.pattern_images.specs.Turns.{HasGrown};

    pub(crate) fn new(alloc: Global) -> Self
        ensures { result ≡ [] }
    {
        Grids {
            stored: Vec::new(alloc),
            cells: Vec::new(alloc),
        }
    }

    pub(crate) fn len(&self) -> usize
        ensures { result ≡ length self.now }
    {
        self.stored.len()
    }

    // The size of a rectangle.
    pub(crate) fn size(&self, number: usize) -> Shape
        requires { number < length self.now }
        ensures cols { cols_of result ≡ (grid_at self.now number).cols }
        ensures rows { rows_of result ≡ (grid_at self.now number).rows }
    {
        self.stored[number].size
    }

    // The cells of a rectangle, row by row.
    pub(crate) fn cells(&self, number: usize) -> &[PatternCell]
        requires { number < length self.now }
        ensures value { result.now ≡ (grid_at self.now number).cells }
        ensures count { length result.now
            ≡ (grid_at self.now number).cols * (grid_at self.now number).rows }
    {
        let StoredGrid { size, start } = self.stored[number];
        &self.cells[start..start + usize::from(size.count())]
    }

    // The number of the rectangle of this size with these cells. `None` where there is none.
    pub(crate) fn find(&self, size: Shape, cells: &[PatternCell]) -> Option<usize>
        ensures found { IfSome result (λ k. (k < length self.now)
            × (grid_at self.now k ≡ record {
              cols = cols_of size;
              rows = rows_of size;
              cells = cells.now;
            })) }
        ensures none { IsNone result →
            ¬ Contains self.now (record {
              cols = cols_of size;
              rows = rows_of size;
              cells = cells.now;
            }) }
    {
        for number in 0..self.len() {
            if self.is(number, size, cells) {
                return Some(number);
            }
        }
        None
    }

    // Whether this rectangle has this size and these cells.
    fn is(&self, number: usize, size: Shape, cells: &[PatternCell]) -> bool
        requires { number < length self.now }
        ensures { IsTrue result ↔ (grid_at self.now number
            ≡ record { cols = cols_of size; rows = rows_of size; cells = cells.now }) }
    {
        self.size(number) == size && self.cells(number) == cells
    }

    // The number of the rectangle of this size with these cells, which is added if it isn't there.
    pub(crate) fn number(&mut self, size: Shape, cells: &[PatternCell]) -> Result<usize, AllocError>
        requires { length cells.now ≡ point_count size }
        ensures there { IfOk result (λ k. (k < length self.new)
            × (grid_at self.new k ≡ record {
              cols = cols_of size;
              rows = rows_of size;
              cells = cells.now;
            })) }
        ensures grown { IfOk result (λ _. HasGrown self.old self.new) }
    {
        if let Some(number) = self.find(size, cells) {
            return Ok(number);
        }
        let number = self.len();
        self.push(size, cells)?;
        Ok(number)
    }

    // One more rectangle, of this size and with these cells.
    pub(crate) fn push(&mut self, size: Shape, cells: &[PatternCell]) -> Result<(), AllocError>
        requires { length cells.now ≡ point_count size }
        ensures { IfOk result (λ _. self.new
            ≡ self.old ++ record { cols = cols_of size; rows = rows_of size; cells = cells.now }
            ∷ []) }
    {
        let start = self.cells.len();
        self.cells.extend_from_slice(cells)?;
        self.stored.push(StoredGrid { size, start })?;
        Ok(())
    }
}
