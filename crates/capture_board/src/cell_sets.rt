// The cells of a board by their points, and the points of the board by their cells.
ghost use Rattle.std.specs.Prelude.{◌≡◌, ◌≢◌, ℕ, ◌<◌, ◌⊎◌, ◌↔◌, slice_set, All, Contains};
ghost use Rattle.kb_geometry.specs.declared.stone.Cell.{Cell};
ghost use Rattle.kb_geometry.specs.declared.stone.Change.{Change};
ghost use Rattle.kb_geometry.specs.Board.{point_count};
ghost use Rattle.kb_geometry.specs.Capture.{cell_at, empty_board};
ghost use Rattle.capture_board.specs.Changes.{with_changes};
ghost use Rattle.capture_board.specs.StoredWalking.{points_in, with_old_cells};

use crate::board::{ROOM, empty_cells};
use kb_bits::{BOUND, BitBoard};
use kb_geometry::{Cell, Change, MAX_POINTS, Shape};
use std::marker::Model;

// Each point of a board may be in a set.
const _: () = prove!(MAX_POINTS <= BOUND);

// The cells of a board, and for each cell the set of the points that have it.
#[derive(Debug, Drop)]
pub(crate) struct CellSets {
    shape: Shape,
    cells: [Cell; ROOM],
    points: PointsByCell,
}

// For each cell a set of points.
#[derive(Debug, Drop)]
struct PointsByCell {
    empty: BitBoard,
    black: BitBoard,
    white: BitBoard,
}

impl Model for CellSets {
    ghost use Rattle.std.specs.Prelude.{take};
    ghost use Rattle.kb_geometry.specs.Board.{point_count};
    ghost use Rattle.capture_board.specs.Board.{ShapedPosition};
    ghost use Rattle.capture_board.specs.StoredWalking.{ArePointsOf};

    ghost Value = { ShapedPosition };

    ghost view = { λ b. record { shape = b.shape; position = take (point_count b.shape) b.cells } };

    ghost invariant = { λ b. ArePointsOf (point_count b.shape) b.cells b.points };
}

impl CellSets {
    // The board of this shape without a stone.
    pub(crate) fn empty(shape: Shape) -> CellSets
        ensures shape { result.shape ≡ shape }
        ensures position { result.position ≡ empty_board shape }
    {
        CellSets {
            shape,
            cells: [Cell::Empty; ROOM],
            points: PointsByCell {
                empty: BitBoard::below(shape.count()),
                black: BitBoard::empty(),
                white: BitBoard::empty(),
            },
        }
    }

    // Makes it the board of this shape without a stone.
    pub(crate) fn reset(&mut self, shape: Shape)
        ensures shape { self.new.shape ≡ shape }
        ensures position { self.new.position ≡ empty_board shape }
    {
        self.shape = shape;
        empty_cells(&mut self.cells, shape);
        self.points.empty = BitBoard::below(shape.count());
        self.points.black.clear();
        self.points.white.clear();
    }

    // What stands on a point.
    pub(crate) fn cell(&self, point: u16) -> Cell
        requires { point < point_count self.now.shape }
        ensures { result ≡ cell_at self.now.position point }
    {
        self.cells[usize::from(point)]
    }

    // The points that have a cell.
    pub(crate) fn points(&self, cell: Cell) -> &BitBoard
        ensures { (p : ℕ) → Contains result.now p
            ↔ ((p < point_count self.now.shape) × (cell_at self.now.position p ≡ cell)) }
    {
        match cell {
            Cell::Empty => &self.points.empty,
            Cell::Black => &self.points.black,
            Cell::White => &self.points.white,
        }
    }

    // Makes these changes, one after another.
    pub(crate) fn make(&mut self, changes: &[Change])
        requires { All (λ (c : Change). c.point < point_count self.old.shape) changes.now }
        ensures { self.new ≡ record {
          shape = self.old.shape;
          position = with_changes self.old.position changes.now;
        } }
    {
        for change in changes {
            self.put(change.point, change.new);
        }
    }

    // Puts the old cell of each of these changes back, one after another.
    pub(crate) fn take_back(&mut self, changes: &[Change])
        requires { All (λ (c : Change). c.point < point_count self.old.shape) changes.now }
        ensures { self.new ≡ record {
          shape = self.old.shape;
          position = with_old_cells self.old.position changes.now;
        } }
    {
        for change in changes {
            self.put(change.point, change.old);
        }
    }

    // Puts a cell on a point.
    fn put(&mut self, point: u16, cell: Cell)
        requires { point < point_count self.old.shape }
        ensures { self.new ≡ record {
          shape = self.old.shape;
          position = slice_set self.old.position point cell;
        } }
    {
        let old = self.cells[usize::from(point)];
        self.cells[usize::from(point)] = cell;
        self.points.remove(old, point);
        self.points.insert(cell, point);
    }
}

impl PointsByCell {
    // Takes a point out of the set of a cell.
    fn remove(&mut self, cell: Cell, point: u16)
        requires { point < MAX_POINTS }
        ensures { (c : Cell) (p : ℕ) → Contains (points_in self.new c) p
            ↔ (Contains (points_in self.old c) p × ((c ≢ cell) ⊎ (p ≢ point))) }
    {
        match cell {
            Cell::Empty => self.empty.remove(point),
            Cell::Black => self.black.remove(point),
            Cell::White => self.white.remove(point),
        }
    }

    // Adds a point to the set of a cell.
    fn insert(&mut self, cell: Cell, point: u16)
        requires { point < MAX_POINTS }
        ensures { (c : Cell) (p : ℕ) → Contains (points_in self.new c) p
            ↔ (Contains (points_in self.old c) p ⊎ ((c ≡ cell) × (p ≡ point))) }
    {
        match cell {
            Cell::Empty => self.empty.insert(point),
            Cell::Black => self.black.insert(point),
            Cell::White => self.white.insert(point),
        }
    }
}
