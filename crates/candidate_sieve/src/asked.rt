// The points and cells that the placements of a query ask for.
ghost use Rattle.std.specs.Prelude.{◌+◌, ◌<◌, ◌≤◌, ◌↔◌, IsTrue, Contains, length};
ghost use Rattle.kb_bits.specs.declared.bit_board.TheConstants.{BOUND};
ghost use Rattle.pattern_images.specs.ImageList.{placement_at};
ghost use Rattle.candidate_sieve.specs.NodeCandidates.{AreAsked, AsksThere, noted};
ghost use Rattle.candidate_sieve.specs.Noting.{AreNoted, AsksInRow, AsksOn};

use crate::cells::row_of;
use kb_bits::BitBoard;
use kb_geometry::Cell;
use pattern_images::{Images, PatternCell, Place};

/// The points on which some placement has a cell that isn't a wildcard, each with the cells that it
/// allows there. Made once for the images of a query, they serve all games on boards of the shape.
#[derive(Debug, Drop)]
pub struct AskedPoints {
    // The points on which an empty point is allowed.
    empty: BitBoard,
    // The points on which a black stone is allowed.
    black: BitBoard,
    // The points on which a white stone is allowed.
    white: BitBoard,
}

impl AskedPoints {
    /// The points of these placements. Nothing is allocated.
    pub fn of(images: &Images) -> AskedPoints
        ensures { AreAsked images.now.shape images.now.placements result }
    {
        let mut points = AskedPoints {
            empty: BitBoard::empty(),
            black: BitBoard::empty(),
            white: BitBoard::empty(),
        };
        for i in 0..images.len() {
            points.add_placement(images, i);
        }
        points
    }

    // Whether the point was noted with the cell.
    pub(crate) fn has(&self, point: u16, cell: Cell) -> bool
        ensures { IsTrue result ↔ Contains (noted self.now cell) point }
    {
        match cell {
            Cell::Empty => self.empty.contains(point),
            Cell::Black => self.black.contains(point),
            Cell::White => self.white.contains(point),
        }
    }

    // Notes the points of a placement.
    fn add_placement(&mut self, images: &Images, i: usize)
        requires { i < length images.now.placements }
        ensures { AreNoted self.old
            (AsksThere images.now.shape (placement_at images.now.placements i)) self.new }
    {
        let class = images.class_of(i);
        let Place { x, y, rows, .. } = images.place(i);
        let cols = u16::from(images.shape().cols());
        let first = u16::from(y) * cols + u16::from(x);
        for dy in 0..rows {
            self.add_row(row_of(images, class, dy), first + u16::from(dy) * cols);
        }
    }

    // Notes the points of a row of cells, of which the first lies on the point `start`.
    fn add_row(&mut self, cells: &[PatternCell], start: u16)
        requires { start + length cells.now ≤ BOUND }
        ensures { AreNoted self.old (AsksInRow cells.now start) self.new }
    {
        let mut point = start;
        for cell in cells {
            self.add_cell(*cell, point);
            point += 1;
        }
    }

    // Notes the point of a cell.
    fn add_cell(&mut self, cell: PatternCell, point: u16)
        requires { point < BOUND }
        ensures { AreNoted self.old (AsksOn cell point) self.new }
    {
        match cell {
            PatternCell::Empty => self.empty.insert(point),
            PatternCell::Black => self.black.insert(point),
            PatternCell::White => self.white.insert(point),
            PatternCell::NotWhite => {
                self.empty.insert(point);
                self.black.insert(point);
            }
            PatternCell::NotBlack => {
                self.empty.insert(point);
                self.white.insert(point);
            }
            PatternCell::Any => {}
        }
    }
}
