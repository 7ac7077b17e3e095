// A matcher: the placements of a query on a board, made ready to be tested.
ghost use Rattle.std.specs.Prelude.{◌≡◌, ◌+◌, ◌*◌, ◌≤◌, ◌<◌, ℕ, length, slice_index, IfOk, OnOk};
ghost use Rattle.kb_geometry.specs.Board.{IsOrderedRectOnBoard, cols_of, point_count, rows_of};
ghost use Rattle.pattern_images.specs.ImageList.{AreImages, IsPlacedOn, placement_at};
ghost use Rattle.pattern_occurrences.specs.Occurrences.{holds};
ghost use Rattle.line_matcher.specs.Areas.{IsReach};
ghost use Rattle.line_matcher.specs.Begins.{holds_anew, corner_of, may_begin, seen, touches};
ghost use Rattle.line_matcher.specs.Masks.{AreRowsOf, asks};
ghost use Rattle.line_matcher.specs.Matchers.{AreMost, IsMatcherOf};
ghost use Rattle.line_matcher.specs.Visits.{IsFoundAt, IsNear};

use crate::changed::{Concerned, reach};
use crate::grid_rows::GridRows;
use crate::mask::{RowMask, rows_fit, rows_touch};
use crate::starts::starts;
use crate::visit::Visit;
use capture_board::Walker;
use kb_bits::BitBoard;
use kb_geometry::{Cell, Colour, NoMemory, Point, Rect, Shape};
use pattern_images::Images;
use pattern_occurrences::Occurrence;
use std::alloc::Global;

/// The images of a query, made ready to be looked for in many games on boards of their shape.
#[derive(Debug, Drop)]
pub struct Matcher<'a> {
    /// The images.
    pub images: &'a Images,
    // The rows of their cells as words, and the placements by their upper left points.
    rows: GridRows,
    starts: Vec<usize>,
    // The most columns, and the most rows, that a placement has; at least 1.
    most: Size,
    ghost made: { IsMatcherOf images.now rows starts.items most },
}

// Columns and rows.
#[derive(Clone, Copy, Debug)]
struct Size {
    cols: u8,
    rows: u8,
}

impl<'a> Matcher<'a> {
    /// Makes ready the placements of the images. The only error is `NoMemory`.
    pub fn new(alloc: Global, images: &'a Images) -> Result<Self, NoMemory>
        ensures { IfOk result (λ matcher. matcher.images.now ≡ images.now) }
    {
        let rows = GridRows::of(alloc, images)?;
        let starts = starts(alloc, images)?;
        let most = most_size(images);
        Ok(Matcher {
            images,
            rows,
            starts,
            most,
        })
    }

    // The shape of the board.
    pub(crate) fn shape(&self) -> Shape
        ensures value { result ≡ self.now.images.now.shape }
        ensures images { AreImages self.now.images.now }
    {
        self.images.shape()
    }

    // Adds what begins to hold at a node. It has its upper left points in the area.
    pub(crate) fn add_area(
        &self,
        visit: &Visit,
        area: Rect,
        found: &mut Vec<Occurrence>,
    ) -> Result<(), NoMemory>
        requires area { IsOrderedRectOnBoard self.now.images.now.shape area }
        requires near { IsNear self.now.images.now visit.now area }
        requires shape { visit.now.walker.now.shape ≡ self.now.images.now.shape }
        ensures { OnOk result (IsFoundAt self.now.images.now visit.now
            0 (length self.now.images.now.placements) found.old.items found.new.items) }
    {
        for y in area.y0..area.y1 + 1 {
            self.add_row(visit, area, y, found)?;
        }
        Ok(())
    }

    // Where the placements that have a point in a rectangle have their upper left points.
    pub(crate) fn reach(&self, into: Rect) -> Rect
        requires { IsOrderedRectOnBoard self.now.images.now.shape into }
        ensures on_board { IsOrderedRectOnBoard self.now.images.now.shape result }
        ensures reach { IsReach into self.now.most.cols self.now.most.rows result }
    {
        reach(into, self.most.cols, self.most.rows)
    }

    // Adds what begins to hold at a node, among the placements with their upper left points in one
    // row.
    fn add_row(
        &self,
        visit: &Visit,
        area: Rect,
        y: u8,
        found: &mut Vec<Occurrence>,
    ) -> Result<(), NoMemory>
        requires row { y < rows_of self.now.images.now.shape }
        requires area { IsOrderedRectOnBoard self.now.images.now.shape area }
        requires near { IsNear self.now.images.now visit.now area }
        requires shape { visit.now.walker.now.shape ≡ self.now.images.now.shape }
        ensures { OnOk result (IsFoundAt self.now.images.now visit.now
            (slice_index self.now.starts.items (y * cols_of self.now.images.now.shape))
            (slice_index self.now.starts.items ((y + 1) * cols_of self.now.images.now.shape))
            found.old.items found.new.items) }
    {
        for x in area.x0..area.x1 + 1 {
            let first = self.images.shape().number(Point { x, y });
            let from = self.start(first);
            let to = self.start(first + 1);
            self.add_run(visit, first, from, to, found)?;
        }
        Ok(())
    }

    // Adds what begins to hold at a node, among the placements from one number up to another. The
    // number of the upper left point of each is `first`.
    fn add_run(
        &self,
        visit: &Visit,
        first: u16,
        from: usize,
        to: usize,
        found: &mut Vec<Occurrence>,
    ) -> Result<(), NoMemory>
        requires ordered { from ≤ to }
        requires in_range { to ≤ length self.now.images.now.placements }
        requires first { (i : ℕ) → from ≤ i → i < to
            → first ≡
            corner_of self.now.images.now.shape (placement_at self.now.images.now.placements i) }
        requires shape { visit.now.walker.now.shape ≡ self.now.images.now.shape }
        ensures { OnOk result (IsFoundAt self.now.images.now visit.now from to
            found.old.items found.new.items) }
    {
        for i in from..to {
            if self.holds_anew(visit.walker, visit.changed, i, first) {
                found.push(Occurrence {
                    node: visit.node,
                    placement: i as u32,
                })?;
            }
        }
        Ok(())
    }

    // How many placements have their upper left points before the point p.
    fn start(&self, p: u16) -> usize
        requires { p ≤ point_count self.now.images.now.shape }
        ensures { result ≡ slice_index self.now.starts.items p }
    {
        self.starts[usize::from(p)]
    }

    // Whether a placement holds in the position that the walker shows, and can have begun to by
    // changes that concern these points. The number of its upper left point is `first`.
    fn holds_anew(&self, walker: &Walker, changed: Option<&Concerned>, i: usize, first: u16) -> bool
        requires in_range { i < length self.now.images.now.placements }
        requires first { first ≡
            corner_of self.now.images.now.shape (placement_at self.now.images.now.placements i) }
        requires shape { walker.now.shape ≡ self.now.images.now.shape }
        ensures { result ≡ holds_anew self.now.images.now.shape walker.now.position
            (seen changed.entry) (placement_at self.now.images.now.placements i) }
    {
        self.holds(walker, i, first) && self.may_begin(changed, i, first)
    }

    // Whether a placement holds in the position that the walker shows.
    fn holds(&self, walker: &Walker, i: usize, first: u16) -> bool
        requires in_range { i < length self.now.images.now.placements }
        requires first { first ≡
            corner_of self.now.images.now.shape (placement_at self.now.images.now.placements i) }
        requires shape { walker.now.shape ≡ self.now.images.now.shape }
        ensures { result ≡ holds self.now.images.now.shape walker.now.position
            (placement_at self.now.images.now.placements i) }
    {
        let rows = self.rows_of(i);
        let black = walker.points(Cell::Black);
        let white = walker.points(Cell::White);
        rows_fit(rows, black, white, first, self.board_cols())
    }

    // Whether a placement can have begun to hold by changes that concern these points; at the root
    // each one can have.
    fn may_begin(&self, changed: Option<&Concerned>, i: usize, first: u16) -> bool
        requires in_range { i < length self.now.images.now.placements }
        requires first { first ≡
            corner_of self.now.images.now.shape (placement_at self.now.images.now.placements i) }
        ensures { result ≡ may_begin self.now.images.now.shape (seen changed.entry)
            (placement_at self.now.images.now.placements i) }
    {
        let Some(points) = changed else {
            return true;
        };
        self.touches(Colour::Black, &points.black, i, first)
            || self.touches(Colour::White, &points.white, i, first)
    }

    // Whether one of the points lies under a cell of a placement that asks whether a stone of the
    // colour is there.
    fn touches(&self, colour: Colour, points: &BitBoard, i: usize, first: u16) -> bool
        requires in_range { i < length self.now.images.now.placements }
        requires first { first ≡
            corner_of self.now.images.now.shape (placement_at self.now.images.now.placements i) }
        ensures { result ≡ touches (asks colour) self.now.images.now.shape points.now
            (placement_at self.now.images.now.placements i) }
    {
        rows_touch(self.rows_of(i), colour, points, first, self.board_cols())
    }

    // The rows of a placement's cells.
    fn rows_of(&self, i: usize) -> &[RowMask]
        requires { i < length self.now.images.now.placements }
        ensures rows { AreRowsOf (placement_at self.now.images.now.placements i).grid result.now }
        ensures placed { IsPlacedOn self.now.images.now.shape
            (placement_at self.now.images.now.placements i) }
    {
        self.rows.rows(self.images.class_of(i))
    }

    // How many columns the board has.
    fn board_cols(&self) -> u16
        ensures { result ≡ cols_of self.now.images.now.shape }
    {
        u16::from(self.images.shape().cols())
    }
}

// The most columns, and the most rows, of the rectangles of cells; at least 1.
fn most_size(images: &Images) -> Size
    ensures { AreMost images.now.grids result }
{
    let mut most = Size { cols: 1, rows: 1 };
    for class in 0..images.class_count() {
        let size = images.class_size(class);
        most = Size {
            cols: most.cols.max(size.cols()),
            rows: most.rows.max(size.rows()),
        };
    }
    most
}
