// A rectangle of points that get one cell, without captures.
ghost use Rattle.std.specs.Prelude.{◌≡◌, ◌+◌, ◌<◌, ◌≤◌, length};
ghost use Rattle.kb_geometry.specs.Board.{point_count, IsOrderedRectOnBoard};
ghost use Rattle.kb_geometry.specs.Capture.{with_rect};
ghost use Rattle.capture_board.specs.ChangedPoints.{NotesChanges};
ghost use Rattle.capture_board.specs.Runs.{IsRunSet};

use super::ROOM;
use crate::change_list::{ChangedPoints, put};
use kb_geometry::{Cell, Point, Rect, Shape};

/// Puts a cell on each point of a rectangle.
pub fn set_rect(
    shape: Shape,
    cells: &mut [Cell],
    changed: &mut ChangedPoints,
    cell: Cell,
    rect: Rect,
)
    requires whole { length cells.old ≡ point_count shape }
    requires on_board { IsOrderedRectOnBoard shape rect }
    ensures set { cells.new ≡ with_rect shape cells.old cell rect }
    ensures noted { NotesChanges cells.old changed.old cells.new changed.new }
{
    for y in rect.y0..rect.y1 + 1 {
        let first = shape.number(Point { x: rect.x0, y });
        let last = shape.number(Point { x: rect.x1, y });
        set_run(cells, changed, cell, first, last);
    }
}

// Puts a cell on the points from the first number to the last.
fn set_run(cells: &mut [Cell], changed: &mut ChangedPoints, cell: Cell, first: u16, last: u16)
    requires order { first ≤ last }
    requires on_board { last < length cells.old }
    requires fits { length cells.old ≤ ROOM }
    ensures set { IsRunSet cell first (last + 1) cells.old cells.new }
    ensures noted { NotesChanges cells.old changed.old cells.new changed.new }
{
    for point in first..last + 1 {
        put(cells, changed, point, cell);
    }
}
