// Where placements can begin to hold at a node.
ghost use Rattle.std.specs.Prelude.{◌≡◌, ◌≤◌, ◌↔◌, ◌<◌, ◌⊎◌, [], All, IsTrue, MatchOption};
ghost use Rattle.kb_geometry.specs.declared.shape.Shape.{Shape};
ghost use Rattle.kb_geometry.specs.declared.shape.Point.{Point};
ghost use Rattle.kb_geometry.specs.declared.stone.Change.{Change};
ghost use Rattle.kb_geometry.specs.Board.{IsInside, IsOnBoard, IsOrderedRectOnBoard};
ghost use Rattle.kb_geometry.specs.Board.{point_count};
ghost use Rattle.line_matcher.specs.Areas.{HoldsChanges, IsWidenedBy, IsReach};
ghost use Rattle.line_matcher.specs.Concerned.{AreConcerned, IsWithChange, no_points};

use kb_bits::BitBoard;
use kb_geometry::{Cell, Change, MAX_POINTS, Point, Rect, Shape};

// The points that changes concern, by colours: where a stone of the colour stood or stands. It is
// made once for a walk, filled at a node and cleared again, since it is as large as the greatest
// board.
#[derive(Debug, Drop)]
pub(crate) struct Concerned {
    pub(crate) black: BitBoard,
    pub(crate) white: BitBoard,
}

impl Concerned {
    // No point.
    pub(crate) fn none() -> Self
        ensures { result ≡ no_points }
    {
        Concerned {
            black: BitBoard::empty(),
            white: BitBoard::empty(),
        }
    }

    // The points of changes, where no point was before.
    pub(crate) fn fill(&mut self, changes: &[Change])
        requires on_board { All (λ (c : Change). c.point < MAX_POINTS) changes.now }
        requires none { self.old ≡ no_points }
        ensures { AreConcerned changes.now self.new }
    {
        for change in changes {
            add(&mut self.black, Cell::Black, *change);
            add(&mut self.white, Cell::White, *change);
        }
    }

    // No point again.
    pub(crate) fn clear(&mut self)
        ensures { self.new ≡ no_points }
    {
        self.black.clear();
        self.white.clear();
    }
}

// Adds the point of a change that has a stone, before or after.
fn add(points: &mut BitBoard, stone: Cell, change: Change)
    requires { change.point < MAX_POINTS }
    ensures { IsWithChange stone change points.old points.new }
{
    if has_stone(change, stone) {
        points.insert(change.point);
    }
}

// Whether a change has a stone, before or after.
fn has_stone(change: Change, stone: Cell) -> bool
    ensures { IsTrue result ↔ ((change.old ≡ stone) ⊎ (change.new ≡ stone)) }
{
    change.old == stone || change.new == stone
}

// The rectangle of all points of a board.
pub(crate) fn whole(shape: Shape) -> Rect
    ensures on_board { IsOrderedRectOnBoard shape result }
    ensures all { (p : Point) → IsOnBoard shape p → IsInside result p }
{
    Rect {
        x0: 0,
        y0: 0,
        x1: shape.cols() - 1,
        y1: shape.rows() - 1,
    }
}

// A rectangle that holds the points of the changes. `None` where there are no changes.
pub(crate) fn bounds(shape: Shape, changes: &[Change]) -> Option<Rect>
    requires { All (λ (c : Change). c.point < point_count shape) changes.now }
    ensures { MatchOption result (changes.now ≡ [])
        (λ r. IsOrderedRectOnBoard shape r × HoldsChanges shape changes.now r) }
{
    let Point { x, y } = shape.point(changes.first()?.point);
    let mut rect = Rect {
        x0: x,
        y0: y,
        x1: x,
        y1: y,
    };
    for change in changes {
        rect = with_point(rect, shape.point(change.point));
    }
    Some(rect)
}

// The least rectangle that holds another one and a point.
fn with_point(rect: Rect, p: Point) -> Rect
    ensures { IsWidenedBy rect p result }
{
    Rect {
        x0: rect.x0.min(p.x),
        y0: rect.y0.min(p.y),
        x1: rect.x1.max(p.x),
        y1: rect.y1.max(p.y),
    }
}

// From where a rectangle of at most so many columns and rows can reach into another one: its upper
// left points.
pub(crate) fn reach(into: Rect, cols: u8, rows: u8) -> Rect
    requires into_columns { into.x1 < 255 }
    requires into_rows { into.y1 < 255 }
    requires ordered_columns { into.x0 ≤ into.x1 }
    requires ordered_rows { into.y0 ≤ into.y1 }
    ensures { IsReach into cols rows result }
{
    Rect {
        x0: (into.x0 + 1).saturating_sub(cols),
        y0: (into.y0 + 1).saturating_sub(rows),
        x1: into.x1,
        y1: into.y1,
    }
}
