// Where the upper left point of a pattern may stand before it is moved.
ghost use Rattle.std.specs.Prelude.{MatchOption};
ghost use Rattle.kb_geometry.specs.declared.shape.Point.{Point};
ghost use Rattle.kb_geometry.specs.Board.{IsInside};
ghost use Rattle.pattern_images.specs.Turns.{AreBasePlaces, HasNoBasePlace, IsCommon};

use crate::Query;
use kb_geometry::{Rect, Shape};

// The base places of the query on a board of this shape. `None` where there are none, or where the
// query names another board.
pub(crate) fn base_places(query: &Query, shape: Shape) -> Option<Rect>
    ensures { MatchOption result (HasNoBasePlace query.now shape) (AreBasePlaces query.now shape) }
{
    if !query.is_for(shape) {
        return None;
    }
    let x1 = shape.cols().checked_sub(query.pattern.cols())?;
    let y1 = shape.rows().checked_sub(query.pattern.rows())?;
    let on_board = Rect {
        x0: 0,
        y0: 0,
        x1,
        y1,
    };
    match query.at {
        None => Some(on_board),
        Some(at) => common(on_board, at),
    }
}

// The rectangle of the points that two rectangles have in common. `None` where there are none.
fn common(a: Rect, b: Rect) -> Option<Rect>
    ensures { MatchOption result ((p : Point) → IsInside a p → IsInside b p → ⊥) (IsCommon a b) }
{
    let x0 = a.x0.max(b.x0);
    let y0 = a.y0.max(b.y0);
    let x1 = a.x1.min(b.x1);
    let y1 = a.y1.min(b.y1);
    if x0 <= x1 && y0 <= y1 {
        Some(Rect { x0, y0, x1, y1 })
    } else {
        None
    }
}
