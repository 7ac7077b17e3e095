// What each label makes of the pattern of a query on a board.
ghost use Rattle.std.specs.Prelude.{◌≡◌, ◌↔◌, ◌+◌, ◌<◌, ◌≤◌, [], length, IfOk};
ghost use Rattle.kb_geometry.specs.declared.shape.Point.{Point};
ghost use Rattle.kb_geometry.specs.Board.{cols_of, rows_of, IsInside};
ghost use Rattle.kb_geometry.specs.Symmetry.{number_of_label, number_of_symmetry, IsAllowed};
ghost use Rattle.pattern_images.specs.Turned.{upper_left};
ghost use Rattle.pattern_images.specs.Turns.{AreBasePlaces, IsTurn, AreTurns, HasGrown};

use crate::Query;
use crate::grids::Grids;
use crate::turning::turned_cells;
use kb_geometry::{LABELS, Label, Rect, Shape, Symmetry, apply_rect, turned};
use std::alloc::{AllocError, Global};

// The pattern under one label: the number of its rectangle of cells, and the upper left points at
// which it stands on the board.
#[derive(Clone, Copy, Debug)]
pub(crate) struct Turn {
    pub(crate) label: Label,
    pub(crate) class: u8,
    pub(crate) corners: Rect,
}

// What each label makes of the query's pattern on a board with these base places, by the labels'
// numbers: `None` for a label that isn't one of the query's. The rectangles of cells are added to
// `grids`, each once.
pub(crate) fn turns(
    alloc: Global,
    query: &Query,
    shape: Shape,
    base: Rect,
    grids: &mut Grids,
) -> Result<Vec<Option<Turn>>, AllocError>
    requires base { AreBasePlaces query.now shape base }
    requires empty { grids.old ≡ [] }
    ensures turns { IfOk result (λ turns. AreTurns query.now shape grids.new turns.items) }
    ensures each { IfOk result (λ turns. length turns.items ≡ 16) }
{
    let mut turns = Vec::with_capacity(alloc, usize::from(LABELS))?;
    for number in 0..LABELS {
        let Some(label) = Label::new(number) else {
            unreachable!()
        };
        let turn = turn_of(alloc, query, shape, base, label, grids)?;
        turns.push(turn)?;
    }
    Ok(turns)
}

// What the label makes of the query's pattern.
fn turn_of(
    alloc: Global,
    query: &Query,
    shape: Shape,
    base: Rect,
    label: Label,
    grids: &mut Grids,
) -> Result<Option<Turn>, AllocError>
    requires base { AreBasePlaces query.now shape base }
    requires room { length grids.old < 16 }
    ensures turn { IfOk result
        (λ turn. IsTurn query.now shape grids.new (number_of_label label) turn) }
    ensures grown { IfOk result (λ _. HasGrown grids.old grids.new) }
{
    if !query.has_label(shape, label) {
        return Ok(None);
    }
    let symmetry = label.symmetry();
    let size = query.pattern.size();
    let to = turned(symmetry, size);
    let cells = turned_cells(alloc, &query.pattern, label, to)?;
    let class = grids.number(to, &cells)?;
    Ok(Some(Turn {
        label,
        class: class as u8,
        corners: corners(symmetry, shape, size, base),
    }))
}

// The upper left points, after a symmetry of the board, of the rectangles of this size whose upper
// left points are those of `base`.
fn corners(s: Symmetry, shape: Shape, size: Shape, base: Rect) -> Rect
    requires allowed { IsAllowed (number_of_symmetry s) shape }
    requires columns { base.x0 ≤ base.x1 }
    requires rows { base.y0 ≤ base.y1 }
    requires right { base.x1 + cols_of size ≤ cols_of shape }
    requires bottom { base.y1 + rows_of size ≤ rows_of shape }
    ensures { (q : Point) → IsInside result q
        ↔ ((p : Point) × IsInside base p × (upper_left (number_of_symmetry s) shape size p ≡ q)) }
{
    let to = turned(s, size);
    let covered = apply_rect(
        s,
        shape,
        Rect {
            x0: base.x0,
            y0: base.y0,
            x1: base.x1 + size.cols() - 1,
            y1: base.y1 + size.rows() - 1,
        },
    );
    Rect {
        x0: covered.x0,
        y0: covered.y0,
        x1: covered.x1 - (to.cols() - 1),
        y1: covered.y1 - (to.rows() - 1),
    }
}
