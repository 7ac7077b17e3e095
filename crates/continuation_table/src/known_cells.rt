// The cells of a position, as far as they are known.
ghost use Rattle.std.specs.Prelude.{◌≡◌, ℕ, ◌<◌, length, replicate, All, None};
ghost use Rattle.kb_geometry.specs.declared.stone.Change.{Change};
ghost use Rattle.kb_geometry.specs.Capture.{Position, cell_at};
ghost use Rattle.capture_board.specs.Changes.{with_changes};
ghost use Rattle.capture_board.specs.Deltas.{node_count, position_at};
ghost use Rattle.continuation_table.specs.declared.known_cells.TheConstants.{ROOM};
ghost use Rattle.continuation_table.specs.Rebuilding.{cell_over, known_cell, noted};

use capture_board::NodeDeltas;
use kb_geometry::{Cell, Change, MAX_POINTS};

// How many points there is room for.
const ROOM: usize = MAX_POINTS as usize;

// What is known of the points of a board, in fixed room. It is cleared once for each call of
// `next_of`, which nothing on the way of a search calls, so there is no reason to keep it from call
// to call.
#[derive(Drop)]
pub(crate) struct KnownCells {
    cells: [Option<Cell>; ROOM],
    pub(crate) ghost room: { length cells ≡ ROOM },
}

impl KnownCells {
    // Nothing is known.
    fn none() -> Self
        ensures { result.cells ≡ replicate ROOM None }
    {
        KnownCells {
            cells: [None; ROOM],
        }
    }

    // The position at a node, rebuilt by one walk up the parents: the first change of a point on
    // that way decides its cell, and points that never change are empty.
    pub(crate) fn at(deltas: &NodeDeltas, node: u32) -> Self
        requires { node < node_count deltas.now }
        ensures { (p : ℕ) → known_cell result.cells p ≡ cell_at (position_at deltas.now node) p }
    {
        let mut known = KnownCells::none();
        let mut here = Some(node);
        while let Some(n) = here {
            known.note_all(deltas.changes(n));
            here = deltas.parent(n);
        }
        known
    }

    // The cell of a point; empty if nothing is known.
    pub(crate) fn cell(&self, point: u16) -> Cell
        requires { point < ROOM }
        ensures { result ≡ known_cell self.now.cells point }
    {
        self.cells[usize::from(point)].unwrap_or(Cell::Empty)
    }

    // Notes the new cells of the changes of one node, from the last one on, of the points of which
    // nothing is known.
    fn note_all(&mut self, changes: &[Change])
        requires { All (λ (c : Change). c.point < ROOM) changes.now }
        ensures { (below : Position) (p : ℕ) →
            All (λ (c : Change). c.point < length below) changes.now →
            cell_over self.new.cells below p
            ≡ cell_over self.old.cells (with_changes below changes.now) p }
    {
        let count = changes.len();
        for k in 0..count {
            self.note(changes[count - 1 - k]);
        }
    }

    // Notes the new cell of a change, if nothing is known of its point.
    fn note(&mut self, change: Change)
        requires { change.point < ROOM }
        ensures { self.new.cells ≡ noted self.old.cells change }
    {
        let index = usize::from(change.point);
        if self.cells[index].is_none() {
            self.cells[index] = Some(change.new);
        }
    }
}
