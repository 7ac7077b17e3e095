// The points whose cells changed, each with the cell that it had before.
ghost use Rattle.std.specs.Prelude.{◌≡◌, ◌≢◌, ◌<◌, ◌≤◌, [], length, slice_set};
ghost use Rattle.kb_geometry.specs.Capture.{Position, cell_at};
ghost use Rattle.capture_board.specs.ChangedPoints.{AreChangedPoints, NotesChanges};

use crate::board::ROOM;
use kb_bits::BitBoard;
use kb_geometry::Cell;

// The points whose cells aren't those of an earlier position, and the cells that these had there.
// What stands for other points means nothing, so that a clear costs little.
#[derive(Drop)]
pub(crate) struct ChangedPoints {
    pub(crate) points: BitBoard,
    pub(crate) before: [Cell; ROOM],
}

impl ChangedPoints {
    /// No point has changed.
    pub fn none() -> ChangedPoints
        ensures { result.points ≡ [] }
    {
        ChangedPoints {
            points: BitBoard::empty(),
            before: [Cell::Empty; ROOM],
        }
    }

    /// Forgets the points.
    pub fn clear(&mut self)
        ensures { self.new.points ≡ [] }
    {
        self.points.clear();
    }

    /// Notes that the cell of a point becomes another one. A point that gets back the cell of the
    /// earlier position has not changed.
    pub fn note(&mut self, point: u16, old: Cell, new: Cell)
        requires in_room { point < ROOM }
        requires another { old ≢ new }
        ensures { (base now : Position) → point < length now → cell_at now point ≡ old →
            AreChangedPoints base now self.old →
            AreChangedPoints base (slice_set now point new) self.new }
    {
        let index = usize::from(point);
        if self.points.contains(point) {
            if self.before[index] == new {
                self.points.remove(point);
            }
        } else {
            self.before[index] = old;
            self.points.insert(point);
        }
    }
}

// Puts a cell on a point, and notes it where that is a change.
pub(crate) fn put(cells: &mut [Cell], changed: &mut ChangedPoints, point: u16, cell: Cell)
    requires on_board { point < length cells.old }
    requires fits { length cells.old ≤ ROOM }
    ensures placed { cells.new ≡ slice_set cells.old point cell }
    ensures noted { NotesChanges cells.old changed.old cells.new changed.new }
{
    let index = usize::from(point);
    let old = cells[index];
    if old != cell {
        changed.note(point, old, cell);
        cells[index] = cell;
    }
}
