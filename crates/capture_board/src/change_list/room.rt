// A list of changes in fixed room.
ghost use Rattle.std.specs.Prelude.{◌≡◌, ◌<◌, ◌≤◌, [], ◌∷◌, ◌++◌, length, take, AllPairs};
ghost use Rattle.kb_geometry.specs.declared.stone.Change.{Change};
ghost use Rattle.capture_board.specs.ChangedPoints.{IsCut};

use crate::board::ROOM;
use kb_geometry::{Cell, Change};
use std::marker::Model;

// Room for one change of each point.
#[derive(Drop)]
pub(crate) struct ChangeRoom {
    changes: [Change; ROOM],
    len: usize,
}

// What stands where no change has been written.
const NO_CHANGE: Change = Change {
    point: 0,
    old: Cell::Empty,
    new: Cell::Empty,
};

impl Model for ChangeRoom {
    ghost use Rattle.std.specs.Prelude.{◌≤◌, List, take};
    ghost use Rattle.capture_board.specs.declared.board.TheConstants.{ROOM};
    ghost use Rattle.kb_geometry.specs.declared.stone.Change.{Change};

    ghost Value = { List Change };

    ghost view = { λ r. take r.len r.changes };

    ghost invariant = { λ r. r.len ≤ ROOM };
}

impl ChangeRoom {
    /// No changes.
    pub fn new() -> ChangeRoom
        ensures { result ≡ [] }
    {
        ChangeRoom {
            changes: [NO_CHANGE; ROOM],
            len: 0,
        }
    }

    /// Adds a change at the end.
    pub fn push(&mut self, change: Change)
        requires { length self.old < ROOM }
        ensures { self.new ≡ self.old ++ change ∷ [] }
    {
        self.changes[self.len] = change;
        self.len += 1;
    }

    /// Removes all changes.
    pub fn clear(&mut self)
        ensures { self.new ≡ [] }
    {
        self.len = 0;
    }

    /// Removes the changes on points from a number on, of changes by point ascending, at the cost
    /// of their number.
    pub fn cut(&mut self, from: u16)
        requires { AllPairs (λ (c d : Change). c.point < d.point) self.old }
        ensures { IsCut from self.old self.new }
    {
        self.len = len_below(&self.changes[..self.len], from);
    }

    /// The changes.
    pub fn as_slice(&self) -> &[Change]
        ensures { result.now ≡ self.now }
    {
        &self.changes[..self.len]
    }
}

// How many changes are on points below a number, of changes by point ascending. It looks at the
// others alone.
fn len_below(changes: &[Change], from: u16) -> usize
    requires { AllPairs (λ (c d : Change). c.point < d.point) changes.now }
    ensures most { result ≤ length changes.now }
    ensures cut { IsCut from changes.now (take result changes.now) }
{
    let mut len = changes.len();
    while len > 0 && changes[len - 1].point >= from {
        len -= 1;
    }
    len
}
