// The net changes of a position since a list of them was last cleared, in fixed room.
ghost use Rattle.std.specs.Prelude.{◌≡◌, ◌<◌, ◌≤◌, [], length, All};
ghost use Rattle.kb_geometry.specs.Capture.{Position};
ghost use Rattle.capture_board.specs.Changes.{LeadFrom};
ghost use Rattle.capture_board.specs.ChangedPoints.{AreChangedPoints, AreListed, AreListedBelow};

use crate::board::ROOM;
pub(crate) use changed_points::{ChangedPoints, put};
use kb_geometry::{Cell, Change};
use room::ChangeRoom;
use std::marker::Model;

mod changed_points;
mod room;

/// The net changes of a position since the list was last cleared, by point ascending. It has room
/// for the changes of one node of a game.
#[derive(Drop)]
pub struct ChangeList {
    pub(crate) changed: ChangedPoints,
    pub(crate) room: ChangeRoom,
}

impl Model for ChangeList {
    ghost use Rattle.std.specs.Prelude.{List};
    ghost use Rattle.kb_geometry.specs.declared.stone.Change.{Change};
    ghost use Rattle.capture_board.specs.ChangedPoints.{AreListed};

    ghost Value = { List Change };

    ghost view = { λ l. l.room };

    ghost invariant = { λ l. AreListed l.changed l.room };
}

impl ChangeList {
    /// No changes.
    pub fn new() -> ChangeList
        ensures { result ≡ [] }
    {
        ChangeList {
            changed: ChangedPoints::none(),
            room: ChangeRoom::new(),
        }
    }

    /// Forgets the changes: later ones are counted from the position as it stands then.
    pub fn clear(&mut self)
        ensures { self.new ≡ [] }
    {
        self.changed.clear();
        self.room.clear();
    }

    /// The changes, by point ascending.
    pub fn as_slice(&self) -> &[Change]
        ensures { result.now ≡ self.now }
    {
        self.room.as_slice()
    }
}

// Lists the changes of the points that changed, whose cells are now these, from a number on. Those
// of lower points are listed already.
pub(crate) fn list_changes(
    changed: &ChangedPoints,
    cells: &[Cell],
    room: &mut ChangeRoom,
    first: u16,
)
    requires on_board { All (λ p. p < length cells.now) changed.now.points }
    requires fits { length cells.now ≤ ROOM }
    requires in_room { first ≤ ROOM }
    requires lower { AreListedBelow changed.now cells.now room.old first }
    ensures listed { AreListed changed.now room.new }
    ensures lead { (base : Position) → AreChangedPoints base cells.now changed.now →
        LeadFrom base room.new cells.now }
{
    let mut from = first;
    while let Some(point) = changed.points.next_from(from) {
        let index = usize::from(point);
        room.push(Change {
            point,
            old: changed.before[index],
            new: cells[index],
        });
        from = point + 1;
    }
}
