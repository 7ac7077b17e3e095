// The points that had each cell at some node, gathered in one pass over the changes.
ghost use Rattle.std.specs.Prelude.{◌≡◌, ℕ, ◌<◌, ◌≤◌, ◌⊎◌, ◌↔◌, All, Contains};
ghost use Rattle.kb_geometry.specs.declared.stone.Cell.{Cell};
ghost use Rattle.kb_geometry.specs.declared.stone.Change.{Change};
ghost use Rattle.capture_board.specs.Deltas.{node_count};
ghost use Rattle.final_index.specs.Ever.{AreSetsOf, set_of};
ghost use Rattle.final_index.specs.Gathering.{AreAdded, AreGathered, AreUntouched};

use capture_board::NodeDeltas;
use kb_bits::{BOUND, BitBoard};
use kb_geometry::{Cell, Change, MAX_POINTS};

// Each point of a board may be in a set.
const _: () = prove!(MAX_POINTS <= BOUND);

/// For each cell the points of a board, by their numbers, that had it at some node of a game: after
/// the node's move with its captures, or after its setups.
///
/// A stone that is captured leaves its point in `empty`, and in the set of its colour.
#[derive(Debug, Drop)]
pub struct EverSets {
    /// The points that were black at some node.
    pub black: BitBoard,
    /// The points that were white at some node.
    pub white: BitBoard,
    /// The points that were empty at some node.
    pub empty: BitBoard,
}

impl EverSets {
    /// The sets of a game with these changes. A game without a node has no position, so they are
    /// empty. Nothing is allocated.
    pub fn of(deltas: &NodeDeltas) -> EverSets
        ensures { AreSetsOf deltas.now result }
    {
        gathered(deltas)
    }

    // Adds the points of these changes, each to the set of its new cell.
    fn add(&mut self, changes: &[Change])
        requires { All (λ (c : Change). c.point < MAX_POINTS) changes.now }
        ensures { AreAdded self.old changes.now self.new }
    {
        for change in changes {
            self.insert(change.new, change.point);
        }
    }

    // Adds a point to the set of a cell.
    fn insert(&mut self, cell: Cell, point: u16)
        requires { point < MAX_POINTS }
        ensures { (c : Cell) (p : ℕ) → Contains (set_of self.new c) p
            ↔ (Contains (set_of self.old c) p ⊎ ((c ≡ cell) × (p ≡ point))) }
    {
        match cell {
            Cell::Empty => self.empty.insert(point),
            Cell::Black => self.black.insert(point),
            Cell::White => self.white.insert(point),
        }
    }
}

// The sets of a game.
fn gathered(deltas: &NodeDeltas) -> EverSets
    ensures { AreGathered deltas.now (node_count deltas.now) result }
{
    let count = deltas.node_count();
    if count == 0 {
        return EverSets {
            black: BitBoard::empty(),
            white: BitBoard::empty(),
            empty: BitBoard::empty(),
        };
    }
    let mut sets = at_root(deltas);
    for n in 1..count {
        sets.add(deltas.changes(n));
    }
    sets
}

// The sets of the root alone.
fn at_root(deltas: &NodeDeltas) -> EverSets
    requires { 0 < node_count deltas.now }
    ensures { AreGathered deltas.now 1 result }
{
    let changes = deltas.changes(0);
    let mut sets = EverSets {
        black: BitBoard::empty(),
        white: BitBoard::empty(),
        empty: untouched(deltas.shape().count(), changes),
    };
    sets.add(changes);
    sets
}

// The points of a board with so many on which no change is.
fn untouched(count: u16, changes: &[Change]) -> BitBoard
    requires few { count ≤ MAX_POINTS }
    requires on_board { All (λ (c : Change). c.point < count) changes.now }
    ensures { AreUntouched count changes.now result }
{
    let mut points = BitBoard::below(count);
    for change in changes {
        points.remove(change.point);
    }
    points
}
