// A walk over the nodes of a game, which shows the position at each.
ghost use Rattle.std.specs.Prelude.{◌≡◌, ℕ, ◌+◌, ◌<◌, ◌↔◌, Contains, IfSome, IsSome, None, Some};
ghost use Rattle.std.specs.Option.{IsSomeAnd};

use crate::cell_sets::CellSets;
use crate::{NodeDeltas, Steps};
use kb_bits::BitBoard;
use kb_geometry::Cell;
use std::marker::Model;
use std::sync::ledger::Ledger;

/// A place in a game: a node, or above the root, where the board is empty. It shows the position
/// there.
///
/// Each call is given the [`NodeDeltas`] that the walker was made or restarted for. No call
/// allocates.
#[derive(Debug, Drop)]
pub struct Walker {
    here: Option<u32>,
    board: CellSets,
}

impl Model for Walker {
    ghost use Rattle.capture_board.specs.Walking.{WalkerState};

    ghost Value = { WalkerState };

    ghost view = { λ w. record {
      shape = w.board.shape;
      here = w.here;
      position = w.board.position;
    } };
}

impl Walker {
    ghost use Rattle.kb_geometry.specs.Board.{point_count};
    ghost use Rattle.kb_geometry.specs.Capture.{cell_at};
    ghost use Rattle.capture_board.specs.Deltas.{node_count, parent_of};
    ghost use Rattle.capture_board.specs.Walking.{node_before, parent_here, MayLeaveTo, StandsIn};

    /// Stands above the root.
    pub fn new(deltas: &NodeDeltas) -> Walker
        ensures here { result.here ≡ None }
        ensures stands { StandsIn deltas.now result }
    {
        Walker {
            here: None,
            board: CellSets::empty(deltas.shape()),
        }
    }

    /// Stands above the root of these, whatever the walker was made for. It costs less than a new
    /// walker, which has room for the greatest board.
    pub fn restart(&mut self, deltas: &NodeDeltas)
        ensures here { self.new.here ≡ None }
        ensures stands { StandsIn deltas.now self.new }
    {
        self.here = None;
        self.board.reset(deltas.shape());
    }

    /// The node where the walker stands, or `None` above the root.
    pub fn here(&self) -> Option<u32>
        ensures { result ≡ self.now.here }
    {
        self.here
    }

    /// Goes to a node whose parent is the node where the walker stands; to the root from above it.
    /// It takes one step.
    pub fn enter<L: Ledger>(&mut self, deltas: &NodeDeltas, n: u32, steps: &mut Steps<L>)
        requires in_range { n < node_count deltas.now }
        requires stands { StandsIn deltas.now self.old }
        requires child { parent_of deltas.now n ≡ self.old.here }
        ensures here { self.new.here ≡ Some n }
        ensures stands { StandsIn deltas.now self.new }
        ensures step { steps.new ≡ steps.old + 1 }
    {
        self.board.make(deltas.changes(n));
        self.here = Some(n);
        steps.tick();
    }

    /// Goes on to the next node in order of the text: back to its parent, and then to it. It takes
    /// one step.
    pub fn enter_next<L: Ledger>(&mut self, deltas: &NodeDeltas, n: u32, steps: &mut Steps<L>)
        requires in_range { n < node_count deltas.now }
        requires stands { StandsIn deltas.now self.old }
        requires next { self.old.here ≡ node_before n }
        ensures here { self.new.here ≡ Some n }
        ensures stands { StandsIn deltas.now self.new }
        ensures step { steps.new ≡ steps.old + 1 }
    {
        self.leave_to(deltas, deltas.parent(n));
        self.enter(deltas, n, steps);
    }

    /// Goes from a node back to its parent; from the root to above it.
    pub fn leave(&mut self, deltas: &NodeDeltas)
        requires at_node { IsSome self.old.here }
        requires stands { StandsIn deltas.now self.old }
        ensures here { self.new.here ≡ parent_here deltas.now self.old.here }
        ensures before { IfSome self.new.here (λ m. IsSomeAnd self.old.here (λ n. m < n)) }
        ensures stands { StandsIn deltas.now self.new }
    {
        if let Some(n) = self.here {
            self.board.take_back(deltas.changes(n));
            self.here = deltas.parent(n);
        }
    }

    /// Goes back to a node above the one where the walker stands, or to that node itself; or to
    /// above the root for `None`.
    pub fn leave_to(&mut self, deltas: &NodeDeltas, above: Option<u32>)
        requires above { MayLeaveTo deltas.now self.old.here above }
        requires stands { StandsIn deltas.now self.old }
        ensures here { self.new.here ≡ above }
        ensures stands { StandsIn deltas.now self.new }
    {
        while self.here != above {
            self.leave(deltas);
        }
    }

    /// What stands on the point with this number.
    pub fn cell(&self, point: u16) -> Cell
        requires { point < point_count self.now.shape }
        ensures { result ≡ cell_at self.now.position point }
    {
        self.board.cell(point)
    }

    /// The points that have a cell.
    pub fn points(&self, cell: Cell) -> &BitBoard
        ensures { (p : ℕ) → Contains result.now p
            ↔ ((p < point_count self.now.shape) × (cell_at self.now.position p ≡ cell)) }
    {
        self.board.points(cell)
    }
}
