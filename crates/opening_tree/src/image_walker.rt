// A walk over the nodes of a game, which keeps the images of the position at each.
ghost use Rattle.std.specs.Prelude.{◌≡◌, ◌<◌, IfOk, IfSome, IsSome, None, Some};
ghost use Rattle.std.specs.Option.{IsSomeAnd};
ghost use Rattle.capture_board.specs.Deltas.{Deltas, node_count, parent_of};
ghost use Rattle.capture_board.specs.Walking.{MayLeaveTo, node_before, parent_here};
ghost use Rattle.opening_tree.specs.Turned.{StandsTurned};

use crate::turned::TurnedPositions;
use capture_board::NodeDeltas;
use kb_geometry::{NoMemory, Shape};
use std::alloc::Global;
use std::marker::Model;

// A place in a game: a node, or above the root, where the board is empty. It keeps the images of the
// position there. No call but `new` allocates.
//
// Each call is given the changes of the game for which the walk was begun.
#[derive(Debug, Drop)]
pub(crate) struct ImageWalker {
    here: Option<u32>,
    turned: TurnedPositions,
}

impl Model for ImageWalker {
    ghost use Rattle.opening_tree.specs.Turned.{TurnedWalk};

    ghost Value = { TurnedWalk };

    ghost view = { λ w. record {
      shape = w.turned.shape;
      here = w.here;
      images = w.turned.images;
    } };
}

impl ImageWalker {
    // Stands above the root of games on a board of this shape. The only error is `NoMemory`.
    pub(crate) fn new(alloc: Global, shape: Shape) -> Result<ImageWalker, NoMemory>
        ensures { IfOk result (λ w. w.shape ≡ shape) }
    {
        let turned = TurnedPositions::new(alloc, shape)?;
        Ok(ImageWalker { here: None, turned })
    }

    // Stands above the root of a game.
    pub(crate) fn restart(&mut self)
        ensures shape { self.new.shape ≡ self.old.shape }
        ensures here { self.new.here ≡ None }
        ensures stands { (deltas : Deltas) → self.old.shape ≡ deltas.shape →
            StandsTurned deltas self.new }
    {
        self.here = None;
        self.turned.clear();
    }

    // Goes on to the next node in order of the text: back to its parent, and then to it.
    pub(crate) fn enter_next(&mut self, deltas: &NodeDeltas, n: u32)
        requires in_range { n < node_count deltas.now }
        requires stands { StandsTurned deltas.now self.old }
        requires next { self.old.here ≡ node_before n }
        ensures shape { self.new.shape ≡ self.old.shape }
        ensures here { self.new.here ≡ Some n }
        ensures stands { StandsTurned deltas.now self.new }
    {
        self.leave_to(deltas, deltas.parent(n));
        self.enter(deltas, n);
    }

    // Goes to a node whose parent is the node where the walk stands; to the root from above it.
    fn enter(&mut self, deltas: &NodeDeltas, n: u32)
        requires in_range { n < node_count deltas.now }
        requires stands { StandsTurned deltas.now self.old }
        requires child { parent_of deltas.now n ≡ self.old.here }
        ensures shape { self.new.shape ≡ self.old.shape }
        ensures here { self.new.here ≡ Some n }
        ensures stands { StandsTurned deltas.now self.new }
    {
        self.turned.make(deltas.changes(n));
        self.here = Some(n);
    }

    // Goes back to a node above the one where the walk stands, or to that node itself; or to above
    // the root for `None`.
    fn leave_to(&mut self, deltas: &NodeDeltas, above: Option<u32>)
        requires above { MayLeaveTo deltas.now self.old.here above }
        requires stands { StandsTurned deltas.now self.old }
        ensures shape { self.new.shape ≡ self.old.shape }
        ensures here { self.new.here ≡ above }
        ensures stands { StandsTurned deltas.now self.new }
    {
        while self.here != above {
            self.leave(deltas);
        }
    }

    // Goes from a node back to its parent; from the root to above it.
    fn leave(&mut self, deltas: &NodeDeltas)
        requires at_node { IsSome self.old.here }
        requires stands { StandsTurned deltas.now self.old }
        ensures shape { self.new.shape ≡ self.old.shape }
        ensures here { self.new.here ≡ parent_here deltas.now self.old.here }
        ensures before { IfSome self.new.here (λ m. IsSomeAnd self.old.here (λ n. m < n)) }
        ensures stands { StandsTurned deltas.now self.new }
    {
        if let Some(n) = self.here {
            self.turned.take_back(deltas.changes(n));
            self.here = deltas.parent(n);
        }
    }

    // The images of the position at the node where the walk stands.
    pub(crate) fn turned(&self) -> &TurnedPositions
        ensures shape { result.now.shape ≡ self.now.shape }
        ensures images { result.now.images ≡ self.now.images }
    {
        let _here = self.here;
        &self.turned
    }
}
