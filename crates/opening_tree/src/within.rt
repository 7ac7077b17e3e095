// Which nodes of a game are gone through, which of them are entries, and what they play.
ghost use Rattle.std.specs.Prelude.{◌<◌, ◌↔◌, ℕ, IfNone, IfSome, IsTrue};
ghost use Rattle.kb_geometry.specs.declared.shape.Point.{Point};
ghost use Rattle.kb_geometry.specs.Board.{IsOnBoard};
ghost use Rattle.game_tree.specs.declared.node.Move.{Move};
ghost use Rattle.game_tree.specs.Tree as trees;
ghost use Rattle.capture_board.specs.Deltas as changes;
ghost use Rattle.opening_tree.specs.declared.within.PlayedAt.{PlayedAt};
ghost use Rattle.opening_tree.specs.GameFrames.{IsChangedWithin, IsPastAt, IsPastFrom};
ghost use Rattle.opening_tree.specs.NextMoves.{IsNextAt};

use capture_board::NodeDeltas;
use game_tree::{GameTree, Move};

// A number of a node from which on all nodes are past the depth: the least one.
pub(crate) fn end_within(depth: u32, tree: &GameTree) -> u32
    ensures { IsPastFrom depth tree.now result }
{
    let mut end = tree.node_count();
    while end > 0 {
        if !is_past(depth, tree, end - 1) {
            return end;
        }
        end -= 1;
    }
    end
}

// Whether the move number of a node's parent is greater than the depth. The root has no parent.
fn is_past(depth: u32, tree: &GameTree, n: u32) -> bool
    requires { n < trees.node_count tree.now }
    ensures { IsTrue result → IsPastAt depth tree.now n }
{
    match tree.parent(n) {
        Some(parent) => tree.move_number(parent) > depth,
        None => false,
    }
}

// Whether a node within the depth is the root or changes something.
pub(crate) fn is_entry(depth: u32, tree: &GameTree, deltas: &NodeDeltas, n: u32) -> bool
    requires in_tree { n < trees.node_count tree.now }
    requires in_range { n < changes.node_count deltas.now }
    ensures { IsTrue result ↔ IsChangedWithin depth tree.now deltas.now n }
{
    if tree.move_number(n) > depth {
        return false;
    }
    if deltas.parent(n).is_none() {
        return true;
    }
    !deltas.changes(n).is_empty()
}

// What a node plays, and the number of its parent.
#[derive(Clone, Copy, Debug)]
pub(crate) struct PlayedAt {
    pub(crate) parent: u32,
    pub(crate) played: Move,
}

// What a node plays from its parent, if that is within the depth.
pub(crate) fn next_at(depth: u32, tree: &GameTree, n: u32) -> Option<PlayedAt>
    requires { n < trees.node_count tree.now }
    ensures some { IfSome result (λ (p : PlayedAt). IsNextAt depth tree.now n p.parent p.played) }
    ensures before { IfSome result (λ (p : PlayedAt). p.parent < n) }
    ensures on_board { IfSome result (λ (p : PlayedAt).
        IfSome p.played.point (λ (q : Point). IsOnBoard tree.now.shape q)) }
    ensures none { IfNone result ((parent : ℕ) (played : Move) →
        ¬ IsNextAt depth tree.now n parent played) }
{
    let Some(parent) = tree.parent(n) else {
        return None;
    };
    let Some(played) = tree.played(n) else {
        return None;
    };
    if tree.move_number(parent) > depth {
        return None;
    }
    Some(PlayedAt { parent, played })
}
