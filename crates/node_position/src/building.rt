// The changes at the nodes of a game tree.
ghost use Rattle.std.specs.Prelude.{◌≡◌, ◌<◌, All, IfOk, IfSome, IsSome};
ghost use Rattle.std.specs.Option.{IsSomeAnd};
ghost use Rattle.kb_geometry.specs.declared.shape.Point.{Point};
ghost use Rattle.kb_geometry.specs.Board.{IsOnBoard, IsOrderedRectOnBoard};
ghost use Rattle.kb_geometry.specs.Capture.{Position};
ghost use Rattle.game_tree.specs.declared.node.Move.{Move};
ghost use Rattle.game_tree.specs.declared.node.Setup.{Setup};
ghost use Rattle.game_tree.specs.Position.{IsMoved, set_up_all};
ghost use Rattle.capture_board.specs.Changes.{LeadFrom};
ghost use Rattle.capture_board.specs.Walking.{MayLeaveTo, parent_here};
ghost use Rattle.node_position.specs.Games.{AreNodeChanges};
ghost use Rattle.node_position.specs.Standing.{Shows};

use capture_board::{Board, ChangeList, NodeDeltas};
use game_tree::{GameTree, Move, Setup};
use kb_geometry::NoMemory;
use std::alloc::Global;

/// What each node of a tree changes against its parent. The only error is `NoMemory`.
///
/// Each node is played once and taken back at most once. The lists of the answer have no spare room,
/// unless the allocator refuses a smaller block.
pub fn deltas(alloc: Global, tree: &GameTree) -> Result<NodeDeltas, NoMemory>
    ensures { IfOk result (AreNodeChanges tree.now) }
{
    let mut board = Board::empty(tree.shape());
    let mut changes = ChangeList::new();
    deltas_with(alloc, tree, &mut board, &mut changes)
}

/// The same, on a board and with a list that were made before, whatever they hold. Both have room
/// for the greatest board, so where there are many trees they are made once.
pub fn deltas_with(
    alloc: Global,
    tree: &GameTree,
    board: &mut Board,
    changes: &mut ChangeList,
) -> Result<NodeDeltas, NoMemory>
    ensures { IfOk result (AreNodeChanges tree.now) }
{
    let shape = tree.shape();
    let mut deltas = NodeDeltas::with_room(alloc, shape, tree.node_count())?;
    board.reset(shape);
    let mut here = None;
    for n in 0..tree.node_count() {
        let parent = tree.parent(n);
        go_back(board, &deltas, here, parent);
        changes.clear();
        set_up(board, tree.setups(n), changes);
        play(board, tree.played(n), changes);
        deltas.push(parent, changes.as_slice())?;
        here = Some(n);
    }
    deltas.shrink_to_fit();
    let _count = deltas.node_count();
    Ok(deltas)
}

// Takes back the changes of nodes, from one up to another above it, or to above the root.
fn go_back(board: &mut Board, deltas: &NodeDeltas, from: Option<u32>, above: Option<u32>)
    requires above { MayLeaveTo deltas.now from above }
    requires shows { Shows deltas.now from board.old }
    ensures { Shows deltas.now above board.new }
{
    let mut here = from;
    while here != above {
        here = take_back(board, deltas, here);
    }
}

// Takes back the changes of the node that the board shows, and answers its parent.
fn take_back(board: &mut Board, deltas: &NodeDeltas, here: Option<u32>) -> Option<u32>
    requires at_node { IsSome here }
    requires shows { Shows deltas.now here board.old }
    ensures parent { result ≡ parent_here deltas.now here }
    ensures before { IfSome result (λ m. IsSomeAnd here (λ n. m < n)) }
    ensures shows { Shows deltas.now result board.new }
{
    let Some(n) = here else {
        return None;
    };
    board.undo(deltas.changes(n));
    deltas.parent(n)
}

// Applies setups, one after another.
fn set_up(board: &mut Board, setups: &[Setup], changes: &mut ChangeList)
    requires on_board { All (λ (s : Setup). IsOrderedRectOnBoard board.old.shape s.rect)
        setups.now }
    requires leads { (base : Position) × LeadFrom base changes.old board.old.position }
    ensures shape { board.new.shape ≡ board.old.shape }
    ensures position { board.new.position
        ≡ set_up_all board.old.shape board.old.position setups.now }
    ensures changes { (base : Position) → LeadFrom base changes.old board.old.position →
        LeadFrom base changes.new board.new.position }
{
    for setup in setups {
        board.set(setup.cell, setup.rect, changes);
    }
}

// Plays what a node plays.
fn play(board: &mut Board, played: Option<Move>, changes: &mut ChangeList)
    requires on_board { IfSome played
        (λ (m : Move). IfSome m.point (λ (p : Point). IsOnBoard board.old.shape p)) }
    requires leads { (base : Position) × LeadFrom base changes.old board.old.position }
    ensures shape { board.new.shape ≡ board.old.shape }
    ensures moved { IsMoved board.old.shape board.old.position played board.new.position }
    ensures changes { (base : Position) → LeadFrom base changes.old board.old.position →
        LeadFrom base changes.new board.new.position }
{
    if let Some(played) = played {
        board.play(played.colour, played.point, changes);
    }
}
