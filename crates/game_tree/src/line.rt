// A game of one line of moves.
ghost use Rattle.std.specs.Prelude.{◌≡◌, ◌<◌, length, All, IfOk, IfSome};
ghost use Rattle.kb_geometry.specs.declared.shape.Point.{Point};
ghost use Rattle.kb_geometry.specs.Board.{IsOnBoard};
ghost use Rattle.game_tree.specs.declared.node.Move.{Move};
ghost use Rattle.game_tree.specs.Information.{HasNoControls};
ghost use Rattle.game_tree.specs.Line.{line_tree, told_result};

use crate::{GameTree, Info, Move, TreeBuilder};
use kb_geometry::{NoMemory, Shape};
use std::alloc::Global;

/// A game of these moves, fewer than 65,536, one below the other: its root sets up and plays
/// nothing, and each other node plays one move. Of the game this text of its result alone is told.
/// The only error is `NoMemory`.
pub fn tree_of_moves(
    alloc: Global,
    shape: Shape,
    outcome_text: &[u8],
    moves: &[Move],
) -> Result<GameTree, NoMemory>
    requires few { length moves.now < 65536 }
    requires on_board { All (λ (m : Move). IfSome m.point (λ (p : Point). IsOnBoard shape p))
        moves.now }
    requires text { HasNoControls outcome_text.now }
    ensures { IfOk result (λ tree.
        tree ≡ line_tree shape (told_result outcome_text.now) moves.now) }
{
    let mut builder = TreeBuilder::with_room(alloc, shape, moves.len() + 1)?;
    builder.add_node(None, None)?;
    for number in 0..moves.len() {
        builder.add_node(Some(number as u32), Some(moves[number]))?;
    }
    builder.is_grown();
    let info = Info::of_result(alloc, outcome_text)?;
    Ok(builder.finish(info))
}
