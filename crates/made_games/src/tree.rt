// A made game.
ghost use Rattle.std.specs.Prelude.{◌≡◌, IfOk};
ghost use Rattle.game_tree.specs.Information.{HasNoControls};
ghost use Rattle.game_tree.specs.Tree.{node_count};
ghost use Rattle.made_games.specs.Made.{made_tree, result_text};

use crate::moves::{NUMBERS, moves_from};
use game_tree::{GameTree, tree_of_moves};
use kb_geometry::{NoMemory, Shape};
use std::alloc::Global;

/// How many nodes a made game has: its root, and 200 moves.
pub const MADE_NODES: u32 = 201;

// How many moves a made game has.
const MOVES: usize = 200;

const _: () = prove!(MADE_NODES as usize == MOVES + 1);

/// The game with this number, from 0, of those of which the first begins with `start`: 200 moves in
/// a line on a board of 19 by 19, black first, whose points come from numbers. Black wins the games
/// of even numbers by resignation (property RE), white the others, and nothing else is told. The
/// only error is `NoMemory`.
pub fn made_tree(alloc: Global, start: u32, game: u32) -> Result<GameTree, NoMemory>
    ensures value { IfOk result (λ tree. tree ≡ made_tree start game) }
    ensures nodes { IfOk result (λ tree. node_count tree ≡ 201) }
{
    let first = (u64::from(start) + u64::from(game)) % NUMBERS;
    let moves = moves_from(alloc, first, MOVES)?;
    tree_of_moves(
        alloc,
        Shape::standard(),
        result_text(game),
        moves.as_slice(),
    )
}

// The text of a game's result.
fn result_text(game: u32) -> &'static [u8]
    ensures value { result.now ≡ result_text game }
    ensures simple { HasNoControls result.now }
{
    if game % 2 == 0 {
        b"B+R".as_slice()
    } else {
        b"W+R".as_slice()
    }
}
