// The moves of a made game.
ghost use Rattle.std.specs.Prelude.{◌≡◌, ◌<◌, IfOk};
ghost use Rattle.made_games.specs.Made.{made_moves, mover, next_number, point_of};

use game_tree::Move;
use kb_geometry::{Colour, NoMemory, Point};
use std::alloc::Global;

// The numbers of the generator are below this one.
pub(crate) const NUMBERS: u64 = 2_147_483_648;

// The number that comes behind another.
fn next_number(number: u64) -> u64
    requires { number < 2147483648 }
    ensures value { result ≡ next_number number }
    ensures below { result < 2147483648 }
{
    (1_103_515_245 * number + 12_345) % NUMBERS
}

// The point of a number.
fn point_of(number: u64) -> Point
    ensures value { result ≡ point_of number }
    ensures on_board { (result.x < 19) × (result.y < 19) }
{
    let place = number / 1024 % 361;
    Point {
        x: (place % 19) as u8,
        y: (place / 19) as u8,
    }
}

// Who plays a move.
fn mover(turn: u64) -> Colour
    ensures { result ≡ mover turn }
{
    if turn % 2 == 0 {
        Colour::Black
    } else {
        Colour::White
    }
}

// The first moves of the game that begins with this number, so many. The only error is `NoMemory`.
pub(crate) fn moves_from(alloc: Global, first: u64, count: usize) -> Result<Vec<Move>, NoMemory>
    requires { first < 2147483648 }
    ensures { IfOk result (λ moves. moves.items ≡ made_moves first count) }
{
    let mut moves = Vec::with_capacity(alloc, count)?;
    let mut number = first;
    for turn in 0..count {
        number = next_number(number);
        moves.push(Move {
            colour: mover(turn as u64),
            point: Some(point_of(number)),
        })?;
    }
    Ok(moves)
}
