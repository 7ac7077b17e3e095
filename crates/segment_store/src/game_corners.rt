// Which games had which number in which corner of their boards.
ghost use Rattle.std.specs.Prelude.{◌≤◌, ◌∷◌, [], length, map, IfOk};
ghost use Rattle.std.specs.Arc.{arc_value};
ghost use Rattle.segment_store.specs.CornersOfGames.{AreCornersOfGames};

use crate::finished::FinishedGame;
use corner_index::CornerIndex;
use kb_geometry::NoMemory;
use std::alloc::Global;
use std::sync::Arc;

// The index of these games, at most 400,000: those of both halves, joined.
pub(crate) fn corner_index_of(
    alloc: Global,
    games: &[Arc<FinishedGame>],
) -> Result<CornerIndex, NoMemory>
    requires { length games.now ≤ 400000 }
    ensures { IfOk result (AreCornersOfGames (map arc_value games.now)) }
{
    let [game, ..] = games else {
        return Ok(CornerIndex::empty(alloc));
    };
    if games.len() == 1 {
        return index_of_game(alloc, game);
    }
    let (before, behind) = games.split_at(games.len() / 2);
    let a = corner_index_of(alloc, before)?;
    let b = corner_index_of(alloc, behind)?;
    CornerIndex::join(alloc, &a, &b, before.len() as u32)
}

// The index of one game.
fn index_of_game(alloc: Global, game: &FinishedGame) -> Result<CornerIndex, NoMemory>
    ensures { IfOk result (AreCornersOfGames (game.now ∷ [])) }
{
    CornerIndex::of_game(alloc, game.corners())
}
