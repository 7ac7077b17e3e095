// The table of the players of some games.
ghost use Rattle.std.specs.Prelude.{◌≤◌, length};

use crate::text::append_line;
use case_files::CaseError;
use game_tree::GameTree;
use info_filter::{PlayerRow, Players};
use kb_geometry::{NoMemory, append};
use std::alloc::Global;

// The most games whose table is made.
const MOST_GAMES: usize = 400_000;

/// Appends the rows of the table, a line each: games, wins, losses and name.
pub(crate) fn append_players(
    alloc: Global,
    trees: &[GameTree],
    out: &mut Vec<u8>,
) -> Result<(), CaseError> {
    if trees.len() > MOST_GAMES {
        return Err(CaseError::Bad("too many games"));
    }
    let players = table_of(alloc, trees)?;
    for row in players.rows() {
        append_row(out, row)?;
    }
    Ok(())
}

fn append_row(out: &mut Vec<u8>, row: PlayerRow<'_>) -> Result<(), CaseError> {
    let PlayerRow {
        name,
        games,
        wins,
        losses,
    } = row;
    let counts = format!(in *out.allocator(); "{games} {wins} {losses} ")?;
    append(out, counts.as_bytes())?;
    append_line(out, name)
}

// The table of these games.
fn table_of(alloc: Global, games: &[GameTree]) -> Result<Players, NoMemory>
    requires { length games.now ≤ 400000 }
{
    let mut players = Players::new(alloc);
    for game in games {
        players.add(alloc, game.info())?;
    }
    Ok(players)
}
