// The openings of the games of a version, which are gone through in pieces, side by side.
ghost use Rattle.std.specs.Prelude.{◌<◌, ◌≤◌, ◌+◌, ◌*◌, IfOk, length, map};
ghost use Rattle.version_publisher.specs.Contents.{items_in};
ghost use Rattle.opening_tree.specs.Openings.{IsOpenings};
ghost use Rattle.opening_tree.specs.StoredGames.{AreOpeningsOf};

use crate::answer::Opening;
use crate::groups::add_openings;
use crate::opening_table::OpeningTable;
use crate::openings::{Asked, listed, openings_in};
use crate::packed::words_for;
use kb_geometry::{NoMemory, Shape};
use segment_store::{FinishedGame, Segment, games};
use std::alloc::Global;
use std::cmp::{max, min};
use std::thread;
use std::thread::Threads;
use version_publisher::Version;

// The most pieces of games.
const MAX_PIECES: usize = 8;

// At most so many games are gone through in one piece, at most twice as many in two, and so on.
const GAMES_OF_A_PIECE: usize = 128;

/// Which openings are asked for: those on boards of a shape, down to a depth, with at least so many
/// entries.
#[derive(Clone, Copy, Debug, PartialEq, Eq)]
pub struct WantedOpenings {
    pub shape: Shape,
    pub depth: u32,
    pub least: u32,
}

/// The openings that [`opening`](crate::opening) gives.
///
/// The games are gone through in at most eight pieces, side by side where threads can be had, and in
/// one piece where they are few. The only error is `NoMemory`.
pub fn opening_in_pieces<R: Threads + Sync>(
    rt: &R,
    alloc: Global,
    version: &Version<Segment>,
    wanted: WantedOpenings,
) -> Result<Vec<Opening>, NoMemory>
    ensures { IfOk result (λ openings. IsOpenings wanted.shape wanted.depth wanted.least
        (items_in version.now.parts) openings.items) }
{
    let games = games(alloc, version)?;
    let asked = Asked {
        shape: wanted.shape,
        depth: wanted.depth,
    };
    let openings = openings_of_pieces(rt, alloc, asked, games.as_slice())?;
    listed(alloc, &openings, wanted.least)
}

// The openings of these games, which are numbered from 0, those with few entries too.
fn openings_of_pieces<R: Threads + Sync>(
    rt: &R,
    alloc: Global,
    asked: Asked,
    games: &[&FinishedGame],
) -> Result<OpeningTable, NoMemory>
    requires { length games.now ≤ 400000 }
    ensures { IfOk result (λ openings.
        AreOpeningsOf 0 asked.shape asked.depth (map (λ g. g.now) games.now) openings.entries) }
{
    let size = piece_size(games.len());
    if games.len() <= size {
        return openings_in(alloc, asked, 0, games);
    }
    let pieces = thread::map_chunks(
        rt,
        alloc,
        games,
        size,
        &|start: usize, chunk: &[&FinishedGame]| -> Result<OpeningTable, NoMemory>
            requires { start + length chunk.now ≤ 400000 }
        { openings_in(alloc, asked, start as u32, chunk) },
    )?;
    let mut openings = OpeningTable::new(alloc, words_for(asked.shape.count()))?;
    for piece in pieces {
        add_openings(alloc, &mut openings, &piece?)?;
    }
    Ok(openings)
}

// How many games a piece has, of so many.
fn piece_size(games: usize) -> usize
    ensures some { 0 < result }
    ensures few_pieces { games ≤ 8 * result }
{
    let pieces = max(1, min(games.div_ceil(GAMES_OF_A_PIECE), MAX_PIECES));
    max(1, games.div_ceil(pieces))
}
