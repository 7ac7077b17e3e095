// The segment of made games, in up to eight pieces side by side.
ghost use Rattle.std.specs.Prelude.{◌≡◌, ◌+◌, ◌<◌, ◌≤◌, IfOk};
ghost use Rattle.import_work.specs.Log.{games_of_segments};
ghost use Rattle.import_work.specs.Made.{made_games};
ghost use Rattle.import_work.specs.MadePieces.{AreCut};

use crate::found::Follower;
use crate::merging::in_one;
use crate::pieces::pieces_for;
use kb_geometry::{NoMemory, joined};
use made_games::made_tree;
use segment_store::{FinishedGame, Segment, SegmentBuilder};
use std::alloc::Global;
use std::sync::ArcStr;
use std::thread;
use std::thread::Threads;

// For fewer games than these a thread costs more than it spares.
const LEAST_GAMES: u32 = 16;

// Some of the made games: from this number on, so many.
#[derive(Clone, Copy, Debug)]
struct Piece {
    start: u32,
    first: u32,
    count: u32,
}

// The segment of made games from this number on, so many, where the first of all begins with
// `start`.
pub(crate) fn made_segment<R: Threads + Sync>(
    rt: &R,
    alloc: Global,
    start: u32,
    first: u32,
    count: u32,
) -> Result<Segment, NoMemory>
    requires few { count ≤ 400000 }
    requires fits { first + count < 4294967296 }
    ensures { IfOk result (λ segment. segment ≡ made_games start first count) }
{
    let most = pieces_for(rt, u64::from(count / LEAST_GAMES)) as u32;
    let pieces = cut(alloc, start, first, count, most)?;
    let made = thread::map_vec(rt, pieces, &|piece| { made_piece(alloc, piece) })?;
    let segments = joined(alloc, made)?;
    in_one(alloc, segments)
}

// The numbers of these games in at most so many pieces, in order, none without a game. The longest
// piece has at most one game more than the shortest.
fn cut(alloc: Global, start: u32, first: u32, count: u32, most: u32) -> Result<Vec<Piece>, NoMemory>
    requires some { 1 ≤ most }
    requires most { most ≤ 8 }
    requires few { count ≤ 400000 }
    requires fits { first + count < 4294967296 }
    ensures { IfOk result (λ pieces. AreCut start first count pieces.items) }
{
    let mut pieces = Vec::new(alloc);
    let mut next = first;
    let mut left = count;
    let mut parts = most;
    while left > 0 {
        let own = share_of(left, parts);
        pieces.push(Piece {
            start,
            first: next,
            count: own,
        })?;
        next += own;
        left -= own;
        parts -= 1;
    }
    Ok(pieces)
}

// How many games the next of so many pieces has, where so many games are left.
fn share_of(left: u32, parts: u32) -> u32
    requires { (0 < left) × (0 < parts) }
    ensures some { 0 < result }
    ensures within { result ≤ left }
    ensures last { parts ≡ 1 → result ≡ left }
{
    left.div_ceil(parts)
}

// The games of a piece: one segment.
fn made_piece(alloc: Global, piece: Piece) -> Result<Vec<Segment>, NoMemory>
    requires few { piece.count ≤ 400000 }
    requires fits { piece.first + piece.count < 4294967296 }
    ensures { IfOk result (λ segments. games_of_segments segments.items
        ≡ made_games piece.start piece.first piece.count) }
{
    let mut segments = Vec::with_capacity(alloc, 1)?;
    segments.push(segment_of(alloc, piece)?)?;
    Ok(segments)
}

// The segment of the games of a piece.
fn segment_of(alloc: Global, piece: Piece) -> Result<Segment, NoMemory>
    requires few { piece.count ≤ 400000 }
    requires fits { piece.first + piece.count < 4294967296 }
    ensures { IfOk result (λ games. games ≡ made_games piece.start piece.first piece.count) }
{
    let file = ArcStr::from_str(alloc, "make")?;
    let mut follower = Follower::new();
    let mut games = SegmentBuilder::new(alloc);
    for number in piece.first..piece.first + piece.count {
        let tree = made_tree(alloc, piece.start, number)?;
        let deltas = follower.deltas(alloc, &tree)?;
        let game = FinishedGame::new(alloc, file.clone()?, number, tree, deltas)?;
        games.add_finished(alloc, game)?;
    }
    games.finish(alloc)
}
