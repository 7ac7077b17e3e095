// Which games and nodes a search looks at.
ghost use Rattle.std.specs.Prelude.{◌≡◌, IfSome, IsTrue};

use crate::asked::{has_word, query_of, value_of};
use crate::texts::{end_list, is_same, put, put_number, put_numbers, put_point, separate};
use crate::versions::version_of_one;
use candidate_sieve::{
    AskedPoints, BlockPlanes, Candidate, add_candidates, candidates_under, node_candidates, passes,
};
use case_files::CaseError;
use final_index::{OrderPlanes, Planes};
use kb_geometry::Shape;
use pattern_images::{Images, PatternCell, Query, images};
use ready_images::{ReadyImages, Want};
use search_engine::kept;
use segment_store::{Block, FinishedGame, Segment};
use std::alloc::Global;

/// `kept`: the games that are kept for a query. Their count is compared with the engine's.
pub(crate) fn kept_games(
    alloc: Global,
    asked: &str,
    part: &Segment,
    out: &mut Vec<u8>,
) -> Result<(), CaseError> {
    let query = query_of(alloc, asked)?;
    let mut numbers = Vec::new(alloc);
    for g in 0..part.game_count() {
        if is_kept(alloc, &query, part.finished(g))? {
            numbers.push(g)?;
        }
    }
    put_numbers(out, &numbers)?;
    let version = version_of_one(alloc, part)?;
    let count = kept(alloc, &version, &query)?;
    if count as usize != numbers.len() {
        put(out, "; but the engine keeps ")?;
        put_number(out, count)?;
    }
    Ok(())
}

fn is_kept(alloc: Global, query: &Query, game: &FinishedGame) -> Result<bool, CaseError> {
    let shape = game.tree().shape();
    let images = images(alloc, query, shape)?;
    Ok(query.is_for(shape) && passes(game.ever(), game.corners(), shape, &images))
}

/// `nodes`: at which a placement may begin to hold.
pub(crate) fn nodes(
    alloc: Global,
    asked: &str,
    game: &FinishedGame,
    out: &mut Vec<u8>,
) -> Result<(), CaseError> {
    let query = query_of(alloc, asked)?;
    let runs = game.runs();
    let images = images(alloc, &query, runs.shape())?;
    let nodes = node_candidates(alloc, runs, &images)?;
    put_numbers(out, &nodes)?;
    let under = candidates_under(alloc, runs, &images, &AskedPoints::of(&images))?;
    if nodes.as_slice() != under.as_slice() {
        put(out, "; but under the asked points ")?;
        put_numbers(out, &under)?;
    }
    Ok(())
}

/// `candidates`: for each placement the games of the first block that may have it, of all or of
/// those of `games=NUMBERS`, on boards for which the query is; by the order of stones too, where
/// `ordered` is asked.
pub(crate) fn candidates(
    alloc: Global,
    asked: &str,
    part: &Segment,
    out: &mut Vec<u8>,
) -> Result<(), CaseError> {
    let query = query_of(alloc, asked)?;
    let start = out.len();
    for numbered in part.blocks().iter().take(1) {
        for planes in numbered.block.planes() {
            if query.is_for(planes.shape()) {
                let order = order_of(alloc, asked, &*numbered.block, planes.shape())?;
                if let Some(order) = &order {
                    let block = in_order(planes, order);
                    put_candidates(alloc, &query, asked, &block, out, start)?;
                } else {
                    let block = unordered(planes);
                    put_candidates(alloc, &query, asked, &block, out, start)?;
                }
            }
        }
    }
    end_list(out, start)
}

fn in_order<'a>(planes: &'a Planes, order: &'a OrderPlanes) -> BlockPlanes<'a> {
    BlockPlanes {
        planes,
        order: Some(order),
    }
}

fn unordered<'a>(planes: &'a Planes) -> BlockPlanes<'a> {
    BlockPlanes {
        planes,
        order: None,
    }
}

// The order of the stones in the games of a block on boards of a shape, if it is asked for.
fn order_of(
    alloc: Global,
    asked: &str,
    block: &Block,
    shape: Shape,
) -> Result<Option<OrderPlanes>, CaseError> {
    if !has_word(asked, "ordered") {
        return Ok(None);
    }
    let mut order = OrderPlanes::new(alloc, shape)?;
    for at in 0..block.len() {
        push_order(alloc, &mut order, block.get(at))?;
    }
    Ok(Some(order))
}

// Adds a game, by its changes if its board has the shape.
fn push_order(
    alloc: Global,
    order: &mut OrderPlanes,
    game: &FinishedGame,
) -> Result<(), CaseError> {
    if order.len() >= 64 {
        return Err(CaseError::Bad("more than 64 games"));
    }
    if is_same(game.deltas().shape(), order.shape()) {
        order.push(alloc, game.deltas())?;
    } else {
        order.push_other();
    }
    Ok(())
}

// A bit for each game that is asked for, by digits.
fn games_of(asked: &str) -> u64 {
    let Some(digits) = value_of(asked, "games") else {
        return u64::MAX;
    };
    let mut games = 0;
    for digit in digits.as_bytes() {
        games |= 1 << (digit & 7);
    }
    games
}

fn put_candidates(
    alloc: Global,
    query: &Query,
    asked: &str,
    block: &BlockPlanes,
    out: &mut Vec<u8>,
    start: usize,
) -> Result<(), CaseError> {
    let ready = ReadyImages::new(alloc, images(alloc, query, block.planes.shape())?)?;
    for (placement, games) in candidates_in(alloc, block, &ready, games_of(asked))? {
        separate(out, start, ", ")?;
        put_candidate(out, ready.images(), placement as usize, games)?;
    }
    Ok(())
}

// The candidates by the numbers of their placements.
fn candidates_in(
    alloc: Global,
    block: &BlockPlanes,
    ready: &ReadyImages,
    games: u64,
) -> Result<Vec<(u32, u64)>, CaseError> {
    let mut found = Vec::new(alloc);
    if !is_same(ready.images().shape(), block.planes.shape()) {
        return Err(CaseError::Bad("images of another board"));
    }
    if !is_order_on(block.order, ready.images().shape()) {
        return Err(CaseError::Bad("order on another board"));
    }
    add_candidates(block, ready, games, &mut Vec::new(alloc), &mut found)?;
    let mut sorted = Vec::new(alloc);
    for Candidate {
        placement,
        games,
        ..
    } in &found {
        sorted.push((*placement, *games))?;
    }
    sorted.sort_unstable();
    Ok(sorted)
}

// Whether the order, if there is one, is for boards of this shape.
fn is_order_on(order: Option<&OrderPlanes>, shape: Shape) -> bool
    ensures { IsTrue result → IfSome order.entry (λ o. o.now.shape ≡ shape) }
{
    match order {
        Some(order) => is_same(order.shape(), shape),
        None => true,
    }
}

fn put_candidate(
    out: &mut Vec<u8>,
    images: &Images,
    placement: usize,
    games: u64,
) -> Result<(), CaseError> {
    if placement >= images.len() {
        return Err(CaseError::Bad("no such placement"));
    }
    let place = images.place(placement);
    put_point(out, place.x, place.y)?;
    put(out, " ")?;
    put_number(out, u32::from(place.cols))?;
    put(out, ":")?;
    put_number(out, u32::from(place.rows))?;
    put(out, " of")?;
    put_bits(out, games)
}

/// Appends the numbers of the bits of a word, each behind a space.
pub(crate) fn put_bits(out: &mut Vec<u8>, word: u64) -> Result<(), CaseError> {
    for bit in 0..64u32 {
        if word >> bit & 1 == 1 {
            put(out, " ")?;
            put_number(out, bit)?;
        }
    }
    Ok(())
}

/// `wants`: what each class of the images asks of points on the game's board.
pub(crate) fn wants(
    alloc: Global,
    asked: &str,
    game: &FinishedGame,
    out: &mut Vec<u8>,
) -> Result<(), CaseError> {
    let query = query_of(alloc, asked)?;
    let images = images(alloc, &query, game.tree().shape())?;
    let ready = ReadyImages::new(alloc, images)?;
    for class in 0..ready.images().class_count() {
        if class > 0 {
            put(out, " and ")?;
        }
        let start = out.len();
        for want in ready.class_wants(class).wants {
            separate(out, start, ", ")?;
            put_want(out, *want)?;
        }
        end_list(out, start)?;
    }
    Ok(())
}

fn put_want(out: &mut Vec<u8>, want: Want) -> Result<(), CaseError> {
    put_number(out, u32::from(want.offset))?;
    put(out, " ")?;
    put(
        out,
        match want.cell {
            PatternCell::Empty => ".",
            PatternCell::Black => "X",
            PatternCell::White => "O",
            PatternCell::NotWhite => ".X",
            PatternCell::NotBlack => ".O",
            PatternCell::Any => "*",
        },
    )
}
