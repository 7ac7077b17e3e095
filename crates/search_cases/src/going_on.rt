// How far a placement goes on to hold.
ghost use Rattle.std.specs.Prelude.{◌≡◌, ◌<◌, length};

use crate::asked::query_of;
use crate::plain::Held;
use crate::texts::{end_list, put, put_number, separate};
use capture_index::RunIndex;
use case_files::CaseError;
use pattern_images::images;
use ready_images::ReadyImages;
use run_matcher::{Begun, Buffers, Gathered, HoldsTo, holds_to};
use segment_store::FinishedGame;
use std::alloc::Global;

/// `holding`: of the only placement of a query, for each node at which it holds up to before which
/// node it is known to go on, and for each at which it begins what is known with the occurrence.
pub(crate) fn answer(
    alloc: Global,
    asked: &str,
    game: &FinishedGame,
    out: &mut Vec<u8>,
) -> Result<(), CaseError> {
    let query = query_of(alloc, asked)?;
    let runs = game.runs();
    let images = images(alloc, &query, runs.shape())?;
    let held = Held::of(alloc, game.deltas(), &images)?;
    let ready = ReadyImages::new(alloc, images)?;
    if ready.images().len() != 1 {
        return Err(CaseError::Bad("not one placement"));
    }
    put_held(runs, &ready, &held, out)?;
    put(out, "; begins ")?;
    let mut gathered = Gathered::new(alloc);
    // Twice, since each occurrence is listed once.
    gathered.add(runs, &ready.placement(0), &mut Buffers::new(alloc))?;
    gathered.add(runs, &ready.placement(0), &mut Buffers::new(alloc))?;
    put_begun(out, &gathered.sorted(alloc)?)
}

fn put_held(
    runs: &RunIndex,
    ready: &ReadyImages,
    held: &Held,
    out: &mut Vec<u8>,
) -> Result<(), CaseError>
    requires shape { ready.now.images.shape ≡ runs.now.shape }
    requires placement { 0 < length ready.now.images.placements }
{
    let start = out.len();
    for node in 0..runs.node_count() {
        if held.has(node, 0) {
            separate(out, start, " ")?;
            put_number(out, node)?;
            put(out, "..")?;
            put_number(out, holds_to(runs, &ready.placement(0), node))?;
        }
    }
    end_list(out, start)
}

fn put_begun(out: &mut Vec<u8>, begun: &[Begun]) -> Result<(), CaseError> {
    let start = out.len();
    for Begun { occurrence, holds } in begun {
        separate(out, start, " ")?;
        put_number(out, occurrence.node)?;
        put(out, "..")?;
        put_number(out, end_of(*holds))?;
    }
    end_list(out, start)
}

// 0 where nothing is known.
fn end_of(holds: HoldsTo) -> u32 {
    match holds {
        HoldsTo::Known { end } => end,
        HoldsTo::Unknown => 0,
    }
}
