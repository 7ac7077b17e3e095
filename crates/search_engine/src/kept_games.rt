// How many games of a version are kept for a query.
ghost use Rattle.std.specs.Prelude.{◌≡◌, ◌<◌, ◌≤◌, IfOk, Some, length};
ghost use Rattle.std.specs.List.{slice_get};
ghost use Rattle.version_publisher.specs.Contents.{items_in};
ghost use Rattle.node_position.specs.Games.{Game};
ghost use Rattle.search_engine.specs.Items.{AreNumberedFrom, games_of_items};
ghost use Rattle.search_engine.specs.KeptBlocks.{
  AreCornersOf,
  AreCornersTold,
  AreKeptInBlock,
  AreKeptOn,
};
ghost use Rattle.search_engine.specs.KeptGames.{AreKept};
ghost use Rattle.search_engine.specs.Searching.{AreCovered};

use crate::item::Item;
use crate::items::items_of_version;
use crate::ready_query::ReadyQuery;
use candidate_sieve::kept_games;
use corner_index::CornerKeys;
use final_index::Planes;
use kb_geometry::NoMemory;
use pattern_images::Query;
use segment_store::{Block, Segment};
use std::alloc::Global;
use version_publisher::Version;

/// How many games of a version are kept for a query: those in which each cell of some placement
/// was allowed at some node, and each corner that the placement covers stood as it asks at some
/// node.
///
/// A game with a hit is kept. The only error is `NoMemory`.
pub fn kept(alloc: Global, version: &Version<Segment>, query: &Query) -> Result<u32, NoMemory>
    ensures { IfOk result (λ k. AreKept query.now (items_in version.now.parts) k) }
{
    let items = items_of_version(alloc, version)?;
    let ready = ReadyQuery::of(alloc, query, &items)?;
    kept_of_items(alloc, &ready, &items)
}

// How many games of blocks are kept. The games are numbered from 0.
fn kept_of_items(alloc: Global, ready: &ReadyQuery, items: &[Item]) -> Result<u32, NoMemory>
    requires numbered { AreNumberedFrom 0 items.now }
    requires covered { AreCovered ready.now.query ready.now.shapes (games_of_items items.now) }
    ensures { IfOk result (λ k. AreKept ready.now.query (games_of_items items.now) k) }
{
    let mut room = Vec::new(alloc);
    let mut count = 0;
    for item in items {
        let kept = kept_in_block(alloc, ready, item.block, &mut room)?;
        count += (kept >> item.skip).count_ones();
    }
    Ok(count)
}

// The games of a block that are kept, a bit for each. The words are room for work.
fn kept_in_block(
    alloc: Global,
    ready: &ReadyQuery,
    block: &Block,
    room: &mut Vec<u64>,
) -> Result<u64, NoMemory>
    ensures { IfOk result (AreKeptInBlock ready.now.query ready.now.shapes block.now) }
{
    let corners = corners_of(alloc, block)?;
    let mut kept = 0;
    for planes in block.planes() {
        kept |= kept_on_shape(ready, planes, &corners, room)?;
    }
    Ok(kept)
}

// Those on boards of one shape. Where there are no images for the shape, the query doesn't look there.
fn kept_on_shape(
    ready: &ReadyQuery,
    planes: &Planes,
    corners: &[&CornerKeys],
    room: &mut Vec<u64>,
) -> Result<u64, NoMemory>
    requires { length corners.now ≤ 64 }
    ensures { IfOk result (AreKeptOn ready.now.query ready.now.shapes planes.now
        corners.now) }
{
    let Some(on_shape) = ready.find(planes.shape()) else {
        return Ok(0);
    };
    kept_games(planes, on_shape, corners, room)
}

// The numbers of the corners of each game of a block, in their order.
fn corners_of<'a>(alloc: Global, block: &'a Block) -> Result<Vec<&'a CornerKeys>, NoMemory>
    ensures { IfOk result (λ all. AreCornersOf block.now all.items) }
{
    let mut all = Vec::with_capacity(alloc, block.len())?;
    for at in 0..block.len() {
        all.push(corners_at(block, at))?;
    }
    Ok(all)
}

// The numbers of the corners of the game at this place in a block.
fn corners_at(block: &Block, at: usize) -> &CornerKeys
    requires { at < length block.now }
    ensures { (game : Game) → slice_get block.now at ≡ Some game →
        AreCornersTold game.tree result.now }
{
    block.get(at).corners()
}
