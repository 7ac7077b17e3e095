// A search in the caller's thread as long as little is done, and in pieces, side by side, behind that.
ghost use Rattle.std.specs.Prelude.{◌≡◌, ◌≤◌, ◌<◌, [], IfOk, IfSome, length};
ghost use Rattle.search_engine.specs.Hits.{AreHits};
ghost use Rattle.search_engine.specs.Items.{AreNumberedFrom, games_of_items};
ghost use Rattle.search_engine.specs.Searching.{
  AreCovered,
  AreFirstHitsAdded,
  AreItemHitsAdded,
};

use crate::item::Item;
use crate::search_items::Searcher;
use capture_board::Steps;
use kb_geometry::{NoMemory, joined};
use pattern_images::Hit;
use std::alloc::Global;
use std::cmp::{max, min};
use std::marker::Brand;
use std::sync::ledger::{Blank, Ledger};
use std::thread;
use std::thread::Threads;

// The most pieces of a search.
const MAX_PIECES: usize = 8;

// The hits of the first blocks of a search.
#[derive(Debug, Drop)]
struct FirstHits {
    hits: Vec<Hit>,
    // How many blocks these are.
    blocks: usize,
}

// The hits of the games of blocks. The games are numbered from 0. Blocks are searched in the caller's
// thread until much is done; those that are left then are searched in pieces, side by side. So a
// search that does little starts no thread, however many games there are.
pub(crate) fn hits_of<R: Threads + Sync>(
    rt: &R,
    searcher: &Searcher,
    items: &[Item],
) -> Result<Vec<Hit>, NoMemory>
    requires numbered { AreNumberedFrom 0 items.now }
    requires covered { AreCovered searcher.now.ready.now.query searcher.now.ready.now.shapes
        (games_of_items items.now) }
    ensures { IfOk result (λ hits. AreHits searcher.now.ready.now.query searcher.now.filter.now
        (games_of_items items.now) hits.items) }
{
    let first = first_hits(searcher, items)?;
    let left = &items[first.blocks..];
    if left.is_empty() {
        return Ok(first.hits);
    }
    let size = piece_size(left.len(), pieces_for(rt, first.blocks, left.len()));
    hits_behind(rt, searcher, left, size, first.hits)
}

// The same where little is done, so that all blocks are searched in the caller's thread; else none.
pub(crate) fn little_hits(searcher: &Searcher, items: &[Item]) -> Result<Option<Vec<Hit>>, NoMemory>
    requires numbered { AreNumberedFrom 0 items.now }
    requires covered { AreCovered searcher.now.ready.now.query searcher.now.ready.now.shapes
        (games_of_items items.now) }
    ensures { IfOk result (λ found. IfSome found (λ hits. AreHits searcher.now.ready.now.query
        searcher.now.filter.now (games_of_items items.now) hits.items)) }
{
    let first = first_hits(searcher, items)?;
    if first.blocks < items.len() {
        return Ok(None);
    }
    Ok(Some(first.hits))
}

// In how many pieces blocks that are left are searched, where so many others were: each has about as
// many blocks as those. There is one piece on one processor. Elsewhere there are at most two for each:
// one takes longer than another, and so all processors have work until about the end.
fn pieces_for<R: Threads>(rt: &R, done: usize, left: usize) -> usize
    ensures { result ≤ 8 }
{
    let processors = match thread::available_parallelism(rt) {
        Ok(count) => count.get(),
        Err(_) => 1,
    };
    if processors < 2 {
        return 1;
    }
    min(
        left.div_ceil(max(1, done)),
        min(processors, MAX_PIECES / 2) * 2,
    )
}

// How many blocks a piece has, of so many in at most so many pieces.
fn piece_size(items: usize, pieces: usize) -> usize
    ensures { 0 < result }
{
    max(1, items.div_ceil(max(1, pieces)))
}

// Adds the hits of the games of blocks to those of blocks before them. Pieces of so many blocks are
// searched side by side.
fn hits_behind<R: Threads + Sync>(
    rt: &R,
    searcher: &Searcher,
    items: &[Item],
    size: usize,
    before: Vec<Hit>,
) -> Result<Vec<Hit>, NoMemory>
    requires { 0 < size }
    ensures { IfOk result (λ hits. AreItemHitsAdded searcher.now.ready.now.query
        searcher.now.filter.now searcher.now.ready.now.shapes items.now
        before.items hits.items) }
{
    let alloc = searcher.alloc;
    let mut pieces = thread::map_chunks(
        rt,
        alloc,
        items,
        size,
        &|_, chunk| { piece_hits(searcher, chunk) },
    )?;
    pieces.insert(0, Ok(before))?;
    joined(alloc, pieces)
}

// The hits of the games of the first blocks. Nobody asks for the steps.
fn first_hits(searcher: &Searcher, items: &[Item]) -> Result<FirstHits, NoMemory>
    ensures most { IfOk result (λ first. first.blocks ≤ length items.now) }
    ensures hits { IfOk result (λ first. AreFirstHitsAdded searcher.now.ready.now.query
        searcher.now.filter.now searcher.now.ready.now.shapes items.now
        first.blocks [] first.hits.items) }
{
    counted_first_hits::<Brand>(searcher, items, Blank::new(1))
}

// The same, with steps that are counted in a ledger of their own.
fn counted_first_hits<L: Ledger>(
    searcher: &Searcher,
    items: &[Item],
    blank: Blank,
) -> Result<FirstHits, NoMemory>
    requires name { blank.name ≡ L.name }
    requires parts { blank.parts ≡ L.parts }
    requires some { 0 < blank.parts }
    ensures most { IfOk result (λ first. first.blocks ≤ length items.now) }
    ensures hits { IfOk result (λ first. AreFirstHitsAdded searcher.now.ready.now.query
        searcher.now.filter.now searcher.now.ready.now.shapes items.now
        first.blocks [] first.hits.items) }
{
    let mut steps = Steps::<L>::new(blank);
    let mut hits = Vec::new(searcher.alloc);
    let blocks = searcher.add_first_hits(items, &mut hits, &mut steps)?;
    Ok(FirstHits { hits, blocks })
}

// The hits of the games of some blocks. Nobody asks for the steps.
fn piece_hits(searcher: &Searcher, items: &[Item]) -> Result<Vec<Hit>, NoMemory>
    ensures { IfOk result (λ hits. AreItemHitsAdded searcher.now.ready.now.query
        searcher.now.filter.now searcher.now.ready.now.shapes items.now [] hits.items) }
{
    counted_hits::<Brand>(searcher, items, Blank::new(1))
}

// The same, with steps that are counted in a ledger of their own.
fn counted_hits<L: Ledger>(
    searcher: &Searcher,
    items: &[Item],
    blank: Blank,
) -> Result<Vec<Hit>, NoMemory>
    requires name { blank.name ≡ L.name }
    requires parts { blank.parts ≡ L.parts }
    requires some { 0 < blank.parts }
    ensures { IfOk result (λ hits. AreItemHitsAdded searcher.now.ready.now.query
        searcher.now.filter.now searcher.now.ready.now.shapes items.now [] hits.items) }
{
    let mut steps = Steps::<L>::new(blank);
    let mut hits = Vec::new(searcher.alloc);
    searcher.add_items_hits(items, &mut hits, &mut steps)?;
    Ok(hits)
}
