// The blocks of a segment.
ghost use Rattle.std.specs.Prelude.{
  ◌≡◌,
  ◌<◌,
  ◌≤◌,
  ◌+◌,
  ◌++◌,
  [],
  length,
  map,
  take,
  Some,
  IfOk,
  OnOk,
};
ghost use Rattle.std.specs.Arc.{arc_value};
ghost use Rattle.std.specs.List.{slice_get};
ghost use Rattle.segment_store.specs.Blocks.{AreNumbered, games_in, games_of};

use crate::block::{Block, MAX_BLOCK, NumberedBlock};
use crate::finished::FinishedGame;
use kb_geometry::NoMemory;
use std::alloc::Global;
use std::cmp::min;
use std::marker::Model;
use std::sync::Arc;

// Blocks of games in a row, at most 400,000, which segments share. Contracts see the list of the
// games.
#[derive(Debug, Drop)]
pub(crate) struct BlockList {
    blocks: Vec<NumberedBlock>,
    count: u32,
}

impl Model for BlockList {
    ghost use Rattle.std.specs.Prelude.{List};
    ghost use Rattle.node_position.specs.Games.{Game};
    ghost use Rattle.segment_store.specs.Blocks.{AreBlocks, games_in};

    ghost Value = { List Game };

    ghost view = { λ s. games_in s.blocks.items };

    ghost invariant = { λ s. AreBlocks s.blocks.items s.count };
}

impl BlockList {
    // No game. It takes no memory.
    fn empty(alloc: Global) -> BlockList
        ensures { result ≡ [] }
    {
        BlockList {
            blocks: Vec::new(alloc),
            count: 0,
        }
    }

    // The games of a block behind.
    fn push(&mut self, block: Arc<Block>) -> Result<(), NoMemory>
        requires { length self.old + length (arc_value block) ≤ 400000 }
        ensures { OnOk result (self.new ≡ self.old ++ arc_value block) }
    {
        let more = block.len() as u32;
        let first = self.count;
        self.blocks.push(NumberedBlock { first, block })?;
        self.count += more;
        Ok(())
    }

    // The games of these blocks behind. The blocks are shared.
    fn append(&mut self, blocks: &[NumberedBlock]) -> Result<(), NoMemory>
        requires { length self.old + length (games_in blocks.now) ≤ 400000 }
        ensures { OnOk result (self.new ≡ self.old ++ games_in blocks.now) }
    {
        for n in 0..blocks.len() {
            let block = Arc::try_clone(&blocks[n].block)?;
            self.push(block)?;
        }
        Ok(())
    }

    // The blocks, one behind another. Each has the number of its first game.
    pub(crate) fn as_slice(&self) -> &[NumberedBlock]
        ensures games { games_in result.now ≡ self.now }
        ensures numbered { AreNumbered result.now }
    {
        self.blocks.as_slice()
    }

    // How many games they have.
    pub(crate) fn game_count(&self) -> u32
        ensures value { result ≡ length self.now }
        ensures most { length self.now ≤ 400000 }
    {
        self.count
    }

    // The game with this number, from 0.
    pub(crate) fn finished(&self, g: u32) -> &FinishedGame
        requires { g < length self.now }
        ensures { slice_get self.now g ≡ Some result.now }
    {
        let blocks = self.blocks.as_slice();
        let numbered = &blocks[block_with(blocks, g)];
        let block: &Block = &*numbered.block;
        block.get((g - numbered.first) as usize)
    }
}

// The games of the first, then those of the second: together at most 400,000. No game is copied.
pub(crate) fn merged(alloc: Global, a: &BlockList, b: &BlockList) -> Result<BlockList, NoMemory>
    requires { length a.now + length b.now ≤ 400000 }
    ensures { IfOk result (λ merged. merged ≡ a.now ++ b.now) }
{
    let (a, b) = (a.blocks.as_slice(), b.blocks.as_slice());
    let [before @ .., last] = a else {
        return merge_apart(alloc, a, b);
    };
    let [first, behind @ ..] = b else {
        return merge_apart(alloc, a, b);
    };
    if last.block.len() + first.block.len() > MAX_BLOCK {
        return merge_apart(alloc, a, b);
    }
    merge_joined(alloc, before, last, first, behind)
}

// The games of the first blocks, then those of the second.
fn merge_apart(
    alloc: Global,
    a: &[NumberedBlock],
    b: &[NumberedBlock],
) -> Result<BlockList, NoMemory>
    requires { length (games_in a.now) + length (games_in b.now) ≤ 400000 }
    ensures { IfOk result (λ merged. merged ≡ games_in a.now ++ games_in b.now) }
{
    let mut merged = BlockList::empty(alloc);
    merged.append(a)?;
    merged.append(b)?;
    Ok(merged)
}

// The same, where the last block of the one and the first of the other become one block.
fn merge_joined(
    alloc: Global,
    before: &[NumberedBlock],
    last: &NumberedBlock,
    first: &NumberedBlock,
    behind: &[NumberedBlock],
) -> Result<BlockList, NoMemory>
    requires few { length (games_of last.now) + length (games_of first.now) ≤ 64 }
    requires fits { length (games_in before.now) + length (games_of last.now)
        + length (games_of first.now) + length (games_in behind.now) ≤ 400000 }
    ensures { IfOk result (λ merged. merged ≡ games_in before.now
        ++ (games_of last.now ++ games_of first.now) ++ games_in behind.now) }
{
    let block = Block::join(alloc, &*last.block, &*first.block)?;
    let mut merged = BlockList::empty(alloc);
    merged.append(before)?;
    merged.push(Arc::new(alloc, block)?)?;
    merged.append(behind)?;
    Ok(merged)
}

// The games of a list, at most 400,000, in blocks of 64. The last block may have fewer.
pub(crate) fn in_blocks(alloc: Global, games: &[Arc<FinishedGame>]) -> Result<BlockList, NoMemory>
    requires { length games.now ≤ 400000 }
    ensures { IfOk result (λ list. list ≡ map arc_value games.now) }
{
    let mut list = BlockList::empty(alloc);
    let mut from = 0;
    while from < games.len() {
        let to = min(from + MAX_BLOCK, games.len());
        let block = Block::of(alloc, &games[from..to])?;
        list.push(Arc::new(alloc, block)?)?;
        from = to;
    }
    Ok(list)
}

// The place of the block with this game.
fn block_with(blocks: &[NumberedBlock], g: u32) -> usize
    requires numbered { AreNumbered blocks.now }
    requires in_range { g < length (games_in blocks.now) }
    ensures there { result < length blocks.now }
    ensures low { length (games_in (take result blocks.now)) ≤ g }
    ensures high { g < length (games_in (take (result + 1) blocks.now)) }
{
    let mut low = 0;
    let mut high = blocks.len();
    while high - low > 1 {
        let middle = low + (high - low) / 2;
        if blocks[middle].first <= g {
            low = middle;
        } else {
            high = middle;
        }
    }
    low
}
