// Segments of finished games.
ghost use Rattle.std.specs.Prelude.{
  ◌≡◌,
  ◌<◌,
  ◌≤◌,
  ◌+◌,
  ◌++◌,
  ◌↔◌,
  ℕ,
  length,
  map,
  Contains,
  Some,
  IfOk,
};
ghost use Rattle.std.specs.Arc.{arc_value};
ghost use Rattle.std.specs.List.{slice_get};
ghost use Rattle.std.specs.List.Sorted.{IsStrictlyIncreasing};
ghost use Rattle.std.specs.Option.{IsSomeAnd};
ghost use Rattle.game_tree.specs.Result.{outcome_of};
ghost use Rattle.info_filter.specs.Day.{IsDayOf};
ghost use Rattle.node_position.specs.Games.{AreNodeChanges};
ghost use Rattle.segment_store.specs.Finished.{
  AreCornersOfTree,
  AreRunsOfTree,
  AreSetsOfTree,
  HadCornerNumber,
  IsCanonicalOf,
};
ghost use Rattle.segment_store.specs.CornersOfGames.{AreCornersOfGames};
ghost use Rattle.segment_store.specs.Blocks.{AreNumbered, games_in};

use crate::block::NumberedBlock;
use crate::block_list::{BlockList, in_blocks, merged};
use crate::finished::FinishedGame;
use crate::game_corners::corner_index_of;
use capture_board::NodeDeltas;
use capture_index::RunIndex;
use corner_index::{CornerIndex, CornerKeys};
use dyer_signature::Signature;
use final_index::EverSets;
use game_tree::GameTree;
use kb_geometry::{NoMemory, Outcome};
use std::alloc::Global;
use std::marker::Model;
use std::sync::Arc;
use version_publisher::Part;

/// The most games of a base, and so of a segment.
pub const MAX_BASE_GAMES: u32 = 400_000;

/// Games in a row, at most 400,000. Contracts see the list of them.
// The games stand in blocks, which segments share.
#[derive(Debug, Drop)]
pub struct Segment {
    blocks: BlockList,
    // Which of the games had which number in which corner. Behind a pointer a segment is dropped in
    // few steps, of which proofs go through each.
    corner_index: Arc<CornerIndex>,
}

impl Model for Segment {
    ghost use Rattle.std.specs.Prelude.{List};
    ghost use Rattle.node_position.specs.Games.{Game};
    ghost use Rattle.segment_store.specs.CornersOfGames.{AreCornersOfGames};

    ghost Value = { List Game };

    ghost view = { λ s. s.blocks };

    ghost use Rattle.std.specs.Arc.{arc_value};

    ghost invariant = { λ s. AreCornersOfGames s.blocks (arc_value s.corner_index) };
}

impl Segment {
    // The games of a list, at most 400,000.
    pub(crate) fn of(alloc: Global, games: &[Arc<FinishedGame>]) -> Result<Segment, NoMemory>
        requires { length games.now ≤ 400000 }
        ensures { IfOk result (λ segment. segment ≡ map arc_value games.now) }
    {
        let blocks = in_blocks(alloc, games)?;
        let index = corner_index_of(alloc, games)?;
        let corner_index = Arc::new(alloc, index)?;
        Ok(Segment {
            blocks,
            corner_index,
        })
    }

    // Which of the games had which number in which corner.
    fn corner_index(&self) -> &CornerIndex
        ensures { AreCornersOfGames self.now result.now }
    {
        &*self.corner_index
    }

    /// Its blocks, one behind another. Each has the number of its first game.
    pub fn blocks(&self) -> &[NumberedBlock]
        ensures games { games_in result.now ≡ self.now }
        ensures numbered { AreNumbered result.now }
    {
        self.blocks.as_slice()
    }

    /// How many games it has.
    pub fn game_count(&self) -> u32
        ensures value { result ≡ length self.now }
        ensures most { length self.now ≤ 400000 }
    {
        self.blocks.game_count()
    }

    /// The game with this number, from 0.
    pub fn finished(&self, g: u32) -> &FinishedGame
        requires { g < length self.now }
        ensures { slice_get self.now g ≡ Some result.now }
    {
        self.blocks.finished(g)
    }

    /// The tree of a game.
    pub fn game(&self, g: u32) -> &GameTree
        requires { g < length self.now }
        ensures { IsSomeAnd (slice_get self.now g) (λ game. result.now ≡ game.tree) }
    {
        self.finished(g).tree()
    }

    /// The name of a game's file.
    pub fn file(&self, g: u32) -> &str
        requires { g < length self.now }
        ensures { IsSomeAnd (slice_get self.now g) (λ game. result.now ≡ game.file) }
    {
        self.finished(g).file()
    }

    /// The place of a game among the games of its file, from 0.
    pub fn place(&self, g: u32) -> u32
        requires { g < length self.now }
        ensures { IsSomeAnd (slice_get self.now g) (λ game. result ≡ game.place) }
    {
        self.finished(g).place()
    }

    /// The changes at the nodes of a game.
    pub fn deltas(&self, g: u32) -> &NodeDeltas
        requires { g < length self.now }
        ensures { IsSomeAnd (slice_get self.now g)
            (λ game. AreNodeChanges game.tree result.now) }
    {
        self.finished(g).deltas()
    }

    /// The points of a game that were black, white and empty at some node.
    pub fn ever(&self, g: u32) -> &EverSets
        requires { g < length self.now }
        ensures { IsSomeAnd (slice_get self.now g)
            (λ game. AreSetsOfTree game.tree result.now) }
    {
        self.finished(g).ever()
    }

    /// The runs of nodes at which each point of a game has one cell.
    pub fn runs(&self, g: u32) -> &RunIndex
        requires { g < length self.now }
        ensures { IsSomeAnd (slice_get self.now g)
            (λ game. AreRunsOfTree game.tree result.now) }
    {
        self.finished(g).runs()
    }

    /// The numbers that the corners of a game's board had.
    pub fn corners(&self, g: u32) -> &CornerKeys
        requires { g < length self.now }
        ensures { IsSomeAnd (slice_get self.now g)
            (λ game. AreCornersOfTree game.tree result.now) }
    {
        self.finished(g).corners()
    }

    /// The games whose boards had this number in this corner at some node, by their numbers,
    /// ascending. The corners and their numbers are those of [`CornerKeys`]. Nothing is allocated.
    pub fn with_corner(&self, corner: u8, key: u64) -> &[u32]
        requires { corner < 4 }
        ensures exact { (g : ℕ) → Contains result.now g
            ↔ IsSomeAnd (slice_get self.now g) (λ game. HadCornerNumber game corner key) }
        ensures ascending { IsStrictlyIncreasing result.now }
    {
        self.corner_index().games_with(corner, key)
    }

    /// The day of a game, as [`day_of`](info_filter::day_of) gives it for its date.
    pub fn day(&self, g: u32) -> Option<i32>
        requires { g < length self.now }
        ensures { IsSomeAnd (slice_get self.now g)
            (λ game. IsDayOf game.tree.info.date result) }
    {
        self.finished(g).day()
    }

    /// The class of a game's result.
    pub fn outcome(&self, g: u32) -> Outcome
        requires { g < length self.now }
        ensures { IsSomeAnd (slice_get self.now g)
            (λ game. result ≡ outcome_of game.tree.info.outcome_text) }
    {
        self.finished(g).outcome()
    }

    /// The canonical form of a game's [`signature`](dyer_signature::signature).
    pub fn canonical(&self, g: u32) -> &Signature
        requires { g < length self.now }
        ensures { IsSomeAnd (slice_get self.now g)
            (λ game. IsCanonicalOf game.tree result.now.bytes) }
    {
        self.finished(g).canonical()
    }
}

/// The games of the first, then those of the second: together at most 400,000. No game is copied.
/// The only error is `NoMemory`.
pub fn merge(alloc: Global, a: &Segment, b: &Segment) -> Result<Segment, NoMemory>
    requires { length a.now + length b.now ≤ 400000 }
    ensures { IfOk result (λ merged. merged ≡ a.now ++ b.now) }
{
    let blocks = merged(alloc, &a.blocks, &b.blocks)?;
    let first = a.blocks.game_count();
    let index = CornerIndex::join(alloc, a.corner_index(), b.corner_index(), first)?;
    let corner_index = Arc::new(alloc, index)?;
    Ok(Segment {
        blocks,
        corner_index,
    })
}

impl Part for Segment {
    ghost use Rattle.std.specs.Prelude.{length};

    type Item = FinishedGame;

    ghost items = { λ s. s };

    ghost MOST = { 400000 };

    const MOST: u32 = MAX_BASE_GAMES;

    fn count(&self) -> u32 {
        self.game_count()
    }
}
