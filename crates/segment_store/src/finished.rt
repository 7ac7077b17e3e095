// A game with what is asked of it again and again.
ghost use Rattle.std.specs.Prelude.{◌≡◌, ◌<◌, ℕ, Contains, IfOk};
ghost use Rattle.std.specs.Arc.{arc_str_bytes};
ghost use Rattle.kb_geometry.specs.declared.stone.Cell.{Cell};
ghost use Rattle.kb_geometry.specs.Board.{point_count};
ghost use Rattle.game_tree.specs.Result.{outcome_of};
ghost use Rattle.game_tree.specs.Tree.{IsTree};
ghost use Rattle.final_index.specs.Ever.{set_of};
ghost use Rattle.info_filter.specs.Day.{IsDayOf};
ghost use Rattle.node_position.specs.Games.{AreNodeChanges};
ghost use Rattle.segment_store.specs.Finished.{
  AreCornersOfTree,
  AreRunsOfTree,
  AreSetsOfTree,
  HasChanges,
  IsCanonicalOf,
};

use crate::indexes::Indexes;
use capture_board::NodeDeltas;
use capture_index::RunIndex;
use corner_index::CornerKeys;
use dyer_signature::{Signature, canonical, signature};
use final_index::EverSets;
use game_tree::GameTree;
use info_filter::day_of;
use kb_geometry::{NoMemory, Outcome};
use std::alloc::Global;
use std::marker::Model;
use std::sync::ArcStr;

/// A game that is searched. What is asked of each game again and again is kept beside its tree.
#[derive(Debug, Drop)]
pub struct FinishedGame {
    file: ArcStr,
    place: u32,
    tree: GameTree,
    deltas: NodeDeltas,
    indexes: Indexes,
    day: Option<i32>,
    outcome: Outcome,
    canonical: Signature,
}

impl Model for FinishedGame {
    ghost use Rattle.std.specs.Arc.{arc_str_bytes};
    ghost use Rattle.node_position.specs.Games.{Game};
    ghost use Rattle.segment_store.specs.Finished.{AreIndexesOf, IsOfItsTree};

    ghost Value = { Game };

    ghost view = { λ g. record { file = arc_str_bytes g.file; place = g.place; tree = g.tree } };

    ghost invariant = { λ g. IsOfItsTree g.tree g.deltas g.day g.outcome g.canonical.bytes
        × AreIndexesOf g.tree g.indexes.ever g.indexes.runs g.indexes.corners };
}

impl FinishedGame {
    /// The game of a file with this name, at this place among the games of the file, from 0. The
    /// changes are those of the tree, as [`deltas`](node_position::deltas) gives them. The only
    /// error is `NoMemory`.
    pub fn new(
        alloc: Global,
        file: ArcStr,
        place: u32,
        tree: GameTree,
        deltas: NodeDeltas,
    ) -> Result<FinishedGame, NoMemory>
        requires { AreNodeChanges tree deltas }
        ensures { IfOk result (λ game.
            game ≡ record { file = arc_str_bytes file; place = place; tree = tree }) }
    {
        let indexes = Indexes::of(alloc, &deltas)?;
        let day = day_of(tree.info().date());
        let outcome = tree.info().outcome();
        let canonical = canonical(&signature(&tree), tree.shape());
        Ok(FinishedGame {
            file,
            place,
            tree,
            deltas,
            indexes,
            day,
            outcome,
            canonical,
        })
    }

    // The name of its file, to be shared.
    pub(crate) fn shared_file(&self) -> &ArcStr
        ensures { arc_str_bytes result.now ≡ self.now.file }
    {
        &self.file
    }

    /// The name of its file.
    pub fn file(&self) -> &str
        ensures { result.now ≡ self.now.file }
    {
        self.file.as_str()
    }

    /// Its place among the games of its file, from 0.
    pub fn place(&self) -> u32
        ensures { result ≡ self.now.place }
    {
        self.place
    }

    /// Its tree.
    pub fn tree(&self) -> &GameTree
        ensures value { result.now ≡ self.now.tree }
        ensures tree { IsTree self.now.tree }
    {
        &self.tree
    }

    /// The changes at its nodes.
    pub fn deltas(&self) -> &NodeDeltas
        ensures { AreNodeChanges self.now.tree result.now }
    {
        &self.deltas
    }

    /// The points that were black, white and empty at some node.
    pub fn ever(&self) -> &EverSets
        ensures value { AreSetsOfTree self.now.tree result.now }
        ensures on_board { (stone : Cell) (p : ℕ) → Contains (set_of result.now stone) p →
            p < point_count self.now.tree.shape }
    {
        &self.indexes.ever
    }

    /// The runs of nodes at which each point has one cell.
    pub fn runs(&self) -> &RunIndex
        ensures value { AreRunsOfTree self.now.tree result.now }
        ensures shape { result.now.shape ≡ self.now.tree.shape }
    {
        &self.indexes.runs
    }

    /// The numbers that the corners of the board had.
    pub fn corners(&self) -> &CornerKeys
        ensures value { AreCornersOfTree self.now.tree result.now }
        ensures changes { HasChanges self.now.tree }
    {
        &self.indexes.corners
    }

    /// Its day, as [`day_of`] gives it for its date.
    pub fn day(&self) -> Option<i32>
        ensures { IsDayOf self.now.tree.info.date result }
    {
        self.day
    }

    /// The class of its result.
    pub fn outcome(&self) -> Outcome
        ensures { result ≡ outcome_of self.now.tree.info.outcome_text }
    {
        self.outcome
    }

    /// The canonical form of its [`signature`].
    pub fn canonical(&self) -> &Signature
        ensures { IsCanonicalOf self.now.tree result.now.bytes }
    {
        &self.canonical
    }
}
