// The openings of games, one game after another.
ghost use Rattle.std.specs.Prelude.{◌≡◌, ◌<◌, ◌+◌, ◌++◌, ◌∷◌, ◌↔◌, [], ℕ, List, Some, IfOk, IsTrue, OnOk, length, slice_index_or};
ghost use Rattle.kb_geometry.specs.Board.{point_count};
ghost use Rattle.kb_geometry.specs.Capture.{Position};
ghost use Rattle.game_tree.specs.Position.{ArePositions};
ghost use Rattle.game_tree.specs.Tree as trees;
ghost use Rattle.capture_board.specs.Deltas as changes;
ghost use Rattle.node_position.specs.Games.{Game};
ghost use Rattle.opening_tree.specs.declared.openings_of_games.Frame.{Frame};
ghost use Rattle.opening_tree.specs.Entries.{Entry};
ghost use Rattle.opening_tree.specs.GameFrames.{IsPastFrom};
ghost use Rattle.opening_tree.specs.GoneThrough.{
  AreNextsGone,
  IsGoneTo,
  IsReadyForGame,
  StandsAtEntry,
};
ghost use Rattle.opening_tree.specs.NextMoves.{NextAt};
ghost use Rattle.opening_tree.specs.Packing.{words_for};
ghost use Rattle.opening_tree.specs.StoredGames.{AreOpeningsOf};

use crate::groups::{EntryAt, add_entry, add_next};
use crate::image_walker::ImageWalker;
use crate::least::place_in_frame;
use crate::opening_table::OpeningTable;
use crate::openings::Asked;
use crate::packed::words_for;
use crate::within::{end_within, is_entry, next_at};
use capture_board::NodeDeltas;
use game_tree::{GameTree, Move};
use kb_geometry::{NoMemory, Shape};
use segment_store::FinishedGame;
use std::alloc::Global;

// The position at a node down to the depth: the number of its opening, and the symmetries that bring
// it to the canonical position, a bit for each, the lowest for the first.
#[derive(Clone, Copy, Debug)]
struct Frame {
    opening: usize,
    symmetries: u8,
}

// The openings of the games so far, and what is kept from game to game so that no node allocates: the
// walk over the nodes of a game, and what is known of the positions at its nodes.
#[derive(Debug, Drop)]
pub(crate) struct OpeningsOfGames {
    asked: Asked,
    openings: OpeningTable,
    walker: ImageWalker,
    frames: Vec<Frame>,
}

impl OpeningsOfGames {
    // No game yet. The only error is `NoMemory`.
    pub(crate) fn new(alloc: Global, asked: Asked) -> Result<Self, NoMemory>
        ensures asked { IfOk result (λ o. o.asked ≡ asked) }
        ensures board { IfOk result (λ o. o.walker.shape ≡ asked.shape) }
        ensures width { IfOk result (λ o. o.openings.width ≡ words_for (point_count asked.shape)) }
        ensures none { IfOk result (λ o. o.openings.entries ≡ []) }
    {
        let walker = ImageWalker::new(alloc, asked.shape)?;
        let openings = OpeningTable::new(alloc, words_for(asked.shape.count()))?;
        Ok(OpeningsOfGames {
            asked,
            openings,
            walker,
            frames: Vec::new(alloc),
        })
    }

    // The openings.
    pub(crate) fn into_openings(self) -> OpeningTable
        ensures { result ≡ self.openings }
    {
        self.openings
    }

    // Adds the game with this number, if its board has the shape that is asked for. The only error is
    // `NoMemory`.
    pub(crate) fn add_game(
        &mut self,
        alloc: Global,
        number: u32,
        game: &FinishedGame,
    ) -> Result<(), NoMemory>
        requires most { number < 400000 }
        requires board { self.old.walker.shape ≡ self.old.asked.shape }
        requires width { self.old.openings.width ≡ words_for (point_count self.old.asked.shape) }
        requires so_far { (first : ℕ) × (games : List Game) × (first + length games ≡ number)
            × AreOpeningsOf first self.old.asked.shape self.old.asked.depth games
            self.old.openings.entries }
        ensures asked { self.new.asked ≡ self.old.asked }
        ensures width { self.new.openings.width ≡ self.old.openings.width }
        ensures board { OnOk result (self.new.walker.shape ≡ self.new.asked.shape) }
        ensures added { OnOk result ((first : ℕ) (games : List Game) →
            first + length games ≡ number →
            AreOpeningsOf first self.old.asked.shape self.old.asked.depth games
            self.old.openings.entries →
            AreOpeningsOf first self.new.asked.shape self.new.asked.depth (games ++ game.now ∷ [])
            self.new.openings.entries) }
    {
        if !is_on(game, self.asked.shape) {
            return Ok(());
        }
        self.add_entries(alloc, number, game)?;
        self.add_nexts(game)?;
        Ok(())
    }

    // Adds the entries of a game, and notes what is known of the positions at its nodes.
    fn add_entries(
        &mut self,
        alloc: Global,
        number: u32,
        game: &FinishedGame,
    ) -> Result<(), NoMemory>
        requires board { self.old.walker.shape ≡ game.now.tree.shape }
        requires width { self.old.openings.width ≡ words_for (point_count game.now.tree.shape) }
        requires so_far { (es : List Entry) × (ns : List NextAt)
            × IsReadyForGame game.now.tree.shape es ns self.old.openings.entries }
        ensures asked { self.new.asked ≡ self.old.asked }
        ensures width { self.new.openings.width ≡ self.old.openings.width }
        ensures board { OnOk result (self.new.walker.shape ≡ game.now.tree.shape) }
        ensures gone { OnOk result ((positions : List Position) →
            ArePositions game.now.tree positions → (es : List Entry) (ns : List NextAt) →
            IsReadyForGame game.now.tree.shape es ns self.old.openings.entries →
            IsPastFrom self.old.asked.depth game.now.tree (length self.new.frames.items)
            × IsGoneTo self.old.asked.depth number game.now.tree positions
            (length self.new.frames.items) es ns self.new.openings.entries self.new.frames.items) }
    {
        let tree = game.tree();
        let deltas = game.deltas();
        let outcome = game.outcome();
        let end = end_within(self.asked.depth, tree);
        self.frames.clear();
        self.walker.restart();
        for node in 0..end {
            self.walker.enter_next(deltas, node);
            let entry = EntryAt {
                game: number,
                node,
                outcome,
            };
            let frame = self.frame_here(alloc, tree, deltas, entry)?;
            self.frames.push(frame)?;
        }
        Ok(())
    }

    // The frame of the position at a node where the walk stands. If the node is an entry, it is added.
    fn frame_here(
        &mut self,
        alloc: Global,
        tree: &GameTree,
        deltas: &NodeDeltas,
        entry: EntryAt,
    ) -> Result<Frame, NoMemory>
        requires in_tree { entry.node < trees.node_count tree.now }
        requires in_range { entry.node < changes.node_count deltas.now }
        requires known { length self.old.frames.items ≡ entry.node }
        requires width { self.old.openings.width ≡ words_for (point_count self.old.walker.shape) }
        requires at_node { StandsAtEntry tree.now deltas.now self.old.walker entry }
        requires so_far { (positions : List Position) × (es : List Entry) × (ns : List NextAt)
            × ArePositions tree.now positions
            × IsGoneTo self.old.asked.depth entry.game tree.now positions entry.node es ns
            self.old.openings.entries self.old.frames.items }
        ensures asked { self.new.asked ≡ self.old.asked }
        ensures width { self.new.openings.width ≡ self.old.openings.width }
        ensures walker { self.new.walker ≡ self.old.walker }
        ensures frames { self.new.frames ≡ self.old.frames }
        ensures gone { IfOk result (λ frame. (positions : List Position) →
            ArePositions tree.now positions → (es : List Entry) (ns : List NextAt) →
            IsGoneTo self.old.asked.depth entry.game tree.now positions
            entry.node es ns self.old.openings.entries self.old.frames.items →
            IsGoneTo self.old.asked.depth entry.game tree.now positions (entry.node + 1) es ns
            self.new.openings.entries (self.old.frames.items ++ frame ∷ [])) }
    {
        if !is_entry(self.asked.depth, tree, deltas, entry.node) {
            return Ok(self.frame_above(deltas, entry.node));
        }
        let turned = self.walker.turned();
        let least = turned.least();
        let opening = add_entry(alloc, &mut self.openings, turned.words(least.first), entry)?;
        Ok(Frame {
            opening,
            symmetries: least.all,
        })
    }

    // The frame of the position at the parent of a node, if it has one.
    fn frame_above(&self, deltas: &NodeDeltas, n: u32) -> Frame
        requires in_range { n < changes.node_count deltas.now }
        requires known { length self.now.frames.items ≡ n }
        ensures { (m : ℕ) (default : Frame) → changes.parent_of deltas.now n ≡ Some m →
            result ≡ slice_index_or self.now.frames.items m default }
    {
        match deltas.parent(n) {
            Some(parent) => self.frames[parent as usize],
            None => Frame {
                opening: 0,
                symmetries: 0,
            },
        }
    }

    // Adds the next moves of a game of which the frames are known.
    fn add_nexts(&mut self, game: &FinishedGame) -> Result<(), NoMemory>
        requires so_far { (positions : List Position) × (es : List Entry) × (ns : List NextAt)
            × ArePositions game.now.tree positions
            × AreNextsGone self.old.asked.depth game.now.tree positions 0 es ns
            self.old.openings.entries self.old.frames.items }
        ensures asked { self.new.asked ≡ self.old.asked }
        ensures width { self.new.openings.width ≡ self.old.openings.width }
        ensures walker { self.new.walker ≡ self.old.walker }
        ensures gone { OnOk result ((positions : List Position) →
            ArePositions game.now.tree positions → (es : List Entry) (ns : List NextAt) →
            AreNextsGone self.old.asked.depth game.now.tree positions 0 es ns
            self.old.openings.entries self.old.frames.items →
            AreNextsGone self.old.asked.depth game.now.tree positions
            (length self.old.frames.items) es ns self.new.openings.entries
            self.old.frames.items) }
    {
        for n in 0..self.frames.len() {
            self.add_next(game, n)?;
        }
        Ok(())
    }

    // Adds the next move at a node, if there is one.
    fn add_next(&mut self, game: &FinishedGame, n: usize) -> Result<(), NoMemory>
        requires in_range { n < length self.old.frames.items }
        requires in_game { n < trees.node_count game.now.tree }
        requires so_far { (positions : List Position) × (es : List Entry) × (ns : List NextAt)
            × ArePositions game.now.tree positions
            × AreNextsGone self.old.asked.depth game.now.tree positions n es ns
            self.old.openings.entries self.old.frames.items }
        ensures asked { self.new.asked ≡ self.old.asked }
        ensures width { self.new.openings.width ≡ self.old.openings.width }
        ensures walker { self.new.walker ≡ self.old.walker }
        ensures frames { self.new.frames ≡ self.old.frames }
        ensures gone { OnOk result ((positions : List Position) →
            ArePositions game.now.tree positions → (es : List Entry) (ns : List NextAt) →
            AreNextsGone self.old.asked.depth game.now.tree positions n es ns
            self.old.openings.entries self.old.frames.items →
            AreNextsGone self.old.asked.depth game.now.tree positions (n + 1) es ns
            self.new.openings.entries self.old.frames.items) }
    {
        let tree = game.tree();
        let shape = tree.shape();
        let Some(next) = next_at(self.asked.depth, tree, n as u32) else {
            return Ok(());
        };
        let frame = self.frames[next.parent as usize];
        let point = place_in_frame(frame.symmetries, shape, next.played.point);
        let turned = Move {
            colour: next.played.colour,
            point,
        };
        add_next(&mut self.openings, frame.opening, turned, game.outcome())?;
        Ok(())
    }
}

// Whether the board of a game has this shape.
fn is_on(game: &FinishedGame, shape: Shape) -> bool
    ensures shape { IsTrue result ↔ (game.now.tree.shape ≡ shape) }
    ensures tree { trees.IsTree game.now.tree }
{
    game.tree().shape() == shape
}
