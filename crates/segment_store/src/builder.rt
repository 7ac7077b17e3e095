// A segment that is being built.
ghost use Rattle.std.specs.Prelude.{◌≡◌, ◌<◌, ◌≤◌, ◌++◌, ◌∷◌, [], length, IfOk, MatchResult};
ghost use Rattle.std.specs.Arc.{arc_str_bytes, arc_value};
ghost use Rattle.node_position.specs.Games.{AreNodeChanges};

use crate::finished::FinishedGame;
use crate::segment::Segment;
use capture_board::NodeDeltas;
use game_tree::GameTree;
use kb_geometry::NoMemory;
use node_position::deltas;
use std::alloc::Global;
use std::marker::Model;
use std::sync::{Arc, ArcStr};

/// Games that become a segment, at most 400,000. Contracts see the list of them.
#[derive(Debug, Drop)]
pub struct SegmentBuilder {
    games: Vec<Arc<FinishedGame>>,
}

impl Model for SegmentBuilder {
    ghost use Rattle.std.specs.Prelude.{List, map, length, ◌≤◌};
    ghost use Rattle.std.specs.Arc.{arc_value};
    ghost use Rattle.node_position.specs.Games.{Game};

    ghost Value = { List Game };

    ghost view = { λ b. map arc_value b.games.items };

    ghost invariant = { λ b. length b.games.items ≤ 400000 };
}

impl SegmentBuilder {
    /// No game yet. It takes no memory.
    pub fn new(alloc: Global) -> SegmentBuilder
        ensures { result ≡ [] }
    {
        SegmentBuilder {
            games: Vec::new(alloc),
        }
    }

    /// How many games it has yet.
    pub fn game_count(&self) -> u32
        ensures value { result ≡ length self.now }
        ensures most { length self.now ≤ 400000 }
    {
        self.games.len() as u32
    }

    /// Adds the game of a file with this name, at this place among the games of the file, from 0.
    /// There must be fewer than 400,000 games yet. After `NoMemory` all is as before.
    pub fn add(
        &mut self,
        alloc: Global,
        file: &str,
        place: u32,
        tree: GameTree,
    ) -> Result<(), NoMemory>
        requires { length self.old < 400000 }
        ensures { MatchResult result
            (λ _. self.new ≡ self.old
            ++ (record { file = file.now; place = place; tree = tree }) ∷ [])
            (λ _. self.new ≡ self.old) }
    {
        let deltas = deltas(alloc, &tree)?;
        self.add_with_deltas(alloc, file, place, tree, deltas)
    }

    /// The same of a game whose changes are known. They are those of the tree, as
    /// [`deltas`](node_position::deltas) gives them.
    pub fn add_with_deltas(
        &mut self,
        alloc: Global,
        file: &str,
        place: u32,
        tree: GameTree,
        deltas: NodeDeltas,
    ) -> Result<(), NoMemory>
        requires room { length self.old < 400000 }
        requires changes { AreNodeChanges tree deltas }
        ensures { MatchResult result
            (λ _. self.new ≡ self.old
            ++ (record { file = file.now; place = place; tree = tree }) ∷ [])
            (λ _. self.new ≡ self.old) }
    {
        let name = name_of(alloc, self.games.as_slice(), file)?;
        let game = FinishedGame::new(alloc, name, place, tree, deltas)?;
        self.add_finished(alloc, game)
    }

    /// Adds a game that was finished before. There must be fewer than 400,000 games yet. After
    /// `NoMemory` all is as before, and the game is gone.
    pub fn add_finished(&mut self, alloc: Global, game: FinishedGame) -> Result<(), NoMemory>
        requires { length self.old < 400000 }
        ensures { MatchResult result
            (λ _. self.new ≡ self.old ++ game ∷ [])
            (λ _. self.new ≡ self.old) }
    {
        let game = Arc::new(alloc, game)?;
        self.add_shared(game)
    }

    /// Adds a game that is shared. There must be fewer than 400,000 games yet. After `NoMemory` all is
    /// as before, and this share of the game is gone.
    pub fn add_shared(&mut self, game: Arc<FinishedGame>) -> Result<(), NoMemory>
        requires { length self.old < 400000 }
        ensures { MatchResult result
            (λ _. self.new ≡ self.old ++ (arc_value game) ∷ [])
            (λ _. self.new ≡ self.old) }
    {
        self.games.push(game)?;
        Ok(())
    }

    /// The segment of these games. The only error is `NoMemory`, and then nothing comes back.
    pub fn finish(self, alloc: Global) -> Result<Segment, NoMemory>
        ensures { IfOk result (λ segment. segment ≡ self) }
    {
        Segment::of(alloc, self.games.as_slice())
    }
}

// The name of a file as the games of the file share it: that of the last game, if it has this file.
fn name_of(alloc: Global, games: &[Arc<FinishedGame>], file: &str) -> Result<ArcStr, NoMemory>
    ensures { IfOk result (λ name. arc_str_bytes name ≡ file.now) }
{
    if let Some(last) = games.last() {
        let last: &FinishedGame = last;
        if last.file() == file {
            return Ok(last.shared_file().clone()?);
        }
    }
    Ok(ArcStr::from_str(alloc, file)?)
}
