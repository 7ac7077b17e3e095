// The occurrences in the games of a block.
ghost use Rattle.std.specs.Prelude.{
  ◌≡◌,
  ◌≢◌,
  ◌<◌,
  ◌≤◌,
  ◌↔◌,
  ◌⊎◌,
  ℕ,
  [],
  Contains,
  IfOk,
  IfSome,
  IsTrue,
  List,
  OnOk,
  length,
};
ghost use Rattle.capture_board.specs.Deltas.{Deltas};
ghost use Rattle.node_position.specs.Games.{AreNodeChanges};
ghost use Rattle.pattern_images.specs.Placements.{Placement};
ghost use Rattle.info_filter.specs.declared.filter.Filter.{Filter};
ghost use Rattle.pattern_occurrences.specs.declared.occurrence.Occurrence.{Occurrence};
ghost use Rattle.pattern_occurrences.specs.Occurrences.{occurrences_in};
ghost use Rattle.ready_images.specs.Prepared.{IsPreparedAs};
ghost use Rattle.candidate_sieve.specs.declared.candidates.Candidate.{Candidate};
ghost use Rattle.run_matcher.specs.GoingOn.{GoesOnToHold, occurrences_of};
ghost use Rattle.run_matcher.specs.PlacementOccurrences.{IsOccurrenceOf};
ghost use Rattle.run_matcher.specs.declared.begun.Begun.{Begun};
ghost use Rattle.segment_store.specs.Orders.{AreOrdersOn};
ghost use Rattle.segment_store.specs.Planes.{ArePlanesOn};
ghost use Rattle.search_engine.specs.BlockCandidates.{AreAccepted};
ghost use Rattle.search_engine.specs.Gathering.{
  AllGoOn,
  AreGathered,
  AreOnBoards,
  HaveOccurrences,
  IsOfCandidate,
  IsOfCandidates,
  IsOnShape,
  MoreGoOn,
  begun_at,
  gathered_of,
};

use crate::bits::next_bit;
use crate::ready_query::ReadyQuery;
use crate::work::Work;
use candidate_sieve::{BlockPlanes, Candidate, add_candidates};
use final_index::Planes;
use kb_geometry::NoMemory;
use ready_images::{Prepared, ReadyImages};
use run_matcher::{Begun, Buffers, Gathered};
use segment_store::{Block, FinishedGame};
use std::alloc::Global;
use std::marker::Model;

// Lists that a search works with, kept from block to block, and how much it has done.
#[derive(Debug, Drop)]
pub(crate) struct Room {
    words: Vec<u64>,
    candidates: Vec<Candidate>,
    buffers: Buffers,
    // The occurrences in the games of a block.
    pub(crate) gathered: GameOccurrences,
    pub(crate) work: Work,
}

impl Room {
    // Empty lists.
    pub(crate) fn new(alloc: Global) -> Result<Room, NoMemory> {
        Ok(Room {
            words: Vec::new(alloc),
            candidates: Vec::new(alloc),
            buffers: Buffers::new(alloc),
            gathered: GameOccurrences::new(alloc)?,
            work: Work::none(),
        })
    }
}

// Whether to look for the candidates of a block alone is so much that threads may be worth their
// start. The block is sieved for it.
pub(crate) fn is_much_in(
    ready: &ReadyQuery,
    block: &Block,
    games: u64,
    room: &mut Room,
) -> Result<bool, NoMemory> {
    let Room {
        words,
        candidates,
        ..
    } = room;
    candidates.clear();
    for planes in block.planes() {
        if let Some(on_shape) = ready.find(planes.shape()) {
            add_candidates(
                &block_planes(block, planes),
                on_shape,
                games,
                words,
                candidates,
            )?;
        }
    }
    Ok(Work::ahead(candidates).is_much(0))
}

// Gathers the occurrences in the games of a block that are asked for. What was gathered before is
// gone.
pub(crate) fn gather(
    ready: &ReadyQuery,
    block: &Block,
    games: u64,
    room: &mut Room,
) -> Result<(), NoMemory>
    ensures gathered { OnOk result ((filter : Filter) (skip : ℕ) →
        AreAccepted filter skip block.now games →
        HaveOccurrences ready.now.query filter ready.now.shapes skip block.now
        room.new.gathered) }
    ensures go_on { OnOk result (AllGoOn ready.now.query block.now room.new.gathered) }
{
    room.gathered.clear();
    for planes in block.planes() {
        gather_on_shape(ready, block, planes, games, room)?;
    }
    Ok(())
}

// Gathers the occurrences in those games of a block that are on boards of one shape and asked for.
// Where there are no images for the shape, the query doesn't look there.
fn gather_on_shape(
    ready: &ReadyQuery,
    block: &Block,
    planes: &Planes,
    games: u64,
    room: &mut Room,
) -> Result<(), NoMemory>
    requires { ArePlanesOn block.now planes.now }
    ensures gathered { OnOk result (AreGathered block.now
        (IsOnShape ready.now.query ready.now.shapes games planes.now.shape)
        room.old.gathered room.new.gathered) }
    ensures go_on { OnOk result (AllGoOn ready.now.query block.now room.old.gathered →
        AllGoOn ready.now.query block.now room.new.gathered) }
{
    let Some(on_shape) = ready.find(planes.shape()) else {
        return Ok(());
    };
    let Room {
        words,
        candidates,
        buffers,
        gathered,
        work,
    } = room;
    candidates.clear();
    add_candidates(
        &block_planes(block, planes),
        on_shape,
        games,
        words,
        candidates,
    )?;
    work.add_sieved(on_shape.images().len(), candidates);
    gathered.add_all(block, on_shape, candidates, buffers)?;
    Ok(())
}

// Some planes of a block, with the order of the stones on boards of their shape.
fn block_planes<'a>(block: &'a Block, planes: &'a Planes) -> BlockPlanes<'a>
    ensures planes { result.planes.now ≡ planes.now }
    ensures order { IfSome result.order (λ o.
        (o.now.shape ≡ planes.now.shape) × AreOrdersOn block.now o.now) }
    ensures few { length block.now ≤ 64 }
{
    BlockPlanes {
        planes,
        order: block.order_on(planes.shape()),
    }
}

// The most games of a block.
const MOST: usize = 64;

// For each place in a block what occurs in the game there. The lists are kept from block to block.
// Contracts see them.
#[derive(Debug, Drop)]
pub(crate) struct GameOccurrences {
    lists: Vec<Gathered>,
}

impl Model for GameOccurrences {
    ghost use Rattle.std.specs.Prelude.{List, length, ◌≡◌};
    ghost use Rattle.run_matcher.specs.declared.begun.Begun.{Begun};

    ghost Value = { List (List Begun) };

    ghost view = { λ g. g.lists.items };

    ghost invariant = { λ g. length g.lists.items ≡ 64 };
}

impl GameOccurrences {
    // No occurrence.
    pub(crate) fn new(alloc: Global) -> Result<GameOccurrences, NoMemory> {
        let mut lists = Vec::with_capacity(alloc, MOST)?;
        for _game in 0..MOST {
            lists.push(Gathered::new(alloc))?;
        }
        Ok(GameOccurrences { lists })
    }

    // No occurrence again.
    pub(crate) fn clear(&mut self)
        ensures { (g : ℕ) → gathered_of self.new g ≡ [] }
    {
        for at in 0..MOST {
            self.lists[at].clear();
        }
    }

    // Adds the occurrences of the placements of these candidates, each in the games for which it
    // has a bit.
    pub(crate) fn add_all(
        &mut self,
        block: &Block,
        ready: &ReadyImages,
        candidates: &[Candidate],
        buffers: &mut Buffers,
    ) -> Result<(), NoMemory>
        requires few { length block.now ≤ 64 }
        requires prepared { (c : Candidate) → Contains candidates.now c →
            IsPreparedAs ready.now.images c.placement c.base c.class }
        requires on_boards { (c : Candidate) → Contains candidates.now c →
            AreOnBoards block.now ready.now.images.shape c }
        ensures gathered { OnOk result (AreGathered block.now
            (IsOfCandidates ready.now.images.placements candidates.now
            (length candidates.now)) self.old self.new) }
        ensures go_on { OnOk result (MoreGoOn block.now ready.now.images.shape
            ready.now.images.placements self.old self.new) }
    {
        for candidate in candidates {
            self.add(block, ready, *candidate, buffers)?;
        }
        Ok(())
    }

    // Adds the occurrences of the placement of a candidate in the games for which it has a bit.
    fn add(
        &mut self,
        block: &Block,
        ready: &ReadyImages,
        candidate: Candidate,
        buffers: &mut Buffers,
    ) -> Result<(), NoMemory>
        requires few { length block.now ≤ 64 }
        requires prepared { IsPreparedAs ready.now.images candidate.placement candidate.base
            candidate.class }
        requires on_boards { AreOnBoards block.now ready.now.images.shape candidate }
        ensures gathered { OnOk result (AreGathered block.now
            (IsOfCandidate ready.now.images.placements candidate 64) self.old self.new) }
        ensures go_on { OnOk result (MoreGoOn block.now ready.now.images.shape
            ready.now.images.placements self.old self.new) }
    {
        let placement = ready.prepared_as(candidate.placement, candidate.base, candidate.class);
        let mut from = 0;
        while let Some(at) = next_bit(candidate.games, from) {
            self.add_at(at, block.get(at), &placement, buffers)?;
            from = at + 1;
        }
        Ok(())
    }

    // Adds the occurrences of a placement in the game at a place.
    fn add_at(
        &mut self,
        at: usize,
        game: &FinishedGame,
        placement: &Prepared,
        buffers: &mut Buffers,
    ) -> Result<(), NoMemory>
        requires at { at < 64 }
        requires shape { game.now.tree.shape ≡ placement.now.ready.now.images.shape }
        ensures here { OnOk result ((changes : Deltas) → AreNodeChanges game.now.tree changes →
            (o : Occurrence) → Contains (gathered_of self.new at) o
            ↔ (Contains (gathered_of self.old at) o ⊎ IsOccurrenceOf changes
            placement.now.ready.now.images.placements placement.now.number o)) }
        ensures go_on { OnOk result ((changes : Deltas) → AreNodeChanges game.now.tree changes →
            (b : Begun) → Contains (begun_at self.new at) b → Contains (begun_at self.old at) b
            ⊎ GoesOnToHold changes placement.now.ready.now.images.placements b) }
        ensures others { OnOk result ((g : ℕ) → g ≢ at →
            begun_at self.new g ≡ begun_at self.old g) }
    {
        self.lists[at].add(game.runs(), placement, buffers)?;
        Ok(())
    }

    // Whether there is no occurrence in the game at this place.
    pub(crate) fn is_empty(&self, at: usize) -> bool
        requires { at < 64 }
        ensures { IsTrue result ↔ (gathered_of self.now at ≡ []) }
    {
        self.lists[at].is_empty()
    }

    // What occurs in the game at this place, by node and at one node in the order of the placements.
    // What is in its list afterwards doesn't count.
    pub(crate) fn sorted(&mut self, alloc: Global, at: usize) -> Result<Vec<Begun>, NoMemory>
        requires { at < 64 }
        ensures list { IfOk result (λ found. (changes : Deltas) (placements : List Placement) →
            ((o : Occurrence) → Contains (gathered_of self.old at) o
            ↔ Contains (occurrences_in changes placements) o) →
            occurrences_of found.items ≡ occurrences_in changes placements) }
        ensures from { IfOk result (λ found. (b : Begun) → Contains found.items b →
            Contains (begun_at self.old at) b) }
        ensures others { OnOk result ((g : ℕ) → g ≢ at →
            begun_at self.new g ≡ begun_at self.old g) }
    {
        Ok(self.lists[at].sorted(alloc)?)
    }
}
