// The hits in the games of blocks, one block after another.
ghost use Rattle.std.specs.Prelude.{
  ◌≡◌,
  ◌≢◌,
  ◌<◌,
  ◌≤◌,
  ◌+◌,
  ◌-◌,
  ◌∷◌,
  [],
  ℕ,
  Contains,
  IfOk,
  OnOk,
  Some,
  length,
};
ghost use Rattle.std.specs.List.{slice_get};
ghost use Rattle.game_tree.specs.Tree.{node_count};
ghost use Rattle.info_filter.specs.declared.filter.Filter.{Filter};
ghost use Rattle.info_filter.specs.Filter.{Accepts};
ghost use Rattle.node_position.specs.Games.{Game};
ghost use Rattle.run_matcher.specs.GoingOn.{occurrences_of};
ghost use Rattle.search_engine.specs.Gathering.{
  AllGoOn,
  AreOccurrencesIn,
  GoOnIn,
  HasOccurrences,
  HaveOccurrences,
  begun_at,
  gathered_of,
};
ghost use Rattle.search_engine.specs.Hits.{AreGameHits, AreHitsFrom};
ghost use Rattle.search_engine.specs.Items.{games_of_item, games_of_items};
ghost use Rattle.search_engine.specs.Searching.{
  AreCovered,
  AreFirstHitsAdded,
  AreHitsAdded,
  AreItemHitsAdded,
  IsCovered,
};
ghost use Rattle.search_engine.specs.StepBounds.{AreStepsIn, AreVisited};

use crate::accepted::accepted_games;
use crate::block_occurrences::{GameOccurrences, Room, gather, is_much_in};
use crate::game_hits::SearchedGame;
use crate::item::Item;
use crate::ready_query::ReadyQuery;
use capture_board::Steps;
use info_filter::Filter;
use kb_geometry::NoMemory;
use pattern_images::Hit;
use run_matcher::Begun;
use segment_store::FinishedGame;
use std::alloc::Global;
use std::sync::ledger::Ledger;

// A query made ready, which is looked for in the games that a filter accepts.
#[derive(Clone, Copy)]
pub(crate) struct Searcher<'a> {
    pub(crate) alloc: Global,
    pub(crate) ready: &'a ReadyQuery<'a>,
    pub(crate) filter: &'a Filter,
}

impl<'a> Searcher<'a> {
    // Adds the hits of the games of blocks that the filter accepts.
    pub(crate) fn add_items_hits<L: Ledger>(
        &self,
        items: &[Item],
        hits: &mut Vec<Hit>,
        steps: &mut Steps<L>,
    ) -> Result<(), NoMemory>
        ensures hits { OnOk result (AreItemHitsAdded self.now.ready.now.query self.now.filter.now
            self.now.ready.now.shapes items.now hits.old.items hits.new.items) }
        ensures visited { OnOk result
            (AreVisited hits.old.items hits.new.items steps.old steps.new) }
        ensures steps { AreStepsIn self.now.ready.now.query (games_of_items items.now)
            steps.old steps.new }
    {
        let mut room = Room::new(self.alloc)?;
        for item in items {
            self.add_block(item, &mut room, hits, steps)?;
        }
        Ok(())
    }

    // Adds the hits of the games of the first blocks that the filter accepts, and tells how many blocks
    // these are: all, or as many as come before so much is done that threads may be worth their start.
    // Where the first block alone is so much, it is none.
    pub(crate) fn add_first_hits<L: Ledger>(
        &self,
        items: &[Item],
        hits: &mut Vec<Hit>,
        steps: &mut Steps<L>,
    ) -> Result<usize, NoMemory>
        ensures most { IfOk result (λ done. done ≤ length items.now) }
        ensures hits { IfOk result (λ done. AreFirstHitsAdded self.now.ready.now.query
            self.now.filter.now self.now.ready.now.shapes items.now done
            hits.old.items hits.new.items) }
    {
        let mut room = Room::new(self.alloc)?;
        if self.is_much_ahead(items, &mut room)? {
            return Ok(0);
        }
        let mut done = 0;
        for item in items {
            if room.work.is_much(hits.len()) {
                return Ok(done);
            }
            self.add_block(item, &mut room, hits, steps)?;
            done += 1;
        }
        Ok(done)
    }

    // Whether the first of several blocks alone is so much that threads may be worth their start.
    fn is_much_ahead(&self, items: &[Item], room: &mut Room) -> Result<bool, NoMemory> {
        let [item, _, ..] = items else {
            return Ok(false);
        };
        let accepted = accepted_games(self.filter, item.block, item.skip);
        is_much_in(self.ready, item.block, accepted, room)
    }

    // Adds the hits of the games of a block that aren't left out. Where the filter accepts none of
    // them, nothing more is done.
    fn add_block<L: Ledger>(
        &self,
        item: &Item,
        room: &mut Room,
        hits: &mut Vec<Hit>,
        steps: &mut Steps<L>,
    ) -> Result<(), NoMemory>
        ensures hits { OnOk result (AreCovered self.now.ready.now.query self.now.ready.now.shapes
            (games_of_item item.now) → AreHitsAdded (AreHitsFrom item.now.first
            self.now.ready.now.query self.now.filter.now (games_of_item item.now))
            hits.old.items hits.new.items) }
        ensures visited { OnOk result
            (AreVisited hits.old.items hits.new.items steps.old steps.new) }
        ensures steps { AreStepsIn self.now.ready.now.query (games_of_item item.now)
            steps.old steps.new }
    {
        room.work.add_games(self.filter, item.block.len());
        let accepted = accepted_games(self.filter, item.block, item.skip);
        if accepted == 0 {
            return Ok(());
        }
        gather(self.ready, item.block, accepted, room)?;
        self.add_found(item, &mut room.gathered, hits, steps)
    }

    // Adds the hits of the games of a block that aren't left out, of which the occurrences were
    // gathered.
    fn add_found<L: Ledger>(
        &self,
        item: &Item,
        gathered: &mut GameOccurrences,
        hits: &mut Vec<Hit>,
        steps: &mut Steps<L>,
    ) -> Result<(), NoMemory>
        requires gathered { HaveOccurrences self.now.ready.now.query self.now.filter.now
            self.now.ready.now.shapes item.now.skip item.now.block.now gathered.old }
        requires go_on { AllGoOn self.now.ready.now.query item.now.block.now gathered.old }
        ensures hits { OnOk result (AreCovered self.now.ready.now.query self.now.ready.now.shapes
            (games_of_item item.now) → AreHitsAdded (AreHitsFrom item.now.first
            self.now.ready.now.query self.now.filter.now (games_of_item item.now))
            hits.old.items hits.new.items) }
        ensures visited { OnOk result
            (AreVisited hits.old.items hits.new.items steps.old steps.new) }
        ensures steps { AreStepsIn self.now.ready.now.query (games_of_item item.now)
            steps.old steps.new }
    {
        for at in item.skip..item.block.len() {
            self.add_one(item, at, gathered, hits, steps)?;
        }
        Ok(())
    }

    // Adds the hits of the game at a place of a block, of which the occurrences were gathered: none of
    // a game that the filter refuses.
    fn add_one<L: Ledger>(
        &self,
        item: &Item,
        at: usize,
        gathered: &mut GameOccurrences,
        hits: &mut Vec<Hit>,
        steps: &mut Steps<L>,
    ) -> Result<(), NoMemory>
        requires at { at < length item.now.block.now }
        requires left_in { item.now.skip ≤ at }
        requires gathered { (game : Game) → slice_get item.now.block.now at ≡ Some game →
            HasOccurrences self.now.ready.now.query self.now.filter.now self.now.ready.now.shapes
            game.tree (gathered_of gathered.old at) }
        requires go_on { (game : Game) → slice_get item.now.block.now at ≡ Some game →
            GoOnIn self.now.ready.now.query game.tree (begun_at gathered.old at) }
        ensures hits { OnOk result ((game : Game) → slice_get item.now.block.now at ≡ Some game →
            IsCovered self.now.ready.now.query self.now.ready.now.shapes game.tree.shape →
            AreHitsAdded (AreGameHits self.now.ready.now.query self.now.filter.now
            (item.now.first + (at - item.now.skip)) game.tree)
            hits.old.items hits.new.items) }
        ensures others { OnOk result ((g : ℕ) → g ≢ at →
            begun_at gathered.new g ≡ begun_at gathered.old g) }
        ensures visited { OnOk result
            (AreVisited hits.old.items hits.new.items steps.old steps.new) }
        ensures steps { (game : Game) → slice_get item.now.block.now at ≡ Some game →
            AreStepsIn self.now.ready.now.query (game ∷ []) steps.old steps.new }
    {
        let game = item.block.get(at);
        if gathered.is_empty(at) {
            return Ok(());
        }
        let number = item.first + (at - item.skip) as u32;
        let found = gathered.sorted(self.alloc, at)?;
        self.add_on_its_board(number, game, &found, hits, steps)?;
        Ok(())
    }

    // Adds the hits of the game with this number, whose occurrences these are, by the images on its
    // board.
    fn add_on_its_board<L: Ledger>(
        &self,
        number: u32,
        game: &FinishedGame,
        begun: &[Begun],
        hits: &mut Vec<Hit>,
        steps: &mut Steps<L>,
    ) -> Result<(), NoMemory>
        requires among_shapes { Contains self.now.ready.now.shapes game.now.tree.shape }
        requires occurrences { AreOccurrencesIn self.now.ready.now.query game.now.tree
            (occurrences_of begun.now) }
        requires go_on { GoOnIn self.now.ready.now.query game.now.tree begun.now }
        ensures hits { OnOk result ((filter : Filter) → Accepts filter game.now.tree.info →
            AreHitsAdded (AreGameHits self.now.ready.now.query filter number game.now.tree)
            hits.old.items hits.new.items) }
        ensures visited { OnOk result
            (AreVisited hits.old.items hits.new.items steps.old steps.new) }
        ensures ticks { steps.new ≤ steps.old + node_count game.now.tree }
        ensures grows { steps.old ≤ steps.new }
    {
        let Some(ready) = self.ready.find(game.tree().shape()) else {
            return Ok(());
        };
        let searched = SearchedGame {
            number,
            game,
            query: self.ready.query(),
            ready,
        };
        searched.add_hits_in(begun, hits, steps)
    }
}
