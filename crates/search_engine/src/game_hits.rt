// The hits of a query in one game.
ghost use Rattle.std.specs.Prelude.{◌≡◌, ◌+◌, ◌↔◌, ◌<◌, ◌≤◌, ℕ, Contains, IsTrue, OnOk, length};
ghost use Rattle.game_tree.specs.Tree.{node_count};
ghost use Rattle.node_position.specs.Games.{AreNodeChanges};
ghost use Rattle.pattern_images.specs.Placements.{ArePlacements};
ghost use Rattle.pattern_images.specs.ImageList.{placement_at};
ghost use Rattle.pattern_occurrences.specs.Occurrences.{HoldsAt, occurrences_in};
ghost use Rattle.run_matcher.specs.GoingOn.{GoesOnToHold, occurrences_of};
ghost use Rattle.run_matcher.specs.declared.begun.Begun.{Begun};
ghost use Rattle.search_engine.specs.Gathering.{AreOccurrencesIn, GoOnIn};
ghost use Rattle.search_engine.specs.Hits.{AreHitsIn, AreHitsOf, IsHit, LooksAt};
ghost use Rattle.search_engine.specs.Searching.{AreHitsAdded};
ghost use Rattle.search_engine.specs.StepBounds.{AreVisited};

use capture_board::{NodeDeltas, Steps};
use continuation_table::next_below;
use game_tree::GameTree;
use kb_geometry::NoMemory;
use pattern_images::{Hit, Query};
use pattern_occurrences::Occurrence;
use ready_images::ReadyImages;
use run_matcher::{Begun, HoldsTo, holds_to};
use segment_store::FinishedGame;
use std::sync::ledger::Ledger;

// A game with its number, and a query whose images on the game's board are ready.
#[derive(Clone, Copy, Debug)]
pub(crate) struct SearchedGame<'a> {
    pub(crate) number: u32,
    pub(crate) game: &'a FinishedGame,
    pub(crate) query: &'a Query,
    pub(crate) ready: &'a ReadyImages,
}

impl<'a> SearchedGame<'a> {
    // Adds the hits of what occurs in the game, on whose board the query looks.
    pub(crate) fn add_hits_in<L: Ledger>(
        &self,
        begun: &[Begun],
        hits: &mut Vec<Hit>,
        steps: &mut Steps<L>,
    ) -> Result<(), NoMemory>
        requires shape { self.now.ready.now.images.shape ≡ self.now.game.now.tree.shape }
        requires images { ArePlacements self.now.query.now self.now.game.now.tree.shape
            self.now.ready.now.images.placements }
        requires occurrences { AreOccurrencesIn self.now.query.now self.now.game.now.tree
            (occurrences_of begun.now) }
        requires go_on { GoOnIn self.now.query.now self.now.game.now.tree begun.now }
        ensures hits { OnOk result (AreHitsAdded
            (AreHitsIn self.now.query.now self.now.number self.now.game.now.tree)
            hits.old.items hits.new.items) }
        ensures visited { OnOk result
            (AreVisited hits.old.items hits.new.items steps.old steps.new) }
        ensures ticks { steps.new ≤ steps.old + node_count self.now.game.now.tree }
        ensures grows { steps.old ≤ steps.new }
    {
        self.add_hits(self.game.deltas(), begun, hits, steps)
    }

    // Adds the hits of what occurs in the game, which has these changes. The nodes at which something
    // occurs are visited in their order, and each is one step.
    fn add_hits<L: Ledger>(
        &self,
        deltas: &NodeDeltas,
        begun: &[Begun],
        hits: &mut Vec<Hit>,
        steps: &mut Steps<L>,
    ) -> Result<(), NoMemory>
        requires changes { AreNodeChanges self.now.game.now.tree deltas.now }
        requires shape { self.now.ready.now.images.shape ≡ self.now.game.now.tree.shape }
        requires occurrences { occurrences_of begun.now ≡ occurrences_in deltas.now
            self.now.ready.now.images.placements }
        requires go_on { (b : Begun) → Contains begun.now b →
            GoesOnToHold deltas.now self.now.ready.now.images.placements b }
        ensures hits { OnOk result (AreHitsAdded
            (AreHitsOf self.now.query.now self.now.number self.now.game.now.tree deltas.now
            self.now.ready.now.images.placements (occurrences_of begun.now))
            hits.old.items hits.new.items) }
        ensures visited { OnOk result
            (AreVisited hits.old.items hits.new.items steps.old steps.new) }
        ensures ticks { steps.new ≤ steps.old + node_count self.now.game.now.tree }
        ensures grows { steps.old ≤ steps.new }
    {
        let mut visited = 0;
        for one in begun {
            visited = visit(one.occurrence.node, visited, steps);
            if looks_at(self.query, self.game.tree(), one.occurrence.node) {
                hits.push(self.hit_of(deltas, *one))?;
            }
        }
        Ok(())
    }

    // The hit of what occurs in the game, which has these changes. `known_to` tells how far the
    // placement goes on to hold, so the changes of the nodes before that needn't be asked.
    fn hit_of(&self, deltas: &NodeDeltas, begun: Begun) -> Hit
        requires changes { AreNodeChanges self.now.game.now.tree deltas.now }
        requires shape { self.now.ready.now.images.shape ≡ self.now.game.now.tree.shape }
        requires node { begun.occurrence.node < node_count self.now.game.now.tree }
        requires placement { begun.occurrence.placement
            < length self.now.ready.now.images.placements }
        requires holds { HoldsAt deltas.now (placement_at self.now.ready.now.images.placements
            begun.occurrence.placement) begun.occurrence.node }
        requires go_on { GoesOnToHold deltas.now self.now.ready.now.images.placements begun }
        ensures { IsHit self.now.number self.now.game.now.tree deltas.now
            self.now.ready.now.images.placements begun.occurrence result }
    {
        let Occurrence { node, placement } = begun.occurrence;
        let known = self.known_to(deltas, begun);
        let placement = placement as usize;
        let images = self.ready.images();
        Hit {
            game: self.number,
            node,
            place: images.place(placement),
            moves: self.game.tree().move_number(node),
            outcome: self.game.outcome(),
            next: next_below(self.game.tree(), deltas, images, placement, node, known),
        }
    }

    // The number of a node, or the number of nodes: up to before it the placement goes on to hold.
    // Where nothing is known with the occurrence, the runs tell.
    fn known_to(&self, deltas: &NodeDeltas, begun: Begun) -> u32
        requires changes { AreNodeChanges self.now.game.now.tree deltas.now }
        requires shape { self.now.ready.now.images.shape ≡ self.now.game.now.tree.shape }
        requires node { begun.occurrence.node < node_count self.now.game.now.tree }
        requires placement { begun.occurrence.placement
            < length self.now.ready.now.images.placements }
        requires holds { HoldsAt deltas.now (placement_at self.now.ready.now.images.placements
            begun.occurrence.placement) begun.occurrence.node }
        requires go_on { GoesOnToHold deltas.now self.now.ready.now.images.placements begun }
        ensures { (k : ℕ) → begun.occurrence.node ≤ k → k < result → HoldsAt deltas.now
            (placement_at self.now.ready.now.images.placements begun.occurrence.placement) k }
    {
        let Occurrence { node, placement } = begun.occurrence;
        match begun.holds {
            HoldsTo::Known { end } => end,
            HoldsTo::Unknown => {
                holds_to(self.game.runs(), &self.ready.placement(placement), node)
            }
        }
    }
}

// Visits a node, which is one step, unless it or one behind it was visited. Those that were have
// numbers below `visited`, and the answer is such a bound with this one among them.
fn visit<L: Ledger>(node: u32, visited: u64, steps: &mut Steps<L>) -> u64
    ensures again { node < visited → (result ≡ visited) × (steps.old ≤ steps.new) }
    ensures anew { visited ≤ node → (result ≡ node + 1) × (steps.old + 1 ≤ steps.new) }
    ensures within { (n : ℕ) → node < n → visited ≤ n → result ≤ n }
    ensures ticks { steps.new + visited ≤ steps.old + result }
    ensures grows { steps.old ≤ steps.new }
{
    let node = u64::from(node);
    if node < visited {
        return visited;
    }
    steps.tick();
    node + 1
}

// Whether the query looks at a node.
fn looks_at(query: &Query, tree: &GameTree, node: u32) -> bool
    requires { node < node_count tree.now }
    ensures { IsTrue result ↔ LooksAt query.now tree.now node }
{
    if query.main && !tree.is_main(node) {
        return false;
    }
    let moves = tree.move_number(node);
    query.from_move <= moves && moves <= query.to_move
}
