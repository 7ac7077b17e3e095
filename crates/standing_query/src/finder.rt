// What lists the hits in games.
ghost use Rattle.std.specs.Prelude.{◌+◌, ◌≤◌, ℕ, IfOk, List, drop, length};
ghost use Rattle.node_position.specs.Games.{Game};
ghost use Rattle.pattern_images.specs.declared.hit.Hit.{Hit};
ghost use Rattle.segment_store.specs.Nodes.{nodes_of};
ghost use Rattle.standing_query.specs.Finding.{AreSame, GoesByParts, HasList, HasOneList};

use capture_board::Steps;
use kb_geometry::NoMemory;
use pattern_images::Hit;
use segment_store::Segment;
use std::alloc::Global;
use std::sync::ledger::Ledger;

/// Lists the hits in games, of whatever is looked for.
pub trait Finder {
    /// What it finds: the hits in a list of games, which are numbered from a first number on.
    ghost finds: { Self → ℕ → List Game → List Hit → Type 0 };

    /// The hits in the games of a part from the one with number `from` in the part on. These games
    /// are numbered from `first`. A call changes nothing of what it finds.
    ///
    /// `from` is at most the number of the part's games, and together at most 400,000 games are
    /// numbered. The count of steps only grows, by at most the number of the nodes of these games.
    /// The only error is `NoMemory`.
    fn find<L: Ledger>(
        &mut self,
        alloc: Global,
        part: &Segment,
        from: u32,
        first: u32,
        steps: &mut Steps<L>,
    ) -> Result<Vec<Hit>, NoMemory>
        requires from { from ≤ length part.now }
        requires fits { first + length (drop from part.now) ≤ 400000 }
        ensures hits { IfOk result (λ hits. finds self.old first (drop from part.now) hits.items) }
        ensures same { AreSame (finds self.old) (finds self.new) }
        ensures ticks { steps.new ≤ steps.old + nodes_of (drop from part.now) }
        ensures grows { steps.old ≤ steps.new };

    // Laws of what it finds.
    ghost some_list: { (finder : Self) → HasList (finds finder) };

    ghost one_list: { (finder : Self) → HasOneList (finds finder) };

    ghost by_parts: { (finder : Self) → GoesByParts (finds finder) };
}
