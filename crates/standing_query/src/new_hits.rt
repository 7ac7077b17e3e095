// The hits in the new games of a version.
ghost use Rattle.std.specs.Prelude.{
  ◌≡◌,
  ◌+◌,
  ◌-◌,
  ◌≤◌,
  ◌++◌,
  IfOk,
  List,
  OnOk,
  drop,
  length,
};
ghost use Rattle.node_position.specs.Games.{Game};
ghost use Rattle.version_publisher.specs.Contents.{items_in};
ghost use Rattle.segment_store.specs.Nodes.{nodes_of};
ghost use Rattle.standing_query.specs.Finding.{AreSame};
ghost use Rattle.standing_query.specs.NewGames.{AreFoundTo};

use crate::finder::Finder;
use capture_board::Steps;
use kb_geometry::NoMemory;
use pattern_images::Hit;
use segment_store::Segment;
use std::alloc::Global;
use std::sync::ledger::Ledger;
use version_publisher::Version;

// The hits in the games of a version behind those that are covered, and how many games were gone
// over, these among them.
#[derive(Debug, Drop)]
pub(crate) struct NewHits {
    covered: u32,
    pub(crate) games: u32,
    pub(crate) hits: Vec<Hit>,
}

// The hits in the games of a version behind the first `covered` ones. A part is told by how many
// games stand before it, since merges move the bounds of parts.
pub(crate) fn new_hits<N: Finder, L: Ledger>(
    alloc: Global,
    finder: &mut N,
    version: &Version<Segment>,
    covered: u32,
    steps: &mut Steps<L>,
) -> Result<NewHits, NoMemory>
    ensures found { IfOk result (λ found. AreFoundTo (N.finds finder.old) covered
        (items_in version.now.parts) found.games found.hits.items) }
    ensures same { AreSame (N.finds finder.old) (N.finds finder.new) }
    ensures ticks { steps.new ≤ steps.old + nodes_of (drop covered (items_in version.now.parts)) }
    ensures grows { steps.old ≤ steps.new }
{
    let mut found = NewHits {
        covered,
        games: 0,
        hits: Vec::new(alloc),
    };
    for part in version.parts() {
        found.add_part(alloc, finder, part, steps)?;
    }
    Ok(found)
}

impl NewHits {
    // Goes over the games of the next part. Those that are covered are passed over, and of a part
    // without others nothing is asked.
    fn add_part<N: Finder, L: Ledger>(
        &mut self,
        alloc: Global,
        finder: &mut N,
        part: &Segment,
        steps: &mut Steps<L>,
    ) -> Result<(), NoMemory>
        requires { self.old.games + length part.now ≤ 400000 }
        ensures found { OnOk result ((games : List Game) →
            AreFoundTo (N.finds finder.old) self.old.covered games self.old.games
            self.old.hits.items →
            AreFoundTo (N.finds finder.old) self.new.covered (games ++ part.now) self.new.games
            self.new.hits.items) }
        ensures covered { OnOk result (self.new.covered ≡ self.old.covered) }
        ensures same { AreSame (N.finds finder.old) (N.finds finder.new) }
        ensures ticks { steps.new ≤ steps.old
            + nodes_of (drop (self.old.covered - self.old.games) part.now) }
        ensures grows { steps.old ≤ steps.new }
    {
        let first = self.games;
        let passed = self.covered.saturating_sub(first);
        let count = part.game_count();
        self.games += count;
        if passed >= count {
            return Ok(());
        }
        let mut more = finder.find(alloc, part, passed, first + passed, steps)?;
        self.hits.append(&mut more)?;
        Ok(())
    }
}
