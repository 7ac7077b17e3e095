// A standing query.
ghost use Rattle.std.specs.Prelude.{
  ◌≡◌,
  ◌+◌,
  ◌≤◌,
  [],
  IfOk,
  OnErr,
  OnOk,
  drop,
  length,
  take,
};
ghost use Rattle.version_publisher.specs.Contents.{items_in};
ghost use Rattle.segment_store.specs.Nodes.{nodes_of};
ghost use Rattle.standing_query.specs.Finding.{AreSame};

use crate::finder::Finder;
use crate::new_hits::new_hits;
use capture_board::Steps;
use kb_geometry::NoMemory;
use pattern_images::Hit;
use segment_store::Segment;
use std::alloc::Global;
use std::marker::Model;
use std::sync::ledger::Ledger;
use version_publisher::Version;

/// The hits of a watched search in the games of a version, and the version's number. Contracts see
/// these.
#[derive(Debug, Drop)]
pub struct Standing {
    number: u64,
    games: u32,
    hits: Vec<Hit>,
}

impl Model for Standing {
    ghost use Rattle.standing_query.specs.StandingState.{StandingState};

    ghost Value = { StandingState };

    ghost view = { λ s. record {
      number = s.number;
      games = s.games;
      hits = s.hits.items;
    } };
}

impl Standing {
    /// Number 0, no games and no hits. It takes no memory.
    pub fn new(alloc: Global) -> Standing
        ensures { result ≡ record { number = 0; games = 0; hits = [] } }
    {
        Standing {
            number: 0,
            games: 0,
            hits: Vec::new(alloc),
        }
    }

    /// The number of the version that it was advanced to last.
    pub fn number(&self) -> u64
        ensures { result ≡ self.now.number }
    {
        self.number
    }

    /// How many games that version has.
    pub fn games(&self) -> u32
        ensures { result ≡ self.now.games }
    {
        self.games
    }

    /// The hits in these games.
    pub fn hits(&self) -> &[Hit]
        ensures { result.now ≡ self.now.hits }
    {
        &self.hits
    }

    /// Goes on to a version: the hits in its new games are added behind the others. It answers the
    /// place of the first new hit, which is the number of the hits where none is new.
    ///
    /// The version begins with the games whose hits are there, and has at most 400,000, as each
    /// version of segments. Only the games behind those are handed to the finder, whatever parts
    /// they stand in, and the count of steps only grows, by at most the number of their nodes. The
    /// only error is `NoMemory`, after which it is as before.
    pub fn advance<N: Finder, L: Ledger>(
        &mut self,
        alloc: Global,
        finder: &mut N,
        version: &Version<Segment>,
        steps: &mut Steps<L>,
    ) -> Result<usize, NoMemory>
        requires games { self.old.games ≤ length (items_in version.now.parts) }
        requires hits { N.finds finder.old 0
            (take self.old.games (items_in version.now.parts)) self.old.hits }

        ensures hits { OnOk result
            (N.finds finder.old 0 (items_in version.now.parts) self.new.hits) }
        ensures number { OnOk result (self.new.number ≡ version.now.number) }
        ensures games { OnOk result (self.new.games ≡ length (items_in version.now.parts)) }

        // From the answer on the hits are the new ones, and before it the earlier ones.
        ensures place { IfOk result (λ at. at ≡ length self.old.hits) }
        ensures earlier_hits { IfOk result (λ at. take at self.new.hits ≡ self.old.hits) }
        ensures new_hits { IfOk result (λ at. N.finds finder.old self.old.games
            (drop self.old.games (items_in version.now.parts)) (drop at self.new.hits)) }

        ensures refused { OnErr result (self.new ≡ self.old) }
        ensures same { AreSame (N.finds finder.old) (N.finds finder.new) }
        ensures ticks { steps.new ≤ steps.old
            + nodes_of (drop self.old.games (items_in version.now.parts)) }
        ensures grows { steps.old ≤ steps.new }
    {
        let mut found = new_hits(alloc, finder, version, self.games, steps)?;
        let at = self.hits.len();
        self.hits.append(&mut found.hits)?;
        self.number = version.number();
        self.games = found.games;
        Ok(at)
    }
}
