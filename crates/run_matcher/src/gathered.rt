// Occurrences of one game while they are gathered.
ghost use Rattle.std.specs.Prelude.{
  ◌≡◌,
  ◌<◌,
  ◌≤◌,
  ◌↔◌,
  ◌⊎◌,
  ℕ,
  [],
  All,
  Contains,
  IfOk,
  IsTrue,
  List,
  OnOk,
};
ghost use mathlib.Core.List.{IsPrefix};
ghost use Rattle.capture_board.specs.Deltas.{AreDeltas, Deltas};
ghost use Rattle.pattern_images.specs.Placements.{Placement};
ghost use Rattle.pattern_occurrences.specs.declared.occurrence.Occurrence.{Occurrence};
ghost use Rattle.pattern_occurrences.specs.Occurrences.{occurrences_in};
ghost use Rattle.capture_index.specs.NodePositions.{count_in, positions_of};
ghost use Rattle.capture_index.specs.declared.stretch.Stretch.{Stretch};
ghost use Rattle.capture_index.specs.Stretches.{AreApart, BeginsIn, IsIn};
ghost use Rattle.run_matcher.specs.GoingOn.{GoesOnToHold, occurrences_of};
ghost use Rattle.run_matcher.specs.Begins.{IsKnownIn, StaysIn};
ghost use Rattle.run_matcher.specs.Keys.{end_number};
ghost use Rattle.run_matcher.specs.declared.begun.Begun.{Begun};
ghost use Rattle.run_matcher.specs.PlacementOccurrences.{IsOccurrenceOf};

use crate::keys::{begun_once, push_keys};
use crate::{Begun, Buffers, HoldsTo};
use capture_index::{RunIndex, Stretch};
use kb_geometry::NoMemory;
use ready_images::Prepared;
use std::alloc::Global;
use std::marker::Model;

/// Occurrences of one game while they are gathered placement by placement, each with how far its
/// placement is known to go on to hold. It may serve for many games one after another, which spares
/// making its lists anew.
///
/// Contracts see a list. What a caller gets of it depends on what is in it alone, not on the order,
/// nor how often; only `kept` of `add` speaks of its beginning.
#[derive(Debug, Drop)]
pub struct Gathered {
    // A number for each.
    keys: Vec<u64>,
}

impl Model for Gathered {
    ghost use Rattle.std.specs.Prelude.{List};
    ghost use Rattle.run_matcher.specs.declared.begun.Begun.{Begun};
    ghost use Rattle.run_matcher.specs.Keys.{begun_list};

    ghost Value = { List Begun };

    ghost view = { λ g. begun_list g.keys.items };
}

impl Gathered {
    /// No occurrence yet.
    pub fn new(alloc: Global) -> Gathered
        ensures { result ≡ [] }
    {
        Gathered {
            keys: Vec::new(alloc),
        }
    }

    /// No occurrence again.
    pub fn clear(&mut self)
        ensures { self.new ≡ [] }
    {
        self.keys.clear();
    }

    /// Whether no occurrence was gathered.
    pub fn is_empty(&self) -> bool
        ensures { IsTrue result ↔ (self.now ≡ []) }
    {
        self.keys.is_empty()
    }

    /// Adds the occurrences of a placement: the nodes at which it begins to hold. Where
    /// `RunIndex::find` tells one stretch of nodes, the placement is known to hold to its end; where it
    /// tells several, nothing is known. The runs are those of a game on a board of the images' shape.
    /// What is in the buffers doesn't count. The only error is `NoMemory`. After it too the list begins
    /// with what was in it before.
    pub fn add(
        &mut self,
        runs: &RunIndex,
        placement: &Prepared,
        buffers: &mut Buffers,
    ) -> Result<(), NoMemory>
        requires { placement.now.ready.now.images.shape ≡ runs.now.shape }
        ensures occurrences { OnOk result ((deltas : Deltas) → AreDeltas deltas →
            runs.now ≡ positions_of deltas → (o : Occurrence) →
            Contains (occurrences_of self.new) o ↔ (Contains (occurrences_of self.old) o
            ⊎ IsOccurrenceOf deltas placement.now.ready.now.images.placements placement.now.number o)) }
        ensures go_on { OnOk result ((deltas : Deltas) → AreDeltas deltas →
            runs.now ≡ positions_of deltas → (b : Begun) → Contains self.new b →
            Contains self.old b ⊎ GoesOnToHold deltas placement.now.ready.now.images.placements b) }
        ensures kept { IsPrefix self.old self.new }
    {
        runs.find(
            placement.base(),
            placement.wants(),
            &mut buffers.found,
            &mut buffers.spare,
        )?;
        if buffers.found.is_empty() {
            return Ok(());
        }
        self.add_begins(runs, &buffers.found, placement.number, &mut buffers.nodes)?;
        Ok(())
    }

    // Adds the occurrences of the placement with this number, which holds in these stretches of
    // nodes: those at which it begins to.
    fn add_begins(
        &mut self,
        runs: &RunIndex,
        stretches: &[Stretch],
        placement: u32,
        nodes: &mut Vec<u32>,
    ) -> Result<(), NoMemory>
        requires apart { AreApart 0 (count_in runs.now) stretches.now }
        requires placement { placement < 65536 }
        ensures occurrences { OnOk result ((o : Occurrence) →
            Contains (occurrences_of self.new) o ↔ (Contains (occurrences_of self.old) o
            ⊎ ((o.placement ≡ placement) × BeginsIn runs.now stretches.now o.node))) }
        ensures go_on { OnOk result ((b : Begun) → Contains self.new b →
            Contains self.old b ⊎ IsKnownIn stretches.now placement b) }
        ensures kept { IsPrefix self.old self.new }
    {
        nodes.clear();
        runs.push_begins(stretches, nodes)?;
        push_keys(nodes, placement, known_end(stretches), &mut self.keys)?;
        Ok(())
    }

    /// What was gathered, by node and at one node in the order of the placements, each once. The
    /// only error is `NoMemory`. What is in here afterwards doesn't count: clear it.
    pub fn sorted(&mut self, alloc: Global) -> Result<Vec<Begun>, NoMemory>
        ensures list { IfOk result (λ found. (deltas : Deltas) (placements : List Placement) →
            ((o : Occurrence) → Contains (occurrences_of self.old) o
            ↔ Contains (occurrences_in deltas placements) o) →
            occurrences_of found.items ≡ occurrences_in deltas placements) }
        ensures from { IfOk result (λ found. (b : Begun) → Contains found.items b →
            Contains self.old b) }
    {
        self.keys.sort_unstable();
        Ok(begun_once(alloc, &self.keys)?)
    }
}

// How far a placement holds that holds in these stretches: to the end of the stretch, where there is
// one alone.
fn known_end(stretches: &[Stretch]) -> HoldsTo
    requires { All (λ (s : Stretch). s.to ≤ 65536) stretches.now }
    ensures few { end_number result ≤ 65536 }
    ensures inside { (n : ℕ) → IsIn stretches.now n → StaysIn stretches.now n result }
{
    match stretches {
        [one] => HoldsTo::Known { end: one.to },
        _ => HoldsTo::Unknown,
    }
}
