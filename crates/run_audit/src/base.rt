// The base of an audit: the games of the imports so far, as versions.
ghost use Rattle.std.specs.Prelude.{
  ◌≡◌,
  ◌+◌,
  ◌++◌,
  ◌∷◌,
  ◌≤◌,
  ◌<◌,
  ◌^◌,
  [],
  None,
  Some,
  IfOk,
  OnOk,
  length,
};
ghost use Rattle.std.specs.Arc.{arc_value};
ghost use Rattle.version_publisher.specs.Contents.{items_in};

use crate::merging::{push_part, with_merged_parts};
use import_work::Counts;
use kb_geometry::NoMemory;
use segment_store::Segment;
use std::alloc::Global;
use std::collections::VecDeque;
use std::marker::Model;
use std::sync::Arc;
use version_publisher::Version;

// How many parts more the version at the floor has before its parts are merged again.
const PARTS_BEFORE_MERGE: u64 = 16;

// What an audit has between two statements: the imports so far as versions, and the report of an import
// that isn't joined yet.
#[derive(Drop)]
pub(crate) struct Base {
    // The version at the floor: no later statement names an earlier one. Its parts are merged.
    held: Version<Segment>,
    // Its number when they were merged last.
    merged: u64,
    // The segments of the log behind it, in order. Each makes a version of its own.
    ahead: VecDeque<Arc<Segment>>,
    // The games and nodes of the last version.
    counts: Counts,
    // The report of an import that isn't joined yet.
    waiting: Option<Vec<u8>>,
}

impl Model for Base {
    ghost use Rattle.std.specs.Prelude.{map};
    ghost use Rattle.std.specs.Arc.{arc_value};
    ghost use Rattle.std.specs.Option.{option_map};
    ghost use Rattle.run_audit.specs.Standing.{Kept, kept_of};

    ghost Value = { Kept };

    ghost view = { λ b. kept_of b.held (map arc_value b.ahead.items) b.counts
        (option_map (λ report. report.items) b.waiting) };
}

impl Base {
    ghost use Rattle.import_work.specs.Course.{trees_in};
    ghost use Rattle.import_work.specs.Outcome.{counts_of};
    ghost use Rattle.run_audit.specs.Standing.{
      FitsTogether,
      IsJoined,
      IsRaised,
      IsVersionAt,
      IsWithin,
      kept_games,
      kept_last,
      kept_report,
      nothing_kept,
    };

    // No game, and no report.
    pub(crate) fn new(alloc: Global) -> Base
        ensures nothing { result ≡ nothing_kept }
        ensures fits { FitsTogether result }
    {
        Base {
            held: Version::empty(alloc),
            merged: 0,
            ahead: VecDeque::new(alloc),
            counts: Counts { games: 0, nodes: 0 },
            waiting: None,
        }
    }

    // The version at the floor.
    pub(crate) fn held(&self) -> &Version<Segment>
        ensures { result.now ≡ self.now.held }
    {
        &self.held
    }

    // The floor: the least number that a statement may name.
    pub(crate) fn floor(&self) -> u64
        ensures { result ≡ self.now.held.number }
    {
        self.held.number()
    }

    // The number of the last version.
    pub(crate) fn last(&self) -> u64
        requires { FitsTogether self.now }
        ensures { result ≡ kept_last self.now }
    {
        self.held.number() + self.ahead.len() as u64
    }

    // The games and nodes of the last version.
    pub(crate) fn counts(&self) -> Counts
        ensures { result ≡ self.now.counts }
    {
        self.counts
    }

    // The report of an import that isn't joined yet, or nothing.
    pub(crate) fn report(&self) -> &[u8]
        ensures { result.now ≡ kept_report self.now }
    {
        match &self.waiting {
            Some(report) => report.as_slice(),
            None => &[],
        }
    }

    // Adds a segment to the log, with which the base has these counts.
    pub(crate) fn add(
        &mut self,
        alloc: Global,
        segment: Segment,
        counts: Counts,
    ) -> Result<(), NoMemory>
        requires fits { FitsTogether self.old }
        requires number { kept_last self.old + 1 ≤ 9000000000000000000 }
        requires counted { counts ≡ counts_of (trees_in (kept_games self.old ++ segment)) }
        requires few { counts.games ≤ 400000 }
        ensures added { OnOk result (self.new ≡ record self.old {
          ahead = self.old.ahead ++ segment ∷ [];
          counts = counts;
        }) }
        ensures fits { OnOk result (FitsTogether self.new) }
    {
        let part = Arc::new(alloc, segment)?;
        self.ahead.push_back(part)?;
        self.counts = counts;
        Ok(())
    }

    // The report of an import waits until the import is joined.
    pub(crate) fn wait_with(&mut self, report: Vec<u8>)
        ensures waits { self.new ≡ record self.old { waiting = Some report.items } }
        ensures fits { FitsTogether self.old → FitsTogether self.new }
    {
        self.waiting = Some(report);
    }

    // The report that waits was printed, if one waits: with it all that the last version has was seen.
    pub(crate) fn join(&mut self, alloc: Global) -> Result<(), NoMemory>
        requires fits { FitsTogether self.old }
        ensures joined { OnOk result (IsJoined self.old self.new) }
        ensures fits { OnOk result (FitsTogether self.new) }
    {
        if self.waiting.is_none() {
            return Ok(());
        }
        self.see_all(alloc)
    }

    // All that the last version has was seen, and no report waits.
    pub(crate) fn see_all(&mut self, alloc: Global) -> Result<(), NoMemory>
        requires fits { FitsTogether self.old }
        ensures seen { OnOk result
            (IsRaised (record self.old { waiting = None }) (kept_last self.old) self.new) }
        ensures fits { OnOk result (FitsTogether self.new) }
    {
        let last = self.last();
        self.waiting = None;
        self.raise(alloc, last)
    }

    // Raises the floor to this number, if it is greater, which is at most that of the last version.
    pub(crate) fn raise(&mut self, alloc: Global, number: u64) -> Result<(), NoMemory>
        requires fits { FitsTogether self.old }
        requires within { number ≤ kept_last self.old }
        ensures raised { OnOk result (IsRaised self.old number self.new) }
        ensures fits { OnOk result (FitsTogether self.new) }
    {
        while self.held.number() < number {
            self.raise_once()?;
        }
        self.merge_parts(alloc)?;
        Ok(())
    }

    // Merges the parts of the version at the floor, if many were added since they were merged last.
    fn merge_parts(&mut self, alloc: Global) -> Result<(), NoMemory>
        requires fits { FitsTogether self.old }
        ensures same { OnOk result (IsRaised self.old self.old.held.number self.new) }
        ensures fits { OnOk result (FitsTogether self.new) }
    {
        let number = self.held.number();
        if number.saturating_sub(self.merged) < PARTS_BEFORE_MERGE {
            return Ok(());
        }
        self.held = with_merged_parts(alloc, &self.held)?;
        self.merged = number;
        Ok(())
    }

    // Raises the floor by one, which is below the last version.
    fn raise_once(&mut self) -> Result<(), NoMemory>
        requires fits { FitsTogether self.old }
        requires below { self.old.held.number < kept_last self.old }
        ensures raised { OnOk result (IsRaised self.old (self.old.held.number + 1) self.new) }
        ensures fits { OnOk result (FitsTogether self.new) }
    {
        let Some(part) = self.ahead.pop_front() else {
            return Ok(());
        };
        push_part(&mut self.held, part)
    }

    // The version with this number, from the floor to the last.
    pub(crate) fn version_at(
        &self,
        alloc: Global,
        number: u64,
    ) -> Result<Version<Segment>, NoMemory>
        requires fits { FitsTogether self.now }
        requires within { IsWithin self.now.held.number (kept_last self.now) number }
        ensures { IfOk result (IsVersionAt self.now number) }
    {
        let mut version = self.held.copy(alloc)?;
        let more = (number - self.held.number()) as usize;
        for at in 0..more {
            push_part(&mut version, self.ahead[at].clone()?)?;
        }
        Ok(version)
    }
}
