// The searchers.
ghost use Rattle.std.specs.Prelude.{◌≡◌, ◌≤◌, List, [], ◌∷◌, length, MatchResult};
ghost use mathlib.Core.List.{IsPrefix};
ghost use Rattle.left_right.specs.Sides.{view as seat_view};
ghost use Rattle.version_publisher.specs.Contents.{items_in, longer, KnowsOne, IsNewSearcher};

use crate::handles::ReplicaReader;
use crate::part::Part;
use crate::publisher::Publisher;
use crate::reading::{read, read_receipt};
use crate::receipt::Receipt;
use crate::version::Version;
use kb_geometry::NoMemory;
use std::alloc::Global;
use std::error::Error;
use std::fmt;
use std::marker::Model;
use std::sync::Wait;

/// Why a look gave no version.
#[derive(Clone, Copy, Debug, PartialEq, Eq)]
pub enum LookError {
    /// `left_right` refused to enter, or the number found is below one that was learned, or, in
    /// [`Searcher::look_with`], isn't the publisher's.
    NotEntered,
    /// Memory was refused.
    NoMemory,
}

impl fmt::Display for LookError {
    fn fmt<W: fmt::Write>(&self, f: &mut fmt::Formatter<W>) -> fmt::Result {
        f.write_str(match self {
            LookError::NotEntered => "not entered",
            LookError::NoMemory => "out of memory",
        })
    }
}

impl Error for LookError {}

impl From<NoMemory> for LookError {
    fn from(_: NoMemory) -> Self {
        LookError::NoMemory
    }
}

/// One that looks at what was published. Only [`Searcher::meet`] waits.
#[derive(Drop)]
pub struct Searcher<P: Part> {
    reader: ReplicaReader<P>,
    seen: Receipt<P>,
    learned: Receipt<P>,
}

impl<P: Part> Model for Searcher<P> {
    ghost use Rattle.std.specs.Prelude.{◌≡◌, ◌∷◌, []};
    ghost use mathlib.Core.List.{IsPrefix};
    ghost use Rattle.left_right.specs.Sides.{view as seat_view};
    ghost use Rattle.version_publisher.specs.declared.state.SearcherState.{SearcherState};

    ghost Value = { SearcherState P.Item };

    ghost view = { λ s. record {
      opening = s.seen.opening;
      read = (seat_view s.reader.place).read;
      seen = s.seen.log;
      learned = s.learned.log;
    } };

    ghost invariant = { λ s. ((seat_view s.reader.place).openings ≡ s.seen.opening ∷ [])
        × (s.learned.opening ≡ s.seen.opening)
        × IsPrefix s.seen.log (seat_view s.reader.place).read };
}

// Waits until what is published has this number.
fn await_number<P: Part, R: Wait>(rt: &R, reader: &mut ReplicaReader<P>, number: u64) -> Receipt<P>
    requires one { KnowsOne (seat_view reader.old.place).openings }
    ensures reader { ((seat_view reader.new.place).openings ≡ (seat_view reader.old.place).openings)
        × IsPrefix (seat_view reader.old.place).read (seat_view reader.new.place).read }
    ensures read { ((seat_view reader.old.place).openings ≡ result.opening ∷ [])
        × (result.log ≡ (seat_view reader.new.place).read) × (length result.log ≡ number) }
    ensures kept { (log : List (List P.Item)) → IsPrefix log (seat_view reader.old.place).read →
        IsPrefix log result.log }
{
    for _ in rt.forever() {
        if let Some(found) = read_receipt(reader) {
            if found.number() == number {
                return found;
            }
        }
    }
    unreachable!()
}

impl<P: Part> Searcher<P> {
    pub(crate) fn new(reader: ReplicaReader<P>, empty: &Receipt<P>) -> Searcher<P>
        requires opening { (seat_view reader.place).openings ≡ empty.now.opening ∷ [] }
        requires unread { (seat_view reader.place).read ≡ [] }
        requires empty { empty.now.log ≡ [] }
        ensures { IsNewSearcher empty.now.opening result }
    {
        Searcher {
            reader,
            seen: empty.copy(),
            learned: empty.copy(),
        }
    }

    /// A published version, which holds all that this searcher has seen or learned; that it is the
    /// last one isn't promised. It doesn't wait. After a refusal all is as it was, but for what was
    /// read.
    pub fn look(&mut self, alloc: Global) -> Result<Version<P>, LookError>
        ensures same { (self.new.opening ≡ self.old.opening)
            × (self.new.learned ≡ self.old.learned) }
        ensures read { IsPrefix self.old.read self.new.read }
        ensures answer { MatchResult result
            (λ v. (self.new.seen ≡ self.new.read) × (v.number ≡ length self.new.seen)
            × (items_in v.parts ≡ items_in self.new.seen) × IsPrefix self.old.seen self.new.seen
            × IsPrefix self.old.learned self.new.seen)
            (λ _. self.new ≡ record self.old { read = self.new.read }) }
    {
        let (version, found) = read(&mut self.reader, alloc)?;
        if found.number() < self.learned.number() {
            return Err(LookError::NotEntered);
        }
        self.learned.begins(&found);
        self.seen = found;
        Ok(version)
    }

    /// Takes a receipt of the same opening. From now on a look holds the log up to its number.
    pub fn learn(&mut self, receipt: Receipt<P>)
        requires { receipt.opening ≡ self.old.opening }
        ensures same { (self.new.opening ≡ self.old.opening) × (self.new.read ≡ self.old.read)
            × (self.new.seen ≡ self.old.seen) }
        ensures learned { self.new.learned ≡ longer self.old.learned receipt.log }
        ensures kept { IsPrefix self.old.learned self.new.learned
            × IsPrefix receipt.log self.new.learned }
    {
        if receipt.number() < self.learned.number() {
            receipt.begins(&self.learned);
            return;
        }
        self.learned.begins(&receipt);
        self.learned = receipt;
    }

    /// Waits until it has found the whole log of a publisher of the same opening.
    pub fn meet<R: Wait>(&mut self, rt: &R, publisher: &Publisher<P>)
        requires { self.old.opening ≡ publisher.now.opening }
        ensures same { (self.new.opening ≡ self.old.opening)
            × (self.new.learned ≡ self.old.learned) }
        ensures read { (self.new.read ≡ publisher.now.log) × IsPrefix self.old.read self.new.read }
        ensures seen { (self.new.seen ≡ publisher.now.log) × IsPrefix self.old.seen self.new.seen }
    {
        let whole = publisher.receipt();
        let found = await_number(rt, &mut self.reader, whole.number());
        found.equals(&whole);
        self.seen = found;
    }

    /// The version of the whole log of a publisher of the same opening. It doesn't wait. After a
    /// refusal all is as it was, but for what was read.
    pub fn look_with(
        &mut self,
        alloc: Global,
        publisher: &Publisher<P>,
    ) -> Result<Version<P>, LookError>
        requires { self.old.opening ≡ publisher.now.opening }
        ensures same { (self.new.opening ≡ self.old.opening)
            × (self.new.learned ≡ self.old.learned) }
        ensures read { IsPrefix self.old.read self.new.read }
        ensures answer { MatchResult result
            (λ v. (self.new.seen ≡ publisher.now.log) × (self.new.seen ≡ self.new.read)
            × (v.number ≡ length self.new.seen) × (items_in v.parts ≡ items_in self.new.seen)
            × IsPrefix self.old.seen self.new.seen)
            (λ _. self.new ≡ record self.old { read = self.new.read }) }
    {
        let (version, found) = read(&mut self.reader, alloc)?;
        let whole = publisher.receipt();
        if found.number() != whole.number() {
            return Err(LookError::NotEntered);
        }
        found.equals(&whole);
        self.seen = found;
        Ok(version)
    }

    /// A receipt of the log as far as this searcher has seen it.
    pub fn seen(&self) -> Receipt<P>
        ensures opening { result.opening ≡ self.now.opening }
        ensures log { result.log ≡ self.now.seen }
        ensures read { IsPrefix self.now.seen self.now.read }
    {
        self.seen.copy()
    }

    /// A law: of two searchers of one opening, what the one has seen is a prefix of what the other
    /// has seen, if it isn't longer.
    pub fn has_seen_prefix_of(&self, other: &Searcher<P>)
        requires opening { self.now.opening ≡ other.now.opening }
        requires shorter { length self.now.seen ≤ length other.now.seen }
        ensures { IsPrefix self.now.seen other.now.seen }
    {
        self.seen.begins(&other.seen);
    }
}
