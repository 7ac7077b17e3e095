// The publisher.
ghost use Rattle.std.specs.Prelude.{
  ◌≡◌,
  ◌+◌,
  ◌≤◌,
  ◌<◌,
  ◌^◌,
  [],
  ◌∷◌,
  ◌++◌,
  ◌⊎◌,
  true,
  false,
  length,
  drop,
  IfSome,
  MatchResult,
  MatchOption,
};
ghost use Rattle.std.specs.Bool.{OnFalse};
ghost use Rattle.std.specs.Arc.{arc_value};
ghost use Rattle.left_right.specs.Sides.{view as seat_view};
ghost use Rattle.version_publisher.specs.Contents.{
  book_name_of,
  items_in,
  content,
  merged_last,
  last_two_joined,
  IsEmptyOrAmong,
  ReadsArePublished,
};
ghost use Rattle.version_publisher.specs.Replicas.{content_of};

use crate::handles::{ReplicaWriter, publish_in_place, queue_waiting};
use crate::log::LogEnd;
use crate::part::Part;
use crate::receipt::Receipt;
use crate::replica::{Change, Replica};
use crate::state::Content;
use kb_geometry::NoMemory;
use left_right::Absorb;
use std::alloc::Global;
use std::marker::Model;
use std::sync::{Arc, Wait};

/// The one that appends to the log and publishes. End it by `close`.
pub struct Publisher<P: Part>
where
    Replica<P>: Absorb<Change<P>, State = Content<P::Item>>,
{
    writer: ReplicaWriter<P>,
    end: LogEnd<P>,
    waiting: Vec<Arc<P>>,
    alloc: Global,
}

impl<P: Part> Model for Publisher<P>
where
    Replica<P>: Absorb<Change<P>, State = Content<P::Item>>,
{
    ghost use Rattle.std.specs.Prelude.{◌≡◌, ◌∷◌, ◌++◌, ◌||◌, [], map, length, drop};
    ghost use Rattle.std.specs.Arc.{arc_value};
    ghost use Rattle.left_right.specs.Sides.{view as seat_view};
    ghost use Rattle.version_publisher.specs.declared.state.PublisherState.{PublisherState};
    ghost use Rattle.version_publisher.specs.Contents.{
      book_name_of,
      is_nonempty,
      IsEmptyOrAmong,
      IsReady,
    };
    ghost use Rattle.version_publisher.specs.Replicas.{content_of, content_after};

    ghost Value = { PublisherState P.Item };

    ghost view = { λ p. record {
      opening = book_name_of p.end.token.book;
      log = p.writer.desk.shown.value.token.log;
      published = (seat_view p.writer.desk.place).published;
      pending = drop (length p.writer.desk.shown.value.token.log) p.end.token.log;
      parts = map (λ a. P.items (arc_value a)) p.writer.desk.shown.value.parts.items;
      next_parts = (content_after P.items p.writer.desk.shown.value
          (drop p.writer.behind p.writer.log.items)).parts
          ++ map (λ a. P.items (arc_value a)) p.waiting.items;
      has_pending = is_nonempty (drop p.writer.behind p.writer.log.items)
          || is_nonempty p.waiting.items;
    } };

    ghost invariant = { λ p.
        (((seat_view p.writer.desk.place).openings ≡ book_name_of p.end.token.book ∷ [])
        × IsEmptyOrAmong (content_of P.items p.writer.desk.shown.value).log
        (seat_view p.writer.desk.place).published)
        × IsReady P.MOST (content_of P.items p.writer.desk.shown.value)
        (content_after P.items p.writer.desk.shown.value (drop p.writer.behind p.writer.log.items))
        (map (λ a. P.items (arc_value a)) p.waiting.items) p.end.token.log p.end.token.book };
}

impl<P: Part> Publisher<P> {
    pub(crate) fn new(alloc: Global, writer: ReplicaWriter<P>, end: LogEnd<P>) -> Publisher<P>
        requires opening { (seat_view writer.desk.place).openings
            ≡ book_name_of end.token.book ∷ [] }
        requires empty { (end.token.log ≡ [])
            × (content_of P.items writer.desk.shown.value ≡ content 0 [] [] end.token.book)
            × (drop writer.behind writer.log.items ≡ []) }
        ensures { (result.opening ≡ book_name_of end.token.book) × (result.log ≡ [])
            × (result.published ≡ (seat_view writer.desk.place).published) × (result.pending ≡ [])
            × (result.parts ≡ []) × (result.next_parts ≡ []) × (result.has_pending ≡ false) }
    {
        Publisher {
            writer,
            end,
            waiting: Vec::new(alloc),
            alloc,
        }
    }

    /// Adds a part to the pending ones. It comes back, with all as it was, where memory is refused.
    ///
    /// The log and the pending parts, this one among them, must have at most [`Part::MOST`] items,
    /// and be fewer than 2^64 parts.
    pub fn append(&mut self, part: Arc<P>) -> Result<(), (Arc<P>, NoMemory)>
        requires room { length (items_in (self.old.log
            ++ self.old.pending)) + length (P.items (arc_value part)) ≤ P.MOST }
        requires number { length (self.old.log ++ self.old.pending) + 1 < 2 ^ 64 }
        ensures { MatchResult result
            (λ _. self.new ≡ record self.old {
              pending = self.old.pending
                  ++ P.items (arc_value part) ∷ [];
              next_parts = self.old.next_parts
                  ++ P.items (arc_value part) ∷ [];
              has_pending = true;
            })
            (λ e. (e.0 ≡ part) × (self.new ≡ self.old)) }
    {
        // The log can't be undone, so what may be refused comes first.
        if self.waiting.reserve(1).is_err() || !self.end.append(&part) {
            return Err((part, NoMemory));
        }
        if self.waiting.push(part).is_err() {
            unreachable!()
        }
        Ok(())
    }

    /// Appends all pending parts to the log at one step, and makes a pending merge. So one log more
    /// was published, and no reader of this publisher's copies finds a log with some of them alone.
    /// Where memory is refused all is as it was.
    pub fn publish<R: Wait>(&mut self, rt: &R) -> Result<Receipt<P>, NoMemory>
        ensures { MatchResult result
            (λ receipt. (self.new ≡ record self.old {
              log = self.old.log ++ self.old.pending;
              published = self.old.published
                  ++ (self.old.log ++ self.old.pending)
                  ∷ [];
              pending = [];
              parts = self.old.next_parts;
              has_pending = false;
            })
            × (receipt.opening ≡ self.old.opening)
            × (receipt.log ≡ self.old.log ++ self.old.pending))
            (λ _. self.new ≡ self.old) }
    {
        queue_waiting(self.alloc, &mut self.writer, &mut self.waiting, &self.end)?;
        publish_in_place(rt, &mut self.writer)?;
        Ok(Receipt::new(self.end.count(), &self.end.token))
    }

    /// At the next publish this part takes the place of the last two, whose items it has. It comes
    /// back, with all as it was, where memory is refused. Nothing may be pending, and at least two
    /// parts must be published.
    pub fn merge_last(&mut self, merged: Arc<P>) -> Result<(), (Arc<P>, NoMemory)>
        requires idle { self.old.has_pending ≡ false }
        requires two { 2 ≤ length self.old.parts }
        requires items { P.items (arc_value merged) ≡ last_two_joined self.old.parts }
        ensures none_pending { self.old.pending ≡ [] }
        ensures merged { MatchResult result
            (λ _. self.new
            ≡ record self.old {
              next_parts = merged_last self.old.parts
                  (P.items (arc_value merged));
              has_pending = true;
            })
            (λ e. (e.0 ≡ merged) × (self.new ≡ self.old)) }
    {
        match self.writer.append(Change::MergeLast(merged)) {
            Ok(()) => Ok(()),
            Err(Change::MergeLast(part)) => Err((part, NoMemory)),
            Err(Change::Append(_parts, _, _token)) => unreachable!(),
        }
    }

    /// Lends the last two published parts, which fit into one part. None comes exactly where fewer
    /// than two parts are published or something is pending.
    pub fn last_two(&self) -> Option<(&P, &P)>
        ensures fits { IfSome result
            (λ t. length (P.items t.0.now) + length (P.items t.1.now) ≤ P.MOST) }
        ensures joined { IfSome result (λ t. (2 ≤ length self.now.parts)
            × (last_two_joined self.now.parts ≡ P.items t.0.now ++ P.items t.1.now)) }
        ensures last { MatchOption result
            ((length self.now.parts < 2) ⊎ (self.now.has_pending ≡ true))
            (λ t. (self.now.has_pending ≡ false)
            × ((before : _) × (self.now.parts
            ≡ before ++ P.items t.0.now ∷ P.items t.1.now ∷ []))) }
    {
        if self.has_pending() {
            return None;
        }
        let parts = self.writer.published().parts.as_slice();
        let len = parts.len();
        if len < 2 {
            return None;
        }
        Some((&parts[len - 2], &parts[len - 1]))
    }

    /// Whether a part or a merge waits for the next publish.
    pub fn has_pending(&self) -> bool
        ensures pending { result ≡ self.now.has_pending }
        ensures none { OnFalse result ((self.now.pending ≡ [])
            × (self.now.next_parts ≡ self.now.parts)) }
    {
        self.writer.has_pending_operations() || !self.waiting.is_empty()
    }

    /// How many parts were appended and published. They have at most [`Part::MOST`] items.
    pub fn number(&self) -> u64
        ensures value { result ≡ length self.now.log }
        ensures fits { length (items_in self.now.log) ≤ P.MOST }
    {
        self.writer.published().number
    }

    /// A receipt of the log as it is published now.
    pub fn receipt(&self) -> Receipt<P>
        ensures opening { result.opening ≡ self.now.opening }
        ensures log { result.log ≡ self.now.log }
        ensures published { IsEmptyOrAmong self.now.log self.now.published }
    {
        let replica = self.writer.published();
        Receipt::new(replica.number, &replica.token)
    }

    /// A law: under the rule of the published value, the one that published what is published has
    /// published each log that anyone has read.
    pub fn reads_are_published()
        ensures { ReadsArePublished P.Item P.MOST }
    {}

    /// Ends the publisher with what is pending. Versions that searchers hold stay.
    pub fn close<R: Wait>(self, rt: &R) {
        let Publisher {
            writer,
            end: _end,
            waiting: _waiting,
            alloc: _,
        } = self;
        drop(writer.take(rt));
    }
}
