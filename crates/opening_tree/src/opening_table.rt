// Openings by the words of their canonical positions, in the order in which they were begun.
ghost use Rattle.std.specs.Prelude.{◌≡◌, ◌<◌, [], IfOk, List, OnOk, length, slice_index_or};
ghost use Rattle.opening_tree.specs.declared.answer.NextMove.{NextMove};
ghost use Rattle.opening_tree.specs.declared.answer.Opening.{Opening};
ghost use Rattle.opening_tree.specs.Groups.{
  AreSorted,
  IsGroupWithin,
  none_yet,
  opening_with,
  with_one,
  with_row,
  with_rows,
};
ghost use Rattle.opening_tree.specs.OpeningTables.{IsSaidAt, begun, changed, opening_in};
ghost use Rattle.opening_tree.specs.StoredGroups.{IsKeyAt, Stored};

use crate::answer::{NextMove, Opening};
use crate::keys::Keys;
use crate::opening_so_far::{OpeningCounts, no_row, row_with_one};
use crate::row_lists::RowLists;
use game_tree::Move;
use kb_geometry::{NoMemory, Outcome};
use std::alloc::Global;
use std::marker::Model;

// Openings. Contracts see the list of them, each with the words of its canonical position.
//
// Each has a key, counts and a list of rows, all of its number.
#[derive(Debug, Drop)]
pub(crate) struct OpeningTable {
    keys: Keys,
    counts: Vec<OpeningCounts>,
    rows: RowLists,
}

impl Model for OpeningTable {
    ghost use Rattle.opening_tree.specs.OpeningTables.{
      IsOpeningTable,
      OpeningList,
      lists_of,
      stored_in,
    };

    ghost Value = { OpeningList };

    ghost view = { λ t. record {
      width = t.keys.width;
      entries = stored_in t.keys.keys t.counts.items (lists_of t.rows);
    } };

    ghost invariant = { λ t. IsOpeningTable t.keys.keys t.counts.items t.rows };
}

impl OpeningTable {
    // No opening yet, by so many words. The only error is `NoMemory`.
    pub(crate) fn new(alloc: Global, width: usize) -> Result<Self, NoMemory>
        ensures width { IfOk result (λ t. t.width ≡ width) }
        ensures none { IfOk result (λ t. t.entries ≡ []) }
    {
        let keys = Keys::new(alloc, width)?;
        Ok(OpeningTable {
            keys,
            counts: Vec::new(alloc),
            rows: RowLists::new(alloc),
        })
    }

    // How many openings there are.
    pub(crate) fn len(&self) -> usize
        ensures { result ≡ length self.now.entries }
    {
        self.counts.len()
    }

    // The number of the opening with these words. Where there is none, one of no entry is begun. The
    // only error is `NoMemory`.
    pub(crate) fn find_or_begin(
        &mut self,
        alloc: Global,
        words: &[u64],
        none: OpeningCounts,
    ) -> Result<usize, NoMemory>
        requires { length words.now ≡ self.old.width }
        ensures width { self.new.width ≡ self.old.width }
        ensures at { IfOk result (λ at. IsKeyAt self.new.entries at words.now) }
        ensures entries { OnOk result (
            self.new.entries ≡ begun self.old.entries words.now (opening_in none [])) }
    {
        self.counts.reserve(1)?;
        self.rows.reserve_list()?;
        let at = self.keys.find_or_add(alloc, words)?;
        if at < self.counts.len() {
            return Ok(at);
        }
        self.counts.push_reserved(none);
        self.rows.push_reserved_list();
        Ok(at)
    }

    // Counts an entry of the opening with this number.
    pub(crate) fn count(&mut self, at: usize, outcome: Outcome)
        requires { IsSaidAt (IsGroupWithin 18446744073709551614) self.old.entries at }
        ensures width { self.new.width ≡ self.old.width }
        ensures entries { self.new.entries ≡ changed (λ (o : Opening). with_one o outcome) self.old.entries at }
    {
        let counts = self.counts[at];
        self.counts[at] = counts.with_one(outcome);
    }

    // Counts a next move from the opening with this number. The only error is `NoMemory`.
    pub(crate) fn count_next(
        &mut self,
        at: usize,
        played: Move,
        outcome: Outcome,
    ) -> Result<(), NoMemory>
        requires { IsSaidAt (IsGroupWithin 18446744073709551614) self.old.entries at }
        ensures width { self.new.width ≡ self.old.width }
        ensures entries { OnOk result (self.new.entries
            ≡ changed (λ (o : Opening). with_rows o (with_row o.nexts played outcome))
            self.old.entries at) }
    {
        self.rows.add(at, row_with_one(no_row(played), outcome))?;
        Ok(())
    }

    // Counts the entries and next moves of an opening of more games for that with this number. The
    // only error is `NoMemory`.
    pub(crate) fn count_more(
        &mut self,
        at: usize,
        more: OpeningCounts,
        rows: &[NextMove],
    ) -> Result<(), NoMemory>
        requires { IsSaidAt (λ (o : Opening). IsGroupWithin 18446744073709551615
            (opening_with o (opening_in more rows.now))) self.old.entries at }
        ensures width { self.new.width ≡ self.old.width }
        ensures entries { OnOk result (self.new.entries
            ≡ changed (λ (o : Opening). opening_with o (opening_in more rows.now))
            self.old.entries at) }
    {
        let counts = self.counts[at];
        self.rows.add_rows(at, rows)?;
        self.counts[at] = counts.with_more(more);
        Ok(())
    }

    // The words of the opening with this number.
    pub(crate) fn key(&self, at: usize) -> &[u64]
        requires { at < length self.now.entries }
        ensures { (d : Stored) → result.now ≡ (slice_index_or self.now.entries at d).0 }
    {
        self.keys.key(at)
    }

    // The counts of the opening with this number.
    pub(crate) fn counts(&self, at: usize) -> OpeningCounts
        requires { at < length self.now.entries }
        ensures { (d : Stored) →
            opening_in result (slice_index_or self.now.entries at d).1.nexts
            ≡ (slice_index_or self.now.entries at d).1 }
    {
        self.counts[at]
    }

    // Writes the rows of the opening with this number, in place of what was there. The only error is
    // `NoMemory`.
    pub(crate) fn copy_rows(&self, at: usize, rows: &mut Vec<NextMove>) -> Result<(), NoMemory>
        requires { at < length self.now.entries }
        ensures rows { OnOk result ((d : Stored) →
            rows.new.items ≡ (slice_index_or self.now.entries at d).1.nexts) }
        ensures sorted { OnOk result (AreSorted rows.new.items) }
    {
        self.rows.copy_to(at, rows)?;
        Ok(())
    }

    // The opening with this number as it is answered. The only error is `NoMemory`.
    pub(crate) fn shown(&self, alloc: Global, at: usize) -> Result<Opening, NoMemory>
        requires { at < length self.now.entries }
        ensures { IfOk result (λ opening. (d : Stored) →
            opening ≡ (slice_index_or self.now.entries at d).1) }
    {
        let mut rows = Vec::new(alloc);
        self.copy_rows(at, &mut rows)?;
        Ok(self.counts(at).shown(rows))
    }
}
