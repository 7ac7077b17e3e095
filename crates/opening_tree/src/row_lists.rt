// Lists of rows of next moves, all rows in one list.
ghost use Rattle.std.specs.Prelude.{
  ◌≡◌,
  ◌≢◌,
  ◌+◌,
  ◌-◌,
  ◌++◌,
  ◌∷◌,
  ◌<◌,
  ◌≤◌,
  [],
  All,
  IfSome,
  IfNone,
  OnErr,
  OnOk,
  length,
  slice_index,
  slice_index_or,
  slice_set,
};
ghost use Rattle.opening_tree.specs.declared.answer.NextMove.{NextMove};
ghost use Rattle.opening_tree.specs.Groups.{AreSorted, IsRowWithin, row_order, with_more_row, with_more_rows};
ghost use Rattle.opening_tree.specs.RowLists.{
  AreRowLists,
  HasRoomForList,
  IsNoRow,
  lists_in,
  rows_from,
};

use crate::answer::NextMove;
use crate::opening_so_far::{add_row, play_order, row_with};
use kb_geometry::NoMemory;
use std::alloc::Global;

// The most rows, and the most lists: their numbers are kept as `u32`, of which one is no number.
const MOST: usize = 4_294_967_295;

// The link to no row.
const NONE: u32 = 4_294_967_295;

// Lists of rows, each in order: those of black first, then by point, a pass last of its colour.
//
// All rows stand in one list, in the order in which they first came. Each list has links to its first
// and its last row, and each row one to the next of its list.
#[derive(Debug, Drop)]
pub(crate) struct RowLists {
    pub(crate) rows: Vec<NextMove>,
    // Of each row the list that it is of.
    pub(crate) lists: Vec<u32>,
    pub(crate) nexts: Vec<u32>,
    pub(crate) firsts: Vec<u32>,
    pub(crate) lasts: Vec<u32>,
}

impl RowLists {
    // No list yet.
    pub(crate) fn new(alloc: Global) -> RowLists
        ensures are { AreRowLists result.rows.items result.lists.items result.nexts.items
            result.firsts.items result.lasts.items }
        ensures none { length result.firsts.items ≡ 0 }
    {
        RowLists {
            rows: Vec::new(alloc),
            lists: Vec::new(alloc),
            nexts: Vec::new(alloc),
            firsts: Vec::new(alloc),
            lasts: Vec::new(alloc),
        }
    }

    // Makes room for one list more. The only error is `NoMemory`, also where there are 4,294,967,295.
    pub(crate) fn reserve_list(&mut self) -> Result<(), NoMemory>
        ensures rows { (self.new.rows ≡ self.old.rows) × (self.new.lists ≡ self.old.lists)
            × (self.new.nexts ≡ self.old.nexts) }
        ensures links { (self.new.firsts.items ≡ self.old.firsts.items)
            × (self.new.lasts.items ≡ self.old.lasts.items) }
        ensures room { OnOk result (HasRoomForList self.new) }
    {
        if self.firsts.len() >= MOST {
            return Err(NoMemory);
        }
        self.firsts.reserve(1)?;
        self.lasts.reserve(1)?;
        Ok(())
    }

    // One list more, of no row, for which there is room.
    pub(crate) fn push_reserved_list(&mut self)
        requires are { AreRowLists self.old.rows.items self.old.lists.items self.old.nexts.items
            self.old.firsts.items self.old.lasts.items }
        requires room { HasRoomForList self.old }
        ensures are { AreRowLists self.new.rows.items self.new.lists.items self.new.nexts.items
            self.new.firsts.items self.new.lasts.items }
        ensures long { length self.new.firsts.items ≡ length self.old.firsts.items + 1 }
        ensures added { lists_in (length self.new.firsts.items) self.new.rows.items self.new.lists.items
            ≡ lists_in (length self.old.firsts.items) self.old.rows.items self.old.lists.items
            ++ [] ∷ [] }
    {
        self.lasts.push_reserved(NONE);
        self.firsts.push_reserved(NONE);
    }

    // Adds a row to a list: it is counted in the row of its order, or put in there. The only error is
    // `NoMemory`, also where there are 4,294,967,295 rows.
    pub(crate) fn add(&mut self, list: usize, more: NextMove) -> Result<(), NoMemory>
        requires are { AreRowLists self.old.rows.items self.old.lists.items self.old.nexts.items
            self.old.firsts.items self.old.lasts.items }
        requires list { list < length self.old.firsts.items }
        requires room { All (IsRowWithin 18446744073709551615)
            (with_more_row (rows_from list [] self.old.rows.items self.old.lists.items) more) }
        ensures are { AreRowLists self.new.rows.items self.new.lists.items self.new.nexts.items
            self.new.firsts.items self.new.lasts.items }
        ensures long { length self.new.firsts.items ≡ length self.old.firsts.items }
        ensures added { OnOk result (
            lists_in (length self.new.firsts.items) self.new.rows.items self.new.lists.items
            ≡ slice_set
            (lists_in (length self.old.firsts.items) self.old.rows.items self.old.lists.items) list
            (with_more_row (rows_from list [] self.old.rows.items self.old.lists.items) more)) }
        ensures unchanged { OnErr result (
            lists_in (length self.new.firsts.items) self.new.rows.items self.new.lists.items
            ≡ lists_in (length self.old.firsts.items) self.old.rows.items self.old.lists.items) }
    {
        match self.find(list, play_order(more.colour, more.point)) {
            Some(at) => {
                self.rows[at] = row_with(self.rows[at], more);
                Ok(())
            }
            None => self.push(list, more),
        }
    }

    // Adds rows to a list, one after another. The only error is `NoMemory`, also where there are
    // 4,294,967,295 rows.
    pub(crate) fn add_rows(&mut self, list: usize, more: &[NextMove]) -> Result<(), NoMemory>
        requires are { AreRowLists self.old.rows.items self.old.lists.items self.old.nexts.items
            self.old.firsts.items self.old.lasts.items }
        requires list { list < length self.old.firsts.items }
        requires room { All (IsRowWithin 18446744073709551615)
            (with_more_rows (rows_from list [] self.old.rows.items self.old.lists.items) more.now) }
        ensures are { AreRowLists self.new.rows.items self.new.lists.items self.new.nexts.items
            self.new.firsts.items self.new.lasts.items }
        ensures long { length self.new.firsts.items ≡ length self.old.firsts.items }
        ensures added { OnOk result (
            lists_in (length self.new.firsts.items) self.new.rows.items self.new.lists.items
            ≡ slice_set
            (lists_in (length self.old.firsts.items) self.old.rows.items self.old.lists.items) list
            (with_more_rows (rows_from list [] self.old.rows.items self.old.lists.items) more.now)) }
    {
        for row in more {
            self.add(list, *row)?;
        }
        Ok(())
    }

    // The number of the row of a list that has this order, if there is one.
    fn find(&self, list: usize, order: u32) -> Option<usize>
        requires are { AreRowLists self.now.rows.items self.now.lists.items self.now.nexts.items
            self.now.firsts.items self.now.lasts.items }
        requires list { list < length self.now.firsts.items }
        ensures in_range { IfSome result (λ at. at < length self.now.rows.items) }
        ensures own { IfSome result (λ at. slice_index self.now.lists.items at ≡ list) }
        ensures order { (d : NextMove) → IfSome result (λ at.
            row_order (slice_index_or self.now.rows.items at d) ≡ order) }
        ensures none { IfNone result (IsNoRow list self.now.rows.items self.now.lists.items 0 order) }
    {
        let mut next = self.firsts[list];
        while next != NONE {
            let at = next as usize;
            let row = self.rows[at];
            if play_order(row.colour, row.point) == order {
                return Some(at);
            }
            next = self.nexts[at];
        }
        None
    }

    // Adds a row to a list in which none has its order.
    fn push(&mut self, list: usize, row: NextMove) -> Result<(), NoMemory>
        requires are { AreRowLists self.old.rows.items self.old.lists.items self.old.nexts.items
            self.old.firsts.items self.old.lasts.items }
        requires list { list < length self.old.firsts.items }
        requires none { IsNoRow list self.old.rows.items self.old.lists.items 0 (row_order row) }
        requires room { All (IsRowWithin 18446744073709551615)
            (with_more_row (rows_from list [] self.old.rows.items self.old.lists.items) row) }
        ensures are { AreRowLists self.new.rows.items self.new.lists.items self.new.nexts.items
            self.new.firsts.items self.new.lasts.items }
        ensures long { length self.new.firsts.items ≡ length self.old.firsts.items }
        ensures added { OnOk result (
            lists_in (length self.new.firsts.items) self.new.rows.items self.new.lists.items
            ≡ slice_set
            (lists_in (length self.old.firsts.items) self.old.rows.items self.old.lists.items) list
            (with_more_row (rows_from list [] self.old.rows.items self.old.lists.items) row)) }
        ensures unchanged { OnErr result (
            lists_in (length self.new.firsts.items) self.new.rows.items self.new.lists.items
            ≡ lists_in (length self.old.firsts.items) self.old.rows.items self.old.lists.items) }
    {
        let at = self.rows.len();
        if at >= MOST {
            return Err(NoMemory);
        }
        self.rows.reserve(1)?;
        self.lists.reserve(1)?;
        self.nexts.reserve(1)?;
        self.rows.push_reserved(row);
        self.lists.push_reserved(list as u32);
        self.nexts.push_reserved(NONE);
        chain(
            self.nexts.as_mut_slice(),
            self.firsts.as_mut_slice(),
            self.lasts.as_mut_slice(),
            list,
        );
        Ok(())
    }

    // Writes the rows of a list, in place of what was there. They stand in order. The only error is
    // `NoMemory`.
    pub(crate) fn copy_to(&self, list: usize, rows: &mut Vec<NextMove>) -> Result<(), NoMemory>
        requires are { AreRowLists self.now.rows.items self.now.lists.items self.now.nexts.items
            self.now.firsts.items self.now.lasts.items }
        requires list { list < length self.now.firsts.items }
        ensures rows { OnOk result (rows.new.items
            ≡ rows_from list [] self.now.rows.items self.now.lists.items) }
        ensures sorted { OnOk result (AreSorted rows.new.items) }
    {
        rows.clear();
        let mut next = self.firsts[list];
        while next != NONE {
            let at = next as usize;
            add_row(rows, &self.rows[at])?;
            next = self.nexts[at];
        }
        Ok(())
    }
}

// Links the last row, which is new, as the last one of a list.
fn chain(nexts: &mut [u32], firsts: &mut [u32], lasts: &mut [u32], list: usize)
    requires some { 0 < length nexts.old }
    requires few { length nexts.old ≤ 4294967295 }
    requires list { list < length firsts.old }
    requires long { length lasts.old ≡ length firsts.old }
    requires before { slice_index lasts.old list ≢ 4294967295 →
        slice_index lasts.old list < length nexts.old }
    ensures lasts { lasts.new ≡ slice_set lasts.old list (length nexts.old - 1) }
    ensures first { slice_index lasts.old list ≡ 4294967295 →
        (firsts.new ≡ slice_set firsts.old list (length nexts.old - 1)) × (nexts.new ≡ nexts.old) }
    ensures next { slice_index lasts.old list ≢ 4294967295 →
        (firsts.new ≡ firsts.old)
        × (nexts.new ≡ slice_set nexts.old (slice_index lasts.old list) (length nexts.old - 1)) }
{
    let at = nexts.len() as u32 - 1;
    let last = lasts[list];
    lasts[list] = at;
    if last == NONE {
        firsts[list] = at;
        return;
    }
    nexts[last as usize] = at;
}
