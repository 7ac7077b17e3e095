// The counts of an opening and the rows of its next moves, as they grow.
ghost use Rattle.std.specs.Prelude.{◌≡◌, ◌<◌, ◌≤◌, ◌+◌, [], ℕ, All, List, OnOk, length, slice_index_or};
ghost use Rattle.opening_tree.specs.declared.answer.NextMove.{NextMove};
ghost use Rattle.opening_tree.specs.Groups.{
  IsRowWithin,
  no_row,
  none_yet,
  opening_with,
  place_order,
  play_order,
  row_order,
  row_with,
  row_with_one,
  with_more_row,
  with_more_rows,
  with_one,
};
ghost use Rattle.opening_tree.specs.OpeningTables.{opening_in};

use crate::answer::{NextMove, Opening};
use game_tree::Move;
use kb_geometry::{Colour, Items, NoMemory, Outcome, Point};

// How many entries an opening has and how their games ended, and its first entry.
#[derive(Clone, Copy, Debug)]
pub(crate) struct OpeningCounts {
    pub(crate) count: u64,
    pub(crate) black: u64,
    pub(crate) white: u64,
    pub(crate) other: u64,
    pub(crate) game: u32,
    pub(crate) node: u32,
}

impl OpeningCounts {
    // The counts of no entry, of which this is to be the first.
    pub(crate) fn none(game: u32, node: u32) -> OpeningCounts
        ensures { opening_in result [] ≡ none_yet game node }
    {
        OpeningCounts {
            count: 0,
            black: 0,
            white: 0,
            other: 0,
            game,
            node,
        }
    }

    // The counts with one entry more, of a game that ended so.
    pub(crate) fn with_one(self, outcome: Outcome) -> OpeningCounts
        requires count { self.count ≤ 18446744073709551614 }
        requires black { self.black ≤ 18446744073709551614 }
        requires white { self.white ≤ 18446744073709551614 }
        requires other { self.other ≤ 18446744073709551614 }
        ensures { (rows : List NextMove) →
            opening_in result rows ≡ with_one (opening_in self rows) outcome }
    {
        OpeningCounts {
            count: self.count + 1,
            black: self.black + u64::from(outcome.is_black_win()),
            white: self.white + u64::from(outcome.is_white_win()),
            other: self.other + u64::from(outcome.is_no_win()),
            game: self.game,
            node: self.node,
        }
    }

    // The counts with those of another one.
    pub(crate) fn with_more(self, more: OpeningCounts) -> OpeningCounts
        requires count { self.count + more.count ≤ 18446744073709551615 }
        requires black { self.black + more.black ≤ 18446744073709551615 }
        requires white { self.white + more.white ≤ 18446744073709551615 }
        requires other { self.other + more.other ≤ 18446744073709551615 }
        ensures { (rows others : List NextMove) →
            opening_in result (with_more_rows rows others)
            ≡ opening_with (opening_in self rows) (opening_in more others) }
    {
        OpeningCounts {
            count: self.count + more.count,
            black: self.black + more.black,
            white: self.white + more.white,
            other: self.other + more.other,
            game: self.game,
            node: self.node,
        }
    }

    // The opening of these counts and rows as it is answered.
    pub(crate) fn shown(self, rows: Vec<NextMove>) -> Opening
        ensures { result ≡ opening_in self rows.items }
    {
        Opening {
            count: self.count,
            black: self.black,
            white: self.white,
            other: self.other,
            game: self.game,
            node: self.node,
            nexts: Items::new(rows),
        }
    }
}

// Adds the next moves of a row. The only error is `NoMemory`.
pub(crate) fn add_row(rows: &mut Vec<NextMove>, more: &NextMove) -> Result<(), NoMemory>
    requires { All (IsRowWithin 18446744073709551615) (with_more_row rows.old.items more.now) }
    ensures { OnOk result (rows.new.items ≡ with_more_row rows.old.items more.now) }
{
    let order = play_order(more.colour, more.point);
    let at = rows_before(rows.as_slice(), order);
    if at < rows.len() {
        let row = rows[at];
        if play_order(row.colour, row.point) == order {
            rows[at] = row_with(row, *more);
            return Ok(());
        }
    }
    rows.insert(at, *more)?;
    Ok(())
}

// A row with the next moves of another one.
pub(crate) fn row_with(row: NextMove, more: NextMove) -> NextMove
    requires { IsRowWithin 18446744073709551615 (row_with row more) }
    ensures { result ≡ row_with row more }
{
    NextMove {
        colour: row.colour,
        point: row.point,
        count: row.count + more.count,
        black: row.black + more.black,
        white: row.white + more.white,
        other: row.other + more.other,
    }
}

// How many rows come before the first that doesn't stand before this order.
fn rows_before(rows: &[NextMove], order: u32) -> usize
    ensures within { result ≤ length rows.now }
    ensures before { (k : ℕ) (d : NextMove) → k < result →
        row_order (slice_index_or rows.now k d) < order }
    ensures there { (d : NextMove) → result < length rows.now →
        order ≤ row_order (slice_index_or rows.now result d) }
{
    let mut at = 0;
    for row in rows {
        if play_order(row.colour, row.point) >= order {
            return at;
        }
        at += 1;
    }
    at
}

// The number by which the row of a colour and place stands.
pub(crate) fn play_order(colour: Colour, point: Option<Point>) -> u32
    ensures { result ≡ play_order colour point }
{
    let place = place_order(point);
    match colour {
        Colour::Black => place,
        Colour::White => 131072 + place,
    }
}

// The number of a place among those of a side.
fn place_order(point: Option<Point>) -> u32
    ensures value { result ≡ place_order point }
    ensures most { result ≤ 65536 }
{
    match point {
        Some(p) => u32::from(p.y) * 256 + u32::from(p.x),
        None => 65536,
    }
}

// The row of no next move.
pub(crate) fn no_row(played: Move) -> NextMove
    ensures { result ≡ no_row played }
{
    NextMove {
        colour: played.colour,
        point: played.point,
        count: 0,
        black: 0,
        white: 0,
        other: 0,
    }
}

// A row with one next move more.
pub(crate) fn row_with_one(row: NextMove, outcome: Outcome) -> NextMove
    requires { IsRowWithin 18446744073709551614 row }
    ensures { result ≡ row_with_one row outcome }
{
    NextMove {
        colour: row.colour,
        point: row.point,
        count: row.count + 1,
        black: row.black + u64::from(outcome.is_black_win()),
        white: row.white + u64::from(outcome.is_white_win()),
        other: row.other + u64::from(outcome.is_no_win()),
    }
}
