// Where a side of a game is counted in the table.
ghost use Rattle.std.specs.Prelude.{◌+◌, ◌<◌, ◌≤◌, ℕ, List, length, All, IfOk};
ghost use Rattle.indexmap.specs.IndexMap.{spare};
ghost use Rattle.info_filter.specs.Players.{TableRow};
ghost use Rattle.info_filter.specs.Seats.{IsCountedAt, IsCountedFor, IsSeat, table_rows_of};
ghost use Rattle.info_filter.specs.SidesCounted.{AreRowsWithSide};
ghost use Rattle.info_filter.specs.declared.seat.Seat.{Seat};

use crate::score::Score;
use indexmap::IndexMap;
use kb_geometry::NoMemory;
use std::alloc::Global;

// Where a name has its row.
#[derive(Debug, Drop)]
pub(crate) enum Seat {
    // Nowhere: the name is empty.
    Nowhere,
    // It has a row with this number.
    Row(usize),
    // It has none yet, and here is a copy of it.
    New(Vec<u8>),
}

// Where a name has its row. The only error is `NoMemory`, for the copy of a new name.
pub(crate) fn seat_of(
    scores: &IndexMap<Vec<u8>, Score>,
    alloc: Global,
    name: &[u8],
) -> Result<Seat, NoMemory>
    ensures { IfOk result (λ seat. IsSeat scores.now.entries name.now seat) }
{
    if name.is_empty() {
        return Ok(Seat::Nowhere);
    }
    match scores.get_index_of(name) {
        Some(row) => Ok(Seat::Row(row)),
        None => Ok(Seat::New(name.to_vec(alloc)?)),
    }
}

// Counts a side of a game where its name has its row.
pub(crate) fn add_side(scores: &mut IndexMap<Vec<u8>, Score>, seat: Seat, won: bool, lost: bool)
    requires room { 1 ≤ spare scores.old }
    requires seat { (name : List ℕ) × IsSeat scores.old.entries name seat }
    requires small { All (λ (row : TableRow). row.games ≤ 4294967294)
        (table_rows_of scores.old.entries) }
    ensures added { (name : List ℕ) → IsSeat scores.old.entries name seat →
        AreRowsWithSide (table_rows_of scores.old.entries)
        (record { name = name; won = won; lost = lost }) (table_rows_of scores.new.entries) }
    ensures kept { (name : List ℕ) (other : Seat) →
        IsSeat scores.old.entries name other → IsSeat scores.new.entries name other }
    ensures spare { spare scores.old ≤ spare scores.new + 1 }
{
    match seat {
        Seat::Nowhere => {}
        Seat::Row(row) => add_to_row(scores, row, won, lost),
        Seat::New(name) => add_name(scores, name, won, lost),
    }
}

// Counts a side in a row.
fn add_to_row(scores: &mut IndexMap<Vec<u8>, Score>, row: usize, won: bool, lost: bool)
    requires within { row < length scores.old.entries }
    requires small { All (λ (row : TableRow). row.games ≤ 4294967294)
        (table_rows_of scores.old.entries) }
    ensures counted { IsCountedAt scores.old.entries row won lost scores.new.entries }
    ensures spare { spare scores.old ≤ spare scores.new + 1 }
{
    let score = scores[row];
    scores[row] = score.with(won, lost);
}

// Counts a side for a name that may have a row.
fn add_name(scores: &mut IndexMap<Vec<u8>, Score>, name: Vec<u8>, won: bool, lost: bool)
    requires room { 1 ≤ spare scores.old }
    requires small { All (λ (row : TableRow). row.games ≤ 4294967294)
        (table_rows_of scores.old.entries) }
    ensures counted { IsCountedFor scores.old.entries name won lost scores.new.entries }
    ensures spare { spare scores.old ≤ spare scores.new + 1 }
{
    let score = scores.entry(name).unwrap().or_insert(Score::none());
    *score = score.with(won, lost);
}
