// The rows of a table, in order.
ghost use Rattle.std.specs.Prelude.{◌≡◌, [], ◌↔◌, All, AllPairs, IsTrue, OnOk};
ghost use Rattle.continuation_table.specs.Counting.{
  HaveSameNext,
  IsPlaceIn,
  IsRowAdded,
  IsWithinCount,
  counted,
};
ghost use Rattle.continuation_table.specs.Table.{IsRowBefore, tally_of};

use crate::{Row, Tally};
use kb_geometry::{Colour, NoMemory};
use pattern_images::{Hit, Next};

// The row of a continuation that one hit has.
pub(crate) fn first_row(next: Next, hit: &Hit) -> Row
    ensures { result ≡ record {
      colour = next.colour;
      x = next.x;
      y = next.y;
      tally = counted (tally_of []) hit.now;
    } }
{
    Row {
        colour: next.colour,
        x: next.x,
        y: next.y,
        tally: Tally::none().with(hit),
    }
}

// Adds a hit to the row of its continuation. If there is none, the new row is put in.
pub(crate) fn add_to_row(rows: &mut Vec<Row>, new: Row, hit: &Hit) -> Result<(), NoMemory>
    requires ordered { AllPairs IsRowBefore rows.old.items }
    requires room { All (λ (row : Row). IsWithinCount 18446744073709551614 row.tally)
        rows.old.items }
    ensures { OnOk result (IsRowAdded hit.now rows.old.items new rows.new.items) }
{
    let i = place_in(rows.as_slice(), new);
    if i < rows.len() {
        let row = rows[i];
        if have_same_next(row, new) {
            rows[i] = Row {
                colour: row.colour,
                x: row.x,
                y: row.y,
                tally: row.tally.with(hit),
            };
            return Ok(());
        }
    }
    rows.insert(i, new)?;
    Ok(())
}

// How many rows come before a new one.
fn place_in(rows: &[Row], new: Row) -> usize
    requires { AllPairs IsRowBefore rows.now }
    ensures { IsPlaceIn rows.now new result }
{
    let mut from = 0;
    let mut to = rows.len();
    while from < to {
        let middle = from + (to - from) / 2;
        if is_before(rows[middle], new) {
            from = middle + 1;
        } else {
            to = middle;
        }
    }
    from
}

// Whether a row comes before another one: black first, then by the point's row, then by its column.
fn is_before(a: Row, b: Row) -> bool
    ensures { IsTrue result ↔ IsRowBefore a b }
{
    match a.colour {
        Colour::Black => match b.colour {
            Colour::Black => a.y < b.y || a.y == b.y && a.x < b.x,
            Colour::White => true,
        },
        Colour::White => match b.colour {
            Colour::Black => false,
            Colour::White => a.y < b.y || a.y == b.y && a.x < b.x,
        },
    }
}

// Whether two rows are of one continuation.
fn have_same_next(a: Row, b: Row) -> bool
    ensures { IsTrue result ↔ HaveSameNext a b }
{
    match a.colour {
        Colour::Black => match b.colour {
            Colour::Black => a.x == b.x && a.y == b.y,
            Colour::White => false,
        },
        Colour::White => match b.colour {
            Colour::Black => false,
            Colour::White => a.x == b.x && a.y == b.y,
        },
    }
}
