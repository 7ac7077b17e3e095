// The printed text of a search.
ghost use Rattle.std.specs.Prelude.{◌≡◌, ◌++◌, None, OnErr, OnOk, Some};
ghost use mathlib.Core.List.{IsPrefix};
ghost use Rattle.std.specs.List.{flat_map};
ghost use Rattle.query_script.specs.Texts.{
  colour_letter,
  hit_head,
  hit_text,
  next_text,
  row_head,
  row_text,
  search_head,
  search_text,
  tally_text,
  total_text,
  when_word,
};

use crate::head::append_head;
use continuation_table::{Row, Table, Tally};
use kb_geometry::{Colour, NoMemory, append, append_decimal_and, cut_back};
use pattern_images::{Hit, Next};

// The letter of a colour.
pub(crate) fn colour_letter(colour: Colour) -> &'static str
    ensures { result.now ≡ colour_letter colour }
{
    match colour {
        Colour::Black => "B",
        Colour::White => "W",
    }
}

// Whether play goes on by the next move of the game.
fn when_word(now: bool) -> &'static str
    ensures { result.now ≡ when_word now }
{
    if now { "now" } else { "later" }
}

// Appends how play goes on.
fn append_next(out: &mut Vec<u8>, next: Option<Next>) -> Result<(), NoMemory>
    ensures ok { OnOk result (out.new.items ≡ out.old.items ++ next_text next) }
    ensures refused { OnErr result (IsPrefix out.old.items out.new.items) }
{
    match next {
        None => append_none(out),
        Some(next) => append_move(out, next),
    }
}

// Appends that play doesn't go on.
fn append_none(out: &mut Vec<u8>) -> Result<(), NoMemory>
    ensures ok { OnOk result (out.new.items ≡ out.old.items ++ next_text None) }
    ensures refused { OnErr result (IsPrefix out.old.items out.new.items) }
{
    append(out, b"-\n")?;
    Ok(())
}

// Appends the move by which play goes on.
fn append_move(out: &mut Vec<u8>, next: Next) -> Result<(), NoMemory>
    ensures ok { OnOk result (out.new.items ≡ out.old.items ++ next_text (Some next)) }
    ensures refused { OnErr result (IsPrefix out.old.items out.new.items) }
{
    append(out, colour_letter(next.colour).as_bytes())?;
    append(out, b" ")?;
    append_decimal_and(out, u64::from(next.x), b' ')?;
    append_decimal_and(out, u64::from(next.y), b' ')?;
    append(out, when_word(next.now).as_bytes())?;
    append(out, b"\n")?;
    Ok(())
}

// Appends where a hit is.
fn append_hit_head(out: &mut Vec<u8>, hit: &Hit) -> Result<(), NoMemory>
    ensures ok { OnOk result (out.new.items ≡ out.old.items ++ hit_head hit.now) }
    ensures refused { OnErr result (IsPrefix out.old.items out.new.items) }
{
    append(out, b"hit ")?;
    append_decimal_and(out, u64::from(hit.game), b' ')?;
    append_decimal_and(out, u64::from(hit.node), b' ')?;
    append_decimal_and(out, u64::from(hit.place.x), b' ')?;
    append_decimal_and(out, u64::from(hit.place.y), b' ')?;
    append_decimal_and(out, u64::from(hit.place.label.number()), b' ')?;
    Ok(())
}

// Appends the line of a hit.
fn append_hit(out: &mut Vec<u8>, hit: &Hit) -> Result<(), NoMemory>
    ensures ok { OnOk result (out.new.items ≡ out.old.items ++ hit_text hit.now) }
    ensures refused { OnErr result (IsPrefix out.old.items out.new.items) }
{
    append_hit_head(out, hit)?;
    append_next(out, hit.next)?;
    Ok(())
}

// Appends the lines of hits, in order.
pub(crate) fn append_hits(out: &mut Vec<u8>, hits: &[Hit]) -> Result<(), NoMemory>
    ensures ok { OnOk result (out.new.items ≡ out.old.items ++ flat_map hit_text hits.now) }
    ensures refused { OnErr result (IsPrefix out.old.items out.new.items) }
{
    for hit in hits {
        append_hit(out, hit)?;
    }
    Ok(())
}

// Appends the numbers of a tally.
fn append_tally(out: &mut Vec<u8>, tally: Tally) -> Result<(), NoMemory>
    ensures ok { OnOk result (out.new.items ≡ out.old.items ++ tally_text tally) }
    ensures refused { OnErr result (IsPrefix out.old.items out.new.items) }
{
    append_decimal_and(out, u64::from(tally.count), b' ')?;
    append_decimal_and(out, u64::from(tally.now), b' ')?;
    append_decimal_and(out, u64::from(tally.later), b' ')?;
    append_decimal_and(out, u64::from(tally.black), b' ')?;
    append_decimal_and(out, u64::from(tally.white), b' ')?;
    append_decimal_and(out, u64::from(tally.other), b'\n')?;
    Ok(())
}

// Appends which continuation a row is of.
fn append_row_head(out: &mut Vec<u8>, row: &Row) -> Result<(), NoMemory>
    ensures ok { OnOk result (out.new.items ≡ out.old.items ++ row_head row.now) }
    ensures refused { OnErr result (IsPrefix out.old.items out.new.items) }
{
    append(out, b"row ")?;
    append(out, colour_letter(row.colour).as_bytes())?;
    append(out, b" ")?;
    append_decimal_and(out, u64::from(row.x), b' ')?;
    append_decimal_and(out, u64::from(row.y), b' ')?;
    Ok(())
}

// Appends a row.
fn append_row(out: &mut Vec<u8>, row: &Row) -> Result<(), NoMemory>
    ensures ok { OnOk result (out.new.items ≡ out.old.items ++ row_text row.now) }
    ensures refused { OnErr result (IsPrefix out.old.items out.new.items) }
{
    append_row_head(out, row)?;
    append_tally(out, row.tally)?;
    Ok(())
}

// Appends rows, in order.
pub(crate) fn append_rows(out: &mut Vec<u8>, rows: &[Row]) -> Result<(), NoMemory>
    ensures ok { OnOk result (out.new.items ≡ out.old.items ++ flat_map row_text rows.now) }
    ensures refused { OnErr result (IsPrefix out.old.items out.new.items) }
{
    for row in rows {
        append_row(out, row)?;
    }
    Ok(())
}

// Appends the totals.
pub(crate) fn append_totals(out: &mut Vec<u8>, totals: Tally) -> Result<(), NoMemory>
    ensures ok { OnOk result (out.new.items ≡ out.old.items ++ total_text totals) }
    ensures refused { OnErr result (IsPrefix out.old.items out.new.items) }
{
    append(out, b"total ")?;
    append_tally(out, totals)?;
    Ok(())
}

// Appends the text of a search.
fn append_search(
    out: &mut Vec<u8>,
    line: u32,
    number: u64,
    games: u32,
    hits: &[Hit],
    table: &Table,
) -> Result<(), NoMemory>
    ensures ok { OnOk result (out.new.items
        ≡ out.old.items ++ search_text line number games hits.now table.now) }
    ensures refused { OnErr result (IsPrefix out.old.items out.new.items) }
{
    append_head(out, line, b"search", number, games, b"hits", hits.len())?;
    append_hits(out, hits)?;
    append_rows(out, table.rows())?;
    append_totals(out, table.totals())?;
    Ok(())
}

/// Appends the text of a search: its head with the number of the version, of its games and of the
/// hits; then a line for each hit, a line for each row of the table, and the totals. The only error
/// is `NoMemory`, and then `out` is as before.
pub fn print_hits(
    line: u32,
    number: u64,
    games: u32,
    hits: &[Hit],
    table: &Table,
    out: &mut Vec<u8>,
) -> Result<(), NoMemory>
    ensures ok { OnOk result (out.new.items
        ≡ out.old.items ++ search_text line number games hits.now table.now) }
    ensures refused { OnErr result (out.new.items ≡ out.old.items) }
{
    let len = out.len();
    let done = append_search(out, line, number, games, hits, table);
    cut_back(out, len, done)
}

/// Appends the head of a search alone, with how many hits it has. The only error is `NoMemory`, and
/// then `out` is as before.
pub fn print_search_head(
    line: u32,
    number: u64,
    games: u32,
    hits: usize,
    out: &mut Vec<u8>,
) -> Result<(), NoMemory>
    ensures ok { OnOk result (out.new.items ≡ out.old.items ++ search_head line number games hits) }
    ensures refused { OnErr result (out.new.items ≡ out.old.items) }
{
    append_head(out, line, b"search", number, games, b"hits", hits)
}

/// Appends a line for each of these hits, in order. The only error is `NoMemory`, and then `out` is
/// as before.
pub fn print_hit_lines(hits: &[Hit], out: &mut Vec<u8>) -> Result<(), NoMemory>
    ensures ok { OnOk result (out.new.items ≡ out.old.items ++ flat_map hit_text hits.now) }
    ensures refused { OnErr result (out.new.items ≡ out.old.items) }
{
    let len = out.len();
    let done = append_hits(out, hits);
    cut_back(out, len, done)
}

/// Appends a line for each of these rows, in order. The only error is `NoMemory`, and then `out` is
/// as before.
pub fn print_rows(rows: &[Row], out: &mut Vec<u8>) -> Result<(), NoMemory>
    ensures ok { OnOk result (out.new.items ≡ out.old.items ++ flat_map row_text rows.now) }
    ensures refused { OnErr result (out.new.items ≡ out.old.items) }
{
    let len = out.len();
    let done = append_rows(out, rows);
    cut_back(out, len, done)
}

/// Appends the line of the totals. The only error is `NoMemory`, and then `out` is as before.
pub fn print_totals(totals: Tally, out: &mut Vec<u8>) -> Result<(), NoMemory>
    ensures ok { OnOk result (out.new.items ≡ out.old.items ++ total_text totals) }
    ensures refused { OnErr result (out.new.items ≡ out.old.items) }
{
    let len = out.len();
    let done = append_totals(out, totals);
    cut_back(out, len, done)
}
