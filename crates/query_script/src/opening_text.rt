// The printed text of openings, line by line.
ghost use Rattle.std.specs.Prelude.{◌≡◌, ◌++◌, OnErr, OnOk, Some};
ghost use mathlib.Core.List.{IsPrefix};
ghost use Rattle.query_script.specs.Texts.{
  counts_text,
  next_move_head,
  next_move_text,
  opening_head,
  place_text,
  position_text,
};

use crate::head::append_head;
use crate::search_text::colour_letter;
use kb_geometry::{Colour, NoMemory, Point, append, append_decimal, append_decimal_and, cut_back};

/// How many nodes, and how many of them in games that black won, that white won, and in others.
#[derive(Clone, Copy, Debug, PartialEq, Eq)]
pub struct NodeCounts {
    pub count: u64,
    pub black: u64,
    pub white: u64,
    pub other: u64,
}

/// Appends the first line of openings: `LINE opening version V games G positions P`, with how many
/// there are. The only error is `NoMemory`, and then `out` is as before.
pub fn print_opening_head(
    line: u32,
    version: u64,
    games: u32,
    positions: usize,
    out: &mut Vec<u8>,
) -> Result<(), NoMemory>
    ensures ok { OnOk result (out.new.items
        ≡ out.old.items ++ opening_head line version games positions) }
    ensures refused { OnErr result (out.new.items ≡ out.old.items) }
{
    append_head(
        out,
        line,
        b"opening",
        version,
        games,
        b"positions",
        positions,
    )
}

/// Appends the line of a position: `position COUNT BLACK WHITE OTHER GAME NODE`, with the game and
/// the node at which it came up first. The only error is `NoMemory`, and then `out` is as before.
pub fn print_position(
    counts: NodeCounts,
    game: u32,
    node: u32,
    out: &mut Vec<u8>,
) -> Result<(), NoMemory>
    ensures ok { OnOk result (out.new.items ≡ out.old.items ++ position_text counts game node) }
    ensures refused { OnErr result (out.new.items ≡ out.old.items) }
{
    let len = out.len();
    let done = append_position(out, counts, game, node);
    cut_back(out, len, done)
}

fn append_position(
    out: &mut Vec<u8>,
    counts: NodeCounts,
    game: u32,
    node: u32,
) -> Result<(), NoMemory>
    ensures ok { OnOk result (out.new.items ≡ out.old.items ++ position_text counts game node) }
    ensures refused { OnErr result (IsPrefix out.old.items out.new.items) }
{
    append(out, b"position ")?;
    append_counts(out, counts)?;
    append(out, b" ")?;
    append_decimal_and(out, u64::from(game), b' ')?;
    append_decimal_and(out, u64::from(node), b'\n')?;
    Ok(())
}

/// Appends the line of a next move: `next COLOUR X Y COUNT BLACK WHITE OTHER`, or, where there is no
/// point, `next COLOUR pass COUNT BLACK WHITE OTHER`. The only error is `NoMemory`, and then `out`
/// is as before.
pub fn print_next_move(
    colour: Colour,
    point: Option<Point>,
    counts: NodeCounts,
    out: &mut Vec<u8>,
) -> Result<(), NoMemory>
    ensures ok { OnOk result (out.new.items ≡ out.old.items ++ next_move_text colour point counts) }
    ensures refused { OnErr result (out.new.items ≡ out.old.items) }
{
    let len = out.len();
    let done = append_next_move(out, colour, point, counts);
    cut_back(out, len, done)
}

fn append_next_move(
    out: &mut Vec<u8>,
    colour: Colour,
    point: Option<Point>,
    counts: NodeCounts,
) -> Result<(), NoMemory>
    ensures ok { OnOk result (out.new.items ≡ out.old.items ++ next_move_text colour point counts) }
    ensures refused { OnErr result (IsPrefix out.old.items out.new.items) }
{
    append_next_head(out, colour)?;
    append_place(out, point)?;
    append(out, b" ")?;
    append_counts(out, counts)?;
    append(out, b"\n")?;
    Ok(())
}

// Appends of which colour a next move is.
fn append_next_head(out: &mut Vec<u8>, colour: Colour) -> Result<(), NoMemory>
    ensures ok { OnOk result (out.new.items ≡ out.old.items ++ next_move_head colour) }
    ensures refused { OnErr result (IsPrefix out.old.items out.new.items) }
{
    append(out, b"next ")?;
    append(out, colour_letter(colour).as_bytes())?;
    append(out, b" ")?;
    Ok(())
}

// Appends where a next move is: its column and row, or that it is a pass.
fn append_place(out: &mut Vec<u8>, point: Option<Point>) -> Result<(), NoMemory>
    ensures ok { OnOk result (out.new.items ≡ out.old.items ++ place_text point) }
    ensures refused { OnErr result (IsPrefix out.old.items out.new.items) }
{
    match point {
        None => append(out, b"pass"),
        Some(point) => append_point(out, point),
    }
}

// Appends the column and the row of a point.
fn append_point(out: &mut Vec<u8>, point: Point) -> Result<(), NoMemory>
    ensures ok { OnOk result (out.new.items ≡ out.old.items ++ place_text (Some point)) }
    ensures refused { OnErr result (IsPrefix out.old.items out.new.items) }
{
    append_decimal_and(out, u64::from(point.x), b' ')?;
    append_decimal(out, u64::from(point.y))?;
    Ok(())
}

// Appends how many nodes there are.
fn append_counts(out: &mut Vec<u8>, counts: NodeCounts) -> Result<(), NoMemory>
    ensures ok { OnOk result (out.new.items ≡ out.old.items ++ counts_text counts) }
    ensures refused { OnErr result (IsPrefix out.old.items out.new.items) }
{
    append_decimal_and(out, counts.count, b' ')?;
    append_decimal_and(out, counts.black, b' ')?;
    append_decimal_and(out, counts.white, b' ')?;
    append_decimal(out, counts.other)?;
    Ok(())
}
