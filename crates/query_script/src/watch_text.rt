// The printed texts of watched searches.
ghost use Rattle.std.specs.Prelude.{◌≡◌, ◌++◌, OnErr, OnOk};
ghost use mathlib.Core.List.{IsPrefix};
ghost use Rattle.query_script.specs.Texts.{
  no_watch_text,
  taken_text,
  watch_text,
  watched_head,
  watched_text,
};

use crate::pieces::{Piece, append_line};
use crate::search_text::{append_hits, append_rows, append_totals};
use continuation_table::Table;
use kb_geometry::{NoMemory, cut_back};
use pattern_images::Hit;

/// The line of a statement, and the version over which it is answered: its number, and how many games
/// it has.
#[derive(Clone, Copy, Debug, PartialEq, Eq)]
pub struct Heading {
    pub line: u32,
    pub version: u64,
    pub games: u32,
}

/// Appends the text of a search that is watched from now on: `LINE watch NAME version V hits H`. The
/// only error is `NoMemory`, and then `out` is as before.
pub fn print_watch(
    line: u32,
    name: &str,
    version: u64,
    hits: usize,
    out: &mut Vec<u8>,
) -> Result<(), NoMemory>
    ensures ok { OnOk result (out.new.items
        ≡ out.old.items ++ watch_text line name.now version hits) }
    ensures refused { OnErr result (out.new.items ≡ out.old.items) }
{
    append_line(
        out,
        &[
            Piece::Number(u64::from(line)),
            Piece::Text(b" watch "),
            Piece::Text(name.as_bytes()),
            Piece::Text(b" version "),
            Piece::Number(version),
            Piece::Text(b" hits "),
            Piece::Number(hits as u64),
        ],
    )
}

/// Appends that a name is watched already: `LINE watch NAME taken`. The only error is `NoMemory`, and
/// then `out` is as before.
pub fn print_taken(line: u32, name: &str, out: &mut Vec<u8>) -> Result<(), NoMemory>
    ensures ok { OnOk result (out.new.items ≡ out.old.items ++ taken_text line name.now) }
    ensures refused { OnErr result (out.new.items ≡ out.old.items) }
{
    append_line(
        out,
        &[
            Piece::Number(u64::from(line)),
            Piece::Text(b" watch "),
            Piece::Text(name.as_bytes()),
            Piece::Text(b" taken"),
        ],
    )
}

/// Appends the text of a watched search: its head with the number of the version, of its games and of
/// the hits; then a line for each hit, a line for each row of the table, and the totals. The only
/// error is `NoMemory`, and then `out` is as before.
pub fn print_watched(
    heading: Heading,
    name: &str,
    hits: &[Hit],
    table: &Table,
    out: &mut Vec<u8>,
) -> Result<(), NoMemory>
    ensures ok { OnOk result (out.new.items ≡ out.old.items
        ++ watched_text heading.line name.now heading.version heading.games hits.now table.now) }
    ensures refused { OnErr result (out.new.items ≡ out.old.items) }
{
    let len = out.len();
    let done = append_watched(out, heading, name, hits, table);
    cut_back(out, len, done)
}

// Appends the text of a watched search.
fn append_watched(
    out: &mut Vec<u8>,
    heading: Heading,
    name: &str,
    hits: &[Hit],
    table: &Table,
) -> Result<(), NoMemory>
    ensures ok { OnOk result (out.new.items ≡ out.old.items
        ++ watched_text heading.line name.now heading.version heading.games hits.now table.now) }
    ensures refused { OnErr result (IsPrefix out.old.items out.new.items) }
{
    append_watched_head(out, heading, name, hits.len())?;
    append_hits(out, hits)?;
    append_rows(out, table.rows())?;
    append_totals(out, table.totals())?;
    Ok(())
}

// Appends the head of a watched search, with how many hits it has.
fn append_watched_head(
    out: &mut Vec<u8>,
    heading: Heading,
    name: &str,
    hits: usize,
) -> Result<(), NoMemory>
    ensures ok { OnOk result (out.new.items ≡ out.old.items
        ++ watched_head heading.line name.now heading.version heading.games hits) }
    ensures refused { OnErr result (out.new.items ≡ out.old.items) }
{
    append_line(
        out,
        &[
            Piece::Number(u64::from(heading.line)),
            Piece::Text(b" watched "),
            Piece::Text(name.as_bytes()),
            Piece::Text(b" version "),
            Piece::Number(heading.version),
            Piece::Text(b" games "),
            Piece::Number(u64::from(heading.games)),
            Piece::Text(b" hits "),
            Piece::Number(hits as u64),
        ],
    )
}

/// Appends that no search is watched under a name: `LINE watched NAME none`. The only error is
/// `NoMemory`, and then `out` is as before.
pub fn print_no_watch(line: u32, name: &str, out: &mut Vec<u8>) -> Result<(), NoMemory>
    ensures ok { OnOk result (out.new.items ≡ out.old.items ++ no_watch_text line name.now) }
    ensures refused { OnErr result (out.new.items ≡ out.old.items) }
{
    append_line(
        out,
        &[
            Piece::Number(u64::from(line)),
            Piece::Text(b" watched "),
            Piece::Text(name.as_bytes()),
            Piece::Text(b" none"),
        ],
    )
}
