// The text of the statement that lists openings.
ghost use Rattle.std.specs.Prelude.{◌≡◌, ◌++◌, ℕ, List, OnErr, OnOk};
ghost use Rattle.std.specs.List.{flat_map};
ghost use mathlib.Core.List.{IsPrefix};
ghost use Rattle.session_core.specs.Answers.{IsOpeningText, openings_text};
ghost use Rattle.session_core.specs.OpeningLines.{
  entries_counted,
  next_line,
  nodes_counted,
  opening_lines,
};
ghost use Rattle.session_core.specs.Stores.{view_of};

use kb_geometry::NoMemory;
use opening_tree::{NextMove, Opening, WantedOpenings, opening_in_pieces};
use query_script::{NodeCounts, print_next_move, print_opening_head, print_position};
use search_engine::game_count;
use segment_store::Segment;
use std::alloc::Global;
use std::thread::Threads;
use version_publisher::Version;

// Appends the text of the openings that are asked for.
pub(crate) fn append_opening<R: Threads + Sync>(
    rt: &R,
    alloc: Global,
    line: u32,
    wanted: WantedOpenings,
    version: &Version<Segment>,
    out: &mut Vec<u8>,
) -> Result<(), NoMemory>
    ensures ok { OnOk result ((text : List ℕ)
        × IsOpeningText line (view_of version.now) wanted.shape wanted.depth wanted.least text
        × (out.new.items ≡ out.old.items ++ text)) }
    ensures refused { OnErr result (IsPrefix out.old.items out.new.items) }
{
    let openings = opening_in_pieces(rt, alloc, version, wanted)?;
    append_openings(line, version, openings.as_slice(), out)
}

// Appends the text of these openings.
fn append_openings(
    line: u32,
    version: &Version<Segment>,
    openings: &[Opening],
    out: &mut Vec<u8>,
) -> Result<(), NoMemory>
    ensures ok { OnOk result (out.new.items
        ≡ out.old.items ++ openings_text line (view_of version.now) openings.now) }
    ensures refused { OnErr result (IsPrefix out.old.items out.new.items) }
{
    print_opening_head(
        line,
        version.number(),
        game_count(version),
        openings.len(),
        out,
    )?;
    append_all_lines(openings, out)
}

// Appends the lines of each opening.
fn append_all_lines(openings: &[Opening], out: &mut Vec<u8>) -> Result<(), NoMemory>
    ensures ok { OnOk result (out.new.items
        ≡ out.old.items ++ flat_map opening_lines openings.now) }
    ensures refused { OnErr result (IsPrefix out.old.items out.new.items) }
{
    for opening in openings {
        append_lines(opening, out)?;
    }
    Ok(())
}

// Appends the line of an opening, and one for each of its next moves.
fn append_lines(opening: &Opening, out: &mut Vec<u8>) -> Result<(), NoMemory>
    ensures ok { OnOk result (out.new.items ≡ out.old.items ++ opening_lines opening.now) }
    ensures refused { OnErr result (IsPrefix out.old.items out.new.items) }
{
    print_position(entries_counted(opening), opening.game, opening.node, out)?;
    append_nexts(opening.nexts.as_slice(), out)
}

// Appends the lines of next moves.
fn append_nexts(nexts: &[NextMove], out: &mut Vec<u8>) -> Result<(), NoMemory>
    ensures ok { OnOk result (out.new.items ≡ out.old.items ++ flat_map next_line nexts.now) }
    ensures refused { OnErr result (IsPrefix out.old.items out.new.items) }
{
    for next in nexts {
        append_next(next, out)?;
    }
    Ok(())
}

// Appends the line of a next move.
fn append_next(next: &NextMove, out: &mut Vec<u8>) -> Result<(), NoMemory>
    ensures ok { OnOk result (out.new.items ≡ out.old.items ++ next_line next.now) }
    ensures refused { OnErr result (IsPrefix out.old.items out.new.items) }
{
    print_next_move(next.colour, next.point, nodes_counted(next), out)
}

// How many entries an opening has.
fn entries_counted(opening: &Opening) -> NodeCounts
    ensures { result ≡ entries_counted opening.now }
{
    NodeCounts {
        count: opening.count,
        black: opening.black,
        white: opening.white,
        other: opening.other,
    }
}

// At how many nodes a next move was played.
fn nodes_counted(next: &NextMove) -> NodeCounts
    ensures { result ≡ nodes_counted next.now }
{
    NodeCounts {
        count: next.count,
        black: next.black,
        white: next.white,
        other: next.other,
    }
}
