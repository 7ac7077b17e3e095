// The cells of points at the nodes of a game.
ghost use Rattle.std.specs.Prelude.{◌<◌, ◌+◌, IsTrue};
ghost use Rattle.kb_geometry.specs.Board.{point_count};

use crate::asked::{number_or, value_of};
use crate::texts::{
    cell_of, end_list, number_of, point_number, put, put_number, put_numbers, separate, sign_of,
};
use capture_index::{RunIndex, Stretch};
use case_files::CaseError;
use pattern_images::PatternCell;
use ready_images::{ClassWants, Want};
use std::alloc::Global;

/// `cells`: of a point, at all nodes or at those that are told behind it.
pub(crate) fn cells(asked: &str, runs: &RunIndex, out: &mut Vec<u8>) -> Result<(), CaseError> {
    let mut words = asked.split_whitespace();
    let point = point_number(runs.shape(), words.next().unwrap_or(""))?;
    let start = out.len();
    for word in words {
        let node = number_of(word)?;
        if node >= runs.node_count() {
            return Err(CaseError::Bad("no such node"));
        }
        out.push(sign_of(runs.cell(point, node)))?;
    }
    if out.len() > start {
        return Ok(());
    }
    for node in 0..runs.node_count() {
        out.push(sign_of(runs.cell(point, node)))?;
    }
    Ok(())
}

/// `begins`: the nodes at which a point begins to have a cell.
pub(crate) fn begins(asked: &str, runs: &RunIndex, out: &mut Vec<u8>) -> Result<(), CaseError> {
    let mut words = asked.split_whitespace();
    let point = point_number(runs.shape(), words.next().unwrap_or(""))?;
    let cell = cell_of(words.next().unwrap_or(""))?;
    let start = out.len();
    for node in runs.nodes_where(point, cell) {
        separate(out, start, " ")?;
        put_number(out, node)?;
    }
    end_list(out, start)
}

/// `parents`: of all nodes, `-` for none.
pub(crate) fn parents(runs: &RunIndex, out: &mut Vec<u8>) -> Result<(), CaseError> {
    let start = out.len();
    for node in 0..runs.node_count() {
        separate(out, start, " ")?;
        match runs.parent(node) {
            Some(above) => put_number(out, above)?,
            None => put(out, "-")?,
        }
    }
    Ok(())
}

// A word `POINT=CELLS`: what is wanted of a point, which stands so far behind the base.
fn want_of(runs: &RunIndex, base: u16, word: &str) -> Result<Want, CaseError> {
    let (point, cells) = word.split_once("=").ok_or(CaseError::Bad("no want"))?;
    let number = point_number(runs.shape(), point)?;
    let offset = number
        .checked_sub(base)
        .ok_or(CaseError::Bad("a point before the base"))?;
    let cell = match cells {
        "." => PatternCell::Empty,
        "X" => PatternCell::Black,
        "O" => PatternCell::White,
        ".X" => PatternCell::NotWhite,
        ".O" => PatternCell::NotBlack,
        ".XO" => PatternCell::Any,
        _ => return Err(CaseError::Bad("no cell of a pattern")),
    };
    Ok(Want { offset, cell })
}

// The point behind which the wanted ones stand: `base=POINT`, else the first one.
fn base_of(runs: &RunIndex, asked: &str) -> Result<u16, CaseError> {
    match value_of(asked, "base") {
        Some(point) => point_number(runs.shape(), point),
        None => Ok(0),
    }
}

// What is wanted of two points, or twice of one.
fn wants_of(runs: &RunIndex, base: u16, asked: &str) -> Result<[Want; 2], CaseError> {
    let mut words = asked.split_whitespace();
    let first = want_of(runs, base, words.next().unwrap_or(""))?;
    let second = match words.next() {
        Some(word) if !word.contains("base=") && !word.contains("node=") => {
            want_of(runs, base, word)?
        }
        _ => first,
    };
    Ok([first, second])
}

/// `wanted`: the nodes at which one or two points have cells that are wanted, and those at which
/// that begins.
pub(crate) fn wanted(
    alloc: Global,
    asked: &str,
    runs: &RunIndex,
    out: &mut Vec<u8>,
) -> Result<(), CaseError> {
    let base = base_of(runs, asked)?;
    let wants = wants_of(runs, base, asked)?;
    let mut found = Vec::new(alloc);
    let mut nodes = Vec::new(alloc);
    let [first, second] = wants;
    if !is_on_board(runs, base, first) || !is_on_board(runs, base, second) {
        return Err(CaseError::Bad("a point off the board"));
    }
    runs.find(
        base,
        ClassWants::of(&wants),
        &mut found,
        &mut Vec::new(alloc),
    )?;
    runs.push_begins(&found, &mut nodes)?;
    nodes.sort_unstable();
    put_stretches(alloc, out, &found)?;
    put(out, "; begins ")?;
    put_numbers(out, &nodes)
}

// Appends stretches in order, those that follow one another as one.
fn put_stretches(alloc: Global, out: &mut Vec<u8>, stretches: &[Stretch]) -> Result<(), CaseError> {
    let mut sorted = Vec::new(alloc);
    for Stretch { from, to } in stretches {
        sorted.push((*from, *to))?;
    }
    sorted.sort_unstable();
    let start = out.len();
    let mut open: Option<(u32, u32)> = None;
    for (from, to) in sorted {
        open = match open {
            Some((first, end)) if end == from => Some((first, to)),
            Some((first, end)) => {
                put_stretch(out, start, first, end)?;
                Some((from, to))
            }
            None => Some((from, to)),
        };
    }
    if let Some((first, end)) = open {
        put_stretch(out, start, first, end)?;
    }
    end_list(out, start)
}

fn put_stretch(out: &mut Vec<u8>, start: usize, from: u32, to: u32) -> Result<(), CaseError> {
    separate(out, start, " ")?;
    put_number(out, from)?;
    let last = to.saturating_sub(1);
    if last > from {
        put(out, "-")?;
        put_number(out, last)?;
    }
    Ok(())
}

/// `unchanged`: the next node at which a point of one or two changes.
pub(crate) fn unchanged(asked: &str, runs: &RunIndex, out: &mut Vec<u8>) -> Result<(), CaseError> {
    let base = base_of(runs, asked)?;
    let wants = wants_of(runs, base, asked)?;
    let node = number_or(asked, "node", 0)?;
    if node >= runs.node_count() {
        return Err(CaseError::Bad("no such node"));
    }
    let [first, second] = wants;
    if !is_on_board(runs, base, first) || !is_on_board(runs, base, second) {
        return Err(CaseError::Bad("a point off the board"));
    }
    put_number(out, runs.unchanged_to(base, &wants, node))
}

// Whether a wanted point stands on the board.
fn is_on_board(runs: &RunIndex, base: u16, want: Want) -> bool
    ensures { IsTrue result → base + want.offset < point_count runs.now.shape }
{
    u32::from(base) + u32::from(want.offset) < u32::from(runs.shape().count())
}
