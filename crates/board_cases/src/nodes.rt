// The nodes of games: what each changes, and the position there.
ghost use Rattle.std.specs.Prelude.{◌≡◌, ◌<◌};
ghost use Rattle.capture_board.specs.Walking.{StandsIn};

use crate::games::deltas_in;
use crate::reading::numbers_in;
use crate::writing::{put, put_between, put_changes, put_number, sign_of};
use capture_board::{NodeDeltas, Steps, Walker};
use case_files::{Case, CaseError};
use kb_geometry::{Shape, append};
use std::alloc::Global;
use std::marker::Brand;
use std::sync::ledger::{Blank, Ledger};

// The changes at each node, in order of the text.
pub(crate) fn changes(alloc: Global, case: &Case<'_>, out: &mut Vec<u8>) -> Result<(), CaseError> {
    for deltas in &deltas_in(alloc, case.text())? {
        put_all_changes(deltas, out)?;
    }
    Ok(())
}

fn put_all_changes(deltas: &NodeDeltas, out: &mut Vec<u8>) -> Result<(), CaseError> {
    for n in 0..deltas.node_count() {
        let changes = deltas.changes(n);
        if changes.is_empty() {
            put(out, "no change")?;
        }
        put_changes(out, deltas.shape(), changes)?;
        put(out, "\n")?;
    }
    Ok(())
}

// The parent of each node, the position there and the changes. Only the nodes that stand behind the
// kind are told, if there are some. One walker goes through all games.
pub(crate) fn nodes(alloc: Global, case: &Case<'_>, out: &mut Vec<u8>) -> Result<(), CaseError> {
    let asked = numbers_in(alloc, case.words)?;
    let games = deltas_in(alloc, case.text())?;
    walk::<Brand>(&games, &asked, Blank::new(1), out)
}

// A walk over games, one after the other.
fn walk<L: Ledger>(
    games: &[NodeDeltas],
    asked: &[u16],
    blank: Blank,
    out: &mut Vec<u8>,
) -> Result<(), CaseError>
    requires name { blank.name ≡ L.name }
    requires parts { blank.parts ≡ L.parts }
    requires some { 0 < blank.parts }
{
    let [first, ..] = games else {
        return Ok(());
    };
    let mut walker = Walker::new(first);
    let mut steps = Steps::<L>::new(blank);
    for deltas in games {
        put_nodes(deltas, asked, &mut walker, &mut steps, out)?;
    }
    Ok(())
}

// A walk over the nodes of a game and back.
fn put_nodes<L: Ledger>(
    deltas: &NodeDeltas,
    asked: &[u16],
    walker: &mut Walker,
    steps: &mut Steps<L>,
    out: &mut Vec<u8>,
) -> Result<(), CaseError> {
    let mut seen = Vec::new(*out.allocator());
    walker.restart(deltas);
    for n in 0..deltas.node_count() {
        walker.enter_next(deltas, n, steps);
        if is_asked(asked, n) {
            let picture = picture(*out.allocator(), walker, deltas.shape())?;
            put_node(out, deltas, n, &picture)?;
            seen.push((n, picture))?;
        }
    }
    put_way_back(deltas, walker, &seen, out)
}

fn is_asked(asked: &[u16], n: u32) -> bool {
    for one in asked {
        if u32::from(*one) == n {
            return true;
        }
    }
    asked.is_empty()
}

fn put_node(
    out: &mut Vec<u8>,
    deltas: &NodeDeltas,
    n: u32,
    picture: &[u8],
) -> Result<(), CaseError> {
    if n >= deltas.node_count() {
        return Ok(());
    }
    put_number(out, u64::from(n))?;
    match deltas.parent(n) {
        Some(parent) => {
            put(out, " after ")?;
            put_number(out, u64::from(parent))?;
        }
        None => put(out, " root")?,
    }
    put(out, ": ")?;
    append(out, picture)?;
    put_changes(out, deltas.shape(), deltas.changes(n))?;
    put(out, "\n")
}

// Tells of each node on the way back up at which the walker shows another position than before.
fn put_way_back(
    deltas: &NodeDeltas,
    walker: &mut Walker,
    seen: &[(u32, Vec<u8>)],
    out: &mut Vec<u8>,
) -> Result<(), CaseError>
    requires { StandsIn deltas.now walker.old }
{
    while let Some(n) = walker.here() {
        let picture = picture(*out.allocator(), walker, deltas.shape())?;
        put_if_other(out, n, &picture, seen)?;
        walker.leave(deltas);
    }
    Ok(())
}

fn put_if_other(
    out: &mut Vec<u8>,
    n: u32,
    picture: &[u8],
    seen: &[(u32, Vec<u8>)],
) -> Result<(), CaseError> {
    for (node, before) in seen {
        if *node == n && before.as_slice() != picture {
            put(out, "back at ")?;
            put_number(out, u64::from(n))?;
            put(out, ": ")?;
            append(out, picture)?;
            put(out, "\n")?;
        }
    }
    Ok(())
}

// The position that the walker shows, with `/` between the rows, and `!` at the end where the
// walker's sets of points aren't those of the position.
fn picture(alloc: Global, walker: &Walker, shape: Shape) -> Result<Vec<u8>, CaseError>
    requires { walker.now.shape ≡ shape }
{
    let cols = u16::from(shape.cols());
    let mut rows = Vec::new(alloc);
    for number in 0..shape.count() {
        if number > 0 && number % cols == 0 {
            rows.push(b'/')?;
        }
        let cell = walker.cell(number);
        put(&mut rows, sign_of(cell))?;
        if !walker.points(cell).contains(number) {
            rows.push(b'!')?;
        }
    }
    Ok(rows)
}
