// What the nodes of games change.
use capture_board::NodeDeltas;
use case_files::{Case, CaseError};
use game_tree::build;
use kb_geometry::{Cell, Change, Shape, append};
use node_position::deltas;
use sgf_reader::read;
use std::alloc::Global;

/// The kind `changes`: what each node of the first game of a text changes, with ` | ` between. A
/// change is a point, the cell before and the cell after.
pub(crate) fn answer_changes(
    alloc: Global,
    case: &Case<'_>,
    out: &mut Vec<u8>,
) -> Result<(), CaseError> {
    let text = case.text();
    let Ok(collection) = read(alloc, text) else {
        return Err(CaseError::Bad("not SGF"));
    };
    let Ok(trees) = build(alloc, text, &collection) else {
        return Err(CaseError::Bad("not a game of Go"));
    };
    let Some(tree) = trees.first() else {
        return Err(CaseError::Bad("no game"));
    };
    append_deltas(out, &deltas(alloc, tree)?)
}

fn append_deltas(out: &mut Vec<u8>, deltas: &NodeDeltas) -> Result<(), CaseError> {
    let shape = deltas.shape();
    for node in 0..deltas.node_count() {
        if node > 0 {
            append(out, b" | ")?;
        }
        append_changes(out, shape, deltas.changes(node))?;
    }
    Ok(append(out, b"\n")?)
}

// Appends the changes of a node, or `-` if it changes nothing.
fn append_changes(out: &mut Vec<u8>, shape: Shape, changes: &[Change]) -> Result<(), CaseError> {
    if changes.is_empty() {
        append(out, b"-")?;
    }
    let mut gap: &[u8] = b"";
    for change in changes {
        append(out, gap)?;
        append_change(out, shape, *change)?;
        gap = b" ";
    }
    Ok(())
}

fn append_change(out: &mut Vec<u8>, shape: Shape, change: Change) -> Result<(), CaseError> {
    if change.point >= shape.count() {
        return Err(CaseError::Bad("a change off the board"));
    }
    let at = shape.point(change.point);
    let (old, new) = (sign_of(change.old), sign_of(change.new));
    Ok(append(out, &[letter_of(at.x), letter_of(at.y), old, new])?)
}

// The letter of a column or a row, as in SGF.
fn letter_of(place: u8) -> u8 {
    if place < 26 {
        b'a'.saturating_add(place)
    } else {
        b'A'.saturating_add(place.saturating_sub(26))
    }
}

fn sign_of(cell: Cell) -> u8 {
    match cell {
        Cell::Empty => b'.',
        Cell::Black => b'X',
        Cell::White => b'O',
    }
}
