// Parts of a game as they are shown: its board, its information, and what a node does.
use crate::text::append_line;
use case_files::CaseError;
use game_tree::{GameTree, Info, Move, Setup};
use info_filter::day_of;
use kb_geometry::{Cell, Colour, Point, Rect, Shape, append};

/// Appends a board, as columns and rows with a colon between.
pub(crate) fn append_board(out: &mut Vec<u8>, shape: Shape) -> Result<(), CaseError> {
    let (cols, rows) = (shape.cols(), shape.rows());
    let line = format!(in *out.allocator(); "{cols}:{rows}\n")?;
    Ok(append(out, line.as_bytes())?)
}

/// The number of the last node.
pub(crate) fn last_node(tree: &GameTree) -> u32 {
    tree.node_count() - 1
}

/// Appends what a node does: its setups, and its move; `-` where it does nothing, and `none` where
/// there is no such node.
pub(crate) fn append_content(
    out: &mut Vec<u8>,
    tree: &GameTree,
    number: u32,
) -> Result<(), CaseError> {
    if number >= tree.node_count() {
        return Ok(append(out, b"none")?);
    }
    let setups = tree.setups(number);
    append_setups(out, setups)?;
    match tree.played(number) {
        Some(played) if setups.is_empty() => append_move(out, "", played),
        Some(played) => append_move(out, "; ", played),
        None if setups.is_empty() => Ok(append(out, b"-")?),
        None => Ok(()),
    }
}

// Appends setups, each with its rectangle, and a gap between them.
fn append_setups(out: &mut Vec<u8>, setups: &[Setup]) -> Result<(), CaseError> {
    let mut gap = b"".as_slice();
    for setup in setups {
        let Rect { x0, y0, x1, y1 } = setup.rect;
        let name = setup_name(setup.cell);
        let shown = format!(in *out.allocator(); "{name} {x0},{y0} to {x1},{y1}")?;
        append(out, gap)?;
        append(out, shown.as_bytes())?;
        gap = b"; ";
    }
    Ok(())
}

fn setup_name(cell: Cell) -> &'static str {
    match cell {
        Cell::Black => "AB",
        Cell::White => "AW",
        Cell::Empty => "AE",
    }
}

// Appends a move behind a gap.
fn append_move(out: &mut Vec<u8>, gap: &str, played: Move) -> Result<(), CaseError> {
    let name = match played.colour {
        Colour::Black => "B",
        Colour::White => "W",
    };
    let shown = match played.point {
        Some(Point { x, y }) => format!(in *out.allocator(); "{gap}{name} {x},{y}")?,
        None => format!(in *out.allocator(); "{gap}{name} pass")?,
    };
    Ok(append(out, shown.as_bytes())?)
}

/// Appends the information, a line each.
pub(crate) fn append_information(info: &Info, out: &mut Vec<u8>) -> Result<(), CaseError> {
    append_field(out, b"black ", info.black())?;
    append_field(out, b"white ", info.white())?;
    append_field(out, b"event ", info.event())?;
    append_field(out, b"place ", info.place())?;
    append_field(out, b"date ", info.date())?;
    append_field(out, b"result ", info.result())?;
    let (outcome, day) = (info.outcome(), day_of(info.date()));
    let line = format!(in *out.allocator(); "outcome {outcome:?}, day {day:?}\n")?;
    Ok(append(out, line.as_bytes())?)
}

fn append_field(out: &mut Vec<u8>, name: &[u8], text: &[u8]) -> Result<(), CaseError> {
    append(out, name)?;
    append_line(out, text)
}
