// Points, cells and numbers as cases write them.
ghost use Rattle.std.specs.Prelude.{◌≡◌, ◌<◌, IfOk, IsTrue};
ghost use Rattle.kb_geometry.specs.Board.{point_count};

use case_files::CaseError;
use kb_geometry::{Cell, Colour, Outcome, Point, Shape, append, append_decimal};

/// Appends a text.
pub(crate) fn put(out: &mut Vec<u8>, text: &str) -> Result<(), CaseError> {
    Ok(append(out, text.as_bytes())?)
}

/// Appends a number.
pub(crate) fn put_number(out: &mut Vec<u8>, number: u32) -> Result<(), CaseError> {
    Ok(append_decimal(out, u64::from(number))?)
}

/// Appends how many there are.
pub(crate) fn put_count(out: &mut Vec<u8>, count: usize) -> Result<(), CaseError> {
    Ok(append_decimal(out, count as u64)?)
}

/// Whether two boards have as many columns and rows.
pub(crate) fn is_same(a: Shape, b: Shape) -> bool
    ensures { IsTrue result → (a ≡ b) }
{
    a == b
}

/// Appends what stands between the entries of a list, if there is one since `start`.
pub(crate) fn separate(out: &mut Vec<u8>, start: usize, between: &str) -> Result<(), CaseError> {
    if out.len() > start {
        put(out, between)?;
    }
    Ok(())
}

/// Ends a list that began at `start`: one without an entry is written as a word.
pub(crate) fn end_list(out: &mut Vec<u8>, start: usize) -> Result<(), CaseError> {
    if out.len() == start {
        put(out, "none")?;
    }
    Ok(())
}

/// Appends numbers with a space between, or `none`.
pub(crate) fn put_numbers(out: &mut Vec<u8>, numbers: &[u32]) -> Result<(), CaseError> {
    let start = out.len();
    for number in numbers {
        separate(out, start, " ")?;
        put_number(out, *number)?;
    }
    end_list(out, start)
}

/// Appends a point by its letters, the column first, as in SGF.
pub(crate) fn put_point(out: &mut Vec<u8>, x: u8, y: u8) -> Result<(), CaseError> {
    out.push(letter_of(x))?;
    Ok(out.push(letter_of(y))?)
}

fn letter_of(side: u8) -> u8 {
    match side {
        0..=25 => b'a' + side,
        26..=51 => b'A' + (side - 26),
        _ => b'?',
    }
}

/// The point of two letters.
pub(crate) fn point_of(text: &str) -> Result<Point, CaseError> {
    let [x, y] = text.as_bytes() else {
        return Err(CaseError::Bad("no point"));
    };
    match (side_of(*x), side_of(*y)) {
        (Some(x), Some(y)) => Ok(Point { x, y }),
        _ => Err(CaseError::Bad("no point")),
    }
}

fn side_of(letter: u8) -> Option<u8> {
    match letter {
        b'a'..=b'z' => Some(letter - b'a'),
        b'A'..=b'Z' => Some(letter - b'A' + 26),
        _ => None,
    }
}

/// The number of a point of the board that is told by two letters.
pub(crate) fn point_number(shape: Shape, text: &str) -> Result<u16, CaseError>
    ensures { IfOk result (λ number. number < point_count shape) }
{
    let point = point_of(text)?;
    if point.x >= shape.cols() || point.y >= shape.rows() {
        return Err(CaseError::Bad("a point off the board"));
    }
    Ok(shape.number(point))
}

/// The number of a text.
pub(crate) fn number_of(text: &str) -> Result<u32, CaseError> {
    text.parse::<u32>().map_err(|_| CaseError::Bad("no number"))
}

/// A cell as in a drawn board.
pub(crate) fn sign_of(cell: Cell) -> u8 {
    match cell {
        Cell::Empty => b'.',
        Cell::Black => b'X',
        Cell::White => b'O',
    }
}

/// The cell of a sign.
pub(crate) fn cell_of(sign: &str) -> Result<Cell, CaseError> {
    match sign {
        "." => Ok(Cell::Empty),
        "X" => Ok(Cell::Black),
        "O" => Ok(Cell::White),
        _ => Err(CaseError::Bad("no cell")),
    }
}

/// The name of a colour.
pub(crate) fn colour_name(colour: Colour) -> &'static str {
    match colour {
        Colour::Black => "black",
        Colour::White => "white",
    }
}

/// The name of a class of results.
pub(crate) fn outcome_name(outcome: Outcome) -> &'static str {
    match outcome {
        Outcome::Black => "black won",
        Outcome::White => "white won",
        Outcome::Draw => "draw",
        Outcome::Void => "void",
        Outcome::Unknown => "unknown",
        Outcome::Other => "other",
    }
}
