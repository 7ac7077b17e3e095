// Patterns: their texts with the faults, and their cells.
use crate::reading::{point_in, sides_in, text_of, utf8};
use crate::writing::{put, put_number};
use case_files::{Case, CaseError};
use pattern_images::{Pattern, PatternCell};
use pattern_syntax::{print_pattern, read_pattern};
use std::alloc::Global;

// The sides of a pattern and its text, or the fault of a text.
pub(crate) fn pattern(alloc: Global, case: &Case<'_>, out: &mut Vec<u8>) -> Result<(), CaseError> {
    match read_pattern(alloc, text_of(case)?) {
        Ok(pattern) => {
            put_sides(out, &pattern)?;
            Ok(print_pattern(&pattern, out)?)
        }
        Err(error) => put(out, format!(in alloc; "{error}")?.as_str()),
    }
}

fn put_sides(out: &mut Vec<u8>, pattern: &Pattern) -> Result<(), CaseError> {
    put_number(out, u64::from(pattern.cols()))?;
    put(out, "x")?;
    put_number(out, u64::from(pattern.rows()))?;
    put(out, " ")
}

// What the pattern that stands behind the kind asks of a point.
pub(crate) fn cell(alloc: Global, case: &Case<'_>, out: &mut Vec<u8>) -> Result<(), CaseError> {
    let pattern = pattern_in(alloc, case.need_word(0)?)?;
    let point = point_in(text_of(case)?.split_whitespace().next())?;
    if point.x < pattern.cols() && point.y < pattern.rows() {
        put(out, name_of(pattern.cell(point.x, point.y)))
    } else {
        put(out, "outside")
    }
}

fn name_of(cell: PatternCell) -> &'static str {
    match cell {
        PatternCell::Empty => "empty",
        PatternCell::Black => "black",
        PatternCell::White => "white",
        PatternCell::NotWhite => "black or empty",
        PatternCell::NotBlack => "white or empty",
        PatternCell::Any => "anything",
    }
}

// The pattern of a text.
pub(crate) fn pattern_in(alloc: Global, text: &str) -> Result<Pattern, CaseError> {
    match read_pattern(alloc, text) {
        Ok(pattern) => Ok(pattern),
        Err(_) => Err(CaseError::Bad("no pattern")),
    }
}

// The pattern of so many columns and rows with these cells, if there is one.
pub(crate) fn made(alloc: Global, case: &Case<'_>, out: &mut Vec<u8>) -> Result<(), CaseError> {
    let (cols, rows) = sides_in(case.word(0))?;
    let cells = cells_in(alloc, utf8(case.text())?)?;
    match Pattern::new(cols, rows, cells) {
        Some(pattern) => {
            put_sides(out, &pattern)?;
            put_cells(out, &pattern)
        }
        None => put(out, "none"),
    }
}

fn cells_in(alloc: Global, signs: &str) -> Result<Vec<PatternCell>, CaseError> {
    let mut cells = Vec::new(alloc);
    for sign in signs.as_bytes() {
        let cell = match sign {
            b'.' => PatternCell::Empty,
            b'X' => PatternCell::Black,
            b'O' => PatternCell::White,
            b'x' => PatternCell::NotWhite,
            b'o' => PatternCell::NotBlack,
            b'*' => PatternCell::Any,
            _ => return Err(CaseError::Bad("none of . X O x o *")),
        };
        cells.push(cell)?;
    }
    Ok(cells)
}

// The sign of a cell.
pub(crate) fn sign_of(cell: PatternCell) -> u8 {
    match cell {
        PatternCell::Empty => b'.',
        PatternCell::Black => b'X',
        PatternCell::White => b'O',
        PatternCell::NotWhite => b'x',
        PatternCell::NotBlack => b'o',
        PatternCell::Any => b'*',
    }
}

// The cells of a pattern by its reader, with `/` between the rows.
fn put_cells(out: &mut Vec<u8>, pattern: &Pattern) -> Result<(), CaseError> {
    for y in 0..pattern.rows() {
        if y > 0 {
            out.push(b'/')?;
        }
        put_row(out, pattern, y)?;
    }
    Ok(())
}

fn put_row(out: &mut Vec<u8>, pattern: &Pattern, y: u8) -> Result<(), CaseError> {
    for x in 0..pattern.cols() {
        if y < pattern.rows() {
            out.push(sign_of(pattern.cell(x, y)))?;
        }
    }
    Ok(())
}
