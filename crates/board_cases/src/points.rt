// Boards, points, rectangles, and bytes that are appended.
use crate::reading::{byte_in, long_in, number_in, point_in, rect_in, shape_in, sides_in, text_of};
use crate::writing::{put, put_number, put_point};
use case_files::{Case, CaseError};
use kb_geometry::{NoMemory, Shape, append, append_decimal, append_decimal_and, cut_back};
use std::alloc::Global;

// The sides of a board, and what it has then.
pub(crate) fn shape(case: &Case<'_>, out: &mut Vec<u8>) -> Result<(), CaseError> {
    let (cols, rows) = sides_in(text_of(case)?.split_whitespace().next())?;
    let Some(shape) = Shape::new(cols, rows) else {
        return put(out, "none");
    };
    put_number(out, u64::from(shape.cols()))?;
    put(out, "x")?;
    put_number(out, u64::from(shape.rows()))?;
    put(out, ", points ")?;
    put_number(out, u64::from(shape.count()))?;
    if shape.is_square() {
        put(out, ", square")?;
    }
    Ok(())
}

// The number of a point of a board.
pub(crate) fn number(case: &Case<'_>, out: &mut Vec<u8>) -> Result<(), CaseError> {
    let shape = shape_in(case.word(0))?;
    let point = point_in(text_of(case)?.split_whitespace().next())?;
    if point.x < shape.cols() && point.y < shape.rows() {
        put_number(out, u64::from(shape.number(point)))
    } else {
        put(out, "off the board")
    }
}

// The point of a board with a number.
pub(crate) fn point(case: &Case<'_>, out: &mut Vec<u8>) -> Result<(), CaseError> {
    let shape = shape_in(case.word(0))?;
    let number = number_in(text_of(case)?.split_whitespace().next())?;
    if number < shape.count() {
        put_point(out, shape.point(number))
    } else {
        put(out, "off the board")
    }
}

// Whether a point lies in a rectangle.
pub(crate) fn inside(case: &Case<'_>, out: &mut Vec<u8>) -> Result<(), CaseError> {
    let rect = rect_in(case.word(0))?;
    let point = point_in(text_of(case)?.split_whitespace().next())?;
    put(out, if rect.contains(point) { "yes" } else { "no" })
}

// What stands in a list of bytes after steps.
pub(crate) fn bytes(alloc: Global, case: &Case<'_>, out: &mut Vec<u8>) -> Result<(), CaseError> {
    let mut bytes = Vec::new(alloc);
    for step in text_of(case)?.lines() {
        append_step(&mut bytes, step)?;
    }
    Ok(append(out, &bytes)?)
}

fn append_step(bytes: &mut Vec<u8>, step: &str) -> Result<(), CaseError> {
    let (name, rest) = step.split_once(" ").unwrap_or((step, ""));
    match name {
        "text" => append(bytes, rest.as_bytes())?,
        "number" => append_decimal(bytes, long_in(Some(rest))?)?,
        "line" => append_decimal_and(bytes, long_in(Some(rest))?, b'\n')?,
        "done" => cut_back(bytes, usize::from(byte_in(Some(rest))?), Ok(()))?,
        "refused" => cut_refused(bytes, usize::from(byte_in(Some(rest))?))?,
        _ => return Err(CaseError::Bad("no step of a list of bytes")),
    }
    Ok(())
}

// Cuts back after a refusal, which is handed on.
fn cut_refused(bytes: &mut Vec<u8>, len: usize) -> Result<(), CaseError> {
    match cut_back(bytes, len, Err(NoMemory)) {
        Ok(()) => Err(CaseError::Bad("a refusal that isn't handed on")),
        Err(refused) => put(
            bytes,
            format!(in *bytes.allocator(); "({refused})")?.as_str(),
        ),
    }
}
