// The placements of queries on boards.
use crate::patterns::{pattern_in, sign_of};
use crate::reading::{rect_in, shape_in, text_of};
use crate::writing::{put, put_between, put_number, put_point};
use case_files::{Case, CaseError};
use kb_geometry::Point;
use pattern_images::{Images, PatternCell, Query, images};
use std::alloc::Global;

// The placements of a pattern on a board: the upper left point, the label and the cells of each.
pub(crate) fn placements(
    alloc: Global,
    case: &Case<'_>,
    out: &mut Vec<u8>,
) -> Result<(), CaseError> {
    let images = images_of(alloc, case)?;
    for i in 0..images.len() {
        put_between(out, ", ")?;
        put_placement(out, &images, i)?;
    }
    put_none(out, &images)
}

// The labels of the placements, and how many different rectangles of cells they have.
pub(crate) fn labels(alloc: Global, case: &Case<'_>, out: &mut Vec<u8>) -> Result<(), CaseError> {
    let images = images_of(alloc, case)?;
    for i in 0..images.len() {
        put_between(out, " ")?;
        put_number(out, u64::from(images.place(i).label.number()))?;
    }
    put_none(out, &images)?;
    put(out, "; classes ")?;
    put_number(out, images.class_count() as u64)
}

fn put_none(out: &mut Vec<u8>, images: &Images) -> Result<(), CaseError> {
    put(out, if images.is_empty() { "none" } else { "" })
}

// The placements of a case, by a copy of its query.
fn images_of(alloc: Global, case: &Case<'_>) -> Result<Images, CaseError> {
    let shape = shape_in(case.word(0))?;
    let query = query_of(alloc, case)?.copy(alloc)?;
    let images = images(alloc, &query, shape)?;
    if images.shape() == shape {
        Ok(images)
    } else {
        Err(CaseError::Bad("placements on another board"))
    }
}

fn query_of(alloc: Global, case: &Case<'_>) -> Result<Query, CaseError> {
    let mut query = Query::new(pattern_in(alloc, text_of(case)?)?);
    for word in case.words.split_whitespace().skip(1) {
        let (name, rest) = word.split_once("=").unwrap_or((word, ""));
        match name {
            "same" => query.same = true,
            "fixed" => query.fixed = true,
            "at" => query.at = Some(rect_in(Some(rest))?),
            "board" => query.board = Some(shape_in(Some(rest))?),
            _ => return Err(CaseError::Bad("no word of a query")),
        }
    }
    Ok(query)
}

fn put_placement(out: &mut Vec<u8>, images: &Images, i: usize) -> Result<(), CaseError> {
    if i >= images.len() {
        return Ok(());
    }
    let place = images.place(i);
    put_point(
        out,
        Point {
            x: place.x,
            y: place.y,
        },
    )?;
    put(out, " ")?;
    put_number(out, u64::from(place.label.number()))?;
    put(out, " ")?;
    for dy in 0..place.rows {
        if dy > 0 {
            out.push(b'/')?;
        }
        put_row(out, images, i, dy)?;
    }
    Ok(())
}

fn put_row(out: &mut Vec<u8>, images: &Images, i: usize, dy: u8) -> Result<(), CaseError> {
    for dx in 0..52u8 {
        if let Some(cell) = cell_at(images, i, dx, dy) {
            out.push(sign_of(cell))?;
        }
    }
    Ok(())
}

// The cell of a placement, where there is such a cell.
fn cell_at(images: &Images, i: usize, dx: u8, dy: u8) -> Option<PatternCell> {
    if i >= images.len() {
        return None;
    }
    let place = images.place(i);
    if dx < place.cols && dy < place.rows {
        Some(images.cell(i, dx, dy))
    } else {
        None
    }
}
