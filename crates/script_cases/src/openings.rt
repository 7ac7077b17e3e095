// Lines of openings.
use crate::row::Row;
use case_files::CaseError;
use kb_geometry::{Colour, Point};
use query_script::{NodeCounts, print_next_move, print_opening_head, print_position};

/// Appends the first line of openings, the line of a position, or that of a next move.
pub fn append_opening_line(row: &Row<'_>, out: &mut Vec<u8>) -> Result<(), CaseError> {
    match row.word(0) {
        "opening" => append_head(row, out),
        "position" => append_position(row, out),
        "next" => append_next(row, out),
        _ => Err(CaseError::Bad("unknown line")),
    }
}

fn append_head(row: &Row<'_>, out: &mut Vec<u8>) -> Result<(), CaseError> {
    let (line, version) = (row.small(1)?, row.number(2)?);
    let (games, positions) = (row.small(3)?, row.size(4)?);
    Ok(print_opening_head(line, version, games, positions, out)?)
}

fn append_position(row: &Row<'_>, out: &mut Vec<u8>) -> Result<(), CaseError> {
    let counts = counts_of(row)?;
    Ok(print_position(counts, row.small(5)?, row.small(6)?, out)?)
}

fn append_next(row: &Row<'_>, out: &mut Vec<u8>) -> Result<(), CaseError> {
    let (counts, colour) = (counts_of(row)?, colour_of(row.word(5))?);
    Ok(print_next_move(colour, point_of(row)?, counts, out)?)
}

// How many nodes the words behind the first one tell, and in games of which result.
fn counts_of(row: &Row<'_>) -> Result<NodeCounts, CaseError> {
    Ok(NodeCounts {
        count: row.number(1)?,
        black: row.number(2)?,
        white: row.number(3)?,
        other: row.number(4)?,
    })
}

fn colour_of(word: &str) -> Result<Colour, CaseError> {
    match word {
        "B" => Ok(Colour::Black),
        "W" => Ok(Colour::White),
        _ => Err(CaseError::Bad("no colour")),
    }
}

// The point of a next move, or none for a pass.
fn point_of(row: &Row<'_>) -> Result<Option<Point>, CaseError> {
    if row.word(6) == "pass" {
        return Ok(None);
    }
    Ok(Some(Point {
        x: row.byte(6)?,
        y: row.byte(7)?,
    }))
}
