// Hits as lines, and the printed text of a search.
use crate::row::{Row, row_of, text_of};
use case_files::{Case, CaseError};
use continuation_table::Table;
use kb_geometry::{Colour, Label, Outcome};
use pattern_images::{Hit, Next, Place};
use query_script::print_hits;
use std::alloc::Global;

/// Appends the text of a search that found these hits, one on each line.
pub fn answer(alloc: Global, case: &Case<'_>, out: &mut Vec<u8>) -> Result<(), CaseError> {
    let mut hits = Vec::new(alloc);
    for line in text_of(case.text())?.lines() {
        hits.push(hit_of(&row_of(alloc, line)?)?)?;
    }
    let table = Table::of(alloc, hits.as_slice())?;
    let head = row_of(alloc, case.words)?;
    let (line, version) = (head.small(0)?, head.number(1)?);
    let games = head.small(2)?;
    Ok(print_hits(line, version, games, hits.as_slice(), &table, out)?)
}

/// The hit of `hit GAME NODE X Y LABEL MOVE RESULT` and how play goes on, if it does.
pub fn hit_of(row: &Row<'_>) -> Result<Hit, CaseError> {
    Ok(Hit {
        game: row.small(1)?,
        node: row.small(2)?,
        place: place_of(row)?,
        moves: row.small(6)?,
        outcome: outcome_of(row.word(7))?,
        next: next_of(row)?,
    })
}

fn place_of(row: &Row<'_>) -> Result<Place, CaseError> {
    let label = Label::new(row.byte(5)?).ok_or(CaseError::Bad("no label"))?;
    Ok(Place {
        x: row.byte(3)?,
        y: row.byte(4)?,
        cols: 1,
        rows: 1,
        label,
    })
}

fn outcome_of(word: &str) -> Result<Outcome, CaseError> {
    match word {
        "black" => Ok(Outcome::Black),
        "white" => Ok(Outcome::White),
        "draw" => Ok(Outcome::Draw),
        "void" => Ok(Outcome::Void),
        "unknown" => Ok(Outcome::Unknown),
        "other" => Ok(Outcome::Other),
        _ => Err(CaseError::Bad("no result")),
    }
}

// How play goes on: `B 1 0 now`, `W 18 2 later`, or `-`.
fn next_of(row: &Row<'_>) -> Result<Option<Next>, CaseError> {
    let colour = match row.word(8) {
        "-" => return Ok(None),
        "B" => Colour::Black,
        "W" => Colour::White,
        _ => return Err(CaseError::Bad("neither - nor a colour")),
    };
    Ok(Some(Next {
        colour,
        x: row.byte(9)?,
        y: row.byte(10)?,
        now: is_now(row.word(11))?,
    }))
}

fn is_now(word: &str) -> Result<bool, CaseError> {
    match word {
        "now" => Ok(true),
        "later" => Ok(false),
        _ => Err(CaseError::Bad("neither now nor later")),
    }
}
