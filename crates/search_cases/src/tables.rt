// Tables of hits.
use crate::texts::{colour_name, number_of, point_of, put, put_point};
use case_files::{Case, CaseError};
use continuation_table::{Row, Table, Tally};
use kb_geometry::{Colour, Label, Outcome, append_decimal};
use pattern_images::{Hit, Next, Place};
use std::alloc::Global;

/// `table`: the table of hits that are told, one a line.
pub(crate) fn answer(alloc: Global, case: &Case<'_>, out: &mut Vec<u8>) -> Result<(), CaseError> {
    let Ok(text) = std::str::from_utf8(case.text()) else {
        return Err(CaseError::Bad("no text"));
    };
    let mut hits = Vec::new(alloc);
    for line in text.lines() {
        hits.push(hit_of(line)?)?;
    }
    put_table(out, &Table::of(alloc, &hits)?)
}

// The hit of a line: the label, the result of the game, and how it goes on.
fn hit_of(line: &str) -> Result<Hit, CaseError> {
    let mut words = line.split_whitespace();
    let label = number_of(words.next().unwrap_or(""))?;
    let outcome = outcome_of(words.next().unwrap_or(""))?;
    let next = match words.next() {
        Some(colour) => Some(next_of(
            colour,
            words.next().unwrap_or(""),
            words.next().unwrap_or(""),
        )?),
        None => None,
    };
    Ok(Hit {
        game: 0,
        node: 1,
        place: place_under(label)?,
        moves: 1,
        outcome,
        next,
    })
}

// A place under the label with this number.
fn place_under(label: u32) -> Result<Place, CaseError> {
    if label >= 16 {
        return Err(CaseError::Bad("no label"));
    }
    match Label::new(label as u8) {
        Some(label) => Ok(Place {
            x: 0,
            y: 0,
            cols: 2,
            rows: 1,
            label,
        }),
        None => Err(CaseError::Bad("no label")),
    }
}

fn outcome_of(word: &str) -> Result<Outcome, CaseError> {
    match word {
        "black-won" => Ok(Outcome::Black),
        "white-won" => Ok(Outcome::White),
        "draw" => Ok(Outcome::Draw),
        "void" => Ok(Outcome::Void),
        "unknown" => Ok(Outcome::Unknown),
        "other" => Ok(Outcome::Other),
        _ => Err(CaseError::Bad("no result")),
    }
}

fn next_of(colour: &str, point: &str, time: &str) -> Result<Next, CaseError> {
    let colour = match colour {
        "black" => Colour::Black,
        "white" => Colour::White,
        _ => return Err(CaseError::Bad("no colour")),
    };
    let point = point_of(point)?;
    Ok(Next {
        colour,
        x: point.x,
        y: point.y,
        now: time == "now",
    })
}

/// Appends the rows of a table, and its totals.
pub(crate) fn put_table(out: &mut Vec<u8>, table: &Table) -> Result<(), CaseError> {
    for Row {
        colour,
        x,
        y,
        tally,
    } in table.rows() {
        put(out, colour_name(*colour))?;
        put(out, " ")?;
        put_point(out, *x, *y)?;
        put_tally(out, *tally)?;
        put(out, "\n")?;
    }
    put(out, "all")?;
    put_tally(out, table.totals())
}

fn put_tally(out: &mut Vec<u8>, tally: Tally) -> Result<(), CaseError> {
    for (name, number) in [
        (": ", tally.count),
        (" hits, ", tally.now),
        (" now, ", tally.later),
        (" later, ", tally.black),
        (" black, ", tally.white),
        (" white, ", tally.other),
    ] {
        put(out, name)?;
        append_decimal(out, number)?;
    }
    put(out, " other")
}
