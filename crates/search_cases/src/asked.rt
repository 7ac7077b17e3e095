// What a case asks: a pattern with words behind it, and the games.
use crate::texts::{number_of, point_of};
use case_files::{Case, CaseError};
use kb_geometry::{Rect, Shape};
use pattern_images::Query;
use pattern_syntax::read_pattern;
use std::alloc::Global;

/// What is asked, and the text of the games.
#[derive(Clone, Copy)]
pub(crate) struct Given<'a> {
    pub(crate) asked: &'a str,
    pub(crate) games: &'a str,
}

/// What a case gives: `ASKED in GAMES`, or what is asked in a first line and games in the others, or
/// what is asked alone and the games behind the kind.
pub(crate) fn given_of<'a>(case: &'a Case<'_>) -> Result<Given<'a>, CaseError> {
    let Ok(text) = std::str::from_utf8(case.text()) else {
        return Err(CaseError::Bad("no text"));
    };
    if let Some((asked, games)) = text.split_once(" in ") {
        return Ok(Given { asked, games });
    }
    match text.split_once("\n") {
        Some((asked, games)) => Ok(Given { asked, games }),
        None => Ok(Given {
            asked: text,
            games: case.words,
        }),
    }
}

/// Whether a word is among those of a text.
pub(crate) fn has_word(text: &str, word: &str) -> bool {
    for one in text.split_whitespace() {
        if one == word {
            return true;
        }
    }
    false
}

/// The value of the word `NAME=VALUE`, if there is one.
pub(crate) fn value_of<'a>(text: &'a str, name: &str) -> Option<&'a str> {
    for word in text.split_whitespace() {
        if let Some((one, value)) = word.split_once("=") {
            if one == name {
                return Some(value);
            }
        }
    }
    None
}

/// The value of a word that is a number; the other number if there is no such word.
pub(crate) fn number_or(text: &str, name: &str, other: u32) -> Result<u32, CaseError> {
    match value_of(text, name) {
        Some(value) => number_of(value),
        None => Ok(other),
    }
}

/// The query that is asked.
pub(crate) fn query_of(alloc: Global, asked: &str) -> Result<Query, CaseError> {
    let text = asked
        .split_whitespace()
        .next()
        .ok_or(CaseError::Bad("no pattern"))?;
    let Ok(pattern) = read_pattern(alloc, text) else {
        return Err(CaseError::Bad("no pattern"));
    };
    let mut query = Query::new(pattern);
    query.same = has_word(asked, "same");
    query.fixed = has_word(asked, "fixed");
    query.main = has_word(asked, "main");
    query.from_move = number_or(asked, "from", query.from_move)?;
    query.to_move = number_or(asked, "to", query.to_move)?;
    query.board = board_of(asked)?;
    query.at = rect_of(asked)?;
    Ok(query)
}

// The board of `board=COLUMNS:ROWS`, or of `board=SIDE`.
fn board_of(asked: &str) -> Result<Option<Shape>, CaseError> {
    let Some(value) = value_of(asked, "board") else {
        return Ok(None);
    };
    let (cols, rows) = value.split_once(":").unwrap_or((value, value));
    match (cols.parse::<u8>(), rows.parse::<u8>()) {
        (Ok(cols), Ok(rows)) => Ok(Shape::new(cols, rows)),
        _ => Err(CaseError::Bad("no board")),
    }
}

// The rectangle of `at=POINT:POINT`, or of `at=POINT`.
fn rect_of(asked: &str) -> Result<Option<Rect>, CaseError> {
    let Some(value) = value_of(asked, "at") else {
        return Ok(None);
    };
    let (first, last) = value.split_once(":").unwrap_or((value, value));
    let first = point_of(first)?;
    let last = point_of(last)?;
    Ok(Some(Rect {
        x0: first.x,
        y0: first.y,
        x1: last.x,
        y1: last.y,
    }))
}
