// Days, and the games that a filter accepts.
use crate::text::append_line;
use crate::trees::faultless_trees;
use case_files::{Case, CaseError};
use game_tree::{Bytes, GameTree};
use info_filter::{Condition, ConditionList, Filter, accepts, accepts_known, day_of, written_day};
use kb_geometry::{Outcome, append};
use std::alloc::Global;

/// The day of a date's text, and the day that the text writes, each as a number or `none`.
pub(crate) fn answer_day(case: &Case<'_>, out: &mut Vec<u8>) -> Result<(), CaseError> {
    append_day(out, "", day_of(case.text()))?;
    append_day(out, " ", written_day(case.text()))?;
    append_line(out, b"")
}

fn append_day(out: &mut Vec<u8>, gap: &str, day: Option<i32>) -> Result<(), CaseError> {
    let alloc = *out.allocator();
    let shown = match day {
        Some(day) => format!(in alloc; "{gap}{day}")?,
        None => format!(in alloc; "{gap}none")?,
    };
    Ok(append(out, shown.as_bytes())?)
}

/// The numbers of the games that the conditions accept, from 0. The games stand among the words, or
/// in the part `games`.
pub(crate) fn answer_accepted(
    alloc: Global,
    case: &Case<'_>,
    out: &mut Vec<u8>,
) -> Result<(), CaseError> {
    let games = if case.words.is_empty() {
        case.part("games")
    } else {
        case.words.as_bytes()
    };
    let filter = filter_of(alloc, case.text())?;
    let trees = faultless_trees(alloc, games)?;
    append_accepted(out, &filter, &trees)?;
    let mut copied = Vec::new(alloc);
    append_accepted(&mut copied, &filter.copy(alloc)?, &trees)?;
    if copied.as_slice() != out.as_slice() {
        append(out, &copied)?;
    }
    Ok(())
}

fn append_accepted(
    out: &mut Vec<u8>,
    filter: &Filter,
    trees: &[GameTree],
) -> Result<(), CaseError> {
    let alloc = *out.allocator();
    let mut shown = format!(in alloc; "games")?;
    for (number, tree) in trees.iter().enumerate() {
        if is_accepted(filter, tree) {
            shown = format!(in alloc; "{shown} {number}")?;
        }
    }
    append_line(out, shown.as_bytes())
}

// Whether a filter accepts a game; where its day and outcome are told, the answer has to be the same.
fn is_accepted(filter: &Filter, tree: &GameTree) -> bool {
    let info = tree.info();
    let is_known = accepts_known(filter, info, day_of(info.date()), info.outcome());
    accepts(filter, info) == is_known && is_known
}

// The filter of conditions with `|` between.
fn filter_of(alloc: Global, text: &[u8]) -> Result<Filter, CaseError> {
    let mut conditions = Vec::new(alloc);
    if !text.is_empty() {
        for piece in text.split(|byte| *byte == b'|') {
            conditions.push(condition_of(alloc, piece)?)?;
        }
    }
    Ok(Filter {
        conditions: ConditionList::new(conditions),
    })
}

// The condition that is written as a word, a space and what is looked for.
fn condition_of(alloc: Global, text: &[u8]) -> Result<Condition, CaseError> {
    if let Some(name) = text.strip_prefix(b"player ".as_slice()) {
        Ok(Condition::Player(bytes_of(alloc, name)?))
    } else if let Some(name) = text.strip_prefix(b"black ".as_slice()) {
        Ok(Condition::Black(bytes_of(alloc, name)?))
    } else if let Some(name) = text.strip_prefix(b"white ".as_slice()) {
        Ok(Condition::White(bytes_of(alloc, name)?))
    } else if let Some(name) = text.strip_prefix(b"event ".as_slice()) {
        Ok(Condition::Event(bytes_of(alloc, name)?))
    } else if let Some(name) = text.strip_prefix(b"place ".as_slice()) {
        Ok(Condition::Place(bytes_of(alloc, name)?))
    } else {
        told_condition(text)
    }
}

fn bytes_of(alloc: Global, text: &[u8]) -> Result<Bytes, CaseError> {
    Ok(Bytes::new(text.to_vec(alloc)?))
}

// The condition on a result or a day.
fn told_condition(text: &[u8]) -> Result<Condition, CaseError> {
    if let Some(word) = text.strip_prefix(b"result ".as_slice()) {
        Ok(Condition::Result(outcome_of(word)?))
    } else if let Some(day) = text.strip_prefix(b"from ".as_slice()) {
        Ok(Condition::From(number_of(day)?))
    } else if let Some(day) = text.strip_prefix(b"to ".as_slice()) {
        Ok(Condition::To(number_of(day)?))
    } else {
        Err(CaseError::Bad("no condition"))
    }
}

fn outcome_of(word: &[u8]) -> Result<Outcome, CaseError> {
    match str::from_utf8(word) {
        Ok("black") => Ok(Outcome::Black),
        Ok("white") => Ok(Outcome::White),
        Ok("draw") => Ok(Outcome::Draw),
        Ok("void") => Ok(Outcome::Void),
        Ok("unknown") => Ok(Outcome::Unknown),
        Ok("other") => Ok(Outcome::Other),
        _ => Err(CaseError::Bad("no result")),
    }
}

// The number of a day, which is written as YYYY-MM-DD or as a number.
fn number_of(text: &[u8]) -> Result<i32, CaseError> {
    if let Some(day) = written_day(text) {
        return Ok(day);
    }
    let text = str::from_utf8(text).map_err(|_| CaseError::Bad("no day"))?;
    text.parse::<i32>().map_err(|_| CaseError::Bad("no day"))
}
