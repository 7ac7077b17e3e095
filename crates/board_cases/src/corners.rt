// The numbers of the corners in games, and the games that had them.
ghost use Rattle.std.specs.Prelude.{◌+◌, ◌≤◌, IfOk, length};
ghost use Rattle.corner_index.specs.CornerGames.{IsIndexOf};

use crate::games::deltas_in;
use crate::reading::{byte_in, long_in, shape_in, utf8};
use crate::writing::{put, put_number};
use capture_board::NodeDeltas;
use case_files::{Case, CaseError};
use corner_index::{CornerIndex, CornerKeys};
use std::alloc::Global;

// The numbers of each corner in each game, or in a game without a node on the board that stands
// behind the kind, and whether a corner had the numbers of the part `asked`.
pub(crate) fn corners(alloc: Global, case: &Case<'_>, out: &mut Vec<u8>) -> Result<(), CaseError> {
    let games = match case.word(0) {
        Some(sides) => no_node(alloc, sides)?,
        None => deltas_in(alloc, case.text())?,
    };
    for deltas in &games {
        let keys = CornerKeys::of(alloc, deltas)?;
        put_keys(out, &keys)?;
        put_had(out, &keys, utf8(case.part("asked"))?)?;
    }
    Ok(())
}

fn no_node(alloc: Global, sides: &str) -> Result<Vec<NodeDeltas>, CaseError> {
    let mut games = Vec::new(alloc);
    games.push(NodeDeltas::new(alloc, shape_in(Some(sides))?))?;
    Ok(games)
}

fn put_keys(out: &mut Vec<u8>, keys: &CornerKeys) -> Result<(), CaseError> {
    for corner in 0..4u8 {
        put_number(out, u64::from(corner))?;
        put(out, ":")?;
        for key in keys.of_corner(corner) {
            put(out, " ")?;
            put_number(out, *key)?;
        }
        put(out, "\n")?;
    }
    Ok(())
}

fn put_had(out: &mut Vec<u8>, keys: &CornerKeys, questions: &str) -> Result<(), CaseError> {
    for question in questions.lines() {
        let (corner, key) = corner_in(question)?;
        let had = corner < 4 && keys.has(corner, key);
        put(out, question)?;
        put(out, if had { " yes\n" } else { " no\n" })?;
    }
    Ok(())
}

// A corner and a number.
fn corner_in(question: &str) -> Result<(u8, u64), CaseError> {
    let mut words = question.split_whitespace();
    let corner = byte_in(words.next())?;
    let key = long_in(words.next())?;
    Ok((corner, key))
}

// The games of a list that had a number in a corner, and those of the part `behind` behind them.
pub(crate) fn games(alloc: Global, case: &Case<'_>, out: &mut Vec<u8>) -> Result<(), CaseError> {
    let one = keys_in(alloc, case.text())?;
    let other = keys_in(alloc, case.part("behind"))?;
    let index = index_of_both(alloc, &one, &other)?;
    for question in utf8(case.part("asked"))?.lines() {
        let (corner, key) = corner_in(question)?;
        put(out, question)?;
        put(out, ":")?;
        if corner < 4 {
            put_games(out, index.games_with(corner, key))?;
        }
        put(out, "\n")?;
    }
    Ok(())
}

fn put_games(out: &mut Vec<u8>, games: &[u32]) -> Result<(), CaseError> {
    for game in games {
        put(out, " ")?;
        put_number(out, u64::from(*game))?;
    }
    Ok(())
}

// The numbers of the games of a text, of which there are none where it is empty.
fn keys_in(alloc: Global, text: &[u8]) -> Result<Vec<CornerKeys>, CaseError> {
    let mut keys = Vec::new(alloc);
    if text.is_empty() {
        return Ok(keys);
    }
    for deltas in &deltas_in(alloc, text)? {
        keys.push(CornerKeys::of(alloc, deltas)?)?;
    }
    Ok(keys)
}

// The index of two lists, one behind the other.
fn index_of_both(
    alloc: Global,
    one: &[CornerKeys],
    other: &[CornerKeys],
) -> Result<CornerIndex, CaseError> {
    if one.len() > 1000 || other.len() > 1000 {
        return Err(CaseError::Bad("more than 1000 games"));
    }
    if other.is_empty() {
        return index_of(alloc, one);
    }
    both_of(alloc, one, other)
}

fn index_of(alloc: Global, games: &[CornerKeys]) -> Result<CornerIndex, CaseError>
    requires { length games.now ≤ 400000 }
    ensures { IfOk result (λ index. IsIndexOf games.now index) }
{
    Ok(CornerIndex::of(alloc, games)?)
}

fn both_of(
    alloc: Global,
    one: &[CornerKeys],
    other: &[CornerKeys],
) -> Result<CornerIndex, CaseError>
    requires { length one.now + length other.now ≤ 400000 }
{
    let a = index_of(alloc, one)?;
    let b = index_of(alloc, other)?;
    Ok(CornerIndex::join(alloc, &a, &b, one.len() as u32)?)
}
