// The points that ever had each cell in the games of a block, a bit for each game.
ghost use Rattle.std.specs.Prelude.{◌≡◌, ◌↔◌, IsTrue};

use crate::games::deltas_in;
use crate::reading::{byte_in, cell_in, numbers_in, point_in, shape_in, utf8};
use crate::writing::{put, put_bits, put_number};
use capture_board::NodeDeltas;
use case_files::{Case, CaseError};
use final_index::{EverSets, Planes};
use kb_geometry::{Cell, Shape};
use std::alloc::Global;

// What is asked of the games of a text, with those of the part `behind` behind them.
pub(crate) fn planes(alloc: Global, case: &Case<'_>, out: &mut Vec<u8>) -> Result<(), CaseError> {
    let shape = shape_in(case.word(0))?;
    let first = planes_in(alloc, shape, case.text())?;
    let behind = case.part("behind");
    let planes = if behind.is_empty() {
        first
    } else {
        joined(alloc, &first, &planes_in(alloc, shape, behind)?)?
    };
    for question in utf8(case.part("asked"))?.lines() {
        tell(alloc, &planes, question, out)?;
        put(out, "\n")?;
    }
    Ok(())
}

// The planes of the games of a text, of which there are none where it is `none`.
fn planes_in(alloc: Global, shape: Shape, text: &[u8]) -> Result<Planes, CaseError> {
    if text == b"none\n".as_slice() {
        Ok(Planes::new(alloc, shape)?)
    } else {
        planes_of(alloc, shape, &deltas_in(alloc, text)?)
    }
}

// The planes of games, of which the first may all be on other boards.
fn planes_of(alloc: Global, shape: Shape, games: &[NodeDeltas]) -> Result<Planes, CaseError> {
    let others = first_others(shape, games);
    if others > 64 {
        return Err(CaseError::Bad("more than 64 games"));
    }
    let mut planes = Planes::none(alloc, shape, others)?;
    for deltas in games.iter().skip(others) {
        push(&mut planes, deltas)?;
    }
    Ok(planes)
}

// How many games stand before the first one on this board.
fn first_others(shape: Shape, games: &[NodeDeltas]) -> usize {
    let mut others = 0usize;
    for deltas in games {
        if is_on(deltas, shape) {
            return others;
        }
        others = others.saturating_add(1);
    }
    others
}

// Whether the board of a game has this shape.
pub(crate) fn is_on(deltas: &NodeDeltas, shape: Shape) -> bool
    ensures { IsTrue result ↔ (deltas.now.shape ≡ shape) }
{
    deltas.shape() == shape
}

// Adds a game, with its sets if its board has the shape.
fn push(planes: &mut Planes, deltas: &NodeDeltas) -> Result<(), CaseError> {
    if planes.len() >= 64 {
        return Err(CaseError::Bad("more than 64 games"));
    }
    if is_on(deltas, planes.shape()) {
        planes.push(Some(&EverSets::of(deltas)));
    } else {
        planes.push(None);
    }
    Ok(())
}

// Whether the planes are for boards of this shape.
fn are_for(planes: &Planes, shape: Shape) -> bool
    ensures { IsTrue result ↔ (planes.now.shape ≡ shape) }
{
    planes.shape() == shape
}

fn joined(alloc: Global, a: &Planes, b: &Planes) -> Result<Planes, CaseError> {
    if !are_for(a, b.shape()) {
        return Err(CaseError::Bad("boards of another shape"));
    }
    if a.len() + b.len() > 64 {
        return Err(CaseError::Bad("more than 64 games"));
    }
    Ok(Planes::join(alloc, a, b)?)
}

fn tell(
    alloc: Global,
    planes: &Planes,
    question: &str,
    out: &mut Vec<u8>,
) -> Result<(), CaseError> {
    let (name, rest) = question.split_once(" ").unwrap_or((question, ""));
    match name {
        "all" => put_all(planes, out),
        "keep" => put_kept(alloc, planes, rest, out),
        "either" => put_kept_by_either(alloc, planes, rest, out),
        _ => put_point_games(planes, name, out),
    }
}

fn put_all(planes: &Planes, out: &mut Vec<u8>) -> Result<(), CaseError> {
    put_number(out, planes.len() as u64)?;
    put(out, " games, present")?;
    put_bits(out, planes.present())?;
    put(out, "; always empty")?;
    put_bits(out, planes.ever_empty())
}

// The games that had each cell on a point.
fn put_point_games(planes: &Planes, name: &str, out: &mut Vec<u8>) -> Result<(), CaseError> {
    put(out, "empty")?;
    put_bits(out, word_of(planes, name, Cell::Empty)?)?;
    put(out, "; black")?;
    put_bits(out, word_of(planes, name, Cell::Black)?)?;
    put(out, "; white")?;
    put_bits(out, word_of(planes, name, Cell::White)?)
}

fn word_of(planes: &Planes, name: &str, cell: Cell) -> Result<u64, CaseError> {
    let number = number_on(planes.shape(), Some(name))?;
    if number < planes.shape().count() {
        Ok(planes.word(number, cell))
    } else {
        Err(CaseError::Bad("off the board"))
    }
}

fn number_on(shape: Shape, name: Option<&str>) -> Result<u16, CaseError> {
    let point = point_in(name)?;
    if point.x < shape.cols() && point.y < shape.rows() {
        Ok(shape.number(point))
    } else {
        Err(CaseError::Bad("off the board"))
    }
}

// So many words, each of the games that stand behind, or of all games.
fn words_of(alloc: Global, count: Option<&str>, games: &str) -> Result<Vec<u64>, CaseError> {
    let count = byte_in(count)?;
    let mut mask = if games.is_empty() { u64::MAX } else { 0 };
    for game in &numbers_in(alloc, games)? {
        if *game < 64 {
            mask |= 1 << *game;
        }
    }
    Ok(vec![in alloc; mask; usize::from(count)]?)
}

// Of the games behind `of`, or of all, those that had a cell on each of so many points.
fn put_kept(
    alloc: Global,
    planes: &Planes,
    question: &str,
    out: &mut Vec<u8>,
) -> Result<(), CaseError> {
    let (question, games) = question.split_once(" of ").unwrap_or((question, ""));
    let mut parts = question.split_whitespace();
    let cell = cell_in(parts.next())?;
    let from = number_on(planes.shape(), parts.next())?;
    let mut words = words_of(alloc, parts.next(), games)?;
    if usize::from(from) + words.len() > usize::from(planes.shape().count()) {
        return Err(CaseError::Bad("off the board"));
    }
    planes.keep(cell, from, &mut words);
    put_words(out, &words)
}

// The same, for those that had one cell or another.
fn put_kept_by_either(
    alloc: Global,
    planes: &Planes,
    question: &str,
    out: &mut Vec<u8>,
) -> Result<(), CaseError> {
    let (question, games) = question.split_once(" of ").unwrap_or((question, ""));
    let mut parts = question.split_whitespace();
    let one = cell_in(parts.next())?;
    let other = cell_in(parts.next())?;
    let from = number_on(planes.shape(), parts.next())?;
    let mut words = words_of(alloc, parts.next(), games)?;
    if usize::from(from) + words.len() > usize::from(planes.shape().count()) {
        return Err(CaseError::Bad("off the board"));
    }
    planes.keep_either(one, other, from, &mut words);
    put_words(out, &words)
}

fn put_words(out: &mut Vec<u8>, words: &[u64]) -> Result<(), CaseError> {
    put(out, "kept")?;
    for (k, word) in words.iter().enumerate() {
        put(out, if k > 0 { ";" } else { "" })?;
        put_bits(out, *word)?;
    }
    Ok(())
}
