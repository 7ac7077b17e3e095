// In which games of a block a point had a stone while its neighbour was empty.
ghost use Rattle.std.specs.Prelude.{◌≡◌, ◌↔◌, IsTrue};

use crate::games::deltas_in;
use crate::planes::is_on;
use crate::reading::{point_in, shape_in, utf8};
use crate::writing::{put, put_bits, put_number};
use capture_board::NodeDeltas;
use case_files::{Case, CaseError};
use final_index::OrderPlanes;
use kb_geometry::Shape;
use std::alloc::Global;

// What is asked of the games of a text, with those of the part `behind` behind them.
pub(crate) fn order(alloc: Global, case: &Case<'_>, out: &mut Vec<u8>) -> Result<(), CaseError> {
    let shape = shape_in(case.word(0))?;
    let first = order_in(alloc, shape, case.text())?;
    let behind = case.part("behind");
    let order = if behind.is_empty() {
        first
    } else {
        joined(alloc, &first, &order_in(alloc, shape, behind)?)?
    };
    for question in utf8(case.part("asked"))?.lines() {
        tell(alloc, &order, question, out)?;
        put(out, "\n")?;
    }
    Ok(())
}

// The planes of the games of a text.
fn order_in(alloc: Global, shape: Shape, text: &[u8]) -> Result<OrderPlanes, CaseError> {
    let mut order = OrderPlanes::new(alloc, shape)?;
    for deltas in &deltas_in(alloc, text)? {
        push(alloc, &mut order, deltas)?;
    }
    Ok(order)
}

// Adds a game, by its changes if its board has the shape.
fn push(alloc: Global, order: &mut OrderPlanes, deltas: &NodeDeltas) -> Result<(), CaseError> {
    if order.len() >= 64 {
        return Err(CaseError::Bad("more than 64 games"));
    }
    if is_on(deltas, order.shape()) {
        order.push(alloc, deltas)?;
    } else {
        order.push_other();
    }
    Ok(())
}

// Whether the planes are for boards of this shape.
fn are_for(order: &OrderPlanes, shape: Shape) -> bool
    ensures { IsTrue result ↔ (order.now.shape ≡ shape) }
{
    order.shape() == shape
}

fn joined(alloc: Global, a: &OrderPlanes, b: &OrderPlanes) -> Result<OrderPlanes, CaseError> {
    if !are_for(a, b.shape()) {
        return Err(CaseError::Bad("boards of another shape"));
    }
    if a.len() + b.len() > 64 {
        return Err(CaseError::Bad("more than 64 games"));
    }
    Ok(OrderPlanes::join(alloc, a, b)?)
}

// How many games there are, or those of them that may have had a stone on the first point while the
// second was empty, told once by the word and once by a row of one word.
fn tell(
    alloc: Global,
    order: &OrderPlanes,
    question: &str,
    out: &mut Vec<u8>,
) -> Result<(), CaseError> {
    let mut parts = question.split_whitespace();
    let stone = number_on(order.shape(), parts.next())?;
    let empty = number_on(order.shape(), parts.next())?;
    if stone >= order.shape().count() {
        return Err(CaseError::Bad("off the board"));
    }
    let games = of_all(order.len());
    let word = order.word(stone, empty) & games;
    put(out, "of ")?;
    put_number(out, order.len() as u64)?;
    put_bits(out, word)?;
    let mut row = vec![in alloc; games; 1]?;
    order.keep(stone, empty, &mut row);
    if row.as_slice() != [word].as_slice() {
        put(out, "; but other games by the row")?;
    }
    Ok(())
}

// A bit for each of so many games.
fn of_all(count: usize) -> u64 {
    if count >= 64 {
        return u64::MAX;
    }
    (1 << count) - 1
}

fn number_on(shape: Shape, name: Option<&str>) -> Result<u16, CaseError> {
    let point = point_in(name)?;
    if point.x < shape.cols() && point.y < shape.rows() {
        Ok(shape.number(point))
    } else {
        Err(CaseError::Bad("off the board"))
    }
}
