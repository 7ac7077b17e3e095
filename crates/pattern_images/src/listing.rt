// The places of a query's pattern on a board, in order.
ghost use Rattle.std.specs.Prelude.{
  ◌≡◌,
  ◌↔◌,
  ◌+◌,
  ◌<◌,
  [],
  Any,
  IsTrue,
  None,
  Some,
  false,
  length,
  IfOk,
  slice_index_or,
  take,
};
ghost use Rattle.kb_geometry.specs.declared.shape.Shape.{Shape};
ghost use Rattle.kb_geometry.specs.Board.{rows_of};
ghost use Rattle.pattern_images.specs.Listing.{
  AreDifferent,
  GivesAt,
  HasClass,
  IsDifferentAt,
  ListsOn,
  Reaches,
};

use crate::turn::Turn;
use kb_geometry::{Label, Point, Shape};
use std::alloc::{AllocError, Global};
use std::mem::size_of;

// A place, in 4 bytes: the upper left point, the least label, and the number of the rectangle of
// cells.
#[derive(Clone, Copy, Debug)]
pub(crate) struct StoredPlace {
    pub(crate) x: u8,
    pub(crate) y: u8,
    pub(crate) label: Label,
    pub(crate) class: u8,
}

const _: () = prove!(size_of::<StoredPlace>() == 4);

// The places of the turns on a board: by row, then by column, then by label, each under its least
// label.
pub(crate) fn list_places(
    alloc: Global,
    turns: &[Option<Turn>],
    shape: Shape,
) -> Result<Vec<StoredPlace>, AllocError>
    requires { length turns.now ≡ 16 }
    ensures { IfOk result (λ places. ListsOn shape turns.now 0 0 0 [] (rows_of shape) 0 0
        places.items) }
{
    let repeated = are_repeated(turns);
    let mut places = Vec::new(alloc);
    for y in 0..shape.rows() {
        list_row(turns, repeated, shape, y, &mut places)?;
    }
    Ok(places)
}

// Adds the places in one row. `repeated` tells whether two turns may have one rectangle of cells:
// where it is false, lesser labels needn't be asked.
fn list_row(
    turns: &[Option<Turn>],
    repeated: bool,
    shape: Shape,
    y: u8,
    places: &mut Vec<StoredPlace>,
) -> Result<(), AllocError>
    requires each { length turns.now ≡ 16 }
    requires repeated { repeated ≡ false → AreDifferent turns.now }
    ensures { IfOk result (λ _. ListsOn shape turns.now y 0 0 places.old.items (y + 1) 0 0
        places.new.items) }
{
    if !is_reached(turns, y) {
        return Ok(());
    }
    for x in 0..shape.cols() {
        list_point(turns, repeated, Point { x, y }, places)?;
    }
    Ok(())
}

// Whether one of the turns gives a place in this row.
fn is_reached(turns: &[Option<Turn>], y: u8) -> bool
    ensures { IsTrue result ↔ Any (Reaches y) turns.now }
{
    turns.iter().any(|turn| reaches(*turn, y))
}

fn reaches(turn: Option<Turn>, y: u8) -> bool
    ensures { IsTrue result ↔ Reaches y turn }
{
    match turn {
        Some(turn) => turn.corners.y0 <= y && y <= turn.corners.y1,
        None => false,
    }
}

// Adds the places at one point. `repeated` tells whether two turns may have one rectangle of cells:
// where it is false, lesser labels needn't be asked.
fn list_point(
    turns: &[Option<Turn>],
    repeated: bool,
    p: Point,
    places: &mut Vec<StoredPlace>,
) -> Result<(), AllocError>
    requires each { length turns.now ≡ 16 }
    requires repeated { repeated ≡ false → AreDifferent turns.now }
    ensures { IfOk result (λ _. (shape : Shape) →
        ListsOn shape turns.now p.y p.x 0 places.old.items p.y (p.x + 1) 0 places.new.items) }
{
    for number in 0..turns.len() {
        list_label(turns, repeated, number, p, places)?;
    }
    Ok(())
}

// Adds the place at one point under one label, if there is one that no lesser label gives.
// `repeated` tells whether two turns may have one rectangle of cells: where it is false, lesser
// labels needn't be asked.
fn list_label(
    turns: &[Option<Turn>],
    repeated: bool,
    number: usize,
    p: Point,
    places: &mut Vec<StoredPlace>,
) -> Result<(), AllocError>
    requires number { number < length turns.now }
    requires repeated { repeated ≡ false → AreDifferent turns.now }
    ensures { IfOk result (λ _. (shape : Shape) →
        ListsOn shape turns.now p.y p.x number places.old.items p.y p.x (number + 1)
        places.new.items) }
{
    let Some(turn) = turns[number] else {
        return Ok(());
    };
    if !turn.corners.contains(p) {
        return Ok(());
    }
    if is_given_before(turns, repeated, number, turn, p) {
        return Ok(());
    }
    places.push(StoredPlace {
        x: p.x,
        y: p.y,
        label: turn.label,
        class: turn.class,
    })?;
    Ok(())
}

// Whether a lesser label than that of the turn with this number gives the same rectangle of cells at
// this point. Where no two turns have one rectangle of cells, as is so for most patterns, none is
// asked.
fn is_given_before(
    turns: &[Option<Turn>],
    repeated: bool,
    number: usize,
    turn: Turn,
    p: Point,
) -> bool
    requires number { number < length turns.now }
    requires turn { slice_index_or turns.now number None ≡ Some turn }
    requires repeated { repeated ≡ false → AreDifferent turns.now }
    ensures { IsTrue result ↔ Any (GivesAt turn.class p) (take number turns.now) }
{
    repeated && is_given(&turns[..number], turn.class, p)
}

// Whether one of the turns gives the rectangle of cells with this number at this point.
fn is_given(turns: &[Option<Turn>], class: u8, p: Point) -> bool
    ensures { IsTrue result ↔ Any (GivesAt class p) turns.now }
{
    turns.iter().any(|turn| gives_at(*turn, class, p))
}

fn gives_at(turn: Option<Turn>, class: u8, p: Point) -> bool
    ensures { IsTrue result ↔ GivesAt class p turn }
{
    match turn {
        Some(turn) => turn.class == class && turn.corners.contains(p),
        None => false,
    }
}

// Whether two turns may have one rectangle of cells.
fn are_repeated(turns: &[Option<Turn>]) -> bool
    ensures { result ≡ false → AreDifferent turns.now }
{
    for number in 0..turns.len() {
        if is_repeated(turns, number) {
            return true;
        }
    }
    false
}

// Whether a turn before the one with this number has its rectangle of cells.
fn is_repeated(turns: &[Option<Turn>], number: usize) -> bool
    requires { number < length turns.now }
    ensures { result ≡ false → IsDifferentAt turns.now number }
{
    match turns[number] {
        Some(turn) => have_class(&turns[..number], turn.class),
        None => false,
    }
}

// Whether one of the turns has the rectangle of cells with this number.
fn have_class(turns: &[Option<Turn>], class: u8) -> bool
    ensures { IsTrue result ↔ Any (HasClass class) turns.now }
{
    turns.iter().any(|turn| has_class(*turn, class))
}

fn has_class(turn: Option<Turn>, class: u8) -> bool
    ensures { IsTrue result ↔ HasClass class turn }
{
    match turn {
        Some(turn) => turn.class == class,
        None => false,
    }
}
