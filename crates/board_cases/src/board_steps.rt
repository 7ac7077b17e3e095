// Boards that are drawn, and moves and setups on them by steps.
ghost use Rattle.std.specs.Prelude.{◌≡◌, ◌<◌};
ghost use Rattle.kb_geometry.specs.Board.{point_count};
ghost use Rattle.kb_geometry.specs.Capture.{Position};
ghost use Rattle.capture_board.specs.Changes.{LeadFrom};

use crate::reading::{point_in, rect_in, text_of};
use crate::writing::{put, put_changes, sign_of};
use capture_board::{Board, ChangeList};
use case_files::{Case, CaseError};
use kb_geometry::{Cell, Colour, Point, Rect, Shape, append};
use std::alloc::Global;

// What is done to a board, or to the list of its changes.
#[derive(Clone, Copy)]
enum Step {
    Play(Colour, Option<Point>),
    Set(Cell, Rect),
    Clear,
}

// The board and the changes after steps. That the changes, taken back, give the board as it was when
// the list was last cleared is told only where it isn't so.
pub(crate) fn board(alloc: Global, case: &Case<'_>, out: &mut Vec<u8>) -> Result<(), CaseError> {
    let cells = cells_in(alloc, text_of(case)?)?;
    let shape = shape_of(text_of(case)?, cells.len())?;
    let mut board = drawn(shape, &cells);
    let mut changes = ChangeList::new();
    let mut cleared = picture(alloc, &board, shape)?;
    for words in case.words.split(";") {
        let step = step_in(shape, words)?;
        run(&mut board, shape, &mut changes, step);
        if let Step::Clear = step {
            cleared = picture(alloc, &board, shape)?;
        }
    }
    append(out, &picture(alloc, &board, shape)?)?;
    put_list(out, shape, &changes)?;
    undo(&mut board, shape, &changes);
    put_undone(out, &cleared, &picture(alloc, &board, shape)?)
}

fn put_list(out: &mut Vec<u8>, shape: Shape, changes: &ChangeList) -> Result<(), CaseError> {
    if changes.as_slice().is_empty() {
        return put(out, "no change\n");
    }
    put_changes(out, shape, changes.as_slice())?;
    put(out, "\n")
}

fn put_undone(out: &mut Vec<u8>, cleared: &[u8], undone: &[u8]) -> Result<(), CaseError> {
    if cleared != undone {
        put(out, "taken back to\n")?;
        append(out, undone)?;
    }
    Ok(())
}

// The cells of a drawing, row by row.
fn cells_in(alloc: Global, rows: &str) -> Result<Vec<Cell>, CaseError> {
    let mut cells = Vec::new(alloc);
    for sign in rows.as_bytes() {
        match sign {
            b'\n' => {}
            b'.' => cells.push(Cell::Empty)?,
            b'X' => cells.push(Cell::Black)?,
            b'O' => cells.push(Cell::White)?,
            _ => return Err(CaseError::Bad("none of . X O")),
        }
    }
    Ok(cells)
}

// The board of a drawing with so many cells.
fn shape_of(rows: &str, count: usize) -> Result<Shape, CaseError> {
    let cols = rows.lines().next().unwrap_or("").len();
    let (Ok(cols), Ok(rows)) = (u8::try_from(cols), u8::try_from(rows.lines().count())) else {
        return Err(CaseError::Bad("no drawing of a board"));
    };
    let shape = Shape::new(cols, rows).ok_or(CaseError::Bad("no drawing of a board"))?;
    if usize::from(shape.count()) == count {
        Ok(shape)
    } else {
        Err(CaseError::Bad("no drawing of a board"))
    }
}

// The board with these cells.
fn drawn(shape: Shape, cells: &[Cell]) -> Board
    ensures { result.shape ≡ shape }
{
    let mut board = Board::empty(shape);
    let mut changes = ChangeList::new();
    for (number, cell) in cells.iter().enumerate() {
        if number < usize::from(shape.count()) {
            put_one(&mut board, shape, &mut changes, number as u16, *cell);
        }
    }
    board
}

// Puts a cell on one point.
fn put_one(board: &mut Board, shape: Shape, changes: &mut ChangeList, number: u16, cell: Cell)
    requires shape { board.old.shape ≡ shape }
    requires number { number < point_count shape }
    ensures { board.new.shape ≡ shape }
{
    changes.clear();
    board.set(cell, Rect::of_point(shape.point(number)), changes);
}

// The step of these words, if it is one on the board.
fn step_in(shape: Shape, words: &str) -> Result<Step, CaseError> {
    let mut words = words.split_whitespace();
    let name = words.next();
    let place = words.next();
    match name {
        Some("B") => Ok(Step::Play(Colour::Black, played_in(shape, place)?)),
        Some("W") => Ok(Step::Play(Colour::White, played_in(shape, place)?)),
        Some("AB") => Ok(Step::Set(Cell::Black, laid_in(shape, place)?)),
        Some("AW") => Ok(Step::Set(Cell::White, laid_in(shape, place)?)),
        Some("AE") => Ok(Step::Set(Cell::Empty, laid_in(shape, place)?)),
        Some("clear") => Ok(Step::Clear),
        _ => Err(CaseError::Bad("no step on a board")),
    }
}

// The point of a move on the board, or none for a pass.
fn played_in(shape: Shape, place: Option<&str>) -> Result<Option<Point>, CaseError> {
    if place.is_none() {
        return Ok(None);
    }
    let point = point_in(place)?;
    if point.x < shape.cols() && point.y < shape.rows() {
        Ok(Some(point))
    } else {
        Err(CaseError::Bad("off the board"))
    }
}

fn laid_in(shape: Shape, place: Option<&str>) -> Result<Rect, CaseError> {
    let r = rect_in(place)?;
    if is_on(shape, r) {
        Ok(r)
    } else {
        Err(CaseError::Bad("off the board"))
    }
}

fn is_on(shape: Shape, r: Rect) -> bool {
    r.x0 <= r.x1 && r.y0 <= r.y1 && r.x1 < shape.cols() && r.y1 < shape.rows()
}

// Does a step. One that isn't on the board is left out.
fn run(board: &mut Board, shape: Shape, changes: &mut ChangeList, step: Step)
    requires shape { board.old.shape ≡ shape }
    requires leads { (base : Position) × LeadFrom base changes.old board.old.position }
    ensures shape { board.new.shape ≡ shape }
    ensures leads { (base : Position) × LeadFrom base changes.new board.new.position }
{
    match step {
        Step::Clear => changes.clear(),
        Step::Play(colour, None) => board.play(colour, None, changes),
        Step::Play(colour, Some(point)) => {
            if point.x < shape.cols() && point.y < shape.rows() {
                board.play(colour, Some(point), changes);
            }
        }
        Step::Set(cell, r) => {
            if r.x0 <= r.x1 && r.y0 <= r.y1 && r.x1 < shape.cols() && r.y1 < shape.rows() {
                board.set(cell, r, changes);
            }
        }
    }
}

// Takes the listed changes back.
fn undo(board: &mut Board, shape: Shape, changes: &ChangeList)
    requires shape { board.old.shape ≡ shape }
    requires leads { (base : Position) × LeadFrom base changes.now board.old.position }
    ensures { board.new.shape ≡ shape }
{
    board.undo(changes.as_slice());
}

// The board as it is drawn.
fn picture(alloc: Global, board: &Board, shape: Shape) -> Result<Vec<u8>, CaseError>
    requires { board.now.shape ≡ shape }
{
    let cols = u16::from(shape.cols());
    let mut rows = Vec::new(alloc);
    for number in 0..shape.count() {
        if number > 0 && number % cols == 0 {
            rows.push(b'\n')?;
        }
        put(&mut rows, sign_of(board.cell(number)))?;
    }
    rows.push(b'\n')?;
    Ok(rows)
}
