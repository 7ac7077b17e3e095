// A board of fixed room that plays moves by the capture rule.
ghost use Rattle.std.specs.Prelude.{◌≡◌, ◌<◌, ◌≤◌, [], length, take, IfSome};
ghost use Rattle.kb_geometry.specs.Board.{point_count, IsOrderedRectOnBoard};
ghost use Rattle.kb_geometry.specs.Capture.{IsPlayed, Position, empty_board, with_rect};
ghost use Rattle.capture_board.specs.Changes.{LeadFrom, MayBeUndone, IsUndone};
ghost use Rattle.capture_board.specs.ChangedPoints.{NotesChanges};

use crate::change_list::{ChangeList, ChangedPoints, list_changes, put};
use adjacent::neighbours;
use captures::{breathes, find_captured, other_side, stone_of, take_off};
use groups::find_surrounded;
use kb_geometry::{Cell, Change, Colour, MAX_POINTS, Point, Rect, Shape};
use point_set::PointSet;
use rects::set_rect;
use std::marker::Model;

mod adjacent;
mod captures;
mod groups;
mod point_set;
mod rects;

// The room that each board has: the points of the greatest board.
pub(crate) const ROOM: usize = MAX_POINTS as usize;

/// A board and the stones on it.
#[derive(Drop)]
pub struct Board {
    shape: Shape,
    cells: [Cell; ROOM],
    sets: MoveSets,
}

// The sets that a move works with: one group, and the stones that are captured. They are empty
// between moves, so that a move costs no more than the groups that it touches.
#[derive(Drop)]
struct MoveSets {
    group: PointSet,
    captured: PointSet,
}

impl Model for Board {
    ghost use Rattle.std.specs.Prelude.{◌≡◌, ◌≤◌, [], length, take};
    ghost use Rattle.kb_geometry.specs.Board.{point_count};
    ghost use Rattle.capture_board.specs.Board.{ShapedPosition};

    ghost Value = { ShapedPosition };

    ghost view = { λ b. record { shape = b.shape; position = take (point_count b.shape) b.cells } };

    ghost invariant = { λ b. (point_count b.shape ≤ length b.cells)
        × (b.sets.group ≡ [])
        × (b.sets.captured ≡ []) };
}

impl Board {
    ghost use Rattle.kb_geometry.specs.declared.shape.Point.{Point};
    ghost use Rattle.kb_geometry.specs.Board.{point_count, IsOnBoard, IsOrderedRectOnBoard};
    ghost use Rattle.kb_geometry.specs.Capture.{empty_board, cell_at, with_rect, IsMovePlayed};

    /// The board of this shape without a stone.
    pub fn empty(shape: Shape) -> Board
        ensures shape { result.shape ≡ shape }
        ensures position { result.position ≡ empty_board shape }
    {
        Board {
            shape,
            cells: [Cell::Empty; ROOM],
            sets: MoveSets {
                group: PointSet::new(),
                captured: PointSet::new(),
            },
        }
    }

    /// Makes it the board of this shape without a stone, at the cost of that shape's points.
    pub fn reset(&mut self, shape: Shape)
        ensures shape { self.new.shape ≡ shape }
        ensures position { self.new.position ≡ empty_board shape }
    {
        self.shape = shape;
        empty_cells(&mut self.cells, shape);
    }

    /// What stands on the point with this number.
    pub fn cell(&self, point: u16) -> Cell
        requires { point < point_count self.now.shape }
        ensures value { result ≡ cell_at self.now.position point }
        ensures whole { length self.now.position ≡ point_count self.now.shape }
    {
        self.cells[usize::from(point)]
    }

    /// Plays a move of a side by the capture rule: a stone on a point, whatever stands there, or a
    /// pass. The list then has the net changes since it was last cleared.
    pub fn play(&mut self, colour: Colour, point: Option<Point>, changes: &mut ChangeList)
        requires on_board { IfSome point (λ (p : Point). IsOnBoard self.old.shape p) }
        requires leads { (base : Position) × LeadFrom base changes.old self.old.position }
        ensures shape { self.new.shape ≡ self.old.shape }
        ensures played { IsMovePlayed self.old.shape self.old.position colour point
            self.new.position }
        ensures whole { length self.new.position ≡ point_count self.old.shape }
        ensures changes { (base : Position) → LeadFrom base changes.old self.old.position →
            LeadFrom base changes.new self.new.position }
    {
        if let Some(place) = point {
            let shape = self.shape;
            let number = shape.number(place);
            play_in_room(
                shape,
                &mut self.cells,
                &mut self.sets,
                &mut changes.changed,
                colour,
                number,
            );
            let count = usize::from(shape.count());
            changes.room.clear();
            list_changes(&changes.changed, &self.cells[..count], &mut changes.room, 0);
        }
    }

    /// Puts a cell on each point of a rectangle, and captures nothing. The list then has the net
    /// changes since it was last cleared.
    pub fn set(&mut self, cell: Cell, rect: Rect, changes: &mut ChangeList)
        requires on_board { IsOrderedRectOnBoard self.old.shape rect }
        requires leads { (base : Position) × LeadFrom base changes.old self.old.position }
        ensures shape { self.new.shape ≡ self.old.shape }
        ensures position { self.new.position
            ≡ with_rect self.old.shape self.old.position cell rect }
        ensures whole { length self.new.position ≡ point_count self.old.shape }
        ensures changes { (base : Position) → LeadFrom base changes.old self.old.position →
            LeadFrom base changes.new self.new.position }
    {
        let shape = self.shape;
        set_in_room(shape, &mut self.cells, &mut changes.changed, cell, rect);
        let count = usize::from(shape.count());
        let first = shape.number(Point {
            x: rect.x0,
            y: rect.y0,
        });
        changes.room.cut(first);
        list_changes(
            &changes.changed,
            &self.cells[..count],
            &mut changes.room,
            first,
        );
    }

    /// Takes changes back: each point gets its old cell.
    pub fn undo(&mut self, changes: &[Change])
        requires { MayBeUndone self.old.position changes.now }
        ensures shape { self.new.shape ≡ self.old.shape }
        ensures undone { IsUndone self.old.position changes.now self.new.position }
        ensures restores { (before : Position) → LeadFrom before changes.now self.old.position →
            self.new.position ≡ before }
    {
        let count = usize::from(self.shape.count());
        take_back(&mut self.cells[..count], changes);
    }
}

// Empties the cells of a board of this shape, which are the first cells of a room.
pub(crate) fn empty_cells(room: &mut [Cell], shape: Shape)
    requires { point_count shape ≤ length room.old }
    ensures same_length { length room.new ≡ length room.old }
    ensures empty { take (point_count shape) room.new ≡ empty_board shape }
{
    let count = usize::from(shape.count());
    room[..count].fill(Cell::Empty);
}

// Takes changes of a position back.
fn take_back(cells: &mut [Cell], changes: &[Change])
    requires { MayBeUndone cells.old changes.now }
    ensures undone { IsUndone cells.old changes.now cells.new }
    ensures restores { (before : Position) → LeadFrom before changes.now cells.old →
        cells.new ≡ before }
{
    for change in changes {
        cells[usize::from(change.point)] = change.old;
    }
}

// Plays a stone of a side on a point of the position that stands in the first cells of a room.
fn play_in_room(
    shape: Shape,
    room: &mut [Cell],
    sets: &mut MoveSets,
    changed: &mut ChangedPoints,
    colour: Colour,
    point: u16,
)
    requires fits { point_count shape ≤ length room.old }
    requires on_board { point < point_count shape }
    requires no_group { sets.old.group ≡ [] }
    requires none_captured { sets.old.captured ≡ [] }
    ensures played { IsPlayed shape (take (point_count shape) room.old) colour point
        (take (point_count shape) room.new) }
    ensures noted { NotesChanges (take (point_count shape) room.old) changed.old
        (take (point_count shape) room.new) changed.new }
    ensures no_group { sets.new.group ≡ [] }
    ensures none_captured { sets.new.captured ≡ [] }
{
    let count = usize::from(shape.count());
    play_on(shape, &mut room[..count], sets, changed, colour, point);
}

// Puts a cell on each point of a rectangle of the position that stands in the first cells of a
// room.
fn set_in_room(shape: Shape, room: &mut [Cell], changed: &mut ChangedPoints, cell: Cell, rect: Rect)
    requires fits { point_count shape ≤ length room.old }
    requires on_board { IsOrderedRectOnBoard shape rect }
    ensures set { take (point_count shape) room.new
        ≡ with_rect shape (take (point_count shape) room.old) cell rect }
    ensures noted { NotesChanges (take (point_count shape) room.old) changed.old
        (take (point_count shape) room.new) changed.new }
{
    let count = usize::from(shape.count());
    set_rect(shape, &mut room[..count], changed, cell, rect);
}

// Plays a stone of a side on a point of a position.
fn play_on(
    shape: Shape,
    cells: &mut [Cell],
    sets: &mut MoveSets,
    changed: &mut ChangedPoints,
    colour: Colour,
    point: u16,
)
    requires whole { length cells.old ≡ point_count shape }
    requires on_board { point < point_count shape }
    requires no_group { sets.old.group ≡ [] }
    requires none_captured { sets.old.captured ≡ [] }
    ensures played { IsPlayed shape cells.old colour point cells.new }
    ensures noted { NotesChanges cells.old changed.old cells.new changed.new }
    ensures no_group { sets.new.group ≡ [] }
    ensures none_captured { sets.new.captured ≡ [] }
{
    put(cells, changed, point, stone_of(colour));
    let around = neighbours(shape, point);
    find_captured(shape, cells, other_side(colour), &around, sets);
    take_off(cells, changed, &sets.captured);
    sets.captured.clear();
    if breathes(cells, &around) {
        return;
    }
    if find_surrounded(shape, cells, point, &mut sets.group) {
        take_off(cells, changed, &sets.group);
    }
    sets.group.clear();
}
