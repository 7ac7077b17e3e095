// The stones that a move captures, and how stones are taken off.
ghost use Rattle.std.specs.Prelude.{
  ◌≡◌,
  ℕ,
  ◌<◌,
  ◌≤◌,
  ◌↔◌,
  ◌⊎◌,
  [],
  length,
  All,
  Contains,
  IsTrue,
  Some,
};
ghost use Rattle.kb_geometry.specs.Board.{point_count, AreNeighbours};
ghost use Rattle.kb_geometry.specs.declared.stone.Cell.TheVariants as cell;
ghost use Rattle.kb_geometry.specs.Capture.{
  cell_at,
  stone_of,
  other_side,
  IsInGroup,
  HasLiberty,
  IsCaptured,
  IsWithout,
};
ghost use Rattle.capture_board.specs.ChangedPoints.{NotesChanges};
ghost use Rattle.capture_board.specs.WholeGroups.{HasWholeGroups};

use super::groups::find_surrounded;
use super::point_set::PointSet;
use super::{MoveSets, ROOM};
use crate::change_list::{ChangedPoints, put};
use kb_geometry::{Cell, Colour, Shape};

/// The stone of a side.
pub fn stone_of(side: Colour) -> Cell
    ensures { result ≡ stone_of side }
{
    match side {
        Colour::Black => Cell::Black,
        Colour::White => Cell::White,
    }
}

/// The side that plays against this one.
pub fn other_side(side: Colour) -> Colour
    ensures { result ≡ other_side side }
{
    match side {
        Colour::Black => Colour::White,
        Colour::White => Colour::Black,
    }
}

/// Finds the stones of a side that a stone between these neighbours captures.
pub fn find_captured(
    shape: Shape,
    cells: &[Cell],
    side: Colour,
    around: &[Option<u16>; 4],
    sets: &mut MoveSets,
)
    requires whole { length cells.now ≡ point_count shape }
    requires on_board { (q : ℕ) → Contains around.now (Some q) → q < point_count shape }
    requires no_group { sets.old.group ≡ [] }
    requires none_captured { sets.old.captured ≡ [] }
    ensures captured { (point : ℕ) → point < point_count shape →
        ((n : ℕ) → Contains around.now (Some n) ↔ AreNeighbours shape point n) → (q : ℕ) →
        Contains sets.new.captured q ↔ IsCaptured shape cells.now side point q }
    ensures no_group { sets.new.group ≡ [] }
{
    let stone = stone_of(side);
    for next in around {
        if let Some(touching) = next {
            add_surrounded(shape, cells, *touching, stone, sets);
        }
    }
}

/// Whether one of these neighbours of a stone is empty, so that it has a liberty of its own.
pub fn breathes(cells: &[Cell], around: &[Option<u16>; 4]) -> bool
    requires { (q : ℕ) → Contains around.now (Some q) → q < length cells.now }
    ensures { IsTrue result ↔ ((q : ℕ) × Contains around.now (Some q)
        × (cell_at cells.now q ≡ cell.Empty)) }
{
    for next in around {
        if let Some(q) = next {
            if cells[usize::from(*q)] == Cell::Empty {
                return true;
            }
        }
    }
    false
}

// Adds the group of a point to the captured stones, if this stone stands there and the group has no
// liberty.
fn add_surrounded(shape: Shape, cells: &[Cell], touching: u16, stone: Cell, sets: &mut MoveSets)
    requires whole { length cells.now ≡ point_count shape }
    requires on_board { touching < point_count shape }
    requires no_group { sets.old.group ≡ [] }
    requires whole_groups { HasWholeGroups shape cells.now sets.old.captured }
    ensures captured { (q : ℕ) → Contains sets.new.captured q ↔ (Contains sets.old.captured q
        ⊎ ((cell_at cells.now touching ≡ stone)
        × (¬ HasLiberty shape cells.now touching)
        × IsInGroup shape cells.now touching q)) }
    ensures no_group { sets.new.group ≡ [] }
    ensures whole_groups { HasWholeGroups shape cells.now sets.new.captured }
{
    if cells[usize::from(touching)] != stone {
        return;
    }
    if sets.captured.contains(touching) {
        return;
    }
    if find_surrounded(shape, cells, touching, &mut sets.group) {
        sets.captured.insert_all(&sets.group);
    }
    sets.group.clear();
}

/// Takes the stones off these points.
pub fn take_off(cells: &mut [Cell], changed: &mut ChangedPoints, points: &PointSet)
    requires on_board { All (λ q. q < length cells.old) points.now }
    requires fits { length cells.old ≤ ROOM }
    ensures off { IsWithout (Contains points.now) cells.old cells.new }
    ensures noted { NotesChanges cells.old changed.old cells.new changed.new }
{
    for index in 0..points.len() {
        put(cells, changed, points.at(index), Cell::Empty);
    }
}
