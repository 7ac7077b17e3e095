// The group of a point, by a walk over neighbours that stops at the first liberty.
ghost use Rattle.std.specs.Prelude.{◌≡◌, ℕ, ◌<◌, ◌↔◌, ◌⊎◌, length, [], IsTrue, Contains};
ghost use Rattle.std.specs.Bool.{OnTrue, OnFalse};
ghost use Rattle.kb_geometry.specs.Board.{point_count, AreNeighbours};
ghost use Rattle.kb_geometry.specs.Capture.{cell_at, IsInGroup, HasLiberty};
ghost use Rattle.kb_geometry.specs.declared.stone.Cell.TheVariants as cell;
ghost use Rattle.capture_board.specs.PointSet.{Extends};

use super::adjacent::neighbours;
use super::point_set::PointSet;
use kb_geometry::{Cell, Shape};

/// Finds the group of a point, into an empty set, and answers whether it has no liberty. At the
/// first liberty it stops, and the set then has some of the group.
pub fn find_surrounded(shape: Shape, cells: &[Cell], start: u16, group: &mut PointSet) -> bool
    requires whole { length cells.now ≡ point_count shape }
    requires on_board { start < point_count shape }
    requires no_group { group.old ≡ [] }
    ensures liberty { OnFalse result (HasLiberty shape cells.now start) }
    ensures surrounded { OnTrue result (¬ HasLiberty shape cells.now start) }
    ensures members { OnTrue result
        ((q : ℕ) → Contains group.new q ↔ IsInGroup shape cells.now start q) }
{
    let stone = cells[usize::from(start)];
    group.insert(start);
    let mut visited = 0;
    while visited < group.len() {
        let point = group.at(visited);
        if add_neighbours(shape, cells, point, stone, group) {
            return false;
        }
        visited += 1;
    }
    true
}

// Adds the neighbours of a point that have this cell, up to the first empty neighbour. Answers
// whether there is one.
fn add_neighbours(
    shape: Shape,
    cells: &[Cell],
    point: u16,
    stone: Cell,
    group: &mut PointSet,
) -> bool
    requires whole { length cells.now ≡ point_count shape }
    requires on_board { point < point_count shape }
    ensures liberty { IsTrue result
        ↔ ((q : ℕ) × AreNeighbours shape point q × (cell_at cells.now q ≡ cell.Empty)) }
    ensures added { ¬ IsTrue result
        → (q : ℕ) → AreNeighbours shape point q → cell_at cells.now q ≡ stone →
        Contains group.new q }
    ensures only { (q : ℕ) → Contains group.new q
        → Contains group.old q ⊎ (AreNeighbours shape point q × (cell_at cells.now q ≡ stone)) }
    ensures extends { Extends group.old group.new }
{
    let around = neighbours(shape, point);
    for next in around {
        if let Some(q) = next {
            let found = cells[usize::from(q)];
            if found == Cell::Empty {
                return true;
            }
            if found == stone {
                group.insert(q);
            }
        }
    }
    false
}
