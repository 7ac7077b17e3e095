// How a game goes on below a node.
ghost use Rattle.std.specs.Prelude.{
  ◌≡◌,
  ◌+◌,
  ◌<◌,
  ◌≤◌,
  ◌↔◌,
  ◌==◌,
  ℕ,
  IsTrue,
  length,
  IfNone,
  IfSome,
};
ghost use Rattle.kb_geometry.specs.Symmetry.{point_of};
ghost use Rattle.game_tree.specs.MainLine.{IsOnMainLine};
ghost use Rattle.game_tree.specs.Tree.{IsTree, move_number_of, node_count};
ghost use Rattle.capture_board.specs.Deltas.{Deltas};
ghost use Rattle.node_position.specs.Games.{AreNodeChanges};
ghost use Rattle.pattern_images.specs.declared.hit.Next.{Next};
ghost use Rattle.pattern_images.specs.ImageList.{IsPlaceOf, placement_at};
ghost use Rattle.pattern_images.specs.Placements.{Covers, Placement};
ghost use Rattle.pattern_occurrences.specs.Occurrences.{HoldsAt};
ghost use Rattle.continuation_table.specs.Descending.{IsWayDown};
ghost use Rattle.continuation_table.specs.Continuation.{
  HasMoveInside,
  IsContinuation,
  IsMoveInside,
  IsTurnedBack,
  own_colour,
};

use crate::changes::{covers, span_of, still_holds};
use crate::own_frame::{own_colour, own_point};
use capture_board::NodeDeltas;
use game_tree::{GameTree, Move};
use kb_geometry::{Colour, Point};
use pattern_images::{Images, Next, Place};

/// The continuation of the placement with number `i` at a node where it holds: the first move on
/// the way down by first children whose point lies in the placement's rectangle, if the placement
/// holds as far as to the parent of its node. `None` exactly where there is none.
///
/// The deltas are those of the tree, and the images are for its board. It is known that the placement
/// holds at each node from this one up to before `held_to`, so their changes aren't looked at. A caller
/// who knows only that it holds at the node passes the node itself as `held_to`. Nothing is allocated,
/// and no position is built: the cost is that of the nodes down to the move, or to the first one where
/// the placement doesn't hold.
pub fn next_below(
    tree: &GameTree,
    deltas: &NodeDeltas,
    images: &Images,
    i: usize,
    node: u32,
    held_to: u32,
) -> Option<Next>
    requires deltas { AreNodeChanges tree.now deltas.now }
    requires shape { images.now.shape ≡ tree.now.shape }
    requires placement { i < length images.now.placements }
    requires node { node < node_count tree.now }
    requires holds { HoldsAt deltas.now (placement_at images.now.placements i) node }
    requires held_to { (k : ℕ) → node ≤ k → k < held_to →
        HoldsAt deltas.now (placement_at images.now.placements i) k }
    ensures some { IfSome result
        (λ next. IsContinuation tree.now deltas.now (placement_at images.now.placements i) node
        next) }
    ensures none { IfNone result ((next : Next) →
        ¬ IsContinuation tree.now deltas.now (placement_at images.now.placements i) node next) }
{
    let place = images.place(i);
    let span = span_of(tree.shape(), place);
    let mut here = passed_to(tree, place, node, held_to);
    while let Some(child) = tree.first_child(here) {
        if let Some(Inside { colour, point }) = move_inside(tree, place, child) {
            // None played between if the path to here has no more moves than that to the node.
            let now = tree.move_number(here) == tree.move_number(node);
            return Some(next_by(images, i, colour, point, now));
        }
        if !still_holds(deltas, images, i, place, span, held_to, child) {
            return None;
        }
        here = child;
    }
    None
}

// The last node on the way down the main line from a node, among those before `held_to`, before a move
// in the rectangle of the place comes; the node itself off the main line. Most hits are on the main
// line, and most nodes below them stand before `held_to`: here only their moves are looked at.
fn passed_to(tree: &GameTree, place: Place, node: u32, held_to: u32) -> u32
    requires node { node < node_count tree.now }
    requires columns { place.x + place.cols ≤ 256 }
    requires rows { place.y + place.rows ≤ 256 }
    ensures in_range { result < node_count tree.now }
    ensures behind { node ≤ result }
    ensures moves { IsTree tree.now →
        move_number_of tree.now node ≤ move_number_of tree.now result }
    ensures way { IsTree tree.now → (deltas : Deltas) → (placement : Placement) → IsPlaceOf placement place →
        HoldsAt deltas placement node →
        ((k : ℕ) → node ≤ k → k < held_to → HoldsAt deltas placement k) →
        IsWayDown tree.now deltas placement node result
        (move_number_of tree.now result == move_number_of tree.now node) }
    ensures stopped { result + 1 < held_to → IsOnMainLine tree.now (result + 1) →
        (placement : Placement) → IsPlaceOf placement place →
        HasMoveInside tree.now placement (result + 1) }
{
    let last = held_to.min(tree.main_count()).saturating_sub(1);
    let mut here = node;
    while here < last {
        if has_move_inside(tree, place, here + 1) {
            return here;
        }
        here += 1;
    }
    here
}

// Whether the move of a node lies in the rectangle of the place. As `covers`, but by one comparison
// a side, since it is asked at each node that is passed.
fn has_move_inside(tree: &GameTree, place: Place, node: u32) -> bool
    requires node { node < node_count tree.now }
    requires columns { place.x + place.cols ≤ 256 }
    requires rows { place.y + place.rows ≤ 256 }
    ensures { (placement : Placement) → IsPlaceOf placement place →
        (IsTrue result ↔ HasMoveInside tree.now placement node) }
{
    if let Some(
        Move {
            point: Some(point),
            ..
        },
    ) = tree.played(node)
    {
        return is_within(point.x, place.x, place.cols) && is_within(point.y, place.y, place.rows);
    }
    false
}

// Whether a number is one of this many from a first one on. One comparison tells it, since the
// difference of a lesser number wraps round to one that is too large.
fn is_within(number: u8, first: u8, count: u8) -> bool
    requires { first + count ≤ 256 }
    ensures { IsTrue result ↔ ((first ≤ number) × (number < first + count)) }
{
    number.wrapping_sub(first) < count
}

// A move in the rectangle of a place.
struct Inside {
    colour: Colour,
    point: Point,
}

// The move of a node, if its point lies in the rectangle of the place.
fn move_inside(tree: &GameTree, place: Place, node: u32) -> Option<Inside>
    requires { node < node_count tree.now }
    ensures some { IfSome result (λ inside. (placement : Placement) → IsPlaceOf placement place →
        IsMoveInside tree.now placement node inside.colour inside.point) }
    ensures none { IfNone result ((placement : Placement) → IsPlaceOf placement place →
        ¬ HasMoveInside tree.now placement node) }
{
    match tree.played(node) {
        Some(
            Move {
                colour,
                point: Some(point),
            },
        ) if covers(place, point) => Some(Inside { colour, point }),
        _ => None,
    }
}

// The continuation by this move in the rectangle of the placement.
fn next_by(images: &Images, i: usize, colour: Colour, point: Point, now: bool) -> Next
    requires placement { i < length images.now.placements }
    requires inside { Covers (placement_at images.now.placements i) point }
    ensures now { result.now ≡ now }
    ensures point { IsTurnedBack (placement_at images.now.placements i) point
        (point_of result.x result.y) }
    ensures colour { result.colour
        ≡ own_colour (placement_at images.now.placements i).label colour }
{
    let own = own_point(images, i, point);
    Next {
        colour: own_colour(images.place(i).label, colour),
        x: own.x,
        y: own.y,
        now,
    }
}
