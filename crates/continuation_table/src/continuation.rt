// How a game goes on where a pattern was found.
ghost use Rattle.std.specs.Prelude.{◌≡◌, ℕ, ◌<◌, length, IfNone, IfSome};
ghost use Rattle.game_tree.specs.Tree.{node_count};
ghost use Rattle.node_position.specs.Games.{AreNodeChanges};
ghost use Rattle.pattern_images.specs.declared.hit.Next.{Next};
ghost use Rattle.pattern_images.specs.ImageList.{IsPlaceOf, placement_at};
ghost use Rattle.continuation_table.specs.Continuation.{IsContinuation};

use crate::places::{holds_at, number_of_place};
use crate::way_down::next_below;
use capture_board::NodeDeltas;
use game_tree::GameTree;
use pattern_images::{Found, Images, Next};

/// The continuation at a node of the placement with a place: the first move on the way down by
/// first children whose point lies in the placement's rectangle, if the placement holds at each
/// node from this one to the parent of the move's node. `None` exactly where there is none.
///
/// The deltas are those of the tree, the images are for its board, and the place is that of one of
/// the placements. So it is that of one only. Nothing is allocated. The position at the node is
/// rebuilt by one walk up the parents, in room for the points of the greatest board; who knows that
/// the placement holds there calls [`next_below`], as a search does. This call is for those who use
/// the library with a place alone, and for tests.
pub fn next_of(tree: &GameTree, deltas: &NodeDeltas, images: &Images, found: &Found) -> Option<Next>
    requires deltas { AreNodeChanges tree.now deltas.now }
    requires shape { images.now.shape ≡ tree.now.shape }
    requires place { (i : ℕ) × (i < length images.now.placements)
        × IsPlaceOf (placement_at images.now.placements i) found.now.place }
    requires node { found.now.node < node_count tree.now }
    ensures some { IfSome result (λ next. (i : ℕ) → i < length images.now.placements →
        IsPlaceOf (placement_at images.now.placements i) found.now.place →
        IsContinuation tree.now deltas.now (placement_at images.now.placements i)
        found.now.node next) }
    ensures none { IfNone result ((i : ℕ) → i < length images.now.placements →
        IsPlaceOf (placement_at images.now.placements i) found.now.place →
        (next : Next) → ¬ IsContinuation tree.now deltas.now (placement_at images.now.placements i)
        found.now.node next) }
{
    let i = number_of_place(images, found.place);
    if !holds_at(deltas, images, i, found.node) {
        return None;
    }
    next_below(tree, deltas, images, i, found.node, found.node)
}
