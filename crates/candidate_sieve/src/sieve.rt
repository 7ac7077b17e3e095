// Whether a game is kept for a search.
ghost use Rattle.std.specs.Prelude.{◌≡◌, ◌<◌, ◌↔◌, IsTrue, length};
ghost use Rattle.capture_board.specs.Deltas.{Deltas, node_count};
ghost use Rattle.pattern_images.specs.ImageList.{IsPlacedOn, placement_at};
ghost use Rattle.final_index.specs.Ever.{AreSetsOf};
ghost use Rattle.corner_index.specs.Corners.{AreNumbersOfGame};
ghost use Rattle.candidate_sieve.specs.Kept.{IsKept, IsKeptBy};

use crate::cells::meets_cells;
use crate::corners::meets_corners;
use corner_index::CornerKeys;
use final_index::EverSets;
use kb_geometry::Shape;
use pattern_images::Images;

/// Whether a game is kept for a search, by its sets and the numbers of its corners: whether for
/// some placement each cell was allowed at some node, and each corner that it covers with empty,
/// black and white cells alone had these cells at some node. Nothing is allocated.
///
/// A game that isn't kept has no occurrence. One that is kept may have none either.
pub fn passes(ever: &EverSets, corners: &CornerKeys, shape: Shape, images: &Images) -> bool
    requires { images.now.shape ≡ shape }
    ensures { (deltas : Deltas) → 0 < node_count deltas → deltas.shape ≡ shape →
        AreSetsOf deltas ever.now → AreNumbersOfGame deltas corners.now →
        IsTrue result ↔ IsKept deltas images.now.placements }
{
    for i in 0..images.len() {
        if keeps(ever, corners, images, i) {
            return true;
        }
    }
    false
}

// Whether a placement meets both rules in a game.
fn keeps(ever: &EverSets, corners: &CornerKeys, images: &Images, i: usize) -> bool
    requires placement { i < length images.now.placements }
    requires placed { IsPlacedOn images.now.shape (placement_at images.now.placements i) }
    ensures { (deltas : Deltas) → 0 < node_count deltas → deltas.shape ≡ images.now.shape →
        AreSetsOf deltas ever.now → AreNumbersOfGame deltas corners.now →
        IsTrue result ↔ IsKeptBy deltas (placement_at images.now.placements i) }
{
    meets_cells(ever, images, i) && meets_corners(corners, images, i)
}
