// The corners that a placement covers, against the numbers that they had in a game.
ghost use Rattle.std.specs.Prelude.{◌≡◌, ◌<◌, ◌↔◌, IsTrue, length};
ghost use Rattle.capture_board.specs.Deltas.{Deltas};
ghost use Rattle.pattern_images.specs.ImageList.{IsPlacedOn, placement_at};
ghost use Rattle.corner_index.specs.Corners.{AreNumbersOfGame};
ghost use Rattle.candidate_sieve.specs.Kept.{HadCorners, HadIfCovered};

use corner_index::CornerKeys;
use pattern_images::Images;
use ready_images::number_of_corner;

// How many corners a board has.
const CORNERS: u8 = 4;

/// Whether each corner that a placement covers with empty, black and white cells alone had these
/// cells at some node. On a board with a side below 6 there is no corner.
pub fn meets_corners(corners: &CornerKeys, images: &Images, i: usize) -> bool
    requires placement { i < length images.now.placements }
    requires placed { IsPlacedOn images.now.shape (placement_at images.now.placements i) }
    ensures { (deltas : Deltas) → deltas.shape ≡ images.now.shape →
        AreNumbersOfGame deltas corners.now →
        IsTrue result ↔ HadCorners deltas (placement_at images.now.placements i) }
{
    for corner in 0..CORNERS {
        if !meets_corner(corners, images, i, corner) {
            return false;
        }
    }
    true
}

// Whether a corner had the cells of a placement at some node, if the placement covers it with empty,
// black and white cells alone.
fn meets_corner(corners: &CornerKeys, images: &Images, i: usize, corner: u8) -> bool
    requires placement { i < length images.now.placements }
    requires placed { IsPlacedOn images.now.shape (placement_at images.now.placements i) }
    requires corner { corner < 4 }
    ensures { (deltas : Deltas) → deltas.shape ≡ images.now.shape →
        AreNumbersOfGame deltas corners.now →
        IsTrue result ↔ HadIfCovered deltas (placement_at images.now.placements i) corner }
{
    match number_of_corner(images, i, corner) {
        Some(number) => corners.has(corner, number),
        None => true,
    }
}
