// The games of a block of which each corner that a placement covers had its cells.
ghost use Rattle.std.specs.Prelude.{
  ◌≡◌,
  ◌≢◌,
  ◌<◌,
  ◌≤◌,
  ◌↔◌,
  ℕ,
  All,
  Contains,
  length,
};
ghost use Rattle.std.specs.Int.{bit_at};
ghost use Rattle.pattern_images.specs.ImageList.{ImageList, IsPlacedOn, placement_at};
ghost use Rattle.corner_index.specs.Corners.{keys_of};
ghost use Rattle.ready_images.specs.declared.corner_number.CornerNumber.{CornerNumber};
ghost use Rattle.ready_images.specs.Corners.{AreCornersOf};
ghost use Rattle.candidate_sieve.specs.Kept.{HadCorners};
ghost use Rattle.candidate_sieve.specs.KeptWords.{AreAmong, AreThose, HadKey};

use corner_index::CornerKeys;
use ready_images::CornerNumber;

// Those of some games of a block in which each of the corners that a placement covers had the cells
// of the placement at some node.
pub(crate) fn games_with_corners(
    covered: &[CornerNumber],
    games: u64,
    corners: &[&CornerKeys],
) -> u64
    requires in_range { All (λ (c : CornerNumber). c.corner < 4) covered.now }
    requires few { length corners.now ≤ 64 }
    ensures those { (images : ImageList) (i : ℕ) → AreCornersOf images i covered.now →
        IsPlacedOn images.shape (placement_at images.placements i) →
        AreThose images.shape corners.now
        (λ changes. HadCorners changes (placement_at images.placements i)) games result }
    ensures among { AreAmong result games }
{
    let mut left = games;
    for corner in covered {
        left = games_with_key(corner.corner, corner.number, left, corners);
    }
    left
}

// Those of the games in which a corner had a number.
fn games_with_key(corner: u8, key: u64, games: u64, corners: &[&CornerKeys]) -> u64
    requires corner { corner < 4 }
    requires few { length corners.now ≤ 64 }
    ensures those { HadKey corners.now corner key games result }
    ensures among { AreAmong result games }
{
    let mut left = games;
    for at in 0..corners.len() {
        left = asked_of_game(corner, key, left, at, corners[at]);
    }
    left
}

// The games, without the one at this place if it is there and its corner never had the number.
fn asked_of_game(corner: u8, key: u64, games: u64, at: usize, corners: &CornerKeys) -> u64
    requires corner { corner < 4 }
    requires at { at < 64 }
    ensures here { (bit_at result at ≡ 1)
        ↔ ((bit_at games at ≡ 1) × Contains (keys_of corners.now corner) key) }
    ensures others { (g : ℕ) → g < 64 → g ≢ at → bit_at result g ≡ bit_at games g }
{
    if games >> at & 1 == 0 {
        return games;
    }
    if corners.has(corner, key) {
        return games;
    }
    games & !(1 << at)
}
