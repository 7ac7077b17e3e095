// Which games of a block are kept, as bits of a word.
ghost use Rattle.std.specs.Prelude.{◌≡◌, ◌<◌, ◌≤◌, ◌↔◌, ◌⊎◌, ℕ, IfOk, length, slice_index};
ghost use Rattle.std.specs.Int.{bit_at};
ghost use Rattle.capture_board.specs.Deltas.{Deltas};
ghost use Rattle.pattern_images.specs.ImageList.{IsPlacedOn, placement_at};
ghost use Rattle.candidate_sieve.specs.BlockGames.{AreWordsOfSpan, IsSpanOf};
ghost use Rattle.candidate_sieve.specs.Kept.{HadCorners};
ghost use Rattle.candidate_sieve.specs.KeptWords.{
  AreAmong,
  AreKeptOf,
  AreThose,
  HasNumbers,
  IsInWords,
  IsMetBy,
  IsMetInRows,
};

use crate::corner_games::games_with_corners;
use crate::spans::{Span, span_from, span_sieve};
use corner_index::CornerKeys;
use final_index::Planes;
use kb_geometry::NoMemory;
use ready_images::ReadyImages;

/// Which games of a block on boards of one shape are kept, a bit for each by its number in the block:
/// those for which, by some placement, each cell was allowed at some node, and each corner that the
/// placement covers with empty, black and white cells alone had these cells at some node.
///
/// `corners` has the numbers of each game of the block. A game that is kept by a placement of one class
/// isn't asked for those of the next ones, and where all are kept the rest isn't looked at. `room` is
/// written over. The only error is `NoMemory`.
pub fn kept_games(
    planes: &Planes,
    ready: &ReadyImages,
    corners: &[&CornerKeys],
    room: &mut Vec<u64>,
) -> Result<u64, NoMemory>
    requires shape { ready.now.images.shape ≡ planes.now.shape }
    requires few { length corners.now ≤ 64 }
    ensures { IfOk result (AreKeptOf planes.now ready.now.images.placements corners.now) }
{
    let present = planes.present();
    let ever_empty = planes.ever_empty();
    let rows = ready.rows();
    let mut kept = 0;
    let mut next = 0;
    while next < rows.len() {
        let left = present & !kept;
        if left == 0 {
            return Ok(kept);
        }
        let span = span_from(rows, next);
        span_sieve(planes, ever_empty, ready, span).fill_room(left, room)?;
        kept |= met_in_rows(ready, span, room, corners);
        next = span.end;
    }
    Ok(kept)
}

// The games of the words of the placements of some rows of which each corner that the placement covers
// had its cells. There is a word for each point from the base of the first row to that of the last
// placement of the last row.
fn met_in_rows(ready: &ReadyImages, span: Span, words: &[u64], corners: &[&CornerKeys]) -> u64
    requires span { IsSpanOf ready.now.rows span.first span.end }
    requires words { AreWordsOfSpan ready.now.rows span.first span.end (length words.now) }
    requires few { length corners.now ≤ 64 }
    ensures exact { (g : ℕ) (changes : Deltas) → g < 64 →
        changes.shape ≡ ready.now.images.shape → HasNumbers corners.now g changes →
        (bit_at result g ≡ 1) ↔ IsMetInRows ready.now.images.placements ready.now.rows
        ready.now.numbers words.now span.first span.end g changes }
    ensures among { (g : ℕ) → g < 64 → bit_at result g ≡ 1 → IsInWords words.now g }
{
    let rows = ready.rows();
    let base = rows[span.first].base;
    let mut met = 0;
    for r in span.first..span.end {
        let row = &rows[r];
        let from = usize::from(row.base - base);
        let numbers = ready.numbers_of(row);
        met = met_by(ready, numbers, &words[from..from + row.count], met, corners);
    }
    met
}

// The games that were met before, and those of the words of some placements, a word for each, of which
// each corner that the placement covers had its cells. A game that was met isn't asked again.
fn met_by(
    ready: &ReadyImages,
    numbers: &[u32],
    words: &[u64],
    before: u64,
    corners: &[&CornerKeys],
) -> u64
    requires count { length words.now ≡ length numbers.now }
    requires in_range { (k : ℕ) → k < length numbers.now →
        slice_index numbers.now k < length ready.now.images.placements }
    requires placed { (k : ℕ) → k < length numbers.now → IsPlacedOn ready.now.images.shape
        (placement_at ready.now.images.placements (slice_index numbers.now k)) }
    requires few { length corners.now ≤ 64 }
    ensures exact { (g : ℕ) (changes : Deltas) → g < 64 →
        changes.shape ≡ ready.now.images.shape → HasNumbers corners.now g changes →
        (bit_at result g ≡ 1) ↔ ((bit_at before g ≡ 1)
        ⊎ IsMetBy ready.now.images.placements numbers.now words.now g changes) }
    ensures among { (g : ℕ) → g < 64 → bit_at result g ≡ 1 →
        (bit_at before g ≡ 1) ⊎ IsInWords words.now g }
{
    let mut met = before;
    for k in 0..numbers.len() {
        met |= games_met(ready, numbers[k], words[k] & !met, corners);
    }
    met
}

// Those of the games of which each corner that a placement covers had its cells. Mostly there is no
// game, and then the placement's corners aren't looked up.
fn games_met(ready: &ReadyImages, number: u32, games: u64, corners: &[&CornerKeys]) -> u64
    requires in_range { number < length ready.now.images.placements }
    requires placed { IsPlacedOn ready.now.images.shape
        (placement_at ready.now.images.placements number) }
    requires few { length corners.now ≤ 64 }
    ensures those { AreThose ready.now.images.shape corners.now
        (λ changes. HadCorners changes (placement_at ready.now.images.placements number))
        games result }
    ensures among { AreAmong result games }
{
    if games == 0 {
        return 0;
    }
    games_with_corners(ready.corners_of(number), games, corners)
}
