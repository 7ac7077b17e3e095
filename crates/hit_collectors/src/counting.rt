// Which number of a tally counts a hit.
ghost use Rattle.std.specs.Prelude.{◌≡◌, ◌<◌, ◌≤◌};
ghost use Rattle.hit_collectors.specs.Tallies.{
  counted_by,
  number_of_next,
  number_of_outcome,
  number_count,
};

use crate::Kind;
use kb_geometry::Outcome;
use pattern_images::{Hit, Next};

// How many moves a phase has.
const MOVES_OF_PHASE: u32 = 10;

// The number of the last phase, which has no end.
const LAST_PHASE: u32 = 30;

// Which number of a tally of this kind counts the hit, from 0.
#[inline]
pub(crate) fn counted_by(kind: Kind, hit: &Hit) -> usize
    ensures value { result ≡ counted_by kind hit.now }
    ensures below { result < number_count kind }
{
    match kind {
        Kind::Total => 0,
        Kind::Labels => usize::from(hit.place.label.number()),
        Kind::Phases => (hit.moves / MOVES_OF_PHASE).min(LAST_PHASE) as usize,
        Kind::Outcomes => number_of_outcome(hit.outcome),
        Kind::Nexts => number_of_next(hit.next),
    }
}

// The number of a result in a tally by outcomes.
fn number_of_outcome(outcome: Outcome) -> usize
    ensures value { result ≡ number_of_outcome outcome }
    ensures below { result < 6 }
{
    match outcome {
        Outcome::Black => 0,
        Outcome::White => 1,
        Outcome::Draw => 2,
        Outcome::Void => 3,
        Outcome::Unknown => 4,
        Outcome::Other => 5,
    }
}

// The number of the way in which play goes on in a tally by these ways.
fn number_of_next(next: Option<Next>) -> usize
    ensures value { result ≡ number_of_next next }
    ensures below { result < 3 }
{
    match next {
        Some(next) => { if next.now { 0 } else { 1 } }
        None => 2,
    }
}

// How many numbers a tally of this kind has.
pub(crate) fn number_count(kind: Kind) -> usize
    ensures value { result ≡ number_count kind }
    ensures bound { result ≤ 31 }
{
    match kind {
        Kind::Total => 1,
        Kind::Labels => 16,
        Kind::Phases => 31,
        Kind::Outcomes => 6,
        Kind::Nexts => 3,
    }
}
