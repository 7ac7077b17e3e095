// How many hits, how many of them go on, and who won their games.
ghost use Rattle.std.specs.Prelude.{◌≡◌, []};
ghost use Rattle.continuation_table.specs.Counting.{IsWithinCount, counted};
ghost use Rattle.continuation_table.specs.Table.{is_colour, is_later, is_now, is_win, tally_of};

use crate::own_frame::own_colour;
use kb_geometry::{Colour, Outcome};
use pattern_images::Hit;

/// Six numbers of a list of hits. The sides are those of the pattern: where a hit's label exchanges
/// the colours, a game that White won is a win of the pattern's black.
#[derive(Clone, Copy, Debug, PartialEq, Eq, Hash)]
pub struct Tally {
    /// How many hits.
    pub count: u64,
    /// How many go on in the pattern's rectangle by the next move of the game.
    pub now: u64,
    /// How many go on there by a later move.
    pub later: u64,
    /// How many games the pattern's black won.
    pub black: u64,
    /// How many games the pattern's white won.
    pub white: u64,
    /// How many games neither is told to have won.
    pub other: u64,
}

impl Tally {
    // The tally of no hit.
    pub(crate) fn none() -> Self
        ensures { result ≡ tally_of [] }
    {
        Tally {
            count: 0,
            now: 0,
            later: 0,
            black: 0,
            white: 0,
            other: 0,
        }
    }

    // The tally with one hit more.
    pub(crate) fn with(self, hit: &Hit) -> Self
        requires { IsWithinCount 18446744073709551614 self }
        ensures { result ≡ counted self hit.now }
    {
        let black = wins(Colour::Black, hit);
        let white = wins(Colour::White, hit);
        Tally {
            count: self.count + 1,
            now: self.now + u64::from(goes_on_now(hit)),
            later: self.later + u64::from(goes_on_later(hit)),
            black: self.black + u64::from(black),
            white: self.white + u64::from(white),
            other: self.other + u64::from(!black && !white),
        }
    }
}

// Whether the hit goes on at once.
fn goes_on_now(hit: &Hit) -> bool
    ensures { result ≡ is_now hit.now }
{
    match hit.next {
        Some(next) => next.now,
        None => false,
    }
}

// Whether the hit goes on later.
fn goes_on_later(hit: &Hit) -> bool
    ensures { result ≡ is_later hit.now }
{
    match hit.next {
        Some(next) => !next.now,
        None => false,
    }
}

// Whether a side of the pattern won the hit's game.
fn wins(side: Colour, hit: &Hit) -> bool
    ensures { result ≡ is_win side hit.now }
{
    match hit.outcome {
        Outcome::Black => is_colour(side, own_colour(hit.place.label, Colour::Black)),
        Outcome::White => is_colour(side, own_colour(hit.place.label, Colour::White)),
        Outcome::Draw => false,
        Outcome::Void => false,
        Outcome::Unknown => false,
        Outcome::Other => false,
    }
}

// Whether two colours are one.
fn is_colour(a: Colour, b: Colour) -> bool
    ensures { result ≡ is_colour a b }
{
    match a {
        Colour::Black => match b {
            Colour::Black => true,
            Colour::White => false,
        },
        Colour::White => match b {
            Colour::Black => false,
            Colour::White => true,
        },
    }
}
