// When a point has its stone, packed in one word.
ghost use Rattle.std.specs.Prelude.{◌≡◌, ◌<◌, ◌≤◌, ◌⊎◌, ◌↔◌, ℕ, IsTrue};
ghost use Rattle.kb_geometry.specs.Capture.{stone_of};
ghost use Rattle.capture_index.specs.Times.{FitsWord, HasStoneAt, IsColourTold, is_many, stone_by, told_by};

use kb_geometry::{Cell, Colour};
use std::mem::size_of;

// When a point has which stone.
#[derive(Clone, Copy, Debug)]
pub(crate) enum Time {
    // The point is empty before the node, and has this stone from it on.
    First { node: u16, stone: Colour },
    // The list of runs with this number tells.
    Many { list: u16 },
    // The point is empty at each node.
    Never,
}

// A time in one word. Contracts speak of the time that it tells.
//
// Below twice `NEVER`: twice the first node with a stone, and 1 more where it is white. From `MANY` on:
// `MANY` and the number of a list. Between them: never.
#[derive(Clone, Copy, Debug)]
pub(crate) struct PackedTime {
    word: u16,
}

const _: () = prove!(size_of::<PackedTime>() == 2);

// From here on a word is the number of a list of runs.
pub(crate) const MANY: u16 = 32_768;

// The first node that no word tells.
pub(crate) const NEVER: u16 = 16_383;

impl Time {
    // The word that tells it.
    pub(crate) fn packed(self) -> PackedTime
        requires { FitsWord self }
        ensures { told_by result ≡ self }
    {
        match self {
            Time::First { node, stone } => PackedTime {
                word: match stone {
                    Colour::Black => 2 * node,
                    Colour::White => 2 * node + 1,
                },
            },
            Time::Many { list } => PackedTime { word: MANY + list },
            Time::Never => PackedTime { word: 2 * NEVER },
        }
    }

    // Whether a list of runs tells.
    pub(crate) fn is_many(self) -> bool
        ensures { result ≡ is_many self }
    {
        match self {
            Time::First { node: _, stone: _ } => false,
            Time::Many { list: _ } => true,
            Time::Never => false,
        }
    }
}

impl PackedTime {
    // That of a point with a stone at each node.
    pub(crate) fn at_root() -> PackedTime
        ensures { (n : ℕ) → HasStoneAt (told_by result) n }
    {
        PackedTime { word: 0 }
    }

    // The time that it tells.
    pub(crate) fn unpack(self) -> Time
        ensures { result ≡ told_by self }
    {
        if self.word >= MANY {
            return Time::Many {
                list: self.word - MANY,
            };
        }
        if self.word >= 2 * NEVER {
            return Time::Never;
        }
        Time::First {
            node: self.word / 2,
            stone: stone_by(self.word),
        }
    }

    // Whether a point with one run has its stone at the node.
    pub(crate) fn has_stone_at(self, node: u32) -> bool
        ensures { IsTrue result ↔ HasStoneAt (told_by self) node }
    {
        // In a loop over points the right side is made once.
        u32::from(self.word) < 2 * node.min(u32::from(NEVER) - 1) + 2
    }

    // Whether the stone that it tells, if it tells one, is white or else black, as is asked.
    pub(crate) fn has_colour(self, white: bool) -> bool
        ensures { IsColourTold white result (told_by self) }
    {
        let is_white = self.word % 2 == 1;
        if white { is_white } else { !is_white }
    }

    // Of two points with one run at most the time of the one that has its stone last.
    pub(crate) fn later_of(self, other: PackedTime) -> PackedTime
        ensures { (n : ℕ) → HasStoneAt (told_by result) n ↔
            (HasStoneAt (told_by self) n × HasStoneAt (told_by other) n) }
    {
        PackedTime {
            word: self.word.max(other.word),
        }
    }

    // Of two points with one run at most the time of the one that has its stone first.
    pub(crate) fn earlier_of(self, other: PackedTime) -> PackedTime
        ensures { (n : ℕ) → HasStoneAt (told_by result) n ↔
            (HasStoneAt (told_by self) n ⊎ HasStoneAt (told_by other) n) }
    {
        PackedTime {
            word: self.word.min(other.word),
        }
    }

    // The first of the nodes before `end` at which a point with one run has its stone, if it has it
    // before.
    pub(crate) fn begin_before(self, end: u32) -> u32
        ensures { (n : ℕ) → n < end → (result ≤ n) ↔ HasStoneAt (told_by self) n }
    {
        match self.unpack() {
            Time::First { node, stone: _ } => u32::from(node),
            Time::Many { list: _ } => end,
            Time::Never => end,
        }
    }

    // The end of those of the nodes before `to` at which a point with one run at most has no stone.
    pub(crate) fn end_before(self, to: u32) -> u32
        ensures { (n : ℕ) → n < result ↔ ((n < to) × ¬ HasStoneAt (told_by self) n) }
    {
        match self.unpack() {
            Time::First { node, stone: _ } => to.min(u32::from(node)),
            Time::Many { list: _ } => to,
            Time::Never => to,
        }
    }
}

// The stone of a word that tells a node.
fn stone_by(word: u16) -> Colour
    ensures { result ≡ stone_by word }
{
    if word % 2 == 1 {
        Colour::White
    } else {
        Colour::Black
    }
}

// The cell of a point with this stone.
pub(crate) fn cell_of(stone: Colour) -> Cell
    ensures { result ≡ stone_of stone }
{
    match stone {
        Colour::Black => Cell::Black,
        Colour::White => Cell::White,
    }
}
