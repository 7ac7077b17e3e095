// A row of a rectangle of pattern cells as words.
ghost use Rattle.std.specs.Prelude.{◌≡◌, ◌↔◌, ◌+◌, ◌*◌, ◌<◌, ℕ, IsTrue, length, slice_index_or};
ghost use Rattle.line_matcher.specs.Masks.{FitsRow, HasBit, IsUnder, TouchesAt, asks_black};
ghost use Rattle.line_matcher.specs.Masks.{asks_white, care_of, is_black, is_white, no_mask};

use kb_bits::BitBoard;
use kb_geometry::Colour;
use pattern_images::PatternCell;

// A row of pattern cells. Bit k of each word tells of the cell in column k, and is 0 behind the
// row's end.
#[derive(Clone, Copy, Debug)]
pub(crate) struct RowMask {
    // The cells that ask whether a black stone is there.
    black_care: u64,
    // Of these the ones that want one.
    black: u64,
    // The cells that ask whether a white stone is there.
    white_care: u64,
    // Of these the ones that want one.
    white: u64,
}

impl RowMask {
    ghost use Rattle.line_matcher.specs.Masks.{IsWithCell};

    // A row without a cell.
    pub(crate) fn empty() -> Self
        ensures { result ≡ no_mask }
    {
        RowMask {
            black_care: 0,
            black: 0,
            white_care: 0,
            white: 0,
        }
    }

    // The row with this cell in column k, in which none stood.
    pub(crate) fn with_cell(self, k: u8, cell: PatternCell) -> Self
        requires { k < 64 }
        ensures { IsWithCell self k cell result }
    {
        RowMask {
            black_care: with_bit(self.black_care, k, asks_black(cell)),
            black: with_bit(self.black, k, is_black(cell)),
            white_care: with_bit(self.white_care, k, asks_white(cell)),
            white: with_bit(self.white, k, is_white(cell)),
        }
    }

    // The cells that ask whether a stone of the colour is there.
    fn care(&self, colour: Colour) -> u64
        ensures { result ≡ care_of colour self.now }
    {
        match colour {
            Colour::Black => self.black_care,
            Colour::White => self.white_care,
        }
    }

    // Whether the row's cells allow the board's cells from a point on, of which the black and the
    // white ones are told.
    fn fits(&self, black: &BitBoard, white: &BitBoard, start: u16) -> bool
        ensures { IsTrue result ↔ FitsRow self.now black.now white.now start }
    {
        is_under(self.black, self.black_care, black, start)
            && is_under(self.white, self.white_care, white, start)
    }

    // Whether one of the points lies under a cell of the row that asks whether a stone of the
    // colour is there.
    fn touches(&self, colour: Colour, points: &BitBoard, start: u16) -> bool
        ensures { IsTrue result ↔
            ((k : ℕ) × TouchesAt (care_of colour self.now) points.now start k) }
    {
        lies_under(self.care(colour), points, start)
    }
}

// Whether each row fits the board. The first one stands on the points from `first` on, and each
// other one `cols` points behind the one above it.
pub(crate) fn rows_fit(
    rows: &[RowMask],
    black: &BitBoard,
    white: &BitBoard,
    first: u16,
    cols: u16,
) -> bool
    requires { first + length rows.now * cols < 65536 }
    ensures { IsTrue result ↔ ((dy : ℕ) → dy < length rows.now →
        FitsRow (slice_index_or rows.now dy no_mask) black.now white.now (first + dy * cols)) }
{
    let mut start = first;
    for row in rows {
        if !row.fits(black, white, start) {
            return false;
        }
        start += cols;
    }
    true
}

// Whether one of the points lies under a cell of the rows that asks whether a stone of the colour
// is there. The rows stand as in `rows_fit`.
pub(crate) fn rows_touch(
    rows: &[RowMask],
    colour: Colour,
    points: &BitBoard,
    first: u16,
    cols: u16,
) -> bool
    requires { first + length rows.now * cols < 65536 }
    ensures { IsTrue result ↔ ((dy : ℕ) × (dy < length rows.now) × ((k : ℕ) ×
        TouchesAt (care_of colour (slice_index_or rows.now dy no_mask)) points.now
        (first + dy * cols) k)) }
{
    let mut start = first;
    for row in rows {
        if row.touches(colour, points, start) {
            return true;
        }
        start += cols;
    }
    false
}

// Whether the word is that of the points from `start` on that lie under a bit of `care`.
fn is_under(word: u64, care: u64, points: &BitBoard, start: u16) -> bool
    ensures { IsTrue result ↔ IsUnder word care points.now start }
{
    points.window(start) & care == word
}

// Whether one of the points from `start` on lies under a bit of `care`.
fn lies_under(care: u64, points: &BitBoard, start: u16) -> bool
    ensures { IsTrue result ↔ ((k : ℕ) × TouchesAt care points.now start k) }
{
    points.window(start) & care != 0
}

// The word with one bit more, if it is to be set.
fn with_bit(word: u64, k: u8, set: bool) -> u64
    requires { k < 64 }
    ensures { HasBit word k set result }
{
    if set { word | 1 << k } else { word }
}

// Whether the cell asks whether a black stone is there.
fn asks_black(cell: PatternCell) -> bool
    ensures { result ≡ asks_black cell }
{
    !matches!(cell, PatternCell::NotWhite | PatternCell::Any)
}

// Whether the cell asks whether a white stone is there.
fn asks_white(cell: PatternCell) -> bool
    ensures { result ≡ asks_white cell }
{
    !matches!(cell, PatternCell::NotBlack | PatternCell::Any)
}

// Whether the cell wants a black stone.
fn is_black(cell: PatternCell) -> bool
    ensures { result ≡ is_black cell }
{
    matches!(cell, PatternCell::Black)
}

// Whether the cell wants a white stone.
fn is_white(cell: PatternCell) -> bool
    ensures { result ≡ is_white cell }
{
    matches!(cell, PatternCell::White)
}
