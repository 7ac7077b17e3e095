// How the cells of positions are packed in words, of which the order is that of positions.
ghost use Rattle.std.specs.Prelude.{◌≡◌, ◌<◌, ◌≤◌};
ghost use Rattle.opening_tree.specs.Canonical.{rank_of};
ghost use Rattle.opening_tree.specs.Packing.{IsWithDigit, place_of, words_for};

use kb_geometry::Cell;

// How many cells a word has: two bits each, the first cell in the highest ones.
pub(crate) const CELLS: u16 = 32;

// How many words have the cells of so many points.
pub(crate) fn words_for(points: u16) -> usize
    ensures { result ≡ words_for points }
{
    (usize::from(points) + 31) / 32
}

// A cell as two bits: empty before black before white.
pub(crate) fn bits_of(cell: Cell) -> u64
    ensures value { result ≡ rank_of cell }
    ensures below { result < 3 }
{
    match cell {
        Cell::Empty => 0,
        Cell::Black => 1,
        Cell::White => 2,
    }
}

// The place of a cell in its word, from the lowest bits on.
pub(crate) fn place_of(point: u16) -> u16
    ensures value { result ≡ place_of point }
    ensures most { result < 32 }
{
    CELLS - 1 - point % CELLS
}

// The word with other bits at a place.
pub(crate) fn with_bits(word: u64, place: u16, bits: u64) -> u64
    requires place { place < 32 }
    requires bits { bits < 3 }
    ensures { IsWithDigit word place bits result }
{
    let shift = 2 * place;
    (word & !(3 << shift)) | (bits << shift)
}
