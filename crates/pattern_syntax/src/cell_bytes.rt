// The bytes of a pattern text.
ghost use Rattle.std.specs.Prelude.{◌≡◌, ◌≢◌, MatchOption};
ghost use Rattle.pattern_images.specs.declared.cell.PatternCell.{PatternCell};
ghost use Rattle.pattern_syntax.specs.Text.{cell_byte};

use pattern_images::PatternCell;

// Stands between two rows.
pub(crate) const SLASH: u8 = b'/';

// The cell of a byte, if it is the byte of one.
pub(crate) fn cell_of(byte: u8) -> Option<PatternCell>
    ensures { MatchOption result ((cell : PatternCell) → cell_byte cell ≢ byte)
        (λ cell. cell_byte cell ≡ byte) }
{
    match byte {
        b'.' => Some(PatternCell::Empty),
        b'X' => Some(PatternCell::Black),
        b'O' => Some(PatternCell::White),
        b'x' => Some(PatternCell::NotWhite),
        b'o' => Some(PatternCell::NotBlack),
        b'*' => Some(PatternCell::Any),
        _ => None,
    }
}

// The byte of a cell.
pub(crate) fn byte_of(cell: PatternCell) -> u8
    ensures { result ≡ cell_byte cell }
{
    match cell {
        PatternCell::Empty => b'.',
        PatternCell::Black => b'X',
        PatternCell::White => b'O',
        PatternCell::NotWhite => b'x',
        PatternCell::NotBlack => b'o',
        PatternCell::Any => b'*',
    }
}
