// In which order wants stand.
ghost use Rattle.std.specs.Prelude.{◌≡◌};
ghost use Rattle.ready_images.specs.Wants.{rank_of};

use pattern_images::PatternCell;

// The ranks of cells: their wants stand in this order, and wildcards have none.
pub(crate) const STONE: u8 = 0;

pub(crate) const MIXED: u8 = 1;

pub(crate) const EMPTY: u8 = 2;

const WILDCARD: u8 = 3;

// Where a cell's want stands among those of a class.
pub(crate) fn rank_of(cell: PatternCell) -> u8
    ensures { result ≡ rank_of cell }
{
    match cell {
        PatternCell::Black | PatternCell::White => STONE,
        PatternCell::NotWhite | PatternCell::NotBlack => MIXED,
        PatternCell::Empty => EMPTY,
        PatternCell::Any => WILDCARD,
    }
}
