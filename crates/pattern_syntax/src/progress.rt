// How far a text was read, and what its next byte does.
ghost use Rattle.std.specs.Prelude.{
  ◌≡◌,
  ◌≢◌,
  ◌+◌,
  ◌++◌,
  ◌<◌,
  ◌≤◌,
  ◌⊎◌,
  [],
  ℕ,
  List,
  length,
  slice_index,
  MatchOption,
  option_to_list,
};
ghost use Rattle.kb_geometry.specs.Board.{cols_of, rows_of};
ghost use Rattle.pattern_images.specs.declared.cell.PatternCell.{PatternCell};
ghost use Rattle.pattern_syntax.specs.Text.{slash, cell_byte};
ghost use Rattle.pattern_syntax.specs.Faults.{HasPatternFault};
ghost use Rattle.pattern_syntax.specs.Reading.{IsPatternReadTo, closed_rows, closed_cols};

use crate::cell_bytes::{SLASH, cell_of};
use kb_geometry::{MAX_SIDE, Shape};
use pattern_images::PatternCell;

// How far a text was read.
#[derive(Clone, Copy)]
pub(crate) struct Progress {
    // The size of the rows that are closed by their `/`, if there are some.
    closed: Option<Shape>,
    // How many cells the row that isn't closed has so far.
    width: u8,
}

// What a byte does.
#[derive(Clone, Copy)]
pub(crate) struct Step {
    // How far the text then is read.
    pub(crate) next: Progress,
    // The cell of the byte, unless it is a `/`.
    pub(crate) cell: Option<PatternCell>,
}

impl Progress {
    // Nothing was read.
    pub(crate) fn start() -> Self
        ensures { (text : List ℕ) → IsPatternReadTo text 0 result [] }
    {
        Progress {
            closed: None,
            width: 0,
        }
    }

    // The size of all rows, with the one that isn't closed as the last one. `None` where that one
    // is empty, or where it isn't as long as the others.
    pub(crate) fn size(self) -> Option<Shape>
        requires { closed_rows self.closed < 52 }
        ensures { MatchOption result
            ((self.width ≡ 0) ⊎ (52 < self.width)
            ⊎ ((0 < closed_rows self.closed) × (closed_cols self.closed ≢ self.width)))
            (λ size. (rows_of size ≡ closed_rows self.closed + 1) × (cols_of size ≡ self.width)
            × ((closed_rows self.closed ≡ 0) ⊎ (closed_cols self.closed ≡ self.width))) }
    {
        let rows = match self.closed {
            None => 0,
            Some(closed) => {
                if closed.cols() != self.width {
                    return None;
                }
                closed.rows()
            }
        };
        Shape::new(self.width, rows + 1)
    }

    // What the next byte of the text does. `None` where it is a fault.
    pub(crate) fn after(self, byte: u8) -> Option<Step>
        requires { closed_rows self.closed < 52 }
        ensures { (text : List ℕ) (k : ℕ) (cells : List PatternCell) →
            IsPatternReadTo text k self cells → k < length text → slice_index text k ≡ byte →
            MatchOption result (HasPatternFault text k)
            (λ step. IsPatternReadTo text (k + 1) step.next (cells
            ++ option_to_list step.cell)) }
    {
        if byte == SLASH {
            self.after_slash()
        } else {
            self.after_cell(cell_of(byte)?)
        }
    }

    // What a `/` does.
    fn after_slash(self) -> Option<Step>
        requires { closed_rows self.closed < 52 }
        ensures { (text : List ℕ) (k : ℕ) (cells : List PatternCell) →
            IsPatternReadTo text k self cells → k < length text → slice_index text k ≡ slash →
            MatchOption result (HasPatternFault text k)
            (λ step. IsPatternReadTo text (k + 1) step.next (cells
            ++ option_to_list step.cell)) }
    {
        let closed = self.size()?;
        if closed.rows() == MAX_SIDE {
            return None;
        }
        Some(Step {
            next: Progress {
                closed: Some(closed),
                width: 0,
            },
            cell: None,
        })
    }

    // What the byte of a cell does.
    fn after_cell(self, cell: PatternCell) -> Option<Step>
        ensures { (text : List ℕ) (k : ℕ) (cells : List PatternCell) →
            IsPatternReadTo text k self cells → k < length text →
            slice_index text k ≡ cell_byte cell →
            MatchOption result (HasPatternFault text k)
            (λ step. IsPatternReadTo text (k + 1) step.next (cells
            ++ option_to_list step.cell)) }
    {
        let width = one_wider(self.width)?;
        Some(Step {
            next: Progress {
                closed: self.closed,
                width,
            },
            cell: Some(cell),
        })
    }
}

// The length of a row with one cell more. `None` where it has as many as a row may have.
fn one_wider(width: u8) -> Option<u8>
    ensures { MatchOption result (52 ≤ width) (λ wider. (width < 52) × (wider ≡ width + 1)) }
{
    if width < MAX_SIDE {
        Some(width + 1)
    } else {
        None
    }
}
