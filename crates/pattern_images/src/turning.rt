// The cells of a pattern under a label.
ghost use Rattle.std.specs.Prelude.{◌≡◌, ◌+◌, ◌*◌, ◌<◌, IfOk};
ghost use Rattle.kb_geometry.specs.Board.{cols_of, rows_of};
ghost use Rattle.kb_geometry.specs.Symmetry.{
  inverse_number,
  number_of_label,
  number_of_symmetry,
  symmetry_of,
  turned_cols,
  turned_rows,
};
ghost use Rattle.pattern_images.specs.Grid.{labelled_cell};
ghost use Rattle.pattern_images.specs.Pattern.{grid_of, size_of};
ghost use Rattle.pattern_images.specs.Turned.{
  turned_cell,
  grid_by,
  AreFilledTo,
  IsCellTable,
  AreStrides,
  looked_up,
};

use crate::{Pattern, PatternCell};
use kb_geometry::{Label, Shape, Symmetry, inverse};
use std::alloc::{AllocError, Global};

// Where the cells of a turned rectangle come from: a cell's number in the rectangle before it is
// turned is `forward` for each cell to its left in the turned rectangle, `backward` for each to its
// right, `down` for each row above it, and `up` for each row below it, all added up.
#[derive(Clone, Copy, Debug)]
struct Strides {
    forward: u8,
    backward: u8,
    down: u8,
    up: u8,
}

impl Strides {
    fn new(forward: u8, backward: u8, down: u8, up: u8) -> Self
        ensures { result
            ≡ record { forward = forward; backward = backward; down = down; up = up } }
    {
        Strides {
            forward,
            backward,
            down,
            up,
        }
    }

    // The part of a cell's number that its row gives.
    fn base(self, above: u8, below: u8) -> usize
        ensures value { result ≡ above * self.down + below * self.up }
        ensures small { result < 131072 }
    {
        let before = usize::from(above) * usize::from(self.down);
        let behind = usize::from(below) * usize::from(self.up);
        before + behind
    }

    // A cell's number, by the part that its row gives.
    fn at(self, base: usize, left: usize, right: usize) -> usize
        requires base { base < 131072 }
        requires left { left < 256 }
        requires right { right < 256 }
        ensures { result ≡ base + left * self.forward + right * self.backward }
    {
        let before = left * usize::from(self.forward);
        let behind = right * usize::from(self.backward);
        base + before + behind
    }
}

// The cells of the pattern under the label, row by row. Their rectangle has the size `to`.
pub(crate) fn turned_cells(
    alloc: Global,
    pattern: &Pattern,
    label: Label,
    to: Shape,
) -> Result<Vec<PatternCell>, AllocError>
    requires cols { cols_of to
        ≡ turned_cols (symmetry_of (number_of_label label)) (size_of pattern.now) }
    requires rows { rows_of to
        ≡ turned_rows (symmetry_of (number_of_label label)) (size_of pattern.now) }
    ensures { IfOk result (λ cells. cells.items
        ≡ (grid_by to (turned_cell (number_of_label label) to (grid_of pattern.now))).cells) }
{
    let strides = strides_of(inverse(label.symmetry()), to);
    let table = table_of(label);
    let mut cells = vec![in alloc; PatternCell::Any; usize::from(to.count())]?;
    for y in 0..to.rows() {
        fill_row(pattern, label, to, strides, &table, y, &mut cells);
    }
    Ok(cells)
}

// Fills in the cells of one row of the pattern under the label, behind those of the rows above it.
fn fill_row(
    pattern: &Pattern,
    label: Label,
    to: Shape,
    strides: Strides,
    table: &CellTable,
    y: u8,
    cells: &mut [PatternCell],
)
    requires cols { cols_of to
        ≡ turned_cols (symmetry_of (number_of_label label)) (size_of pattern.now) }
    requires rows { rows_of to
        ≡ turned_rows (symmetry_of (number_of_label label)) (size_of pattern.now) }
    requires strides { AreStrides (inverse_number (symmetry_of (number_of_label label))) to strides }
    requires table { IsCellTable (number_of_label label) table.now }
    requires row { y < rows_of to }
    requires above { AreFilledTo to (turned_cell (number_of_label label) to (grid_of pattern.now))
        (y * cols_of to) cells.old }
    ensures { AreFilledTo to (turned_cell (number_of_label label) to (grid_of pattern.now))
        ((y + 1) * cols_of to) cells.new }
{
    let from = pattern.cells();
    let cols = usize::from(to.cols());
    let last = usize::from(to.cols() - 1);
    let base = strides.base(y, to.rows() - 1 - y);
    let start = usize::from(y) * cols;
    for x in 0..cols {
        let cell = from[strides.at(base, x, last - x)];
        cells[start + x] = table.look_up(cell);
    }
}

// Where the symmetry moves the points of a rectangle of this size. By the inverse of a label's
// symmetry, that is where the cells of the turned rectangle come from.
fn strides_of(back: Symmetry, to: Shape) -> Strides
    ensures { AreStrides (number_of_symmetry back) to result }
{
    let cols = to.cols();
    let rows = to.rows();
    match back.number() {
        0 => Strides::new(1, 0, cols, 0),
        1 => Strides::new(0, 1, cols, 0),
        2 => Strides::new(1, 0, 0, cols),
        3 => Strides::new(0, 1, 0, cols),
        4 => Strides::new(rows, 0, 1, 0),
        5 => Strides::new(0, rows, 1, 0),
        6 => Strides::new(rows, 0, 0, 1),
        _ => Strides::new(0, rows, 0, 1),
    }
}

// What a label makes of each cell, in the order in which the cells are declared. It is made once
// for each label, so that no cell of a pattern costs a test.
#[derive(Clone, Copy, Debug)]
struct CellTable {
    made: [PatternCell; 6],
}

impl CellTable {
    // What the label makes of a cell.
    fn look_up(&self, cell: PatternCell) -> PatternCell
        ensures { result ≡ looked_up self.now cell }
    {
        self.made[usize::from(cell as u8)]
    }
}

// The table of a label.
fn table_of(label: Label) -> CellTable
    ensures { IsCellTable (number_of_label label) result }
{
    CellTable {
        made: [
            labelled(label, PatternCell::Empty),
            labelled(label, PatternCell::Black),
            labelled(label, PatternCell::White),
            labelled(label, PatternCell::NotWhite),
            labelled(label, PatternCell::NotBlack),
            labelled(label, PatternCell::Any),
        ],
    }
}

// What the label makes of a cell.
fn labelled(label: Label, cell: PatternCell) -> PatternCell
    ensures { result ≡ labelled_cell (number_of_label label) cell }
{
    if label.exchanged() {
        cell.exchanged()
    } else {
        cell
    }
}
