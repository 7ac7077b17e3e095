// Which cells are wanted on a point.
ghost use Rattle.std.specs.Prelude.{◌≡◌};
ghost use Rattle.capture_index.specs.Stretches.{is_wanted};

use kb_geometry::Cell;
use ready_images::Want;

// Whether the cell is one of those that are wanted.
pub(crate) fn is_wanted(want: Want, cell: Cell) -> bool
    ensures { result ≡ is_wanted want cell }
{
    want.cell.allows(cell)
}
