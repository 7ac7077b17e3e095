// What the classes of images ask of points.
ghost use Rattle.std.specs.Prelude.{◌≡◌, ◌+◌, ◌*◌, ◌<◌, IfOk, OnOk, length};
ghost use Rattle.kb_geometry.specs.Board.{cols_of, point_count, rows_of};
ghost use Rattle.pattern_images.specs.ImageList.{grid_at};
ghost use Rattle.ready_images.specs.StoredWants.{
  ArePartedOn,
  HaveWantsTo,
  IsClassAdded,
  IsWantPut,
  grid_with,
};

use crate::ranks::{EMPTY, MIXED, STONE, rank_of};
use crate::want::Want;
use crate::want_lists::{ClassRange, MadeWants, WantLists};
use kb_geometry::{NoMemory, Shape};
use pattern_images::{Images, PatternCell};
use std::alloc::Global;

// The wants of all classes.
pub(crate) fn wants_of(alloc: Global, images: &Images) -> Result<MadeWants, NoMemory>
    ensures { IfOk result (λ made. HaveWantsTo images.now.shape images.now.grids
        (length images.now.grids) made.classes.items made.wants.items) }
{
    let count = images.class_count();
    let mut classes = Vec::with_capacity(alloc, count)?;
    let mut lists = WantLists {
        wants: Vec::with_capacity(alloc, most_wants(images))?,
        mixed: Vec::new(alloc),
        empties: Vec::new(alloc),
    };
    for class in 0..count {
        classes.push(add_wants(images, class, &mut lists)?)?;
    }
    Ok(MadeWants {
        wants: lists.wants,
        classes,
    })
}

// At most as many wants as the classes have cells. All have as many cells, since they are one pattern
// turned.
fn most_wants(images: &Images) -> usize {
    let count = images.class_count();
    if count == 0 {
        return 0;
    }
    images.class_cells(0).len().saturating_mul(count)
}

// Adds the wants of a class, and tells where they stand. What else is in the lists is written over.
fn add_wants(images: &Images, class: usize, lists: &mut WantLists) -> Result<ClassRange, NoMemory>
    requires { class < length images.now.grids }
    ensures { IfOk result (λ range. IsClassAdded images.now.shape
        (grid_at images.now.grids class) range lists.old.wants.items lists.new.wants.items) }
{
    lists.mixed.clear();
    lists.empties.clear();
    let start = lists.wants.len();
    let size = images.class_size(class);
    let cells = images.class_cells(class);
    for y in 0..size.rows() {
        add_row(images.shape(), size, cells, y, lists)?;
    }
    let mixed = lists.wants.len();
    lists.wants.extend_from_slice(&lists.mixed)?;
    let empties = lists.wants.len();
    lists.wants.extend_from_slice(&lists.empties)?;
    Ok(ClassRange {
        start,
        mixed,
        empties,
        end: lists.wants.len(),
    })
}

// Adds the wants of the cells in a row of a rectangle but of wildcards.
fn add_row(
    shape: Shape,
    size: Shape,
    cells: &[PatternCell],
    y: u8,
    lists: &mut WantLists,
) -> Result<(), NoMemory>
    requires count { length cells.now ≡ point_count size }
    requires row { y < rows_of size }
    ensures { OnOk result (ArePartedOn shape (grid_with size cells.now) (y * cols_of size)
        ((y + 1) * cols_of size) lists.old lists.new) }
{
    let cols = usize::from(size.cols());
    let first = usize::from(y) * cols;
    let offset = u16::from(y) * u16::from(shape.cols());
    for x in 0..cols {
        add_cell(cells[first + x], offset + x as u16, lists)?;
    }
    Ok(())
}

// Adds the want of a cell that stands so far behind the upper left one.
fn add_cell(cell: PatternCell, offset: u16, lists: &mut WantLists) -> Result<(), NoMemory>
    ensures stones { OnOk result
        (IsWantPut STONE cell offset lists.old.wants.items lists.new.wants.items) }
    ensures mixed { OnOk result
        (IsWantPut MIXED cell offset lists.old.mixed.items lists.new.mixed.items) }
    ensures empties { OnOk result
        (IsWantPut EMPTY cell offset lists.old.empties.items lists.new.empties.items) }
{
    let want = Want { offset, cell };
    let rank = rank_of(cell);
    // Most cells of a large pattern are empty.
    if rank == EMPTY {
        lists.empties.push(want)?;
        return Ok(());
    }
    if rank == STONE {
        lists.wants.push(want)?;
        return Ok(());
    }
    if rank == MIXED {
        lists.mixed.push(want)?;
        return Ok(());
    }
    Ok(())
}
