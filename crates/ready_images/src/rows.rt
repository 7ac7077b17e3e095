// The placements of images in rows.
ghost use Rattle.std.specs.Prelude.{◌≡◌, ◌<◌, ◌≤◌, ◌+◌, ℕ, [], IfOk, IsTrue, OnOk, length, map};
ghost use Rattle.pattern_images.specs.ImageList.{AreImages, placement_at};
ghost use Rattle.ready_images.specs.Placing.{
  AreByClass,
  AreOfClass,
  ArePlacedTo,
  IsRowGrown,
  list_at,
};
ghost use Rattle.ready_images.specs.Rows.{AreRowsOf, AreRowsTo};
ghost use Rattle.ready_images.specs.Wants.{base_of};

use crate::row::Row;
use kb_geometry::{NoMemory, Point};
use pattern_images::{Images, Place};
use std::alloc::Global;

// The numbers of all placements, class by class and row by row, and the rows.
#[derive(Debug, Drop)]
pub(crate) struct MadeRows {
    pub(crate) numbers: Vec<u32>,
    pub(crate) rows: Vec<Row>,
}

// The rows of the placements. These are gone over once to part them by class, and each class once.
pub(crate) fn rows_of(alloc: Global, images: &Images) -> Result<MadeRows, NoMemory>
    requires { length images.now.grids ≤ 16 }
    ensures rows { IfOk result (λ made.
        AreRowsOf images.now made.numbers.items made.rows.items) }
    ensures images { OnOk result (AreImages images.now) }
    ensures few { OnOk result (length images.now.placements ≤ 65536) }
{
    let classes = by_class(alloc, images)?;
    let mut made = MadeRows {
        numbers: Vec::with_capacity(alloc, images.len())?,
        rows: Vec::new(alloc),
    };
    for class in 0..images.class_count() {
        add_class(images, class as u8, &classes[class], &mut made)?;
    }
    Ok(made)
}

// The numbers of the placements of each class, ascending.
fn by_class(alloc: Global, images: &Images) -> Result<Vec<Vec<u32>>, NoMemory>
    ensures count { IfOk result (λ lists. length lists.items ≡ length images.now.grids) }
    ensures each { IfOk result (λ lists. AreByClass images.now (length images.now.placements)
        (map (λ v. v.items) lists.items)) }
    ensures few { OnOk result (length images.now.placements ≤ 65536) }
{
    let mut lists = no_lists(alloc, images.class_count())?;
    for i in 0..images.len() {
        lists[images.class_of(i)].push(i as u32)?;
    }
    Ok(lists)
}

// So many empty lists.
fn no_lists(alloc: Global, count: usize) -> Result<Vec<Vec<u32>>, NoMemory>
    ensures count { IfOk result (λ lists. length lists.items ≡ count) }
    ensures empty { IfOk result (λ lists. (c : ℕ) →
        list_at (map (λ v. v.items) lists.items) c ≡ []) }
{
    let mut lists = Vec::with_capacity(alloc, count)?;
    for _class in 0..count {
        lists.push(Vec::new(alloc))?;
    }
    Ok(lists)
}

// Adds the placements of a class, whose numbers these are, and their rows.
fn add_class(
    images: &Images,
    class: u8,
    of_class: &[u32],
    made: &mut MadeRows,
) -> Result<(), NoMemory>
    requires in_range { class < length images.now.grids }
    requires of_class { AreOfClass images.now class (length images.now.placements) of_class.now }
    requires placed { ArePlacedTo images.now class 0 made.old.numbers.items }
    requires rows { AreRowsTo images.now made.old.numbers.items made.old.rows.items }
    ensures placed { OnOk result (ArePlacedTo images.now class (length images.now.placements)
        made.new.numbers.items) }
    ensures rows { OnOk result (AreRowsTo images.now made.new.numbers.items made.new.rows.items) }
{
    for i in of_class {
        let start = made.numbers.len();
        add_to_rows(class, base(images, *i as usize), start, &mut made.rows)?;
        made.numbers.push(*i)?;
    }
    Ok(())
}

// The number of the upper left point of a placement.
pub(crate) fn base(images: &Images, i: usize) -> u16
    requires { i < length images.now.placements }
    ensures value { result ≡ base_of images.now.shape (placement_at images.now.placements i) }
    ensures images { AreImages images.now }
{
    let Place { x, y, .. } = images.place(i);
    images.shape().number(Point { x, y })
}

// Adds a placement with this base, which stands behind all others in the list: to the last row, if
// it goes on there, or as the first of a new row.
fn add_to_rows(class: u8, base: u16, start: usize, rows: &mut Vec<Row>) -> Result<(), NoMemory>
    ensures { OnOk result (IsRowGrown class base start rows.old.items rows.new.items) }
{
    let count = rows.len();
    if count > 0 && goes_on(rows[count - 1], class, base) {
        rows[count - 1].count += 1;
        return Ok(());
    }
    rows.push(Row {
        class,
        base,
        start,
        count: 1,
    })?;
    Ok(())
}

// Whether a placement of this class with this base stands behind those of the row.
fn goes_on(row: Row, class: u8, base: u16) -> bool
    ensures { IsTrue result → (row.class ≡ class) × (base ≡ row.base + row.count) }
{
    row.class == class && row.base <= base && usize::from(base - row.base) == row.count
}
