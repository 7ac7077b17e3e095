// The stones of the classes of images that stand beside empty cells.
ghost use Rattle.std.specs.Prelude.{◌≡◌, ◌<◌, ◌↔◌, ℕ, All, IfOk, IsTrue, OnOk, length, map};
ghost use Rattle.pattern_images.specs.ImageList.{grid_at};
ghost use Rattle.ready_images.specs.Pairs.{IsPairIn, IsStoneIn, pairs_at};
ghost use Rattle.ready_images.specs.StoredWants.{HaveWantsTo};
ghost use Rattle.ready_images.specs.Wants.{IsOfRank, IsWantIn};

use crate::pair::Pair;
use crate::want::Want;
use crate::want_lists::{ClassRange, MadeWants};
use kb_geometry::NoMemory;
use pattern_images::{Images, PatternCell};
use std::alloc::Global;

// The pairs of each class, by its wants.
pub(crate) fn pairs_of(
    alloc: Global,
    images: &Images,
    made: &MadeWants,
) -> Result<Vec<Vec<Pair>>, NoMemory>
    requires { HaveWantsTo images.now.shape images.now.grids (length images.now.grids)
        made.now.classes.items made.now.wants.items }
    ensures count { IfOk result (λ lists. length lists.items ≡ length images.now.grids) }
    ensures each { IfOk result (λ lists. (c : ℕ) → c < length images.now.grids →
        All (IsPairIn images.now.shape (grid_at images.now.grids c))
        (pairs_at (map (λ v. v.items) lists.items) c)) }
{
    let mut lists = Vec::with_capacity(alloc, images.class_count())?;
    for class in 0..images.class_count() {
        lists.push(class_pairs(alloc, images, class, made)?)?;
    }
    Ok(lists)
}

// The pairs of a class.
fn class_pairs(
    alloc: Global,
    images: &Images,
    class: usize,
    made: &MadeWants,
) -> Result<Vec<Pair>, NoMemory>
    requires in_range { class < length images.now.grids }
    requires wants { HaveWantsTo images.now.shape images.now.grids (length images.now.grids)
        made.now.classes.items made.now.wants.items }
    ensures { IfOk result (λ pairs. All (IsPairIn images.now.shape
        (grid_at images.now.grids class)) pairs.items) }
{
    let ClassRange { start, mixed, .. } = made.classes[class];
    let mut pairs = Vec::new(alloc);
    add_pairs_of(images, class, &made.wants[start..mixed], &mut pairs)?;
    Ok(pairs)
}

// Adds the pairs of these stones of a class.
fn add_pairs_of(
    images: &Images,
    class: usize,
    stones: &[Want],
    pairs: &mut Vec<Pair>,
) -> Result<(), NoMemory>
    requires in_range { class < length images.now.grids }
    requires wants { All (IsWantIn images.now.shape (grid_at images.now.grids class)) stones.now }
    requires stones { All (IsOfRank 0) stones.now }
    requires before { All (IsPairIn images.now.shape (grid_at images.now.grids class))
        pairs.old.items }
    ensures { OnOk result (All (IsPairIn images.now.shape (grid_at images.now.grids class))
        pairs.new.items) }
{
    for stone in stones {
        add_pairs(images, class, stone.offset, pairs)?;
    }
    Ok(())
}

// Adds the pairs of a stone that stands so far behind the upper left cell: with each of its four
// neighbours in line that must be empty. Past a side of the rectangle there is none.
fn add_pairs(
    images: &Images,
    class: usize,
    stone: u16,
    pairs: &mut Vec<Pair>,
) -> Result<(), NoMemory>
    requires in_range { class < length images.now.grids }
    requires stone { IsStoneIn images.now.shape (grid_at images.now.grids class) stone }
    requires before { All (IsPairIn images.now.shape (grid_at images.now.grids class))
        pairs.old.items }
    ensures { OnOk result (All (IsPairIn images.now.shape (grid_at images.now.grids class))
        pairs.new.items) }
{
    let cols = u16::from(images.shape().cols());
    let (x, y) = (stone % cols, stone / cols);
    add_pair(images, class, stone, (x.wrapping_add(1), y), pairs)?;
    add_pair(images, class, stone, (x.wrapping_sub(1), y), pairs)?;
    add_pair(images, class, stone, (x, y.wrapping_add(1)), pairs)?;
    add_pair(images, class, stone, (x, y.wrapping_sub(1)), pairs)?;
    Ok(())
}

// Adds the pair of a stone and of the cell in this column and row, if there is one that must be empty.
fn add_pair(
    images: &Images,
    class: usize,
    stone: u16,
    at: (u16, u16),
    pairs: &mut Vec<Pair>,
) -> Result<(), NoMemory>
    requires in_range { class < length images.now.grids }
    requires stone { IsStoneIn images.now.shape (grid_at images.now.grids class) stone }
    requires before { All (IsPairIn images.now.shape (grid_at images.now.grids class))
        pairs.old.items }
    ensures { OnOk result (All (IsPairIn images.now.shape (grid_at images.now.grids class))
        pairs.new.items) }
{
    let (x, y) = at;
    let size = images.class_size(class);
    let (cols, rows) = (u16::from(size.cols()), u16::from(size.rows()));
    if x >= cols || y >= rows {
        return Ok(());
    }
    if !is_empty(images.class_cells(class)[usize::from(y * cols + x)]) {
        return Ok(());
    }
    let empty = y * u16::from(images.shape().cols()) + x;
    pairs.push(Pair { stone, empty })?;
    Ok(())
}

// Whether the cell must be empty.
fn is_empty(cell: PatternCell) -> bool
    ensures { IsTrue result ↔ (cell ≡ PatternCell.Empty) }
{
    match cell {
        PatternCell::Empty => true,
        PatternCell::Black | PatternCell::White => false,
        PatternCell::NotWhite | PatternCell::NotBlack | PatternCell::Any => false,
    }
}
