// The placements of a query on a board, made ready to be looked for.
ghost use Rattle.std.specs.Prelude.{
  ◌≡◌,
  ◌+◌,
  ◌<◌,
  ◌≤◌,
  All,
  IfOk,
  length,
  slice_index,
  slice_range,
};
ghost use Rattle.kb_geometry.specs.Board.{point_count};
ghost use Rattle.pattern_images.specs.ImageList.{AreImages, grid_at};
ghost use Rattle.ready_images.specs.declared.want.Want.{Want};
ghost use Rattle.ready_images.specs.Corners.{AreCornersOf};
ghost use Rattle.ready_images.specs.Pairs.{IsPairBelow, IsPairIn};
ghost use Rattle.ready_images.specs.Prepared.{IsPreparedAs};
ghost use Rattle.ready_images.specs.Rows.{AreRowsOf, IsRowIn};
ghost use Rattle.ready_images.specs.Wants.{AreWantsOf};

use crate::class_wants::ClassWants;
use crate::corner_number::CornerNumber;
use crate::corners::{corners_of, first_of};
use crate::pair::Pair;
use crate::pairs::pairs_of;
use crate::prepared::Prepared;
use crate::row::Row;
use crate::rows::{MadeRows, base, rows_of};
use crate::want::Want;
use crate::want_lists::{ClassRange, MadeWants};
use crate::wanted::wants_of;
use kb_geometry::NoMemory;
use pattern_images::Images;
use std::alloc::Global;
use std::marker::Model;

/// The images of a query, made ready to be looked for on boards of their shape: what their classes ask
/// of points, their placements in rows, and the corners that these cover.
///
/// Contracts see the images, the rows, and the list of the placements' numbers that is parted into
/// rows.
#[derive(Debug, Drop)]
pub struct ReadyImages {
    images: Images,
    // The wants of all classes, one class behind the other.
    wants: Vec<Want>,
    classes: Vec<ClassRange>,
    // For each class its stones beside empty cells.
    pairs: Vec<Vec<Pair>>,
    rows: Vec<Row>,
    // The numbers of the placements, class by class and row by row.
    numbers: Vec<u32>,
    // In order of the placements.
    corners: Vec<CornerNumber>,
}

impl Model for ReadyImages {
    ghost use Rattle.ready_images.specs.Ready.{ReadyList};

    ghost Value = { ReadyList };

    ghost use Rattle.ready_images.specs.Stored.{AreStored};

    ghost view = { λ r. record {
      images = r.images;
      rows = r.rows.items;
      numbers = r.numbers.items;
    } };

    ghost use Rattle.std.specs.Prelude.{map};

    ghost invariant = { λ r. AreStored r.images r.classes.items r.wants.items
        (map (λ v. v.items) r.pairs.items) r.rows.items r.numbers.items r.corners.items };
}

impl ReadyImages {
    /// Makes images ready. The only error is `NoMemory`.
    pub fn new(alloc: Global, images: Images) -> Result<ReadyImages, NoMemory>
        requires { length images.grids ≤ 16 }
        ensures { IfOk result (λ ready. ready.images ≡ images) }
    {
        let MadeRows { numbers, rows } = rows_of(alloc, &images)?;
        let made = wants_of(alloc, &images)?;
        let pairs = pairs_of(alloc, &images, &made)?;
        let MadeWants { wants, classes } = made;
        let corners = corners_of(alloc, &images)?;
        Ok(ReadyImages {
            images,
            wants,
            classes,
            pairs,
            rows,
            numbers,
            corners,
        })
    }

    /// The images.
    pub fn images(&self) -> &Images
        ensures value { result.now ≡ self.now.images }
        ensures are { AreImages self.now.images }
        ensures few { length self.now.images.placements ≤ 65536 }
    {
        &self.images
    }

    /// The rows: each placement stands in one, once.
    pub fn rows(&self) -> &[Row]
        ensures value { result.now ≡ self.now.rows }
        ensures are { AreRowsOf self.now.images self.now.numbers self.now.rows }
        ensures images { AreImages self.now.images }
    {
        &self.rows
    }

    /// The numbers of the placements of a row, in its order. Their upper left points are on the board.
    pub fn numbers_of(&self, row: &Row) -> &[u32]
        requires { IsRowIn self.now.images self.now.numbers row.now }
        ensures value { result.now ≡ slice_range self.now.numbers row.now.start
            (row.now.start + row.now.count) }
        ensures count { length result.now ≡ row.now.count }
        ensures on_board { row.now.base + row.now.count ≤ point_count self.now.images.shape }
    {
        &self.numbers[row.start..row.start + row.count]
    }

    /// What the placements of a row ask of points. Those of the last placement, too, are points of the
    /// board.
    pub fn wants_of(&self, row: &Row) -> &[Want]
        requires { IsRowIn self.now.images self.now.numbers row.now }
        ensures are { AreWantsOf self.now.images.shape
            (grid_at self.now.images.grids row.now.class) result.now }
        ensures on_board { All (λ (w : Want). row.now.base + w.offset + row.now.count
            ≤ point_count self.now.images.shape) result.now }
    {
        let ClassRange { start, end, .. } = self.classes[usize::from(row.class)];
        &self.wants[start..end]
    }

    /// The stones of the placements of a row beside cells that must be empty. Those of the last
    /// placement, too, are points of the board.
    pub fn pairs_of(&self, row: &Row) -> &[Pair]
        requires { IsRowIn self.now.images self.now.numbers row.now }
        ensures are { All (IsPairIn self.now.images.shape
            (grid_at self.now.images.grids row.now.class)) result.now }
        ensures on_board { All (IsPairBelow (point_count self.now.images.shape) row.now.base
            row.now.count) result.now }
    {
        self.pairs[usize::from(row.class)].as_slice()
    }

    /// The placement of a row with this number in it, from 0.
    pub fn prepared(&self, row: &Row, k: usize) -> Prepared<'_>
        requires row { IsRowIn self.now.images self.now.numbers row.now }
        requires in_row { k < row.now.count }
        ensures ready { result.ready.now ≡ self.now }
        ensures number { result.number ≡ slice_index self.now.numbers (row.now.start + k) }
    {
        Prepared {
            ready: self,
            number: self.numbers[row.start + k],
            base: row.base + k as u16,
            class: row.class,
        }
    }

    /// The placement with this number, base and class, as one of a row has them.
    pub fn prepared_as(&self, number: u32, base: u16, class: u8) -> Prepared<'_>
        requires { IsPreparedAs self.now.images number base class }
        ensures ready { result.ready.now ≡ self.now }
        ensures number { result.number ≡ number }
    {
        Prepared {
            ready: self,
            number,
            base,
            class,
        }
    }

    /// The placement with this number.
    pub fn placement(&self, number: u32) -> Prepared<'_>
        requires { number < length self.now.images.placements }
        ensures ready { result.ready.now ≡ self.now }
        ensures number { result.number ≡ number }
    {
        let i = number as usize;
        Prepared {
            ready: self,
            number,
            base: base(&self.images, i),
            class: self.images.class_of(i) as u8,
        }
    }

    /// The corners that a placement covers, with their numbers, in order of the corners.
    pub fn corners_of(&self, placement: u32) -> &[CornerNumber]
        requires { placement < length self.now.images.placements }
        ensures { AreCornersOf self.now.images placement result.now }
    {
        let first = first_of(&self.corners, placement);
        let end = first_of(&self.corners, placement + 1);
        &self.corners[first..end]
    }

    /// What a class asks of points.
    pub fn class_wants(&self, class: usize) -> ClassWants<'_>
        requires { class < length self.now.images.grids }
        ensures are { AreWantsOf self.now.images.shape (grid_at self.now.images.grids class)
            result.wants.now }
        ensures images { AreImages self.now.images }
        ensures few { length self.now.images.placements ≤ 65536 }
    {
        let ClassRange {
            start,
            mixed,
            empties,
            end,
        } = self.classes[class];
        ClassWants {
            wants: &self.wants[start..end],
            mixed: mixed - start,
            empties: empties - start,
        }
    }
}
