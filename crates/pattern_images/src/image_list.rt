// The placements of a query on a board, and the rectangles of cells that they have.
ghost use Rattle.std.specs.Prelude.{◌≡◌, ◌<◌, ◌*◌, IsTrue, ◌↔◌, length};
ghost use Rattle.kb_geometry.specs.Board.{cols_of, rows_of};

use crate::grids::Grids;
use crate::listing::StoredPlace;
use crate::{PatternCell, Place};
use kb_geometry::Shape;
use std::marker::Model;

/// The placements of a query on a board of one shape, in order of rows, columns and labels, each
/// once and under its least label. See [`images`](crate::images).
///
/// The cells of a placement are one of at most 16 rectangles of cells, here called classes: one for
/// each different way in which the pattern can be turned and its colours exchanged, so no two are
/// equal. Placements of one class differ only in where they stand, so what follows from their cells
/// can be made once for each class.
#[derive(Debug, Drop)]
pub struct Images {
    pub(crate) shape: Shape,
    pub(crate) grids: Grids,
    pub(crate) places: Vec<StoredPlace>,
}

impl Model for Images {
    ghost use Rattle.std.specs.Prelude.{map};
    ghost use Rattle.pattern_images.specs.ImageList.{ImageList};

    ghost Value = { ImageList };

    ghost use Rattle.pattern_images.specs.Listing.{placement_in, AreStoredOn};

    ghost view = { λ im. record {
      shape = im.shape;
      grids = im.grids;
      placements = map (placement_in im.grids) im.places.items;
    } };

    ghost invariant = { λ im. AreStoredOn im.shape im.grids im.places.items };
}

impl Images {
    ghost use Rattle.pattern_images.specs.Grid.{cell_in};
    ghost use Rattle.pattern_images.specs.ImageList.{
      grid_at,
      placement_at,
      AreImages,
      IsPlaceOf,
      IsPlacedOn,
    };

    /// The shape of the board.
    pub fn shape(&self) -> Shape
        ensures value { result ≡ self.now.shape }
        ensures images { AreImages self.now }
    {
        self.shape
    }

    /// How many placements.
    pub fn len(&self) -> usize
        ensures value { result ≡ length self.now.placements }
        ensures images { AreImages self.now }
    {
        self.places.len()
    }

    /// Whether there is no placement.
    pub fn is_empty(&self) -> bool
        ensures { IsTrue result ↔ (length self.now.placements ≡ 0) }
    {
        self.places.is_empty()
    }

    /// Where the placement with this number stands, and its least label.
    pub fn place(&self, i: usize) -> Place
        requires { i < length self.now.placements }
        ensures value { IsPlaceOf (placement_at self.now.placements i) result }
        ensures on_board { IsPlacedOn self.now.shape (placement_at self.now.placements i) }
        ensures images { AreImages self.now }
    {
        let StoredPlace { x, y, label, class } = self.places[i];
        let size = self.grids.size(usize::from(class));
        Place {
            x,
            y,
            cols: size.cols(),
            rows: size.rows(),
            label,
        }
    }

    /// The cell of a placement in column dx and row dy of its rectangle, both from 0.
    pub fn cell(&self, i: usize, dx: u8, dy: u8) -> PatternCell
        requires placement { i < length self.now.placements }
        requires column { dx < (placement_at self.now.placements i).grid.cols }
        requires row { dy < (placement_at self.now.placements i).grid.rows }
        ensures { result ≡ cell_in (placement_at self.now.placements i).grid dx dy }
    {
        let class = self.class_of(i);
        let cols = usize::from(self.class_size(class).cols());
        self.class_cells(class)[usize::from(dy) * cols + usize::from(dx)]
    }

    /// How many classes.
    pub fn class_count(&self) -> usize
        ensures { result ≡ length self.now.grids }
    {
        self.grids.len()
    }

    /// The class of the placement with this number.
    pub fn class_of(&self, i: usize) -> usize
        requires { i < length self.now.placements }
        ensures in_range { result < length self.now.grids }
        ensures cells { grid_at self.now.grids result ≡ (placement_at self.now.placements i).grid }
        ensures images { AreImages self.now }
    {
        usize::from(self.places[i].class)
    }

    /// How many columns and rows the placements of a class have.
    pub fn class_size(&self, class: usize) -> Shape
        requires { class < length self.now.grids }
        ensures cols { cols_of result ≡ (grid_at self.now.grids class).cols }
        ensures rows { rows_of result ≡ (grid_at self.now.grids class).rows }
    {
        self.grids.size(class)
    }

    /// The cells of the placements of a class, row by row.
    pub fn class_cells(&self, class: usize) -> &[PatternCell]
        requires { class < length self.now.grids }
        ensures value { result.now ≡ (grid_at self.now.grids class).cells }
        ensures count { length result.now
            ≡ (grid_at self.now.grids class).cols * (grid_at self.now.grids class).rows }
    {
        self.grids.cells(class)
    }
}
