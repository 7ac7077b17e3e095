// The images of a position under the symmetries that its board allows, packed in one list of words.
ghost use Rattle.std.specs.Prelude.{◌≡◌, ◌*◌, ◌<◌, All, IfOk, length, slice_set};
ghost use Rattle.kb_geometry.specs.declared.stone.Change.{Change};
ghost use Rattle.kb_geometry.specs.Board.{point_count};
ghost use Rattle.kb_geometry.specs.Capture.{Position, empty_board};
ghost use Rattle.capture_board.specs.Changes.{with_changes};
ghost use Rattle.capture_board.specs.StoredWalking.{with_old_cells};
ghost use Rattle.opening_tree.specs.Frames.{AreImages, image_in, symmetries_of};
ghost use Rattle.opening_tree.specs.Least.{AreLeastOf, IsOrderOf};
ghost use Rattle.opening_tree.specs.Packing.{AreCells, cells_of, words_for};

use crate::least::LeastImages;
use crate::packed::{CELLS, bits_of, place_of, with_bits, words_for};
use crate::symmetries::{symmetry, symmetry_count};
use kb_geometry::{Cell, Change, NoMemory, Shape, apply};
use std::alloc::Global;
use std::cmp::Ordering;
use std::marker::Model;

// The images of a position on a board of this shape, by the numbers of the symmetries. Each has the
// same number of words. Contracts see the list of them.
#[derive(Debug, Drop)]
pub(crate) struct TurnedPositions {
    shape: Shape,
    words: Vec<u64>,
}

impl Model for TurnedPositions {
    ghost use Rattle.opening_tree.specs.Turned.{AreTurned, TurnedState, turned_shown};

    ghost Value = { TurnedState };

    ghost view = { λ t. record { shape = t.shape; images = turned_shown t.shape t.words.items } };

    ghost invariant = { λ t. AreTurned t.shape t.words.items };
}

impl TurnedPositions {
    // The images of the empty board. The only error is `NoMemory`.
    pub(crate) fn new(alloc: Global, shape: Shape) -> Result<Self, NoMemory>
        ensures shape { IfOk result (λ t. t.shape ≡ shape) }
        ensures images { IfOk result (λ t. AreImages shape (empty_board shape) t.images) }
    {
        let count = words_for(shape.count()) * usize::from(symmetry_count(shape));
        let words = vec![in alloc; 0; count]?;
        Ok(TurnedPositions { shape, words })
    }

    // Makes them the images of the empty board.
    pub(crate) fn clear(&mut self)
        ensures shape { self.new.shape ≡ self.old.shape }
        ensures images { AreImages self.new.shape (empty_board self.new.shape) self.new.images }
    {
        for word in self.words.iter_mut() {
            *word = 0;
        }
    }

    // Makes these changes of the position, one after another.
    pub(crate) fn make(&mut self, changes: &[Change])
        requires { All (λ (c : Change). c.point < point_count self.old.shape) changes.now }
        ensures shape { self.new.shape ≡ self.old.shape }
        ensures images { (position : Position) → length position ≡ point_count self.old.shape →
            AreImages self.old.shape position self.old.images →
            AreImages self.old.shape (with_changes position changes.now) self.new.images }
    {
        for change in changes {
            self.put_turned(change.point, change.new);
        }
    }

    // Puts the old cell of each of these changes back, one after another.
    pub(crate) fn take_back(&mut self, changes: &[Change])
        requires { All (λ (c : Change). c.point < point_count self.old.shape) changes.now }
        ensures shape { self.new.shape ≡ self.old.shape }
        ensures images { (position : Position) → length position ≡ point_count self.old.shape →
            AreImages self.old.shape position self.old.images →
            AreImages self.old.shape (with_old_cells position changes.now) self.new.images }
    {
        for change in changes {
            self.put_turned(change.point, change.old);
        }
    }

    // Puts a cell on a point of the position: in each image on the point to which its symmetry moves
    // that.
    fn put_turned(&mut self, point: u16, cell: Cell)
        requires { point < point_count self.old.shape }
        ensures shape { self.new.shape ≡ self.old.shape }
        ensures images { (position : Position) → length position ≡ point_count self.old.shape →
            AreImages self.old.shape position self.old.images →
            AreImages self.old.shape (slice_set position point cell) self.new.images }
    {
        let shape = self.shape;
        let from = shape.point(point);
        for number in 0..symmetry_count(shape) {
            let to = apply(symmetry(number), shape, from);
            self.put(number, shape.number(to), cell);
        }
    }

    // Puts a cell on a point of an image.
    fn put(&mut self, number: u8, point: u16, cell: Cell)
        requires number { number < symmetries_of self.old.shape }
        requires on_board { point < point_count self.old.shape }
        ensures shape { self.new.shape ≡ self.old.shape }
        ensures images { self.new.images ≡ slice_set self.old.images number
            (slice_set (image_in self.old.images number) point cell) }
    {
        let at = self.start(number) + usize::from(point / CELLS);
        self.words[at] = with_bits(self.words[at], place_of(point), bits_of(cell));
    }

    // Where the words of an image begin.
    fn start(&self, number: u8) -> usize
        requires { number < 8 }
        ensures { result ≡ words_for (point_count self.now.shape) * number }
    {
        words_for(self.shape.count()) * usize::from(number)
    }

    // The words of an image.
    pub(crate) fn words(&self, number: u8) -> &[u64]
        requires { number < symmetries_of self.now.shape }
        ensures value { cells_of (point_count self.now.shape) result.now
            ≡ image_in self.now.images number }
        ensures cells { AreCells (point_count self.now.shape) result.now }
    {
        let start = self.start(number);
        &self.words[start..start + words_for(self.shape.count())]
    }

    // Which of two images comes first.
    fn order(&self, one: u8, other: u8) -> Ordering
        requires one { one < symmetries_of self.now.shape }
        requires other { other < symmetries_of self.now.shape }
        ensures { IsOrderOf (image_in self.now.images one) (image_in self.now.images other) result }
    {
        self.words(one).cmp(self.words(other))
    }

    // The first of the images that come before no other, and all that are like it.
    pub(crate) fn least(&self) -> LeastImages
        ensures { AreLeastOf (symmetries_of self.now.shape) self.now.images result }
    {
        let mut least = LeastImages::first();
        for number in 1..symmetry_count(self.shape) {
            let order = self.order(number, least.first);
            least = least.with(number, order);
        }
        least
    }
}
