// Which images of a position are the canonical position.
ghost use Rattle.std.specs.Prelude.{◌≡◌, ◌⊎◌, ◌<◌, ◌≤◌, ◌+◌, ◌↔◌, List, IfNone, IfSome, IsTrue};
ghost use Rattle.std.specs.Int.{bit_at};
ghost use Rattle.kb_geometry.specs.declared.shape.Point.{Point};
ghost use Rattle.kb_geometry.specs.Board.{IsOnBoard, number_of};
ghost use Rattle.kb_geometry.specs.Capture.{Position};
ghost use Rattle.opening_tree.specs.Frames.{image_in};
ghost use Rattle.opening_tree.specs.Least.{AreBringing, AreLeastOf, IsOrderOf};
ghost use Rattle.opening_tree.specs.NextMoves.{IsPlaceInFrame, IsPointInFrame};

use crate::symmetries::{symmetry, symmetry_count};
use kb_geometry::{Point, Shape, apply};
use std::cmp::Ordering;

// The first of the images that come before no other image, by its number, and which images are like
// it: a bit for each symmetry, the lowest for the first.
#[derive(Clone, Copy, Debug)]
pub(crate) struct LeastImages {
    pub(crate) first: u8,
    pub(crate) all: u8,
}

impl LeastImages {
    // The first image alone.
    pub(crate) fn first() -> LeastImages
        ensures { (images : List Position) → AreLeastOf 1 images result }
    {
        LeastImages { first: 0, all: 1 }
    }

    // With one image more, of which it is told how it stands to the least so far.
    pub(crate) fn with(self, number: u8, order: Ordering) -> LeastImages
        requires { number < 8 }
        ensures { (images : List Position) → AreLeastOf number images self →
            IsOrderOf (image_in images number) (image_in images self.first) order →
            AreLeastOf (number + 1) images result }
    {
        match order {
            Ordering::Less => LeastImages {
                first: number,
                all: 1 << number,
            },
            Ordering::Equal => LeastImages {
                first: self.first,
                all: self.all | (1 << number),
            },
            Ordering::Greater => self,
        }
    }
}

// A move's point in the frame of the canonical position, to which these symmetries bring; a pass has
// none.
pub(crate) fn place_in_frame(all: u8, shape: Shape, point: Option<Point>) -> Option<Point>
    requires on_board { IfSome point (λ (p : Point). IsOnBoard shape p) }
    requires some { (position : Position) × (canonical : Position)
        × AreBringing shape position canonical all }
    ensures { (position canonical : Position) → AreBringing shape position canonical all →
        IsPlaceInFrame shape position canonical point result }
{
    match point {
        Some(p) => Some(point_in_frame(all, shape, p)),
        None => None,
    }
}

// A point in the frame of the canonical position: the least of those to which the symmetries that
// bring there move it.
fn point_in_frame(all: u8, shape: Shape, point: Point) -> Point
    requires on_board { IsOnBoard shape point }
    requires some { (position : Position) × (canonical : Position)
        × AreBringing shape position canonical all }
    ensures { (position canonical : Position) → AreBringing shape position canonical all →
        IsPointInFrame shape position canonical point result }
{
    let mut found = None;
    for number in 0..symmetry_count(shape) {
        if is_among(all, number) {
            let here = apply(symmetry(number), shape, point);
            found = Some(lesser(shape, found, here));
        }
    }
    found.unwrap_or(point)
}

// Whether the symmetry with a number is one of these.
fn is_among(all: u8, number: u8) -> bool
    requires { number < 8 }
    ensures { IsTrue result ↔ (bit_at all number ≡ 1) }
{
    (all >> number) & 1 == 1
}

// The one of two points that has the lesser number; the second one if there is no first.
fn lesser(shape: Shape, one: Option<Point>, other: Point) -> Point
    requires one_on_board { IfSome one (λ (p : Point). IsOnBoard shape p) }
    requires other_on_board { IsOnBoard shape other }
    ensures either { IfSome one (λ (p : Point). (result ≡ p) ⊎ (result ≡ other)) }
    ensures first { IfSome one (λ (p : Point). number_of shape result ≤ number_of shape p) }
    ensures second { number_of shape result ≤ number_of shape other }
    ensures alone { IfNone one (result ≡ other) }
{
    match one {
        Some(p) => {
            if shape.number(other) < shape.number(p) {
                other
            } else {
                p
            }
        }
        None => other,
    }
}
