// From the board to the pattern's own frame and colours.
ghost use Rattle.std.specs.Prelude.{◌≡◌, ◌<◌, length};
ghost use Rattle.kb_geometry.specs.Symmetry.{number_of_label, point_of};
ghost use Rattle.pattern_images.specs.ImageList.{placement_at};
ghost use Rattle.pattern_images.specs.Placements.{Covers};
ghost use Rattle.continuation_table.specs.Continuation.{IsTurnedBack, own_colour};

use kb_geometry::{Colour, Label, Point, apply_within, inverse};
use pattern_images::Images;

// The colour that a label makes of this one, which is also the one of which it makes this one.
pub(crate) fn own_colour(label: Label, colour: Colour) -> Colour
    ensures { result ≡ own_colour (number_of_label label) colour }
{
    if !label.exchanged() {
        return colour;
    }
    match colour {
        Colour::Black => Colour::White,
        Colour::White => Colour::Black,
    }
}

// The point of the pattern that stands on a point of the board under a placement.
pub(crate) fn own_point(images: &Images, i: usize, p: Point) -> Point
    requires placement { i < length images.now.placements }
    requires inside { Covers (placement_at images.now.placements i) p }
    ensures { IsTurnedBack (placement_at images.now.placements i) p (point_of result.x result.y) }
{
    let place = images.place(i);
    let size = images.class_size(images.class_of(i));
    let offset = Point {
        x: p.x - place.x,
        y: p.y - place.y,
    };
    apply_within(inverse(place.label.symmetry()), size, offset)
}
