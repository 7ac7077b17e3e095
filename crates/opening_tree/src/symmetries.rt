// The symmetries that a board allows.
ghost use Rattle.std.specs.Prelude.{◌≡◌, ◌<◌};
ghost use Rattle.kb_geometry.specs.Symmetry.{number_of_symmetry};
ghost use Rattle.opening_tree.specs.Frames.{symmetries_of};

use kb_geometry::{Shape, Symmetry};

// How many symmetries a board allows. They are those with the least numbers.
pub(crate) fn symmetry_count(shape: Shape) -> u8
    ensures { result ≡ symmetries_of shape }
{
    if shape.is_square() { 8 } else { 4 }
}

// The symmetry with this number.
pub(crate) fn symmetry(number: u8) -> Symmetry
    requires { number < 8 }
    ensures { number_of_symmetry result ≡ number }
{
    Symmetry::new(number).unwrap()
}
