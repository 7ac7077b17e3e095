// The images of a signature under the symmetries of its board, and the least of them.
ghost use Rattle.std.specs.Prelude.{◌≡◌, ◌⊎◌, ◌<◌, IfSome, IfNone};
ghost use Rattle.kb_geometry.specs.Symmetry.{IsAllowed, number_of_symmetry};
ghost use Rattle.dyer_signature.specs.Images.{IsCanonicalForm, IsImageUnder, IsLess};
ghost use Rattle.dyer_signature.specs.Signatures.{IsSignatureOn};

use crate::Signature;
use crate::places::{PLACES, point_at, with_point};
use kb_geometry::{Shape, Symmetry, apply};

// How many symmetries there are, those that a board doesn't allow among them.
pub(crate) const SYMMETRIES: u8 = 8;

/// The canonical form of a signature: that of its images which is least by bytes.
///
/// The images are those under all symmetries that the board allows, with each point moved and `??`
/// kept; so games that differ by a symmetry alone have one canonical form. The signature is one on
/// this board, as [`signature`](crate::signature) gives for a tree of this shape. Nothing is
/// allocated.
pub fn canonical(s: &Signature, shape: Shape) -> Signature
    requires { IsSignatureOn shape s.now.bytes }
    ensures least { IsCanonicalForm shape s.now.bytes result.bytes }
    ensures on_board { IsSignatureOn shape result.bytes }
{
    // The image under symmetry 0 is the signature itself.
    let mut least = *s;
    for number in 1..SYMMETRIES {
        if let Some(image) = image_by(s, shape, number) {
            least = lesser(least, image);
        }
    }
    least
}

// The lesser of two signatures by bytes.
fn lesser(first: Signature, second: Signature) -> Signature
    ensures one { (result ≡ first) ⊎ (result ≡ second) }
    ensures first { ¬ IsLess first.bytes result.bytes }
    ensures second { ¬ IsLess second.bytes result.bytes }
{
    if second < first { second } else { first }
}

// The image of a signature under the symmetry with a number, if the board allows that symmetry.
pub(crate) fn image_by(s: &Signature, shape: Shape, number: u8) -> Option<Signature>
    requires on_board { IsSignatureOn shape s.now.bytes }
    requires symmetry { number < 8 }
    ensures some { IfSome result (λ image.
        IsAllowed number shape × IsImageUnder shape number s.now.bytes image.bytes) }
    ensures none { IfNone result (¬ IsAllowed number shape) }
{
    let symmetry = Symmetry::new(number)?;
    if symmetry.is_allowed_on(shape) {
        Some(image_under(s, shape, symmetry))
    } else {
        None
    }
}

// The image of a signature under a symmetry.
fn image_under(s: &Signature, shape: Shape, symmetry: Symmetry) -> Signature
    requires on_board { IsSignatureOn shape s.now.bytes }
    requires allowed { IsAllowed (number_of_symmetry symmetry) shape }
    ensures { IsImageUnder shape (number_of_symmetry symmetry) s.now.bytes result.bytes }
{
    let mut image = *s;
    for place in 0..PLACES {
        if let Some(point) = point_at(s, place) {
            image = with_point(image, place, apply(symmetry, shape, point));
        }
    }
    image
}
