// Which signatures a pattern matches.
ghost use Rattle.std.specs.Prelude.{◌≡◌, ◌<◌, ℕ, IsTrue, ◌↔◌, false, slice_index};
ghost use Rattle.dyer_signature.specs.Patterns.{Agrees, IsSignaturePatternByte, Matches};
ghost use Rattle.dyer_signature.specs.Signatures.{IsSignatureOn};

use crate::images::{SYMMETRIES, image_by};
use crate::{SigPattern, Signature};
use kb_geometry::Shape;

/// Whether some image of a signature has the pattern's byte wherever that isn't `*`.
///
/// The images are those under all symmetries that the board allows. The signature is one on this
/// board, as [`signature`](crate::signature) gives for a tree of this shape. A pattern with a byte
/// that is neither a letter nor `?` nor `*` matches no signature. Nothing is allocated.
pub fn matches(s: &Signature, shape: Shape, pattern: &SigPattern) -> bool
    requires { IsSignatureOn shape s.now.bytes }
    ensures value { IsTrue result ↔ Matches shape s.now.bytes pattern.now.bytes }
    ensures other_byte { (k : ℕ) → k < 12 →
        ¬ IsSignaturePatternByte (slice_index pattern.now.bytes k) → result ≡ false }
{
    for number in 0..SYMMETRIES {
        if let Some(image) = image_by(s, shape, number) {
            if agrees(&image, pattern) {
                return true;
            }
        }
    }
    false
}

// Whether a signature has the pattern's byte wherever that isn't `*`.
fn agrees(s: &Signature, pattern: &SigPattern) -> bool
    ensures { IsTrue result ↔ Agrees s.now.bytes pattern.now.bytes }
{
    for (byte, wanted) in s.bytes.iter().zip(pattern.bytes.iter()) {
        if *wanted != b'*' && byte != wanted {
            return false;
        }
    }
    true
}
