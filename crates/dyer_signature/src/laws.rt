// Laws of the definitions for signatures, images and patterns, for who reads a contract of this
// crate.
ghost use Rattle.std.specs.Prelude.{◌≡◌, ◌⊎◌, ◌↔◌, ℕ, List};
ghost use Rattle.kb_geometry.specs.declared.shape.Shape.{Shape};
ghost use Rattle.game_tree.specs.Tree.{IsTree, Tree};
ghost use Rattle.dyer_signature.specs.Images.{IsCanonicalForm, IsSignatureImage};
ghost use Rattle.dyer_signature.specs.Patterns.{Matches};
ghost use Rattle.dyer_signature.specs.Signatures.{IsSignatureOf, IsSignatureOn};

/// A tree has a signature, and one only: that of [`signature`](crate::signature).
pub fn a_tree_has_one_signature()
    ensures some { (tree : Tree) → IsTree tree → (bytes : List ℕ) × IsSignatureOf tree bytes }
    ensures one { (tree : Tree) (a b : List ℕ) →
        IsTree tree → IsSignatureOf tree a → IsSignatureOf tree b → a ≡ b }
{}

/// A signature on a board has a canonical form, and one only: that of
/// [`canonical`](crate::canonical).
pub fn a_signature_has_one_canonical_form()
    ensures some { (shape : Shape) (signature : List ℕ) → IsSignatureOn shape signature →
        (form : List ℕ) × IsCanonicalForm shape signature form }
    ensures one { (shape : Shape) (signature a b : List ℕ) →
        IsCanonicalForm shape signature a → IsCanonicalForm shape signature b → a ≡ b }
{}

/// An image of a signature has the same images as the signature, itself among them.
pub fn an_image_has_the_images_of_its_signature()
    ensures { (shape : Shape) (signature image : List ℕ) →
        IsSignatureOn shape signature → IsSignatureImage shape signature image →
        (other : List ℕ) →
        IsSignatureImage shape image other ↔ IsSignatureImage shape signature other }
{}

/// Two signatures on one board have one canonical form exactly where the second is an image of the
/// first.
pub fn images_alone_have_one_canonical_form()
    ensures { (shape : Shape) (signature other form form_of_other : List ℕ) →
        IsSignatureOn shape signature → IsSignatureOn shape other →
        IsCanonicalForm shape signature form → IsCanonicalForm shape other form_of_other →
        IsSignatureImage shape signature other ↔ (form ≡ form_of_other) }
{}

/// It can be told whether a signature on a board matches a pattern.
pub fn a_signature_matches_a_pattern_or_not()
    ensures { (shape : Shape) (signature pattern : List ℕ) → IsSignatureOn shape signature →
        Matches shape signature pattern ⊎ ¬ Matches shape signature pattern }
{}

/// An image of a signature, the canonical form among them, matches a pattern exactly where the
/// signature does.
pub fn an_image_matches_where_its_signature_does()
    ensures { (shape : Shape) (signature image pattern : List ℕ) →
        IsSignatureOn shape signature → IsSignatureImage shape signature image →
        Matches shape image pattern ↔ Matches shape signature pattern }
{}
