// Laws of the definitions for openings, for who reads the contract of this crate.
ghost use Rattle.std.specs.Prelude.{◌≡◌, ◌↔◌, ℕ, All, List, length};
ghost use Rattle.kb_geometry.specs.declared.shape.Shape.{Shape};
ghost use Rattle.kb_geometry.specs.Board.{point_count};
ghost use Rattle.kb_geometry.specs.Capture.{Position};
ghost use Rattle.game_tree.specs.Tree.{IsTree};
ghost use Rattle.node_position.specs.Games.{Game};
ghost use Rattle.opening_tree.specs.declared.answer.Opening.{Opening};
ghost use Rattle.opening_tree.specs.Canonical.{IsCanonicalPosition, IsPositionImage};
ghost use Rattle.opening_tree.specs.Openings.{IsOpenings};

/// A position has a canonical position, and one only.
pub fn a_position_has_one_canonical_position()
    ensures some { (shape : Shape) (position : Position) → length position ≡ point_count shape →
        (canonical : Position) × IsCanonicalPosition shape position canonical }
    ensures one { (shape : Shape) (position a b : Position) →
        IsCanonicalPosition shape position a → IsCanonicalPosition shape position b → a ≡ b }
{}

/// Two positions on one board have one canonical position exactly where the second is an image of
/// the first.
pub fn images_alone_have_one_canonical_position()
    ensures { (shape : Shape) (position other canonical canonical_of_other : Position) →
        length position ≡ point_count shape → length other ≡ point_count shape →
        IsCanonicalPosition shape position canonical →
        IsCanonicalPosition shape other canonical_of_other →
        IsPositionImage shape position other ↔ (canonical ≡ canonical_of_other) }
{}

/// Games have openings, and one list of them.
pub fn games_have_one_list_of_openings()
    ensures some { (shape : Shape) (depth least : ℕ) (games : List Game) →
        All (λ (g : Game). IsTree g.tree) games →
        (openings : List Opening) × IsOpenings shape depth least games openings }
    ensures one { (shape : Shape) (depth least : ℕ) (games : List Game) (a b : List Opening) →
        All (λ (g : Game). IsTree g.tree) games →
        IsOpenings shape depth least games a → IsOpenings shape depth least games b → a ≡ b }
{}
