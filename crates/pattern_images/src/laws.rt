// A law of the definitions for placements, for who reads a contract of this crate.
ghost use Rattle.std.specs.Prelude.{◌≡◌, List};
ghost use Rattle.kb_geometry.specs.declared.shape.Shape.{Shape};
ghost use Rattle.pattern_images.specs.declared.query.Query.{Query};
ghost use Rattle.pattern_images.specs.Placements.{ArePlacements, Placement};

/// A query has a list of placements on a board of each shape, and one only: that of
/// [`images`](crate::images).
pub fn a_query_has_one_list_of_placements()
    ensures some { (query : Query) (shape : Shape) →
        (placements : List Placement) × ArePlacements query shape placements }
    ensures one { (query : Query) (shape : Shape) (a b : List Placement) →
        ArePlacements query shape a → ArePlacements query shape b → a ≡ b }
{}
