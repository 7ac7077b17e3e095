// Laws of the definitions of `specs/`, as contracts of functions that do nothing.
ghost use Rattle.std.specs.Prelude.{◌+◌, ◌<◌, ◌↔◌, All, List};
ghost use Rattle.kb_geometry.specs.declared.shape.Shape.{Shape};
ghost use Rattle.kb_geometry.specs.Board.{point_count};
ghost use Rattle.kb_geometry.specs.Capture.{Position, cell_at};
ghost use Rattle.pattern_images.specs.Holds.{Allows, Holds};
ghost use Rattle.pattern_images.specs.ImageList.{IsPlacedOn};
ghost use Rattle.pattern_images.specs.Placements.{Placement};
ghost use Rattle.ready_images.specs.declared.want.Want.{Want};
ghost use Rattle.ready_images.specs.Wants.{AreWantsOf, base_of};

/// The wants of a placement on the board lead to points of the board, behind the number of its
/// upper left point. It holds in a position exactly where each of them is met there.
pub fn a_placement_holds_where_its_wants_are_met()
    ensures on_board { (shape : Shape) (placement : Placement) (wants : List Want) →
        IsPlacedOn shape placement → AreWantsOf shape placement.grid wants →
        All (λ (w : Want). base_of shape placement + w.offset < point_count shape) wants }
    ensures holds { (shape : Shape) (placement : Placement) (wants : List Want) →
        IsPlacedOn shape placement → AreWantsOf shape placement.grid wants →
        (position : Position) → Holds shape position placement ↔
        All (λ (w : Want). Allows w.cell
        (cell_at position (base_of shape placement + w.offset))) wants }
{}
