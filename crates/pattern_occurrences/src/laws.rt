// Laws of the definitions of `specs/`.
ghost use Rattle.std.specs.Prelude.{◌≡◌, ◌↔◌, true, List, AllPairs, Contains};
ghost use Rattle.kb_geometry.specs.declared.shape.Shape.{Shape};
ghost use Rattle.kb_geometry.specs.Capture.{Position};
ghost use Rattle.capture_board.specs.Deltas.{Deltas};
ghost use Rattle.pattern_images.specs.Placements.{Placement};
ghost use Rattle.pattern_images.specs.Holds.{Holds};
ghost use Rattle.pattern_occurrences.specs.declared.occurrence.Occurrence.{Occurrence};
ghost use Rattle.pattern_occurrences.specs.Occurrences.{Occurs, StandsBefore, holds};
ghost use Rattle.pattern_occurrences.specs.Occurrences.{occurrences_in};

/// A law: the test of a placement is true exactly where the placement holds in the position.
pub fn the_test_tells_whether_a_placement_holds()
    ensures { (shape : Shape) (position : Position) (placement : Placement) →
        (holds shape position placement ≡ true) ↔ Holds shape position placement }
{}

/// A law: the occurrences in a game are exactly each node and placement that are there, where the
/// placement holds at the node, and not at its parent too if it has one. They stand by node, and at
/// one node in the order of the placements, so each stands once.
pub fn the_occurrences_are_where_placements_begin_to_hold()
    ensures exactly { (deltas : Deltas) (placements : List Placement) (occurrence : Occurrence) →
        Contains (occurrences_in deltas placements) occurrence
        ↔ Occurs deltas placements occurrence }
    ensures ordered { (deltas : Deltas) (placements : List Placement) →
        AllPairs StandsBefore (occurrences_in deltas placements) }
{}
