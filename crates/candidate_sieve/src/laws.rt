// Laws of what is kept: the contracts of functions that do nothing.
ghost use Rattle.std.specs.Prelude.{◌≡◌, ◌<◌, ◌↔◌, ℕ, List, Contains};
ghost use Rattle.capture_board.specs.Deltas.{AreDeltas, Deltas, node_count, position_at};
ghost use Rattle.pattern_images.specs.Holds.{Holds};
ghost use Rattle.pattern_images.specs.ImageList.{IsPlacedOn};
ghost use Rattle.pattern_images.specs.Placements.{Placement};
ghost use Rattle.final_index.specs.declared.ever_sets.EverSets.{EverSets};
ghost use Rattle.final_index.specs.Ever.{AreSetsOf};
ghost use Rattle.final_index.specs.Order.{HasOrderOf, OrderGames};
ghost use Rattle.capture_index.specs.NodePositions.{positions_of};
ghost use Rattle.pattern_occurrences.specs.declared.occurrence.Occurrence.{Occurrence};
ghost use Rattle.pattern_occurrences.specs.Occurrences.{Occurs, occurrences_at_nodes};
ghost use Rattle.pattern_occurrences.specs.Occurrences.{occurrences_in};
ghost use Rattle.candidate_sieve.specs.Candidates.{MeetsCells};
ghost use Rattle.candidate_sieve.specs.Kept.{HadCorners, IsKept, IsKeptBy};
ghost use Rattle.candidate_sieve.specs.NodeCandidates.{IsNodeCandidate};
ghost use Rattle.candidate_sieve.specs.Ordered.{StandsInOrder};

/// A law: a placement that holds at a node of a game meets both rules in it, so a game with an
/// occurrence is kept.
pub fn a_game_with_an_occurrence_is_kept()
    ensures placement { (deltas : Deltas) (placement : Placement) (n : ℕ) → n < node_count deltas →
        Holds deltas.shape (position_at deltas n) placement → IsKeptBy deltas placement }
    ensures game { (deltas : Deltas) (placements : List Placement) (o : Occurrence) →
        Occurs deltas placements o → IsKept deltas placements }
{}

/// A law: a placement meets both rules in a game exactly where the sets of the game meet its cells,
/// and each corner that it covers had its cells.
pub fn a_placement_is_kept_by_its_cells_and_corners()
    ensures { (deltas : Deltas) (sets : EverSets) (placement : Placement) →
        0 < node_count deltas → AreSetsOf deltas sets → IsPlacedOn deltas.shape placement →
        IsKeptBy deltas placement
        ↔ (MeetsCells deltas.shape sets placement × HadCorners deltas placement) }
{}

/// A law: the sets of a game meet the cells of each placement that holds at one of its nodes.
pub fn a_placement_that_holds_meets_the_sets()
    ensures { (deltas : Deltas) (sets : EverSets) (placement : Placement) (n : ℕ) →
        AreSetsOf deltas sets → IsPlacedOn deltas.shape placement → n < node_count deltas →
        Holds deltas.shape (position_at deltas n) placement →
        MeetsCells deltas.shape sets placement }
{}

/// A law: a placement that holds at a node of a game of a block stands in the order that the block has
/// of the game's stones.
pub fn a_placement_that_holds_stands_in_order()
    ensures { (deltas : Deltas) (order : OrderGames) (placement : Placement) (g n : ℕ) →
        deltas.shape ≡ order.shape → HasOrderOf deltas order g → IsPlacedOn deltas.shape placement →
        n < node_count deltas → Holds deltas.shape (position_at deltas n) placement →
        StandsInOrder order g deltas.shape placement }
{}

/// A law: each node with an occurrence is a node candidate.
pub fn an_occurrence_is_at_a_node_candidate()
    ensures { (deltas : Deltas) (placements : List Placement) (o : Occurrence) → AreDeltas deltas →
        Occurs deltas placements o → IsNodeCandidate (positions_of deltas) placements o.node }
{}

/// A law: the occurrences at the node candidates of a game are all its occurrences, in order. So
/// `match_at` of line_matcher, over a list of exactly these nodes, gives the list of `match_game`.
pub fn the_node_candidates_have_all_occurrences()
    ensures { (deltas : Deltas) (placements : List Placement) (nodes : List ℕ) → AreDeltas deltas →
        ((n : ℕ) → Contains nodes n ↔ IsNodeCandidate (positions_of deltas) placements n) →
        occurrences_at_nodes deltas placements nodes ≡ occurrences_in deltas placements }
{}
