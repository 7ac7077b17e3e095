// How long a placement goes on to hold.
ghost use Rattle.std.specs.Prelude.{◌≡◌, ◌<◌, ◌≤◌, ℕ};
ghost use Rattle.capture_board.specs.Deltas.{AreDeltas, Deltas};
ghost use Rattle.pattern_images.specs.ImageList.{placement_at};
ghost use Rattle.pattern_occurrences.specs.Occurrences.{HoldsAt};
ghost use Rattle.capture_index.specs.NodePositions.{count_in, positions_of};

use capture_index::RunIndex;
use ready_images::Prepared;

/// The number of a node behind this one, in order of the text, or the number of nodes: if the
/// placement holds at this node, it holds at each one from it on up to before that one. The runs
/// are those of a game on a board of the images' shape.
pub fn holds_to(runs: &RunIndex, placement: &Prepared, node: u32) -> u32
    requires shape { placement.now.ready.now.images.shape ≡ runs.now.shape }
    requires in_range { node < count_in runs.now }
    ensures more { node < result }
    ensures most { result ≤ count_in runs.now }
    ensures holds { (deltas : Deltas) → AreDeltas deltas → runs.now ≡ positions_of deltas →
        HoldsAt deltas (placement_at placement.now.ready.now.images.placements
        placement.now.number) node →
        (k : ℕ) → node ≤ k → k < result →
        HoldsAt deltas (placement_at placement.now.ready.now.images.placements
        placement.now.number) k }
{
    runs.unchanged_to(placement.base(), placement.wants().wants, node)
}
