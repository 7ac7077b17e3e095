// What searches ask of a game, beside its tree.
ghost use Rattle.std.specs.Prelude.{◌≡◌, IfOk};
ghost use Rattle.final_index.specs.Ever.{AreSetsOf};
ghost use Rattle.capture_index.specs.NodePositions.{positions_of};
ghost use Rattle.corner_index.specs.Corners.{AreNumbersOfGame};

use capture_board::NodeDeltas;
use capture_index::RunIndex;
use corner_index::CornerKeys;
use final_index::EverSets;
use kb_geometry::NoMemory;
use std::alloc::Global;

// The sets of a game's points, the runs of its nodes, and the numbers of its corners.
#[derive(Debug, Drop)]
pub(crate) struct Indexes {
    pub(crate) ever: EverSets,
    pub(crate) runs: RunIndex,
    pub(crate) corners: CornerKeys,
}

impl Indexes {
    // Those of a game with these changes.
    pub(crate) fn of(alloc: Global, deltas: &NodeDeltas) -> Result<Indexes, NoMemory>
        ensures sets { IfOk result (λ indexes. AreSetsOf deltas.now indexes.ever) }
        ensures runs { IfOk result (λ indexes. indexes.runs ≡ positions_of deltas.now) }
        ensures corners { IfOk result (λ indexes. AreNumbersOfGame deltas.now indexes.corners) }
    {
        Ok(Indexes {
            ever: EverSets::of(deltas),
            runs: RunIndex::of(alloc, deltas)?,
            corners: CornerKeys::of(alloc, deltas)?,
        })
    }
}
