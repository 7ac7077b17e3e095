// All occurrences of placements in a game.
ghost use Rattle.std.specs.Prelude.{◌≡◌, IfOk};
ghost use Rattle.capture_board.specs.Deltas.{AreDeltas, Deltas};
ghost use Rattle.pattern_occurrences.specs.Occurrences.{occurrences_in};
ghost use Rattle.capture_index.specs.NodePositions.{positions_of};
ghost use Rattle.run_matcher.specs.GoingOn.{occurrences_of};

use crate::{Begun, Buffers, Gathered};
use capture_index::RunIndex;
use kb_geometry::NoMemory;
use pattern_occurrences::Occurrence;
use ready_images::ReadyImages;
use std::alloc::Global;

/// The nodes of a game and the numbers of the placements that begin to hold there, by node and at
/// one node in the order of the placements: the list of `line_matcher::match_with`.
///
/// The runs are those of a game on a board of the images' shape. The only error is `NoMemory`.
pub fn match_runs(
    alloc: Global,
    runs: &RunIndex,
    ready: &ReadyImages,
) -> Result<Vec<Occurrence>, NoMemory>
    requires { ready.now.images.shape ≡ runs.now.shape }
    ensures { IfOk result (λ found. (deltas : Deltas) → AreDeltas deltas →
        runs.now ≡ positions_of deltas →
        found.items ≡ occurrences_in deltas ready.now.images.placements) }
{
    let mut gathered = Gathered::new(alloc);
    let mut buffers = Buffers::new(alloc);
    for number in 0..ready.images().len() {
        gathered.add(runs, &ready.placement(number as u32), &mut buffers)?;
    }
    let begun = gathered.sorted(alloc)?;
    Ok(occurrences(alloc, &begun)?)
}

// The occurrences alone.
fn occurrences(alloc: Global, begun: &[Begun]) -> Result<Vec<Occurrence>, NoMemory>
    ensures { IfOk result (λ found. found.items ≡ occurrences_of begun.now) }
{
    let mut found = Vec::with_capacity(alloc, begun.len())?;
    for one in begun {
        found.push(one.occurrence)?;
    }
    Ok(found)
}
