// From a query to its placements.
ghost use Rattle.std.specs.Prelude.{◌≡◌, ◌≤◌, length, IfOk};
ghost use Rattle.pattern_images.specs.Placements.{ArePlacements};

use crate::base_places::base_places;
use crate::grids::Grids;
use crate::listing::list_places;
use crate::turn::turns;
use crate::{Images, Query};
use kb_geometry::{NoMemory, Shape};
use std::alloc::Global;

/// The placements of the query's pattern on a board of this shape. There are none where the query
/// names another board, and where the pattern doesn't fit. The only error is `NoMemory`.
///
/// A base place is a point from which the pattern, as it is written, lies on the board, and which
/// lies in the query's rectangle `at` if it has one. For each label of the query and each base
/// place, the label's symmetry of the board moves the pattern's points, and its colours are
/// exchanged if the label says so. What this gives is a rectangle with one cell for each point.
/// Equal ones are one placement, which carries the least of the labels that give it.
pub fn images(alloc: Global, query: &Query, shape: Shape) -> Result<Images, NoMemory>
    ensures shape { IfOk result (λ im. im.shape ≡ shape) }
    ensures placements { IfOk result (λ im. ArePlacements query.now shape im.placements) }
    ensures classes { IfOk result (λ im. length im.grids ≤ 16) }
{
    let mut grids = Grids::new(alloc);
    let Some(base) = base_places(query, shape) else {
        let places = Vec::new(alloc);
        return Ok(Images {
            shape,
            grids,
            places,
        });
    };
    let turns = turns(alloc, query, shape, base, &mut grids)?;
    let places = list_places(alloc, &turns, shape)?;
    Ok(Images {
        shape,
        grids,
        places,
    })
}
