// The points that ever had each cell in a game.
use crate::games::deltas_in;
use crate::reading::shape_in;
use crate::writing::{put, put_members};
use capture_board::NodeDeltas;
use case_files::{Case, CaseError};
use final_index::EverSets;
use kb_geometry::Shape;
use std::alloc::Global;

// The sets of each game, or of a game without a node on the board that stands behind the kind.
pub(crate) fn ever(alloc: Global, case: &Case<'_>, out: &mut Vec<u8>) -> Result<(), CaseError> {
    if let Some(sides) = case.word(0) {
        let shape = shape_in(Some(sides))?;
        let sets = EverSets::of(&NodeDeltas::new(alloc, shape));
        return put_sets(out, shape, &sets);
    }
    for deltas in &deltas_in(alloc, case.text())? {
        put_sets(out, deltas.shape(), &EverSets::of(deltas))?;
    }
    Ok(())
}

fn put_sets(out: &mut Vec<u8>, shape: Shape, sets: &EverSets) -> Result<(), CaseError> {
    put(out, "black:")?;
    put_members(out, Some(shape), &sets.black)?;
    put(out, "\nwhite:")?;
    put_members(out, Some(shape), &sets.white)?;
    put(out, "\nempty:")?;
    put_members(out, Some(shape), &sets.empty)?;
    put(out, "\n")
}
