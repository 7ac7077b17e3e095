// Where placements hold in a game, by the plain definition: each placement at each node, cell by
// cell.
ghost use Rattle.std.specs.Prelude.{◌≡◌, ◌<◌, length};

use capture_board::NodeDeltas;
use case_files::CaseError;
use kb_geometry::{Cell, Change};
use pattern_images::{Found, Images, PatternCell};
use std::alloc::Global;

/// The places that hold at each node, as truth values by node and placement.
#[derive(Drop)]
pub(crate) struct Held {
    nodes: Vec<Vec<bool>>,
}

impl Held {
    /// What holds in a game.
    pub(crate) fn of(
        alloc: Global,
        deltas: &NodeDeltas,
        images: &Images,
    ) -> Result<Held, CaseError> {
        let positions = positions_of(alloc, deltas)?;
        let mut nodes = Vec::new(alloc);
        for position in &positions {
            nodes.push(held_in(alloc, position, images)?)?;
        }
        Ok(Held { nodes })
    }

    /// Whether a placement holds at a node.
    pub(crate) fn has(&self, node: u32, placement: usize) -> bool {
        match self.nodes.get(node as usize) {
            Some(held) => held.get(placement) == Some(&true),
            None => false,
        }
    }

    /// Where placements hold that didn't hold at the parent: by node, and at a node in the order of
    /// the placements.
    pub(crate) fn begun(
        &self,
        alloc: Global,
        deltas: &NodeDeltas,
        images: &Images,
    ) -> Result<Vec<Found>, CaseError> {
        let mut found = Vec::new(alloc);
        for node in 0..deltas.node_count() {
            self.add_begun(deltas.parent(node), node, images, &mut found)?;
        }
        Ok(found)
    }

    fn add_begun(
        &self,
        parent: Option<u32>,
        node: u32,
        images: &Images,
        found: &mut Vec<Found>,
    ) -> Result<(), CaseError> {
        for i in 0..images.len() {
            let held_before = match parent {
                Some(above) => self.has(above, i),
                None => false,
            };
            if self.has(node, i) && !held_before {
                let place = images.place(i);
                found.push(Found { node, place })?;
            }
        }
        Ok(())
    }
}

// The position at each node.
fn positions_of(alloc: Global, deltas: &NodeDeltas) -> Result<Vec<Vec<Cell>>, CaseError> {
    let empty = vec![in alloc; Cell::Empty; usize::from(deltas.shape().count())]?;
    let mut positions: Vec<Vec<Cell>> = Vec::new(alloc);
    for node in 0..deltas.node_count() {
        let before = match deltas.parent(node) {
            Some(above) => positions.get(above as usize).unwrap_or(&empty),
            None => &empty,
        };
        let mut position = before.as_slice().to_vec(alloc)?;
        apply_all(&mut position, deltas.changes(node));
        positions.push(position)?;
    }
    Ok(positions)
}

fn apply_all(position: &mut Vec<Cell>, changes: &[Change]) {
    for change in changes {
        if let Some(cell) = position.get_mut(usize::from(change.point)) {
            *cell = change.new;
        }
    }
}

// Whether each placement holds in a position.
fn held_in(alloc: Global, position: &[Cell], images: &Images) -> Result<Vec<bool>, CaseError> {
    let mut held = Vec::new(alloc);
    for i in 0..images.len() {
        held.push(holds(position, images, i))?;
    }
    Ok(held)
}

// Whether each cell of a placement allows what stands under it.
fn holds(position: &[Cell], images: &Images, i: usize) -> bool
    requires { i < length images.now.placements }
{
    let cols = usize::from(images.shape().cols());
    let place = images.place(i);
    for dy in 0..place.rows {
        for dx in 0..place.cols {
            let x = usize::from(place.x) + usize::from(dx);
            let y = usize::from(place.y) + usize::from(dy);
            if !allows(images.cell(i, dx, dy), position.get(y * cols + x)) {
                return false;
            }
        }
    }
    true
}

fn allows(asked: PatternCell, cell: Option<&Cell>) -> bool {
    let Some(cell) = cell else {
        return false;
    };
    match asked {
        PatternCell::Any => true,
        PatternCell::Empty => *cell == Cell::Empty,
        PatternCell::Black => *cell == Cell::Black,
        PatternCell::White => *cell == Cell::White,
        PatternCell::NotWhite => *cell != Cell::White,
        PatternCell::NotBlack => *cell != Cell::Black,
    }
}
