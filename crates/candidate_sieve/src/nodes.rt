// The nodes of a game at which a placement may begin to hold.
ghost use Rattle.std.specs.Prelude.{◌≡◌, ◌<◌, ◌⊎◌, ◌↔◌, ℕ, Contains, IfOk, OnOk};
ghost use Rattle.std.specs.List.Sorted.{IsStrictlyIncreasing};
ghost use Rattle.kb_geometry.specs.Board.{point_count};
ghost use Rattle.capture_index.specs.NodePositions.{count_in};
ghost use Rattle.candidate_sieve.specs.NodeCandidates.{AreAsked, IsNodeCandidate};
ghost use Rattle.candidate_sieve.specs.Noting.{AreBeginningsAdded, AreBegun, BeginsAt};

use crate::asked::AskedPoints;
use capture_index::RunIndex;
use kb_geometry::{Cell, NoMemory, Shape};
use pattern_images::Images;
use std::alloc::Global;

/// The nodes of a game, ascending, at which a placement may begin to hold: the root, and each node
/// at which a point under a cell of a placement that isn't a wildcard begins to have a cell that it
/// allows. Each node with an occurrence is among them. The only error is `NoMemory`.
pub fn node_candidates(
    alloc: Global,
    runs: &RunIndex,
    images: &Images,
) -> Result<Vec<u32>, NoMemory>
    requires { images.now.shape ≡ runs.now.shape }
    ensures ascending { IfOk result (λ nodes. IsStrictlyIncreasing nodes.items) }
    ensures exact { IfOk result (λ nodes. (n : ℕ) → Contains nodes.items n
        ↔ IsNodeCandidate runs.now images.now.placements n) }
{
    candidates_under(alloc, runs, images, &AskedPoints::of(images))
}

/// The same, with the points that the placements ask for made before. The cost is that of the
/// board's points, and of the changes of the game on those that are asked for.
pub fn candidates_under(
    alloc: Global,
    runs: &RunIndex,
    images: &Images,
    points: &AskedPoints,
) -> Result<Vec<u32>, NoMemory>
    requires shape { images.now.shape ≡ runs.now.shape }
    requires points { AreAsked images.now.shape images.now.placements points.now }
    ensures ascending { IfOk result (λ nodes. IsStrictlyIncreasing nodes.items) }
    ensures exact { IfOk result (λ nodes. (n : ℕ) → Contains nodes.items n
        ↔ IsNodeCandidate runs.now images.now.placements n) }
{
    let mut nodes = begun(alloc, runs, images.shape(), points)?;
    nodes.sort_unstable();
    nodes.dedup();
    Ok(nodes)
}

// The root, and the nodes at which a point of the board begins to have a cell that was noted; some
// perhaps twice, in no order.
fn begun(
    alloc: Global,
    runs: &RunIndex,
    shape: Shape,
    points: &AskedPoints,
) -> Result<Vec<u32>, NoMemory>
    requires { shape ≡ runs.now.shape }
    ensures { IfOk result (λ nodes. AreBegun runs.now points.now nodes.items) }
{
    let mut nodes = root(alloc, runs)?;
    for point in 0..shape.count() {
        add_begun(runs, points, point, &mut nodes)?;
    }
    Ok(nodes)
}

// The root, if there is a node.
fn root(alloc: Global, runs: &RunIndex) -> Result<Vec<u32>, NoMemory>
    ensures { IfOk result (λ nodes. (n : ℕ) →
        Contains nodes.items n ↔ ((n ≡ 0) × (0 < count_in runs.now))) }
{
    let mut nodes = Vec::new(alloc);
    if runs.node_count() == 0 {
        return Ok(nodes);
    }
    nodes.push(0)?;
    Ok(nodes)
}

// Adds the nodes at which a point begins to have a cell that was noted.
fn add_begun(
    runs: &RunIndex,
    points: &AskedPoints,
    point: u16,
    nodes: &mut Vec<u32>,
) -> Result<(), NoMemory>
    requires { point < point_count runs.now.shape }
    ensures { OnOk result (AreBeginningsAdded runs.now points.now point nodes.old.items
        nodes.new.items) }
{
    add_where(runs, points, point, Cell::Empty, nodes)?;
    add_where(runs, points, point, Cell::Black, nodes)?;
    add_where(runs, points, point, Cell::White, nodes)?;
    Ok(())
}

// Adds the nodes at which a point begins to have a cell, if it was noted with it.
fn add_where(
    runs: &RunIndex,
    points: &AskedPoints,
    point: u16,
    cell: Cell,
    nodes: &mut Vec<u32>,
) -> Result<(), NoMemory>
    requires { point < point_count runs.now.shape }
    ensures { OnOk result ((n : ℕ) → Contains nodes.new.items n
        ↔ (Contains nodes.old.items n ⊎ BeginsAt runs.now points.now point cell n)) }
{
    if !points.has(point, cell) {
        return Ok(());
    }
    nodes.extend(runs.nodes_where(point, cell))?;
    Ok(())
}
