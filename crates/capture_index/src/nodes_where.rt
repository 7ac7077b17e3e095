// The nodes at which a point begins to have a cell.
ghost use Rattle.std.specs.Prelude.{◌≡◌, ◌+◌, ◌<◌, ◌≤◌, ℕ, IfSome, false};
ghost use Rattle.std.specs.Iterator.{YieldsFirst, item_count};
ghost use Rattle.kb_geometry.specs.Board.{point_count};
ghost use Rattle.capture_index.specs.NodePositions.{cell_begins_at, count_in, nodes_where};
ghost use Rattle.capture_index.specs.Seen.{IsNextBegin};

use crate::run_index::RunIndex;
use kb_geometry::Cell;
use std::marker::Model;

/// The nodes, ascending, at which a point has a cell, and which are the root or whose parent has
/// another cell there. Contracts see it as the list of the nodes that are left.
// It goes from run to run, and inside a run with the cell from branch to branch.
#[derive(Debug, Drop)]
pub struct NodesWhere<'a> {
    index: &'a RunIndex,
    point: u16,
    cell: Cell,
    next: u32,
}

impl<'a> Model for NodesWhere<'a> {
    ghost use Rattle.std.specs.Prelude.{ℕ, ◌<◌, List};
    ghost use Rattle.kb_geometry.specs.Board.{point_count};
    ghost use Rattle.capture_index.specs.NodePositions.{nodes_where};

    ghost Value = { List ℕ };

    ghost view = { λ r. nodes_where r.index.now r.point r.cell r.next };

    ghost invariant = { λ r. r.point < point_count r.index.now.shape };
}

impl RunIndex {
    /// The nodes, ascending, at which a point has a cell, and which are the root or have a parent
    /// with another cell there.
    pub fn nodes_where(&self, point: u16, cell: Cell) -> NodesWhere<'_>
        requires { point < point_count self.now.shape }
        ensures { result ≡ nodes_where self.now point cell 0 }
    {
        NodesWhere {
            index: self,
            point,
            cell,
            next: 0,
        }
    }
}

impl<'a> Iterator for NodesWhere<'a> {
    type Item = u32;

    ghost next_gives = { YieldsFirst (λ rest. rest) };

    ghost remaining = { item_count (λ rest. rest) };

    fn next(&mut self) -> Option<u32> {
        let node = next_begin(self.index, self.point, self.cell, self.next)?;
        self.next = node + 1;
        Some(node)
    }
}

// The first node from this one on at which the point begins to have the cell.
fn next_begin(index: &RunIndex, point: u16, cell: Cell, from: u32) -> Option<u32>
    requires { point < point_count index.now.shape }
    ensures next { IsNextBegin index.now point cell from result }
    ensures room { IfSome result (λ n. n < 4294967295) }
{
    let nodes = index.node_count();
    let mut node = from;
    while node < nodes {
        if begins(index, point, cell, node) {
            return Some(node);
        }
        node = next_place(index, point, cell, node);
    }
    None
}

// Whether the point has the cell at the node, which is the root or whose parent has another one.
fn begins(index: &RunIndex, point: u16, cell: Cell, node: u32) -> bool
    requires point { point < point_count index.now.shape }
    requires in_range { node < count_in index.now }
    ensures { result ≡ cell_begins_at index.now point cell node }
{
    if index.cell(point, node) != cell {
        return false;
    }
    match index.parent(node) {
        Some(above) => index.cell(point, above) != cell,
        None => true,
    }
}

// The first node behind this one at which the point may begin to have the cell: where its next run
// begins, or at a branch before that if it has the cell. The number of nodes, where there is none.
fn next_place(index: &RunIndex, point: u16, cell: Cell, node: u32) -> u32
    requires point { point < point_count index.now.shape }
    requires in_range { node < count_in index.now }
    ensures more { node < result }
    ensures most { result ≤ count_in index.now }
    ensures none { (k : ℕ) → node < k → k < result → cell_begins_at index.now point cell k ≡ false }
{
    let run = index.next_run(point, 0, node, index.node_count());
    if index.cell(point, node) == cell {
        run.min(index.next_branch(node))
    } else {
        run
    }
}
