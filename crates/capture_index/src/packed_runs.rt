// The runs of a game as they are kept.
ghost use Rattle.std.specs.Prelude.{◌≡◌, ◌<◌, ◌≤◌, All, length};
ghost use Rattle.kb_geometry.specs.Board.{point_count};
ghost use Rattle.capture_index.specs.declared.run.Branch.{Branch};
ghost use Rattle.capture_index.specs.Branches.{AreAscending};
ghost use Rattle.capture_index.specs.Lists.{AreLists, IsWord, list_in, list_start};

use crate::run::{Branch, Run};
use crate::time::PackedTime;
use kb_geometry::Shape;

// For each point of a game the runs of nodes with one cell, in order of the text: a word where it
// tells them, and else a list.
#[derive(Debug, Drop)]
pub(crate) struct PackedRuns {
    pub(crate) shape: Shape,
    pub(crate) nodes: u32,
    pub(crate) times: Vec<PackedTime>,
    // Where the list with each number ends; each begins where the one before ends.
    pub(crate) ends: Vec<u32>,
    // The lists one behind the other, each with the latest run first.
    pub(crate) runs: Vec<Run>,
    // By node ascending.
    pub(crate) branches: Vec<Branch>,
    ghost few: { nodes ≤ 65536 },
    ghost points: { length times.items ≡ point_count shape },
    ghost lists: { AreLists ends.items runs.items },
    ghost ascending: { AreAscending branches.items },
    ghost above: { All (λ (b : Branch). b.parent < b.node) branches.items },
    ghost within: { All (λ (b : Branch). b.node < nodes) branches.items },
    ghost words: { All (IsWord ends.items) times.items },
}

impl PackedRuns {
    pub(crate) fn shape(&self) -> Shape
        ensures { result ≡ self.now.shape }
    {
        self.shape
    }

    pub(crate) fn node_count(&self) -> u32
        ensures value { result ≡ self.now.nodes }
        ensures most { result ≤ 65536 }
    {
        self.nodes
    }

    pub(crate) fn branches(&self) -> &[Branch]
        ensures { result.now ≡ self.now.branches.items }
    {
        self.branches.as_slice()
    }

    // The runs of a list, the latest first.
    pub(crate) fn list(&self, list: u16) -> &[Run]
        requires { list < length self.now.ends.items }
        ensures { result.now ≡ list_in self.now.ends.items self.now.runs.items list }
    {
        let ends = self.ends.as_slice();
        let start = list_start(ends, usize::from(list));
        let end = ends[usize::from(list)] as usize;
        &self.runs[start..end]
    }
}

// Where a list of runs begins: where the one before it ends.
fn list_start(ends: &[u32], k: usize) -> usize
    requires { k < length ends.now }
    ensures { result ≡ list_start ends.now k }
{
    if k == 0 { 0 } else { ends[k - 1] as usize }
}
