// What searches ask the runs of a game.
ghost use Rattle.std.specs.Prelude.{
  ◌≡◌,
  ◌+◌,
  ◌<◌,
  ◌≤◌,
  ◌↔◌,
  ◌⊎◌,
  ℕ,
  [],
  All,
  Contains,
  IfOk,
  IfSome,
  OnErr,
  OnOk,
  length,
  slice_index_or,
};
ghost use mathlib.Core.List.{IsPrefix};
ghost use Rattle.capture_index.specs.declared.stretch.Stretch.{Stretch};
ghost use Rattle.ready_images.specs.declared.want.Want.{Want};
ghost use Rattle.kb_geometry.specs.Board.{point_count};
ghost use Rattle.capture_index.specs.NodePositions.{cell_in, count_in, parent_in, positions_of};
ghost use Rattle.capture_index.specs.Seen.{GoesOnTo, StaysTo};
ghost use Rattle.capture_index.specs.Stretches.{
  AreApart,
  AreWantedAt,
  BeginsIn,
  IsIn,
  IsUnchangedAt,
};
ghost use Rattle.ready_images.specs.Wants.{no_want};

use crate::branches::{next_branch, parent};
use crate::packed_runs::PackedRuns;
use crate::stretch::Stretch;
use capture_board::NodeDeltas;
use kb_geometry::{Cell, NoMemory, Shape};
use ready_images::{ClassWants, Want};
use std::alloc::Global;
use std::marker::Model;

/// For each point of a game the runs of nodes, in order of the text, at which it has one cell, and
/// the parents of the nodes.
///
/// Contracts see the positions at the nodes and their parents. Nodes are numbered from 0, the root,
/// in order of the text.
#[derive(Debug, Drop)]
pub struct RunIndex {
    packed: PackedRuns,
}

impl Model for RunIndex {
    ghost use Rattle.capture_index.specs.NodePositions.{NodePositions};

    ghost Value = { NodePositions };

    ghost use Rattle.capture_index.specs.Seen.{seen_by};

    ghost view = { λ r. seen_by r.packed };
}

impl RunIndex {
    /// The runs of a game with these changes. The only error is `NoMemory`.
    pub fn of(alloc: Global, deltas: &NodeDeltas) -> Result<RunIndex, NoMemory>
        ensures { IfOk result (λ index. index ≡ positions_of deltas.now) }
    {
        let packed = PackedRuns::of(alloc, deltas)?;
        Ok(RunIndex { packed })
    }

    /// The board.
    pub fn shape(&self) -> Shape
        ensures { result ≡ self.now.shape }
    {
        self.packed.shape()
    }

    /// How many nodes there are.
    pub fn node_count(&self) -> u32
        ensures value { result ≡ count_in self.now }
        ensures most { result ≤ 65536 }
    {
        self.packed.node_count()
    }

    /// The cell of a point at a node.
    pub fn cell(&self, point: u16, node: u32) -> Cell
        requires point { point < point_count self.now.shape }
        requires in_range { node < count_in self.now }
        ensures { result ≡ cell_in self.now point node }
    {
        self.packed.cell(point, node)
    }

    /// The parent of a node. The root has none.
    pub fn parent(&self, node: u32) -> Option<u32>
        requires { node < count_in self.now }
        ensures value { result ≡ parent_in self.now node }
        ensures before { IfSome result (λ m. m < node) }
    {
        parent(self.packed.branches(), node)
    }

    // The next node behind this one and before `end` at which a run of the point so far behind base
    // begins; `end`, where none does.
    pub(crate) fn next_run(&self, base: u16, offset: u16, node: u32, end: u32) -> u32
        requires point { base + offset < point_count self.now.shape }
        requires before { node < end }
        requires in_range { end ≤ count_in self.now }
        ensures { StaysTo (cell_in self.now (base + offset)) end node result }
    {
        self.packed.next_run(base, offset, node, end)
    }

    /// The next node behind this one, in order of the text, at which a run of one of the wants'
    /// points begins; the number of nodes, where none does. Before it these points keep their cells.
    /// Which cells are wanted doesn't count.
    pub fn unchanged_to(&self, base: u16, wants: &[Want], node: u32) -> u32
        requires on_board { All (λ (w : Want). base + w.offset < point_count self.now.shape)
            wants.now }
        requires in_range { node < count_in self.now }
        ensures more { node < result }
        ensures most { result ≤ count_in self.now }
        ensures stays { (k : ℕ) → node ≤ k → k < result → (w : ℕ) → w < length wants.now →
            IsUnchangedAt self.now base (slice_index_or wants.now w no_want) node k }
    {
        let mut to = self.node_count();
        for want in wants {
            to = self.next_run(base, want.offset, node, to);
        }
        to
    }

    // The first branch behind the node; the number of nodes, where there is none.
    pub(crate) fn next_branch(&self, node: u32) -> u32
        requires { node < count_in self.now }
        ensures { GoesOnTo (parent_in self.now) (count_in self.now) node result }
    {
        next_branch(self.packed.branches(), node, self.packed.node_count())
    }

    /// Finds the nodes at which each wanted cell is there, as stretches, the latest first. The class
    /// tells which cells are wanted, each on the point so far behind the one with number `base`. What
    /// was in `found` before is gone. `spare` is room for work, and holds nothing that counts. The only
    /// error is `NoMemory`, and then nothing is in `found`.
    pub fn find(
        &self,
        base: u16,
        class: ClassWants,
        found: &mut Vec<Stretch>,
        spare: &mut Vec<Stretch>,
    ) -> Result<(), NoMemory>
        requires { All (λ (w : Want). base + w.offset < point_count self.now.shape)
            class.wants.now }
        ensures nodes { OnOk result ((n : ℕ) → n < count_in self.now → IsIn found.new.items n ↔
            AreWantedAt self.now base class.entry.wants.now n) }
        ensures apart { OnOk result (AreApart 0 (count_in self.now) found.new.items) }
        ensures few { OnOk result (length found.new.items ≤ count_in self.now) }
        ensures refused { OnErr result (found.new.items ≡ []) }
    {
        self.packed.find(base, class, found, spare)?;
        Ok(())
    }

    /// Adds the nodes of the stretches that are the root, or whose parent isn't in them; some
    /// perhaps twice, in no order. The stretches stand apart, as those of [`Self::find`] do. The
    /// only error is `NoMemory`. After it too the list begins with what was in it before.
    pub fn push_begins(&self, stretches: &[Stretch], nodes: &mut Vec<u32>) -> Result<(), NoMemory>
        requires { AreApart 0 (count_in self.now) stretches.now }
        ensures begun { OnOk result ((x : ℕ) → Contains nodes.new.items x ↔
            (Contains nodes.old.items x ⊎ BeginsIn self.now stretches.now x)) }
        ensures kept { IsPrefix nodes.old.items nodes.new.items }
        ensures most { count_in self.now ≤ 65536 }
    {
        self.packed.push_begins(stretches, nodes)?;
        Ok(())
    }
}
