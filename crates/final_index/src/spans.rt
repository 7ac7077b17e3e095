// From when on each point of a game had a stone, and until when it was empty.
ghost use Rattle.std.specs.Prelude.{
  ◌≡◌,
  ◌+◌,
  ◌<◌,
  ◌⊎◌,
  ℕ,
  All,
  IfOk,
  IfSome,
  length,
};
ghost use Rattle.kb_geometry.specs.declared.stone.Change.{Change};
ghost use Rattle.capture_board.specs.Deltas.{node_count};
ghost use Rattle.final_index.specs.Spans.{
  AreAllNoted,
  AreSpansOf,
  AreSpansTo,
  IsBackAt,
  IsNoted,
  below_at,
};

use capture_board::NodeDeltas;
use kb_geometry::{Cell, Change, NoMemory};
use std::alloc::Global;
use std::cmp::min;

// Two numbers for each point of a game's board, by which many points that never had a stone while
// their neighbour was empty are known: a point had a stone at the one node at the earliest, and its
// neighbour was empty before the other alone.
#[derive(Debug, Drop)]
pub(crate) struct Spans {
    // At each node before this one the point is empty.
    pub(crate) stone_from: Vec<u32>,
    // At each node from this one on the point has a stone.
    pub(crate) empty_below: Vec<u32>,
}

impl Spans {
    // Those of a game with these changes. The only error is `NoMemory`.
    pub(crate) fn of(alloc: Global, deltas: &NodeDeltas) -> Result<Spans, NoMemory>
        ensures { IfOk result (AreSpansOf deltas.now) }
    {
        let points = usize::from(deltas.shape().count());
        let end = deltas.node_count();
        let stone_from = vec![in alloc; end; points]?;
        let empty_below = vec![in alloc; end; points]?;
        let mut spans = Spans {
            stone_from,
            empty_below,
        };
        for n in 0..end {
            spans.add_node(deltas, n);
        }
        Ok(spans)
    }

    // One node more.
    fn add_node(&mut self, deltas: &NodeDeltas, n: u32)
        requires in_range { n < node_count deltas.now }
        requires before { AreSpansTo deltas.now n self.old }
        ensures { AreSpansTo deltas.now (n + 1) self.new }
    {
        let end = deltas.node_count();
        self.go_back(deltas.parent(n), n, end);
        self.add_changes(deltas.changes(n), n, end);
    }

    // The changes of a node.
    fn add_changes(&mut self, changes: &[Change], n: u32, end: u32)
        requires stone_from { All (λ (c : Change). c.point < length self.old.stone_from.items)
            changes.now }
        requires empty_below { All (λ (c : Change). c.point < length self.old.empty_below.items)
            changes.now }
        ensures { AreAllNoted changes.now (length changes.now) n end self.old self.new }
    {
        for change in changes {
            self.note(*change, n, end);
        }
    }

    // One change of a node.
    fn note(&mut self, change: Change, n: u32, end: u32)
        requires stone_from { change.point < length self.old.stone_from.items }
        requires empty_below { change.point < length self.old.empty_below.items }
        ensures { IsNoted change n end self.old self.new }
    {
        let point = usize::from(change.point);
        match change.new {
            Cell::Empty => self.empty_below[point] = end,
            Cell::Black | Cell::White => {
                self.empty_below[point] = n;
                self.stone_from[point] = min(self.stone_from[point], n);
            }
        }
    }

    // Goes to a node from the one before it. Where that isn't its parent, what became a stone behind
    // the parent isn't there.
    fn go_back(&mut self, parent: Option<u32>, n: u32, end: u32)
        requires before { IfSome parent (λ m. m < n) }
        requires recent { (p : ℕ) → p < length self.old.empty_below.items →
            (below_at self.old p ≡ end) ⊎ (below_at self.old p < n) }
        ensures from { self.new.stone_from.items ≡ self.old.stone_from.items }
        ensures count { length self.new.empty_below.items ≡ length self.old.empty_below.items }
        ensures each { (p : ℕ) → p < length self.old.empty_below.items →
            IsBackAt parent n end (below_at self.old p) (below_at self.new p) }
    {
        let Some(above) = parent else {
            return;
        };
        if above + 1 == n {
            return;
        }
        for p in 0..self.empty_below.len() {
            if self.empty_below[p] > above {
                self.empty_below[p] = end;
            }
        }
    }
}
