// The nodes that the words of points leave of those at which wants are met.
ghost use Rattle.std.specs.Prelude.{
  ◌≡◌,
  ◌+◌,
  ◌<◌,
  ◌≤◌,
  ℕ,
  All,
  IfNone,
  IfSome,
  length,
};
ghost use Prim.Native.Nat.{min};
ghost use Rattle.kb_geometry.specs.Board.{point_count};
ghost use Rattle.ready_images.specs.declared.want.Want.{Want};
ghost use Rattle.capture_index.specs.Finding.{AreMet, ArePointsFrom, time_at};
ghost use Rattle.capture_index.specs.Lists.{IsWantedBy, one_run};
ghost use Rattle.capture_index.specs.Narrowing.{IsLeftBy, IsNarrowed, IsOnSide};
ghost use Rattle.capture_index.specs.Stretches.{IsWithin};

use crate::packed_runs::PackedRuns;
use crate::stretch::Stretch;
use crate::time::{PackedTime, Time, cell_of};
use crate::wanted::is_wanted;
use kb_geometry::Cell;
use ready_images::{ClassWants, Want};

// What words leave.
#[derive(Clone, Copy, Debug)]
pub(crate) struct Left {
    // The nodes at which wants whose points have one run at most are met.
    pub(crate) nodes: Stretch,
    // Where the wants stand whose points have a list of runs.
    pub(crate) listed: Listed,
}

// Wants from one number up to before another one.
#[derive(Clone, Copy, Debug)]
pub(crate) struct Listed {
    pub(crate) first: usize,
    pub(crate) end: usize,
}

impl Listed {
    // The range with a want more, which stands behind the others.
    fn with(self, k: usize) -> Listed
        requires { k < 18446744073709551615 }
        ensures first { result.first ≡ min self.first k }
        ensures end { result.end ≡ k + 1 }
    {
        Listed {
            first: self.first.min(k),
            end: k + 1,
        }
    }
}

impl PackedRuns {
    // What the words of the points of wants leave; none, where it is seen that the wants are met at no
    // node.
    pub(crate) fn left_by_words(&self, base: u16, class: ClassWants) -> Option<Left>
        requires { All (λ (w : Want). base + w.offset < point_count self.now.shape)
            class.wants.now }
        ensures some { IfSome result (IsLeftBy self.now base class.entry.wants.now
            (length class.entry.wants.now)) }
        ensures none { IfNone result ((n : ℕ) → n < self.now.nodes →
            ¬ AreMet self.now base class.entry.wants.now n) }
    {
        // Then the base need not be a point.
        if class.wants.is_empty() {
            return Some(self.all_nodes());
        }
        let points = self.points_from(base);
        let Some(stones) = self.with_stones(base, points, class) else {
            return None;
        };
        let Some(left) = self.with_mixed(base, points, class, stones) else {
            return None;
        };
        self.with_empties(base, points, class, left)
    }

    // All nodes, and no want with a list.
    fn all_nodes(&self) -> Left
        ensures nodes { result.nodes ≡ record { from = 0; to = self.now.nodes } }
        ensures listed { result.listed ≡ record { first = 0; end = 0 } }
    {
        Left {
            nodes: Stretch {
                from: 0,
                to: self.nodes,
            },
            listed: Listed { first: 0, end: 0 },
        }
    }

    // The words of the points from the base on.
    fn points_from(&self, base: u16) -> &[PackedTime]
        requires { base ≤ point_count self.now.shape }
        ensures { ArePointsFrom self.now base result.now }
    {
        &self.times[usize::from(base)..]
    }

    // The word of the point so far behind the base. In a loop this takes less than `time_of`, which
    // adds base and offset each time.
    fn time_behind(&self, base: u16, points: &[PackedTime], offset: u16) -> PackedTime
        requires points { ArePointsFrom self.now base points.now }
        requires on_board { base + offset < point_count self.now.shape }
        ensures { result ≡ time_at self.now (base + offset) }
    {
        points[usize::from(offset)]
    }

    // What is left by the words of the points that are to have a stone.
    fn with_stones(&self, base: u16, points: &[PackedTime], class: ClassWants) -> Option<Left>
        requires on_board { All (λ (w : Want). base + w.offset < point_count self.now.shape)
            class.wants.now }
        requires points { ArePointsFrom self.now base points.now }
        ensures some { IfSome result (IsLeftBy self.now base class.entry.wants.now class.entry.mixed) }
        ensures none { IfNone result ((n : ℕ) → n < self.now.nodes →
            ¬ AreMet self.now base class.entry.wants.now n) }
    {
        let mut listed = Listed {
            first: class.wants.len(),
            end: 0,
        };
        let mut latest = PackedTime::at_root();
        for k in 0..class.mixed {
            let want = class.wants[k];
            let time = self.time_behind(base, points, want.offset);
            if time.unpack().is_many() {
                listed = listed.with(k);
                continue;
            }
            if !time.has_colour(is_wanted(want, Cell::White)) {
                return None;
            }
            latest = latest.later_of(time);
        }
        let from = latest.begin_before(self.nodes);
        let to = self.nodes;
        Some(Left {
            nodes: Stretch { from, to },
            listed,
        })
    }

    // What is left by the words of the points that may have a stone or be empty too.
    fn with_mixed(
        &self,
        base: u16,
        points: &[PackedTime],
        class: ClassWants,
        left: Left,
    ) -> Option<Left>
        requires on_board { All (λ (w : Want). base + w.offset < point_count self.now.shape)
            class.wants.now }
        requires points { ArePointsFrom self.now base points.now }
        requires left { IsLeftBy self.now base class.wants.now class.mixed left }
        ensures some { IfSome result (IsLeftBy self.now base class.entry.wants.now
            class.entry.empties) }
        ensures none { IfNone result ((n : ℕ) → n < self.now.nodes →
            ¬ AreMet self.now base class.entry.wants.now n) }
    {
        let mut nodes = left.nodes;
        let mut listed = left.listed;
        for k in class.mixed..class.empties {
            let want = class.wants[k];
            let time = self.time_behind(base, points, want.offset).unpack();
            if time.is_many() {
                listed = listed.with(k);
                continue;
            }
            let Some(next) = with_time(nodes, time, want) else {
                return None;
            };
            nodes = next;
        }
        Some(Left { nodes, listed })
    }

    // What is left by the words of the points that are to be empty too. There is little to do for each
    // point, since most placements that a game may have by its sets end here: a point has its stone
    // for good before another one has the stone that is wanted there.
    fn with_empties(
        &self,
        base: u16,
        points: &[PackedTime],
        class: ClassWants,
        left: Left,
    ) -> Option<Left>
        requires on_board { All (λ (w : Want). base + w.offset < point_count self.now.shape)
            class.wants.now }
        requires points { ArePointsFrom self.now base points.now }
        requires left { IsLeftBy self.now base class.wants.now class.empties left }
        ensures some { IfSome result (IsLeftBy self.now base class.entry.wants.now
            (length class.entry.wants.now)) }
        ensures none { IfNone result ((n : ℕ) → n < self.now.nodes →
            ¬ AreMet self.now base class.entry.wants.now n) }
    {
        let Stretch { from, to } = left.nodes;
        let mut listed = left.listed;
        let mut earliest = Time::Never.packed();
        for k in class.empties..class.wants.len() {
            let time = self.time_behind(base, points, class.wants[k].offset);
            if time.unpack().is_many() {
                listed = listed.with(k);
                continue;
            }
            if time.has_stone_at(from) {
                return None;
            }
            earliest = earliest.earlier_of(time);
        }
        let to = earliest.end_before(to);
        Some(Left {
            nodes: Stretch { from, to },
            listed,
        })
    }
}

// Those of the nodes at which a point with one run at most has a cell that is wanted; none, where
// there are none.
fn with_time(nodes: Stretch, time: Time, want: Want) -> Option<Stretch>
    ensures some { IfSome result (IsNarrowed nodes (IsWantedBy want (one_run time))) }
    ensures none { IfNone result ((n : ℕ) → IsWithin n nodes →
        ¬ IsWantedBy want (one_run time) n) }
{
    let empty = is_wanted(want, Cell::Empty);
    match time {
        Time::First { node, stone } => {
            let filled = is_wanted(want, cell_of(stone));
            with_change(nodes, u32::from(node), empty, filled)
        }
        Time::Many { list: _ } => with_change(nodes, 0, empty, empty),
        Time::Never => with_change(nodes, 0, empty, empty),
    }
}

// Those of the nodes that are before a node, where that is asked for, and those from it on, where that
// is; none, where neither is.
fn with_change(nodes: Stretch, node: u32, before: bool, from: bool) -> Option<Stretch>
    ensures some { IfSome result (IsNarrowed nodes (IsOnSide node before from)) }
    ensures none { IfNone result ((n : ℕ) → ¬ IsOnSide node before from n) }
{
    if before {
        if from {
            return Some(nodes);
        }
        return Some(Stretch {
            from: nodes.from,
            to: nodes.to.min(node),
        });
    }
    if from {
        return Some(Stretch {
            from: nodes.from.max(node),
            to: nodes.to,
        });
    }
    None
}
