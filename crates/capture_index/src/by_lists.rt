// The nodes that the lists of runs of points leave of those at which wants are met.
ghost use Rattle.std.specs.Prelude.{
  ◌≡◌,
  ◌+◌,
  ◌<◌,
  ◌≤◌,
  ◌↔◌,
  ℕ,
  All,
  IfNone,
  IfSome,
  IsTrue,
  List,
  false,
  length,
};
ghost use Prim.Native.Nat.{min};
ghost use Rattle.kb_geometry.specs.Board.{point_count};
ghost use Rattle.capture_index.specs.declared.run.Run.{Run};
ghost use Rattle.ready_images.specs.declared.want.Want.{Want};
ghost use Rattle.capture_index.specs.Finding.{AreMet};
ghost use Rattle.capture_index.specs.Hulls.{IsHullTo, IsInHull, IsSmaller};
ghost use Rattle.capture_index.specs.Lists.{IsWantedBy};
ghost use Rattle.capture_index.specs.Narrowing.{IsLeftBy, IsLeftByLists};

use crate::by_words::Left;
use crate::packed_runs::PackedRuns;
use crate::run::Run;
use crate::wanted::is_wanted;
use kb_geometry::Cell;
use ready_images::Want;

// The nodes from one up to before another, and whether some of them may not be wanted.
#[derive(Clone, Copy, Debug)]
pub(crate) struct Hull {
    pub(crate) from: u32,
    pub(crate) to: u32,
    pub(crate) gap: bool,
}

impl PackedRuns {
    // The nodes that the lists of the points of wants leave of those that words leave; none, where it
    // is seen that the wants are met at no node. So placements are ruled out before stretches are cut.
    pub(crate) fn left_by_lists(&self, base: u16, wants: &[Want], left: Left) -> Option<Hull>
        requires on_board { All (λ (w : Want). base + w.offset < point_count self.now.shape)
            wants.now }
        requires left { IsLeftBy self.now base wants.now (length wants.now) left }
        requires some { left.nodes.from < left.nodes.to }
        ensures some { IfSome result (IsLeftByLists self.now base wants.now (length wants.now)) }
        ensures none { IfNone result ((n : ℕ) → n < self.now.nodes →
            ¬ AreMet self.now base wants.now n) }
    {
        let mut hull = Hull {
            from: left.nodes.from,
            to: left.nodes.to,
            gap: false,
        };
        for k in left.listed.first..left.listed.end {
            let want = wants[k];
            let Some(runs) = self.listed(base, want.offset) else {
                continue;
            };
            let Some(next) = with_runs(hull, runs, want) else {
                return None;
            };
            hull = next;
        }
        Some(hull)
    }
}

// The hull with a want of a point with these runs; none, where it is met at none of its nodes.
fn with_runs(hull: Hull, runs: &[Run], want: Want) -> Option<Hull>
    ensures some { IfSome result (IsSmaller hull (IsWantedBy want runs.now)) }
    ensures whole { IfSome result (λ after. after.gap ≡ false → (n : ℕ) →
        IsInHull after n → IsWantedBy want runs.now n) }
    ensures none { IfNone result ((n : ℕ) → IsInHull hull n → ¬ IsWantedBy want runs.now n) }
{
    let here = hull_of(runs, want, hull.from, hull.to);
    let from = hull.from.max(here.from);
    if from >= here.to {
        return None;
    }
    Some(Hull {
        from,
        to: here.to,
        gap: hull.gap || here.gap,
    })
}

// The stretch that has, of the nodes from `start` up to before `end`, those at which a point with
// these runs has a cell that is wanted. It may begin before `start`.
pub(crate) fn hull_of(runs: &[Run], want: Want, start: u32, end: u32) -> Hull
    ensures kept { (n : ℕ) → start ≤ n → n < end → IsWantedBy want runs.now n →
        (result.from ≤ n) × (n < result.to) }
    ensures whole { result.gap ≡ false → (n : ℕ) → result.from ≤ n → n < result.to →
        IsWantedBy want runs.now n }
    ensures from { result.from ≤ end }
    ensures to { result.to ≤ end }
{
    let mut hull = Hull {
        from: end,
        to: end,
        gap: false,
    };
    let mut next = end;
    for run in runs {
        let first = u32::from(run.first);
        hull = with_piece(hull, first, next, is_wanted(want, run.cell));
        next = next.min(first);
        if next <= start {
            return hull;
        }
    }
    with_piece(hull, 0, next, is_wanted(want, Cell::Empty))
}

// The hull of what is wanted from `to` on, with the nodes from `from` on up to there: all of them
// are wanted, or none.
fn with_piece(hull: Hull, from: u32, to: u32, wanted: bool) -> Hull
    ensures { (want : Want) (runs : List Run) (end : ℕ) →
        IsHullTo (IsWantedBy want runs) end to hull →
        ((n : ℕ) → from ≤ n → n < to → IsWantedBy want runs n ↔ IsTrue wanted) →
        IsHullTo (IsWantedBy want runs) end (min to from) result }
{
    if to <= from {
        return hull;
    }
    if wanted {
        return Hull {
            from,
            to: hull.to,
            gap: hull.gap || hull.from != to,
        };
    }
    if hull.from == hull.to {
        return Hull {
            from,
            to: from,
            gap: hull.gap,
        };
    }
    hull
}
