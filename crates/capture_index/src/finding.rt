// The nodes at which wanted cells stand.
ghost use Rattle.std.specs.Prelude.{
  ◌≡◌,
  ◌+◌,
  ◌<◌,
  ◌↔◌,
  ℕ,
  [],
  All,
  IfNone,
  IfSome,
  OnErr,
  OnOk,
  false,
  length,
  true,
};
ghost use mathlib.Core.List.{IsPrefix};
ghost use Rattle.ready_images.specs.declared.want.Want.{Want};
ghost use Rattle.kb_geometry.specs.Board.{point_count};
ghost use Rattle.capture_index.specs.Begins.{AreFalling, HasBegun};
ghost use Rattle.capture_index.specs.Finding.{
  AreMet,
  IsCutAt,
  IsCutBy,
  is_listed,
  packed_cell,
  time_at,
};
ghost use Rattle.capture_index.specs.Narrowing.{IsLeftByLists};
ghost use Rattle.capture_index.specs.Runs.{cell_by};
ghost use Rattle.capture_index.specs.Stretches.{AreApart, IsIn};

use crate::begins::push_begins;
use crate::by_lists::Hull;
use crate::cutting::cut;
use crate::packed_runs::PackedRuns;
use crate::run::Run;
use crate::stretch::Stretch;
use crate::time::{PackedTime, Time};
use kb_geometry::NoMemory;
use ready_images::{ClassWants, Want};

impl PackedRuns {
    // The nodes at which each wanted cell is there, as stretches. After `NoMemory` none is found.
    pub(crate) fn find(
        &self,
        base: u16,
        class: ClassWants,
        found: &mut Vec<Stretch>,
        spare: &mut Vec<Stretch>,
    ) -> Result<(), NoMemory>
        requires { All (λ (w : Want). base + w.offset < point_count self.now.shape)
            class.wants.now }
        ensures nodes { OnOk result ((n : ℕ) → n < self.now.nodes → IsIn found.new.items n ↔
            AreMet self.now base class.entry.wants.now n) }
        ensures apart { OnOk result (AreApart 0 self.now.nodes found.new.items) }
        ensures refused { OnErr result (found.new.items ≡ []) }
    {
        found.clear();
        let Some(hull) = self.left(base, class) else {
            return Ok(());
        };
        found.push(Stretch {
            from: hull.from,
            to: hull.to,
        })?;
        if !hull.gap {
            return Ok(());
        }
        if let Err(error) = self.cut_all(base, class.wants, found, spare) {
            found.clear();
            return Err(error);
        }
        Ok(())
    }

    // Adds the nodes of the stretches that are the root, or whose parent isn't in them.
    pub(crate) fn push_begins(
        &self,
        stretches: &[Stretch],
        nodes: &mut Vec<u32>,
    ) -> Result<(), NoMemory>
        requires { AreFalling stretches.now }
        ensures begun { OnOk result (HasBegun self.now.branches.items stretches.now
            nodes.old.items nodes.new.items) }
        ensures kept { IsPrefix nodes.old.items nodes.new.items }
    {
        push_begins(self.branches(), stretches, nodes)?;
        Ok(())
    }

    // What words leave of all nodes, and then lists, as bounds; none, where the wants are met at no node.
    fn left(&self, base: u16, class: ClassWants) -> Option<Hull>
        requires { All (λ (w : Want). base + w.offset < point_count self.now.shape)
            class.wants.now }
        ensures some { IfSome result (IsLeftByLists self.now base class.entry.wants.now
            (length class.entry.wants.now)) }
        ensures none { IfNone result ((n : ℕ) → n < self.now.nodes →
            ¬ AreMet self.now base class.entry.wants.now n) }
    {
        let Some(left) = self.left_by_words(base, class) else {
            return None;
        };
        if left.nodes.from >= left.nodes.to {
            return None;
        }
        self.left_by_lists(base, class.wants, left)
    }

    // The word of the point so far behind base.
    pub(crate) fn time_of(&self, base: u16, offset: u16) -> PackedTime
        requires { base + offset < point_count self.now.shape }
        ensures { result ≡ time_at self.now (base + offset) }
    {
        self.times[usize::from(base) + usize::from(offset)]
    }

    // The runs of the point so far behind base, if it has a list of them.
    pub(crate) fn listed(&self, base: u16, offset: u16) -> Option<&[Run]>
        requires { base + offset < point_count self.now.shape }
        ensures some { IfSome result (λ runs. is_listed self.now (base + offset) ≡ true
            × ((n : ℕ) → cell_by runs.now n ≡ packed_cell self.now (base + offset) n)) }
        ensures none { IfNone result (is_listed self.now (base + offset) ≡ false) }
    {
        match self.time_of(base, offset).unpack() {
            Time::First { node: _, stone: _ } => None,
            Time::Many { list } => Some(self.list(list)),
            Time::Never => None,
        }
    }

    // Cuts the stretches at each wanted point with a list of runs.
    fn cut_all(
        &self,
        base: u16,
        wants: &[Want],
        found: &mut Vec<Stretch>,
        spare: &mut Vec<Stretch>,
    ) -> Result<(), NoMemory>
        requires on_board { All (λ (w : Want). base + w.offset < point_count self.now.shape)
            wants.now }
        requires apart { AreApart 0 self.now.nodes found.old.items }
        ensures nodes { OnOk result (IsCutBy self.now base wants.now (length wants.now)
            found.old.items found.new.items) }
        ensures apart { OnOk result (AreApart 0 self.now.nodes found.new.items) }
    {
        for want in wants {
            self.cut_want(base, *want, found, spare)?;
            if found.is_empty() {
                return Ok(());
            }
        }
        Ok(())
    }

    // Cuts the stretches at one wanted point, if it has a list of runs.
    fn cut_want(
        &self,
        base: u16,
        want: Want,
        found: &mut Vec<Stretch>,
        spare: &mut Vec<Stretch>,
    ) -> Result<(), NoMemory>
        requires on_board { base + want.offset < point_count self.now.shape }
        requires apart { AreApart 0 self.now.nodes found.old.items }
        ensures nodes { OnOk result (IsCutAt self.now base want found.old.items found.new.items) }
        ensures apart { OnOk result (AreApart 0 self.now.nodes found.new.items) }
    {
        let Some(runs) = self.listed(base, want.offset) else {
            return Ok(());
        };
        cut(runs, want, found, spare)?;
        Ok(())
    }
}
