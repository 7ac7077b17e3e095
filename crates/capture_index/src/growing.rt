// The runs of the points while they are made.
ghost use Rattle.std.specs.Prelude.{
  ◌≡◌,
  ◌+◌,
  ◌<◌,
  ◌≤◌,
  ◌∷◌,
  ◌++◌,
  ℕ,
  [],
  IfOk,
  OnOk,
  length,
  replicate,
  slice_set,
};
ghost use Rattle.capture_index.specs.Building.{IsMade};
ghost use Rattle.capture_index.specs.Packing.{AreFew};
ghost use Rattle.capture_index.specs.Links.{AreLinks, runs_from};
ghost use Rattle.capture_index.specs.Runs.{BeginBy, BeginsBy, cell_by, position_by, runs_at};

use crate::run::Run;
use kb_geometry::{Cell, NoMemory};
use std::alloc::Global;
use std::marker::Model;

// The most links, so that each has a number; more are answered as want of memory.
const MOST: usize = 4_294_967_295;

// A run, and the one before it of its point.
#[derive(Clone, Copy, Debug)]
pub(crate) struct Link {
    // 1 more than the number of the link before it; 0 at the first.
    before: u32,
    first: u16,
    cell: Cell,
}

// For each point its runs, the latest first.
#[derive(Debug, Drop)]
pub(crate) struct Growing {
    // The number of each point's last link and 1 more; 0 where it has none.
    last: Vec<u32>,
    links: Vec<Link>,
}

impl Model for Growing {
    ghost use Rattle.std.specs.Prelude.{List, map};
    ghost use Rattle.capture_index.specs.declared.run.Run.{Run};

    ghost Value = { List (List Run) };

    ghost use Rattle.capture_index.specs.Links.{AreLinked, runs_from};

    ghost view = { λ g. map (runs_from g.links.items) g.last.items };

    ghost invariant = { λ g. AreLinked g.links.items g.last.items };
}

impl Growing {
    // Points without a run, with room for a link at each of so many nodes.
    pub(crate) fn new(alloc: Global, points: u16, nodes: u32) -> Result<Growing, NoMemory>
        ensures { IfOk result (λ g. g ≡ replicate points []) }
    {
        let last = vec![in alloc; 0u32; usize::from(points)]?;
        let links = Vec::with_capacity(alloc, nodes as usize)?;
        Ok(Growing { last, links })
    }

    // From the node on the point has the cell.
    pub(crate) fn put(&mut self, point: u16, node: u16, cell: Cell) -> Result<(), NoMemory>
        requires in_range { point < length self.old }
        requires begun { BeginBy node self.old }
        ensures count { length self.new ≡ length self.old }
        ensures made { OnOk result (IsMade node (slice_set (position_by self.old node) point cell)
            self.old self.new) }
    {
        let at = passed(&self.links, self.last[usize::from(point)], node);
        if cell_from(&self.links, at) == cell {
            self.last[usize::from(point)] = at;
            return Ok(());
        }
        let next = push_link(&mut self.links, at, node, cell)?;
        self.last[usize::from(point)] = next;
        Ok(())
    }
}

// The link, or the one before it if it begins at the node.
fn passed(links: &Vec<Link>, at: u32, node: u16) -> u32
    requires linked { AreLinks links.now.items }
    requires within { at ≤ length links.now.items }
    ensures within { result ≤ at }
    ensures past { (k : ℕ) → k < node → cell_by (runs_from links.now.items result) k ≡
        cell_by (runs_from links.now.items at) k }
    ensures begun { BeginsBy node (runs_from links.now.items at) →
        BeginsBy node (runs_from links.now.items result) }
{
    if at == 0 {
        return at;
    }
    let link = links[at as usize - 1];
    if link.first == node { link.before } else { at }
}

// The cell that the runs from a link end with.
fn cell_from(links: &Vec<Link>, at: u32) -> Cell
    requires linked { AreLinks links.now.items }
    requires within { at ≤ length links.now.items }
    ensures { (node k : ℕ) → BeginsBy node (runs_from links.now.items at) → node ≤ k →
        cell_by (runs_from links.now.items at) k ≡ result }
{
    if at == 0 {
        return Cell::Empty;
    }
    links[at as usize - 1].cell
}

// Adds a link, and tells its number and 1 more.
fn push_link(links: &mut Vec<Link>, before: u32, first: u16, cell: Cell) -> Result<u32, NoMemory>
    requires linked { AreLinks links.old.items }
    requires within { before ≤ length links.old.items }
    ensures number { IfOk result (λ at. at ≡ length links.new.items) }
    ensures more { length links.old.items ≤ length links.new.items }
    ensures linked { AreLinks links.new.items }
    ensures kept { (at : ℕ) → at ≤ length links.old.items → runs_from links.new.items at ≡
        runs_from links.old.items at }
    ensures runs { IfOk result (λ at. runs_from links.new.items at ≡
        record { first = first; cell = cell } ∷ runs_from links.old.items before) }
{
    if links.len() >= MOST {
        return Err(NoMemory);
    }
    links.push(Link {
        before,
        first,
        cell,
    })?;
    Ok(links.len() as u32)
}

// What the runs of a point are, for one word.
#[derive(Clone, Copy, Debug)]
pub(crate) enum Few {
    Never,
    Once(Run),
    Many,
}

impl Growing {
    // Whether the point has no run, or one.
    pub(crate) fn few(&self, point: u16) -> Few
        requires { point < length self.now }
        ensures { AreFew (runs_at self.now point) result }
    {
        let at = self.last[usize::from(point)];
        if at == 0 {
            return Few::Never;
        }
        let link = self.links[at as usize - 1];
        if link.before == 0 {
            Few::Once(Run {
                first: link.first,
                cell: link.cell,
            })
        } else {
            Few::Many
        }
    }

    // Adds the runs of a point.
    pub(crate) fn push_runs(&self, point: u16, runs: &mut Vec<Run>) -> Result<(), NoMemory>
        requires { point < length self.now }
        ensures { OnOk result (runs.new.items ≡ runs.old.items ++ runs_at self.now point) }
    {
        let mut at = self.last[usize::from(point)];
        while at != 0 {
            let link = self.links[at as usize - 1];
            runs.push(Run {
                first: link.first,
                cell: link.cell,
            })?;
            at = link.before;
        }
        Ok(())
    }
}
