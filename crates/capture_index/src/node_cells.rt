// The cell of a point at a node, by its runs.
ghost use Rattle.std.specs.Prelude.{◌≡◌, ◌+◌, ◌<◌, [], ◌∷◌};
ghost use Rattle.kb_geometry.specs.Board.{point_count};
ghost use Rattle.capture_index.specs.Finding.{packed_cell};
ghost use Rattle.capture_index.specs.Lists.{stone_run};
ghost use Rattle.capture_index.specs.Runs.{cell_by};
ghost use Rattle.capture_index.specs.Seen.{StaysTo};

use crate::packed_runs::PackedRuns;
use crate::run::Run;
use crate::time::{Time, cell_of};
use kb_geometry::{Cell, Colour};

impl PackedRuns {
    // The cell of a point at a node.
    pub(crate) fn cell(&self, point: u16, node: u32) -> Cell
        requires { point < point_count self.now.shape }
        ensures { result ≡ packed_cell self.now point node }
    {
        match self.time_of(0, point).unpack() {
            Time::First { node: first, stone } => cell_at(&[run_of(first, stone)], node),
            Time::Many { list } => cell_at(self.list(list), node),
            Time::Never => Cell::Empty,
        }
    }

    // The next node behind this one and before `end` at which a run of the point so far behind base
    // begins; `end`, where none does.
    pub(crate) fn next_run(&self, base: u16, offset: u16, node: u32, end: u32) -> u32
        requires point { base + offset < point_count self.now.shape }
        requires before { node < end }
        ensures { StaysTo (packed_cell self.now (base + offset)) end node result }
    {
        match self.time_of(base, offset).unpack() {
            Time::First { node: first, stone } => next_of_run(run_of(first, stone), node, end),
            Time::Many { list } => next_run(self.list(list), node, end),
            Time::Never => end,
        }
    }
}

// The run that begins where a point has its stone.
fn run_of(first: u16, stone: Colour) -> Run
    ensures { result ≡ stone_run first stone }
{
    Run {
        first,
        cell: cell_of(stone),
    }
}

// The cell at a node: that of the latest run that begins at or before it.
fn cell_at(runs: &[Run], node: u32) -> Cell
    ensures { result ≡ cell_by runs.now node }
{
    for run in runs {
        if u32::from(run.first) <= node {
            return run.cell;
        }
    }
    Cell::Empty
}

// The first node of the run, if it begins behind the node and before `end`; else `end`.
fn next_of_run(run: Run, node: u32, end: u32) -> u32
    requires { node < end }
    ensures { StaysTo (cell_by (run ∷ [])) end node result }
{
    let first = u32::from(run.first);
    if first <= node {
        return end;
    }
    end.min(first)
}

// The first of the runs that begin behind the node and before `end`; `end`, where none does.
fn next_run(runs: &[Run], node: u32, end: u32) -> u32
    requires { node < end }
    ensures { StaysTo (cell_by runs.now) end node result }
{
    let mut next = end;
    for run in runs {
        let first = u32::from(run.first);
        if first <= node {
            return next;
        }
        next = next.min(first);
    }
    next
}
