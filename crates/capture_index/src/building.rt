// The runs of a game, node by node.
ghost use Rattle.std.specs.Prelude.{◌≡◌, ◌+◌, ◌-◌, ◌<◌, ◌≤◌, ℕ, All, IfOk, IfSome, OnOk, length};
ghost use Rattle.kb_geometry.specs.declared.stone.Change.{Change};
ghost use Rattle.kb_geometry.specs.Board.{point_count};
ghost use Rattle.capture_board.specs.Changes.{with_changes};
ghost use Rattle.node_paths.specs.Parents.{IsOnPathTo};
ghost use Rattle.capture_board.specs.Deltas.{node_count, parent_of, position_at, position_where};
ghost use Rattle.capture_board.specs.StoredWalking.{with_old_cells};
ghost use Rattle.capture_index.specs.Branches.{AreBranchesTo};
ghost use Rattle.capture_index.specs.Building.{AreBuilt, IsMade};
ghost use Rattle.capture_index.specs.Finding.{IsRunIndexOf};
ghost use Rattle.capture_index.specs.Packing.{IsPacked, IsTimeOfFew, IsTimeOfRun};
ghost use Rattle.capture_index.specs.Runs.{BeginBy, position_by, runs_at};
ghost use Rattle.capture_index.specs.Lists.{AreLists};

use crate::growing::{Few, Growing};
use crate::packed_runs::PackedRuns;
use crate::run::{Branch, Run};
use crate::time::{MANY, NEVER, PackedTime, Time};
use capture_board::NodeDeltas;
use kb_geometry::{Cell, Change, Colour, NoMemory};
use std::alloc::Global;

impl PackedRuns {
    // The runs of a game. The only error is `NoMemory`.
    pub(crate) fn of(alloc: Global, deltas: &NodeDeltas) -> Result<PackedRuns, NoMemory>
        ensures { IfOk result (IsRunIndexOf deltas.now) }
    {
        let mut growing = Growing::new(alloc, deltas.shape().count(), deltas.node_count())?;
        let mut branches = Vec::new(alloc);
        for n in 0..deltas.node_count() {
            add_node(deltas, n, &mut growing, &mut branches)?;
        }
        pack(alloc, deltas, &growing, branches)
    }
}

// The old cells of these changes are there from the node on.
fn put_old(changes: &[Change], node: u16, growing: &mut Growing) -> Result<(), NoMemory>
    requires on_board { All (λ (c : Change). c.point < length growing.old) changes.now }
    requires begun { BeginBy node growing.old }
    ensures count { length growing.new ≡ length growing.old }
    ensures made { OnOk result (IsMade node (with_old_cells (position_by growing.old node)
        changes.now) growing.old growing.new) }
{
    for change in changes {
        growing.put(change.point, node, change.old)?;
    }
    Ok(())
}

// The new cells of these changes are there from the node on.
fn put_new(changes: &[Change], node: u16, growing: &mut Growing) -> Result<(), NoMemory>
    requires on_board { All (λ (c : Change). c.point < length growing.old) changes.now }
    requires begun { BeginBy node growing.old }
    ensures count { length growing.new ≡ length growing.old }
    ensures made { OnOk result (IsMade node (with_changes (position_by growing.old node)
        changes.now) growing.old growing.new) }
{
    for change in changes {
        growing.put(change.point, node, change.new)?;
    }
    Ok(())
}

// The next node: back to its parent, and on to it.
fn add_node(
    deltas: &NodeDeltas,
    n: u32,
    growing: &mut Growing,
    branches: &mut Vec<Branch>,
) -> Result<(), NoMemory>
    requires in_range { n < node_count deltas.now }
    requires built { AreBuilt deltas.now n growing.old }
    ensures built { OnOk result (AreBuilt deltas.now (n + 1) growing.new) }
    ensures branches { OnOk result (AreBranchesTo deltas.now n branches.old.items →
        AreBranchesTo deltas.now (n + 1) branches.new.items) }
{
    to_parent(deltas, n, growing, branches)?;
    put_new(deltas.changes(n), n as u16, growing)?;
    Ok(())
}

// Back to the parent of a node.
fn to_parent(
    deltas: &NodeDeltas,
    n: u32,
    growing: &mut Growing,
    branches: &mut Vec<Branch>,
) -> Result<(), NoMemory>
    requires in_range { n < node_count deltas.now }
    requires built { AreBuilt deltas.now n growing.old }
    ensures count { OnOk result (length growing.new ≡ point_count deltas.now.shape) }
    ensures made { OnOk result (IsMade n (position_where deltas.now (parent_of deltas.now n))
        growing.old growing.new) }
    ensures branches { OnOk result (AreBranchesTo deltas.now n branches.old.items →
        AreBranchesTo deltas.now (n + 1) branches.new.items) }
{
    let Some(parent) = deltas.parent(n) else {
        return Ok(());
    };
    if parent + 1 == n {
        return Ok(());
    }
    branches.push(Branch {
        node: n as u16,
        parent: parent as u16,
    })?;
    go_back(deltas, n, parent, growing)?;
    Ok(())
}

// Takes back the changes of the nodes from the one before n up to below the parent of n.
fn go_back(deltas: &NodeDeltas, n: u32, parent: u32, growing: &mut Growing) -> Result<(), NoMemory>
    requires in_range { n < node_count deltas.now }
    requires some { 1 ≤ n }
    requires above { IsOnPathTo (parent_of deltas.now) parent (n - 1) }
    requires built { AreBuilt deltas.now n growing.old }
    ensures count { OnOk result (length growing.new ≡ point_count deltas.now.shape) }
    ensures made { OnOk result (IsMade n (position_at deltas.now parent) growing.old growing.new) }
{
    let mut at = n - 1;
    while at != parent {
        put_old(deltas.changes(at), n as u16, growing)?;
        at = match deltas.parent(at) {
            Some(above) => above,
            None => return Ok(()),
        };
    }
    Ok(())
}

// Packs the runs of all points.
fn pack(
    alloc: Global,
    deltas: &NodeDeltas,
    growing: &Growing,
    mut branches: Vec<Branch>,
) -> Result<PackedRuns, NoMemory>
    requires built { AreBuilt deltas.now (node_count deltas.now) growing.now }
    requires branches { AreBranchesTo deltas.now (node_count deltas.now) branches.items }
    ensures { IfOk result (IsRunIndexOf deltas.now) }
{
    let nodes = deltas.node_count();
    let shape = deltas.shape();
    let mut times = vec![in alloc; Time::Never.packed(); usize::from(shape.count())]?;
    let mut ends = Vec::new(alloc);
    let mut runs = Vec::new(alloc);
    for p in 0..shape.count() {
        let time = pack_point(growing, p, &mut ends, &mut runs)?;
        times[usize::from(p)] = time;
    }
    ends.shrink_to_fit();
    runs.shrink_to_fit();
    branches.shrink_to_fit();
    Ok(PackedRuns {
        shape,
        nodes,
        times,
        ends,
        runs,
        branches,
    })
}

// Packs the runs of a point: in one word where it tells their cells, and else as a list.
fn pack_point(
    growing: &Growing,
    point: u16,
    ends: &mut Vec<u32>,
    runs: &mut Vec<Run>,
) -> Result<PackedTime, NoMemory>
    requires point { point < length growing.now }
    requires lists { AreLists ends.old.items runs.old.items }
    ensures { IfOk result (IsPacked (runs_at growing.now point) ends.old.items runs.old.items
        ends.new.items runs.new.items) }
{
    match one_time(growing.few(point)) {
        Some(time) => Ok(time.packed()),
        None => Ok(pack_list(growing, point, ends, runs)?),
    }
}

// When a point with one run at most has its stone, if a word can tell that.
fn one_time(few: Few) -> Option<Time>
    ensures { IfSome result (IsTimeOfFew few) }
{
    match few {
        Few::Never => Some(Time::Never),
        Few::Once(run) => time_of_run(run),
        Few::Many => None,
    }
}

// When a point with this run alone has its stone, if a word can tell that.
fn time_of_run(run: Run) -> Option<Time>
    ensures { IfSome result (IsTimeOfRun run) }
{
    if run.first >= NEVER {
        return None;
    }
    match run.cell {
        Cell::Empty => None,
        Cell::Black => Some(Time::First {
            node: run.first,
            stone: Colour::Black,
        }),
        Cell::White => Some(Time::First {
            node: run.first,
            stone: Colour::White,
        }),
    }
}

// Packs the runs of a point as a list.
fn pack_list(
    growing: &Growing,
    point: u16,
    ends: &mut Vec<u32>,
    runs: &mut Vec<Run>,
) -> Result<PackedTime, NoMemory>
    requires point { point < length growing.now }
    requires lists { AreLists ends.old.items runs.old.items }
    ensures { IfOk result (IsPacked (runs_at growing.now point) ends.old.items runs.old.items
        ends.new.items runs.new.items) }
{
    let list = ends.len();
    if list >= usize::from(MANY) {
        return Err(NoMemory);
    }
    growing.push_runs(point, runs)?;
    if runs.len() > 4_294_967_295 {
        return Err(NoMemory);
    }
    ends.push(runs.len() as u32)?;
    let time = Time::Many { list: list as u16 };
    Ok(time.packed())
}
