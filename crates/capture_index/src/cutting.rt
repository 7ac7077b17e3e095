// Stretches that are cut at a point with a list of runs.
ghost use Rattle.std.specs.Prelude.{◌≡◌, ◌<◌, ◌≤◌, ◌↔◌, ◌⊎◌, ℕ, [], IfOk, IsTrue, OnOk, length};
ghost use Rattle.capture_index.specs.Begins.{AreFalling};
ghost use Rattle.capture_index.specs.Runs.{AreToldBehind, cell_by};
ghost use Rattle.capture_index.specs.Stretches.{AreApart, IsIn, IsWithin, is_wanted};

use crate::run::Run;
use crate::stretch::Stretch;
use crate::wanted::is_wanted;
use kb_geometry::{Cell, NoMemory};
use ready_images::Want;
use std::mem;

// Keeps the nodes of the stretches at which a point with these runs has a cell that is wanted.
pub(crate) fn cut(
    runs: &[Run],
    want: Want,
    found: &mut Vec<Stretch>,
    spare: &mut Vec<Stretch>,
) -> Result<(), NoMemory>
    requires { AreFalling found.old.items }
    ensures nodes { OnOk result ((n : ℕ) → IsIn found.new.items n ↔
        (IsIn found.old.items n × IsTrue (is_wanted want (cell_by runs.now n)))) }
    ensures apart { OnOk result ((most : ℕ) → AreApart 0 most found.old.items →
        AreApart 0 most found.new.items) }
{
    spare.clear();
    cut_each(runs, want, found.as_slice(), spare)?;
    mem::swap(found, spare);
    Ok(())
}

// Adds the nodes of the stretches at which a point with these runs has a cell that is wanted.
//
// Stretches and runs both stand with the latest first, so the runs that are passed for a stretch
// are of no use to the next ones. Each turn of the two loops below passes a run or ends its loop:
// together they are at most as many as the runs and twice the stretches.
fn cut_each(
    runs: &[Run],
    want: Want,
    stretches: &[Stretch],
    found: &mut Vec<Stretch>,
) -> Result<(), NoMemory>
    requires { AreFalling stretches.now }
    ensures nodes { OnOk result ((n : ℕ) → IsIn found.new.items n ↔
        (IsIn found.old.items n ⊎ (IsIn stretches.now n ×
        IsTrue (is_wanted want (cell_by runs.now n))))) }
    ensures apart { OnOk result ((most : ℕ) → found.old.items ≡ [] → AreApart 0 most stretches.now →
        AreApart 0 most found.new.items) }
{
    let mut at = 0;
    for stretch in stretches {
        at = cut_one(runs, at, want, *stretch, found)?;
    }
    Ok(())
}

// Adds the nodes of a stretch at which a point with these runs has a cell that is wanted. The runs
// from `start` on tell its cells, and those from the result on the cells at all nodes before it.
fn cut_one(
    runs: &[Run],
    start: usize,
    want: Want,
    stretch: Stretch,
    found: &mut Vec<Stretch>,
) -> Result<usize, NoMemory>
    requires within { start ≤ length runs.now }
    requires behind { AreToldBehind runs.now start stretch.to }
    requires some { stretch.from < stretch.to }
    ensures nodes { OnOk result ((n : ℕ) → IsIn found.new.items n ↔
        (IsIn found.old.items n ⊎ (IsWithin n stretch ×
        IsTrue (is_wanted want (cell_by runs.now n))))) }
    ensures within { IfOk result (λ next. next ≤ length runs.now) }
    ensures behind { IfOk result (λ next. AreToldBehind runs.now next stretch.from) }
    ensures apart { OnOk result ((most : ℕ) → stretch.to ≤ most →
        AreApart stretch.to most found.old.items → AreApart stretch.from most found.new.items) }
{
    let mut next = stretch.to;
    for at in pass_later(runs, start, stretch.to)..runs.len() {
        let run = runs[at];
        let first = u32::from(run.first);
        push_common(stretch, first, next, is_wanted(want, run.cell), found)?;
        next = next.min(first);
        if next <= stretch.from {
            // The run may reach into the next stretches too.
            return Ok(at);
        }
    }
    push_common(stretch, 0, next, is_wanted(want, Cell::Empty), found)?;
    Ok(runs.len())
}

// Passes the runs from `start` on that begin at the node or behind it: they tell no cell before it.
fn pass_later(runs: &[Run], start: usize, node: u32) -> usize
    requires within { start ≤ length runs.now }
    requires behind { AreToldBehind runs.now start node }
    ensures within { result ≤ length runs.now }
    ensures behind { AreToldBehind runs.now result node }
{
    for at in start..runs.len() {
        if u32::from(runs[at].first) < node {
            return at;
        }
    }
    runs.len()
}

// Adds what a stretch has in common with the nodes from one up to before another, if its cell is
// wanted.
fn push_common(
    stretch: Stretch,
    start: u32,
    end: u32,
    wanted: bool,
    found: &mut Vec<Stretch>,
) -> Result<(), NoMemory>
    ensures nodes { OnOk result ((n : ℕ) → IsIn found.new.items n ↔
        (IsIn found.old.items n ⊎ (IsWithin n stretch × (start ≤ n) × (n < end) × IsTrue wanted))) }
    ensures apart { OnOk result ((low lowest most : ℕ) → stretch.to ≤ most →
        AreApart low most found.old.items → (stretch.to ≤ low) ⊎ (end ≤ low) → lowest ≤ low →
        (lowest ≤ stretch.from) ⊎ (lowest ≤ start) → AreApart lowest most found.new.items) }
{
    let from = stretch.from.max(start);
    let to = stretch.to.min(end);
    if wanted && from < to {
        found.push(Stretch { from, to })?;
    }
    Ok(())
}
