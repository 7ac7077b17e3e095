// The nodes of stretches at which something begins.
ghost use Rattle.std.specs.Prelude.{◌≡◌, ◌+◌, ◌<◌, ◌↔◌, ◌⊎◌, ℕ, Contains, IsTrue, OnOk, length};
ghost use mathlib.Core.List.{IsPrefix};
ghost use Rattle.capture_index.specs.Begins.{
  AreBehind,
  AreFalling,
  BeginsFor,
  HasBegun,
  IsBehindTo,
};
ghost use Rattle.capture_index.specs.Branches.{AreAscending};
ghost use Rattle.capture_index.specs.Stretches.{IsIn, IsOutside, IsWithin};

use crate::branches::{first_at, parent};
use crate::run::Branch;
use crate::stretch::Stretch;
use kb_geometry::NoMemory;

// Adds the nodes of the stretches that are the root, or whose parent isn't in them. Each is the
// first node of a stretch, or at a branch inside one, so no other nodes are looked at. What was in
// the list is still its beginning, after `NoMemory` too.
pub(crate) fn push_begins(
    branches: &[Branch],
    stretches: &[Stretch],
    nodes: &mut Vec<u32>,
) -> Result<(), NoMemory>
    requires ascending { AreAscending branches.now }
    requires falling { AreFalling stretches.now }
    ensures begun { OnOk result (HasBegun branches.now stretches.now nodes.old.items
        nodes.new.items) }
    ensures kept { IsPrefix nodes.old.items nodes.new.items }
{
    for stretch in stretches {
        push_stretch(branches, stretches, *stretch, nodes)?;
    }
    Ok(())
}

// Adds the nodes of one of the stretches.
fn push_stretch(
    branches: &[Branch],
    stretches: &[Stretch],
    stretch: Stretch,
    nodes: &mut Vec<u32>,
) -> Result<(), NoMemory>
    requires ascending { AreAscending branches.now }
    requires falling { AreFalling stretches.now }
    requires one { Contains stretches.now stretch }
    requires some { stretch.from < stretch.to }
    ensures begun { OnOk result ((x : ℕ) → Contains nodes.new.items x ↔
        (Contains nodes.old.items x ⊎
        (BeginsFor branches.now stretches.now x × IsWithin x stretch))) }
    ensures kept { IsPrefix nodes.old.items nodes.new.items }
{
    push_node(
        stretches,
        stretch.from,
        parent(branches, stretch.from),
        nodes,
    )?;
    push_behind(branches, stretches, stretch, nodes)?;
    Ok(())
}

// Adds the nodes behind the first one of a stretch that are at branches.
fn push_behind(
    branches: &[Branch],
    stretches: &[Stretch],
    stretch: Stretch,
    nodes: &mut Vec<u32>,
) -> Result<(), NoMemory>
    requires ascending { AreAscending branches.now }
    requires falling { AreFalling stretches.now }
    requires some { stretch.from < stretch.to }
    ensures begun { OnOk result ((x : ℕ) → Contains nodes.new.items x ↔
        (Contains nodes.old.items x ⊎
        IsBehindTo branches.now stretches.now stretch (length branches.now) x)) }
    ensures kept { IsPrefix nodes.old.items nodes.new.items }
{
    for at in first_at(branches, stretch.from + 1)..branches.len() {
        let branch = branches[at];
        if u32::from(branch.node) >= stretch.to {
            return Ok(());
        }
        let above = Some(u32::from(branch.parent));
        push_node(stretches, u32::from(branch.node), above, nodes)?;
    }
    Ok(())
}

// Adds the node, if its parent isn't in the stretches.
fn push_node(
    stretches: &[Stretch],
    node: u32,
    parent: Option<u32>,
    nodes: &mut Vec<u32>,
) -> Result<(), NoMemory>
    requires { AreFalling stretches.now }
    ensures begun { OnOk result ((x : ℕ) → Contains nodes.new.items x ↔
        (Contains nodes.old.items x ⊎ ((x ≡ node) × IsOutside stretches.now parent))) }
    ensures kept { IsPrefix nodes.old.items nodes.new.items }
{
    if is_outside(stretches, parent) {
        nodes.push(node)?;
    }
    Ok(())
}

// Whether there is no parent, or it isn't in the stretches.
fn is_outside(stretches: &[Stretch], parent: Option<u32>) -> bool
    requires { AreFalling stretches.now }
    ensures { IsTrue result ↔ IsOutside stretches.now parent }
{
    match parent {
        Some(parent) => !is_in(stretches, parent),
        None => true,
    }
}

// Whether the node is in one of the stretches.
fn is_in(stretches: &[Stretch], node: u32) -> bool
    requires { AreFalling stretches.now }
    ensures { IsTrue result ↔ IsIn stretches.now node }
{
    match stretches.get(count_behind(stretches, node)) {
        Some(stretch) => node < stretch.to,
        None => false,
    }
}

// How many stretches begin behind the node. They are listed first.
fn count_behind(stretches: &[Stretch], node: u32) -> usize
    requires { AreFalling stretches.now }
    ensures { AreBehind stretches.now node result }
{
    let mut low = 0;
    let mut high = stretches.len();
    while low < high {
        let middle = low + (high - low) / 2;
        if stretches[middle].from > node {
            low = middle + 1;
        } else {
            high = middle;
        }
    }
    low
}
