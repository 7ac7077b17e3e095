// The occurrences at chosen nodes of a game.
ghost use Rattle.std.specs.Prelude.{◌≡◌, ◌+◌, ◌≤◌, IfOk, OnOk};
ghost use Rattle.std.specs.List.Sorted.{IsStrictlyIncreasing};
ghost use Rattle.capture_board.specs.Deltas.{node_count};
ghost use Rattle.capture_board.specs.Walking.{node_before, StandsIn};
ghost use Rattle.pattern_occurrences.specs.declared.occurrence.Occurrence.{Occurrence};
ghost use Rattle.pattern_occurrences.specs.Occurrences.{occurrences_at_nodes};
ghost use Rattle.line_matcher.specs.Nodes.{IsFoundAmong};
ghost use Rattle.line_matcher.specs.FoundOccurrences.{AreFound};

use crate::changed::Concerned;
use crate::matcher::Matcher;
use crate::walk::{add_node, with_places};
use capture_board::{NodeDeltas, Steps, Walker};
use kb_geometry::NoMemory;
use pattern_images::{Found, Images};
use pattern_occurrences::Occurrence;
use std::alloc::Global;
use std::sync::ledger::Ledger;

/// The list of [`match_game`](crate::match_game) kept to the given nodes.
///
/// The images are those of a board of the game's shape, and the nodes ascend, each once. A number
/// past the last node is allowed: nothing is found there. The walk ends at the last given node, so
/// the count of steps grows by at most the number of the game's nodes. The only error is
/// `NoMemory`.
pub fn match_at<L: Ledger>(
    alloc: Global,
    deltas: &NodeDeltas,
    images: &Images,
    nodes: &[u32],
    steps: &mut Steps<L>,
) -> Result<Vec<Found>, NoMemory>
    requires shape { images.now.shape ≡ deltas.now.shape }
    requires ascending { IsStrictlyIncreasing nodes.now }
    ensures found { IfOk result (λ found. AreFound images.now.placements
        (occurrences_at_nodes deltas.now images.now.placements nodes.now) found.items) }
    ensures ticks { steps.new ≤ steps.old + node_count deltas.now }
    ensures grows { steps.old ≤ steps.new }
{
    let matcher = Matcher::new(alloc, images)?;
    let mut occurrences = Vec::new(alloc);
    add_at_nodes(&matcher, deltas, nodes, &mut occurrences, steps)?;
    with_places(alloc, images, occurrences.as_slice())
}

// Adds what begins to hold at the given nodes of a game.
fn add_at_nodes<L: Ledger>(
    matcher: &Matcher,
    deltas: &NodeDeltas,
    nodes: &[u32],
    found: &mut Vec<Occurrence>,
    steps: &mut Steps<L>,
) -> Result<(), NoMemory>
    requires shape { matcher.now.images.now.shape ≡ deltas.now.shape }
    requires ascending { IsStrictlyIncreasing nodes.now }
    ensures found { OnOk result (IsFoundAmong deltas.now matcher.now.images.now.placements
        nodes.now (node_count deltas.now) found.old.items found.new.items) }
    ensures ticks { steps.new ≤ steps.old + node_count deltas.now }
    ensures grows { steps.old ≤ steps.new }
{
    let mut walker = Walker::new(deltas);
    let mut points = Concerned::none();
    let mut entered = 0;
    for node in nodes {
        if *node >= deltas.node_count() {
            return Ok(());
        }
        let end = *node + 1;
        enter_to(&mut walker, deltas, entered, end, steps);
        add_node(matcher, deltas, &walker, &mut points, *node, found)?;
        entered = end;
    }
    Ok(())
}

// Enters the nodes from one number up to another, in order of the text.
fn enter_to<L: Ledger>(
    walker: &mut Walker,
    deltas: &NodeDeltas,
    entered: u32,
    end: u32,
    steps: &mut Steps<L>,
)
    requires in_range { end ≤ node_count deltas.now }
    requires ordered { entered ≤ end }
    requires stands { StandsIn deltas.now walker.old }
    requires last { walker.old.here ≡ node_before entered }
    ensures stands { StandsIn deltas.now walker.new }
    ensures last { walker.new.here ≡ node_before end }
    ensures steps { steps.new + entered ≡ steps.old + end }
{
    for node in entered..end {
        walker.enter_next(deltas, node, steps);
    }
}
