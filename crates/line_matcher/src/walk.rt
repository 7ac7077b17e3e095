// A walk over the nodes of a game that finds what begins to hold at each.
ghost use Rattle.std.specs.Prelude.{◌≡◌, ◌+◌, ◌≤◌, ◌<◌, All, Some, IfOk, OnOk, length};
ghost use Rattle.kb_geometry.specs.declared.stone.Change.{Change};
ghost use Rattle.kb_geometry.specs.Board.{point_count};
ghost use Rattle.capture_board.specs.Deltas.{node_count};
ghost use Rattle.capture_board.specs.Walking.{StandsIn};
ghost use Rattle.pattern_occurrences.specs.declared.occurrence.Occurrence.{Occurrence};
ghost use Rattle.pattern_occurrences.specs.Occurrences.{occurrences_in};
ghost use Rattle.line_matcher.specs.Concerned.{AreConcerned, no_points};
ghost use Rattle.line_matcher.specs.Nodes.{IsFoundAtRoot, IsFoundByChanges, IsFoundAtNode, IsFoundTo};
ghost use Rattle.line_matcher.specs.FoundOccurrences.{AreFound};

use crate::changed::{Concerned, bounds, whole};
use crate::matcher::Matcher;
use crate::visit::Visit;
use capture_board::{NodeDeltas, Steps, Walker};
use kb_geometry::{Change, NoMemory};
use pattern_images::{Found, Images};
use pattern_occurrences::Occurrence;
use std::alloc::Global;
use std::sync::ledger::Ledger;

/// The nodes of a game and the placements that begin to hold there, as [`match_with`] lists them,
/// each with its place. The program finds them by runs; this is the plain form that tests compare
/// with.
///
/// The images are those of a board of the game's shape. The count of steps only grows, by at most
/// the number of the game's nodes. The only error is `NoMemory`.
pub fn match_game<L: Ledger>(
    alloc: Global,
    deltas: &NodeDeltas,
    images: &Images,
    steps: &mut Steps<L>,
) -> Result<Vec<Found>, NoMemory>
    requires { images.now.shape ≡ deltas.now.shape }
    ensures found { IfOk result (λ found. AreFound images.now.placements
        (occurrences_in deltas.now images.now.placements) found.items) }
    ensures ticks { steps.new ≤ steps.old + node_count deltas.now }
    ensures grows { steps.old ≤ steps.new }
{
    let matcher = Matcher::new(alloc, images)?;
    let occurrences = match_with(alloc, deltas, &matcher, steps)?;
    with_places(alloc, images, occurrences.as_slice())
}

/// The nodes of a game and the numbers of the placements that begin to hold there: a placement
/// begins at a node where it holds, if that is the root or it doesn't hold at the parent. They
/// stand by node, and at one node in the order of the placements.
///
/// The matcher's images are those of a board of the game's shape; it may serve for many games. The
/// count of steps only grows, by at most the number of the game's nodes. The only error is
/// `NoMemory`.
pub fn match_with<L: Ledger>(
    alloc: Global,
    deltas: &NodeDeltas,
    matcher: &Matcher,
    steps: &mut Steps<L>,
) -> Result<Vec<Occurrence>, NoMemory>
    requires { matcher.now.images.now.shape ≡ deltas.now.shape }
    ensures found { IfOk result (λ found. found.items
        ≡ occurrences_in deltas.now matcher.now.images.now.placements) }
    ensures ticks { steps.new ≤ steps.old + node_count deltas.now }
    ensures grows { steps.old ≤ steps.new }
{
    let mut walker = Walker::new(deltas);
    match_along(alloc, deltas, matcher, &mut walker, steps)
}

/// The same, by a walker that was made before, for whatever game. It has room for the greatest
/// board, so where there are many games it is made once.
pub fn match_along<L: Ledger>(
    alloc: Global,
    deltas: &NodeDeltas,
    matcher: &Matcher,
    walker: &mut Walker,
    steps: &mut Steps<L>,
) -> Result<Vec<Occurrence>, NoMemory>
    requires { matcher.now.images.now.shape ≡ deltas.now.shape }
    ensures found { IfOk result (λ found. found.items
        ≡ occurrences_in deltas.now matcher.now.images.now.placements) }
    ensures ticks { steps.new ≤ steps.old + node_count deltas.now }
    ensures grows { steps.old ≤ steps.new }
{
    let mut found = Vec::new(alloc);
    add_nodes(matcher, deltas, walker, &mut found, steps)?;
    Ok(found)
}

// Occurrences with the places of their placements.
pub(crate) fn with_places(
    alloc: Global,
    images: &Images,
    occurrences: &[Occurrence],
) -> Result<Vec<Found>, NoMemory>
    requires { All (λ (o : Occurrence). o.placement < length images.now.placements)
        occurrences.now }
    ensures { IfOk result (λ found. AreFound images.now.placements occurrences.now found.items) }
{
    let mut found = Vec::new(alloc);
    for occurrence in occurrences {
        found.push(Found {
            node: occurrence.node,
            place: images.place(occurrence.placement as usize),
        })?;
    }
    Ok(found)
}

// Adds what begins to hold at the nodes of a game.
fn add_nodes<L: Ledger>(
    matcher: &Matcher,
    deltas: &NodeDeltas,
    walker: &mut Walker,
    found: &mut Vec<Occurrence>,
    steps: &mut Steps<L>,
) -> Result<(), NoMemory>
    requires { matcher.now.images.now.shape ≡ deltas.now.shape }
    ensures found { OnOk result (IsFoundTo deltas.now matcher.now.images.now.placements
        (node_count deltas.now) found.old.items found.new.items) }
    ensures ticks { steps.new ≤ steps.old + node_count deltas.now }
    ensures grows { steps.old ≤ steps.new }
{
    walker.restart(deltas);
    let mut points = Concerned::none();
    for node in 0..deltas.node_count() {
        walker.enter_next(deltas, node, steps);
        add_node(matcher, deltas, walker, &mut points, node, found)?;
    }
    Ok(())
}

// Adds what begins to hold at the node where the walker stands.
pub(crate) fn add_node(
    matcher: &Matcher,
    deltas: &NodeDeltas,
    walker: &Walker,
    points: &mut Concerned,
    node: u32,
    found: &mut Vec<Occurrence>,
) -> Result<(), NoMemory>
    requires in_range { node < node_count deltas.now }
    requires shape { matcher.now.images.now.shape ≡ deltas.now.shape }
    requires stands { StandsIn deltas.now walker.now }
    requires here { walker.now.here ≡ Some node }
    requires none { points.old ≡ no_points }
    ensures found { OnOk result (IsFoundAtNode deltas.now matcher.now.images.now.placements node
        found.old.items found.new.items) }
    ensures none { OnOk result (points.new ≡ no_points) }
{
    match deltas.parent(node) {
        None => add_root(matcher, walker, node, found),
        Some(_) => add_child(matcher, walker, points, node, deltas.changes(node), found),
    }
}

// Adds what begins to hold at the root: all that holds there.
fn add_root(
    matcher: &Matcher,
    walker: &Walker,
    node: u32,
    found: &mut Vec<Occurrence>,
) -> Result<(), NoMemory>
    requires { walker.now.shape ≡ matcher.now.images.now.shape }
    ensures { OnOk result (IsFoundAtRoot matcher.now.images.now walker.now.position node
        found.old.items found.new.items) }
{
    let visit = Visit {
        node,
        walker,
        changed: None,
    };
    matcher.add_area(&visit, whole(matcher.shape()), found)
}

// Adds what begins to hold at a node with a parent, and leaves no point behind.
fn add_child(
    matcher: &Matcher,
    walker: &Walker,
    points: &mut Concerned,
    node: u32,
    changes: &[Change],
    found: &mut Vec<Occurrence>,
) -> Result<(), NoMemory>
    requires shape { walker.now.shape ≡ matcher.now.images.now.shape }
    requires on_board { All (λ (c : Change). c.point < point_count matcher.now.images.now.shape)
        changes.now }
    requires none { points.old ≡ no_points }
    ensures found { OnOk result (IsFoundByChanges matcher.now.images.now walker.now.position
        changes.now node found.old.items found.new.items) }
    ensures none { OnOk result (points.new ≡ no_points) }
{
    points.fill(changes);
    add_touched(matcher, walker, points, node, changes, found)?;
    points.clear();
    Ok(())
}

// Adds what holds and is touched by the changes, which concern these points.
fn add_touched(
    matcher: &Matcher,
    walker: &Walker,
    points: &Concerned,
    node: u32,
    changes: &[Change],
    found: &mut Vec<Occurrence>,
) -> Result<(), NoMemory>
    requires shape { walker.now.shape ≡ matcher.now.images.now.shape }
    requires on_board { All (λ (c : Change). c.point < point_count matcher.now.images.now.shape)
        changes.now }
    requires concerned { AreConcerned changes.now points.now }
    ensures { OnOk result (IsFoundByChanges matcher.now.images.now walker.now.position
        changes.now node found.old.items found.new.items) }
{
    let Some(into) = bounds(matcher.shape(), changes) else {
        return Ok(());
    };
    let visit = Visit {
        node,
        walker,
        changed: Some(points),
    };
    matcher.add_area(&visit, matcher.reach(into), found)
}
