// Where a pattern begins to hold in one game.
ghost use Rattle.std.specs.Prelude.{◌≡◌, ◌<◌, ◌+◌, ◌≤◌, length};

use crate::asked::{has_word, query_of, value_of};
use crate::plain::Held;
use crate::texts::{end_list, number_of, put, put_count, put_number, put_point, separate};
use crate::walks::{
    Expected, compare, compare_at_candidates, compare_runs, compare_walks, found_at,
};
use case_files::CaseError;
use game_tree::GameTree;
use pattern_images::{Found, Images, Query, images};
use ready_images::ReadyImages;
use segment_store::FinishedGame;
use std::alloc::Global;
use std::marker::Brand;
use std::sync::ledger::Blank;

/// Appends node, upper left point and label of what was found.
pub(crate) fn put_found(out: &mut Vec<u8>, found: &[Found]) -> Result<(), CaseError> {
    let start = out.len();
    for Found { node, place } in found {
        separate(out, start, ", ")?;
        put_number(out, *node)?;
        put(out, " ")?;
        put_point(out, place.x, place.y)?;
        put(out, " ")?;
        put_number(out, u32::from(place.label.number()))?;
    }
    end_list(out, start)
}

/// `find`: where the pattern begins to hold, at the nodes that count for the query. All matchers
/// are compared with the plain definition.
pub(crate) fn everywhere(
    alloc: Global,
    asked: &str,
    game: &FinishedGame,
    out: &mut Vec<u8>,
) -> Result<(), CaseError> {
    let query = query_of(alloc, asked)?;
    let images = images(alloc, &query, game.tree().shape())?;
    let held = Held::of(alloc, game.deltas(), &images)?;
    let found = held.begun(alloc, game.deltas(), &images)?;
    let counted = counted_in(alloc, &query, game.tree(), &found)?;
    put_told(asked, &images, &counted, out)?;
    let expected = Expected {
        game,
        images: &images,
        found: &found,
    };
    compare_walks::<Brand>(alloc, expected, Blank::new(1), out)?;
    compare_at_candidates::<Brand>(alloc, expected, Blank::new(1), out)?;
    let ready = ReadyImages::new(alloc, images)?;
    compare_runs(alloc, game, &ready, &found, out)
}

// Appends what was found: how many, the numbers of the placements, or their places.
fn put_told(
    asked: &str,
    images: &Images,
    found: &[Found],
    out: &mut Vec<u8>,
) -> Result<(), CaseError> {
    if has_word(asked, "count") {
        return put_count(out, found.len());
    }
    if has_word(asked, "numbers") {
        return put_placements(out, images, found);
    }
    put_found(out, found)
}

// Appends node and number of the placement of what was found.
fn put_placements(out: &mut Vec<u8>, images: &Images, found: &[Found]) -> Result<(), CaseError> {
    let start = out.len();
    for Found { node, place } in found {
        separate(out, start, ", ")?;
        put_number(out, *node)?;
        put(out, " ")?;
        let number = continuation_table::number_of_place(images, *place);
        put_count(out, number)?;
    }
    end_list(out, start)
}

/// What of a list of places counts for a query.
pub(crate) fn counted_in(
    alloc: Global,
    query: &Query,
    tree: &GameTree,
    found: &[Found],
) -> Result<Vec<Found>, CaseError> {
    let mut counted = Vec::new(alloc);
    for one in found {
        if counts(query, tree, one.node) {
            counted.push(*one)?;
        }
    }
    Ok(counted)
}

fn counts(query: &Query, tree: &GameTree, node: u32) -> bool {
    if node >= tree.node_count() || !query.is_for(tree.shape()) {
        return false;
    }
    if query.main && !tree.is_main(node) {
        return false;
    }
    let moves = tree.move_number(node);
    query.from_move <= moves && moves <= query.to_move
}

/// `find-at`: what begins to hold at the nodes of `nodes=NUMBER,NUMBER`.
pub(crate) fn at_nodes(
    alloc: Global,
    asked: &str,
    game: &FinishedGame,
    out: &mut Vec<u8>,
) -> Result<(), CaseError> {
    let query = query_of(alloc, asked)?;
    let nodes = nodes_of(alloc, asked)?;
    let images = images(alloc, &query, game.tree().shape())?;
    let at = found_at::<Brand>(alloc, game, &images, &nodes, Blank::new(1))?;
    put_found(out, &at)?;
    let held = Held::of(alloc, game.deltas(), &images)?;
    let everywhere = held.begun(alloc, game.deltas(), &images)?;
    let mut there = Vec::new(alloc);
    for one in &everywhere {
        if nodes.contains(&one.node) {
            there.push(*one)?;
        }
    }
    compare("the definition", &at, &there, out)
}

fn nodes_of(alloc: Global, asked: &str) -> Result<Vec<u32>, CaseError> {
    let mut nodes = Vec::new(alloc);
    let value = value_of(asked, "nodes").unwrap_or("");
    for number in value.split(",") {
        if !number.is_empty() {
            nodes.push(number_of(number)?)?;
        }
    }
    Ok(nodes)
}
