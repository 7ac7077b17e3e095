// How a game goes on at a node where a placement holds.
ghost use Rattle.std.specs.Prelude.{◌≡◌};

use crate::asked::{number_or, query_of, value_of};
use crate::texts::{colour_name, point_of, put, put_point};
use case_files::CaseError;
use continuation_table::next_of;
use kb_geometry::Point;
use pattern_images::{Found, Images, Next, images};
use segment_store::FinishedGame;
use std::alloc::Global;

/// `next`: how the game goes on at `node=NUMBER` for the placement on the point of `on=POINT` with
/// the label `label=NUMBER`; else for that at the first point, and with the label 0.
pub(crate) fn answer(
    alloc: Global,
    asked: &str,
    game: &FinishedGame,
    out: &mut Vec<u8>,
) -> Result<(), CaseError> {
    let query = query_of(alloc, asked)?;
    let point = point_of(value_of(asked, "on").unwrap_or("aa"))?;
    let label = number_or(asked, "label", 0)?;
    let node = number_or(asked, "node", 0)?;
    let images = images(alloc, &query, game.tree().shape())?;
    let i = placement_at(&images, point, label)?;
    put_next(out, next_at(game, &images, i, node)?)
}

/// The continuation at a node of a placement.
pub(crate) fn next_at(
    game: &FinishedGame,
    images: &Images,
    i: usize,
    node: u32,
) -> Result<Option<Next>, CaseError>
    requires { images.now.shape ≡ game.now.tree.shape }
{
    let tree = game.tree();
    if i >= images.len() {
        return Err(CaseError::Bad("no such placement"));
    }
    if node >= tree.node_count() {
        return Err(CaseError::Bad("no such node"));
    }
    let place = images.place(i);
    Ok(next_of(tree, game.deltas(), images, &Found { node, place }))
}

// The number of the placement at this point under this label.
fn placement_at(images: &Images, point: Point, label: u32) -> Result<usize, CaseError> {
    for i in 0..images.len() {
        let place = images.place(i);
        if place.x == point.x && place.y == point.y && u32::from(place.label.number()) == label {
            return Ok(i);
        }
    }
    Err(CaseError::Bad("no such placement"))
}

/// Appends a continuation.
pub(crate) fn put_next(out: &mut Vec<u8>, next: Option<Next>) -> Result<(), CaseError> {
    let Some(next) = next else {
        return put(out, "none");
    };
    put(out, colour_name(next.colour))?;
    put(out, " ")?;
    put_point(out, next.x, next.y)?;
    put(out, if next.now { " now" } else { " later" })
}
