// Games from SGF texts.
ghost use Rattle.std.specs.Prelude.{◌≡◌, ◌++◌, IfOk};

use crate::asked::number_or;
use crate::texts::number_of;
use case_files::CaseError;
use game_tree::{GameTree, build};
use segment_store::{FinishedGame, Segment, SegmentBuilder, merge};
use sgf_reader::read;
use std::alloc::Global;

/// The trees of a text.
pub(crate) fn trees_of(alloc: Global, text: &str) -> Result<Vec<GameTree>, CaseError> {
    let Ok(collection) = read(alloc, text.as_bytes()) else {
        return Err(CaseError::Bad("the games can't be read"));
    };
    match build(alloc, text.as_bytes(), &collection) {
        Ok(trees) => Ok(trees),
        Err(_) => Err(CaseError::Bad("the games have a wrong value")),
    }
}

/// The segment of the games of a text, with places from this one on.
pub(crate) fn segment_of(
    alloc: Global,
    file: &str,
    first: u32,
    text: &str,
) -> Result<Segment, CaseError> {
    let mut builder = SegmentBuilder::new(alloc);
    let mut place = first;
    for tree in trees_of(alloc, text)? {
        add_tree(alloc, file, place, tree, &mut builder)?;
        place = place.saturating_add(1);
    }
    Ok(builder.finish(alloc)?)
}

/// Adds a game.
pub(crate) fn add_tree(
    alloc: Global,
    file: &str,
    place: u32,
    tree: GameTree,
    builder: &mut SegmentBuilder,
) -> Result<(), CaseError> {
    if builder.game_count() >= 400_000 {
        return Err(CaseError::Bad("too many games"));
    }
    Ok(builder.add(alloc, file, place, tree)?)
}

/// The segments of a text in which ` + ` stands between them.
pub(crate) fn segments_of(alloc: Global, text: &str) -> Result<Vec<Segment>, CaseError> {
    let mut parts = Vec::new(alloc);
    for piece in text.split(" + ") {
        parts.push(segment_of(alloc, "games.sgf", 0, piece)?)?;
    }
    Ok(parts)
}

/// The segments of the games of a text that end before the games of these numbers.
pub(crate) fn segments_to(
    alloc: Global,
    text: &str,
    ends: &str,
) -> Result<Vec<Segment>, CaseError> {
    let mut parts = Vec::new(alloc);
    let mut trees = trees_of(alloc, text)?;
    trees.reverse();
    let mut first = 0;
    for end in ends.split(",").filter(|end| !end.is_empty()) {
        let end = number_of(end)?;
        parts.push(last_of(alloc, &mut trees, end.saturating_sub(first))?)?;
        first = end;
    }
    Ok(parts)
}

// The segment of the last trees of a list, which are taken from it, from the end.
fn last_of(alloc: Global, trees: &mut Vec<GameTree>, count: u32) -> Result<Segment, CaseError> {
    let mut builder = SegmentBuilder::new(alloc);
    for _ in 0..count {
        let tree = trees.pop().ok_or(CaseError::Bad("too few games"))?;
        add_tree(alloc, "games.sgf", 0, tree, &mut builder)?;
    }
    Ok(builder.finish(alloc)?)
}

/// Two segments as one.
pub(crate) fn merged(alloc: Global, a: &Segment, b: &Segment) -> Result<Segment, CaseError>
    ensures { IfOk result (λ both. both ≡ a.now ++ b.now) }
{
    if u64::from(a.game_count()) + u64::from(b.game_count()) > 400_000 {
        return Err(CaseError::Bad("too many games"));
    }
    Ok(merge(alloc, a, b)?)
}

/// All segments as one.
pub(crate) fn merged_all(alloc: Global, parts: &[Segment]) -> Result<Segment, CaseError> {
    let mut all = SegmentBuilder::new(alloc).finish(alloc)?;
    for part in parts {
        all = merged(alloc, &all, part)?;
    }
    Ok(all)
}

/// The segment of all games of a text.
pub(crate) fn only_segment(alloc: Global, text: &str) -> Result<Segment, CaseError> {
    let parts = segments_of(alloc, text)?;
    merged_all(alloc, &parts)
}

/// The game that is asked, `game=NUMBER`; else the first one.
pub(crate) fn only_game<'a>(asked: &str, part: &'a Segment) -> Result<&'a FinishedGame, CaseError> {
    let number = number_or(asked, "game", 0)?;
    if number >= part.game_count() {
        return Err(CaseError::Bad("no such game"));
    }
    Ok(part.finished(number))
}
