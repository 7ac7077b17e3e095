// The openings of a version.
ghost use Rattle.std.specs.Prelude.{◌≡◌, ◌≤◌, ◌+◌, IfOk, filter, length, map, nat_le};
ghost use Rattle.std.specs.Map.{values_of};
ghost use Rattle.version_publisher.specs.Contents.{items_in};
ghost use Rattle.opening_tree.specs.declared.answer.Opening.{Opening};
ghost use Rattle.opening_tree.specs.Openings.{IsOpenings};
ghost use Rattle.opening_tree.specs.StoredGames.{AreOpeningsOf};

use crate::answer::Opening;
use crate::opening_table::OpeningTable;
use crate::openings_of_games::OpeningsOfGames;
use kb_geometry::{NoMemory, Shape};
use segment_store::{FinishedGame, Segment, games};
use std::alloc::Global;
use version_publisher::Version;

/// The openings of the games of a version on boards of this shape, down to a depth, that have at
/// least so many entries. They stand by their first entry. The only error is `NoMemory`.
pub fn opening(
    alloc: Global,
    version: &Version<Segment>,
    shape: Shape,
    depth: u32,
    least: u32,
) -> Result<Vec<Opening>, NoMemory>
    ensures { IfOk result (λ openings.
        IsOpenings shape depth least (items_in version.now.parts) openings.items) }
{
    let games = games(alloc, version)?;
    let openings = openings_in(alloc, Asked { shape, depth }, 0, games.as_slice())?;
    listed(alloc, &openings, least)
}

// On which boards openings are asked for, and down to which move number.
#[derive(Clone, Copy, Debug)]
pub(crate) struct Asked {
    pub(crate) shape: Shape,
    pub(crate) depth: u32,
}

// The openings of these games, which are numbered from a first number on, those with few entries
// too. The only error is `NoMemory`.
pub(crate) fn openings_in(
    alloc: Global,
    asked: Asked,
    first: u32,
    games: &[&FinishedGame],
) -> Result<OpeningTable, NoMemory>
    requires { first + length games.now ≤ 400000 }
    ensures { IfOk result (λ openings.
        AreOpeningsOf first asked.shape asked.depth (map (λ g. g.now) games.now)
        openings.entries) }
{
    let mut openings = OpeningsOfGames::new(alloc, asked)?;
    for at in 0..games.len() {
        openings.add_game(alloc, first + at as u32, games[at])?;
    }
    Ok(openings.into_openings())
}

// Those of the openings that have at least so many entries, as they are answered. The only error is
// `NoMemory`.
pub(crate) fn listed(
    alloc: Global,
    openings: &OpeningTable,
    least: u32,
) -> Result<Vec<Opening>, NoMemory>
    ensures { IfOk result (λ listed. listed.items ≡ filter (λ (o : Opening). nat_le least o.count)
        (values_of openings.now.entries)) }
{
    let mut listed = Vec::new(alloc);
    for at in 0..openings.len() {
        if openings.counts(at).count >= u64::from(least) {
            listed.push(openings.shown(alloc, at)?)?;
        }
    }
    Ok(listed)
}
