// How many games and nodes a version has.
ghost use Rattle.std.specs.Prelude.{◌≡◌, ◌≤◌, IfOk, map};
ghost use Rattle.version_publisher.specs.Contents.{items_in};
ghost use Rattle.import_work.specs.Course.{trees_in};
ghost use Rattle.import_work.specs.Outcome.{counts_of, nodes_of_trees};
ghost use Rattle.import_work.specs.Rooms.{AreCountsWithinLimits};

use import_work::Counts;
use kb_geometry::NoMemory;
use search_engine::game_count;
use segment_store::{FinishedGame, Segment, games};
use std::alloc::Global;
use version_publisher::Version;

// The games and nodes of a version that is within the limits of the base.
pub(crate) fn counts_in(alloc: Global, version: &Version<Segment>) -> Result<Counts, NoMemory>
    requires { AreCountsWithinLimits (counts_of (trees_in (items_in version.now.parts))) }
    ensures { IfOk result (λ counts. counts ≡ counts_of (trees_in (items_in version.now.parts))) }
{
    let games = games(alloc, version)?;
    Ok(Counts {
        games: game_count(version),
        nodes: node_count(&games),
    })
}

// The nodes of games, not more than a base may have.
fn node_count(games: &[&FinishedGame]) -> u32
    requires { nodes_of_trees (trees_in (map (λ g. g.now) games.now)) ≤ 67108864 }
    ensures { result ≡ nodes_of_trees (trees_in (map (λ g. g.now) games.now)) }
{
    let mut nodes = 0;
    for game in games {
        nodes += game.tree().node_count();
    }
    nodes
}
