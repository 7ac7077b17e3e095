// Which games of a block a filter accepts.
ghost use Rattle.std.specs.Prelude.{◌↔◌, IsTrue};
ghost use Rattle.info_filter.specs.Filter.{Accepts};
ghost use Rattle.search_engine.specs.BlockCandidates.{AreAccepted};

use crate::bits::with_bit;
use info_filter::{Filter, accepts_known};
use segment_store::{Block, FinishedGame};

// The games of a block that a filter accepts, a bit for each, but for the first `skip` games, which
// aren't asked. A filter without a condition accepts all, and then no game of a whole block is
// asked.
pub(crate) fn accepted_games(filter: &Filter, block: &Block, skip: usize) -> u64
    ensures { AreAccepted filter.now skip block.now result }
{
    if skip > 0 {
        return met_games(filter, block, skip);
    }
    if filter.conditions.as_slice().is_empty() {
        return u64::MAX;
    }
    met_games(filter, block, skip)
}

// The games of a block behind the first `skip` that meet the conditions of a filter, of which each is
// asked.
fn met_games(filter: &Filter, block: &Block, skip: usize) -> u64
    ensures { AreAccepted filter.now skip block.now result }
{
    let mut accepted = 0;
    for at in skip..block.len() {
        accepted = with_bit(accepted, at, is_accepted(filter, block.get(at)));
    }
    accepted
}

// Whether a filter accepts a game, by what is kept beside its tree.
fn is_accepted(filter: &Filter, game: &FinishedGame) -> bool
    ensures { IsTrue result ↔ Accepts filter.now game.now.tree.info }
{
    accepts_known(filter, game.tree().info(), game.day(), game.outcome())
}
