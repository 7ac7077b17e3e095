// A search over a version, and over one part of it.
ghost use Rattle.std.specs.Prelude.{◌≤◌, ◌+◌, ℕ, IfOk, drop, length};
ghost use Rattle.version_publisher.specs.Contents.{items_in};
ghost use Rattle.continuation_table.specs.Table.{IsTable};
ghost use Rattle.search_engine.specs.HitNodes.{hit_nodes};
ghost use Rattle.search_engine.specs.Hits.{AreHits, AreHitsFrom};
ghost use Rattle.search_engine.specs.KeptGames.{HaveKeptNodes};
ghost use Rattle.segment_store.specs.Nodes.{nodes_of};

use crate::answer::Answer;
use crate::items::{items_of_part, items_of_version};
use crate::pieces::hits_of;
use crate::ready_query::ReadyQuery;
use crate::search_items::Searcher;
use capture_board::Steps;
use continuation_table::Table;
use info_filter::Filter;
use kb_geometry::NoMemory;
use pattern_images::{Hit, Query};
use segment_store::Segment;
use std::alloc::Global;
use std::sync::ledger::Ledger;
use std::thread::Threads;
use version_publisher::Version;

/// The hits of a query in the games of a version that a filter accepts, and their table. The games
/// are numbered from 0. Hits stand by game, then by node, then in the order of the placements.
///
/// A search that does little starts no thread. Of one that does much the games that are left are
/// searched in pieces, side by side where threads can be had: at most eight, and at most two for each
/// processor. The only error is `NoMemory`.
pub fn search<R: Threads + Sync>(
    rt: &R,
    alloc: Global,
    version: &Version<Segment>,
    query: &Query,
    filter: &Filter,
) -> Result<Answer, NoMemory>
    ensures hits { IfOk result (λ answer.
        AreHits query.now filter.now (items_in version.now.parts) answer.hits.items) }
    ensures table { IfOk result (λ answer. IsTable answer.hits.items answer.table) }
{
    let items = items_of_version(alloc, version)?;
    let ready = ReadyQuery::of(alloc, query, &items)?;
    let searcher = Searcher {
        alloc,
        ready: &ready,
        filter,
    };
    let hits = hits_of(rt, &searcher, &items)?;
    let table = Table::of(alloc, &hits)?;
    Ok(Answer { hits, table })
}

/// The hits of a query in the games of one part that a filter accepts. The games are numbered from
/// `first`.
///
/// Together at most 400,000 games are numbered. A step is one node that is visited for its hits: one
/// at which a placement begins to hold, whether or not the query looks there. The count of steps only
/// grows, by at most the number of all nodes of the games that are kept for the query, and by at least
/// the number of those at which the hits stand. The only error is `NoMemory`.
pub fn search_segment<L: Ledger>(
    alloc: Global,
    part: &Segment,
    first: u32,
    query: &Query,
    filter: &Filter,
    steps: &mut Steps<L>,
) -> Result<Vec<Hit>, NoMemory>
    requires { first + length part.now ≤ 400000 }
    ensures hits { IfOk result (λ hits.
        AreHitsFrom first query.now filter.now part.now hits.items) }
    ensures visited { IfOk result (λ hits. steps.old + hit_nodes hits.items ≤ steps.new) }
    ensures ticks { (n : ℕ) → HaveKeptNodes query.now part.now n → steps.new ≤ steps.old + n }
    ensures grows { steps.old ≤ steps.new }
{
    search_from(alloc, part, 0, first, query, filter, steps)
}

/// The hits of a query in the games of one part from the one with number `from` in the part on that a
/// filter accepts. These games are numbered from `first`.
///
/// Together at most 400,000 games are numbered. Steps are counted as in [`search_segment`]. The count
/// only grows, by at most the number of all nodes of these games, by at most that of all nodes of the
/// kept ones among them, and by at least the number of those at which the hits stand. The only error
/// is `NoMemory`.
pub fn search_from<L: Ledger>(
    alloc: Global,
    part: &Segment,
    from: u32,
    first: u32,
    query: &Query,
    filter: &Filter,
    steps: &mut Steps<L>,
) -> Result<Vec<Hit>, NoMemory>
    requires from { from ≤ length part.now }
    requires fits { first + length (drop from part.now) ≤ 400000 }
    ensures hits { IfOk result (λ hits.
        AreHitsFrom first query.now filter.now (drop from part.now) hits.items) }
    ensures visited { IfOk result (λ hits. steps.old + hit_nodes hits.items ≤ steps.new) }
    ensures ticks { steps.new ≤ steps.old + nodes_of (drop from part.now) }
    ensures kept_ticks { (n : ℕ) → HaveKeptNodes query.now (drop from part.now) n →
        steps.new ≤ steps.old + n }
    ensures grows { steps.old ≤ steps.new }
{
    let items = items_of_part(alloc, part, from, first)?;
    let ready = ReadyQuery::of(alloc, query, &items)?;
    let searcher = Searcher {
        alloc,
        ready: &ready,
        filter,
    };
    let mut hits = Vec::new(alloc);
    searcher.add_items_hits(&items, &mut hits, steps)?;
    Ok(hits)
}
