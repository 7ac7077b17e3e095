// The texts of the searches of a block.
ghost use Rattle.std.specs.Prelude.{◌≡◌, ◌++◌, IfOk, List, OnOk, length, map, ℕ};
ghost use Rattle.continuation_table.specs.Table.{IsTable};
ghost use Rattle.search_engine.specs.Hits.{AreHits};
ghost use Rattle.session_core.specs.Answers.{IsSearched};
ghost use Rattle.session_core.specs.Stores.{view_of};
ghost use Rattle.version_publisher.specs.Contents.{items_in};
ghost use Rattle.serial_run.specs.Block.{AreAskedFor};
ghost use Rattle.serial_run.specs.Steps.{AreAnsweredFrom};

use hit_collectors::Collector;
use kb_geometry::NoMemory;
use query_script::PlacedSearch;
use search_engine::{Answer, Asked, game_count, search_each};
use segment_store::Segment;
use session_core::Session;
use std::alloc::Global;
use std::thread::Threads;
use version_publisher::Version;

/// The texts of the searches of a block, in order, each over a version of its own. The first few are
/// made one after another as long as each does little, and those behind them side by side, where
/// threads can be had ([`search_each`]). Their hits are given to the session's boxes in order of the
/// block. The only error is `NoMemory`.
pub fn block_text<R: Threads + Sync, C: Collector>(
    rt: &R,
    alloc: Global,
    session: &mut Session<C>,
    searches: &[PlacedSearch],
    versions: &[&Version<Segment>],
) -> Result<Vec<u8>, NoMemory>
    requires { length versions.now ≡ length searches.now }
    ensures { IfOk result (λ text.
        AreAnsweredFrom (map (λ v. view_of v.now) versions.now) searches.now session.old text.items
        session.new) }
{
    let asked = asked_for(alloc, searches, versions)?;
    let answers = search_each(rt, alloc, &asked)?;
    let mut text = Vec::new(alloc);
    for i in 0..searches.len() {
        deliver(session, &searches[i], versions[i], &answers[i], &mut text)?;
    }
    Ok(text)
}

// The searches of a block, each over the version in its place.
fn asked_for<'a>(
    alloc: Global,
    searches: &'a [PlacedSearch],
    versions: &[&'a Version<Segment>],
) -> Result<Vec<Asked<'a>>, NoMemory>
    requires { length versions.now ≡ length searches.now }
    ensures { IfOk result (λ asked. AreAskedFor searches.now versions.now asked.items) }
{
    let mut asked = Vec::with_capacity(alloc, searches.len())?;
    for i in 0..searches.len() {
        let placed = &searches[i];
        asked.push(Asked {
            version: versions[i],
            query: &placed.query,
            filter: &placed.filter,
        })?;
    }
    Ok(asked)
}

// Appends the text of a search over a version, by its answer, and gives its hits to the boxes.
fn deliver<C: Collector>(
    session: &mut Session<C>,
    placed: &PlacedSearch,
    version: &Version<Segment>,
    answer: &Answer,
    out: &mut Vec<u8>,
) -> Result<(), NoMemory>
    requires hits { AreHits placed.now.query placed.now.filter (items_in version.now.parts)
        answer.now.hits.items }
    requires table { IsTable answer.now.hits.items answer.now.table }
    ensures { OnOk result ((text : List ℕ)
        × IsSearched placed.now.line (view_of version.now) placed.now.query placed.now.filter
        session.old text session.new × (out.new.items ≡ out.old.items ++ text)) }
{
    session.deliver(
        placed.line,
        version.number(),
        game_count(version),
        answer,
        out,
    )
}
