// Statements that are answered beside an import.
ghost use Rattle.std.specs.Prelude.{
  ◌≡◌,
  ◌≤◌,
  ◌∷◌,
  [],
  List,
  ℕ,
  IfOk,
  IfSome,
  IsErrOf,
  None,
  OnErr,
  length,
  map,
  take,
};
ghost use mathlib.Core.List.{IsPrefix};
ghost use Rattle.kb_edges.specs.Faults.{Rose};
ghost use Rattle.kb_edges.specs.Told.{IfTold};
ghost use Rattle.import_work.specs.Log.{Segment};
ghost use Rattle.search_run.specs.Beside.{
  HasAnswered,
  HasAnsweredAll,
  Reaches,
  StopsBeside,
  block_at,
};
ghost use Rattle.search_run.specs.Seen.{HaveSeen, IsVersionOf};
ghost use Rattle.session_core.specs.Stores.{view_of};
ghost use Rattle.session_core.specs.Watches.{WatchesFit};
ghost use Rattle.version_publisher.specs.Contents.{items_in};
ghost use Rattle.serial_run.specs.Steps.{AreAnsweredFrom, LeavesBase};

use crate::searchers::Searchers;
use hit_collectors::Collector;
use import_segments::OpenName;
use kb_edges::Sink;
use kb_geometry::NoMemory;
use query_script::{Placed, PlacedSearch, Statement};
use segment_store::Segment;
use serial_run::{Stopped, block_text, version_text, write_all};
use session_core::Session;
use std::alloc::Global;
use std::sync::Wait;
use std::thread::Threads;
use version_publisher::Version;

// Answers statements beside an import, one after another, up to the first one that waits for the
// import's end. Tells how many they are. What the session's searcher has seen begins with the games
// that the session's watched searches cover, before it and behind it.
pub(crate) fn answer_beside<J: OpenName, R: Threads + Wait + Sync, K: Sink, C: Collector>(
    rt: &R,
    alloc: Global,
    session: &mut Session<C>,
    searchers: &mut Searchers<J>,
    held: Version<Segment>,
    placed: &[Placed],
    out: &mut K,
) -> Result<usize, Stopped>
    requires held { IsVersionOf held searchers.old.own.seen }
    requires fit { WatchesFit (items_in searchers.old.own.seen) session.old }
    ensures answered { IfTold (K.written out.old) (λ before. IfOk result (λ count.
        HasAnsweredAll (HaveSeen searchers.old.own searchers.old.block.items) held.number
        session.old (take count placed.now) (HaveSeen searchers.new.own searchers.new.block.items)
        session.new before (K.written out.new))) }
    ensures stopped { IfTold (K.written out.old) (λ before. OnErr result ((batch : ℕ) →
        StopsBeside batch (HaveSeen searchers.old.own searchers.old.block.items) held.number
        session.old placed.now (HaveSeen searchers.new.own searchers.new.block.items) before
        (K.written out.new))) }
    ensures fit { IfOk result (λ count.
        WatchesFit (items_in searchers.new.own.seen) session.new) }
    ensures few { IfOk result (λ count. count ≤ length placed.now) }
    ensures seen { (log : List Segment) → HaveSeen searchers.new.own searchers.new.block.items log →
        HaveSeen searchers.old.own searchers.old.block.items log }
    ensures sink_fault { IsErrOf result Stopped.SinkFault →
        Rose (K.faults out.old) (K.faults out.new) }
    ensures sink_later { K.faults out.old ≤ K.faults out.new }
{
    let mut held = held;
    let mut count = 0;
    while count < placed.len() {
        match answer_one(rt, alloc, session, searchers, held, &placed[count], out)? {
            Some(version) => held = version,
            None => return Ok(count),
        }
        count += 1;
    }
    Ok(count)
}

// Answers a statement beside an import, and hands back the version that is held then: a block from a
// version for each search. None where the statement waits for the import's end; then nothing is
// answered.
fn answer_one<J: OpenName, R: Threads + Wait + Sync, K: Sink, C: Collector>(
    rt: &R,
    alloc: Global,
    session: &mut Session<C>,
    searchers: &mut Searchers<J>,
    held: Version<Segment>,
    placed: &Placed,
    out: &mut K,
) -> Result<Option<Version<Segment>>, Stopped>
    requires held { IsVersionOf held searchers.old.own.seen }
    requires fit { WatchesFit (items_in searchers.old.own.seen) session.old }
    ensures answered { IfTold (K.written out.old) (λ before. IfOk result (λ found.
        IfSome found (λ version. (batch : ℕ) →
        HasAnswered batch (HaveSeen searchers.old.own searchers.old.block.items) held.number
        session.old (placed.now ∷ []) (HaveSeen searchers.new.own searchers.new.block.items)
        version.number session.new before (K.written out.new)))) }
    ensures stopped { IfTold (K.written out.old) (λ before. OnErr result ((batch : ℕ) →
        StopsBeside batch (HaveSeen searchers.old.own searchers.old.block.items) held.number
        session.old (placed.now ∷ []) (HaveSeen searchers.new.own searchers.new.block.items)
        before (K.written out.new))) }
    ensures version { IfOk result (λ found. IfSome found (λ version.
        IsVersionOf version searchers.new.own.seen)) }
    ensures fit { IfOk result (λ found.
        WatchesFit (items_in searchers.new.own.seen) session.new) }
    ensures waits { IfOk result (λ found. found ≡ None →
        (session.new ≡ session.old) × (K.written out.new ≡ K.written out.old)) }
    ensures seen { (log : List Segment) → HaveSeen searchers.new.own searchers.new.block.items log →
        HaveSeen searchers.old.own searchers.old.block.items log }
    ensures sink_fault { IsErrOf result Stopped.SinkFault →
        Rose (K.faults out.old) (K.faults out.new) }
    ensures sink_later { K.faults out.old ≤ K.faults out.new }
{
    match &placed.statement {
        Statement::Together { searches } => {
            let searches = searches.as_slice();
            let version = answer_block(rt, alloc, session, searchers, held, searches, out)?;
            Ok(Some(version))
        }
        _ => answer_from_one(rt, alloc, session, searchers, held, placed, out),
    }
}

// Answers a statement beside an import from one version, which is held then. None where the statement
// waits for the import's end; then nothing is answered.
fn answer_from_one<J: OpenName, R: Threads + Wait + Sync, K: Sink, C: Collector>(
    rt: &R,
    alloc: Global,
    session: &mut Session<C>,
    searchers: &mut Searchers<J>,
    held: Version<Segment>,
    placed: &Placed,
    out: &mut K,
) -> Result<Option<Version<Segment>>, Stopped>
    requires held { IsVersionOf held searchers.old.own.seen }
    requires fit { WatchesFit (items_in searchers.old.own.seen) session.old }
    ensures answered { IfTold (K.written out.old) (λ before. IfOk result (λ found.
        IfSome found (λ version. (batch : ℕ) →
        HasAnswered batch (HaveSeen searchers.old.own searchers.old.block.items) held.number
        session.old (placed.now ∷ []) (HaveSeen searchers.new.own searchers.new.block.items)
        version.number session.new before (K.written out.new)))) }
    ensures stopped { IfTold (K.written out.old) (λ before. OnErr result ((batch : ℕ) →
        StopsBeside batch (HaveSeen searchers.old.own searchers.old.block.items) held.number
        session.old (placed.now ∷ []) (HaveSeen searchers.new.own searchers.new.block.items)
        before (K.written out.new))) }
    ensures version { IfOk result (λ found. IfSome found (λ version.
        IsVersionOf version searchers.new.own.seen)) }
    ensures fit { IfOk result (λ found.
        WatchesFit (items_in searchers.new.own.seen) session.new) }
    ensures waits { IfOk result (λ found. found ≡ None →
        (session.new ≡ session.old) × (K.written out.new ≡ K.written out.old)) }
    ensures seen { (log : List Segment) → HaveSeen searchers.new.own searchers.new.block.items log →
        HaveSeen searchers.old.own searchers.old.block.items log }
    ensures sink_fault { IsErrOf result Stopped.SinkFault →
        Rose (K.faults out.old) (K.faults out.new) }
    ensures sink_later { K.faults out.old ≤ K.faults out.new }
{
    let Some(version) = version_for(rt, alloc, searchers, held, &placed.statement)? else {
        return Ok(None);
    };
    let text = version_text(rt, alloc, session, placed, &version)?;
    write_all(out, &text)?;
    Ok(Some(version))
}

// Answers a block beside an import, each search from a version that a searcher of its own finds, and
// hands back a version that is at least as late as each.
fn answer_block<J: OpenName, R: Threads + Wait + Sync, K: Sink, C: Collector>(
    rt: &R,
    alloc: Global,
    session: &mut Session<C>,
    searchers: &mut Searchers<J>,
    held: Version<Segment>,
    searches: &[PlacedSearch],
    out: &mut K,
) -> Result<Version<Segment>, Stopped>
    requires held { IsVersionOf held searchers.old.own.seen }
    requires fit { WatchesFit (items_in searchers.old.own.seen) session.old }
    ensures answered { IfTold (K.written out.old) (λ before. IfOk result (λ version.
        (line batch : ℕ) → HasAnswered batch
        (HaveSeen searchers.old.own searchers.old.block.items) held.number session.old
        (block_at line searches.now ∷ [])
        (HaveSeen searchers.new.own searchers.new.block.items) version.number session.new before
        (K.written out.new))) }
    ensures stopped { IfTold (K.written out.old) (λ before. OnErr result ((line batch : ℕ) →
        StopsBeside batch (HaveSeen searchers.old.own searchers.old.block.items) held.number
        session.old (block_at line searches.now ∷ [])
        (HaveSeen searchers.new.own searchers.new.block.items) before (K.written out.new))) }
    ensures version { IfOk result (λ version. IsVersionOf version searchers.new.own.seen) }
    ensures fit { IfOk result (λ version.
        WatchesFit (items_in searchers.new.own.seen) session.new) }
    ensures seen { (log : List Segment) → HaveSeen searchers.new.own searchers.new.block.items log →
        HaveSeen searchers.old.own searchers.old.block.items log }
    ensures sink_fault { IsErrOf result Stopped.SinkFault →
        Rose (K.faults out.old) (K.faults out.new) }
    ensures sink_later { K.faults out.old ≤ K.faults out.new }
{
    let versions = searchers.look_each(alloc, &held, searches.len())?;
    let version = searchers.catch_up(rt, alloc)?;
    let text = texts_from(rt, alloc, session, searches, &versions)?;
    write_all(out, &text)?;
    Ok(version)
}

// The texts of the searches of a block, each over the version at its place.
fn texts_from<R: Threads + Sync, C: Collector>(
    rt: &R,
    alloc: Global,
    session: &mut Session<C>,
    searches: &[PlacedSearch],
    versions: &[Version<Segment>],
) -> Result<Vec<u8>, NoMemory>
    requires { length versions.now ≡ length searches.now }
    ensures { IfOk result (λ text. AreAnsweredFrom (map view_of versions.now) searches.now
        session.old text.items session.new) }
{
    let mut each = Vec::new(alloc);
    for version in versions {
        each.push(version)?;
    }
    block_text(rt, alloc, session, searches, &each)
}

// The version from which a statement is answered beside an import. None where it waits for the
// import's end.
fn version_for<J: OpenName, R: Wait>(
    rt: &R,
    alloc: Global,
    searchers: &mut Searchers<J>,
    held: Version<Segment>,
    statement: &Statement,
) -> Result<Option<Version<Segment>>, NoMemory>
    requires held { IsVersionOf held searchers.old.own.seen }
    ensures version { IfOk result (λ found. IfSome found (λ version.
        IsVersionOf version searchers.new.own.seen)) }
    ensures leaves { IfOk result (λ found. IfSome found (λ version. LeavesBase statement.now)) }
    ensures reaches { IfOk result (λ found. IfSome found (λ version.
        Reaches statement.now version.number)) }
    ensures grows { IsPrefix searchers.old.own.seen searchers.new.own.seen }
    ensures block { searchers.new.block.items ≡ searchers.old.block.items }
{
    match statement {
        Statement::Import { .. } | Statement::Make { .. } | Statement::Wait => Ok(None),
        Statement::Until { number } => version_awaited(rt, alloc, searchers, held, *number),
        // These are answered from the boxes alone.
        Statement::Report | Statement::Retire { .. } => Ok(Some(held)),
        _ => Ok(Some(searchers.look(alloc, held)?)),
    }
}

// A version of this number or a greater one. None where the import has ended without one.
fn version_awaited<J: OpenName, R: Wait>(
    rt: &R,
    alloc: Global,
    searchers: &mut Searchers<J>,
    held: Version<Segment>,
    number: u64,
) -> Result<Option<Version<Segment>>, NoMemory>
    requires held { IsVersionOf held searchers.old.own.seen }
    ensures version { IfOk result (λ found. IfSome found (λ version.
        IsVersionOf version searchers.new.own.seen)) }
    ensures reaches { IfOk result (λ found. IfSome found (λ version. number ≤ version.number)) }
    ensures grows { IsPrefix searchers.old.own.seen searchers.new.own.seen }
    ensures block { searchers.new.block.items ≡ searchers.old.block.items }
{
    if held.number() < number {
        return searchers.await_version(rt, alloc, number);
    }
    Ok(Some(searchers.look(alloc, held)?))
}
