// Running the statements of a script, with imports that go on beside them.
ghost use Rattle.std.specs.Prelude.{
  ◌∷◌,
  ◌≡◌,
  ◌≤◌,
  ◌<◌,
  ◌+◌,
  ◌⊎◌,
  ◌++◌,
  [],
  All,
  List,
  Ok,
  Some,
  ℕ,
  IfOk,
  IsErrOf,
  MatchResult,
  OnErr,
  OnOk,
  length,
  map,
  take,
};
ghost use Rattle.std.specs.Result.{IsOk};
ghost use mathlib.Core.List.{IsPrefix};
ghost use Rattle.hit_collectors.specs.Tallies.{BoxTally};
ghost use Rattle.kb_edges.specs.Faults.{Rose};
ghost use Rattle.kb_edges.specs.Told.{IfTold};
ghost use Rattle.query_script.specs.declared.statement.Placed.{Placed};
ghost use Rattle.version_publisher.specs.Contents.{IsNewSearcher, items_in};
ghost use Rattle.import_work.specs.Imports.{games_reported};
ghost use Rattle.search_run.specs.Beside.{
  HasAnsweredAll,
  HasEnded,
  HasRunTo,
  IsImportJoined,
  IsJobOf,
  MayBegin,
  StandsStill,
  StopsBeside,
};
ghost use Rattle.import_segments.specs.Merged.{AreMerged};
ghost use Rattle.import_segments.specs.Publishing.{IsIdle, IsLogWithinLimits};
ghost use Rattle.search_run.specs.Run.{WritesPublished, beside_rules};
ghost use Rattle.search_run.specs.Seen.{HaveSeen, IsVersionOf};
ghost use Rattle.search_run.specs.Stopped.{WritesPublishedPrefix};
ghost use Rattle.session_core.specs.Lawful.{Rules};
ghost use Rattle.serial_run.specs.Steps.{PassesText, StopsInStatement, import_at, kept_report};
ghost use Rattle.session_core.specs.Sources.{IsNoImport};
ghost use Rattle.session_core.specs.ImportTexts.{import_line_text};
ghost use Rattle.session_core.specs.Watches.{WatchesFit};

use crate::beside::answer_beside;
use crate::importer::{Ended, ImportJob, ImporterState, Importing, import};
use crate::searchers::Searchers;
use hit_collectors::Collector;
use import_segments::{OpenName, Receipts};
use import_work::{Report, Source};
use kb_edges::{Folder, Gate, Sink};
use kb_geometry::NoMemory;
use query_script::Placed;
use segment_store::Segment;
use serial_run::{RunState, Stopped, answer_alone, write_all};
use session_core::{Session, source_of};
use std::alloc::Global;
use std::snapshot::Snapshot;
use std::sync::{Arc, Wait};
use std::thread;
use std::thread::Threads;
use version_publisher::{Publisher, Searcher, Version};

// Statements that were run: what the importer works with, and how many there were and where the run
// stands behind them, or why it stopped.
#[derive(Drop)]
pub(crate) struct Passed<R: Wait + Drop, F: Folder, G: Gate> {
    importer: ImporterState<R, F, G>,
    outcome: Result<(RunState, usize), Stopped>,
}

// An import that was joined, and how many statements were answered beside it.
#[derive(Drop)]
struct Joined<R: Wait + Drop, F: Folder, G: Gate> {
    ended: Ended<R, F, G>,
    answered: Result<usize, Stopped>,
}

// Runs statements in order, with imports by batches of so many files that go on beside the
// statements behind them, and writes the text of each. The boxes tally the hits of the searches. The
// importer is handed back.
pub(crate) fn run_beside<
    J: OpenName + Send + Sync + 'static,
    R: Threads + Wait + Clone + Drop + Send + Sync + 'static,
    F: Folder + Send + 'static,
    G: Gate + Send + 'static,
    K: Sink,
    C: Collector,
>(
    rt: &R,
    alloc: Global,
    batch: u32,
    boxes: Vec<C>,
    placed: &[Placed],
    importer: ImporterState<R, F, G>,
    searchers: Vec<Searcher<Segment>>,
    out: &mut K,
) -> (Result<(), Stopped>, ImporterState<R, F, G>)
    requires some { (1 ≤ batch) × (batch ≤ 4096) }
    requires few { length placed.now ≤ 1048576 }
    requires opening { importer.owned.publisher.opening ≡ J.opening }
    requires empty { importer.owned.publisher.log ≡ [] }
    requires idle { IsIdle importer.owned.publisher }
    requires merged { AreMerged importer.owned.publisher.parts }
    requires nine { length searchers.items ≡ 9 }
    requires new { All (IsNewSearcher importer.owned.publisher.opening) searchers.items }
    ensures lawful { IfTold (F.files importer.folder)
        (λ files. IfTold (K.written out.old) (λ before. OnOk result.0
        (WritesPublished (beside_rules batch) files (map (λ b. C.tally b) boxes.items)
        placed.now before (K.written out.new) (F.faults importer.folder) (F.faults result.1.folder)
        result.1.owned.publisher))) }
    ensures stopped { IfTold (F.files importer.folder)
        (λ files. IfTold (K.written out.old) (λ before. OnErr result.0
        (WritesPublishedPrefix (beside_rules batch) files
        (map (λ b. C.tally b) boxes.items) placed.now before (K.written out.new)
        (F.faults importer.folder) (F.faults result.1.folder) result.1.owned.publisher.log))) }
    ensures sink_fault { IsErrOf result.0 Stopped.SinkFault →
        Rose (K.faults out.old) (K.faults out.new) }
    ensures opening { result.1.owned.publisher.opening ≡ importer.owned.publisher.opening }
    ensures same { F.files result.1.folder ≡ F.files importer.folder }
    ensures later { F.faults importer.folder ≤ F.faults result.1.folder }
    ensures sink_later { K.faults out.old ≤ K.faults out.new }
{
    let searchers = match Searchers::<J>::new(alloc, &importer.owned.publisher, searchers) {
        Ok(searchers) => searchers,
        Err(error) => return (Err(Stopped::from(error)), importer),
    };
    let mut session = Session::new(alloc, boxes);
    let Passed { importer, outcome } = run_all(
        rt,
        alloc,
        batch,
        &mut session,
        searchers,
        placed,
        importer,
        out,
    );
    (close(outcome, out), importer)
}

// Writes the closing report of a run, if it didn't stop before.
fn close<K: Sink>(outcome: Result<(RunState, usize), Stopped>, out: &mut K) -> Result<(), Stopped>
    ensures whole { IfTold (K.written out.old) (λ before. OnOk result (IfOk outcome (λ r.
        K.written out.new ≡ Some (before ++ kept_report r.0)))) }
    ensures ran { OnOk result (IsOk outcome) }
    ensures part { IfTold (K.written out.old) (λ before. OnErr result (MatchResult outcome
        (λ r. (more : List ℕ) × IsPrefix more (kept_report r.0)
        × (K.written out.new ≡ Some (before ++ more)))
        (λ _. K.written out.new ≡ K.written out.old))) }
    ensures sink_fault { IsErrOf result Stopped.SinkFault →
        IsErrOf outcome Stopped.SinkFault ⊎ Rose (K.faults out.old) (K.faults out.new) }
    ensures sink_later { K.faults out.old ≤ K.faults out.new }
{
    let (state, _count) = outcome?;
    write_all(out, state.report())?;
    Ok(())
}

// Runs all statements.
fn run_all<
    J: OpenName + Send + Sync + 'static,
    R: Threads + Wait + Clone + Drop + Send + Sync + 'static,
    F: Folder + Send + 'static,
    G: Gate + Send + 'static,
    K: Sink,
    C: Collector,
>(
    rt: &R,
    alloc: Global,
    batch: u32,
    session: &mut Session<C>,
    searchers: Searchers<J>,
    placed: &[Placed],
    importer: ImporterState<R, F, G>,
    out: &mut K,
) -> Passed<R, F, G>
    requires some { (1 ≤ batch) × (batch ≤ 4096) }
    requires few { length placed.now ≤ 1048576 }
    requires opening { importer.owned.publisher.opening ≡ J.opening }
    requires empty { importer.owned.publisher.log ≡ [] }
    requires idle { IsIdle importer.owned.publisher }
    requires merged { AreMerged importer.owned.publisher.parts }
    requires seen { searchers.own.seen ≡ [] }
    requires unwatched { session.old.watches ≡ [] }
    ensures ran { IfTold (F.files importer.folder) (λ files. IfTold (K.written out.old) (λ before.
        IfOk result.outcome (λ r. HasRunTo (beside_rules batch) files session.old.boxes placed.now r.0
        session.new result.importer.owned.publisher.log before (K.written out.new)
        (F.faults importer.folder) (F.faults result.importer.folder)))) }
    ensures stopped { IfTold (F.files importer.folder) (λ files. IfTold (K.written out.old) (λ before.
        OnErr result.outcome (WritesPublishedPrefix (beside_rules batch) files session.old.boxes
        placed.now before (K.written out.new) (F.faults importer.folder)
        (F.faults result.importer.folder) result.importer.owned.publisher.log))) }
    ensures idle { IfOk result.outcome (λ r. IsIdle result.importer.owned.publisher) }
    ensures merged { IfOk result.outcome (λ r. AreMerged result.importer.owned.publisher.parts) }
    ensures sink_fault { IsErrOf result.outcome Stopped.SinkFault →
        Rose (K.faults out.old) (K.faults out.new) }
    ensures opening { result.importer.owned.publisher.opening ≡ importer.owned.publisher.opening }
    ensures same { F.files result.importer.folder ≡ F.files importer.folder }
    ensures later { F.faults importer.folder ≤ F.faults result.importer.folder }
    ensures sink_later { K.faults out.old ≤ K.faults out.new }
{
    let mut searchers = searchers;
    let mut state = RunState::new(alloc);
    let mut importer = importer;
    let mut next = 0;
    while next < placed.len() {
        let statement = &placed[next];
        let rest = &placed[next + 1..];
        let passed = run_next(
            rt,
            alloc,
            batch,
            session,
            &mut searchers,
            state,
            statement,
            rest,
            importer,
            out,
        );
        let Passed {
            importer: back,
            outcome,
        } = passed;
        importer = back;
        match outcome {
            Ok((after, count)) => {
                state = after;
                next += 1 + count;
            }
            Err(stopped) => {
                return Passed {
                    importer,
                    outcome: Err(stopped),
                };
            }
        }
    }
    Passed {
        importer,
        outcome: Ok((state, next)),
    }
}

// Runs a statement, and those behind it that are answered beside it where it is an import. Tells how
// many these are.
fn run_next<
    J: OpenName + Send + Sync + 'static,
    R: Threads + Wait + Clone + Drop + Send + Sync + 'static,
    F: Folder + Send + 'static,
    G: Gate + Send + 'static,
    K: Sink,
    C: Collector,
>(
    rt: &R,
    alloc: Global,
    batch: u32,
    session: &mut Session<C>,
    searchers: &mut Searchers<J>,
    state: RunState,
    placed: &Placed,
    rest: &[Placed],
    importer: ImporterState<R, F, G>,
    out: &mut K,
) -> Passed<R, F, G>
    requires some { (1 ≤ batch) × (batch ≤ 4096) }
    requires few { length importer.owned.publisher.log ≤ 9000000000000000000 }
    requires stands { StandsStill J.opening importer.owned.publisher searchers.old.own state }
    requires fit { WatchesFit state.games session.old }
    ensures ran { IfTold (F.files importer.folder) (λ files. IfOk result.outcome (λ r.
        (start : List BoxTally) (done : List Placed) (before : List ℕ) (first : ℕ) →
        HasRunTo (beside_rules batch) files start done state session.old
        importer.owned.publisher.log before (K.written out.old) first (F.faults importer.folder) →
        HasRunTo (beside_rules batch) files start (done ++ placed.now ∷ take r.1 rest.now) r.0
        session.new result.importer.owned.publisher.log before (K.written out.new) first
        (F.faults result.importer.folder))) }
    ensures stopped { IfTold (F.files importer.folder) (λ files. OnErr result.outcome (
        (start : List BoxTally) (done : List Placed) (before : List ℕ) (first : ℕ) →
        HasRunTo (beside_rules batch) files start done state session.old
        importer.owned.publisher.log before (K.written out.old) first (F.faults importer.folder) →
        WritesPublishedPrefix (beside_rules batch) files start (done ++ placed.now ∷ rest.now)
        before (K.written out.new) first (F.faults result.importer.folder)
        result.importer.owned.publisher.log)) }
    ensures stands { IfOk result.outcome (λ r.
        StandsStill J.opening result.importer.owned.publisher searchers.new.own r.0) }
    ensures fit { IfOk result.outcome (λ r. WatchesFit r.0.games session.new) }
    ensures count { IfOk result.outcome (λ r. r.1 ≤ length rest.now) }
    ensures few { length result.importer.owned.publisher.log
        ≤ length importer.owned.publisher.log + 4294967295 }
    ensures sink_fault { IsErrOf result.outcome Stopped.SinkFault →
        Rose (K.faults out.old) (K.faults out.new) }
    ensures opening { result.importer.owned.publisher.opening ≡ J.opening }
    ensures same { F.files result.importer.folder ≡ F.files importer.folder }
    ensures later { F.faults importer.folder ≤ F.faults result.importer.folder }
    ensures sink_later { K.faults out.old ≤ K.faults out.new }
{
    match source_of(alloc, &placed.statement) {
        Ok(Some(source)) => run_import(
            rt,
            alloc,
            batch,
            session,
            searchers,
            state,
            placed.line,
            source,
            rest,
            importer,
            out,
        ),
        Ok(None) => {
            let outcome = answer_still(rt, alloc, session, state, placed, out);
            Passed { importer, outcome }
        }
        Err(NoMemory) => Passed {
            importer,
            outcome: Err(Stopped::NoMemory),
        },
    }
}

// Answers a statement that is no import, while none is under way. No other is answered beside it.
fn answer_still<R: Threads + Sync, K: Sink, C: Collector>(
    rt: &R,
    alloc: Global,
    session: &mut Session<C>,
    state: RunState,
    placed: &Placed,
    out: &mut K,
) -> Result<(RunState, usize), Stopped>
    requires no_import { IsNoImport placed.now.statement }
    requires fit { WatchesFit state.games session.old }
    ensures passed { IfTold (K.written out.old) (λ before. IfOk result (λ r.
        PassesText state session.old placed.now r.0 session.new before (K.written out.new))) }
    ensures stopped { IfTold (K.written out.old) (λ before. OnErr result ((rules : Rules) →
        StopsInStatement rules state session.old placed.now before (K.written out.new))) }
    ensures version { IfOk result (λ r. r.0.version ≡ state.version) }
    ensures games { IfOk result (λ r. r.0.games ≡ state.games) }
    ensures fit { IfOk result (λ r. WatchesFit r.0.games session.new) }
    ensures alone { IfOk result (λ r. r.1 ≡ 0) }
    ensures sink_fault { IsErrOf result Stopped.SinkFault →
        Rose (K.faults out.old) (K.faults out.new) }
    ensures sink_later { K.faults out.old ≤ K.faults out.new }
{
    Ok((answer_alone(rt, alloc, session, state, placed, out)?, 0))
}

// Runs an import, and the statements behind it that are answered beside it.
fn run_import<
    J: OpenName + Send + Sync + 'static,
    R: Threads + Wait + Clone + Drop + Send + Sync + 'static,
    F: Folder + Send + 'static,
    G: Gate + Send + 'static,
    K: Sink,
    C: Collector,
>(
    rt: &R,
    alloc: Global,
    batch: u32,
    session: &mut Session<C>,
    searchers: &mut Searchers<J>,
    state: RunState,
    line: u32,
    source: Source,
    rest: &[Placed],
    importer: ImporterState<R, F, G>,
    out: &mut K,
) -> Passed<R, F, G>
    requires some { (1 ≤ batch) × (batch ≤ 4096) }
    requires few { length importer.owned.publisher.log ≤ 9000000000000000000 }
    requires stands { StandsStill J.opening importer.owned.publisher searchers.old.own state }
    requires fit { WatchesFit state.games session.old }
    ensures ran { IfTold (F.files importer.folder) (λ files. IfOk result.outcome (λ r.
        (start : List BoxTally) (done : List Placed) (before : List ℕ) (first : ℕ) →
        HasRunTo (beside_rules batch) files start done state session.old
        importer.owned.publisher.log before (K.written out.old) first (F.faults importer.folder) →
        HasRunTo (beside_rules batch) files start
        (done ++ import_at line source ∷ take r.1 rest.now) r.0 session.new
        result.importer.owned.publisher.log before (K.written out.new) first
        (F.faults result.importer.folder))) }
    ensures stopped { IfTold (F.files importer.folder) (λ files. OnErr result.outcome (
        (start : List BoxTally) (done : List Placed) (before : List ℕ) (first : ℕ) →
        HasRunTo (beside_rules batch) files start done state session.old
        importer.owned.publisher.log before (K.written out.old) first (F.faults importer.folder) →
        WritesPublishedPrefix (beside_rules batch) files start
        (done ++ import_at line source ∷ rest.now) before (K.written out.new) first
        (F.faults result.importer.folder) result.importer.owned.publisher.log)) }
    ensures stands { IfOk result.outcome (λ r.
        StandsStill J.opening result.importer.owned.publisher searchers.new.own r.0) }
    ensures fit { IfOk result.outcome (λ r. WatchesFit r.0.games session.new) }
    ensures count { IfOk result.outcome (λ r. r.1 ≤ length rest.now) }
    ensures few { length result.importer.owned.publisher.log
        ≤ length importer.owned.publisher.log + 4294967295 }
    ensures sink_fault { IsErrOf result.outcome Stopped.SinkFault →
        Rose (K.faults out.old) (K.faults out.new) }
    ensures opening { result.importer.owned.publisher.opening ≡ J.opening }
    ensures same { F.files result.importer.folder ≡ F.files importer.folder }
    ensures later { F.faults importer.folder ≤ F.faults result.importer.folder }
    ensures sink_later { K.faults out.old ≤ K.faults out.new }
{
    let (job, theirs) = match begin(alloc, batch, searchers, &state, line, source, out) {
        Ok(begun) => begun,
        Err(stopped) => {
            return Passed {
                importer,
                outcome: Err(stopped),
            };
        }
    };
    let held = state.into_version();
    let joined = import_beside(
        rt, alloc, job, importer, theirs, session, searchers, held, rest, out,
    );
    let Joined { ended, answered } = joined;
    let Ended { importer, report } = ended;
    let publisher = &importer.owned.publisher;
    let outcome = join(rt, alloc, searchers, publisher, report, answered);
    Passed { importer, outcome }
}

// Writes the text of a statement that begins an import, and makes its job.
fn begin<J: OpenName, K: Sink>(
    alloc: Global,
    batch: u32,
    searchers: &Searchers<J>,
    state: &RunState,
    line: u32,
    source: Source,
    out: &mut K,
) -> Result<(ImportJob, Arc<Receipts<J>>), Stopped>
    ensures job { IfOk result (λ t. IsJobOf t.0 batch line source state.now) }
    ensures written { IfTold (K.written out.old) (λ before. OnOk result (K.written out.new
        ≡ Some (before ++ (kept_report state.now ++ import_line_text line source)))) }
    ensures part { IfTold (K.written out.old) (λ before. OnErr result ((more : List ℕ)
        × IsPrefix more (kept_report state.now ++ import_line_text line source)
        × (K.written out.new ≡ Some (before ++ more)))) }
    ensures sink_fault { IsErrOf result Stopped.SinkFault →
        Rose (K.faults out.old) (K.faults out.new) }
    ensures sink_later { K.faults out.old ≤ K.faults out.new }
{
    let Ok(theirs) = Arc::try_clone(&searchers.receipts) else {
        return Err(Stopped::NoMemory);
    };
    let text = state.import_text(alloc, line, &source)?;
    write_all(out, &text)?;
    let job = ImportJob {
        source,
        line,
        batch,
        before: state.counts(),
    };
    Ok((job, theirs))
}

// Imports in a thread of its own, and answers statements meanwhile, up to the first one that waits
// for the import's end. Where no thread can be started, the import is made first.
fn import_beside<
    J: OpenName + Send + Sync + 'static,
    R: Threads + Wait + Clone + Drop + Send + Sync + 'static,
    F: Folder + Send + 'static,
    G: Gate + Send + 'static,
    K: Sink,
    C: Collector,
>(
    rt: &R,
    alloc: Global,
    job: ImportJob,
    importer: ImporterState<R, F, G>,
    theirs: Arc<Receipts<J>>,
    session: &mut Session<C>,
    searchers: &mut Searchers<J>,
    held: Version<Segment>,
    rest: &[Placed],
    out: &mut K,
) -> Joined<R, F, G>
    requires begins { MayBegin J.opening importer.owned.publisher job }
    requires held { IsVersionOf held searchers.old.own.seen }
    requires fit { WatchesFit (items_in searchers.old.own.seen) session.old }
    ensures ended { HasEnded (F.files importer.folder) (F.faults importer.folder) job
        importer.owned.publisher.opening importer.owned.publisher.log
        (F.files result.ended.importer.folder) (F.faults result.ended.importer.folder)
        result.ended.importer.owned.publisher result.ended.report }
    ensures answered { IfTold (K.written out.old) (λ before. IfOk result.answered (λ count.
        HasAnsweredAll (HaveSeen searchers.old.own searchers.old.block.items) held.number
        session.old (take count rest.now) (HaveSeen searchers.new.own searchers.new.block.items)
        session.new before (K.written out.new))) }
    ensures stopped { IfTold (K.written out.old) (λ before. OnErr result.answered ((batch : ℕ) →
        StopsBeside batch (HaveSeen searchers.old.own searchers.old.block.items) held.number
        session.old rest.now (HaveSeen searchers.new.own searchers.new.block.items) before
        (K.written out.new))) }
    ensures fit { IfOk result.answered (λ count.
        WatchesFit (items_in searchers.new.own.seen) session.new) }
    ensures count { IfOk result.answered (λ count. count ≤ length rest.now) }
    ensures sink_fault { IsErrOf result.answered Stopped.SinkFault →
        Rose (K.faults out.old) (K.faults out.new) }
    ensures sink_later { K.faults out.old ≤ K.faults out.new }
{
    let promise = Importing {
        begun: importer.owned.publisher.receipt(),
        folder: Snapshot::of(&importer.folder),
        job: Snapshot::of(&job),
    };
    theirs.start(rt);
    let import = move || -> Ended<R, F, G>
        requires { MayBegin J.opening importer.owned.publisher job }
    { import(alloc, job, importer, theirs) };
    match thread::spawn_with(rt, promise, import) {
        Ok(child) => {
            let answered = answer_beside(rt, alloc, session, searchers, held, rest, out);
            Joined {
                ended: child.join(rt),
                answered,
            }
        }
        Err(refused) => Joined {
            ended: (refused.value)(),
            answered: Ok(0),
        },
    }
}

// Where a run stands when an import has ended by which it was joined: all searchers have met the
// publisher, and the report waits.
fn join<J: OpenName, R: Wait>(
    rt: &R,
    alloc: Global,
    searchers: &mut Searchers<J>,
    publisher: &Publisher<Segment>,
    report: Result<Report, NoMemory>,
    answered: Result<usize, Stopped>,
) -> Result<(RunState, usize), Stopped>
    requires opening { publisher.now.opening ≡ J.opening }
    requires limits { IsLogWithinLimits publisher.now.log }
    requires few { IfOk report (λ r. games_reported r.body ≤ 400000) }
    ensures seen { HaveSeen searchers.old.own searchers.old.block.items publisher.now.log }
    ensures joined { IfOk result (λ r. IsImportJoined publisher.now.log report r.0) }
    ensures answered { IfOk result (λ r. answered ≡ Ok r.1) }
    ensures own { IfOk result (λ r. searchers.new.own.seen ≡ publisher.now.log) }
    ensures sink_fault { IsErrOf result Stopped.SinkFault → IsErrOf answered Stopped.SinkFault }
{
    searchers.meet(rt, publisher);
    let count = answered?;
    let report = report?;
    let version = searchers.last_version(rt, alloc, publisher)?;
    let state = RunState::joined(alloc, version, &report)?;
    Ok((state, count))
}
