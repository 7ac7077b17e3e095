// Running the statements of a script, one after another.
ghost use Rattle.std.specs.Prelude.{◌≡◌, ◌≤◌, ◌+◌, IfOk, IsErrOf, OnErr, OnOk, length, map};
ghost use mathlib.Core.List.{IsPrefix};
ghost use Rattle.kb_edges.specs.Faults.{Rose};
ghost use Rattle.kb_edges.specs.Told.{IfTold};
ghost use Rattle.serial_run.specs.Run.{WritesLawful, WritesPrefix, serial_rules};
ghost use Rattle.serial_run.specs.Steps.{PassesStatement, PassesText, StopsInStatement, import_at};
ghost use Rattle.session_core.specs.Lawful.{Rules};
ghost use Rattle.session_core.specs.SessionState.{SessionState};
ghost use Rattle.session_core.specs.Sources.{IsNoImport};
ghost use Rattle.session_core.specs.Watches.{WatchesFit};

use crate::run_state::RunState;
use crate::write::write_all;
use hit_collectors::Collector;
use import_work::Source;
use kb_edges::{Folder, Sink, SinkError};
use kb_geometry::NoMemory;
use query_script::Placed;
use session_core::{Session, source_of};
use std::alloc::Global;
use std::error::Error;
use std::fmt;
use std::thread::Threads;

/// Why a run stopped amid its statements.
#[derive(Clone, Copy, Debug, PartialEq, Eq)]
pub enum Stopped {
    /// A write failed.
    SinkFault,
    /// Want of memory.
    NoMemory,
}

impl fmt::Display for Stopped {
    fn fmt<W: fmt::Write>(&self, f: &mut fmt::Formatter<W>) -> fmt::Result {
        f.write_str(match self {
            Stopped::SinkFault => "a write failed",
            Stopped::NoMemory => "out of memory",
        })
    }
}

impl Error for Stopped {}

impl From<NoMemory> for Stopped {
    ghost use Rattle.serial_run.specs.declared.statements.Stopped.TheVariants.{NoMemory};

    ghost from_gives = { λ _ e. e ≡ NoMemory };

    fn from(_: NoMemory) -> Self {
        Stopped::NoMemory
    }
}

impl From<SinkError> for Stopped {
    ghost use Rattle.serial_run.specs.RunErrors.{stopped_of};

    ghost from_gives = { λ e s. s ≡ stopped_of e };

    fn from(error: SinkError) -> Self {
        match error {
            SinkError::Failed => Stopped::SinkFault,
            SinkError::NoMemory => Stopped::NoMemory,
        }
    }
}

/// Runs statements in order, with imports by batches of so many files, and writes the text of each. The
/// boxes tally the hits of the searches.
pub fn run_statements<R: Threads + Sync, F: Folder, K: Sink, C: Collector>(
    rt: &R,
    alloc: Global,
    batch: u32,
    boxes: Vec<C>,
    placed: &[Placed],
    folder: &mut F,
    out: &mut K,
) -> Result<(), Stopped>
    requires some { 1 ≤ batch }
    requires few { length placed.now ≤ 1048576 }
    ensures lawful { IfTold (F.files folder.old)
        (λ files. IfTold (K.written out.old) (λ before. OnOk result
        (WritesLawful (serial_rules batch) files (map (λ b. C.tally b) boxes.items)
        placed.now before (K.written out.new) (F.faults folder.old) (F.faults folder.new)))) }
    ensures prefix { IfTold (F.files folder.old)
        (λ files. IfTold (K.written out.old) (λ before. OnErr result
        (WritesPrefix (serial_rules batch) files (map (λ b. C.tally b) boxes.items)
        placed.now before (K.written out.new) (F.faults folder.old) (F.faults folder.new)))) }
    ensures sink_fault { IsErrOf result Stopped.SinkFault →
        Rose (K.faults out.old) (K.faults out.new) }
    ensures same { F.files folder.new ≡ F.files folder.old }
    ensures later { F.faults folder.old ≤ F.faults folder.new }
    ensures sink_later { K.faults out.old ≤ K.faults out.new }
{
    let mut session = Session::new(alloc, boxes);
    let mut state = RunState::new(alloc);
    for statement in placed {
        state = run_statement(
            rt,
            alloc,
            batch,
            &mut session,
            state,
            statement,
            folder,
            out,
        )?;
    }
    write_all(out, state.report())?;
    Ok(())
}

// Writes the text of a statement, and imports where it begins an import. Hands back the state after
// it.
fn run_statement<R: Threads + Sync, F: Folder, K: Sink, C: Collector>(
    rt: &R,
    alloc: Global,
    batch: u32,
    session: &mut Session<C>,
    state: RunState,
    placed: &Placed,
    folder: &mut F,
    out: &mut K,
) -> Result<RunState, Stopped>
    requires some { 1 ≤ batch }
    requires number { state.version ≤ 9000000000000000000 }
    requires fit { WatchesFit state.games session.old }
    ensures passed { IfTold (F.files folder.old)
        (λ files. IfTold (K.written out.old) (λ before. IfOk result (λ next.
        PassesStatement files (serial_rules batch) state session.old placed.now next
        session.new before (K.written out.new) (F.faults folder.old) (F.faults folder.new)))) }
    ensures stopped { IfTold (K.written out.old)
        (λ before. OnErr result (StopsInStatement (serial_rules batch) state session.old
        placed.now before (K.written out.new))) }
    ensures sink_fault { IsErrOf result Stopped.SinkFault →
        Rose (K.faults out.old) (K.faults out.new) }
    ensures version { IfOk result (λ next. next.version ≤ state.version + 4294967295) }
    ensures fit { IfOk result (λ next. WatchesFit next.games session.new) }
    ensures same { F.files folder.new ≡ F.files folder.old }
    ensures later { F.faults folder.old ≤ F.faults folder.new }
    ensures sink_later { K.faults out.old ≤ K.faults out.new }
{
    match source_of(alloc, &placed.statement)? {
        Some(source) => run_import(rt, alloc, batch, state, placed.line, &source, folder, out),
        None => answer_alone(rt, alloc, session, state, placed, out),
    }
}

// Writes the text of a statement that begins an import, and imports. Hands back the state after it.
fn run_import<R: Threads + Sync, F: Folder, K: Sink>(
    rt: &R,
    alloc: Global,
    batch: u32,
    state: RunState,
    line: u32,
    source: &Source,
    folder: &mut F,
    out: &mut K,
) -> Result<RunState, Stopped>
    requires some { 1 ≤ batch }
    requires number { state.version ≤ 9000000000000000000 }
    ensures passed { IfTold (F.files folder.old) (λ files. IfTold (K.written out.old) (λ before.
        IfOk result (λ next. (session : SessionState) →
        PassesStatement files (serial_rules batch) state session (import_at line source.now) next
        session before (K.written out.new) (F.faults folder.old) (F.faults folder.new)))) }
    ensures stopped { IfTold (K.written out.old)
        (λ before. OnErr result ((session : SessionState) →
        StopsInStatement (serial_rules batch) state session (import_at line source.now) before
        (K.written out.new))) }
    ensures sink_fault { IsErrOf result Stopped.SinkFault →
        Rose (K.faults out.old) (K.faults out.new) }
    ensures version { IfOk result (λ next. next.version ≤ state.version + 4294967295) }
    ensures grown { IfOk result (λ next. IsPrefix state.games next.games) }
    ensures same { F.files folder.new ≡ F.files folder.old }
    ensures later { F.faults folder.old ≤ F.faults folder.new }
    ensures sink_later { K.faults out.old ≤ K.faults out.new }
{
    let text = state.import_text(alloc, line, source)?;
    write_all(out, &text)?;
    Ok(state.pass_import(rt, alloc, folder, batch, line, source)?)
}

/// Writes the text of a statement that begins no import, while none is under way. Hands back the
/// state after it. The last version begins with the games that the session's watched searches cover.
pub fn answer_alone<R: Threads + Sync, K: Sink, C: Collector>(
    rt: &R,
    alloc: Global,
    session: &mut Session<C>,
    state: RunState,
    placed: &Placed,
    out: &mut K,
) -> Result<RunState, Stopped>
    requires no_import { IsNoImport placed.now.statement }
    requires fit { WatchesFit state.games session.old }
    ensures passed { IfTold (K.written out.old) (λ before. IfOk result (λ next.
        PassesText state session.old placed.now next session.new before (K.written out.new))) }
    ensures stopped { IfTold (K.written out.old) (λ before. OnErr result ((rules : Rules) →
        StopsInStatement rules state session.old placed.now before (K.written out.new))) }
    ensures version { IfOk result (λ next. next.version ≡ state.version) }
    ensures games { IfOk result (λ next. next.games ≡ state.games) }
    ensures fit { IfOk result (λ next. WatchesFit next.games session.new) }
    ensures sink_fault { IsErrOf result Stopped.SinkFault →
        Rose (K.faults out.old) (K.faults out.new) }
    ensures sink_later { K.faults out.old ≤ K.faults out.new }
{
    let text = state.text_of(rt, alloc, session, placed)?;
    write_all(out, &text)?;
    Ok(state.leave(&placed.statement))
}
