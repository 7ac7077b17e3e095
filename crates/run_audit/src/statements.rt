// Statements whose texts are compared with a record.
ghost use Rattle.std.specs.Prelude.{◌≡◌, ◌≤◌, ◌++◌, ℕ, All, IfOk, IsErrOf, List, length};
ghost use Rattle.kb_edges.specs.Files.{File};
ghost use Rattle.game_tree.specs.Tree.{IsTree};
ghost use Rattle.node_position.specs.Games.{Game};
ghost use Rattle.session_core.specs.Answers.{IsAnswer, IsOfWatches};
ghost use Rattle.session_core.specs.Lawful.{Rules};
ghost use Rattle.session_core.specs.SessionState.{SessionState};
ghost use Rattle.session_core.specs.Sources.{IsNoImport};
ghost use Rattle.session_core.specs.Stores.{view_of};
ghost use Rattle.session_core.specs.Watches.{WatchesFit};
ghost use Rattle.query_script.specs.Texts.{wait_text};
ghost use Rattle.run_audit.specs.Asked.{HasNumber, least_asked};
ghost use Rattle.run_audit.specs.Standing.{
  DepartsGuided,
  DepartsIn,
  FitsFloor,
  FitsTogether,
  IsRaised,
  PassesGuided,
  kept_last,
  kept_report,
};
ghost use Rattle.run_audit.specs.Texts.{IsOver, IsTextOver};
ghost use Rattle.run_audit.specs.declared.stop.Stop.TheVariants as stop;

use crate::base::Base;
use crate::named::{names_version, statement_head};
use crate::numbers::{behind, number_named};
use crate::searching::{behind_block, behind_search};
use crate::stop::Stop;
use crate::whole::{least_awaited, least_named};
use hit_collectors::Collector;
use kb_geometry::NoMemory;
use query_script::{Placed, Statement, print_until, print_wait};
use segment_store::Segment;
use session_core::Session;
use std::alloc::Global;
use std::thread::Threads;
use version_publisher::Version;

// What is left of a record behind the text of a statement that begins no import.
pub(crate) fn behind_statement<'a, R: Threads + Sync, C: Collector>(
    rt: &R,
    alloc: Global,
    serial: bool,
    session: &mut Session<C>,
    placed: &Placed,
    base: &mut Base,
    left: &'a [u8],
) -> Result<&'a [u8], Stop>
    requires no_import { IsNoImport placed.now.statement }
    requires fits { FitsTogether base.old }
    requires watched { FitsFloor base.old session.old }
    ensures passed { IfOk result (λ rest. (files : List File) (recorded : List ℕ) (rules : Rules) →
        rules.serial ≡ serial →
        PassesGuided files rules recorded left.now placed.now base.old session.old rest.now base.new
        session.new) }
    ensures departs { (count : ℕ) → IsErrOf result (stop.Departs count) → (files : List File)
        (recorded : List ℕ) (rules : Rules) → rules.serial ≡ serial →
        DepartsGuided files rules recorded left.now placed.now base.old session.old count }
    ensures within { (count : ℕ) → IsErrOf result (stop.Departs count) → count ≤ length left.now }
    ensures shorter { IfOk result (λ rest. length rest.now ≤ length left.now) }
    ensures last { IfOk result (λ _. kept_last base.new ≡ kept_last base.old) }
    ensures fits { IfOk result (λ _. FitsTogether base.new) }
    ensures watched { IfOk result (λ _. FitsFloor base.new session.new) }
    ensures folder { ¬ IsErrOf result stop.FolderUnread }
{
    match &placed.statement {
        Statement::Wait => behind_wait(alloc, placed.line, base, left),
        Statement::Together { searches } => behind_block(
            rt,
            alloc,
            serial,
            session,
            searches.as_slice(),
            base,
            left,
        ),
        _ => behind_answered(rt, alloc, serial, session, placed, base, left),
    }
}

// The same of a statement whose text is one over a version.
fn behind_answered<'a, R: Threads + Sync, C: Collector>(
    rt: &R,
    alloc: Global,
    serial: bool,
    session: &mut Session<C>,
    placed: &Placed,
    base: &mut Base,
    left: &'a [u8],
) -> Result<&'a [u8], Stop>
    requires over { IsOver placed.now.statement }
    requires fits { FitsTogether base.old }
    requires watched { FitsFloor base.old session.old }
    ensures passed { IfOk result (λ rest. (files : List File) (recorded : List ℕ) (rules : Rules) →
        rules.serial ≡ serial →
        PassesGuided files rules recorded left.now placed.now base.old session.old rest.now base.new
        session.new) }
    ensures departs { (count : ℕ) → IsErrOf result (stop.Departs count) → (files : List File)
        (recorded : List ℕ) (rules : Rules) → rules.serial ≡ serial →
        DepartsGuided files rules recorded left.now placed.now base.old session.old count }
    ensures within { (count : ℕ) → IsErrOf result (stop.Departs count) → count ≤ length left.now }
    ensures shorter { IfOk result (λ rest. length rest.now ≤ length left.now) }
    ensures last { IfOk result (λ _. kept_last base.new ≡ kept_last base.old) }
    ensures fits { IfOk result (λ _. FitsTogether base.new) }
    ensures watched { IfOk result (λ _. FitsFloor base.new session.new) }
    ensures folder { ¬ IsErrOf result stop.FolderUnread }
{
    if names_version(session, &placed.statement) {
        return behind_named(rt, alloc, serial, session, placed, base, left);
    }
    behind_answer(rt, alloc, session, placed, base.held(), left)
}

// The same of one that names a version.
fn behind_named<'a, R: Threads + Sync, C: Collector>(
    rt: &R,
    alloc: Global,
    serial: bool,
    session: &mut Session<C>,
    placed: &Placed,
    base: &mut Base,
    left: &'a [u8],
) -> Result<&'a [u8], Stop>
    requires over { IsOver placed.now.statement }
    requires named { HasNumber session.old placed.now.statement }
    requires fits { FitsTogether base.old }
    requires watched { FitsFloor base.old session.old }
    ensures passed { IfOk result (λ rest. (files : List File) (recorded : List ℕ) (rules : Rules) →
        rules.serial ≡ serial →
        PassesGuided files rules recorded left.now placed.now base.old session.old rest.now base.new
        session.new) }
    ensures departs { (count : ℕ) → IsErrOf result (stop.Departs count) → (files : List File)
        (recorded : List ℕ) (rules : Rules) → rules.serial ≡ serial →
        DepartsGuided files rules recorded left.now placed.now base.old session.old count }
    ensures within { (count : ℕ) → IsErrOf result (stop.Departs count) → count ≤ length left.now }
    ensures shorter { IfOk result (λ rest. length rest.now ≤ length left.now) }
    ensures last { IfOk result (λ _. kept_last base.new ≡ kept_last base.old) }
    ensures fits { IfOk result (λ _. FitsTogether base.new) }
    ensures watched { IfOk result (λ _. FitsFloor base.new session.new) }
    ensures folder { ¬ IsErrOf result stop.FolderUnread }
{
    let head = statement_head(alloc, placed)?;
    let rest = behind(left, &head)?;
    let least = least_asked(serial, base, &placed.statement);
    let number = number_named(alloc, rest, least, base.last())?;
    base.raise(alloc, number)?;
    behind_answer(rt, alloc, session, placed, base.held(), left)
}

// The least number that the text of a statement may name.
fn least_asked(serial: bool, base: &Base, statement: &Statement) -> u64
    requires { FitsTogether base.now }
    ensures value { result ≡ least_asked serial base.now statement.now }
    ensures within { result ≤ kept_last base.now }
{
    match statement {
        Statement::Until { number } => least_awaited(serial, base, *number),
        _ => least_named(serial, base),
    }
}

// What is left of a record behind the text of a statement over one version.
fn behind_answer<'a, R: Threads + Sync, C: Collector>(
    rt: &R,
    alloc: Global,
    session: &mut Session<C>,
    placed: &Placed,
    version: &Version<Segment>,
    left: &'a [u8],
) -> Result<&'a [u8], Stop>
    requires over { IsOver placed.now.statement }
    requires watched { WatchesFit (view_of version.now).games session.old }
    ensures stands { IfOk result (λ rest. (text : List ℕ) × (left.now ≡ text ++ rest.now)
        × IsTextOver placed.now.line (view_of version.now) session.old placed.now.statement text
        session.new) }
    ensures departs { (count : ℕ) → IsErrOf result (stop.Departs count) →
        All (λ (g : Game). IsTree g.tree) (view_of version.now).games →
        (text : List ℕ) (after : SessionState) →
        IsTextOver placed.now.line (view_of version.now) session.old placed.now.statement text after →
        DepartsIn left.now text count }
    ensures within { (count : ℕ) → IsErrOf result (stop.Departs count) → count ≤ length left.now }
    ensures shorter { IfOk result (λ rest. length rest.now ≤ length left.now) }
    ensures folder { ¬ IsErrOf result stop.FolderUnread }
{
    match &placed.statement {
        Statement::Search { query, filter } => behind_search(
            rt,
            alloc,
            session,
            placed.line,
            query,
            filter,
            version,
            left,
        ),
        Statement::Watch { .. } => behind_watch(alloc, session, placed, version, left),
        Statement::Watched { .. } => behind_watch(alloc, session, placed, version, left),
        _ => behind_text(rt, alloc, session, placed, version, left),
    }
}

// The same of one that watches a search, or tells a watched one. The hits that are new are given to the
// boxes once the whole text stands there.
fn behind_watch<'a, C: Collector>(
    alloc: Global,
    session: &mut Session<C>,
    placed: &Placed,
    version: &Version<Segment>,
    left: &'a [u8],
) -> Result<&'a [u8], Stop>
    requires told { IsOfWatches placed.now.statement }
    requires watched { WatchesFit (view_of version.now).games session.old }
    ensures stands { IfOk result (λ rest. (text : List ℕ) × (left.now ≡ text ++ rest.now)
        × IsAnswer placed.now.line (view_of version.now) session.old placed.now.statement text
        session.new) }
    ensures departs { (count : ℕ) → IsErrOf result (stop.Departs count) →
        All (λ (g : Game). IsTree g.tree) (view_of version.now).games →
        (text : List ℕ) (after : SessionState) →
        IsAnswer placed.now.line (view_of version.now) session.old placed.now.statement text after →
        DepartsIn left.now text count }
    ensures within { (count : ℕ) → IsErrOf result (stop.Departs count) → count ≤ length left.now }
    ensures shorter { IfOk result (λ rest. length rest.now ≤ length left.now) }
    ensures folder { ¬ IsErrOf result stop.FolderUnread }
    // Where the record departs, nothing is given to the boxes.
    ensures unfed { (count : ℕ) → IsErrOf result (stop.Departs count) →
        session.new.boxes ≡ session.old.boxes }
{
    let mut text = Vec::new(alloc);
    let new = session.tell_watch(alloc, placed.line, &placed.statement, version, &mut text)?;
    let left = behind(left, &text)?;
    session.feed_new(new)?;
    Ok(left)
}

// The same of one that gives no hits to the boxes.
fn behind_text<'a, R: Threads + Sync, C: Collector>(
    rt: &R,
    alloc: Global,
    session: &mut Session<C>,
    placed: &Placed,
    version: &Version<Segment>,
    left: &'a [u8],
) -> Result<&'a [u8], Stop>
    requires over { IsOver placed.now.statement }
    requires watched { WatchesFit (view_of version.now).games session.old }
    ensures stands { IfOk result (λ rest. (text : List ℕ) × (left.now ≡ text ++ rest.now)
        × IsTextOver placed.now.line (view_of version.now) session.old placed.now.statement text
        session.new) }
    ensures departs { (count : ℕ) → IsErrOf result (stop.Departs count) →
        All (λ (g : Game). IsTree g.tree) (view_of version.now).games →
        (text : List ℕ) (after : SessionState) →
        IsTextOver placed.now.line (view_of version.now) session.old placed.now.statement text after →
        DepartsIn left.now text count }
    ensures within { (count : ℕ) → IsErrOf result (stop.Departs count) → count ≤ length left.now }
    ensures shorter { IfOk result (λ rest. length rest.now ≤ length left.now) }
    ensures folder { ¬ IsErrOf result stop.FolderUnread }
{
    let text = text_over(rt, alloc, session, placed, version)?;
    behind(left, &text)
}

// The text of a statement over one version.
fn text_over<R: Threads + Sync, C: Collector>(
    rt: &R,
    alloc: Global,
    session: &mut Session<C>,
    placed: &Placed,
    version: &Version<Segment>,
) -> Result<Vec<u8>, NoMemory>
    requires over { IsOver placed.now.statement }
    requires watched { WatchesFit (view_of version.now).games session.old }
    ensures { IfOk result (λ text. IsTextOver placed.now.line (view_of version.now) session.old
        placed.now.statement text.items session.new) }
{
    let mut text = Vec::new(alloc);
    match &placed.statement {
        Statement::Until { number } => {
            print_until(placed.line, *number, version.number(), &mut text)?;
        }
        answered => session.answer(rt, alloc, placed.line, answered, version, &mut text)?,
    }
    Ok(text)
}

// What is left of a record behind the text of a wait, which joins the import that isn't joined yet.
fn behind_wait<'a>(
    alloc: Global,
    line: u32,
    base: &mut Base,
    left: &'a [u8],
) -> Result<&'a [u8], Stop>
    requires { FitsTogether base.old }
    ensures stands { IfOk result (λ rest.
        left.now ≡ (kept_report base.old ++ wait_text line (kept_last base.old)) ++ rest.now) }
    ensures fits { IfOk result (λ _. FitsTogether base.new) }
    ensures joined { IfOk result (λ _.
        IsRaised (record base.old { waiting = None }) (kept_last base.old) base.new) }
    ensures departs { (count : ℕ) → IsErrOf result (stop.Departs count) → DepartsIn left.now
        (kept_report base.old ++ wait_text line (kept_last base.old)) count }
    ensures within { (count : ℕ) → IsErrOf result (stop.Departs count) → count ≤ length left.now }
    ensures shorter { IfOk result (λ rest. length rest.now ≤ length left.now) }
    ensures folder { ¬ IsErrOf result stop.FolderUnread }
{
    let mut text = base.report().to_vec(alloc)?;
    print_wait(line, base.last(), &mut text)?;
    let rest = behind(left, &text)?;
    base.see_all(alloc)?;
    Ok(rest)
}
