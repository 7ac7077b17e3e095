// All statements of a script, whose texts are compared with a record.
ghost use Rattle.std.specs.Prelude.{
  ◌≡◌,
  ◌≤◌,
  ◌+◌,
  ◌-◌,
  ◌++◌,
  ℕ,
  All,
  IfOk,
  IsErrOf,
  List,
  OnOk,
  length,
  map,
};
ghost use Rattle.kb_edges.specs.Faults.{Rose};
ghost use Rattle.kb_edges.specs.Told.{IfTold};
ghost use Rattle.session_core.specs.ImportTexts.{import_line_text};
ghost use Rattle.serial_run.specs.Script.{IsScript};
ghost use Rattle.run_audit.specs.AuditWords.{rules_of};
ghost use Rattle.run_audit.specs.Courses.{IsAmongShown, ShowsImport};
ghost use Rattle.run_audit.specs.Importing.{ImportsAt, IsShownBy};
ghost use Rattle.run_audit.specs.Standing.{
  DepartsGuided,
  DepartsIn,
  FitsFloor,
  FitsTogether,
  IsJoined,
  PassesGuided,
  kept_last,
  kept_report,
  least_awaited,
  least_named,
};
ghost use Rattle.run_audit.specs.Verdict.{AgreesWhole, DepartsAt};
ghost use Rattle.run_audit.specs.declared.stop.Stop.TheVariants as stop;

use crate::base::Base;
use crate::course::{ShownImport, shown_at, shown_course};
use crate::importing::import_files;
use crate::made::import_made;
use crate::numbers::behind;
use crate::statements::behind_statement;
use crate::stop::Stop;
use hit_collectors::Collector;
use import_work::{Report, Source};
use kb_edges::Folder;
use query_script::{Placed, Words};
use session_core::{Session, print_import_line, print_report, source_of};
use std::alloc::Global;
use std::thread::Threads;

// The least number that a statement may name.
pub(crate) fn least_named(serial: bool, base: &Base) -> u64
    requires { FitsTogether base.now }
    ensures value { result ≡ least_named serial base.now }
    ensures within { result ≤ kept_last base.now }
{
    if serial { base.last() } else { base.floor() }
}

// The least number that a statement may name that awaits this one.
pub(crate) fn least_awaited(serial: bool, base: &Base, awaited: u64) -> u64
    requires { FitsTogether base.now }
    ensures value { result ≡ least_awaited serial base.now awaited }
    ensures within { result ≤ kept_last base.now }
{
    if serial {
        return base.last();
    }
    base.floor().max(awaited.min(base.last()))
}

// Goes over the texts of all statements, which are to be the record, with boxes that tally the hits of the
// searches.
pub(crate) fn audit_statements<R: Threads + Sync, F: Folder, C: Collector>(
    rt: &R,
    alloc: Global,
    words: Words,
    boxes: Vec<C>,
    placed: &[Placed],
    folder: &mut F,
    recorded: &[u8],
) -> Result<(), Stop>
    requires some { 1 ≤ words.batch }
    requires few { length placed.now ≤ 1048576 }
    ensures lawful { IfTold (F.files folder.old) (λ files. (script : List ℕ) →
        IsScript script placed.now → OnOk result
        (AgreesWhole files (rules_of words) (map (λ b. C.tally b) boxes.items) placed.now
        recorded.now)) }
    ensures departs { IfTold (F.files folder.old) (λ files. (script : List ℕ) →
        IsScript script placed.now → (count : ℕ) → IsErrOf result (stop.Departs count) →
        (count ≤ length recorded.now)
        × DepartsAt files (rules_of words) (map (λ b. C.tally b) boxes.items) placed.now
        recorded.now (length recorded.now - count)) }
    ensures within { (count : ℕ) → IsErrOf result (stop.Departs count) →
        count ≤ length recorded.now }
    ensures unread { IsErrOf result stop.FolderUnread →
        Rose (F.faults folder.old) (F.faults folder.new) }
    ensures same { F.files folder.new ≡ F.files folder.old }
    ensures later { F.faults folder.old ≤ F.faults folder.new }
{
    let shown = shown_course(alloc, recorded, placed)?;
    let mut session = Session::new(alloc, boxes);
    let mut base = Base::new(alloc);
    let mut left = recorded;
    for p in placed {
        left = behind_next(
            rt,
            alloc,
            words,
            &mut session,
            &mut base,
            p,
            folder,
            &shown,
            left,
        )?;
    }
    let left = behind(left, base.report())?;
    if left.is_empty() {
        return Ok(());
    }
    Err(Stop::Departs { left: left.len() })
}

// What is left of a record behind the text of a statement, by what the record shows of the imports. An
// import is made.
fn behind_next<'a, R: Threads + Sync, F: Folder, C: Collector>(
    rt: &R,
    alloc: Global,
    words: Words,
    session: &mut Session<C>,
    base: &mut Base,
    placed: &Placed,
    folder: &mut F,
    shown: &[ShownImport<'a>],
    left: &'a [u8],
) -> Result<&'a [u8], Stop>
    requires some { 1 ≤ words.batch }
    requires fits { FitsTogether base.old }
    requires watched { FitsFloor base.old session.old }
    requires number { kept_last base.old + 4294967295 ≤ 9000000000000000000 }
    ensures passed { IfTold (F.files folder.old) (λ files. IfOk result (λ rest.
        (recorded : List ℕ) → All (ShowsImport recorded) shown.now → IsAmongShown placed.now shown.now →
        PassesGuided files (rules_of words) recorded left.now placed.now base.old session.old
        rest.now base.new session.new)) }
    ensures departs { IfTold (F.files folder.old) (λ files. (count : ℕ) →
        IsErrOf result (stop.Departs count) → (recorded : List ℕ) →
        DepartsGuided files (rules_of words) recorded left.now placed.now base.old session.old count) }
    ensures within { (count : ℕ) → IsErrOf result (stop.Departs count) → count ≤ length left.now }
    ensures shorter { IfOk result (λ rest. length rest.now ≤ length left.now) }
    ensures last { IfOk result (λ _. kept_last base.new ≤ kept_last base.old + 4294967295) }
    ensures fits { IfOk result (λ _. FitsTogether base.new) }
    ensures watched { IfOk result (λ _. FitsFloor base.new session.new) }
    ensures unread { IsErrOf result stop.FolderUnread →
        Rose (F.faults folder.old) (F.faults folder.new) }
    ensures same { F.files folder.new ≡ F.files folder.old }
    ensures later { F.faults folder.old ≤ F.faults folder.new }
{
    let line = placed.line;
    let Some(source) = source_of(alloc, &placed.statement)? else {
        return behind_statement(rt, alloc, words.serial, session, placed, base, left);
    };
    let rest = behind_opening(alloc, line, &source, base, left)?;
    let nothing = ShownImport::nothing(alloc, line);
    let shown = shown_at(shown, line).unwrap_or(&nothing);
    run_import(rt, alloc, folder, shown, line, &source, words.batch, base)?;
    Ok(rest)
}

// What is left of a record behind the text of a statement that begins an import, which joins the import
// before it.
fn behind_opening<'a>(
    alloc: Global,
    line: u32,
    source: &Source,
    base: &mut Base,
    left: &'a [u8],
) -> Result<&'a [u8], Stop>
    requires { FitsTogether base.old }
    ensures stands { IfOk result (λ rest.
        left.now ≡ (kept_report base.old ++ import_line_text line source.now) ++ rest.now) }
    ensures joined { IfOk result (λ _. IsJoined base.old base.new) }
    ensures fits { IfOk result (λ _. FitsTogether base.new) }
    ensures departs { (count : ℕ) → IsErrOf result (stop.Departs count) → DepartsIn left.now
        (kept_report base.old ++ import_line_text line source.now) count }
    ensures within { (count : ℕ) → IsErrOf result (stop.Departs count) → count ≤ length left.now }
    ensures shorter { IfOk result (λ rest. length rest.now ≤ length left.now) }
    ensures folder { ¬ IsErrOf result stop.FolderUnread }
{
    let mut text = base.report().to_vec(alloc)?;
    print_import_line(line, source, &mut text)?;
    let rest = behind(left, &text)?;
    base.join(alloc)?;
    Ok(rest)
}

// Imports from a source at a line into a base, where its report then waits.
fn run_import<R: Threads + Sync, F: Folder>(
    rt: &R,
    alloc: Global,
    folder: &mut F,
    shown: &ShownImport<'_>,
    line: u32,
    source: &Source,
    batch: u32,
    base: &mut Base,
) -> Result<(), Stop>
    requires some { 1 ≤ batch }
    requires fits { FitsTogether base.old }
    requires number { kept_last base.old + 4294967295 ≤ 9000000000000000000 }
    ensures imported { IfTold (F.files folder.old) (λ all. OnOk result ((recorded : List ℕ) →
        IsShownBy source.now line recorded shown.now →
        ImportsAt all source.now line batch recorded base.old base.new)) }
    ensures last { OnOk result (kept_last base.new ≤ kept_last base.old + 4294967295) }
    ensures held { OnOk result (base.new.held ≡ base.old.held) }
    ensures fits { OnOk result (FitsTogether base.new) }
    ensures no_departure { (count : ℕ) → ¬ IsErrOf result (stop.Departs count) }
    ensures unread { IsErrOf result stop.FolderUnread →
        Rose (F.faults folder.old) (F.faults folder.new) }
    ensures same { F.files folder.new ≡ F.files folder.old }
    ensures later { F.faults folder.old ≤ F.faults folder.new }
{
    let report = match source {
        Source::Made { games, start } => {
            import_made(rt, alloc, folder, line, *games, *start, batch, base)?
        }
        Source::Under { path } => Report {
            line,
            body: import_files(alloc, folder, shown, path.as_str(), batch, base)?,
            version: base.last(),
        },
    };
    let mut text = Vec::new(alloc);
    print_report(&report, &mut text)?;
    base.wait_with(text);
    Ok(())
}
