// Importing made games.
ghost use Rattle.std.specs.Prelude.{◌≡◌, ◌≤◌, ◌<◌, ◌+◌, ℕ, false, IfOk, IsErrOf, List};
ghost use Rattle.kb_edges.specs.Files.{File};
ghost use Rattle.import_work.specs.Imports.{games_reported};
ghost use Rattle.import_work.specs.declared.source.Source.TheVariants as origin;
ghost use Rattle.run_audit.specs.Importing.{ImportsBy};
ghost use Rattle.run_audit.specs.Standing.{FitsTogether, kept_last};
ghost use Rattle.run_audit.specs.declared.stop.Stop.TheVariants as stop;

use crate::base::Base;
use crate::stop::Stop;
use import_work::{Import, Report};
use kb_edges::Folder;
use std::alloc::Global;
use std::thread::Threads;

// Imports so many made games into a base, by batches of so many, for the report at a line. The folder
// isn't asked.
pub(crate) fn import_made<R: Threads + Sync, F: Folder>(
    rt: &R,
    alloc: Global,
    folder: &mut F,
    line: u32,
    games: u32,
    start: u32,
    batch: u32,
    base: &mut Base,
) -> Result<Report, Stop>
    requires some { 1 ≤ batch }
    requires fits { FitsTogether base.old }
    requires number { kept_last base.old + 4294967295 ≤ 9000000000000000000 }
    ensures imported { IfOk result (λ report. (all : List File) →
        ImportsBy all (origin.Made games start) batch false (λ _. false) base.old base.new
        report.body) }
    ensures told { IfOk result (λ report. (report.line ≡ line)
        × (report.version ≡ kept_last base.new)) }
    ensures few { IfOk result (λ report. games_reported report.body ≤ 400000) }
    ensures last { IfOk result (λ _. kept_last base.new ≤ kept_last base.old + 4294967295) }
    ensures fits { IfOk result (λ _. FitsTogether base.new) }
    ensures no_departure { (count : ℕ) → ¬ IsErrOf result (stop.Departs count) }
    ensures folder { ¬ IsErrOf result stop.FolderUnread }
    ensures unasked { folder.new ≡ folder.old }
{
    let mut import = Import::open_made(games, start, line, base.counts(), base.last());
    while let Some(segment) = import.step(rt, alloc, folder, batch)? {
        base.add(alloc, segment, import.counts())?;
    }
    Ok(import.finish())
}
