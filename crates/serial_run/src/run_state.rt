// The state of a run: what it has imported, and the text of each statement there.
ghost use Rattle.std.specs.Prelude.{◌≡◌, ◌≤◌, ◌+◌, ◌++◌, List, Some, ℕ, IfOk};

use crate::counts::counts_in;
use crate::statement_text::version_text;
use hit_collectors::Collector;
use import_segments::take_segments;
use import_work::{Counts, Import, Report, Source};
use kb_edges::Folder;
use kb_geometry::NoMemory;
use query_script::{Placed, Statement, print_wait};
use segment_store::Segment;
use session_core::{Session, print_import_line, print_report};
use std::alloc::Global;
use std::marker::Model;
use std::thread::Threads;
use version_publisher::Version;

/// What a run has between two statements: the last version, and the report of an import that isn't
/// joined yet. The model is what is kept of a state of the run (`Kept`).
#[derive(Drop)]
pub struct RunState {
    version: Version<Segment>,
    counts: Counts,
    // The report of an import that isn't joined yet.
    waiting: Option<Vec<u8>>,
}

impl Model for RunState {
    ghost use Rattle.std.specs.Prelude.{◌≡◌};
    ghost use Rattle.std.specs.Option.{option_map};
    ghost use Rattle.import_work.specs.Course.{trees_in};
    ghost use Rattle.import_work.specs.Outcome.{counts_of};
    ghost use Rattle.serial_run.specs.Steps.{Kept, kept_at};
    ghost use Rattle.import_segments.specs.Stores.{HasFewGames};
    ghost use Rattle.version_publisher.specs.Contents.{items_in};

    ghost Value = { Kept };

    ghost view = { λ s. kept_at s.version (option_map (λ report. report.items) s.waiting) };

    ghost invariant = { λ s. (s.counts ≡ counts_of (trees_in (items_in s.version.parts)))
        × HasFewGames s.counts };
}

impl RunState {
    ghost use mathlib.Core.List.{IsPrefix};
    ghost use Rattle.kb_edges.specs.Files.{File};
    ghost use Rattle.kb_edges.specs.Told.{IfTold};
    ghost use Rattle.import_work.specs.Course.{trees_in};
    ghost use Rattle.import_work.specs.Imports.{games_reported};
    ghost use Rattle.import_work.specs.Outcome.{counts_of};
    ghost use Rattle.import_work.specs.Rooms.{AreCountsWithinLimits};
    ghost use Rattle.version_publisher.specs.Contents.{items_in};
    ghost use Rattle.query_script.specs.Texts.{wait_text};
    ghost use Rattle.session_core.specs.Lawful.{Rules};
    ghost use Rattle.session_core.specs.ImportTexts.{told_text};
    ghost use Rattle.session_core.specs.Watches.{WatchesFit};
    ghost use Rattle.serial_run.specs.Run.{serial_rules};
    ghost use Rattle.serial_run.specs.Steps.{IsTextByKept, LeadsOn, kept_at, kept_report, nothing_kept};
    ghost use Rattle.session_core.specs.Sources.{IsNoImport, statement_of};
    ghost use Rattle.session_core.specs.ImportTexts.{import_line_text};

    /// The empty base.
    pub fn new(alloc: Global) -> Self
        ensures { result ≡ nothing_kept }
    {
        RunState {
            version: Version::empty(alloc),
            counts: Counts { games: 0, nodes: 0 },
            waiting: None,
        }
    }

    /// The report of an import that isn't joined yet, or nothing.
    pub fn report(&self) -> &[u8]
        ensures { result.now ≡ kept_report self.now }
    {
        match &self.waiting {
            Some(report) => report.as_slice(),
            None => &[],
        }
    }

    /// The state when this is the last version, and this the report of the import before it.
    pub fn joined(
        alloc: Global,
        version: Version<Segment>,
        report: &Report,
    ) -> Result<RunState, NoMemory>
        requires limits { AreCountsWithinLimits (counts_of (trees_in (items_in version.parts))) }
        requires few { games_reported report.now.body ≤ 400000 }
        ensures { IfOk result (λ state. state ≡ kept_at version
            (Some (told_text report.now.line report.now.body report.now.version))) }
    {
        let counts = counts_in(alloc, &version)?;
        let mut text = Vec::new(alloc);
        print_report(report, &mut text)?;
        Ok(RunState {
            version,
            counts,
            waiting: Some(text),
        })
    }

    /// The last version.
    pub fn into_version(self) -> Version<Segment>
        ensures number { result.number ≡ self.version }
        ensures games { items_in result.parts ≡ self.games }
    {
        self.version
    }

    /// The games and nodes of the last version.
    pub fn counts(&self) -> Counts
        ensures { result ≡ counts_of (trees_in self.now.games) }
    {
        self.counts
    }

    /// The text of a statement that begins no import. The last version begins with the games that the
    /// session's watched searches cover.
    pub fn text_of<R: Threads + Sync, C: Collector>(
        &self,
        rt: &R,
        alloc: Global,
        session: &mut Session<C>,
        placed: &Placed,
    ) -> Result<Vec<u8>, NoMemory>
        requires no_import { IsNoImport placed.now.statement }
        requires fit { WatchesFit self.now.games session.old }
        ensures text { IfOk result (λ text. (rules : Rules) →
            IsTextByKept rules self.now session.old placed.now.line placed.now.statement text.items
            session.new) }
        ensures fit { IfOk result (λ text. WatchesFit self.now.games session.new) }
    {
        match &placed.statement {
            Statement::Wait => self.wait_text(alloc, placed.line),
            _ => version_text(rt, alloc, session, placed, &self.version),
        }
    }

    /// The text of a statement that begins an import at a line. It waits for the import before it, so
    /// that one's report is printed first.
    pub fn import_text(
        &self,
        alloc: Global,
        line: u32,
        source: &Source,
    ) -> Result<Vec<u8>, NoMemory>
        ensures { IfOk result (λ text.
            text.items ≡ kept_report self.now ++ import_line_text line source.now) }
    {
        let mut text = self.report().to_vec(alloc)?;
        print_import_line(line, source, &mut text)?;
        Ok(text)
    }

    fn wait_text(&self, alloc: Global, line: u32) -> Result<Vec<u8>, NoMemory>
        ensures { IfOk result (λ text.
            text.items ≡ kept_report self.now ++ wait_text line self.now.version) }
    {
        let mut text = self.report().to_vec(alloc)?;
        print_wait(line, self.version.number(), &mut text)?;
        Ok(text)
    }

    /// The state after a statement that is no import.
    pub fn leave(mut self, statement: &Statement) -> RunState
        requires { IsNoImport statement.now }
        ensures leads { (rules : Rules) (files : List File) (line : ℕ) (text : List ℕ) (faults : ℕ) →
            LeadsOn files rules self line statement.now text result faults faults }
        ensures version { result.version ≡ self.version }
        ensures games { result.games ≡ self.games }
    {
        match statement {
            Statement::Wait => {
                self.waiting = None;
                self
            }
            // All others leave the base and the report as they are.
            _ => self,
        }
    }

    /// The state after an import, by batches of so many files, from a source at a line: its report
    /// is kept until it is joined.
    pub fn pass_import<R: Threads + Sync, F: Folder>(
        self,
        rt: &R,
        alloc: Global,
        folder: &mut F,
        batch: u32,
        line: u32,
        source: &Source,
    ) -> Result<RunState, NoMemory>
        requires some { 1 ≤ batch }
        requires number { self.version ≤ 9000000000000000000 }
        ensures passed { IfTold (F.files folder.old) (λ files. IfOk result (λ next. (text : List ℕ) →
            LeadsOn files (serial_rules batch) self line (statement_of source.now) text next
            (F.faults folder.old) (F.faults folder.new))) }
        ensures version { IfOk result (λ next. next.version ≤ self.version + 4294967295) }
        ensures grown { IfOk result (λ next. IsPrefix self.games next.games) }
        ensures same { F.files folder.new ≡ F.files folder.old }
        ensures later { F.faults folder.old ≤ F.faults folder.new }
    {
        let mut version = self.version;
        let number = version.number();
        let mut import = Import::open_from(alloc, folder, source, line, self.counts, number)?;
        take_segments(rt, alloc, folder, batch, &mut import, &mut version)?;
        let counts = import.counts();
        let report = import.finish();
        let mut text = Vec::new(alloc);
        print_report(&report, &mut text)?;
        Ok(RunState {
            version,
            counts,
            waiting: Some(text),
        })
    }
}
