// An import, step by step.
ghost use Rattle.std.specs.Prelude.{
  ◌≡◌,
  ◌↔◌,
  ◌⊎◌,
  ◌+◌,
  ◌<◌,
  ◌≤◌,
  [],
  List,
  ℕ,
  None,
  Some,
  IfOk,
  IfSome,
};
ghost use Rattle.kb_edges.specs.Faults.{Rose};
ghost use Rattle.kb_edges.specs.Files.{File, HasPath};
ghost use Rattle.kb_edges.specs.Told.{IfTold};
ghost use Rattle.import_work.specs.Imports.{
  IsListed,
  IsListedIn,
  IsNotThere,
  IsOpened,
  IsStep,
};
ghost use Rattle.import_work.specs.ImportFields.{
  IsWorkKept,
  TakesOne,
  left_of,
  taken_of,
  told_by,
};
ghost use Rattle.import_work.specs.Listings.{body_of};
ghost use Rattle.import_work.specs.declared.import.Work.TheVariants as work;
ghost use Rattle.import_work.specs.declared.made.MadeWork.{MadeWork};
ghost use Rattle.import_work.specs.declared.source.Source.TheVariants as origin;

use crate::batch::FileLine;
use crate::files::FileWork;
use crate::listing::Listing;
use crate::made::MadeWork;
use crate::outcome::Counts;
use crate::report::{Report, ReportBody};
use crate::source::Source;
use kb_edges::Folder;
use kb_geometry::{Items, NoMemory};
use segment_store::Segment;
use std::alloc::Global;
use std::marker::Model;
use std::thread::Threads;

// What an import takes its games from, and how far it has gone through it.
#[derive(Drop)]
pub(crate) enum Work {
    Files(FileWork),
    Made(MadeWork),
}

impl Work {
    // The next segment, of so many files or as many as are left, for a base with these counts, and
    // the counts with it. `None` says that nothing is left.
    fn next_segment<R: Threads + Sync, F: Folder>(
        &mut self,
        rt: &R,
        alloc: Global,
        folder: &mut F,
        batch: u32,
        before: Counts,
    ) -> Result<Option<(Segment, Counts)>, NoMemory>
        requires some { 1 ≤ batch }
        requires kept { IsWorkKept self.old }
        ensures ended { IfOk result (λ taken. (taken ≡ None) ↔ (left_of self.old ≡ [])) }
        ensures still { IfOk result (λ taken. taken ≡ None →
            (self.new ≡ self.old) × (folder.new ≡ folder.old)) }
        ensures step { IfOk result (λ taken. IfSome taken (λ r. TakesOne (F.files folder.old) batch
            self.old self.new before r.1 r.0 (F.faults folder.old) (F.faults folder.new))) }
        ensures unasked { (made : MadeWork) → self.old ≡ work.Made made → folder.new ≡ folder.old }
        ensures moved { IfOk result (λ taken. IfSome taken
            (λ _. taken_of self.old < taken_of self.new)) }
        ensures passed { taken_of self.old ≤ taken_of self.new }
        ensures kept { IsWorkKept self.new }
        ensures same { F.files folder.new ≡ F.files folder.old }
        ensures later { F.faults folder.old ≤ F.faults folder.new }
    {
        match self {
            Work::Files(files) => files.next_segment(rt, alloc, folder, batch, before),
            Work::Made(made) => made.next_segment(rt, alloc, batch, before),
        }
    }

    // What the report tells.
    fn told(self) -> ReportBody
        ensures { result ≡ told_by self }
    {
        match self {
            Work::Files(files) => body_of(files.listing, files.lines),
            Work::Made(made) => ReportBody::Made {
                games: made.added,
                full: made.full,
            },
        }
    }
}

/// An import of the files under one path of a folder, or of made games, which gives its games one
/// segment after another. It doesn't keep the folder: each step is handed the same one.
#[derive(Drop)]
pub struct Import {
    line: u32,
    number: u64,
    work: Work,
    counts: Counts,
    given: u64,
}

impl Model for Import {
    ghost use Rattle.import_work.specs.Imports.{ImportState};

    ghost Value = { ImportState };

    ghost use Rattle.import_work.specs.ImportFields.{IsImportKept, state_of};

    ghost view = { state_of };

    ghost invariant = { IsImportKept };
}

impl Import {
    /// Lists the names under a path that end in `.sgf`, for an import into a base with these counts,
    /// whose last version has this number, at most 9,000,000,000,000,000,000. The report is for this
    /// line. No file is read yet. The only error is `NoMemory`.
    ///
    /// Where the folder fails to list the path, or tells its files and none has it, and where there
    /// are more than 100,000 names, no name is left to the import, and its report says so.
    pub fn open<F: Folder>(
        alloc: Global,
        folder: &mut F,
        path: &str,
        line: u32,
        before: Counts,
        number: u64,
    ) -> Result<Import, NoMemory>
        requires { number ≤ 9000000000000000000 }
        ensures opened { IfOk result (IsOpened (origin.Under path.now) line before number) }
        ensures listed { IfOk result (λ import.
            IsListed (origin.Under path.now) import.body import.left) }
        ensures told { IfTold (F.files folder.old) (λ all. IfOk result (λ import.
            IsListedIn all (origin.Under path.now) import.body import.left)) }
        ensures unlisted { IfOk result (λ import. import.body ≡ ReportBody.Unlisted →
            Rose (F.faults folder.old) (F.faults folder.new)
            ⊎ ((files : List File) × (F.files folder.old ≡ Some files)
            × (¬ HasPath files path.now))) }
        ensures same { F.files folder.new ≡ F.files folder.old }
        ensures later { F.faults folder.old ≤ F.faults folder.new }
    {
        let files = FileWork::open(alloc, folder, path)?;
        Ok(Import {
            line,
            number,
            work: Work::Files(files),
            counts: before,
            given: 0,
        })
    }

    /// So many made games, for an import into a base with these counts, whose last version has this
    /// number, at most 9,000,000,000,000,000,000. The first game begins with the number `start`. The
    /// report is for this line.
    ///
    /// Each game goes as a file of its own, with the name `make` and its number as its place.
    pub fn open_made(games: u32, start: u32, line: u32, before: Counts, number: u64) -> Import
        requires { number ≤ 9000000000000000000 }
        ensures opened { IsOpened (origin.Made games start) line before number result }
        ensures listed { IsListed (origin.Made games start) result.body result.left }
    {
        let made = MadeWork {
            games,
            start,
            added: 0,
            full: 0,
        };
        Import {
            line,
            number,
            work: Work::Made(made),
            counts: before,
            given: 0,
        }
    }

    /// Opens an import from a source: [`Import::open`] for the files under a path, and
    /// [`Import::open_made`] for made games, for which the folder isn't asked.
    pub fn open_from<F: Folder>(
        alloc: Global,
        folder: &mut F,
        source: &Source,
        line: u32,
        before: Counts,
        number: u64,
    ) -> Result<Import, NoMemory>
        requires { number ≤ 9000000000000000000 }
        ensures opened { IfOk result (IsOpened source.now line before number) }
        ensures listed { IfOk result (λ import. IsListed source.now import.body import.left) }
        ensures told { IfTold (F.files folder.old) (λ all. IfOk result (λ import.
            IsListedIn all source.now import.body import.left)) }
        ensures unlisted { IfOk result (λ import. import.body ≡ ReportBody.Unlisted →
            Rose (F.faults folder.old) (F.faults folder.new)
            ⊎ ((files : List File) × (F.files folder.old ≡ Some files)
            × IsNotThere files source.now)) }
        ensures unasked { (games start : ℕ) → source.now ≡ origin.Made games start →
            folder.new ≡ folder.old }
        ensures same { F.files folder.new ≡ F.files folder.old }
        ensures later { F.faults folder.old ≤ F.faults folder.new }
    {
        match source {
            Source::Under { path } => {
                Import::open(alloc, folder, path.as_str(), line, before, number)
            }
            Source::Made { games, start } => {
                Ok(Import::open_made(*games, *start, line, before, number))
            }
        }
    }

    /// Imports the next files, so many or as many as are left, and gives the segment of their games,
    /// which may be empty. `None` says that none is left. Each made game counts as a file. The only
    /// error is `NoMemory`, and after it the import isn't used again.
    pub fn step<R: Threads + Sync, F: Folder>(
        &mut self,
        rt: &R,
        alloc: Global,
        folder: &mut F,
        batch: u32,
    ) -> Result<Option<Segment>, NoMemory>
        requires { 1 ≤ batch }
        ensures ended { IfOk result (λ given. (given ≡ None) ↔ (self.old.left ≡ [])) }
        ensures still { IfOk result (λ given. given ≡ None →
            (self.new ≡ self.old) × (folder.new ≡ folder.old)) }
        ensures step { IfOk result (λ given. IfSome given (λ segment.
            IsStep (F.files folder.old) batch self.old self.new segment (F.faults folder.old)
            (F.faults folder.new))) }
        ensures unasked { (games start : ℕ) → self.old.source ≡ origin.Made games start →
            folder.new ≡ folder.old }
        ensures same { F.files folder.new ≡ F.files folder.old }
        ensures later { F.faults folder.old ≤ F.faults folder.new }
    {
        let taken = self
            .work
            .next_segment(rt, alloc, folder, batch, self.counts)?;
        let Some((segment, after)) = taken else {
            return Ok(None);
        };
        self.counts = after;
        self.given += 1;
        Ok(Some(segment))
    }

    /// The games and nodes of the base with the segments that were given.
    pub fn counts(&self) -> Counts
        ensures { result ≡ self.now.counts }
    {
        self.counts
    }

    /// The report, once nothing is left: [`Import::step`] tells that by `None`.
    pub fn finish(self) -> Report
        requires { self.left ≡ [] }
        ensures { result ≡ record {
          line = self.line;
          body = self.body;
          version = self.number + self.given;
        } }
    {
        let Import {
            line,
            number,
            work,
            given,
            ..
        } = self;
        Report {
            line,
            body: work.told(),
            version: number + given,
        }
    }
}

// What the report of an import tells, with these lines.
fn body_of(listing: Listing, lines: Vec<FileLine>) -> ReportBody
    ensures { result ≡ body_of listing lines.items }
{
    match listing {
        Listing::Names => ReportBody::Files {
            lines: Items::new(lines),
        },
        Listing::Unlisted => ReportBody::Unlisted,
        Listing::TooMany { listed } => ReportBody::TooMany { listed },
    }
}
