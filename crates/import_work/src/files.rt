// The files of an import, which have their turn one batch after another.
ghost use Rattle.std.specs.Prelude.{◌≡◌, ◌⊎◌, ◌↔◌, ◌<◌, ◌≤◌, [], List, None, Some, IfOk, IfSome};
ghost use Rattle.kb_edges.specs.Faults.{Rose};
ghost use Rattle.kb_edges.specs.Files.{File, HasPath};
ghost use Rattle.kb_edges.specs.Told.{IfTold};
ghost use Rattle.import_work.specs.declared.import.Work.TheVariants as work;
ghost use Rattle.import_work.specs.declared.report.ReportBody.TheVariants.{Unlisted};
ghost use Rattle.import_work.specs.Imports.{IsFolderListed, IsPathListed};
ghost use Rattle.import_work.specs.ImportFields.{AreFilesKept, TakesOne, left_of, told_by};

use crate::batch::{FileLine, import_names};
use crate::listing::{Listing, list_names};
use crate::outcome::Counts;
use kb_edges::Folder;
use kb_geometry::{NoMemory, Text};
use segment_store::Segment;
use std::alloc::Global;
use std::thread::Threads;

// The files under one path of a folder, and what became of those that had their turn.
#[derive(Drop)]
pub(crate) struct FileWork {
    pub path: Text,
    pub listing: Listing,
    pub names: Vec<String>,
    // How many of the names have had their turn.
    pub next: usize,
    pub lines: Vec<FileLine>,
}

impl FileWork {
    // Lists the names under a path. None has had its turn.
    pub(crate) fn open<F: Folder>(
        alloc: Global,
        folder: &mut F,
        path: &str,
    ) -> Result<FileWork, NoMemory>
        ensures opened { IfOk result (λ files. (files.path ≡ path.now) × (files.next ≡ 0)) }
        ensures kept { IfOk result AreFilesKept }
        ensures listed { IfOk result (λ files.
            IsFolderListed (told_by (work.Files files)) (left_of (work.Files files))) }
        ensures told { IfTold (F.files folder.old) (λ all. IfOk result (λ files.
            IsPathListed all path.now (told_by (work.Files files)) (left_of (work.Files files)))) }
        ensures unlisted { IfOk result (λ files. told_by (work.Files files) ≡ Unlisted →
            Rose (F.faults folder.old) (F.faults folder.new)
            ⊎ ((all : List File) × (F.files folder.old ≡ Some all) × (¬ HasPath all path.now))) }
        ensures same { F.files folder.new ≡ F.files folder.old }
        ensures later { F.faults folder.old ≤ F.faults folder.new }
    {
        let own_path = Text::new(String::from_str(alloc, path)?);
        let (listing, names) = list_names(alloc, folder, path)?;
        Ok(FileWork {
            path: own_path,
            listing,
            names,
            next: 0,
            lines: Vec::new(alloc),
        })
    }

    // Imports the next files, so many or as many as are left, into a base with these counts. Gives the
    // segment of their games and the counts with it, or `None` where no name is left.
    pub(crate) fn next_segment<R: Threads + Sync, F: Folder>(
        &mut self,
        rt: &R,
        alloc: Global,
        folder: &mut F,
        batch: u32,
        before: Counts,
    ) -> Result<Option<(Segment, Counts)>, NoMemory>
        requires some { 1 ≤ batch }
        requires kept { AreFilesKept self.old }
        ensures ended { IfOk result (λ taken. (taken ≡ None) ↔ (left_of (work.Files self.old) ≡ [])) }
        ensures still { IfOk result (λ taken. taken ≡ None →
            (self.new ≡ self.old) × (folder.new ≡ folder.old)) }
        ensures step { IfOk result (λ taken. IfSome taken (λ r.
            TakesOne (F.files folder.old) batch (work.Files self.old) (work.Files self.new) before
            r.1 r.0 (F.faults folder.old) (F.faults folder.new))) }
        ensures moved { IfOk result (λ taken. IfSome taken (λ _. self.old.next < self.new.next)) }
        ensures passed { self.old.next ≤ self.new.next }
        ensures kept { AreFilesKept self.new }
        ensures same { F.files folder.new ≡ F.files folder.old }
        ensures later { F.faults folder.old ≤ F.faults folder.new }
    {
        let left = &self.names[self.next..];
        if left.is_empty() {
            return Ok(None);
        }
        let count = left.len().min(batch as usize);
        let (segment, after) = import_names(
            rt,
            alloc,
            folder,
            self.path.as_str(),
            &left[..count],
            before,
            &mut self.lines,
        )?;
        self.next += count;
        Ok(Some((segment, after)))
    }
}
