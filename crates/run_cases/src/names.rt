// Imports of very many names.
use crate::files::{number, push_numbered, text_of};
use crate::status::{Ended, append_whole};
use case_files::{Case, CaseError};
use hit_collectors::Collector;
use kb_edges::{Folder, FolderError, MemoryFolder, MemorySink, MemorySource};
use serial_run::run_serial;
use std::alloc::Global;
use std::thread::Threads;

// The text of each file: a game without a move.
const GAME: &[u8; 3] = b"(;)";

// The names of a folder in memory, and one game under each of them. It tells nothing of its files,
// so no read looks for a name: a folder in memory looks through all its files at each read.
#[derive(Drop)]
struct OneGameUnderEachName {
    names: MemoryFolder,
}

impl Folder for OneGameUnderEachName {
    ghost use Rattle.std.specs.Prelude.{None};
    ghost use Rattle.kb_edges.specs.Memory.{folder_faults};

    ghost files = { λ _. None };

    ghost faults = { λ folder. folder_faults folder.names };

    fn list(&mut self, alloc: Global, path: &str) -> Result<Vec<String>, FolderError> {
        match self.names.list(alloc, path) {
            Ok(names) => Ok(names),
            Err(FolderError::Failed) => Err(FolderError::Failed),
            Err(_) => Err(FolderError::NoMemory),
        }
    }

    fn read(
        &mut self,
        alloc: Global,
        _path: &str,
        _name: &str,
        limit: usize,
    ) -> Result<Vec<u8>, FolderError> {
        let end = GAME.len().min(limit + 1);
        match GAME[..end].to_vec(alloc) {
            Ok(bytes) => Ok(bytes),
            Err(_) => Err(FolderError::NoMemory),
        }
    }
}

/// The kind `names`: the import of so many files of one game without a move, as one line.
pub(crate) fn answer_names(
    rt: &(impl Threads + Sync),
    alloc: Global,
    case: &Case<'_>,
    out: &mut Vec<u8>,
) -> Result<(), CaseError> {
    let mut files = Vec::new(alloc);
    push_numbered(
        alloc,
        number(text_of(case.text())?)?,
        "d",
        "#.sgf",
        b"",
        &mut files,
    )?;
    let folder = OneGameUnderEachName {
        names: MemoryFolder::new(files, Vec::new(alloc)),
    };
    let mut source = MemorySource::new(b"import d\nwait\n".to_vec(alloc)?, Vec::new(alloc));
    let mut sink = MemorySink::new(Vec::new(alloc), Vec::new(alloc));
    let boxes: Vec<Box<dyn Collector>> = Vec::new(alloc);
    let (status, _folder) = run_serial(rt, alloc, &[], folder, &mut source, &mut sink, boxes);
    let ended = Ended {
        status,
        left: source.left().len(),
        output: sink.written().to_vec(alloc)?,
    };
    append_whole(out, &ended)
}
