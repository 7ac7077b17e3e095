// A folder over the file system.
ghost use Rattle.std.specs.Prelude.{
  ◌≡◌,
  ◌≢◌,
  ◌⊎◌,
  ◌+◌,
  ◌≤◌,
  None,
  map,
  string_bytes,
  vec_len,
  All,
  AllPairs,
  IfOk,
  IsErrOf,
};
ghost use Rattle.kb_edges.specs.Faults.{next_count};
ghost use Rattle.kb_edges.specs.Files.{IsSgfName};

use crate::lookup::{is_sgf_name, sort_names};
use crate::{Folder, FolderError, MAX_LIMIT};
use std::alloc::Global;
use std::io::{ErrorKind, Read};
use std::rt::Files;
use std::{fs, io, mem};

// For how many bytes there is room before a file is read.
const ROOM: usize = 16_384;

/// The files of the system. It tells nothing of them. Each error of the system but want of memory
/// is a fault: a path that isn't there, and a name in a directory that isn't UTF-8, among them. So
/// it never answers `Missing`.
#[derive(Drop)]
pub struct RealFolder<R: Files + AllocGlobal + Clone + Drop> {
    rt: R,
    faults: u64,
    // Room into which files are read. What it holds between two reads means nothing.
    room: Vec<u8>,
}

impl<R: Files + AllocGlobal + Clone + Drop> RealFolder<R> {
    ghost use Rattle.kb_edges.specs.Real.{real_folder_faults};

    /// The files of this runtime, with no fault so far.
    pub fn new(rt: R) -> RealFolder<R>
        ensures { real_folder_faults result ≡ 0 }
    {
        let room = Vec::new(rt.alloc());
        RealFolder {
            rt,
            faults: 0,
            room,
        }
    }

    // The answer to an error, which is counted unless it is want of memory.
    fn refusal(&mut self, error: io::Error) -> FolderError
        ensures answer { (result ≡ FolderError.NoMemory) ⊎ (result ≡ FolderError.Failed) }
        ensures later { real_folder_faults self.old ≤ real_folder_faults self.new }
        ensures faults { result ≡ FolderError.NoMemory →
            real_folder_faults self.new ≡ real_folder_faults self.old }
        ensures faults_rise { result ≡ FolderError.Failed →
            real_folder_faults self.new ≡ next_count (real_folder_faults self.old) }
    {
        if error.kind() == ErrorKind::OutOfMemory {
            return FolderError::NoMemory;
        }
        self.faults = self.faults.saturating_add(1);
        FolderError::Failed
    }
}

// The names in a directory that end in `.sgf`, each once.
fn names_in<R: Files + AllocGlobal + Clone + Drop>(
    rt: &R,
    alloc: Global,
    path: &str,
) -> io::Result<Vec<String>>
    ensures sgf { IfOk result (λ names. All IsSgfName (map string_bytes names.items)) }
    ensures distinct { IfOk result (λ names.
        AllPairs (λ x y. x ≢ y) (map string_bytes names.items)) }
{
    let mut names = Vec::new(alloc);
    for entry in fs::read_dir(rt, path)? {
        let entry = entry?;
        let name = entry.file_name();
        if is_sgf_name(name) {
            names.push(String::from_str(alloc, name)?)?;
        }
    }
    sort_names(&mut names);
    Ok(names)
}

// The path of a file in a directory.
fn path_of(alloc: Global, path: &str, name: &str) -> io::Result<String> {
    Ok(format!(in alloc; "{path}/{name}")?)
}

// The first `limit + 1` bytes of a file, or all of them. They are read into the room. Those of a
// short file are copied, and a long file takes the room with it.
fn read_file<R: Files>(
    rt: &R,
    alloc: Global,
    path: &str,
    limit: usize,
    room: &mut Vec<u8>,
) -> io::Result<Vec<u8>>
    requires { limit ≤ MAX_LIMIT }
    ensures { IfOk result (λ bytes. vec_len bytes ≤ limit + 1) }
{
    let file = fs::open(rt, path)?;
    room.clear();
    room.reserve(ROOM)?;
    file.take(limit as u64 + 1).read_to_end(room)?;
    room.truncate(limit + 1);
    if room.len() < ROOM {
        return Ok(Vec::from_slice(alloc, room.as_slice())?);
    }
    Ok(mem::replace(room, Vec::new(alloc)))
}

impl<R: Files + AllocGlobal + Clone + Drop> Folder for RealFolder<R> {
    ghost use Rattle.kb_edges.specs.Real.{real_folder_faults};

    ghost files = { λ _. None };

    ghost faults = { real_folder_faults };

    fn list(&mut self, alloc: Global, path: &str) -> Result<Vec<String>, FolderError>
        ensures sgf { IfOk result (λ names. All IsSgfName (map string_bytes names.items)) }
        ensures distinct { IfOk result (λ names.
            AllPairs (λ x y. x ≢ y) (map string_bytes names.items)) }
        ensures never_missing { result ≢ Err FolderError.Missing }
        ensures later { real_folder_faults self.old ≤ real_folder_faults self.new }
        ensures faults { result ≢ Err FolderError.Failed →
            real_folder_faults self.new ≡ real_folder_faults self.old }
        ensures faults_rise { IsErrOf result FolderError.Failed →
            real_folder_faults self.new ≡ next_count (real_folder_faults self.old) }
    {
        match names_in(&self.rt, alloc, path) {
            Ok(names) => Ok(names),
            Err(error) => Err(self.refusal(error)),
        }
    }

    fn read(
        &mut self,
        alloc: Global,
        path: &str,
        name: &str,
        limit: usize,
    ) -> Result<Vec<u8>, FolderError>
        requires { limit ≤ MAX_LIMIT }
        ensures bound { IfOk result (λ bytes. vec_len bytes ≤ limit + 1) }
        ensures never_missing { result ≢ Err FolderError.Missing }
        ensures later { real_folder_faults self.old ≤ real_folder_faults self.new }
        ensures faults { result ≢ Err FolderError.Failed →
            real_folder_faults self.new ≡ real_folder_faults self.old }
        ensures faults_rise { IsErrOf result FolderError.Failed →
            real_folder_faults self.new ≡ next_count (real_folder_faults self.old) }
    {
        let read = match path_of(alloc, path, name) {
            Ok(path) => read_file(&self.rt, alloc, path.as_str(), limit, &mut self.room),
            Err(error) => Err(error),
        };
        match read {
            Ok(bytes) => Ok(bytes),
            Err(error) => Err(self.refusal(error)),
        }
    }
}
