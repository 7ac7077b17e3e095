// A folder in memory.
ghost use Rattle.std.specs.Prelude.{
  ◌≡◌,
  ◌≢◌,
  ◌+◌,
  ◌≤◌,
  ◌↔◌,
  None,
  Some,
  take,
  map,
  string_bytes,
  vec_len,
  All,
  AllPairs,
  Contains,
  IsErrOf,
  IsSome,
  IfOk,
  OnOk,
};
ghost use Rattle.kb_edges.specs.Faults.{next_count};
ghost use Rattle.kb_edges.specs.Files.{HasPath, IsListing, IsSgfName, content_of};
ghost use Rattle.kb_edges.specs.Told.{IfTold};

use crate::lookup::{first_file, has_path, sgf_names};
use crate::plan::FailurePlan;
use crate::{FileEntry, Folder, FolderError, MAX_LIMIT};
use std::alloc::Global;

/// Files in memory. It fails exactly at the calls that it is told to, numbered from 0.
#[derive(Drop)]
pub struct MemoryFolder {
    entries: Vec<FileEntry>,
    plan: FailurePlan,
}

impl MemoryFolder {
    ghost use Rattle.kb_edges.specs.Entries.{files_of};
    ghost use Rattle.kb_edges.specs.Memory.{
      folder_files,
      folder_fails,
      folder_calls,
      folder_faults,
    };

    /// A folder of these files, which fails at the calls of these numbers.
    pub fn new(files: Vec<FileEntry>, fails: Vec<u32>) -> MemoryFolder
        ensures files { folder_files result ≡ files_of files.items }
        ensures fails { folder_fails result ≡ fails.items }
        ensures calls { folder_calls result ≡ 0 }
        ensures faults { folder_faults result ≡ 0 }
    {
        MemoryFolder {
            entries: files,
            plan: FailurePlan::new(fails),
        }
    }

    /// The files.
    pub fn files(&self) -> &[FileEntry]
        ensures { files_of result.now ≡ folder_files self.now }
    {
        &self.entries
    }

    /// The numbers of the calls that fail.
    pub fn fails(&self) -> &[u32]
        ensures { result.now ≡ folder_fails self.now }
    {
        &self.plan.fails
    }
}

impl Folder for MemoryFolder {
    ghost use Rattle.kb_edges.specs.Memory.{
      folder_files,
      folder_fails,
      folder_calls,
      folder_faults,
    };

    ghost files = { λ folder. Some (folder_files folder) };

    ghost faults = { λ folder. folder_faults folder };

    fn list(&mut self, alloc: Global, path: &str) -> Result<Vec<String>, FolderError>
        ensures fails { IsErrOf result FolderError.Failed
            ↔ Contains (folder_fails self.old) (folder_calls self.old) }
        ensures listing { IfOk result (λ names.
            IsListing (folder_files self.old) path.now (map string_bytes names.items)) }
        ensures there { OnOk result (HasPath (folder_files self.old) path.now) }
        ensures sgf { IfOk result (λ names. All IsSgfName (map string_bytes names.items)) }
        ensures distinct { IfOk result (λ names.
            AllPairs (λ x y. x ≢ y) (map string_bytes names.items)) }
        ensures missing { IsErrOf result FolderError.Missing →
            ¬ HasPath (folder_files self.old) path.now }
        ensures no_memory { IsErrOf result FolderError.NoMemory →
            HasPath (folder_files self.old) path.now }
        ensures same { folder_files self.new ≡ folder_files self.old }
        ensures later { folder_faults self.old ≤ folder_faults self.new }
        ensures same_fails { folder_fails self.new ≡ folder_fails self.old }
        ensures calls { folder_calls self.new ≡ next_count (folder_calls self.old) }
        ensures faults { result ≢ Err FolderError.Failed →
            folder_faults self.new ≡ folder_faults self.old }
        ensures faults_rise { IsErrOf result FolderError.Failed →
            folder_faults self.new ≡ next_count (folder_faults self.old) }
    {
        if self.plan.fails_now() {
            return Err(FolderError::Failed);
        }
        if !has_path(&self.entries, path) {
            return Err(FolderError::Missing);
        }
        Ok(sgf_names(alloc, &self.entries, path)?)
    }

    fn read(
        &mut self,
        alloc: Global,
        path: &str,
        name: &str,
        limit: usize,
    ) -> Result<Vec<u8>, FolderError>
        requires { limit ≤ MAX_LIMIT }
        ensures fails { IsErrOf result FolderError.Failed
            ↔ Contains (folder_fails self.old) (folder_calls self.old) }
        ensures bound { IfOk result (λ bytes. vec_len bytes ≤ limit + 1) }
        ensures content { IfOk result (λ read.
            IfTold (content_of (folder_files self.old) path.now name.now)
            (λ bytes. read.items ≡ take (limit + 1) bytes)) }
        ensures there { OnOk result
            (IsSome (content_of (folder_files self.old) path.now name.now)) }
        ensures missing { IsErrOf result FolderError.Missing →
            content_of (folder_files self.old) path.now name.now ≡ None }
        ensures no_memory { IsErrOf result FolderError.NoMemory →
            IsSome (content_of (folder_files self.old) path.now name.now) }
        ensures same { folder_files self.new ≡ folder_files self.old }
        ensures later { folder_faults self.old ≤ folder_faults self.new }
        ensures same_fails { folder_fails self.new ≡ folder_fails self.old }
        ensures calls { folder_calls self.new ≡ next_count (folder_calls self.old) }
        ensures faults { result ≢ Err FolderError.Failed →
            folder_faults self.new ≡ folder_faults self.old }
        ensures faults_rise { IsErrOf result FolderError.Failed →
            folder_faults self.new ≡ next_count (folder_faults self.old) }
    {
        if self.plan.fails_now() {
            return Err(FolderError::Failed);
        }
        let Some(file) = first_file(&self.entries, path, name) else {
            return Err(FolderError::Missing);
        };
        let end = file.bytes.len().min(limit + 1);
        Ok(file.bytes[..end].to_vec(alloc)?)
    }
}
