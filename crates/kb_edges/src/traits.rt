// The outside: bytes to read, bytes to write and files, each with a count of its faults.
ghost use Rattle.std.specs.Prelude.{
  ◌≡◌,
  ◌≢◌,
  ◌+◌,
  ◌<◌,
  ◌≤◌,
  ℕ,
  List,
  [],
  ◌++◌,
  length,
  map,
  take,
  drop,
  None,
  All,
  AllPairs,
  IsSome,
  IfOk,
  OnOk,
  OnErr,
  IsErrOf,
  vec_len,
  string_bytes,
};
ghost use Rattle.std.specs.declared.option.Option.{Option};
ghost use Rattle.kb_edges.specs.Faults.{Rose};
ghost use Rattle.kb_edges.specs.Files.{File, HasPath, IsListing, IsSgfName, content_of};
ghost use Rattle.kb_edges.specs.Told.{IfTold};

use crate::{FolderError, ReadFailed, SinkError};
use std::alloc::Global;

/// The longest content that `Folder::read` can be limited to, in bytes.
pub const MAX_LIMIT: usize = 268_435_456;

/// Bytes that are read one piece at a time.
pub trait Source {
    /// The bytes left, where the source tells them.
    ghost left: { Self → Option (List ℕ) };

    /// How often it has failed, up to a ceiling.
    ghost faults: { Self → ℕ };

    /// Reads into the front of a piece, and answers how many bytes it gave.
    /// None for a piece of at least one byte is the end. `ReadFailed` raises the count of faults.
    fn read(&mut self, into: &mut [u8]) -> Result<usize, ReadFailed>
        ensures bound { IfOk result (λ n. n ≤ length into.new) }

        // Where the bytes left are told, a read gives the first of them and takes them away.
        ensures given { IfTold (left self.old) (λ bytes. IfOk result (λ n.
            take n into.new ≡ take n bytes)) }
        ensures taken { IfTold (left self.old) (λ bytes. IfOk result (λ n.
            left self.new ≡ Some (drop n bytes))) }
        ensures end { IfTold (left self.old) (λ bytes. IfOk result (λ n. n ≡ 0 →
            0 < length into.new → bytes ≡ [])) }
        ensures kept { OnErr result (left self.new ≡ left self.old) }

        ensures later { faults self.old ≤ faults self.new }
        ensures failed { OnErr result (Rose (faults self.old) (faults self.new)) };
}

/// A place to write bytes to.
pub trait Sink {
    /// The bytes written, where the sink tells them.
    ghost written: { Self → Option (List ℕ) };

    /// How often it has failed, up to a ceiling.
    ghost faults: { Self → ℕ };

    /// Writes the front of a piece, and answers how many bytes it took: at least one where the
    /// piece has one. `Failed` raises the count of faults, and after an error nothing of the piece
    /// is written.
    fn write(&mut self, bytes: &[u8]) -> Result<usize, SinkError>
        ensures bound { IfOk result (λ n. n ≤ length bytes.now) }
        ensures progress { IfOk result (λ n. 0 < length bytes.now → 0 < n) }

        // Where the bytes written are told, a write appends those that it took.
        ensures appended { IfTold (written self.old) (λ before. IfOk result (λ n.
            written self.new ≡ Some (before ++ take n bytes.now))) }
        ensures kept { OnErr result (written self.new ≡ written self.old) }

        ensures later { faults self.old ≤ faults self.new }
        ensures failed { IsErrOf result SinkError.Failed →
            Rose (faults self.old) (faults self.new) }
        ensures no_memory { IsErrOf result SinkError.NoMemory → faults self.new ≡ faults self.old };
}

/// Files, by a path and a name.
pub trait Folder: Drop {
    /// Its files, where the folder tells them.
    ghost files: { Self → Option (List File) };

    /// How often it has failed, up to a ceiling.
    ghost faults: { Self → ℕ };

    /// The names under a path that end in `.sgf`, each once, in any order. `Failed` raises the
    /// count of faults. `Missing` says that the folder tells its files and none has this path.
    fn list(&mut self, alloc: Global, path: &str) -> Result<Vec<String>, FolderError>
        ensures listing { IfTold (files self.old) (λ all. IfOk result (λ names.
            IsListing all path.now (map string_bytes names.items))) }
        ensures sgf { IfOk result (λ names. All IsSgfName (map string_bytes names.items)) }
        ensures distinct { IfOk result (λ names.
            AllPairs (λ x y. x ≢ y) (map string_bytes names.items)) }
        ensures there { IfTold (files self.old) (λ all. OnOk result (HasPath all path.now)) }

        ensures missing_told { IsErrOf result FolderError.Missing → IsSome (files self.old) }
        ensures missing { IsErrOf result FolderError.Missing → IfTold (files self.old) (λ all.
            ¬ HasPath all path.now) }
        ensures missing_faults { IsErrOf result FolderError.Missing →
            faults self.new ≡ faults self.old }

        ensures same { files self.new ≡ files self.old }
        ensures later { faults self.old ≤ faults self.new }
        ensures failed { IsErrOf result FolderError.Failed →
            Rose (faults self.old) (faults self.new) };

    /// The first `limit + 1` bytes of a file, or all of them if there are fewer. The limit is at
    /// most [`MAX_LIMIT`]. `Failed` raises the count of faults. `Missing` says that the folder
    /// tells its files and none has this path and name.
    fn read(
        &mut self,
        alloc: Global,
        path: &str,
        name: &str,
        limit: usize,
    ) -> Result<Vec<u8>, FolderError>
        requires { limit ≤ MAX_LIMIT }

        ensures bound { IfOk result (λ bytes. vec_len bytes ≤ limit + 1) }
        ensures content { IfTold (files self.old) (λ all. IfOk result (λ read.
            IfTold (content_of all path.now name.now)
            (λ bytes. read.items ≡ take (limit + 1) bytes))) }
        ensures there { IfTold (files self.old) (λ all.
            OnOk result (IsSome (content_of all path.now name.now))) }

        ensures missing_told { IsErrOf result FolderError.Missing → IsSome (files self.old) }
        ensures missing { IsErrOf result FolderError.Missing → IfTold (files self.old) (λ all.
            content_of all path.now name.now ≡ None) }
        ensures missing_faults { IsErrOf result FolderError.Missing →
            faults self.new ≡ faults self.old }

        ensures same { files self.new ≡ files self.old }
        ensures later { faults self.old ≤ faults self.new }
        ensures failed { IsErrOf result FolderError.Failed →
            Rose (faults self.old) (faults self.new) };
}
