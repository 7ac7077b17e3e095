// The names of an import, as its folder lists them.
ghost use Rattle.std.specs.Prelude.{
  ◌≡◌,
  ◌≢◌,
  ◌⊎◌,
  ◌≤◌,
  [],
  map,
  string_bytes,
  IfOk,
  IfSome,
  None,
  Some,
  List,
  ℕ,
};
ghost use Rattle.kb_edges.specs.Faults.{Rose};
ghost use Rattle.kb_edges.specs.Files.{File, HasPath};
ghost use Rattle.kb_edges.specs.Told.{IfTold};
ghost use Rattle.import_work.specs.Course.{AreNames};
ghost use Rattle.import_work.specs.Imports.{AreSortedNames, IsFolderListed, IsPathListed};
ghost use Rattle.import_work.specs.Listings.{body_of};
ghost use Rattle.import_work.specs.declared.listing.Listing.TheVariants.{Unlisted};

use kb_edges::{Folder, FolderError, sort_names};
use kb_geometry::NoMemory;
use std::alloc::Global;

// The most names that an import may have.
const MAX_NAMES: usize = 100_000;

// What the listing of its folder told an import.
#[derive(Clone, Copy, Debug, PartialEq, Eq)]
pub(crate) enum Listing {
    // Names, as many as an import may have.
    Names,
    // The folder could not be listed, or no file has the path.
    Unlisted,
    // So many names, more than an import may have.
    TooMany { listed: u64 },
}

// The names under a path that end in `.sgf`, each once and in order of their bytes. There are none
// where the folder failed in this call, or where it tells its files and none has the path.
fn listed_names<F: Folder>(
    alloc: Global,
    folder: &mut F,
    path: &str,
) -> Result<Option<Vec<String>>, NoMemory>
    ensures sorted { IfOk result (λ listed. IfSome listed (λ names.
        AreSortedNames (map string_bytes names.items))) }
    ensures told { IfTold (F.files folder.old) (λ all. IfOk result (λ listed. IfSome listed (λ names.
        HasPath all path.now × AreNames all path.now (map string_bytes names.items)))) }
    ensures unlisted { IfOk result (λ listed. listed ≡ None →
        Rose (F.faults folder.old) (F.faults folder.new)
        ⊎ ((files : List File) × (F.files folder.old ≡ Some files) × (¬ HasPath files path.now))) }
    ensures same { F.files folder.new ≡ F.files folder.old }
    ensures later { F.faults folder.old ≤ F.faults folder.new }
{
    let mut names = match folder.list(alloc, path) {
        Ok(names) => names,
        Err(FolderError::NoMemory) => return Err(NoMemory),
        Err(FolderError::Failed) => return Ok(None),
        Err(FolderError::Missing) => return Ok(None),
    };
    sort_names(&mut names);
    Ok(Some(names))
}

// These names, unless there are more than an import may have.
fn few_names(alloc: Global, names: Vec<String>) -> (Listing, Vec<String>)
    ensures listed { AreSortedNames (map string_bytes names.items) →
        IsFolderListed (body_of result.0 []) (map string_bytes result.1.items) }
    ensures told { (all : List File) (path : List ℕ) → HasPath all path →
        AreNames all path (map string_bytes names.items) →
        IsPathListed all path (body_of result.0 []) (map string_bytes result.1.items) }
    ensures there { result.0 ≢ Unlisted }
{
    if names.len() > MAX_NAMES {
        let listed = names.len() as u64;
        return (Listing::TooMany { listed }, Vec::new(alloc));
    }
    (Listing::Names, names)
}

// What the listing of its folder tells an import of this path, and the names that it leaves to it.
pub(crate) fn list_names<F: Folder>(
    alloc: Global,
    folder: &mut F,
    path: &str,
) -> Result<(Listing, Vec<String>), NoMemory>
    ensures listed { IfOk result (λ r. IsFolderListed (body_of r.0 []) (map string_bytes r.1.items)) }
    ensures told { IfTold (F.files folder.old) (λ all. IfOk result (λ r.
        IsPathListed all path.now (body_of r.0 []) (map string_bytes r.1.items))) }
    ensures unlisted { IfOk result (λ r. r.0 ≡ Unlisted →
        Rose (F.faults folder.old) (F.faults folder.new)
        ⊎ ((files : List File) × (F.files folder.old ≡ Some files) × (¬ HasPath files path.now))) }
    ensures same { F.files folder.new ≡ F.files folder.old }
    ensures later { F.faults folder.old ≤ F.faults folder.new }
{
    match listed_names(alloc, folder, path) {
        Ok(Some(names)) => Ok(few_names(alloc, names)),
        Ok(None) => Ok((Listing::Unlisted, Vec::new(alloc))),
        Err(error) => Err(error),
    }
}
