// What a folder in memory finds among its files.
ghost use Rattle.std.specs.Prelude.{
  ◌≡◌,
  ◌≢◌,
  ◌&&◌,
  ℕ,
  List,
  AllPairs,
  Contains,
  map,
  find,
  string_bytes,
  IfOk,
};
ghost use Rattle.std.specs.Cmp.Lexicographic.{slice_cmp};
ghost use Rattle.std.specs.List.{list_any};
ghost use Rattle.std.specs.Option.{option_copied};
ghost use Rattle.std.specs.Ordering.{nat_cmp};
ghost use Rattle.std.specs.Str.{bytes_eq};
ghost use Rattle.std.specs.declared.cmp.Ordering.TheVariants.{Less};
ghost use Rattle.kb_edges.specs.Entries.{files_of};
ghost use Rattle.kb_edges.specs.Files.{IsListing, is_sgf_name, sgf_names_of};

use crate::FileEntry;
use std::alloc::{AllocError, Global};

/// Whether some file has this path.
pub fn has_path(files: &[FileEntry], path: &str) -> bool
    ensures { result ≡ list_any (λ entry. bytes_eq (string_bytes entry.path) path.now) files.now }
{
    files.iter().any(|file| file.path.as_str() == path)
}

/// The first file with this path and this name.
pub fn first_file<'a>(files: &'a [FileEntry], path: &str, name: &str) -> Option<&'a FileEntry>
    ensures { option_copied result ≡ find (λ entry.
        bytes_eq (string_bytes entry.path) path.now
        && bytes_eq (string_bytes entry.name) name.now) files.now }
{
    files.iter().find(|file| file.path.as_str() == path && file.name.as_str() == name)
}

/// Whether a name ends in `.sgf`, byte for byte.
pub fn is_sgf_name(name: &str) -> bool
    ensures { result ≡ is_sgf_name name.now }
{
    name.as_bytes().ends_with(b".sgf")
}

/// The names of the files under a path that end in `.sgf`, each once.
pub fn sgf_names(alloc: Global, files: &[FileEntry], path: &str) -> Result<Vec<String>, AllocError>
    ensures { IfOk result (λ names.
        IsListing (files_of files.now) path.now (map string_bytes names.items)) }
{
    let mut names = matching_names(alloc, files, path)?;
    sort_names(&mut names);
    Ok(names)
}

/// Sorts names by their bytes, and drops repeats.
pub fn sort_names(names: &mut Vec<String>)
    ensures ascending { AllPairs (λ x y. slice_cmp nat_cmp x y ≡ Less)
        (map string_bytes names.new.items) }
    ensures distinct { AllPairs (λ x y. x ≢ y) (map string_bytes names.new.items) }
    ensures kept { (name : List ℕ) → Contains (map string_bytes names.old.items) name →
        Contains (map string_bytes names.new.items) name }
    ensures none_added { (name : List ℕ) → Contains (map string_bytes names.new.items) name →
        Contains (map string_bytes names.old.items) name }
{
    names.sort_unstable();
    names.dedup();
}

fn is_listed(file: &FileEntry, path: &str) -> bool
    ensures { result
        ≡ (bytes_eq (string_bytes file.now.path) path.now
        && is_sgf_name (string_bytes file.now.name)) }
{
    file.path.as_str() == path && is_sgf_name(file.name.as_str())
}

// The same in the order of the files, with repeats.
fn matching_names(alloc: Global, files: &[FileEntry], path: &str) -> Result<Vec<String>, AllocError>
    ensures { IfOk result (λ names.
        map string_bytes names.items ≡ sgf_names_of (files_of files.now) path.now) }
{
    let mut names = Vec::new(alloc);
    for file in files {
        if is_listed(file, path) {
            names.push(String::from_str(alloc, file.name.as_str())?)?;
        }
    }
    Ok(names)
}
