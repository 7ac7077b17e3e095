// One file of a folder.
ghost use Rattle.std.specs.Prelude.{
  ◌≡◌,
  ◌≢◌,
  ◌⊎◌,
  ◌≤◌,
  IfOk,
  Some,
  List,
  ℕ,
};
ghost use Rattle.kb_edges.specs.Faults.{Rose};
ghost use Rattle.kb_edges.specs.Files.{File, HasFile};
ghost use Rattle.kb_edges.specs.Told.{IfTold};
ghost use Rattle.import_work.specs.declared.outcome.FileOutcome.TheVariants.{Unread};
ghost use Rattle.import_work.specs.Course.{IsContent};
ghost use Rattle.import_work.specs.Outcome.{IsOutcome};
ghost use Rattle.import_work.specs.Rooms.{IsAdded};

use crate::outcome::{Counts, FileOutcome, outcome_of};
use game_tree::GameTree;
use kb_edges::{Folder, FolderError};
use kb_geometry::NoMemory;
use sgf_reader::MAX_FILE;
use std::alloc::Global;

/// What becomes of one file of a folder in a base with these counts, and the games that it adds.
///
/// A file that can't be read, or that isn't there, is `Unread`. The only error is `NoMemory`.
pub fn import_one<F: Folder>(
    alloc: Global,
    folder: &mut F,
    path: &str,
    name: &str,
    before: Counts,
) -> Result<(FileOutcome, Vec<GameTree>), NoMemory>
    ensures outcome { IfTold (F.files folder.old) (λ files. IfOk result (λ r. r.0 ≢ Unread →
        (bytes : List ℕ) × IsContent files path.now name.now bytes
        × IsOutcome bytes before r.0 r.1.items)) }
    ensures unread { IfOk result (λ r. r.0 ≡ Unread →
        Rose (F.faults folder.old) (F.faults folder.new)
        ⊎ ((files : List File) × (F.files folder.old ≡ Some files)
        × (¬ HasFile files path.now name.now))) }
    ensures added { IfOk result (λ r. IsAdded before r.0 r.1.items) }
    ensures same { F.files folder.new ≡ F.files folder.old }
    ensures later { F.faults folder.old ≤ F.faults folder.new }
{
    let bytes = match folder.read(alloc, path, name, MAX_FILE as usize) {
        Ok(bytes) => bytes,
        Err(FolderError::NoMemory) => return Err(NoMemory),
        Err(FolderError::Failed) => return Ok((FileOutcome::Unread, Vec::new(alloc))),
        Err(FolderError::Missing) => return Ok((FileOutcome::Unread, Vec::new(alloc))),
    };
    let (outcome, games) = outcome_of(alloc, &bytes, before)?;
    Ok((outcome, games))
}
