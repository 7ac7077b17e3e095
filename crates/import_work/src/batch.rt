// A batch of files.
ghost use Rattle.std.specs.Prelude.{
  ◌≡◌,
  ◌≢◌,
  ◌≤◌,
  ◌++◌,
  [],
  None,
  length,
  map,
  string_bytes,
  IfOk,
  IfSome,
  OnOk,
};
ghost use Rattle.kb_edges.specs.Faults.{RoseBy};
ghost use Rattle.kb_edges.specs.Told.{IfTold};
ghost use Rattle.import_work.specs.Batches.{
  AreImportedInTurn,
  ArePaid,
  IsBatchOf,
  games_told,
  line_reports,
  names_in,
  unread_in,
};
ghost use Rattle.import_work.specs.Course.{trees_in};
ghost use Rattle.import_work.specs.Judged.{AreFoundPieces};
ghost use Rattle.import_work.specs.Log.{games_of_segments};
ghost use Rattle.import_work.specs.Reads.{AreTexts, file_texts, text_names};
ghost use Rattle.import_work.specs.Rooms.{AreAdded, AreCountsWithinLimits};
ghost use Rattle.import_work.specs.Steps.{AreMoreFiles};

use crate::found::FoundPiece;
use crate::judge::judge_all;
use crate::merging::in_one;
use crate::outcome::{Counts, FileOutcome};
use crate::pieces::{LEAST_SHARE, bytes_of, found_files, pieces_for};
use crate::read::{ReadFile, read_all};
use kb_edges::Folder;
use kb_geometry::{Items, NoMemory, Text};
use segment_store::Segment;
use std::alloc::Global;
use std::thread;
use std::thread::Threads;

/// A file of an import by its name, and what became of it.
#[derive(Debug, Drop)]
pub struct FileLine {
    pub name: Text,
    pub outcome: FileOutcome,
}

/// Files of an import. Contracts see them as a list.
pub type FileLines = Items<FileLine>;

/// What a batch of files became: the segment of their games, a line for each file, and the counts
/// of the base with these games.
#[derive(Debug, Drop)]
pub struct Batch {
    pub segment: Segment,
    pub lines: FileLines,
    pub after: Counts,
}

// The most files whose bytes are held at one time.
const FILES_AT_ONCE: usize = 64;

/// Imports the files of these names, in order, into a base with these counts. Each becomes what
/// [`import_one`] tells of it after the files before it, and has the line of its place. The bytes of
/// at most 64 files are held at one time. The only error is `NoMemory`.
pub fn import_batch<R: Threads + Sync, F: Folder>(
    rt: &R,
    alloc: Global,
    folder: &mut F,
    path: &str,
    names: &[String],
    before: Counts,
) -> Result<Batch, NoMemory>
    ensures in_turn { IfOk result (λ batch. AreImportedInTurn (F.files folder.old) path.now before
        (F.faults folder.old) (line_reports batch.lines) batch.segment (F.faults folder.new)) }
    ensures names { IfOk result (λ batch.
        names_in (line_reports batch.lines) ≡ map string_bytes names.now) }
    ensures found { IfTold (F.files folder.old) (λ all. IfOk result (λ batch.
        IsBatchOf all path.now before (map string_bytes names.now) (F.faults folder.old)
        (F.faults folder.new) (line_reports batch.lines) batch.segment)) }
    ensures unread { IfOk result (λ batch. ArePaid (F.files folder.old) path.now
        (unread_in (line_reports batch.lines)) (F.faults folder.old) (F.faults folder.new)) }
    ensures untold { F.files folder.old ≡ None → IfOk result (λ batch.
        RoseBy (length (unread_in (line_reports batch.lines))) (F.faults folder.old)
        (F.faults folder.new)) }
    ensures counted { IfOk result (λ batch.
        games_told (line_reports batch.lines) ≡ length batch.segment) }
    ensures room { IfOk result (λ batch. batch.segment ≢ [] → AreCountsWithinLimits batch.after) }
    ensures added { IfOk result (λ batch. AreAdded before batch.after (trees_in batch.segment)) }
    ensures same { F.files folder.new ≡ F.files folder.old }
    ensures later { F.faults folder.old ≤ F.faults folder.new }
{
    let mut lines = Vec::new(alloc);
    let (segment, after) = import_names(rt, alloc, folder, path, names, before, &mut lines)?;
    Ok(Batch {
        segment,
        lines: Items::new(lines),
        after,
    })
}

// Imports the files of these names, in order, into a base with these counts, and adds their lines to
// those of others. Hands back the segment of their games, and the counts with them.
pub(crate) fn import_names<R: Threads + Sync, F: Folder>(
    rt: &R,
    alloc: Global,
    folder: &mut F,
    path: &str,
    names: &[String],
    before: Counts,
    lines: &mut Vec<FileLine>,
) -> Result<(Segment, Counts), NoMemory>
    ensures imported { IfOk result (λ r. AreMoreFiles (F.files folder.old) path.now
        (map string_bytes names.now) before r.1 (F.faults folder.old) (F.faults folder.new)
        (line_reports lines.old.items) (line_reports lines.new.items) [] r.0) }
    ensures same { F.files folder.new ≡ F.files folder.old }
    ensures later { F.faults folder.old ≤ F.faults folder.new }
{
    let mut segments = Vec::new(alloc);
    let mut counts = before;
    let mut waiting = Vec::new(alloc);
    for chunk in names.chunks(files_at_once(names.len())) {
        let (pieces, read) = find_and_read(rt, alloc, waiting, folder, path, chunk)?;
        let parts = judge_all(alloc, pieces, &mut counts, lines)?;
        push_games(in_one(alloc, parts)?, &mut segments)?;
        waiting = read;
    }
    let pieces = found_files(rt, alloc, waiting)?;
    let parts = judge_all(alloc, pieces, &mut counts, lines)?;
    push_games(in_one(alloc, parts)?, &mut segments)?;
    let segment = in_one(alloc, segments)?;
    Ok((segment, counts))
}

// How many of so many files are read at one time. Few are read all before they are worked on; of more
// the next ones are read meanwhile.
fn files_at_once(files: usize) -> usize
    ensures some { 1 ≤ result }
    ensures few { result ≤ 64 }
{
    if files <= FILES_AT_ONCE {
        FILES_AT_ONCE
    } else {
        FILES_AT_ONCE / 2
    }
}

// Pushes a segment, unless it has no game.
fn push_games(segment: Segment, segments: &mut Vec<Segment>) -> Result<(), NoMemory>
    ensures { OnOk result (games_of_segments segments.new.items
        ≡ games_of_segments segments.old.items ++ segment) }
{
    if segment.game_count() > 0 {
        segments.push(segment)?;
    }
    Ok(())
}

// What is found in files that were read, and the files of the next names. These are read meanwhile,
// where there is work for a thread.
fn find_and_read<R: Threads + Sync, F: Folder>(
    rt: &R,
    alloc: Global,
    files: Vec<ReadFile>,
    folder: &mut F,
    path: &str,
    names: &[String],
) -> Result<(Vec<FoundPiece>, Vec<ReadFile>), NoMemory>
    ensures found { IfOk result (λ r. AreFoundPieces (file_texts files.items) r.0.items) }
    ensures named { IfOk result (λ r.
        text_names (file_texts r.1.items) ≡ map string_bytes names.now) }
    ensures read { IfOk result (λ r. AreTexts (F.files folder.old) path.now (F.faults folder.old)
        (file_texts r.1.items) (F.faults folder.new)) }
    ensures same { F.files folder.new ≡ F.files folder.old }
    ensures later { F.faults folder.old ≤ F.faults folder.new }
{
    if pieces_for(rt, bytes_of(files.as_slice()) / LEAST_SHARE) < 2 {
        let pieces = found_files(rt, alloc, files)?;
        let read = read_all(alloc, folder, path, names)?;
        return Ok((pieces, read));
    }
    let mut waiting = Some(files);
    let (pieces, read) = thread::join_mut(
        rt,
        &mut || found_of(rt, alloc, &mut waiting),
        &mut || read_all(alloc, folder, path, names),
    );
    Ok((pieces?, read?))
}

// What is found in files, which are taken away.
fn found_of<R: Threads + Sync>(
    rt: &R,
    alloc: Global,
    files: &mut Option<Vec<ReadFile>>,
) -> Result<Vec<FoundPiece>, NoMemory>
    ensures { IfSome files.old (λ own. IfOk result (λ pieces.
        AreFoundPieces (file_texts own.items) pieces.items)) }
{
    match files.take() {
        Some(own) => found_files(rt, alloc, own),
        None => Ok(Vec::new(alloc)),
    }
}
