// What is found in the files of a batch, in up to eight pieces side by side.
ghost use Rattle.std.specs.Prelude.{◌≡◌, ◌≤◌, ◌+◌, ◌++◌, length, map, true, IfOk, IfSome, OnOk};
ghost use Rattle.std.specs.Arc.{arc_value};
ghost use Rattle.import_work.specs.Judged.{
  AreFoundFiles,
  AreFoundPieces,
  IsFoundFile,
  games_found,
  games_in_files,
};
ghost use Rattle.import_work.specs.Pieces.{group_texts};
ghost use Rattle.import_work.specs.Reads.{file_text, file_texts};

use crate::found::{Follower, Found, FoundFile, FoundPiece, found_in};
use crate::read::ReadFile;
use kb_geometry::{NoMemory, joined};
use segment_store::{FinishedGame, MAX_BASE_GAMES, Segment, SegmentBuilder};
use std::alloc::Global;
use std::sync::Arc;
use std::thread::Threads;
use std::{mem, thread};

// The most pieces of a batch.
const MAX_PIECES: usize = 8;

// For fewer bytes of text than these a thread costs more than it spares.
pub(crate) const LEAST_SHARE: u64 = 12_288;

// The most bytes of memory that a piece takes at once.
const MOST_ROOM: u64 = 98_304;

// In how many pieces work goes that could go in so many: at least one, and at most one for each
// processor.
pub(crate) fn pieces_for<R: Threads>(rt: &R, parts: u64) -> u64
    ensures some { 1 ≤ result }
    ensures few { result ≤ 8 }
{
    if parts < 2 {
        return 1;
    }
    let processors = match thread::available_parallelism(rt) {
        Ok(count) => count.get() as u64,
        Err(_) => 1,
    };
    parts.min(processors).clamp(1, MAX_PIECES as u64)
}

// What is found in files, in order. The pieces have about as many bytes each. A single piece needs no
// thread.
pub(crate) fn found_files<R: Threads + Sync>(
    rt: &R,
    alloc: Global,
    files: Vec<ReadFile>,
) -> Result<Vec<FoundPiece>, NoMemory>
    ensures { IfOk result (λ found. AreFoundPieces (file_texts files.items) found.items) }
{
    let bytes = bytes_of(files.as_slice());
    let share = bytes.div_ceil(pieces_for(rt, bytes / LEAST_SHARE));
    let groups = grouped(alloc, files, share)?;
    let pieces = thread::map_vec(rt, groups, &|group| { found_in_group(alloc, group) })?;
    joined(alloc, pieces)
}

// The files in at most eight groups, in order. Each but the last has at least its share of bytes.
fn grouped(alloc: Global, files: Vec<ReadFile>, share: u64) -> Result<Vec<Vec<ReadFile>>, NoMemory>
    ensures files { IfOk result (λ groups. group_texts groups.items ≡ file_texts files.items) }
    ensures few { IfOk result (λ groups. length groups.items ≤ 8) }
{
    let mut groups = Vec::new(alloc);
    let mut group = Vec::new(alloc);
    for file in files {
        group.push(file)?;
        close_if_full(alloc, share, &mut groups, &mut group)?;
    }
    with_last(groups, group)
}

// The groups with the last one behind them, unless that has no file.
fn with_last(
    mut groups: Vec<Vec<ReadFile>>,
    group: Vec<ReadFile>,
) -> Result<Vec<Vec<ReadFile>>, NoMemory>
    requires { length groups.items ≤ 7 }
    ensures files { IfOk result (λ all. group_texts all.items
        ≡ group_texts groups.items ++ file_texts group.items) }
    ensures few { IfOk result (λ all. length all.items ≤ 8) }
{
    if group.is_empty() {
        return Ok(groups);
    }
    groups.push(group)?;
    Ok(groups)
}

// Begins another group where this one has its share of bytes and isn't the last.
fn close_if_full(
    alloc: Global,
    share: u64,
    groups: &mut Vec<Vec<ReadFile>>,
    group: &mut Vec<ReadFile>,
) -> Result<(), NoMemory>
    requires { length groups.old.items ≤ 7 }
    ensures files { OnOk result (group_texts groups.new.items ++ file_texts group.new.items
        ≡ group_texts groups.old.items ++ file_texts group.old.items) }
    ensures few { OnOk result (length groups.new.items ≤ 7) }
{
    if groups.len() + 1 < MAX_PIECES && bytes_of(group.as_slice()) >= share {
        let full = mem::replace(group, Vec::new(alloc));
        groups.push(full)?;
    }
    Ok(())
}

// How many bytes were read of files.
pub(crate) fn bytes_of(files: &[ReadFile]) -> u64 {
    let mut bytes = 0u64;
    for file in files {
        bytes = bytes.saturating_add(length_of(file));
    }
    bytes
}

// How many bytes were read of a file.
fn length_of(file: &ReadFile) -> u64 {
    match &file.bytes {
        Some(bytes) => bytes.len() as u64,
        None => 0,
    }
}

// What is found in the files of a group: one piece.
fn found_in_group(alloc: Global, group: Vec<ReadFile>) -> Result<Vec<FoundPiece>, NoMemory>
    ensures { IfOk result (λ found. AreFoundPieces (file_texts group.items) found.items) }
{
    make_room(alloc, bytes_of(group.as_slice()))?;
    let files = found_each(alloc, group)?;
    let games = segment_of(alloc, files.as_slice())?;
    let mut pieces = Vec::with_capacity(alloc, 1)?;
    pieces.push(FoundPiece { files, games })?;
    Ok(pieces)
}

// Takes about as much memory at once as so many bytes of text will want, and gives it back, so that the
// heap of a thread grows in one step.
fn make_room(alloc: Global, bytes: u64) -> Result<(), NoMemory> {
    let room: Vec<u8> = Vec::with_capacity(alloc, bytes.saturating_mul(8).min(MOST_ROOM) as usize)?;
    drop(room);
    Ok(())
}

// What is found in each of these files.
fn found_each(alloc: Global, files: Vec<ReadFile>) -> Result<Vec<FoundFile>, NoMemory>
    ensures { IfOk result (λ found. AreFoundFiles (file_texts files.items) found.items) }
{
    let mut follower = Follower::new();
    let mut found = Vec::with_capacity(alloc, files.len())?;
    for file in files {
        let next = found_file(alloc, &mut follower, file)?;
        found.push(next)?;
    }
    Ok(found)
}

// The segment of all games that are found in these files. None where they are more than a segment may
// have.
fn segment_of(alloc: Global, files: &[FoundFile]) -> Result<Option<Segment>, NoMemory>
    ensures { IfOk result (λ segment. IfSome segment (λ games. games ≡ games_in_files files.now)) }
{
    let mut games = SegmentBuilder::new(alloc);
    for file in files {
        if !share_found(&file.found, &mut games)? {
            return Ok(None);
        }
    }
    Ok(Some(games.finish(alloc)?))
}

// Adds shares of the games that are found in a file, where a segment may have so many.
fn share_found(found: &Found, games: &mut SegmentBuilder) -> Result<bool, NoMemory>
    ensures { IfOk result (λ fit. fit ≡ true → games.new ≡ games.old ++ games_found found.now) }
{
    let Found::Games { games: own, .. } = found else {
        return Ok(true);
    };
    if own.len() > (MAX_BASE_GAMES - games.game_count()) as usize {
        return Ok(false);
    }
    share_all(own.as_slice(), games)?;
    Ok(true)
}

// Adds shares of these games.
fn share_all(own: &[Arc<FinishedGame>], games: &mut SegmentBuilder) -> Result<(), NoMemory>
    requires { length games.old + length own.now ≤ 400000 }
    ensures { OnOk result (games.new ≡ games.old ++ map arc_value own.now) }
{
    for game in own {
        games.add_shared(Arc::try_clone(game)?)?;
    }
    Ok(())
}

// What is found in a file.
fn found_file(alloc: Global, follower: &mut Follower, file: ReadFile) -> Result<FoundFile, NoMemory>
    ensures { IfOk result (IsFoundFile (file_text file)) }
{
    let ReadFile { name, bytes } = file;
    match bytes {
        Some(bytes) => {
            let found = found_in(alloc, follower, name.as_str(), bytes.as_slice())?;
            Ok(FoundFile { name, found })
        }
        None => Ok(FoundFile {
            name,
            found: Found::Unread,
        }),
    }
}
