// Importing files as a record shows it.
ghost use Rattle.std.specs.Prelude.{
  ◌≡◌,
  ◌≢◌,
  ◌⊎◌,
  ◌≤◌,
  ◌+◌,
  ◌++◌,
  [],
  ℕ,
  All,
  IfOk,
  IfSome,
  IsErrOf,
  List,
  None,
  OnOk,
  length,
  map,
  string_bytes,
  true,
};
ghost use Rattle.kb_edges.specs.Faults.{Rose};
ghost use Rattle.kb_edges.specs.Files.{HasFile, HasPath};
ghost use Rattle.kb_edges.specs.Told.{IfTold};
ghost use Rattle.import_work.specs.Batches.{games_added, games_told, is_unread, line_reports};
ghost use Rattle.import_work.specs.Course.{AreNames, games_from, trees_in};
ghost use Rattle.import_work.specs.Imports.{games_reported};
ghost use Rattle.import_work.specs.Outcome.{HasRoom, with_games};
ghost use Rattle.import_work.specs.Rooms.{AddsGames, AreAdded, AreCountsWithinLimits};
ghost use Rattle.import_work.specs.declared.source.Source.TheVariants as origin;
ghost use Rattle.run_audit.specs.Courses.{ShowsImport};
ghost use Rattle.run_audit.specs.Importing.{FilesTo, ImportsBy, IsFileAdded, IsFileTold, ReadsBy};
ghost use Rattle.run_audit.specs.Shown.{is_shown_unlisted, is_shown_unread};
ghost use Rattle.run_audit.specs.Standing.{FitsTogether, kept_last};
ghost use Rattle.run_audit.specs.declared.stop.Stop.TheVariants as stop;

use crate::base::Base;
use crate::course::ShownImport;
use crate::stop::Stop;
use game_tree::GameTree;
use import_work::{Counts, FileLine, FileOutcome, ReportBody, import_one};
use kb_edges::{Folder, FolderError, sort_names};
use kb_geometry::{Items, NoMemory, Text};
use segment_store::{Segment, SegmentBuilder};
use std::alloc::Global;

// The most names that an import may have.
const MAX_NAMES: usize = 100_000;

// Imports the files under a path into a base, by batches of so many files, as a record shows it, and
// answers what the report tells. The folder is asked for nothing that is shown as unlisted or unread.
pub(crate) fn import_files<F: Folder>(
    alloc: Global,
    folder: &mut F,
    shown: &ShownImport<'_>,
    path: &str,
    batch: u32,
    base: &mut Base,
) -> Result<ReportBody, Stop>
    requires some { 1 ≤ batch }
    requires fits { FitsTogether base.old }
    requires number { kept_last base.old + 100000 ≤ 9000000000000000000 }
    ensures imported { IfTold (F.files folder.old) (λ all. IfOk result (λ body.
        (recorded : List ℕ) → ShowsImport recorded shown.now →
        ImportsBy all (origin.Under path.now) batch (is_shown_unlisted recorded shown.now.line)
        (is_shown_unread recorded shown.now.line) base.old base.new body)) }
    ensures few { IfOk result (λ body. games_reported body ≤ 400000) }
    ensures last { IfOk result (λ _. kept_last base.new ≤ kept_last base.old + 100000) }
    ensures held { IfOk result (λ _. base.new.held ≡ base.old.held) }
    ensures fits { IfOk result (λ _. FitsTogether base.new) }
    ensures unread { IsErrOf result stop.FolderUnread → Rose (F.faults folder.old) (F.faults folder.new) }
    ensures no_departure { (count : ℕ) → ¬ IsErrOf result (stop.Departs count) }
    // Nothing is asked of the folder where the import is shown as unlisted.
    ensures unasked { (recorded : List ℕ) → ShowsImport recorded shown.now →
        is_shown_unlisted recorded shown.now.line ≡ true → folder.new ≡ folder.old }
    ensures same { F.files folder.new ≡ F.files folder.old }
    ensures later { F.faults folder.old ≤ F.faults folder.new }
{
    if shown.unlisted {
        return Ok(ReportBody::Unlisted);
    }
    let Some(names) = listed_names(alloc, folder, path)? else {
        return Ok(ReportBody::Unlisted);
    };
    if names.len() > MAX_NAMES {
        let listed = names.len() as u64;
        return Ok(ReportBody::TooMany { listed });
    }
    let lines = import_names(alloc, folder, shown, path, batch, &names, base)?;
    Ok(ReportBody::Files {
        lines: Items::new(lines),
    })
}

// Imports the files of these names under a path, and answers a line for each.
fn import_names<F: Folder>(
    alloc: Global,
    folder: &mut F,
    shown: &ShownImport<'_>,
    path: &str,
    batch: u32,
    names: &[String],
    base: &mut Base,
) -> Result<Vec<FileLine>, Stop>
    requires some { 1 ≤ batch }
    requires fits { FitsTogether base.old }
    requires few { length names.now ≤ 100000 }
    requires number { kept_last base.old + 100000 ≤ 9000000000000000000 }
    // Each name is that of a file, where the folder tells its files.
    requires there { IfTold (F.files folder.old)
        (λ all. All (HasFile all path.now) (map string_bytes names.now)) }
    ensures imported { IfTold (F.files folder.old) (λ all. IfOk result (λ lines.
        (recorded : List ℕ) → ShowsImport recorded shown.now →
        FilesTo all path.now batch (is_shown_unread recorded shown.now.line)
        (map string_bytes names.now) [] base.old base.new lines.items)) }
    ensures told { IfOk result (λ lines. base.new.counts.games
        ≡ base.old.counts.games + games_told (line_reports lines.items)) }
    ensures last { IfOk result (λ _. kept_last base.new ≤ kept_last base.old + 100000) }
    ensures held { IfOk result (λ _. base.new.held ≡ base.old.held) }
    ensures fits { IfOk result (λ _. FitsTogether base.new) }
    ensures unread { IsErrOf result stop.FolderUnread →
        Rose (F.faults folder.old) (F.faults folder.new) }
    ensures no_departure { (count : ℕ) → ¬ IsErrOf result (stop.Departs count) }
    ensures same { F.files folder.new ≡ F.files folder.old }
    ensures later { F.faults folder.old ≤ F.faults folder.new }
{
    let mut lines = Vec::new(alloc);
    for chunk in names.chunks(batch as usize) {
        let mut counts = base.counts();
        let segment = segment_of(alloc, folder, shown, path, chunk, &mut counts, &mut lines)?;
        base.add(alloc, segment, counts)?;
    }
    Ok(lines)
}

// The names under a path that end in `.sgf`, each once and in order of their bytes, or none where the
// folder tells its files and none has the path.
fn listed_names<F: Folder>(
    alloc: Global,
    folder: &mut F,
    path: &str,
) -> Result<Option<Vec<String>>, Stop>
    ensures told { IfTold (F.files folder.old) (λ all. IfOk result (λ listed. IfSome listed (λ names.
        HasPath all path.now × AreNames all path.now (map string_bytes names.items)))) }
    ensures missing { IfTold (F.files folder.old) (λ all. IfOk result (λ listed.
        listed ≡ None → ¬ HasPath all path.now)) }
    ensures unread { IsErrOf result stop.FolderUnread → Rose (F.faults folder.old) (F.faults folder.new) }
    ensures no_departure { (count : ℕ) → ¬ IsErrOf result (stop.Departs count) }
    ensures same { F.files folder.new ≡ F.files folder.old }
    ensures later { F.faults folder.old ≤ F.faults folder.new }
{
    let mut names = match folder.list(alloc, path) {
        Ok(names) => names,
        Err(FolderError::Missing) => return Ok(None),
        Err(FolderError::Failed) => return Err(Stop::FolderUnread),
        Err(FolderError::NoMemory) => return Err(Stop::NoMemory),
    };
    sort_names(&mut names);
    Ok(Some(names))
}

// The segment of the files of these names, for a base with these counts, to which its games are added. A
// line is added for each file.
fn segment_of<F: Folder>(
    alloc: Global,
    folder: &mut F,
    shown: &ShownImport<'_>,
    path: &str,
    names: &[String],
    counts: &mut Counts,
    lines: &mut Vec<FileLine>,
) -> Result<Segment, Stop>
    // Each name is that of a file, where the folder tells its files.
    requires there { IfTold (F.files folder.old)
        (λ all. All (HasFile all path.now) (map string_bytes names.now)) }
    ensures read { IfTold (F.files folder.old) (λ all. IfOk result (λ segment.
        (recorded : List ℕ) → ShowsImport recorded shown.now →
        ReadsBy all path.now (is_shown_unread recorded shown.now.line) (map string_bytes names.now)
        counts.old counts.new lines.old.items lines.new.items segment)) }
    ensures counted { IfOk result (λ segment. AreAdded counts.old counts.new (trees_in segment)) }
    ensures room { IfOk result (λ segment. segment ≢ [] → AreCountsWithinLimits counts.new) }
    ensures told { IfOk result (λ _. counts.new.games + games_told (line_reports lines.old.items)
        ≡ counts.old.games + games_told (line_reports lines.new.items)) }
    ensures unread { IsErrOf result stop.FolderUnread →
        Rose (F.faults folder.old) (F.faults folder.new) }
    ensures no_departure { (count : ℕ) → ¬ IsErrOf result (stop.Departs count) }
    ensures same { F.files folder.new ≡ F.files folder.old }
    ensures later { F.faults folder.old ≤ F.faults folder.new }
{
    let mut games = SegmentBuilder::new(alloc);
    for name in names {
        let name = name.as_str();
        let outcome = file_outcome(alloc, folder, shown, path, name, counts, &mut games)?;
        let name = Text::new(String::from_str(alloc, name)?);
        lines.push(FileLine { name, outcome })?;
    }
    Ok(games.finish(alloc)?)
}

// What becomes of a file in a base with these counts, to which its games are added. The folder isn't
// asked for one that is shown as unread.
fn file_outcome<F: Folder>(
    alloc: Global,
    folder: &mut F,
    shown: &ShownImport<'_>,
    path: &str,
    name: &str,
    counts: &mut Counts,
    games: &mut SegmentBuilder,
) -> Result<FileOutcome, Stop>
    requires few { length games.old ≤ counts.old.games }
    requires there { IfTold (F.files folder.old) (λ all. HasFile all path.now name.now) }
    ensures told { IfTold (F.files folder.old) (λ all. IfOk result (λ outcome.
        (recorded : List ℕ) → ShowsImport recorded shown.now →
        IsFileTold all path.now name.now counts.old counts.new outcome games.old games.new
        (is_shown_unread recorded shown.now.line name.now))) }
    ensures added { IfOk result (λ _. AddsGames counts.old counts.new games.old games.new) }
    ensures few { IfOk result (λ _. length games.new ≤ counts.new.games) }
    ensures counted { IfOk result (λ outcome.
        counts.new.games ≡ counts.old.games + games_added outcome) }
    ensures room { IfOk result (λ _. ((games.new ≡ games.old) × (counts.new ≡ counts.old))
        ⊎ AreCountsWithinLimits counts.new) }
    ensures unread { IsErrOf result stop.FolderUnread →
        Rose (F.faults folder.old) (F.faults folder.new) }
    ensures no_departure { (count : ℕ) → ¬ IsErrOf result (stop.Departs count) }
    // Nothing is asked of the folder where the file is shown as unread.
    ensures unasked { (recorded : List ℕ) → ShowsImport recorded shown.now →
        is_shown_unread recorded shown.now.line name.now ≡ true → folder.new ≡ folder.old }
    ensures same { F.files folder.new ≡ F.files folder.old }
    ensures later { F.faults folder.old ≤ F.faults folder.new }
{
    if shown.is_unread(name) {
        return Ok(FileOutcome::Unread);
    }
    add_file(alloc, folder, path, name, counts, games)
}

// What becomes of a file that is read, in a base with these counts, to which its games are added.
fn add_file<F: Folder>(
    alloc: Global,
    folder: &mut F,
    path: &str,
    name: &str,
    counts: &mut Counts,
    games: &mut SegmentBuilder,
) -> Result<FileOutcome, Stop>
    requires few { length games.old ≤ counts.old.games }
    requires there { IfTold (F.files folder.old) (λ all. HasFile all path.now name.now) }
    ensures read { IfTold (F.files folder.old) (λ all. IfOk result (λ outcome.
        IsFileAdded all path.now name.now counts.old counts.new outcome games.old games.new)) }
    ensures added { IfOk result (λ _. AddsGames counts.old counts.new games.old games.new) }
    ensures few { IfOk result (λ _. length games.new ≤ counts.new.games) }
    ensures counted { IfOk result (λ outcome.
        counts.new.games ≡ counts.old.games + games_added outcome) }
    ensures room { IfOk result (λ _. ((games.new ≡ games.old) × (counts.new ≡ counts.old))
        ⊎ AreCountsWithinLimits counts.new) }
    ensures unread { IsErrOf result stop.FolderUnread →
        Rose (F.faults folder.old) (F.faults folder.new) }
    ensures no_departure { (count : ℕ) → ¬ IsErrOf result (stop.Departs count) }
    ensures same { F.files folder.new ≡ F.files folder.old }
    ensures later { F.faults folder.old ≤ F.faults folder.new }
{
    let (outcome, trees) = import_one(alloc, folder, path, name, *counts)?;
    if is_unread(&outcome) {
        return Err(Stop::FolderUnread);
    }
    add_trees(alloc, name, trees, counts, games)?;
    Ok(outcome)
}

// Whether a file wasn't read.
fn is_unread(outcome: &FileOutcome) -> bool
    ensures { result ≡ is_unread outcome.now }
{
    match outcome {
        FileOutcome::Unread => true,
        FileOutcome::Accepted { .. } | FileOutcome::Refused { .. } | FileOutcome::Full { .. } =>
            false,
    }
}

// Adds the games of a file of this name, for which there is room in a base with these counts, to which
// they are added.
fn add_trees(
    alloc: Global,
    name: &str,
    trees: Vec<GameTree>,
    counts: &mut Counts,
    games: &mut SegmentBuilder,
) -> Result<(), NoMemory>
    requires few { length games.old ≤ counts.old.games }
    requires room { (trees.items ≡ []) ⊎ HasRoom counts.old trees.items }
    ensures added { OnOk result (games.new ≡ games.old ++ games_from name.now 0 trees.items) }
    ensures counted { OnOk result (counts.new ≡ with_games counts.old trees.items) }
{
    let mut place = 0;
    for tree in trees {
        counts.games += 1;
        counts.nodes += tree.node_count();
        games.add(alloc, name, place, tree)?;
        place += 1;
    }
    Ok(())
}
