// What becomes of the files of a batch, one after another, by what was found in them and by the
// counts of the base.
ghost use Rattle.std.specs.Prelude.{
  ◌≡◌,
  ◌≤◌,
  ◌+◌,
  ◌++◌,
  [],
  All,
  List,
  ℕ,
  Some,
  false,
  true,
  length,
  map,
  IfOk,
  IfSome,
  OnOk,
};
ghost use Rattle.std.specs.Arc.{arc_value};
ghost use Rattle.game_tree.specs.Tree.{Tree};
ghost use Rattle.import_work.specs.Batches.{is_full, line_reports};
ghost use Rattle.import_work.specs.Course.{games_from};
ghost use Rattle.import_work.specs.Found.{IsFoundInFile};
ghost use Rattle.import_work.specs.Judged.{
  AreFoundFiles,
  AreJudgedAs,
  HasAllGames,
  IsJudgedAs,
  files_in,
  games_found,
  games_in_files,
};
ghost use Rattle.import_work.specs.Log.{games_of_segments};
ghost use Rattle.import_work.specs.Outcome.{HaveGames, nodes_of_trees};
ghost use Rattle.import_work.specs.Reads.{FileText};

use crate::batch::FileLine;
use crate::found::{Found, FoundFile, FoundPiece};
use crate::outcome::{Counts, FileOutcome, MAX_BASE_NODES};
use kb_geometry::NoMemory;
use segment_store::{FinishedGame, MAX_BASE_GAMES, Segment, SegmentBuilder};
use std::alloc::Global;
use std::sync::Arc;

// What becomes of a file in which this was found, in a base with these counts, and the counts with
// the games that it adds. They are added to those of the piece.
fn judged(
    found: Found,
    before: Counts,
    games: &mut SegmentBuilder,
) -> Result<(FileOutcome, Counts), NoMemory>
    requires { length games.old ≤ before.games }
    ensures judged { IfOk result (λ r. (text : FileText) → IsFoundInFile text.name text.bytes found →
        IsJudgedAs text before r.1 r.0 games.old games.new) }
    ensures counted { IfOk result (λ r. length games.new ≤ r.1.games) }
    ensures whole { IfOk result (λ r. is_full r.0 ≡ false →
        games.new ≡ games.old ++ games_found found) }
{
    match found {
        Found::Unread => Ok((FileOutcome::Unread, before)),
        Found::Refused { kind, at } => Ok((FileOutcome::Refused { kind, at }, before)),
        Found::Games { games: own, nodes } => in_room(own, nodes, before, games),
    }
}

// The same of games that were found, with so many nodes.
fn in_room(
    own: Vec<Arc<FinishedGame>>,
    nodes: u64,
    before: Counts,
    games: &mut SegmentBuilder,
) -> Result<(FileOutcome, Counts), NoMemory>
    requires { length games.old ≤ before.games }
    ensures judged { IfOk result (λ r. (name bytes : List ℕ) (trees : List Tree) →
        HaveGames bytes trees → map arc_value own.items ≡ games_from name 0 trees →
        nodes ≡ nodes_of_trees trees → nodes ≤ 4294967296 →
        IsJudgedAs (record { name = name; bytes = Some bytes }) before r.1 r.0
        games.old games.new) }
    ensures counted { IfOk result (λ r. length games.new ≤ r.1.games) }
    ensures whole { IfOk result (λ r. is_full r.0 ≡ false →
        games.new ≡ games.old ++ map arc_value own.items) }
{
    let all_games = u64::from(before.games) + own.len() as u64;
    let all_nodes = u64::from(before.nodes).saturating_add(nodes);
    if all_games > u64::from(MAX_BASE_GAMES) || all_nodes > u64::from(MAX_BASE_NODES) {
        let outcome = FileOutcome::Full {
            games: all_games,
            nodes: all_nodes,
        };
        return Ok((outcome, before));
    }
    let count = own.len() as u32;
    add_all(own, games)?;
    let after = Counts {
        games: all_games as u32,
        nodes: all_nodes as u32,
    };
    Ok((FileOutcome::Accepted { games: count }, after))
}

// Adds these games.
fn add_all(own: Vec<Arc<FinishedGame>>, games: &mut SegmentBuilder) -> Result<(), NoMemory>
    requires { length games.old + length own.items ≤ 400000 }
    ensures { OnOk result (games.new ≡ games.old ++ map arc_value own.items) }
{
    for game in own {
        games.add_shared(game)?;
    }
    Ok(())
}

// Whether there was room for all files so far, and for one that became this.
fn had_room(all: bool, outcome: FileOutcome) -> bool
    ensures { result ≡ true → (all ≡ true) × (is_full outcome ≡ false) }
{
    match outcome {
        FileOutcome::Full { .. } => false,
        _ => all,
    }
}

// Judges files one after another, and tells whether there was room for each.
fn judge_files(
    files: Vec<FoundFile>,
    counts: &mut Counts,
    lines: &mut Vec<FileLine>,
    games: &mut SegmentBuilder,
) -> Result<bool, NoMemory>
    requires { length games.old ≤ counts.old.games }
    ensures judged { OnOk result ((texts : List FileText) → AreFoundFiles texts files.items →
        AreJudgedAs texts counts.old counts.new (line_reports lines.old.items)
        (line_reports lines.new.items) games.old games.new) }
    ensures whole { IfOk result (λ all. all ≡ true →
        games.new ≡ games.old ++ games_in_files files.items) }
{
    let mut all = true;
    for file in files {
        let FoundFile { name, found } = file;
        let (outcome, after) = judged(found, *counts, games)?;
        *counts = after;
        all = had_room(all, outcome);
        lines.push(FileLine { name, outcome })?;
    }
    Ok(all)
}

// Judges the files of a piece one after another, and gives the segment of the games for which there is
// room. Mostly these are all, whose segment the piece has made.
fn judge_piece(
    alloc: Global,
    piece: FoundPiece,
    counts: &mut Counts,
    lines: &mut Vec<FileLine>,
) -> Result<Segment, NoMemory>
    requires { HasAllGames piece }
    ensures { IfOk result (λ segment. (texts : List FileText) → AreFoundFiles texts piece.files.items →
        AreJudgedAs texts counts.old counts.new (line_reports lines.old.items)
        (line_reports lines.new.items) [] segment) }
{
    let FoundPiece { files, games } = piece;
    let mut own = SegmentBuilder::new(alloc);
    let all = judge_files(files, counts, lines, &mut own)?;
    segment_of(alloc, all, games, own)
}

// The segment of the games for which there is room: where there is room for all, it is made already.
fn segment_of(
    alloc: Global,
    all: bool,
    made: Option<Segment>,
    own: SegmentBuilder,
) -> Result<Segment, NoMemory>
    requires { all ≡ true → IfSome made (λ segment. segment ≡ own) }
    ensures { IfOk result (λ segment. segment ≡ own) }
{
    match made {
        Some(segment) if all => Ok(segment),
        _ => own.finish(alloc),
    }
}

// Judges the files of pieces one after another, and gives a segment for each piece.
pub(crate) fn judge_all(
    alloc: Global,
    pieces: Vec<FoundPiece>,
    counts: &mut Counts,
    lines: &mut Vec<FileLine>,
) -> Result<Vec<Segment>, NoMemory>
    requires { All HasAllGames pieces.items }
    ensures { IfOk result (λ segments. (texts : List FileText) →
        AreFoundFiles texts (files_in pieces.items) →
        AreJudgedAs texts counts.old counts.new (line_reports lines.old.items)
        (line_reports lines.new.items) [] (games_of_segments segments.items)) }
{
    let mut segments = Vec::new(alloc);
    for piece in pieces {
        segments.push(judge_piece(alloc, piece, counts, lines)?)?;
    }
    Ok(segments)
}
