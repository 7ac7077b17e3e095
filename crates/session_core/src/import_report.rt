// The printed report of an import.
ghost use mathlib.Core.List.{IsPrefix};
ghost use Rattle.std.specs.Prelude.{◌≡◌, ◌≤◌, ◌++◌, OnErr, OnOk, count_by, length};
ghost use Rattle.std.specs.List.{flat_map};
ghost use Rattle.import_work.specs.Batches.{games_added, games_told, line_report, line_reports};
ghost use Rattle.import_work.specs.Imports.{games_reported};
ghost use Rattle.session_core.specs.ImportTexts.{
  counts_head,
  counts_tail,
  counts_text,
  file_text,
  full_text,
  is_accepted,
  is_full,
  is_refused,
  is_unread,
  kind_word,
  listed_text,
  made_text,
  refused_text,
  told_text,
  too_many_text,
  unlisted_text,
  unread_text,
};

use import_work::{FileLine, FileOutcome, Report, ReportBody};
use kb_geometry::{NoMemory, append, append_decimal, append_decimal_and, cut_back};
use sgf_reader::FaultKind;

fn file_count(lines: &[FileLine]) -> usize
    ensures { result ≡ length (line_reports lines.now) }
{
    lines.len()
}

fn is_accepted(line: &FileLine) -> bool
    ensures { result ≡ is_accepted (line_report line.now) }
{
    matches!(line.outcome, FileOutcome::Accepted { .. })
}

fn is_refused(line: &FileLine) -> bool
    ensures { result ≡ is_refused (line_report line.now) }
{
    matches!(line.outcome, FileOutcome::Refused { .. })
}

fn is_full(line: &FileLine) -> bool
    ensures { result ≡ is_full (line_report line.now) }
{
    matches!(line.outcome, FileOutcome::Full { .. })
}

fn is_unread(line: &FileLine) -> bool
    ensures { result ≡ is_unread (line_report line.now) }
{
    matches!(line.outcome, FileOutcome::Unread)
}

fn accepted_count(lines: &[FileLine]) -> usize
    ensures { result ≡ count_by is_accepted (line_reports lines.now) }
{
    lines.iter().filter(|line| is_accepted(line)).count()
}

fn refused_count(lines: &[FileLine]) -> usize
    ensures { result ≡ count_by is_refused (line_reports lines.now) }
{
    lines.iter().filter(|line| is_refused(line)).count()
}

fn full_count(lines: &[FileLine]) -> usize
    ensures { result ≡ count_by is_full (line_reports lines.now) }
{
    lines.iter().filter(|line| is_full(line)).count()
}

fn unread_count(lines: &[FileLine]) -> usize
    ensures { result ≡ count_by is_unread (line_reports lines.now) }
{
    lines.iter().filter(|line| is_unread(line)).count()
}

// How many games a file added.
fn games_added(line: &FileLine) -> u64
    ensures { result ≡ games_added line.now.outcome }
{
    match line.outcome {
        FileOutcome::Accepted { games } => u64::from(games),
        _ => 0,
    }
}

// How many games the files added.
fn game_count(lines: &[FileLine]) -> u64
    requires { games_told (line_reports lines.now) ≤ 400000 }
    ensures { result ≡ games_told (line_reports lines.now) }
{
    let mut games = 0;
    for line in lines {
        games += games_added(line);
    }
    games
}

// The word of a fault's kind.
fn kind_word(kind: FaultKind) -> &'static str
    ensures { result.now ≡ kind_word kind }
{
    match kind {
        FaultKind::NoGame => "NoGame",
        FaultKind::Unexpected => "Unexpected",
        FaultKind::Ended => "Ended",
        FaultKind::TooLong => "TooLong",
        FaultKind::TooDeep => "TooDeep",
        FaultKind::TooManyNodes => "TooManyNodes",
        FaultKind::TooManyGames => "TooManyGames",
        FaultKind::NotGo => "NotGo",
        FaultKind::BadSize => "BadSize",
        FaultKind::BadPoint => "BadPoint",
        FaultKind::TwoMoves => "TwoMoves",
    }
}

// Appends the line of a file that was refused.
fn append_refused(out: &mut Vec<u8>, word: &str, at: u32, name: &str) -> Result<(), NoMemory>
    ensures ok { OnOk result (out.new.items
        ≡ out.old.items ++ refused_text word.now at name.now) }
    ensures refused { OnErr result (IsPrefix out.old.items out.new.items) }
{
    append(out, b"refused ")?;
    append(out, word.as_bytes())?;
    append(out, b" ")?;
    append_decimal_and(out, u64::from(at), b' ')?;
    append(out, name.as_bytes())?;
    append(out, b"\n")?;
    Ok(())
}

// Appends the line of a file for which there was no room.
fn append_full(out: &mut Vec<u8>, games: u64, nodes: u64, name: &str) -> Result<(), NoMemory>
    ensures ok { OnOk result (out.new.items
        ≡ out.old.items ++ full_text games nodes name.now) }
    ensures refused { OnErr result (IsPrefix out.old.items out.new.items) }
{
    append(out, b"full ")?;
    append_decimal_and(out, games, b' ')?;
    append_decimal_and(out, nodes, b' ')?;
    append(out, name.as_bytes())?;
    append(out, b"\n")?;
    Ok(())
}

// Appends the line of a file that was not read.
fn append_unread(out: &mut Vec<u8>, name: &str) -> Result<(), NoMemory>
    ensures ok { OnOk result (out.new.items ≡ out.old.items ++ unread_text name.now) }
    ensures refused { OnErr result (IsPrefix out.old.items out.new.items) }
{
    append(out, b"unread ")?;
    append(out, name.as_bytes())?;
    append(out, b"\n")?;
    Ok(())
}

// Appends the line of a file that was not accepted.
fn append_file(out: &mut Vec<u8>, file: &FileLine) -> Result<(), NoMemory>
    ensures ok { OnOk result (out.new.items
        ≡ out.old.items ++ file_text (line_report file.now)) }
    ensures refused { OnErr result (IsPrefix out.old.items out.new.items) }
{
    let name = file.name.as_str();
    match file.outcome {
        FileOutcome::Accepted { games: _games } => {}
        FileOutcome::Refused { kind, at } => append_refused(out, kind_word(kind), at, name)?,
        FileOutcome::Full { games, nodes } => append_full(out, games, nodes, name)?,
        FileOutcome::Unread => append_unread(out, name)?,
    }
    Ok(())
}

// Appends the lines of the files that were not accepted, in order.
fn append_files(out: &mut Vec<u8>, files: &[FileLine]) -> Result<(), NoMemory>
    ensures ok { OnOk result (out.new.items
        ≡ out.old.items ++ flat_map file_text (line_reports files.now)) }
    ensures refused { OnErr result (IsPrefix out.old.items out.new.items) }
{
    for file in files {
        append_file(out, file)?;
    }
    Ok(())
}

// Appends how many files an import has, and how many were accepted and refused.
fn append_counts_head(
    out: &mut Vec<u8>,
    line: u32,
    files: usize,
    accepted: usize,
    refused: usize,
) -> Result<(), NoMemory>
    ensures ok { OnOk result (out.new.items
        ≡ out.old.items ++ counts_head line files accepted refused) }
    ensures refused { OnErr result (IsPrefix out.old.items out.new.items) }
{
    append_decimal(out, u64::from(line))?;
    append(out, b" imported files ")?;
    append_decimal(out, files as u64)?;
    append(out, b" accepted ")?;
    append_decimal(out, accepted as u64)?;
    append(out, b" refused ")?;
    append_decimal(out, refused as u64)?;
    Ok(())
}

// Appends for how many files there was no room, how many were not read, the games that were added,
// and the version after it.
fn append_counts_tail(
    out: &mut Vec<u8>,
    full: usize,
    unread: usize,
    games: u64,
    version: u64,
) -> Result<(), NoMemory>
    ensures ok { OnOk result (out.new.items
        ≡ out.old.items ++ counts_tail full unread games version) }
    ensures refused { OnErr result (IsPrefix out.old.items out.new.items) }
{
    append(out, b" full ")?;
    append_decimal(out, full as u64)?;
    append(out, b" unread ")?;
    append_decimal(out, unread as u64)?;
    append(out, b" games ")?;
    append_decimal(out, games)?;
    append(out, b" version ")?;
    append_decimal_and(out, version, b'\n')?;
    Ok(())
}

// Appends the counts of an import.
fn append_counts(
    out: &mut Vec<u8>,
    line: u32,
    lines: &[FileLine],
    games: u64,
    version: u64,
) -> Result<(), NoMemory>
    ensures ok { OnOk result (out.new.items
        ≡ out.old.items ++ counts_text line (line_reports lines.now) games version) }
    ensures refused { OnErr result (IsPrefix out.old.items out.new.items) }
{
    let files = file_count(lines);
    let accepted = accepted_count(lines);
    let refused = refused_count(lines);
    append_counts_head(out, line, files, accepted, refused)?;
    let full = full_count(lines);
    let unread = unread_count(lines);
    append_counts_tail(out, full, unread, games, version)?;
    Ok(())
}

// Appends the report of an import whose files were read.
fn append_listed(
    out: &mut Vec<u8>,
    line: u32,
    files: &[FileLine],
    games: u64,
    version: u64,
) -> Result<(), NoMemory>
    ensures ok { OnOk result (out.new.items
        ≡ out.old.items ++ listed_text line (line_reports files.now) games version) }
    ensures refused { OnErr result (IsPrefix out.old.items out.new.items) }
{
    append_counts(out, line, files, games, version)?;
    append_files(out, files)?;
    Ok(())
}

// Appends the report of an import without a listing.
fn append_unlisted(out: &mut Vec<u8>, line: u32) -> Result<(), NoMemory>
    ensures ok { OnOk result (out.new.items ≡ out.old.items ++ unlisted_text line) }
    ensures refused { OnErr result (IsPrefix out.old.items out.new.items) }
{
    append_decimal(out, u64::from(line))?;
    append(out, b" imported unlisted\n")?;
    Ok(())
}

// Appends the report of an import of too many names.
fn append_too_many(out: &mut Vec<u8>, line: u32, names: u64) -> Result<(), NoMemory>
    ensures ok { OnOk result (out.new.items
        ≡ out.old.items ++ too_many_text line names) }
    ensures refused { OnErr result (IsPrefix out.old.items out.new.items) }
{
    append_decimal(out, u64::from(line))?;
    append(out, b" imported too many files ")?;
    append_decimal_and(out, names, b'\n')?;
    Ok(())
}

// Appends the report of made games: how many were added, for how many there was no room, and the
// version after them.
fn append_made(
    out: &mut Vec<u8>,
    line: u32,
    games: u32,
    full: u32,
    version: u64,
) -> Result<(), NoMemory>
    ensures ok { OnOk result (out.new.items
        ≡ out.old.items ++ made_text line games full version) }
    ensures refused { OnErr result (IsPrefix out.old.items out.new.items) }
{
    append_decimal(out, u64::from(line))?;
    append(out, b" made games ")?;
    append_decimal(out, u64::from(games))?;
    append(out, b" full ")?;
    append_decimal(out, u64::from(full))?;
    append(out, b" version ")?;
    append_decimal_and(out, version, b'\n')?;
    Ok(())
}

/// Appends the report of an import: what it tells of its files, and the version after it. The only
/// error is `NoMemory`; then `out` holds what it held.
pub fn print_report(report: &Report, out: &mut Vec<u8>) -> Result<(), NoMemory>
    requires { games_reported report.now.body ≤ 400000 }
    ensures ok { OnOk result (out.new.items ≡ out.old.items
        ++ told_text report.now.line report.now.body report.now.version) }
    ensures refused { OnErr result (out.new.items ≡ out.old.items) }
{
    let len = out.len();
    let done = append_report(out, report);
    cut_back(out, len, done)
}

fn append_report(out: &mut Vec<u8>, report: &Report) -> Result<(), NoMemory>
    requires { games_reported report.now.body ≤ 400000 }
    ensures ok { OnOk result (out.new.items ≡ out.old.items
        ++ told_text report.now.line report.now.body report.now.version) }
    ensures refused { OnErr result (IsPrefix out.old.items out.new.items) }
{
    let line = report.line;
    match &report.body {
        ReportBody::Files { lines } => {
            let games = game_count(lines.as_slice());
            append_listed(out, line, lines.as_slice(), games, report.version)?;
        }
        ReportBody::Unlisted => append_unlisted(out, line)?,
        ReportBody::TooMany { listed } => append_too_many(out, line, *listed)?,
        ReportBody::Made { games, full } => {
            append_made(out, line, *games, *full, report.version)?;
        }
    }
    Ok(())
}
