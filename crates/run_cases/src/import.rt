// Imports into a base that has games already.
ghost use Rattle.std.specs.Prelude.{◌≤◌};

use crate::files::{folder_of, number};
use crate::outcome::append_outcome;
use case_files::{Case, CaseError};
use import_work::{Counts, Import, Report, ReportBody, Source};
use kb_edges::MemoryFolder;
use kb_geometry::{Text, append, append_decimal};
use segment_store::Segment;
use std::alloc::Global;
use std::thread::Threads;

// The greatest number of a version that an import may begin with.
const MOST_VERSION: u64 = 9_000_000_000_000_000_000;

/// The kind `import`: the segments and the report of an import of the path `d`. The words are how
/// many files make a segment, the games and the nodes of the base before, and its version.
pub(crate) fn answer_import(
    rt: &(impl Threads + Sync),
    alloc: Global,
    case: &Case<'_>,
    out: &mut Vec<u8>,
) -> Result<(), CaseError> {
    let path = Text::new(String::from_str(alloc, "d")?);
    imported(rt, alloc, case, &Source::Under { path }, out)
}

/// The kind `made`: the same for made games. How many, and the number with which they start, are
/// two more words.
pub(crate) fn answer_made(
    rt: &(impl Threads + Sync),
    alloc: Global,
    case: &Case<'_>,
    out: &mut Vec<u8>,
) -> Result<(), CaseError> {
    let source = Source::Made {
        games: number(case.need_word(4)?)?,
        start: number(case.need_word(5)?)?,
    };
    imported(rt, alloc, case, &source, out)
}

fn imported(
    rt: &(impl Threads + Sync),
    alloc: Global,
    case: &Case<'_>,
    source: &Source,
    out: &mut Vec<u8>,
) -> Result<(), CaseError> {
    let mut folder = folder_of(alloc, case)?;
    let batch = number(case.need_word(0)?)?;
    let before = Counts {
        games: number(case.need_word(1)?)?,
        nodes: number(case.need_word(2)?)?,
    };
    let version = case.need_number(3)?;
    if batch < 1 || version > MOST_VERSION {
        return Err(CaseError::Bad("no such batch or version"));
    }
    let import = Import::open_from(alloc, &mut folder, source, 1, before, version)?;
    append_import(rt, alloc, import, &mut folder, batch, out)
}

// Goes on with an import to its end.
fn append_import(
    rt: &(impl Threads + Sync),
    alloc: Global,
    import: Import,
    folder: &mut MemoryFolder,
    batch: u32,
    out: &mut Vec<u8>,
) -> Result<(), CaseError>
    requires { 1 ≤ batch }
{
    let mut import = import;
    while let Some(segment) = import.step(rt, alloc, folder, batch)? {
        append_segment(out, &segment)?;
    }
    let counts = import.counts();
    append_report(out, &import.finish(), counts)
}

// Appends the games of a segment, each by its file, its place there, and its result if there is one.
fn append_segment(out: &mut Vec<u8>, segment: &Segment) -> Result<(), CaseError> {
    let alloc = *out.allocator();
    append(out, b"segment games ")?;
    append_decimal(out, u64::from(segment.game_count()))?;
    for game in 0..segment.game_count() {
        let (file, place) = (segment.file(game), segment.place(game));
        append(out, format!(in alloc; ", {file} {place}")?.as_bytes())?;
        let result = segment.game(game).info().result();
        if !result.is_empty() {
            append(out, b" ")?;
            append(out, result)?;
        }
    }
    Ok(append(out, b"\n")?)
}

// Appends the report of an import, and the games and nodes of the base behind it.
fn append_report(out: &mut Vec<u8>, report: &Report, counts: Counts) -> Result<(), CaseError> {
    let alloc = *out.allocator();
    let text = match &report.body {
        ReportBody::Files { lines } => {
            for line in lines.as_slice() {
                append(out, line.name.as_str().as_bytes())?;
                append(out, b" ")?;
                append_outcome(out, line.outcome)?;
                append(out, b"\n")?;
            }
            String::from_str(alloc, "")?
        }
        ReportBody::Unlisted => String::from_str(alloc, "unlisted\n")?,
        ReportBody::TooMany { listed } => format!(in alloc; "too many files {listed}\n")?,
        ReportBody::Made { games, full } => format!(in alloc; "made games {games} full {full}\n")?,
    };
    append(out, text.as_bytes())?;
    let Counts { games, nodes } = counts;
    let version = report.version;
    let text = format!(in alloc; "version {version} games {games} nodes {nodes}\n")?;
    Ok(append(out, text.as_bytes())?)
}
