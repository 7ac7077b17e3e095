// The parts of a version, which are merged as an import is published.
ghost use Rattle.std.specs.Prelude.{◌≡◌, []};
ghost use Rattle.import_segments.specs.Publishing.{IsIdle};

use crate::files::{number, push_file, text_of};
use case_files::{Case, CaseError};
use import_segments::{OpenName, Receipts, publish_import};
use import_work::{Counts, Import};
use kb_edges::{FileEntry, MemoryFolder, OpenGate};
use kb_geometry::append;
use segment_store::Segment;
use std::alloc::Global;
use std::marker::Brand;
use std::sync::Wait;
use std::thread::Threads;
use version_publisher::{Publisher, Searcher, Version, open};

/// The kind `parts`: how many games each part has after files of so many games were imported, each
/// as a version of its own.
pub(crate) fn answer_parts<R: Threads + Wait + Sync>(
    rt: &R,
    alloc: Global,
    case: &Case<'_>,
    out: &mut Vec<u8>,
) -> Result<(), CaseError> {
    let mut files = Vec::new(alloc);
    for count in text_of(case.text())?.split_whitespace() {
        push_games(alloc, number(count)?, &mut files)?;
    }
    let folder = MemoryFolder::new(files, Vec::new(alloc));
    let Ok((mut publisher, mut searchers)) = open::<Segment, R>(alloc, rt, 1) else {
        return Err(CaseError::NoMemory);
    };
    let done = append_published::<Brand, R>(
        rt,
        alloc,
        folder,
        &mut publisher,
        &mut searchers[0],
        out,
    );
    publisher.close(rt);
    done
}

// Adds a file of so many games. One of no games is refused.
fn push_games(alloc: Global, count: u32, files: &mut Vec<FileEntry>) -> Result<(), CaseError> {
    let mut text = Vec::new(alloc);
    for _ in 0..count {
        append(&mut text, b"(;SZ[3];B[aa])")?;
    }
    let name = format!(in alloc; "{}.sgf", files.len())?;
    push_file(alloc, "d", &name, &text, files)
}

// Publishes an import of the folder, file by file, and appends what is seen behind it.
fn append_published<J: OpenName + Send + Sync, R: Threads + Wait + Sync>(
    rt: &R,
    alloc: Global,
    folder: MemoryFolder,
    publisher: &mut Publisher<Segment>,
    searcher: &mut Searcher<Segment>,
    out: &mut Vec<u8>,
) -> Result<(), CaseError>
    requires opening { publisher.old.opening ≡ J.opening }
    requires same { searcher.old.opening ≡ J.opening }
    requires empty { publisher.old.log ≡ [] }
    requires idle { IsIdle publisher.old }
{
    let mut folder = folder;
    let receipts = Receipts::<J>::new(publisher)?;
    let none = Counts { games: 0, nodes: 0 };
    let import = Import::open(alloc, &mut folder, "d", 1, none, 0)?;
    publish_import(
        rt,
        alloc,
        import,
        &mut folder,
        publisher,
        &OpenGate,
        &receipts,
        1,
    )?;
    searcher.meet(rt, publisher);
    match searcher.look_with(alloc, publisher) {
        Ok(version) => append_parts(out, &version),
        Err(_) => Err(CaseError::NoMemory),
    }
}

fn append_parts(out: &mut Vec<u8>, version: &Version<Segment>) -> Result<(), CaseError> {
    let alloc = *out.allocator();
    append(
        out,
        format!(in alloc; "version {} parts", version.number())?.as_bytes(),
    )?;
    for part in version.parts() {
        append(out, format!(in alloc; " {}", part.game_count())?.as_bytes())?;
    }
    Ok(append(out, b"\n")?)
}
