// Whole audits.
use crate::given::{counters_of, folder_of, sink_of, source_of, words_of};
use case_files::{Case, CaseError};
use hit_collectors::Collector;
use kb_edges::{FileEntry, MemoryFolder};
use kb_geometry::{append, append_decimal_and};
use run_audit::{AuditStatus, Task, audit, task};
use std::alloc::Global;
use std::thread::Threads;

/// The kind `audit`: an audit with these words, and what it writes.
pub(crate) fn answer_audit<R: Threads + Sync>(
    rt: &R,
    alloc: Global,
    case: &Case<'_>,
    out: &mut Vec<u8>,
) -> Result<(), CaseError> {
    append_audit(rt, alloc, case, folder_of(alloc, case)?, out)
}

/// The kind `cuts`: the same for each beginning of the record, from the empty one to the whole.
pub(crate) fn answer_cuts<R: Threads + Sync>(
    rt: &R,
    alloc: Global,
    case: &Case<'_>,
    out: &mut Vec<u8>,
) -> Result<(), CaseError> {
    let record = case.part("r/record");
    for end in 0..=record.len() {
        let mut files = Vec::new(alloc);
        for file in folder_of(alloc, case)?.files() {
            let cut = file.name.as_str() == "record";
            let bytes = if cut {
                &record[..end]
            } else {
                file.bytes.as_slice()
            };
            files.push(FileEntry {
                path: file.path.clone()?,
                name: file.name.clone()?,
                bytes: bytes.to_vec(alloc)?,
            })?;
        }
        append_audit(
            rt,
            alloc,
            case,
            MemoryFolder::new(files, Vec::new(alloc)),
            out,
        )?;
    }
    Ok(())
}

// Appends how an audit with the case's words, script and collectors over a folder ended, and what it wrote.
fn append_audit<R: Threads + Sync>(
    rt: &R,
    alloc: Global,
    case: &Case<'_>,
    folder: MemoryFolder,
    out: &mut Vec<u8>,
) -> Result<(), CaseError> {
    let words = words_of(alloc, case.words)?;
    let mut source = source_of(alloc, case)?;
    let mut sink = sink_of(alloc, case)?;
    let mut boxes: Vec<Box<dyn Collector>> = Vec::new(alloc);
    for counter in counters_of(alloc, case)? {
        boxes.push(Box::new(alloc, counter)?)?;
    }
    let (status, _folder) = audit(rt, alloc, &words, folder, &mut source, &mut sink, boxes);
    append_status(out, status)?;
    append(out, sink.written())?;
    Ok(())
}

fn append_status(out: &mut Vec<u8>, status: AuditStatus) -> Result<(), CaseError> {
    if let AuditStatus::BadScript { line } = status {
        append(out, b"bad line ")?;
        append_decimal_and(out, u64::from(line), b'\n')?;
        return Ok(());
    }
    let word = match status {
        AuditStatus::Done | AuditStatus::BadScript { .. } => "",
        AuditStatus::BadWords => "bad words\n",
        AuditStatus::ScriptUnread => "script unread\n",
        AuditStatus::SinkFault => "output fault\n",
        AuditStatus::NoMemory => "out of memory\n",
        AuditStatus::FolderUnread => "folder unread\n",
    };
    append(out, word.as_bytes())?;
    Ok(())
}

/// The kind `words`: the task of these words, and for an audit the status of one with the words behind the
/// first of a script that can't be read.
pub(crate) fn answer_words<R: Threads + Sync>(
    rt: &R,
    alloc: Global,
    case: &Case<'_>,
    out: &mut Vec<u8>,
) -> Result<(), CaseError> {
    let line = std::str::from_utf8(case.text()).map_err(|_| CaseError::Bad("not UTF-8"))?;
    let words = words_of(alloc, line)?;
    if task(&words) == Task::Run {
        append(out, b"run\n")?;
        return Ok(());
    }
    let mut fails = Vec::new(alloc);
    fails.push(0)?;
    let folder = MemoryFolder::new(Vec::new(alloc), Vec::new(alloc));
    let mut source = kb_edges::MemorySource::new(Vec::new(alloc), fails);
    let mut sink = sink_of(alloc, case)?;
    let boxes = Vec::new(alloc);
    let behind = words.get(1..).unwrap_or(&[]);
    let (status, _folder) = audit(rt, alloc, behind, folder, &mut source, &mut sink, boxes);
    append_status(out, status)
}
