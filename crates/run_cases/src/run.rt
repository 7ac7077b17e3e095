// Whole runs.
use crate::files::{folder_of, push_file, sink_of, source_of, text_of, words_of};
use crate::status::{Ended, append_joined, append_status, append_whole};
use case_files::{Case, CaseError, append_decoded};
use hit_collectors::{Collector, Counter, Kind};
use kb_edges::{MemoryFolder, MemorySource};
use kb_geometry::{append, append_decimal_and};
use serial_run::run_serial;
use std::alloc::Global;
use std::thread::Threads;

/// The kind `run`: a run with these words, and its whole output.
pub(crate) fn answer_run(
    rt: &(impl Threads + Sync),
    alloc: Global,
    case: &Case<'_>,
    out: &mut Vec<u8>,
) -> Result<(), CaseError> {
    let ended = ended_script(rt, alloc, case)?;
    append_status(out, &ended)?;
    Ok(append(out, &ended.output)?)
}

/// The kind `last`: the same with the number of the output's lines, and the last of them.
pub(crate) fn answer_last(
    rt: &(impl Threads + Sync),
    alloc: Global,
    case: &Case<'_>,
    out: &mut Vec<u8>,
) -> Result<(), CaseError> {
    let ended = ended_script(rt, alloc, case)?;
    append_status(out, &ended)?;
    let text = text_of(&ended.output)?;
    let count = text.lines().count();
    append(out, b"lines ")?;
    append_decimal_and(out, count as u64, b'\n')?;
    for line in text.lines().skip(count.saturating_sub(1)) {
        append(out, line.as_bytes())?;
        append(out, b"\n")?;
    }
    Ok(())
}

/// The kind `script`: the run of a script that is given whole, over no file, as one line.
pub(crate) fn answer_script(
    rt: &(impl Threads + Sync),
    alloc: Global,
    case: &Case<'_>,
    out: &mut Vec<u8>,
) -> Result<(), CaseError> {
    let folder = MemoryFolder::new(Vec::new(alloc), Vec::new(alloc));
    let source = MemorySource::new(case.text().to_vec(alloc)?, Vec::new(alloc));
    let ended = ended_run(rt, alloc, case, "", folder, source)?;
    append_whole(out, &ended)
}

/// The kind `words`: the run with these words of a bad script that can't be read, as one line.
pub(crate) fn answer_words(
    rt: &(impl Threads + Sync),
    alloc: Global,
    case: &Case<'_>,
    out: &mut Vec<u8>,
) -> Result<(), CaseError> {
    let mut fails = Vec::new(alloc);
    fails.push(0)?;
    let folder = MemoryFolder::new(Vec::new(alloc), Vec::new(alloc));
    let source = MemorySource::new(b"waits\n".to_vec(alloc)?, fails);
    let ended = ended_run(rt, alloc, case, text_of(case.text())?, folder, source)?;
    append_whole(out, &ended)
}

/// The kind `over`: the text of a statement over the games of one file, as one line.
pub(crate) fn answer_over(
    rt: &(impl Threads + Sync),
    alloc: Global,
    case: &Case<'_>,
    out: &mut Vec<u8>,
) -> Result<(), CaseError> {
    let mut text = Vec::new(alloc);
    append_decoded(&mut text, &[case.words])?;
    let mut files = Vec::new(alloc);
    push_file(alloc, "d", "a.sgf", &text, &mut files)?;
    let folder = MemoryFolder::new(files, Vec::new(alloc));
    let mut script = b"import d\nwait\n".to_vec(alloc)?;
    append(&mut script, case.text())?;
    let source = MemorySource::new(script, Vec::new(alloc));
    let ended = ended_run(rt, alloc, case, "", folder, source)?;
    let output = text_of(&ended.output)?;
    let behind = match output.split_once("\n2 wait version 1\n") {
        Some((_, behind)) => behind,
        None => output,
    };
    append_joined(out, behind.as_bytes())
}

// The run of the case's words, files and script.
fn ended_script(
    rt: &(impl Threads + Sync),
    alloc: Global,
    case: &Case<'_>,
) -> Result<Ended, CaseError> {
    let source = source_of(alloc, case)?;
    ended_run(rt, alloc, case, case.words, folder_of(alloc, case)?, source)
}

// A run with these words, and with the case's collectors and output.
fn ended_run(
    rt: &(impl Threads + Sync),
    alloc: Global,
    case: &Case<'_>,
    words: &str,
    folder: MemoryFolder,
    source: MemorySource,
) -> Result<Ended, CaseError> {
    let words = words_of(alloc, words)?;
    let mut source = source;
    let mut sink = sink_of(alloc, case)?;
    let mut boxes: Vec<Box<dyn Collector>> = Vec::new(alloc);
    for line in text_of(case.part("collectors"))?.lines() {
        boxes.push(Box::new(alloc, counter_of(alloc, line)?)?)?;
    }
    let (status, _folder) = run_serial(rt, alloc, &words, folder, &mut source, &mut sink, boxes);
    Ok(Ended {
        status,
        left: source.left().len(),
        output: sink.written().to_vec(alloc)?,
    })
}

// The collector of a line: its name and the word of what it counts.
fn counter_of(alloc: Global, line: &str) -> Result<Counter, CaseError> {
    let (name, word) = line
        .split_once(" ")
        .ok_or(CaseError::Bad("a collector is a name and a word"))?;
    let kind = match word {
        "total" => Kind::Total,
        "labels" => Kind::Labels,
        "phases" => Kind::Phases,
        "outcomes" => Kind::Outcomes,
        "nexts" => Kind::Nexts,
        _ => return Err(CaseError::Bad("no such collector")),
    };
    Ok(Counter::new(String::from_str(alloc, name)?, kind)?)
}
