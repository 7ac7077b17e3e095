// What a case gives: files, a script, a sink, words and collectors.
use case_files::{Case, CaseError, Part};
use hit_collectors::{Counter, Kind};
use kb_edges::{FileEntry, MemoryFolder, MemorySink, MemorySource};
use std::alloc::Global;

/// A folder in memory of the case's files, which fails as the case says.
pub(crate) fn folder_of(alloc: Global, case: &Case<'_>) -> Result<MemoryFolder, CaseError> {
    let mut files = Vec::new(alloc);
    for part in &case.parts {
        push_file(alloc, part, &mut files)?;
    }
    Ok(MemoryFolder::new(files, fails_of(alloc, case, "folder")?))
}

// Adds the file of a part whose name is `PATH/NAME`. The script and other parts have no `/` in their
// names.
fn push_file(alloc: Global, part: &Part<'_>, files: &mut Vec<FileEntry>) -> Result<(), CaseError> {
    let Some((path, name)) = part.name.rsplit_once("/") else {
        return Ok(());
    };
    files.push(FileEntry {
        path: String::from_str(alloc, path)?,
        name: String::from_str(alloc, name)?,
        bytes: part.text.to_vec(alloc)?,
    })?;
    Ok(())
}

/// A source of the case's script, which fails as the case says.
pub(crate) fn source_of(alloc: Global, case: &Case<'_>) -> Result<MemorySource, CaseError> {
    let script = case.part("script").to_vec(alloc)?;
    Ok(MemorySource::new(script, fails_of(alloc, case, "script")?))
}

/// An empty sink, which fails as the case says.
pub(crate) fn sink_of(alloc: Global, case: &Case<'_>) -> Result<MemorySink, CaseError> {
    Ok(MemorySink::new(Vec::new(alloc), fails_of(alloc, case, "output")?))
}

// The numbers of the calls that fail, which stand in the part `faults` behind this word.
fn fails_of(alloc: Global, case: &Case<'_>, whose: &str) -> Result<Vec<u32>, CaseError> {
    let mut fails = Vec::new(alloc);
    for line in text_of(case.part("faults"))?.lines() {
        let (word, call) = line
            .split_once(" ")
            .ok_or(CaseError::Bad("a fault is a word and a number"))?;
        if word == whose {
            fails.push(number(call)?)?;
        }
    }
    Ok(fails)
}

/// The words of a command line. `""` stands for the empty word.
pub(crate) fn words_of(alloc: Global, line: &str) -> Result<Vec<String>, CaseError> {
    let mut words = Vec::new(alloc);
    for word in line.split_whitespace() {
        let word = if word == "\"\"" { "" } else { word };
        words.push(String::from_str(alloc, word)?)?;
    }
    Ok(words)
}

/// The collectors of the case, each a line with its name and the word of what it counts.
pub(crate) fn counters_of(alloc: Global, case: &Case<'_>) -> Result<Vec<Counter>, CaseError> {
    let mut counters = Vec::new(alloc);
    for line in text_of(case.part("collectors"))?.lines() {
        counters.push(counter_of(alloc, line)?)?;
    }
    Ok(counters)
}

// The collector of a line: its name and the word of what it counts.
fn counter_of(alloc: Global, line: &str) -> Result<Counter, CaseError> {
    let (name, word) = line
        .split_once(" ")
        .ok_or(CaseError::Bad("a collector is a name and a word"))?;
    let kind = match word {
        "total" => Kind::Total,
        "labels" => Kind::Labels,
        "phases" => Kind::Phases,
        "outcomes" => Kind::Outcomes,
        "nexts" => Kind::Nexts,
        _ => return Err(CaseError::Bad("no such collector")),
    };
    Ok(Counter::new(String::from_str(alloc, name)?, kind)?)
}

fn text_of(bytes: &[u8]) -> Result<&str, CaseError> {
    std::str::from_utf8(bytes).map_err(|_| CaseError::Bad("the text isn't UTF-8"))
}

fn number(word: &str) -> Result<u32, CaseError> {
    word.parse::<u32>()
        .map_err(|_| CaseError::Bad("a number is wanted"))
}
