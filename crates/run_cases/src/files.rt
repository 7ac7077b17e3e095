// The files, the faults and the words of a case.
use case_files::{Case, CaseError, Part};
use kb_edges::{FileEntry, MemoryFolder, MemorySink, MemorySource};
use std::alloc::Global;

/// A folder in memory of the case's files, which fails as the case says.
pub(crate) fn folder_of(alloc: Global, case: &Case<'_>) -> Result<MemoryFolder, CaseError> {
    let mut files = Vec::new(alloc);
    for part in &case.parts {
        push_files(alloc, part, &mut files)?;
    }
    Ok(MemoryFolder::new(files, fails_of(alloc, case, "folder")?))
}

/// A source of the case's script, which fails as the case says.
pub(crate) fn source_of(alloc: Global, case: &Case<'_>) -> Result<MemorySource, CaseError> {
    let script = case.part("script").to_vec(alloc)?;
    Ok(MemorySource::new(script, fails_of(alloc, case, "script")?))
}

/// An empty sink, which fails as the case says.
pub(crate) fn sink_of(alloc: Global, case: &Case<'_>) -> Result<MemorySink, CaseError> {
    Ok(MemorySink::new(Vec::new(alloc), fails_of(alloc, case, "output")?))
}

// Adds the files of a part. Its name is `PATH/NAME`, or `N of PATH/NAME` for so many files. The
// script, the faults and other parts have no `/` in their names.
fn push_files(alloc: Global, part: &Part<'_>, files: &mut Vec<FileEntry>) -> Result<(), CaseError> {
    let Some((path, name)) = part.name.rsplit_once("/") else {
        return Ok(());
    };
    match path.split_once(" of ") {
        Some((count, path)) => push_numbered(alloc, number(count)?, path, name, &part.text, files),
        None => push_file(alloc, path, name, &part.text, files),
    }
}

pub(crate) fn push_file(
    alloc: Global,
    path: &str,
    name: &str,
    bytes: &[u8],
    files: &mut Vec<FileEntry>,
) -> Result<(), CaseError> {
    files.push(FileEntry {
        path: String::from_str(alloc, path)?,
        name: String::from_str(alloc, name)?,
        bytes: bytes.to_vec(alloc)?,
    })?;
    Ok(())
}

/// Adds so many files of one text. In the name `#` stands for their numbers, from 100000.
pub(crate) fn push_numbered(
    alloc: Global,
    count: u32,
    path: &str,
    name: &str,
    bytes: &[u8],
    files: &mut Vec<FileEntry>,
) -> Result<(), CaseError> {
    let Some((before, after)) = name.split_once("#") else {
        return Err(CaseError::Bad("a name of several files has no #"));
    };
    for number in 0..count {
        let number = number.saturating_add(100_000);
        let name = format!(in alloc; "{before}{number}{after}")?;
        push_file(alloc, path, &name, bytes, files)?;
    }
    Ok(())
}

// The numbers of the calls that fail, which stand in the part `faults` behind this word.
fn fails_of(alloc: Global, case: &Case<'_>, whose: &str) -> Result<Vec<u32>, CaseError> {
    let mut fails = Vec::new(alloc);
    for line in text_of(case.part("faults"))?.lines() {
        let (word, call) = line
            .split_once(" ")
            .ok_or(CaseError::Bad("a fault is a word and a number"))?;
        if word == whose {
            fails.push(number(call)?)?;
        }
    }
    Ok(fails)
}

/// The words of a command line. `""` stands for the empty word.
pub(crate) fn words_of(alloc: Global, line: &str) -> Result<Vec<String>, CaseError> {
    let mut words = Vec::new(alloc);
    for word in line.split_whitespace() {
        let word = if word == "\"\"" { "" } else { word };
        words.push(String::from_str(alloc, word)?)?;
    }
    Ok(words)
}

pub(crate) fn text_of(bytes: &[u8]) -> Result<&str, CaseError> {
    std::str::from_utf8(bytes).map_err(|_| CaseError::Bad("the text isn't UTF-8"))
}

pub(crate) fn number(word: &str) -> Result<u32, CaseError> {
    word.parse::<u32>()
        .map_err(|_| CaseError::Bad("a number is wanted"))
}
