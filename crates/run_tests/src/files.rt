// Files in memory that the tests import.
use kb_edges::{FileEntry, MemoryFolder};
use std::alloc::Global;
use std::test::Fail;

// Three moves on five by five points, of which Black makes the first and the last.
pub(crate) const GAME: &[u8] = b"(;GM[1]FF[4]SZ[5];B[cc];W[bc];B[cb])";

// A folder d with so many files of one game each.
pub(crate) fn folder_of(alloc: Global, count: u32) -> Result<MemoryFolder, Fail> {
    Ok(MemoryFolder::new(entries_of(alloc, count)?, Vec::new(alloc)))
}

// So many files of one game each.
pub(crate) fn entries_of(alloc: Global, count: u32) -> Result<Vec<FileEntry>, Fail> {
    let mut files = Vec::new(alloc);
    for number in 0..count {
        files.push(FileEntry {
            path: String::from_str(alloc, "d")?,
            name: format!(in alloc; "{number}.sgf")?,
            bytes: GAME.to_vec(alloc)?,
        })?;
    }
    Ok(files)
}

// The words of a command line that are parted by single spaces.
pub(crate) fn words_in(alloc: Global, line: &str) -> Result<Vec<String>, Fail> {
    let mut words = Vec::new(alloc);
    for word in line.split(' ') {
        words.push(String::from_str(alloc, word)?)?;
    }
    Ok(words)
}
