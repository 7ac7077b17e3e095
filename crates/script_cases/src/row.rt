// A line of a case as words and numbers.
use case_files::CaseError;
use std::alloc::Global;

/// A line: words with blanks between, and perhaps a text behind ` | `.
#[derive(Drop)]
pub struct Row<'a> {
    words: Vec<&'a str>,
    pub text: &'a str,
}

/// The words and the text of a line.
pub fn row_of(alloc: Global, line: &str) -> Result<Row<'_>, CaseError> {
    let (front, text) = line.split_once(" | ").unwrap_or((line, ""));
    let words = front.split_whitespace().collect(alloc)?;
    Ok(Row { words, text })
}

impl<'a> Row<'a> {
    /// How many words there are.
    pub fn count(&self) -> usize {
        self.words.len()
    }

    /// The word with this number, from 0; the empty one where there is none.
    pub fn word(&self, at: usize) -> &'a str {
        self.words.get(at).copied().unwrap_or("")
    }

    /// The number that this word writes.
    pub fn number(&self, at: usize) -> Result<u64, CaseError> {
        self.word(at)
            .parse::<u64>()
            .map_err(|_| CaseError::Bad("a word is no number"))
    }

    /// The same, where it has at most 32 bits.
    pub fn small(&self, at: usize) -> Result<u32, CaseError> {
        self.word(at)
            .parse::<u32>()
            .map_err(|_| CaseError::Bad("a word is no number of 32 bits"))
    }

    /// The same, where it has at most 8 bits.
    pub fn byte(&self, at: usize) -> Result<u8, CaseError> {
        self.word(at)
            .parse::<u8>()
            .map_err(|_| CaseError::Bad("a word is no number of 8 bits"))
    }

    /// The same, where something is counted.
    pub fn size(&self, at: usize) -> Result<usize, CaseError> {
        self.word(at)
            .parse::<usize>()
            .map_err(|_| CaseError::Bad("a word is no number"))
    }
}

/// A text of bytes that must be UTF-8.
pub fn text_of(bytes: &[u8]) -> Result<&str, CaseError> {
    std::str::from_utf8(bytes).map_err(|_| CaseError::Bad("the text isn't UTF-8"))
}
