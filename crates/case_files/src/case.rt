// A case: what is put in, under a kind.
use kb_geometry::NoMemory;
use std::alloc::{AllocError, AllocFailed};

/// A part of what is put in: its name, which is empty for the first part, and its text.
#[derive(Drop)]
pub struct Part<'a> {
    pub name: &'a str,
    pub text: Vec<u8>,
}

/// A case. `kind` is the first word of its block, `words` are the others, and there is always a
/// first part.
#[derive(Drop)]
pub struct Case<'a> {
    pub kind: &'a str,
    pub words: &'a str,
    pub parts: Vec<Part<'a>>,
}

/// Why a case has no answer: it isn't in the form of its kind, or an allocation was refused.
#[derive(Clone, Copy)]
pub enum CaseError {
    Bad(&'static str),
    NoMemory,
}

impl From<NoMemory> for CaseError {
    fn from(_: NoMemory) -> Self {
        CaseError::NoMemory
    }
}

impl From<AllocError> for CaseError {
    fn from(_: AllocError) -> Self {
        CaseError::NoMemory
    }
}

impl<T: Drop> From<AllocFailed<T>> for CaseError {
    fn from(_: AllocFailed<T>) -> Self {
        CaseError::NoMemory
    }
}

impl<'a> Case<'a> {
    /// The text of the first part with this name, or the empty text.
    pub fn part(&self, name: &str) -> &[u8] {
        for part in &self.parts {
            if part.name == name {
                return &part.text;
            }
        }
        &[]
    }

    /// The text in front of the named parts.
    pub fn text(&self) -> &[u8] {
        self.part("")
    }

    /// The word behind the kind with this number, from 0.
    pub fn word(&self, number: usize) -> Option<&'a str> {
        self.words.split_whitespace().nth(number)
    }

    /// The same, where a case of its kind must have it.
    pub fn need_word(&self, number: usize) -> Result<&'a str, CaseError> {
        self.word(number).ok_or(CaseError::Bad("a word is missing"))
    }

    /// The number that is the word of this number.
    pub fn need_number(&self, number: usize) -> Result<u64, CaseError> {
        let word = self.need_word(number)?;
        word.parse::<u64>()
            .map_err(|_| CaseError::Bad("a word is no number"))
    }
}
