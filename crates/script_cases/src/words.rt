// Words of the command line, and what they say.
use crate::row::text_of;
use case_files::{Case, CaseError};
use kb_geometry::append;
use query_script::{Words, WordsError, read_words};
use std::alloc::Global;

/// Appends what the words say that stand between quotes.
pub fn answer(alloc: Global, case: &Case<'_>, out: &mut Vec<u8>) -> Result<(), CaseError> {
    let words = quoted(alloc, text_of(case.text())?)?;
    match read_words(alloc, words.as_slice()) {
        Ok(said) => append_said(alloc, &said, out),
        Err(WordsError::BadWords) => Ok(append(out, b"not lawful\n")?),
        Err(WordsError::NoMemory) => Err(CaseError::NoMemory),
    }
}

// The words between quotes; what stands outside quotes is let go.
fn quoted(alloc: Global, text: &str) -> Result<Vec<String>, CaseError> {
    let mut words = Vec::new(alloc);
    let mut is_inside = false;
    for piece in text.split("\"") {
        if is_inside {
            words.push(String::from_str(alloc, piece)?)?;
        }
        is_inside = !is_inside;
    }
    Ok(words)
}

fn append_said(alloc: Global, said: &Words, out: &mut Vec<u8>) -> Result<(), CaseError> {
    let batch = said.batch;
    let order = if said.serial { "serial" } else { "beside" };
    let text = format!(in alloc; "batch {batch} {order}\n")?;
    Ok(append(out, text.as_bytes())?)
}
