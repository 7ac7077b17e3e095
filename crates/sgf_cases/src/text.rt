// The text that a case is about, and lines that are appended to an answer.
use case_files::{Case, CaseError};
use kb_geometry::append;
use sgf_reader::SgfFault;
use std::alloc::Global;

/// What is put in, in the place of the `*` among the words of the case, or as it is where there are
/// no words.
pub(crate) fn text_of(alloc: Global, case: &Case<'_>) -> Result<Vec<u8>, CaseError> {
    let mut text = Vec::new(alloc);
    if case.words.is_empty() {
        append(&mut text, case.text())?;
        return Ok(text);
    }
    let (before, after) = case
        .words
        .split_once("*")
        .ok_or(CaseError::Bad("no * among the words"))?;
    append(&mut text, before.as_bytes())?;
    append(&mut text, case.text())?;
    append(&mut text, after.as_bytes())?;
    Ok(text)
}

/// Appends a line.
pub(crate) fn append_line(out: &mut Vec<u8>, line: &[u8]) -> Result<(), CaseError> {
    append(out, line)?;
    Ok(out.push(b'\n')?)
}

/// Appends the line of a fault.
pub(crate) fn append_fault(out: &mut Vec<u8>, fault: SgfFault) -> Result<(), CaseError> {
    let SgfFault { kind, at } = fault;
    let line = format!(in *out.allocator(); "{kind:?} at {at}\n")?;
    Ok(append(out, line.as_bytes())?)
}
