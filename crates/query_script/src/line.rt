// What a line of a script is.
ghost use Rattle.std.specs.Prelude.{◌≡◌, ◌↔◌, ℕ, List, IfOk, IsTrue};
ghost use Rattle.query_script.specs.Lines.{IsLine};
ghost use Rattle.query_script.specs.Script.{without_end, without_last};
ghost use Rattle.query_script.specs.Statements.{IsRemark, IsSkipped};
ghost use Rattle.query_script.specs.Words.{AreWords};

use crate::statement::Statement;
use crate::statements::{is_name, statement_of};
use crate::word::Word;
use crate::words::{without_blanks, words_of};
use kb_geometry::NoMemory;
use std::alloc::Global;

// A line of a script.
#[derive(Debug, Drop)]
pub(crate) enum Line {
    /// It is skipped: empty, blank or a comment.
    Skipped,
    /// It begins a block of searches.
    Together,
    /// It ends a block.
    End,
    /// It is a statement that takes one line.
    Statement(Statement),
    /// It is none of these.
    Bad,
}

// What a line is. It may still have its line feed. The only error is `NoMemory`.
pub(crate) fn read_line(alloc: Global, line: &[u8]) -> Result<Line, NoMemory>
    ensures { IfOk result (IsLine (without_end line.now)) }
{
    let line = without_end(line);
    if is_skipped(line) {
        return Ok(Line::Skipped);
    }
    let Some(words) = words_of(alloc, line)? else {
        return Ok(Line::Bad);
    };
    line_of(alloc, words.as_slice())
}

// What a line of these words is, which isn't skipped. The only error is `NoMemory`.
fn line_of(alloc: Global, words: &[Word]) -> Result<Line, NoMemory>
    ensures { IfOk result (λ line. (text : List ℕ) → AreWords text words.now → ¬ IsSkipped text →
        IsLine text line) }
{
    if is_name(words, b"together") {
        return Ok(Line::Together);
    }
    if is_name(words, b"end") {
        return Ok(Line::End);
    }
    match statement_of(alloc, words)? {
        Some(statement) => Ok(Line::Statement(statement)),
        None => Ok(Line::Bad),
    }
}

// A line without its line feed, and without one carriage return before that or before the end.
fn without_end(line: &[u8]) -> &[u8]
    ensures { result.now ≡ without_end line.now }
{
    without_last(without_last(line, b'\n'), b'\r')
}

// The bytes without the last one, if that is this byte.
fn without_last(bytes: &[u8], last: u8) -> &[u8]
    ensures { result.now ≡ without_last last bytes.now }
{
    match bytes {
        [others @ .., byte] if *byte == last => others,
        _ => bytes,
    }
}

// Whether the line is empty, of spaces and tabs alone, or a comment.
fn is_skipped(line: &[u8]) -> bool
    ensures { IsTrue result ↔ IsSkipped line.now }
{
    is_remark(without_blanks(line))
}

// Whether the text is empty or a comment.
fn is_remark(text: &[u8]) -> bool
    ensures { IsTrue result ↔ IsRemark text.now }
{
    match text {
        [] | [b'#', ..] => true,
        _ => false,
    }
}
