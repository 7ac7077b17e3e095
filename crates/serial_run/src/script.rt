// Reading a whole script, which may be too long.
ghost use Rattle.std.specs.Prelude.{
  ◌≡◌,
  ◌≤◌,
  ◌<◌,
  ◌+◌,
  ℕ,
  [],
  Some,
  IfOk,
  IsErrOf,
  OnOk,
  drop,
  length,
};
ghost use Rattle.kb_edges.specs.Faults.{Rose};
ghost use Rattle.kb_edges.specs.Told.{IfTold};
ghost use Rattle.bstr.specs.Text.{lines_of};
ghost use Rattle.serial_run.specs.Script.{IsBad, IsCut, IsScript};

use crate::read::{ReadScriptError, read_text};
use bstr::ByteSlice;
use kb_edges::Source;
use query_script::{MAX_SCRIPT, Placed, ScriptError, read_script};
use std::alloc::Global;
use std::error::Error;
use std::fmt;

/// Why there are no statements.
#[derive(Clone, Copy, Debug, PartialEq, Eq)]
pub enum NoStatements {
    /// A read failed.
    Unread,
    /// The script is bad: its least bad line, from 1.
    BadLine {
        /// The line.
        line: u32,
    },
    /// Want of memory.
    NoMemory,
}

impl fmt::Display for NoStatements {
    fn fmt<W: fmt::Write>(&self, f: &mut fmt::Formatter<W>) -> fmt::Result {
        match self {
            NoStatements::Unread => f.write_str("a read failed"),
            NoStatements::BadLine { line } => write!(f, "line {line} is not a statement"),
            NoStatements::NoMemory => f.write_str("out of memory"),
        }
    }
}

impl Error for NoStatements {}

/// Reads the statements of a script, which is read to its end, or to one byte past the greatest
/// length.
pub fn read_statements<S: Source>(
    alloc: Global,
    script: &mut S,
) -> Result<Vec<Placed>, NoStatements>
    ensures spelled { IfTold (S.left script.old)
        (λ bytes. IfOk result (λ placed. IsScript bytes placed.items)) }
    ensures few { IfOk result (λ placed. length placed.items ≤ 1048576) }
    ensures left { IfTold (S.left script.old)
        (λ bytes. OnOk result (S.left script.new ≡ Some [])) }
    ensures bad_line { IfTold (S.left script.old)
        (λ bytes. (k : ℕ) → IsErrOf result (NoStatements.BadLine k) → IsBad bytes k) }
    ensures bad_left { IfTold (S.left script.old)
        (λ bytes. (k : ℕ) → IsErrOf result (NoStatements.BadLine k) →
        S.left script.new ≡ Some (drop 1048577 bytes)) }
    ensures unread { IsErrOf result NoStatements.Unread →
        Rose (S.faults script.old) (S.faults script.new) }
    ensures later { S.faults script.old ≤ S.faults script.new }
{
    let text = match read_text(alloc, script) {
        Ok(text) => text,
        Err(ReadScriptError::Unread) => return Err(NoStatements::Unread),
        Err(ReadScriptError::NoMemory) => return Err(NoStatements::NoMemory),
    };
    match read_whole(alloc, &text) {
        Ok(placed) => Ok(placed),
        Err(ScriptError::BadLine { line }) => Err(NoStatements::BadLine { line }),
        Err(ScriptError::NoMemory) => Err(NoStatements::NoMemory),
    }
}

// Reads a script of which at most one byte past the greatest length is at hand.
//
// The answer has the script's statements. The error names the line that is bad: the least bad one;
// in a script that is too long the least bad one before the line that holds the byte past the
// greatest length, or else that line. The only other error is `NoMemory`.
fn read_whole(alloc: Global, text: &[u8]) -> Result<Vec<Placed>, ScriptError>
    requires { length text.now ≤ 1048577 }
    ensures script { IfOk result (λ placed. IsScript text.now placed.items) }
    ensures bad_line { (k : ℕ) → IsErrOf result (ScriptError.BadLine k) → IsBad text.now k }
{
    if text.len() <= MAX_SCRIPT {
        return read_script(alloc, text);
    }
    let kept = before_cut(text);
    if let Err(error) = read_script(alloc, kept) {
        return Err(error);
    }
    let line = line_count(kept) + 1;
    Err(ScriptError::BadLine { line })
}

// What stands before the line that holds the byte past the greatest length.
fn before_cut(text: &[u8]) -> &[u8]
    requires { 1048576 < length text.now }
    ensures { IsCut text.now result.now }
{
    let allowed = &text[..MAX_SCRIPT];
    match allowed.rfind_byte(b'\n') {
        Some(last) => &text[..=last],
        None => &[],
    }
}

// How many lines there are.
fn line_count(text: &[u8]) -> u32
    requires { length text.now ≤ 1048576 }
    ensures value { result ≡ length (lines_of text.now) }
    ensures most { result ≤ 1048576 }
{
    text.lines_with_terminator().count() as u32
}
