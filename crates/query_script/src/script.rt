// Reads a script.
ghost use Rattle.std.specs.Prelude.{◌≤◌, ℕ, length, IfOk, IsErrOf};
ghost use Rattle.query_script.specs.Script.{
  AreStatements,
  IsLeastBadLine,
  most_script_bytes,
  script_lines,
};

use crate::line::read_line;
use crate::progress::Progress;
use crate::statement::{Placed, ScriptError};
use bstr::ByteSlice;
use std::alloc::Global;

/// Reads a script of at most 1,048,576 bytes, which is [`MAX_SCRIPT`](crate::MAX_SCRIPT).
///
/// Lines end with a line feed, the last one perhaps with the text; a carriage return before that is
/// dropped. The answer has the statements in order of their lines; a block of searches is one
/// statement. The error names the least bad line: one that spells nothing, the end of no block or
/// of one without a search, the ninth search of a block, another statement or another block inside
/// a block, or the beginning of a block that has no end. The only other error is `NoMemory`.
pub fn read_script(alloc: Global, text: &[u8]) -> Result<Vec<Placed>, ScriptError>
    requires { length text.now ≤ most_script_bytes }
    ensures statements { IfOk result
        (λ placed. AreStatements (script_lines text.now) placed.items) }
    ensures bad_line { (k : ℕ) → IsErrOf result (ScriptError.BadLine k) →
        IsLeastBadLine (script_lines text.now) k }
{
    let mut placed = Vec::new(alloc);
    let mut progress = Progress::Outside;
    let mut number = 0;
    for bytes in text.lines_with_terminator() {
        number += 1;
        let line = read_line(alloc, bytes)?;
        progress = progress.after(alloc, number, line, &mut placed)?;
    }
    match progress {
        Progress::Outside => Ok(placed),
        Progress::Inside(block) => Err(ScriptError::BadLine { line: block.line }),
        Progress::Broken { begun, .. } => Err(ScriptError::BadLine { line: begun }),
    }
}
