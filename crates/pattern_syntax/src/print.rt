// From a pattern to its text.
ghost use Rattle.std.specs.Prelude.{◌≡◌, ◌+◌, ◌<◌, ◌≤◌, ◌++◌, OnOk, OnErr, vec_len, vec_capacity};
ghost use Rattle.pattern_images.specs.Pattern.{grid_of};
ghost use Rattle.pattern_syntax.specs.Text.{SpellsPattern, pattern_text, row_text};

use crate::cell_bytes::{SLASH, byte_of};
use kb_geometry::NoMemory;
use pattern_images::Pattern;

/// Appends the text of a pattern: its rows with `/` between, a cell as `.`, `X`, `O`, `x`, `o` or
/// `*`. It is the one text that [`read_pattern`](crate::read_pattern) reads as this pattern. The
/// only error is `NoMemory`, and then `out` is as before.
pub fn print_pattern(pattern: &Pattern, out: &mut Vec<u8>) -> Result<(), NoMemory>
    ensures ok { OnOk result (out.new.items ≡ out.old.items ++ pattern_text (grid_of pattern.now)) }
    ensures refused { OnErr result (out.new.items ≡ out.old.items) }
    ensures read_back { SpellsPattern (pattern_text (grid_of pattern.now)) (grid_of pattern.now) }
{
    // Room comes first, so that a refusal changes nothing: for the cells of each row, and a `/`.
    let row = usize::from(pattern.cols()) + 1;
    out.reserve(usize::from(pattern.rows()) * row)?;
    print_row(pattern, 0, out)?;
    for y in 1..pattern.rows() {
        out.push(SLASH)?;
        print_row(pattern, y, out)?;
    }
    Ok(())
}

// Appends the text of one row. It fails only where there is no room for it.
fn print_row(pattern: &Pattern, y: u8, out: &mut Vec<u8>) -> Result<(), NoMemory>
    requires { y < (grid_of pattern.now).rows }
    ensures ok { OnOk result (out.new.items ≡ out.old.items ++ row_text (grid_of pattern.now) y) }
    ensures len { OnOk result (vec_len out.new ≡ vec_len out.old + (grid_of pattern.now).cols) }
    ensures full { OnErr result
        (vec_capacity out.old < vec_len out.old + (grid_of pattern.now).cols) }
    ensures room { vec_capacity out.old ≤ vec_capacity out.new }
{
    for x in 0..pattern.cols() {
        out.push(byte_of(pattern.cell(x, y)))?;
    }
    Ok(())
}
