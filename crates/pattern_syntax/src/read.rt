// From a text to the pattern that it spells.
ghost use Rattle.std.specs.Prelude.{◌≡◌, IfOk, Err};
ghost use Rattle.pattern_images.specs.Pattern.{grid_of};
ghost use Rattle.pattern_syntax.specs.declared.fault.PatternFault.{PatternFault};
ghost use Rattle.pattern_syntax.specs.declared.fault.PatternError.TheVariants.{Fault};
ghost use Rattle.pattern_syntax.specs.Text.{SpellsPattern};
ghost use Rattle.pattern_syntax.specs.Faults.{IsFirstPatternFault};

use crate::progress::Progress;
use crate::{PatternError, PatternFault};
use pattern_images::Pattern;
use std::alloc::Global;

/// Reads a pattern text: 1 to 52 rows with `/` between, each of as many cells, 1 to 52. A cell is
/// `.` for an empty point, `X` for black, `O` for white, `x` for black or empty, `o` for white or
/// empty, or `*` for anything. There is no other byte, and no white space.
///
/// A fault is one of these, and that of least offset is answered: a byte that is none of these; the
/// `/` or the end behind an empty row, or behind one of another length than the first; the 53rd
/// byte of a row; the `/` before a 53rd row. The only other error is `NoMemory`.
pub fn read_pattern(alloc: Global, text: &str) -> Result<Pattern, PatternError>
    ensures ok { IfOk result (λ pattern. SpellsPattern text.now (grid_of pattern)) }
    ensures fault { (f : PatternFault) → result ≡ Err (Fault f) →
        IsFirstPatternFault text.now f.column }
{
    let mut cells = Vec::new(alloc);
    let mut progress = Progress::start();
    for (at, byte) in text.as_bytes().iter().enumerate() {
        let Some(step) = progress.after(*byte) else {
            return Err(PatternError::Fault(PatternFault { column: at as u32 }));
        };
        cells.extend(step.cell)?;
        progress = step.next;
    }
    let Some(size) = progress.size() else {
        return Err(PatternError::Fault(PatternFault {
            column: text.len() as u32,
        }));
    };
    let Some(pattern) = Pattern::new(size.cols(), size.rows(), cells) else {
        unreachable!()
    };
    Ok(pattern)
}
