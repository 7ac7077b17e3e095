//! Pattern texts: the rows of a pattern as `.`, `X`, `O`, `x`, `o` and `*`, with `/` between.
//!
//! Stands on pattern_images for patterns, and on kb_geometry. In `specs/` are the definitions for
//! the text of a pattern, and for the faults of a text. The layers above use that [`read_pattern`]
//! gives the one pattern that a text spells, or the text's first fault, and that [`print_pattern`]
//! appends the pattern's text.
#![tactic(auto)]

mod cell_bytes;
mod fault;
mod laws;
mod print;
mod progress;
mod read;

pub use fault::{PatternError, PatternFault};
pub use laws::{
    a_first_fault_is_near, a_pattern_text_has_one_first_fault,
    a_text_spells_a_pattern_or_has_a_fault, a_text_spells_one_pattern,
};
pub use print::print_pattern;
pub use read::read_pattern;
