//! Worked examples that stand in text files, and the run of a program over them.
//!
//! Stands on kb_geometry for bytes that are appended to a vector. A program says by its `Kinds`
//! what is answered to a case. `run_files` reads the files that the command line names, compares
//! each answer with what the file expects, prints what differs, and counts.
//!
//! The form of a file stands in the README of this crate. Nothing here is told by a contract but
//! that no run leaves a range, overflows or goes on for ever: what a case shows is what the two
//! compilers' programs print.
#![tactic(auto)]

mod block;
mod case;
mod escapes;
mod running;

pub use case::{Case, CaseError, Part};
pub use escapes::{append_decoded, append_shown};
pub use running::{Kinds, Tally, run_files};
