//! Worked examples of SGF texts, game trees and their information, which stand in text files.
//!
//! Stands on case_files, which reads the files and compares, and on the crates whose answers are
//! shown: sgf_reader, game_tree, sgf_writer, made_games, info_filter and dyer_signature. The README
//! tells the kinds of case.
#![tactic(auto)]

mod conditions;
mod made;
mod parts;
mod players;
mod recogniser;
mod short_texts;
mod signatures;
mod syntax;
mod text;
mod tree_text;
mod trees;

use case_files::{Case, CaseError, Kinds, run_files};
use std::alloc::Global;
use std::io;

// The kinds of this program.
struct SgfKinds;

impl Kinds for SgfKinds {
    fn answer(&self, alloc: Global, case: &Case<'_>, out: &mut Vec<u8>) -> Result<(), CaseError> {
        match case.kind {
            "all" => short_texts::answer_all(alloc, case, out),
            "accepted" => conditions::answer_accepted(alloc, case, out),
            "day" => conditions::answer_day(case, out),
            "made" => made::answer_made(alloc, case, out),
            "canonical" => signatures::answer_canonical(alloc, case, out),
            "matches" => signatures::answer_matches(alloc, case, out),
            "doubles" => signatures::answer_doubles(alloc, case, out),
            "syntax" => syntax::answer_syntax(alloc, case, out),
            "beginnings" => syntax::answer_beginnings(alloc, case, out),
            "values" => syntax::answer_values(alloc, case, out),
            _ => trees::answer_trees(alloc, case, out),
        }
    }
}

fn main(rt: HostRuntime) -> io::Result<()> {
    run_files(&rt, &SgfKinds).map(|_| ())
}
