//! Worked examples of the script, of the words of the command line, of printed texts and of collectors.
//!
//! Stands on case_files, which reads the files of cases, on query_script and hit_collectors, which
//! are looked at, and on the crates whose values these take or give. The README tells the kinds.
#![tactic(auto)]

mod collectors;
mod hits;
mod lists;
mod openings;
mod printed;
mod row;
mod statements;
mod words;

use case_files::{Case, CaseError, Kinds, run_files};
use std::alloc::Global;
use std::io;

struct ScriptKinds;

impl Kinds for ScriptKinds {
    fn answer(&self, alloc: Global, case: &Case<'_>, out: &mut Vec<u8>) -> Result<(), CaseError> {
        match case.kind {
            "line" => statements::answer_line(alloc, case, out),
            "script" => statements::answer_script(alloc, case, out),
            "words" => words::answer(alloc, case, out),
            "printed" => printed::answer(alloc, case, out),
            "search" => hits::answer(alloc, case, out),
            "players" => lists::answer_players(alloc, case, out),
            "collectors" => collectors::answer(alloc, case, out),
            _ => Err(CaseError::Bad("unknown kind")),
        }
    }
}

fn main(rt: HostRuntime) -> io::Result<()> {
    run_files(&rt, &ScriptKinds).map(|_| ())
}
