//! Answers worked examples of runs: a script, files, and calls that fail become a status and the
//! printed answers. The files of cases and their form are told in the README.
//!
//! Stands on serial_run, import_segments, import_work, node_position, game_tree, sgf_reader,
//! hit_collectors, kb_edges and kb_geometry, and on case_files, which reads the cases.
#![tactic(auto)]

mod changes;
mod files;
mod import;
mod names;
mod outcome;
mod parts;
mod run;
mod status;

use case_files::{Case, CaseError, Kinds};
use kb_geometry::append;
use std::alloc::Global;
use std::io;
use std::sync::Wait;
use std::thread::Threads;

// What answers cases, and says whether there was memory. It is a closure that holds the runtime, since a
// bound `Sync` says nothing in the `impl` of a trait.
#[derive(Drop)]
struct RunKinds {
    answer: Box<dyn Fn(Global, &Case<'_>, &mut Vec<u8>) -> bool + Drop>,
    ghost callable: { IsAlwaysCallable answer },
}

impl Kinds for RunKinds {
    fn answer(&self, alloc: Global, case: &Case<'_>, out: &mut Vec<u8>) -> Result<(), CaseError> {
        if (self.answer)(alloc, case, out) {
            Ok(())
        } else {
            Err(CaseError::NoMemory)
        }
    }
}

// Answers a case, where it isn't in the form of its kind with what is wrong.
fn answer_or_tell<R: Threads + Wait + Sync>(
    rt: &R,
    alloc: Global,
    case: &Case<'_>,
    out: &mut Vec<u8>,
) -> bool {
    match answer(rt, alloc, case, out) {
        Ok(()) => true,
        Err(CaseError::Bad(why)) => append(out, why.as_bytes()).is_ok(),
        Err(CaseError::NoMemory) => false,
    }
}

fn answer<R: Threads + Wait + Sync>(
    rt: &R,
    alloc: Global,
    case: &Case<'_>,
    out: &mut Vec<u8>,
) -> Result<(), CaseError> {
    match case.kind {
        "run" => run::answer_run(rt, alloc, case, out),
        "last" => run::answer_last(rt, alloc, case, out),
        "script" => run::answer_script(rt, alloc, case, out),
        "words" => run::answer_words(rt, alloc, case, out),
        "over" => run::answer_over(rt, alloc, case, out),
        "names" => names::answer_names(rt, alloc, case, out),
        "outcome" => outcome::answer_outcome(alloc, case, out),
        "beginnings" => outcome::answer_beginnings(alloc, case, out),
        "import" => import::answer_import(rt, alloc, case, out),
        "made" => import::answer_made(rt, alloc, case, out),
        "parts" => parts::answer_parts(rt, alloc, case, out),
        "changes" => changes::answer_changes(alloc, case, out),
        _ => Err(CaseError::Bad("unknown kind")),
    }
}

fn main(rt: HostRuntime) -> io::Result<()> {
    let own = rt.clone()?;
    let answer_one = move |alloc: Global, case: &Case<'_>, out: &mut Vec<u8>| -> bool {
        answer_or_tell(&own, alloc, case, out)
    };
    let kinds = RunKinds {
        answer: Box::new(rt.alloc(), answer_one)?,
    };
    case_files::run_files(&rt, &kinds)?;
    Ok(())
}
