//! Answers worked examples of audits: words, a script and files, a record among them, and calls that fail
//! become a status and the line of the audit. The files of cases and their form are told in the README.
//!
//! Stands on run_audit, hit_collectors, kb_edges and kb_geometry, and on case_files, which reads the cases.
#![tactic(auto)]

mod audits;
mod given;

use case_files::{Case, CaseError, Kinds};
use kb_geometry::append;
use std::alloc::Global;
use std::io;
use std::thread::Threads;

// What answers cases, and says whether there was memory. It is a closure that holds the runtime, since a
// bound `Sync` says nothing in the `impl` of a trait.
#[derive(Drop)]
struct AuditKinds {
    answer: Box<dyn Fn(Global, &Case<'_>, &mut Vec<u8>) -> bool + Drop>,
    ghost callable: { IsAlwaysCallable answer },
}

impl Kinds for AuditKinds {
    fn answer(&self, alloc: Global, case: &Case<'_>, out: &mut Vec<u8>) -> Result<(), CaseError> {
        if (self.answer)(alloc, case, out) {
            Ok(())
        } else {
            Err(CaseError::NoMemory)
        }
    }
}

// Answers a case, where it isn't in the form of its kind with what is wrong.
fn answer_or_tell<R: Threads + Sync>(
    rt: &R,
    alloc: Global,
    case: &Case<'_>,
    out: &mut Vec<u8>,
) -> bool {
    match answer(rt, alloc, case, out) {
        Ok(()) => true,
        Err(CaseError::Bad(why)) => append(out, why.as_bytes()).is_ok(),
        Err(CaseError::NoMemory) => false,
    }
}

fn answer<R: Threads + Sync>(
    rt: &R,
    alloc: Global,
    case: &Case<'_>,
    out: &mut Vec<u8>,
) -> Result<(), CaseError> {
    match case.kind {
        "audit" => audits::answer_audit(rt, alloc, case, out),
        "cuts" => audits::answer_cuts(rt, alloc, case, out),
        "words" => audits::answer_words(rt, alloc, case, out),
        _ => Err(CaseError::Bad("unknown kind")),
    }
}

fn main(rt: HostRuntime) -> io::Result<()> {
    let own = rt.clone()?;
    let answer_one = move |alloc: Global, case: &Case<'_>, out: &mut Vec<u8>| -> bool {
        answer_or_tell(&own, alloc, case, out)
    };
    let kinds = AuditKinds {
        answer: Box::new(rt.alloc(), answer_one)?,
    };
    case_files::run_files(&rt, &kinds)?;
    Ok(())
}
