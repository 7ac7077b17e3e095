//! Worked examples of one publisher and its searchers, step by step in one thread.
//!
//! Stands on case_files, which reads the files of cases, and on version_publisher, which is looked
//! at. The parts of its versions are lists of numbers here. The README tells the kinds.
#![tactic(auto)]

mod desk;
mod numbers;
mod pushed;
mod readers;
mod steps;

use case_files::{Case, CaseError, Kinds, run_files};
use std::alloc::Global;
use std::io;
use std::sync::Wait;

// What is answered to cases, by the runtime that a publish may wait with.
#[derive(Drop)]
struct PublisherKinds<'a, R> {
    rt: &'a R,
}

impl<R: Wait> Kinds for PublisherKinds<'_, R> {
    fn answer(&self, alloc: Global, case: &Case<'_>, out: &mut Vec<u8>) -> Result<(), CaseError> {
        match case.kind {
            "publisher" => steps::answer(self.rt, alloc, case, out),
            "version" => pushed::answer(alloc, case, out),
            _ => Err(CaseError::Bad("unknown kind")),
        }
    }
}

fn main(rt: HostRuntime) -> io::Result<()> {
    run_files(&rt, &PublisherKinds { rt: &rt }).map(|_| ())
}
