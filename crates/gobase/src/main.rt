//! gobase reads a script from standard input and writes its answers to standard output; or it audits
//! a record of such answers.
//!
//! Stands on search_run, whose `run` does all the work of a run, and on run_audit, whose `audit` does
//! that of an audit; on kb_edges for the real source, sink and folder and the open gate, and on
//! hit_collectors for the collectors that tally the hits.
#![tactic(auto)]

ghost use Rattle.std.specs.Prelude.{◌≡◌};
ghost use Rattle.gobase.specs.ExitCodes.{audit_exit_code, ended_exit_code, exit_code};

use hit_collectors::{Collector, Counter, Kind};
use kb_edges::{OpenGate, RealFolder, RealSink, RealSource};
use kb_geometry::NoMemory;
use run_audit::{AuditStatus, Task, audit, task};
use search_run::{Base, Status, run};
use std::env;
use std::io::ErrorKind;
use std::process::ExitCode;
use std::sync::Wait;
use std::thread::Threads;

// The collectors of the program: the name of each, and what it counts.
const COLLECTORS: [(&str, Kind); 5] = [
    ("hits", Kind::Total),
    ("labels", Kind::Labels),
    ("phases", Kind::Phases),
    ("outcomes", Kind::Outcomes),
    ("nexts", Kind::Nexts),
];

// How the program ended: a run, or an audit.
#[derive(Clone, Copy, Debug, PartialEq, Eq)]
enum Ended {
    Run(Status),
    Audit(AuditStatus),
}

// The exit code of the program.
fn ended_code_of(ended: Ended) -> u8
    ensures { result ≡ ended_exit_code ended }
{
    match ended {
        Ended::Run(status) => code_of(status),
        Ended::Audit(status) => audit_code_of(status),
    }
}

// The exit code of the status of a run.
fn code_of(status: Status) -> u8
    ensures { result ≡ exit_code status }
{
    match status {
        Status::Done => 0,
        Status::BadScript { .. } => 1,
        Status::BadWords => 2,
        Status::ScriptUnread => 3,
        Status::SinkFault => 4,
        Status::NoMemory => 5,
    }
}

// The exit code of the status of an audit: that of a run that ended so, or its own.
fn audit_code_of(status: AuditStatus) -> u8
    ensures { result ≡ audit_exit_code status }
{
    match status {
        AuditStatus::Done => code_of(Status::Done),
        AuditStatus::BadScript { line } => code_of(Status::BadScript { line }),
        AuditStatus::BadWords => code_of(Status::BadWords),
        AuditStatus::ScriptUnread => code_of(Status::ScriptUnread),
        AuditStatus::SinkFault => code_of(Status::SinkFault),
        AuditStatus::NoMemory => code_of(Status::NoMemory),
        AuditStatus::FolderUnread => 6,
    }
}

// Prints the line of a status other than done. A line that can't be printed is let go.
fn complain(rt: &impl Eprint, ended: Ended) {
    match ended {
        Ended::Run(Status::Done) | Ended::Audit(AuditStatus::Done) => {}
        Ended::Run(status) => {
            let _ = eprintln!(rt; "gobase: {status}");
        }
        Ended::Audit(status) => {
            let _ = eprintln!(rt; "gobase: {status}");
        }
    }
}

// The words of the command line without the program's name. Words that are no text are not lawful.
fn words_of(rt: &HostRuntime) -> Result<Vec<String>, Status> {
    let words = env::args(rt).map_err(|error| match error.kind() {
        ErrorKind::OutOfMemory => Status::NoMemory,
        _ => Status::BadWords,
    })?;
    words
        .skip(1)
        .collect(rt.alloc())
        .map_err(|_| Status::NoMemory)
}

// Runs the script of standard input over the folders where the program was started, with its five
// collectors, or audits a record by it, as the words ask, and tells how that ended.
fn perform(
    host: HostRuntime,
    threads: &(impl Threads + Wait + Clone + Drop + Send + Sync + 'static),
    words: &[String],
) -> Result<Ended, NoMemory> {
    let alloc = host.alloc();
    let mut boxes: Vec<Box<dyn Collector>> = Vec::new(alloc);
    for (name, kind) in COLLECTORS {
        let counter = Counter::new(String::from_str(alloc, name)?, kind)?;
        boxes.push(Box::new(alloc, counter)?)?;
    }
    let folder = RealFolder::new(host);
    let mut script = RealSource::new(host.stdin());
    let mut out = RealSink::new(host.stdout());
    if let (Task::Audit, [_, others @ ..]) = (task(words), words) {
        let (status, _folder) = audit(threads, alloc, others, folder, &mut script, &mut out, boxes);
        return Ok(Ended::Audit(status));
    }
    let base = Base::open(threads, alloc)?;
    let (status, _folder, publisher) = run(
        threads,
        alloc,
        words,
        folder,
        &mut script,
        &mut out,
        OpenGate,
        boxes,
        base,
    );
    if let Some(publisher) = publisher {
        publisher.close(threads);
    }
    Ok(Ended::Run(status))
}

fn main(rt: HostRuntime) -> ExitCode {
    let ended = match words_of(&rt) {
        Err(status) => Ended::Run(status),
        Ok(words) => perform(rt, &rt, &words).unwrap_or(Ended::Run(Status::NoMemory)),
    };
    complain(&rt, ended);
    ExitCode::from(ended_code_of(ended))
}
