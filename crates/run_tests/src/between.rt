// Searches that are answered between two versions of one import, and audits of what is written.
ghost use Rattle.std.specs.Prelude.{Some};
ghost use Rattle.kb_edges.specs.Memory.{sink_faults, sink_written};

use crate::files::{entries_of, folder_of, words_in};
use hit_collectors::{Collector, Counter, Kind};
use kb_edges::{FileEntry, Gate, MemoryFolder, MemorySink, MemorySource, Sink, SinkError};
use run_audit::{AuditStatus, audit};
use search_run::{Base, Status, run};
use std::alloc::Global;
use std::process::Abort;
use std::sync::atomic::{AtomicBool, Ordering};
use std::sync::{Arc, Wait};
use std::test::Fail;
use std::thread;
use std::thread::Threads;

// How often the gate looks whether the line was taken.
const TURNS: u32 = 1_000_000_000;

// What the sink tells the gate, and the gate the test.
#[derive(Drop)]
struct Signals {
    taken: AtomicBool,
    given_up: AtomicBool,
}

// A sink in memory that tells when a line was taken, which begins a text.
#[derive(Drop)]
struct WatchedSink {
    inner: MemorySink,
    line: &'static [u8],
    signals: Arc<Signals>,
}

impl Sink for WatchedSink {
    ghost written = { λ sink. Some (sink_written sink.inner) };

    ghost faults = { λ sink. sink_faults sink.inner };

    fn write(&mut self, bytes: &[u8]) -> Result<usize, SinkError> {
        let count = self.inner.write(bytes)?;
        if bytes.starts_with(self.line) {
            self.signals.taken.store(true, Ordering::SeqCst);
        }
        Ok(count)
    }
}

// Holds the version with this number until the line was taken.
#[derive(Drop)]
struct HoldsOne {
    number: u64,
    signals: Arc<Signals>,
}

impl Gate for HoldsOne {
    fn hold(&self, number: u64) {
        if number != self.number {
            return;
        }
        for _ in 0..TURNS {
            if self.signals.taken.load(Ordering::SeqCst) {
                return;
            }
            thread::yield_now();
        }
        self.signals.given_up.store(true, Ordering::SeqCst);
    }
}

// A script over so many files that make one version each, of which the one with number `held` is
// published once the line was taken; and what it writes.
#[derive(Clone, Copy)]
struct Beside<'a> {
    files: u32,
    held: u64,
    script: &'a str,
    line: &'static [u8],
    written: &'a str,
}

// Runs the script with these boxes, and answers what it wrote.
fn search_beside<R: Threads + Wait + Abort + Clone + Drop + Send + Sync + 'static>(
    rt: &R,
    alloc: Global,
    boxes: Vec<Box<dyn Collector>>,
    beside: &Beside<'_>,
) -> Result<Vec<u8>, Fail> {
    let signals = Arc::new(
        alloc,
        Signals {
            taken: AtomicBool::new(false),
            given_up: AtomicBool::new(false),
        },
    )?;
    let folder = folder_of(alloc, beside.files)?;
    let script = beside.script.as_bytes().to_vec(alloc)?;
    let mut source = MemorySource::new(script, Vec::new(alloc));
    let mut sink = WatchedSink {
        inner: MemorySink::new(Vec::new(alloc), Vec::new(alloc)),
        line: beside.line,
        signals: Arc::try_clone(&signals)?,
    };
    let gate = HoldsOne {
        number: beside.held,
        signals: Arc::try_clone(&signals)?,
    };
    let words = words_in(alloc, "--batch 1")?;
    let base = Base::open(rt, alloc)?;
    let (status, _folder, publisher) = run(
        rt,
        alloc,
        &words,
        folder,
        &mut source,
        &mut sink,
        gate,
        boxes,
        base,
    );
    if let Some(publisher) = publisher {
        publisher.close(rt);
    }
    assert_eq!(rt; status, Status::Done);
    assert!(rt;
        !signals.given_up.load(Ordering::SeqCst),
        "the gate gave up"
    );
    assert_eq!(rt; sink.inner.written(), beside.written.as_bytes());
    Ok(sink.inner.written().to_vec(alloc)?)
}

// What an audit says of a record of the script, where these boxes are those that its run had at the start.
fn said_of<R: Threads + Abort + Sync>(
    rt: &R,
    alloc: Global,
    boxes: Vec<Box<dyn Collector>>,
    beside: &Beside<'_>,
    record: Vec<u8>,
) -> Result<Vec<u8>, Fail> {
    let mut files = entries_of(alloc, beside.files)?;
    files.push(FileEntry {
        path: String::from_str(alloc, "r")?,
        name: String::from_str(alloc, "record")?,
        bytes: record,
    })?;
    let folder = MemoryFolder::new(files, Vec::new(alloc));
    let script = beside.script.as_bytes().to_vec(alloc)?;
    let mut source = MemorySource::new(script, Vec::new(alloc));
    let mut sink = MemorySink::new(Vec::new(alloc), Vec::new(alloc));
    let words = words_in(alloc, "r --batch 1")?;
    let (status, _folder) = audit(rt, alloc, &words, folder, &mut source, &mut sink, boxes);
    assert_eq!(rt; status, AuditStatus::Done);
    Ok(sink.written().to_vec(alloc)?)
}

// Runs the script with these boxes, and audits what it wrote with equal ones: it is lawful.
fn search_and_audit<R: Threads + Wait + Abort + Clone + Drop + Send + Sync + 'static>(
    rt: &R,
    alloc: Global,
    boxes: Vec<Box<dyn Collector>>,
    equal: Vec<Box<dyn Collector>>,
    beside: &Beside<'_>,
) -> Result<(), Fail> {
    let record = search_beside(rt, alloc, boxes, beside)?;
    let said = said_of(rt, alloc, equal, beside, record)?;
    assert_eq!(rt; said.as_slice(), b"audit lawful\n".as_slice());
    Ok(())
}

// A search beside two that are watched, one of which goes on with the import, and a block, each of whose
// searches has a searcher of its own. What is written is audited.
#[test]
fn statements_between_publishings(rt: HostRuntime) -> Result<(), Fail> {
    let alloc = rt.alloc();
    let search = Beside {
        files: 2,
        held: 2,
        script: "watch w same X\nimport d\nuntil 1\nwatched w\nsearch same X\nwatch v same X\n\
             wait\nwatched w\nwatched v\n",
        line: b"6 watch v version 1 hits 2\n",
        written: "1 watch w version 0 hits 0\n\
             2 import d\n\
             3 until 1 version 1\n\
             4 watched w version 1 games 1 hits 2\n\
             hit 0 1 2 2 0 -\n\
             hit 0 3 2 1 0 -\n\
             total 2 0 0 0 0 2\n\
             5 search version 1 games 1 hits 2\n\
             hit 0 1 2 2 0 -\n\
             hit 0 3 2 1 0 -\n\
             total 2 0 0 0 0 2\n\
             6 watch v version 1 hits 2\n\
             2 imported files 2 accepted 2 refused 0 full 0 unread 0 games 2 version 2\n\
             7 wait version 2\n\
             8 watched w version 2 games 2 hits 4\n\
             hit 0 1 2 2 0 -\n\
             hit 0 3 2 1 0 -\n\
             hit 1 1 2 2 0 -\n\
             hit 1 3 2 1 0 -\n\
             total 4 0 0 0 0 4\n\
             9 watched v version 2 games 2 hits 4\n\
             hit 0 1 2 2 0 -\n\
             hit 0 3 2 1 0 -\n\
             hit 1 1 2 2 0 -\n\
             hit 1 3 2 1 0 -\n\
             total 4 0 0 0 0 4\n",
    };
    search_and_audit(&rt, alloc, Vec::new(alloc), Vec::new(alloc), &search)?;
    let block = Beside {
        files: 2,
        held: 2,
        script: "import d\nuntil 1\ntogether\nsearch same X\nsearch same O\nend\nwait\n",
        line: b"4 search version 1 games 1 hits 2\n",
        written: "1 import d\n\
             2 until 1 version 1\n\
             4 search version 1 games 1 hits 2\n\
             hit 0 1 2 2 0 -\n\
             hit 0 3 2 1 0 -\n\
             total 2 0 0 0 0 2\n\
             5 search version 1 games 1 hits 1\n\
             hit 0 2 1 2 0 -\n\
             total 1 0 0 0 0 1\n\
             1 imported files 2 accepted 2 refused 0 full 0 unread 0 games 2 version 2\n\
             7 wait version 2\n",
    };
    search_and_audit(&rt, alloc, Vec::new(alloc), Vec::new(alloc), &block)
}

// Appends the hits of a game, by the node, the place and the label of each.
fn append_hits(alloc: Global, text: &mut String, game: u32, hits: &[&str]) -> Result<(), Fail> {
    for hit in hits {
        text.push_str(&format!(in alloc; "hit {game} {hit} -\n")?)?;
    }
    Ok(())
}

// Appends the text of a watched search in a version of 200 games that all have these hits: what its
// head begins with, how many hits there are, and the hits.
fn append_watched(
    alloc: Global,
    text: &mut String,
    head: &str,
    count: u32,
    hits: &[&str],
) -> Result<(), Fail> {
    text.push_str(&format!(in alloc; "{head} version 200 games 200 hits {count}\n")?)?;
    for game in 0..200 {
        append_hits(alloc, text, game, hits)?;
    }
    text.push_str(&format!(in alloc; "total {count} 0 0 0 0 {count}\n")?)?;
    Ok(())
}

// Three searches that are watched between two of the 200 versions of an import, and told at its end.
const WATCH: &str = "import d\nuntil 100\n\
    watch black same X\nwatch white same O\nwatch pair same fixed OX\n\
    wait\nwatched black\nwatched white\nwatched pair\nreport\n";

const WATCH_BEGUN: &str = "1 import d\n\
    2 until 100 version 100\n\
    3 watch black version 100 hits 200\n\
    4 watch white version 100 hits 100\n\
    5 watch pair version 100 hits 100\n\
    1 imported files 200 accepted 200 refused 0 full 0 unread 0 games 200 version 200\n\
    6 wait version 200\n";

// A collector `all` that counts hits, and no other.
fn one_counter(alloc: Global) -> Result<Vec<Box<dyn Collector>>, Fail> {
    let counter = Counter::new(String::from_str(alloc, "all")?, Kind::Total)?;
    let mut boxes: Vec<Box<dyn Collector>> = Vec::new(alloc);
    boxes.push(Box::new(alloc, counter)?)?;
    Ok(boxes)
}

// Each has all hits of the last version, and each hit was counted once. What is written is audited.
#[test]
fn watched_searches_beside_an_import(rt: HostRuntime) -> Result<(), Fail> {
    let alloc = rt.alloc();
    let mut written = String::from_str(alloc, WATCH_BEGUN)?;
    let black = ["1 2 2 0", "3 2 1 0"];
    append_watched(alloc, &mut written, "7 watched black", 400, &black)?;
    append_watched(alloc, &mut written, "8 watched white", 200, &["2 1 2 0"])?;
    append_watched(alloc, &mut written, "9 watched pair", 200, &["2 1 2 0"])?;
    written.push_str("10 report collectors 1\ncollector all total 800\n")?;
    let watched = Beside {
        files: 200,
        held: 101,
        script: WATCH,
        line: b"5 watch pair version 100 hits 100\n",
        written: &written,
    };
    search_and_audit(
        &rt,
        alloc,
        one_counter(alloc)?,
        one_counter(alloc)?,
        &watched,
    )
}
