// Collectors of the tests' own: one whose hits others can look at, and one that has no room for a hit,
// in both runs. The expected texts were worked out by hand.
use crate::files::{folder_of, words_in};
use hit_collectors::{Collector, Counter, Kind};
use kb_edges::{MemorySink, MemorySource, OpenGate};
use kb_geometry::NoMemory;
use pattern_images::Hit;
use search_run::{Base, Status, run};
use std::alloc::Global;
use std::cell::Cell;
use std::process::Abort;
use std::rc::Rc;
use std::sync::Wait;
use std::test::Fail;
use std::thread::Threads;

// A collector that also counts its hits in a place of its own, which others may look at, and has room
// for so many.
#[derive(Drop)]
struct Shown {
    counter: Counter,
    taken: Rc<Cell<u64>>,
    room: u64,
}

impl Collector for Shown {
    ghost tally = { λ it. ⟦<Counter as Collector>⟧.tally it.counter };

    fn name(&self) -> &str {
        self.counter.name()
    }

    fn kind(&self) -> Kind {
        self.counter.kind()
    }

    fn take(&mut self, hit: &Hit) -> Result<(), NoMemory> {
        if self.taken.get() >= self.room {
            return Err(NoMemory);
        }
        self.counter.take(hit)?;
        self.taken.set(self.taken.get().saturating_add(1));
        Ok(())
    }

    fn report(&self, out: &mut Vec<u8>) -> Result<(), NoMemory> {
        self.counter.report(out)
    }
}

// Three boxes, of which the second is shown and has so much room. It counts what it takes in `taken`.
pub(crate) fn three_boxes(
    alloc: Global,
    taken: &Rc<Cell<u64>>,
    room: u64,
) -> Result<Vec<Box<dyn Collector>>, Fail> {
    let shown = Shown {
        counter: Counter::new(String::from_str(alloc, "shown")?, Kind::Nexts)?,
        taken: taken.clone()?,
        room,
    };
    let all = Counter::new(String::from_str(alloc, "all")?, Kind::Total)?;
    let labels = Counter::new(String::from_str(alloc, "shown")?, Kind::Labels)?;
    let mut boxes: Vec<Box<dyn Collector>> = Vec::new(alloc);
    boxes.push(Box::new(alloc, all)?)?;
    boxes.push(Box::new(alloc, shown)?)?;
    boxes.push(Box::new(alloc, labels)?)?;
    Ok(boxes)
}

// A run over one game with three boxes, of which the second is shown and has so much room: its status,
// what it wrote, and how many hits the second box took.
fn run_boxes<R: Threads + Wait + Abort + Clone + Drop + Send + Sync + 'static>(
    rt: &R,
    alloc: Global,
    words: &str,
    script: &str,
    room: u64,
) -> Result<(Status, Vec<u8>, u64), Fail> {
    let taken = Rc::new(alloc, Cell::new(0))?;
    let boxes = three_boxes(alloc, &taken, room)?;
    let mut source = MemorySource::new(script.as_bytes().to_vec(alloc)?, Vec::new(alloc));
    let mut sink = MemorySink::new(Vec::new(alloc), Vec::new(alloc));
    let words = words_in(alloc, words)?;
    let folder = folder_of(alloc, 1)?;
    let base = Base::open(rt, alloc)?;
    let (status, _folder, publisher) = run(
        rt,
        alloc,
        &words,
        folder,
        &mut source,
        &mut sink,
        OpenGate,
        boxes,
        base,
    );
    if let Some(publisher) = publisher {
        publisher.close(rt);
    }
    Ok((status, sink.written().to_vec(alloc)?, taken.get()))
}

const BEFORE_THE_REPORT: &str = "1 import d
1 imported files 1 accepted 1 refused 0 full 0 unread 0 games 1 version 1
2 wait version 1
";

const RETIRED: &str = "1 import d
1 imported files 1 accepted 1 refused 0 full 0 unread 0 games 1 version 1
2 wait version 1
3 search version 1 games 1 hits 3
hit 0 1 2 2 0 -
hit 0 2 1 2 8 -
hit 0 3 2 1 0 -
total 3 0 0 0 0 3
5 search version 1 games 1 hits 2
hit 0 1 2 2 0 -
hit 0 3 2 1 0 -
total 2 0 0 0 0 2
6 search version 1 games 1 hits 1
hit 0 2 1 2 0 -
total 1 0 0 0 0 1
8 report collectors 3
collector all total 6
collector shown nexts 0 0 6
collector shown labels 5 0 0 0 0 0 0 0 1 0 0 0 0 0 0 0
9 retire shown
10 search version 1 games 1 hits 1
hit 0 2 1 2 0 -
total 1 0 0 0 0 1
11 report collectors 2
collector all total 7
collector shown labels 6 0 0 0 0 0 0 0 1 0 0 0 0 0 0 0
";

const UNTIL_ONE: &str = "1 import d
2 until 1 version 1
";

// A script in which a collector is fed by searches and a block, and retired.
const FED: &str = "import d\nwait\nsearch X\ntogether\nsearch same X\nsearch same O\nend\nreport\n\
    retire shown\nsearch same fixed O\nreport\n";

const AMID_AN_IMPORT: &str = "import d\nuntil 1\nsearch X\n";

// Hits of searches and of a block are fed to a collector until it is retired; where it has no room for
// a hit, the text of the search isn't written. Each with the words, the script, the room, how the run
// ends, what it writes and how many hits the collector took.
#[test]
fn collectors_are_fed_refuse_and_are_retired(rt: HostRuntime) -> Result<(), Fail> {
    let alloc = rt.alloc();
    let no_room = Status::NoMemory;
    let cases = [
        ("--batch 1", FED, 9, Status::Done, RETIRED, 6),
        ("--batch 1 --serial", FED, 9, Status::Done, RETIRED, 6),
        ("--batch 1", FED, 0, no_room, BEFORE_THE_REPORT, 0),
        ("--batch 1 --serial", FED, 0, no_room, BEFORE_THE_REPORT, 0),
        ("--batch 1", FED, 2, no_room, BEFORE_THE_REPORT, 2),
        ("--batch 1", AMID_AN_IMPORT, 0, no_room, UNTIL_ONE, 0),
    ];
    for (words, script, room, status, written, fed) in cases {
        let (ended, text, taken) = run_boxes(&rt, alloc, words, script, room)?;
        assert_eq!(rt; ended, status, "{words}");
        assert_eq!(rt; text.as_slice(), written.as_bytes(), "{words}");
        assert_eq!(rt; taken, fed, "{words}");
    }
    Ok(())
}
