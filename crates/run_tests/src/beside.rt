// Runs whose imports go on beside the statements. The expected texts were worked out by hand from the
// rules on the numbers that statements may name.
use crate::files::{entries_of, words_in};
use hit_collectors::Collector;
use kb_edges::{MemoryFolder, MemorySink, MemorySource, OpenGate};
use search_run::{Base, Status, run};
use std::alloc::Global;
use std::process::Abort;
use std::sync::Wait;
use std::test::Fail;
use std::thread::Threads;

// The calls that fail, numbered from 0. The first call of a folder is the list of an import, then
// come its reads.
#[derive(Clone, Copy)]
struct Faults<'a> {
    folder: &'a [u32],
    source: &'a [u32],
    sink: &'a [u32],
}

const NO_FAULTS: Faults<'static> = Faults {
    folder: &[],
    source: &[],
    sink: &[],
};

// How a run ended: its status, what was written, and the number of the publisher that came back.
type Ended = (Status, Vec<u8>, u64);

// A run with a base over so many files.
fn run_base<R: Threads + Wait + Abort + Clone + Drop + Send + Sync + 'static>(
    rt: &R,
    alloc: Global,
    words: &str,
    files: u32,
    script: &str,
    faults: Faults<'_>,
) -> Result<Ended, Fail> {
    let words = words_in(alloc, words)?;
    let folder = failing_folder(alloc, files, faults.folder)?;
    let script = script.as_bytes().to_vec(alloc)?;
    let mut source = MemorySource::new(script, faults.source.to_vec(alloc)?);
    let mut sink = MemorySink::new(Vec::new(alloc), faults.sink.to_vec(alloc)?);
    let boxes: Vec<Box<dyn Collector>> = Vec::new(alloc);
    let base = Base::open(rt, alloc)?;
    let (status, _folder, publisher) = run(
        rt,
        alloc,
        &words,
        folder,
        &mut source,
        &mut sink,
        OpenGate,
        boxes,
        base,
    );
    let number = match publisher {
        Some(publisher) => {
            let number = publisher.number();
            publisher.close(rt);
            number
        }
        None => panic!(rt; "no publisher came back"),
    };
    Ok((status, sink.written().to_vec(alloc)?, number))
}

// A folder of so many files, whose calls with these numbers fail.
fn failing_folder(alloc: Global, files: u32, fails: &[u32]) -> Result<MemoryFolder, Fail> {
    let files = entries_of(alloc, files)?;
    Ok(MemoryFolder::new(files, fails.to_vec(alloc)?))
}

fn expect_end(rt: &impl Abort, ended: &Ended, status: Status, written: &str, number: u64) {
    assert_eq!(rt; ended.0, status, "{written}");
    assert_eq!(rt; ended.1.as_slice(), written.as_bytes());
    assert_eq!(rt; ended.2, number, "{written}");
}

// Each script over its files, with what is written and the number of the publisher that comes back.
#[test]
fn outputs_that_no_order_of_the_threads_changes(rt: HostRuntime) -> Result<(), Fail> {
    let alloc = rt.alloc();
    let cases = [
        (
            "--batch 1",
            "import d\nwait\nsearch same fixed X\n",
            "1 import d\n\
             1 imported files 1 accepted 1 refused 0 full 0 unread 0 games 1 version 1\n\
             2 wait version 1\n\
             3 search version 1 games 1 hits 2\n\
             hit 0 1 2 2 0 -\n\
             hit 0 3 2 1 0 -\n\
             total 2 0 0 0 0 2\n",
            1,
        ),
        // A block over the last version.
        (
            "--batch 1",
            "import d\nwait\ntogether\nsearch same X\nsearch same O\nend\n",
            "1 import d\n\
             1 imported files 1 accepted 1 refused 0 full 0 unread 0 games 1 version 1\n\
             2 wait version 1\n\
             4 search version 1 games 1 hits 2\n\
             hit 0 1 2 2 0 -\n\
             hit 0 3 2 1 0 -\n\
             total 2 0 0 0 0 2\n\
             5 search version 1 games 1 hits 1\n\
             hit 0 2 1 2 0 -\n\
             total 1 0 0 0 0 1\n",
            1,
        ),
        // A version that never comes.
        (
            "--batch 2",
            "import d\nuntil 9\nuntil 9\n",
            "1 import d\n\
             2 until 9 version 1\n\
             3 until 9 version 1\n\
             1 imported files 1 accepted 1 refused 0 full 0 unread 0 games 1 version 1\n",
            1,
        ),
        ("--batch 1", "until 3\n", "1 until 3 version 0\n", 0),
        ("--batch 1", "", "", 0),
        // The second import joins the first, and the end of the script joins the second.
        (
            "--batch 1",
            "import d\nimport e\nwait\nimport d\n",
            "1 import d\n\
             1 imported files 1 accepted 1 refused 0 full 0 unread 0 games 1 version 1\n\
             2 import e\n\
             2 imported unlisted\n\
             3 wait version 1\n\
             4 import d\n\
             4 imported files 1 accepted 1 refused 0 full 0 unread 0 games 1 version 2\n",
            2,
        ),
        // One after another, by the words: the publisher comes back as it was.
        (
            "--serial",
            "import d\nsearch same fixed X\nwait\n",
            "1 import d\n\
             2 search version 1 games 1 hits 2\n\
             hit 0 1 2 2 0 -\n\
             hit 0 3 2 1 0 -\n\
             total 2 0 0 0 0 2\n\
             1 imported files 1 accepted 1 refused 0 full 0 unread 0 games 1 version 1\n\
             3 wait version 1\n",
            0,
        ),
    ];
    for (words, script, written, last) in cases {
        let ended = run_base(&rt, alloc, words, 1, script, NO_FAULTS)?;
        expect_end(&rt, &ended, Status::Done, written, last);
    }
    Ok(())
}

// Each with the words, the calls that fail, how the run ends, what it writes and the publisher's number:
// faults of the folder, runs that end before their first statement, faults of the source and the sink.
#[test]
fn faults_beside_an_import_and_runs_that_end_early(rt: HostRuntime) -> Result<(), Fail> {
    let alloc = rt.alloc();
    let script = "import d\nwait\nsearch same fixed X\n";
    let bad = "import d\nserch X\n";
    let unlisted = "1 import d\n\
         1 imported unlisted\n\
         2 wait version 0\n\
         3 search version 0 games 0 hits 0\n\
         total 0 0 0 0 0 0\n";
    let imported = "1 import d\n\
         1 imported files 3 accepted 3 refused 0 full 0 unread 0 games 3 version 2\n\
         2 wait version 2\n";
    let two_of_three = "1 import d\n\
         1 imported files 3 accepted 2 refused 0 full 0 unread 1 games 2 version 3\n\
         unread 1.sgf\n\
         2 wait version 3\n";
    let no: &[u32] = &[];
    let first: &[u32] = &[0];
    let cases: [(&str, &str, Faults<'_>, Status, &str, u64); 11] = [
        (
            "--batch 1",
            script,
            faults_of(first, no, no),
            Status::Done,
            unlisted,
            0,
        ),
        (
            "--batch 1",
            "import d\nwait\n",
            faults_of(&[2], no, no),
            Status::Done,
            two_of_three,
            3,
        ),
        ("--batch 0", script, NO_FAULTS, Status::BadWords, "", 0),
        (
            "--batch 5 --batch=6",
            script,
            NO_FAULTS,
            Status::BadWords,
            "",
            0,
        ),
        ("--", script, NO_FAULTS, Status::BadWords, "", 0),
        ("--help", script, NO_FAULTS, Status::BadWords, "", 0),
        (
            "--batch 1",
            bad,
            NO_FAULTS,
            Status::BadScript { line: 2 },
            "",
            0,
        ),
        (
            "--batch 2",
            script,
            faults_of(no, first, no),
            Status::ScriptUnread,
            "",
            0,
        ),
        (
            "--batch 2",
            script,
            faults_of(no, no, first),
            Status::SinkFault,
            "",
            0,
        ),
        (
            "--batch 2",
            script,
            faults_of(no, no, &[1]),
            Status::SinkFault,
            "1 import d\n",
            2,
        ),
        (
            "--batch 2",
            script,
            faults_of(no, no, &[2]),
            Status::SinkFault,
            imported,
            2,
        ),
    ];
    for (words, script, faults, status, written, number) in cases {
        let ended = run_base(&rt, alloc, words, 3, script, faults)?;
        expect_end(&rt, &ended, status, written, number);
    }
    Ok(())
}

const fn faults_of<'a>(folder: &'a [u32], source: &'a [u32], sink: &'a [u32]) -> Faults<'a> {
    Faults {
        folder,
        source,
        sink,
    }
}

// A script whose imports are joined at once, and what each write hands to the sink.
const JOINED: &str = "import d\nwait\ntogether\nsearch same X\nsearch same O\nend\nimport d\n";

const JOINED_TEXTS: [&str; 5] = [
    "1 import d\n",
    "1 imported files 1 accepted 1 refused 0 full 0 unread 0 games 1 version 1\n\
     2 wait version 1\n",
    "4 search version 1 games 1 hits 2\n\
     hit 0 1 2 2 0 -\n\
     hit 0 3 2 1 0 -\n\
     total 2 0 0 0 0 2\n\
     5 search version 1 games 1 hits 1\n\
     hit 0 2 1 2 0 -\n\
     total 1 0 0 0 0 1\n",
    "7 import d\n",
    "7 imported files 1 accepted 1 refused 0 full 0 unread 0 games 1 version 2\n",
];

// One whose statements are answered while its import may be under way, from the one version that it
// makes.
const BESIDE: &str = "import d\nuntil 1\nsearch same X\n";

const BESIDE_TEXTS: [&str; 4] = [
    "1 import d\n",
    "2 until 1 version 1\n",
    "3 search version 1 games 1 hits 2\n\
     hit 0 1 2 2 0 -\n\
     hit 0 3 2 1 0 -\n\
     total 2 0 0 0 0 2\n",
    "1 imported files 1 accepted 1 refused 0 full 0 unread 0 games 1 version 1\n",
];

// Each write fails in turn, and then none: what came before is written, and the publisher that comes
// back has what was imported.
#[test]
fn the_sink_fails_at_each_write(rt: HostRuntime) -> Result<(), Fail> {
    let alloc = rt.alloc();
    let cases: [(&str, &str, &[&str], &[u64]); 3] = [
        ("--batch 1", JOINED, &JOINED_TEXTS, &[0, 1, 1, 1, 2, 2]),
        (
            "--batch 1 --serial",
            JOINED,
            &JOINED_TEXTS,
            &[0, 0, 0, 0, 0, 0],
        ),
        ("--batch 1", BESIDE, &BESIDE_TEXTS, &[0, 1, 1, 1, 1]),
    ];
    for (words, script, texts, numbers) in cases {
        for (call, last) in numbers.iter().enumerate() {
            let sink = [call as u32];
            let faults = Faults {
                sink: &sink,
                ..NO_FAULTS
            };
            let ended = run_base(&rt, alloc, words, 1, script, faults)?;
            let status = if call < texts.len() {
                Status::SinkFault
            } else {
                Status::Done
            };
            let mut written = String::new(alloc);
            for text in texts.iter().take(call) {
                written.push_str(text)?;
            }
            expect_end(&rt, &ended, status, written.as_str(), *last);
        }
    }
    Ok(())
}

// A script over 2,000 made games: the whole board, one point at each move, the players, the openings
// without a move, and one point at the first move.
fn script(alloc: Global) -> Result<String, Fail> {
    let mut script = String::new(alloc);
    script.push_str("make 2000 1\nwait\nkept same fixed *******************")?;
    for _ in 0..18 {
        script.push_str("/*******************")?;
    }
    script.push_str(
        "\nsearch same fixed moves 1 65536 *\nplayers\nopening 19 19 0 2001\nopening 19 19 0 2000\n",
    )?;
    script.push_str("search same fixed moves 1 1 at 2 4 X\n")?;
    Ok(script)
}

#[test]
fn made_games_with_both_forms_of_a_run(rt: HostRuntime) -> Result<(), Fail> {
    let alloc = rt.alloc();
    let script = script(alloc)?;
    let (done, beside, number) = run_base(&rt, alloc, "--batch 64", 0, &script, NO_FAULTS)?;
    assert!(rt; number == 32);
    assert!(rt;
        beside.starts_with(
            b"1 make 2000 1\n\
              1 made games 2000 full 0 version 32\n\
              2 wait version 32\n\
              3 kept version 32 games 2000 kept 2000\n\
              4 search version 32 games 2000 hits 0\n\
              total 0 0 0 0 0 0\n\
              5 players version 32 games 2000 names 0\n\
              6 opening version 32 games 2000 positions 0\n\
              7 opening version 32 games 2000 positions 1\n\
              position 2000 1000 1000 0 0 0\n\
              next B "
        )
    );
    let (also_done, serial, _) = run_base(&rt, alloc, "--serial", 0, &script, NO_FAULTS)?;
    assert!(rt; done == Status::Done && also_done == Status::Done);
    assert!(rt; beside == serial);
    Ok(())
}
