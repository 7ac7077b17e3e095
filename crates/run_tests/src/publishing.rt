// A publisher beside searchers that look all the time.
ghost use Rattle.std.specs.Prelude.{◌≡◌, ◌+◌, ◌≤◌, ◌<◌, ◌^◌, ◌++◌, ◌∷◌, [], length, IfOk};
ghost use Rattle.std.specs.Bool.{OnTrue};
ghost use Rattle.std.specs.Arc.{arc_value};
ghost use Rattle.version_publisher.specs.Contents.{items_in};

use std::alloc::{AllocError, Global};
use std::process::Abort;
use std::sync::{Arc, Wait};
use std::test::Fail;
use std::thread;
use std::thread::Threads;
use version_publisher::{Part, Publisher, Searcher, open};

#[derive(Drop)]
struct Numbers {
    all: Vec<u64>,
    ghost few: { length all.items ≤ 1000 },
}

impl Part for Numbers {
    ghost use Rattle.std.specs.Prelude.{length};

    type Item = u64;

    ghost items = { λ n. n.all.items };

    ghost MOST = { 1000 };

    const MOST: u32 = 1000;

    fn count(&self) -> u32 {
        self.all.len() as u32
    }
}

fn part_of(alloc: Global, numbers: &[u64]) -> Result<Arc<Numbers>, AllocError>
    requires { length numbers.now ≤ 1000 }
    ensures { IfOk result (λ part. (arc_value part).all.items ≡ numbers.now) }
{
    let mut all = Vec::new(alloc);
    all.extend_from_slice(numbers)?;
    Ok(Arc::new(alloc, Numbers { all })?)
}

// What a thousand looks came to.
#[derive(Clone, Copy, Debug, PartialEq, Eq)]
struct Looks {
    // whose number was below the one before
    fallen: u64,
    // that found a part of a publish alone: each publish is of two parts
    halves: u64,
    // that gave no version
    refused: u64,
}

fn look_often(alloc: Global, searcher: Searcher<Numbers>) -> Looks {
    let mut searcher = searcher;
    let (mut fallen, mut halves, mut refused) = (0u64, 0u64, 0u64);
    let mut last = 0u64;
    for _ in 0..1000u32 {
        match searcher.look(alloc) {
            Ok(version) => {
                if version.number() < last {
                    fallen = fallen.saturating_add(1);
                }
                last = version.number();
                halves = halves.saturating_add(last % 2);
            }
            Err(_) => refused = refused.saturating_add(1),
        }
    }
    Looks {
        fallen,
        halves,
        refused,
    }
}

// Appends a copy of a part.
fn append_copy(publisher: &mut Publisher<Numbers>, part: &Arc<Numbers>) -> bool
    requires room { length (items_in (publisher.old.log
        ++ publisher.old.pending)) + length (arc_value part.now).all.items ≤ 1000 }
    requires number { length (publisher.old.log ++ publisher.old.pending) + 1 < 2 ^ 64 }
    ensures same { publisher.new.opening ≡ publisher.old.opening }
    ensures log { OnTrue result (publisher.new.log ++ publisher.new.pending
        ≡ (publisher.old.log ++ publisher.old.pending) ++ (arc_value part.now).all.items ∷ []) }
{
    let Ok(part) = Arc::try_clone(part) else {
        return false;
    };
    publisher.append(part).is_ok()
}

// Publishes what is pending where that makes an even number of parts, and a searcher that learns of
// it looks. Answers whether all went well and the look found exactly that number.
fn publish_even<R: Wait>(
    rt: &R,
    alloc: Global,
    publisher: &mut Publisher<Numbers>,
    searcher: &mut Searcher<Numbers>,
    number: u32,
) -> bool
    requires opening { searcher.old.opening ≡ publisher.old.opening }
    ensures same { (publisher.new.opening ≡ publisher.old.opening)
        × (searcher.new.opening ≡ searcher.old.opening) }
    ensures log { publisher.new.log ++ publisher.new.pending
        ≡ publisher.old.log ++ publisher.old.pending }
{
    if number % 2 == 1 {
        return true;
    }
    let Ok(receipt) = publisher.publish(rt) else {
        return false;
    };
    searcher.learn(receipt);
    let found = searcher.look(alloc).map(|version| version.number());
    found == Ok(u64::from(number))
}

// Appends a part of one number so many times, and publishes two at a time. Answers how often it
// went well.
fn publish_often<R: Wait>(
    rt: &R,
    alloc: Global,
    publisher: &mut Publisher<Numbers>,
    searcher: &mut Searcher<Numbers>,
    part: &Arc<Numbers>,
    times: u32,
) -> u32
    requires times { times ≤ 1000 }
    requires one { length (arc_value part.now).all.items ≡ 1 }
    requires empty { (publisher.old.log ≡ []) × (publisher.old.pending ≡ []) }
    requires opening { searcher.old.opening ≡ publisher.old.opening }
    ensures same { (publisher.new.opening ≡ publisher.old.opening)
        × (searcher.new.opening ≡ searcher.old.opening) }
{
    for i in 0..times {
        if !append_copy(publisher, part) {
            return i;
        }
        if !publish_even(rt, alloc, publisher, searcher, i + 1) {
            return i;
        }
    }
    times
}

#[test]
fn looks_never_go_back(rt: HostRuntime) -> Result<(), Fail> {
    look_while_publishing(&rt, rt.alloc())
}

fn look_while_publishing<R: Threads + Wait + Abort>(rt: &R, alloc: Global) -> Result<(), Fail> {
    let part = part_of(alloc, &[9])?;
    let (mut publisher, searchers) = open::<Numbers, R>(alloc, rt, 3)?;
    let mut searchers = searchers;
    let first = searchers.pop().unwrap();
    let second = searchers.pop().unwrap();
    let one = thread::spawn(rt, move || look_often(alloc, first));
    let other = thread::spawn(rt, move || look_often(alloc, second));
    let searcher = &mut searchers[0];
    let published = publish_often(rt, alloc, &mut publisher, searcher, &part, 900);
    let one = one.map(|thread| thread.join(rt)).ok();
    let other = other.map(|thread| thread.join(rt)).ok();
    searcher.meet(rt, &publisher);
    let whole = searcher
        .look_with(alloc, &publisher)
        .map(|version| version.number());
    publisher.close(rt);
    let wanted = Looks {
        fallen: 0,
        halves: 0,
        refused: 0,
    };
    assert_eq!(rt; (published, whole), (900, Ok(900)));
    assert_eq!(rt; (one, other), (Some(wanted), Some(wanted)));
    Ok(())
}
