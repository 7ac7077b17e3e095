// What a searcher finds between the versions of an import. The expected sizes were worked out by hand.
ghost use Rattle.std.specs.Prelude.{◌≡◌, []};
ghost use Rattle.import_segments.specs.Publishing.{IsIdle};

use crate::files::folder_of;
use import_segments::{OpenName, Receipts, publish_import};
use import_work::{Counts, Import};
use kb_edges::{Gate, MemoryFolder};
use segment_store::Segment;
use std::alloc::Global;
use std::marker::Brand;
use std::sync::{Mutex, Wait};
use std::test::Fail;
use std::thread::Threads;
use version_publisher::{Publisher, Searcher, Version, open};

// A version's number, how many parts it has, and their games as the digits of a number.
type Sizes = (u64, usize, u32);

fn sizes(version: &Version<Segment>) -> Sizes {
    let mut digits = 0u32;
    for part in version.parts() {
        digits = digits.wrapping_mul(10).wrapping_add(part.game_count());
    }
    (version.number(), version.parts().len(), digits)
}

// Publishes an import of the folder, file by file, and gives the number of the receipt of the eighth.
fn import_files<J: OpenName + Send + Sync, R: Threads + Wait + Sync, G: Gate>(
    rt: &R,
    alloc: Global,
    folder: MemoryFolder,
    publisher: &mut Publisher<Segment>,
    gate: &G,
) -> Result<Option<u64>, Fail>
    requires opening { publisher.old.opening ≡ J.opening }
    requires empty { publisher.old.log ≡ [] }
    requires idle { IsIdle publisher.old }
    ensures { publisher.new.opening ≡ publisher.old.opening }
{
    let mut folder = folder;
    let receipts = Receipts::<J>::new(publisher)?;
    let none = Counts { games: 0, nodes: 0 };
    let import = Import::open(alloc, &mut folder, "d", 1, none, 0)?;
    publish_import(
        rt,
        alloc,
        import,
        &mut folder,
        publisher,
        gate,
        &receipts,
        1,
    )?;
    let receipt = receipts.await_number(rt, 8);
    Ok(receipt.map(|receipt| receipt.number()))
}

// What a searcher saw when the gate was asked, and the numbers that it was asked with.
#[derive(Drop)]
struct Looks {
    searcher: Searcher<Segment>,
    seen: Vec<(u64, Version<Segment>)>,
}

impl Looks {
    fn look(&mut self, alloc: Global, number: u64) {
        if let Ok(version) = self.searcher.look(alloc) {
            let _kept = self.seen.push((number, version));
        }
    }
}

// A gate that looks before each version, and holds what it saw.
#[derive(Drop)]
struct LookingGate<R: Wait + Drop> {
    rt: R,
    alloc: Global,
    looks: Mutex<Looks>,
}

impl<R: Wait + Drop> Gate for LookingGate<R> {
    fn hold(&self, number: u64) {
        self.looks.lock(&self.rt).look(self.alloc, number);
    }
}

// Imports eight single games, and answers the number of the last receipt and what is held of the looks
// between their versions.
fn look_between<R: Threads + Wait + Clone + Drop + Sync>(
    rt: &R,
    alloc: Global,
) -> Result<(Option<u64>, Vec<(u64, Sizes)>), Fail> {
    let folder = folder_of(alloc, 8)?;
    let seen = Vec::with_capacity(alloc, 8)?;
    let own_rt = rt.clone()?;
    let (mut publisher, mut searchers) = open::<Segment, R>(alloc, rt, 1)?;
    let gate = LookingGate {
        rt: own_rt,
        alloc,
        looks: Mutex::new(Looks {
            searcher: searchers.remove(0),
            seen,
        }),
    };
    let imported = import_files::<Brand, R, LookingGate<R>>(
        rt,
        alloc,
        folder,
        &mut publisher,
        &gate,
    );
    publisher.close(rt);
    let receipt = imported?;
    let mut found = Vec::new(alloc);
    for (number, version) in &gate.looks.lock(rt).seen {
        found.push((*number, sizes(version)))?;
    }
    Ok((receipt, found))
}

// The gate isn't asked for a merge, and what was seen of a version stays.
#[test]
fn looks_between_versions(rt: HostRuntime) -> Result<(), Fail> {
    let (receipt, found) = look_between(&rt, rt.alloc())?;
    assert_eq!(rt; receipt, Some(8));
    let expected = [
        (1, (0, 0, 0)),
        (2, (1, 1, 1)),
        (3, (2, 1, 2)),
        (4, (3, 2, 21)),
        (5, (4, 1, 4)),
        (6, (5, 2, 41)),
        (7, (6, 2, 42)),
        (8, (7, 3, 421)),
    ];
    assert_eq!(rt; found.as_slice(), expected.as_slice());
    Ok(())
}
