// The versions of an import, published one after another.
ghost use Rattle.std.specs.Prelude.{
  ◌≡◌,
  ◌≤◌,
  ◌<◌,
  ◌+◌,
  ◌^◌,
  ◌∷◌,
  ◌++◌,
  [],
  length,
  IfOk,
  OnErr,
  OnOk,
};
ghost use Rattle.kb_edges.specs.Told.{IfTold};
ghost use Rattle.version_publisher.specs.Contents.{items_in};
ghost use Rattle.import_work.specs.Course.{trees_in};
ghost use Rattle.import_work.specs.Imports.{IsListedIn};
ghost use Rattle.import_work.specs.Outcome.{counts_of};
ghost use Rattle.import_segments.specs.Merged.{AreMerged, MergesEach};
ghost use Rattle.import_segments.specs.Publishing.{
  IsIdle,
  IsOpenedWith,
  IsLogWithinLimits,
  PublishesAll,
  PublishesFirst,
};
ghost use Rattle.import_segments.specs.Published.{HasPublished, HasPublishedAll};
ghost use Rattle.import_segments.specs.Stores.{HasFewGames};

use crate::merging::merge_parts;
use crate::receipts::{OpenName, Receipts};
use import_work::{Import, Report};
use kb_edges::{Folder, Gate};
use kb_geometry::NoMemory;
use segment_store::Segment;
use std::alloc::Global;
use std::sync::{Arc, Wait};
use std::thread::Threads;
use version_publisher::Publisher;

/// Takes the segments of an import one after another, each of so many files, and publishes each as
/// a version of its own. Before each the gate is asked, and behind each its receipt is left for the
/// searches beside it. Then the last two published parts are merged as long as the last has at
/// least as many games as the one before it. Each merge is published, under the same number, and
/// the gate isn't asked. It may wait.
///
/// The import was opened with the number and with the games and nodes of the publisher's log, at
/// which nothing may be pending, and has given no segment. The only error is `NoMemory`: then the
/// log may have grown by the first of the import's segments, and a segment or a merge may be
/// pending.
pub fn publish_import<J: OpenName + Send + Sync, R: Threads + Wait + Sync, F: Folder, G: Gate>(
    rt: &R,
    alloc: Global,
    import: Import,
    folder: &mut F,
    publisher: &mut Publisher<Segment>,
    gate: &G,
    receipts: &Receipts<J>,
    batch: u32,
) -> Result<Report, NoMemory>
    requires batch { (1 ≤ batch) × (batch ≤ 4096) }
    requires idle { IsIdle publisher.old }
    requires opening { publisher.old.opening ≡ J.opening }
    requires opened { IsOpenedWith publisher.old.log import }
    requires names { IfTold (F.files folder.old)
        (λ all. IsListedIn all import.source import.body import.left) }
    ensures first { PublishesFirst (F.files folder.old) batch import publisher.old.log
        publisher.new.log (F.faults folder.old) (F.faults folder.new) }
    ensures all { IfOk result (λ report. IsIdle publisher.new
        × PublishesAll (F.files folder.old) batch import publisher.old.log publisher.new.log report
        (F.faults folder.old) (F.faults folder.new)) }
    ensures merged { IfOk result (λ _. length publisher.old.log < length publisher.new.log →
        AreMerged publisher.new.parts) }
    ensures as_before { publisher.new.log ≡ publisher.old.log →
        publisher.new.parts ≡ publisher.old.parts }
    ensures stays_merged { IfOk result (λ _. AreMerged publisher.old.parts →
        AreMerged publisher.new.parts) }
    ensures parts { IfOk result (λ _. MergesEach publisher.old.log publisher.new.log
        publisher.old.parts publisher.new.parts) }
    ensures limits { IsLogWithinLimits publisher.old.log → IsLogWithinLimits publisher.new.log }
    ensures few { length publisher.new.log ≤ length publisher.old.log + length import.left }
    ensures opening { publisher.new.opening ≡ publisher.old.opening }
    ensures same { F.files folder.new ≡ F.files folder.old }
    ensures later { F.faults folder.old ≤ F.faults folder.new }
{
    // What this tells besides is that the log fits, so that a segment without games fits too.
    let _number = publisher.number();
    let mut import = import;
    publish_segments(
        rt,
        alloc,
        &mut import,
        folder,
        publisher,
        gate,
        receipts,
        batch,
    )?;
    Ok(import.finish())
}

// Publishes the segments of an import, until none is left, and merges parts behind each.
fn publish_segments<J: OpenName + Send + Sync, R: Threads + Wait + Sync, F: Folder, G: Gate>(
    rt: &R,
    alloc: Global,
    import: &mut Import,
    folder: &mut F,
    publisher: &mut Publisher<Segment>,
    gate: &G,
    receipts: &Receipts<J>,
    batch: u32,
) -> Result<(), NoMemory>
    requires some { 1 ≤ batch }
    requires idle { IsIdle publisher.old }
    requires opening { publisher.old.opening ≡ J.opening }
    requires number { length publisher.old.log + length import.old.left < 2 ^ 64 }
    requires counted { import.old.counts ≡ counts_of (trees_in (items_in publisher.old.log)) }
    requires few { HasFewGames import.old.counts }
    ensures published { HasPublished (F.files folder.old) batch import.old publisher.old.log
        publisher.new.log (F.faults folder.old) (F.faults folder.new) }
    ensures all { OnOk result (HasPublishedAll (F.files folder.old) batch import.old import.new
        publisher.old.log publisher.new.log (F.faults folder.old) (F.faults folder.new)) }
    ensures parts { OnOk result (MergesEach publisher.old.log publisher.new.log
        publisher.old.parts publisher.new.parts) }
    ensures as_before { publisher.new.log ≡ publisher.old.log →
        publisher.new.parts ≡ publisher.old.parts }
    ensures idle { OnOk result (IsIdle publisher.new) }
    ensures opening { publisher.new.opening ≡ publisher.old.opening }
    ensures same { F.files folder.new ≡ F.files folder.old }
    ensures later { F.faults folder.old ≤ F.faults folder.new }
{
    while let Some(segment) = import.step(rt, alloc, folder, batch)? {
        publish_segment(rt, alloc, publisher, gate, receipts, segment)?;
        merge_parts(rt, alloc, publisher)?;
    }
    Ok(())
}

// Publishes a segment as a version of its own, once the gate was asked with its number, and leaves
// its receipt.
fn publish_segment<J: OpenName, R: Wait, G: Gate>(
    rt: &R,
    alloc: Global,
    publisher: &mut Publisher<Segment>,
    gate: &G,
    receipts: &Receipts<J>,
    segment: Segment,
) -> Result<(), NoMemory>
    requires idle { IsIdle publisher.old }
    requires opening { publisher.old.opening ≡ J.opening }
    requires number { length publisher.old.log + 1 < 2 ^ 64 }
    requires room { length (items_in publisher.old.log) + length segment ≤ 400000 }
    ensures ok { OnOk result (IsIdle publisher.new
        × (publisher.new.log ≡ publisher.old.log ++ segment ∷ [])
        × (publisher.new.parts ≡ publisher.old.parts ++ segment ∷ [])) }
    ensures refused { OnErr result ((publisher.new.log ≡ publisher.old.log)
        × (publisher.new.parts ≡ publisher.old.parts)) }
    ensures opening { publisher.new.opening ≡ publisher.old.opening }
{
    // What this tells besides is that the next publish shows the parts that are published now.
    let _pending = publisher.has_pending();
    gate.hold(publisher.number() + 1);
    let part = Arc::new(alloc, segment)?;
    if let Err((_part, error)) = publisher.append(part) {
        return Err(error);
    }
    let receipt = publisher.publish(rt)?;
    receipts.leave(rt, receipt);
    Ok(())
}
