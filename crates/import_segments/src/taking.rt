// The segments of an import, taken into a version.
ghost use Rattle.std.specs.Prelude.{◌≡◌, ◌<◌, ◌≤◌, ◌+◌, ◌^◌, [], length, OnOk};
ghost use Rattle.import_work.specs.Course.{trees_in};
ghost use Rattle.import_work.specs.Outcome.{counts_of};
ghost use Rattle.import_segments.specs.Stores.{HasFewGames, HasTaken};
ghost use Rattle.version_publisher.specs.Contents.{items_in};

use import_work::Import;
use kb_edges::Folder;
use kb_geometry::NoMemory;
use segment_store::Segment;
use std::alloc::Global;
use std::sync::Arc;
use std::thread::Threads;
use version_publisher::Version;

/// Adds the segments of an import to a version, one after another as they come, each of so many files.
/// The import's counts are those of the version. The only error is `NoMemory`; nothing is told of the
/// version then.
pub fn take_segments<R: Threads + Sync, F: Folder>(
    rt: &R,
    alloc: Global,
    folder: &mut F,
    batch: u32,
    import: &mut Import,
    version: &mut Version<Segment>,
) -> Result<(), NoMemory>
    requires some { 1 ≤ batch }
    requires number { version.old.number + length import.old.left < 2 ^ 64 }
    requires counted { import.old.counts ≡ counts_of (trees_in (items_in version.old.parts)) }
    requires few { HasFewGames import.old.counts }
    ensures taken { OnOk result (HasTaken (F.files folder.old) batch import.old import.new version.old
        version.new (F.faults folder.old) (F.faults folder.new)) }
    ensures ended { OnOk result (import.new.left ≡ []) }
    ensures counted { OnOk result (import.new.counts
        ≡ counts_of (trees_in (items_in version.new.parts))) }
    ensures few { OnOk result (HasFewGames import.new.counts) }
    ensures same { F.files folder.new ≡ F.files folder.old }
    ensures later { F.faults folder.old ≤ F.faults folder.new }
{
    while let Some(segment) = import.step(rt, alloc, folder, batch)? {
        let part = Arc::new(alloc, segment)?;
        if let Err((_part, error)) = version.push(part) {
            return Err(error);
        }
    }
    Ok(())
}
