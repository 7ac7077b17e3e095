// Published parts that are merged from their end.
ghost use Rattle.std.specs.Prelude.{◌≡◌, IfOk, MatchOption, OnOk, reverse};
ghost use Rattle.std.specs.Arc.{arc_value};
ghost use Rattle.import_segments.specs.Published.{AreToMerge, with_last};
ghost use Rattle.import_segments.specs.Publishing.{IsIdle};

use kb_geometry::NoMemory;
use segment_store::{Segment, merge};
use std::alloc::Global;
use std::sync::{Arc, Wait};
use version_publisher::Publisher;

// Merges the last two parts as long as the last has at least as many games as the one before it,
// and publishes each merge. The log stays.
pub(crate) fn merge_parts<R: Wait>(
    rt: &R,
    alloc: Global,
    publisher: &mut Publisher<Segment>,
) -> Result<(), NoMemory>
    requires { IsIdle publisher.old }
    ensures idle { OnOk result (IsIdle publisher.new) }
    ensures parts { OnOk result (reverse publisher.new.parts
        ≡ with_last (reverse publisher.old.parts)) }
    ensures log { publisher.new.log ≡ publisher.old.log }
    ensures opening { publisher.new.opening ≡ publisher.old.opening }
{
    while let Some(both) = last_two_merged(alloc, publisher)? {
        if let Err((_both, error)) = publisher.merge_last(both) {
            return Err(error);
        }
        // The receipt is that of the same log, which the searchers have already.
        let _receipt = publisher.publish(rt)?;
    }
    Ok(())
}

// The games of the last two parts as one part, where the last has at least as many games as the one
// before it.
fn last_two_merged(
    alloc: Global,
    publisher: &Publisher<Segment>,
) -> Result<Option<Arc<Segment>>, NoMemory>
    requires { IsIdle publisher.now }
    ensures { IfOk result (λ found. MatchOption found
        (with_last (reverse publisher.now.parts) ≡ reverse publisher.now.parts)
        (λ both. AreToMerge publisher.now.parts (arc_value both))) }
{
    let Some((before, last)) = publisher.last_two() else {
        return Ok(None);
    };
    if last.game_count() < before.game_count() {
        return Ok(None);
    }
    let both = merge(alloc, before, last)?;
    Ok(Some(Arc::new(alloc, both)?))
}
