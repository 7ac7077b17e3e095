// Segments that become one.
ghost use Rattle.std.specs.Prelude.{◌≡◌, ◌≤◌, length, IfOk};
ghost use Rattle.import_work.specs.Log.{games_of_segments};

use kb_geometry::NoMemory;
use segment_store::{Segment, SegmentBuilder, merge};
use std::alloc::Global;

// One segment of the games of all these, in order.
pub(crate) fn in_one(alloc: Global, mut segments: Vec<Segment>) -> Result<Segment, NoMemory>
    requires { length (games_of_segments segments.items) ≤ 400000 }
    ensures { IfOk result (λ one. one ≡ games_of_segments segments.items) }
{
    if segments.len() != 1 {
        return merged(alloc, segments.as_slice());
    }
    match segments.pop() {
        Some(one) => Ok(one),
        None => SegmentBuilder::new(alloc).finish(alloc),
    }
}

// The same of segments that are lent: the games of both halves. No game is copied.
fn merged(alloc: Global, segments: &[Segment]) -> Result<Segment, NoMemory>
    requires { length (games_of_segments segments.now) ≤ 400000 }
    ensures { IfOk result (λ one. one ≡ games_of_segments segments.now) }
{
    if let [one, other] = segments {
        return merge(alloc, one, other);
    }
    let [one, ..] = segments else {
        return SegmentBuilder::new(alloc).finish(alloc);
    };
    if segments.len() == 1 {
        let none = SegmentBuilder::new(alloc).finish(alloc)?;
        return merge(alloc, one, &none);
    }
    let (before, behind) = segments.split_at(segments.len() / 2);
    let a = merged(alloc, before)?;
    let b = merged(alloc, behind)?;
    merge(alloc, &a, &b)
}
