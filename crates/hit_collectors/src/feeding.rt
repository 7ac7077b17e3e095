// Hits are given to boxes.
ghost use Rattle.std.specs.Prelude.{◌≡◌, [], map, OnErr, OnOk};
ghost use Rattle.pattern_images.specs.declared.hit.Hit.{Hit};
ghost use Rattle.hit_collectors.specs.Boxes.{IsFedInPart, IsPartTaken, IsRefusedAt, all_with_hits};
ghost use Rattle.hit_collectors.specs.Tallies.{with_hits};

use crate::Collector;
use kb_geometry::NoMemory;
use pattern_images::Hit;

/// Gives all hits, in order, to each box, in order. Each box goes over the hits once.
///
/// The only error is `NoMemory`, where a box answers it. The boxes before that one then have all
/// hits, it has those before the hit that it refused, and the later boxes are as they were. So are
/// all boxes where there is no hit.
pub fn feed<C: Collector>(boards: &mut [C], hits: &[Hit]) -> Result<(), NoMemory>
    ensures ok { OnOk result (map (λ b. C.tally b) boards.new
        ≡ all_with_hits hits.now (map (λ b. C.tally b) boards.old)) }
    ensures refused { OnErr result (IsFedInPart hits.now (map (λ b. C.tally b) boards.old)
        (map (λ b. C.tally b) boards.new)) }
    ensures later { OnErr result
        (IsRefusedAt (λ b. C.tally b) hits.now boards.old boards.new) }
    ensures no_hits { hits.now ≡ [] → boards.new ≡ boards.old }
{
    for i in 0..boards.len() {
        feed_box(&mut boards[i], hits)?;
    }
    Ok(())
}

// Gives all hits to a box, in order.
fn feed_box<C: Collector>(collector: &mut C, hits: &[Hit]) -> Result<(), NoMemory>
    ensures ok { OnOk result (C.tally collector.new ≡ with_hits hits.now (C.tally collector.old)) }
    ensures refused { OnErr result
        (IsPartTaken hits.now (C.tally collector.old) (C.tally collector.new)) }
    ensures no_hits { hits.now ≡ [] → collector.new ≡ collector.old }
{
    for hit in hits {
        collector.take(hit)?;
    }
    Ok(())
}
