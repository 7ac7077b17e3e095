// The answers of statements that speak of the boxes.
ghost use Rattle.std.specs.Prelude.{◌≡◌, ◌++◌, List, ℕ, map, OnErr, OnOk};
ghost use mathlib.Core.List.{IsPrefix};
ghost use Rattle.hit_collectors.specs.Boxes.{IsFedInPart, all_with_hits};
ghost use Rattle.hit_collectors.specs.Reports.{report_line};
ghost use Rattle.session_core.specs.Answers.{IsRetiredBy, boxes_text};
ghost use Rattle.session_core.specs.SessionState.{Watched, session_of};

use hit_collectors::{Collector, NoSuchName, feed, retire};
use kb_geometry::NoMemory;
use pattern_images::Hit;
use query_script::{print_no_retire, print_report_head, print_retire};

// Appends the text of a report: how many boxes there are, and the report line of each.
pub(crate) fn append_report<C: Collector>(
    line: u32,
    boxes: &[C],
    out: &mut Vec<u8>,
) -> Result<(), NoMemory>
    ensures ok { OnOk result (out.new.items
        ≡ out.old.items ++ boxes_text line (map (λ b. C.tally b) boxes.now)) }
    ensures refused { OnErr result (IsPrefix out.old.items out.new.items) }
{
    print_report_head(line, boxes.len(), out)?;
    for collector in boxes {
        append_line(collector, out)?;
    }
    Ok(())
}

// Appends the report line of a box.
fn append_line<C: Collector>(collector: &C, out: &mut Vec<u8>) -> Result<(), NoMemory>
    ensures ok { OnOk result (out.new.items ≡ out.old.items ++ report_line (C.tally collector.now)) }
    ensures refused { OnErr result (out.new.items ≡ out.old.items) }
{
    collector.report(out)?;
    Ok(())
}

// Gives all hits to each box.
pub(crate) fn feed_boxes<C: Collector>(boxes: &mut Vec<C>, hits: &[Hit]) -> Result<(), NoMemory>
    ensures ok { OnOk result (map (λ b. C.tally b) boxes.new.items
        ≡ all_with_hits hits.now (map (λ b. C.tally b) boxes.old.items)) }
    ensures refused { OnErr result (IsFedInPart hits.now
        (map (λ b. C.tally b) boxes.old.items)
        (map (λ b. C.tally b) boxes.new.items)) }
{
    feed(boxes, hits)
}

// Drops the first box of this name and appends that it is retired, or that none has the name.
pub(crate) fn retire_box<C: Collector>(
    line: u32,
    name: &str,
    boxes: &mut Vec<C>,
    out: &mut Vec<u8>,
) -> Result<(), NoMemory>
    ensures ok { OnOk result ((watches : List Watched) → (text : List ℕ)
        × IsRetiredBy line name.now (session_of (map (λ b. C.tally b) boxes.old.items) watches)
        text (session_of (map (λ b. C.tally b) boxes.new.items) watches)
        × (out.new.items ≡ out.old.items ++ text)) }
    ensures refused { OnErr result (out.new.items ≡ out.old.items) }
    ensures same { OnErr result (boxes.new.items ≡ boxes.old.items) }
{
    // The text is there before the box is dropped, so that want of memory drops none.
    let len = out.len();
    print_retire(line, name, out)?;
    match retire(boxes, name) {
        Ok(()) => Ok(()),
        Err(NoSuchName) => {
            out.truncate(len);
            print_no_retire(line, name, out)
        }
    }
}
