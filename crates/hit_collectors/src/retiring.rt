// A box is taken out by its name.
ghost use Rattle.std.specs.Prelude.{◌≡◌, ◌≢◌, ◌↔◌, map, All, IfNone, IfSome, IsTrue, OnErr, OnOk};
ghost use Rattle.hit_collectors.specs.Boxes.{IsRetired};
ghost use Rattle.hit_collectors.specs.Finding.{IsFirstNamed};

use crate::Collector;
use std::error::Error;
use std::fmt;

/// No box has the name.
#[derive(Clone, Copy, Debug, PartialEq, Eq)]
pub struct NoSuchName;

impl fmt::Display for NoSuchName {
    fn fmt<W: fmt::Write>(&self, f: &mut fmt::Formatter<W>) -> fmt::Result {
        f.write_str("no box has the name")
    }
}

impl Error for NoSuchName {}

/// Drops the first box of this name, and leaves the others in order. `NoSuchName` exactly where no
/// box has it, and then nothing changes. Nothing is allocated.
pub fn retire<C: Collector>(boards: &mut Vec<C>, name: &str) -> Result<(), NoSuchName>
    ensures ok { OnOk result
        (IsRetired (λ b. (C.tally b).name) name.now boards.old.items boards.new.items) }
    ensures told { OnOk result (IsRetired (λ told. told.name) name.now
        (map (λ b. C.tally b) boards.old.items)
        (map (λ b. C.tally b) boards.new.items)) }
    ensures none { OnErr result
        (All (λ b. (C.tally b).name ≢ name.now) boards.old.items) }
    ensures same { OnErr result (boards.new.items ≡ boards.old.items) }
{
    let Some(i) = first_named(boards, name) else {
        return Err(NoSuchName);
    };
    let retired = boards.remove(i);
    drop(retired);
    Ok(())
}

// The number of the first box of this name.
fn first_named<C: Collector>(boxes: &[C], name: &str) -> Option<usize>
    ensures some { IfSome result (λ i.
        IsFirstNamed (λ b. (C.tally b).name) name.now boxes.now i) }
    ensures none { IfNone result (All (λ b. (C.tally b).name ≢ name.now) boxes.now) }
{
    for i in 0..boxes.len() {
        if has_name(&boxes[i], name) {
            return Some(i);
        }
    }
    None
}

// Whether a box has this name.
fn has_name<C: Collector>(collector: &C, name: &str) -> bool
    ensures { IsTrue result ↔ ((C.tally collector.now).name ≡ name.now) }
{
    collector.name() == name
}
