// Occurrences and how far they are known to hold as numbers, which stand in the order of the
// occurrences.
ghost use Rattle.std.specs.Prelude.{
  ◌≡◌,
  ◌+◌,
  ◌*◌,
  ◌/◌,
  ◌%◌,
  ◌<◌,
  ◌≤◌,
  ◌++◌,
  All,
  AllPairs,
  Contains,
  IfOk,
  IsSorted,
  OnOk,
  map,
};
ghost use Rattle.std.specs.Ordering.{nat_cmp};
ghost use mathlib.Core.List.{IsPrefix};
ghost use Rattle.pattern_occurrences.specs.Occurrences.{StandsBefore};
ghost use Rattle.run_matcher.specs.GoingOn.{occurrences_of};
ghost use Rattle.run_matcher.specs.Keys.{begun_of, end_number, holds_by, key_of};

use crate::{Begun, HoldsTo};
use kb_geometry::NoMemory;
use pattern_occurrences::Occurrence;
use std::alloc::Global;

// Numbers of placements are below this.
const ROOM: u64 = 65_536;

// Numbers that tell how far placements hold are below this.
const KNOWN_ROOM: u64 = 131_072;

// Adds the keys of a placement that begins to hold at these nodes, and is known to go on to hold.
pub(crate) fn push_keys(
    nodes: &[u32],
    placement: u32,
    holds: HoldsTo,
    keys: &mut Vec<u64>,
) -> Result<(), NoMemory>
    requires nodes { All (λ n. n < 65536) nodes.now }
    requires placement { placement < 65536 }
    requires known { end_number holds ≤ 65536 }
    ensures added { OnOk result (keys.new.items ≡ keys.old.items
        ++ map (key_of placement (end_number holds)) nodes.now) }
    ensures kept { IsPrefix keys.old.items keys.new.items }
{
    for node in nodes {
        keys.push(key(*node, placement, holds))?;
    }
    Ok(())
}

// The key of a placement that begins to hold at a node.
fn key(node: u32, placement: u32, holds: HoldsTo) -> u64
    requires node { node < 65536 }
    requires placement { placement < 65536 }
    requires known { end_number holds ≤ 65536 }
    ensures { result ≡ key_of placement (end_number holds) node }
{
    let known = end_number(holds);
    (u64::from(node) * ROOM + u64::from(placement)) * KNOWN_ROOM + u64::from(known)
}

// What keys in order stand for: of those with one node and placement the first.
pub(crate) fn begun_once(alloc: Global, keys: &[u64]) -> Result<Vec<Begun>, NoMemory>
    requires { IsSorted nat_cmp keys.now }
    ensures from { IfOk result (λ found. (b : Begun) → Contains found.items b →
        Contains (map begun_of keys.now) b) }
    ensures all { IfOk result (λ found. (b : Begun) → Contains (map begun_of keys.now) b →
        Contains (occurrences_of found.items) b.occurrence) }
    ensures ordered { IfOk result (λ found. AllPairs StandsBefore (occurrences_of found.items)) }
{
    let mut found = Vec::with_capacity(alloc, keys.len())?;
    // One behind the number of the occurrence before.
    let mut next = 0;
    for key in keys {
        let number = *key / KNOWN_ROOM;
        if number >= next {
            found.push(begun(*key))?;
            next = number + 1;
        }
    }
    Ok(found)
}

// What a key stands for.
fn begun(key: u64) -> Begun
    ensures { result ≡ begun_of key }
{
    let number = key / KNOWN_ROOM;
    Begun {
        occurrence: Occurrence {
            node: (number / ROOM) as u32,
            placement: (number % ROOM) as u32,
        },
        holds: holds_by((key % KNOWN_ROOM) as u32),
    }
}

// The number that tells how far a placement is known to hold: the end, or 0 where nothing is known.
fn end_number(holds: HoldsTo) -> u32
    ensures { result ≡ end_number holds }
{
    match holds {
        HoldsTo::Known { end } => end,
        HoldsTo::Unknown => 0,
    }
}

// What such a number tells.
fn holds_by(number: u32) -> HoldsTo
    ensures { result ≡ holds_by number }
{
    if number > 0 {
        HoldsTo::Known { end: number }
    } else {
        HoldsTo::Unknown
    }
}
