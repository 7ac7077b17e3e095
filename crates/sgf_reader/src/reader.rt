// Reading of a text.
ghost use Rattle.std.specs.Prelude.{◌≡◌, ◌+◌, ◌<◌, ◌≤◌, ◌^◌, length, IfOk, Err};
ghost use Rattle.sgf_reader.specs.declared.fault.ReadError.TheVariants.{Fault};
ghost use Rattle.sgf_reader.specs.declared.fault.SgfFault.{SgfFault};
ghost use Rattle.sgf_reader.specs.declared.fault.FaultKind.TheVariants as kind;
ghost use Rattle.sgf_reader.specs.Faults.{IsRead, IsFirstFault};
ghost use Rattle.sgf_reader.specs.Limits.{most_bytes, most_nodes};
ghost use Rattle.sgf_reader.specs.Stays.{
  HasReadTo,
  FailsIn,
  IsPastEnd,
  nothing,
  place_behind,
  with_short_node,
};

use crate::limits::{MAX_FILE, MAX_GAMES};
use crate::place::{Phase, Place};
use crate::reading::{Reading, fault};
use crate::stays::{is_node_next, next_from, short_node};
use crate::step::step;
use crate::{Collection, FaultKind, FlatCollection, Pair, ReadError, Span};
use std::alloc::Global;

// Reads the first bytes, so many. The answer is where the reader then stands.
fn read_bytes(reading: &mut Reading, text: &[u8], end: usize) -> Result<Place, ReadError>
    requires fresh { reading.old ≡ nothing }
    requires within { end ≤ length text.now }
    requires short { end ≤ most_bytes }
    ensures ok { IfOk result (HasReadTo text.now end reading.new) }
    ensures fault { (f : SgfFault) → result ≡ Err (Fault f) → FailsIn text.now end f }
{
    let mut place = Place::Outside;
    let mut at = 0;
    while at < end {
        at = next_from(text, at, end, place);
        if let Some(to) = short_node(text, at, end, place) {
            place = read_node(reading, at as u32, to as u32)?;
            at = to + 1;
        } else if at < end {
            place = step(reading, place, at as u32, text[at])?;
            at += 1;
        }
    }
    Ok(place)
}

// Reads a node of a `;`, one letter and a value: it begins at the first offset, and its value ends at
// the second. The answer is where the reader then stands.
fn read_node(reading: &mut Reading, at: u32, to: u32) -> Result<Place, ReadError>
    requires { (at + 3 ≤ to) × (to < 2 ^ 24) }
    ensures ok { IfOk result (λ place. (place ≡ place_behind at)
        × (reading.new ≡ with_short_node reading.old at to)
        × (length reading.old.nodes < most_nodes)) }
    ensures fault { (f : SgfFault) → result ≡ Err (Fault f) →
        (f ≡ record { kind = kind.TooManyNodes; at = at }) × (most_nodes ≤ length reading.old.nodes) }
{
    reading.begin_node(at)?;
    let name = Span {
        from: at + 1,
        to: at + 2,
    };
    let value = Span { from: at + 3, to };
    reading.add_value(Pair { name, value })?;
    Ok(Place::Within(Phase::AfterValue(name)))
}

// The fault of a text that goes on at this offset, past its greatest length. Of two that are
// possible here the one of a game past the limit comes first: its `(` was read, and only white
// space and its `;` are left.
fn fault_past_end(reading: &Reading, place: Place, text: &[u8], end: usize) -> ReadError
    requires { end ≤ length text.now }
    ensures { IsPastEnd reading.now place text.now end result }
{
    let Place::Before(from) = place else {
        return fault(FaultKind::TooLong, MAX_FILE);
    };
    if reading.game_count() < MAX_GAMES as usize {
        return fault(FaultKind::TooLong, MAX_FILE);
    }
    if !is_node_next(text, end) {
        return fault(FaultKind::TooLong, MAX_FILE);
    }
    fault(FaultKind::TooManyGames, from)
}

/// Reads a text: the collection that it spells, stored flat, or its first fault.
///
/// The grammar is that of SGF FF[4] for collections of game trees, where lower-case letters in
/// identifiers are ignored and bytes outside trees are skipped. The faults are of the kinds up to
/// `TooManyGames`; that of least offset is answered, and at one offset `TooLong` comes before the
/// others. Offsets count bytes from 0.
///
/// The text is read once from front to end, without recursion, and isn't copied: names and values
/// are spans of it. Nothing is allocated for a node. `NoMemory` is answered where an allocation was
/// refused.
pub fn read_flat(alloc: Global, text: &[u8]) -> Result<FlatCollection, ReadError>
    ensures ok { IfOk result (λ collection. IsRead text.now collection) }
    ensures fault { (f : SgfFault) → result ≡ Err (Fault f) → IsFirstFault text.now f.kind f.at }
{
    let end = text.len().min(MAX_FILE as usize);
    let mut reading = Reading::for_text(alloc, end)?;
    let place = read_bytes(&mut reading, text, end)?;
    if end < text.len() {
        return Err(fault_past_end(&reading, place, text, end));
    }
    reading.finish(place, end as u32)
}

/// Reads a text as [`read_flat`] does, and gives the collection as lists in lists.
pub fn read(alloc: Global, text: &[u8]) -> Result<Collection, ReadError>
    ensures ok { IfOk result (λ collection. IsRead text.now collection) }
    ensures fault { (f : SgfFault) → result ≡ Err (Fault f) → IsFirstFault text.now f.kind f.at }
{
    let flat = read_flat(alloc, text)?;
    Ok(flat.to_collection(alloc)?)
}
