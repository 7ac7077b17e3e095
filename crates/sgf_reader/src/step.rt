// How one byte leads a reader on.
ghost use Rattle.std.specs.Prelude.{◌≡◌, ◌<◌, ◌^◌, IfOk, Err, if◌then◌else◌, ◌==◌};
ghost use Rattle.sgf_reader.specs.declared.fault.ReadError.TheVariants.{Fault};
ghost use Rattle.sgf_reader.specs.declared.fault.SgfFault.{SgfFault};
ghost use Rattle.sgf_reader.specs.Bytes.{round_open};
ghost use Rattle.sgf_reader.specs.Reading.{StepsOn, StepFails};

use crate::place::{Phase, Place};
use crate::reading::{Reading, fault};
use crate::turn::{Turn, turn_at};
use crate::{FaultKind, Pair, ReadError, Span};

// Where a reader outside trees stands behind this byte.
fn outside(at: u32, byte: u8) -> Place
    ensures { result ≡ (if byte == round_open then Place.Before at else Place.Outside) }
{
    if byte == b'(' {
        Place::Before(at)
    } else {
        Place::Outside
    }
}

// One byte, at this offset, behind the `(` at the first offset and white space.
fn step_before(reading: &mut Reading, from: u32, at: u32, byte: u8) -> Result<Place, ReadError>
    ensures ok { IfOk result (StepsOn reading.old (Place.Before from) at byte reading.new) }
    ensures fault { (f : SgfFault) → result ≡ Err (Fault f) →
        StepFails reading.old (Place.Before from) at byte f }
{
    if byte <= 32 {
        return Ok(Place::Before(from));
    }
    if byte == b';' {
        reading.begin_game(from, at)?;
        return Ok(Place::Within(Phase::InNode));
    }
    Ok(outside(at, byte))
}

// One byte, at this offset, inside a tree.
fn step_within(reading: &mut Reading, phase: Phase, at: u32, byte: u8) -> Result<Place, ReadError>
    requires { at < 2 ^ 24 }
    ensures ok { IfOk result (StepsOn reading.old (Place.Within phase) at byte reading.new) }
    ensures fault { (f : SgfFault) → result ≡ Err (Fault f) →
        StepFails reading.old (Place.Within phase) at byte f }
{
    match turn_at(phase, at, byte) {
        Turn::Stay => Ok(Place::Within(phase)),
        Turn::To(next) => Ok(Place::Within(next)),
        Turn::EndValue { name, from } => {
            let value = Span { from, to: at };
            reading.add_value(Pair { name, value })?;
            Ok(Place::Within(Phase::AfterValue(name)))
        }
        Turn::BeginNode(_) => {
            reading.begin_node(at)?;
            Ok(Place::Within(Phase::InNode))
        }
        Turn::Open => {
            reading.open_bracket(at)?;
            Ok(Place::Within(Phase::Opened(at)))
        }
        Turn::Close => reading.close_bracket(),
        Turn::Refuse => Err(fault(FaultKind::Unexpected, at)),
    }
}

// One byte, at this offset. The answer is where the reader then stands.
pub(crate) fn step(
    reading: &mut Reading,
    place: Place,
    at: u32,
    byte: u8,
) -> Result<Place, ReadError>
    requires { at < 2 ^ 24 }
    ensures ok { IfOk result (StepsOn reading.old place at byte reading.new) }
    ensures fault { (f : SgfFault) → result ≡ Err (Fault f) →
        StepFails reading.old place at byte f }
{
    match place {
        Place::Outside => Ok(outside(at, byte)),
        Place::Before(from) => step_before(reading, from, at, byte),
        Place::Within(phase) => step_within(reading, phase, at, byte),
    }
}
