// What the root of a game says of the game as a whole.
ghost use Rattle.std.specs.Prelude.{
  ◌≡◌,
  ◌≤◌,
  ◌<◌,
  ◌+◌,
  length,
  All,
  Option,
  Some,
  None,
  IfOk,
  IfErr,
  IfSome,
  Err,
  IsTrue,
  ◌↔◌,
  ◌⊎◌,
  codes,
  is_some,
};
ghost use Rattle.sgf_reader.specs.declared.fault.SgfFault.{SgfFault};
ghost use Rattle.sgf_reader.specs.Limits.{most_bytes};
ghost use Rattle.kb_geometry.specs.declared.shape.Shape.{Shape};
ghost use Rattle.game_tree.specs.NodeValues.{LiesIn};
ghost use Rattle.game_tree.specs.Property.{bytes_of, mover_of};
ghost use Rattle.game_tree.specs.Roots.{
  first_in,
  letters,
  IsGameFault,
  IsOtherGame,
  IsInformationIn,
  IsSecondMove,
  IsSizeFault,
};
ghost use Rattle.game_tree.specs.StoredInfo.{HasGrownBy};
ghost use Rattle.game_tree.specs.Trees.{IsTextOf};
ghost use Rattle.game_tree.specs.ValueFaults.{IsBoardOf};

use crate::Info;
use crate::info::TextEnds;
use crate::node_values::{bytes_of, fault_at};
use crate::property::{Identifier, Property};
use crate::simple_text::append_simple_text;
use crate::value::{size_of, trimmed};
use kb_geometry::{NoMemory, Shape};
use sgf_reader::{FaultKind, Pair, SgfFault};
use std::alloc::Global;

// The identifiers of the values of a root that are read.
const GAME: Identifier = Identifier {
    first: b'G',
    second: b'M',
};

pub(crate) const SIZE: Identifier = Identifier {
    first: b'S',
    second: b'Z',
};

const BLACK_NAME: Identifier = Identifier {
    first: b'P',
    second: b'B',
};

const WHITE_NAME: Identifier = Identifier {
    first: b'P',
    second: b'W',
};

const EVENT: Identifier = Identifier {
    first: b'E',
    second: b'V',
};

const PLACE: Identifier = Identifier {
    first: b'P',
    second: b'C',
};

const DATE: Identifier = Identifier {
    first: b'D',
    second: b'T',
};

const RESULT: Identifier = Identifier {
    first: b'R',
    second: b'E',
};

// The first value of a property.
pub(crate) fn first_value(text: &[u8], pairs: &[Pair], identifier: Identifier) -> Option<Pair>
    requires inside { All (LiesIn (length text.now)) pairs.now }
    ensures value { result ≡ first_in text.now pairs.now (letters identifier) }
    ensures inside { IfSome result (LiesIn (length text.now)) }
{
    let mut rest = pairs;
    while let [pair, others @ ..] = rest {
        if identifier.names(bytes_of(text, pair.name)) {
            return Some(*pair);
        }
        rest = others;
    }
    None
}

// The fault of a root whose first GM value is of another game.
pub(crate) fn game_fault(text: &[u8], pairs: &[Pair]) -> Option<SgfFault>
    requires inside { All (LiesIn (length text.now)) pairs.now }
    ensures { IsGameFault text.now pairs.now result }
{
    let pair = first_value(text, pairs, GAME)?;
    if is_go(text, pair) {
        None
    } else {
        Some(fault_at(FaultKind::NotGo, &pair))
    }
}

// Whether a GM value is that of Go: empty, or `1`.
fn is_go(text: &[u8], pair: Pair) -> bool
    requires inside { LiesIn (length text.now) pair }
    ensures go { IsTrue result → ¬ IsOtherGame text.now pair }
    ensures other { ¬ IsTrue result → IsOtherGame text.now pair }
{
    let value = trimmed(bytes_of(text, pair.value));
    value.is_empty() || is_one(value)
}

// Whether a text is `1`.
fn is_one(text: &[u8]) -> bool
    ensures { IsTrue result ↔ (text.now ≡ codes "1") }
{
    text == b"1".as_slice()
}

// The board by the first SZ value of a root, or the fault of a value that is no size.
pub(crate) fn board_of(text: &[u8], size: Option<Pair>) -> Result<Shape, SgfFault>
    requires inside { IfSome size (LiesIn (length text.now)) }
    ensures ok { IfOk result (λ shape. IsBoardOf text.now size shape) }
    ensures fault { IfErr result (IsSizeFault text.now size) }
{
    match size {
        None => Ok(Shape::standard()),
        Some(pair) => board_by(text, pair),
    }
}

// The board by an SZ value: an empty one is that of the standard board.
fn board_by(text: &[u8], pair: Pair) -> Result<Shape, SgfFault>
    requires inside { LiesIn (length text.now) pair }
    ensures ok { IfOk result (λ shape. IsBoardOf text.now (Some pair) shape) }
    ensures fault { IfErr result (IsSizeFault text.now (Some pair)) }
{
    let value = trimmed(bytes_of(text, pair.value));
    if value.is_empty() {
        return Ok(Shape::standard());
    }
    match size_of(value) {
        Some(shape) => Ok(shape),
        None => Err(fault_at(FaultKind::BadSize, &pair)),
    }
}

// The fault of a second move among the values of one node.
pub(crate) fn second_move(text: &[u8], pairs: &[Pair]) -> Option<SgfFault>
    requires inside { All (LiesIn (length text.now)) pairs.now }
    ensures { IsSecondMove text.now pairs.now result }
{
    let mut seen = false;
    for pair in pairs {
        if is_move(text, pair) {
            if seen {
                return Some(fault_at(FaultKind::TwoMoves, pair));
            }
            seen = true;
        }
    }
    None
}

// Whether a value is a move.
fn is_move(text: &[u8], pair: &Pair) -> bool
    requires inside { LiesIn (length text.now) pair.now }
    ensures { result ≡ is_some (mover_of text.now pair.now) }
{
    match Property::of(bytes_of(text, pair.name)) {
        Property::Moves(_) => true,
        Property::Sets(_) => false,
        Property::Other => false,
    }
}

// The one of two faults that comes first; the other may be none.
pub(crate) fn first_fault(fault: SgfFault, other: Option<SgfFault>) -> SgfFault
    ensures one { (result ≡ fault) ⊎ (other ≡ Some result) }
    ensures least { result.at ≤ fault.at }
    ensures least_other { IfSome other (λ o. result.at ≤ o.at) }
{
    match other {
        Some(other) if other.at < fault.at => other,
        Some(_) => fault,
        None => fault,
    }
}

// The information of a game, by the first values of its root.
pub(crate) fn information(alloc: Global, text: &[u8], pairs: &[Pair]) -> Result<Info, NoMemory>
    requires inside { All (LiesIn (length text.now)) pairs.now }
    requires short { length text.now ≤ most_bytes }
    ensures { IfOk result (IsInformationIn text.now pairs.now) }
{
    let mut texts = Vec::new(alloc);
    let ends = TextEnds {
        black: append_text(&mut texts, text, pairs, BLACK_NAME)?,
        white: append_text(&mut texts, text, pairs, WHITE_NAME)?,
        event: append_text(&mut texts, text, pairs, EVENT)?,
        place: append_text(&mut texts, text, pairs, PLACE)?,
        date: append_text(&mut texts, text, pairs, DATE)?,
    };
    append_text(&mut texts, text, pairs, RESULT)?;
    texts.shrink_to_fit();
    Ok(Info::new(texts, ends))
}

// Appends the first value of a property as SimpleText, where there is one, and answers where it
// ends.
fn append_text(
    texts: &mut Vec<u8>,
    text: &[u8],
    pairs: &[Pair],
    identifier: Identifier,
) -> Result<u32, NoMemory>
    requires inside { All (LiesIn (length text.now)) pairs.now }
    requires room { length texts.old.items + length text.now < 4294967296 }
    ensures grown { IfOk result (λ _. HasGrownBy
        (IsTextOf text.now (first_in text.now pairs.now (letters identifier)))
        texts.old.items texts.new.items) }
    ensures end { IfOk result (λ end. end ≡ length texts.new.items) }
    ensures most { IfOk result (λ end. end ≤ length texts.old.items + length text.now) }
{
    if let Some(pair) = first_value(text, pairs, identifier) {
        append_simple_text(texts, bytes_of(text, pair.value))?;
    }
    Ok(texts.len() as u32)
}
