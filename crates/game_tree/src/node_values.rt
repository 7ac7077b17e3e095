// The values of one node: its setups, its move, and their faults.
ghost use Rattle.std.specs.Prelude.{
  ◌≡◌,
  ◌+◌,
  ◌<◌,
  ◌≤◌,
  List,
  [],
  length,
  All,
  Option,
  Some,
  None,
  IfOk,
  IfSome,
  Err,
};
ghost use Rattle.kb_geometry.specs.declared.shape.Point.{Point};
ghost use Rattle.kb_geometry.specs.Board.{IsOnBoard};
ghost use Rattle.sgf_reader.specs.declared.fault.SgfFault.{SgfFault};
ghost use Rattle.game_tree.specs.declared.node.Move.{Move};
ghost use Rattle.game_tree.specs.declared.node.Setup.{Setup};
ghost use Rattle.game_tree.specs.declared.building.BuildError.TheVariants.{Fault};
ghost use Rattle.game_tree.specs.NodeValues.{
  AreValuesRead,
  Ascend,
  IsFirstNodeFault,
  IsMoveOnBoard,
  IsValueBad,
  IsValueRead,
  LiesIn,
  setups_of,
  with_setups,
};
ghost use Rattle.game_tree.specs.Value.{IsSetupValue};
ghost use Rattle.sgf_reader.specs.declared.fault.FaultKind.TheVariants as kind;
ghost use Rattle.kb_geometry.specs.declared.shape.Rect.{Rect};
ghost use Rattle.game_tree.specs.Property.{bytes_of, mover_of, offset_of, setter_of};

use crate::property::Property;
use crate::value::{move_of, setup_of};
use crate::{BuildError, Move, Setup, TreeBuilder};
use kb_geometry::{Cell, Colour, Shape};
use sgf_reader::{FaultKind, Pair, SgfFault, Span};

// The bytes that a span covers.
pub(crate) fn bytes_of(text: &[u8], span: Span) -> &[u8]
    requires order { span.from ≤ span.to }
    requires inside { span.to ≤ length text.now }
    ensures { result.now ≡ bytes_of text.now span }
{
    &text[span.from as usize..span.to as usize]
}

// A fault at the `[` of a value.
pub(crate) fn fault_at(kind: FaultKind, pair: &Pair) -> SgfFault
    ensures { result ≡ record { kind = kind; at = offset_of pair.now } }
{
    let at = pair.value.from.saturating_sub(1);
    SgfFault { kind, at }
}

// Hands the setups of a node's values to the builder, in order of the text, and answers its move.
pub(crate) fn read_values(
    text: &[u8],
    shape: Shape,
    pairs: &[Pair],
    builder: &mut TreeBuilder,
) -> Result<Option<Move>, BuildError>
    requires shape { builder.old.shape ≡ shape }
    requires room { builder.old.setup_count + length pairs.now < 4294967295 }
    requires inside { All (LiesIn (length text.now)) pairs.now }
    requires ascending { Ascend pairs.now }
    ensures ok { IfOk result (λ played. (setups : List Setup)
        × AreValuesRead text.now shape pairs.now setups played
        × (builder.new ≡ with_setups builder.old setups)) }
    ensures on_board { IfOk result (λ played. IfSome played (λ (m : Move).
        IfSome m.point (λ (p : Point). IsOnBoard shape p))) }
    ensures fault { (f : SgfFault) → result ≡ Err (Fault f) →
        IsFirstNodeFault text.now shape pairs.now f.kind f.at }
{
    let mut played = None;
    for pair in pairs {
        if let Err(error) = read_value(text, shape, pair, &mut played, builder) {
            return Err(error);
        }
    }
    Ok(played)
}

// One value: a move, a setup, or something that does nothing.
fn read_value(
    text: &[u8],
    shape: Shape,
    pair: &Pair,
    played: &mut Option<Move>,
    builder: &mut TreeBuilder,
) -> Result<(), BuildError>
    requires shape { builder.old.shape ≡ shape }
    requires room { builder.old.setup_count < 4294967295 }
    requires inside { LiesIn (length text.now) pair.now }
    ensures ok { IfOk result (λ _. (setups : List Setup)
        × IsValueRead text.now shape pair.now played.old played.new setups
        × (builder.new ≡ with_setups builder.old setups)) }
    ensures on_board { IfSome played.old (IsMoveOnBoard shape) →
        IfSome played.new (IsMoveOnBoard shape) }
    ensures fault { (f : SgfFault) → result ≡ Err (Fault f) →
        (f.at ≡ offset_of pair.now) × IsValueBad text.now shape pair.now played.old f.kind }
{
    match Property::of(bytes_of(text, pair.name)) {
        Property::Moves(colour) => read_move(text, shape, pair, colour, played),
        Property::Sets(cell) => read_setup(text, shape, pair, cell, builder),
        Property::Other => Ok(()),
    }
}

// The value of a move.
fn read_move(
    text: &[u8],
    shape: Shape,
    pair: &Pair,
    colour: Colour,
    played: &mut Option<Move>,
) -> Result<(), BuildError>
    requires inside { LiesIn (length text.now) pair.now }
    requires mover { mover_of text.now pair.now ≡ Some colour }
    ensures ok { IfOk result (λ _. IsValueRead text.now shape pair.now played.old played.new []) }
    ensures on_board { IfSome played.old (IsMoveOnBoard shape) →
        IfSome played.new (IsMoveOnBoard shape) }
    ensures fault { (f : SgfFault) → result ≡ Err (Fault f) →
        (f.at ≡ offset_of pair.now) × IsValueBad text.now shape pair.now played.old f.kind }
{
    if played.is_some() {
        return Err(BuildError::Fault(fault_at(FaultKind::TwoMoves, pair)));
    }
    match move_of(shape, bytes_of(text, pair.value)) {
        Some(point) => {
            *played = Some(Move { colour, point });
            Ok(())
        }
        None => Err(BuildError::Fault(fault_at(FaultKind::BadPoint, pair))),
    }
}

// The value of a setup.
fn read_setup(
    text: &[u8],
    shape: Shape,
    pair: &Pair,
    cell: Cell,
    builder: &mut TreeBuilder,
) -> Result<(), BuildError>
    requires shape { builder.old.shape ≡ shape }
    requires room { builder.old.setup_count < 4294967295 }
    requires inside { LiesIn (length text.now) pair.now }
    requires setter { setter_of text.now pair.now ≡ Some cell }
    ensures ok { IfOk result (λ _. (rect : Option Rect)
        × IsSetupValue shape (bytes_of text.now pair.now.value) rect
        × (builder.new ≡ with_setups builder.old (setups_of cell rect))) }
    ensures fault { (f : SgfFault) → result ≡ Err (Fault f) →
        (f.at ≡ offset_of pair.now) × (f.kind ≡ kind.BadPoint)
        × ((rect : Option Rect) → ¬ IsSetupValue shape (bytes_of text.now pair.now.value) rect) }
{
    match setup_of(shape, bytes_of(text, pair.value)) {
        Some(Some(rect)) => {
            builder.add_setup(Setup { cell, rect })?;
            Ok(())
        }
        Some(None) => Ok(()),
        None => Err(BuildError::Fault(fault_at(FaultKind::BadPoint, pair))),
    }
}
