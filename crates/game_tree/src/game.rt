// One game: from its raw nodes to its tree.
ghost use Rattle.std.specs.Prelude.{
  ◌≡◌,
  ◌<◌,
  ◌+◌,
  ◌∷◌,
  ℕ,
  length,
  drop,
  All,
  Option,
  Some,
  None,
  IfOk,
  IfSome,
  Err,
};
ghost use Rattle.kb_geometry.specs.declared.shape.Shape.{Shape};
ghost use Rattle.sgf_reader.specs.declared.fault.FaultKind.{FaultKind};
ghost use Rattle.sgf_reader.specs.declared.fault.SgfFault.{SgfFault};
ghost use Rattle.game_tree.specs.declared.building.BuildError.TheVariants.{Fault};
ghost use Rattle.game_tree.specs.declared.node.Move.{Move};
ghost use Rattle.game_tree.specs.GameFaults.{HasGameFault, IsFirstGameFault};
ghost use Rattle.game_tree.specs.Built.{IsNextParent, nothing_built, with_node};
ghost use Rattle.game_tree.specs.NodeValues.{Ascend, IsFirstNodeFault, IsMoveOnBoard, LiesIn};
ghost use Rattle.game_tree.specs.Property.{root_pairs};
ghost use Rattle.game_tree.specs.RawGames.{HasBuilt, IsNodeBad, IsNodeRead, IsOfText, IsRootBad};
ghost use Rattle.game_tree.specs.Roots.{IsGameFault};
ghost use Rattle.game_tree.specs.Trees.{IsTreeOf};
ghost use Rattle.game_tree.specs.ValueFaults.{IsBoard};

use crate::node_values::read_values;
use crate::root::{SIZE, board_of, first_fault, first_value, game_fault, information, second_move};
use crate::{BuildError, GameTree, Move, TreeBuilder};
use kb_geometry::{NoMemory, Shape};
use sgf_reader::{FlatGame, FlatNode, SgfFault};
use std::alloc::Global;

// The tree of a raw game of a text without a fault of its syntax, or the first fault of the game's
// values.
pub(crate) fn build_game(
    alloc: Global,
    text: &[u8],
    raw: &FlatGame<'_>,
) -> Result<GameTree, BuildError>
    requires read { IsOfText text.now raw.now }
    ensures ok { IfOk result (λ tree. IsTreeOf text.now raw.now tree) }
    ensures no_fault { IfOk result (λ _. (of : FaultKind) (at : ℕ) →
        ¬ HasGameFault text.now raw.now of at) }
    ensures fault { (f : SgfFault) → result ≡ Err (Fault f) →
        IsFirstGameFault text.now raw.now f.kind f.at }
{
    let root = raw.node(0);
    let pairs = root.pairs();
    let game = game_fault(text, pairs);
    match board_of(text, first_value(text, pairs, SIZE)) {
        Ok(shape) => build_on(alloc, text, raw, &root, shape, game),
        Err(size) => {
            let fault = first_fault(first_fault(size, game), second_move(text, pairs));
            Err(BuildError::Fault(fault))
        }
    }
}

// The tree of a raw game with this root, on this board.
fn build_on(
    alloc: Global,
    text: &[u8],
    raw: &FlatGame<'_>,
    root: &FlatNode<'_>,
    shape: Shape,
    game: Option<SgfFault>,
) -> Result<GameTree, BuildError>
    requires read { IsOfText text.now raw.now }
    requires root { raw.now.nodes ≡ root.now ∷ drop 1 raw.now.nodes }
    requires board { IsBoard text.now raw.now shape }
    requires game { IsGameFault text.now (root_pairs raw.now) game }
    ensures ok { IfOk result (λ tree. IsTreeOf text.now raw.now tree) }
    ensures no_fault { IfOk result (λ _. (of : FaultKind) (at : ℕ) →
        ¬ HasGameFault text.now raw.now of at) }
    ensures fault { (f : SgfFault) → result ≡ Err (Fault f) →
        IsFirstGameFault text.now raw.now f.kind f.at }
{
    let mut builder = TreeBuilder::with_room(alloc, shape, raw.node_count())?;
    if let Err(error) = read_root(text, shape, root, game, &mut builder) {
        return Err(error);
    }
    if let Err(error) = read_others(text, raw, shape, &mut builder) {
        return Err(error);
    }
    builder.is_grown();
    match information(alloc, text, root.pairs()) {
        Ok(info) => Ok(builder.finish(info)),
        Err(NoMemory) => Err(BuildError::NoMemory),
    }
}

// The nodes below the root.
fn read_others(
    text: &[u8],
    raw: &FlatGame<'_>,
    shape: Shape,
    builder: &mut TreeBuilder,
) -> Result<(), BuildError>
    requires read { IsOfText text.now raw.now }
    requires root { HasBuilt text.now raw.now shape 1 builder.old }
    ensures ok { IfOk result
        (λ _. HasBuilt text.now raw.now shape (length raw.now.nodes) builder.new) }
    ensures fault { (f : SgfFault) → result ≡ Err (Fault f) → IsNodeBad text.now raw.now shape f }
{
    for number in 1..raw.node_count() {
        let node = raw.node(number);
        if let Err(error) = read_node(text, shape, &node, builder) {
            return Err(error);
        }
    }
    Ok(())
}

// The root, whose first fault is that of its values or that it is another game.
fn read_root(
    text: &[u8],
    shape: Shape,
    root: &FlatNode<'_>,
    game: Option<SgfFault>,
    builder: &mut TreeBuilder,
) -> Result<(), BuildError>
    requires first { builder.old ≡ nothing_built shape }
    requires parent { root.now.parent ≡ None }
    requires room { length root.now.pairs < 4294967295 }
    requires inside { All (LiesIn (length text.now)) root.now.pairs }
    requires ascending { Ascend root.now.pairs }
    ensures ok { IfOk result (λ _. (game ≡ None)
        × IsNodeRead text.now shape root.now builder.old builder.new) }
    ensures fault { (f : SgfFault) → result ≡ Err (Fault f) →
        IsRootBad text.now shape root.now game f }
{
    match read_values(text, shape, root.pairs(), builder) {
        Err(BuildError::Fault(fault)) => Err(BuildError::Fault(first_fault(fault, game))),
        Err(BuildError::NoMemory) => Err(BuildError::NoMemory),
        Ok(played) => match game {
            Some(fault) => Err(BuildError::Fault(fault)),
            None => add_node(root, played, builder),
        },
    }
}

// One node below the root.
fn read_node(
    text: &[u8],
    shape: Shape,
    node: &FlatNode<'_>,
    builder: &mut TreeBuilder,
) -> Result<(), BuildError>
    requires shape { builder.old.shape ≡ shape }
    requires nodes { length builder.old.nodes < 65536 }
    requires parent { IsNextParent builder.old node.now.parent }
    requires room { builder.old.setup_count + length node.now.pairs < 4294967295 }
    requires inside { All (LiesIn (length text.now)) node.now.pairs }
    requires ascending { Ascend node.now.pairs }
    ensures ok { IfOk result (λ _. IsNodeRead text.now shape node.now builder.old builder.new) }
    ensures fault { (f : SgfFault) → result ≡ Err (Fault f) →
        IsFirstNodeFault text.now shape node.now.pairs f.kind f.at }
{
    match read_values(text, shape, node.pairs(), builder) {
        Err(error) => Err(error),
        Ok(played) => add_node(node, played, builder),
    }
}

// Ends the node whose values were read.
fn add_node(
    node: &FlatNode<'_>,
    played: Option<Move>,
    builder: &mut TreeBuilder,
) -> Result<(), BuildError>
    requires nodes { length builder.old.nodes < 65536 }
    requires parent { IsNextParent builder.old node.now.parent }
    requires on_board { IfSome played (IsMoveOnBoard builder.old.shape) }
    ensures ok { IfOk result (λ _. builder.new ≡ with_node builder.old node.now.parent played) }
    ensures fault { (f : SgfFault) → ¬ (result ≡ Err (Fault f)) }
{
    match builder.add_node(node.parent(), played) {
        Ok(()) => Ok(()),
        Err(_) => Err(BuildError::NoMemory),
    }
}
