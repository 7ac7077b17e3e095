// From raw games to game trees.
ghost use Rattle.std.specs.Prelude.{◌≡◌, ℕ, IfOk, Err};
ghost use Rattle.sgf_reader.specs.declared.fault.FaultKind.{FaultKind};
ghost use Rattle.sgf_reader.specs.declared.fault.SgfFault.{SgfFault};
ghost use Rattle.sgf_reader.specs.Faults.{IsRead};
ghost use Rattle.game_tree.specs.declared.building.BuildError.TheVariants.{Fault, NoMemory};
ghost use Rattle.game_tree.specs.Trees.{AreTreesOf};
ghost use Rattle.game_tree.specs.ValueFaults.{HasValueFault, IsFirstValueFault};

use crate::GameTree;
use crate::game::build_game;
use sgf_reader::{Collection, FlatCollection, SgfFault};
use std::alloc::{AllocError, AllocFailed, Global};
use std::error::Error;
use std::fmt;

/// Why no trees were built.
#[derive(Clone, Copy, Debug, PartialEq, Eq)]
pub enum BuildError {
    /// The values have this fault first.
    Fault(SgfFault),
    /// An allocation was refused.
    NoMemory,
}

impl fmt::Display for BuildError {
    fn fmt<W: fmt::Write>(&self, f: &mut fmt::Formatter<W>) -> fmt::Result {
        match self {
            BuildError::Fault(fault) => write!(f, "{fault}"),
            BuildError::NoMemory => f.write_str("out of memory"),
        }
    }
}

impl Error for BuildError {}

impl From<kb_geometry::NoMemory> for BuildError {
    ghost from_gives = { λ _ e. e ≡ NoMemory };

    fn from(_: kb_geometry::NoMemory) -> Self {
        BuildError::NoMemory
    }
}

impl From<AllocError> for BuildError {
    ghost from_gives = { λ _ e. e ≡ NoMemory };

    fn from(_: AllocError) -> Self {
        BuildError::NoMemory
    }
}

impl<T: Drop> From<AllocFailed<T>> for BuildError {
    ghost from_gives = { λ _ e. e ≡ NoMemory };

    fn from(_: AllocFailed<T>) -> Self {
        BuildError::NoMemory
    }
}

/// Builds the game trees of a collection that [`sgf_reader::read_flat`] gave for this text, one for
/// each game, in order, or answers the first fault of its values.
///
/// A value's fault is of the kinds from `NotGo` to `TwoMoves`, and its place is the offset of the
/// value's `[`. That of least offset is answered, and at one value `TwoMoves` comes before
/// `BadPoint`.
pub fn build_flat(
    alloc: Global,
    text: &[u8],
    collection: &FlatCollection,
) -> Result<Vec<GameTree>, BuildError>
    requires { IsRead text.now collection.now }
    ensures ok { IfOk result (λ trees. AreTreesOf text.now collection.now trees.items) }
    ensures no_fault { IfOk result (λ _. (kind : FaultKind) (at : ℕ) →
        ¬ HasValueFault text.now collection.now kind at) }
    ensures fault { (f : SgfFault) → result ≡ Err (Fault f) →
        IsFirstValueFault text.now collection.now f.kind f.at }
{
    let mut trees = Vec::with_capacity(alloc, collection.game_count())?;
    for number in 0..collection.game_count() {
        match build_game(alloc, text, &collection.game(number)) {
            Ok(tree) => trees.push(tree)?,
            Err(error) => return Err(error),
        }
    }
    Ok(trees)
}

/// Builds the game trees of a collection that [`sgf_reader::read`] gave for this text, as
/// [`build_flat`] does.
pub fn build(
    alloc: Global,
    text: &[u8],
    collection: &Collection,
) -> Result<Vec<GameTree>, BuildError>
    requires { IsRead text.now collection.now }
    ensures ok { IfOk result (λ trees. AreTreesOf text.now collection.now trees.items) }
    ensures no_fault { IfOk result (λ _. (kind : FaultKind) (at : ℕ) →
        ¬ HasValueFault text.now collection.now kind at) }
    ensures fault { (f : SgfFault) → result ≡ Err (Fault f) →
        IsFirstValueFault text.now collection.now f.kind f.at }
{
    let flat = FlatCollection::of(alloc, collection)?;
    build_flat(alloc, text, &flat)
}
