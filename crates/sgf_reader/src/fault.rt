// What can be wrong with a text.
ghost use Rattle.std.specs.Prelude.{◌≡◌};
ghost use Rattle.sgf_reader.specs.declared.fault.ReadError.TheVariants.{NoMemory};

use std::alloc::{AllocError, AllocFailed};
use std::error::Error;
use std::fmt;

/// The kinds of fault, of the syntax and of values.
#[derive(Clone, Copy, Debug, PartialEq, Eq)]
pub enum FaultKind {
    /// No tree starts in the text.
    NoGame,
    /// A byte inside a tree continues no text of the grammar.
    Unexpected,
    /// The text ends inside a tree.
    Ended,
    /// The text has more than `MAX_FILE` bytes.
    TooLong,
    /// More than `MAX_OPEN` brackets are open at one time.
    TooDeep,
    /// A game has more than `MAX_NODES` nodes.
    TooManyNodes,
    /// The text has more than `MAX_GAMES` games.
    TooManyGames,
    /// The first GM value of a root is neither empty nor `1`.
    NotGo,
    /// The first SZ value of a root is neither empty nor a size.
    BadSize,
    /// A value of B, W, AB, AW or AE that isn't one of its forms on the board.
    BadPoint,
    /// The second value of B or W in one node.
    TwoMoves,
}

/// A fault and its place, a byte offset from 0.
#[derive(Clone, Copy, Debug, PartialEq, Eq)]
pub struct SgfFault {
    pub kind: FaultKind,
    pub at: u32,
}

/// Why no collection was read.
#[derive(Clone, Copy, Debug, PartialEq, Eq)]
pub enum ReadError {
    /// The text has this fault first.
    Fault(SgfFault),
    /// An allocation was refused.
    NoMemory,
}

impl fmt::Display for SgfFault {
    fn fmt<W: fmt::Write>(&self, f: &mut fmt::Formatter<W>) -> fmt::Result {
        let SgfFault { kind, at } = *self;
        write!(f, "{kind:?} at byte {at}")
    }
}

impl fmt::Display for ReadError {
    fn fmt<W: fmt::Write>(&self, f: &mut fmt::Formatter<W>) -> fmt::Result {
        match self {
            ReadError::Fault(fault) => write!(f, "{fault}"),
            ReadError::NoMemory => f.write_str("out of memory"),
        }
    }
}

impl Error for ReadError {}

impl From<AllocError> for ReadError {
    ghost from_gives = { λ _ e. e ≡ NoMemory };

    fn from(_: AllocError) -> Self {
        ReadError::NoMemory
    }
}

impl<T: Drop> From<AllocFailed<T>> for ReadError {
    ghost from_gives = { λ _ e. e ≡ NoMemory };

    fn from(_: AllocFailed<T>) -> Self {
        ReadError::NoMemory
    }
}
