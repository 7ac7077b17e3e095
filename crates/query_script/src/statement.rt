// The statements of a script, and why a script is refused.
ghost use Rattle.std.specs.Prelude.{◌≡◌};
ghost use Rattle.query_script.specs.declared.statement.ScriptError.TheVariants.{NoMemory};

use dyer_signature::SigPattern;
use info_filter::Filter;
use kb_geometry::{Items, NoMemory, Shape, Text};
use pattern_images::Query;
use std::alloc::{AllocError, AllocFailed};
use std::error::Error;
use std::fmt;

/// The most bytes that a script may have.
pub const MAX_SCRIPT: usize = 1_048_576;

/// A statement of the script.
#[derive(Debug, Drop)]
pub enum Statement {
    /// `import PATH`: imports the files of a folder.
    Import {
        path: Text,
    },
    /// `make N START`: makes so many games by a generator whose numbers begin with START, at most
    /// 400,000 games and 2,147,483,647.
    Make {
        games: u32,
        start: u32,
    },
    /// `wait`: waits for the import, and tells the version after it.
    Wait,
    /// `until K`: waits for the version with this number.
    Until {
        number: u64,
    },
    /// `search ..`: where a pattern occurs in the games that a filter accepts. Without `where` the
    /// filter has no condition.
    Search {
        query: Query,
        filter: Filter,
    },
    /// `together`, one to eight lines of searches, `end`: searches that are asked together.
    Together {
        searches: SearchList,
    },
    /// `kept ..`: how many games may have the pattern by what their points and corners were. The
    /// query is that of a search on all lines of play and at all moves.
    Kept {
        query: Query,
    },
    /// `signature PATTERN`: the games whose signature matches a pattern.
    Signature {
        pattern: SigPattern,
    },
    /// `players`: the players of the games.
    Players,
    /// `doubles`: the groups of two games or more that have boards of one shape and one canonical
    /// signature, in which not every byte is `?`.
    Doubles,
    /// `game N`: a game as SGF text.
    Game {
        number: u32,
    },
    /// `opening C R D M`: the positions that came up M times or more in games on boards of this shape,
    /// turned or not, at roots or by a change, with a move number of at most D; and what was played next.
    Opening {
        shape: Shape,
        depth: u32,
        least: u32,
    },
    /// `report`: what the collectors tell of the hits so far.
    Report,
    /// `retire NAME`: drops the first collector of this name.
    Retire {
        name: Text,
    },
    /// `watch NAME ..`: a search under a name, whose hits are kept up by [`Statement::Watched`].
    /// Without `where` the filter has no condition.
    Watch {
        name: Text,
        query: Query,
        filter: Filter,
    },
    /// `watched NAME`: the hits of the watched search of this name.
    Watched {
        name: Text,
    },
}

/// A statement and its line, from 1. A block of searches has the line of its `together`.
#[derive(Debug, Drop)]
pub struct Placed {
    pub line: u32,
    pub statement: Statement,
}

/// A search inside a block, and its line, from 1.
#[derive(Debug, Drop)]
pub struct PlacedSearch {
    pub line: u32,
    pub query: Query,
    pub filter: Filter,
}

/// Searches of a block. Contracts see them as a list.
pub type SearchList = Items<PlacedSearch>;

/// Why a script was not read.
#[derive(Clone, Copy, Debug, PartialEq, Eq)]
pub enum ScriptError {
    /// The least line that is bad, from 1.
    BadLine { line: u32 },
    /// An allocation was refused.
    NoMemory,
}

impl fmt::Display for ScriptError {
    fn fmt<W: fmt::Write>(&self, f: &mut fmt::Formatter<W>) -> fmt::Result {
        match *self {
            ScriptError::BadLine { line } => write!(f, "line {line} is bad"),
            ScriptError::NoMemory => f.write_str("out of memory"),
        }
    }
}

impl Error for ScriptError {}

impl From<AllocError> for ScriptError {
    ghost from_gives = { λ _ e. e ≡ NoMemory };

    fn from(_: AllocError) -> Self {
        ScriptError::NoMemory
    }
}

impl<T: Drop> From<AllocFailed<T>> for ScriptError {
    ghost from_gives = { λ _ e. e ≡ NoMemory };

    fn from(_: AllocFailed<T>) -> Self {
        ScriptError::NoMemory
    }
}

impl From<NoMemory> for ScriptError {
    ghost from_gives = { λ _ e. e ≡ NoMemory };

    fn from(_: NoMemory) -> Self {
        ScriptError::NoMemory
    }
}
