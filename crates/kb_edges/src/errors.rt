// What a call of the outside answers where it fails.
ghost use Rattle.std.specs.Prelude.{◌≡◌};
ghost use Rattle.kb_edges.specs.declared.errors.FolderError.TheVariants.{NoMemory};
ghost use Rattle.kb_edges.specs.declared.errors.SinkError.TheVariants as sink;

use std::alloc::AllocError;
use std::error::Error;
use std::fmt;

/// A read failed: the count of faults rose in that call.
#[derive(Clone, Copy, Debug, PartialEq, Eq)]
pub struct ReadFailed;

/// Why a write took nothing.
#[derive(Clone, Copy, Debug, PartialEq, Eq)]
pub enum SinkError {
    /// A fault: the count of faults rose in that call.
    Failed,
    /// Want of memory. It is no fault.
    NoMemory,
}

/// Why a folder gave no answer.
#[derive(Clone, Copy, Debug, PartialEq, Eq)]
pub enum FolderError {
    /// A fault: the count of faults rose in that call.
    Failed,
    /// The folder tells its files, and has none with the path, or with the path and the name. It is
    /// no fault.
    Missing,
    /// Want of memory.
    NoMemory,
}

impl fmt::Display for ReadFailed {
    fn fmt<W: fmt::Write>(&self, f: &mut fmt::Formatter<W>) -> fmt::Result {
        f.write_str("a read failed")
    }
}

impl Error for ReadFailed {}

impl fmt::Display for SinkError {
    fn fmt<W: fmt::Write>(&self, f: &mut fmt::Formatter<W>) -> fmt::Result {
        f.write_str(match self {
            SinkError::Failed => "a write failed",
            SinkError::NoMemory => "out of memory",
        })
    }
}

impl Error for SinkError {}

impl fmt::Display for FolderError {
    fn fmt<W: fmt::Write>(&self, f: &mut fmt::Formatter<W>) -> fmt::Result {
        f.write_str(match self {
            FolderError::Failed => "a call of the folder failed",
            FolderError::Missing => "no such path or file",
            FolderError::NoMemory => "out of memory",
        })
    }
}

impl Error for FolderError {}

impl From<AllocError> for SinkError {
    ghost from_gives = { λ _ e. e ≡ sink.NoMemory };

    fn from(_: AllocError) -> Self {
        SinkError::NoMemory
    }
}

impl From<AllocError> for FolderError {
    ghost from_gives = { λ _ e. e ≡ NoMemory };

    fn from(_: AllocError) -> Self {
        FolderError::NoMemory
    }
}
