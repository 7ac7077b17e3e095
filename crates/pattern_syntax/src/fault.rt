// Why a text is no pattern.
ghost use Rattle.std.specs.Prelude.{◌≡◌};
ghost use Rattle.pattern_syntax.specs.declared.fault.PatternError.TheVariants.{NoMemory};

use std::alloc::{AllocError, AllocFailed};
use std::error::Error;
use std::fmt;

/// The first fault of a text.
#[derive(Clone, Copy, Debug, PartialEq, Eq)]
pub struct PatternFault {
    /// The offset of its byte in the text, from 0; the text's length where the fault is at the end.
    pub column: u32,
}

/// Why no pattern was read.
#[derive(Clone, Copy, Debug, PartialEq, Eq)]
pub enum PatternError {
    /// The text has this fault first.
    Fault(PatternFault),
    /// An allocation was refused.
    NoMemory,
}

impl fmt::Display for PatternFault {
    fn fmt<W: fmt::Write>(&self, f: &mut fmt::Formatter<W>) -> fmt::Result {
        let PatternFault { column } = *self;
        write!(f, "not a pattern at byte {column}")
    }
}

impl fmt::Display for PatternError {
    fn fmt<W: fmt::Write>(&self, f: &mut fmt::Formatter<W>) -> fmt::Result {
        match self {
            PatternError::Fault(fault) => write!(f, "{fault}"),
            PatternError::NoMemory => f.write_str("out of memory"),
        }
    }
}

impl Error for PatternError {}

impl From<kb_geometry::NoMemory> for PatternError {
    ghost from_gives = { λ _ e. e ≡ NoMemory };

    fn from(_: kb_geometry::NoMemory) -> Self {
        PatternError::NoMemory
    }
}

impl From<AllocError> for PatternError {
    ghost from_gives = { λ _ e. e ≡ NoMemory };

    fn from(_: AllocError) -> Self {
        PatternError::NoMemory
    }
}

impl<T: Drop> From<AllocFailed<T>> for PatternError {
    ghost from_gives = { λ _ e. e ≡ NoMemory };

    fn from(_: AllocFailed<T>) -> Self {
        PatternError::NoMemory
    }
}
